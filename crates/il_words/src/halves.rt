ghost use Rattle.std.specs.Prelude.{◌≡◌, option_map};
ghost use Rattle.il_words.specs.Halves.{halves_of};

/// What stands before the first colon and after it. `None` comes exactly where there is no colon.
pub(crate) fn halves(text: &str) -> Option<(&str, &str)>
    ensures { option_map (λ pair. (pair.0.now, pair.1.now)) result ≡ halves_of text.now }
{
    text.split_once(':')
}
