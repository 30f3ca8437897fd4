ghost use Rattle.std.specs.Prelude.{◌≡◌, map, option_map, string_bytes};
ghost use Rattle.il_command.specs.Messages.{message_of, usage_of, way_of};

/// What the program does, by its words.
#[derive(Clone, Copy, PartialEq, Eq, Debug)]
pub enum Way {
    /// It answers a script.
    Script,
    /// It checks a trace.
    Check,
}

impl Way {
    /// A trace is checked exactly where there are five words, the first of which is `check`.
    pub fn of(words: &[String]) -> Way
        ensures { result ≡ way_of (map string_bytes words.now) }
    {
        if words.len() == 5 && words[0].as_str() == "check" {
            Way::Check
        } else {
            Way::Script
        }
    }

    /// The words that it takes.
    fn usage(self) -> &'static str
        ensures { result.now ≡ usage_of self }
    {
        match self {
            Way::Script => {
                "il: usage: il [--new] [--new-disc] [--quiet] [--guest] [--lose LIST] [--alter LIST] [--generate SEED:COUNT] IMAGE"
            }
            Way::Check => "il: usage: il check K D BEFORE AFTER",
        }
    }
}

/// What is printed on standard error for an exit status.
pub fn message(way: Way, status: u8) -> Option<&'static str>
    ensures { option_map (λ text. text.now) result ≡ message_of way status }
{
    match status {
        2 => Some(way.usage()),
        3 => Some("il: no such image"),
        4 => Some("il: image too large"),
        5 => Some("il: script could not be read"),
        6 => Some("il: output could not be written"),
        7 => Some("il: out of memory"),
        8 => Some("il: script too long"),
        9 => Some("il: image could not be opened"),
        10 => Some("il: image could not be read"),
        _ => None,
    }
}
