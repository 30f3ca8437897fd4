ghost use Rattle.std.specs.Prelude.{◌≡◌, ◌≤◌, length, option_map, IfSome};
ghost use Rattle.std.specs.List.{take_while};
ghost use Rattle.il_script.specs.Words.{IsNext, words_of, without_return, is_none, only_one, only_two, only_four, is_space, is_dark};

use memchr::memchr;

/// The line without a carriage return at its end.
pub fn without_return(line: &[u8]) -> &[u8]
    ensures text { result.now ≡ without_return line.now }
    ensures size { length result.now ≤ length line.now }
{
    if line.ends_with(b"\r") {
        &line[..line.len() - 1]
    } else {
        line
    }
}

/// How many spaces stand at the front.
fn gap(line: &[u8]) -> usize
    ensures { result ≡ length (take_while is_space line.now) }
{
    line.iter().take_while(|b| **b == b' ').count()
}

/// How many other bytes stand at the front.
fn reach(line: &[u8]) -> usize
    ensures { result ≡ length (take_while is_dark line.now) }
{
    memchr(b' ', line).unwrap_or(line.len())
}

/// The first word, or an empty one where there is none, and what comes after it.
pub fn next_word(line: &[u8]) -> (&[u8], &[u8])
    ensures words { IsNext line.now result.0.now result.1.now }
    ensures word { length result.0.now ≤ length line.now }
    ensures rest { length result.1.now ≤ length line.now }
{
    let line = &line[gap(line)..];
    line.split_at(reach(line))
}

/// Whether there is no further word.
pub fn is_end(line: &[u8]) -> bool
    ensures { result ≡ is_none (words_of line.now) }
{
    next_word(line).0.is_empty()
}

/// The word, where there is exactly one.
pub fn one_part(line: &[u8]) -> Option<&[u8]>
    ensures words { option_map (λ part. part.now) result ≡ only_one (words_of line.now) }
    ensures size { IfSome result (λ part. length part.now ≤ length line.now) }
{
    let (a, rest) = next_word(line);
    if a.is_empty() || !is_end(rest) {
        return None;
    }
    Some(a)
}

/// The words, where there are exactly two.
pub fn two_parts(line: &[u8]) -> Option<(&[u8], &[u8])>
    ensures words { option_map (λ parts. (parts.0.now, parts.1.now)) result ≡ only_two (words_of line.now) }
    ensures size { IfSome result (λ parts. length parts.1.now ≤ length line.now) }
{
    let (a, rest) = next_word(line);
    let (b, rest) = next_word(rest);
    if a.is_empty() || b.is_empty() || !is_end(rest) {
        return None;
    }
    Some((a, b))
}

/// The words, where there are exactly four.
pub fn four_parts(line: &[u8]) -> Option<(&[u8], &[u8], &[u8], &[u8])>
    ensures words { option_map (λ parts. (parts.0.now, parts.1.now, parts.2.now, parts.3.now)) result ≡ only_four (words_of line.now) }
    ensures size { IfSome result (λ parts. length parts.3.now ≤ length line.now) }
{
    let (a, rest) = next_word(line);
    let (b, rest) = next_word(rest);
    let (c, d) = two_parts(rest)?;
    if a.is_empty() || b.is_empty() {
        return None;
    }
    Some((a, b, c, d))
}
