ghost use Rattle.std.specs.Prelude.{◌≡◌, ◌<◌, ◌≤◌, ◌∷◌, length, option_map};
ghost use Rattle.std.specs.Result.{result_err};
ghost use Rattle.std.specs.List.{prefix_len};
ghost use Rattle.lif_text.specs.Cutting.{is_no_feed, cut_lines, long_line};

use crate::LONGEST_LINE;
use crate::buffer::LongLine;

/// How many bytes stand before the first line feed.
fn first_length(text: &[u8]) -> usize
    ensures count { result ≡ prefix_len is_no_feed text.now }
    ensures within { result ≤ length text.now }
{
    text.iter().take_while(|byte| **byte != b'\n').count()
}

/// The first line of a text that is not empty, without its line feed, and the text after it.
pub fn first_line(text: &[u8]) -> (&[u8], &[u8])
    requires { 0 < length text.now }
    ensures lines { cut_lines text.now ≡ result.0.now ∷ cut_lines result.1.now }
    ensures shorter { length result.1.now < length text.now }
{
    let end = first_length(text);
    (&text[..end], &text[(end + 1).min(text.len())..])
}

/// Whether each line of the text fits; the error is the first that has too many bytes.
pub fn check_lines(text: &[u8]) -> Result<(), LongLine>
    ensures { option_map (λ fault. fault.0) (result_err result) ≡ long_line (cut_lines text.now) }
{
    let mut number = 1;
    let mut rest = text;
    while !rest.is_empty() {
        let (line, after) = first_line(rest);
        if line.len() > usize::from(LONGEST_LINE) {
            return Err(LongLine(number));
        }
        number += 1;
        rest = after;
    }
    Ok(())
}
