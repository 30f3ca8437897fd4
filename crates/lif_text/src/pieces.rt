ghost use Rattle.std.specs.Prelude.{◌≡◌, ◌↔◌, ◌+◌, ◌<◌, ◌≤◌, ◌^◌, ℕ, List, Some, length, drop, IfOk};
ghost use Rattle.lif_text.specs.Format.{Text};
ghost use Rattle.lif_text.specs.Pieces.{piece_at, piece_of_length, lines_in, lines_from, IsWithin};

use crate::{END_MARK, LONGEST_LINE};

/// What stands at a place of a text.
#[derive(Clone, Copy, Debug, PartialEq, Eq, Drop)]
pub enum Piece {
    /// A line.
    Line {
        /// Where its bytes begin.
        from: usize,
        /// Where its bytes end.
        to: usize,
        /// The place after the line and its filler, where the next piece stands.
        next: usize,
    },
    /// The end of the text.
    End,
}

/// Why bytes are no text, with the place of the line at which they are none.
#[derive(Clone, Copy, Debug, PartialEq, Eq, Drop)]
pub enum TextFault {
    /// The length at the place is 8000 to FFFE hex, that of no line.
    Length(usize),
    /// The bytes end within the line's length, its bytes or its filler.
    Short(usize),
}

/// What stands at place `at` of the bytes of a text file: a line, or the end of the text, where no byte is left or
/// FFFF hex stands. The error is `Length` exactly where the two bytes at the place are 8000 to FFFE hex, and `Short`
/// exactly where one byte is left, or where the line or its filler passes the end of the bytes.
///
/// From place 0 on, each time at the place after the line before, this gives the lines of the text; a fault comes
/// exactly where the bytes are those of no text.
pub fn next(bytes: &[u8], at: usize) -> Result<Piece, TextFault>
    requires { at ≤ length bytes.now }
    ensures piece { result ≡ piece_at bytes.now at }
    ensures within { IfOk result (IsWithin at (length bytes.now)) }
    ensures lines { lines_in (drop at bytes.now) ≡ lines_from bytes.now result }
    ensures text { (lines : List (List ℕ))
        → Text lines (drop at bytes.now) ↔ (lines_in (drop at bytes.now) ≡ Some lines) }
{
    match &bytes[at..] {
        [] => Ok(Piece::End),
        [_] => Err(TextFault::Short(at)),
        [high, low, rest @ ..] => piece_of_length(
            at,
            u16::from_be_bytes([*high, *low]),
            rest.len(),
        ),
    }
}

/// What stands at a place with this length, where `left` bytes come after the length.
fn piece_of_length(at: usize, length: u16, left: usize) -> Result<Piece, TextFault>
    requires { at + 2 + left < 2 ^ 64 }
    ensures { result ≡ piece_of_length at length left }
{
    if length == END_MARK {
        return Ok(Piece::End);
    }
    if length > LONGEST_LINE {
        return Err(TextFault::Length(at));
    }
    let length = usize::from(length);
    let filled = length + length % 2;
    if filled > left {
        return Err(TextFault::Short(at));
    }
    let from = at + 2;
    Ok(Piece::Line {
        from,
        to: from + length,
        next: from + filled,
    })
}
