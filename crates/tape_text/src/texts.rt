//! The lines of a text file, and its size.
ghost use Rattle.std.specs.Prelude.{◌≡◌, ◌+◌, ◌≤◌, ◌++◌, true, is_some, length, option_map};
ghost use Rattle.lif_text.specs.Pieces.{lines_in};
ghost use Rattle.tape_text.specs.Texts.{fed_line, text_lines, text_size};

use il_script::Page;
use lif_text::{Piece, next};

/// Appends a line and a line feed.
fn put_line(page: &mut Page, line: &[u8])
    requires { length page.old.text + length line.now + 1 ≤ page.old.room }
    ensures text { page.new ≡ record page.old { text = page.old.text ++ fed_line line.now } }
    ensures size { length page.new.text ≡ length page.old.text + length line.now + 1 }
{
    page.put(line);
    page.put(b"\n");
}

/// Appends the lines of a text file, each with a line feed, and returns whether the bytes are a text. There is room
/// for as many bytes as the file has.
pub fn put_text(page: &mut Page, bytes: &[u8]) -> bool
    requires { length page.old.text + length bytes.now ≤ page.old.room }
    ensures text { result ≡ is_some (lines_in bytes.now) }
    ensures lines { result ≡ true →
        option_map (λ lines. page.old.text ++ lines) (text_lines bytes.now) ≡ Some page.new.text }
    ensures size { length page.new.text ≤ length page.old.text + length bytes.now }
    ensures room { page.new.room ≡ page.old.room }
{
    let mut at = 0;
    'lines: loop {
        match next(bytes, at) {
            Ok(
                Piece::Line {
                    from,
                    to,
                    next: after,
                },
            ) => {
                put_line(page, &bytes[from..to]);
                at = after;
            }
            Ok(Piece::End) => return true,
            Err(_) => return false,
        }
    }
}

/// Returns how many of the bytes of a text file its lines take, with the mark that ends them, if there is one. Returns
/// `None` if the bytes are no text.
pub fn text_size(bytes: &[u8]) -> Option<usize>
    ensures { result ≡ text_size bytes.now }
{
    let mut at = 0;
    'lines: loop {
        match next(bytes, at) {
            Ok(Piece::Line { next: after, .. }) => at = after,
            Ok(Piece::End) => return Some((at + 2).min(bytes.len())),
            Err(_) => return None,
        }
    }
}
