ghost use Rattle.std.specs.Prelude.{◌≡◌, ◌≤◌, length};
ghost use Rattle.tape_input.specs.Input.{ReadsAll, ReadsText};

use il_ports::Source;
use lif_model::MOST_BYTES;
use lif_text::{LongLine, TextBuffer};
use std::alloc::Global;

/// How many bytes are asked for at once.
const PIECE: usize = 4_096;

/// Why no text was read.
#[derive(Clone, Copy, Debug, PartialEq, Eq, Drop)]
pub enum NoText {
    /// The source could not be read.
    Unread,
    /// The text, or the file that it makes, has more than 630,784 bytes, the size of a disc.
    TooLarge,
    /// This line of the text, counted from 1, has more than 32,767 bytes.
    LongLine(usize),
    /// There was no memory for it.
    OutOfMemory,
}

/// Reads a source to its end, or to one byte more than `most`, which is refused.
fn read_to_end<S: Source>(alloc: Global, source: &mut S, most: usize) -> Result<Vec<u8>, NoText>
    requires { most ≤ MOST_BYTES }
    ensures { ReadsAll most (S.left source.old) (S.left source.new)
        (S.faults source.old) (S.faults source.new) result }
{
    let Ok(mut bytes) = Vec::with_capacity(alloc, most + 1) else {
        return Err(NoText::OutOfMemory);
    };
    let mut piece = [0; PIECE];
    'pieces: while bytes.len() <= most {
        let room = PIECE.min(most + 1 - bytes.len());
        let Ok(count) = source.read(&mut piece[..room]) else {
            return Err(NoText::Unread);
        };
        if count == 0 {
            return Ok(bytes);
        }
        bytes.extend_from_slice(&piece[..count]).unwrap();
    }
    Err(NoText::TooLarge)
}

/// Reads a text from a source, to its end, as the bytes of a text file. Bytes 0A hex end its lines; the last one may have
/// none. All memory for the file is taken here.
pub fn read_text<S: Source>(alloc: Global, source: &mut S) -> Result<TextBuffer, NoText>
    ensures { ReadsText (S.left source.old) (S.left source.new)
        (S.faults source.old) (S.faults source.new) result }
{
    let bytes = read_to_end(alloc, source, MOST_BYTES)?;
    let Ok(mut text) = TextBuffer::new(alloc, 2 * bytes.len() + 4) else {
        return Err(NoText::OutOfMemory);
    };
    if let Err(LongLine(number)) = text.fill(&bytes) {
        return Err(NoText::LongLine(number));
    }
    if text.bytes().len() > MOST_BYTES {
        return Err(NoText::TooLarge);
    }
    Ok(text)
}
