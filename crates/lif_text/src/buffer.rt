use crate::END_MARK;
use crate::cutting::{check_lines, first_line};
use std::alloc::{AllocError, Global};
use std::marker::Model;

/// The number of the first line of a text that has more than 32,767 bytes. The lines are counted from 1.
#[derive(Clone, Copy, Debug, PartialEq, Eq, Drop)]
pub struct LongLine(pub usize);

/// The bytes of a text that is made, in room that was reserved. All memory is taken by `new`.
#[derive(Debug, Drop)]
pub struct TextBuffer {
    bytes: Vec<u8>,
    room: usize,
}

impl Model for TextBuffer {
    ghost use Rattle.std.specs.Prelude.{◌≤◌, vec_len};
    ghost use Rattle.std.specs.Vec.{vec_capacity};
    ghost use Rattle.lif_text.specs.Buffer.{BufferView};

    ghost Value = { BufferView };

    ghost view = { λ b. record { bytes = b.bytes.items; room = b.room } };

    ghost invariant = { λ b. (vec_len b.bytes ≤ b.room) × (b.room ≤ vec_capacity b.bytes) };
}

impl TextBuffer {
    ghost use Rattle.std.specs.Prelude.{◌≡◌, ◌+◌, ◌*◌, ◌≤◌, ◌++◌, ℕ, List, [], length, option_map, is_ok, IfOk, OnOk, if◌then◌else◌};
    ghost use Rattle.std.specs.Result.{result_err};
    ghost use Rattle.lif_text.specs.Format.{IsTextLine, Text, spelling, encode};
    ghost use Rattle.lif_text.specs.Cutting.{cut_lines, long_line};

    /// A buffer without bytes, for at most `room` of them. The only error is want of memory.
    pub fn new(alloc: Global, room: usize) -> Result<TextBuffer, AllocError>
        ensures { IfOk result (λ buffer. buffer ≡ record { bytes = []; room = room }) }
    {
        Ok(TextBuffer {
            bytes: Vec::with_capacity(alloc, room)?,
            room,
        })
    }

    /// Makes a text of the lines that end with the bytes 0A hex: the last line may end without one, and an empty text
    /// has no lines. Fillers are 00, and FFFF hex ends the text. The error is the number of the first line of more
    /// than 32,767 bytes, counted from 1; it comes exactly where there is such a line, and leaves the buffer as it was.
    pub fn fill(&mut self, text: &[u8]) -> Result<(), LongLine>
        requires { 2 * length text.now + 4 ≤ self.old.room }
        ensures fault { option_map (λ fault. fault.0) (result_err result) ≡ long_line (cut_lines text.now) }
        ensures bytes { self.new
            ≡ (if is_ok result then record self.old { bytes = encode (cut_lines text.now) } else self.old) }
        ensures size { OnOk result (length self.new.bytes ≤ 2 * length text.now + 4) }
        ensures read { OnOk result ((more : List ℕ) → Text (cut_lines text.now) (self.new.bytes ++ more)) }
    {
        check_lines(text)?;
        self.bytes.clear();
        let mut rest = text;
        while !rest.is_empty() {
            let (line, after) = first_line(rest);
            self.put_line(line);
            rest = after;
        }
        self.put(&END_MARK.to_be_bytes());
        Ok(())
    }

    /// The bytes of the text that was made last, none before the first.
    pub fn bytes(&self) -> &[u8]
        ensures bytes { result.now ≡ self.now.bytes }
        ensures size { length result.now ≤ self.now.room }
    {
        &self.bytes
    }

    /// Appends a line: its length, its bytes, and a filler where the length is odd.
    fn put_line(&mut self, line: &[u8])
        requires short { IsTextLine line.now }
        requires room { length self.old.bytes + length (spelling 0 line.now) ≤ self.old.room }
        ensures { self.new ≡ record self.old { bytes = self.old.bytes ++ spelling 0 line.now } }
    {
        self.put(&(line.len() as u16).to_be_bytes());
        self.put(line);
        if line.len() % 2 == 1 {
            self.put(&[0]);
        }
    }

    /// Appends bytes.
    fn put(&mut self, piece: &[u8])
        requires { length self.old.bytes + length piece.now ≤ self.old.room }
        ensures { self.new ≡ record self.old { bytes = self.old.bytes ++ piece.now } }
    {
        self.bytes.extend_from_slice(piece).unwrap();
    }
}
