#![tactic(auto)]

ghost use Rattle.std.specs.Prelude.{◌≡◌, ◌≢◌, slice_index, IfSome, IfNone, Some};
ghost use Rattle.il_frames.specs.declared.frame.Frame.{Frame};
ghost use Rattle.il_frames.specs.Frames.{IsFrame};
ghost use Rattle.il_frames.specs.Names.{row_of, number_in, candidate_of};
ghost use Rattle.il_frames.specs.Texts.{text_of};

use crate::frame::{Class, Frame};
use arrayvec::ArrayVec;

/// The letters of a name, the class that it belongs to, and its byte or its group's first byte.
#[derive(Clone, Copy)]
struct Name([u8; 3], Class, u8);

/// The names that stand alone.
static ALONE: [Name; 28] = [
    Name(*b"NUL", Class::Cmd, 0x00),
    Name(*b"GTL", Class::Cmd, 0x01),
    Name(*b"SDC", Class::Cmd, 0x04),
    Name(*b"PPD", Class::Cmd, 0x05),
    Name(*b"GET", Class::Cmd, 0x08),
    Name(*b"ELN", Class::Cmd, 0x0F),
    Name(*b"NOP", Class::Cmd, 0x10),
    Name(*b"LLO", Class::Cmd, 0x11),
    Name(*b"DCL", Class::Cmd, 0x14),
    Name(*b"PPU", Class::Cmd, 0x15),
    Name(*b"EAR", Class::Cmd, 0x18),
    Name(*b"UNL", Class::Cmd, 0x3F),
    Name(*b"UNT", Class::Cmd, 0x5F),
    Name(*b"IFC", Class::Cmd, 0x90),
    Name(*b"REN", Class::Cmd, 0x92),
    Name(*b"NRE", Class::Cmd, 0x93),
    Name(*b"AAU", Class::Cmd, 0x9A),
    Name(*b"LPD", Class::Cmd, 0x9B),
    Name(*b"RFC", Class::Rdy, 0x00),
    Name(*b"ETO", Class::Rdy, 0x40),
    Name(*b"ETE", Class::Rdy, 0x41),
    Name(*b"NRD", Class::Rdy, 0x42),
    Name(*b"SDA", Class::Rdy, 0x60),
    Name(*b"SST", Class::Rdy, 0x61),
    Name(*b"SDI", Class::Rdy, 0x62),
    Name(*b"SAI", Class::Rdy, 0x63),
    Name(*b"TCT", Class::Rdy, 0x64),
    Name(*b"IAA", Class::Rdy, 0x9F),
];

/// The names that a number follows.
static NUMBERED: [Name; 15] = [
    Name(*b"DAB", Class::Dab, 0x00),
    Name(*b"DSR", Class::Dsr, 0x00),
    Name(*b"END", Class::End, 0x00),
    Name(*b"ESR", Class::Esr, 0x00),
    Name(*b"CMD", Class::Cmd, 0x00),
    Name(*b"LAD", Class::Cmd, 0x20),
    Name(*b"TAD", Class::Cmd, 0x40),
    Name(*b"SAD", Class::Cmd, 0x60),
    Name(*b"PPE", Class::Cmd, 0x80),
    Name(*b"DDL", Class::Cmd, 0xA0),
    Name(*b"DDT", Class::Cmd, 0xC0),
    Name(*b"RDY", Class::Rdy, 0x00),
    Name(*b"AAD", Class::Rdy, 0x80),
    Name(*b"IDY", Class::Idy, 0x00),
    Name(*b"ISR", Class::Isr, 0x00),
];

/// The row that has these letters.
fn row_named(rows: &[Name], letters: [u8; 3]) -> Option<Name>
    ensures { result ≡ row_of rows.now letters }
{
    rows.iter().copied().find(|row| row.0 == letters)
}

/// The byte there, or 0 past the end.
pub(crate) fn byte_at(text: &[u8], index: usize) -> u8
    ensures { result ≡ slice_index text.now index }
{
    text.get(index).copied().unwrap_or(0)
}

/// The number that the fifth and sixth byte spell.
fn number_at(text: &[u8]) -> Option<u8>
    ensures { result ≡ number_in text.now }
{
    let digits = [byte_at(text, 4), byte_at(text, 5)];
    let mut number = [0];
    hex::decode_to_slice(digits, &mut number).ok()?;
    Some(number[0])
}

/// The one frame that may have this text: its own text is still to be compared.
pub(crate) fn candidate(text: &[u8]) -> Option<Frame>
    ensures { result ≡ candidate_of text.now }
{
    let letters = [byte_at(text, 0), byte_at(text, 1), byte_at(text, 2)];
    if let Some(Name(_, class, byte)) = row_named(&ALONE, letters) {
        return Some(Frame::new(class, byte));
    }
    let Name(_, class, first) = row_named(&NUMBERED, letters)?;
    let number = number_at(text)?;
    Some(Frame::new(class, first.wrapping_add(number)))
}

impl Frame {
    /// The frame that has this text, and `None` where no frame has it.
    ///
    /// Each frame has one text, so a byte that has a name is not read from its `CMD HH` or
    /// `RDY HH`, and letters and hex digits are read in upper case alone.
    pub fn read_text(text: &[u8]) -> Option<Frame>
        ensures found { IfSome result (λ frame. text_of frame ≡ text.now) }
        ensures every { (frame : Frame) → IsFrame frame → text_of frame ≡ text.now → result ≡ Some frame }
        ensures none { IfNone result ((frame : Frame) → IsFrame frame → text_of frame ≢ text.now) }
    {
        let frame = candidate(text)?;
        let mut own_text = ArrayVec::new();
        frame.text(&mut own_text);
        if own_text.as_slice() == text {
            Some(frame)
        } else {
            None
        }
    }
}
