#![tactic(auto)]

ghost use Rattle.std.specs.Prelude.{◌≡◌, ◌+◌, ◌≤◌, ◌++◌, length};
ghost use Rattle.arrayvec.specs.ArrayVec.{array_vec_len};
ghost use Rattle.il_frames.specs.declared.frame.Frame.{Frame};
ghost use Rattle.il_frames.specs.Frames.{IsFrame};
ghost use Rattle.il_frames.specs.Texts.{name_of, number_of, hex_pair, text_of};

use crate::frame::Frame;
use crate::message::{Message, message_at};
use arrayvec::ArrayVec;

/// The hex digits, in upper case.
const DIGITS: &[u8; 16] = b"0123456789ABCDEF";

impl Message {
    fn name(self) -> &'static [u8; 3]
        ensures { result.now ≡ name_of self }
    {
        match self {
            Message::Dab(_) => b"DAB",
            Message::Dsr(_) => b"DSR",
            Message::End(_) => b"END",
            Message::Esr(_) => b"ESR",
            Message::Idy(_) => b"IDY",
            Message::Isr(_) => b"ISR",
            Message::Nul => b"NUL",
            Message::Gtl => b"GTL",
            Message::Sdc => b"SDC",
            Message::Ppd => b"PPD",
            Message::Get => b"GET",
            Message::Eln => b"ELN",
            Message::Nop => b"NOP",
            Message::Llo => b"LLO",
            Message::Dcl => b"DCL",
            Message::Ppu => b"PPU",
            Message::Ear => b"EAR",
            Message::Lad(_) => b"LAD",
            Message::Unl => b"UNL",
            Message::Tad(_) => b"TAD",
            Message::Unt => b"UNT",
            Message::Sad(_) => b"SAD",
            Message::Ppe(_) => b"PPE",
            Message::Ifc => b"IFC",
            Message::Ren => b"REN",
            Message::Nre => b"NRE",
            Message::Aau => b"AAU",
            Message::Lpd => b"LPD",
            Message::Ddl(_) => b"DDL",
            Message::Ddt(_) => b"DDT",
            Message::OtherCmd(_) => b"CMD",
            Message::Rfc => b"RFC",
            Message::Eto => b"ETO",
            Message::Ete => b"ETE",
            Message::Nrd => b"NRD",
            Message::Sda => b"SDA",
            Message::Sst => b"SST",
            Message::Sdi => b"SDI",
            Message::Sai => b"SAI",
            Message::Tct => b"TCT",
            Message::Aad(_) => b"AAD",
            Message::Iaa => b"IAA",
            Message::OtherRdy(_) => b"RDY",
        }
    }

    fn number(self) -> Option<u8>
        ensures { result ≡ number_of self }
    {
        match self {
            Message::Dab(number)
            | Message::Dsr(number)
            | Message::End(number)
            | Message::Esr(number)
            | Message::Idy(number)
            | Message::Isr(number)
            | Message::Lad(number)
            | Message::Tad(number)
            | Message::Sad(number)
            | Message::Ppe(number)
            | Message::Ddl(number)
            | Message::Ddt(number)
            | Message::OtherCmd(number)
            | Message::Aad(number)
            | Message::OtherRdy(number) => Some(number),
            _ => None,
        }
    }
}

/// The two hex digits of a byte, in upper case. A trace has four digits a line, too many for the crate `hex`, whose
/// slices are in lower case and would be gone over once more.
fn hex_digits(byte: u8) -> [u8; 2]
    ensures { result ≡ hex_pair byte }
{
    [
        DIGITS[usize::from(byte / 16)],
        DIGITS[usize::from(byte % 16)],
    ]
}

/// Appends bytes for which there is room.
#[inline(always)]
pub(crate) fn append<const CAP: usize>(out: &mut ArrayVec<u8, CAP>, bytes: &[u8])
    requires { array_vec_len out.old + length bytes.now ≤ CAP }
    ensures items { out.new.items ≡ out.old.items ++ bytes.now }
    ensures len { array_vec_len out.new ≡ array_vec_len out.old + length bytes.now }
{
    let _ = out.try_extend_from_slice(bytes);
}

/// Appends a frame's text. It is one array of three or six bytes, whose length is known where it is copied.
pub(crate) fn append_frame<const CAP: usize>(out: &mut ArrayVec<u8, CAP>, frame: Frame)
    requires { array_vec_len out.old + 6 ≤ CAP }
    ensures items { out.new.items ≡ out.old.items ++ text_of frame }
    ensures len { array_vec_len out.new ≤ array_vec_len out.old + 6 }
    ensures range { IsFrame frame }
{
    // By the frame's parts, not by `message`: reading the byte shows the proof its range.
    let message = message_at(frame.class(), frame.byte());
    let [first, second, third] = *message.name();
    match message.number() {
        Some(number) => {
            let [high, low] = hex_digits(number);
            append(out, &[first, second, third, b' ', high, low]);
        }
        None => append(out, &[first, second, third]),
    }
}

impl Frame {
    /// Replaces `out` by the frame's text: the name of its message, by the HP-IL Interface
    /// Specification (HP 82166-90017), and where the message carries a number, a space and the
    /// number as two hex digits in upper case. A command or ready byte without a name is `CMD HH`
    /// or `RDY HH`. No other frame has the same text.
    pub fn text(&self, out: &mut ArrayVec<u8, 16>)
        ensures value { out.new.items ≡ text_of self.now }
        ensures distinct { (other : Frame) → IsFrame other → text_of other ≡ out.new.items → other ≡ self.now }
    {
        out.clear();
        append_frame(out, *self);
    }
}
