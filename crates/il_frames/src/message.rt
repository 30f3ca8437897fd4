#![tactic(auto)]

ghost use Rattle.std.specs.Prelude.{◌≡◌, true};
ghost use Rattle.il_frames.specs.declared.message.Message.TheVariants as msg;
ghost use Rattle.il_frames.specs.Frames.{IsFrame};
ghost use Rattle.il_frames.specs.Messages.{commands, ready_messages, message_in, message_of, is_in_range};
ghost use Rattle.il_frames.specs.Messages.{frame_of, by_name};
ghost use Rattle.il_frames.specs.Messages as spec;
ghost use Rattle.il_frames.specs.declared.frame.Frame.{Frame};

use crate::frame::{Class, Frame};

/// What a frame says, by the tables of the HP-IL Interface Specification (HP 82166-90017).
///
/// The data and identify messages, `OtherCmd` and `OtherRdy` carry the frame's byte. The others
/// that carry a number have the byte's place in its group, from 0: an address, or the number of a
/// device's own command.
#[derive(Clone, Copy, PartialEq, Eq, Debug)]
pub enum Message {
    /// Data.
    Dab(u8),
    /// Data, with a request for service.
    Dsr(u8),
    /// Data that ends a record.
    End(u8),
    /// Data that ends a record, with a request for service.
    Esr(u8),
    /// Identify.
    Idy(u8),
    /// Identify, with a request for service.
    Isr(u8),
    /// Null command.
    Nul,
    /// Go to local.
    Gtl,
    /// Selected device clear.
    Sdc,
    /// Parallel poll disable.
    Ppd,
    /// Group execute trigger.
    Get,
    /// Enable listener not ready for data.
    Eln,
    /// No operation.
    Nop,
    /// Local lockout.
    Llo,
    /// Device clear.
    Dcl,
    /// Parallel poll unconfigure.
    Ppu,
    /// Enable asynchronous requests.
    Ear,
    /// Listen address, 0 to 30.
    Lad(u8),
    /// Unlisten.
    Unl,
    /// Talk address, 0 to 30.
    Tad(u8),
    /// Untalk.
    Unt,
    /// Secondary address, 0 to 30.
    Sad(u8),
    /// Parallel poll enable, 0 to 15: the bit, plus 8 times the sense.
    Ppe(u8),
    /// Interface clear.
    Ifc,
    /// Remote enable.
    Ren,
    /// Not remote enable.
    Nre,
    /// Auto address unconfigure.
    Aau,
    /// Loop power down.
    Lpd,
    /// Device dependent listener command, 0 to 31.
    Ddl(u8),
    /// Device dependent talker command, 0 to 31.
    Ddt(u8),
    /// A command without a name, by its byte.
    OtherCmd(u8),
    /// Ready for command.
    Rfc,
    /// End of transmission, OK.
    Eto,
    /// End of transmission, error.
    Ete,
    /// Not ready for data.
    Nrd,
    /// Send data.
    Sda,
    /// Send status.
    Sst,
    /// Send device ID.
    Sdi,
    /// Send accessory ID.
    Sai,
    /// Take control.
    Tct,
    /// Auto address, 0 to 30.
    Aad(u8),
    /// Illegal auto address.
    Iaa,
    /// A ready message without a name, by its byte.
    OtherRdy(u8),
}

/// The command of that byte.
fn command(byte: u8) -> Message
    ensures { result ≡ message_in commands byte msg.OtherCmd }
{
    match byte {
        0x00 => Message::Nul,
        0x01 => Message::Gtl,
        0x04 => Message::Sdc,
        0x05 => Message::Ppd,
        0x08 => Message::Get,
        0x0F => Message::Eln,
        0x10 => Message::Nop,
        0x11 => Message::Llo,
        0x14 => Message::Dcl,
        0x15 => Message::Ppu,
        0x18 => Message::Ear,
        0x20..=0x3E => Message::Lad(byte - 0x20),
        0x3F => Message::Unl,
        0x40..=0x5E => Message::Tad(byte - 0x40),
        0x5F => Message::Unt,
        0x60..=0x7E => Message::Sad(byte - 0x60),
        0x80..=0x8F => Message::Ppe(byte - 0x80),
        0x90 => Message::Ifc,
        0x92 => Message::Ren,
        0x93 => Message::Nre,
        0x9A => Message::Aau,
        0x9B => Message::Lpd,
        0xA0..=0xBF => Message::Ddl(byte - 0xA0),
        0xC0..=0xDF => Message::Ddt(byte - 0xC0),
        _ => Message::OtherCmd(byte),
    }
}

/// The ready message of that byte.
fn ready(byte: u8) -> Message
    ensures { result ≡ message_in ready_messages byte msg.OtherRdy }
{
    match byte {
        0x00 => Message::Rfc,
        0x40 => Message::Eto,
        0x41 => Message::Ete,
        0x42 => Message::Nrd,
        0x60 => Message::Sda,
        0x61 => Message::Sst,
        0x62 => Message::Sdi,
        0x63 => Message::Sai,
        0x64 => Message::Tct,
        0x80..=0x9E => Message::Aad(byte - 0x80),
        0x9F => Message::Iaa,
        _ => Message::OtherRdy(byte),
    }
}

/// What a frame of that class and byte says.
pub(crate) fn message_at(class: Class, byte: u8) -> Message
    ensures { result ≡ spec.message_at class byte }
{
    match class {
        Class::Dab => Message::Dab(byte),
        Class::Dsr => Message::Dsr(byte),
        Class::End => Message::End(byte),
        Class::Esr => Message::Esr(byte),
        Class::Cmd => command(byte),
        Class::Rdy => ready(byte),
        Class::Idy => Message::Idy(byte),
        Class::Isr => Message::Isr(byte),
    }
}

impl Frame {
    /// What the frame says. No other frame says the same.
    pub fn message(&self) -> Message
        ensures value { result ≡ message_of self.now }
        ensures range { is_in_range result ≡ true }
        ensures distinct { (other : Frame) → IsFrame other → message_of other ≡ result → other ≡ self.now }
    {
        message_at(self.class(), self.byte())
    }

    /// The frame that says this message, whose number is in its range: an address is at most 30, the
    /// number of `Ppe` is below 16, and that of `Ddl` and `Ddt` below 32. An `OtherCmd` or `OtherRdy`
    /// of a byte that has a name is the frame of that name.
    pub fn of(message: Message) -> Frame
        requires in_range { is_in_range message ≡ true }
        ensures value { result ≡ frame_of message }
        ensures says { message_of result ≡ by_name message }
        ensures frame { IsFrame result }
    {
        match message {
            Message::Dab(byte) => Frame::new(Class::Dab, byte),
            Message::Dsr(byte) => Frame::new(Class::Dsr, byte),
            Message::End(byte) => Frame::new(Class::End, byte),
            Message::Esr(byte) => Frame::new(Class::Esr, byte),
            Message::Idy(byte) => Frame::new(Class::Idy, byte),
            Message::Isr(byte) => Frame::new(Class::Isr, byte),
            Message::Nul => Frame::new(Class::Cmd, 0x00),
            Message::Gtl => Frame::new(Class::Cmd, 0x01),
            Message::Sdc => Frame::new(Class::Cmd, 0x04),
            Message::Ppd => Frame::new(Class::Cmd, 0x05),
            Message::Get => Frame::new(Class::Cmd, 0x08),
            Message::Eln => Frame::new(Class::Cmd, 0x0F),
            Message::Nop => Frame::new(Class::Cmd, 0x10),
            Message::Llo => Frame::new(Class::Cmd, 0x11),
            Message::Dcl => Frame::new(Class::Cmd, 0x14),
            Message::Ppu => Frame::new(Class::Cmd, 0x15),
            Message::Ear => Frame::new(Class::Cmd, 0x18),
            Message::Lad(number) => Frame::new(Class::Cmd, 0x20 + number),
            Message::Unl => Frame::new(Class::Cmd, 0x3F),
            Message::Tad(number) => Frame::new(Class::Cmd, 0x40 + number),
            Message::Unt => Frame::new(Class::Cmd, 0x5F),
            Message::Sad(number) => Frame::new(Class::Cmd, 0x60 + number),
            Message::Ppe(number) => Frame::new(Class::Cmd, 0x80 + number),
            Message::Ifc => Frame::new(Class::Cmd, 0x90),
            Message::Ren => Frame::new(Class::Cmd, 0x92),
            Message::Nre => Frame::new(Class::Cmd, 0x93),
            Message::Aau => Frame::new(Class::Cmd, 0x9A),
            Message::Lpd => Frame::new(Class::Cmd, 0x9B),
            Message::Ddl(number) => Frame::new(Class::Cmd, 0xA0 + number),
            Message::Ddt(number) => Frame::new(Class::Cmd, 0xC0 + number),
            Message::OtherCmd(byte) => Frame::new(Class::Cmd, byte),
            Message::Rfc => Frame::new(Class::Rdy, 0x00),
            Message::Eto => Frame::new(Class::Rdy, 0x40),
            Message::Ete => Frame::new(Class::Rdy, 0x41),
            Message::Nrd => Frame::new(Class::Rdy, 0x42),
            Message::Sda => Frame::new(Class::Rdy, 0x60),
            Message::Sst => Frame::new(Class::Rdy, 0x61),
            Message::Sdi => Frame::new(Class::Rdy, 0x62),
            Message::Sai => Frame::new(Class::Rdy, 0x63),
            Message::Tct => Frame::new(Class::Rdy, 0x64),
            Message::Aad(number) => Frame::new(Class::Rdy, 0x80 + number),
            Message::Iaa => Frame::new(Class::Rdy, 0x9F),
            Message::OtherRdy(byte) => Frame::new(Class::Rdy, byte),
        }
    }
}
