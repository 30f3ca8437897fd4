#![tactic(auto)]

ghost use Rattle.std.specs.Prelude.{ℕ, ◌≡◌, ◌<◌, ◌≤◌, Option, List, length};
ghost use Rattle.il_frames.specs.Frames.{framed};
ghost use Rattle.il_frames.specs.declared.frame.Class.TheVariants as class;
ghost use Rattle.il_device.specs.Plain.{TakesAsPlain, fresh_plain};
ghost use Rattle.il_device.specs.Takes.{Takes, heard_after, kept};

use crate::device::{Device, Out};
use crate::interface::{Interface, Turn};
use il_frames::{Class, Frame, Message};
use std::marker::Model;

/// What tells one plain device from another. Contracts see the accessory ID, the status and the room for
/// bytes, which all devices of a kind have alike, and the bytes that are kept.
pub trait Kind: Drop {
    ghost accessory: { Option ℕ };

    ghost status: { ℕ };

    ghost room: { ℕ };

    ghost bytes: { Self → List ℕ };

    /// The byte that answers SAI, if there is one. A device without one sends nothing at all.
    fn accessory(&self) -> Option<u8>
        ensures { result ≡ accessory };

    /// The status, 0 to 63, which stays.
    fn status(&self) -> u8
        ensures value { result ≡ status }
        ensures range { result < 64 };

    /// The first bytes that were heard, as far as there is room for them.
    fn bytes(&self) -> &[u8]
        ensures { result.now ≡ bytes self.now };

    /// Keeps the byte that was heard, where there is room.
    fn hear(&mut self, byte: u8)
        ensures { bytes self.new ≡ kept room (bytes self.old) byte };

    ghost small: { (kind : Self) → (length (bytes kind) ≤ room) × (room ≤ 8192) };
}

/// A device of which the kind says all that devices choose. One with an accessory ID sends it at SAI, and
/// its status byte at SST, and passes SDA and SDI; one without passes every frame.
#[derive(Debug, Drop)]
pub struct Plain<K: Kind> {
    interface: Interface,
    kind: K,
}

impl<K: Kind> Model for Plain<K> {
    ghost use Rattle.std.specs.Prelude.{◌≡◌};
    ghost use Rattle.il_device.specs.State.{DeviceState};
    ghost use Rattle.il_device.specs.Interfaces.{device_on};
    ghost use Rattle.il_device.specs.Plain.{IsSilent};

    ghost Value = { DeviceState };

    ghost view = { λ p. device_on p.interface (K.bytes p.kind) K.room };

    ghost invariant = { λ p. (p.interface.service.status ≡ K.status)
        × (p.interface.accessory ≡ K.accessory)
        × IsSilent K.accessory p.interface.own };
}

impl<K: Kind> Plain<K> {
    /// A device of this kind that nothing has come to yet.
    pub fn of(kind: K) -> Plain<K>
        ensures { result ≡ fresh_plain K.accessory K.status K.room (K.bytes kind) }
    {
        let mut interface = Interface::new(kind.accessory());
        interface.set_status(kind.status());
        Plain { interface, kind }
    }

    /// What it does with a frame. It is compiled into its callers, so that each of them pays for its own kinds of
    /// frames.
    #[inline(always)]
    fn answer(&mut self, frame: Frame) -> Out
        ensures takes { Takes self.old frame result self.new }
        ensures plain { TakesAsPlain K.accessory K.status K.room self.old frame result self.new }
    {
        let before = self.interface.roles();
        let turn = self.interface.effect(frame);
        hear_at(turn, &mut self.kind, frame.byte());
        match turn {
            Turn::Pass | Turn::Hear => Out::Pass(self.interface.passed(before, frame)),
            Turn::Begin => match (self.interface.accessory(), frame.message()) {
                (Some(_), Message::Sst) => self
                    .interface
                    .source(one_byte(self.interface.status_byte()), true),
                _ => Out::Pass(frame),
            },
            Turn::Identify(id) => self.interface.source(one_byte(id), true),
            Turn::Compare(own) => self.interface.finish(own.is_echo(frame)),
        }
    }

    /// The same. It stands apart, so that the way of a data frame that only passes stays short.
    #[inline(never)]
    fn answer_apart(&mut self, frame: Frame) -> Out
        ensures takes { Takes self.old frame result self.new }
        ensures plain { TakesAsPlain K.accessory K.status K.room self.old frame result self.new }
    {
        self.answer(frame)
    }
}

impl<K: Kind> Device for Plain<K> {
    ghost state = { λ p. p };

    fn is_idle(&self) -> bool {
        self.interface.is_idle()
    }

    fn accessory(&self) -> Option<u8> {
        self.interface.accessory()
    }

    fn heard(&self) -> &[u8] {
        self.kind.bytes()
    }

    fn heard_count(&self) -> u64 {
        self.interface.heard_count()
    }

    fn frames(&self) -> u64 {
        self.interface.frames()
    }

    fn take(&mut self, frame: Frame) -> Out
        ensures takes { Takes self.old frame result self.new }
        ensures plain { TakesAsPlain K.accessory K.status K.room self.old frame result self.new }
    {
        if self.interface.only_passes(frame) {
            self.answer(frame)
        } else {
            self.answer_apart(frame)
        }
    }
}

/// The kind hears the byte where the frame asks for it.
fn hear_at<K: Kind>(turn: Turn, kind: &mut K, byte: u8)
    ensures { K.bytes kind.new ≡ heard_after turn K.room (K.bytes kind.old) byte }
{
    if turn == Turn::Hear {
        kind.hear(byte);
    }
}

/// A data frame of that byte.
fn one_byte(byte: u8) -> Frame
    ensures { result ≡ framed class.Dab byte }
{
    Frame::new(Class::Dab, byte)
}
