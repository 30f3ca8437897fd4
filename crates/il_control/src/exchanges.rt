//! The exchanges of the controller on a ring: each makes its frames whole, or is broken off if a planned fault acts
//! on one.
ghost use Rattle.std.specs.Prelude.{◌≡◌, ◌≤◌, ◌<◌, ◌+◌, [], true, IfSome, IfOk, IfErr, not, is_some};
ghost use Rattle.il_frames.specs.Messages.{message_of};
ghost use Rattle.loop_model.specs.Exchanges.Exchange.{Command, Identify, Send};
ghost use Rattle.il_ring.specs.Rings.{spare_of, devices_of};
ghost use Rattle.il_ring.specs.Lists.{Each};
ghost use Rattle.il_ring.specs.Polls.{identified_along};
ghost use Rattle.il_control.specs.Calls.{idy, IsIdle, IsLost, is_command, Made, BrokenOff, Obeyed, ObeyedInPart, AllStay, Resumed, NotResumed, IsTold, Sent, NotSent};

pub use crate::lending::lend;
pub use crate::receiving::receive;
use crate::rounds;
use il_frames::{Frame, Message};
use il_ports::Medium;
use il_ring::{Arrival, Ring, Seen};

/// An exchange was broken off: a planned fault acted on a frame of it.
#[derive(Clone, Copy, PartialEq, Eq, Debug)]
pub struct Broken;

/// Clears the interface, takes all addresses away and gives each device its number as address,
/// counted from the host's output. Answers how many there are, 1 to 30.
pub fn resume<M: Medium>(ring: &mut Ring<M>) -> Result<u8, Broken>
    requires room { 37 ≤ spare_of (⟦<Ring<M> as Seen<M>>⟧.seen ring.old) }
    requires lost { IsLost (⟦<Ring<M> as Seen<M>>⟧.seen ring.old) }
    ensures resumed { IfOk result (λ n. Resumed M.view n (⟦<Ring<M> as Seen<M>>⟧.seen ring.old) (⟦<Ring<M> as Seen<M>>⟧.seen ring.new)) }
    ensures not_resumed { IfErr result (λ broken. NotResumed M.view (⟦<Ring<M> as Seen<M>>⟧.seen ring.old) (⟦<Ring<M> as Seen<M>>⟧.seen ring.new)) }
    // No device hears anything, and each keeps its place in the parallel poll and its wish for service.
    ensures stays { AllStay true (⟦<Ring<M> as Seen<M>>⟧.seen ring.old) (⟦<Ring<M> as Seen<M>>⟧.seen ring.new) }
{
    if !rounds::clear(ring) {
        return Err(Broken);
    }
    let first = Frame::of(Message::Aad(1));
    match ring.send(first) {
        Arrival::Frame(back) => Ok(back.byte() - first.byte()),
        Arrival::Lost => Err(Broken),
    }
}

/// Sends a command and awaits the handshake after it.
pub fn command<M: Medium>(ring: &mut Ring<M>, frame: Frame) -> Result<(), Broken>
    requires room { 34 ≤ spare_of (⟦<Ring<M> as Seen<M>>⟧.seen ring.old) }
    requires idle { IsIdle (⟦<Ring<M> as Seen<M>>⟧.seen ring.old) }
    requires command { is_command frame ≡ true }
    ensures made { IfOk result (λ done. Made M.view (Command frame) (⟦<Ring<M> as Seen<M>>⟧.seen ring.old) (⟦<Ring<M> as Seen<M>>⟧.seen ring.new)) }
    ensures broken { IfErr result (λ broken. BrokenOff M.view (Command frame) (⟦<Ring<M> as Seen<M>>⟧.seen ring.old) (⟦<Ring<M> as Seen<M>>⟧.seen ring.new)) }
    // Each device did what the command asks: roles and places in the parallel poll are those that it gives.
    ensures obeyed { IfOk result (λ done. Obeyed (message_of frame) (⟦<Ring<M> as Seen<M>>⟧.seen ring.old) (⟦<Ring<M> as Seen<M>>⟧.seen ring.new)) }
    // Whole or broken off, it was so for the devices that the command came to.
    ensures part { ObeyedInPart (message_of frame) (⟦<Ring<M> as Seen<M>>⟧.seen ring.old) (⟦<Ring<M> as Seen<M>>⟧.seen ring.new) }
{
    if rounds::command(ring, frame) {
        Ok(())
    } else {
        Err(Broken)
    }
}

/// Sends the identify frame. What comes back has the bit of each device that is assigned one in
/// the parallel poll and wants service, and the service bit if any wants it.
pub fn identify<M: Medium>(ring: &mut Ring<M>) -> Result<Frame, Broken>
    requires room { 33 ≤ spare_of (⟦<Ring<M> as Seen<M>>⟧.seen ring.old) }
    requires idle { IsIdle (⟦<Ring<M> as Seen<M>>⟧.seen ring.old) }
    ensures made { IfOk result (λ frame. Made M.view (Identify frame) (⟦<Ring<M> as Seen<M>>⟧.seen ring.old) (⟦<Ring<M> as Seen<M>>⟧.seen ring.new)) }
    ensures poll { IfOk result (λ frame. frame ≡ identified_along (devices_of (⟦<Ring<M> as Seen<M>>⟧.seen ring.old)) idy) }
    ensures broken { IfErr result (λ broken. BrokenOff M.view (Identify idy) (⟦<Ring<M> as Seen<M>>⟧.seen ring.old) (⟦<Ring<M> as Seen<M>>⟧.seen ring.new)) }
    // No device hears anything, and each keeps its place in the poll and its wish for service.
    ensures stays { AllStay true (⟦<Ring<M> as Seen<M>>⟧.seen ring.old) (⟦<Ring<M> as Seen<M>>⟧.seen ring.new) }
{
    match ring.send(Frame::of(Message::Idy(0))) {
        Arrival::Frame(frame) => Ok(frame),
        Arrival::Lost => Err(Broken),
    }
}

/// Has the device of this address, 1 to 30, listen, and no other; after that it sends device
/// dependent listener command `number`, 0 to 31, if one is given.
pub fn listen<M: Medium>(ring: &mut Ring<M>, address: u8, number: Option<u8>) -> Result<(), Broken>
    requires room { 38 ≤ spare_of (⟦<Ring<M> as Seen<M>>⟧.seen ring.old) }
    requires idle { IsIdle (⟦<Ring<M> as Seen<M>>⟧.seen ring.old) }
    requires address { (1 ≤ address) × (address ≤ 30) }
    requires number { IfSome number (λ n. n < 32) }
    ensures made { IfOk result (λ done. Made M.view (Send address number []) (⟦<Ring<M> as Seen<M>>⟧.seen ring.old) (⟦<Ring<M> as Seen<M>>⟧.seen ring.new)) }
    ensures told { IfOk result (λ done. Each (IsTold address) 1 (devices_of (⟦<Ring<M> as Seen<M>>⟧.seen ring.new))) }
    ensures broken { IfErr result (λ broken. BrokenOff M.view (Send address number []) (⟦<Ring<M> as Seen<M>>⟧.seen ring.old) (⟦<Ring<M> as Seen<M>>⟧.seen ring.new)) }
    // No device hears anything, and each keeps its place in the parallel poll; and if no command is given, its wish
    // for service.
    ensures stays { AllStay (not (is_some number)) (⟦<Ring<M> as Seen<M>>⟧.seen ring.old) (⟦<Ring<M> as Seen<M>>⟧.seen ring.new) }
{
    if rounds::tell(ring, address, number) {
        Ok(())
    } else {
        Err(Broken)
    }
}

/// Sends a byte, which each listening device hears. It was sent if its frame came back the
/// same apart from the service bit. It is inlined, with its round, where a record's bytes are sent one after the other.
#[inline(always)]
pub fn send_byte<M: Medium>(ring: &mut Ring<M>, byte: u8) -> Result<(), Broken>
    requires room { 33 ≤ spare_of (⟦<Ring<M> as Seen<M>>⟧.seen ring.old) }
    requires idle { IsIdle (⟦<Ring<M> as Seen<M>>⟧.seen ring.old) }
    ensures sent { IfOk result (λ done. Sent M.view byte (⟦<Ring<M> as Seen<M>>⟧.seen ring.old) (⟦<Ring<M> as Seen<M>>⟧.seen ring.new)) }
    ensures not_sent { IfErr result (λ broken. NotSent M.view byte (⟦<Ring<M> as Seen<M>>⟧.seen ring.old) (⟦<Ring<M> as Seen<M>>⟧.seen ring.new)) }
{
    if rounds::byte_round(ring, byte) {
        Ok(())
    } else {
        Err(Broken)
    }
}
