// What the host does to lend the ring to a second controller.
ghost use Rattle.std.specs.Prelude.{◌≤◌, ◌+◌, ◌*◌, IfOk, IfErr};
ghost use Rattle.il_ring.specs.Rings.{spare_of};
ghost use Rattle.il_ring.specs.Guests.{IsUnderHost};
ghost use Rattle.il_control.specs.Calls.{IsFree, IsIdle};
ghost use Rattle.il_control.specs.Lent.{HandsOver, IsLentNow, LendBroken, LendMade, PolledUntil};

use crate::exchanges::Broken;
use crate::receiving::ask;
use crate::rounds::{clear_interface, command};
use il_frames::{Frame, Message};
use il_ports::Medium;
use il_ring::{Arrival, Ring, Seen};

/// What became of a TCT of the host.
#[derive(Clone, Copy)]
pub(crate) enum Handed {
    /// It came back: nobody took it.
    NotTaken,
    /// A second controller took it, and the first frame of its rounds is at the host.
    Taken,
    /// It was lost, or that frame was.
    Broken,
}

/// Sends TCT.
fn hand_over<M: Medium>(ring: &mut Ring<M>) -> Handed
    requires room { 32 ≤ spare_of (⟦<Ring<M> as Seen<M>>⟧.seen ring.old) }
    requires free { IsFree (⟦<Ring<M> as Seen<M>>⟧.seen ring.old) }
    requires host { IsUnderHost (⟦<Ring<M> as Seen<M>>⟧.seen ring.old).guest }
    ensures { HandsOver M.view (⟦<Ring<M> as Seen<M>>⟧.seen ring.old) result (⟦<Ring<M> as Seen<M>>⟧.seen ring.new) }
{
    match ring.send(Frame::of(Message::Tct)) {
        Arrival::Lost => Handed::Broken,
        Arrival::Frame(_) => {
            if ring.is_lent() {
                Handed::Taken
            } else {
                Handed::NotTaken
            }
        }
    }
}

/// Lets a second controller go on with its rounds until `limit` frames have come to the host since it took control. One
/// has.
pub(crate) fn poll<M: Medium>(ring: &mut Ring<M>, limit: u16) -> bool
    requires some { 1 ≤ limit }
    requires room { 32 + 2 * limit ≤ spare_of (⟦<Ring<M> as Seen<M>>⟧.seen ring.old) }
    requires lent { IsLentNow M.view (⟦<Ring<M> as Seen<M>>⟧.seen ring.old) 1 }
    ensures { PolledUntil M.view result (⟦<Ring<M> as Seen<M>>⟧.seen ring.old) limit (⟦<Ring<M> as Seen<M>>⟧.seen ring.new) }
{
    for _ in 1..limit {
        match ring.pass() {
            Arrival::Frame(_) => {}
            Arrival::Lost => return false,
        }
    }
    true
}

/// Hands control of the loop to the second controller, if it is at this address, 1 to 30: the device there is to
/// talk, and TCT is sent. While the second controller polls, each of its frames comes past the host; at the one that is
/// the `limit`-th, 1 to 4,096, the host takes control back by IFC. Answers whether a second controller took control.
/// If none did, TCT came back, and no device talks any more.
///
/// The error comes if a frame was lost, or a status came back to its device with another byte. The second controller
/// may control the loop still; `resume` takes control back. Source: HP-IL Interface Specification, HP 82166-90017, take
/// control and interface clear; that the host counts frames is this project's own.
pub fn lend<M: Medium>(ring: &mut Ring<M>, address: u8, limit: u16) -> Result<bool, Broken>
    requires address { (1 ≤ address) × (address ≤ 30) }
    requires limit { (1 ≤ limit) × (limit ≤ 4096) }
    requires room { 4 * limit + 48 ≤ spare_of (⟦<Ring<M> as Seen<M>>⟧.seen ring.old) }
    requires idle { IsIdle (⟦<Ring<M> as Seen<M>>⟧.seen ring.old) }
    ensures made { IfOk result (λ taken. LendMade address limit taken (⟦<Ring<M> as Seen<M>>⟧.seen ring.old) (⟦<Ring<M> as Seen<M>>⟧.seen ring.new)) }
    ensures broken { IfErr result (λ broken. LendBroken address limit (⟦<Ring<M> as Seen<M>>⟧.seen ring.old) (⟦<Ring<M> as Seen<M>>⟧.seen ring.new)) }
{
    if !ask(ring, address, None) {
        return Err(Broken);
    }
    match hand_over(ring) {
        Handed::Broken => Err(Broken),
        Handed::NotTaken => {
            if command(ring, Frame::of(Message::Unt)) {
                Ok(false)
            } else {
                Err(Broken)
            }
        }
        Handed::Taken => {
            if !poll(ring, limit) {
                return Err(Broken);
            }
            if clear_interface(ring) {
                Ok(true)
            } else {
                Err(Broken)
            }
        }
    }
}
