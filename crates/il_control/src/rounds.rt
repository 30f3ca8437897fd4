// What the controller does on the ring, one round after the other. Each answers whether it was done whole.
ghost use Rattle.std.specs.Prelude.{◌≡◌, ◌≤◌, ◌<◌, ◌+◌, [], ◌∷◌, ◌++◌, length, true, false, MatchBool, IfSome, not, is_some};
ghost use Rattle.il_frames.specs.Messages.{message_of};
ghost use Rattle.il_device.specs.Passing.{is_plain};
ghost use Rattle.loop_model.specs.Exchanges.{Send, entries_of, numbered, returned, commanded};
ghost use Rattle.il_frames.specs.NamedFrames.{ifc, aau, lad, ddl, is_frame};
ghost use Rattle.il_guest.specs.Frames.{tct};
ghost use Rattle.il_ring.specs.Guests.{IsUnderHost};
ghost use Rattle.il_ring.specs.Lending.{about_to_send, hands_over};
ghost use Rattle.il_ring.specs.Rings.{spare_of};
ghost use Rattle.il_control.specs.Calls.{arrives, AllStay, Obeyed, ObeyedInPart, Whole, Broke, IsFree, IsIdle, Sent, NotSent};

use il_frames::{Class, Frame, Message};
use il_ports::Medium;
use il_ring::{Arrival, Ring, Seen};

/// Whether a frame came to the host.
fn came_back(arrival: Arrival) -> bool
    ensures { result ≡ arrives arrival }
{
    match arrival {
        Arrival::Frame(_) => true,
        Arrival::Lost => false,
    }
}

/// Sends a command or ready frame that every device passes on, and that hands control over to nobody.
pub(crate) fn pass_round<M: Medium>(ring: &mut Ring<M>, frame: Frame) -> bool
    requires room { 32 ≤ spare_of (⟦<Ring<M> as Seen<M>>⟧.seen ring.old) }
    requires free { IsFree (⟦<Ring<M> as Seen<M>>⟧.seen ring.old) }
    requires host { IsUnderHost (⟦<Ring<M> as Seen<M>>⟧.seen ring.old).guest }
    requires plain { is_plain (message_of frame) ≡ true }
    requires hands { hands_over (⟦<Ring<M> as Seen<M>>⟧.seen ring.old) frame ≡ false }
    ensures done { MatchBool result (Whole M.view (⟦<Ring<M> as Seen<M>>⟧.seen ring.old) (returned 0 frame ∷ []) (⟦<Ring<M> as Seen<M>>⟧.seen ring.new))
        (Broke M.view (⟦<Ring<M> as Seen<M>>⟧.seen ring.old) (returned 0 frame ∷ []) (⟦<Ring<M> as Seen<M>>⟧.seen ring.new)) }
    ensures obeyed { result ≡ true → Obeyed (message_of frame) (⟦<Ring<M> as Seen<M>>⟧.seen ring.old) (⟦<Ring<M> as Seen<M>>⟧.seen ring.new) }
    ensures part { ObeyedInPart (message_of frame) (⟦<Ring<M> as Seen<M>>⟧.seen ring.old) (⟦<Ring<M> as Seen<M>>⟧.seen ring.new) }
    ensures host { IsUnderHost (⟦<Ring<M> as Seen<M>>⟧.seen ring.new).guest }
{
    came_back(ring.send(frame))
}

/// Sends a command and waits for the handshake after it.
pub(crate) fn command<M: Medium>(ring: &mut Ring<M>, frame: Frame) -> bool
    requires room { 33 ≤ spare_of (⟦<Ring<M> as Seen<M>>⟧.seen ring.old) }
    requires free { IsFree (⟦<Ring<M> as Seen<M>>⟧.seen ring.old) }
    requires host { IsUnderHost (⟦<Ring<M> as Seen<M>>⟧.seen ring.old).guest }
    requires plain { is_plain (message_of frame) ≡ true }
    requires hands { is_frame frame tct ≡ false }
    ensures done { MatchBool result (Whole M.view (⟦<Ring<M> as Seen<M>>⟧.seen ring.old) (commanded 0 frame) (⟦<Ring<M> as Seen<M>>⟧.seen ring.new))
        (Broke M.view (⟦<Ring<M> as Seen<M>>⟧.seen ring.old) (commanded 0 frame) (⟦<Ring<M> as Seen<M>>⟧.seen ring.new)) }
    ensures obeyed { result ≡ true → Obeyed (message_of frame) (⟦<Ring<M> as Seen<M>>⟧.seen ring.old) (⟦<Ring<M> as Seen<M>>⟧.seen ring.new) }
    ensures part { ObeyedInPart (message_of frame) (⟦<Ring<M> as Seen<M>>⟧.seen ring.old) (⟦<Ring<M> as Seen<M>>⟧.seen ring.new) }
    ensures host { IsUnderHost (⟦<Ring<M> as Seen<M>>⟧.seen ring.new).guest }
{
    pass_round(ring, frame) && pass_round(ring, Frame::of(Message::Rfc))
}

/// Has the device of this address listen, and no other, and sends the DDL of a number after that.
pub(crate) fn tell<M: Medium>(ring: &mut Ring<M>, address: u8, number: Option<u8>) -> bool
    requires room { 38 ≤ spare_of (⟦<Ring<M> as Seen<M>>⟧.seen ring.old) }
    requires free { IsFree (⟦<Ring<M> as Seen<M>>⟧.seen ring.old) }
    requires host { IsUnderHost (⟦<Ring<M> as Seen<M>>⟧.seen ring.old).guest }
    requires address { address ≤ 30 }
    requires number { IfSome number (λ n. n < 32) }
    ensures done { MatchBool result (Whole M.view (⟦<Ring<M> as Seen<M>>⟧.seen ring.old) (entries_of 0 (Send address number [])) (⟦<Ring<M> as Seen<M>>⟧.seen ring.new))
        (Broke M.view (⟦<Ring<M> as Seen<M>>⟧.seen ring.old) (entries_of 0 (Send address number [])) (⟦<Ring<M> as Seen<M>>⟧.seen ring.new)) }
    ensures stays { AllStay (not (is_some number)) (⟦<Ring<M> as Seen<M>>⟧.seen ring.old) (⟦<Ring<M> as Seen<M>>⟧.seen ring.new) }
{
    command(ring, Frame::of(Message::Unl)) && tell_one(ring, address, number)
}

/// Has the device of this address listen, and sends the DDL of a number after that.
fn tell_one<M: Medium>(ring: &mut Ring<M>, address: u8, number: Option<u8>) -> bool
    requires room { 36 ≤ spare_of (⟦<Ring<M> as Seen<M>>⟧.seen ring.old) }
    requires free { IsFree (⟦<Ring<M> as Seen<M>>⟧.seen ring.old) }
    requires host { IsUnderHost (⟦<Ring<M> as Seen<M>>⟧.seen ring.old).guest }
    requires address { address ≤ 30 }
    requires number { IfSome number (λ n. n < 32) }
    ensures done { MatchBool result (Whole M.view (⟦<Ring<M> as Seen<M>>⟧.seen ring.old) (commanded 0 (lad address) ++ numbered 0 ddl number) (⟦<Ring<M> as Seen<M>>⟧.seen ring.new))
        (Broke M.view (⟦<Ring<M> as Seen<M>>⟧.seen ring.old) (commanded 0 (lad address) ++ numbered 0 ddl number) (⟦<Ring<M> as Seen<M>>⟧.seen ring.new)) }
    ensures stays { AllStay (not (is_some number)) (⟦<Ring<M> as Seen<M>>⟧.seen ring.old) (⟦<Ring<M> as Seen<M>>⟧.seen ring.new) }
    ensures host { IsUnderHost (⟦<Ring<M> as Seen<M>>⟧.seen ring.new).guest }
{
    command(ring, Frame::of(Message::Lad(address))) && command_of(ring, number)
}

/// Sends the DDL of a number, if one is given.
fn command_of<M: Medium>(ring: &mut Ring<M>, number: Option<u8>) -> bool
    requires room { 34 ≤ spare_of (⟦<Ring<M> as Seen<M>>⟧.seen ring.old) }
    requires free { IsFree (⟦<Ring<M> as Seen<M>>⟧.seen ring.old) }
    requires host { IsUnderHost (⟦<Ring<M> as Seen<M>>⟧.seen ring.old).guest }
    requires number { IfSome number (λ n. n < 32) }
    ensures done { MatchBool result (Whole M.view (⟦<Ring<M> as Seen<M>>⟧.seen ring.old) (numbered 0 ddl number) (⟦<Ring<M> as Seen<M>>⟧.seen ring.new))
        (Broke M.view (⟦<Ring<M> as Seen<M>>⟧.seen ring.old) (numbered 0 ddl number) (⟦<Ring<M> as Seen<M>>⟧.seen ring.new)) }
    ensures stays { AllStay (not (is_some number)) (⟦<Ring<M> as Seen<M>>⟧.seen ring.old) (⟦<Ring<M> as Seen<M>>⟧.seen ring.new) }
    ensures host { IsUnderHost (⟦<Ring<M> as Seen<M>>⟧.seen ring.new).guest }
{
    match number {
        None => true,
        Some(number) => command(ring, Frame::of(Message::Ddl(number))),
    }
}

/// Sends a byte, and returns whether its frame came back the same apart from the service bit. An idle loop holds no
/// frame and is the host's, so `send_soon` may send it.
#[inline(always)]
pub(crate) fn byte_round<M: Medium>(ring: &mut Ring<M>, byte: u8) -> bool
    requires room { 33 ≤ spare_of (⟦<Ring<M> as Seen<M>>⟧.seen ring.old) }
    requires idle { IsIdle (⟦<Ring<M> as Seen<M>>⟧.seen ring.old) }
    ensures { MatchBool result (Sent M.view byte (⟦<Ring<M> as Seen<M>>⟧.seen ring.old) (⟦<Ring<M> as Seen<M>>⟧.seen ring.new))
        (NotSent M.view byte (⟦<Ring<M> as Seen<M>>⟧.seen ring.old) (⟦<Ring<M> as Seen<M>>⟧.seen ring.new)) }
{
    let frame = Frame::new(Class::Dab, byte);
    match ring.send_soon(frame) {
        Arrival::Frame(back) => frame.same_but_service(back),
        Arrival::Lost => false,
    }
}

/// Clears the interface. The host then controls the loop, whoever did before; what was lent has ended.
fn take_control<M: Medium>(ring: &mut Ring<M>) -> bool
    requires room { 32 ≤ spare_of (⟦<Ring<M> as Seen<M>>⟧.seen ring.old) }
    requires free { IsFree (about_to_send (⟦<Ring<M> as Seen<M>>⟧.seen ring.old)) }
    ensures done { MatchBool result (Whole M.view (about_to_send (⟦<Ring<M> as Seen<M>>⟧.seen ring.old)) (returned 0 ifc ∷ []) (⟦<Ring<M> as Seen<M>>⟧.seen ring.new))
        (Broke M.view (about_to_send (⟦<Ring<M> as Seen<M>>⟧.seen ring.old)) (returned 0 ifc ∷ []) (⟦<Ring<M> as Seen<M>>⟧.seen ring.new)) }
    ensures obeyed { result ≡ true → Obeyed (message_of ifc) (about_to_send (⟦<Ring<M> as Seen<M>>⟧.seen ring.old)) (⟦<Ring<M> as Seen<M>>⟧.seen ring.new) }
    ensures part { ObeyedInPart (message_of ifc) (about_to_send (⟦<Ring<M> as Seen<M>>⟧.seen ring.old)) (⟦<Ring<M> as Seen<M>>⟧.seen ring.new) }
    ensures host { result ≡ true → IsUnderHost (⟦<Ring<M> as Seen<M>>⟧.seen ring.new).guest }
{
    came_back(ring.send(Frame::of(Message::Ifc)))
}

/// Clears the interface, and waits for the handshake after it.
pub(crate) fn clear_interface<M: Medium>(ring: &mut Ring<M>) -> bool
    requires room { 33 ≤ spare_of (about_to_send (⟦<Ring<M> as Seen<M>>⟧.seen ring.old)) }
    requires free { IsFree (about_to_send (⟦<Ring<M> as Seen<M>>⟧.seen ring.old)) }
    ensures done { MatchBool result (Whole M.view (about_to_send (⟦<Ring<M> as Seen<M>>⟧.seen ring.old)) (commanded 0 ifc) (⟦<Ring<M> as Seen<M>>⟧.seen ring.new))
        (Broke M.view (about_to_send (⟦<Ring<M> as Seen<M>>⟧.seen ring.old)) (commanded 0 ifc) (⟦<Ring<M> as Seen<M>>⟧.seen ring.new)) }
    ensures obeyed { result ≡ true → Obeyed (message_of ifc) (about_to_send (⟦<Ring<M> as Seen<M>>⟧.seen ring.old)) (⟦<Ring<M> as Seen<M>>⟧.seen ring.new) }
    ensures part { ObeyedInPart (message_of ifc) (about_to_send (⟦<Ring<M> as Seen<M>>⟧.seen ring.old)) (⟦<Ring<M> as Seen<M>>⟧.seen ring.new) }
    ensures host { result ≡ true → IsUnderHost (⟦<Ring<M> as Seen<M>>⟧.seen ring.new).guest }
    // If IFC came back the host controls, whatever became of the handshake.
    ensures ready { length (⟦<Ring<M> as Seen<M>>⟧.seen ring.new).books.log ≡ length (about_to_send (⟦<Ring<M> as Seen<M>>⟧.seen ring.old)).books.log + 2 → IsUnderHost (⟦<Ring<M> as Seen<M>>⟧.seen ring.new).guest }
{
    take_control(ring) && pass_round(ring, Frame::of(Message::Rfc))
}

/// Clears the interface and takes all addresses away.
pub(crate) fn clear<M: Medium>(ring: &mut Ring<M>) -> bool
    requires room { 36 ≤ spare_of (⟦<Ring<M> as Seen<M>>⟧.seen ring.old) }
    requires free { IsFree (⟦<Ring<M> as Seen<M>>⟧.seen ring.old) }
    ensures done { MatchBool result (Whole M.view (⟦<Ring<M> as Seen<M>>⟧.seen ring.old) (commanded 0 ifc ++ commanded 0 aau) (⟦<Ring<M> as Seen<M>>⟧.seen ring.new))
        (Broke M.view (⟦<Ring<M> as Seen<M>>⟧.seen ring.old) (commanded 0 ifc ++ commanded 0 aau) (⟦<Ring<M> as Seen<M>>⟧.seen ring.new)) }
    ensures stays { AllStay true (⟦<Ring<M> as Seen<M>>⟧.seen ring.old) (⟦<Ring<M> as Seen<M>>⟧.seen ring.new) }
    ensures host { result ≡ true → IsUnderHost (⟦<Ring<M> as Seen<M>>⟧.seen ring.new).guest }
{
    clear_interface(ring) && command(ring, Frame::of(Message::Aau))
}
