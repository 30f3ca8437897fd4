// What the controller does to receive from a talker, one round after the other.
ghost use Rattle.std.specs.Prelude.{◌≡◌, ◌≤◌, ◌<◌, ◌+◌, ◌++◌, true, length, IfSome, IsSome, IfOk, IfErr, MatchBool, MatchOption};
ghost use Rattle.il_frames.specs.Frames.{byte_of};
ghost use Rattle.il_frames.specs.NamedFrames.{tad, ddt, unt};
ghost use Rattle.loop_model.specs.Roles.{talkers, is_at_most_one};
ghost use Rattle.loop_model.specs.Exchanges.{start_frame, commanded, numbered, receive_front};
ghost use Rattle.il_ring.specs.Guests.{IsUnderHost};
ghost use Rattle.il_ring.specs.Rings.{spare_of, roles_of, devices_of};
ghost use Rattle.il_ring.specs.Lists.{Each};
ghost use Rattle.il_control.specs.Calls.{Whole, Broke, IsFree, IsIdle};
ghost use Rattle.il_control.specs.Receives.{Asked, IsCalm, IsDeaf, IsHolding, IsOnward, RelaysAs, Begins, Fronts, Stops, TakesBytes, Answered, NotAnswered, start_of, Received, NotReceived};

use crate::exchanges::Broken;
use crate::frames::Sot;
use crate::rounds::command;
use il_frames::{Frame, Message};
use il_ports::Medium;
use il_ring::{Arrival, Ring, Running, Seen};

/// What became of a start message.
#[derive(Clone, Copy)]
pub(crate) enum Begun {
    /// It came back: no device took it.
    NotTaken,
    /// A device took it, and the first frame that it sent is held.
    Taken,
    /// It was lost, or that frame was.
    Broken,
}

/// What a held frame led to as it went on to the device that sent it.
#[derive(Clone, Copy)]
pub(crate) enum Onward {
    /// The next frame of that device is held.
    More,
    /// The device ended the transmission after the right echo.
    Ended,
    /// A frame was lost, or the echo was wrong.
    Broken,
}

/// What became of the frames of a talker for which there was room, except the last.
#[derive(Clone, Copy)]
pub(crate) enum Front {
    /// All came, and another one is held.
    Full,
    /// The talker ended after this many.
    Ended(usize),
    /// A frame was lost, or an echo was wrong.
    Broken,
}

/// Has the device of this address talk, and no device listen, and sends the DDT of a number after that.
pub(crate) fn ask<M: Medium>(ring: &mut Ring<M>, address: u8, number: Option<u8>) -> bool
    requires room { 38 ≤ spare_of (⟦<Ring<M> as Seen<M>>⟧.seen ring.old) }
    requires free { IsFree (⟦<Ring<M> as Seen<M>>⟧.seen ring.old) }
    requires host { IsUnderHost (⟦<Ring<M> as Seen<M>>⟧.seen ring.old).guest }
    requires address { address ≤ 30 }
    requires number { IfSome number (λ n. n < 32) }
    ensures asked { MatchBool result (Asked M.view address number (⟦<Ring<M> as Seen<M>>⟧.seen ring.old) (⟦<Ring<M> as Seen<M>>⟧.seen ring.new))
        (Broke M.view (⟦<Ring<M> as Seen<M>>⟧.seen ring.old) (receive_front 0 address number) (⟦<Ring<M> as Seen<M>>⟧.seen ring.new)) }
    ensures host { IsUnderHost (⟦<Ring<M> as Seen<M>>⟧.seen ring.new).guest }
{
    command(ring, Frame::of(Message::Unl)) && ask_one(ring, address, number)
}

/// Has the device of this address talk, and sends the DDT of a number after that.
fn ask_one<M: Medium>(ring: &mut Ring<M>, address: u8, number: Option<u8>) -> bool
    requires room { 36 ≤ spare_of (⟦<Ring<M> as Seen<M>>⟧.seen ring.old) }
    requires free { IsFree (⟦<Ring<M> as Seen<M>>⟧.seen ring.old) }
    requires host { IsUnderHost (⟦<Ring<M> as Seen<M>>⟧.seen ring.old).guest }
    requires address { address ≤ 30 }
    requires number { IfSome number (λ n. n < 32) }
    ensures done { MatchBool result (Whole M.view (⟦<Ring<M> as Seen<M>>⟧.seen ring.old) (commanded 0 (tad address) ++ numbered 0 ddt number) (⟦<Ring<M> as Seen<M>>⟧.seen ring.new))
        (Broke M.view (⟦<Ring<M> as Seen<M>>⟧.seen ring.old) (commanded 0 (tad address) ++ numbered 0 ddt number) (⟦<Ring<M> as Seen<M>>⟧.seen ring.new)) }
    ensures calm { result ≡ true → Each IsDeaf 1 (devices_of (⟦<Ring<M> as Seen<M>>⟧.seen ring.old)) → Each IsCalm 1 (devices_of (⟦<Ring<M> as Seen<M>>⟧.seen ring.new)) }
    ensures host { IsUnderHost (⟦<Ring<M> as Seen<M>>⟧.seen ring.new).guest }
{
    command(ring, Frame::of(Message::Tad(address))) && command_of(ring, number)
}

/// Sends the DDT of a number, if one is given.
fn command_of<M: Medium>(ring: &mut Ring<M>, number: Option<u8>) -> bool
    requires room { 34 ≤ spare_of (⟦<Ring<M> as Seen<M>>⟧.seen ring.old) }
    requires free { IsFree (⟦<Ring<M> as Seen<M>>⟧.seen ring.old) }
    requires host { IsUnderHost (⟦<Ring<M> as Seen<M>>⟧.seen ring.old).guest }
    requires number { IfSome number (λ n. n < 32) }
    ensures done { MatchBool result (Whole M.view (⟦<Ring<M> as Seen<M>>⟧.seen ring.old) (numbered 0 ddt number) (⟦<Ring<M> as Seen<M>>⟧.seen ring.new))
        (Broke M.view (⟦<Ring<M> as Seen<M>>⟧.seen ring.old) (numbered 0 ddt number) (⟦<Ring<M> as Seen<M>>⟧.seen ring.new)) }
    ensures calm { result ≡ true → Each IsCalm 1 (devices_of (⟦<Ring<M> as Seen<M>>⟧.seen ring.old)) → Each IsCalm 1 (devices_of (⟦<Ring<M> as Seen<M>>⟧.seen ring.new)) }
    ensures host { IsUnderHost (⟦<Ring<M> as Seen<M>>⟧.seen ring.new).guest }
{
    match number {
        None => true,
        Some(number) => command(ring, Frame::of(Message::Ddt(number))),
    }
}

/// Sends a start message.
fn begin<M: Medium>(ring: &mut Ring<M>, start: Sot) -> Begun
    requires room { 32 ≤ spare_of (⟦<Ring<M> as Seen<M>>⟧.seen ring.old) }
    requires free { IsFree (⟦<Ring<M> as Seen<M>>⟧.seen ring.old) }
    requires host { IsUnderHost (⟦<Ring<M> as Seen<M>>⟧.seen ring.old).guest }
    requires one { is_at_most_one (talkers (roles_of (devices_of (⟦<Ring<M> as Seen<M>>⟧.seen ring.old)))) ≡ true }
    requires calm { Each IsCalm 1 (devices_of (⟦<Ring<M> as Seen<M>>⟧.seen ring.old)) }
    ensures { Begins M.view (start_frame (start_of start)) (⟦<Ring<M> as Seen<M>>⟧.seen ring.old) result (⟦<Ring<M> as Seen<M>>⟧.seen ring.new) }
{
    match ring.send(start.frame()) {
        Arrival::Lost => Begun::Broken,
        Arrival::Frame(_) => {
            if ring.held().is_none() {
                Begun::NotTaken
            } else {
                Begun::Taken
            }
        }
    }
}

/// What it means that this arrived after a frame that went on.
fn onward_of(arrival: Arrival) -> Onward
    ensures { IsOnward arrival result }
{
    match arrival {
        Arrival::Lost => Onward::Broken,
        Arrival::Frame(frame) => {
            if frame.is_data() {
                Onward::More
            } else if frame == Frame::of(Message::Eto) {
                Onward::Ended
            } else {
                Onward::Broken
            }
        }
    }
}

/// Sends the held frame on.
fn relay<M: Medium>(ring: &mut Ring<M>) -> Onward
    requires room { 32 ≤ spare_of (⟦<Ring<M> as Seen<M>>⟧.seen ring.old) }
    requires held { IsSome (⟦<Ring<M> as Seen<M>>⟧.seen ring.old).books.held }
    ensures { RelaysAs M.view (⟦<Ring<M> as Seen<M>>⟧.seen ring.old) result (⟦<Ring<M> as Seen<M>>⟧.seen ring.new) }
{
    onward_of(ring.relay())
}

/// Sends the held frame on, again and again. It is inlined, as all that `take_on` calls is, so that the held frame
/// can stay in registers from one byte to the next.
#[inline(always)]
fn relay_on<'r, M: Medium>(ring: &mut Running<'r, M>) -> Onward
    requires room { 32 ≤ spare_of (⟦<Running<'r, M> as Seen<M>>⟧.seen ring.old) }
    requires held { IsSome (⟦<Running<'r, M> as Seen<M>>⟧.seen ring.old).books.held }
    ensures same_reference { ring.new.ring.ghost_name ≡ ring.old.ring.ghost_name }
    ensures went { RelaysAs M.view (⟦<Running<'r, M> as Seen<M>>⟧.seen ring.old) result (⟦<Running<'r, M> as Seen<M>>⟧.seen ring.new) }
{
    onward_of(ring.relay())
}

/// The byte of the held frame.
#[inline(always)]
fn byte_on<'r, M: Medium>(ring: &Running<'r, M>) -> u8
    requires held { IsSome (⟦<Running<'r, M> as Seen<M>>⟧.seen ring.now).books.held }
    ensures { IfSome (⟦<Running<'r, M> as Seen<M>>⟧.seen ring.now).books.held (λ f. result ≡ byte_of f.now) }
{
    ring.held().unwrap().byte()
}

/// The byte of the held frame.
fn held_byte<M: Medium>(ring: &Ring<M>) -> u8
    requires held { IsSome (⟦<Ring<M> as Seen<M>>⟧.seen ring.now).books.held }
    ensures { IfSome (⟦<Ring<M> as Seen<M>>⟧.seen ring.now).books.held (λ f. result ≡ byte_of f.now) }
{
    ring.held().unwrap().byte()
}

/// Takes the bytes of a talker, whose first frame is held, until `front` is full or the talker ends.
fn take_front<M: Medium>(ring: &mut Ring<M>, front: &mut [u8]) -> Front
    requires room { 34 + length front.old ≤ spare_of (⟦<Ring<M> as Seen<M>>⟧.seen ring.old) }
    requires holding { IsHolding (⟦<Ring<M> as Seen<M>>⟧.seen ring.old) }
    ensures { Fronts M.view (⟦<Ring<M> as Seen<M>>⟧.seen ring.old) front.old front.new result (⟦<Ring<M> as Seen<M>>⟧.seen ring.new) }
{
    let mut running = Running::new(ring);
    let taken = take_on(&mut running, front);
    running.hold();
    taken
}

/// Does the same as `take_front` on a running ring: the held frame is in `ring` itself, and not after a pointer.
#[inline(always)]
fn take_on<'r, M: Medium>(ring: &mut Running<'r, M>, front: &mut [u8]) -> Front
    requires room { 34 + length front.old ≤ spare_of (⟦<Running<'r, M> as Seen<M>>⟧.seen ring.old) }
    requires holding { IsHolding (⟦<Running<'r, M> as Seen<M>>⟧.seen ring.old) }
    ensures same_reference { ring.new.ring.ghost_name ≡ ring.old.ring.ghost_name }
    ensures fronts { Fronts M.view (⟦<Running<'r, M> as Seen<M>>⟧.seen ring.old) front.old front.new result (⟦<Running<'r, M> as Seen<M>>⟧.seen ring.new) }
{
    let mut count = 0;
    for slot in front.iter_mut() {
        *slot = byte_on(ring);
        count += 1;
        match relay_on(ring) {
            Onward::More => {}
            Onward::Ended => return Front::Ended(count),
            Onward::Broken => return Front::Broken,
        }
    }
    Front::Full
}

/// Has the talker stop after the held frame, which goes on, and awaits its end.
fn stop<M: Medium>(ring: &mut Ring<M>) -> bool
    requires room { 34 ≤ spare_of (⟦<Ring<M> as Seen<M>>⟧.seen ring.old) }
    requires holding { IsHolding (⟦<Ring<M> as Seen<M>>⟧.seen ring.old) }
    ensures { Stops M.view (⟦<Ring<M> as Seen<M>>⟧.seen ring.old) result (⟦<Ring<M> as Seen<M>>⟧.seen ring.new) }
{
    match ring.send(Frame::of(Message::Nrd)) {
        Arrival::Lost => false,
        Arrival::Frame(_) => matches!(relay(ring), Onward::Ended),
    }
}

/// Takes the bytes of a talker, whose first frame is held, to its end or until `into` is full. The talker is stopped
/// before the frame that fills it goes back.
fn take_bytes<M: Medium>(ring: &mut Ring<M>, into: &mut [u8]) -> Option<usize>
    requires some { 0 < length into.old }
    requires room { 35 + length into.old ≤ spare_of (⟦<Ring<M> as Seen<M>>⟧.seen ring.old) }
    requires holding { IsHolding (⟦<Ring<M> as Seen<M>>⟧.seen ring.old) }
    ensures { TakesBytes M.view (⟦<Ring<M> as Seen<M>>⟧.seen ring.old) into.old into.new result (⟦<Ring<M> as Seen<M>>⟧.seen ring.new) }
{
    let last = into.len() - 1;
    match take_front(ring, &mut into[..last]) {
        Front::Broken => None,
        Front::Ended(count) => Some(count),
        Front::Full => {
            into[last] = held_byte(ring);
            if stop(ring) { Some(last + 1) } else { None }
        }
    }
}

/// Sends a start message and takes what comes.
fn answer<M: Medium>(ring: &mut Ring<M>, start: Sot, into: &mut [u8]) -> Option<usize>
    requires some { 0 < length into.old }
    requires room { 36 + length into.old ≤ spare_of (⟦<Ring<M> as Seen<M>>⟧.seen ring.old) }
    requires free { IsFree (⟦<Ring<M> as Seen<M>>⟧.seen ring.old) }
    requires host { IsUnderHost (⟦<Ring<M> as Seen<M>>⟧.seen ring.old).guest }
    requires one { is_at_most_one (talkers (roles_of (devices_of (⟦<Ring<M> as Seen<M>>⟧.seen ring.old)))) ≡ true }
    requires calm { Each IsCalm 1 (devices_of (⟦<Ring<M> as Seen<M>>⟧.seen ring.old)) }
    ensures { MatchOption result (NotAnswered M.view (start_of start) (length into.old) (⟦<Ring<M> as Seen<M>>⟧.seen ring.old) (⟦<Ring<M> as Seen<M>>⟧.seen ring.new))
        (λ n. Answered M.view (start_of start) n (⟦<Ring<M> as Seen<M>>⟧.seen ring.old) into.old into.new (⟦<Ring<M> as Seen<M>>⟧.seen ring.new)) }
{
    match begin(ring, start) {
        Begun::NotTaken => Some(0),
        Begun::Broken => None,
        Begun::Taken => take_bytes(ring, into),
    }
}

/// Has the device of this address, 1 to 30, talk, and takes the bytes that it sends into the front of `into`, to its
/// end or until `into` is full; then it talks no more. After the talk address it sends device dependent talker command
/// `number`, 0 to 31, if one is given. Answers how many bytes came, none if no device took the start message. A
/// talker that fills `into` is stopped at that byte. If a frame was lost or came back to the talker with another
/// byte, the bytes in `into` are any.
pub fn receive<M: Medium>(
    ring: &mut Ring<M>,
    address: u8,
    number: Option<u8>,
    start: Sot,
    into: &mut [u8],
) -> Result<usize, Broken>
    requires some { 0 < length into.old }
    requires room { 43 + length into.old ≤ spare_of (⟦<Ring<M> as Seen<M>>⟧.seen ring.old) }
    requires idle { IsIdle (⟦<Ring<M> as Seen<M>>⟧.seen ring.old) }
    requires address { (1 ≤ address) × (address ≤ 30) }
    requires number { IfSome number (λ n. n < 32) }
    ensures received { IfOk result (λ n. Received M.view address number (start_of start) n (⟦<Ring<M> as Seen<M>>⟧.seen ring.old) into.old into.new (⟦<Ring<M> as Seen<M>>⟧.seen ring.new)) }
    ensures not_received { IfErr result (λ broken. NotReceived M.view address number (start_of start) (length into.old) (⟦<Ring<M> as Seen<M>>⟧.seen ring.old) (⟦<Ring<M> as Seen<M>>⟧.seen ring.new)) }
{
    if !ask(ring, address, number) {
        return Err(Broken);
    }
    let Some(count) = answer(ring, start, into) else {
        return Err(Broken);
    };
    if command(ring, Frame::of(Message::Unt)) {
        Ok(count)
    } else {
        Err(Broken)
    }
}
