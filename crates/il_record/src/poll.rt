// A parallel poll over the loop.
ghost use Rattle.std.specs.Prelude.{◌≡◌, ◌≤◌, None, length, IfOk, IfErr};
ghost use Rattle.loop_model.specs.Polls.{polled_along};
ghost use Rattle.il_ring.specs.Rings.{spare_of, devices_of};
ghost use Rattle.il_ring.specs.Lists.{Each};
ghost use Rattle.il_ring.specs.Polls.{identified_along};
ghost use Rattle.il_control.specs.Calls.{IsIdle, idy};
ghost use Rattle.il_record.specs.Polls.{Assigned, Collected, HasPolled, MayPoll, PollBroke, collect_asks, place_asks, poll_asks};

use il_control::Broken;
use il_control::exchanges::{command, identify};
use il_frames::{Frame, Message};
use il_ports::Medium;
use il_ring::{Ring, Seen};

/// Gives the device of this address, 1 to 8, its place in the poll.
fn assign<M: Medium>(ring: &mut Ring<M>, address: u8) -> Result<(), Broken>
    requires room { 38 ≤ spare_of (⟦<Ring<M> as Seen<M>>⟧.seen ring.old) }
    requires idle { IsIdle (⟦<Ring<M> as Seen<M>>⟧.seen ring.old) }
    requires silent { (⟦<Ring<M> as Seen<M>>⟧.seen ring.old).drive.state.interface.own ≡ None }
    requires address { (1 ≤ address) × (address ≤ 8) }
    ensures assigned { IfOk result (λ done. Assigned M.view address (⟦<Ring<M> as Seen<M>>⟧.seen ring.old) (⟦<Ring<M> as Seen<M>>⟧.seen ring.new)) }
    ensures broken { IfErr result (λ broken. PollBroke M.view 7 (place_asks address) (⟦<Ring<M> as Seen<M>>⟧.seen ring.old) (⟦<Ring<M> as Seen<M>>⟧.seen ring.new)) }
{
    command(ring, Frame::of(Message::Unl))?;
    command(ring, Frame::of(Message::Lad(address)))?;
    command(ring, Frame::of(Message::Ppe(7 + address)))
}

/// Polls the devices that have places, and takes all places away.
fn collect<M: Medium>(ring: &mut Ring<M>) -> Result<Frame, Broken>
    requires room { 37 ≤ spare_of (⟦<Ring<M> as Seen<M>>⟧.seen ring.old) }
    requires idle { IsIdle (⟦<Ring<M> as Seen<M>>⟧.seen ring.old) }
    requires silent { (⟦<Ring<M> as Seen<M>>⟧.seen ring.old).drive.state.interface.own ≡ None }
    ensures collected { IfOk result (λ frame. Collected M.view frame (⟦<Ring<M> as Seen<M>>⟧.seen ring.old) (⟦<Ring<M> as Seen<M>>⟧.seen ring.new)) }
    ensures broken { IfErr result (λ broken. PollBroke M.view 6 (collect_asks (identified_along (devices_of (⟦<Ring<M> as Seen<M>>⟧.seen ring.old)) idy)) (⟦<Ring<M> as Seen<M>>⟧.seen ring.old) (⟦<Ring<M> as Seen<M>>⟧.seen ring.new)) }
{
    command(ring, Frame::of(Message::Unl))?;
    let frame = identify(ring)?;
    command(ring, Frame::of(Message::Ppu))?;
    Ok(frame)
}

/// Asks which of the first eight devices want service. Answers the identify frame as it came back.
pub(crate) fn parallel_poll<M: Medium>(ring: &mut Ring<M>) -> Result<Frame, Broken>
    requires room { 100 ≤ spare_of (⟦<Ring<M> as Seen<M>>⟧.seen ring.old) }
    requires idle { IsIdle (⟦<Ring<M> as Seen<M>>⟧.seen ring.old) }
    requires places { Each MayPoll 1 (devices_of (⟦<Ring<M> as Seen<M>>⟧.seen ring.old)) }
    ensures polled { IfOk result (λ frame. HasPolled M.view frame (⟦<Ring<M> as Seen<M>>⟧.seen ring.old) (⟦<Ring<M> as Seen<M>>⟧.seen ring.new)) }
    ensures broken { IfErr result (λ broken. PollBroke M.view 54 (poll_asks (length (devices_of (⟦<Ring<M> as Seen<M>>⟧.seen ring.old))) (polled_along 1 (devices_of (⟦<Ring<M> as Seen<M>>⟧.seen ring.old)) idy)) (⟦<Ring<M> as Seen<M>>⟧.seen ring.old) (⟦<Ring<M> as Seen<M>>⟧.seen ring.new)) }
{
    let count = ring.devices();
    for place in 0..count.min(8) {
        assign(ring, place + 1)?;
    }
    collect(ring)
}
