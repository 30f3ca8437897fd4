// Runs of records over the loop: a seek, a transfer and a status poll, directly after each other.
ghost use Rattle.std.specs.Prelude.{◌≡◌, ◌≤◌, ◌+◌, ◌*◌, ◌/◌, ◌==◌, ◌&&◌, length, IfOk, IfErr};
ghost use Rattle.il_drive.specs.Resting.{IsFree};
ghost use Rattle.lif_model.specs.Shelf.{cut};
ghost use Rattle.il_ports.specs.Stores.{AreRecords};
ghost use Rattle.il_ring.specs.Rings.{spare_of, drive_party};
ghost use Rattle.il_control.specs.Calls.{IsIdle};
ghost use Rattle.il_record.specs.Polls.{PlacesKept};
ghost use Rattle.il_record.specs.Runs.{Cleared, Interrupted, clear_asks, Polled, NotPolled, ReadAs, ReadBroke, WroteAs, WriteBroke};

use crate::exchanges::{seek, send};
use il_control::exchanges::{command, receive};
use il_control::{Broken, Sot};
use il_frames::{Frame, Message};
use il_ports::Medium;
use il_ring::{Ring, Seen};

/// Has the drive rest with status 0.
pub(crate) fn clear<M: Medium>(ring: &mut Ring<M>) -> Result<(), Broken>
    requires room { 40 ≤ spare_of (⟦<Ring<M> as Seen<M>>⟧.seen ring.old) }
    requires idle { IsIdle (⟦<Ring<M> as Seen<M>>⟧.seen ring.old) }
    ensures cleared { IfOk result (λ done. Cleared M.view (drive_party (⟦<Ring<M> as Seen<M>>⟧.seen ring.old)) (⟦<Ring<M> as Seen<M>>⟧.seen ring.old) (⟦<Ring<M> as Seen<M>>⟧.seen ring.new)) }
    ensures broken { IfErr result (λ broken. Interrupted M.view (clear_asks (drive_party (⟦<Ring<M> as Seen<M>>⟧.seen ring.old))) (drive_party (⟦<Ring<M> as Seen<M>>⟧.seen ring.old)) (⟦<Ring<M> as Seen<M>>⟧.seen ring.old) (⟦<Ring<M> as Seen<M>>⟧.seen ring.new)) }
    ensures used { spare_of (⟦<Ring<M> as Seen<M>>⟧.seen ring.old) ≤ spare_of (⟦<Ring<M> as Seen<M>>⟧.seen ring.new) + 7 }
{
    let drive = ring.party();
    command(ring, Frame::of(Message::Unl))?;
    command(ring, Frame::of(Message::Lad(drive)))?;
    command(ring, Frame::of(Message::Sdc))
}

/// Asks the drive for its status, and answers the status byte.
pub(crate) fn status<M: Medium>(ring: &mut Ring<M>) -> Result<u8, Broken>
    requires room { 44 ≤ spare_of (⟦<Ring<M> as Seen<M>>⟧.seen ring.old) }
    requires idle { IsIdle (⟦<Ring<M> as Seen<M>>⟧.seen ring.old) }
    ensures told { IfOk result (λ byte. Polled M.view (drive_party (⟦<Ring<M> as Seen<M>>⟧.seen ring.old)) byte (⟦<Ring<M> as Seen<M>>⟧.seen ring.old) (⟦<Ring<M> as Seen<M>>⟧.seen ring.new)) }
    ensures broken { IfErr result (λ broken. NotPolled M.view (drive_party (⟦<Ring<M> as Seen<M>>⟧.seen ring.old)) (⟦<Ring<M> as Seen<M>>⟧.seen ring.old) (⟦<Ring<M> as Seen<M>>⟧.seen ring.new)) }
    ensures places { PlacesKept (⟦<Ring<M> as Seen<M>>⟧.seen ring.old) (⟦<Ring<M> as Seen<M>>⟧.seen ring.new) }
    ensures used { spare_of (⟦<Ring<M> as Seen<M>>⟧.seen ring.old) ≤ spare_of (⟦<Ring<M> as Seen<M>>⟧.seen ring.new) + 14 }
{
    let drive = ring.party();
    let mut status = [0; 1];
    receive(ring, drive, None, Sot::Sst, &mut status)?;
    Ok(status[0])
}

/// Whether a run of `length` bytes came whole, of which so many bytes came and the drive told this status.
fn is_whole(count: usize, length: usize, status: u8) -> bool
    ensures { result ≡ ((count == length) && (status == 0)) }
{
    count == length && status == 0
}

/// Reads records from record `first` on, as many as fill `into`. Answers whether all came; if not, the medium could not
/// read one of them.
pub(crate) fn read_run<M: Medium>(
    ring: &mut Ring<M>,
    first: u16,
    into: &mut [u8],
) -> Result<bool, Broken>
    requires room { 65 + length into.old ≤ spare_of (⟦<Ring<M> as Seen<M>>⟧.seen ring.old) }
    requires idle { IsIdle (⟦<Ring<M> as Seen<M>>⟧.seen ring.old) }
    requires free { IsFree (drive_party (⟦<Ring<M> as Seen<M>>⟧.seen ring.old)) (⟦<Ring<M> as Seen<M>>⟧.seen ring.old).drive.state }
    requires records { AreRecords (length into.old) }
    requires within { first + length into.old / 256 ≤ (M.view (⟦<Ring<M> as Seen<M>>⟧.seen ring.old).drive.medium).record_count }
    ensures read { IfOk result (λ all. ReadAs M.view (drive_party (⟦<Ring<M> as Seen<M>>⟧.seen ring.old)) first into.new all (⟦<Ring<M> as Seen<M>>⟧.seen ring.old) (⟦<Ring<M> as Seen<M>>⟧.seen ring.new)) }
    ensures broken { IfErr result (λ broken. ReadBroke M.view (drive_party (⟦<Ring<M> as Seen<M>>⟧.seen ring.old)) (⟦<Ring<M> as Seen<M>>⟧.seen ring.old) (⟦<Ring<M> as Seen<M>>⟧.seen ring.new)) }
    ensures places { PlacesKept (⟦<Ring<M> as Seen<M>>⟧.seen ring.old) (⟦<Ring<M> as Seen<M>>⟧.seen ring.new) }
    ensures used { spare_of (⟦<Ring<M> as Seen<M>>⟧.seen ring.old) ≤ spare_of (⟦<Ring<M> as Seen<M>>⟧.seen ring.new) + (35 + length into.old) }
{
    let drive = ring.party();
    seek(ring, drive, first)?;
    let count = receive(ring, drive, Some(2), Sot::Sda, into)?;
    let told = status(ring)?;
    Ok(is_whole(count, into.len(), told))
}

/// Writes `count` records from record `first` on: the bytes of `from`, filled up with zeros. Answers whether all stand;
/// if not, the medium could not write one of them.
pub(crate) fn write_run<M: Medium>(
    ring: &mut Ring<M>,
    first: u16,
    count: u16,
    from: &[u8],
) -> Result<bool, Broken>
    requires room { 60 + 256 * count ≤ spare_of (⟦<Ring<M> as Seen<M>>⟧.seen ring.old) }
    requires idle { IsIdle (⟦<Ring<M> as Seen<M>>⟧.seen ring.old) }
    requires free { IsFree (drive_party (⟦<Ring<M> as Seen<M>>⟧.seen ring.old)) (⟦<Ring<M> as Seen<M>>⟧.seen ring.old).drive.state }
    requires some { 1 ≤ count }
    requires within { first + count ≤ (M.view (⟦<Ring<M> as Seen<M>>⟧.seen ring.old).drive.medium).record_count }
    ensures wrote { IfOk result (λ all. WroteAs M.view (drive_party (⟦<Ring<M> as Seen<M>>⟧.seen ring.old)) first (cut count from.now) all (⟦<Ring<M> as Seen<M>>⟧.seen ring.old) (⟦<Ring<M> as Seen<M>>⟧.seen ring.new)) }
    ensures broken { IfErr result (λ broken. WriteBroke M.view (drive_party (⟦<Ring<M> as Seen<M>>⟧.seen ring.old)) first (cut count from.now) (⟦<Ring<M> as Seen<M>>⟧.seen ring.old) (⟦<Ring<M> as Seen<M>>⟧.seen ring.new)) }
    ensures places { PlacesKept (⟦<Ring<M> as Seen<M>>⟧.seen ring.old) (⟦<Ring<M> as Seen<M>>⟧.seen ring.new) }
    ensures used { spare_of (⟦<Ring<M> as Seen<M>>⟧.seen ring.old) ≤ spare_of (⟦<Ring<M> as Seen<M>>⟧.seen ring.new) + (30 + 256 * count) }
{
    let drive = ring.party();
    seek(ring, drive, first)?;
    send(ring, drive, Some(2), from, 256 * usize::from(count))?;
    let told = status(ring)?;
    Ok(told == 0)
}
