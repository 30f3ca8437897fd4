// The exchanges of a controller with the drive.
ghost use Rattle.std.specs.Prelude.{◌≡◌, ◌≤◌, ◌<◌, ◌+◌, Some, get_or, IfSome, IfOk, IfErr};
ghost use Rattle.std.specs.Int.{to_be_bytes, w16};
ghost use Rattle.il_ring.specs.Rings.{spare_of};
ghost use Rattle.il_control.specs.Calls.{IsIdle};
ghost use Rattle.il_record.specs.Sends.{filled, SentAll, SendBroke};

use il_control::Broken;
use il_control::exchanges::{listen, send_byte};
use il_ports::Medium;
use il_ring::{Ring, Seen};

/// The byte at this place, and 0 after the last.
fn byte_at(bytes: &[u8], place: usize) -> u8
    ensures { result ≡ get_or bytes.now place 0 }
{
    bytes.get(place).copied().unwrap_or(0)
}

/// Sends `length` bytes to the device of this address: these bytes, followed by zeros. In front of them goes device
/// dependent listener command `number`, where one is given.
pub(crate) fn send<M: Medium>(
    ring: &mut Ring<M>,
    address: u8,
    number: Option<u8>,
    bytes: &[u8],
    length: usize,
) -> Result<(), Broken>
    requires room { 39 + length ≤ spare_of (⟦<Ring<M> as Seen<M>>⟧.seen ring.old) }
    requires idle { IsIdle (⟦<Ring<M> as Seen<M>>⟧.seen ring.old) }
    requires address { (1 ≤ address) × (address ≤ 30) }
    requires number { IfSome number (λ n. n < 32) }
    ensures sent { IfOk result (λ done. SentAll M.view address number (filled length bytes.now) (⟦<Ring<M> as Seen<M>>⟧.seen ring.old) (⟦<Ring<M> as Seen<M>>⟧.seen ring.new)) }
    ensures broken { IfErr result (λ broken. SendBroke M.view address number (filled length bytes.now) (⟦<Ring<M> as Seen<M>>⟧.seen ring.old) (⟦<Ring<M> as Seen<M>>⟧.seen ring.new)) }
    ensures used { spare_of (⟦<Ring<M> as Seen<M>>⟧.seen ring.old) ≤ spare_of (⟦<Ring<M> as Seen<M>>⟧.seen ring.new) + (length + 7) }
{
    listen(ring, address, number)?;
    for place in 0..length {
        send_byte(ring, byte_at(bytes, place))?;
    }
    Ok(())
}

/// Has the drive, which has this address, seek record `n`.
pub(crate) fn seek<M: Medium>(ring: &mut Ring<M>, drive: u8, n: u16) -> Result<(), Broken>
    requires room { 41 ≤ spare_of (⟦<Ring<M> as Seen<M>>⟧.seen ring.old) }
    requires idle { IsIdle (⟦<Ring<M> as Seen<M>>⟧.seen ring.old) }
    requires address { (1 ≤ drive) × (drive ≤ 30) }
    ensures sent { IfOk result (λ done. SentAll M.view drive (Some 4) (filled 2 (to_be_bytes w16 n)) (⟦<Ring<M> as Seen<M>>⟧.seen ring.old) (⟦<Ring<M> as Seen<M>>⟧.seen ring.new)) }
    ensures broken { IfErr result (λ broken. SendBroke M.view drive (Some 4) (filled 2 (to_be_bytes w16 n)) (⟦<Ring<M> as Seen<M>>⟧.seen ring.old) (⟦<Ring<M> as Seen<M>>⟧.seen ring.new)) }
    ensures used { spare_of (⟦<Ring<M> as Seen<M>>⟧.seen ring.old) ≤ spare_of (⟦<Ring<M> as Seen<M>>⟧.seen ring.new) + 9 }
{
    send(ring, drive, Some(4), &n.to_be_bytes(), 2)
}
