// Calls over the loop that move no record.
ghost use Rattle.std.specs.Prelude.{◌≡◌, ◌≤◌, ◌<◌, ◌+◌, ◌*◌, ◌==◌, false, None, Some, length, if◌then◌else◌, IfOk, IfErr};
ghost use Rattle.il_ring.specs.Rings.{spare_of, devices_of};
ghost use Rattle.il_control.specs.Calls.{IsIdle};
ghost use Rattle.il_record.specs.LoopCalls.{AllNamed, LeftAlone, Named, NotSaid, Said, id_asks};
ghost use Rattle.il_record.specs.Asks.{up_to};

use crate::exchanges::send;
use arrayvec::ArrayVec;
use il_control::exchanges::receive;
use il_control::{Broken, Sot};
use il_ports::Medium;
use il_ring::{Ring, Seen};

/// The ID that so many bytes tell, of which this is the first.
fn told_id(count: usize, id: u8) -> Option<u8>
    ensures { result ≡ (if count == 0 then None else Some id) }
{
    if count == 0 { None } else { Some(id) }
}

/// Asks the device of this address for its accessory ID. Answers None where no device has the address or the device has
/// no ID.
fn accessory<M: Medium>(ring: &mut Ring<M>, address: u8) -> Result<Option<u8>, Broken>
    requires room { 44 ≤ spare_of (⟦<Ring<M> as Seen<M>>⟧.seen ring.old) }
    requires idle { IsIdle (⟦<Ring<M> as Seen<M>>⟧.seen ring.old) }
    requires silent { (⟦<Ring<M> as Seen<M>>⟧.seen ring.old).drive.state.interface.own ≡ None }
    requires address { (1 ≤ address) × (address ≤ 30) }
    ensures named { IfOk result (λ id. Named M.view address id (⟦<Ring<M> as Seen<M>>⟧.seen ring.old) (⟦<Ring<M> as Seen<M>>⟧.seen ring.new)) }
    ensures broken { IfErr result (λ broken. LeftAlone M.view false (id_asks (devices_of (⟦<Ring<M> as Seen<M>>⟧.seen ring.old)) address) (⟦<Ring<M> as Seen<M>>⟧.seen ring.old) (⟦<Ring<M> as Seen<M>>⟧.seen ring.new)) }
    ensures used { spare_of (⟦<Ring<M> as Seen<M>>⟧.seen ring.old) ≤ spare_of (⟦<Ring<M> as Seen<M>>⟧.seen ring.new) + 14 }
{
    let mut id = [0; 1];
    let count = receive(ring, address, None, Sot::Sai, &mut id)?;
    Ok(told_id(count, id[0]))
}

/// Asks each device, in the order of the ring, for its accessory ID.
pub(crate) fn accessories<M: Medium>(
    ring: &mut Ring<M>,
    into: &mut ArrayVec<Option<u8>, 30>,
) -> Result<(), Broken>
    requires room { 421 ≤ spare_of (⟦<Ring<M> as Seen<M>>⟧.seen ring.old) }
    requires idle { IsIdle (⟦<Ring<M> as Seen<M>>⟧.seen ring.old) }
    ensures named { IfOk result (λ done. AllNamed M.view into.new.items (⟦<Ring<M> as Seen<M>>⟧.seen ring.old) (⟦<Ring<M> as Seen<M>>⟧.seen ring.new)) }
    ensures broken { IfErr result (λ broken. LeftAlone M.view false (up_to (id_asks (devices_of (⟦<Ring<M> as Seen<M>>⟧.seen ring.old))) (length (devices_of (⟦<Ring<M> as Seen<M>>⟧.seen ring.old)))) (⟦<Ring<M> as Seen<M>>⟧.seen ring.old) (⟦<Ring<M> as Seen<M>>⟧.seen ring.new)) }
    ensures used { spare_of (⟦<Ring<M> as Seen<M>>⟧.seen ring.old) ≤ spare_of (⟦<Ring<M> as Seen<M>>⟧.seen ring.new) + 391 }
{
    let count = ring.devices();
    into.clear();
    for place in 0..count {
        into.push(accessory(ring, place + 1)?);
    }
    Ok(())
}

/// Sends bytes to the device of this address.
pub(crate) fn say<M: Medium>(ring: &mut Ring<M>, printer: u8, bytes: &[u8]) -> Result<(), Broken>
    requires room { 39 + length bytes.now ≤ spare_of (⟦<Ring<M> as Seen<M>>⟧.seen ring.old) }
    requires idle { IsIdle (⟦<Ring<M> as Seen<M>>⟧.seen ring.old) }
    requires address { (1 ≤ printer) × (printer ≤ 30) }
    ensures said { IfOk result (λ done. Said M.view printer bytes.now (⟦<Ring<M> as Seen<M>>⟧.seen ring.old) (⟦<Ring<M> as Seen<M>>⟧.seen ring.new)) }
    ensures broken { IfErr result (λ broken. NotSaid M.view printer bytes.now (⟦<Ring<M> as Seen<M>>⟧.seen ring.old) (⟦<Ring<M> as Seen<M>>⟧.seen ring.new)) }
    ensures used { spare_of (⟦<Ring<M> as Seen<M>>⟧.seen ring.old) ≤ spare_of (⟦<Ring<M> as Seen<M>>⟧.seen ring.new) + (length bytes.now + 7) }
{
    send(ring, printer, None, bytes, bytes.len())
}
