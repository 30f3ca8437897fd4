// What the tests share: the controller of a loop of the drive between other devices, and a store over it.
ghost use Rattle.std.specs.Prelude.{◌≡◌, [], IfOk};
ghost use Rattle.il_ring.specs.Lists.{Each};
ghost use Rattle.il_ring.specs.Rings.{devices_of};
ghost use Rattle.il_control.specs.Calls.{IsLost};
ghost use Rattle.il_record.specs.Polls.{MayPoll};

use il_control::Lost;
use il_device::Device;
use il_ports::{Medium, MemoryMedium, Records};
use il_record::LoopRecords;
use il_ring::{Planned, Rig, Ring, Seen, is_plan};
use std::process::Abort;
use std::test::Fail;

/// The controller of a new ring.
fn lost_of(ring: Ring<MemoryMedium>) -> Lost<MemoryMedium>
    requires lost { IsLost (⟦<Ring<MemoryMedium> as Seen<MemoryMedium>>⟧.seen ring) }
    requires empty { (⟦<Ring<MemoryMedium> as Seen<MemoryMedium>>⟧.seen ring).books.log ≡ [] }
    requires places { Each MayPoll 1 (devices_of (⟦<Ring<MemoryMedium> as Seen<MemoryMedium>>⟧.seen ring)) }
    ensures lost { IsLost (⟦<Lost<MemoryMedium> as Seen<MemoryMedium>>⟧.seen result) }
    ensures empty { (⟦<Lost<MemoryMedium> as Seen<MemoryMedium>>⟧.seen result).books.log ≡ [] }
    ensures places { Each MayPoll 1 (devices_of (⟦<Lost<MemoryMedium> as Seen<MemoryMedium>>⟧.seen result)) }
{
    Lost::new(ring)
}

/// The controller of a new ring of these devices.
pub(crate) fn controller_of(
    rt: &(impl Abort + AllocGlobal),
    rig: Rig<MemoryMedium>,
    plan: &[Planned],
) -> Result<Lost<MemoryMedium>, Fail>
    ensures lost { IfOk result (λ lost. IsLost (⟦<Lost<MemoryMedium> as Seen<MemoryMedium>>⟧.seen lost)) }
    ensures empty { IfOk result (λ lost. (⟦<Lost<MemoryMedium> as Seen<MemoryMedium>>⟧.seen lost).books.log ≡ []) }
    ensures places { IfOk result (λ lost. Each MayPoll 1 (devices_of (⟦<Lost<MemoryMedium> as Seen<MemoryMedium>>⟧.seen lost))) }
{
    assert!(rt; is_plan(plan));
    assert!(rt; rig.medium.size() > 0);
    let fits = rig.fits();
    if fits {
        match Ring::new(rt.alloc(), rig, plan, 20_000) {
            Ok(ring) => Ok(lost_of(ring)),
            Err(_) => Err(Fail::from("no memory for a ring")),
        }
    } else {
        Err(Fail::from("the devices do not fit"))
    }
}

/// The controller of a new ring of the drive between these devices.
pub(crate) fn controller(
    rt: &(impl Abort + AllocGlobal),
    medium: MemoryMedium,
    before: Vec<Box<dyn Device>>,
    after: Vec<Box<dyn Device>>,
    plan: &[Planned],
) -> Result<Lost<MemoryMedium>, Fail>
    ensures lost { IfOk result (λ lost. IsLost (⟦<Lost<MemoryMedium> as Seen<MemoryMedium>>⟧.seen lost)) }
    ensures empty { IfOk result (λ lost. (⟦<Lost<MemoryMedium> as Seen<MemoryMedium>>⟧.seen lost).books.log ≡ []) }
    ensures places { IfOk result (λ lost. Each MayPoll 1 (devices_of (⟦<Lost<MemoryMedium> as Seen<MemoryMedium>>⟧.seen lost))) }
{
    let rig = Rig {
        medium,
        before,
        after,
        guest: None,
    };
    controller_of(rt, rig, plan)
}

/// A store over that loop.
pub(crate) fn store(
    rt: &(impl Abort + AllocGlobal),
    medium: MemoryMedium,
    before: Vec<Box<dyn Device>>,
    after: Vec<Box<dyn Device>>,
    plan: &[Planned],
) -> Result<LoopRecords<MemoryMedium>, Fail>
    ensures { IfOk result (λ records. (⟦<LoopRecords<MemoryMedium> as Records>⟧.view records).valid) }
{
    Ok(LoopRecords::new(controller(rt, medium, before, after, plan)?))
}
