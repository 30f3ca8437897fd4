//! Volumes on a tape in memory, which are packed and finished.
ghost use Rattle.std.specs.Prelude.{◌≡◌, ◌<◌, ◌≤◌, ◌+◌, ◌*◌, IfOk};
ghost use Rattle.il_ports.specs.Stores.{IsReady};
ghost use Rattle.lif_volume.specs.Seen.{seen};
ghost use Rattle.lif_volume.specs.Views.{IsOpen};

use il_ports::{MemoryRecords, Records, Trouble};
use lif_model::Record;
use lif_pack::{Packed, Packer};
use lif_volume::{Volume, VolumeFault};
use std::alloc::Global;
use std::process::Abort;
use std::test::Fail;

/// How many calls the store of a tape of so many records takes.
pub fn room_for(size: usize) -> u32
    ensures { result < 100000 }
{
    20 * size.min(3000) as u32 + 1000
}

/// A volume on a tape, whose store is sound. The listed calls of the store fail.
pub fn open_now(
    rt: &impl Abort,
    alloc: Global,
    tape: Vec<Record>,
    fails: Vec<(u64, Trouble)>,
) -> Result<Volume<MemoryRecords>, Fail>
    ensures { IfOk result (λ volume. IsOpen ⟦<MemoryRecords as Records>⟧.view
        (seen volume)) }
{
    assert!(rt; 37 < tape.len() && tape.len() < 3000);
    let room = room_for(tape.len());
    let records = MemoryRecords::new(alloc, tape, fails, room)?;
    match Volume::open(alloc, records) {
        Ok(volume) => Ok(volume),
        Err(_) => Err("no memory".into()),
    }
}

/// Stops the test where the store of a volume is not ready for a packing. The answer is how many records it has.
pub fn ready<R: Records>(rt: &impl Abort, volume: &Volume<R>) -> u16
    requires { IsOpen R.view (seen volume.now) }
    ensures size { result ≡ (R.view (seen volume.now).records).record_count }
    ensures small { result ≤ 8192 }
    ensures ready { IsReady (15 * result + 120) (R.view (seen volume.now).records) }
{
    let size = volume.records().size();
    assert!(rt; size <= 8192 && volume.records().is_sound());
    assert!(rt; 15 * u32::from(size) + 120 <= volume.records().left());
    size
}

/// Packs a volume whose store is ready for it.
pub fn pack_now<R: Records>(
    rt: &impl Abort,
    alloc: Global,
    volume: &mut Volume<R>,
) -> Result<Result<Packed, VolumeFault>, Fail>
    requires { IsOpen R.view (seen volume.old) }
    ensures { IfOk result (λ answer. IsOpen R.view (seen volume.new)) }
{
    let mut packer = Packer::new(alloc, ready(rt, volume))?;
    Ok(packer.pack(volume))
}

/// Finishes a volume whose store is ready for it.
pub fn finish_now<R: Records>(
    rt: &impl Abort,
    alloc: Global,
    volume: &mut Volume<R>,
) -> Result<Result<(), Trouble>, Fail>
    requires { IsOpen R.view (seen volume.old) }
    ensures { IfOk result (λ answer. IsOpen R.view (seen volume.new)) }
{
    let mut packer = Packer::new(alloc, ready(rt, volume))?;
    Ok(packer.finish(volume))
}

/// Packs the volume of a tape, and hands its records back.
pub fn packed_on(
    rt: &impl Abort,
    alloc: Global,
    tape: Vec<Record>,
) -> Result<(Result<Packed, VolumeFault>, MemoryRecords), Fail> {
    let mut volume = open_now(rt, alloc, tape, Vec::new(alloc))?;
    let answer = pack_now(rt, alloc, &mut volume)?;
    Ok((answer, volume.into_records()))
}

/// Finishes the volume of a tape, and hands its records back.
pub fn finished_on(
    rt: &impl Abort,
    alloc: Global,
    tape: Vec<Record>,
) -> Result<MemoryRecords, Fail> {
    let mut volume = open_now(rt, alloc, tape, Vec::new(alloc))?;
    assert!(rt; finish_now(rt, alloc, &mut volume)?.is_ok(), "finished");
    Ok(volume.into_records())
}
