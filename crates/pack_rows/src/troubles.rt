//! Troubles of a packing, at each of its calls.
use crate::opening::{finish_now, open_now, pack_now, packed_on, room_for};
use crate::plain::{Plain, has_files, packs_to, plain_packing};
use crate::stops::{long, made};
use crate::tapes::{copied, row};
use il_ports::{Records, Trouble};
use il_same::same;
use lif_model::Record;
use lif_volume::VolumeFault;
use std::alloc::Global;
use std::process::Abort;
use std::test::Fail;

/// Where this call of a packing fails, the volume is finished then to the same files, and is packed after that.
fn fails_at(
    rt: &impl Abort,
    alloc: Global,
    tape: &[Record],
    wanted: &Plain,
    call: usize,
) -> Result<(), Fail> {
    let mut fails = Vec::new(alloc);
    fails.push((call as u64, Trouble::Medium))?;
    let mut volume = open_now(rt, alloc, copied(alloc, tape)?, fails)?;
    let answer = pack_now(rt, alloc, &mut volume)?;
    let trouble = Err(VolumeFault::Trouble(Trouble::Medium));
    row(
        rt,
        same(answer, trouble) && !volume.is_kept(),
        "call fails",
        call,
    );
    assert!(rt; 1 <= volume.records().left());
    row(rt, volume.records_mut().resume().is_ok(), "resumed", call);
    row(
        rt,
        finish_now(rt, alloc, &mut volume)?.is_ok(),
        "finished",
        call,
    );
    has_files(rt, alloc, volume.records().records(), wanted, call)?;
    row(
        rt,
        pack_now(rt, alloc, &mut volume)?.is_ok(),
        "packed",
        call,
    );
    packs_to(rt, alloc, volume.records().records(), wanted, call)
}

/// The tape is packed by so many calls, and keeps its files whichever of them fails.
fn troubles(rt: &impl Abort, alloc: Global, tape: &[Record], calls: u32) -> Result<(), Fail> {
    let wanted = plain_packing(rt, alloc, tape)?;
    let (_, records) = packed_on(rt, alloc, copied(alloc, tape)?)?;
    let made = room_for(tape.len()).saturating_sub(records.left());
    row(rt, made == calls, "calls", made as usize);
    for call in 1..=calls as usize {
        fails_at(rt, alloc, tape, &wanted, call)?;
    }
    Ok(())
}

#[test]
fn a_trouble_keeps_the_files_that_were_stored(rt: HostRuntime) -> Result<(), Fail> {
    let alloc = rt.alloc();
    troubles(&rt, alloc, &made(&rt, alloc)?, 161)
}

#[test]
fn a_trouble_keeps_a_long_file(rt: HostRuntime) -> Result<(), Fail> {
    let alloc = rt.alloc();
    troubles(&rt, alloc, &long(&rt, alloc)?, 316)
}
