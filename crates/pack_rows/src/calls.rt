//! How many records a packing reads and writes where that is dear.
use crate::opening::{packed_on, room_for};
use crate::plain::{packs_to, plain_packing};
use crate::tapes::{entry, row, tape_of};
use il_ports::Records;
use il_same::same;
use lif_model::ENTRY;
use std::alloc::Global;
use std::process::Abort;
use std::test::Fail;

/// A packing of the tape is so many calls.
fn costs(
    rt: &impl Abort,
    alloc: Global,
    size: usize,
    length: usize,
    slots: &[[u8; ENTRY]],
    calls: u32,
) -> Result<(), Fail> {
    let tape = tape_of(rt, alloc, size, length, slots)?;
    let wanted = plain_packing(rt, alloc, &tape)?;
    let (answer, records) = packed_on(rt, alloc, tape)?;
    row(rt, same(answer, Ok(wanted.answer)), "answer", size);
    packs_to(rt, alloc, records.records(), &wanted, size)?;
    let made = room_for(size).saturating_sub(records.left());
    row(rt, made == calls, "calls", made as usize);
    Ok(())
}

/// On a cassette 223 files of one record, each after a gap of one.
#[test]
fn many_files_cost_so_many_calls(rt: HostRuntime) -> Result<(), Fail> {
    let alloc = rt.alloc();
    let mut slots = Vec::new(alloc);
    for k in 0..223_u32 {
        let [_, _, high, low] = k.to_be_bytes();
        slots.push(entry([b'F', b' ', high, low], 32 + 2 * k, 1))?;
    }
    slots.push(entry([b'*'; 4], 478, 34))?;
    costs(&rt, alloc, 512, 28, &slots, 2908)
}

/// On a disc a directory that goes up to the redo file, of which one slot in so many is live, or all but one are.
#[test]
fn many_slots_cost_so_many_calls(rt: HostRuntime) -> Result<(), Fail> {
    let alloc = rt.alloc();
    for (live, calls) in [(1, 21853), (7, 25483)] {
        let mut slots = Vec::new(alloc);
        for k in 0..19_423_u32 {
            let [_, _, high, low] = k.to_be_bytes();
            let first = if k % 8 < live { b'F' } else { b'f' };
            slots.push(entry([first, b' ', high, low], k, 0))?;
        }
        slots.push(entry([b'*'; 4], 2430, 34))?;
        costs(&rt, alloc, 2464, 2428, &slots, calls)?;
    }
    Ok(())
}
