//! Stops of a packing at each of its writes, and stops within what finishes them.
ghost use Rattle.std.specs.Prelude.{IfOk};
ghost use Rattle.lif_volume.specs.Seen.{seen};
ghost use Rattle.lif_volume.specs.Views.{IsOpen};

use crate::opening::{finished_on, open_now, packed_on, ready};
use crate::plain::{Plain, has_files, packs_to, plain_packing};
use crate::tapes::{Item, copied, entries, put, row, tape_of};
use il_ports::{MemoryRecords, Records};
use il_same::same;
use lif_dir::{Name, NewName};
use lif_model::{RECORD, Record};
use lif_pack::Packed;
use lif_volume::Volume;
use std::alloc::Global;
use std::process::Abort;
use std::test::Fail;

/// What opens a gate.
pub const GATE: &[u8] = b"LIFREDO1 OPEN   ";

/// The tape after the first `k` writes, torn within the next.
fn stopped(
    rt: &impl Abort,
    mut tape: Vec<Record>,
    writes: &[(u16, Record)],
    k: usize,
    torn: &Record,
) -> Vec<Record> {
    for (n, bytes) in writes.iter().take(k) {
        put(rt, &mut tape, usize::from(*n), 0, bytes);
    }
    if let Some((n, _)) = writes.get(k) {
        put(rt, &mut tape, usize::from(*n), 0, torn);
    }
    tape
}

/// What a stop within a write may leave in its record.
fn torn_contents() -> [Record; 3] {
    let mut gate = [0; RECORD];
    gate[..GATE.len()].copy_from_slice(GATE);
    [[0; RECORD], [0xFF; RECORD], gate]
}

/// Stops the `k`-th of these writes, with this torn content, and finishes: the files are those that are wanted. The
/// answer is what the stop left, and the store that finished it.
fn stop_at(
    rt: &impl Abort,
    alloc: Global,
    tape: &[Record],
    writes: &[(u16, Record)],
    wanted: &Plain,
    k: usize,
    torn: &Record,
) -> Result<(Vec<Record>, MemoryRecords), Fail> {
    let left = stopped(rt, copied(alloc, tape)?, writes, k, torn);
    let records = finished_on(rt, alloc, copied(alloc, &left)?)?;
    has_files(rt, alloc, records.records(), wanted, k)?;
    Ok((left, records))
}

/// Stops each of these writes, with each torn content.
fn stops_once(
    rt: &impl Abort,
    alloc: Global,
    tape: &[Record],
    writes: &[(u16, Record)],
    wanted: &Plain,
) -> Result<(), Fail> {
    for k in 0..writes.len() {
        for torn in torn_contents() {
            stop_at(rt, alloc, tape, writes, wanted, k, &torn)?;
        }
    }
    Ok(())
}

/// Stops each of these writes, and each write of what finishes it.
fn stops_twice(
    rt: &impl Abort,
    alloc: Global,
    tape: &[Record],
    writes: &[(u16, Record)],
    wanted: &Plain,
) -> Result<(), Fail> {
    for k in 0..writes.len() {
        for torn in torn_contents() {
            let (left, records) = stop_at(rt, alloc, tape, writes, wanted, k, &torn)?;
            stops_once(rt, alloc, &left, records.writes(), wanted)?;
        }
    }
    Ok(())
}

/// Stops each of these writes, each write of what finishes it, and each write of what finishes that.
fn stops_thrice(
    rt: &impl Abort,
    alloc: Global,
    tape: &[Record],
    writes: &[(u16, Record)],
    wanted: &Plain,
) -> Result<(), Fail> {
    for k in 0..writes.len() {
        for torn in torn_contents() {
            let (left, records) = stop_at(rt, alloc, tape, writes, wanted, k, &torn)?;
            stops_twice(rt, alloc, &left, records.writes(), wanted)?;
        }
    }
    Ok(())
}

/// What a packing makes of the tape, and the store that it was packed on, by so many writes. What a stop within any of
/// them leaves is packed to the same.
fn packed_by(
    rt: &impl Abort,
    alloc: Global,
    tape: &[Record],
    writes: usize,
) -> Result<(Plain, MemoryRecords), Fail> {
    let wanted = plain_packing(rt, alloc, tape)?;
    let (answer, records) = packed_on(rt, alloc, copied(alloc, tape)?)?;
    row(rt, same(answer, Ok(wanted.answer)), "answer", 0);
    let count = records.writes().len();
    row(rt, count == writes, "writes", count);
    for k in 0..=count {
        for torn in torn_contents() {
            let left = stopped(rt, copied(alloc, tape)?, records.writes(), k, &torn);
            let (_, packed) = packed_on(rt, alloc, left)?;
            packs_to(rt, alloc, packed.records(), &wanted, k)?;
        }
    }
    Ok((wanted, records))
}

/// Stores a file in a volume whose store is ready for it.
fn store_now<R: Records>(
    rt: &impl Abort,
    volume: &mut Volume<R>,
    name: &Name,
    bytes: &[u8],
) -> Result<(), Fail>
    requires { IsOpen R.view (seen volume.old) }
    ensures { IfOk result (λ _. IsOpen R.view (seen volume.new)) }
{
    let name = NewName::of(name).ok_or("a new name")?;
    ready(rt, volume);
    assert!(rt; volume.store(&name, 1, [0; 4], bytes).is_ok(), "stored");
    Ok(())
}

/// A tape of 512 records as commands leave it: files of one byte, of 40 records and of one byte were stored, and the
/// first of them was purged.
pub fn made(rt: &impl Abort, alloc: Global) -> Result<Vec<Record>, Fail> {
    let mut long = Vec::with_capacity(alloc, 10_240)?;
    for k in 0..10_240_usize {
        long.push((k % 253) as u8)?;
    }
    let first = Name::of(b"A").ok_or("a name")?;
    let tape = tape_of(rt, alloc, 512, 2, &entries(alloc, &[(b'*', 478, 34)])?)?;
    let mut volume = open_now(rt, alloc, tape, Vec::new(alloc))?;
    store_now(rt, &mut volume, &first, b"1")?;
    store_now(rt, &mut volume, &Name::of(b"B").ok_or("a name")?, &long)?;
    store_now(rt, &mut volume, &Name::of(b"C").ok_or("a name")?, b"2")?;
    ready(rt, &volume);
    assert!(rt; volume.purge(&first).is_ok(), "purged");
    copied(alloc, volume.into_records().records())
}

/// A file of 95 records that moves down by one.
pub fn long(rt: &impl Abort, alloc: Global) -> Result<Vec<Record>, Fail> {
    let slots = entries(alloc, &[(b'A', 4, 95), (b'*', 99, 34)])?;
    tape_of(rt, alloc, 133, 1, &slots)
}

#[test]
fn a_stop_keeps_the_files_that_were_stored(rt: HostRuntime) -> Result<(), Fail> {
    let alloc = rt.alloc();
    let tape = made(&rt, alloc)?;
    let (wanted, records) = packed_by(&rt, alloc, &tape, 107)?;
    let answer = Packed {
        files: 2,
        free: 433,
    };
    assert!(rt; same(wanted.answer, answer), "two files");
    stops_twice(&rt, alloc, &tape, records.writes(), &wanted)
}

#[test]
fn a_stop_keeps_a_long_file(rt: HostRuntime) -> Result<(), Fail> {
    let alloc = rt.alloc();
    let tape = long(&rt, alloc)?;
    let (wanted, records) = packed_by(&rt, alloc, &tape, 210)?;
    stops_twice(&rt, alloc, &tape, records.writes(), &wanted)
}

/// Slots of a directory of three records, live and purged, which all move: files of no records and of two.
const MIXED: [Item; 21] = [
    (b'a', 5, 1),
    (b'A', 9, 0),
    (b'B', 6, 2),
    (b'c', 6, 2),
    (b'C', 2, 0),
    (b'D', 3, 0),
    (b'E', 9, 1),
    (b'F', 4, 0),
    (b'G', 5, 0),
    (b'h', 0, 0),
    (b'H', 6, 0),
    (b'I', 7, 0),
    (b'J', 8, 0),
    (b'K', 10, 1),
    (b'l', 11, 1),
    (b'm', 11, 1),
    (b'n', 11, 1),
    (b'L', 9, 0),
    (b'M', 1, 0),
    (b'o', 0, 0),
    (b'*', 14, 34),
];

#[test]
fn a_stop_keeps_the_slots(rt: HostRuntime) -> Result<(), Fail> {
    let alloc = rt.alloc();
    let tape = tape_of(&rt, alloc, 48, 3, &entries(alloc, &MIXED)?)?;
    let (wanted, records) = packed_by(&rt, alloc, &tape, 53)?;
    stops_twice(&rt, alloc, &tape, records.writes(), &wanted)
}

/// A file that moves by one commit, and one that moves by two with a mark between them.
#[test]
fn a_stop_within_a_stop_within_a_stop_keeps_the_file(rt: HostRuntime) -> Result<(), Fail> {
    let alloc = rt.alloc();
    for (size, length, redo, writes) in [(48, 3, 14, 21), (75, 32, 41, 84)] {
        let items = [(b'a', 3, 1), (b'B', 4, length), (b'*', redo, 34)];
        let tape = tape_of(&rt, alloc, size, 1, &entries(alloc, &items)?)?;
        let (wanted, records) = packed_by(&rt, alloc, &tape, writes)?;
        stops_thrice(&rt, alloc, &tape, records.writes(), &wanted)?;
    }
    Ok(())
}
