//! Batches: what they answer, what they make of a tape, and what a stop or a trouble leaves of them.
ghost use Rattle.std.specs.Prelude.{◌<◌, ◌+◌};
ghost use Rattle.lif_volume.specs.Seen.{seen};
ghost use Rattle.lif_volume.specs.Views.{IsOpen};

use crate::labels::{check, row};
use crate::names::{name_of, new_name};
use crate::stops::{C, D, E, F, G, stops};
use crate::tapes::{stopped, torn_contents};
use crate::volumes::{
    Answer, EXISTS, FILE, HEADER, NO_FILE, NO_REDO, NOT_LIF, PURGED, REDO, REDO_TWO, RENAMED,
    SECOND_FILE, Step, TROUBLE, change_now, dir_now, failing_on, fetch_now, file_of, forgets,
    holds, open_now, resume_now, room_of, shows_again, tape_with, volume_with,
};
use il_ports::{MemoryRecords, Records};
use il_same::same;
use lif_dir::Batch;
use lif_model::{RECORD, Record};
use lif_volume::{Refusal, Volume, VolumeFault};
use std::alloc::Global;
use std::process::Abort;
use std::test::Fail;

const NEEDS_UPGRADE: Answer = Err(VolumeFault::Refused(Refusal::NeedsUpgrade));

const NO_SLOT: Answer = Err(VolumeFault::Refused(Refusal::NoSlot));

/// A file in record 5, the one that was stored first, purged, a purged file in records 5 and 6, and files in records 6
/// and 5.
const LATER: &[u8] = b"A         \0\x01\0\0\0\x05\0\0\0\x01\0\0\0\0\0\0\x80\x01\0\0\0\0";

const GONE: &[u8] = b"B         \0\0\0\0\0\x04\0\0\0\x01\0\0\0\0\0\0\x80\x01\0\0\0\0";

const SECOND_GONE: &[u8] = b"B         \0\0\0\0\0\x05\0\0\0\x02\0\0\0\0\0\0\x80\x01\0\0\0\0";

const LAST: &[u8] = b"H         \0\x01\0\0\0\x06\0\0\0\x01\0\0\0\0\0\0\x80\x01\0\0\0\0";

const BESIDE: &[u8] = b"B         \0\x01\0\0\0\x05\0\0\0\x01\0\0\0\0\0\0\x80\x01\0\0\0\0";

/// The slots of a directory, the parts of a batch, its answer, the slots after it, and how many records of files and of
/// the directory change.
type Row = (
    &'static [&'static [u8]],
    &'static [Step<'static>],
    Answer,
    &'static [&'static [u8]],
    usize,
    usize,
);

/// A file is stored, renamed and purged, and another one stored beside it meanwhile.
const FOUR: &[Step<'static>] = &[
    Step::Store(b"A", b"A"),
    Step::Rename(b"A", b"B"),
    Step::Store(b"A", b"B"),
    Step::Purge(b"B"),
];

const ROWS: &[Row] = &[
    (&[REDO_TWO], FOUR, Ok(()), &[GONE, LATER, REDO_TWO], 1, 1),
    // A name that the batch has purged is free.
    (
        &[FILE, SECOND_FILE, REDO_TWO],
        &[Step::Purge(b"B"), Step::Rename(b"A", b"B")],
        Ok(()),
        &[RENAMED, SECOND_GONE, REDO_TWO],
        0,
        1,
    ),
    // The slot of a file that the batch has purged is not taken, nor are its records; one that was purged before is.
    (
        &[FILE, REDO_TWO],
        &[Step::Purge(b"A"), Step::Store(b"B", b"1")],
        Ok(()),
        &[PURGED, BESIDE, REDO_TWO],
        1,
        1,
    ),
    (
        &[PURGED, REDO_TWO],
        &[Step::Store(b"A", b"1")],
        Ok(()),
        &[FILE, REDO_TWO],
        1,
        1,
    ),
    // What is undone is not written.
    (
        &[FILE, REDO_TWO],
        &[Step::Rename(b"A", b"B"), Step::Rename(b"B", b"A")],
        Ok(()),
        &[FILE, REDO_TWO],
        0,
        0,
    ),
    (&[FILE, REDO_TWO], &[], Ok(()), &[FILE, REDO_TWO], 0, 0),
    // The first refusal is the answer, and nothing is written.
    (
        &[FILE, REDO_TWO],
        &[Step::Purge(b"A"), Step::Purge(b"A")],
        NO_FILE,
        &[FILE, REDO_TWO],
        0,
        0,
    ),
    (
        &[FILE, REDO_TWO],
        &[Step::Purge(b"B"), Step::Store(b"A", b"1")],
        NO_FILE,
        &[FILE, REDO_TWO],
        0,
        0,
    ),
    (
        &[FILE, REDO_TWO],
        &[Step::Store(b"A", b"1"), Step::Purge(b"B")],
        EXISTS,
        &[FILE, REDO_TWO],
        0,
        0,
    ),
    (
        &[FILE, REDO],
        &[Step::Purge(b"B")],
        NEEDS_UPGRADE,
        &[FILE, REDO],
        0,
        0,
    ),
    (&[FILE, REDO], &[], NEEDS_UPGRADE, &[FILE, REDO], 0, 0),
    (&[FILE], &[Step::Purge(b"B")], NO_REDO, &[FILE], 0, 0),
    // Two files of one name: no volume, which shows nothing.
    (
        &[FILE, LATER, REDO_TWO],
        &[Step::Purge(b"A")],
        NOT_LIF,
        &[],
        0,
        0,
    ),
    // The redo entry goes over into the next record of the directory.
    (
        &[FILE, C, D, E, F, G, REDO_TWO],
        &[Step::Store(b"B", b"1"), Step::Store(b"H", b"2")],
        Ok(()),
        &[FILE, C, D, E, F, G, BESIDE, LAST, REDO_TWO],
        2,
        2,
    ),
];

/// How many records a batch writes: those of its files, and then one commit.
fn writes_of(files: usize, records: usize) -> usize
    requires { files + records < 1000 }
    ensures { result < 3000 }
{
    if records == 0 {
        0
    } else {
        files + 2 * records + 3
    }
}

/// Adds a part, and says whether there was room for it.
fn add(rt: &impl Abort, batch: &mut Batch, part: Step) -> bool {
    match part {
        Step::Store(name, bytes) => batch.add_store(new_name(rt, name), 1, [0; 4], bytes),
        Step::Rename(old, new) => batch.add_rename(name_of(rt, old), new_name(rt, new)),
        Step::Purge(name) => batch.add_purge(name_of(rt, name)),
        _ => false,
    }
}

/// A batch of these parts.
fn batch_of(rt: &impl Abort, alloc: Global, parts: &[Step]) -> Result<Batch, Fail> {
    let mut batch = Batch::new(alloc)?;
    for part in parts {
        row(rt, add(rt, &mut batch, *part), "a part", 0);
    }
    Ok(batch)
}

/// Makes the changes of a batch on a volume whose store is ready for it.
fn batch_now<R: Records>(rt: &impl Abort, volume: &mut Volume<R>, batch: &Batch) -> Answer
    requires { IsOpen R.view (seen volume.old) }
    ensures { IsOpen R.view (seen volume.new) }
{
    let size = u32::from(volume.records().size());
    let left = volume.records().left();
    assert!(rt; volume.records().is_sound());
    assert!(rt; 2 * size + 40 <= left && size + 138 <= left);
    volume.batch(batch)
}

/// What a batch answers, the slots that it leaves, and how many records it writes.
fn is_answered(
    rt: &impl Abort,
    volume: &mut Volume<MemoryRecords>,
    batch: &Batch,
    example: &Row,
    k: u64,
)
    requires { IsOpen ⟦<MemoryRecords as Records>⟧.view
        (seen volume.old) }
    ensures { IsOpen ⟦<MemoryRecords as Records>⟧.view
        (seen volume.new) }
{
    let (_, _, answer, after, files, records) = *example;
    assert!(rt; files < 10 && records < 10 - files);
    row(rt, same(batch_now(rt, volume, batch), answer), "answer", k);
    let has_slots = answer.is_err() || holds(volume, after);
    row(
        rt,
        volume.is_kept() == answer.is_ok() && has_slots,
        "slots",
        k,
    );
    let writes = volume.records().writes().len();
    row(rt, writes == writes_of(files, records), "writes", k);
}

/// The batch of a row, and the tape as it is read anew.
fn changes(rt: &impl Abort, alloc: Global, example: &Row, k: u64) -> Result<(), Fail> {
    let batch = batch_of(rt, alloc, example.1)?;
    let mut volume = volume_with(rt, alloc, HEADER, example.0)?;
    is_answered(rt, &mut volume, &batch, example, k);
    let after = example.3;
    let front = if after.is_empty() { b"" } else { HEADER };
    row(rt, shows_again(rt, &mut volume, front, after), "tape", k);
    drop(volume);
    Ok(())
}

#[test]
fn a_batch_is_answered_as_one(rt: HostRuntime) -> Result<(), Fail> {
    for (k, example) in ROWS.iter().enumerate() {
        changes(&rt, rt.alloc(), example, k as u64)?;
    }
    Ok(())
}

/// The store after a batch of these parts on a volume with these slots.
fn carried_out(
    rt: &impl Abort,
    alloc: Global,
    slots: &[&[u8]],
    parts: &[Step],
) -> Result<MemoryRecords, Fail> {
    let batch = batch_of(rt, alloc, parts)?;
    let mut volume = volume_with(rt, alloc, HEADER, slots)?;
    check(rt, batch_now(rt, &mut volume, &batch).is_ok(), "answer");
    Ok(volume.into_records())
}

/// A stop within any write of the batch of a row leaves the old or the new volume.
fn stops_in(rt: &impl Abort, alloc: Global, example: &Row) -> Result<(), Fail> {
    let (slots, parts, _, after, files, records) = *example;
    assert!(rt; files < 10 && records < 10 - files);
    let store = carried_out(rt, alloc, slots, parts)?;
    // The files come first, the contents, the targets, and then the gate.
    let opening = files + records + 1;
    let (old, new) = ((HEADER, slots), (HEADER, after));
    stops(rt, alloc, old, new, opening, store.writes())
}

#[test]
fn a_stop_leaves_a_batch_whole_or_not_at_all(rt: HostRuntime) -> Result<(), Fail> {
    for example in ROWS {
        if 0 < example.5 {
            stops_in(&rt, rt.alloc(), example)?;
        }
    }
    Ok(())
}

/// How many calls the batch of a row makes, each of which may fail.
fn calls_of(rt: &impl Abort, example: &Row) -> u64 {
    let (_, _, _, _, files, records) = *example;
    assert!(rt; files < 10 && records < 10 - files);
    // The gate, record 0 and the directory as far as its end are read first, and for the commit what is past it.
    match records {
        0 => 0,
        _ => (2 + records + writes_of(files, records)) as u64,
    }
}

/// The batch of a row of which this call fails leaves the old or the new volume.
fn fails_in(rt: &impl Abort, alloc: Global, example: &Row, call: u64) -> Result<(), Fail> {
    let batch = batch_of(rt, alloc, example.1)?;
    let tape = tape_with(rt, alloc, HEADER, example.0)?;
    let mut volume = failing_on(rt, alloc, tape, call)?;
    let answer = batch_now(rt, &mut volume, &batch);
    row(rt, same(answer, TROUBLE), "call fails", call);
    forgets(rt, &mut volume, (HEADER, example.0), (HEADER, example.3));
    drop(volume);
    Ok(())
}

#[test]
fn a_trouble_leaves_a_batch_whole_or_not_at_all(rt: HostRuntime) -> Result<(), Fail> {
    for example in ROWS {
        for call in 1..=calls_of(&rt, example) {
            fails_in(&rt, rt.alloc(), example, call)?;
        }
    }
    Ok(())
}

/// How many parts a batch has at most.
const MOST: u8 = 31;

/// The name of the file `k`, two letters.
fn letters_of(k: u8) -> [u8; 2]
    requires { k < 250 }
{
    [b'A' + k / 26 % 26, b'A' + k % 26]
}

/// A batch of so many stores, of a file of one byte each, which is its number.
fn stores(rt: &impl Abort, alloc: Global, count: u8) -> Result<Batch, Fail> {
    let mut batch = Batch::new(alloc)?;
    for k in 0..count.min(MOST) {
        row(
            rt,
            add(rt, &mut batch, Step::Store(&letters_of(k), &[k])),
            "a store",
            u64::from(k),
        );
    }
    Ok(batch)
}

/// The files that the largest of them leaves, each with its byte.
fn stored(alloc: Global) -> Result<Vec<([u8; 2], u8)>, Fail> {
    let mut files = Vec::new(alloc);
    for k in 0..MOST {
        files.push((letters_of(k), k))?;
    }
    Ok(files)
}

/// The tape of a new volume of so many slots with a redo file of version 2.
fn new_tape(rt: &impl Abort, alloc: Global, slots: u16) -> Result<Vec<Record>, Fail> {
    let mut volume = volume_with(rt, alloc, b"", &[])?;
    let formatted = change_now(rt, &mut volume, Step::Format(b"BATCH", slots));
    let upgraded = change_now(rt, &mut volume, Step::Upgrade);
    check(rt, formatted.is_ok() && upgraded.is_ok(), "a new volume");
    copied(alloc, volume.into_records().records())
}

/// The same records once more.
fn copied(alloc: Global, records: &[Record]) -> Result<Vec<Record>, Fail> {
    let mut tape = Vec::with_capacity(alloc, records.len())?;
    tape.extend_from_slice(records)?;
    Ok(tape)
}

/// How many slots a volume with all files of a batch has, and those files, each with its byte.
type Files<'a> = (usize, &'a [([u8; 2], u8)]);

/// Stops the test where the volume has not all these files with their bytes, or the redo file alone.
fn has_all_or_none<R: Records>(
    rt: &impl Abort,
    volume: &mut Volume<R>,
    all: bool,
    wanted: Files,
    into: &mut [u8],
)
    requires { IsOpen R.view (seen volume.old) }
    ensures { IsOpen R.view (seen volume.new) }
{
    let (slots, files) = wanted;
    check(rt, dir_now(rt, volume).is_ok(), "listed");
    let count = if all { slots } else { 1 };
    check(rt, volume.slots().len() == count, "slots");
    if all {
        for (name, byte) in files {
            let fetched = fetch_now(rt, volume, name, into);
            let good = same(fetched, file_of(RECORD)) && into.first().copied() == Some(*byte);
            row(rt, good, "file", u64::from(*byte));
        }
    }
}

/// The store after a batch on this tape, which makes all its files.
fn made_whole(
    rt: &impl Abort,
    alloc: Global,
    tape: Vec<Record>,
    batch: &Batch,
    files: Files,
    into: &mut [u8],
) -> Result<MemoryRecords, Fail> {
    let mut volume = open_now(rt, alloc, tape, Vec::new(alloc))?;
    check(rt, batch_now(rt, &mut volume, batch).is_ok(), "made");
    has_all_or_none(rt, &mut volume, true, files, into);
    Ok(volume.into_records())
}

/// A tape that a stop left has all files or none.
fn left_whole(
    rt: &impl Abort,
    alloc: Global,
    tape: Vec<Record>,
    all: bool,
    files: Files,
    into: &mut [u8],
) -> Result<(), Fail> {
    let mut volume = open_now(rt, alloc, tape, Vec::new(alloc))?;
    has_all_or_none(rt, &mut volume, all, files, into);
    drop(volume);
    Ok(())
}

/// A stop within any of these writes leaves all files or none, by the write that opens the gate.
fn stops_within(
    rt: &impl Abort,
    alloc: Global,
    tape: &[Record],
    writes: &[(u16, Record)],
    opening: usize,
    files: Files,
    into: &mut [u8],
) -> Result<(), Fail> {
    for k in 0..=writes.len() {
        for (torn, opens) in torn_contents() {
            let left = stopped(rt, copied(alloc, tape)?, writes, k, &torn);
            let all = opening < k || k == opening && opens;
            left_whole(rt, alloc, left, all, files, into)?;
        }
    }
    Ok(())
}

/// A stop within any write of a batch on a new volume leaves all files or none.
fn stops_whole(
    rt: &impl Abort,
    alloc: Global,
    batch: &Batch,
    opening: usize,
    files: Files,
) -> Result<(), Fail> {
    let tape = new_tape(rt, alloc, 40)?;
    let mut into = room_of(alloc, 0x55)?;
    let before = copied(alloc, &tape)?;
    let store = made_whole(rt, alloc, before, batch, files, &mut into)?;
    stops_within(rt, alloc, &tape, store.writes(), opening, files, &mut into)
}

/// Thirty-one stores at the end of a directory, of which four records past the one with the end change.
#[test]
fn a_stop_leaves_all_files_or_none(rt: HostRuntime) -> Result<(), Fail> {
    let batch = stores(&rt, rt.alloc(), MOST)?;
    let files = stored(rt.alloc())?;
    // The 31 files, the contents of five records, the targets, and then the gate.
    stops_whole(&rt, rt.alloc(), &batch, 37, (32, &files))
}

#[test]
fn a_stop_leaves_the_last_file_or_none(rt: HostRuntime) -> Result<(), Fail> {
    let batch = batch_of(&rt, rt.alloc(), FOUR)?;
    stops_whole(&rt, rt.alloc(), &batch, 3, (3, &[(*b"A ", b'B')]))
}

/// A failure of this call of a batch on this tape leaves all files or none.
fn fails_on(
    rt: &impl Abort,
    alloc: Global,
    tape: &[Record],
    batch: &Batch,
    call: u64,
    files: Files,
    into: &mut [u8],
) -> Result<(), Fail> {
    let mut volume = failing_on(rt, alloc, copied(alloc, tape)?, call)?;
    let answer = batch_now(rt, &mut volume, batch);
    row(rt, same(answer, TROUBLE), "call fails", call);
    check(rt, resume_now(rt, &mut volume).is_ok(), "resumed");
    check(rt, dir_now(rt, &mut volume).is_ok(), "listed");
    let all = 1 < volume.slots().len();
    has_all_or_none(rt, &mut volume, all, files, into);
    drop(volume);
    Ok(())
}

/// A failure of any of its first calls leaves all files of a batch on a new volume or none.
fn fails_whole(
    rt: &impl Abort,
    alloc: Global,
    batch: &Batch,
    calls: u64,
    files: Files,
) -> Result<(), Fail> {
    let tape = new_tape(rt, alloc, 40)?;
    let mut into = room_of(alloc, 0x55)?;
    for call in 1..=calls {
        fails_on(rt, alloc, &tape, batch, call, files, &mut into)?;
    }
    Ok(())
}

#[test]
fn a_failing_call_leaves_all_files_or_none(rt: HostRuntime) -> Result<(), Fail> {
    let batch = stores(&rt, rt.alloc(), MOST)?;
    let files = stored(rt.alloc())?;
    // The gate, record 0, the directory as far as its end, the files, four records past the end, and the commit.
    fails_whole(&rt, rt.alloc(), &batch, 51, (32, &files))
}

#[test]
fn a_failing_call_leaves_the_last_file_or_none(rt: HostRuntime) -> Result<(), Fail> {
    let batch = batch_of(&rt, rt.alloc(), FOUR)?;
    fails_whole(&rt, rt.alloc(), &batch, 9, (3, &[(*b"A ", b'B')]))
}

/// A purge, and a store that can take the slot then.
const PURGE: Step<'static> = Step::Purge(b"AA");

const STORE: Step<'static> = Step::Store(b"X", b"1");

/// The batch fills a directory of eight slots.
fn fills(rt: &impl Abort, volume: &mut Volume<MemoryRecords>, batch: &Batch)
    requires { IsOpen ⟦<MemoryRecords as Records>⟧.view
        (seen volume.old) }
    ensures { IsOpen ⟦<MemoryRecords as Records>⟧.view
        (seen volume.new) }
{
    check(rt, batch_now(rt, volume, batch).is_ok(), "filled");
    check(rt, volume.slots().len() == 8, "eight slots");
}

/// The batch has no slot in that directory, and what was kept is forgotten.
fn has_no_slot(rt: &impl Abort, volume: &mut Volume<MemoryRecords>, batch: &Batch)
    requires { IsOpen ⟦<MemoryRecords as Records>⟧.view
        (seen volume.old) }
    ensures { IsOpen ⟦<MemoryRecords as Records>⟧.view
        (seen volume.new) }
{
    check(rt, same(batch_now(rt, volume, batch), NO_SLOT), "no slot");
    check(rt, !volume.is_kept(), "forgotten");
    check(rt, resume_now(rt, volume).is_ok(), "resumed");
    check(rt, dir_now(rt, volume).is_ok(), "listed");
    check(rt, volume.slots().len() == 8, "eight slots still");
}

/// The first batch fills a new volume of eight slots, the second one has no slot there, and its parts have one after
/// the other.
fn fits(rt: &impl Abort, alloc: Global, full: &Batch, more: &Batch) -> Result<(), Fail> {
    let tape = new_tape(rt, alloc, 8)?;
    let mut volume = open_now(rt, alloc, tape, Vec::new(alloc))?;
    fills(rt, &mut volume, full);
    has_no_slot(rt, &mut volume, more);
    let purged = change_now(rt, &mut volume, PURGE);
    let stored = change_now(rt, &mut volume, STORE);
    drop(volume);
    check(rt, purged.is_ok() && stored.is_ok(), "one after the other");
    Ok(())
}

/// A directory of which every slot is taken has no slot for a store, also where the batch has purged one, and a
/// directory that the batch fills has no end.
#[test]
fn a_full_directory_takes_what_fits(rt: HostRuntime) -> Result<(), Fail> {
    let full = stores(&rt, rt.alloc(), 7)?;
    let more = batch_of(&rt, rt.alloc(), &[PURGE, STORE])?;
    fits(&rt, rt.alloc(), &full, &more)
}
