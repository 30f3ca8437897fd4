//! Settling, and commits of which any call may fail.
use crate::labels::{check, named, row};
use crate::tapes::{GATE, SHUT, put, stopped, torn_contents};
use il_ports::{MemoryRecords, Records, Trouble};
use il_same::same;
use lif_model::{RECORD, Record};
use lif_redo::{Version, are_changes, commit, settle};
use std::alloc::{AllocError, Global};
use std::process::Abort;
use std::test::Fail;

const BLANK: Record = [0; RECORD];

const ONES: Record = [1; RECORD];

const SEVENS: Record = [7; RECORD];

const EIGHTS: Record = [8; RECORD];

const NINES: Record = [9; RECORD];

/// These bytes, and then zeros.
fn record(rt: &impl Abort, bytes: &[u8]) -> Record {
    let mut record = BLANK;
    assert!(rt; bytes.len() <= RECORD);
    record[..bytes.len()].copy_from_slice(bytes);
    record
}

/// A sound store of these records. The listed calls of it fail.
fn store(
    rt: &impl Abort,
    alloc: Global,
    records: Vec<Record>,
    fails: Vec<(u64, Trouble)>,
) -> Result<MemoryRecords, AllocError> {
    assert!(rt; records.len() < 1000);
    MemoryRecords::new(alloc, records, fails, 200)
}

/// Settles a tape whose store is ready for it.
fn settle_now<R: Records>(rt: &impl Abort, records: &mut R) -> Result<bool, Trouble>
    requires { (R.view records.old).valid }
{
    assert!(rt; records.is_sound() && 4 <= records.size() && 70 <= records.left());
    settle(records)
}

/// A commit on a tape that is settled first.
fn commit_now<R: Records>(
    rt: &impl Abort,
    records: &mut R,
    version: Version,
    changes: &[(u16, Record)],
) -> Result<(), Trouble>
    requires { (R.view records.old).valid }
{
    assert!(rt; records.is_sound() && 4 <= records.size() && 150 <= records.left());
    assert!(rt; changes.len() <= 32 && are_changes(version, records.size(), changes));
    settle(records)?;
    commit(records, version, changes)
}

/// A name, the gate and the targets of a tape of 512 records, and what settling writes before it closes the gate;
/// nothing where no redo is open. The records 478, 510 and 511 hold sevens, eights and nines.
type Settled = (
    &'static str,
    &'static [u8],
    &'static [u8],
    &'static [(u16, Record)],
);

const SETTLED: &[Settled] = &[
    (
        "one",
        GATE,
        b"LIFREDO1\0\x01\0\x02",
        &[(2, EIGHTS), (508, BLANK)],
    ),
    (
        "two",
        GATE,
        b"LIFREDO1\0\x02\0\x05\0\x02",
        &[(5, EIGHTS), (2, NINES), (508, BLANK)],
    ),
    ("shut", SHUT, b"LIFREDO1\0\x01\0\x02", &[]),
    (
        "three of version 1",
        GATE,
        b"LIFREDO1\0\x03\0\x02\0\x05\0\x06",
        &[],
    ),
    (
        "version 2",
        GATE,
        b"LIFREDO2\0\x01\0\x02",
        &[(2, SEVENS), (508, BLANK)],
    ),
    (
        "a record of version 2's file",
        GATE,
        b"LIFREDO2\0\x01\x01\xDE",
        &[],
    ),
    (
        "no record of version 1's file",
        GATE,
        b"LIFREDO1\0\x01\x01\xDE",
        &[(478, EIGHTS), (508, BLANK)],
    ),
];

/// The tape of a row.
fn settling_tape(
    rt: &impl Abort,
    alloc: Global,
    gate: &[u8],
    targets: &[u8],
) -> Result<Vec<Record>, AllocError> {
    let mut tape = vec![in alloc; BLANK; 512]?;
    put(rt, &mut tape, 478, 0, &SEVENS);
    put(rt, &mut tape, 508, 0, gate);
    put(rt, &mut tape, 509, 0, targets);
    put(rt, &mut tape, 510, 0, &EIGHTS);
    put(rt, &mut tape, 511, 0, &NINES);
    Ok(tape)
}

/// Settles the tape of a row.
fn settles(rt: &impl Abort, alloc: Global, example: &Settled) -> Result<(), Fail> {
    let (name, gate, targets, want) = *example;
    let tape = settling_tape(rt, alloc, gate, targets)?;
    let mut store = store(rt, alloc, tape, Vec::new(alloc))?;
    let answer = settle_now(rt, &mut store);
    named(rt, same(answer, Ok(!want.is_empty())), "the answer", name);
    named(rt, same(store.writes(), want), "the writes", name);
    Ok(())
}

#[test]
fn settling(rt: HostRuntime) -> Result<(), Fail> {
    for example in SETTLED {
        settles(&rt, rt.alloc(), example)?;
    }
    Ok(())
}

/// So many changes of the first 32 records, in turned order.
fn changes(alloc: Global, count: u16) -> Result<Vec<(u16, Record)>, AllocError> {
    let mut changes = Vec::new(alloc);
    for i in 0..count.min(32) {
        changes.push((31 - i, [i as u8 + 1; RECORD]))?;
    }
    Ok(changes)
}

/// The targets record of these changes.
fn targets_of(rt: &impl Abort, version: Version, changes: &[(u16, Record)]) -> Record {
    assert!(rt; changes.len() <= 32);
    let mut targets = match version {
        Version::One => record(rt, b"LIFREDO1"),
        Version::Two => record(rt, b"LIFREDO2"),
    };
    targets[9] = changes.len() as u8;
    for i in 0..changes.len() {
        [targets[10 + 2 * i], targets[11 + 2 * i]] = changes[i].0.to_be_bytes();
    }
    targets
}

/// Where the content of change `i` stands on a tape of 72 records.
fn content_place(version: Version, i: u16) -> u16 {
    if version == Version::Two && i < 30 {
        38 + i
    } else {
        70 + i % 30
    }
}

/// What a commit on a tape of 72 records writes whose gate reads closed.
fn expected(
    rt: &impl Abort,
    alloc: Global,
    version: Version,
    changes: &[(u16, Record)],
) -> Result<Vec<(u16, Record)>, AllocError> {
    assert!(rt; changes.len() <= 32);
    let mut writes = Vec::new(alloc);
    for i in 0..changes.len() {
        writes.push((content_place(version, i as u16), changes[i].1))?;
    }
    let targets = targets_of(rt, version, changes);
    writes.extend_from_slice(&[(69, targets), (68, record(rt, GATE))])?;
    writes.extend_from_slice(changes)?;
    writes.push((68, BLANK))?;
    Ok(writes)
}

/// The records of a tape of 72 that lie before either redo file.
fn below_redo<'a>(rt: &impl Abort, records: &'a [Record]) -> &'a [Record] {
    assert!(rt; 38 <= records.len());
    &records[..38]
}

/// Whether the tape settles to one with these records, before the redo file.
fn settles_to(
    rt: &impl Abort,
    alloc: Global,
    tape: Vec<Record>,
    want: &[Record],
) -> Result<bool, AllocError> {
    let mut store = store(rt, alloc, tape, Vec::new(alloc))?;
    let answer = settle_now(rt, &mut store);
    Ok(answer.is_ok() && below_redo(rt, store.records()) == below_redo(rt, want))
}

/// How many writes a commit on a tape of ones makes before this call, which fails: they are the first of these.
fn writes_before(
    rt: &impl Abort,
    alloc: Global,
    version: Version,
    changes: &[(u16, Record)],
    writes: &[(u16, Record)],
    call: u64,
) -> Result<usize, AllocError> {
    let fails = Vec::from_array(alloc, [(call, Trouble::Medium)])?;
    let tape = vec![in alloc; ONES; 72]?;
    let mut store = store(rt, alloc, tape, fails)?;
    let answer = commit_now(rt, &mut store, version, changes);
    row(rt, same(answer, Err(Trouble::Medium)), "call fails", call);
    let made = store.writes();
    row(
        rt,
        made.len() < writes.len(),
        "call is one of the writes",
        call,
    );
    row(
        rt,
        same(Some(made), writes.get(..made.len())),
        "call the writes before it",
        call,
    );
    Ok(made.len())
}

/// Whether a tape of ones after so many of these writes, torn within the next, settles to the new records, or to the
/// old ones.
fn settles_after(
    rt: &impl Abort,
    alloc: Global,
    writes: &[(u16, Record)],
    done: usize,
    torn: &Record,
    is_new: bool,
) -> Result<bool, AllocError> {
    let old = vec![in alloc; ONES; 72]?;
    let tape = stopped(rt, old.clone()?, writes, done, torn);
    let want = if is_new {
        stopped(rt, old, writes, writes.len(), torn)
    } else {
        old
    };
    settles_to(rt, alloc, tape, &want)
}

/// A commit of which one call fails, whose record is then torn: settling leaves the new records where the gate was open
/// by then, and else the old ones.
fn is_whole_after(
    rt: &impl Abort,
    alloc: Global,
    version: Version,
    changes: &[(u16, Record)],
    writes: &[(u16, Record)],
    call: u64,
) -> Result<(), AllocError> {
    let done = writes_before(rt, alloc, version, changes, writes, call)?;
    let opening = changes.len() + 1;
    for (torn, opens) in torn_contents() {
        let is_new = done > opening || (done == opening && opens);
        let good = settles_after(rt, alloc, writes, done, &torn, is_new)?;
        row(rt, good, "call settles", call);
    }
    Ok(())
}

/// The store after a commit on this tape.
fn committed(
    rt: &impl Abort,
    alloc: Global,
    tape: Vec<Record>,
    version: Version,
    changes: &[(u16, Record)],
) -> Result<MemoryRecords, AllocError> {
    let mut store = store(rt, alloc, tape, Vec::new(alloc))?;
    let answer = commit_now(rt, &mut store, version, changes);
    row(rt, answer.is_ok(), "changes", changes.len() as u64);
    Ok(store)
}

/// A commit on a tape of ones makes these writes.
fn writes_all(
    rt: &impl Abort,
    alloc: Global,
    version: Version,
    changes: &[(u16, Record)],
    writes: &[(u16, Record)],
) -> Result<(), AllocError> {
    let tape = vec![in alloc; ONES; 72]?;
    let store = committed(rt, alloc, tape, version, changes)?;
    let good = same(store.writes(), writes);
    row(rt, good, "changes: the writes", changes.len() as u64);
    Ok(())
}

/// A commit of so many changes makes the writes that are expected, and is whole after any failure.
fn commits_changes(
    rt: &impl Abort,
    alloc: Global,
    version: Version,
    count: u16,
) -> Result<(), AllocError> {
    let changes = changes(alloc, count)?;
    let writes = expected(rt, alloc, version, &changes)?;
    writes_all(rt, alloc, version, &changes, &writes)?;
    // call 1 is the read of settling, call 2 that of the commit, and then come its writes
    for call in 2..6 + 2 * u64::from(count) {
        is_whole_after(rt, alloc, version, &changes, &writes, call)?;
    }
    Ok(())
}

#[test]
fn commits(rt: HostRuntime) -> Result<(), Fail> {
    for (version, count) in [
        (Version::One, 1),
        (Version::One, 2),
        (Version::Two, 1),
        (Version::Two, 31),
        (Version::Two, 32),
    ] {
        commits_changes(&rt, rt.alloc(), version, count)?;
    }
    Ok(())
}

/// A tape whose gate is open, with targets that are not valid.
fn open_tape(rt: &impl Abort, alloc: Global) -> Result<Vec<Record>, AllocError> {
    let mut tape = vec![in alloc; BLANK; 72]?;
    put(rt, &mut tape, 68, 0, GATE);
    put(rt, &mut tape, 69, 0, b"LIFREDO2\0\x21");
    Ok(tape)
}

/// The gate is closed first, and then comes what is written where it reads closed.
fn closes_first(rt: &impl Abort, writes: &[(u16, Record)], others: &[(u16, Record)]) {
    let first = writes.first().copied();
    check(rt, same(first, Some((68, BLANK))), "the gate first");
    check(rt, same(writes.get(1..), Some(others)), "the other writes");
}

#[test]
fn a_commit_over_an_open_gate(rt: HostRuntime) -> Result<(), Fail> {
    let changes = changes(rt.alloc(), 2)?;
    let others = expected(&rt, rt.alloc(), Version::One, &changes)?;
    let tape = open_tape(&rt, rt.alloc())?;
    let store = committed(&rt, rt.alloc(), tape, Version::One, &changes)?;
    closes_first(&rt, store.writes(), &others);
    Ok(())
}

/// Whether a redo file of this version takes so many changes on a tape of 72 records.
fn takes(alloc: Global, version: Version, count: u16) -> Result<bool, AllocError> {
    Ok(are_changes(version, 72, &changes(alloc, count)?))
}

#[test]
fn how_many_changes_a_redo_file_takes(rt: HostRuntime) -> Result<(), Fail> {
    for (version, count, want) in [
        (Version::One, 0, false),
        (Version::One, 2, true),
        (Version::One, 3, false),
        (Version::Two, 0, false),
        (Version::Two, 32, true),
    ] {
        let good = takes(rt.alloc(), version, count)? == want;
        row(&rt, good, "changes", u64::from(count));
    }
    Ok(())
}

#[test]
fn which_changes_a_redo_file_takes(rt: HostRuntime) {
    let places = [(37, BLANK)];
    let before = are_changes(Version::Two, 72, &places);
    check(&rt, before, "before the redo file");
    let within = are_changes(Version::Two, 71, &places);
    check(&rt, !within, "in the redo file");
    let before = are_changes(Version::One, 71, &places);
    check(&rt, before, "before that of version 1");
    let twice = are_changes(Version::One, 512, &[(3, BLANK), (3, BLANK)]);
    check(&rt, !twice, "one record twice");
}
