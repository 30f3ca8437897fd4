//! Stops and troubles: each leaves the volume before a command or the one after it.
use crate::labels::row;
use crate::tapes::{stopped, torn_contents};
use crate::volumes::{
    FILE, FOREIGN_HEADER, HEADER, JUNK, PROGRAM, PURGED, REDO, REDO_TWO, RENAMED, SECOND_FILE,
    Shown, Step, TROUBLE, TWO, change_now, failing_on, forgets, open_now, shows, tape_with,
    volume_with,
};
use il_ports::{MemoryRecords, Records};
use il_same::same;
use lif_model::{RECORD, Record};
use std::alloc::Global;
use std::process::Abort;
use std::test::Fail;

/// What a tape shows before a command, the command, and what it shows after it, which another
/// commit makes; which write opens the gate, how many writes there are, and how many calls of the
/// store.
type Turn = (Shown, Step<'static>, Shown, usize, usize, u64);

/// The header that is formatted with another label.
const SECOND_HEADER: &[u8] =
    b"\x80\0SECOND\0\0\0\x02\x10\0\0\0\0\0\0\x01\0\x01\0\0\0\0\0\x02\0\0\0\x01\0\0\x01\0";

const ONE: Shown = (HEADER, &[FILE, REDO]);

const SECOND: Shown = (SECOND_HEADER, &[REDO]);

const SECOND_STEP: Step<'static> = Step::Format(b"SECOND", 8);

/// Almost two records of sevens, and a store of them.
const TWO_RECORDS: &[u8] = &[7; 500];

const STORE: Step<'static> = Step::Store(b"B", TWO_RECORDS);

/// Files without records, which leave one slot of the first record.
pub const C: &[u8] = b"C         \0\x01\0\0\0\x04\0\0\0\0\0\0\0\0\0\0\x80\x01\0\0\0\0";

pub const D: &[u8] = b"D         \0\x01\0\0\0\x04\0\0\0\0\0\0\0\0\0\0\x80\x01\0\0\0\0";

pub const E: &[u8] = b"E         \0\x01\0\0\0\x04\0\0\0\0\0\0\0\0\0\0\x80\x01\0\0\0\0";

pub const F: &[u8] = b"F         \0\x01\0\0\0\x04\0\0\0\0\0\0\0\0\0\0\x80\x01\0\0\0\0";

pub const G: &[u8] = b"G         \0\x01\0\0\0\x04\0\0\0\0\0\0\0\0\0\0\x80\x01\0\0\0\0";

/// A store writes its file first. A commit writes the contents, the targets, the gate, the records in
/// place, and the gate again. What is read is the gate, record 0 and the directory as far as its end;
/// and for the commit a record past the one with the end. A tape without a header has no directory to
/// be read.
const TURNS: &[Turn] = &[
    (ONE, Step::Purge(b"A"), (HEADER, &[PURGED, REDO]), 2, 5, 8),
    (
        ONE,
        Step::Rename(b"A", b"B"),
        (HEADER, &[RENAMED, REDO]),
        2,
        5,
        8,
    ),
    (
        TWO,
        Step::Rename(b"A", b"B"),
        (HEADER, &[RENAMED, REDO_TWO]),
        2,
        5,
        8,
    ),
    ((HEADER, &[FILE]), Step::Adopt, ONE, 2, 5, 8),
    (ONE, Step::Upgrade, TWO, 2, 5, 8),
    (TWO, SECOND_STEP, SECOND, 3, 7, 10),
    ((FOREIGN_HEADER, &[PROGRAM]), SECOND_STEP, SECOND, 3, 7, 10),
    ((b"", &[FILE]), SECOND_STEP, SECOND, 3, 7, 9),
    (
        (HEADER, &[FILE, JUNK, REDO]),
        STORE,
        (HEADER, &[FILE, SECOND_FILE, REDO]),
        4,
        7,
        10,
    ),
    (
        (HEADER, &[FILE, C, D, E, F, G, REDO_TWO]),
        STORE,
        (HEADER, &[FILE, C, D, E, F, G, SECOND_FILE, REDO_TWO]),
        5,
        9,
        13,
    ),
];

/// Stops the test where a tape that is left in write `k` does not show this.
fn shows_on(
    rt: &impl Abort,
    alloc: Global,
    tape: Vec<Record>,
    shown: Shown,
    k: usize,
) -> Result<(), Fail> {
    let mut volume = open_now(rt, alloc, tape, Vec::new(alloc))?;
    let good = shows(rt, &mut volume, shown.0, shown.1);
    drop(volume);
    row(rt, good, "stopped in write", k as u64);
    Ok(())
}

/// A stop within any of these writes leaves what was shown before, and from the write that opens the
/// gate on what is shown after them.
pub fn stops(
    rt: &impl Abort,
    alloc: Global,
    before: Shown,
    after: Shown,
    opening: usize,
    writes: &[(u16, Record)],
) -> Result<(), Fail> {
    for k in 0..=writes.len() {
        for (torn, opens) in torn_contents() {
            let tape = tape_with(rt, alloc, before.0, before.1)?;
            let tape = stopped(rt, tape, writes, k, &torn);
            let is_new = k > opening || k == opening && opens;
            shows_on(rt, alloc, tape, if is_new { after } else { before }, k)?;
        }
    }
    Ok(())
}

/// A command that is carried out, and what is shown then; its store.
fn carried_out(
    rt: &impl Abort,
    alloc: Global,
    (header, slots): Shown,
    step: Step,
    after: Shown,
    k: u64,
) -> Result<MemoryRecords, Fail> {
    let mut volume = volume_with(rt, alloc, header, slots)?;
    row(rt, change_now(rt, &mut volume, step).is_ok(), "answer", k);
    row(rt, shows(rt, &mut volume, after.0, after.1), "after", k);
    Ok(volume.into_records())
}

/// A command makes so many writes and calls, and a stop within any of these writes leaves the old or
/// the new volume.
fn stops_in(rt: &impl Abort, alloc: Global, turn: &Turn, k: u64) -> Result<(), Fail> {
    let (before, step, after, opening, writes, calls) = *turn;
    let records = carried_out(rt, alloc, before, step, after, k)?;
    row(rt, records.writes().len() == writes, "writes", k);
    assert!(rt; calls < 20);
    row(rt, u64::from(records.left()) + calls == 10000, "calls", k);
    stops(rt, alloc, before, after, opening, records.writes())
}

#[test]
fn a_stop_leaves_the_old_or_the_new_volume(rt: HostRuntime) -> Result<(), Fail> {
    for (k, turn) in TURNS.iter().enumerate() {
        stops_in(&rt, rt.alloc(), turn, k as u64)?;
    }
    Ok(())
}

/// A command of which this call fails leaves the old or the new volume.
fn fails_in(rt: &impl Abort, alloc: Global, turn: &Turn, call: u64) -> Result<(), Fail> {
    let (before, step, after, _, _, _) = *turn;
    let tape = tape_with(rt, alloc, before.0, before.1)?;
    let mut volume = failing_on(rt, alloc, tape, call)?;
    let answer = change_now(rt, &mut volume, step);
    row(rt, same(answer, TROUBLE), "call fails", call);
    forgets(rt, &mut volume, before, after);
    drop(volume);
    Ok(())
}

#[test]
fn a_trouble_leaves_the_old_or_the_new_volume(rt: HostRuntime) -> Result<(), Fail> {
    for turn in TURNS {
        for call in 1..=turn.5 {
            fails_in(&rt, rt.alloc(), turn, call)?;
        }
    }
    Ok(())
}
