//! Marks: what finishing makes of a directory that has one.
use crate::opening::{finish_now, finished_on, open_now, ready};
use crate::tapes::{FIRST, Item, REDO, REDO_ONE, REDO_START, copied, put, row, tape_with};
use il_ports::Records;
use il_same::same;
use lif_model::{ENTRY, Record};
use std::alloc::Global;
use std::process::Abort;
use std::test::Fail;

/// What finishing makes of a mark: it is none and stays, it is taken off, or the file of this slot is at this place.
#[derive(Clone, Copy)]
enum Then {
    Stays,
    Off,
    At(usize, usize),
}

/// The slots of a directory, the number of a slot plus one and of the records at its place in the mark, and what
/// finishing makes of it.
type Row = (&'static [Item], (u16, u16), Then);

/// A file of three records and one of 61, which move down by one.
const SHORT: &[Item] = &[(b'A', 4, 3), REDO];

const LONG: &[Item] = &[(b'A', 4, 61), REDO];

/// Marks that are no good: without a slot; of the redo entry, of a slot past it, of none; of a purged file; of no
/// record, of all records, of more; where files do not rise, where a live slot comes after the redo entry; where an
/// earlier file has not moved yet; and where the file is at its place.
const BAD: [Row; 17] = [
    (SHORT, (0, 1), Then::Off),
    (SHORT, (2, 1), Then::Off),
    (&[(b'A', 4, 3), REDO, (b'b', 8, 3)], (3, 1), Then::Off),
    (SHORT, (9, 1), Then::Off),
    (SHORT, (0xFFFF, 0xFFFF), Then::Off),
    (&[(b'a', 4, 3), REDO], (1, 1), Then::Off),
    (SHORT, (1, 0), Then::Off),
    (SHORT, (1, 3), Then::Off),
    (SHORT, (1, 4), Then::Off),
    (&[(b'E', 9, 0), REDO], (1, 1), Then::Off),
    (
        &[(b'A', 4, 3), (b'B', 9, 1), (b'C', 8, 1), REDO],
        (1, 1),
        Then::Off,
    ),
    (&[(b'A', 4, 3), REDO, (b'B', 9, 1)], (1, 1), Then::Off),
    (&[(b'A', 4, 3), REDO, (b'E', 9, 0)], (1, 1), Then::Off),
    (&[(b'A', 4, 1), (b'B', 9, 3), REDO], (2, 1), Then::Off),
    (&[(b'A', 3, 3), REDO], (1, 1), Then::Off),
    // There is no mark, or no redo file of version 2.
    (SHORT, (0, 0), Then::Stays),
    (&[(b'A', 4, 3), REDO_ONE], (1, 1), Then::Stays),
];

/// Marks that are good: below, at and above 30 records, of a file that moves onto its own records or clear of them, of
/// the first file and of a later one.
const GOOD: [Row; 12] = [
    (SHORT, (1, 1), Then::At(0, 3)),
    (SHORT, (1, 2), Then::At(0, 3)),
    (LONG, (1, 1), Then::At(0, 3)),
    (LONG, (1, 29), Then::At(0, 3)),
    (LONG, (1, 30), Then::At(0, 3)),
    (LONG, (1, 31), Then::At(0, 3)),
    (LONG, (1, 60), Then::At(0, 3)),
    (&[(b'A', 32, 70), REDO], (1, 31), Then::At(0, 3)),
    (&[(b'A', 34, 70), REDO], (1, 30), Then::At(0, 3)),
    (&[(b'A', 80, 46), REDO], (1, 15), Then::At(0, 3)),
    (
        &[
            (b'x', 3, 9),
            (b'A', 3, 2),
            (b'E', 90, 0),
            (b'B', 9, 4),
            (b'C', 20, 9),
            REDO,
        ],
        (4, 3),
        Then::At(3, 5),
    ),
    (
        &[(b'A', 3, 2), (b'B', 6, 2), REDO, (b'y', 4, 9)],
        (2, 1),
        Then::At(1, 5),
    ),
];

/// Writes bytes from byte `at` of this slot on.
fn put_in(rt: &impl Abort, tape: &mut Vec<Record>, slot: usize, at: usize, bytes: &[u8]) {
    assert!(rt; slot < 8 && at < ENTRY);
    put(rt, tape, FIRST, ENTRY * slot + at, bytes);
}

/// The tape of a row, with its mark, and the tape that it is finished to.
fn tapes_of(
    rt: &impl Abort,
    alloc: Global,
    table: &Row,
) -> Result<(Vec<Record>, Vec<Record>), Fail> {
    let (items, (number, count), then) = table;
    let mut redo = 8;
    for (k, item) in items.iter().enumerate() {
        if item.0 == b'*' {
            redo = k;
        }
    }
    let mut tape = tape_with(rt, alloc, items)?;
    put_in(rt, &mut tape, redo, 28, &number.to_be_bytes());
    put_in(rt, &mut tape, redo, 30, &count.to_be_bytes());
    let mut after = copied(alloc, &tape)?;
    if !matches!(then, Then::Stays) {
        put_in(rt, &mut after, redo, 28, &[0; 4]);
    }
    if let Then::At(slot, place) = *then {
        assert!(rt; place < REDO_START);
        put_in(rt, &mut after, slot, 12, &(place as u32).to_be_bytes());
        let (_, start, length) = *items.get(slot).ok_or("a file")?;
        for i in u32::from(*count)..length {
            let from = start.saturating_add(i) as usize;
            let to = place + i as usize;
            assert!(rt; from < tape.len() && to < after.len());
            after[to] = tape[from];
        }
    }
    Ok((tape, after))
}

/// The tape of each row is finished to the one that is wanted, as far as the redo file.
fn finishes(rt: &impl Abort, alloc: Global, rows: &[Row]) -> Result<(), Fail> {
    for (k, table) in rows.iter().enumerate() {
        let (tape, after) = tapes_of(rt, alloc, table)?;
        let stays = matches!(table.2, Then::Stays);
        let records = finished_on(rt, alloc, tape)?;
        row(
            rt,
            same(records.records().get(..REDO_START), after.get(..REDO_START)),
            "finished",
            k,
        );
        row(rt, records.writes().is_empty() == stays, "writes", k);
        // It is finished then, and nothing is written any more.
        let again = finished_on(rt, alloc, copied(alloc, records.records())?)?;
        row(rt, again.writes().is_empty(), "again", k);
    }
    Ok(())
}

#[test]
fn a_bad_mark_is_taken_off(rt: HostRuntime) -> Result<(), Fail> {
    finishes(&rt, rt.alloc(), &BAD)
}

#[test]
fn a_good_mark_is_carried_out(rt: HostRuntime) -> Result<(), Fail> {
    finishes(&rt, rt.alloc(), &GOOD)
}

/// Where the directory is kept and has no mark no call is made, and where it has one it is carried out.
#[test]
fn a_kept_directory_is_not_read_again(rt: HostRuntime) -> Result<(), Fail> {
    let alloc = rt.alloc();
    let tape = tape_with(&rt, alloc, SHORT)?;
    let mut volume = open_now(&rt, alloc, tape, Vec::new(alloc))?;
    ready(&rt, &volume);
    assert!(rt; volume.dir().is_ok() && volume.is_kept(), "kept");
    let left = volume.records().left();
    assert!(rt; finish_now(&rt, alloc, &mut volume)?.is_ok(), "finished");
    assert!(rt;
        volume.is_kept() && same(volume.records().left(), left),
        "no call"
    );
    let (tape, after) = tapes_of(&rt, alloc, &(SHORT, (1, 1), Then::At(0, 3)))?;
    let mut volume = open_now(&rt, alloc, tape, Vec::new(alloc))?;
    ready(&rt, &volume);
    assert!(rt;
        volume.dir().is_ok() && volume.is_kept(),
        "kept with a mark"
    );
    let left = volume.records().left();
    assert!(rt; finish_now(&rt, alloc, &mut volume)?.is_ok(), "carried out");
    assert!(rt;
        !volume.is_kept() && volume.records().left() < left,
        "calls"
    );
    let records = volume.into_records();
    assert!(rt;
        same(records.records().get(..REDO_START), after.get(..REDO_START)),
        "at its place"
    );
    Ok(())
}
