//! Formatting: what it makes of any medium.
ghost use Rattle.std.specs.Prelude.{IfOk};
ghost use Rattle.lif_volume.specs.Seen.{seen};
ghost use Rattle.lif_volume.specs.Views.{IsOpen};

use crate::labels::row;
use crate::tapes::{GATE, put};
use crate::volumes::{
    Answer, END, FOREIGN_HEADER, HEADER, IN_USE, LAST, NO_ROOM, PROGRAM, REDO, Shown, Step,
    TARGETS_THREE, TWO, change_now, open_now, shows, shows_again, tape_of,
};
use il_ports::{MemoryRecords, Records};
use il_same::same;
use lif_model::{RECORD, Record};
use lif_volume::Volume;
use std::alloc::Global;
use std::process::Abort;
use std::test::Fail;

/// The headers of a longer directory, of a disc and of a longer directory there, and the redo file of
/// a disc.
const LONG_HEADER: &[u8] =
    b"\x80\0HPTAPE\0\0\0\x02\x10\0\0\0\0\0\x01\xFA\0\x01\0\0\0\0\0\x02\0\0\0\x01\0\0\x01\0";

const DISC_HEADER: &[u8] =
    b"\x80\0HPDISC\0\0\0\x02\x10\0\0\0\0\0\0\x10\0\x01\0\0\0\0\0\x4D\0\0\0\x02\0\0\0\x10";

const LONG_DISC_HEADER: &[u8] =
    b"\x80\0HPDISC\0\0\0\x02\x10\0\0\0\0\0\x09\x9A\0\x01\0\0\0\0\0\x4D\0\0\0\x02\0\0\0\x10";

const DISC_REDO: &[u8] = b"REDOFILE  \xE0\xD0\0\0\x09\x9C\0\0\0\x04\0\0\0\0\0\0\x80\x01\0\0\0\0";

const NONE: Shown = (b"", &[]);

const BASE: Shown = (HEADER, &[REDO]);

const FULL: Shown = (FOREIGN_HEADER, &[PROGRAM, LAST]);

const LONG: Shown = (LONG_HEADER, &[REDO]);

const DISC: Shown = (DISC_HEADER, &[DISC_REDO]);

const LONG_DISC: Shown = (LONG_DISC_HEADER, &[DISC_REDO]);

/// How many records a medium has, what it shows, the label and the slots that it is formatted with,
/// the answer, and what it shows after that.
type Format = (usize, Shown, (&'static [u8], u16), Answer, Shown);

const FORMATS: &[Format] = &[
    (512, NONE, (b"HPTAPE", 4049), NO_ROOM, NONE),
    (512, NONE, (b"HPTAPE", 16), Ok(()), BASE),
    (512, BASE, (b"HPTAPE", 4049), NO_ROOM, BASE),
    (512, TWO, (b"HPTAPE", 4048), Ok(()), LONG),
    (512, FULL, (b"HPTAPE", 8), IN_USE, FULL),
    (512, FULL, (b"HPTAPE", 4049), NO_ROOM, FULL),
    (2464, NONE, (b"HPDISC", 19665), NO_ROOM, NONE),
    (2464, NONE, (b"HPDISC", 128), Ok(()), DISC),
    (2464, BASE, (b"HPDISC", 19664), Ok(()), LONG_DISC),
];

/// What stands after the end of a directory before it is formatted.
const OLD: &[u8] = b"old";

/// A medium with this header and this directory, an end after it, a gate that is open with targets
/// that are not valid, and bytes in records 3 and 500.
fn medium_of(
    rt: &impl Abort,
    alloc: Global,
    size: usize,
    (header, slots): Shown,
) -> Result<Vec<Record>, Fail> {
    assert!(rt; 500 < size && slots.len() < 8);
    let others = [
        (3, [7; RECORD].as_slice()),
        (500, PROGRAM),
        (size - 4, GATE),
        (size - 3, TARGETS_THREE),
    ];
    let mut medium = tape_of(rt, alloc, size, header, slots, &others)?;
    put(rt, &mut medium, 2, 32 * slots.len(), END);
    Ok(medium)
}

/// The medium before it is formatted.
fn medium_before(
    rt: &impl Abort,
    alloc: Global,
    size: usize,
    shown: Shown,
) -> Result<Vec<Record>, Fail> {
    let mut medium = medium_of(rt, alloc, size, shown)?;
    put(rt, &mut medium, 2, 200, OLD);
    Ok(medium)
}

/// The medium after it is formatted with that answer.
fn medium_after(
    rt: &impl Abort,
    alloc: Global,
    size: usize,
    shown: Shown,
    answer: Answer,
) -> Result<Vec<Record>, Fail> {
    if answer.is_err() {
        return medium_before(rt, alloc, size, shown);
    }
    let mut medium = medium_of(rt, alloc, size, shown)?;
    assert!(rt; 4 < size);
    put(rt, &mut medium, size - 4, 0, &[0; RECORD]);
    Ok(medium)
}

/// What a format answers, and how many calls and writes it makes.
fn is_answered(
    rt: &impl Abort,
    volume: &mut Volume<MemoryRecords>,
    step: Step,
    answer: Answer,
    k: u64,
)
    requires { IsOpen ⟦<MemoryRecords as Records>⟧.view
        (seen volume.old) }
    ensures { IsOpen ⟦<MemoryRecords as Records>⟧.view
        (seen volume.new) }
{
    let left = volume.records().left();
    row(rt, same(change_now(rt, volume, step), answer), "answer", k);
    // A refusal makes no call: it is NoRoom, or the directory is kept.
    row(
        rt,
        answer.is_ok() || volume.records().left() == left,
        "calls",
        k,
    );
    // The gate is closed; then two contents, the targets, the gate, record 0, record 2, and the
    // gate again.
    row(
        rt,
        answer.is_err() || volume.records().writes().len() == 8,
        "writes",
        k,
    );
}

/// Whether the volume has the records of this medium, but for the last three.
fn has_records(rt: &impl Abort, volume: &Volume<MemoryRecords>, medium: &[Record]) -> bool {
    assert!(rt; 3 <= medium.len());
    let count = medium.len() - 3;
    same(volume.records().records().get(..count), medium.get(..count))
}

/// Formats a medium, and compares its records, and what it shows before, then, and as it is read
/// anew.
fn formats(rt: &impl Abort, alloc: Global, format: &Format, k: u64) -> Result<(), Fail> {
    let (size, before, (label, count), answer, after) = *format;
    let wanted = medium_after(rt, alloc, size, after, answer)?;
    let medium = medium_before(rt, alloc, size, before)?;
    let mut volume = open_now(rt, alloc, medium, Vec::new(alloc))?;
    row(rt, shows(rt, &mut volume, before.0, before.1), "before", k);
    is_answered(rt, &mut volume, Step::Format(label, count), answer, k);
    row(rt, volume.is_kept() != after.0.is_empty(), "kept", k);
    row(rt, has_records(rt, &volume, &wanted), "records", k);
    row(
        rt,
        shows_again(rt, &mut volume, after.0, after.1),
        "after",
        k,
    );
    drop(volume);
    Ok(())
}

#[test]
fn formats_any_tape(rt: HostRuntime) -> Result<(), Fail> {
    for (k, format) in FORMATS.iter().enumerate() {
        formats(&rt, rt.alloc(), format, k as u64)?;
    }
    Ok(())
}
