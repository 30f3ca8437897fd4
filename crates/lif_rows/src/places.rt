//! Places of new files: what `choose` answers, beside the plain function.
ghost use Rattle.std.specs.Prelude.{◌<◌, length};

use crate::labels::named;
use crate::names::name_of;
use crate::tables::{entry_of, slot_of};
use il_same::same;
use lif_alloc::{Choice, choose};
use lif_dir::{FileEntry, SlotTable};
use lif_model::{Spot, plain_fit};
use std::process::Abort;
use std::test::Fail;

/// The type of the redo entry.
const KIND: u16 = 0xE0D0;

/// A slot as a test tells it: its type, first record and number of records.
type Row = (u16, u32, u32);

/// The entry of that row: REDOFILE where it has the redo entry's type.
fn row_entry(rt: &impl Abort, row: Row) -> FileEntry {
    let (kind, start, length) = row;
    let name = match kind {
        KIND => b"REDOFILE".as_slice(),
        _ => b"FILE",
    };
    entry_of(name_of(rt, name), kind, start, length)
}

/// A table with these slots.
fn table_of(rt: &(impl Abort + AllocGlobal), rows: &[Row]) -> Result<SlotTable, Fail>
    requires { length rows.now < 100 }
{
    let mut table = SlotTable::new(rt.alloc(), rows.len())?;
    for row in rows {
        assert!(rt; table.len() < table.room());
        table.push(slot_of(row_entry(rt, *row)));
    }
    Ok(table)
}

/// The bytes of these slots.
fn bytes_of(rt: &(impl Abort + AllocGlobal), rows: &[Row]) -> Result<Vec<[u8; 32]>, Fail> {
    let mut bytes = Vec::new(rt.alloc());
    for row in rows {
        bytes.push(row_entry(rt, *row).bytes())?;
    }
    Ok(bytes)
}

/// What the plain function answers for a directory with these slots.
fn plain_answer(
    rt: &(impl Abort + AllocGlobal),
    rows: &[Row],
    directory: (u32, u32),
    count: u32,
    size: u16,
) -> Result<Spot, Fail> {
    let (end, capacity) = directory;
    let bytes = bytes_of(rt, rows)?;
    Ok(plain_fit(
        u64::from(size),
        u64::from(end),
        capacity as usize,
        bytes.as_slice(),
        u64::from(count),
    ))
}

/// What `choose` answers for it.
fn answer(
    rt: &(impl Abort + AllocGlobal),
    rows: &[Row],
    directory: (u32, u32),
    count: u32,
    size: u16,
) -> Result<Choice, Fail>
    requires { length rows.now < 100 }
{
    let (end, capacity) = directory;
    let table = table_of(rt, rows)?;
    Ok(choose(&table, end, capacity, count, size))
}

/// The same choice in the words of the plain function.
fn spot_of(choice: Choice) -> Spot {
    match choice {
        Choice::At { slot, start } => Spot::At(slot as usize, u64::from(start)),
        Choice::NoSlot => Spot::NoSlot,
        Choice::NoRoom => Spot::NoRoom,
    }
}

/// Where the directory ends, and how many slots it has room for: two records of a directory, and one.
const TWO: (u32, u32) = (4, 16);

const ONE: (u32, u32) = (3, 8);

const REDO: Row = (KIND, 508, 4);

/// A purged slot whose numbers are junk.
const FAR: Row = (0, 0xFFFF_FFFF, 0xFFFF_FFFF);

/// The redo entry of a tape of twelve records, and what is purged on it.
const SMALL: Row = (KIND, 8, 4);

const HOLES: &[Row] = &[(0, 4, 1), (0, 5, 1), (1, 6, 2), SMALL];

/// A name, the size of the medium, its directory and slots, the records of the new file, and where it goes.
type Place = (&'static str, u16, (u32, u32), &'static [Row], u32, Spot);

const PLACES: &[Place] = &[
    ("empty", 512, TWO, &[REDO], 1, Spot::At(0, 4)),
    (
        "as long as it may be",
        512,
        TWO,
        &[REDO],
        504,
        Spot::At(0, 4),
    ),
    ("up to the gate", 512, TWO, &[REDO], 505, Spot::NoRoom),
    (
        "longer than any",
        512,
        TWO,
        &[REDO],
        0xFFFF_FFFF,
        Spot::NoRoom,
    ),
    (
        "after six",
        512,
        TWO,
        &[
            (1, 4, 1),
            (1, 5, 1),
            (1, 6, 1),
            (1, 7, 1),
            (1, 8, 1),
            (1, 9, 1),
            REDO,
        ],
        1,
        Spot::At(6, 10),
    ),
    (
        "full",
        512,
        ONE,
        &[
            (1, 3, 1),
            (1, 4, 1),
            (1, 5, 1),
            (1, 6, 1),
            (1, 7, 1),
            (1, 8, 1),
            (1, 9, 1),
            REDO,
        ],
        1,
        Spot::NoSlot,
    ),
    (
        "full with a hole",
        512,
        ONE,
        &[
            (1, 3, 1),
            (0, 4, 1),
            (1, 5, 1),
            (1, 6, 1),
            (1, 7, 1),
            (1, 8, 1),
            (1, 9, 1),
            REDO,
        ],
        1,
        Spot::At(1, 4),
    ),
    (
        "two holes too short",
        512,
        TWO,
        &[(0, 4, 1), (0, 5, 1), (1, 6, 502), REDO],
        2,
        Spot::NoRoom,
    ),
    (
        "two holes",
        512,
        TWO,
        &[(0, 4, 1), (0, 5, 1), (1, 6, 502), REDO],
        1,
        Spot::At(0, 4),
    ),
    // Purged slots with junk, before and after the others.
    ("junk first", 512, TWO, &[FAR, REDO], 1, Spot::At(0, 4)),
    (
        "junk before",
        512,
        TWO,
        &[FAR, (1, 4, 1), REDO],
        1,
        Spot::NoRoom,
    ),
    (
        "junk after",
        512,
        TWO,
        &[(0, 4, 1), FAR, REDO],
        2,
        Spot::At(0, 4),
    ),
    // The redo entry is not the last slot.
    ("redo first", 512, TWO, &[REDO, (1, 4, 2)], 1, Spot::NoSlot),
    (
        "redo between",
        512,
        TWO,
        &[(0, 9, 0), REDO, (1, 6, 2)],
        2,
        Spot::At(0, 4),
    ),
    (
        "purged after redo",
        512,
        TWO,
        &[(1, 4, 2), REDO, (0, 6, 2)],
        1,
        Spot::NoSlot,
    ),
    // It counts as one after its own slot.
    ("redo low", 512, TWO, &[(KIND, 6, 4)], 3, Spot::NoRoom),
    ("redo empty", 512, TWO, &[(KIND, 6, 0)], 3, Spot::At(0, 4)),
    // A tape of twelve records.
    ("small holes", 12, TWO, HOLES, 1, Spot::At(0, 4)),
    ("small holes too short", 12, TWO, HOLES, 2, Spot::NoRoom),
    (
        "no slot more but a hole",
        12,
        (4, 4),
        HOLES,
        1,
        Spot::At(0, 4),
    ),
    (
        "no room after a file",
        12,
        (4, 4),
        &[(1, 6, 2), SMALL],
        1,
        Spot::NoRoom,
    ),
    (
        "no slot after a file",
        12,
        (4, 2),
        &[(1, 6, 2), SMALL],
        1,
        Spot::NoSlot,
    ),
    ("small and empty", 12, TWO, &[SMALL], 4, Spot::At(0, 4)),
    ("small and too long", 12, TWO, &[SMALL], 5, Spot::NoRoom),
];

/// Chooses the place of a row.
fn is_placed(rt: &(impl Abort + AllocGlobal), example: &Place) -> Result<(), Fail> {
    let (name, size, directory, slots, count, spot) = *example;
    assert!(rt; slots.len() < 100);
    let plain = plain_answer(rt, slots, directory, count, size)?;
    named(rt, same(plain, spot), "the plain function", name);
    let choice = answer(rt, slots, directory, count, size)?;
    named(rt, same(spot_of(choice), spot), "the answer", name);
    Ok(())
}

#[test]
fn places_of_new_files(rt: HostRuntime) -> Result<(), Fail> {
    for example in PLACES {
        is_placed(&rt, example)?;
    }
    Ok(())
}
