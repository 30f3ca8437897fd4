//! Tables of slots, and how names are found in them.
ghost use Rattle.std.specs.Prelude.{◌≡◌, ◌<◌, true};
ghost use Rattle.lif_dir.specs.Entries.{is_entry};

use crate::labels::{check, named, row};
use crate::names::name_of;
use il_same::same;
use lif_dir::{FileEntry, Name, Slot, SlotTable, Steps};
use std::marker::Brand;
use std::process::Abort;
use std::sync::ledger::{Blank, Ledger};
use std::test::Fail;

/// The entry of a file without a date.
pub fn entry_of(name: Name, kind: u16, start: u32, length: u32) -> FileEntry {
    FileEntry {
        name,
        kind,
        start,
        length,
        date: [0; 6],
        volume: 0x8001,
        implementation: [0; 4],
    }
}

/// The slot of a file, purged where the type is 0.
pub fn slot_of(entry: FileEntry) -> Slot
    ensures { is_entry result ≡ true }
{
    if entry.kind == 0 {
        Slot::Purged(entry)
    } else {
        Slot::Live(entry)
    }
}

/// The slot of a file whose name is this letter.
fn letter_slot(rt: &impl Abort, letter: u8, kind: u16) -> Slot
    ensures { is_entry result ≡ true }
{
    slot_of(entry_of(name_of(rt, &[letter]), kind, 4, 1))
}

/// A table with room for `room` slots, whose slots have these letters and types.
fn table_of(
    rt: &(impl Abort + AllocGlobal),
    room: u16,
    slots: &[(u8, u16)],
) -> Result<SlotTable, Fail> {
    let mut table = SlotTable::new(rt.alloc(), usize::from(room))?;
    for (letter, kind) in slots {
        assert!(rt; table.len() < table.room());
        table.push(letter_slot(rt, *letter, *kind));
    }
    Ok(table)
}

/// Where the files A, B, C and D are.
fn places(rt: &impl Abort, table: &SlotTable) -> [Option<u32>; 4] {
    counted_places::<Brand>(rt, table, Blank::new(1))
}

/// The same, with the steps counted on a new ledger.
fn counted_places<L: Ledger>(rt: &impl Abort, table: &SlotTable, blank: Blank) -> [Option<u32>; 4]
    requires name { blank.name ≡ L.name }
    requires parts { blank.parts ≡ L.parts }
    requires some { 0 < blank.parts }
{
    let mut steps = Steps::<L>::new(blank);
    let mut places = [None; 4];
    for (k, letter) in b"ABCD".iter().enumerate() {
        let name = name_of(rt, &[*letter]);
        assert!(rt; table.distinct());
        places[k] = table.find(&name, &mut steps);
    }
    places
}

/// Stops the test where the files A, B, C and D are elsewhere.
fn finds(rt: &impl Abort, table: &SlotTable, want: [Option<u32>; 4], label: &str) {
    check(rt, same(places(rt, table), want), label);
}

/// Stops the test where the table has another slot `k`.
pub fn has_slot(rt: &impl Abort, table: &SlotTable, k: usize, want: Slot) {
    assert!(rt; k < table.len());
    row(rt, same(*table.get(k), want), "slot", k as u64);
}

/// Puts a file C before the last slot, and a purged file B into the first one.
fn changes(rt: &impl Abort, table: &mut SlotTable) {
    let purged = letter_slot(rt, b'B', 0);
    assert!(rt; 0 < table.len() && table.len() < table.room());
    table.insert_before_last(letter_slot(rt, b'C', 1));
    table.set(0, purged);
    has_slot(rt, table, 0, purged);
    has_slot(rt, table, 1, letter_slot(rt, b'A', 0));
}

/// Empties a table, which has the same room then.
fn clears(rt: &impl Abort, table: &mut SlotTable, room: usize) {
    table.clear();
    let good = table.is_empty() && table.room() == room;
    check(rt, good, "its room stays");
}

#[test]
fn live_names_are_found(rt: HostRuntime) -> Result<(), Fail> {
    let mut table = table_of(&rt, 6, &[(b'B', 1), (b'A', 0), (b'D', 1), (b'A', 2)])?;
    finds(&rt, &table, [Some(3), Some(0), None, Some(2)], "pushed");
    changes(&rt, &mut table);
    finds(&rt, &table, [Some(4), None, Some(3), Some(2)], "changed");
    clears(&rt, &mut table, 6);
    finds(&rt, &table, [None; 4], "cleared");
    Ok(())
}

/// A name, three slots, and whether their live names differ.
const NAMES: &[(&str, [(u8, u16); 3], bool)] = &[
    ("three", [(b'A', 1), (b'B', 1), (b'C', 1)], true),
    ("apart", [(b'A', 1), (b'B', 0), (b'A', 1)], false),
    ("purged", [(b'A', 1), (b'A', 0), (b'A', 0)], true),
    ("neighbours", [(b'B', 1), (b'C', 7), (b'C', 8)], false),
];

#[test]
fn equal_names_are_told(rt: HostRuntime) -> Result<(), Fail> {
    for (name, slots, distinct) in NAMES {
        let good = table_of(&rt, 3, slots)?.distinct() == *distinct;
        named(&rt, good, "the answer", name);
    }
    Ok(())
}

/// A table takes as many slots as it has room for, also equal ones, and changes one alone.
#[test]
fn table_keeps_its_room(rt: HostRuntime) -> Result<(), Fail> {
    let (live, purged) = (letter_slot(&rt, b'A', 1), letter_slot(&rt, b'A', 0));
    let mut table = table_of(&rt, 3, &[(b'A', 1), (b'A', 1), (b'A', 1)])?;
    assert!(rt; table.len() == 3, "full");
    table.set(1, purged);
    check(&rt, table.len() == 3, "as many");
    for (k, want) in [live, purged, live].iter().enumerate() {
        has_slot(&rt, &table, k, *want);
    }
    clears(&rt, &mut table, 3);
    Ok(())
}
