//! Directories as they are read from records.
ghost use Rattle.std.specs.Prelude.{◌≡◌, ◌<◌, true, length, IfOk};
ghost use Rattle.il_ports.specs.MemoryRecords.{state_of};

use crate::labels::{check, row};
use crate::names::name_of;
use crate::tables::{entry_of, has_slot};
use il_ports::{MemoryRecords, Records, Trouble};
use il_same::{same, same_bytes};
use lif_dir::{FileEntry, Slot, SlotTable, slots_of};
use lif_header::Header;
use lif_model::{RECORD, Record};
use std::alloc::{AllocError, Global};
use std::process::Abort;
use std::test::Fail;

/// The entry of the redo file on a tape of 512 records, as the LIF format has it.
const REDO: &[u8; 32] =
    b"REDOFILE  \xE0\xD0\x00\x00\x01\xFC\x00\x00\x00\x04\x00\x00\x00\x00\x00\x00\x80\x01\x00\x00\x00\x00";

/// The end of a directory, with other bytes round its type.
const END: &[u8; 32] =
    b"NOT A NAME\xFF\xFF\x00\x00\x00\x01\x00\x00\x00\x01\x00\x00\x00\x00\x00\x00\x80\x01\x00\x00\x00\x00";

/// A purged file whose numbers are junk.
const PURGED: &[u8; 32] =
    b"A %\x0A\x00\xFF B  \x00\x00\xFF\xFF\xFF\xFF\xFF\xFF\xFF\xFF\x26\x01\x31\x23\x59\x59\x80\x02\x01\x02\x03\x04";

/// The file in slot `k` of the full directory below.
fn file_bytes(k: u8) -> [u8; 32]
    requires { k < 16 }
{
    let mut bytes = *REDO;
    bytes[..10].copy_from_slice(b"F         ");
    bytes[1] = b'A' + k;
    bytes[15] = k;
    bytes
}

/// Writes slot `k` of the directory in records 2 and 3.
fn put_slot(records: &mut [Record; 4], k: usize, bytes: &[u8; 32])
    requires { k < 16 }
{
    let at = 32 * (k % 8);
    records[2 + k / 8][at..at + 32].copy_from_slice(bytes);
}

/// Records of which the last two are a directory of sixteen files.
fn full_directory() -> [Record; 4] {
    let mut records = [[0; RECORD]; 4];
    for k in 0..16u8 {
        put_slot(&mut records, usize::from(k), &file_bytes(k));
    }
    records
}

/// A sound store of four records, in which two reads are left and the listed ones fail.
fn store_of(
    alloc: Global,
    records: [Record; 4],
    fails: Vec<(u64, Trouble)>,
) -> Result<MemoryRecords, AllocError>
    ensures size { IfOk result (λ store. length (state_of store).records ≡ 4) }
    ensures sound { IfOk result (λ store. (state_of store).sound ≡ true) }
    ensures left { IfOk result (λ store. (state_of store).left ≡ 2) }
{
    MemoryRecords::new(alloc, Vec::from_array(alloc, records)?, fails, 2)
}

/// The header of a volume whose directory has records 2 and 3.
fn header(rt: &impl Abort) -> Header
    ensures { (result.start ≡ 2) × (result.length ≡ 2) }
{
    let mut record = [0; RECORD];
    record[0] = 0x80;
    record[11] = 2;
    record[19] = 2;
    let header = Header::read(&record, 8).expect(rt, "a header");
    assert!(rt; header.start() == 2 && header.length() == 2);
    header
}

/// The redo file of a tape of 512 records.
fn redo_file(rt: &impl Abort) -> FileEntry {
    entry_of(name_of(rt, b"REDOFILE"), 0xE0D0, 508, 4)
}

/// What comes of reading the last two of these records, of which the listed reads fail, into a table with room for
/// sixteen slots.
#[derive(Drop)]
struct Reading {
    answer: Result<(), Trouble>,
    table: SlotTable,
    store: MemoryRecords,
}

/// Reads the directory in these records.
fn read_now(
    rt: &(impl Abort + AllocGlobal),
    records: [Record; 4],
    fails: Vec<(u64, Trouble)>,
) -> Result<Reading, AllocError> {
    let mut table = SlotTable::new(rt.alloc(), 16)?;
    let mut store = store_of(rt.alloc(), records, fails)?;
    let answer = slots_of(&mut store, &header(rt), &mut table);
    Ok(Reading {
        answer,
        table,
        store,
    })
}

/// Stops the test where slot `k` is not the file of the full directory, with its bytes.
fn has_file(rt: &impl Abort, table: &SlotTable, k: u8)
    requires { k < 16 }
{
    let file = FileEntry {
        name: name_of(rt, &[b'F', b'A' + k]),
        start: 256 + u32::from(k),
        ..redo_file(rt)
    };
    has_slot(rt, table, usize::from(k), Slot::Live(file));
    let good = same(file.bytes(), file_bytes(k));
    row(rt, good, "bytes of slot", u64::from(k));
}

#[test]
fn full_directory_needs_no_end(rt: HostRuntime) -> Result<(), Fail> {
    let read = read_now(&rt, full_directory(), Vec::new(rt.alloc()))?;
    let good = read.answer.is_ok() && read.store.left() == 0;
    check(&rt, good, "two reads");
    check(&rt, read.table.len() == 16, "sixteen slots");
    for k in 0..16u8 {
        has_file(&rt, &read.table, k);
    }
    drop(read);
    Ok(())
}

/// The full directory with an end in slot `end`.
fn ended_directory(end: u8) -> [Record; 4]
    requires { end < 16 }
{
    let mut records = full_directory();
    put_slot(&mut records, usize::from(end), END);
    records
}

/// As many slots are read as come before an end in slot `end`. The second record cannot be read where the end is in the
/// first.
fn stops_at(rt: &(impl Abort + AllocGlobal), end: u8) -> Result<(), Fail>
    requires { end < 16 }
{
    let second = if end < 8 { 2 } else { 3 };
    let fails = vec![in rt.alloc(); (second, Trouble::Medium); 1]?;
    let read = read_now(rt, ended_directory(end), fails)?;
    let good = read.answer.is_ok() && read.table.len() == usize::from(end);
    drop(read);
    row(rt, good, "end", u64::from(end));
    Ok(())
}

#[test]
fn directory_stops_at_its_end(rt: HostRuntime) -> Result<(), Fail> {
    for end in 0..16u8 {
        stops_at(&rt, end)?;
    }
    Ok(())
}

/// The purged file.
fn purged_file(rt: &impl Abort) -> FileEntry {
    FileEntry {
        name: name_of(rt, b"A %\x0A\x00\xFF B"),
        kind: 0,
        start: 0xFFFF_FFFF,
        length: 0xFFFF_FFFF,
        date: [0x26, 0x01, 0x31, 0x23, 0x59, 0x59],
        volume: 0x8002,
        implementation: [1, 2, 3, 4],
    }
}

/// The same records with the purged file, the redo file and an end in the first slots.
fn purged_directory() -> [Record; 4] {
    let mut records = full_directory();
    put_slot(&mut records, 0, PURGED);
    put_slot(&mut records, 1, REDO);
    put_slot(&mut records, 2, END);
    records
}

#[test]
fn purged_slots_keep_their_junk(rt: HostRuntime) -> Result<(), Fail> {
    let read = read_now(&rt, purged_directory(), Vec::new(rt.alloc()))?;
    let good = read.answer.is_ok() && read.table.len() == 2;
    check(&rt, good, "two slots");
    has_slot(&rt, &read.table, 0, Slot::Purged(purged_file(&rt)));
    has_slot(&rt, &read.table, 1, Slot::Live(redo_file(&rt)));
    drop(read);
    Ok(())
}

#[test]
fn slots_have_their_bytes(rt: HostRuntime) {
    let purged = purged_file(&rt).bytes();
    check(&rt, same_bytes(&purged, PURGED), "the purged slot");
    let redo = redo_file(&rt).bytes();
    check(&rt, same_bytes(&redo, REDO), "the redo file's");
    check(&rt, same(Slot::of(END), Slot::End), "the end");
}

#[test]
fn trouble_is_passed_on(rt: HostRuntime) -> Result<(), Fail> {
    let fails = vec![in rt.alloc(); (2, Trouble::Frame); 1]?;
    let read = read_now(&rt, full_directory(), fails)?;
    check(&rt, same(read.answer, Err(Trouble::Frame)), "the trouble");
    let store = &read.store;
    check(&rt, !store.is_sound() && store.left() == 0, "two reads");
    check(&rt, store.writes().is_empty(), "no write");
    check(&rt, read.table.room() == 16, "its room");
    drop(read);
    Ok(())
}
