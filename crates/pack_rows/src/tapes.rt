//! Tapes with a directory of these slots, whose records differ from one another.
use lif_model::{ENTRIES, ENTRY, RECORD, REDO_KIND, REDO_NAME, Record};
use std::alloc::{AllocError, Global};
use std::process::Abort;
use std::test::Fail;

/// A slot of a table: the letter of its file, the first record and how many there are. A small letter is that of a
/// purged file, `*` is the redo file, and `-` a purged one.
pub type Item = (u8, u32, u32);

/// How many records a tape of a table has, where its directory begins, and where its redo file does.
pub const SIZE: usize = 160;

pub const FIRST: usize = 2;

pub const REDO_START: usize = 126;

pub const REDO: Item = (b'*', 126, 34);

/// The redo file of version 1.
pub const REDO_ONE: Item = (b'*', 156, 4);

/// The header of a volume HPTAPE, but for the number of its directory's records.
const HEADER: &[u8] = b"\x80\0HPTAPE\0\0\0\x02\x10\0\0\0\0\0\0";

/// The date and the volume word of each file, and its implementation field.
const DATED: &[u8] = b"\x26\x11\x29\x18\x16\x55\x80\x01";

const FIELD: &[u8] = b"\x01\x02\x03\x04";

/// Stops the test where what is asserted of row `k` does not hold.
pub fn row(rt: &impl Abort, good: bool, label: &str, k: usize) {
    assert!(rt; good, "{label} {k}");
}

/// The entry of the file of this name, with these numbers.
pub fn entry(name: [u8; 4], start: u32, length: u32) -> [u8; ENTRY] {
    let kind: u16 = match name[0] {
        b'*' => REDO_KIND,
        b'A'..=b'Z' => 0xE080,
        _ => 0,
    };
    let mut bytes = [0; ENTRY];
    bytes[..10].copy_from_slice(REDO_NAME);
    bytes[10..12].copy_from_slice(&kind.to_be_bytes());
    bytes[12..16].copy_from_slice(&start.to_be_bytes());
    bytes[16..20].copy_from_slice(&length.to_be_bytes());
    bytes[20..28].copy_from_slice(DATED);
    if name[0] != b'*' && name[0] != b'-' {
        bytes[..10].copy_from_slice(b"          ");
        bytes[..4].copy_from_slice(&name);
        bytes[28..].copy_from_slice(FIELD);
    }
    bytes
}

/// The slots of a table.
pub fn entries(alloc: Global, items: &[Item]) -> Result<Vec<[u8; ENTRY]>, AllocError> {
    let mut slots = Vec::new(alloc);
    for (letter, start, length) in items {
        slots.push(entry([*letter, b' ', b' ', b' '], *start, *length))?;
    }
    Ok(slots)
}

/// Writes bytes from byte `at` of record `n` on.
pub fn put(rt: &impl Abort, tape: &mut Vec<Record>, n: usize, at: usize, bytes: &[u8]) {
    assert!(rt; n < tape.len() && at <= RECORD && bytes.len() <= RECORD - at);
    tape[n][at..at + bytes.len()].copy_from_slice(bytes);
}

/// A tape with a directory of so many records, which has these slots and, where there is room, an end after them.
pub fn tape_of(
    rt: &impl Abort,
    alloc: Global,
    size: usize,
    length: usize,
    slots: &[[u8; ENTRY]],
) -> Result<Vec<Record>, Fail> {
    assert!(rt; size < 3000 && length < 3000 && slots.len() <= ENTRIES * length);
    let mut tape = Vec::with_capacity(alloc, size)?;
    for n in 0..size {
        let mut bytes = [(n % 251 + 1) as u8; RECORD];
        bytes[1] = (n / 251) as u8;
        tape.push(bytes)?;
    }
    put(rt, &mut tape, 0, 0, &[0; RECORD]);
    put(rt, &mut tape, 0, 0, HEADER);
    put(rt, &mut tape, 0, 16, &(length as u32).to_be_bytes());
    for (k, slot) in slots.iter().enumerate() {
        put(
            rt,
            &mut tape,
            FIRST + k / ENTRIES,
            ENTRY * (k % ENTRIES),
            slot,
        );
    }
    let end = slots.len();
    if end < ENTRIES * length {
        put(
            rt,
            &mut tape,
            FIRST + end / ENTRIES,
            ENTRY * (end % ENTRIES) + 10,
            &[0xFF; 2],
        );
    }
    Ok(tape)
}

/// The tape of a table, with a directory of one record.
pub fn tape_with(rt: &impl Abort, alloc: Global, items: &[Item]) -> Result<Vec<Record>, Fail> {
    tape_of(rt, alloc, SIZE, 1, &entries(alloc, items)?)
}

pub fn copied(alloc: Global, records: &[Record]) -> Result<Vec<Record>, Fail> {
    let mut tape = Vec::with_capacity(alloc, records.len())?;
    tape.extend_from_slice(records)?;
    Ok(tape)
}
