//! Calls of any medium, compared with what they should answer.
use il_ports::{Failed, Inserted, Medium, New};
use il_same::{same, same_bytes};
use lif_model::{RECORD, Record};
use std::process::Abort;

pub const TAPE_BYTES: usize = 131_072;

pub const DISC_BYTES: usize = 630_784;

/// What a record holds before a read.
pub const STALE: Record = [0xEE; RECORD];

/// How many bytes an image has, and what an insert of it answers, with how many records.
pub const SIZES: [(usize, Inserted, u16); 5] = [
    (0, Inserted::Tape, 512),
    (131_072, Inserted::Tape, 512),
    (131_073, Inserted::Tape, 2464),
    (630_784, Inserted::Tape, 2464),
    (630_785, Inserted::BadSize(630_785), 0),
];

/// Insert `k` into the empty drive: its answer, and how many records the drive has after it.
pub fn inserts<M: Medium>(
    rt: &impl Abort,
    medium: &mut M,
    k: usize,
    name: &str,
    new: New,
    want: Result<Inserted, Failed>,
    records: u16,
) {
    assert!(rt; medium.size() == 0, "no tape before insert {k}");
    assert!(rt; same(medium.insert(name, new), want), "insert {k}");
    assert!(rt; same(medium.size(), records), "size after insert {k}");
}

/// A read of record `n`: its answer, and what it leaves in a stale record.
pub fn reads<M: Medium>(
    rt: &impl Abort,
    medium: &mut M,
    n: u16,
    want: Result<(), Failed>,
    record: &Record,
) {
    let mut into = STALE;
    assert!(rt; n < medium.size(), "the tape has record {n}");
    assert!(rt; same(medium.read(n, &mut into), want), "read of {n}");
    assert!(rt;
        same_bytes(into.as_slice(), record.as_slice()),
        "record {n}"
    );
}

/// A write of record `n`, one byte all over: its answer.
pub fn writes<M: Medium>(
    rt: &impl Abort,
    medium: &mut M,
    n: u16,
    byte: u8,
    want: Result<(), Failed>,
) {
    assert!(rt; n < medium.size(), "the tape has record {n}");
    assert!(rt;
        same(medium.write(n, &[byte; RECORD]), want),
        "write of {n}"
    );
}

/// A record with these two bytes first, and zeros after them.
pub fn record_of(first: u8, second: u8) -> Record {
    let mut record = [0; RECORD];
    record[0] = first;
    record[1] = second;
    record
}
