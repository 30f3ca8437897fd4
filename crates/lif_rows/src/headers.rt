//! Headers of volumes, as they are read and as they are made.
ghost use Rattle.std.specs.Prelude.{◌+◌, ◌≤◌, length};

use crate::labels::{check, row};
use il_same::{same, same_bytes};
use lif_header::{Header, HeaderFault};
use lif_model::{RECORD, Record};
use std::process::Abort;
use std::test::Fail;

/// The header of a volume HPTAPE whose directory has records 2 and 3, as the LIF format has it.
const FORMATTED: &[u8; 42] =
    b"\x80\x00HPTAPE\x00\x00\x00\x02\x10\x00\x00\x00\x00\x00\x00\x02\x00\x01\x00\x00\x00\x00\x00\x02\x00\x00\x00\x01\
    \x00\x00\x01\x00\x00\x00\x00\x00\x00\x00";

/// Record 0 with that header, but for these bytes from place `at` on.
fn record_with(at: usize, bytes: &[u8]) -> Record
    requires { at + length bytes.now ≤ 256 }
{
    let mut record = [0; RECORD];
    record[..42].copy_from_slice(FORMATTED);
    record[at..at + bytes.len()].copy_from_slice(bytes);
    record
}

/// Bytes that differ from place `at` on, the size of the medium, and what is read: the label, the directory's first
/// record, how many records it has, and the first after them. The directory ends at record 4, so a medium of 8
/// records is the smallest that has room.
type Read = (usize, &'static [u8], u16, [u8; 6], (u16, u16, u16));

const READ: &[Read] = &[
    (0, b"", 8, *b"HPTAPE", (2, 2, 4)),
    (0, b"", 512, *b"HPTAPE", (2, 2, 4)),
    (0, b"", u16::MAX, *b"HPTAPE", (2, 2, 4)),
    (2, b"\x00\xFF A%b", 512, *b"\x00\xFF A%b", (2, 2, 4)),
    (8, b"\x00\x00\x01\x02", 512, *b"HPTAPE", (258, 2, 260)),
];

/// Reads record 0 of a medium of so many records, with these bytes from place `at` on.
fn read_now(rt: &impl Abort, at: usize, bytes: &[u8], size: u16) -> Result<Header, HeaderFault> {
    assert!(rt; at <= 256 && bytes.len() <= 256 - at && 4 <= size);
    Header::read(&record_with(at, bytes), size)
}

#[test]
fn reads_a_header(rt: HostRuntime) {
    for (k, (at, bytes, size, label, places)) in READ.iter().enumerate() {
        let header = read_now(&rt, *at, bytes, *size).expect(&rt, "a header");
        let came = (header.start(), header.length(), header.end());
        let good = same((header.label(), came), (*label, *places));
        row(&rt, good, "label and places", k as u64);
    }
}

#[test]
fn fresh_headers(rt: HostRuntime) {
    // The LIF format's header of a cassette, and a disc's: 77 tracks, 2 surfaces, 16 records.
    let cassette = record_with(0, b"");
    let fresh = Header::fresh(b"HPTAPE", 2, 512);
    check(&rt, same(fresh, cassette), "a cassette");
    let disc = record_with(24, b"\x00\x00\x00\x4D\x00\x00\x00\x02\x00\x00\x00\x10");
    let fresh = Header::fresh(b"HPTAPE", 2, 2464);
    check(&rt, same(fresh, disc), "a disc");
    let full = Header::fresh(b"A     ", 2458, 2464);
    let full = Header::read(&full, 2464).expect(&rt, "a header");
    check(&rt, same(full.label(), *b"A     "), "a short label");
    check(&rt, full.length() == 2458, "a full disc");
}

/// Bytes that differ from place `at` on, the size of the medium, the first fault, and its text.
type Fault = (usize, &'static [u8], u16, HeaderFault, &'static str);

const FAULTS: &[Fault] = &[
    (0, b"\x00\x80", 512, HeaderFault::Id(0x0080), "Id"),
    (0, &[0; 20], 512, HeaderFault::Id(0), "Id"),
    (8, &[0; 12], 512, HeaderFault::Start(0), "Start"),
    (16, &[0; 4], 512, HeaderFault::Length(0), "Length"),
    (0, b"", 7, HeaderFault::Past(4), "Past"),
    (8, &[0xFF; 4], 512, HeaderFault::Past(0x1_0000_0001), "Past"),
];

#[test]
fn tells_the_first_fault(rt: HostRuntime) -> Result<(), Fail> {
    for (k, (at, bytes, size, fault, text)) in FAULTS.iter().enumerate() {
        let answer = read_now(&rt, *at, bytes, *size);
        row(&rt, same(answer, Err(*fault)), "fault", k as u64);
        let told = fault.to_string(rt.alloc())?;
        let good = same_bytes(told.as_bytes(), text.as_bytes());
        row(&rt, good, "text", k as u64);
    }
    Ok(())
}
