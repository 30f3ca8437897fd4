//! Commands that change a directory: what they answer, and what they make of a tape.
ghost use Rattle.std.specs.Prelude.{IfOk};
ghost use Rattle.lif_volume.specs.Seen.{seen};
ghost use Rattle.lif_volume.specs.Views.{IsOpen};

use crate::labels::{check, row};
use crate::volumes::{
    Answer, EXISTS, FILE, FOREIGN_HEADER, HEADER, IN_USE, JUNK, LAST, NO_FILE, NO_REDO, NOT_LIF,
    PROGRAM, PROTECTED, PURGED, REDO, REDO_TWO, Step, change_now, fetch_now, file_of, holds,
    open_now, resume_now, room_of, shows, shows_again, tape_of, volume_with,
};
use il_ports::{MemoryRecords, Records};
use il_same::{same, same_bytes};
use lif_model::RECORD;
use lif_volume::Volume;
use std::alloc::Global;
use std::process::Abort;
use std::test::Fail;

/// A file in the last record but one, and one in record 480.
const LATE: &[u8] = b"L         \0\x01\0\0\x01\xFE\0\0\0\x01\0\0\0\0\0\0\x80\x01\0\0\0\0";

const HIGH: &[u8] = b"H         \0\x01\0\0\x01\xE0\0\0\0\x01\0\0\0\0\0\0\x80\x01\0\0\0\0";

/// A file that is no redo file, under its name.
const OTHER_REDO: &[u8] = b"REDOFILE  \0\x01\0\0\0\x04\0\0\0\x01\0\0\0\0\0\0\x80\x01\0\0\0\0";

/// The slots of a directory, a command, its answer, and the slots after it.
type Row = (
    &'static [&'static [u8]],
    Step<'static>,
    Answer,
    &'static [&'static [u8]],
);

/// What commands answer, and what they make of a directory.
const ROWS: &[Row] = &[
    (&[FILE], Step::Purge(b"A"), NO_REDO, &[FILE]),
    (&[FILE], Step::Upgrade, NO_REDO, &[FILE]),
    (
        &[OTHER_REDO, LATE],
        Step::Adopt,
        EXISTS,
        &[OTHER_REDO, LATE],
    ),
    (&[FILE, LATE], Step::Adopt, IN_USE, &[FILE, LATE]),
    (&[FILE, REDO], Step::Adopt, Ok(()), &[FILE, REDO]),
    (
        &[FILE, REDO],
        Step::Rename(b"A", b"A"),
        Ok(()),
        &[FILE, REDO],
    ),
    (
        &[FILE, REDO],
        Step::Rename(b"B", b"REDOFILE"),
        PROTECTED,
        &[FILE, REDO],
    ),
    (
        &[FILE, REDO],
        Step::Rename(b"REDOFILE", b"C"),
        PROTECTED,
        &[FILE, REDO],
    ),
    (
        &[FILE, REDO],
        Step::Rename(b"B", b"A"),
        NO_FILE,
        &[FILE, REDO],
    ),
    (
        &[FILE, HIGH, REDO],
        Step::Rename(b"A", b"H"),
        EXISTS,
        &[FILE, HIGH, REDO],
    ),
    (&[FILE, REDO], Step::Purge(b"A"), Ok(()), &[PURGED, REDO]),
    (&[PURGED, REDO], Step::Purge(b"A"), NO_FILE, &[PURGED, REDO]),
    (&[HIGH, REDO], Step::Upgrade, IN_USE, &[HIGH, REDO]),
    (&[FILE, REDO_TWO], Step::Upgrade, Ok(()), &[FILE, REDO_TWO]),
    (&[FILE], Step::Store(b"B", b"1"), NO_REDO, &[FILE]),
    (&[REDO], Step::Store(b"A", b"1"), Ok(()), &[FILE, REDO]),
    (&[JUNK, REDO], Step::Store(b"A", b""), Ok(()), &[FILE, REDO]),
    (
        &[FILE, REDO],
        Step::Store(b"A", b"1"),
        EXISTS,
        &[FILE, REDO],
    ),
    (
        &[FILE, REDO],
        Step::Store(b"REDOFILE", b"1"),
        PROTECTED,
        &[FILE, REDO],
    ),
];

/// The answer of a command, and the directory that it makes, as it is kept and as it is read again.
fn changes(rt: &impl Abort, alloc: Global, example: &Row, k: u64) -> Result<(), Fail> {
    let (slots, step, answer, after) = *example;
    let mut volume = volume_with(rt, alloc, HEADER, slots)?;
    row(
        rt,
        same(change_now(rt, &mut volume, step), answer),
        "answer",
        k,
    );
    row(rt, volume.is_kept() && holds(&volume, after), "slots", k);
    row(
        rt,
        slots != after || volume.records().writes().is_empty(),
        "writes",
        k,
    );
    row(rt, shows_again(rt, &mut volume, HEADER, after), "tape", k);
    drop(volume);
    Ok(())
}

#[test]
fn changes_the_directory(rt: HostRuntime) -> Result<(), Fail> {
    for (k, example) in ROWS.iter().enumerate() {
        changes(&rt, rt.alloc(), example, k as u64)?;
    }
    Ok(())
}

#[test]
fn adopts_no_volume_with_a_file_in_the_way(rt: HostRuntime) -> Result<(), Fail> {
    let slots = [PROGRAM, LAST];
    let mut volume = volume_with(&rt, rt.alloc(), FOREIGN_HEADER, &slots)?;
    let answer = change_now(&rt, &mut volume, Step::Adopt);
    drop(volume);
    check(&rt, same(answer, IN_USE), "a file in the way");
    Ok(())
}

/// All steps but a format, each of which needs a volume.
const ON_A_BLANK: &[Step<'static>] = &[
    Step::Purge(b"A"),
    Step::Rename(b"A", b"B"),
    Step::Store(b"A", b"1"),
    Step::Adopt,
    Step::Upgrade,
];

/// The answer of a command on a tape of zeros, which stays one.
fn needs_a_volume(rt: &impl Abort, alloc: Global, step: Step, k: u64) -> Result<(), Fail> {
    let blank = tape_of(rt, alloc, 512, b"", &[], &[])?;
    let mut volume = open_now(rt, alloc, blank, Vec::new(alloc))?;
    row(
        rt,
        same(change_now(rt, &mut volume, step), NOT_LIF),
        "answer",
        k,
    );
    row(rt, shows(rt, &mut volume, b"", &[]), "tape", k);
    row(rt, volume.records().writes().is_empty(), "writes", k);
    drop(volume);
    Ok(())
}

#[test]
fn a_tape_of_zeros_is_no_volume(rt: HostRuntime) -> Result<(), Fail> {
    for (k, step) in ON_A_BLANK.iter().enumerate() {
        needs_a_volume(&rt, rt.alloc(), *step, k as u64)?;
    }
    Ok(())
}

/// Stops the test where these are not so many bytes that begin with the stored ones, and zeros
/// after them.
fn is_filled(rt: &impl Abort, into: &[u8], bytes: &[u8], length: usize) {
    assert!(rt; bytes.len() <= length && length <= into.len());
    check(rt, same_bytes(&into[..bytes.len()], bytes), "its bytes");
    check(
        rt,
        into[bytes.len()..length].iter().all(|byte| *byte == 0),
        "and then zeros",
    );
}

/// Stores a file and reads the tape anew: the file that is fetched has so many bytes, those that
/// were stored and then zeros.
fn comes_back(
    rt: &impl Abort,
    volume: &mut Volume<MemoryRecords>,
    name: &[u8],
    bytes: &[u8],
    length: usize,
    into: &mut [u8],
)
    requires { IsOpen ⟦<MemoryRecords as Records>⟧.view
        (seen volume.old) }
    ensures { IsOpen ⟦<MemoryRecords as Records>⟧.view
        (seen volume.new) }
{
    let stored = change_now(rt, volume, Step::Store(name, bytes));
    check(rt, stored.is_ok(), "stored");
    check(rt, resume_now(rt, volume).is_ok(), "resumed");
    let fetched = fetch_now(rt, volume, name, into);
    check(rt, same(fetched, file_of(length)), "whole records");
    is_filled(rt, into, bytes, length);
}

/// Bytes of which none is zero.
fn bytes() -> [u8; 300] {
    let mut bytes = [0; 300];
    for (k, byte) in bytes.iter_mut().enumerate() {
        *byte = (k % 251 + 1) as u8;
    }
    bytes
}

#[test]
fn files_come_back_in_whole_records(rt: HostRuntime) -> Result<(), Fail> {
    let bytes = bytes();
    let record = bytes.get(..RECORD).expect(&rt, "a record");
    let mut into = room_of(rt.alloc(), 0x55)?;
    let mut volume = volume_with(&rt, rt.alloc(), HEADER, &[FILE, REDO_TWO])?;
    comes_back(&rt, &mut volume, b"B", &[], 256, &mut into);
    comes_back(&rt, &mut volume, b"C", record, 256, &mut into);
    comes_back(&rt, &mut volume, b"D", &bytes, 512, &mut into);
    drop(volume);
    Ok(())
}
