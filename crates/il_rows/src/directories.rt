//! What `dir` answers, by the bytes of the tape.

use crate::images::{END_ENTRY, REDO_ENTRY, formatted, with_entries, with_open_gate};
use crate::lines::LISTED;
use crate::runs::{Given, answers, each_answers, run_formatted};
use il_same::same;
use std::alloc::{AllocError, Global};
use std::test::Fail;

#[test]
fn dir_lists_the_volume(rt: HostRuntime) -> Result<(), Fail> {
    let alloc = rt.alloc();
    let tape = formatted(alloc)?;
    each_answers(
        &rt,
        alloc,
        &tape,
        &[
            (b"dir\n", 0, LISTED),
            (b"\n\ndir", 0, LISTED),
            (
                b"list\n dir\n",
                1,
                b"error 1 BadLine\nvolume HPTAPE 2 2 1 16\nfile REDOFILE E0D0 508 4 00000000\nok\n",
            ),
        ],
    )
}

#[test]
fn dir_lists_a_volume_by_its_bytes(rt: HostRuntime) -> Result<(), Fail> {
    let alloc = rt.alloc();
    let open = with_open_gate(alloc)?;
    let ended = with_entries(alloc, &[END_ENTRY, REDO_ENTRY])?;
    let none = b"volume HPTAPE 2 2 0 16\nok\n".as_slice();
    let refused = b"error 3 NotLif\n".as_slice();
    let cases: [(&[u8], u8, &[u8]); 4] = [
        (&open, 0, LISTED),
        (&ended, 0, none),
        (&[0; 768], 1, refused),
        (&[], 1, refused),
    ];
    for (image, status, output) in &cases {
        answers(&rt, alloc, &Given::script(image, b"dir\n"), *status, output)?;
    }
    Ok(())
}

#[test]
fn an_empty_script_sends_no_frame(rt: HostRuntime) -> Result<(), Fail> {
    let alloc = rt.alloc();
    let left = run_formatted(alloc, "--quiet TAPE", b"")?;
    assert!(rt;
        same((left.ended_with(0, b""), left.frames), (true, Some(0))),
        "no output, and no frames"
    );
    Ok(())
}

/// A live entry of one record, by its first name byte and its number.
fn entry(letter: u8, number: u8) -> [u8; 32] {
    let mut bytes = *b"?         \0\x01\0\0\0?\0\0\0\x01\0\0\0\0\0\0\x80\x01\0\0\0\0";
    bytes[0] = letter;
    bytes[15] = number;
    bytes
}

/// An image whose directory has sixteen such entries and no end.
fn with_full_directory(alloc: Global) -> Result<Vec<u8>, AllocError> {
    let mut image = with_entries(alloc, &[])?;
    image.truncate(512);
    for k in 0..16u8 {
        image.extend_from_slice(&entry(b'A' + k, 10 + k))?;
    }
    Ok(image)
}

/// How it is listed.
fn full_listing(alloc: Global) -> Result<Vec<u8>, AllocError> {
    let mut listing = Vec::from_slice(alloc, b"volume HPTAPE 2 2 16 16\n")?;
    for k in 0..16u8 {
        let mut line = *b"file ? 0001 ?? 1 00000000\n";
        line[5] = b'A' + k;
        line[12] = b'1' + k / 10;
        line[13] = b'0' + k % 10;
        listing.extend_from_slice(&line)?;
    }
    listing.extend_from_slice(b"ok\n")?;
    Ok(listing)
}

#[test]
fn a_full_directory_needs_no_end(rt: HostRuntime) -> Result<(), Fail> {
    let alloc = rt.alloc();
    let image = with_full_directory(alloc)?;
    let wanted = full_listing(alloc)?;
    answers(&rt, alloc, &Given::script(&image, b"dir\n"), 0, &wanted)
}

#[test]
fn names_are_spelt_out_and_purged_slots_count(rt: HostRuntime) -> Result<(), Fail> {
    let alloc = rt.alloc();
    let purged =
        b"GONE      \0\0\xFF\xFF\xFF\xFF\xFF\xFF\xFF\xFF\0\0\0\0\0\0\x80\x01\xFF\xFF\xFF\xFF";
    let odd = b" A%\x01\xFF~z   \xAB\xCD\0\0\0\x0A\0\0\0\x01\0\0\0\0\0\0\x80\x01\xDE\xAD\xBE\xEF";
    let spaces = b"          \0\x01\0\0\0\x04\0\0\0\0\0\0\0\0\0\0\x80\x01\0\0\0\0";
    let image = with_entries(alloc, &[purged, odd, spaces, END_ENTRY])?;
    answers(
        &rt,
        alloc,
        &Given::script(&image, b"dir\n"),
        0,
        b"volume HPTAPE 2 2 3 16\nfile %20A%25%01%FF~z ABCD 10 1 DEADBEEF\nfile %20 0001 4 0 00000000\nok\n",
    )
}
