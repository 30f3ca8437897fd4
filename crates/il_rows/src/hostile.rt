//! Images that hold no volume, each with one change in one that does.

use crate::images::{END_ENTRY, REDO_ENTRY, put_at, with_entries, with_header};
use crate::lines::repeated;
use crate::runs::{Given, answers, run};
use il_same::same;
use std::alloc::{AllocError, Global};
use std::process::Abort;
use std::test::Fail;

/// Twelve commands of a volume, and one of the loop, which no second controller is on.
const COMMANDS: &[u8] = b"\
dir
label
fetch A
store A 0001 00000000 41
rename A B
purge A
adopt
upgrade
begin
purge A
commit
pack
put T 41
get T
lend 1
";

/// No command of a volume finds one on the image, or writes to it.
fn is_no_volume(rt: &impl Abort, alloc: Global, image: &[u8]) -> Result<(), Fail> {
    let wanted = repeated(alloc, b"", (12, b"error 3 NotLif\n"), b"error 17 NoTaker\n")?;
    let left = run(alloc, &Given::script(image, COMMANDS))?;
    assert!(rt;
        same(
            (left.ended_with(1, &wanted), left.writes.is_empty()),
            (true, true)
        ),
        "the output, and no write"
    );
    Ok(())
}

#[test]
fn headers_that_cannot_be_read(rt: HostRuntime) -> Result<(), Fail> {
    let alloc = rt.alloc();
    // The mark, the directory's start, its length, and its end after the gate.
    let headers: [(usize, &[u8]); 4] = [
        (0, b"\x80\x01"),
        (8, b"\0\0\0\0"),
        (16, b"\0\0\0\0"),
        (16, b"\0\0\x01\xFB"),
    ];
    for (place, bytes) in headers {
        is_no_volume(&rt, alloc, &with_header(alloc, place, bytes)?)?;
    }
    Ok(())
}

/// A volume whose first file, of that type, has these bytes for its start and length.
fn with_extent(alloc: Global, kind: u8, extent: &[u8; 8]) -> Result<Vec<u8>, AllocError> {
    let mut entry = *b"X         \0?\0\0\0\0\0\0\0\0\0\0\0\0\0\0\x80\x01\0\0\0\0";
    entry[11] = kind;
    put_at(&mut entry, 12, extent);
    with_entries(alloc, &[&entry, REDO_ENTRY, END_ENTRY])
}

#[test]
fn files_that_lie_nowhere(rt: HostRuntime) -> Result<(), Fail> {
    let alloc = rt.alloc();
    // In the directory, over the redo file, and past the end of the tape.
    for extent in [
        b"\0\0\0\x03\0\0\0\x01",
        b"\0\0\x01\xFB\0\0\0\x02",
        b"\0\0\x01\xFF\0\0\0\x02",
        b"\xFF\xFF\xFF\xFF\xFF\xFF\xFF\xFF",
    ] {
        is_no_volume(&rt, alloc, &with_extent(alloc, 1, extent)?)?;
    }
    Ok(())
}

#[test]
fn two_files_of_one_name(rt: HostRuntime) -> Result<(), Fail> {
    let alloc = rt.alloc();
    let second = b"REDOFILE  \0\x01\0\0\0\x04\0\0\0\x01\0\0\0\0\0\0\x80\x01\0\0\0\0";
    is_no_volume(
        &rt,
        alloc,
        &with_entries(alloc, &[second, REDO_ENTRY, END_ENTRY])?,
    )
}

#[test]
fn a_purged_entry_may_hold_any_numbers(rt: HostRuntime) -> Result<(), Fail> {
    let alloc = rt.alloc();
    let image = with_extent(alloc, 0, b"\xFF\xFF\xFF\xFF\xFF\xFF\xFF\xFF")?;
    answers(
        &rt,
        alloc,
        &Given::script(
            &image,
            b"dir\nstore A 0001 00000000 41\nstore B 0001 00000000 42\ndir\n",
        ),
        0,
        b"volume HPTAPE 2 2 2 16\nfile REDOFILE E0D0 508 4 00000000\nok\nok\nok\nvolume HPTAPE 2 2 3 16\nfile A 0001 4 1 00000000\nfile B 0001 5 1 00000000\nfile REDOFILE E0D0 508 4 00000000\nok\n",
    )
}
