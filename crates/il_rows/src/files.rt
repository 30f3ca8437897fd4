//! Whole runs over images in files in memory: short reads and writes, calls that fail, and stops between two syncs.

ghost use Rattle.std.specs.Prelude.{◌≡◌, IfOk};

use crate::faults::{SCRIPT, STORE, store_on};
use crate::images::formatted;
use crate::runs::{Behind, Given, devices_of, run, shelf_of, words_of};
use il_host::{Ended, Rig, run_il};
use il_ports::{FileMedium, Medium, MemoryFile, MemoryImages, MemorySink, MemorySource, ToChange};
use il_same::{same, same_bytes};
use std::alloc::{AllocError, Global};
use std::io::ErrorKind;
use std::process::Abort;
use std::test::Fail;

/// What a run leaves, and what was on the disk before each sync.
#[derive(Drop)]
struct OnDisk {
    status: u8,
    output: Vec<u8>,
    kept: Vec<u8>,
    past: Vec<Vec<u8>>,
}

/// A medium over images as files in memory.
type Disk = FileMedium<MemoryFile, MemoryImages, ToChange>;

/// The image as a file, of which at most `most` bytes come or go at once. It fails at that call. No tape is in.
fn disk_with(
    alloc: Global,
    image: &[u8],
    most: usize,
    fail: (u64, ErrorKind),
) -> Result<Disk, AllocError>
    ensures { IfOk result (λ m. (⟦<FileMedium<MemoryFile, MemoryImages, ToChange> as Medium>⟧.view m).record_count ≡ 0) }
{
    let shelf = shelf_of(alloc, "TAPE", Some(image))?;
    let fails = Vec::from_slice(alloc, &[fail])?;
    Ok(FileMedium::new(MemoryImages::new(alloc, shelf, most, Vec::new(alloc), fails)))
}

/// Copies of these.
fn copies_of(alloc: Global, files: &[Vec<u8>]) -> Result<Vec<Vec<u8>>, AllocError> {
    let mut copies = Vec::new(alloc);
    for bytes in files {
        copies.push(Vec::from_slice(alloc, bytes)?)?;
    }
    Ok(copies)
}

/// What a run leaves that ended with this status, this output and this disk.
fn left_on(alloc: Global, status: u8, output: &[u8], disk: &Disk) -> Result<OnDisk, AllocError> {
    let (kept, past): (&[u8], &[Vec<u8>]) = match disk.file() {
        Some(file) => (file.kept(), file.past()),
        None => (&[], &[]),
    };
    Ok(OnDisk {
        status,
        output: Vec::from_slice(alloc, output)?,
        kept: Vec::from_slice(alloc, kept)?,
        past: copies_of(alloc, past)?,
    })
}

/// Runs a script over the image as a file, of which at most `most` bytes come or go at once. It fails at that call.
fn run_over(
    alloc: Global,
    image: &[u8],
    most: usize,
    fail: (u64, ErrorKind),
    script: &[u8],
) -> Result<OnDisk, AllocError> {
    let words = words_of(alloc, "--quiet TAPE")?;
    let mut source = MemorySource::new(Vec::from_slice(alloc, script)?, 4096, Vec::new(alloc));
    let mut out = MemorySink::new(alloc, 100_000, Vec::new(alloc))?;
    let rig = Rig {
        after: devices_of(alloc, Behind::Printer)?,
        medium: disk_with(alloc, image, most, fail)?,
        before: Vec::new(alloc),
        guest: None,
    };
    let Ended { status, rig } = run_il(alloc, words.as_slice(), &mut source, &mut out, rig);
    left_on(alloc, status, out.written(), &rig.medium)
}

/// Whether the next run finds the file on the disk. It finds the volume as it was before the store, or after it.
fn found_next(rt: &impl Abort, alloc: Global, kept: &[u8], label: u64) -> Result<bool, Fail> {
    let (found, _) = store_on(&[]).listed_on(alloc, kept)?;
    assert!(rt; found.is_some(), "the next run, {label}");
    Ok(found == Some(true))
}

/// A failure of this call leaves the store whole or not at all, also for the next run. Whether each further command of
/// the run is a fault.
fn is_given_up(
    rt: &impl Abort,
    alloc: Global,
    tape: &[u8],
    call: u64,
    kind: ErrorKind,
) -> Result<bool, Fail> {
    let left = run_over(alloc, tape, 256, (call, kind), SCRIPT)?;
    assert!(rt; same(left.status, 1), "the status, call {call}");
    let is_there = found_next(rt, alloc, &left.kept, call)?;
    if left.output.as_slice() == b"fault medium\nfault medium\n".as_slice() {
        return Ok(true);
    }
    let listed = store_on(tape).listed_behind(b"fault medium\n", &left.output);
    assert!(rt; same(listed, Some(is_there)), "the reply, call {call}");
    Ok(false)
}

/// The store has fifteen calls that may fail so. After six of them the run is given up.
fn gives_up(rt: &impl Abort, alloc: Global, kind: ErrorKind) -> Result<(), Fail> {
    let tape = formatted(alloc)?;
    let mut given_up = 0u64;
    for call in 5..=19 {
        if is_given_up(rt, alloc, &tape, call, kind)? {
            given_up = given_up.saturating_add(1);
        }
    }
    assert!(rt; same(given_up, 6), "the syncs");
    let left = run_over(alloc, &tape, 256, (20, kind), SCRIPT)?;
    assert!(rt; same(left.status, 0), "no call is left to fail");
    Ok(())
}

/// Each call of the file fails: the store counts whole or not at all, also for the next run. After a failed sync each
/// further command of the run is a fault.
#[test]
fn each_call_of_the_file_fails(rt: HostRuntime) -> Result<(), Fail> {
    let alloc = rt.alloc();
    gives_up(&rt, alloc, ErrorKind::Other)?;
    gives_up(&rt, alloc, ErrorKind::StorageFull)?;
    gives_up(&rt, alloc, ErrorKind::Interrupted)
}

/// The next run finds the store on the disk as it was before the fifth sync or a later one.
fn is_found_from_the_fifth(rt: &impl Abort, alloc: Global, past: &[Vec<u8>]) -> Result<(), Fail> {
    for (sync, kept) in past.iter().enumerate() {
        let is_there = found_next(rt, alloc, kept, sync as u64)?;
        assert!(rt; same(is_there, sync >= 4), "before sync {sync}");
    }
    Ok(())
}

/// A stop before each sync of the store, and after the last.
#[test]
fn a_stop_between_two_syncs(rt: HostRuntime) -> Result<(), Fail> {
    let alloc = rt.alloc();
    let tape = formatted(alloc)?;
    let left = run_over(alloc, &tape, 256, (0, ErrorKind::Other), STORE)?;
    assert!(rt; same(left.past.len(), 6), "the syncs");
    is_found_from_the_fifth(&rt, alloc, &left.past)?;
    assert!(rt; found_next(&rt, alloc, &left.kept, 7)?, "after the last");
    Ok(())
}

/// Bytes that come and go so many at once leave this output, and the file.
fn is_stored_in_pieces(
    rt: &impl Abort,
    alloc: Global,
    tape: &[u8],
    most: usize,
    output: &[u8],
) -> Result<(), Fail> {
    let left = run_over(alloc, tape, most, (0, ErrorKind::Other), SCRIPT)?;
    assert!(rt; same_bytes(&left.output, output), "pieces of {most}");
    let is_there = found_next(rt, alloc, &left.kept, most as u64)?;
    assert!(rt; is_there, "the file, pieces of {most}");
    Ok(())
}

/// Bytes that come and go one, 100 or 255 at once make no difference; nor does it that the image is a file.
#[test]
fn short_reads_and_writes(rt: HostRuntime) -> Result<(), Fail> {
    let alloc = rt.alloc();
    let tape = formatted(alloc)?;
    let wanted = run(alloc, &Given::script(&tape, SCRIPT))?;
    for most in [1, 100, 255] {
        is_stored_in_pieces(&rt, alloc, &tape, most, &wanted.output)?;
    }
    Ok(())
}
