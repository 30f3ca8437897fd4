//! Images in files in memory: short reads and writes, and calls that fail.
use crate::media::{inserts, writes};
use il_ports::{
    Failed, FileMedium, Inserted, Medium, MemoryFile, MemoryImages, New, Opening, ToChange,
};
use il_same::{same, same_bytes};
use lif_model::RECORD;
use std::alloc::{AllocError, Global};
use std::io::ErrorKind;
use std::process::Abort;
use std::test::Fail;

/// Two records and two bytes.
const IMAGE_BYTES: usize = 2 * RECORD + 2;

const KINDS: [ErrorKind; 4] = [
    ErrorKind::Other,
    ErrorKind::StorageFull,
    ErrorKind::Interrupted,
    ErrorKind::PermissionDenied,
];

/// The call of that number, which fails with that kind. No call has number 0.
fn failing(alloc: Global, call: u64, kind: ErrorKind) -> Result<Vec<(u64, ErrorKind)>, AllocError> {
    let mut fails = Vec::new(alloc);
    fails.push((call, kind))?;
    Ok(fails)
}

/// The image TAPE, of fives. At most 100 bytes come or go at once.
fn images(
    alloc: Global,
    fails: Vec<(u64, ErrorKind)>,
    file_fails: Vec<(u64, ErrorKind)>,
) -> Result<MemoryImages, AllocError> {
    let mut shelf = Vec::new(alloc);
    let name = String::from_str(alloc, "TAPE")?;
    shelf.push((name, vec![in alloc; 5; IMAGE_BYTES]?))?;
    Ok(MemoryImages::new(alloc, shelf, 100, fails, file_fails))
}

/// A drive whose file fails at that call.
fn with_failing_file(
    alloc: Global,
    call: u64,
    kind: ErrorKind,
) -> Result<FileMedium<MemoryFile, MemoryImages, ToChange>, AllocError> {
    let images = images(alloc, Vec::new(alloc), failing(alloc, call, kind)?)?;
    Ok(FileMedium::new(images))
}

/// A drive whose images fail at that call.
fn with_failing_images(
    alloc: Global,
    call: u64,
    kind: ErrorKind,
) -> Result<FileMedium<MemoryFile, MemoryImages, ToChange>, AllocError> {
    let images = images(alloc, failing(alloc, call, kind)?, Vec::new(alloc))?;
    Ok(FileMedium::new(images))
}

/// Whether each byte of a record on the disk is this one.
fn is_on_disk<A: Opening>(
    medium: &FileMedium<MemoryFile, MemoryImages, A>,
    n: u16,
    byte: u8,
) -> bool {
    match medium.file() {
        None => false,
        Some(file) => {
            let start = RECORD * usize::from(n);
            let mut record = file.kept().iter().skip(start).take(RECORD);
            file.kept().len() >= start + RECORD && record.all(|found| *found == byte)
        }
    }
}

/// A read of record `n`: whether it went well, with this byte all over.
fn reads_as<A: Opening>(
    medium: &mut FileMedium<MemoryFile, MemoryImages, A>,
    n: u16,
    byte: u8,
) -> Option<bool> {
    let mut into = [0; RECORD];
    if n >= medium.size() {
        return None;
    }
    match medium.read(n, &mut into) {
        Ok(()) => Some(into.iter().all(|found| *found == byte)),
        Err(Failed) => None,
    }
}

/// An insert that puts a tape in, or that fails.
fn puts_in(
    rt: &impl Abort,
    medium: &mut FileMedium<MemoryFile, MemoryImages, ToChange>,
    call: u64,
    name: &str,
    new: New,
    is_ok: bool,
) {
    let (answer, records) = if is_ok {
        (Ok(Inserted::Tape), 512)
    } else {
        (Err(Failed), 0)
    };
    inserts(rt, medium, call as usize, name, new, answer, records);
}

/// Makes a record of these bytes.
fn fill(bytes: &mut [u8], n: u16, byte: u8) {
    for place in bytes.iter_mut().skip(RECORD * usize::from(n)).take(RECORD) {
        *place = byte;
    }
}

/// Record 1 is written, read, and record 3 written: the file has 4 calls until it is in the drive, then 3 writes and
/// a sync, 3 reads, and 3 writes and a sync again.
#[test]
fn each_call_of_a_file_fails(rt: HostRuntime) -> Result<(), Fail> {
    let alloc = rt.alloc();
    for call in 1..=16 {
        for kind in KINDS {
            let mut medium = with_failing_file(alloc, call, kind)?;
            puts_in(&rt, &mut medium, call, "TAPE", New::No, call > 4);
            written_and_read(&rt, &mut medium, call);
        }
    }
    Ok(())
}

fn written_and_read(
    rt: &impl Abort,
    medium: &mut FileMedium<MemoryFile, MemoryImages, ToChange>,
    call: u64,
) {
    // A write that failed leaves the file as the disk has it; after a sync that failed nothing more is asked of it.
    let first = if (5..=8).contains(&call) {
        Err(Failed)
    } else {
        Ok(())
    };
    let given_up = call == 8;
    let last = if given_up || (12..=15).contains(&call) {
        Err(Failed)
    } else {
        Ok(())
    };
    if medium.size() != 512 {
        return;
    }
    writes(rt, medium, 1, 7, first);
    assert!(rt; is_on_disk(medium, 0, 5), "record 0, call {call}");
    assert!(rt;
        same(is_on_disk(medium, 1, 7), first.is_ok()),
        "record 1, call {call}"
    );
    if given_up {
        assert!(rt; is_on_disk(medium, 1, 5), "the sync dropped the bytes");
    }
    let read = reads_as(medium, 1, 7);
    assert!(rt;
        same(read.is_some(), !given_up && !(9..=11).contains(&call)),
        "a read, call {call}"
    );
    if first.is_ok() {
        assert!(rt; read != Some(false), "what is read, call {call}");
    }
    writes(rt, medium, 3, 9, last);
    assert!(rt;
        same(is_on_disk(medium, 3, 9), last.is_ok()),
        "record 3, call {call}"
    );
}

/// The calls that look for a name, make a file and bring its name to the disk; and those of the file until it is in.
#[test]
fn each_call_that_makes_an_image_fails(rt: HostRuntime) -> Result<(), Fail> {
    let alloc = rt.alloc();
    for call in 1..=4 {
        for kind in KINDS {
            let mut medium = with_failing_images(alloc, call, kind)?;
            puts_in(&rt, &mut medium, call, "NEW", New::Tape, call == 4);
            let mut medium = with_failing_file(alloc, call, kind)?;
            puts_in(&rt, &mut medium, call, "NEW", New::Tape, false);
        }
    }
    let mut medium = with_failing_file(alloc, 0, ErrorKind::Other)?;
    inserts(&rt, &mut medium, 1, "NEW", New::No, Ok(Inserted::NoSuch), 0);
    inserts(
        &rt,
        &mut medium,
        2,
        "NEW",
        New::Disc,
        Ok(Inserted::Tape),
        2464,
    );
    let Some(file) = medium.file() else {
        assert!(rt; false, "a file is in the drive");
        return Ok(());
    };
    assert!(rt;
        same(file.kept().len(), 630_784),
        "the length of a new disc"
    );
    assert!(rt; file.kept().iter().all(|byte| *byte == 0), "its bytes");
    Ok(())
}

/// An image that may not be written is opened only to be read; so is each image in a drive that only reads.
#[test]
fn an_image_that_is_read_alone(rt: HostRuntime) -> Result<(), Fail> {
    let alloc = rt.alloc();
    for (kind, is_ok) in [
        (ErrorKind::PermissionDenied, true),
        (ErrorKind::ReadOnlyFilesystem, true),
        (ErrorKind::Other, false),
    ] {
        let mut medium = with_failing_images(alloc, 2, kind)?;
        puts_in(&rt, &mut medium, 2, "TAPE", New::No, is_ok);
        if is_ok {
            read_only(&rt, &mut medium);
        }
    }
    let mut medium = FileMedium::to_read(images(alloc, Vec::new(alloc), Vec::new(alloc))?);
    inserts(&rt, &mut medium, 1, "NEW", New::Tape, Err(Failed), 0);
    inserts(&rt, &mut medium, 2, "NEW", New::No, Ok(Inserted::NoSuch), 0);
    inserts(
        &rt,
        &mut medium,
        3,
        "TAPE",
        New::Disc,
        Ok(Inserted::Tape),
        512,
    );
    read_only(&rt, &mut medium);
    Ok(())
}

fn read_only<A: Opening>(rt: &impl Abort, medium: &mut FileMedium<MemoryFile, MemoryImages, A>) {
    if medium.size() != 512 {
        return;
    }
    assert!(rt; same(reads_as(medium, 1, 5), Some(true)), "a read");
    writes(rt, medium, 1, 7, Err(Failed));
    assert!(rt;
        same(reads_as(medium, 1, 5), Some(true)),
        "a read after a write"
    );
    assert!(rt; is_on_disk(medium, 1, 5), "the disk");
}

/// What was on the disk before each sync, and what is on it after the last.
#[test]
fn each_moment_of_the_disk(rt: HostRuntime) -> Result<(), Fail> {
    let alloc = rt.alloc();
    let mut medium = with_failing_file(alloc, 0, ErrorKind::Other)?;
    inserts(
        &rt,
        &mut medium,
        1,
        "TAPE",
        New::No,
        Ok(Inserted::Tape),
        512,
    );
    writes(&rt, &mut medium, 1, 7, Ok(()));
    writes(&rt, &mut medium, 2, 8, Ok(()));
    let Some(file) = medium.file() else {
        assert!(rt; false, "a file is in the drive");
        return Ok(());
    };
    let mut want = vec![in alloc; 5; IMAGE_BYTES]?;
    assert!(rt; same(file.past().len(), 2), "two syncs");
    for (k, past) in file.past().iter().enumerate() {
        assert!(rt; same_bytes(past, &want), "before sync {k}");
        fill(&mut want, 1, 7);
    }
    want.resize(3 * RECORD, 0)?;
    fill(&mut want, 2, 8);
    assert!(rt; same_bytes(file.kept(), &want), "after the last sync");
    assert!(rt; same(file.calls(), 12), "the calls");
    Ok(())
}
