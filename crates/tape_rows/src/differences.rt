//! The files of two images, collected and compared.
ghost use Rattle.std.specs.Prelude.{IfOk};

use crate::given::{Answer, CONTENT, Given, volume};
use il_script::Code;
use lif_dir::Name;
use std::alloc::{AllocError, Global};
use std::process::Abort;
use std::test::Fail;
use tape_jobs::{Collected, Collecting, difference_text};
use tape_volumes::{VolumeJob, Went};

/// A file as a test gives it: its name, type, field, and bytes.
type Row = (&'static str, u16, [u8; 4], &'static [u8]);

/// The files of the volume of a test.
const GIVEN: [Row; 2] = [
    ("STARTUP", 0xE214, [0x12, 0x06, 0, 0], CONTENT),
    ("A,B", 0xE0D0, [0, 0x80, 0, 0], CONTENT),
];

/// The files of some rows.
fn files_of(rt: &(impl Abort + AllocGlobal), rows: &[Row]) -> Result<Vec<Collected>, AllocError> {
    let mut files = Vec::new(rt.alloc());
    for row in rows {
        let (name, kind, field, bytes) = *row;
        files.push(Collected {
            name: Name::of(name.as_bytes()).expect(rt, "a name"),
            kind,
            field,
            bytes: bytes.to_vec(rt.alloc())?,
        })?;
    }
    Ok(files)
}

/// Collects the files of a volume, and says how the job went.
fn collect(alloc: Global, mut volume: Given) -> (Went, Vec<Collected>) {
    let mut job = Collecting {
        files: Vec::new(alloc),
    };
    let went = job.work(alloc, &mut volume);
    (went, job.files)
}

/// What is told of the files of two images.
fn told(
    rt: &(impl Abort + AllocGlobal),
    rows: &[Row],
    others: &[Row],
) -> Result<Vec<u8>, AllocError> {
    let files = files_of(rt, rows)?;
    let others = files_of(rt, others)?;
    difference_text(rt.alloc(), "ONE", "TWO", &files, &others)
}

#[test]
fn all_files_are_collected_except_the_redo_file(rt: HostRuntime) -> Result<(), Fail> {
    let given = volume(&rt, Answer::Listed)?;
    let (went, files) = collect(rt.alloc(), given);
    assert!(rt; went == Went::Done);
    assert!(rt; files.len() == GIVEN.len());
    let wanted = files_of(&rt, &GIVEN)?;
    let text = difference_text(rt.alloc(), "ONE", "TWO", &files, &wanted)?;
    assert!(rt; text.is_empty());
    Ok(())
}

#[test]
fn a_refusal_and_a_fault_end_it(rt: HostRuntime) -> Result<(), Fail> {
    let refused = volume(&rt, Answer::Refused(Code::NotLif))?;
    assert!(rt; collect(rt.alloc(), refused).0 == Went::Refused(Code::NotLif));
    let fault = volume(&rt, Answer::Fault)?;
    assert!(rt; collect(rt.alloc(), fault).0 == Went::Fault);
    let mut second = volume(&rt, Answer::Listed)?;
    second.faulty = Name::of(b"A,B");
    assert!(rt; collect(rt.alloc(), second).0 == Went::Fault);
    Ok(())
}

#[test]
fn differences_are_told_file_by_file(rt: HostRuntime) -> Result<(), Fail> {
    let one: [Row; 4] = [
        ("SAME", 1, [0; 4], b"bytes"),
        ("BYTES", 1, [0; 4], b"bytes"),
        ("FIELD", 1, [0; 4], b"bytes"),
        ("FIRST", 1, [0; 4], b"bytes"),
    ];
    let two: [Row; 4] = [
        ("LAST", 1, [0; 4], b"bytes"),
        ("FIELD", 1, [0, 0, 0, 1], b"other bytes"),
        ("BYTES", 1, [0; 4], b"other bytes"),
        ("SAME", 1, [0; 4], b"bytes"),
    ];
    let text = told(&rt, &one, &two)?;
    let wanted: &[u8] =
        b"BYTES: other bytes\nFIELD: other type or field\nFIRST: only on ONE\nLAST: only on TWO\n";
    assert!(rt; text.as_slice() == wanted);
    assert!(rt; told(&rt, &one, &one)?.is_empty());
    let alone: &[u8] = b"SAME: only on TWO\n";
    assert!(rt; told(&rt, &[], &one[..1])?.as_slice() == alone);
    Ok(())
}
