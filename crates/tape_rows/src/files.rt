//! The jobs `get` and `raw` over a volume whose file the test gives.
ghost use Rattle.std.specs.Prelude.{◌≤◌, vec_len};

use crate::given::{Answer, Given, volume};
use il_ports::MemorySink;
use il_same::same_bytes;
use il_script::{Code, Reply};
use lif_dir::{Name, SlotTable};
use lif_header::Header;
use std::process::Abort;
use std::test::Fail;
use tape_jobs::{Part, Reading, page_for_file};
use tape_volumes::{Change, FileRead, VolumeJob, Volumes, Went};

/// A volume whose files have this type, this field and these bytes.
#[derive(Drop)]
struct OneFile {
    given: Given,
    kind: u16,
    field: [u8; 4],
    bytes: Vec<u8>,
    pub ghost small: { vec_len bytes ≤ 630784 },
}

impl Volumes for OneFile {
    ghost use Rattle.std.proofs.Common.{rules};

    ghost seen = { λ v. ⟦<Given as Volumes>⟧.seen v.given };

    ghost file = { λ v. record { kind = v.kind; field = v.field; bytes = v.bytes.items } };

    fn list(&mut self) -> Reply {
        self.given.list()
    }

    fn fetch(&mut self, name: &Name) -> Reply {
        self.given.fetch(name)
    }

    fn change(&mut self, change: &Change<'_>) -> Reply {
        self.given.change(change)
    }

    fn file(&self) -> FileRead<'_> {
        let field = self.field;
        FileRead {
            kind: self.kind,
            field,
            bytes: &self.bytes,
        }
    }

    fn size(&self) -> u16 {
        self.given.size()
    }

    fn directory(&self) -> Option<(Header, &SlotTable)> {
        self.given.directory()
    }

    ghost is_mounted = { λ v valid. Prim.search rules };
}

/// A file as a test gives it: its type, its field, and its bytes.
type File = (u16, [u8; 4], &'static [u8]);

/// Two lines, the first with a filler, the mark that ends them, and bytes after it.
const TEXT: File = (1, [0; 4], b"\x00\x05HELLO\x00\x00\x02HI\xff\xff\x00\x00");

/// A line that the bytes end within.
const CUT_TEXT: File = (1, [0; 4], b"\x00\x05HEL");

/// A program of five half bytes.
const PROGRAM: File = (0xE214, [5, 0, 0, 0], b"ABCDEF");

/// A program of 200 bytes in a record.
const WHOLE_PROGRAM: File = (0xE080, [0, 200, 0, 0], &[7; 256]);

/// A type whose field tells no length.
const UNKNOWN: File = (0x1234, [5, 0, 0, 0], b"ABCDEF");

/// Reads a file of this name and with this content, and compares how the job went and what was written. There are the
/// files STARTUP, and FAULTY, which the medium cannot read.
fn reads(
    rt: &(impl Abort + AllocGlobal),
    name: &str,
    part: Part,
    file: File,
    room: usize,
    went: Went,
    text: &[u8],
) -> Result<(), Fail> {
    let (kind, field, bytes) = file;
    let mut given = volume(rt, Answer::Listed)?;
    given.faulty = Name::of(b"FAULTY");
    assert!(rt; bytes.len() <= 630_784);
    let bytes = Vec::from_slice(rt.alloc(), bytes)?;
    let mut volume = OneFile {
        given,
        kind,
        field,
        bytes,
    };
    let name = Name::of(name.as_bytes()).expect(rt, "a name");
    let mut job = Reading {
        part,
        name: &name,
        page: page_for_file(rt.alloc())?,
        out: MemorySink::new(rt.alloc(), room, Vec::new(rt.alloc()))?,
    };
    assert!(rt; job.work(rt.alloc(), &mut volume) == went);
    assert!(rt; same_bytes(job.out.written(), text));
    Ok(())
}

#[test]
fn the_lines_of_a_text_are_written(rt: HostRuntime) -> Result<(), Fail> {
    reads(
        &rt,
        "STARTUP",
        Part::Lines,
        TEXT,
        100,
        Went::Done,
        b"HELLO\nHI\n",
    )
}

#[test]
fn no_lines_are_written_of_what_is_no_text(rt: HostRuntime) -> Result<(), Fail> {
    let no_text = Went::Refused(Code::NotText);
    reads(&rt, "STARTUP", Part::Lines, CUT_TEXT, 100, no_text, b"")?;
    reads(&rt, "STARTUP", Part::Lines, PROGRAM, 100, no_text, b"")
}

#[test]
fn as_many_bytes_are_written_as_a_file_tells(rt: HostRuntime) -> Result<(), Fail> {
    reads(
        &rt,
        "STARTUP",
        Part::Bytes,
        WHOLE_PROGRAM,
        300,
        Went::Done,
        &[7; 200],
    )?;
    let text = b"\x00\x05HELLO\x00\x00\x02HI\xff\xff";
    reads(&rt, "STARTUP", Part::Bytes, TEXT, 100, Went::Done, text)?;
    reads(&rt, "STARTUP", Part::Bytes, UNKNOWN, 100, Went::NoSize, b"")?;
    reads(
        &rt,
        "STARTUP",
        Part::Bytes,
        CUT_TEXT,
        100,
        Went::NoSize,
        b"",
    )
}

#[test]
fn a_number_that_does_not_end_in_the_last_record_tells_nothing(
    rt: HostRuntime,
) -> Result<(), Fail> {
    reads(&rt, "STARTUP", Part::Bytes, PROGRAM, 100, Went::NoSize, b"")
}

#[test]
fn a_file_that_is_not_read_writes_nothing(rt: HostRuntime) -> Result<(), Fail> {
    reads(
        &rt,
        "NONE",
        Part::Lines,
        TEXT,
        100,
        Went::Refused(Code::NoFile),
        b"",
    )?;
    reads(&rt, "FAULTY", Part::Bytes, TEXT, 100, Went::Fault, b"")
}

#[test]
fn lost_output_of_a_file_is_told(rt: HostRuntime) -> Result<(), Fail> {
    reads(&rt, "STARTUP", Part::Lines, TEXT, 3, Went::Unwritten, b"")
}
