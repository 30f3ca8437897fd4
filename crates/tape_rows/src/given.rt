//! A volume whose slots and files a test gives.
ghost use Rattle.std.specs.Prelude.{◌≡◌, true};
ghost use Rattle.lif_dir.specs.Entries.{is_entry};

use il_script::{Code, Reply};
use lif_dir::{FileEntry, Name, Slot, SlotTable};
use lif_header::Header;
use std::process::Abort;
use std::test::Fail;
use tape_volumes::{Change, FileRead, Volumes};

/// The bytes of each file.
pub(crate) const CONTENT: &[u8] = b"the bytes of a file";

/// How the volume of a test answers.
#[derive(Clone, Copy)]
pub(crate) enum Answer {
    /// It lists its directory.
    Listed,
    /// It refuses the command.
    Refused(Code),
    /// The medium fails.
    Fault,
}

/// A volume whose directory is in memory. Contracts cannot see its tape. All files have the same bytes.
#[derive(Drop)]
pub(crate) struct Given {
    header: Header,
    slots: SlotTable,
    answer: Answer,
    /// The name of a file that cannot be read, since the medium fails.
    pub(crate) faulty: Option<Name>,
    /// How many changes were asked for.
    changes: u64,
    /// The change of this number, counted from 1, is answered so.
    pub(crate) other: Option<(u64, Answer)>,
    is_listed: bool,
    faults: u64,
    /// The type and the field of the file that was read last.
    kind: u16,
    field: [u8; 4],
}

/// What is found under a name.
enum Found {
    /// A file with this type and this field.
    File(u16, [u8; 4]),
    /// No file.
    Nothing,
    /// A file that cannot be read.
    Faulty,
}

impl Given {
    /// Finds the file of that name.
    fn find(&self, name: &Name) -> Found {
        for place in 0..self.slots.len() {
            if let Slot::Live(entry) = self.slots.get(place) {
                if entry.name == *name {
                    return Found::File(entry.kind, entry.implementation);
                }
            }
        }
        Found::Nothing
    }

    /// Finds the file of that name, unless it cannot be read.
    fn reach(&self, name: &Name) -> Found {
        if self.faulty == Some(*name) {
            Found::Faulty
        } else {
            self.find(name)
        }
    }

    /// How the change that was asked for last is answered.
    fn next_answer(&self) -> Answer {
        match self.other {
            Some((number, answer)) if number == self.changes => answer,
            _ => self.answer,
        }
    }
}

impl Volumes for Given {
    ghost use Rattle.std.proofs.Common.{rules};
    ghost use Rattle.std.specs.Prelude.{None, codes};

    ghost seen = { λ v. record {
      valid = Unit {0};
      mounted = record { records = 512; tape = None; kept = v.is_listed; faults = v.faults };
      inside = None;
      images = None;
      moment = 0;
      left_since = λ m t. Unit {0};
    } };

    ghost file = { λ v. record { kind = v.kind; field = v.field; bytes = codes "the bytes of a file" } };

    fn list(&mut self) -> Reply {
        match self.answer {
            Answer::Listed => {
                self.is_listed = true;
                Reply::Ok
            }
            Answer::Refused(code) => Reply::No(code),
            Answer::Fault => {
                self.faults = self.faults.saturating_add(1);
                Reply::FaultMedium
            }
        }
    }

    fn change(&mut self, _: &Change<'_>) -> Reply {
        self.changes = self.changes.saturating_add(1);
        let usual = self.answer;
        self.answer = self.next_answer();
        let reply = self.list();
        self.answer = usual;
        reply
    }

    fn fetch(&mut self, name: &Name) -> Reply {
        match self.reach(name) {
            Found::File(kind, field) => {
                self.kind = kind;
                self.field = field;
                self.is_listed = true;
                Reply::Ok
            }
            Found::Nothing => Reply::No(Code::NoFile),
            Found::Faulty => {
                self.faults = self.faults.saturating_add(1);
                Reply::FaultMedium
            }
        }
    }

    fn file(&self) -> FileRead<'_> {
        FileRead {
            kind: self.kind,
            field: self.field,
            bytes: CONTENT,
        }
    }

    fn size(&self) -> u16 {
        512
    }

    fn directory(&self) -> Option<(Header, &SlotTable)> {
        if self.is_listed {
            Some((self.header, &self.slots))
        } else {
            None
        }
    }

    ghost is_mounted = { λ v valid. Prim.search rules };
}

/// A file as a test gives it: its name, type, first record, number of records, and field.
type Row = (&'static str, u16, u32, u32, [u8; 4]);

/// Two files, a purged one, and the redo file.
const ROWS_GIVEN: [Row; 4] = [
    ("STARTUP", 0xE214, 4, 4, [0x12, 0x06, 0, 0]),
    ("OLD", 0, 8, 2, [0; 4]),
    ("A,B", 0xE0D0, 10, 4, [0, 0x80, 0, 0]),
    ("REDOFILE", 0xE0D0, 508, 4, [0; 4]),
];

/// The slot of a file, with a date.
fn slot_of(rt: &impl Abort, row: &Row) -> Slot
    ensures { is_entry result ≡ true }
{
    let (name, kind, start, length, implementation) = *row;
    assert!(rt; kind != 0xFFFF);
    Slot::holding(FileEntry {
        name: Name::of(name.as_bytes()).expect(rt, "a name"),
        kind,
        start,
        length,
        date: [0x85, 0x11, 0x23, 0x14, 0x30, 0],
        volume: 0x8001,
        implementation,
    })
}

/// A volume with these files.
pub(crate) fn volume(rt: &(impl Abort + AllocGlobal), answer: Answer) -> Result<Given, Fail> {
    let mut slots = SlotTable::new(rt.alloc(), ROWS_GIVEN.len())?;
    for row in &ROWS_GIVEN {
        assert!(rt; slots.len() < slots.room());
        slots.push(slot_of(rt, row));
    }
    let header = Header::read(&Header::fresh(b"HP71  ", 2, 512), 512).expect(rt, "a header");
    Ok(Given {
        header,
        slots,
        answer,
        faulty: None,
        changes: 0,
        other: None,
        is_listed: false,
        faults: 0,
        kind: 0,
        field: [0; 4],
    })
}
