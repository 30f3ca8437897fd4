ghost use Rattle.std.specs.Prelude.{◌≡◌, ◌≢◌, ◌<◌, ◌≤◌, ◌+◌, ◌^◌, ◌++◌, ◌&&◌, ◌↔◌, nat_lt, true, false, length};
ghost use Rattle.std.specs.Prelude.{take, IsSome, IfSome};
ghost use Rattle.std.specs.Ordering.{nat_cmp};
ghost use Rattle.std.specs.Cmp.Lexicographic.{slice_cmp};
ghost use Rattle.lif_model.specs.Directory.{is_end, name_of, start_of};
ghost use Rattle.lif_model.specs.Made.{new_entry, with_name, with_type, with_extent};
ghost use Rattle.lif_model.specs.Legal.{is_live, is_live_named, has_records, end_of};
ghost use Rattle.lif_dir.specs.Entries.{spaced, name_bytes, entry_bytes, entry_from, slot_of, slot_from};
ghost use Rattle.lif_dir.specs.Entries.{slot_bytes, is_entry};

use lif_header::{bytes_at, four_at, two_at};
use std::cmp::Ordering;

/// The type of an entry that ends its directory.
const END: u16 = 0xFFFF;

/// The type of a purged file.
const PURGED: u16 = 0;

/// The volume word of a file on one volume.
const ONE_VOLUME: u16 = 0x8001;

/// The name of a file: ten bytes, those after the name being spaces.
#[derive(Clone, Copy, Debug, PartialEq, Eq)]
pub struct Name {
    bytes: [u8; 10],
}

/// An entry of a directory, by the LIF directory format.
#[derive(Clone, Copy, Debug, PartialEq, Eq)]
pub struct FileEntry {
    /// The name.
    pub name: Name,
    /// The type: 0 is a purged file, FFFF hex ends the directory.
    pub kind: u16,
    /// The first record of the file.
    pub start: u32,
    /// How many records the file has.
    pub length: u32,
    /// The date and time, two decimal digits a byte.
    pub date: [u8; 6],
    /// The volume word: 8001 hex for a file on one volume.
    pub volume: u16,
    /// The implementation field, whose meaning depends on the type.
    pub implementation: [u8; 4],
}

/// What 32 bytes of a directory tell of.
#[derive(Clone, Copy, Debug, PartialEq, Eq)]
pub enum Slot {
    /// A file.
    Live(FileEntry),
    /// A file that was purged. Its numbers may be anything.
    Purged(FileEntry),
    /// The end of the directory.
    End,
}

impl Name {
    ghost use Rattle.lif_dir.specs.Names.{name_of_bytes};

    /// The name of these bytes, filled up with spaces. `None` where there are no bytes or more than
    /// ten.
    pub fn of(bytes: &[u8]) -> Option<Name>
        ensures fits { IsSome result ↔ ((1 ≤ length bytes.now) × (length bytes.now ≤ 10)) }
        ensures name { IfSome result (λ name. name_bytes name ≡ spaced bytes.now) }
        ensures value { result ≡ name_of_bytes bytes.now }
    {
        if bytes.is_empty() || bytes.len() > 10 {
            return None;
        }
        let mut name = [b' '; 10];
        name[..bytes.len()].copy_from_slice(bytes);
        Some(Name { bytes: name })
    }

    /// The ten bytes of the name, with its spaces.
    pub fn bytes(&self) -> [u8; 10]
        ensures { result ≡ name_bytes self.now }
    {
        self.bytes
    }

    /// Which of two names stands first, byte by byte.
    pub fn order(&self, other: &Name) -> Ordering
        ensures { result ≡ slice_cmp nat_cmp (name_bytes self.now) (name_bytes other.now) }
    {
        self.bytes.cmp(&other.bytes)
    }
}

/// Writes `part` into an entry, from place `at` on.
fn put(entry: &mut [u8; 32], at: usize, part: &[u8])
    requires { at + length part.now ≤ 32 }
    ensures { take (at + length part.now) entry.new ≡ take at entry.old ++ part.now }
{
    entry[at..at + part.len()].copy_from_slice(part);
}

impl FileEntry {
    #[tactic(auto, unfolding(lif_model::specs::Directory::name_of, lif_model::specs::Directory::date_of, lif_model::specs::Directory::implementation_of))]
    fn of(bytes: &[u8; 32]) -> FileEntry
        ensures entry { result ≡ entry_from bytes.now }
        ensures bytes { entry_bytes result ≡ bytes.now }
    {
        FileEntry {
            name: Name {
                bytes: bytes_at(bytes, 0),
            },
            kind: two_at(bytes, 10),
            start: four_at(bytes, 12),
            length: four_at(bytes, 16),
            date: bytes_at(bytes, 20),
            volume: two_at(bytes, 26),
            implementation: bytes_at(bytes, 28),
        }
    }

    /// The 32 bytes of the entry. Where its type does not end a directory, they tell of this entry.
    pub fn bytes(&self) -> [u8; 32]
        ensures bytes { result ≡ entry_bytes self.now }
        ensures slot { self.now.kind ≢ 0xFFFF → slot_from result ≡ slot_of self.now }
    {
        let mut bytes = [0; 32];
        put(&mut bytes, 0, &self.name.bytes);
        put(&mut bytes, 10, &self.kind.to_be_bytes());
        put(&mut bytes, 12, &self.start.to_be_bytes());
        put(&mut bytes, 16, &self.length.to_be_bytes());
        put(&mut bytes, 20, &self.date);
        put(&mut bytes, 26, &self.volume.to_be_bytes());
        put(&mut bytes, 28, &self.implementation);
        bytes
    }

    /// The entry of a new file on one volume, without a date.
    pub fn new(name: Name, kind: u16, start: u32, length: u32, implementation: [u8; 4]) -> FileEntry
        ensures { entry_bytes result
            ≡ new_entry (name_bytes name) kind start length implementation }
    {
        FileEntry {
            name,
            kind,
            start,
            length,
            date: [0; 6],
            volume: ONE_VOLUME,
            implementation,
        }
    }

    /// The entry under another name. All else stays.
    pub fn renamed(self, name: Name) -> FileEntry
        ensures { entry_bytes result ≡ with_name (name_bytes name) (entry_bytes self) }
    {
        FileEntry { name, ..self }
    }

    /// The entry of the file once it is purged. All else stays.
    pub fn purged(self) -> FileEntry
        ensures { entry_bytes result ≡ with_type 0 (entry_bytes self) }
    {
        FileEntry {
            kind: PURGED,
            ..self
        }
    }

    /// The entry at another extent, with an implementation field of its own. Its name, type, date
    /// and volume word stay.
    pub fn moved(self, start: u32, length: u32, implementation: [u8; 4]) -> FileEntry
        ensures { entry_bytes result
            ≡ with_extent start length implementation (entry_bytes self) }
    {
        FileEntry {
            start,
            length,
            implementation,
            ..self
        }
    }

    /// The name, as its bytes tell it.
    pub(crate) fn name(self) -> Name
        ensures { name_bytes result ≡ name_of (entry_bytes self) }
    {
        self.name
    }

    /// Whether the file is live: it has any type but 0.
    pub fn is_live(self) -> bool
        ensures { result ≡ is_live (entry_bytes self) }
    {
        self.kind != PURGED
    }

    /// Whether the file is live and has this name, with its spaces.
    pub fn is_live_named(self, name: &[u8; 10]) -> bool
        ensures { result ≡ is_live_named name.now (entry_bytes self) }
    {
        self.is_live() && self.name.bytes == *name
    }

    /// Whether the file has records.
    pub fn has_records(self) -> bool
        ensures { result ≡ has_records (entry_bytes self) }
    {
        self.length > 0
    }

    /// The first record after the file. A purged file may tell of more records than any medium
    /// has: nothing is lost of the sum.
    pub fn end(self) -> u64
        ensures end { result ≡ end_of (entry_bytes self) }
        ensures bound { result < 2 ^ 33 }
    {
        u64::from(self.start) + u64::from(self.length)
    }

    /// Whether the file has records, and the first of them lies below `limit`.
    pub fn begins_below(self, limit: u64) -> bool
        ensures { result
            ≡ (has_records (entry_bytes self) && nat_lt (start_of (entry_bytes self)) limit) }
    {
        self.length > 0 && u64::from(self.start) < limit
    }
}

impl Slot {
    /// The slot of this entry, live or purged, which does not end a directory.
    pub fn holding(entry: FileEntry) -> Slot
        requires { entry.kind ≢ 0xFFFF }
        ensures slot { result ≡ slot_of entry }
        ensures bytes { slot_bytes result ≡ entry_bytes entry }
        ensures told { slot_from (entry_bytes entry) ≡ result }
        ensures entry { is_entry result ≡ true }
    {
        match entry.kind {
            PURGED => Slot::Purged(entry),
            _ => Slot::Live(entry),
        }
    }

    /// What 32 bytes of a directory tell of: its end where the type is FFFF hex, a purged file
    /// where it is 0, and a live one otherwise.
    pub fn of(bytes: &[u8; 32]) -> Slot
        ensures slot { result ≡ slot_from bytes.now }
        ensures bytes { is_end bytes.now ≡ false → slot_bytes result ≡ bytes.now }
    {
        let entry = FileEntry::of(bytes);
        match entry.kind {
            END => Slot::End,
            _ => Slot::holding(entry),
        }
    }

    /// Whether the slot is that of a live file: one of any type but 0.
    pub fn is_live(&self) -> bool
        ensures { result ≡ is_live (slot_bytes self.now) }
    {
        match self {
            Slot::Live(entry) | Slot::Purged(entry) => entry.is_live(),
            Slot::End => false,
        }
    }
}
