ghost use Rattle.std.specs.Prelude.{◌≡◌, ◌<◌, ◌≤◌, ◌^◌, ℕ, List, true, [], length, map};
ghost use Rattle.std.specs.Prelude.{filter, vec_capacity, option_map, Some, IfOk};
ghost use Rattle.std.specs.Prelude.{IfErr, IfSome};
ghost use Rattle.std.specs.Result.{result_err};
ghost use Rattle.std.specs.List.{position};
ghost use Rattle.lif_model.specs.Pairs.{all_pairs};
ghost use Rattle.lif_model.specs.Header.{header_of, is_readable};
ghost use Rattle.lif_model.specs.Legal.{is_live, is_live_named, slot_named, have_other_names};
ghost use Rattle.lif_model.specs.Legal.{is_legal_with};
ghost use Rattle.lif_model.specs.Volume.{Volume, is_redo_entry, is_redo_file, is_adopted};
ghost use Rattle.lif_model.specs.Apply.{Fetch, refusal_of};
ghost use Rattle.lif_dir.specs.Entries.{name_bytes, entry_bytes, slot_bytes};
ghost use Rattle.lif_plan.specs.Refusals.{IsAmong, keeps_behind};
ghost use Rattle.lif_plan.specs.Entries.{IsFileOf};
ghost use Rattle.lif_model.specs.declared.refusal.Refusal.TheVariants as refusal;
ghost use Rattle.std.specs.Prelude.{◌∷◌};

use crate::extents::{Extent, follow_each_other, gather, lie_within, sort_by_start};
use lif_dir::{FileEntry, Name, SlotTable, Steps};
use lif_header::Header;
use lif_model::{REDO_KIND, REDO_NAME, Refusal, Version};
use std::alloc::{AllocError, Global};
use std::marker::Brand;
use std::sync::ledger::{Blank, Ledger};

/// The slots of a directory in memory, with the memory in which its extents are sorted.
#[derive(Drop)]
pub struct Directory {
    pub table: SlotTable,
    extents: Vec<Extent>,
    ghost memory: { table.room ≤ vec_capacity extents },
}

impl Directory {
    ghost use Rattle.std.specs.Prelude.{◌*◌, ◌<◌, ◌^◌};

    /// No slots yet, with memory for this many.
    pub fn new(alloc: Global, room: usize) -> Result<Directory, AllocError>
        requires { room < 2 ^ 32 }
        ensures { IfOk result (λ directory.
            directory.table ≡ record { slots = []; room = room }) }
    {
        Ok(Directory {
            table: SlotTable::new(alloc, room)?,
            extents: Vec::with_capacity(alloc, room)?,
        })
    }

    /// Whether the slots are a legal directory with this header on a medium of `size` records.
    pub fn is_legal(&mut self, header: &Header, size: u16) -> bool
        ensures legal { (bytes : List ℕ) → header.now ≡ header_of bytes
            → is_readable size bytes ≡ true
            → result ≡ is_legal_with size bytes (map slot_bytes self.old.table.slots) }
        ensures table { self.new.table ≡ self.old.table }
    {
        gather(&self.table, &mut self.extents);
        if !lie_within(&self.extents, header.end(), size) {
            return false;
        }
        sort_by_start(&mut self.extents);
        follow_each_other(&self.extents) && self.table.distinct()
    }

    /// The entry of the live slot of this name, or `None` where no live slot has it. Live names are
    /// distinct.
    pub fn entry_named(&self, name: &Name) -> Option<FileEntry>
        requires distinct { all_pairs have_other_names
            (filter is_live (map slot_bytes self.now.table.slots)) ≡ true }
        ensures { option_map entry_bytes result
            ≡ slot_named (map slot_bytes self.now.table.slots) (name_bytes name.now) }
    {
        let place = place_of::<Brand>(&self.table, name, Blank::new(1))?;
        Some(*self.table.entry(place))
    }

    /// The file of this name on a medium of `size` records, or why it is not fetched: on an adopted
    /// volume the redo file is protected, and else a live slot has to have the name. Live names are
    /// distinct.
    pub fn file_named(&self, name: &Name, size: u16) -> Result<File, Refusal>
        requires distinct { all_pairs have_other_names
            (filter is_live (map slot_bytes self.now.table.slots)) ≡ true }
        ensures refusal { (v : Volume) → v.slots ≡ map slot_bytes self.now.table.slots
            → refusal_of size (Fetch (name_bytes name.now)) (Some v)
            ≡ result_err result }
        ensures slot { IfOk result (λ file. (slot : List ℕ)
            × (slot_named (map slot_bytes self.now.table.slots) (name_bytes name.now)
            ≡ Some slot)
            × IsFileOf slot file) }
        ensures only { IfErr result (IsAmong (refusal.Protected ∷ refusal.NoFile ∷ [])) }
        ensures known { IfErr result (λ refusal. keeps_behind refusal ≡ true) }
    {
        if name.bytes() == *REDO_NAME && self.is_adopted(size) {
            return Err(Refusal::Protected);
        }
        match self.entry_named(name) {
            Some(entry) => Ok(File::of(entry)),
            None => Err(Refusal::NoFile),
        }
    }

    /// Whether one of the slots is that of the redo file of a medium of `size` records. Live names
    /// are distinct.
    pub fn is_adopted(&self, size: u16) -> bool
        requires distinct { all_pairs have_other_names
            (filter is_live (map slot_bytes self.now.table.slots)) ≡ true }
        ensures { result ≡ is_adopted size (map slot_bytes self.now.table.slots) }
    {
        let Some(name) = Name::of(REDO_NAME) else {
            unreachable!()
        };
        match self.entry_named(&name) {
            Some(entry) => is_redo_file(entry, size),
            None => false,
        }
    }
}

/// What `fetch` takes of an entry.
#[derive(Clone, Copy, Debug, Drop)]
pub struct File {
    /// The type.
    pub kind: u16,
    /// The first record.
    pub first: u32,
    /// How many records there are.
    pub count: u32,
    /// The implementation field.
    pub implementation: [u8; 4],
}

impl File {
    fn of(entry: FileEntry) -> File
        ensures { IsFileOf (entry_bytes entry) result }
    {
        let implementation = entry.implementation;
        File {
            kind: entry.kind,
            first: entry.start,
            count: entry.length,
            implementation,
        }
    }
}

/// The place of the live slot of this name, with the comparisons of names counted on a new ledger.
pub fn place_of<L: Ledger>(table: &SlotTable, name: &Name, blank: Blank) -> Option<usize>
    requires name { blank.name ≡ L.name }
    requires parts { blank.parts ≡ L.parts }
    requires some { 0 < blank.parts }
    requires distinct { all_pairs have_other_names
        (filter is_live (map slot_bytes table.now.slots)) ≡ true }
    ensures place { result
        ≡ position (is_live_named (name_bytes name.now)) (map slot_bytes table.now.slots) }
    ensures within { IfSome result (λ place. place < length table.now.slots) }
{
    let mut steps = Steps::<L>::new(blank);
    let place = table.find(name, &mut steps)?;
    Some(place as usize)
}

/// Whether the entry is that of the redo file of either version.
pub fn is_redo_file(entry: FileEntry, size: u16) -> bool
    ensures { result ≡ is_redo_file size (entry_bytes entry) }
{
    is_redo_entry(entry, size, Version::One) || is_redo_entry(entry, size, Version::Two)
}

/// Whether the entry is that of the redo file of this version.
pub fn is_redo_entry(entry: FileEntry, size: u16, version: Version) -> bool
    ensures { result ≡ is_redo_entry size version (entry_bytes entry) }
{
    entry.name.bytes() == *REDO_NAME
        && entry.kind == REDO_KIND
        && entry.start == u32::from(version.start(size))
        && entry.length == u32::from(version.length())
}
