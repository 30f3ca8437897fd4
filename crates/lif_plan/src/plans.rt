//! What the commands of the directory are to write, before they write it.
ghost use Rattle.std.specs.Prelude.{ℕ, ◌≡◌, ◌<◌, ◌≤◌, ◌+◌, ◌*◌, true, length, map, IfErr};
ghost use Rattle.std.specs.Prelude.{IfSome};
ghost use Rattle.std.specs.List.{position, list_any};
ghost use Rattle.lif_model.specs.Legal.{is_live_named};
ghost use Rattle.std.specs.Str.{bytes_eq};
ghost use Rattle.std.specs.Prelude.{◌≢◌, [], ◌∷◌};
ghost use Rattle.lif_model.specs.Volume.{redo_name, redo_entry};
ghost use Rattle.lif_model.specs.Apply.{Purge, Rename, Adopt, Upgrade};
ghost use Rattle.lif_dir.specs.Entries.{name_bytes, entry_bytes, slot_of, slot_from, slot_bytes};
ghost use Rattle.lif_dir.specs.Names.{made_name};
ghost use Rattle.lif_plan.specs.Directories.{IsLegalDirectory};
ghost use Rattle.lif_plan.specs.Refusals.{IsAmong};
ghost use Rattle.lif_dir.specs.Changes.{slots_with, FitsIn, IsToldBack};
ghost use Rattle.lif_plan.specs.Plans.{IsPlan, IsVersionOf, IsVersionOfEntry, reaches_past};
ghost use Rattle.lif_model.specs.declared.refusal.Refusal.TheVariants as refusal;

use crate::directory::{Directory, is_redo_entry, is_redo_file, place_of};
use crate::extents::occupies;
use lif_dir::{Change, FileEntry, Name, NewName, Slot};
use lif_header::Header;
use lif_model::{ENTRIES, REDO_KIND, REDO_NAME, Refusal, Version};
use std::marker::Brand;
use std::sync::ledger::Blank;

impl Directory {
    /// What `purge` is to write, or why it is refused.
    pub fn purge(&self, name: &Name, header: &Header, size: u16) -> Result<Option<Change>, Refusal>
        requires legal { IsLegalDirectory size header.now
            (map slot_bytes self.now.table.slots) }
        ensures plan { IsPlan size (Purge (name_bytes name.now)) header.now
            (map slot_bytes self.now.table.slots) result }
        ensures only { IfErr result
            (IsAmong (refusal.NoRedo ∷ refusal.Protected ∷ refusal.NoFile ∷ [])) }
    {
        let Some(version) = self.redo_version(size) else {
            return Err(Refusal::NoRedo);
        };
        if is_redo_name(name) {
            return Err(Refusal::Protected);
        }
        let Some(slot) = self.place_named(name) else {
            return Err(Refusal::NoFile);
        };
        Ok(Some(Change {
            version,
            slot,
            entry: self.table.entry(slot).purged(),
            next: None,
            ended: false,
        }))
    }

    /// What `rename` is to write, nothing where both names are one, or why it is refused.
    pub fn rename(
        &self,
        old: &Name,
        new: &NewName,
        header: &Header,
        size: u16,
    ) -> Result<Option<Change>, Refusal>
        requires legal { IsLegalDirectory size header.now
            (map slot_bytes self.now.table.slots) }
        ensures plan { IsPlan size
            (Rename (name_bytes old.now) (name_bytes (made_name new.now))) header.now
            (map slot_bytes self.now.table.slots) result }
        ensures only { IfErr result (IsAmong (refusal.NoRedo ∷ refusal.Protected
            ∷ refusal.NoFile ∷ refusal.Exists ∷ [])) }
    {
        let Some(version) = self.redo_version(size) else {
            return Err(Refusal::NoRedo);
        };
        let later = new.name();
        if is_redo_name(old) || is_redo_name(&later) {
            return Err(Refusal::Protected);
        }
        let Some(slot) = self.place_named(old) else {
            return Err(Refusal::NoFile);
        };
        if old.bytes() == later.bytes() {
            return Ok(None);
        }
        if self.place_named(&later).is_some() {
            return Err(Refusal::Exists);
        }
        Ok(Some(Change {
            version,
            slot,
            entry: self.table.entry(slot).renamed(later),
            next: None,
            ended: false,
        }))
    }

    /// What `adopt` is to write, nothing where there is a redo file, or why it is refused.
    pub fn adopt(&self, header: &Header, size: u16) -> Result<Option<Change>, Refusal>
        requires legal { IsLegalDirectory size header.now
            (map slot_bytes self.now.table.slots) }
        ensures plan { IsPlan size Adopt header.now
            (map slot_bytes self.now.table.slots) result }
        ensures only { IfErr result (IsAmong (refusal.Exists ∷ refusal.NoSlot
            ∷ refusal.InUse ∷ [])) }
    {
        if self.redo_version(size).is_some() {
            return Ok(None);
        }
        if self.place_named(&redo_name()).is_some() {
            return Err(Refusal::Exists);
        }
        let slot = self.table.len();
        let capacity = ENTRIES * usize::from(header.length());
        if capacity <= slot {
            return Err(Refusal::NoSlot);
        }
        if self.runs_past(Version::One.start(size), size) {
            return Err(Refusal::InUse);
        }
        Ok(Some(Change {
            version: Version::One,
            slot,
            entry: redo_entry(Version::One, size),
            next: None,
            ended: slot + 1 < capacity,
        }))
    }
}

impl Directory {
    ghost use Rattle.lif_model.specs.Pairs.{all_pairs};
    ghost use Rattle.lif_model.specs.Legal.{is_live, have_other_names};
    ghost use Rattle.std.specs.Prelude.{filter, ◌&&◌};
    ghost use Rattle.lif_model.specs.Volume.{Volume};
    ghost use Rattle.lif_model.specs.declared.version.Version.TheVariants.{One};
    ghost use Rattle.lif_model.specs.Apply.{lacks_redo, runs_past_gate};

    /// What `upgrade` is to write, nothing where the redo file is of version 2, or why it is
    /// refused.
    pub fn upgrade(&self, header: &Header, size: u16) -> Result<Option<Change>, Refusal>
        requires size { 37 < size }
        requires legal { IsLegalDirectory size header.now
            (map slot_bytes self.now.table.slots) }
        ensures plan { IsPlan size Upgrade header.now
            (map slot_bytes self.now.table.slots) result }
        ensures only { IfErr result (IsAmong (refusal.NoRedo ∷ refusal.InUse ∷ [])) }
    {
        match self.redo_version(size) {
            None => return Err(Refusal::NoRedo),
            Some(Version::Two) => return Ok(None),
            Some(Version::One) => {}
        }
        let start = Version::Two.start(size);
        if header.end() > start || self.runs_past(start, size) {
            return Err(Refusal::InUse);
        }
        let Some(slot) = self.place_named(&redo_name()) else {
            unreachable!()
        };
        let length = u32::from(Version::Two.length());
        Ok(Some(Change {
            version: Version::One,
            slot,
            entry: self
                .table
                .entry(slot)
                .moved(u32::from(start), length, [0; 4]),
            next: None,
            ended: false,
        }))
    }

    /// Whether no slot is that of a redo file, and a live file reaches into the records that one is
    /// to have: then `format` is refused. Live names are distinct.
    pub fn is_in_use(&self, size: u16) -> bool
        requires distinct { all_pairs have_other_names
            (filter is_live (map slot_bytes self.now.table.slots)) ≡ true }
        ensures { (v : Volume) → v.slots ≡ map slot_bytes self.now.table.slots
            → result ≡ (lacks_redo size v && runs_past_gate size v) }
    {
        self.redo_version(size).is_none() && self.runs_past(Version::One.start(size), size)
    }

    /// Makes the slots in memory those of a new volume on a medium of `size` records: that of the
    /// redo file alone.
    pub fn renew(&mut self, size: u16)
        requires { 0 < self.old.table.room }
        ensures slots { self.new.table.slots ≡ slot_from (redo_entry One size) ∷ [] }
        ensures bytes { map slot_bytes self.new.table.slots ≡ redo_entry One size ∷ [] }
        ensures room { self.new.table.room ≡ self.old.table.room }
    {
        let entry = redo_entry(Version::One, size);
        self.table.clear();
        self.table.push(Slot::holding(entry));
    }

    /// The version of the redo file of a medium of `size` records, or `None` where no slot is that
    /// of a redo file. Live names are distinct.
    pub(crate) fn redo_version(&self, size: u16) -> Option<Version>
        requires distinct { all_pairs have_other_names
            (filter is_live (map slot_bytes self.now.table.slots)) ≡ true }
        ensures { IsVersionOf size (map slot_bytes self.now.table.slots) result }
    {
        let entry = self.entry_named(&redo_name())?;
        version_of(entry, size)
    }

    /// The place of the live slot of this name, or `None` where no live slot has it. Live names are
    /// distinct.
    pub(crate) fn place_named(&self, name: &Name) -> Option<usize>
        requires distinct { all_pairs have_other_names
            (filter is_live (map slot_bytes self.now.table.slots)) ≡ true }
        ensures place { result ≡ position (is_live_named (name_bytes name.now))
            (map slot_bytes self.now.table.slots) }
        ensures within { IfSome result (λ place. place < length self.now.table.slots) }
    {
        place_of::<Brand>(&self.table, name, Blank::new(1))
    }

    /// Whether the records of a live file, other than the redo file, reach past the beginning of
    /// record `limit`.
    fn runs_past(&self, limit: u16, size: u16) -> bool
        ensures { result ≡ list_any (reaches_past size limit)
            (map slot_bytes self.now.table.slots) }
    {
        for k in 0..self.table.len() {
            if reaches_past(*self.table.entry(k), limit, size) {
                return true;
            }
        }
        false
    }

    /// Changes the slots in memory.
    pub fn change(&mut self, change: &Change)
        requires { (capacity : ℕ) × (capacity ≤ self.old.table.room) × FitsIn capacity (length self.old.table.slots) change.now }
        ensures changed { self.new.table ≡ record self.old.table { slots = slots_with change.now self.old.table.slots } }
        ensures told { IsToldBack change.now }
    {
        self.table.change(change);
    }
}

/// Whether the file is live, not the redo file, and its records reach past the beginning of record
/// `limit`.
fn reaches_past(entry: FileEntry, limit: u16, size: u16) -> bool
    ensures { result ≡ reaches_past size limit (entry_bytes entry) }
{
    occupies(entry) && !is_redo_file(entry, size) && entry.end() > u64::from(limit)
}

/// The name of the redo file.
fn redo_name() -> Name
    ensures { name_bytes result ≡ redo_name }
{
    match Name::of(REDO_NAME) {
        Some(name) => name,
        None => unreachable!(),
    }
}

/// Whether the name is that of the redo file.
pub fn is_redo_name(name: &Name) -> bool
    ensures same { result ≡ bytes_eq (name_bytes name.now) redo_name }
    ensures wide { length (name_bytes name.now) ≡ 10 }
{
    name.bytes() == *REDO_NAME
}

/// The version of the redo file whose entry this is, or `None` where it is another.
fn version_of(entry: FileEntry, size: u16) -> Option<Version>
    ensures { IsVersionOfEntry size (entry_bytes entry) result }
{
    if is_redo_entry(entry, size, Version::One) {
        Some(Version::One)
    } else if is_redo_entry(entry, size, Version::Two) {
        Some(Version::Two)
    } else {
        None
    }
}

/// The entry of a redo file on a medium of `size` records.
pub fn redo_entry(version: Version, size: u16) -> FileEntry
    ensures entry { entry_bytes result ≡ redo_entry version size }
    ensures kind { result.kind ≢ 0xFFFF }
{
    FileEntry::new(
        redo_name(),
        REDO_KIND,
        u32::from(version.start(size)),
        u32::from(version.length()),
        [0; 4],
    )
}
