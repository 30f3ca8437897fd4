//! What `store` is to write of the directory, before it writes it.
ghost use Rattle.std.specs.Prelude.{◌≡◌, ◌≢◌, ◌<◌, ◌+◌, ◌*◌, ◌-◌, true, false, [], ◌∷◌, length, map, min, filter};
ghost use Rattle.std.specs.Prelude.{IfErr, IfOk, IsSome};
ghost use Rattle.lif_model.specs.Tape.{Tape, record_at};
ghost use Rattle.lif_model.specs.Header.{directory_start, capacity_of};
ghost use Rattle.lif_model.specs.Made.{file_length};
ghost use Rattle.lif_model.specs.Pairs.{all_pairs};
ghost use Rattle.lif_model.specs.Legal.{is_live, has_file, have_other_names};
ghost use Rattle.lif_model.specs.Volume.{Volume, redo_name};
ghost use Rattle.lif_model.specs.Apply.{Store, placed};
ghost use Rattle.lif_model.specs.Writing.{stored_writes};
ghost use Rattle.lif_dir.specs.Entries.{AreSlots, name_bytes, entry_bytes, slot_bytes};
ghost use Rattle.lif_dir.specs.Names.{made_name};
ghost use Rattle.lif_dir.specs.Changes.{FitsIn, change_writes, bytes_with};
ghost use Rattle.lif_plan.specs.Directories.{IsLegalDirectory};
ghost use Rattle.lif_plan.specs.Refusals.{IsAmong};
ghost use Rattle.lif_plan.specs.Plans.{IsNewName, MayTake, IsPlan};
ghost use Rattle.lif_plan.specs.Parts.{IsPartPlan};
ghost use Rattle.lif_model.specs.Parts as part;
ghost use Rattle.lif_model.specs.declared.refusal.Refusal.TheVariants as refusal;

use crate::choosing::{Choice, choose_beside};
use crate::directory::Directory;
use crate::plans::is_redo_name;
use lif_dir::{Change, FileEntry, Name, NewName};
use lif_header::Header;
use lif_model::{ENTRIES, RECORD, Refusal, Version};

/// How many records no medium has.
const TOO_MANY: usize = 65536;

impl Directory {
    /// The version of the redo file by which a new file of this name is stored on a medium of
    /// `size` records, or why it is refused, whatever its place. Live names are distinct.
    fn new_name(&self, name: &Name, size: u16) -> Result<Version, Refusal>
        requires distinct { all_pairs have_other_names
            (filter is_live (map slot_bytes self.now.table.slots)) ≡ true }
        ensures named { IsNewName size (name_bytes name.now)
            (map slot_bytes self.now.table.slots) result }
        ensures only { IfErr result
            (IsAmong (refusal.NoRedo ∷ refusal.Protected ∷ refusal.Exists ∷ [])) }
    {
        let Some(version) = self.redo_version(size) else {
            return Err(Refusal::NoRedo);
        };
        if is_redo_name(name) {
            return Err(Refusal::Protected);
        }
        if self.place_named(name).is_some() {
            return Err(Refusal::Exists);
        }
        Ok(version)
    }

    /// What `store` is to write of the directory for a new file of these bytes, or why it is refused. The type is
    /// none of a purged file and none that ends a directory.
    pub fn store(
        &self,
        name: &NewName,
        kind: u16,
        implementation: [u8; 4],
        bytes: &[u8],
        header: &Header,
        size: u16,
    ) -> Result<Option<Change>, Refusal>
        requires legal { IsLegalDirectory size header.now (map slot_bytes self.now.table.slots) }
        requires live { kind ≢ 0 }
        requires no_end { kind ≢ 0xFFFF }
        ensures plan { IsPlan size
            (Store (name_bytes (made_name name.now)) kind implementation bytes.now) header.now
            (map slot_bytes self.now.table.slots) result }
        ensures only { IfErr result (IsAmong (refusal.NoRedo ∷ refusal.Protected ∷ refusal.Exists
            ∷ refusal.NoSlot ∷ refusal.NoRoom ∷ [])) }
        ensures some { IfOk result (λ change. IsSome change) }
    {
        self.store_beside(name, kind, implementation, bytes, &[], header, size)
    }

    /// The same for a part of a batch, which may not take the slots that the batch has purged.
    pub(crate) fn store_beside(
        &self,
        name: &NewName,
        kind: u16,
        implementation: [u8; 4],
        bytes: &[u8],
        barred: &[usize],
        header: &Header,
        size: u16,
    ) -> Result<Option<Change>, Refusal>
        requires legal { IsLegalDirectory size header.now (map slot_bytes self.now.table.slots) }
        requires live { kind ≢ 0 }
        requires no_end { kind ≢ 0xFFFF }
        ensures plan { IsPartPlan size
            (part.Store (name_bytes (made_name name.now)) kind implementation bytes.now) barred.now header.now
            (map slot_bytes self.now.table.slots) result }
        ensures only { IfErr result (IsAmong (refusal.NoRedo ∷ refusal.Protected ∷ refusal.Exists
            ∷ refusal.NoSlot ∷ refusal.NoRoom ∷ [])) }
        ensures some { IfOk result (λ change. IsSome change) }
    {
        let version = self.new_name(&name.name(), size)?;
        let end = u32::from(header.end());
        let capacity = ENTRIES as u32 * u32::from(header.length());
        let count = records_for(bytes);
        match choose_beside(&self.table, barred, end, capacity, count, size) {
            Choice::At { slot, start } => {
                let entry = FileEntry::new(name.name(), kind, start, count, implementation);
                Ok(Some(self.place(version, slot as usize, entry, header)))
            }
            Choice::NoSlot => Err(Refusal::NoSlot),
            Choice::NoRoom => Err(Refusal::NoRoom),
        }
    }

    /// What a new entry in this slot changes: in that of a purged file nothing else, and where it takes the redo
    /// entry's own, which is the last, that entry comes after it, and an end after them if the directory has a slot
    /// more.
    fn place(&self, version: Version, slot: usize, entry: FileEntry, header: &Header) -> Change
        requires shape { AreSlots (8 * header.now.length) (map slot_bytes self.now.table.slots) }
        requires redo { has_file (map slot_bytes self.now.table.slots) redo_name ≡ true }
        requires slot { MayTake (8 * header.now.length)
            (map slot_bytes self.now.table.slots) slot }
        requires kind { entry.kind ≢ 0xFFFF }
        ensures version { result.version ≡ version }
        ensures slot { result.slot ≡ slot }
        ensures entry { result.entry ≡ entry }
        ensures fits { FitsIn (8 * header.now.length)
            (length (map slot_bytes self.now.table.slots)) result }
        ensures writes { (v : Volume) (u : Tape) → v.slots ≡ map slot_bytes self.now.table.slots
            → capacity_of v.header ≡ 8 * header.now.length
            → directory_start (record_at u 0) ≡ header.now.start
            → stored_writes v slot (entry_bytes entry) u ≡ change_writes header.now.start result u }
        ensures after { placed (map slot_bytes self.now.table.slots) slot (entry_bytes entry)
            ≡ bytes_with result (map slot_bytes self.now.table.slots) }
    {
        let own = *self.table.entry(slot);
        let capacity = ENTRIES * usize::from(header.length());
        Change {
            version,
            slot,
            entry,
            next: own.is_live().then_some(own),
            ended: own.is_live() && slot + 2 < capacity,
        }
    }
}

/// How many records a file takes; where they are more than any medium has, one more than that.
fn records_for(bytes: &[u8]) -> u32
    ensures { result ≡ min (file_length bytes.now) 65536 }
{
    bytes.len().div_ceil(RECORD).max(1).min(TOO_MANY) as u32
}
