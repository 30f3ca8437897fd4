//! The end of the directory is brought forward to the slot after the last live one.
ghost use Rattle.std.specs.Prelude.{◌≡◌, ◌<◌, ◌≤◌, ◌+◌, ◌/◌, ◌%◌, ◌^◌, ℕ, [], ◌∷◌, length, take, Some, Ok, OnOk};
ghost use Rattle.lif_model.specs.Tape.{Tape};
ghost use Rattle.lif_model.specs.Header.{directory_start};
ghost use Rattle.lif_model.specs.Directory.{entry_at};
ghost use Rattle.lif_model.specs.Made.{with_type};
ghost use Rattle.lif_model.specs.Redo.{IsSettled};
ghost use Rattle.lif_model.specs.Volume.{Volume, volume_of};
ghost use Rattle.lif_model.specs.Writing.{with_entry, slot_record, entry_from};
ghost use Rattle.il_ports.specs.Stores.{IsReady, GoesOn, IsQuiet, RunLeaves};
ghost use Rattle.lif_commit.specs.Staged.{IsStagedAs};
ghost use Rattle.lif_pack.specs.Packers.{slots_held};
ghost use Rattle.lif_pack.specs.Steps.{MayPack, IsGap, TapeHasSlots};
ghost use Rattle.lif_pack.specs.Tasks.{KeepsFiles};

use crate::memory::Packer;
use crate::moving::put_entry;
use il_ports::{Records, Trouble};
use lif_header::bytes_at;
use lif_model::{ENTRIES, ENTRY, RECORD, Record, Version};
use lif_redo::commit;

impl Packer {
    /// Ends the directory, which begins at record `first`, after the first `count` slots: they are live, and all after
    /// them are purged. The slot after them becomes the end, by one commit, and keeps its other bytes; where there is
    /// none nothing is written. The slots in memory are those alone then.
    pub(crate) fn end_directory<R: Records>(
        &mut self,
        records: &mut R,
        first: u16,
        count: usize,
    ) -> Result<(), Trouble>
        requires may { (end redo : ℕ) × MayPack (R.view records.old).record_count first end redo (slots_held self.old) }
        requires gap { IsGap count (length (slots_held self.old)) (slots_held self.old) }
        requires ready { IsReady 9 (R.view records.old) }
        requires settled { (t : Tape) → (R.view records.old).tape ≡ Some t → IsSettled t }
        requires medium { (R.view records.old).record_count < 2 ^ 16 }
        ensures room { self.new.slots.room ≡ self.old.slots.room }
        ensures goes_on { GoesOn 9 (R.view records.old) (R.view records.new) result }
        ensures settled { OnOk result ((t : Tape) → (R.view records.new).tape ≡ Some t → IsSettled t) }
        ensures slots { OnOk result (slots_held self.new ≡ take count (slots_held self.old)) }
        ensures idle { count ≡ length (slots_held self.old) → (result ≡ Ok tt) × (records.new ≡ records.old) }
        ensures ends { OnOk result (TapeHasSlots (R.view records.old).record_count first (slots_held self.old)
            (take count (slots_held self.old)) (R.view records.old).tape (R.view records.new).tape) }
        // A stop at any moment leaves a tape with the same files.
        ensures stops { (t : Tape) (v : Volume) → (R.view records.old).tape ≡ Some t → volume_of t ≡ Some v
            → v.slots ≡ slots_held self.old → directory_start v.header ≡ first
            → RunLeaves (R.view records.old) (R.view records.new) (KeepsFiles (R.view records.old).record_count t) }
    {
        if count == self.slots.len() {
            return Ok(());
        }
        self.bring_end(records, first, count)?;
        commit(records, Version::Two, &self.changes)?;
        self.slots.truncate(count);
        Ok(())
    }

    /// Reads the record of the directory that has this slot, and sets it aside with the end in the slot, which keeps
    /// its other bytes.
    fn bring_end<R: Records>(
        &mut self,
        records: &mut R,
        first: u16,
        slot: usize,
    ) -> Result<(), Trouble>
        requires ready { IsReady 1 (R.view records.old) }
        requires within { slot_record first slot < (R.view records.old).record_count }
        requires small { (R.view records.old).record_count < 2 ^ 16 }
        ensures still { self.new.slots ≡ self.old.slots }
        ensures goes_on { GoesOn 1 (R.view records.old) (R.view records.new) result }
        ensures quiet { IsQuiet (R.view records.old) (R.view records.new) }
        ensures count { OnOk result (length self.new.changes.items ≡ 1) }
        ensures staged { OnOk result (IsStagedAs first (R.view records.old).tape
            (λ x. (slot, with_type 0xFFFF (entry_from x first slot)) ∷ []) self.new.changes.items) }
    {
        self.changes.clear();
        let number = first + (slot / ENTRIES) as u16;
        let mut bytes = [0; RECORD];
        records.read(number, &mut bytes)?;
        put_end(&mut bytes, slot % ENTRIES);
        self.changes.push((number, bytes)).unwrap();
        Ok(())
    }
}

/// Makes the entry in place `k` of a record of the directory the end, with its other bytes as they are.
#[tactic(auto, unfolding(lif_model::specs::Made::with_type, lif_model::specs::Directory::entry_at))]
fn put_end(bytes: &mut Record, k: usize)
    requires { k < 8 }
    ensures { bytes.new ≡ with_entry bytes.old k (with_type 0xFFFF (entry_at bytes.old k)) }
{
    let mut entry: [u8; ENTRY] = bytes_at(bytes, ENTRY * k);
    entry[10] = 0xFF;
    entry[11] = 0xFF;
    put_entry(bytes, k, &entry);
}
