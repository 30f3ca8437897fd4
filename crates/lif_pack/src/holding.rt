//! The slots of a directory in memory, and what is left to finish of them and of the tape.
ghost use Rattle.std.specs.Prelude.{◌≡◌, ◌<◌, ◌≤◌, ◌+◌, ◌^◌, ℕ, [], true, false, length, map, set, get_or};
ghost use Rattle.std.specs.Prelude.{Some, None, Ok, OnOk, IfSome};
ghost use Rattle.lif_model.specs.Tape.{Tape};
ghost use Rattle.lif_model.specs.Directory.{is_end};
ghost use Rattle.lif_model.specs.Redo.{IsSettled};
ghost use Rattle.lif_model.specs.Volume.{Volume as VolumeModel, volume_of};
ghost use Rattle.il_ports.specs.Stores.{IsReady, GoesOn, RunLeaves};
ghost use Rattle.lif_dir.specs.Entries.{entry_bytes, slot_bytes, is_entry};
ghost use Rattle.lif_model.specs.Packing.{unmarked};
ghost use Rattle.lif_pack.specs.Packers.{slots_held};
ghost use Rattle.lif_pack.specs.Steps.{MayPack, ArePlaced};
ghost use Rattle.lif_pack.specs.Tasks.{IsTaskOf, IsShownAs, KeepsFiles, calls_to_finish};
ghost use Rattle.lif_model.specs.Finished.{IsFinished};
ghost use Rattle.lif_pack.specs.Packs.{IsTaskWith, AreThoseOf, IsFinishedTo, slots_finished, calls_left_to};

use crate::memory::Packer;
use crate::moving::put_part;
use crate::packing::started;
use crate::tasks::Task;
use il_ports::{Records, Trouble};
use lif_dir::{FileEntry, Slot, SlotTable};
use lif_model::ENTRY;

impl Packer {
    /// Holds the slots of a directory in memory, with its redo entry, which is slot `redo`, unmarked.
    pub(crate) fn hold(&mut self, slots: &SlotTable, redo: usize)
        requires room { length slots.now.slots ≤ self.old.slots.room }
        requires redo { redo < length slots.now.slots }
        requires entry { is_end (get_or (map slot_bytes slots.now.slots) redo []) ≡ false }
        ensures slots { slots_held self.new ≡ set (map slot_bytes slots.now.slots) redo
            (unmarked (get_or (map slot_bytes slots.now.slots) redo [])) }
        ensures room { self.new.slots.room ≡ self.old.slots.room }
    {
        self.copy(slots);
        let entry = *self.slots.entry(redo);
        self.slots.set(redo, without_mark(entry));
    }

    /// Holds these slots in memory.
    fn copy(&mut self, slots: &SlotTable)
        requires { length slots.now.slots ≤ self.old.slots.room }
        ensures { self.new.slots ≡ record self.old.slots { slots = slots.now.slots } }
    {
        self.slots.clear();
        for k in 0..slots.len() {
            self.slots.push(*slots.get(k));
        }
    }

    /// Does what is left to do, on the settled tape and in the slots in memory, which have no mark.
    pub(crate) fn finish_held<R: Records>(
        &mut self,
        records: &mut R,
        task: &Option<Task>,
    ) -> Result<(), Trouble>
        requires may { (first end redo : ℕ)
            × MayPack (R.view records.old).record_count first end redo (slots_held self.old)
            × IsTaskWith (R.view records.old).record_count end redo (slots_held self.old) task.now }
        requires ready { IsReady (calls_left_to task.now) (R.view records.old) }
        requires settled { (t : Tape) → (R.view records.old).tape ≡ Some t → IsSettled t }
        requires medium { (R.view records.old).record_count < 2 ^ 16 }
        ensures room { self.new.slots.room ≡ self.old.slots.room }
        ensures goes_on { GoesOn (calls_left_to task.now) (R.view records.old) (R.view records.new) result }
        ensures settled { OnOk result ((t : Tape) → (R.view records.new).tape ≡ Some t → IsSettled t) }
        ensures idle { task.now ≡ None → (result ≡ Ok tt) × (records.new ≡ records.old) × (self.new ≡ self.old) }
        ensures may { OnOk result ((first end redo : ℕ)
            → MayPack (R.view records.old).record_count first end redo (slots_held self.old)
            → IsTaskWith (R.view records.old).record_count end redo (slots_held self.old) task.now
            → MayPack (R.view records.old).record_count first end redo (slots_held self.new)
            × IfSome task.now (λ task. IfSome task.moving (λ move.
            ArePlaced end (move.slot + 1) (move.place + move.length) (slots_held self.new)))) }
        ensures finishes { OnOk result ((first end redo : ℕ) (t : Tape) (v : VolumeModel)
            → (R.view records.old).tape ≡ Some t → volume_of t ≡ Some v
            → IsTaskWith (R.view records.old).record_count end redo (slots_held self.old) task.now
            → AreThoseOf (R.view records.old).record_count first end redo task.now (slots_held self.old) v
            → (x : Tape) × ((R.view records.new).tape ≡ Some x) × IsFinishedTo first end (slots_held self.new) t x) }
        ensures stops { (first end redo : ℕ) (t : Tape) (v : VolumeModel) → (R.view records.old).tape ≡ Some t
            → volume_of t ≡ Some v
            → AreThoseOf (R.view records.old).record_count first end redo task.now (slots_held self.old) v
            → RunLeaves (R.view records.old) (R.view records.new) (KeepsFiles (R.view records.old).record_count t) }
    {
        match task {
            None => Ok(()),
            Some(task) => self.finish_task(records, task),
        }
    }

    /// Carries out a task on the settled tape, and in the slots in memory, which have no mark.
    fn finish_task<R: Records>(&mut self, records: &mut R, task: &Task) -> Result<(), Trouble>
        requires may { (first end redo : ℕ)
            × MayPack (R.view records.old).record_count first end redo (slots_held self.old)
            × IsTaskWith (R.view records.old).record_count end redo (slots_held self.old) (Some task.now) }
        requires ready { IsReady (calls_to_finish task.now.moving) (R.view records.old) }
        requires settled { (t : Tape) → (R.view records.old).tape ≡ Some t → IsSettled t }
        requires medium { (R.view records.old).record_count < 2 ^ 16 }
        ensures room { self.new.slots.room ≡ self.old.slots.room }
        ensures slots { OnOk result (slots_held self.new ≡ slots_finished (slots_held self.old) task.now.moving) }
        ensures goes_on { GoesOn (calls_to_finish task.now.moving) (R.view records.old) (R.view records.new) result }
        ensures settled { OnOk result ((t : Tape) → (R.view records.new).tape ≡ Some t → IsSettled t) }
        ensures finishes { OnOk result ((t : Tape) (v : VolumeModel) → (R.view records.old).tape ≡ Some t
            → volume_of t ≡ Some v → IsTaskOf (R.view records.old).record_count v task.now
            → (x : Tape) × ((R.view records.new).tape ≡ Some x) × IsFinished t x) }
        ensures stops { (t : Tape) (v : VolumeModel) → (R.view records.old).tape ≡ Some t → volume_of t ≡ Some v
            → IsTaskOf (R.view records.old).record_count v task.now
            → RunLeaves (R.view records.old) (R.view records.new) (IsShownAs t) }
    {
        self.carry_out(records, task)?;
        match &task.moving {
            None => Ok(()),
            Some(file) => {
                let entry = *self.slots.entry(file.slot);
                self.slots.set(file.slot, started(entry, file.place));
                Ok(())
            }
        }
    }
}

/// The slot of the entry without a mark. The entry ends no directory.
fn without_mark(entry: FileEntry) -> Slot
    requires { is_end (entry_bytes entry) ≡ false }
    ensures bytes { slot_bytes result ≡ unmarked (entry_bytes entry) }
    ensures entry { is_entry result ≡ true }
{
    Slot::of(&unmarked_bytes(entry))
}

/// The bytes of the entry without a mark.
#[tactic(auto, unfolding(lif_model::specs::Packing::unmarked))]
fn unmarked_bytes(entry: FileEntry) -> [u8; ENTRY]
    ensures bytes { result ≡ unmarked (entry_bytes entry) }
    ensures size { length (entry_bytes entry) ≡ 32 }
{
    let mut bytes = entry.bytes();
    put_part(&mut bytes, 28, &[0; 4]);
    bytes
}
