//! A volume is packed.
ghost use Rattle.std.specs.Prelude.{◌≡◌, ◌≤◌, ◌<◌, ◌+◌, ◌-◌, ◌*◌, ◌/◌, ◌^◌, ℕ, is_some, length, filter};
ghost use Rattle.std.specs.Prelude.{true, Some, None, Ok, Err, OnOk, IfOk, IfErr, is_ok, take};
ghost use Rattle.lif_model.specs.Tape.{Tape};
ghost use Rattle.lif_model.specs.Redo.{IsSettled};
ghost use Rattle.lif_model.specs.Legal.{is_live};
ghost use Rattle.lif_model.specs.Volume.{Volume as VolumeModel, volume_of};
ghost use Rattle.lif_model.specs.Packing.{are_packed};
ghost use Rattle.lif_model.specs.declared.refusal.Refusal.{Refusal};
ghost use Rattle.il_ports.specs.Stores.{IsReady, GoesOn, RunLeaves};
ghost use Rattle.lif_volume.specs.Views.{IsOpen};
ghost use Rattle.lif_volume.specs.Answers.{store_answer, refused};
ghost use Rattle.lif_volume.specs.Changing.{SettlesForeign};
ghost use Rattle.lif_volume.specs.Did.{IsOneOf};
ghost use Rattle.lif_volume.specs.Seen.{seen};
ghost use Rattle.lif_pack.specs.Packers.{IsPackerFor, slots_held};
ghost use Rattle.lif_pack.specs.Steps.{AreLive, MayPack, TapeHasSlots, OfSlots};
ghost use Rattle.lif_pack.specs.Tasks.{KeepsFiles};
ghost use Rattle.lif_pack.specs.Packs.{IsPacking, AnswersPack, KeepsFiled, StaysPacked, SettlesRefused, pack_refusals};
ghost use Rattle.lif_pack.specs.Packs.{IsTaskWith, AreThoseOf};

use crate::counting::{files_moved, records_free};
use crate::memory::Packer;
use crate::placed::placed_front;
use crate::reading::Readable;
use il_ports::{Records, Trouble};
use lif_volume::{Volume, VolumeFault};

/// What a packing did.
#[derive(Clone, Copy, Debug, PartialEq, Eq)]
pub struct Packed {
    /// How many files begin elsewhere than before.
    pub files: u32,
    /// How many records are free between the last file and the redo file.
    pub free: u32,
}

impl Packer {
    /// Packs the volume: its files are moved down, in slot order, until each begins where the one before it ends, and
    /// the first after the directory; the slots of purged files are dropped, and the redo entry is the last one. The
    /// files keep their bytes, and all of their entries but the start. The next command reads the directory anew, also
    /// after a refusal or an error.
    ///
    /// It is refused with NotLif, NoRedo or NeedsUpgrade where the volume is none with a redo file of version 2, and
    /// with OutOfOrder where files that have records do not rise in slot order, or a live slot stands after the redo
    /// entry. The tape is settled alone then.
    ///
    /// A packing can be stopped at any moment, and can fail: the files are kept, and `finish` makes whole the one that
    /// was being moved. Of a volume that is packed no record is written, but by settling. On a medium of N records at
    /// most 15 N + 120 are read and written. The medium has 8,192 records at most, since the mark of a file that is
    /// being moved has two bytes for its slot.
    pub fn pack<R: Records>(&mut self, volume: &mut Volume<R>) -> Result<Packed, VolumeFault>
        requires open { IsOpen R.view (seen volume.old) }
        requires ready { IsReady (15 * (R.view (seen volume.old).records).record_count + 120)
            (R.view (seen volume.old).records) }
        requires memory { IsPackerFor (R.view (seen volume.old).records).record_count self.old }
        requires small { (R.view (seen volume.old).records).record_count ≤ 8192 }
        ensures open { IsOpen R.view (seen volume.new) }
        ensures memory { IsPackerFor (R.view (seen volume.old).records).record_count self.new }
        ensures goes_on { GoesOn (15 * (R.view (seen volume.old).records).record_count + 120)
            (R.view (seen volume.old).records) (R.view (seen volume.new).records) (store_answer result) }
        ensures kept { (seen volume.new).kept ≡ None }
        // A refusal of a directory that is kept reads and writes nothing.
        ensures idle { (why : Refusal) → result ≡ Err (refused why) → is_some (seen volume.old).kept ≡ true
            → (seen volume.new).records ≡ (seen volume.old).records }
        ensures only { IfErr result (IsOneOf pack_refusals) }
        ensures answers { AnswersPack R.view (seen volume.old) (seen volume.new) result }
        // What a stop leaves, and the tape after the call, is shown with the same files, and packed to the same; of a
        // tape whose gate record a file holds that is not ours nothing is changed but by settling.
        ensures files { KeepsFiled R.view (seen volume.old) (seen volume.new) }
        ensures foreign { SettlesForeign R.view (seen volume.old) (seen volume.new) }
        // A volume that is packed is not written again: only settling writes, and the tape is the settled one.
        ensures again { StaysPacked R.view (seen volume.old) (seen volume.new) result }
        ensures refusal { SettlesRefused R.view (seen volume.old) (seen volume.new) result }
    {
        let read = self.read(volume);
        // The directory is forgotten, also where it is refused: it may have a mark.
        let records = volume.records_mut();
        let found = read?;
        let packed = self.pack_held(records, &found)?;
        Ok(packed)
    }
}

impl Packer {
    /// Packs a volume on a settled tape, with this directory, whose slots are in memory, without the mark.
    fn pack_held<R: Records>(
        &mut self,
        records: &mut R,
        found: &Readable,
    ) -> Result<Packed, Trouble>
        requires may { MayPack (R.view records.old).record_count found.now.first found.now.end
            found.now.redo (slots_held self.old) }
        requires task { IsTaskWith (R.view records.old).record_count found.now.end found.now.redo
            (slots_held self.old) found.now.task }
        requires number { found.now.redo < 65536 }
        requires ready { IsReady (15 * (R.view records.old).record_count + 49 - (found.now.end - found.now.first))
            (R.view records.old) }
        requires settled { (t : Tape) → (R.view records.old).tape ≡ Some t → IsSettled t }
        requires medium { (R.view records.old).record_count < 2 ^ 16 }
        ensures room { self.new.slots.room ≡ self.old.slots.room }
        ensures goes_on { GoesOn (15 * (R.view records.old).record_count + 49 - (found.now.end - found.now.first))
            (R.view records.old) (R.view records.new) result }
        ensures packs { IfOk result (λ answer. (t : Tape) (v : VolumeModel) → (R.view records.old).tape ≡ Some t
            → volume_of t ≡ Some v
            → AreThoseOf (R.view records.old).record_count found.now.first found.now.end found.now.redo
            found.now.task (slots_held self.old) v
            → (u : Tape) × ((R.view records.new).tape ≡ Some u)
            × IsPacking (R.view records.old).record_count t u answer) }
        ensures stops { (t : Tape) (v : VolumeModel) → (R.view records.old).tape ≡ Some t → volume_of t ≡ Some v
            → AreThoseOf (R.view records.old).record_count found.now.first found.now.end found.now.redo
            found.now.task (slots_held self.old) v
            → RunLeaves (R.view records.old) (R.view records.new) (KeepsFiles (R.view records.old).record_count t) }
        // Where the files stand at their places, and no slot is purged, nothing is read or written.
        ensures idle { found.now.task ≡ None → AreLive (slots_held self.old)
            → are_packed found.now.end (take found.now.redo (slots_held self.old)) ≡ true
            → (is_ok result ≡ true) × (records.new ≡ records.old) }
    {
        self.finish_held(records, &found.task)?;
        let size = records.size();
        let packed = Packed {
            files: files_moved(&self.slots, found.redo, found.end) as u32,
            free: u32::from(records_free(&self.slots, found.redo, found.end, size)),
        };
        let (from, place) = placed_front(&self.slots, found.redo, found.end);
        self.move_files(records, found, from, place)?;
        self.close_directory(records, found.first)?;
        Ok(packed)
    }

    /// Closes up the slots of the directory, and ends it after the live ones.
    fn close_directory<R: Records>(&mut self, records: &mut R, first: u16) -> Result<(), Trouble>
        requires may { (end redo : ℕ) × MayPack (R.view records.old).record_count first end redo (slots_held self.old) }
        requires ready { IsReady (13 * (length (slots_held self.old) / 8 + 1) + 9) (R.view records.old) }
        requires settled { (t : Tape) → (R.view records.old).tape ≡ Some t → IsSettled t }
        requires medium { (R.view records.old).record_count < 2 ^ 16 }
        ensures room { self.new.slots.room ≡ self.old.slots.room }
        ensures goes_on { GoesOn (13 * (length (slots_held self.old) / 8 + 1) + 9) (R.view records.old)
            (R.view records.new) result }
        ensures settled { OnOk result ((t : Tape) → (R.view records.new).tape ≡ Some t → IsSettled t) }
        ensures closes { OnOk result (TapeHasSlots (R.view records.old).record_count first (slots_held self.old)
            (filter is_live (slots_held self.old)) (R.view records.old).tape (R.view records.new).tape) }
        ensures idle { AreLive (slots_held self.old) → (result ≡ Ok tt) × (records.new ≡ records.old) }
        ensures stops { (t : Tape) → (R.view records.old).tape ≡ Some t → (end redo : ℕ)
            → MayPack (R.view records.old).record_count first end redo (slots_held self.old)
            → OfSlots first end (slots_held self.old) t (λ v. RunLeaves (R.view records.old) (R.view records.new)
            (KeepsFiles (R.view records.old).record_count t)) }
    {
        let count = self.close_up(records, first)?;
        self.end_directory(records, first, count)
    }
}
