//! A packing that was stopped is finished.
ghost use Rattle.std.specs.Prelude.{◌≡◌, ◌<◌, ◌+◌, ◌*◌, ◌^◌, ℕ, true, false, map};
ghost use Rattle.std.specs.Prelude.{Some, None, is_some, IfSome, Ok, OnOk, IfOk, IfErr};
ghost use Rattle.lif_model.specs.Tape.{Tape};
ghost use Rattle.lif_model.specs.declared.version.Version.TheVariants.{Two};
ghost use Rattle.lif_model.specs.Commit.{IsSettleWrite};
ghost use Rattle.lif_model.specs.Redo.{redo_of, redo_start, settled, IsSettled};
ghost use Rattle.lif_model.specs.Volume.{Volume as VolumeModel, volume_of};
ghost use Rattle.lif_model.specs.Writing.{slot_record};
ghost use Rattle.il_ports.specs.Stores.{IsReady, GoesOn, RunLeaves};
ghost use Rattle.il_ports.specs.Transfers.{AddsOnly};
ghost use Rattle.lif_dir.specs.Entries.{slot_bytes};
ghost use Rattle.lif_volume.specs.Views.{IsOpen};
ghost use Rattle.lif_volume.specs.Seen.{seen};
ghost use Rattle.lif_volume.specs.Commands.{IsReadyFor, IsTold, OnlySettles};
ghost use Rattle.lif_volume.specs.Changing.{SettlesForeign};
ghost use Rattle.lif_model.specs.Packing.{bears_mark};
ghost use Rattle.lif_pack.specs.Packers.{IsPackerFor};
ghost use Rattle.lif_pack.specs.Tasks.{MayFinish, IsTaskOf, IsCleared, IsClearedOrOld, IsLeftToDo};
ghost use Rattle.lif_model.specs.Finished.{IsFinished};
ghost use Rattle.lif_pack.specs.Tasks.{MountsAlone, MountsUnmarked, SettlesUnmarked, calls_to_finish};
ghost use Rattle.lif_pack.specs.Tasks.{IsShownAs, KeepsShown};

use crate::marks::mark_of;
use crate::memory::Packer;
use crate::tasks::{Task, task_of};
use il_ports::{Records, Trouble};
use lif_model::Version;
use lif_redo::commit;
use lif_volume::{Volume, VolumeFault};

impl Packer {
    /// Finishes a packing of the volume that was stopped: a file that was being moved is moved to its place, and the
    /// mark in the redo entry is taken off. Where there is no mark the tape is settled alone, and where the directory
    /// is kept besides, no record is read or written. A tape that holds no volume is settled too. On a medium of N
    /// records at most 15 N + 120 are read and written. An error comes where a call of the store failed. A power stop
    /// at any moment, and an error, leave a tape that is finished to the same volume.
    pub fn finish<R: Records>(&mut self, volume: &mut Volume<R>) -> Result<(), Trouble>
        requires open { IsOpen R.view (seen volume.old) }
        requires ready { IsReady (15 * (R.view (seen volume.old).records).record_count + 120)
            (R.view (seen volume.old).records) }
        ensures open { IsOpen R.view (seen volume.new) }
        ensures memory { (n : ℕ) → IsPackerFor n self.old → IsPackerFor n self.new }
        ensures goes_on { GoesOn (15 * (R.view (seen volume.old).records).record_count + 120)
            (R.view (seen volume.old).records) (R.view (seen volume.new).records) result }
        ensures finished { OnOk result ((t : Tape) → IsTold R.view (seen volume.old) t
            → (u : Tape) × IsTold R.view (seen volume.new) u × IsFinished t u) }
        // What a stop leaves, and the tape after the call, is shown as the same volume; of a tape whose gate record a
        // file holds that is not ours nothing is changed but by settling.
        ensures shown { KeepsShown R.view (seen volume.old) (seen volume.new) }
        ensures foreign { SettlesForeign R.view (seen volume.old) (seen volume.new) }
        // A tape without a mark is mounted, and nothing more is read or written. After an error no directory is kept.
        ensures mounts { MountsUnmarked R.view (seen volume.old) (seen volume.new) result }
        ensures writes { SettlesUnmarked R.view (seen volume.old) (seen volume.new) result }
        ensures forgets { IfErr result (λ _. (seen volume.new).kept ≡ None) }
        // Where the directory is kept and its redo entry has no mark, nothing is done.
        ensures still { IfSome (seen volume.old).kept (λ _. (v : VolumeModel)
            → v.slots ≡ map slot_bytes (seen volume.old).slots
            → bears_mark (R.view (seen volume.old).records).record_count v ≡ false
            → (volume.new ≡ volume.old) × (result ≡ Ok tt)) }
    {
        let size = volume.records().size();
        if is_finished(volume, size) {
            return Ok(());
        }
        self.finish_left(volume, size)
    }

    /// Settles the tape, and carries out what is left to do on it.
    fn finish_left<R: Records>(&mut self, volume: &mut Volume<R>, size: u16) -> Result<(), Trouble>
        requires open { IsOpen R.view (seen volume.old) }
        requires ready { IsReady (15 * size + 120) (R.view (seen volume.old).records) }
        requires size { size ≡ (R.view (seen volume.old).records).record_count }
        ensures open { IsOpen R.view (seen volume.new) }
        ensures memory { (n : ℕ) → IsPackerFor n self.old → IsPackerFor n self.new }
        ensures goes_on { GoesOn (15 * size + 120) (R.view (seen volume.old).records)
            (R.view (seen volume.new).records) result }
        ensures finished { OnOk result ((t : Tape) → IsTold R.view (seen volume.old) t
            → (u : Tape) × IsTold R.view (seen volume.new) u × IsFinished t u) }
        ensures shown { KeepsShown R.view (seen volume.old) (seen volume.new) }
        ensures foreign { SettlesForeign R.view (seen volume.old) (seen volume.new) }
        ensures mounts { MountsUnmarked R.view (seen volume.old) (seen volume.new) result }
        ensures writes { SettlesUnmarked R.view (seen volume.old) (seen volume.new) result }
        ensures forgets { IfErr result (λ _. (seen volume.new).kept ≡ None) }
    {
        match left_of(volume, size)? {
            None => Ok(()),
            Some(task) => self.carry_out(volume.records_mut(), &task),
        }
    }

    /// Carries out what is left to do on a settled tape.
    pub(crate) fn carry_out<R: Records>(
        &mut self,
        records: &mut R,
        task: &Task,
    ) -> Result<(), Trouble>
        requires ready { IsReady (calls_to_finish task.now.moving) (R.view records.old) }
        requires settled { (t : Tape) → (R.view records.old).tape ≡ Some t → IsSettled t }
        requires medium { (R.view records.old).record_count < 2 ^ 16 }
        requires may { MayFinish (R.view records.old).record_count task.now }
        ensures still { self.new.slots ≡ self.old.slots }
        ensures goes_on { GoesOn (calls_to_finish task.now.moving) (R.view records.old) (R.view records.new) result }
        ensures settled { OnOk result ((t : Tape) → (R.view records.new).tape ≡ Some t → IsSettled t) }
        ensures finishes { OnOk result ((t : Tape) (v : VolumeModel) → (R.view records.old).tape ≡ Some t
            → volume_of t ≡ Some v → IsTaskOf (R.view records.old).record_count v task.now
            → (x : Tape) × ((R.view records.new).tape ≡ Some x) × IsFinished t x) }
        ensures stops { (t : Tape) (v : VolumeModel) → (R.view records.old).tape ≡ Some t → volume_of t ≡ Some v
            → IsTaskOf (R.view records.old).record_count v task.now
            → RunLeaves (R.view records.old) (R.view records.new) (IsShownAs t) }
    {
        match &task.moving {
            None => self.clear_mark(records, task.first, task.redo),
            Some(file) => self.move_rest(records, task.first, task.redo, file),
        }
    }

    /// Takes the mark off, and changes nothing else: by one commit.
    fn clear_mark<R: Records>(
        &mut self,
        records: &mut R,
        first: u16,
        redo: usize,
    ) -> Result<(), Trouble>
        requires ready { IsReady 9 (R.view records.old) }
        requires settled { (t : Tape) → (R.view records.old).tape ≡ Some t → IsSettled t }
        requires medium { (R.view records.old).record_count < 2 ^ 16 }
        requires below { slot_record first redo < redo_start Two (R.view records.old).record_count }
        ensures still { self.new.slots ≡ self.old.slots }
        ensures goes_on { GoesOn 9 (R.view records.old) (R.view records.new) result }
        ensures settled { OnOk result ((t : Tape) → (R.view records.new).tape ≡ Some t → IsSettled t) }
        ensures clears { OnOk result ((t : Tape) → (R.view records.old).tape ≡ Some t
            → (x : Tape) × ((R.view records.new).tape ≡ Some x) × IsCleared first redo t x) }
        ensures stops { (t : Tape) → (R.view records.old).tape ≡ Some t
            → RunLeaves (R.view records.old) (R.view records.new) (IsClearedOrOld first redo t) }
    {
        self.bring_mark(records, first, redo, [0; 4])?;
        commit(records, Version::Two, &self.changes)
    }
}

/// Whether the directory is kept and its redo entry has no mark.
fn is_finished<R: Records>(volume: &Volume<R>, size: u16) -> bool
    requires open { IsOpen R.view (seen volume.now) }
    requires size { size ≡ (R.view (seen volume.now).records).record_count }
    ensures unmarked { IfSome (seen volume.now).kept (λ _. (v : VolumeModel)
        → v.slots ≡ map slot_bytes (seen volume.now).slots → bears_mark size v ≡ false → result ≡ true) }
    ensures kept { result ≡ true → is_some (seen volume.now).kept ≡ true }
    ensures finished { result ≡ true → (t : Tape) → IsTold R.view (seen volume.now) t → IsFinished t t }
{
    volume.is_kept() && mark_of(volume.slots(), size).is_none()
}

/// Settles the tape and reads its directory, and tells what is left to do. `None` where the tape has no mark, or no
/// volume.
fn left_of<R: Records>(volume: &mut Volume<R>, size: u16) -> Result<Option<Task>, Trouble>
    requires open { IsOpen R.view (seen volume.old) }
    requires ready { IsReadyFor R.view (seen volume.old) }
    requires size { size ≡ (R.view (seen volume.old).records).record_count }
    ensures open { IsOpen R.view (seen volume.new) }
    ensures goes_on { GoesOn (size + 66) (R.view (seen volume.old).records) (R.view (seen volume.new).records) result }
    ensures may { IfOk result (λ task. IfSome task (MayFinish size)) }
    ensures settled { IfOk result (λ task. IfSome task (λ _. (t : Tape) → IsTold R.view (seen volume.new) t
        → IsSettled t)) }
    ensures left { IfOk result (λ task. (t : Tape) → IsTold R.view (seen volume.old) t
        → IsTold R.view (seen volume.new) (settled t) × IsLeftToDo size t task) }
    ensures settling { OnlySettles R.view (seen volume.old) (seen volume.new) }
    ensures shown { KeepsShown R.view (seen volume.old) (seen volume.new) }
    ensures mounts { (t : Tape) (v : VolumeModel) → IsTold R.view (seen volume.old) t → volume_of t ≡ Some v
        → MountsAlone R.view (seen volume.old) (seen volume.new) t result }
    ensures writes { (t : Tape) → IsTold R.view (seen volume.old) t
        → AddsOnly (IsSettleWrite (R.view (seen volume.old).records).record_count (redo_of t))
        (R.view (seen volume.old).records).transferred (R.view (seen volume.new).records).transferred result }
    ensures forgets { IfErr result (λ _. (seen volume.new).kept ≡ None) }
{
    match volume.dir() {
        Ok(listing) => Ok(task_of(volume.slots(), &listing, size)),
        Err(VolumeFault::Refused(_)) => Ok(None),
        Err(VolumeFault::Trouble(trouble)) => Err(trouble),
    }
}
