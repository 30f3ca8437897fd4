//! A batch: changes of a volume that are made as one.
ghost use Rattle.std.specs.Prelude.{◌≡◌, ◌<◌, ◌≤◌, ◌+◌, ◌^◌, ℕ, List, [], Some, length, map};
ghost use Rattle.std.specs.Prelude.{All, IfErr, OnOk};
ghost use Rattle.lif_model.specs.Tape.{Tape};
ghost use Rattle.lif_model.specs.Made.{file_length, file_records};
ghost use Rattle.lif_model.specs.Parts as model;
ghost use Rattle.lif_model.specs.Apply as command;
ghost use Rattle.lif_model.specs.declared.version.Version.TheVariants.{Two};
ghost use Rattle.il_ports.specs.Stores.{IsReady, StoredRun};
ghost use Rattle.lif_dir.specs.Entries.{slot_bytes};
ghost use Rattle.lif_dir.specs.Changes.{AreInTurn, IsToldBack, all_writes, count_with_all};
ghost use Rattle.lif_dir.specs.Batches.{bytes_at, parts_of};
ghost use Rattle.lif_commit.specs.Staged.{EndsWith, calls_of_all};
ghost use Rattle.lif_plan.specs.Batches.{file_of, IsFileWithin};
ghost use Rattle.lif_volume.specs.Views.{IsOpen};
ghost use Rattle.lif_volume.specs.Seen.{seen};
ghost use Rattle.lif_volume.specs.Commands.{IsReadyForBatch};
ghost use Rattle.lif_volume.specs.Carrying.{records_filed, EndsWithin, WritesFiles, slots_with_all};
ghost use Rattle.lif_volume.specs.Carrying.{batch_room, ChangesByParts, Puts, CarriesOut};
ghost use Rattle.lif_volume.specs.Did.{Did, IsOneOf};

use crate::fault::VolumeFault;
use crate::volume::Volume;
use il_ports::{Records, Trouble};
use lif_dir::{Batch, Change, SlotTable};
use lif_header::Header;
use lif_model::RECORD;
use lif_plan::PlannedFile;

impl<R: Records> Volume<R> {
    /// Makes all changes of a batch as one: a stop at any moment leaves the volume before it or the one after it.
    ///
    /// The files that are left after all parts are written first, each by one run, into records that no file has, and
    /// then the directory changes by one commit. A batch after which the directory is as it was writes nothing.
    ///
    /// It is refused by `NoRedo` and `NeedsUpgrade` where the volume is not adopted with version 2, and else as the
    /// first of its parts that is refused. Then nothing is written but what settles the tape, and the directory is read
    /// anew by the next command.
    pub fn batch(&mut self, batch: &Batch) -> Result<(), VolumeFault>
        requires open { IsOpen R.view (seen self.old) }
        requires ready { IsReadyForBatch R.view (seen self.old) }
        ensures open { IsOpen R.view (seen self.new) }
        ensures did { Did (command.Batch (parts_of batch.now)) R.view (seen self.old) (seen self.new) result }
        ensures formed { OnOk result (command.IsWellFormed (command.Batch (parts_of batch.now))) }
    {
        let header = self.mount()?;
        let size = self.records.size();
        match self.directory.batch(batch, &header, size, &mut self.plan) {
            Ok(true) => Ok(()),
            Ok(false) => self.carry_out_batch(&header, batch.bytes()),
            Err(refusal) => {
                self.kept = None;
                Err(VolumeFault::Refused(refusal))
            }
        }
    }

    /// Carries out a batch that is planned and changes the directory, which is kept. These are its bytes.
    fn carry_out_batch(&mut self, header: &Header, bytes: &[u8]) -> Result<(), VolumeFault>
        requires open { IsOpen R.view (seen self.old) }
        requires ready { IsReady (batch_room (R.view (seen self.old).records).record_count header.now)
            (R.view (seen self.old).records) }
        requires kept { (seen self.old).kept ≡ Some header.now }
        requires within { All (IsFileWithin (length bytes.now)) self.old.plan.files.items }
        requires plan { (parts : List model.Part)
            × ChangesByParts parts (R.view (seen self.old).records).record_count header.now (seen self.old).slots
            bytes.now self.old.plan.changes.items self.old.plan.files.items }
        ensures open { IsOpen R.view (seen self.new) }
        ensures carried { (parts : List model.Part)
            → ChangesByParts parts (R.view (seen self.old).records).record_count header.now (seen self.old).slots
            bytes.now self.old.plan.changes.items self.old.plan.files.items
            → CarriesOut (command.Batch parts) R.view (seen self.old) (seen self.new) result }
        ensures only { IfErr result (IsOneOf []) }
    {
        match self.put_all(header, bytes) {
            Ok(()) => {
                self.is_open = false;
                let plan = &self.plan;
                change_slots(&mut self.directory.table, &plan.changes);
                Ok(())
            }
            Err(trouble) => {
                self.kept = None;
                Err(VolumeFault::Trouble(trouble))
            }
        }
    }

    /// Writes its files, and commits its changes.
    fn put_all(&mut self, header: &Header, bytes: &[u8]) -> Result<(), Trouble>
        requires open { IsOpen R.view (seen self.old) }
        requires ready { IsReady (batch_room (R.view (seen self.old).records).record_count header.now)
            (R.view (seen self.old).records) }
        requires kept { (seen self.old).kept ≡ Some header.now }
        requires within { All (IsFileWithin (length bytes.now)) self.old.plan.files.items }
        requires plan { (parts : List model.Part)
            × ChangesByParts parts (R.view (seen self.old).records).record_count header.now (seen self.old).slots
            bytes.now self.old.plan.changes.items self.old.plan.files.items }
        ensures still { seen self.new
            ≡ record (seen self.old) { records = (seen self.new).records; last = (seen self.new).last } }
        ensures plan { self.new.plan ≡ self.old.plan }
        // After an Ok the record with the end is known.
        ensures end { OnOk result ((t : Tape) → (R.view (seen self.new).records).tape ≡ Some t
            → EndsWith header.now.start header.now.length
            (count_with_all (length (seen self.old).slots) self.old.plan.changes.items) (seen self.new).last t) }
        ensures put { (parts : List model.Part)
            → ChangesByParts parts (R.view (seen self.old).records).record_count header.now (seen self.old).slots
            bytes.now self.old.plan.changes.items self.old.plan.files.items
            → Puts (calls_of_all header.now.start (length (seen self.old).slots) (seen self.old).is_open
            self.old.plan.changes.items) (command.Batch parts) Two header.now.start
            (all_writes header.now.start self.old.plan.changes.items) (R.view (seen self.old).records)
            (R.view (seen self.new).records) result }
    {
        let plan = &self.plan;
        write_files(&mut self.records, &plan.files, bytes)?;
        self.staged.commit_all(
            &mut self.records,
            header,
            &self.directory.table,
            &plan.changes,
            self.is_open,
        )
    }
}

/// Writes the files of a batch, whose bytes these are, one after the other, each by one run.
fn write_files<R: Records>(
    records: &mut R,
    files: &[PlannedFile],
    bytes: &[u8],
) -> Result<(), Trouble>
    requires ready { IsReady (records_filed (map (file_of bytes.now) files.now)) (R.view records.old) }
    requires small { (R.view records.old).record_count < 2 ^ 16 }
    requires within { All (IsFileWithin (length bytes.now)) files.now }
    requires fits { All (EndsWithin (R.view records.old).record_count) (map (file_of bytes.now) files.now) }
    ensures { WritesFiles (map (file_of bytes.now) files.now) (R.view records.old) (R.view records.new) result }
{
    for k in 0..files.len() {
        write_file(records, &files[k], bytes)?;
    }
    Ok(())
}

/// Writes one of them.
fn write_file<R: Records>(records: &mut R, file: &PlannedFile, bytes: &[u8]) -> Result<(), Trouble>
    requires ready { IsReady (file_length (bytes_at bytes.now file.now.from file.now.length)) (R.view records.old) }
    requires small { (R.view records.old).record_count < 2 ^ 16 }
    requires within { IsFileWithin (length bytes.now) file.now }
    requires fits { EndsWithin (R.view records.old).record_count (file_of bytes.now file.now) }
    ensures { StoredRun file.now.start (file_records (bytes_at bytes.now file.now.from file.now.length))
        (R.view records.old) (R.view records.new) result }
{
    let content = &bytes[file.from as usize..][..file.length as usize];
    let count = content.len().div_ceil(RECORD).max(1);
    records.write_run(file.start as u16, count as u16, content)
}

/// Changes the slots in memory, one change after the other.
fn change_slots(table: &mut SlotTable, changes: &[Change])
    requires { (capacity : ℕ) × (later : List (List ℕ)) × (capacity ≤ table.old.room)
        × AreInTurn capacity (map slot_bytes table.old.slots) changes.now later }
    ensures changed { table.new ≡ record table.old { slots = slots_with_all changes.now table.old.slots } }
    ensures told { All IsToldBack changes.now }
{
    for k in 0..changes.len() {
        table.change(&changes[k]);
    }
}
