//! The commands that change a volume: each is planned over the directory in memory, and then carried out.
ghost use Rattle.std.specs.Prelude.{◌≡◌, ◌≢◌, List, length, map, option_map, Some, IfErr, OnOk};
ghost use Rattle.lif_model.specs.Tape.{Tape};
ghost use Rattle.lif_model.specs.Apply.{VolumeCommand, Store, Purge, Rename, Adopt, Upgrade};
ghost use Rattle.lif_model.specs.Header.{HeaderParts};
ghost use Rattle.il_ports.specs.Stores.{IsReady};
ghost use Rattle.lif_dir.specs.Entries.{name_bytes, slot_bytes};
ghost use Rattle.lif_dir.specs.Names.{made_name};
ghost use Rattle.lif_dir.specs.Changes.{change_writes, count_with};
ghost use Rattle.lif_commit.specs.Staged.{EndsWith, calls_of};
ghost use Rattle.lif_plan.specs.Refusals.{IsAmong};
ghost use Rattle.lif_plan.specs.Plans.{IsPlan, MakesChange};
ghost use Rattle.lif_volume.specs.Views.{IsOpen};
ghost use Rattle.lif_volume.specs.Seen.{seen};
ghost use Rattle.lif_volume.specs.Commands.{IsReadyFor};
ghost use Rattle.lif_volume.specs.Carrying.{HasFile, PutsFile, Puts, CarriesOut, carry_room};
ghost use Rattle.lif_volume.specs.Did.{Did, IsOneOf};
ghost use Rattle.lif_model.specs.declared.refusal.Refusal.{Refusal};

use crate::fault::VolumeFault;
use crate::volume::Volume;
use il_ports::{Records, Trouble};
use lif_dir::{Change, Name, NewName};
use lif_header::Header;
use lif_plan::Refusal;

impl<R: Records> Volume<R> {
    /// Stores a new file of this name: its bytes, filled up with zeros, in as many records as hold
    /// them and one at least, and an entry of this type and implementation field, without a date.
    /// The type is none of a purged file and none that ends a directory. The volume has to be
    /// adopted. The redo file's name is protected.
    ///
    /// The file is written first, into records that no file has, and then the directory changes by
    /// one commit. The entry takes the slot of a purged file, or that of the redo entry, which then
    /// moves on by one; where a slot follows that, it becomes the end and keeps its other bytes.
    pub fn store(
        &mut self,
        name: &NewName,
        kind: u16,
        implementation: [u8; 4],
        bytes: &[u8],
    ) -> Result<(), VolumeFault>
        requires open { IsOpen R.view (seen self.old) }
        requires ready { IsReadyFor R.view (seen self.old) }
        requires live { kind ≢ 0 }
        requires no_end { kind ≢ 0xFFFF }
        ensures open { IsOpen R.view (seen self.new) }
        ensures did { Did (Store (name_bytes (made_name name.now)) kind implementation bytes.now)
            R.view (seen self.old) (seen self.new) result }
    {
        let header = self.mount()?;
        let size = self.records.size();
        let plan = self
            .directory
            .store(name, kind, implementation, bytes, &header, size);
        self.carry_out(&header, plan, Some(bytes))
    }

    /// Purges the file of this name: its slot gets the type 0, and all else in the directory stays.
    /// The volume has to be adopted. The redo file is protected.
    pub fn purge(&mut self, name: &Name) -> Result<(), VolumeFault>
        requires open { IsOpen R.view (seen self.old) }
        requires ready { IsReadyFor R.view (seen self.old) }
        ensures open { IsOpen R.view (seen self.new) }
        ensures did { Did (Purge (name_bytes name.now)) R.view (seen self.old) (seen self.new) result }
    {
        let header = self.mount()?;
        let plan = self.directory.purge(name, &header, self.records.size());
        self.carry_out(&header, plan, None)
    }

    /// Gives a file another name: the ten bytes of its name change, and all else in the directory
    /// stays. Its own name changes nothing. The volume has to be adopted. The redo file is
    /// protected, and its name too.
    pub fn rename(&mut self, old: &Name, new: &NewName) -> Result<(), VolumeFault>
        requires open { IsOpen R.view (seen self.old) }
        requires ready { IsReadyFor R.view (seen self.old) }
        ensures open { IsOpen R.view (seen self.new) }
        ensures did { Did (Rename (name_bytes old.now) (name_bytes (made_name new.now)))
            R.view (seen self.old) (seen self.new) result }
    {
        let header = self.mount()?;
        let plan = self
            .directory
            .rename(old, new, &header, self.records.size());
        self.carry_out(&header, plan, None)
    }

    /// Gives the volume a redo file of version 1: its entry comes after the last slot, and an end
    /// after it where the directory has a slot more. An adopted volume stays as it is.
    pub fn adopt(&mut self) -> Result<(), VolumeFault>
        requires open { IsOpen R.view (seen self.old) }
        requires ready { IsReadyFor R.view (seen self.old) }
        ensures open { IsOpen R.view (seen self.new) }
        ensures did { Did Adopt R.view (seen self.old) (seen self.new) result }
    {
        let header = self.mount()?;
        let plan = self.directory.adopt(&header, self.records.size());
        self.carry_out(&header, plan, None)
    }

    /// Makes the redo file one of version 2, which has the last 34 records. A volume of version 2
    /// stays as it is.
    pub fn upgrade(&mut self) -> Result<(), VolumeFault>
        requires open { IsOpen R.view (seen self.old) }
        requires ready { IsReadyFor R.view (seen self.old) }
        ensures open { IsOpen R.view (seen self.new) }
        ensures did { Did Upgrade R.view (seen self.old) (seen self.new) result }
    {
        let header = self.mount()?;
        let plan = self.directory.upgrade(&header, self.records.size());
        self.carry_out(&header, plan, None)
    }

    /// Carries out what is planned of the directory, which is kept: the file by one run, where there is one, and the
    /// change by one commit, after which the slots in memory are those of the tape again; or nothing at all.
    fn carry_out(
        &mut self,
        header: &Header,
        plan: Result<Option<Change>, Refusal>,
        file: Option<&[u8]>,
    ) -> Result<(), VolumeFault>
        requires open { IsOpen R.view (seen self.old) }
        requires ready { IsReady (carry_room (R.view (seen self.old).records).record_count header.now)
            (R.view (seen self.old).records) }
        requires kept { (seen self.old).kept ≡ Some header.now }
        requires plan { (command : VolumeCommand) × HasFile command (option_map (λ bytes. bytes.now) file)
            × IsPlan (R.view (seen self.old).records).record_count command header.now
            (map slot_bytes (seen self.old).slots) plan }
        ensures open { IsOpen R.view (seen self.new) }
        ensures carried { (command : VolumeCommand) → HasFile command (option_map (λ bytes. bytes.now) file.entry)
            → IsPlan (R.view (seen self.old).records).record_count command header.now
            (map slot_bytes (seen self.old).slots) plan
            → CarriesOut command R.view (seen self.old) (seen self.new) result }
        ensures only { (names : List Refusal) → IfErr plan (IsAmong names) → IfErr result (IsOneOf names) }
    {
        let Some(change) = plan? else {
            return Ok(());
        };
        match self.put(header, &change, file) {
            Ok(()) => {
                self.is_open = false;
                self.directory.change(&change);
                Ok(())
            }
            Err(trouble) => {
                self.kept = None;
                Err(VolumeFault::Trouble(trouble))
            }
        }
    }

    /// Writes the file, where there is one, and commits the change.
    fn put(&mut self, header: &Header, change: &Change, file: Option<&[u8]>) -> Result<(), Trouble>
        requires open { IsOpen R.view (seen self.old) }
        requires ready { IsReady (carry_room (R.view (seen self.old).records).record_count header.now)
            (R.view (seen self.old).records) }
        requires kept { (seen self.old).kept ≡ Some header.now }
        requires plan { (command : VolumeCommand) × HasFile command (option_map (λ bytes. bytes.now) file)
            × MakesChange (R.view (seen self.old).records).record_count command header.now
            (map slot_bytes (seen self.old).slots) change.now }
        ensures still { seen self.new ≡ record (seen self.old) { records = (seen self.new).records; last = (seen self.new).last } }
        // After an Ok the record with the end is known.
        ensures end { OnOk result ((t : Tape) → (R.view (seen self.new).records).tape ≡ Some t
            → EndsWith header.now.start header.now.length
            (count_with (length (seen self.old).slots) change.now) (seen self.new).last t) }
        ensures put { (command : VolumeCommand) → HasFile command (option_map (λ bytes. bytes.now) file.entry)
            → MakesChange (R.view (seen self.old).records).record_count command header.now
            (map slot_bytes (seen self.old).slots) change.now
            → Puts (calls_of header.now.start (length (seen self.old).slots) (seen self.old).is_open change.now)
            command change.now.version header.now.start (change_writes header.now.start change.now)
            (R.view (seen self.old).records) (R.view (seen self.new).records) result }
    {
        self.put_file(change, file)?;
        self.staged.commit(
            &mut self.records,
            header,
            &self.directory.table,
            change,
            self.is_open,
        )
    }

    /// Writes the file to the records that its entry tells, by one run, where there is one.
    fn put_file(&mut self, change: &Change, file: Option<&[u8]>) -> Result<(), Trouble>
        requires open { IsOpen R.view (seen self.old) }
        requires plan { (command : VolumeCommand) × (header : HeaderParts) × HasFile command (option_map (λ bytes. bytes.now) file)
            × ((seen self.old).kept ≡ Some header)
            × IsReady (carry_room (R.view (seen self.old).records).record_count header) (R.view (seen self.old).records)
            × MakesChange (R.view (seen self.old).records).record_count command header
            (map slot_bytes (seen self.old).slots) change.now }
        ensures still { seen self.new ≡ record (seen self.old) { records = (seen self.new).records } }
        ensures files { (command : VolumeCommand) (header : HeaderParts) → HasFile command (option_map (λ bytes. bytes.now) file.entry)
            → (seen self.old).kept ≡ Some header
            → MakesChange (R.view (seen self.old).records).record_count command header
            (map slot_bytes (seen self.old).slots) change.now
            → PutsFile command (R.view (seen self.old).records) (R.view (seen self.new).records) result }
    {
        match file {
            None => Ok(()),
            Some(bytes) => {
                let first = change.entry.start as u16;
                let count = change.entry.length as u16;
                self.records.write_run(first, count, bytes)
            }
        }
    }
}
