//! Formatting: any tape becomes an empty volume.
ghost use Rattle.std.specs.Prelude.{◌≡◌, ◌<◌, [], ◌∷◌, true, false, Some, None, Err, IfErr};
ghost use Rattle.lif_model.specs.Tape.{Tape};
ghost use Rattle.lif_model.specs.Redo.{IsSettled};
ghost use Rattle.lif_model.specs.Volume.{volume_in};
ghost use Rattle.lif_model.specs.Apply.{Format, is_too_long, refusal_of};
ghost use Rattle.il_ports.specs.Stores.{IsReady};
ghost use Rattle.lif_dir.specs.Names.{label_bytes};
ghost use Rattle.lif_model.specs.declared.refusal.Refusal.TheVariants as refusal;
ghost use Rattle.lif_volume.specs.Views.{IsOpen};
ghost use Rattle.lif_volume.specs.Answers.{refused};
ghost use Rattle.lif_volume.specs.Seen.{seen};
ghost use Rattle.lif_volume.specs.Commands.{IsReadyFor, KeepsVolume, OnlySettles, WritesBySettling, TellsGate};
ghost use Rattle.lif_model.specs.Gate.{has_open_gate};
ghost use Rattle.lif_commit.specs.Staged.{most_commit_calls};
ghost use Rattle.lif_volume.specs.Formatting.{Clears, Renews};
ghost use Rattle.lif_volume.specs.Did.{Did, IsOneOf};

use crate::fault::VolumeFault;
use crate::volume::Volume;
use il_ports::Records;
use lif_dir::NewLabel;
use lif_model::Version;
use lif_plan::{FreshVolume, Refusal};
use lif_redo::commit_known;

impl<R: Records> Volume<R> {
    /// Makes the tape an empty volume with this label, a directory of at least so many slots, one or
    /// more, and a redo file of version 1: record 0 and the first record of the directory change, by
    /// one commit, and no other record but those of the redo file. A tape that holds no legal volume
    /// is formatted too.
    ///
    /// It is refused with NoRoom where the medium has no room for such a directory, before anything
    /// is read or written; and with InUse where a legal volume without a redo file has a file where
    /// the redo file is to be.
    pub fn format(&mut self, label: &NewLabel, slots: u16) -> Result<(), VolumeFault>
        requires open { IsOpen R.view (seen self.old) }
        requires ready { IsReadyFor R.view (seen self.old) }
        requires slots { 0 < slots }
        ensures open { IsOpen R.view (seen self.new) }
        ensures did { Did (Format (label_bytes label.now) slots) R.view (seen self.old) (seen self.new) result }
        // Where the medium has no room nothing is done, and nothing is forgotten.
        ensures no_room { is_too_long (R.view (seen self.old).records).record_count slots ≡ true
            → (result ≡ Err (refused refusal.NoRoom)) × (seen self.new ≡ seen self.old) }
        ensures room { is_too_long (R.view (seen self.old).records).record_count slots ≡ false
            → IfErr result (IsOneOf (refusal.InUse ∷ [])) }
    {
        if !FreshVolume::fits(slots, self.records.size()) {
            return Err(VolumeFault::Refused(Refusal::NoRoom));
        }
        self.clear_for_format()?;
        self.renew(label, slots)
    }

    /// Settles the tape, and tells whether it may be formatted: where it holds no legal volume, and
    /// where no file stands where the redo file is to be.
    fn clear_for_format(&mut self) -> Result<(), VolumeFault>
        requires open { IsOpen R.view (seen self.old) }
        requires ready { IsReadyFor R.view (seen self.old) }
        ensures open { IsOpen R.view (seen self.new) }
        ensures clears { Clears R.view (seen self.old)
            (seen self.new) result }
        ensures only { IfErr result (IsOneOf (refusal.InUse ∷ [])) }
        ensures settling { OnlySettles R.view (seen self.old)
            (seen self.new) }
        ensures stays { KeepsVolume R.view (seen self.old)
            (seen self.new) }
        ensures transfers { WritesBySettling R.view (seen self.old)
            (seen self.new) result }
        ensures gate { TellsGate R.view (seen self.new) result }
    {
        match self.mount() {
            Ok(_) => {
                if self.directory.is_in_use(self.records.size()) {
                    return Err(VolumeFault::Refused(Refusal::InUse));
                }
                Ok(())
            }
            Err(VolumeFault::Refused(_)) => Ok(()),
            Err(VolumeFault::Trouble(trouble)) => Err(VolumeFault::Trouble(trouble)),
        }
    }

    /// Makes a settled tape that may be formatted an empty volume, and keeps its directory.
    fn renew(&mut self, label: &NewLabel, slots: u16) -> Result<(), VolumeFault>
        requires open { IsOpen R.view (seen self.old) }
        requires ready { IsReady most_commit_calls (R.view (seen self.old).records) }
        requires slots { 0 < slots }
        requires fits { is_too_long
            (R.view (seen self.old).records).record_count slots ≡ false }
        requires settled { (t : Tape)
            → (R.view (seen self.old).records).tape ≡ Some t → IsSettled t }
        requires gate { (t : Tape) → (R.view (seen self.old).records).tape ≡ Some t
            → (seen self.old).is_open ≡ has_open_gate t }
        requires free { (t : Tape)
            → (R.view (seen self.old).records).tape ≡ Some t → refusal_of
            (R.view (seen self.old).records).record_count
            (Format (label_bytes label.now) slots) (volume_in t) ≡ None }
        ensures open { IsOpen R.view (seen self.new) }
        ensures renews { Renews (Format (label_bytes label.now) slots) R.view
            (seen self.old)
            (seen self.new) result }
        ensures only { IfErr result (IsOneOf []) }
    {
        let fresh = FreshVolume::new(label, slots, self.records.size());
        if let Err(trouble) = commit_known(
            &mut self.records,
            Version::One,
            &fresh.changes,
            self.is_open,
        ) {
            self.kept = None;
            return Err(VolumeFault::Trouble(trouble));
        }
        self.is_open = false;
        self.staged.ends_with(&fresh.changes[1].1);
        self.directory.renew(self.records.size());
        self.kept = Some(fresh.header);
        Ok(())
    }
}
