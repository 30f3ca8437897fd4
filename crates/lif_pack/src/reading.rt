//! What a packing reads before it begins.
ghost use Rattle.std.specs.Prelude.{◌≡◌, ◌≤◌, ◌<◌, ◌+◌, [], ◌∷◌, true, map, Some, is_some, IfOk, IfErr};
ghost use Rattle.lif_model.specs.Tape.{Tape};
ghost use Rattle.lif_model.specs.Header.{directory_start, directory_end};
ghost use Rattle.lif_model.specs.Redo.{settled, IsSettled};
ghost use Rattle.lif_model.specs.Volume.{Volume as VolumeModel, IsVolume, volume_of};
ghost use Rattle.lif_model.specs.declared.refusal.Refusal.TheVariants.{NoRedo, NeedsUpgrade, OutOfOrder};
ghost use Rattle.il_ports.specs.Stores.{GoesOn};
ghost use Rattle.lif_dir.specs.Entries.{slot_bytes};
ghost use Rattle.lif_plan.specs.Directories.{IsLegalDirectory};
ghost use Rattle.lif_plan.specs.Refusals.{IsAmong};
ghost use Rattle.lif_volume.specs.Views.{IsOpen};
ghost use Rattle.lif_volume.specs.Answers.{store_answer};
ghost use Rattle.lif_volume.specs.Commands.{IsReadyFor, IsTold, OnlySettles, WritesBySettling};
ghost use Rattle.lif_volume.specs.Did.{IsOneOf};
ghost use Rattle.lif_volume.specs.Seen.{seen};
ghost use Rattle.lif_model.specs.Packing.{pack_refusal};
ghost use Rattle.lif_pack.specs.Packers.{IsPackerFor, slots_held};
ghost use Rattle.lif_pack.specs.Steps.{MayPack};
ghost use Rattle.lif_pack.specs.Tasks.{KeepsShown};
ghost use Rattle.lif_pack.specs.Packs.{IsRefusedTo, IsTaskWith, AreThoseOf, header_in, calls_to_read};
ghost use Rattle.lif_pack.specs.Packs.{pack_refusals};

use crate::marks::redo_place;
use crate::memory::Packer;
use crate::refusing::refusal_of;
use crate::tasks::{Task, task_of};
use il_ports::Records;
use lif_dir::SlotTable;
use lif_model::Refusal;
use lif_volume::{Listing, Volume, VolumeFault};

/// A directory whose volume may be packed.
#[derive(Clone, Copy, Drop)]
pub struct Readable {
    /// Its first record.
    pub first: u16,
    /// The record after its last one.
    pub end: u32,
    /// The slot of the redo entry.
    pub redo: usize,
    /// What is left to finish first.
    pub task: Option<Task>,
}

impl Packer {
    /// Settles the tape and reads its directory, and holds the slots in memory, without the mark, where nothing
    /// refuses the packing.
    pub(crate) fn read<R: Records>(
        &mut self,
        volume: &mut Volume<R>,
    ) -> Result<Readable, VolumeFault>
        requires open { IsOpen R.view (seen volume.old) }
        requires ready { IsReadyFor R.view (seen volume.old) }
        requires memory { IsPackerFor (R.view (seen volume.old).records).record_count self.old }
        requires small { (R.view (seen volume.old).records).record_count ≤ 8192 }
        ensures open { IsOpen R.view (seen volume.new) }
        ensures memory { IsPackerFor (R.view (seen volume.old).records).record_count self.new }
        ensures goes_on { GoesOn (calls_to_read (R.view (seen volume.old).records).record_count result)
            (R.view (seen volume.old).records) (R.view (seen volume.new).records) (store_answer result) }
        ensures idle { is_some (seen volume.old).kept ≡ true → (seen volume.new).records ≡ (seen volume.old).records }
        ensures only { IfErr result (IsOneOf pack_refusals) }
        ensures refused { (t u : Tape) → IsTold R.view (seen volume.old) t → IsTold R.view (seen volume.new) u
            → IsRefusedTo (R.view (seen volume.old).records).record_count t u result }
        ensures may { IfOk result (λ found.
            MayPack (R.view (seen volume.old).records).record_count found.first found.end found.redo
            (slots_held self.new) × (found.redo < 65536)
            × IsTaskWith (R.view (seen volume.old).records).record_count found.end found.redo (slots_held self.new)
            found.task) }
        ensures settled { IfOk result (λ found. (t : Tape) → IsTold R.view (seen volume.new) t → IsSettled t) }
        ensures those { IfOk result (λ found. (t : Tape) → IsTold R.view (seen volume.old) t
            → IsTold R.view (seen volume.new) (settled t) × (v : VolumeModel) × (volume_of (settled t) ≡ Some v)
            × AreThoseOf (R.view (seen volume.old).records).record_count found.first found.end found.redo found.task
            (slots_held self.new) v) }
        ensures settling { OnlySettles R.view (seen volume.old) (seen volume.new) }
        ensures writes { WritesBySettling R.view (seen volume.old) (seen volume.new) result }
        ensures shown { KeepsShown R.view (seen volume.old) (seen volume.new) }
    {
        let listing = volume.dir()?;
        let size = volume.records().size();
        let found = self.take(volume.slots(), &listing, size)?;
        Ok(found)
    }

    /// Holds the slots of a legal directory in memory, without the mark, where nothing refuses the packing, on a medium
    /// of `size` records.
    fn take(&mut self, slots: &SlotTable, listing: &Listing, size: u16) -> Result<Readable, Refusal>
        requires legal { IsLegalDirectory size (header_in listing.now) (map slot_bytes slots.now.slots) }
        requires memory { IsPackerFor size self.old }
        requires small { size ≤ 8192 }
        ensures memory { IsPackerFor size self.new }
        ensures among { IfErr result (IsAmong (NoRedo ∷ NeedsUpgrade ∷ OutOfOrder ∷ [])) }
        ensures refused { IfErr result (λ why. (v : VolumeModel) → IsVolume size v
            → v.slots ≡ map slot_bytes slots.now.slots → pack_refusal size (Some v) ≡ Some why) }
        ensures places { IfOk result (λ found. (found.first ≡ listing.now.start)
            × (found.end ≡ listing.now.start + listing.now.length)) }
        ensures may { IfOk result (λ found. MayPack size found.first found.end found.redo (slots_held self.new)
            × (found.redo < 65536) × IsTaskWith size found.end found.redo (slots_held self.new) found.task) }
        ensures those { IfOk result (λ found. (v : VolumeModel) → IsVolume size v
            → v.slots ≡ map slot_bytes slots.now.slots → directory_start v.header ≡ found.first
            → directory_end v.header ≡ found.end
            → AreThoseOf size found.first found.end found.redo found.task (slots_held self.new) v) }
    {
        if let Some(why) = refusal_of(slots, size) {
            return Err(why);
        }
        let task = task_of(slots, listing, size);
        let redo = redo_place(slots);
        self.hold(slots, redo);
        Ok(Readable {
            first: listing.start,
            end: u32::from(listing.start) + u32::from(listing.length),
            redo,
            task,
        })
    }
}
