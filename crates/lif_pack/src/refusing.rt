//! Why a volume is not packed.
ghost use Rattle.std.specs.Prelude.{◌≡◌, ◌<◌, if◌then◌else◌, ℕ, [], length, get_or, Some, None, map};
ghost use Rattle.lif_model.specs.declared.version.Version.TheVariants.{One};
ghost use Rattle.lif_model.specs.declared.refusal.Refusal.TheVariants as refusal;
ghost use Rattle.lif_model.specs.Volume.{Volume, IsVolume, is_redo_entry};
ghost use Rattle.lif_dir.specs.Entries.{entry_bytes, slot_bytes};
ghost use Rattle.lif_model.specs.Packing.{pack_refusal};
ghost use Rattle.lif_pack.specs.Steps.{HasPlainStart};

use crate::marks::redo_place;
use crate::placed::is_in_order;
use lif_dir::{FileEntry, SlotTable};
use lif_model::{Refusal, Version};
use lif_plan::is_redo_entry;

/// Why the volume with these slots is not packed, on a medium of `size` records. `None` where it may be.
pub fn refusal_of(slots: &SlotTable, size: u16) -> Option<Refusal>
    ensures refusal { (v : Volume) → IsVolume size v → v.slots ≡ map slot_bytes slots.now.slots
        → result ≡ pack_refusal size (Some v) }
    ensures plain { result ≡ None → (k : ℕ) → k < length slots.now.slots
        → HasPlainStart (get_or (map slot_bytes slots.now.slots) k []) }
{
    let redo = redo_place(slots);
    if redo == slots.len() {
        return Some(Refusal::NoRedo);
    }
    let entry = *slots.entry(redo);
    if !is_redo_entry(entry, size, Version::Two) {
        return Some(other_redo(entry, size));
    }
    if !is_in_order(slots, redo) {
        return Some(Refusal::OutOfOrder);
    }
    None
}

/// What refuses a volume whose redo file, if the entry is that of one, is not of version 2.
fn other_redo(entry: FileEntry, size: u16) -> Refusal
    ensures { result ≡ (if is_redo_entry size One (entry_bytes entry) then refusal.NeedsUpgrade else refusal.NoRedo) }
{
    if is_redo_entry(entry, size, Version::One) {
        Refusal::NeedsUpgrade
    } else {
        Refusal::NoRedo
    }
}
