//! What the reply of a packing says: how many files it moves, and how many records are free after it.
ghost use Rattle.std.specs.Prelude.{◌≡◌, ◌<◌, ◌≤◌, ◌^◌, ℕ, length, map, take};
ghost use Rattle.lif_model.specs.Header.{directory_end};
ghost use Rattle.lif_model.specs.Volume.{Volume};
ghost use Rattle.lif_dir.specs.Entries.{slot_bytes};
ghost use Rattle.lif_model.specs.Packing.{live_records, files_moved, records_free};
ghost use Rattle.lif_pack.specs.Steps.{MayPack};

use crate::placed::{live_length, stands_at};
use lif_dir::SlotTable;
use lif_model::Version;

/// How many files begin elsewhere than packing makes them begin. They stand before the redo entry, which is slot
/// `redo`, and the directory ends before record `end`.
pub fn files_moved(slots: &SlotTable, redo: usize, end: u32) -> usize
    requires within { redo ≤ length slots.now.slots }
    requires within_word { redo < 2 ^ 32 }
    requires small { end < 2 ^ 17 }
    ensures count { (n first : ℕ) → MayPack n first end redo (map slot_bytes slots.now.slots) → (v : Volume)
        → v.slots ≡ map slot_bytes slots.now.slots → directory_end v.header ≡ end → result ≡ files_moved n v }
    ensures few { result ≤ redo }
{
    let mut place = u64::from(end);
    let mut moved = 0;
    for k in 0..redo {
        let entry = *slots.entry(k);
        if !stands_at(entry, place) {
            moved += 1;
        }
        place += u64::from(live_length(entry));
    }
    moved
}

/// How many records are free between the files, once they are packed, and the redo file, on a medium of `size`
/// records. The files stand before slot `redo`, and the directory ends before record `end`.
pub fn records_free(slots: &SlotTable, redo: usize, end: u32, size: u16) -> u16
    requires may { (first : ℕ) × MayPack size first end redo (map slot_bytes slots.now.slots) }
    requires few { redo < 2 ^ 32 }
    ensures { (v : Volume) → v.slots ≡ map slot_bytes slots.now.slots → directory_end v.header ≡ end
        → result ≡ records_free size v }
{
    let used = u64::from(end) + records_before(slots, redo);
    Version::Two.start(size) - used as u16
}

/// How many records the live files before slot `count` have.
fn records_before(slots: &SlotTable, count: usize) -> u64
    requires within { count ≤ length slots.now.slots }
    requires few { count < 2 ^ 32 }
    ensures { result ≡ live_records (take count (map slot_bytes slots.now.slots)) }
{
    let mut records = 0;
    for k in 0..count {
        records += u64::from(live_length(*slots.entry(k)));
    }
    records
}
