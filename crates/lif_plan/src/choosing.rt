ghost use Rattle.std.specs.Prelude.{◌≡◌, ◌+◌, ◌<◌, ◌≤◌, ◌^◌, if◌then◌else◌, max, ◌&&◌, not, nat_le, nat_eq, length, map, drop};
ghost use Rattle.std.specs.List.{list_any};
ghost use Rattle.lif_model.specs.Legal.{is_live, has_records, end_of};
ghost use Rattle.lif_model.specs.Fit.{NoSlot, NoRoom, redo_place, can_append, least_start, fit, fit_beside};
ghost use Rattle.lif_dir.specs.Entries.{entry_bytes, slot_bytes};
ghost use Rattle.lif_plan.specs.Choices.{place_of};

use lif_dir::{FileEntry, SlotTable};
use lif_model::{GATE, REDO_NAME};

/// Where a new file goes.
#[derive(Clone, Copy, Debug, PartialEq, Eq, Drop)]
pub enum Choice {
    /// It takes a slot, and begins at a record.
    At {
        /// The slot: that of a purged file, or the redo entry's own, which then moves on by one.
        slot: u32,
        /// The first record.
        start: u32,
    },
    /// There is no slot that it may take.
    NoSlot,
    /// None of the slots that it may take has room for it.
    NoRoom,
}

/// The place of a new file of `count` records on a medium of `size` records, in a directory that
/// ends before record `directory_end` and has room for `capacity` slots.
///
/// The slots that it may take are those of purged files before the redo entry, in their order, and
/// then the redo entry's own, where this is the last slot and the directory has room for one more.
/// In such a slot it begins after the directory and after the records of every slot before it,
/// and has to end before those of every slot after it and before the gate of the redo file; the
/// records of a purged file count too. The first slot with room is taken. The redo entry is the
/// first live slot named `REDOFILE`; it counts as one after its own slot.
pub fn choose(slots: &SlotTable, directory_end: u32, capacity: u32, count: u32, size: u16) -> Choice
    ensures { place_of result
        ≡ fit size directory_end capacity (map slot_bytes slots.now.slots) count }
{
    choose_beside(slots, &[], directory_end, capacity, count, size)
}

/// The same, where the file may not take the slots that are `barred`: those of files that the batch
/// has purged of which it is a part.
pub fn choose_beside(
    slots: &SlotTable,
    barred: &[usize],
    directory_end: u32,
    capacity: u32,
    count: u32,
    size: u16,
) -> Choice
    ensures { place_of result
        ≡ fit_beside size directory_end capacity (map slot_bytes slots.now.slots) barred.now count }
{
    let gate = u64::from(size.saturating_sub(GATE));
    let count = u64::from(count);
    let redo = redo_place(slots);
    let mut low = u64::from(directory_end);
    let mut seen = false;
    for k in 0..redo {
        let entry = slots.entry(k);
        if may_take(entry, barred, k) {
            if is_free(slots, k + 1, low + count, gate) {
                return Choice::At {
                    slot: k as u32,
                    start: low as u32,
                };
            }
            seen = true;
        }
        low = raised(low, *entry);
    }
    if !can_append(slots, redo, capacity) || is_barred(barred, redo) {
        return refusal(seen);
    }
    if is_free(slots, redo, low + count, gate) {
        Choice::At {
            slot: redo as u32,
            start: low as u32,
        }
    } else {
        Choice::NoRoom
    }
}

/// Whether the slot with this entry is that of a purged file, and none of those that may not be
/// taken.
fn may_take(entry: &FileEntry, barred: &[usize], slot: usize) -> bool
    ensures { result ≡ (not (is_live (entry_bytes entry.now)) && not (list_any (nat_eq slot) barred.now)) }
{
    !entry.is_live() && !is_barred(barred, slot)
}

/// Whether a slot is one of those that may not be taken.
fn is_barred(barred: &[usize], slot: usize) -> bool
    ensures { result ≡ list_any (nat_eq slot) barred.now }
{
    barred.iter().any(|&other| slot == other)
}

/// The place of the redo entry, or the number of slots where there is none.
pub fn redo_place(slots: &SlotTable) -> usize
    ensures value { result ≡ redo_place (map slot_bytes slots.now.slots) }
    ensures within { result ≤ length slots.now.slots }
    ensures bound { result < 2 ^ 32 }
{
    for k in 0..slots.len() {
        if slots.entry(k).is_live_named(REDO_NAME) {
            return k;
        }
    }
    slots.len()
}

/// Whether the redo entry, in slot `redo`, is the last slot and the directory has room for one more.
fn can_append(slots: &SlotTable, redo: usize, capacity: u32) -> bool
    requires redo { redo ≡ redo_place (map slot_bytes slots.now.slots) }
    requires bound { redo < 2 ^ 32 }
    ensures { result ≡ can_append capacity (map slot_bytes slots.now.slots) }
{
    let count = slots.len();
    redo + 1 == count && count < capacity as usize
}

/// Why no slot is taken, where those that may be taken were seen to have no room.
fn refusal(seen: bool) -> Choice
    ensures { place_of result ≡ (if seen then NoRoom else NoSlot) }
{
    if seen { Choice::NoRoom } else { Choice::NoSlot }
}

/// Whether a file that ends before record `end` ends before the gate, and before each file that has
/// records from slot `from` on.
fn is_free(slots: &SlotTable, from: usize, end: u64, gate: u64) -> bool
    requires { from ≤ length slots.now.slots }
    ensures { result ≡ nat_le end (least_start gate (drop from (map slot_bytes slots.now.slots))) }
{
    if end > gate {
        return false;
    }
    for k in from..slots.len() {
        if slots.entry(k).begins_below(end) {
            return false;
        }
    }
    true
}

/// The greater of `low` and the end of the file, if it has records.
fn raised(low: u64, entry: FileEntry) -> u64
    ensures value { result ≡ (if has_records (entry_bytes entry)
        then max low (end_of (entry_bytes entry)) else low) }
    ensures bound { low < 2 ^ 33 → result < 2 ^ 33 }
{
    if entry.has_records() {
        low.max(entry.end())
    } else {
        low
    }
}
