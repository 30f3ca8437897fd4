//! Whether the files of a directory stand in order, and at their places.
ghost use Rattle.std.specs.Prelude.{◌≡◌, ◌<◌, ◌≤◌, ◌+◌, ◌^◌, ℕ, [], true, false, None, IfSome};
ghost use Rattle.std.specs.Prelude.{length, map, filter, take, drop, get_or};
ghost use Rattle.std.specs.List.{list_all};
ghost use Rattle.lif_model.specs.Pairs.{all_pairs};
ghost use Rattle.lif_model.specs.Directory.{start_of, length_of, is_purged};
ghost use Rattle.lif_model.specs.Legal.{occupies};
ghost use Rattle.lif_model.specs.Fit.{redo_place};
ghost use Rattle.lif_dir.specs.Entries.{entry_bytes, slot_bytes};
ghost use Rattle.lif_model.specs.Packing.{rises, is_in_order, live_length, live_records, stands_at, are_packed};
ghost use Rattle.lif_pack.specs.Steps.{HasPlainStart, MayPack, ArePlaced};

use lif_dir::{FileEntry, SlotTable};

/// The first record of the file.
pub fn start_of(entry: FileEntry) -> u32
    ensures { result ≡ start_of (entry_bytes entry) }
{
    entry.start
}

/// How many records the file has.
pub fn length_of(entry: FileEntry) -> u32
    ensures { result ≡ length_of (entry_bytes entry) }
{
    entry.length
}

/// Whether the file is live and has records.
pub fn occupies(entry: FileEntry) -> bool
    ensures value { result ≡ occupies (entry_bytes entry) }
    ensures plain { HasPlainStart (entry_bytes entry) }
{
    entry.is_live() && entry.has_records()
}

/// Whether the file, if it is live and has records, begins at this place.
pub fn stands_at(entry: FileEntry, place: u64) -> bool
    ensures { result ≡ stands_at place (entry_bytes entry) }
{
    !occupies(entry) || u64::from(start_of(entry)) == place
}

/// How many records the file has, if it is live.
pub fn live_length(entry: FileEntry) -> u32
    ensures { result ≡ live_length (entry_bytes entry) }
{
    if entry.is_live() { length_of(entry) } else { 0 }
}

/// Whether the files that have records rise in slot order, and no live slot stands after the redo entry, which is slot
/// `redo`.
pub fn is_in_order(slots: &SlotTable, redo: usize) -> bool
    requires place { redo ≡ redo_place (map slot_bytes slots.now.slots) }
    requires within { redo < length slots.now.slots }
    requires bound { redo < 2 ^ 32 }
    ensures order { result ≡ is_in_order (map slot_bytes slots.now.slots) }
    ensures plain { result ≡ true → (k : ℕ) → k < length slots.now.slots
        → HasPlainStart (get_or (map slot_bytes slots.now.slots) k []) }
{
    do_rise(slots) && are_purged(slots, redo + 1)
}

/// Whether the files that have records rise in slot order.
fn do_rise(slots: &SlotTable) -> bool
    ensures rise { result ≡ all_pairs rises (filter occupies (map slot_bytes slots.now.slots)) }
    ensures plain { result ≡ true → (k : ℕ) → k < length slots.now.slots
        → HasPlainStart (get_or (map slot_bytes slots.now.slots) k []) }
{
    let mut bound = 0;
    for k in 0..slots.len() {
        let entry = *slots.entry(k);
        if occupies(entry) {
            let start = u64::from(start_of(entry));
            if start < bound {
                return false;
            }
            bound = start + 1;
        }
    }
    true
}

/// Whether the slots from slot `from` on are purged.
fn are_purged(slots: &SlotTable, from: usize) -> bool
    requires { from ≤ length slots.now.slots }
    ensures { result ≡ list_all is_purged (drop from (map slot_bytes slots.now.slots)) }
{
    for k in from..slots.len() {
        if slots.entry(k).is_live() {
            return false;
        }
    }
    true
}

/// The place after the first `count` slots, where their files stand at their places, of which the first is `first`; and
/// `None` where they do not.
pub fn packed_end(slots: &SlotTable, count: usize, first: u64) -> Option<u64>
    requires within { count ≤ length slots.now.slots }
    requires few { count < 2 ^ 32 }
    requires small { first < 2 ^ 17 }
    ensures packed { IfSome result (λ place. (are_packed first (take count (map slot_bytes slots.now.slots)) ≡ true)
        × (place ≡ first + live_records (take count (map slot_bytes slots.now.slots)))) }
    ensures not_packed { result ≡ None → are_packed first (take count (map slot_bytes slots.now.slots)) ≡ false }
{
    let mut place = first;
    for k in 0..count {
        let entry = *slots.entry(k);
        if !stands_at(entry, place) {
            return None;
        }
        place += u64::from(live_length(entry));
    }
    Some(place)
}

/// The first slot before the redo entry whose file does not stand at its place, or the redo entry where each does, and
/// the place there. The redo entry is slot `redo`, and the directory ends before record `end`.
pub fn placed_front(slots: &SlotTable, redo: usize, end: u32) -> (usize, u32)
    requires may { (n first : ℕ) × (n < 2 ^ 16) × MayPack n first end redo (map slot_bytes slots.now.slots) }
    ensures placed { ArePlaced end result.0 result.1 (map slot_bytes slots.now.slots) }
    ensures within { result.0 ≤ redo }
    ensures longest { (count : ℕ) → count ≤ redo
        → are_packed end (take count (map slot_bytes slots.now.slots)) ≡ true → count ≤ result.0 }
{
    let mut place = end;
    for k in 0..redo {
        let entry = *slots.entry(k);
        if !stands_at(entry, u64::from(place)) {
            return (k, place);
        }
        place += live_length(entry);
    }
    (redo, place)
}
