//! The choice of place.
ghost use Rattle.std.specs.Prelude.{◌≡◌, ◌+◌, ◌<◌, ◌≤◌, ◌^◌, nat_le, true, false, length, MatchOption};
ghost use Rattle.lif_model.specs.Legal.{is_live_named};
ghost use Rattle.lif_model.specs.Volume.{redo_name};
ghost use Rattle.lif_model.specs.Fit.{redo_place, greatest_end, least_start, low_of, high_of, fit};
ghost use Rattle.lif_model.specs.Plain.{place_of};

use crate::fields::{end_of, has_records, is_purged, name_of, start_of};

/// Where a new file goes.
#[derive(Clone, Copy, Debug, PartialEq, Eq, Drop)]
pub enum Spot {
    /// The slot that it takes, and its first record.
    At(usize, u64),
    /// No slot may be taken.
    NoSlot,
    /// No slot that may be taken has room.
    NoRoom,
}

/// Whether the slot is that of a live file named REDOFILE.
fn is_redo_slot(slot: &[u8; 32]) -> bool
    ensures { result ≡ is_live_named redo_name slot.now }
{
    !is_purged(slot) && name_of(slot) == b"REDOFILE  ".as_slice()
}

/// The place of the first such slot, or the number of slots.
fn redo_place(slots: &[[u8; 32]]) -> usize
    ensures value { result ≡ redo_place slots.now }
    ensures bound { result ≤ length slots.now }
{
    for i in 0..slots.len() {
        if is_redo_slot(&slots[i]) {
            return i;
        }
    }
    slots.len()
}

/// The greatest of a number and the ends of the slots that have records.
fn greatest_end(low: u64, slots: &[[u8; 32]]) -> u64
    ensures value { result ≡ greatest_end low slots.now }
    ensures bound { low < 2 ^ 33 → result < 2 ^ 33 }
{
    let mut greatest = low;
    for slot in slots {
        if has_records(slot) {
            greatest = greatest.max(end_of(slot));
        }
    }
    greatest
}

/// The least of a number and the starts of the slots that have records.
fn least_start(high: u64, slots: &[[u8; 32]]) -> u64
    ensures { result ≡ least_start high slots.now }
{
    let mut least = high;
    for slot in slots {
        if has_records(slot) {
            least = least.min(start_of(slot));
        }
    }
    least
}

/// The first record for a file in the slot, where it has room.
fn start_in(
    n: u64,
    directory_end: u64,
    slots: &[[u8; 32]],
    redo: usize,
    i: usize,
    count: u64,
) -> Option<u64>
    requires redo { redo ≡ redo_place slots.now }
    requires place { i < length slots.now }
    requires low { directory_end < 2 ^ 33 }
    requires count { count < 2 ^ 33 }
    ensures { MatchOption result (nat_le (low_of directory_end slots.now i + count) (high_of n slots.now i) ≡ false)
        (λ start. (start ≡ low_of directory_end slots.now i)
        × (nat_le (low_of directory_end slots.now i + count) (high_of n slots.now i) ≡ true)) }
{
    let low = greatest_end(directory_end, &slots[..i]);
    let high = if i == redo {
        least_start(n.saturating_sub(4), &slots[i..])
    } else {
        least_start(n.saturating_sub(4), &slots[i + 1..])
    };
    if low + count <= high { Some(low) } else { None }
}

/// The place for a file of `count` records on a tape of n records, in a directory that ends before record
/// `directory_end` and has room for `capacity` slots: the purged slots before that of the redo file come first, and
/// then its own where it is the last one and a slot more fits.
pub fn plain_fit(
    n: u64,
    directory_end: u64,
    capacity: usize,
    slots: &[[u8; 32]],
    count: u64,
) -> Spot
    requires low { directory_end < 2 ^ 33 }
    requires count { count < 2 ^ 33 }
    ensures { place_of result ≡ fit n directory_end capacity slots.now count }
{
    let redo = redo_place(slots);
    let mut seen = false;
    for i in 0..redo {
        if is_purged(&slots[i]) {
            match start_in(n, directory_end, slots, redo, i, count) {
                Some(start) => return Spot::At(i, start),
                None => seen = true,
            }
        }
    }
    if redo < slots.len() && (redo + 1 == slots.len() && slots.len() < capacity) {
        match start_in(n, directory_end, slots, redo, redo, count) {
            Some(start) => Spot::At(redo, start),
            None => Spot::NoRoom,
        }
    } else if seen {
        Spot::NoRoom
    } else {
        Spot::NoSlot
    }
}
