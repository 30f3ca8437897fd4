//! The mark of a file that is being moved: what a directory in memory says of it.
ghost use Rattle.std.specs.Prelude.{◌≡◌, ◌≢◌, ◌<◌, ◌≤◌, ◌-◌, ◌&&◌, ◌^◌, nat_lt, None, IfSome, length, map};
ghost use Rattle.lif_model.specs.Header.{directory_end};
ghost use Rattle.lif_model.specs.Directory.{length_of};
ghost use Rattle.lif_model.specs.declared.version.Version.TheVariants.{Two};
ghost use Rattle.lif_model.specs.Legal.{is_live};
ghost use Rattle.lif_model.specs.Volume.{Volume, IsVolume};
ghost use Rattle.lif_model.specs.Fit.{redo_place};
ghost use Rattle.lif_dir.specs.Entries.{entry_bytes, slot_bytes};
ghost use Rattle.lif_pack.specs.Marks.{MayBeMoved, IsMoving, IsMarkOf};

use crate::placed::{is_in_order, length_of, packed_end, start_of};
use lif_dir::{FileEntry, SlotTable};
use lif_header::two_at;
use lif_model::{REDO_NAME, Version};
use lif_plan::is_redo_entry;

/// A file that is being moved down, onto its own old records too.
#[derive(Clone, Copy, Drop)]
pub struct Move {
    /// Its slot.
    pub slot: usize,
    /// The first record of its place.
    pub place: u32,
    /// The first record of the file as it stood.
    pub start: u32,
    /// How many records it has.
    pub length: u32,
    /// How many of them stand at its place.
    pub moved: u16,
}

/// A mark in the redo entry.
#[derive(Clone, Copy, Drop)]
pub struct Mark {
    /// The slot of the redo entry.
    pub redo: usize,
    /// The slot of the file that it tells of, plus one.
    pub number: u16,
    /// How many records of that file stand at its place.
    pub moved: u16,
}

/// The mark of a legal directory on a medium of `size` records. `None` where the redo file is not of version 2, or has
/// no mark.
pub fn mark_of(slots: &SlotTable, size: u16) -> Option<Mark>
    ensures mark { (v : Volume) → IsVolume size v → v.slots ≡ map slot_bytes slots.now.slots → IsMarkOf size v result }
    ensures redo { IfSome result (λ mark. (mark.redo ≡ redo_place (map slot_bytes slots.now.slots))
        × (mark.redo < length slots.now.slots)) }
    ensures bound { IfSome result (λ mark. mark.redo < 2 ^ 32) }
{
    let redo = redo_place(slots);
    if redo == slots.len() {
        return None;
    }
    let entry = *slots.entry(redo);
    if !is_redo_entry(entry, size, Version::Two) {
        return None;
    }
    let bytes = entry.bytes();
    let number = two_at(&bytes, 28);
    let moved = two_at(&bytes, 30);
    if number == 0 && moved == 0 {
        return None;
    }
    Some(Mark {
        redo,
        number,
        moved,
    })
}

/// The place of the redo entry, or the number of slots where there is none.
pub fn redo_place(slots: &SlotTable) -> usize
    ensures value { result ≡ redo_place (map slot_bytes slots.now.slots) }
    ensures within { result ≤ length slots.now.slots }
    ensures bound { result < 2 ^ 32 }
{
    for k in 0..slots.len() {
        if slots.entry(k).is_live_named(REDO_NAME) {
            return k;
        }
    }
    slots.len()
}

/// The file of a mark, in a directory that ends before record `end`. `None` where the mark is not good.
pub fn named(slots: &SlotTable, mark: &Mark, end: u32) -> Option<Move>
    requires place { mark.now.redo ≡ redo_place (map slot_bytes slots.now.slots) }
    requires within { mark.now.redo < length slots.now.slots }
    requires bound { mark.now.redo < 2 ^ 32 }
    requires end { end < 2 ^ 17 }
    ensures may { IfSome result (MayBeMoved (map slot_bytes slots.now.slots)) }
    ensures none { mark.now.number ≡ 0 → result ≡ None }
    ensures found { mark.now.number ≢ 0 → (v : Volume) → v.slots ≡ map slot_bytes slots.now.slots
        → directory_end v.header ≡ end → IsMoving v (mark.now.number - 1) mark.now.moved result }
{
    if mark.number == 0 {
        return None;
    }
    moving(
        slots,
        mark.redo,
        usize::from(mark.number) - 1,
        mark.moved,
        end,
    )
}

/// The file in a slot, where so many of its records may stand at its place already.
fn moving(slots: &SlotTable, redo: usize, slot: usize, moved: u16, end: u32) -> Option<Move>
    requires place { redo ≡ redo_place (map slot_bytes slots.now.slots) }
    requires within { redo < length slots.now.slots }
    requires bound { redo < 2 ^ 32 }
    requires number { slot < 65535 }
    requires end { end < 2 ^ 17 }
    ensures may { IfSome result (MayBeMoved (map slot_bytes slots.now.slots)) }
    ensures moving { (v : Volume) → v.slots ≡ map slot_bytes slots.now.slots → directory_end v.header ≡ end
        → IsMoving v slot moved result }
{
    if slot >= redo {
        return None;
    }
    let entry = *slots.entry(slot);
    if !is_part_of(entry, moved) {
        return None;
    }
    if !is_in_order(slots, redo) {
        return None;
    }
    let Some(place) = packed_end(slots, slot, u64::from(end)) else {
        return None;
    };
    let start = start_of(entry);
    if place >= u64::from(start) {
        return None;
    }
    Some(Move {
        slot,
        place: place as u32,
        start,
        length: length_of(entry),
        moved,
    })
}

/// Whether so many records are a part of the live file: some of them, and not all.
fn is_part_of(entry: FileEntry, moved: u16) -> bool
    ensures { result ≡ (is_live (entry_bytes entry)
        && (nat_lt 0 moved && nat_lt moved (length_of (entry_bytes entry)))) }
{
    entry.is_live() && moved > 0 && u32::from(moved) < length_of(entry)
}
