//! The first line of a listing: how much of the volume is used and free.
ghost use Rattle.std.specs.Prelude.{◌≡◌, ◌≤◌, ◌+◌, ◌-◌, ◌^◌, ◌++◌, if◌then◌else◌, length, map, take};
ghost use Rattle.lif_model.specs.Directory.{is_purged};
ghost use Rattle.lif_model.specs.Fit.{redo_place, purged_from};
ghost use Rattle.lif_dir.specs.Entries.{entry_bytes, slot_bytes};
ghost use Rattle.tape_text.specs.Listing.{slot_records, records_held, room_of};
ghost use Rattle.tape_text.specs.Listing.{plural_of, used_of, free_of, volume_summary};

use crate::shown::files_of;
use il_script::Page;
use lif_dir::{FileEntry, Slot, SlotTable};
use lif_header::Header;
use lif_plan::redo_place;

/// How much of a volume is used and free.
#[derive(Clone, Copy)]
pub struct Room {
    /// The files, without the redo file.
    pub files: u32,
    /// The slots of purged files that a new file can take: those before the redo file's slot, or all if there is none.
    pub purged: u32,
    /// The slots after the last entry.
    pub slots: u32,
    /// The records after the directory that no file has.
    pub records: u32,
}

/// Returns 1 for a purged file, and 0 for a live one.
fn purged_at(entry: &FileEntry) -> u32
    ensures count { result ≡ (if is_purged (entry_bytes entry.now) then 1 else 0) }
    ensures bound { result ≤ 1 }
{
    if entry.is_live() { 0 } else { 1 }
}

/// Returns the number of purged slots that a new file can take.
fn purged_of(slots: &SlotTable) -> u32
    ensures { result ≡ length (purged_from 0
        (map slot_bytes (take (redo_place (map slot_bytes slots.now.slots)) slots.now.slots))) }
{
    let mut purged = 0;
    'slots: for place in 0..redo_place(slots) {
        purged += purged_at(slots.entry(place));
    }
    purged
}

/// Returns the number of records of a live slot, and 0 for any other.
fn records_at(slot: &Slot) -> u32
    ensures { result ≡ slot_records slot.now }
{
    match slot {
        Slot::Live(entry) => entry.length,
        Slot::Purged(_) | Slot::End => 0,
    }
}

/// Returns the number of records of all live slots.
fn records_held(slots: &SlotTable) -> u64
    ensures { result ≡ records_held slots.now.slots }
{
    let mut held = 0;
    'slots: for place in 0..slots.len() {
        held += u64::from(records_at(slots.get(place)));
    }
    held
}

/// Returns the number of records after the directory that no file has, 0 if the files have more.
fn records_free(size: u16, header: &Header, held: u64) -> u32
    ensures { result ≡ size - (header.now.start + header.now.length) - held }
{
    u64::from(size.saturating_sub(header.end())).saturating_sub(held) as u32
}

/// Returns how much of a volume on a medium of `size` records is used and free.
fn room_of(size: u16, header: &Header, slots: &SlotTable) -> Room
    ensures { result ≡ room_of size header.now slots.now.slots }
{
    let capacity = 8 * u32::from(header.length());
    Room {
        files: files_of(false, size, slots),
        purged: purged_of(slots),
        slots: capacity.saturating_sub(slots.len() as u32),
        records: records_free(size, header, records_held(slots)),
    }
}

/// Appends a number with a noun of at most 6 letters, which ends in `s` if the number is not 1.
#[tactic(auto, unfolding(crate::specs::Listing::plural_of))]
pub(crate) fn put_counted(page: &mut Page, number: u32, noun: &[u8])
    requires noun { length noun.now ≤ 6 }
    requires room { length page.old.text + 18 ≤ page.old.room }
    ensures text { page.new ≡ record page.old { text = page.old.text ++ plural_of number noun.now } }
    ensures size { length page.new.text ≤ length page.old.text + 18 }
{
    page.put_number(number);
    page.put(b" ");
    page.put(noun);
    page.put(if number == 1 { b"" } else { b"s" });
}

/// Appends the label, the number of files and that of purged slots.
#[tactic(auto, unfolding(crate::specs::Listing::used_of))]
fn put_used(page: &mut Page, header: &Header, room: Room)
    requires room { length page.old.text + 70 ≤ page.old.room }
    ensures text { page.new ≡ record page.old { text = page.old.text ++ used_of header.now room } }
    ensures size { length page.new.text ≤ length page.old.text + 70 }
{
    page.put(b"volume ");
    page.put_name(&header.label());
    page.put(b", ");
    put_counted(page, room.files, b"file");
    page.put(b", ");
    page.put_number(room.purged);
    page.put(b" purged, ");
}

/// Appends the numbers of free slots and free records.
#[tactic(auto, unfolding(crate::specs::Listing::free_of))]
fn put_free(page: &mut Page, room: Room)
    requires room { length page.old.text + 50 ≤ page.old.room }
    ensures text { page.new ≡ record page.old { text = page.old.text ++ free_of room } }
    ensures size { length page.new.text ≤ length page.old.text + 50 }
{
    put_counted(page, room.slots, b"slot");
    page.put(b" free, ");
    put_counted(page, room.records, b"record");
    page.put(b" free\n");
}

/// Appends the line of a volume, at most 120 bytes.
pub(crate) fn put_volume(page: &mut Page, size: u16, header: &Header, slots: &SlotTable)
    requires room { length page.old.text + 120 ≤ page.old.room }
    ensures text { page.new ≡ record page.old {
      text = page.old.text ++ volume_summary header.now (room_of size header.now slots.now.slots);
    } }
    ensures size { length page.new.text ≤ length page.old.text + 120 }
{
    let room = room_of(size, header, slots);
    put_used(page, header, room);
    put_free(page, room);
}
