//! Which files can be added to a volume: the text that `free` prints.
ghost use Rattle.std.specs.Prelude.{◌≡◌, ◌≤◌, ◌<◌, ◌+◌, ◌++◌, length, map};
ghost use Rattle.lif_model.specs.Volume.{is_adopted};
ghost use Rattle.lif_dir.specs.Entries.{slot_bytes};
ghost use Rattle.lif_plan.specs.Choices.{place_of};
ghost use Rattle.tape_text.specs.Free.{place_for, is_placed, largest_new, largest_text, addition_line, free_text};

use crate::volume::{put_counted, put_volume};
use il_script::Page;
use lif_dir::SlotTable;
use lif_header::Header;
use lif_plan::{Choice, choose, is_redo_file};

/// The most bytes that the text can have.
const FREE_ROOM: usize = 220;

/// Tests if a slot is that of the redo file of a medium of `size` records.
fn is_adopted(size: u16, slots: &SlotTable) -> bool
    ensures { result ≡ is_adopted size (map slot_bytes slots.now.slots) }
{
    'slots: for place in 0..slots.len() {
        if is_redo_file(*slots.entry(place), size) {
            return true;
        }
    }
    false
}

/// Returns the place of a new file of `count` records on a medium of `size` records.
fn place_for(size: u16, header: &Header, slots: &SlotTable, count: u32) -> Choice
    ensures { place_of result ≡ place_for size header.now slots.now.slots count }
{
    let capacity = 8 * u32::from(header.length());
    choose(slots, u32::from(header.end()), capacity, count, size)
}

/// Tests if a new file of `count` records can be added to a volume on a medium of `size` records.
fn can_add(size: u16, header: &Header, slots: &SlotTable, count: u32) -> bool
    ensures { result ≡ is_placed (place_for size header.now slots.now.slots count) }
{
    match place_for(size, header, slots, count) {
        Choice::At { .. } => true,
        Choice::NoSlot | Choice::NoRoom => false,
    }
}

/// Returns the number of records of the largest file that can be added to a volume on a medium of `size` records, or 0
/// if none can be added. If a file can be added, each smaller one can be added too.
fn largest_new(size: u16, header: &Header, slots: &SlotTable) -> u32
    ensures largest { result ≡ largest_new size header.now slots.now.slots }
    ensures bound { result ≤ size }
{
    let mut most = 0;
    let mut beyond = u32::from(size) + 1;
    'search: while most + 1 < beyond {
        let middle = most + (beyond - most) / 2;
        if can_add(size, header, slots, middle) {
            most = middle;
        } else {
            beyond = middle;
        }
    }
    most
}

/// Appends the line of the largest file, which has this many records.
#[tactic(auto, unfolding(crate::specs::Free::largest_text))]
fn put_largest(page: &mut Page, records: u32)
    requires few { records < 65536 }
    requires room { length page.old.text + 100 ≤ page.old.room }
    ensures text { page.new ≡ record page.old { text = page.old.text ++ largest_text records } }
    ensures size { length page.new.text ≤ length page.old.text + 100 }
{
    page.put(b"the largest file that can be added: ");
    put_counted(page, records, b"record");
    page.put(b", ");
    page.put_number(256 * records);
    page.put(b" bytes\n");
}

/// Appends the line that says which file can be added to a volume on a medium of `size` records.
fn put_addition(page: &mut Page, size: u16, header: &Header, slots: &SlotTable)
    requires room { length page.old.text + 100 ≤ page.old.room }
    ensures text { page.new
        ≡ record page.old { text = page.old.text ++ addition_line size header.now slots.now.slots } }
{
    if !is_adopted(size, slots) {
        page.put(b"no file can be added: the volume has no redo file\n");
        return;
    }
    match place_for(size, header, slots, 1) {
        Choice::At { .. } => put_largest(page, largest_new(size, header, slots)),
        Choice::NoSlot => page.put(b"no file can be added: the directory has no slot for it\n"),
        Choice::NoRoom => page.put(
            b"no file can be added: no record is free where a slot is free\n",
        ),
    }
}

/// Appends the text of what is free of a volume on a medium of `size` records: the volume's line, and a line that says
/// which file can be added.
pub(crate) fn put_free_text(page: &mut Page, size: u16, header: &Header, slots: &SlotTable)
    requires { length page.old.text + FREE_ROOM ≤ page.old.room }
    ensures { page.new ≡ record page.old { text = page.old.text ++ free_text size header.now slots.now.slots } }
{
    put_volume(page, size, header, slots);
    put_addition(page, size, header, slots);
}
