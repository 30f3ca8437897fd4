//! The text of a volume: its line, and the lines of its files.
ghost use Rattle.std.specs.Prelude.{◌≡◌, ◌≤◌, ◌<◌, ◌+◌, ◌*◌, ◌^◌, ◌++◌, length, option_map};
ghost use Rattle.std.specs.List.{flat_map};
ghost use Rattle.tape_text.specs.Listing.{names_of, sizes_of, rest_of, listed_line, heading_of, shown_slot, listing_of};
ghost use Rattle.tape_text.specs.Columns.{AreNarrow};

use crate::cells::{self, WIDEST};
use crate::columns::{Widths, put_left, put_right, widths_of};
use crate::shown::shown;
use crate::volume::put_volume;
use il_script::Page;
use lif_dir::{FileEntry, Slot, SlotTable};
use lif_header::Header;

/// The most bytes that a line can have.
const LINE: usize = 240;

/// Appends the name and the type of a file.
#[tactic(auto, unfolding(crate::specs::Listing::names_of))]
fn put_names(page: &mut Page, cell: &mut Page, widths: Widths, entry: &FileEntry)
    requires cell { cell.old.room ≡ WIDEST }
    requires narrow { AreNarrow widths }
    requires room { length page.old.text + 84 ≤ page.old.room }
    ensures text { page.new ≡ record page.old { text = page.old.text ++ names_of widths entry.now } }
    ensures size { length page.new.text ≤ length page.old.text + 84 }
    ensures cell { cell.new.room ≡ WIDEST }
{
    cells::name(cell, entry);
    put_left(page, cell.text(), widths.name);
    page.put(b"  ");
    cells::kind(cell, entry);
    put_left(page, cell.text(), widths.kind);
    page.put(b"  ");
}

/// Appends the numbers of records and bytes of a file.
#[tactic(auto, unfolding(crate::specs::Listing::sizes_of))]
fn put_sizes(page: &mut Page, cell: &mut Page, widths: Widths, entry: &FileEntry)
    requires cell { cell.old.room ≡ WIDEST }
    requires narrow { AreNarrow widths }
    requires room { length page.old.text + 98 ≤ page.old.room }
    ensures text { page.new ≡ record page.old { text = page.old.text ++ sizes_of widths entry.now } }
    ensures size { length page.new.text ≤ length page.old.text + 98 }
    ensures cell { cell.new.room ≡ WIDEST }
{
    cells::records(cell, entry);
    put_right(page, cell.text(), widths.records);
    page.put(b" records  ");
    cells::bytes(cell, entry);
    put_right(page, cell.text(), widths.bytes);
    page.put(b" bytes  ");
}

/// Appends the date and the implementation field of a file, and the end of its line.
#[tactic(auto, unfolding(crate::specs::Listing::rest_of))]
fn put_rest(page: &mut Page, cell: &mut Page, widths: Widths, entry: &FileEntry)
    requires cell { cell.old.room ≡ WIDEST }
    requires narrow { AreNarrow widths }
    requires room { length page.old.text + 51 ≤ page.old.room }
    ensures text { page.new ≡ record page.old { text = page.old.text ++ rest_of widths entry.now } }
    ensures size { length page.new.text ≤ length page.old.text + 51 }
    ensures cell { cell.new.room ≡ WIDEST }
{
    cells::date(cell, entry);
    put_left(page, cell.text(), widths.date);
    page.put(b"  ");
    page.put_hex(&entry.implementation);
    page.put(b"\n");
}

/// Appends the line of a file.
fn put_line(page: &mut Page, cell: &mut Page, widths: Widths, entry: &FileEntry)
    requires cell { cell.old.room ≡ WIDEST }
    requires narrow { AreNarrow widths }
    requires room { length page.old.text + LINE ≤ page.old.room }
    ensures text { page.new ≡ record page.old { text = page.old.text ++ listed_line widths entry.now } }
    ensures size { length page.new.text ≤ length page.old.text + LINE }
    ensures cell { cell.new.room ≡ WIDEST }
{
    put_names(page, cell, widths, entry);
    put_sizes(page, cell, widths, entry);
    put_rest(page, cell, widths, entry);
}

/// Appends the line of the file of a slot, if it has one.
fn put_slot(page: &mut Page, cell: &mut Page, widths: Widths, all: bool, size: u16, slot: &Slot)
    requires cell { cell.old.room ≡ WIDEST }
    requires narrow { AreNarrow widths }
    requires room { length page.old.text + LINE ≤ page.old.room }
    ensures text { page.new
        ≡ record page.old { text = page.old.text ++ flat_map (listed_line widths) (shown_slot all size slot.now) } }
    ensures size { length page.new.text ≤ length page.old.text + LINE }
    ensures cell { cell.new.room ≡ WIDEST }
{
    match shown(all, size, slot) {
        Some(entry) => put_line(page, cell, widths, entry),
        None => {}
    }
}

/// Appends the text of a volume on a medium of `size` records: its line, and a line for each file, also for the redo
/// file if `all` is set. Each cell is made in `cell`, which has room for `WIDEST` bytes.
pub(crate) fn put_listing(
    page: &mut Page,
    cell: &mut Page,
    all: bool,
    size: u16,
    header: &Header,
    slots: &SlotTable,
)
    requires cell { cell.old.room ≡ WIDEST }
    requires room { length page.old.text + LINE * (length slots.now.slots + 1) ≤ page.old.room }
    ensures text { page.new
        ≡ record page.old { text = page.old.text ++ listing_of all size header.now slots.now.slots } }
    ensures size { length page.new.text ≤ length page.old.text + LINE * (length slots.now.slots + 1) }
{
    let widths = widths_of(cell, all, size, slots);
    put_volume(page, size, header, slots);
    'slots: for place in 0..slots.len() {
        put_slot(page, cell, widths, all, size, slots.get(place));
    }
}

/// The number of bytes of a heading.
pub(crate) fn heading_size(heading: Option<&str>) -> usize
    ensures size { result ≡ length (heading_of (option_map (λ name. name.now) heading.entry)) }
    ensures bound { result < 2 ^ 63 + 2 }
{
    match heading {
        Some(name) => name.len() + 2,
        None => 0,
    }
}

/// Appends the name of an image as a line, if it has a heading.
pub(crate) fn put_heading(page: &mut Page, heading: Option<&str>)
    requires room { length page.old.text + length (heading_of (option_map (λ name. name.now) heading)) ≤ page.old.room }
    ensures { page.new
        ≡ record page.old { text = page.old.text ++ heading_of (option_map (λ name. name.now) heading.entry) } }
{
    if let Some(name) = heading {
        page.put(name.as_bytes());
        page.put(b":\n");
    }
}
