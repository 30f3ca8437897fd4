//! The records of a medium as characters, 64 in a row: the text that `map` prints.
ghost use Rattle.std.specs.Prelude.{◌≡◌, ◌≤◌, ◌<◌, ◌+◌, ◌*◌, ◌++◌, ◌∷◌, [], Bool, length, codes};
ghost use Rattle.tape_text.specs.Columns.{AreNarrow};
ghost use Rattle.tape_text.specs.Listing.{shown_slot, shown_files, widths_of};
ghost use Rattle.tape_text.specs.Map.{letter_of, sign_of, row_start, row_end, for_records, record_sign};
ghost use Rattle.tape_text.specs.Map.{legend_line, legend_from, map_text};

use crate::cells::{self, WIDEST};
use crate::columns::{Widths, put_left, put_right, widths_of};
use crate::holders::{Holder, holder_of};
use crate::shown::shown;
use crate::volume::put_volume;
use il_script::Page;
use lif_dir::{FileEntry, Slot, SlotTable};
use lif_header::Header;

/// The most bytes that a record takes in the map, with the start and the end of its row.
const SIGN: usize = 44;

/// The most bytes that a line of the legend can have.
const LEGEND: usize = 110;

/// The most bytes that the first line and the last line have together.
const FIRST_AND_LAST: usize = 180;

/// Returns the letter of the file of this number.
fn letter_of(number: u32) -> u8
    ensures { result ≡ letter_of number }
{
    b"abcdefghijklmnopqrstuvwxyz0123456789"[(number % 36) as usize]
}

/// Returns the character for a record that belongs to this holder.
fn sign_of(holder: Holder) -> u8
    ensures { result ≡ sign_of holder }
{
    match holder {
        Holder::Header => b'H',
        Holder::Unused => b'-',
        Holder::Directory => b'D',
        Holder::Redo => b'R',
        Holder::File(number, _) => letter_of(number),
        Holder::Nothing => b'.',
    }
}

/// Appends the number of a record if it is the first one of a row.
#[tactic(auto, unfolding(crate::specs::Map::row_start))]
fn put_row_start(page: &mut Page, cell: &mut Page, record_number: u32)
    requires cell { cell.old.room ≡ WIDEST }
    requires room { length page.old.text + 42 ≤ page.old.room }
    ensures text { page.new ≡ record page.old { text = page.old.text ++ row_start record_number } }
    ensures size { length page.new.text ≤ length page.old.text + 42 }
    ensures cell { cell.new.room ≡ WIDEST }
{
    if record_number % 64 == 0 {
        cell.clear();
        cell.put_number(record_number);
        put_right(page, cell.text(), 4);
        page.put(b"  ");
    }
}

/// Appends a line feed if a record is the last one of a row on a medium of `size` records.
#[tactic(auto, unfolding(crate::specs::Map::row_end))]
fn put_row_end(page: &mut Page, size: u16, record_number: u32)
    requires record { record_number < size }
    requires room { length page.old.text + 1 ≤ page.old.room }
    ensures text { page.new ≡ record page.old { text = page.old.text ++ row_end size record_number } }
    ensures size { length page.new.text ≤ length page.old.text + 1 }
{
    if record_number % 64 == 63 || record_number + 1 == u32::from(size) {
        page.put(b"\n");
    }
}

/// Appends the character for a record that belongs to this holder.
fn put_holder(page: &mut Page, holder: Holder)
    requires room { length page.old.text + 1 ≤ page.old.room }
    ensures text { page.new ≡ record page.old { text = page.old.text ++ (sign_of holder ∷ []) } }
    ensures size { length page.new.text ≡ length page.old.text + 1 }
{
    page.put(&[sign_of(holder)]);
}

/// Appends the character for a record of a medium of `size` records, with the start and the end of its row.
fn put_sign(
    page: &mut Page,
    cell: &mut Page,
    size: u16,
    header: &Header,
    slots: &SlotTable,
    record_number: u32,
)
    requires record { record_number < size }
    requires cell { cell.old.room ≡ WIDEST }
    requires room { length page.old.text + SIGN ≤ page.old.room }
    ensures text { page.new
        ≡ record page.old { text = page.old.text ++ record_sign size header.now slots.now.slots record_number } }
    ensures size { length page.new.text ≤ length page.old.text + SIGN }
    ensures cell { cell.new.room ≡ WIDEST }
{
    put_row_start(page, cell, record_number);
    put_holder(page, holder_of(size, header, slots, record_number));
    put_row_end(page, size, record_number);
}

/// Appends the characters for all records of a medium of `size` records.
fn put_signs(page: &mut Page, cell: &mut Page, size: u16, header: &Header, slots: &SlotTable)
    requires cell { cell.old.room ≡ WIDEST }
    requires room { length page.old.text + SIGN * size ≤ page.old.room }
    ensures text { page.new
        ≡ record page.old { text = page.old.text ++ for_records (record_sign size header.now slots.now.slots) 0 size } }
    ensures size { length page.new.text ≤ length page.old.text + SIGN * size }
    ensures cell { cell.new.room ≡ WIDEST }
{
    'records: for record_number in 0..u32::from(size) {
        put_sign(page, cell, size, header, slots, record_number);
    }
}

/// Appends the letter of the file of this number, and two spaces.
fn put_letter(page: &mut Page, number: u32)
    requires room { length page.old.text + 3 ≤ page.old.room }
    ensures text { page.new ≡ record page.old { text = page.old.text ++ (letter_of number ∷ codes "  ") } }
    ensures size { length page.new.text ≡ length page.old.text + 3 }
{
    page.put(&[letter_of(number), b' ', b' ']);
}

/// Appends the line of the file of this number in the legend.
#[tactic(auto, unfolding(crate::specs::Map::legend_line))]
fn put_legend_line(page: &mut Page, cell: &mut Page, widths: Widths, number: u32, entry: &FileEntry)
    requires cell { cell.old.room ≡ WIDEST }
    requires narrow { AreNarrow widths }
    requires room { length page.old.text + LEGEND ≤ page.old.room }
    ensures text { page.new ≡ record page.old { text = page.old.text ++ legend_line widths number entry.now } }
    ensures size { length page.new.text ≤ length page.old.text + LEGEND }
    ensures cell { cell.new.room ≡ WIDEST }
{
    put_letter(page, number);
    cells::name(cell, entry);
    put_left(page, cell.text(), widths.name);
    page.put(b"  ");
    cells::records(cell, entry);
    put_right(page, cell.text(), widths.records);
    page.put(b" records from ");
    page.put_number(entry.start);
    page.put(b"\n");
}

/// Appends the line of the file of a slot in the legend, if the slot has a file other than the redo file, and returns
/// the number of the next file.
fn put_legend_of(
    page: &mut Page,
    cell: &mut Page,
    widths: Widths,
    number: u32,
    size: u16,
    slot: &Slot,
) -> u32
    requires number { number < 4294967295 }
    requires cell { cell.old.room ≡ WIDEST }
    requires narrow { AreNarrow widths }
    requires room { length page.old.text + LEGEND ≤ page.old.room }
    ensures number { result ≡ number + length (shown_slot Bool.false size slot.now) }
    ensures bound { result ≤ number + 1 }
    ensures text { page.new ≡ record page.old {
      text = page.old.text ++ legend_from widths number (shown_slot Bool.false size slot.now);
    } }
    ensures size { length page.new.text ≤ length page.old.text + LEGEND }
    ensures cell { cell.new.room ≡ WIDEST }
{
    match shown(false, size, slot) {
        Some(entry) => {
            put_legend_line(page, cell, widths, number, entry);
            number + 1
        }
        None => number,
    }
}

/// Appends a line for each file of a medium of `size` records, without the redo file.
fn put_legend(page: &mut Page, cell: &mut Page, size: u16, slots: &SlotTable)
    requires cell { cell.old.room ≡ WIDEST }
    requires room { length page.old.text + LEGEND * length slots.now.slots ≤ page.old.room }
    ensures text { let files = shown_files Bool.false size slots.now.slots in
        page.new ≡ record page.old { text = page.old.text ++ legend_from (widths_of files) 0 files } }
    ensures size { length page.new.text ≤ length page.old.text + LEGEND * length slots.now.slots }
{
    let widths = widths_of(cell, false, size, slots);
    let mut number = 0;
    'slots: for place in 0..slots.len() {
        number = put_legend_of(page, cell, widths, number, size, slots.get(place));
    }
}

/// Appends the map of a medium of `size` records: the volume's line, a character for each record, a line for each file
/// without the redo file, and what the other characters mean.
pub(crate) fn put_map(
    page: &mut Page,
    cell: &mut Page,
    size: u16,
    header: &Header,
    slots: &SlotTable,
)
    requires cell { cell.old.room ≡ WIDEST }
    requires room { length page.old.text + FIRST_AND_LAST + SIGN * size + LEGEND * length slots.now.slots
        ≤ page.old.room }
    ensures { page.new ≡ record page.old { text = page.old.text ++ map_text size header.now slots.now.slots } }
{
    put_volume(page, size, header, slots);
    put_signs(page, cell, size, header, slots);
    put_legend(page, cell, size, slots);
    page.put(b"H header, D directory, R redo file, - unused, . free\n");
}
