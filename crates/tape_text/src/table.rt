//! The rows of a listing as comma-separated values, by RFC 4180: the text that `dir --csv` prints.
ghost use Rattle.std.specs.Prelude.{◌≡◌, ◌≤◌, ◌+◌, ◌*◌, ◌++◌, length, map, max};
ghost use Rattle.csv.specs.Writing.{default_writer, fields_text, row_body};
ghost use Rattle.tape_text.specs.Listing.{shown_slot, shown_files};
ghost use Rattle.tape_text.specs.Pages.{row_room};
ghost use Rattle.tape_text.specs.Rows.{column_names, names_in, numbers_in, file_row, empty_row, rows_of, row_line};
ghost use Rattle.tape_text.specs.Rows.{rows_text};

use crate::cells::{self, WIDEST};
use crate::fields::{put_first, put_next};
use crate::shown::{files_of, shown};
use il_script::Page;
use lif_dir::{FileEntry, Slot, SlotTable};
use lif_header::Header;

/// Appends the first five fields of the row of a file.
fn put_names(page: &mut Page, cell: &mut Page, image: &[u8], header: &Header, entry: &FileEntry)
    requires cell { cell.old.room ≡ WIDEST }
    requires room { length page.old.text + 2 * length image.now + 70 ≤ page.old.room }
    ensures text { page.new ≡ record page.old {
      text = page.old.text ++ row_body default_writer (names_in image.now header.now entry.now);
    } }
    ensures size { length page.new.text ≤ length page.old.text + 2 * length image.now + 70 }
    ensures cell { cell.new.room ≡ WIDEST }
{
    put_first(page, image);
    cells::label(cell, header);
    put_next(page, cell.text());
    cells::name(cell, entry);
    put_next(page, cell.text());
    cells::code(cell, entry);
    put_next(page, cell.text());
    cells::type_of(cell, entry);
    put_next(page, cell.text());
}

/// Appends the other five fields of the row of a file.
fn put_numbers(page: &mut Page, cell: &mut Page, entry: &FileEntry)
    requires cell { cell.old.room ≡ WIDEST }
    requires room { length page.old.text + 69 ≤ page.old.room }
    ensures text { page.new
        ≡ record page.old { text = page.old.text ++ fields_text default_writer (numbers_in entry.now) } }
    ensures size { length page.new.text ≤ length page.old.text + 69 }
    ensures cell { cell.new.room ≡ WIDEST }
{
    cells::start(cell, entry);
    put_next(page, cell.text());
    cells::records(cell, entry);
    put_next(page, cell.text());
    cells::bytes(cell, entry);
    put_next(page, cell.text());
    cells::date(cell, entry);
    put_next(page, cell.text());
    cells::field(cell, entry);
    put_next(page, cell.text());
}

/// Appends the row of a file.
fn put_file(page: &mut Page, cell: &mut Page, image: &[u8], header: &Header, entry: &FileEntry)
    requires cell { cell.old.room ≡ WIDEST }
    requires room { length page.old.text + row_room image.now ≤ page.old.room }
    ensures text { page.new
        ≡ record page.old { text = page.old.text ++ row_line (file_row image.now header.now entry.now) } }
    ensures size { length page.new.text ≤ length page.old.text + row_room image.now }
    ensures cell { cell.new.room ≡ WIDEST }
{
    put_names(page, cell, image, header, entry);
    put_numbers(page, cell, entry);
    page.put(b"\n");
}

/// Appends the row of the file of a slot, if it has one.
fn put_slot(
    page: &mut Page,
    cell: &mut Page,
    image: &[u8],
    all: bool,
    size: u16,
    header: &Header,
    slot: &Slot,
)
    requires cell { cell.old.room ≡ WIDEST }
    requires room { length page.old.text + row_room image.now ≤ page.old.room }
    ensures text { page.new ≡ record page.old {
      text = page.old.text ++ rows_text (map (file_row image.now header.now) (shown_slot all size slot.now));
    } }
    ensures size { length page.new.text ≤ length page.old.text + row_room image.now }
    ensures cell { cell.new.room ≡ WIDEST }
{
    match shown(all, size, slot) {
        Some(entry) => put_file(page, cell, image, header, entry),
        None => {}
    }
}

/// Appends the rows of the files of an image that have a line.
fn put_files(
    page: &mut Page,
    cell: &mut Page,
    image: &[u8],
    all: bool,
    size: u16,
    header: &Header,
    slots: &SlotTable,
)
    requires cell { cell.old.room ≡ WIDEST }
    requires room { length page.old.text + row_room image.now * length slots.now.slots ≤ page.old.room }
    ensures { page.new ≡ record page.old {
      text = page.old.text ++ rows_text (map (file_row image.now header.now) (shown_files all size slots.now.slots));
    } }
{
    'slots: for place in 0..slots.len() {
        put_slot(page, cell, image, all, size, header, slots.get(place));
    }
}

/// Appends the row of an image without files.
fn put_lone(page: &mut Page, cell: &mut Page, image: &[u8], header: &Header)
    requires cell { cell.old.room ≡ WIDEST }
    requires room { length page.old.text + row_room image.now ≤ page.old.room }
    ensures { page.new ≡ record page.old { text = page.old.text ++ row_line (empty_row image.now header.now) } }
{
    put_first(page, image);
    cells::label(cell, header);
    put_next(page, cell.text());
    page.put(b",,,,,,,,\n");
}

/// Returns the row of the names of the columns, with which a text of rows begins.
pub fn first_csv_row() -> &'static [u8]
    ensures { result.now ≡ row_line column_names }
{
    b"image,label,name,type,type_name,start,records,bytes,date,field\n"
}

/// Appends the rows of an image on a medium of `size` records: one for each file that has a line in a listing, or one
/// with empty fields if no file has one. Each row begins with `image`, the name of the image, and ends with a line
/// feed. Each cell is made in `cell`, which has room for `WIDEST` bytes.
pub(crate) fn put_rows(
    page: &mut Page,
    cell: &mut Page,
    image: &[u8],
    all: bool,
    size: u16,
    header: &Header,
    slots: &SlotTable,
)
    requires cell { cell.old.room ≡ WIDEST }
    requires room { length page.old.text + row_room image.now * max 1 (length slots.now.slots) ≤ page.old.room }
    ensures { page.new ≡ record page.old {
      text = page.old.text ++ rows_text (rows_of all size image.now header.now slots.now.slots);
    } }
{
    if files_of(all, size, slots) == 0 {
        put_lone(page, cell, image, header);
    } else {
        put_files(page, cell, image, all, size, header, slots);
    }
}
