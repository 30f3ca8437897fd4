//! How wide the columns are, and texts in them.
ghost use Rattle.std.specs.Prelude.{◌≡◌, ◌≤◌, ◌+◌, ◌++◌, length, fold, replicate};
ghost use Rattle.tape_text.specs.Listing.{left, right, shown_slot, shown_files, widths_of, wider};
ghost use Rattle.tape_text.specs.Columns.{AreNarrow};

use crate::cells::{self, WIDEST};
use crate::shown::shown;
use il_script::Page;
use lif_dir::{FileEntry, Slot, SlotTable};

/// How wide the columns are, in bytes.
#[derive(Clone, Copy)]
pub struct Widths {
    /// The column of names.
    pub name: usize,
    /// The column of types.
    pub kind: usize,
    /// The column of numbers of records.
    pub records: usize,
    /// The column of numbers of bytes.
    pub bytes: usize,
    /// The column of dates.
    pub date: usize,
}

/// Appends this many spaces.
fn put_spaces(page: &mut Page, count: usize)
    requires { length page.old.text + count ≤ page.old.room }
    ensures text { page.new ≡ record page.old { text = page.old.text ++ replicate count 32 } }
{
    'spaces: for i in 0..count {
        page.put(b" ");
    }
}

/// Appends a text at the left of a column.
pub(crate) fn put_left(page: &mut Page, text: &[u8], width: usize)
    requires narrow { (width ≤ WIDEST) × (length text.now ≤ WIDEST) }
    requires room { length page.old.text + WIDEST ≤ page.old.room }
    ensures text { page.new ≡ record page.old { text = page.old.text ++ left width text.now } }
    ensures size { length page.new.text ≤ length page.old.text + WIDEST }
{
    page.put(text);
    put_spaces(page, width.saturating_sub(text.len()));
}

/// Appends a text at the right of a column.
pub(crate) fn put_right(page: &mut Page, text: &[u8], width: usize)
    requires narrow { (width ≤ WIDEST) × (length text.now ≤ WIDEST) }
    requires room { length page.old.text + WIDEST ≤ page.old.room }
    ensures text { page.new ≡ record page.old { text = page.old.text ++ right width text.now } }
    ensures size { length page.new.text ≤ length page.old.text + WIDEST }
{
    put_spaces(page, width.saturating_sub(text.len()));
    page.put(text);
}

/// Returns widths that are wide enough for this file too.
fn wider(widths: Widths, cell: &mut Page, entry: &FileEntry) -> Widths
    requires room { cell.old.room ≡ WIDEST }
    requires narrow { AreNarrow widths }
    ensures widths { result ≡ wider widths entry.now }
    ensures narrow { AreNarrow result }
    ensures room { cell.new.room ≡ WIDEST }
{
    cells::name(cell, entry);
    let name = widths.name.max(cell.text().len());
    cells::kind(cell, entry);
    let kind = widths.kind.max(cell.text().len());
    cells::records(cell, entry);
    let records = widths.records.max(cell.text().len());
    cells::bytes(cell, entry);
    let bytes = widths.bytes.max(cell.text().len());
    cells::date(cell, entry);
    let date = widths.date.max(cell.text().len());
    Widths {
        name,
        kind,
        records,
        bytes,
        date,
    }
}

/// Returns widths that are wide enough for the file of this slot too, if it has a line.
fn with_slot(widths: Widths, cell: &mut Page, all: bool, size: u16, slot: &Slot) -> Widths
    requires room { cell.old.room ≡ WIDEST }
    requires narrow { AreNarrow widths }
    ensures widths { result ≡ fold wider widths (shown_slot all size slot.now) }
    ensures narrow { AreNarrow result }
    ensures room { cell.new.room ≡ WIDEST }
{
    match shown(all, size, slot) {
        Some(entry) => wider(widths, cell, entry),
        None => widths,
    }
}

/// Returns the least widths that are wide enough for every file that has a line.
pub(crate) fn widths_of(cell: &mut Page, all: bool, size: u16, slots: &SlotTable) -> Widths
    requires room { cell.old.room ≡ WIDEST }
    ensures widths { result ≡ widths_of (shown_files all size slots.now.slots) }
    ensures narrow { AreNarrow result }
    ensures room { cell.new.room ≡ WIDEST }
{
    let mut widths = Widths {
        name: 0,
        kind: 0,
        records: 0,
        bytes: 0,
        date: 0,
    };
    'slots: for place in 0..slots.len() {
        widths = with_slot(widths, cell, all, size, slots.get(place));
    }
    widths
}
