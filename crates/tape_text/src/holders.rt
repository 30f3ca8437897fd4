//! What each record of a medium belongs to.
ghost use Rattle.std.specs.Prelude.{◌≡◌, ◌<◌, Bool};
ghost use Rattle.std.specs.List.{list_any};
ghost use Rattle.tape_text.specs.Listing.{shown_files};
ghost use Rattle.tape_text.specs.Map.{has_record, is_of_redo, file_holding, holder_of};

use crate::shown::shown;
use lif_dir::{FileEntry, SlotTable};
use lif_header::Header;
use lif_plan::is_redo_file;

/// What a record of a medium belongs to.
#[derive(Clone, Copy)]
pub enum Holder {
    /// The header, record 0.
    Header,
    /// Nothing: the record is between the header and the directory.
    Unused,
    /// The directory.
    Directory,
    /// The redo file.
    Redo,
    /// A file: its number, and its entry. Files are numbered from 0 in the order of their slots, without the redo file.
    File(u32, FileEntry),
    /// Nothing: the record is after the directory, and no file has it.
    Nothing,
}

/// Tests if a file has this record.
fn has_record(record_number: u32, entry: FileEntry) -> bool
    ensures { result ≡ has_record record_number entry }
{
    entry.start <= record_number && u64::from(record_number) < entry.end()
}

/// Tests if a file is the redo file of a medium of `size` records, and has this record.
fn is_of_redo(size: u16, record_number: u32, entry: &FileEntry) -> bool
    ensures { result ≡ is_of_redo size record_number entry.now }
{
    is_redo_file(*entry, size) && has_record(record_number, *entry)
}

/// Tests if the redo file of a medium of `size` records has this record.
fn redo_has(size: u16, slots: &SlotTable, record_number: u32) -> bool
    ensures { result ≡ list_any (is_of_redo size record_number) (shown_files Bool.true size slots.now.slots) }
{
    'slots: for place in 0..slots.len() {
        if let Some(entry) = shown(true, size, slots.get(place)) {
            if is_of_redo(size, record_number, entry) {
                return true;
            }
        }
    }
    false
}

/// Returns the first file of a medium of `size` records that has this record, without the redo file, or `Nothing`.
fn file_holding(size: u16, slots: &SlotTable, record_number: u32) -> Holder
    ensures { result ≡ file_holding record_number 0 (shown_files Bool.false size slots.now.slots) }
{
    let mut number = 0;
    'slots: for place in 0..slots.len() {
        if let Some(entry) = shown(false, size, slots.get(place)) {
            if has_record(record_number, *entry) {
                return Holder::File(number, *entry);
            }
            number += 1;
        }
    }
    Holder::Nothing
}

/// Returns what a record of a medium of `size` records belongs to.
pub(crate) fn holder_of(size: u16, header: &Header, slots: &SlotTable, record_number: u32) -> Holder
    ensures { result ≡ holder_of size header.now slots.now.slots record_number }
{
    if record_number == 0 {
        Holder::Header
    } else if record_number < u32::from(header.start()) {
        Holder::Unused
    } else if record_number < u32::from(header.end()) {
        Holder::Directory
    } else if redo_has(size, slots, record_number) {
        Holder::Redo
    } else {
        file_holding(size, slots, record_number)
    }
}
