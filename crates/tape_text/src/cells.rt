//! The entries of the columns of a listing.
ghost use Rattle.std.specs.Prelude.{◌≡◌, ◌≤◌, length, decimal};
ghost use Rattle.csv.specs.Writing.{default_writer, field_text};
ghost use Rattle.lif_model.specs.Printed.{printed};
ghost use Rattle.tape_text.specs.Listing.{name_cell, type_cell, type_name_cell, kind_cell, records_cell, bytes_cell};
ghost use Rattle.tape_text.specs.Listing.{date_cell, field_cell};

use crate::dates::put_date;
use il_script::Page;
use itoa::Buffer;
use lif_dir::FileEntry;
use lif_header::Header;
use tape_names::{bytes_told, type_name};

/// The most bytes that an entry of a column can have.
pub(crate) const WIDEST: usize = 40;

/// Makes the cell of the name.
pub(crate) fn name(cell: &mut Page, entry: &FileEntry)
    requires { cell.old.room ≡ WIDEST }
    ensures text { cell.new ≡ record { text = name_cell entry.now; room = WIDEST } }
    ensures size { length cell.new.text ≤ 30 }
    ensures field { length (field_text default_writer cell.new.text) ≤ 32 }
{
    cell.clear();
    cell.put_name(&entry.name.bytes());
}

/// Makes the cell of the type, in hex digits and by its name.
pub(crate) fn kind(cell: &mut Page, entry: &FileEntry)
    requires { cell.old.room ≡ WIDEST }
    ensures text { cell.new ≡ record { text = kind_cell entry.now; room = WIDEST } }
    ensures size { length cell.new.text ≤ WIDEST }
{
    cell.clear();
    cell.put_hex(&entry.kind.to_be_bytes());
    cell.put(b" ");
    match type_name(entry.kind) {
        Some(name) => cell.put(name.as_bytes()),
        None => cell.put(b"-"),
    }
}

/// Makes the cell of the number of records.
pub(crate) fn records(cell: &mut Page, entry: &FileEntry)
    requires { cell.old.room ≡ WIDEST }
    ensures text { cell.new ≡ record { text = records_cell entry.now; room = WIDEST } }
    ensures size { length cell.new.text ≤ 10 }
    ensures field { length (field_text default_writer cell.new.text) ≤ 10 }
{
    cell.clear();
    cell.put_number(entry.length);
}

/// Makes the cell of the number of bytes.
pub(crate) fn bytes(cell: &mut Page, entry: &FileEntry)
    requires { cell.old.room ≡ WIDEST }
    ensures text { cell.new ≡ record { text = bytes_cell entry.now; room = WIDEST } }
    ensures size { length cell.new.text ≤ 20 }
    ensures field { length (field_text default_writer cell.new.text) ≤ 20 }
{
    cell.clear();
    let mut buffer = Buffer::new();
    match bytes_told(entry.kind, &entry.implementation, entry.length) {
        Some(count) => cell.put(buffer.format(count).as_bytes()),
        None => cell.put(b"-"),
    }
}

/// Makes the cell of the date.
pub(crate) fn date(cell: &mut Page, entry: &FileEntry)
    requires { cell.old.room ≡ WIDEST }
    ensures text { cell.new ≡ record { text = date_cell entry.now; room = WIDEST } }
    ensures size { length cell.new.text ≤ 16 }
    ensures field { length (field_text default_writer cell.new.text) ≤ 16 }
{
    cell.clear();
    put_date(cell, &entry.date);
}

/// Makes the cell of the label of a volume.
pub(crate) fn label(cell: &mut Page, header: &Header)
    requires { cell.old.room ≡ WIDEST }
    ensures text { cell.new ≡ record { text = printed header.now.label; room = WIDEST } }
    ensures size { length cell.new.text ≤ 18 }
    ensures field { length (field_text default_writer cell.new.text) ≤ 20 }
{
    cell.clear();
    cell.put_name(&header.label());
}

/// Makes the cell of the type in hex digits, without its name.
pub(crate) fn code(cell: &mut Page, entry: &FileEntry)
    requires { cell.old.room ≡ WIDEST }
    ensures text { cell.new ≡ record { text = type_cell entry.now; room = WIDEST } }
    ensures size { length cell.new.text ≤ 4 }
    ensures field { length (field_text default_writer cell.new.text) ≤ 4 }
{
    cell.clear();
    cell.put_hex(&entry.kind.to_be_bytes());
}

/// Makes the cell of the name of the type, without its digits.
pub(crate) fn type_of(cell: &mut Page, entry: &FileEntry)
    requires { cell.old.room ≡ WIDEST }
    ensures text { cell.new ≡ record { text = type_name_cell entry.now; room = WIDEST } }
    ensures size { length cell.new.text ≤ 8 }
    ensures field { length (field_text default_writer cell.new.text) ≤ 8 }
{
    cell.clear();
    match type_name(entry.kind) {
        Some(name) => cell.put(name.as_bytes()),
        None => cell.put(b"-"),
    }
}

/// Makes the cell of the first record.
pub(crate) fn start(cell: &mut Page, entry: &FileEntry)
    requires { cell.old.room ≡ WIDEST }
    ensures text { cell.new ≡ record { text = decimal entry.now.start; room = WIDEST } }
    ensures size { length cell.new.text ≤ 10 }
    ensures field { length (field_text default_writer cell.new.text) ≤ 10 }
{
    cell.clear();
    cell.put_number(entry.start);
}

/// Makes the cell of the implementation field.
pub(crate) fn field(cell: &mut Page, entry: &FileEntry)
    requires { cell.old.room ≡ WIDEST }
    ensures text { cell.new ≡ record { text = field_cell entry.now; room = WIDEST } }
    ensures size { length cell.new.text ≤ 8 }
    ensures field { length (field_text default_writer cell.new.text) ≤ 8 }
{
    cell.clear();
    cell.put_hex(&entry.implementation);
}
