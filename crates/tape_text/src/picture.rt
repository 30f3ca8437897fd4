//! The records of a medium as squares of an SVG file: the text that `map --svg` prints.
ghost use Rattle.std.specs.Prelude.{◌≡◌, ◌≤◌, ◌<◌, ◌+◌, ◌*◌, ◌%◌, ◌++◌, length, decimal, []};
ghost use Rattle.tape_text.specs.Map.{for_records};
ghost use Rattle.tape_text.specs.Picture.{xml_byte, xml_text, file_color, color_of, holder_text, square_place};
ghost use Rattle.tape_text.specs.Picture.{square_content, record_square, svg_start, svg_title, picture_text};

use crate::cells::{self, WIDEST};
use crate::holders::{Holder, holder_of};
use crate::volume::put_volume;
use il_script::Page;
use lif_dir::SlotTable;
use lif_header::Header;

/// The most bytes that the square of a record takes.
const SQUARE: usize = 200;

/// The most bytes that the line of a volume has.
pub(crate) const TITLE: usize = 120;

/// The most bytes that the other lines take: the first line, the title, and the last line.
const AROUND: usize = 820;

/// Appends a byte as XML writes it in text.
fn put_xml_byte(page: &mut Page, byte: u8)
    requires room { length page.old.text + 5 ≤ page.old.room }
    ensures text { page.new ≡ record page.old { text = page.old.text ++ xml_byte byte } }
    ensures size { length page.new.text ≤ length page.old.text + 5 }
{
    match byte {
        b'&' => page.put(b"&amp;"),
        b'<' => page.put(b"&lt;"),
        b'>' => page.put(b"&gt;"),
        _ => page.put(&[byte]),
    }
}

/// Appends bytes as XML writes them in text, at most five bytes for each.
fn put_xml(page: &mut Page, text: &[u8])
    requires room { length page.old.text + 5 * length text.now ≤ page.old.room }
    ensures text { page.new ≡ record page.old { text = page.old.text ++ xml_text text.now } }
    ensures size { length page.new.text ≤ length page.old.text + 5 * length text.now }
{
    'bytes: for byte in text {
        put_xml_byte(page, *byte);
    }
}

/// Returns the color of the file of this number.
fn file_color(number: u32) -> &'static [u8]
    ensures color { result.now ≡ file_color (number % 6) }
    ensures size { length result.now ≡ 7 }
{
    match number % 6 {
        0 => b"#1f77b4",
        1 => b"#ff7f0e",
        2 => b"#2ca02c",
        3 => b"#d62728",
        4 => b"#9467bd",
        _ => b"#8c564b",
    }
}

/// Returns the color of a record that belongs to this holder.
fn color_of(holder: Holder) -> &'static [u8]
    ensures color { result.now ≡ color_of holder }
    ensures size { length result.now ≡ 7 }
{
    match holder {
        Holder::Header => b"#222222",
        Holder::Unused => b"#dddddd",
        Holder::Directory => b"#666666",
        Holder::Redo => b"#aaaaaa",
        Holder::File(number, _) => file_color(number),
        Holder::Nothing => b"#f4f4f4",
    }
}

/// Makes the cell of the name of a holder.
fn name_holder(cell: &mut Page, holder: Holder)
    requires { cell.old.room ≡ WIDEST }
    ensures text { cell.new ≡ record { text = holder_text holder; room = WIDEST } }
    ensures size { length cell.new.text ≤ WIDEST }
    ensures small { length (xml_text cell.new.text) ≤ 110 }
{
    cell.clear();
    match holder {
        Holder::Header => cell.put(b"header"),
        Holder::Unused => cell.put(b"unused"),
        Holder::Directory => cell.put(b"directory"),
        Holder::Redo => cell.put(b"redo file"),
        Holder::File(_, entry) => cells::name(cell, &entry),
        Holder::Nothing => cell.put(b"free"),
    }
}

/// Appends a number below 100,000, at most five digits.
fn put_short(page: &mut Page, number: u32)
    requires few { number < 100000 }
    requires room { length page.old.text + 10 ≤ page.old.room }
    ensures text { page.new ≡ record page.old { text = page.old.text ++ decimal number } }
    ensures size { length page.new.text ≤ length page.old.text + 5 }
    ensures small { number < 1000 → length page.new.text ≤ length page.old.text + 3 }
{
    page.put_number(number);
}

/// Appends the place of the square of a record, which has this number.
#[tactic(auto, unfolding(crate::specs::Picture::square_place))]
fn put_place(page: &mut Page, record_number: u32)
    requires record { record_number < 65536 }
    requires room { length page.old.text + 45 ≤ page.old.room }
    ensures text { page.new ≡ record page.old { text = page.old.text ++ square_place record_number } }
    ensures size { length page.new.text ≤ length page.old.text + 45 }
{
    page.put(b"<rect x=\"");
    put_short(page, 10 * (record_number % 64));
    page.put(b"\" y=\"");
    put_short(page, 10 * (record_number / 64));
    page.put(b"\" width=\"9\" height=\"9\" ");
}

/// Appends the content of the square of a record, which has this number and belongs to this holder.
#[tactic(auto, unfolding(crate::specs::Picture::square_content))]
fn put_content(page: &mut Page, cell: &mut Page, record_number: u32, holder: Holder)
    requires record { record_number < 65536 }
    requires cell { cell.old.room ≡ WIDEST }
    requires room { length page.old.text + 250 ≤ page.old.room }
    ensures text { page.new ≡ record page.old { text = page.old.text ++ square_content record_number holder } }
    ensures size { length page.new.text ≤ length page.old.text + 155 }
    ensures cell { cell.new.room ≡ WIDEST }
{
    name_holder(cell, holder);
    page.put(b"fill=\"");
    page.put(color_of(holder));
    page.put(b"\"><title>");
    put_short(page, record_number);
    page.put(b": ");
    put_xml(page, cell.text());
    page.put(b"</title></rect>\n");
}

/// Appends the square of a record of a medium of `size` records.
fn put_square(
    page: &mut Page,
    cell: &mut Page,
    size: u16,
    header: &Header,
    slots: &SlotTable,
    record_number: u32,
)
    requires record { record_number < size }
    requires cell { cell.old.room ≡ WIDEST }
    requires room { length page.old.text + 300 ≤ page.old.room }
    ensures text { page.new
        ≡ record page.old { text = page.old.text ++ record_square size header.now slots.now.slots record_number } }
    ensures size { length page.new.text ≤ length page.old.text + SQUARE }
    ensures cell { cell.new.room ≡ WIDEST }
{
    put_place(page, record_number);
    put_content(
        page,
        cell,
        record_number,
        holder_of(size, header, slots, record_number),
    );
}

/// Appends the squares of all records of a medium of `size` records.
fn put_squares(page: &mut Page, cell: &mut Page, size: u16, header: &Header, slots: &SlotTable)
    requires cell { cell.old.room ≡ WIDEST }
    requires room { length page.old.text + SQUARE * size + 100 ≤ page.old.room }
    ensures text { page.new ≡ record page.old {
      text = page.old.text ++ for_records (record_square size header.now slots.now.slots) 0 size;
    } }
    ensures size { length page.new.text ≤ length page.old.text + SQUARE * size }
{
    'records: for record_number in 0..u32::from(size) {
        put_square(page, cell, size, header, slots, record_number);
    }
}

/// Appends the first line, for a medium of this many records.
#[tactic(auto, unfolding(crate::specs::Picture::svg_start))]
fn put_start(page: &mut Page, records: u32)
    requires few { records < 65536 }
    requires room { length page.old.text + 80 ≤ page.old.room }
    ensures text { page.new ≡ record page.old { text = page.old.text ++ svg_start records } }
    ensures size { length page.new.text ≤ length page.old.text + 80 }
{
    page.put(b"<svg xmlns=\"http://www.w3.org/2000/svg\" width=\"640\" height=\"");
    page.put_number(10 * ((records + 63) / 64));
    page.put(b"\">\n");
}

/// Appends the title of the picture.
#[tactic(auto, unfolding(crate::specs::Picture::svg_title))]
fn put_title(page: &mut Page, title: &[u8])
    requires title { length title.now ≤ TITLE }
    requires room { length page.old.text + 620 ≤ page.old.room }
    ensures text { page.new ≡ record page.old { text = page.old.text ++ svg_title title.now } }
    ensures size { length page.new.text ≤ length page.old.text + 620 }
{
    page.put(b"<title>");
    put_xml(page, title);
    page.put(b"</title>\n");
}

/// Appends the picture of a medium of `size` records as an SVG file: a square for each record, in rows of 64, with its
/// number and what it belongs to as its title. The title of the picture is made in `title`.
pub(crate) fn put_picture(
    page: &mut Page,
    cell: &mut Page,
    title: &mut Page,
    size: u16,
    header: &Header,
    slots: &SlotTable,
)
    requires cell { cell.old.room ≡ WIDEST }
    requires title { title.old ≡ record { text = []; room = TITLE } }
    requires room { length page.old.text + AROUND + SQUARE * size ≤ page.old.room }
    ensures { page.new ≡ record page.old { text = page.old.text ++ picture_text size header.now slots.now.slots } }
{
    put_volume(title, size, header, slots);
    put_start(page, u32::from(size));
    put_title(page, title.text());
    put_squares(page, cell, size, header, slots);
    page.put(b"</svg>\n");
}
