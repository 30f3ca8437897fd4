//! The texts that the commands of a volume tell.
ghost use Rattle.std.specs.Prelude.{◌≡◌, ◌+◌, ◌*◌, ◌≤◌, ◌++◌, [], true, is_some, length};
ghost use Rattle.lif_text.specs.Pieces.{lines_in};
ghost use Rattle.lif_dir.specs.Entries.{entry_bytes};
ghost use Rattle.host_model.specs.Listing.{volume_line, slot_lines};
ghost use Rattle.host_model.specs.Replies.{packed_text, line_text, lines_of_type, lines_text, if_text};
ghost use Rattle.il_host.specs.Texts.{parts_of, listing_text, entry_line, label_text, data_text};

use crate::parts::{put_next_bytes, put_next_hex, put_next_name, put_next_number};
use crate::text_commands::TEXT_TYPE;
use il_script::{Code, Page, Reply};
use lif_dir::{FileEntry, SlotTable};
use lif_pack::Packed;
use lif_text::{Piece, next};
use lif_volume::{Fetched, Listing};

/// The line of the volume, of which so many slots are used.
#[tactic(auto, unfolding(host_model::specs::Listing::volume_line))]
fn put_volume_line(page: &mut Page, listing: &Listing, used: u32)
    requires { length page.old.text + 70 ≤ page.old.room }
    ensures text { page.new ≡ record page.old { text = page.old.text ++ volume_line (parts_of listing.now) used } }
    ensures size { length page.new.text ≤ length page.old.text + 70 }
{
    page.put(b"volume");
    put_next_name(page, &listing.label);
    put_next_number(page, u32::from(listing.start));
    put_next_number(page, u32::from(listing.length));
    put_next_number(page, used);
    put_next_number(page, 8 * u32::from(listing.length));
    page.put(b"\n");
}

/// The line of a file.
#[tactic(auto, unfolding(crate::specs::Texts::entry_line))]
fn put_file_line(page: &mut Page, entry: &FileEntry)
    requires { length page.old.text + 72 ≤ page.old.room }
    ensures text { page.new ≡ record page.old { text = page.old.text ++ entry_line entry.now } }
    ensures size { length page.new.text ≤ length page.old.text + 72 }
{
    page.put(b"file");
    put_next_name(page, &entry.name.bytes());
    put_next_hex(page, &entry.kind.to_be_bytes());
    put_next_number(page, entry.start);
    put_next_number(page, entry.length);
    put_next_hex(page, &entry.implementation);
    page.put(b"\n");
}

/// The line of a packing: how many files were moved, and how many records are free after them.
#[tactic(auto, unfolding(host_model::specs::Replies::packed_text))]
pub(crate) fn put_packed(page: &mut Page, packed: &Packed)
    requires { length page.old.text + 40 ≤ page.old.room }
    ensures text { page.new ≡ record page.old { text = page.old.text ++ packed_text packed.now.files packed.now.free } }
    ensures size { length page.new.text ≤ length page.old.text + 40 }
{
    page.put(b"packed");
    put_next_number(page, packed.files);
    put_next_number(page, packed.free);
    page.put(b"\n");
}

/// The line of a slot, which a purged one has not.
fn put_slot(page: &mut Page, entry: FileEntry)
    requires { length page.old.text + 72 ≤ page.old.room }
    ensures text { page.new ≡ record page.old { text = page.old.text ++ slot_lines (entry_bytes entry) } }
    ensures size { length page.new.text ≤ length page.old.text + 72 }
{
    if entry.is_live() {
        put_file_line(page, &entry);
    }
}

/// The lines of a volume: its own, and one for each live slot.
pub(crate) fn put_listing(page: &mut Page, listing: &Listing, slots: &SlotTable)
    requires { length page.old.text + 72 * (length slots.now.slots + 1) ≤ page.old.room }
    ensures text { page.new ≡ record page.old { text = page.old.text ++ listing_text listing.now slots.now.slots } }
    ensures size { length page.new.text ≤ length page.old.text + 72 * (length slots.now.slots + 1) }
{
    let used = slots.len();
    put_volume_line(page, listing, used as u32);
    for place in 0..used {
        put_slot(page, *slots.entry(place));
    }
}

/// The line of a label.
pub(crate) fn put_label(page: &mut Page, label: &[u8; 6])
    requires { length page.old.text + 25 ≤ page.old.room }
    ensures text { page.new ≡ record page.old { text = page.old.text ++ label_text label.now } }
    ensures size { length page.new.text ≤ length page.old.text + 25 }
{
    page.put(b"label");
    put_next_name(page, label);
    page.put(b"\n");
}

/// The line of a file that was fetched, with these bytes.
pub(crate) fn put_data(page: &mut Page, fetched: &Fetched, bytes: &[u8])
    requires { length page.old.text + 2 * length bytes.now + 22 ≤ page.old.room }
    ensures text { page.new ≡ record page.old { text = page.old.text ++ data_text fetched.now.kind fetched.now.implementation bytes.now } }
    ensures size { length page.new.text ≤ length page.old.text + 2 * length bytes.now + 22 }
{
    page.put(b"data");
    put_next_hex(page, &fetched.kind.to_be_bytes());
    put_next_bytes(page, &fetched.implementation);
    put_next_bytes(page, bytes);
    page.put(b"\n");
}

/// A line of a text file.
fn put_line(page: &mut Page, line: &[u8])
    requires { length page.old.text + 2 * length line.now + 7 ≤ page.old.room }
    ensures text { page.new ≡ record page.old { text = page.old.text ++ line_text line.now } }
    ensures size { 2 * length page.new.text ≤ 2 * length page.old.text + 7 * (length line.now + 2) }
{
    page.put(b"line");
    put_next_bytes(page, line);
    page.put(b"\n");
}

/// The lines that bytes tell; the answer is whether they are a text.
fn put_lines(page: &mut Page, bytes: &[u8]) -> bool
    requires { 2 * length page.old.text + 7 * length bytes.now ≤ 2 * page.old.room }
    ensures text { result ≡ is_some (lines_in bytes.now) }
    ensures lines { result ≡ true → page.new.text ≡ page.old.text ++ lines_text (lines_in bytes.now) }
    ensures size { 2 * length page.new.text ≤ 2 * length page.old.text + 7 * length bytes.now }
    ensures room { page.new.room ≡ page.old.room }
{
    let mut at = 0;
    'lines: loop {
        match next(bytes, at) {
            Ok(
                Piece::Line {
                    from,
                    to,
                    next: after,
                },
            ) => {
                put_line(page, &bytes[from..to]);
                at = after;
            }
            Ok(Piece::End) => return true,
            Err(_) => return false,
        }
    }
}

/// The lines of a file of this type with these bytes, where it is a text; the reply is then ok.
pub(crate) fn put_text(page: &mut Page, kind: u16, bytes: &[u8]) -> Reply
    requires blank { page.old.text ≡ [] }
    requires room { 7 * length bytes.now ≤ 2 * page.old.room }
    ensures reply { result ≡ if_text (lines_of_type kind bytes.now) }
    ensures text { page.new ≡ record page.old { text = page.old.text ++ lines_text (lines_of_type kind bytes.now) } }
    ensures size { 2 * length page.new.text ≤ 7 * length bytes.now }
{
    if kind == TEXT_TYPE && put_lines(page, bytes) {
        return Reply::Ok;
    }
    page.clear();
    Reply::No(Code::NotText)
}
