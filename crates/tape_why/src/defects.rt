//! The first defect of the slots of a directory.
ghost use Rattle.std.specs.Prelude.{◌≡◌, ◌<◌, ℕ, List, [], length, map, drop, get_or, suc, IfSome};
ghost use Rattle.lif_model.specs.Header.{header_of};
ghost use Rattle.lif_dir.specs.Entries.{entry_bytes, slot_bytes};
ghost use Rattle.tape_why.specs.Defects.{share_records, share_name, place_from, clash_from, slots_defect};
ghost use Rattle.tape_why.specs.Searches.{do_share, is_outside, IsDefectOf};

use lif_dir::{FileEntry, SlotTable};
use lif_header::{Header, HeaderFault};

/// Why a directory is not legal: the first test that fails.
#[derive(Clone, Copy, Debug, PartialEq, Eq)]
pub enum Defect {
    /// Record 0 is not the header of a volume.
    Header(HeaderFault),
    /// The live file of this slot has a record before the end of the directory, or after that of the medium.
    Outside(usize),
    /// The live files of these two slots have records in common.
    SharedRecords(usize, usize),
    /// The live files of these two slots have the same name.
    SharedName(usize, usize),
}

/// What two live files may not have in common.
#[derive(Clone, Copy)]
pub enum Common {
    /// A record.
    Record,
    /// The name.
    Name,
}

/// Tests if a live file has a record before record `low`, or at record `high` or after it.
fn is_outside(entry: FileEntry, low: u16, high: u16) -> bool
    ensures { result ≡ is_outside low high (entry_bytes entry) }
{
    entry.is_live()
        && (entry.begins_below(u64::from(low))
            || entry.has_records() && entry.end() > u64::from(high))
}

/// Tests if two live files have a record in common.
fn share_records(a: FileEntry, b: FileEntry) -> bool
    ensures { result ≡ share_records (entry_bytes a) (entry_bytes b) }
{
    a.is_live() && b.is_live() && a.begins_below(b.end()) && b.begins_below(a.end())
}

/// Tests if two live files have the same name.
fn share_name(a: FileEntry, b: FileEntry) -> bool
    ensures { result ≡ share_name (entry_bytes a) (entry_bytes b) }
{
    b.is_live() && a.is_live_named(&b.name.bytes())
}

/// Tests if two live files have this in common.
fn do_share(what: Common, a: FileEntry, b: FileEntry) -> bool
    ensures { result ≡ do_share what (entry_bytes a) (entry_bytes b) }
{
    match what {
        Common::Record => share_records(a, b),
        Common::Name => share_name(a, b),
    }
}

/// Returns the place of the first live file with a record before record `low`, or at record `high` or after it.
fn first_outside(table: &SlotTable, low: u16, high: u16) -> Option<usize>
    ensures place { result ≡ place_from (is_outside low high) 0 (map slot_bytes table.now.slots) }
    ensures within { IfSome result (λ place. place < length table.now.slots) }
{
    'slots: for place in 0..table.len() {
        if is_outside(*table.entry(place), low, high) {
            return Some(place);
        }
    }
    None
}

/// Returns the place of the first slot after slot `place` that has this in common with it.
fn first_later(what: Common, table: &SlotTable, place: usize) -> Option<usize>
    requires { place < length table.now.slots }
    ensures place { result ≡ place_from (do_share what (get_or (map slot_bytes table.now.slots) place [])) (suc place)
        (drop (suc place) (map slot_bytes table.now.slots)) }
    ensures within { IfSome result (λ later. later < length table.now.slots) }
{
    let entry = *table.entry(place);
    let count = table.len();
    'slots: for later in place + 1..count {
        if do_share(what, entry, *table.entry(later)) {
            return Some(later);
        }
    }
    None
}

/// Returns the places of the first slot that has this in common with a later one, and of the first of these.
fn first_clash(what: Common, table: &SlotTable) -> Option<(usize, usize)>
    ensures places { result ≡ clash_from (do_share what) 0 (map slot_bytes table.now.slots) }
    ensures within { IfSome result (λ clash. (clash.0 < length table.now.slots) × (clash.1 < length table.now.slots)) }
{
    'slots: for place in 0..table.len() {
        if let Some(later) = first_later(what, table, place) {
            return Some((place, later));
        }
    }
    None
}

/// Returns the first defect of the slots of a directory with this header on a medium of `size` records. The time grows
/// with the square of the number of slots.
pub(crate) fn first_defect(table: &SlotTable, header: &Header, size: u16) -> Option<Defect>
    ensures defect { (bytes : List ℕ) → header.now ≡ header_of bytes
        → result ≡ slots_defect size bytes (map slot_bytes table.now.slots) }
    ensures within { IfSome result (IsDefectOf (length table.now.slots)) }
{
    if let Some(place) = first_outside(table, header.end(), size) {
        return Some(Defect::Outside(place));
    }
    if let Some((first, later)) = first_clash(Common::Record, table) {
        return Some(Defect::SharedRecords(first, later));
    }
    if let Some((first, later)) = first_clash(Common::Name, table) {
        return Some(Defect::SharedName(first, later));
    }
    None
}
