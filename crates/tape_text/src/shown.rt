//! Which files have a line.
ghost use Rattle.std.specs.Prelude.{◌≡◌, ◌≤◌, ◌||◌, [], ◌∷◌, not, length, MatchOption};
ghost use Rattle.lif_model.specs.Volume.{is_redo_file};
ghost use Rattle.lif_dir.specs.Entries.{entry_bytes};
ghost use Rattle.tape_text.specs.Listing.{shown_slot, shown_files};

use lif_dir::{FileEntry, Slot, SlotTable};
use lif_plan::is_redo_file;

/// Tests if a file of a medium of `size` records has a line: each has one except the redo file, which has one only if
/// `all` is set.
fn is_shown(all: bool, size: u16, entry: &FileEntry) -> bool
    ensures { result ≡ (all || not (is_redo_file size (entry_bytes entry.now))) }
{
    all || !is_redo_file(*entry, size)
}

/// Returns the file of a slot, if it has a line.
pub(crate) fn shown(all: bool, size: u16, slot: &Slot) -> Option<&FileEntry>
    ensures { MatchOption result (shown_slot all size slot.now ≡ [])
        (λ entry. shown_slot all size slot.now ≡ entry.now ∷ []) }
{
    match slot {
        Slot::Live(entry) => {
            if is_shown(all, size, entry) {
                Some(entry)
            } else {
                None
            }
        }
        Slot::Purged(_) | Slot::End => None,
    }
}

/// Returns the number of files of a slot that have a line: 1 or 0.
fn files_at(all: bool, size: u16, slot: &Slot) -> u32
    ensures count { result ≡ length (shown_slot all size slot.now) }
    ensures bound { result ≤ 1 }
{
    match shown(all, size, slot) {
        Some(_) => 1,
        None => 0,
    }
}

/// Returns the number of files that have a line.
pub(crate) fn files_of(all: bool, size: u16, slots: &SlotTable) -> u32
    ensures { result ≡ length (shown_files all size slots.now.slots) }
{
    let mut files = 0;
    'slots: for place in 0..slots.len() {
        files += files_at(all, size, slots.get(place));
    }
    files
}
