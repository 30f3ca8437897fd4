//! Whether a directory is legal, slot by slot and pair by pair.
ghost use Rattle.std.specs.Prelude.{◌≡◌, ◌&&◌, ◌||◌, not};
ghost use Rattle.std.specs.List.{list_all};
ghost use Rattle.lif_model.specs.Header.{is_readable};
ghost use Rattle.lif_model.specs.Pairs.{all_pairs};
ghost use Rattle.lif_model.specs.Legal.{occupies, are_apart, have_other_names, is_legal_with};
ghost use Rattle.lif_model.specs.Plain.{is_in_place, go_together};

use crate::Record;
use crate::fields::{end_of, four_at, is_purged, name_of, occupies, start_of, two_at};

/// Whether record 0 can be read as the header of a tape of n records.
fn is_readable(n: u64, header: &Record) -> bool
    ensures { result ≡ is_readable n header.now }
{
    let start = four_at(header, 8);
    let count = four_at(header, 16);
    two_at(header, 0) == 0x8000
        && (0 < start && (0 < count && start + count <= n.saturating_sub(4)))
}

/// Whether the slot lies between these two, if it is that of a live file that has records.
fn is_in_place(low: u64, high: u64, slot: &[u8; 32]) -> bool
    ensures { result ≡ is_in_place low high slot.now }
{
    !occupies(slot) || (low <= start_of(slot) && end_of(slot) <= high)
}

/// Whether no record is in both extents, if both are those of live files.
fn share_no_record(a: &[u8; 32], b: &[u8; 32]) -> bool
    ensures { result ≡ (not (occupies a.now && occupies b.now) || are_apart a.now b.now) }
{
    !(occupies(a) && occupies(b)) || (end_of(a) <= start_of(b) || end_of(b) <= start_of(a))
}

/// Whether the two have different names.
fn have_other_names(a: &[u8; 32], b: &[u8; 32]) -> bool
    ensures { result ≡ have_other_names a.now b.now }
{
    name_of(a) != name_of(b)
}

/// Whether two slots may stand in one directory.
fn go_together(a: &[u8; 32], b: &[u8; 32]) -> bool
    ensures { result ≡ go_together a.now b.now }
{
    share_no_record(a, b) && (!(!is_purged(a) && !is_purged(b)) || have_other_names(a, b))
}

/// Whether each slot is in its place.
fn all_in_place(low: u64, high: u64, slots: &[[u8; 32]]) -> bool
    ensures { result ≡ list_all (is_in_place low high) slots.now }
{
    slots.iter().all(|slot| is_in_place(low, high, slot))
}

/// Whether a slot goes with each of these.
fn goes_with_all(slot: &[u8; 32], others: &[[u8; 32]]) -> bool
    ensures { result ≡ list_all (go_together slot.now) others.now }
{
    others.iter().all(|other| go_together(slot, other))
}

/// Whether each two slots go together.
fn all_go_together(slots: &[[u8; 32]]) -> bool
    ensures { result ≡ all_pairs go_together slots.now }
{
    for i in 0..slots.len() {
        if !goes_with_all(&slots[i], &slots[i + 1..]) {
            return false;
        }
    }
    true
}

/// Whether a tape of n records with this record 0 and these slots is legal.
#[tactic(auto, using(crate::proofs::Plain::legal_by_slots))]
pub fn plain_is_legal(n: u64, header: &Record, slots: &[[u8; 32]]) -> bool
    ensures { result ≡ is_legal_with n header.now slots.now }
{
    let directory_end = four_at(header, 8) + four_at(header, 16);
    is_readable(n, header) && (all_in_place(directory_end, n, slots) && all_go_together(slots))
}
