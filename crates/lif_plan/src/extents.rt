ghost use Rattle.std.specs.Prelude.{◌≡◌, ◌≤◌, map, filter, vec_capacity};
ghost use Rattle.std.specs.List.{list_all};
ghost use Rattle.std.specs.List.Sorted.{IsPermutation, IsNonDecreasingBy};
ghost use Rattle.lif_model.specs.Pairs.{all_neighbours};
ghost use Rattle.lif_model.specs.Legal.{occupies};
ghost use Rattle.lif_dir.specs.Entries.{entry_bytes, slot_bytes};
ghost use Rattle.lif_plan.specs.Entries.{extent_of, lies_within, ends_first};

use lif_dir::{FileEntry, SlotTable};

/// The records of a file: the first of them, and the first after them.
#[derive(Clone, Copy, Drop)]
pub struct Extent {
    pub start: u32,
    pub end: u64,
}

impl Extent {
    /// Those of a file.
    fn of(entry: FileEntry) -> Extent
        ensures { result ≡ extent_of (entry_bytes entry) }
    {
        Extent {
            start: entry.start,
            end: entry.end(),
        }
    }
}

/// Whether the file is live and has records.
pub fn occupies(entry: FileEntry) -> bool
    ensures { result ≡ occupies (entry_bytes entry) }
{
    entry.is_live() && entry.has_records()
}

/// Puts the extents of all live files that have records into `extents`, which has memory for one of
/// each slot.
pub fn gather(table: &SlotTable, extents: &mut Vec<Extent>)
    requires { table.now.room ≤ vec_capacity extents.old }
    ensures extents { extents.new.items
        ≡ map extent_of (filter occupies (map slot_bytes table.now.slots)) }
    ensures memory { vec_capacity extents.old ≤ vec_capacity extents.new }
{
    extents.clear();
    for k in 0..table.len() {
        let entry = *table.entry(k);
        if occupies(entry) {
            extents.push(Extent::of(entry)).unwrap();
        }
    }
}

/// Whether each of them lies between record `low` and record `high`.
pub fn lie_within(extents: &[Extent], low: u16, high: u16) -> bool
    ensures { result ≡ list_all (lies_within low high) extents.now }
{
    extents.iter().all(|extent| extent.start >= u32::from(low) && extent.end <= u64::from(high))
}

/// Sorts them by their first records.
pub fn sort_by_start(extents: &mut Vec<Extent>)
    ensures same { IsPermutation extents.old.items extents.new.items }
    ensures rising { IsNonDecreasingBy (λ extent. extent.start) extents.new.items }
    ensures memory { vec_capacity extents.old ≤ vec_capacity extents.new }
{
    extents.sort_unstable_by_key(|extent| extent.start);
}

/// Whether each of them ends at or before the start of the next.
pub fn follow_each_other(extents: &[Extent]) -> bool
    ensures { result ≡ all_neighbours ends_first extents.now }
{
    extents.is_sorted_by(|a, b| a.end <= u64::from(b.start))
}
