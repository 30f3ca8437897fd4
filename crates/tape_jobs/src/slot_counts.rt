//! How many slots a directory has at most.
ghost use Rattle.std.specs.Prelude.{◌≡◌, ◌≤◌, ◌<◌, ◌*◌, true, false, length};

use lif_dir::SlotTable;

/// The most slots that a directory has on a medium of `size` records: eight for each record.
pub(crate) fn most_slots(size: u16) -> usize
    ensures { result ≡ 8 * size }
{
    8 * usize::from(size)
}

/// Whether a directory has no more slots than a medium of `size` records has room for. Each directory that can be read
/// is so.
pub(crate) fn are_few(slots: &SlotTable, size: u16) -> bool
    ensures few { result ≡ true → length slots.now.slots ≤ 8 * size }
    ensures many { result ≡ false → 8 * size < length slots.now.slots }
{
    slots.len() <= most_slots(size)
}
