//! What is left to do of a packing that was stopped.
ghost use Rattle.std.specs.Prelude.{◌≡◌, ◌+◌, IfSome, map};
ghost use Rattle.lif_model.specs.Header.{HeaderParts, directory_start, directory_end};
ghost use Rattle.lif_model.specs.Volume.{Volume, IsVolume};
ghost use Rattle.lif_dir.specs.Entries.{slot_bytes};
ghost use Rattle.lif_plan.specs.Directories.{IsLegalDirectory};
ghost use Rattle.lif_pack.specs.Tasks.{MayFinish, IsTask, limit_of};

use crate::marks::{Move, mark_of, named};
use lif_dir::SlotTable;
use lif_model::{ENTRIES, Version};
use lif_volume::Listing;

/// What finishes a volume.
#[derive(Clone, Copy, Drop)]
pub struct Task {
    /// The first record of the directory.
    pub first: u16,
    /// The slot of the redo entry, which has a mark.
    pub redo: usize,
    /// The file that is being moved, where the mark is good.
    pub moving: Option<Move>,
}

/// What finishes the volume with this directory, on a medium of `size` records. `None` where there is nothing to do.
pub fn task_of(slots: &SlotTable, listing: &Listing, size: u16) -> Option<Task>
    requires legal { (header : HeaderParts) × IsLegalDirectory size header (map slot_bytes slots.now.slots) }
    ensures may { IfSome result (MayFinish size) }
    ensures task { (v : Volume) → IsVolume size v → v.slots ≡ map slot_bytes slots.now.slots
        → directory_start v.header ≡ listing.now.start → directory_end v.header ≡ listing.now.start + listing.now.length
        → IsTask size v result }
{
    let mark = mark_of(slots, size)?;
    let end = u32::from(listing.start) + u32::from(listing.length);
    let moving = named(slots, &mark, end);
    if usize::from(listing.start) + mark.redo / ENTRIES >= limit(moving, size) {
        return None;
    }
    Some(Task {
        first: listing.start,
        redo: mark.redo,
        moving,
    })
}

/// The record that the directory ends before: the place of the file that is being moved, or the redo file.
fn limit(moving: Option<Move>, size: u16) -> usize
    ensures { result ≡ limit_of size moving }
{
    match moving {
        Some(file) => file.place as usize,
        None => usize::from(Version::Two.start(size)),
    }
}
