//! What a command changes of a directory by one commit.
ghost use Rattle.std.specs.Prelude.{◌≡◌, ◌<◌, ◌≤◌, ◌^◌, ℕ, true, length};
ghost use Rattle.lif_dir.specs.Changes.{put_slot, slot_after, slots_with, FitsIn, IsToldBack};
ghost use Rattle.lif_dir.specs.Entries.{is_entry};

use crate::entries::{FileEntry, Slot};
use crate::table::SlotTable;
use lif_model::Version;

/// A slot of a directory that a command changes by one commit, with the slot after it where that changes too.
#[derive(Clone, Copy, Debug, Drop)]
pub struct Change {
    /// The version of the redo file by which it commits.
    pub version: Version,
    /// The place of the slot: one of the slots, or the place after the last.
    pub slot: usize,
    /// What it is to hold.
    pub entry: FileEntry,
    /// What the slot after it is to hold: the redo entry, whose slot a new file takes.
    pub next: Option<FileEntry>,
    /// Whether an end is put after them.
    pub ended: bool,
}

impl Change {
    /// The place after the slots that change.
    pub fn slot_after(&self) -> usize
        requires { self.now.slot < 2 ^ 32 }
        ensures { result ≡ slot_after self.now }
    {
        match self.next {
            None => self.slot + 1,
            Some(_) => self.slot + 2,
        }
    }
}

impl SlotTable {
    /// Changes the slots of a directory, for all of which there is room. Each is one of them, or stands after the last.
    pub fn change(&mut self, change: &Change)
        requires { (capacity : ℕ) × (capacity ≤ self.old.room) × FitsIn capacity (length self.old.slots) change.now }
        ensures changed { self.new ≡ record self.old { slots = slots_with change.now self.old.slots } }
        ensures told { IsToldBack change.now }
    {
        self.put(change.slot, Slot::holding(change.entry));
        if let Some(next) = change.next {
            self.put(change.slot + 1, Slot::holding(next));
        }
    }

    /// Replaces slot `k`, or appends it where `k` is the place after the last.
    fn put(&mut self, k: usize, slot: Slot)
        requires entry { is_entry slot ≡ true }
        requires within { k ≤ length self.old.slots }
        requires room { k < self.old.room }
        ensures put { self.new ≡ record self.old { slots = put_slot self.old.slots k slot } }
        ensures small { k < 2 ^ 32 }
    {
        if k == self.len() {
            self.push(slot);
        } else {
            self.set(k, slot);
        }
    }
}
