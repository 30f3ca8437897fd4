ghost use Rattle.std.specs.Prelude.{◌≡◌, ◌==◌, ◌<◌, ◌≤◌, ◌+◌, ◌-◌, ◌*◌, ◌^◌, Some, true, [], ◌∷◌, ◌++◌, length};
ghost use Rattle.std.specs.Prelude.{map, filter, take, slice_get, slice_index_or, slice_set, is_some, IfOk};
ghost use Rattle.std.specs.List.{insert, position};
ghost use Rattle.lif_model.specs.Pairs.{all_pairs};
ghost use Rattle.lif_model.specs.Legal.{is_live, is_live_named, has_file, have_other_names};

use crate::entries::{FileEntry, Name, Slot};
use crate::index::NameIndex;
use crate::steps::Steps;
use std::alloc::{AllocError, Global};
use std::marker::Model;
use std::sync::ledger::Ledger;

/// The slots of a directory, live and purged, in order. All memory is taken by `new`: the room
/// never changes.
#[derive(Debug, Drop)]
pub struct SlotTable {
    slots: Vec<Slot>,
    index: NameIndex,
    room: usize,
}

impl Model for SlotTable {
    ghost use Rattle.std.specs.Vec.{vec_len, vec_capacity};
    ghost use Rattle.lif_dir.specs.Tables.{Table, IsInRoom, IsIndexed};

    ghost Value = { Table };

    ghost view = { λ table. record { slots = table.slots.items; room = table.room } };

    ghost invariant = { λ table.
        IsInRoom (vec_len table.slots) table.room (vec_capacity table.slots) table.slots.items
        × IsIndexed (vec_len table.index.places) table.room (vec_capacity table.index.places)
        table.slots.items table.index.places.items };
}

impl SlotTable {
    ghost use Rattle.lif_dir.specs.Entries.{is_entry, name_bytes, entry_bytes, slot_bytes};

    /// An empty table with room for this many slots, of which there are fewer than 2^32.
    pub fn new(alloc: Global, room: usize) -> Result<SlotTable, AllocError>
        requires { room < 2 ^ 32 }
        ensures { IfOk result (λ table. table ≡ record { slots = []; room = room }) }
    {
        Ok(SlotTable {
            slots: Vec::with_capacity(alloc, room)?,
            index: NameIndex::new(alloc, room)?,
            room,
        })
    }

    /// How many slots the table has.
    pub fn len(&self) -> usize
        ensures count { result ≡ length self.now.slots }
        ensures within { result ≤ self.now.room }
        ensures bound { result < 2 ^ 32 }
    {
        self.slots.len()
    }

    /// Whether the table has no slot.
    pub fn is_empty(&self) -> bool
        ensures { result ≡ (length self.now.slots == 0) }
    {
        self.slots.is_empty()
    }

    /// How many slots the table has room for.
    pub fn room(&self) -> usize
        ensures { result ≡ self.now.room }
    {
        self.room
    }

    /// Slot `k`, which the table has. It is never the end of a directory.
    pub fn get(&self, k: usize) -> &Slot
        requires { k < length self.now.slots }
        ensures slot { slice_get self.now.slots k ≡ Some result.now }
        ensures entry { is_entry result.now ≡ true }
    {
        &self.slots[k]
    }

    /// The entry of slot `k`, which the table has, live or purged.
    pub fn entry(&self, k: usize) -> &FileEntry
        requires { k < length self.now.slots }
        ensures { entry_bytes result.now ≡ slice_index_or (map slot_bytes self.now.slots) k [] }
    {
        match &self.slots[k] {
            Slot::Live(entry) | Slot::Purged(entry) => entry,
            Slot::End => unreachable!(),
        }
    }

    /// Empties the table.
    pub fn clear(&mut self)
        ensures { self.new ≡ record self.old { slots = [] } }
    {
        self.slots.clear();
        self.index.clear();
    }

    /// Appends a slot, which is no end of a directory and for which there is room.
    pub fn push(&mut self, slot: Slot)
        requires entry { is_entry slot ≡ true }
        requires room { length self.old.slots < self.old.room }
        ensures { self.new ≡ record self.old { slots = self.old.slots ++ slot ∷ [] } }
    {
        self.slots.push(slot).unwrap();
        self.index.put_in(&self.slots, self.slots.len() - 1);
    }

    /// Replaces slot `k` alone, which the table has, by one that is no end of a directory.
    pub fn set(&mut self, k: usize, slot: Slot)
        requires entry { is_entry slot ≡ true }
        requires within { k < length self.old.slots }
        ensures { self.new ≡ record self.old { slots = slice_set self.old.slots k slot } }
    {
        self.index.take_out(&self.slots, k);
        self.slots[k] = slot;
        self.index.put_in(&self.slots, k);
    }

    /// Keeps the first `count` slots alone. A table that has no more stays.
    pub fn truncate(&mut self, count: usize)
        ensures { self.new ≡ record self.old { slots = take count self.old.slots } }
    {
        while self.slots.len() > count {
            self.pop();
        }
    }

    /// Takes the last slot away, which the table has.
    fn pop(&mut self)
        requires some { 0 < length self.old.slots }
        ensures { self.new ≡ record self.old { slots = take (length self.old.slots - 1) self.old.slots } }
    {
        let last = self.slots.len() - 1;
        self.index.take_out(&self.slots, last);
        self.slots.truncate(last);
    }

    /// Puts a slot before the last one, which moves on by one place: so a file takes the slot of
    /// the redo entry. The table has a slot and room for one more.
    pub fn insert_before_last(&mut self, slot: Slot)
        requires entry { is_entry slot ≡ true }
        requires some { 0 < length self.old.slots }
        requires room { length self.old.slots < self.old.room }
        ensures { self.new
            ≡ record self.old { slots = insert self.old.slots (length self.old.slots - 1) slot } }
    {
        let end = self.len() - 1;
        let last = *self.get(end);
        self.set(end, slot);
        self.push(last);
    }

    /// Whether no two live slots have one name, as the slots of a legal directory.
    pub fn distinct(&self) -> bool
        ensures { result
            ≡ all_pairs have_other_names (filter is_live (map slot_bytes self.now.slots)) }
    {
        self.index.is_distinct(&self.slots)
    }

    /// The place of the live slot of this name, or `None` where no live slot has it. Live names are
    /// distinct. A step is one comparison of two names; with n live slots there are at most b of
    /// them, where b is the greatest number for which 2^b is at most 2n + 1.
    pub fn find<L: Ledger>(&self, name: &Name, steps: &mut Steps<L>) -> Option<u32>
        requires distinct { all_pairs have_other_names
            (filter is_live (map slot_bytes self.now.slots)) ≡ true }
        ensures place { result
            ≡ position (is_live_named (name_bytes name.now)) (map slot_bytes self.now.slots) }
        ensures exists { is_some result
            ≡ has_file (map slot_bytes self.now.slots) (name_bytes name.now) }
        ensures grows { steps.old ≤ steps.new }
        ensures few { 2 ^ (steps.new - steps.old)
            ≤ 2 * length (filter is_live (map slot_bytes self.now.slots)) + 1 }
    {
        self.index.find(&self.slots, name, steps)
    }
}
