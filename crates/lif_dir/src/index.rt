ghost use Rattle.std.specs.Prelude.{◌≡◌, ◌≢◌, ◌<◌, ◌≤◌, ◌+◌, ◌-◌, ◌*◌, ◌^◌, ℕ, true, false, [], All, length};
ghost use Rattle.std.specs.Prelude.{map, filter, slice_index, slice_set, vec_len, vec_capacity, IfOk};
ghost use Rattle.std.specs.Prelude.{MatchOption};
ghost use Rattle.std.specs.Ordering.{nat_cmp};
ghost use Rattle.std.specs.Cmp.Lexicographic.{slice_cmp};
ghost use Rattle.lif_model.specs.Legal.{is_live};
ghost use Rattle.lif_dir.specs.Entries.{is_entry, name_bytes, slot_bytes};
ghost use Rattle.lif_dir.specs.Indexes.{name_at, name_in, IsUpTo, AreSorted, IsIndex};

use crate::entries::{Name, Slot};
use crate::steps::Steps;
use std::alloc::{AllocError, Global};
use std::cmp::Ordering;
use std::sync::ledger::Ledger;

/// The places of the live slots of a table, in the order of their names.
#[derive(Debug, Drop)]
pub struct NameIndex {
    pub places: Vec<u32>,
}

impl NameIndex {
    /// The index of no slots, with room for this many places.
    pub fn new(alloc: Global, room: usize) -> Result<NameIndex, AllocError>
        ensures places { IfOk result (λ index. index.places.items ≡ []) }
        ensures room { IfOk result (λ index. room ≤ vec_capacity index.places) }
    {
        Ok(NameIndex {
            places: Vec::with_capacity(alloc, room)?,
        })
    }

    /// Empties the index.
    pub fn clear(&mut self)
        ensures places { self.new.places.items ≡ [] }
        ensures capacity { vec_capacity self.new.places ≡ vec_capacity self.old.places }
    {
        self.places.clear();
    }

    /// Takes slot `k` out of the index, as if there were no such slot.
    pub fn take_out(&mut self, slots: &[Slot], k: usize)
        requires within { k < length slots.now }
        requires index { IsIndex (map slot_bytes slots.now) self.old.places.items }
        requires count { vec_len self.old.places
            ≡ length (filter is_live (map slot_bytes slots.now)) }
        ensures index { IsIndex (slice_set (map slot_bytes slots.now) k []) self.new.places.items }
        ensures count { vec_len self.new.places
            ≡ length (filter is_live (slice_set (map slot_bytes slots.now) k [])) }
        ensures capacity { vec_capacity self.new.places ≡ vec_capacity self.old.places }
    {
        if let Some(at) = self.position(k) {
            self.places.remove(at);
        }
    }

    /// Where the index has the place `k`.
    fn position(&self, k: usize) -> Option<usize>
        ensures { MatchOption result
            ((j : ℕ) → j < vec_len self.now.places → slice_index self.now.places.items j ≢ k)
            (λ at. (at < vec_len self.now.places) × (slice_index self.now.places.items at ≡ k)) }
    {
        self.places.iter().position(|place| *place as usize == k)
    }

    /// Puts slot `k` into the index, if it is live.
    pub fn put_in(&mut self, slots: &[Slot], k: usize)
        requires within { k < length slots.now }
        requires small { k < 2 ^ 32 }
        requires entries { All (λ slot. is_entry slot ≡ true) slots.now }
        requires index { IsIndex (slice_set (map slot_bytes slots.now) k []) self.old.places.items }
        requires count { vec_len self.old.places
            ≡ length (filter is_live (slice_set (map slot_bytes slots.now) k [])) }
        requires room { length slots.now ≤ vec_capacity self.old.places }
        ensures index { IsIndex (map slot_bytes slots.now) self.new.places.items }
        ensures count { vec_len self.new.places
            ≡ length (filter is_live (map slot_bytes slots.now)) }
        ensures capacity { vec_capacity self.old.places ≤ vec_capacity self.new.places }
    {
        if slots[k].is_live() {
            let at = self.rank(slots, &name_of(slots, k));
            self.places.insert(at, k as u32).unwrap();
        }
    }

    /// Where a place of this name goes: no name before stands after it, and it stands after no
    /// other.
    fn rank(&self, slots: &[Slot], name: &Name) -> usize
        requires entries { All (λ slot. is_entry slot ≡ true) slots.now }
        requires sorted { AreSorted (map slot_bytes slots.now) self.now.places.items }
        ensures within { result ≤ vec_len self.now.places }
        ensures below { (j : ℕ) → j < result
            → IsUpTo (name_in (map slot_bytes slots.now) self.now.places.items j)
            (name_bytes name.now) }
        ensures above { (j : ℕ) → result ≤ j → j < vec_len self.now.places
            → IsUpTo (name_bytes name.now)
            (name_in (map slot_bytes slots.now) self.now.places.items j) }
    {
        let mut low = 0;
        let mut high = self.places.len();
        while low < high {
            let middle = low + (high - low) / 2;
            if name_of(slots, self.places[middle] as usize)
                .order(name)
                .is_gt()
            {
                high = middle;
            } else {
                low = middle + 1;
            }
        }
        low
    }

    /// The place of a slot of this name. A step is one comparison of two names.
    pub fn find<L: Ledger>(&self, slots: &[Slot], name: &Name, steps: &mut Steps<L>) -> Option<u32>
        requires entries { All (λ slot. is_entry slot ≡ true) slots.now }
        requires sorted { AreSorted (map slot_bytes slots.now) self.now.places.items }
        ensures place { MatchOption result
            ((j : ℕ) → j < length self.now.places.items
            → name_in (map slot_bytes slots.now) self.now.places.items j ≢ name_bytes name.now)
            (λ place. (j : ℕ) × (j < length self.now.places.items)
            × (slice_index self.now.places.items j ≡ place)
            × (name_at (map slot_bytes slots.now) place ≡ name_bytes name.now)) }
        ensures grows { steps.old ≤ steps.new }
        ensures few { 2 ^ (steps.new - steps.old) ≤ 2 * vec_len self.now.places + 1 }
    {
        let (mut low, mut high) = (0, self.places.len());
        while low < high {
            let middle = low + (high - low) / 2;
            let place = self.places[middle];
            match compare(&name_of(slots, place as usize), name, steps) {
                Ordering::Less => low = middle + 1,
                Ordering::Equal => return Some(place),
                Ordering::Greater => high = middle,
            }
        }
        None
    }

    /// Whether no two of the slots have one name.
    pub fn is_distinct(&self, slots: &[Slot]) -> bool
        requires entries { All (λ slot. is_entry slot ≡ true) slots.now }
        requires sorted { AreSorted (map slot_bytes slots.now) self.now.places.items }
        ensures apart { result ≡ true → (j k : ℕ) → j < k → k < length self.now.places.items
            → name_in (map slot_bytes slots.now) self.now.places.items j
            ≢ name_in (map slot_bytes slots.now) self.now.places.items k }
        ensures twins { result ≡ false → (j : ℕ) × (j + 1 < length self.now.places.items)
            × (name_in (map slot_bytes slots.now) self.now.places.items j
            ≡ name_in (map slot_bytes slots.now) self.now.places.items (j + 1)) }
    {
        for j in 1..self.places.len() {
            let before = name_of(slots, self.places[j - 1] as usize);
            if before == name_of(slots, self.places[j] as usize) {
                return false;
            }
        }
        true
    }
}

/// The name of the slot at a place.
fn name_of(slots: &[Slot], place: usize) -> Name
    requires within { place < length slots.now }
    requires entries { All (λ slot. is_entry slot ≡ true) slots.now }
    ensures { name_bytes result ≡ name_at (map slot_bytes slots.now) place }
{
    match &slots[place] {
        Slot::Live(entry) | Slot::Purged(entry) => entry.name(),
        Slot::End => unreachable!(),
    }
}

/// Compares two names, which is one step.
fn compare<L: Ledger>(a: &Name, b: &Name, steps: &mut Steps<L>) -> Ordering
    ensures order { result ≡ slice_cmp nat_cmp (name_bytes a.now) (name_bytes b.now) }
    ensures step { steps.new ≡ steps.old + 1 }
{
    steps.tick();
    a.order(b)
}
