//! What a batch is to write of the directory, before it writes it.
ghost use Rattle.std.specs.Prelude.{◌≡◌, ◌<◌, ◌≤◌, ◌+◌, ◌*◌, ◌++◌, ◌∷◌, ℕ, List, All, [], true, length, map, filter, get_or, nat_eq, IfOk};
ghost use Rattle.std.specs.List.{list_any, list_all};
ghost use Rattle.std.specs.Vec.{vec_len, vec_capacity};
ghost use Rattle.lif_model.specs.Legal.{is_live};
ghost use Rattle.lif_model.specs.Parts as model;
ghost use Rattle.lif_model.specs.Parts.{most_parts};
ghost use Rattle.lif_model.specs.Writing.{same_slots};
ghost use Rattle.lif_model.specs.Volume.{is_adopted_with};
ghost use Rattle.lif_model.specs.declared.version.Version.TheVariants.{Two};
ghost use Rattle.lif_dir.specs.declared.entries.Slot as entries;
ghost use Rattle.lif_dir.specs.Entries.{slot_bytes};
ghost use Rattle.lif_dir.specs.Batches.{IsPartOf, part_of, parts_of};
ghost use Rattle.lif_plan.specs.Directories.{IsLegalDirectory};
ghost use Rattle.lif_plan.specs.Parts.{IsPartPlan, purged_at};
ghost use Rattle.lif_plan.specs.Batches.{file_of, file_at, IsBatchPlan, IsFileWithin, Remembers, IsRemembered, SoFar, TakesPart, TakesAll, is_left, is_as_before};

use crate::directory::Directory;
use lif_dir::{Batch, Change, Part, Slot, SlotTable};
use lif_header::Header;
use lif_model::{MOST_PARTS, Refusal, Version};
use std::alloc::{AllocError, Global};

/// How many slots a batch changes at most: each part one, and a new file at the end the next one too.
const MOST_SLOTS: usize = 2 * MOST_PARTS;

/// A file that a batch stores.
#[derive(Clone, Copy, Debug, PartialEq, Eq, Drop)]
pub struct PlannedFile {
    /// Its slot.
    pub slot: usize,
    /// Its first record.
    pub start: u32,
    /// Where its bytes begin in those of the batch.
    pub from: u32,
    /// How many bytes it has.
    pub length: u32,
}

/// What a slot held before the batch.
#[derive(Clone, Copy, Debug, Drop)]
pub struct Before {
    slot: usize,
    held: Slot,
}

/// What a batch is to write. All memory is taken by `new`.
#[derive(Drop)]
pub struct BatchPlan {
    /// The changes of the directory, one after the other.
    pub changes: Vec<Change>,
    /// The files that are left after the batch, in the order of the parts that store them.
    pub files: Vec<PlannedFile>,
    barred: Vec<usize>,
    befores: Vec<Before>,
    count: usize,
    ghost memory: { (most_parts ≤ vec_capacity changes) × (most_parts ≤ vec_capacity files)
        × (most_parts ≤ vec_capacity barred) × (2 * most_parts ≤ vec_capacity befores) },
}

impl BatchPlan {
    /// Nothing to write. The only error is want of memory.
    pub fn new(alloc: Global) -> Result<BatchPlan, AllocError>
        ensures { IfOk result (λ plan. (plan.changes.items ≡ []) × (plan.files.items ≡ [])) }
    {
        Ok(BatchPlan {
            changes: Vec::with_capacity(alloc, MOST_PARTS)?,
            files: Vec::with_capacity(alloc, MOST_PARTS)?,
            barred: Vec::with_capacity(alloc, MOST_PARTS)?,
            befores: Vec::with_capacity(alloc, MOST_SLOTS)?,
            count: 0,
        })
    }

    /// Begins with a directory of `count` slots.
    fn begin(&mut self, count: usize)
        ensures changes { self.new.changes.items ≡ [] }
        ensures files { self.new.files.items ≡ [] }
        ensures barred { self.new.barred.items ≡ [] }
        ensures befores { self.new.befores.items ≡ [] }
        ensures count { self.new.count ≡ count }
    {
        self.changes.clear();
        self.files.clear();
        self.barred.clear();
        self.befores.clear();
        self.count = count;
    }

    /// Adds the change that a part makes, with the file that it stores there, or the slot that it
    /// purges.
    fn add(&mut self, part: &Part, change: &Change)
        requires changes { vec_len self.old.changes < most_parts }
        requires files { vec_len self.old.files < most_parts }
        requires barred { vec_len self.old.barred < most_parts }
        ensures changes { self.new.changes.items ≡ self.old.changes.items ++ change.now ∷ [] }
        ensures files { (bytes : List ℕ) → map (file_of bytes) self.new.files.items
            ≡ map (file_of bytes) self.old.files.items ++ file_at (part_of bytes part.now) change.now }
        ensures barred { (bytes : List ℕ) → self.new.barred.items
            ≡ self.old.barred.items ++ purged_at (part_of bytes part.now) change.now.slot }
        ensures few_changes { vec_len self.new.changes ≤ vec_len self.old.changes + 1 }
        ensures few_files { vec_len self.new.files ≤ vec_len self.old.files + 1 }
        ensures few_barred { vec_len self.new.barred ≤ vec_len self.old.barred + 1 }
        ensures within { (count : ℕ) → IsPartOf count part.now → All (IsFileWithin count) self.old.files.items
            → All (IsFileWithin count) self.new.files.items }
        ensures befores { self.new.befores ≡ self.old.befores }
        ensures count { self.new.count ≡ self.old.count }
    {
        self.changes.push(*change).unwrap();
        match *part {
            Part::Store { from, length, .. } => {
                let file = PlannedFile {
                    slot: change.slot,
                    start: change.entry.start,
                    from,
                    length,
                };
                self.files.push(file).unwrap();
            }
            Part::Rename { .. } => {}
            Part::Purge(_) => self.barred.push(change.slot).unwrap(),
        }
    }

    /// Remembers what a slot holds, where the batch began with it and has not changed it.
    fn remember(&mut self, slot: usize, table: &SlotTable)
        requires room { vec_len self.old.befores < 2 * most_parts }
        requires longer { self.old.count ≤ length table.now.slots }
        ensures remembered { (slots : List entries.Slot) → length slots ≡ self.old.count
            → Remembers slots table.now.slots self.old.befores.items
            → Remembers slots table.now.slots self.new.befores.items }
        ensures slot { slot < self.old.count → IsRemembered self.new.befores.items slot }
        ensures others { (j : ℕ) → IsRemembered self.old.befores.items j → IsRemembered self.new.befores.items j }
        ensures few { vec_len self.new.befores ≤ vec_len self.old.befores + 1 }
        ensures changes { self.new.changes ≡ self.old.changes }
        ensures files { self.new.files ≡ self.old.files }
        ensures barred { self.new.barred ≡ self.old.barred }
        ensures count { self.new.count ≡ self.old.count }
    {
        if slot < self.count && !self.knows(slot) {
            let held = *table.get(slot);
            self.befores.push(Before { slot, held }).unwrap();
        }
    }

    /// Whether it is remembered what the slot held.
    fn knows(&self, slot: usize) -> bool
        ensures { result ≡ list_any (λ before. nat_eq before.slot slot) self.now.befores.items }
    {
        self.befores.iter().any(|before| before.slot == slot)
    }

    /// Leaves out the files whose slots are purged.
    fn keep_left(&mut self, table: &SlotTable)
        ensures files { self.new.files.items ≡ filter (is_left (map slot_bytes table.now.slots)) self.old.files.items }
        ensures changes { self.new.changes ≡ self.old.changes }
        ensures befores { self.new.befores ≡ self.old.befores }
        ensures count { self.new.count ≡ self.old.count }
    {
        self.files.retain(|file| is_live_in(table, file.slot));
    }

    /// Whether the slots are those with which the batch began.
    fn is_unchanged(&self, table: &SlotTable) -> bool
        ensures { (slots : List entries.Slot) → length slots ≡ self.now.count
            → Remembers slots table.now.slots self.now.befores.items
            → result ≡ same_slots (map slot_bytes slots) (map slot_bytes table.now.slots) }
    {
        table.len() == self.count && self.hold_still(table)
    }

    /// Whether each slot that is remembered holds what it held.
    fn hold_still(&self, table: &SlotTable) -> bool
        ensures { result ≡ list_all (is_as_before (map slot_bytes table.now.slots)) self.now.befores.items }
    {
        self.befores.iter().all(|before| holds_still(table, before))
    }
}

/// Whether the slot is there and live.
fn is_live_in(table: &SlotTable, slot: usize) -> bool
    ensures { result ≡ is_live (get_or (map slot_bytes table.now.slots) slot []) }
{
    slot < table.len() && table.entry(slot).is_live()
}

/// Whether the slot is there and holds what it held.
fn holds_still(table: &SlotTable, before: &Before) -> bool
    ensures { result ≡ is_as_before (map slot_bytes table.now.slots) before.now }
{
    match &before.held {
        Slot::Live(held) | Slot::Purged(held) => {
            before.slot < table.len() && table.entry(before.slot).bytes() == held.bytes()
        }
        Slot::End => false,
    }
}

impl Directory {
    /// What a part of a batch is to write of the directory, or why it is refused: its file's bytes are
    /// among those of the batch, and it may not take the slots that are `barred`, which the batch has
    /// purged.
    pub fn plan_part(
        &self,
        part: &Part,
        bytes: &[u8],
        barred: &[usize],
        header: &Header,
        size: u16,
    ) -> Result<Option<Change>, Refusal>
        requires legal { IsLegalDirectory size header.now (map slot_bytes self.now.table.slots) }
        requires part { IsPartOf (length bytes.now) part.now }
        ensures plan { IsPartPlan size (part_of bytes.now part.now) barred.now header.now
            (map slot_bytes self.now.table.slots) result }
    {
        match *part {
            Part::Store {
                name,
                kind,
                implementation,
                from,
                length,
            } => {
                let file = &bytes[from as usize..][..length as usize];
                self.store_beside(&name, kind, implementation, file, barred, header, size)
            }
            Part::Rename { old, new } => self.rename(&old, &new, header, size),
            Part::Purge(name) => self.purge(&name, header, size),
        }
    }

    /// Plans one part more, and makes its change in memory.
    fn take_part(
        &mut self,
        part: &Part,
        bytes: &[u8],
        header: &Header,
        size: u16,
        plan: &mut BatchPlan,
    ) -> Result<(), Refusal>
        requires legal { IsLegalDirectory size header.now (map slot_bytes self.old.table.slots) }
        requires room { 8 * header.now.length ≤ self.old.table.room }
        requires part { IsPartOf (length bytes.now) part.now }
        requires longer { plan.old.count ≤ length self.old.table.slots }
        requires changes { vec_len plan.old.changes < most_parts }
        requires files { vec_len plan.old.files < most_parts }
        requires barred { vec_len plan.old.barred < most_parts }
        requires befores { vec_len plan.old.befores + 1 < 2 * most_parts }
        ensures takes { (slots : List (List ℕ)) (parts : List model.Part)
            → SoFar size header.now slots parts (map slot_bytes self.old.table.slots) plan.old.changes.items
            (map (file_of bytes.now) plan.old.files.items) plan.old.barred.items
            → TakesPart size header.now slots parts (part_of bytes.now part.now) plan.old.barred.items
            (map slot_bytes self.old.table.slots) (map slot_bytes self.new.table.slots)
            plan.new.changes.items (map (file_of bytes.now) plan.new.files.items) plan.new.barred.items result }
        ensures remembers { (slots : List entries.Slot) → length slots ≡ plan.old.count
            → Remembers slots self.old.table.slots plan.old.befores.items
            → Remembers slots self.new.table.slots plan.new.befores.items }
        ensures within { All (IsFileWithin (length bytes.now)) plan.old.files.items
            → All (IsFileWithin (length bytes.now)) plan.new.files.items }
        ensures count { plan.new.count ≡ plan.old.count }
        ensures room { self.new.table.room ≡ self.old.table.room }
        ensures few_changes { vec_len plan.new.changes ≤ vec_len plan.old.changes + 1 }
        ensures few_files { vec_len plan.new.files ≤ vec_len plan.old.files + 1 }
        ensures few_barred { vec_len plan.new.barred ≤ vec_len plan.old.barred + 1 }
        ensures few_befores { vec_len plan.new.befores ≤ vec_len plan.old.befores + 2 }
    {
        let Some(change) = self.plan_part(part, bytes, &plan.barred, header, size)? else {
            return Ok(());
        };
        plan.remember(change.slot, &self.table);
        plan.remember(change.slot + 1, &self.table);
        plan.add(part, &change);
        self.change(&change);
        Ok(())
    }

    /// Plans the parts one after the other, on a volume that is adopted with version 2.
    fn take_parts(
        &mut self,
        batch: &Batch,
        header: &Header,
        size: u16,
        plan: &mut BatchPlan,
    ) -> Result<(), Refusal>
        requires legal { IsLegalDirectory size header.now (map slot_bytes self.old.table.slots) }
        requires room { 8 * header.now.length ≤ self.old.table.room }
        requires two { is_adopted_with size Two (map slot_bytes self.old.table.slots) ≡ true }
        requires changes { plan.old.changes.items ≡ [] }
        requires files { plan.old.files.items ≡ [] }
        requires barred { plan.old.barred.items ≡ [] }
        requires befores { plan.old.befores.items ≡ [] }
        requires count { plan.old.count ≡ length self.old.table.slots }
        ensures takes { TakesAll size header.now (map slot_bytes self.old.table.slots) (parts_of batch.now)
            (map slot_bytes self.new.table.slots) plan.new.changes.items
            (map (file_of batch.now.bytes) plan.new.files.items) plan.new.barred.items result }
        ensures remembers { Remembers self.old.table.slots self.new.table.slots plan.new.befores.items }
        ensures within { All (IsFileWithin (length batch.now.bytes)) plan.new.files.items }
        ensures few { length (parts_of batch.now) ≤ most_parts }
        ensures count { plan.new.count ≡ plan.old.count }
        ensures room { self.new.table.room ≡ self.old.table.room }
    {
        let bytes = batch.bytes();
        let parts = batch.parts();
        for k in 0..parts.len() {
            self.take_part(&parts[k], bytes, header, size, plan)?;
        }
        Ok(())
    }

    /// Plans a batch on a volume that is adopted with version 2, and leaves the slots in memory as they
    /// are after its parts, or after those before the one that is refused.
    fn plan_parts(
        &mut self,
        batch: &Batch,
        header: &Header,
        size: u16,
        plan: &mut BatchPlan,
    ) -> Result<bool, Refusal>
        requires legal { IsLegalDirectory size header.now (map slot_bytes self.old.table.slots) }
        requires room { 8 * header.now.length ≤ self.old.table.room }
        requires two { is_adopted_with size Two (map slot_bytes self.old.table.slots) ≡ true }
        ensures plan { IsBatchPlan size (parts_of batch.now) header.now (map slot_bytes self.old.table.slots)
            (map slot_bytes self.new.table.slots) plan.new.changes.items
            (map (file_of batch.now.bytes) plan.new.files.items) result }
        ensures within { IfOk result (λ unchanged. All (IsFileWithin (length batch.now.bytes)) plan.new.files.items) }
        ensures remembers { Remembers self.old.table.slots self.new.table.slots plan.new.befores.items }
        ensures count { plan.new.count ≡ length self.old.table.slots }
        ensures room { self.new.table.room ≡ self.old.table.room }
    {
        plan.begin(self.table.len());
        self.take_parts(batch, header, size, plan)?;
        plan.keep_left(&self.table);
        Ok(plan.is_unchanged(&self.table))
    }

    /// Makes the slots in memory those with which the batch began.
    fn give_back(&mut self, plan: &BatchPlan)
        requires { (slots : List entries.Slot) × (length slots ≡ plan.now.count)
            × Remembers slots self.old.table.slots plan.now.befores.items }
        ensures { (slots : List entries.Slot) → length slots ≡ plan.now.count
            → Remembers slots self.old.table.slots plan.now.befores.items
            → self.new.table ≡ record self.old.table { slots = slots } }
    {
        self.table.truncate(plan.count);
        for k in 0..plan.befores.len() {
            let before = &plan.befores[k];
            self.table.set(before.slot, before.held);
        }
    }

    /// What a batch is to write of the directory, or why it is refused; `Ok` says whether the directory
    /// stays as it is. The slots in memory stay as they are.
    pub fn batch(
        &mut self,
        batch: &Batch,
        header: &Header,
        size: u16,
        plan: &mut BatchPlan,
    ) -> Result<bool, Refusal>
        requires legal { IsLegalDirectory size header.now (map slot_bytes self.old.table.slots) }
        requires room { 8 * header.now.length ≤ self.old.table.room }
        ensures plan { (later : List (List ℕ)) × IsBatchPlan size (parts_of batch.now) header.now
            (map slot_bytes self.old.table.slots) later plan.new.changes.items
            (map (file_of batch.now.bytes) plan.new.files.items) result }
        ensures within { IfOk result (λ unchanged. All (IsFileWithin (length batch.now.bytes)) plan.new.files.items) }
        ensures table { self.new.table ≡ self.old.table }
    {
        match self.redo_version(size) {
            None => return Err(Refusal::NoRedo),
            Some(Version::One) => return Err(Refusal::NeedsUpgrade),
            Some(Version::Two) => {}
        }
        let planned = self.plan_parts(batch, header, size, plan);
        self.give_back(plan);
        planned
    }
}
