//! Slots of a directory change places, and no gap is left among the live ones.
ghost use Rattle.std.specs.Prelude.{◌≡◌, ◌⊎◌, ◌<◌, ◌≤◌, ◌+◌, ◌-◌, ◌*◌, ◌^◌, ◌++◌, ◌/◌, ℕ, [], true, false, length};
ghost use Rattle.std.specs.Prelude.{filter, map, min, get_or, set, Some, Ok, IfOk, OnOk};
ghost use Rattle.lif_model.specs.Tape.{Tape, record_at};
ghost use Rattle.lif_model.specs.Directory.{entry_at};
ghost use Rattle.lif_model.specs.Legal.{is_live};
ghost use Rattle.lif_model.specs.Redo.{IsSettled};
ghost use Rattle.lif_model.specs.Writing.{SlotWrites};
ghost use Rattle.il_ports.specs.Stores.{IsReady, GoesOn, IsQuiet};
ghost use Rattle.lif_dir.specs.Entries.{slot_bytes};
ghost use Rattle.lif_commit.specs.Staged.{HoldsSlots};
ghost use Rattle.lif_pack.specs.Packers.{slots_held};
ghost use Rattle.lif_pack.specs.Steps.{AreLive, IsGap, StayBut, AreUpTo, AreSetAside, HasRecord};

use crate::memory::Packer;
use crate::moving::put_entry;
use il_ports::{Records, Trouble};
use lif_dir::SlotTable;
use lif_model::{ENTRIES, RECORD, Record, Version};
use lif_redo::commit;

/// How far live slots have been brought forward.
#[derive(Clone, Copy, Drop)]
pub struct Closed {
    /// Where the next one is to stand.
    pub next: usize,
    /// Whether one has moved.
    pub moved: bool,
}

impl Packer {
    ghost use Rattle.lif_model.specs.Header.{directory_start, directory_end};
    ghost use Rattle.lif_model.specs.Volume.{Volume, volume_of};
    ghost use Rattle.il_ports.specs.Stores.{RunLeaves};
    ghost use Rattle.lif_pack.specs.Tasks.{KeepsFiles};
    ghost use Rattle.lif_pack.specs.Steps.{MayPack, MayStillPack, TapeHasSlots};

    /// Brings all live slots forward over the purged ones, in memory and in the directory, which begins at record
    /// `first`, by a commit for each of its records in which a slot moves. Tells how many live slots there are: they
    /// stand first, in the same order.
    pub(crate) fn close_up<R: Records>(
        &mut self,
        records: &mut R,
        first: u16,
    ) -> Result<usize, Trouble>
        requires may { (end redo : ℕ) × MayPack (R.view records.old).record_count first end redo (slots_held self.old) }
        requires ready { IsReady (13 * (length (slots_held self.old) / 8 + 1)) (R.view records.old) }
        requires settled { (t : Tape) → (R.view records.old).tape ≡ Some t → IsSettled t }
        requires medium { (R.view records.old).record_count < 2 ^ 16 }
        ensures goes_on { GoesOn (13 * (length (slots_held self.old) / 8 + 1)) (R.view records.old)
            (R.view records.new) result }
        ensures settled { OnOk result ((t : Tape) → (R.view records.new).tape ≡ Some t → IsSettled t) }
        ensures room { self.new.slots.room ≡ self.old.slots.room }
        ensures long { OnOk result (length (slots_held self.new) ≡ length (slots_held self.old)) }
        ensures gap { IfOk result (λ next. IsGap next (length (slots_held self.new)) (slots_held self.new)) }
        ensures live { OnOk result (filter is_live (slots_held self.new) ≡ filter is_live (slots_held self.old)) }
        ensures may { OnOk result (MayStillPack (R.view records.old).record_count first (slots_held self.old)
            (slots_held self.new)) }
        ensures closes { OnOk result (TapeHasSlots (R.view records.old).record_count first (slots_held self.old)
            (slots_held self.new) (R.view records.old).tape (R.view records.new).tape) }
        // Where all are live already nothing is read or written.
        ensures idle { AreLive (slots_held self.old) → (result ≡ Ok (length (slots_held self.old)))
            × (records.new ≡ records.old) × (slots_held self.new ≡ slots_held self.old) }
        // A stop at any moment leaves a tape with the same files.
        ensures stops { (end redo : ℕ) (t : Tape) (v : Volume)
            → MayPack (R.view records.old).record_count first end redo (slots_held self.old)
            → (R.view records.old).tape ≡ Some t → volume_of t ≡ Some v → v.slots ≡ slots_held self.old
            → directory_start v.header ≡ first → directory_end v.header ≡ end
            → RunLeaves (R.view records.old) (R.view records.new) (KeepsFiles (R.view records.old).record_count t) }
    {
        let mut front = 0;
        for i in 0..self.slots.len() / ENTRIES + 1 {
            front = self.close_record(records, first, i, front)?;
        }
        Ok(front)
    }
}

impl Packer {
    ghost use Rattle.lif_model.specs.Header.{directory_start};
    ghost use Rattle.lif_model.specs.Volume.{Volume, volume_of};
    ghost use Rattle.il_ports.specs.Stores.{RunLeaves};
    ghost use Rattle.lif_commit.specs.Staged.{IsStagedAs, AreBefore};
    ghost use Rattle.lif_model.specs.Packing.{slots_after};
    ghost use Rattle.lif_pack.specs.Steps.{MayPack, MayStillPack, TapeHasSlots, IsOldOrClosed};

    /// Brings the live slots of record `i` of the directory forward to slot `front`, between which and them all are
    /// purged, and tells where the next one is to stand: in memory and in the directory, which begins at record
    /// `first`, by one commit. Where no slot moves nothing is written.
    pub(crate) fn close_record<R: Records>(
        &mut self,
        records: &mut R,
        first: u16,
        i: usize,
        front: usize,
    ) -> Result<usize, Trouble>
        requires may { (end redo : ℕ) × MayPack (R.view records.old).record_count first end redo (slots_held self.old) }
        requires gap { IsGap front (8 * i) (slots_held self.old) }
        requires from { 8 * i ≤ length (slots_held self.old) }
        requires ready { IsReady 13 (R.view records.old) }
        requires settled { (t : Tape) → (R.view records.old).tape ≡ Some t → IsSettled t }
        requires medium { (R.view records.old).record_count < 2 ^ 16 }
        ensures goes_on { GoesOn 13 (R.view records.old) (R.view records.new) result }
        ensures settled { OnOk result ((t : Tape) → (R.view records.new).tape ≡ Some t → IsSettled t) }
        ensures room { self.new.slots.room ≡ self.old.slots.room }
        ensures long { length (slots_held self.new) ≡ length (slots_held self.old) }
        ensures gap { IfOk result (λ next. IsGap next (min (length (slots_held self.old)) (8 * i + 8))
            (slots_held self.new)) }
        // The live slots stand in the same order.
        ensures live { filter is_live (slots_held self.new) ≡ filter is_live (slots_held self.old) }
        // They may be packed as those before, and packing makes the same of them.
        ensures may { OnOk result (MayStillPack (R.view records.old).record_count first (slots_held self.old)
            (slots_held self.new)) }
        // The volume has these slots then, and its files as before.
        ensures closes { OnOk result (TapeHasSlots (R.view records.old).record_count first (slots_held self.old)
            (slots_held self.new) (R.view records.old).tape (R.view records.new).tape) }
        // Where all are live and stand there already nothing is read or written.
        ensures idle { front ≡ 8 * i → AreLive (slots_held self.old)
            → (result ≡ Ok (min (length (slots_held self.old)) (8 * i + 8))) × (records.new ≡ records.old)
            × (slots_held self.new ≡ slots_held self.old) }
        // A stop at any moment leaves a tape that has the slots before or after the commit.
        ensures stops { (t : Tape) (v : Volume) → (R.view records.old).tape ≡ Some t → volume_of t ≡ Some v
            → v.slots ≡ slots_held self.old → directory_start v.header ≡ first
            → RunLeaves (R.view records.old) (R.view records.new) (IsOldOrClosed v (slots_held self.new)) }
    {
        let next = self.stage_closed(records, first, i, front)?;
        if !self.changes.is_empty() {
            commit(records, Version::Two, &self.changes)?;
        }
        Ok(next)
    }

    /// Brings the live slots of record `i` of the directory forward to slot `front`, in memory, and sets aside the
    /// records of the directory in which a slot changes by that. Tells where the next one is to stand.
    fn stage_closed<R: Records>(
        &mut self,
        records: &mut R,
        first: u16,
        i: usize,
        front: usize,
    ) -> Result<usize, Trouble>
        requires gap { IsGap front (8 * i) (slots_held self.old) }
        requires from { 8 * i ≤ length (slots_held self.old) }
        requires within { first + length (slots_held self.old) / 8 < (R.view records.old).record_count }
        requires small { (R.view records.old).record_count < 2 ^ 16 }
        requires ready { IsReady 1 (R.view records.old) }
        ensures goes_on { GoesOn 1 (R.view records.old) (R.view records.new) result }
        ensures quiet { IsQuiet (R.view records.old) (R.view records.new) }
        ensures count { length self.new.changes.items ≤ 3 }
        ensures room { self.new.slots.room ≡ self.old.slots.room }
        ensures long { length (slots_held self.new) ≡ length (slots_held self.old) }
        ensures gap { IfOk result (λ next. IsGap next (min (length (slots_held self.old)) (8 * i + 8))
            (slots_held self.new)) }
        ensures live { filter is_live (slots_held self.new) ≡ filter is_live (slots_held self.old) }
        // What was written makes these slots of those.
        ensures staged { OnOk result ((writes : SlotWrites)
            × IsStagedAs first (R.view records.old).tape (λ x. writes) self.new.changes.items
            × AreBefore (length (slots_held self.old)) (length (slots_held self.old)) writes
            × (slots_after writes (slots_held self.old) ≡ slots_held self.new)) }
        ensures idle { front ≡ 8 * i → AreLive (slots_held self.old)
            → (result ≡ Ok (min (length (slots_held self.old)) (8 * i + 8))) × (records.new ≡ records.old)
            × (self.new.changes.items ≡ []) × (slots_held self.new ≡ slots_held self.old) }
    {
        self.changes.clear();
        let until = self.slots.len().min(ENTRIES * i + ENTRIES);
        let closed = self.close_slots(ENTRIES * i, until, front);
        if !closed.moved {
            return Ok(closed.next);
        }
        let last = (closed.next - 1) / ENTRIES;
        self.stage_slots(records, first, front / ENTRIES, last, i)?;
        Ok(closed.next)
    }
}

impl Packer {
    /// Brings the live slots from slot `from` on, before slot `until`, forward to slot `front`, between which and slot
    /// `from` all are purged: in memory.
    fn close_slots(&mut self, from: usize, until: usize, front: usize) -> Closed
        requires gap { IsGap front from (slots_held self.old) }
        requires order { from ≤ until }
        requires until { until ≤ length (slots_held self.old) }
        requires bound { until < 2 ^ 32 }
        ensures room { self.new.slots.room ≡ self.old.slots.room }
        ensures long { length (slots_held self.new) ≡ length (slots_held self.old) }
        ensures gap { IsGap result.next until (slots_held self.new) }
        ensures begins { front ≤ result.next }
        ensures few { result.next + from ≤ front + until }
        ensures moved { result.moved ≡ true → front < result.next }
        ensures still { result.moved ≡ false → slots_held self.new ≡ slots_held self.old }
        ensures idle { front ≡ from → AreLive (slots_held self.old) → (result.next ≡ until) × (result.moved ≡ false) }
        ensures changes { self.new.changes ≡ self.old.changes }
        // The live slots stand in the same order.
        ensures live { filter is_live (slots_held self.new) ≡ filter is_live (slots_held self.old) }
        ensures others { StayBut front result.next from until (slots_held self.old) (slots_held self.new) }
    {
        let mut closed = Closed {
            next: front,
            moved: false,
        };
        for slot in from..until {
            closed = self.close_slot(slot, closed);
        }
        closed
    }

    /// Brings slot `slot`, where it is live, forward to the next place, between which and it all are purged: in memory.
    fn close_slot(&mut self, slot: usize, closed: Closed) -> Closed
        requires gap { IsGap closed.next slot (slots_held self.old) }
        requires slot { slot < length (slots_held self.old) }
        requires bound { slot < 2 ^ 32 }
        ensures room { self.new.slots.room ≡ self.old.slots.room }
        ensures long { length (slots_held self.new) ≡ length (slots_held self.old) }
        ensures gap { IsGap result.next (slot + 1) (slots_held self.new) }
        ensures begins { closed.next ≤ result.next }
        ensures few { result.next ≤ closed.next + 1 }
        ensures moved { result.moved ≡ true → (closed.moved ≡ true) ⊎ (closed.next < result.next) }
        ensures before { result.moved ≡ false → closed.moved ≡ false }
        ensures idle { closed.next ≡ slot → is_live (get_or (slots_held self.old) slot []) ≡ true
            → (result.next ≡ slot + 1) × (result.moved ≡ closed.moved) }
        ensures still { result.moved ≡ false → slots_held self.new ≡ slots_held self.old }
        ensures changes { self.new.changes ≡ self.old.changes }
        // The live slots stand in the same order.
        ensures live { filter is_live (slots_held self.new) ≡ filter is_live (slots_held self.old) }
        ensures others { StayBut closed.next result.next slot (slot + 1) (slots_held self.old) (slots_held self.new) }
    {
        if !self.slots.entry(slot).is_live() {
            return closed;
        }
        let next = closed.next + 1;
        if closed.next == slot {
            return Closed { next, ..closed };
        }
        self.swap(closed.next, slot);
        Closed { next, moved: true }
    }

    /// Swaps two slots: in memory.
    fn swap(&mut self, one: usize, other: usize)
        requires one { one < length (slots_held self.old) }
        requires other { other < length (slots_held self.old) }
        ensures room { self.new.slots.room ≡ self.old.slots.room }
        ensures long { length (slots_held self.new) ≡ length (slots_held self.old) }
        ensures changes { self.new.changes ≡ self.old.changes }
        ensures slots { slots_held self.new ≡ set (set (slots_held self.old) one
            (get_or (slots_held self.old) other [])) other (get_or (slots_held self.old) one []) }
    {
        let first = *self.slots.get(one);
        let second = *self.slots.get(other);
        self.slots.set(one, second);
        self.slots.set(other, first);
    }
}

impl Packer {
    /// Sets aside the records of the directory with these numbers, which rise, each once, with all slots that are in
    /// memory. Of these records the last alone is read, where it holds the end of the directory.
    fn stage_slots<R: Records>(
        &mut self,
        records: &mut R,
        first: u16,
        low: usize,
        high: usize,
        i: usize,
    ) -> Result<(), Trouble>
        requires order { low ≤ high }
        requires last { high ≤ i }
        requires some { 8 * i < length (slots_held self.old) }
        requires within { first + length (slots_held self.old) / 8 < (R.view records.old).record_count }
        requires small { (R.view records.old).record_count < 2 ^ 16 }
        requires ready { IsReady 1 (R.view records.old) }
        ensures still { self.new.slots ≡ self.old.slots }
        ensures goes_on { GoesOn 1 (R.view records.old) (R.view records.new) result }
        ensures quiet { IsQuiet (R.view records.old) (R.view records.new) }
        ensures count { length self.new.changes.items ≤ 3 }
        ensures staged { OnOk result ((writes : SlotWrites)
            × AreSetAside first (R.view records.old).tape (slots_held self.old) writes self.new.changes.items
            × HasRecord (slots_held self.old) low writes × HasRecord (slots_held self.old) high writes
            × HasRecord (slots_held self.old) i writes) }
    {
        self.changes.clear();
        self.stage_record(records, first, low)?;
        self.stage_other(records, first, low, high)?;
        self.stage_other(records, first, high, i)
    }

    /// Sets aside record `i` of the directory, with all slots of it that are in memory, where it comes after record
    /// `last`, which was set aside last.
    fn stage_other<R: Records>(
        &mut self,
        records: &mut R,
        first: u16,
        last: usize,
        i: usize,
    ) -> Result<(), Trouble>
        requires order { last ≤ i }
        requires some { 8 * i < length (slots_held self.old) }
        requires within { first + length (slots_held self.old) / 8 < (R.view records.old).record_count }
        requires small { (R.view records.old).record_count < 2 ^ 16 }
        requires up_to { AreUpTo (first + last) self.old.changes.items }
        requires room { length self.old.changes.items < 32 }
        requires ready { IsReady (i + 1 - length (slots_held self.old) / 8
            - (last + 1 - length (slots_held self.old) / 8)) (R.view records.old) }
        ensures still { self.new.slots ≡ self.old.slots }
        ensures goes_on { GoesOn (i + 1 - length (slots_held self.old) / 8
            - (last + 1 - length (slots_held self.old) / 8)) (R.view records.old) (R.view records.new) result }
        ensures quiet { IsQuiet (R.view records.old) (R.view records.new) }
        ensures count { length self.new.changes.items ≤ length self.old.changes.items + 1 }
        ensures up_to { OnOk result (AreUpTo (first + i) self.new.changes.items) }
        ensures staged { OnOk result ((writes : SlotWrites)
            → AreSetAside first (R.view records.old).tape (slots_held self.old) writes self.old.changes.items
            → HasRecord (slots_held self.old) last writes → (more : SlotWrites)
            × AreSetAside first (R.view records.old).tape (slots_held self.old) (writes ++ more)
            self.new.changes.items × HasRecord (slots_held self.old) i (writes ++ more)) }
    {
        if i == last {
            return Ok(());
        }
        self.stage_record(records, first, i)
    }

    /// Sets aside record `i` of the directory, which comes after those that are set aside, with all slots of it that
    /// are in memory. It is read where it holds the end of the directory.
    fn stage_record<R: Records>(
        &mut self,
        records: &mut R,
        first: u16,
        i: usize,
    ) -> Result<(), Trouble>
        requires some { 8 * i < length (slots_held self.old) }
        requires within { first + length (slots_held self.old) / 8 < (R.view records.old).record_count }
        requires small { (R.view records.old).record_count < 2 ^ 16 }
        requires below { (p : ℕ) → p < length self.old.changes.items
            → (get_or self.old.changes.items p (0, [])).0 < first + i }
        requires room { length self.old.changes.items < 32 }
        requires ready { IsReady (i + 1 - length (slots_held self.old) / 8) (R.view records.old) }
        ensures still { self.new.slots ≡ self.old.slots }
        ensures goes_on { GoesOn (i + 1 - length (slots_held self.old) / 8) (R.view records.old)
            (R.view records.new) result }
        ensures quiet { IsQuiet (R.view records.old) (R.view records.new) }
        ensures count { length self.new.changes.items ≤ length self.old.changes.items + 1 }
        ensures up_to { OnOk result (AreUpTo (first + i) self.new.changes.items) }
        ensures staged { OnOk result ((writes : SlotWrites)
            → AreSetAside first (R.view records.old).tape (slots_held self.old) writes self.old.changes.items
            → (more : SlotWrites)
            × AreSetAside first (R.view records.old).tape (slots_held self.old) (writes ++ more)
            self.new.changes.items × HasRecord (slots_held self.old) i more) }
    {
        let count = ENTRIES.min(self.slots.len() - ENTRIES * i);
        let number = first + i as u16;
        let mut bytes = read_unless_full(records, number, count)?;
        put_slots(&mut bytes, &self.slots, i, count);
        self.changes.push((number, bytes)).unwrap();
        Ok(())
    }
}

/// What a record of the directory holds. Where so many slots fill it, it is not read.
fn read_unless_full<R: Records>(
    records: &mut R,
    number: u16,
    count: usize,
) -> Result<Record, Trouble>
    requires few { count ≤ 8 }
    requires within { number < (R.view records.old).record_count }
    requires ready { IsReady (1 - count / 8) (R.view records.old) }
    ensures goes_on { GoesOn (1 - count / 8) (R.view records.old) (R.view records.new) result }
    ensures quiet { IsQuiet (R.view records.old) (R.view records.new) }
    ensures content { IfOk result (λ bytes. count < 8 → (t : Tape) → (R.view records.old).tape ≡ Some t
        → bytes ≡ record_at t number) }
{
    let mut bytes = [0; RECORD];
    if count == ENTRIES {
        return Ok(bytes);
    }
    records.read(number, &mut bytes)?;
    Ok(bytes)
}

/// Puts so many slots, from slot 8 i on, into record `i` of the directory.
fn put_slots(bytes: &mut Record, table: &SlotTable, i: usize, count: usize)
    requires few { count ≤ 8 }
    requires within { 8 * i + count ≤ length table.now.slots }
    requires small { length table.now.slots < 2 ^ 32 }
    ensures holds { HoldsSlots (map slot_bytes table.now.slots) i count bytes.new }
    ensures rest { (k : ℕ) → count ≤ k → k < 8 → entry_at bytes.new k ≡ entry_at bytes.old k }
{
    for k in 0..count {
        put_entry(bytes, k, &table.entry(ENTRIES * i + k).bytes());
    }
}
