//! The records that one commit is to change.
ghost use Rattle.std.specs.Prelude.{◌≡◌, ◌<◌, ◌≤◌, ◌+◌, ◌-◌, ◌/◌, ◌*◌, ◌^◌, ◌++◌, ℕ, suc, List, [], ◌∷◌, true, length, map};
ghost use Rattle.std.specs.Prelude.{vec_capacity};
ghost use Rattle.std.specs.Prelude.{Some, IfOk, OnOk};
ghost use Rattle.lif_model.specs.Tape.{Tape, record_at};
ghost use Rattle.lif_model.specs.Gate.{has_open_gate};
ghost use Rattle.lif_model.specs.Directory.{entry_at};
ghost use Rattle.lif_model.specs.Made.{with_type};
ghost use Rattle.lif_model.specs.Parts.{most_parts};
ghost use Rattle.lif_model.specs.Redo.{IsSettled, redo_start, most_targets, targets_in};
ghost use Rattle.lif_model.specs.declared.version.Version.TheVariants.{Two};
ghost use Rattle.lif_model.specs.Writing.{SlotWrites, with_entry, slot_record, entry_from};
ghost use Rattle.il_ports.specs.Stores.{IsReady, GoesOn, IsQuiet};
ghost use Rattle.lif_redo.specs.Writing.{AddsWrites};
ghost use Rattle.lif_dir.specs.Entries.{slot_bytes};
ghost use Rattle.lif_dir.specs.Reading.{ReadsSlots};
ghost use Rattle.lif_dir.specs.Changes.{FitsIn, slot_after, entry_writes, change_writes, count_with, AreInTurn, count_with_all};
ghost use Rattle.lif_commit.specs.Staged.{BroughtIn, AreBefore, CommitsChange, CommitsAll, IsStagedAs, HoldsSlots, StagesAll};
ghost use Rattle.lif_commit.specs.Staged.{Knows, EndsWith, KeepsLast, past_end, touched_by_all, calls_of_all, most_commit_calls};

use il_ports::{Records, Trouble};
use lif_dir::{Change, SlotTable, read_slots};
use lif_header::{Header, bytes_at};
use lif_model::{ENTRIES, ENTRY, MOST_PARTS, RECORD, Record, Version};
use lif_redo::commit_known;
use std::alloc::{AllocError, Global};

/// How many slots one commit changes at most: those of a file and the redo entry, and an end, for each part of a batch.
const MOST: usize = 3 * MOST_PARTS;

/// The records that one commit is to change, each with what it is to hold, and the record with the end of the
/// directory. All memory is taken by `new`.
#[derive(Drop)]
pub struct Staged {
    changes: Vec<(u16, Record)>,
    last: Record,
    ghost memory: { 3 * most_parts ≤ vec_capacity changes },
}

impl Staged {
    /// No records yet.
    pub fn new(alloc: Global) -> Result<Staged, AllocError> {
        Ok(Staged {
            changes: Vec::with_capacity(alloc, MOST)?,
            last: [0; RECORD],
        })
    }

    /// Reads the directory of a volume into `table`, as `slots_of` does, and keeps the record with its end.
    pub fn read_slots<R: Records>(
        &mut self,
        records: &mut R,
        header: &Header,
        table: &mut SlotTable,
    ) -> Result<(), Trouble>
        requires within { header.now.start + header.now.length ≤ (R.view records.old).record_count }
        requires ready { IsReady header.now.length (R.view records.old) }
        requires room { 8 * header.now.length ≤ table.old.room }
        ensures reads { ReadsSlots header.now (R.view records.old) (R.view records.new) table.new.slots result }
        ensures last { OnOk result ((t : Tape) → (R.view records.old).tape ≡ Some t
            → EndsWith header.now.start header.now.length (length table.new.slots) self.new.last t) }
        ensures room { table.new.room ≡ table.old.room }
    {
        read_slots(records, header, table, &mut self.last)
    }

    /// Takes this record as the one with the end of the directory.
    pub fn ends_with(&mut self, last: &Record)
        ensures { self.new.last ≡ last.now }
    {
        self.last = *last;
    }

    /// Changes slots of a settled directory, whose slots the table has, by one commit. It is known whether the gate
    /// reads open. Where k records of the directory change, 2 k + 3 records are read and written at most, one more
    /// where the gate reads open, and one for each of the k past the one with the end.
    pub fn commit<R: Records>(
        &mut self,
        records: &mut R,
        header: &Header,
        table: &SlotTable,
        change: &Change,
        is_open: bool,
    ) -> Result<(), Trouble>
        requires ready { IsReady most_commit_calls (R.view records.old) }
        requires settled { (t : Tape) → (R.view records.old).tape ≡ Some t → IsSettled t }
        requires gate { (t : Tape) → (R.view records.old).tape ≡ Some t → is_open ≡ has_open_gate t }
        requires known { (t : Tape) → (R.view records.old).tape ≡ Some t
            → Knows header.now.start header.now.length (map slot_bytes table.now.slots) self.old.last t }
        requires small { (R.view records.old).record_count < 2 ^ 16 }
        requires shape { length table.now.slots ≤ 8 * header.now.length }
        requires fits { FitsIn (8 * header.now.length) (length table.now.slots) change.now }
        requires below { header.now.start + header.now.length ≤ redo_start change.now.version (R.view records.old).record_count }
        ensures commits { CommitsChange header.now.start (length table.now.slots) is_open change.now (R.view records.old) (R.view records.new) result }
        // After an Ok this is the record with the end.
        ensures last { OnOk result ((t : Tape) → (R.view records.new).tape ≡ Some t
            → EndsWith header.now.start header.now.length (count_with (length table.now.slots) change.now) self.new.last t) }
    {
        self.commit_by(records, header, table, change.version, &[*change], is_open)
    }

    /// The same for changes in turn, 31 at most, which touch 32 records of the directory at most: by one commit of
    /// version 2.
    pub fn commit_all<R: Records>(
        &mut self,
        records: &mut R,
        header: &Header,
        table: &SlotTable,
        changes: &[Change],
        is_open: bool,
    ) -> Result<(), Trouble>
        requires ready { IsReady (calls_of_all header.now.start (length table.now.slots) true changes.now) (R.view records.old) }
        requires settled { (t : Tape) → (R.view records.old).tape ≡ Some t → IsSettled t }
        requires gate { (t : Tape) → (R.view records.old).tape ≡ Some t → is_open ≡ has_open_gate t }
        requires known { (t : Tape) → (R.view records.old).tape ≡ Some t
            → Knows header.now.start header.now.length (map slot_bytes table.now.slots) self.old.last t }
        requires small { (R.view records.old).record_count < 2 ^ 16 }
        requires shape { length table.now.slots ≤ 8 * header.now.length }
        requires turn { (later : List (List ℕ))
            × AreInTurn (8 * header.now.length) (map slot_bytes table.now.slots) changes.now later }
        requires some { 0 < length changes.now }
        requires parts { length changes.now ≤ most_parts }
        requires few { length (touched_by_all header.now.start changes.now) ≤ most_targets Two }
        requires below { header.now.start + header.now.length ≤ redo_start Two (R.view records.old).record_count }
        ensures commits { CommitsAll Two header.now.start (length table.now.slots) is_open changes.now (R.view records.old) (R.view records.new) result }
        // After an Ok this is the record with the end.
        ensures last { OnOk result ((t : Tape) → (R.view records.new).tape ≡ Some t
            → EndsWith header.now.start header.now.length (count_with_all (length table.now.slots) changes.now) self.new.last t) }
    {
        self.commit_by(records, header, table, Version::Two, changes, is_open)
    }

    /// The same by a commit of this version.
    fn commit_by<R: Records>(
        &mut self,
        records: &mut R,
        header: &Header,
        table: &SlotTable,
        version: Version,
        changes: &[Change],
        is_open: bool,
    ) -> Result<(), Trouble>
        requires ready { IsReady (calls_of_all header.now.start (length table.now.slots) true changes.now) (R.view records.old) }
        requires settled { (t : Tape) → (R.view records.old).tape ≡ Some t → IsSettled t }
        requires gate { (t : Tape) → (R.view records.old).tape ≡ Some t → is_open ≡ has_open_gate t }
        requires known { (t : Tape) → (R.view records.old).tape ≡ Some t
            → Knows header.now.start header.now.length (map slot_bytes table.now.slots) self.old.last t }
        requires small { (R.view records.old).record_count < 2 ^ 16 }
        requires shape { length table.now.slots ≤ 8 * header.now.length }
        requires turn { (later : List (List ℕ))
            × AreInTurn (8 * header.now.length) (map slot_bytes table.now.slots) changes.now later }
        requires some { 0 < length changes.now }
        requires parts { length changes.now ≤ most_parts }
        requires few { length (touched_by_all header.now.start changes.now) ≤ most_targets version }
        requires below { header.now.start + header.now.length ≤ redo_start version (R.view records.old).record_count }
        ensures commits { CommitsAll version header.now.start (length table.now.slots) is_open changes.now (R.view records.old) (R.view records.new) result }
        ensures last { OnOk result ((t : Tape) → (R.view records.new).tape ≡ Some t
            → EndsWith header.now.start header.now.length (count_with_all (length table.now.slots) changes.now) self.new.last t) }
    {
        let count = self.stage(records, header, table, changes)?;
        commit_known(records, version, &self.changes, is_open)?;
        self.keep(header, count);
        Ok(())
    }

    /// Keeps the record with the end of so many slots, where it is among the changes.
    fn keep(&mut self, header: &Header, count: usize)
        requires { header.now.start + count / 8 < 2 ^ 16 }
        ensures { KeepsLast (header.now.start + count / 8) self.old.changes.items self.old.last self.new.last }
    {
        let end = header.start() + (count / ENTRIES) as u16;
        if let Some(place) = self.place_of(end) {
            self.last = self.changes[place].1;
        }
    }
}

impl Staged {
    /// Brings in the records of the slots that change, and changes them in memory, one change after the other. Tells
    /// how many slots there are then.
    fn stage<R: Records>(
        &mut self,
        records: &mut R,
        header: &Header,
        table: &SlotTable,
        changes: &[Change],
    ) -> Result<usize, Trouble>
        requires ready { IsReady (past_end header.now.start (length table.now.slots)
            (touched_by_all header.now.start changes.now) + 3) (R.view records.old) }
        requires known { (t : Tape) → (R.view records.old).tape ≡ Some t
            → Knows header.now.start header.now.length (map slot_bytes table.now.slots) self.old.last t }
        requires small { (R.view records.old).record_count < 2 ^ 16 }
        requires turn { (later : List (List ℕ))
            × AreInTurn (8 * header.now.length) (map slot_bytes table.now.slots) changes.now later }
        requires parts { length changes.now ≤ most_parts }
        requires below { header.now.start + header.now.length ≤ (R.view records.old).record_count }
        ensures stages { StagesAll header.now.start (length table.now.slots) changes.now
            (R.view records.old) (R.view records.new) self.new.changes.items result }
        ensures last { self.new.last ≡ self.old.last }
    {
        self.changes.clear();
        let mut count = table.len();
        for k in 0..changes.len() {
            self.add(records, header, table, &changes[k])?;
            count = count.max(changes[k].slot_after());
        }
        Ok(count)
    }

    /// Brings in the records of the slots of one change more, and changes them in memory.
    fn add<R: Records>(
        &mut self,
        records: &mut R,
        header: &Header,
        table: &SlotTable,
        change: &Change,
    ) -> Result<(), Trouble>
        requires ready { IsReady 3 (R.view records.old) }
        requires known { (t : Tape) → (R.view records.old).tape ≡ Some t
            → Knows header.now.start header.now.length (map slot_bytes table.now.slots) self.old.last t }
        requires small { (R.view records.old).record_count < 2 ^ 16 }
        requires fits { (count : ℕ) × FitsIn (8 * header.now.length) count change.now }
        requires below { header.now.start + header.now.length ≤ (R.view records.old).record_count }
        requires room { length self.old.changes.items + 3 ≤ 3 * most_parts }
        ensures goes_on { GoesOn 3 (R.view records.old) (R.view records.new) result }
        ensures few { OnOk result ((R.view records.old).calls_left
            + past_end header.now.start (length table.now.slots) (targets_in self.old.changes.items)
            ≤ (R.view records.new).calls_left
            + past_end header.now.start (length table.now.slots) (targets_in self.new.changes.items)) }
        ensures quiet { IsQuiet (R.view records.old) (R.view records.new) }
        ensures reads { OnOk result (AddsWrites [] (R.view records.old).transferred
            (R.view records.new).transferred) }
        ensures count { length self.new.changes.items ≤ length self.old.changes.items + 3 }
        ensures last { self.new.last ≡ self.old.last }
        ensures staged { OnOk result ((writes : Tape → SlotWrites)
            → IsStagedAs header.now.start (R.view records.old).tape writes self.old.changes.items
            → ((t : Tape) → (R.view records.old).tape ≡ Some t → change.now.ended ≡ true
            → AreBefore (8 * ((R.view records.old).record_count - header.now.start)) (slot_after change.now) (writes t))
            → IsStagedAs header.now.start (R.view records.old).tape
            (λ x. writes x ++ change_writes header.now.start change.now x) self.new.changes.items) }
        ensures entries { OnOk result ((t : Tape) → (R.view records.old).tape ≡ Some t
            → AreBefore (8 * ((R.view records.old).record_count - header.now.start)) (suc (slot_after change.now))
            (change_writes header.now.start change.now t)) }
    {
        self.put_entries(records, header, table, change)?;
        if change.ended {
            self.end(records, header, table, change.slot_after())?;
        }
        Ok(())
    }

    /// Brings in the records of the entries, and changes them in memory.
    fn put_entries<R: Records>(
        &mut self,
        records: &mut R,
        header: &Header,
        table: &SlotTable,
        change: &Change,
    ) -> Result<(), Trouble>
        requires ready { IsReady 2 (R.view records.old) }
        requires known { (t : Tape) → (R.view records.old).tape ≡ Some t
            → Knows header.now.start header.now.length (map slot_bytes table.now.slots) self.old.last t }
        requires small { (R.view records.old).record_count < 2 ^ 16 }
        requires fits { (count : ℕ) × FitsIn (8 * header.now.length) count change.now }
        requires below { header.now.start + header.now.length ≤ (R.view records.old).record_count }
        requires room { length self.old.changes.items + 2 ≤ 3 * most_parts }
        ensures goes_on { GoesOn 2 (R.view records.old) (R.view records.new) result }
        ensures few { OnOk result ((R.view records.old).calls_left
            + past_end header.now.start (length table.now.slots) (targets_in self.old.changes.items)
            ≤ (R.view records.new).calls_left
            + past_end header.now.start (length table.now.slots) (targets_in self.new.changes.items)) }
        ensures quiet { IsQuiet (R.view records.old) (R.view records.new) }
        ensures reads { OnOk result (AddsWrites [] (R.view records.old).transferred
            (R.view records.new).transferred) }
        ensures count { length self.new.changes.items ≤ length self.old.changes.items + 2 }
        ensures last { self.new.last ≡ self.old.last }
        ensures staged { OnOk result ((writes : Tape → SlotWrites)
            → IsStagedAs header.now.start (R.view records.old).tape writes self.old.changes.items
            → IsStagedAs header.now.start (R.view records.old).tape
            (λ x. writes x ++ entry_writes change.now) self.new.changes.items) }
        ensures entries { OnOk result (AreBefore (8 * ((R.view records.old).record_count - header.now.start))
            (slot_after change.now) (entry_writes change.now)) }
    {
        self.put(records, header, table, change.slot, &change.entry.bytes())?;
        if let Some(next) = &change.next {
            self.put(records, header, table, change.slot + 1, &next.bytes())?;
        }
        Ok(())
    }

    /// Puts an entry into a slot of the directory.
    fn put<R: Records>(
        &mut self,
        records: &mut R,
        header: &Header,
        table: &SlotTable,
        slot: usize,
        entry: &[u8; 32],
    ) -> Result<(), Trouble>
        requires ready { IsReady 1 (R.view records.old) }
        requires known { (t : Tape) → (R.view records.old).tape ≡ Some t
            → Knows header.now.start header.now.length (map slot_bytes table.now.slots) self.old.last t }
        requires small { (R.view records.old).record_count < 2 ^ 16 }
        requires within { slot_record header.now.start slot < (R.view records.old).record_count }
        requires inside { slot < 8 * header.now.length }
        requires room { length self.old.changes.items < 3 * most_parts }
        ensures goes_on { GoesOn 1 (R.view records.old) (R.view records.new) result }
        ensures few { OnOk result ((R.view records.old).calls_left
            + past_end header.now.start (length table.now.slots) (targets_in self.old.changes.items)
            ≤ (R.view records.new).calls_left
            + past_end header.now.start (length table.now.slots) (targets_in self.new.changes.items)) }
        ensures quiet { IsQuiet (R.view records.old) (R.view records.new) }
        ensures reads { OnOk result (AddsWrites [] (R.view records.old).transferred
            (R.view records.new).transferred) }
        ensures count { length self.new.changes.items ≤ length self.old.changes.items + 1 }
        ensures last { self.new.last ≡ self.old.last }
        ensures staged { OnOk result ((writes : Tape → SlotWrites)
            → IsStagedAs header.now.start (R.view records.old).tape writes self.old.changes.items
            → IsStagedAs header.now.start (R.view records.old).tape
            (λ x. writes x ++ (slot, entry.now) ∷ []) self.new.changes.items) }
    {
        let place = self.bring_in(records, header, table, slot)?;
        put_entry(&mut self.changes[place].1, slot % ENTRIES, entry);
        Ok(())
    }

    /// Makes a slot of the directory an end, which keeps its other bytes.
    fn end<R: Records>(
        &mut self,
        records: &mut R,
        header: &Header,
        table: &SlotTable,
        slot: usize,
    ) -> Result<(), Trouble>
        requires ready { IsReady 1 (R.view records.old) }
        requires known { (t : Tape) → (R.view records.old).tape ≡ Some t
            → Knows header.now.start header.now.length (map slot_bytes table.now.slots) self.old.last t }
        requires small { (R.view records.old).record_count < 2 ^ 16 }
        requires within { slot_record header.now.start slot < (R.view records.old).record_count }
        requires inside { slot < 8 * header.now.length }
        requires room { length self.old.changes.items < 3 * most_parts }
        ensures goes_on { GoesOn 1 (R.view records.old) (R.view records.new) result }
        ensures few { OnOk result ((R.view records.old).calls_left
            + past_end header.now.start (length table.now.slots) (targets_in self.old.changes.items)
            ≤ (R.view records.new).calls_left
            + past_end header.now.start (length table.now.slots) (targets_in self.new.changes.items)) }
        ensures quiet { IsQuiet (R.view records.old) (R.view records.new) }
        ensures reads { OnOk result (AddsWrites [] (R.view records.old).transferred
            (R.view records.new).transferred) }
        ensures count { length self.new.changes.items ≤ length self.old.changes.items + 1 }
        ensures last { self.new.last ≡ self.old.last }
        ensures staged { OnOk result ((writes : Tape → SlotWrites)
            → IsStagedAs header.now.start (R.view records.old).tape writes self.old.changes.items
            → ((t : Tape) → (R.view records.old).tape ≡ Some t
            → AreBefore (8 * ((R.view records.old).record_count - header.now.start)) slot (writes t))
            → IsStagedAs header.now.start (R.view records.old).tape
            (λ x. writes x ++ (slot, with_type 0xFFFF (entry_from x header.now.start slot)) ∷ [])
            self.new.changes.items) }
    {
        let place = self.bring_in(records, header, table, slot)?;
        end_entry(&mut self.changes[place].1, slot % ENTRIES);
        Ok(())
    }

    /// The place of a slot's record among the changes. Where it is not among them, it comes last; it is read where it
    /// is not known.
    fn bring_in<R: Records>(
        &mut self,
        records: &mut R,
        header: &Header,
        table: &SlotTable,
        slot: usize,
    ) -> Result<usize, Trouble>
        requires ready { IsReady 1 (R.view records.old) }
        requires known { (t : Tape) → (R.view records.old).tape ≡ Some t
            → Knows header.now.start header.now.length (map slot_bytes table.now.slots) self.old.last t }
        requires small { (R.view records.old).record_count < 2 ^ 16 }
        requires within { slot_record header.now.start slot < (R.view records.old).record_count }
        requires inside { slot < 8 * header.now.length }
        requires room { length self.old.changes.items < 3 * most_parts }
        ensures goes_on { GoesOn 1 (R.view records.old) (R.view records.new) result }
        ensures few { OnOk result ((R.view records.old).calls_left
            + past_end header.now.start (length table.now.slots) (targets_in self.old.changes.items)
            ≤ (R.view records.new).calls_left
            + past_end header.now.start (length table.now.slots) (targets_in self.new.changes.items)) }
        ensures quiet { IsQuiet (R.view records.old) (R.view records.new) }
        ensures reads { OnOk result (AddsWrites [] (R.view records.old).transferred
            (R.view records.new).transferred) }
        ensures count { length self.new.changes.items ≤ length self.old.changes.items + 1 }
        ensures last { self.new.last ≡ self.old.last }
        ensures found { IfOk result (λ place. BroughtIn (slot_record header.now.start slot) place (R.view records.old).tape
            self.old.changes.items self.new.changes.items) }
        ensures within { IfOk result (λ place. place < length self.new.changes.items) }
    {
        let n = header.start() + (slot / ENTRIES) as u16;
        if let Some(place) = self.place_of(n) {
            return Ok(place);
        }
        let bytes = self.record(records, header, table, slot / ENTRIES)?;
        self.changes.push((n, bytes)).unwrap();
        Ok(self.changes.len() - 1)
    }
}

impl Staged {
    ghost use Rattle.std.specs.Prelude.{◌≢◌, if◌then◌else◌, nat_lt, get_or, None, IfSome};

    /// Record `i` of the directory, which is read where it is not known.
    fn record<R: Records>(
        &self,
        records: &mut R,
        header: &Header,
        table: &SlotTable,
        i: usize,
    ) -> Result<Record, Trouble>
        requires ready { IsReady 1 (R.view records.old) }
        requires known { (t : Tape) → (R.view records.old).tape ≡ Some t
            → Knows header.now.start header.now.length (map slot_bytes table.now.slots) self.now.last t }
        requires small { (R.view records.old).record_count < 2 ^ 16 }
        requires within { header.now.start + i < (R.view records.old).record_count }
        requires inside { i < header.now.length }
        ensures goes_on { GoesOn 1 (R.view records.old) (R.view records.new) result }
        ensures few { OnOk result ((R.view records.old).calls_left ≤ (R.view records.new).calls_left
            + (if nat_lt (header.now.start + length table.now.slots / 8) (header.now.start + i) then 1 else 0)) }
        ensures quiet { IsQuiet (R.view records.old) (R.view records.new) }
        ensures reads { OnOk result (AddsWrites [] (R.view records.old).transferred
            (R.view records.new).transferred) }
        ensures content { IfOk result (λ bytes. (t : Tape) → (R.view records.old).tape ≡ Some t
            → bytes ≡ record_at t (header.now.start + i)) }
    {
        if let Some(bytes) = self.known(table, i) {
            return Ok(bytes);
        }
        let mut bytes = [0; RECORD];
        records.read(header.start() + i as u16, &mut bytes)?;
        Ok(bytes)
    }

    /// Record `i` of the directory, where it is known: all its slots come before the end, or it holds the end.
    fn known(&self, table: &SlotTable, i: usize) -> Option<Record>
        ensures known { IfSome result (λ bytes. (start size : ℕ) (t : Tape) → i < size → length (record_at t (start + i)) ≡ 256
            → Knows start size (map slot_bytes table.now.slots) self.now.last t → bytes ≡ record_at t (start + i)) }
        ensures unknown { result ≡ None → length table.now.slots / 8 < i }
    {
        let whole = table.len() / ENTRIES;
        if i < whole {
            Some(record_of(table, i))
        } else if i == whole {
            Some(self.last)
        } else {
            None
        }
    }

    /// Where record `n` stands among the changes.
    fn place_of(&self, n: u16) -> Option<usize>
        ensures there { IfSome result (λ place. (place < length self.now.changes.items)
            × ((get_or self.now.changes.items place (0, [])).0 ≡ n)) }
        ensures nowhere { result ≡ None → (p : ℕ) → p < length self.now.changes.items
            → (get_or self.now.changes.items p (0, [])).0 ≢ n }
    {
        self.changes.iter().position(|change| change.0 == n)
    }
}

/// Record `i` of a directory, all of whose slots come before its end.
fn record_of(table: &SlotTable, i: usize) -> Record
    requires whole { 8 * i + 8 ≤ length table.now.slots }
    requires small { length table.now.slots < 2 ^ 32 }
    ensures { HoldsSlots (map slot_bytes table.now.slots) i 8 result }
{
    let mut bytes = [0; RECORD];
    for k in 0..ENTRIES {
        put_entry(&mut bytes, k, &table.entry(ENTRIES * i + k).bytes());
    }
    bytes
}

/// Puts an entry into place `k` of a record of the directory.
#[tactic(auto, unfolding(lif_model::specs::Writing::with_entry))]
fn put_entry(bytes: &mut Record, k: usize, entry: &[u8; 32])
    requires { k < 8 }
    ensures { bytes.new ≡ with_entry bytes.old k entry.now }
{
    bytes[ENTRY * k..ENTRY * k + ENTRY].copy_from_slice(entry);
}

/// Makes the entry in place `k` of a record of the directory an end, which keeps its other bytes.
#[tactic(auto, unfolding(lif_model::specs::Made::with_type, lif_model::specs::Directory::entry_at))]
fn end_entry(bytes: &mut Record, k: usize)
    requires { k < 8 }
    ensures { bytes.new
        ≡ with_entry bytes.old k (with_type 0xFFFF (entry_at bytes.old k)) }
{
    let mut entry: [u8; 32] = bytes_at(bytes, ENTRY * k);
    entry[10] = 0xFF;
    entry[11] = 0xFF;
    put_entry(bytes, k, &entry);
}
