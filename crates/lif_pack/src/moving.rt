//! The records of a file are moved down, by commits of 30 records at most.
ghost use Rattle.std.specs.Prelude.{◌≡◌, ◌<◌, ◌≤◌, ◌+◌, ◌-◌, ◌*◌, ◌%◌, ◌^◌, ◌++◌, [], ◌∷◌};
ghost use Rattle.std.specs.Prelude.{length, take, Some, OnOk};
ghost use Rattle.lif_model.specs.Tape.{Tape, IsTape, record_at};
ghost use Rattle.lif_model.specs.Directory.{entry_at};
ghost use Rattle.lif_model.specs.Made.{in_two};
ghost use Rattle.lif_model.specs.Redo.{IsSettled, targets_in};
ghost use Rattle.lif_model.specs.Writing.{with_entry, slot_record, entry_from};
ghost use Rattle.il_ports.specs.Stores.{IsReady, GoesOn, IsQuiet, RunLeaves};
ghost use Rattle.lif_model.specs.Packing.{with_start, records_from};
ghost use Rattle.lif_pack.specs.Moving.{with_mark, numbers_from, numbered_from, with_target, with_start_in};

use crate::marks::Move;
use crate::memory::Packer;
use il_ports::{Records, Trouble};
use lif_header::bytes_at;
use lif_model::{ENTRIES, ENTRY, RECORD, Record, Version};
use lif_redo::commit;

impl Packer {
    /// Reads so many records from record `from` on, and sets them aside as what is to stand from record `to` on.
    fn carry<R: Records>(
        &mut self,
        records: &mut R,
        from: u16,
        to: u16,
        count: u16,
    ) -> Result<(), Trouble>
        requires ready { IsReady count (R.view records.old) }
        requires within { from + count ≤ (R.view records.old).record_count }
        requires medium { (R.view records.old).record_count < 2 ^ 16 }
        requires small { to + count < 2 ^ 16 }
        requires room { length self.old.changes.items + count ≤ 32 }
        ensures still { self.new.slots ≡ self.old.slots }
        ensures goes_on { GoesOn count (R.view records.old) (R.view records.new) result }
        ensures quiet { IsQuiet (R.view records.old) (R.view records.new) }
        ensures targets { OnOk result (targets_in self.new.changes.items
            ≡ targets_in self.old.changes.items ++ numbers_from to count) }
        ensures told { OnOk result ((t : Tape) → (R.view records.old).tape ≡ Some t
            → self.new.changes.items ≡ self.old.changes.items ++ numbered_from to (records_from t from count)) }
    {
        for i in 0..count {
            let mut bytes = [0; RECORD];
            records.read(from + i, &mut bytes)?;
            self.changes.push((to + i, bytes)).unwrap();
        }
        Ok(())
    }

    /// Reads the record of the directory that has this slot, and sets it aside with another implementation field in the
    /// slot. The directory begins at record `first`.
    pub(crate) fn bring_mark<R: Records>(
        &mut self,
        records: &mut R,
        first: u16,
        slot: usize,
        mark: [u8; 4],
    ) -> Result<(), Trouble>
        requires ready { IsReady 1 (R.view records.old) }
        requires within { slot_record first slot < (R.view records.old).record_count }
        requires small { (R.view records.old).record_count < 2 ^ 16 }
        ensures still { self.new.slots ≡ self.old.slots }
        ensures goes_on { GoesOn 1 (R.view records.old) (R.view records.new) result }
        ensures quiet { IsQuiet (R.view records.old) (R.view records.new) }
        ensures targets { OnOk result (targets_in self.new.changes.items ≡ slot_record first slot ∷ []) }
        ensures told { OnOk result ((t : Tape) → (R.view records.old).tape ≡ Some t
            → self.new.changes.items ≡ (
              slot_record first slot,
              with_entry (record_at t (slot_record first slot)) (slot % 8)
                  (with_mark mark (entry_from t first slot)),
            ) ∷ []) }
    {
        self.changes.clear();
        let number = first + (slot / ENTRIES) as u16;
        let mut bytes = [0; RECORD];
        records.read(number, &mut bytes)?;
        put_mark(&mut bytes, slot % ENTRIES, mark);
        self.changes.push((number, bytes)).unwrap();
        Ok(())
    }
}

impl Packer {
    ghost use Rattle.lif_pack.specs.Moving.{MayMove, IsMidway, IsMidwayOrMore, IsMidwayOrMoved, HasMoved};
    ghost use Rattle.lif_model.specs.declared.version.Version.TheVariants.{Two};
    ghost use Rattle.lif_model.specs.Commit.{AreChanges};

    /// Moves so many records more of a file, 30 at most and not all that are left, of which `moved` stand at its place,
    /// and marks that they do: by one commit.
    fn move_part<R: Records>(
        &mut self,
        records: &mut R,
        first: u16,
        redo: usize,
        file: &Move,
        moved: u32,
        count: u16,
    ) -> Result<(), Trouble>
        requires ready { IsReady (3 * count + 9) (R.view records.old) }
        requires settled { (t : Tape) → (R.view records.old).tape ≡ Some t → IsSettled t }
        requires medium { (R.view records.old).record_count < 2 ^ 16 }
        requires may { MayMove (R.view records.old).record_count first file.now.place redo file.now }
        requires begun { file.now.moved ≤ moved }
        requires some { 0 < count }
        requires few { count ≤ 30 }
        requires more { moved + count < file.now.length }
        ensures still { self.new.slots ≡ self.old.slots }
        ensures goes_on { GoesOn (3 * count + 9) (R.view records.old) (R.view records.new) result }
        ensures settled { OnOk result ((t : Tape) → (R.view records.new).tape ≡ Some t → IsSettled t) }
        ensures moves { OnOk result ((u t : Tape) → IsTape (R.view records.old).record_count u
            → (R.view records.old).tape ≡ Some t → IsMidway first file.now.place redo file.now moved u t
            → (x : Tape) × ((R.view records.new).tape ≡ Some x)
            × IsMidway first file.now.place redo file.now (moved + count) u x) }
        // A stop at any moment leaves a tape that settles to the one before or after the commit.
        ensures stops { (u t : Tape) → IsTape (R.view records.old).record_count u → (R.view records.old).tape ≡ Some t
            → IsMidway first file.now.place redo file.now moved u t
            → RunLeaves (R.view records.old) (R.view records.new)
            (IsMidwayOrMore first file.now.place redo file.now moved count u) }
    {
        let mark = mark_of(file.slot, moved + u32::from(count));
        self.bring_mark(records, first, redo, mark)?;
        self.carry(
            records,
            (file.start + moved) as u16,
            (file.place + moved) as u16,
            count,
        )?;
        commit(records, Version::Two, &self.changes)
    }

    /// Moves the last records of a file, 30 at most, of which `moved` stand at its place; the file begins there then,
    /// and the mark is taken off: by one commit.
    fn move_last<R: Records>(
        &mut self,
        records: &mut R,
        first: u16,
        redo: usize,
        file: &Move,
        moved: u32,
    ) -> Result<(), Trouble>
        requires ready { IsReady (3 * (file.now.length - moved) + 12) (R.view records.old) }
        requires settled { (t : Tape) → (R.view records.old).tape ≡ Some t → IsSettled t }
        requires medium { (R.view records.old).record_count < 2 ^ 16 }
        requires may { MayMove (R.view records.old).record_count first file.now.place redo file.now }
        requires begun { file.now.moved ≤ moved }
        requires part { moved < file.now.length }
        requires few { file.now.length ≤ moved + 30 }
        ensures still { self.new.slots ≡ self.old.slots }
        ensures goes_on { GoesOn (3 * (file.now.length - moved) + 12) (R.view records.old) (R.view records.new) result }
        ensures settled { OnOk result ((t : Tape) → (R.view records.new).tape ≡ Some t → IsSettled t) }
        ensures moves { OnOk result ((u t : Tape) → IsTape (R.view records.old).record_count u
            → (R.view records.old).tape ≡ Some t → IsMidway first file.now.place redo file.now moved u t
            → (x : Tape) × ((R.view records.new).tape ≡ Some x) × HasMoved first file.now.place redo file.now u x) }
        // A stop at any moment leaves a tape that settles to the one before or after the commit.
        ensures stops { (u t : Tape) → IsTape (R.view records.old).record_count u → (R.view records.old).tape ≡ Some t
            → IsMidway first file.now.place redo file.now moved u t
            → RunLeaves (R.view records.old) (R.view records.new)
            (IsMidwayOrMoved first file.now.place redo file.now moved u) }
    {
        self.bring_mark(records, first, redo, [0; 4])?;
        self.bring_start(records, first, file.slot, file.place)?;
        let count = (file.length - moved) as u16;
        self.carry(
            records,
            (file.start + moved) as u16,
            (file.place + moved) as u16,
            count,
        )?;
        commit(records, Version::Two, &self.changes)
    }
}

impl Packer {
    ghost use Rattle.lif_pack.specs.Moving.{MayMove, IsMarkedAs, IsUnderWay, HasMoved};

    /// Moves all records of a file that are left, and then the file begins at its place. The directory begins at record
    /// `first`, and `redo` is the slot of the redo entry.
    pub(crate) fn move_rest<R: Records>(
        &mut self,
        records: &mut R,
        first: u16,
        redo: usize,
        file: &Move,
    ) -> Result<(), Trouble>
        requires ready { IsReady (4 * (file.now.length - file.now.moved) + 11) (R.view records.old) }
        requires settled { (t : Tape) → (R.view records.old).tape ≡ Some t → IsSettled t }
        requires medium { (R.view records.old).record_count < 2 ^ 16 }
        requires may { MayMove (R.view records.old).record_count first file.now.place redo file.now }
        ensures still { self.new.slots ≡ self.old.slots }
        ensures goes_on { GoesOn (4 * (file.now.length - file.now.moved) + 11) (R.view records.old)
            (R.view records.new) result }
        ensures settled { OnOk result ((t : Tape) → (R.view records.new).tape ≡ Some t → IsSettled t) }
        ensures moves { OnOk result ((t : Tape) → (R.view records.old).tape ≡ Some t
            → (0 < file.now.moved → IsMarkedAs file.now.slot file.now.moved (entry_from t first redo))
            → (x : Tape) × ((R.view records.new).tape ≡ Some x) × HasMoved first file.now.place redo file.now t x) }
        // A stop at any moment leaves a tape that settles to one between two of the commits, before or after them all.
        ensures stops { (t : Tape) → (R.view records.old).tape ≡ Some t
            → (0 < file.now.moved → IsMarkedAs file.now.slot file.now.moved (entry_from t first redo))
            → RunLeaves (R.view records.old) (R.view records.new) (IsUnderWay first file.now.place redo file.now t) }
    {
        let moved = u32::from(file.moved);
        let parts = (file.length - moved - 1) / MOST;
        for i in 0..parts {
            self.move_part(records, first, redo, file, moved + MOST * i, MOST as u16)?;
        }
        self.move_last(records, first, redo, file, moved + MOST * parts)
    }
}

/// How many records one commit moves at most.
const MOST: u32 = 30;

impl Packer {
    /// Reads the record of the directory that has this slot, and sets it aside with another first record in the slot.
    /// It may be the one that was set aside already.
    fn bring_start<R: Records>(
        &mut self,
        records: &mut R,
        first: u16,
        slot: usize,
        start: u32,
    ) -> Result<(), Trouble>
        requires ready { IsReady 1 (R.view records.old) }
        requires within { slot_record first slot < (R.view records.old).record_count }
        requires small { (R.view records.old).record_count < 2 ^ 16 }
        requires one { length self.old.changes.items ≡ 1 }
        ensures still { self.new.slots ≡ self.old.slots }
        ensures goes_on { GoesOn 1 (R.view records.old) (R.view records.new) result }
        ensures quiet { IsQuiet (R.view records.old) (R.view records.new) }
        ensures targets { OnOk result (targets_in self.new.changes.items
            ≡ with_target (slot_record first slot) (targets_in self.old.changes.items)) }
        ensures told { OnOk result ((t : Tape) → (R.view records.old).tape ≡ Some t
            → self.new.changes.items ≡ with_start_in first slot start t self.old.changes.items) }
    {
        let number = first + (slot / ENTRIES) as u16;
        if self.changes[0].0 == number {
            put_start(&mut self.changes[0].1, slot % ENTRIES, start);
            return Ok(());
        }
        let mut bytes = [0; RECORD];
        records.read(number, &mut bytes)?;
        put_start(&mut bytes, slot % ENTRIES, start);
        self.changes.push((number, bytes)).unwrap();
        Ok(())
    }
}

/// The mark of a file in slot `slot`, of which so many records stand at its place.
fn mark_of(slot: usize, moved: u32) -> [u8; 4]
    requires slot { slot < 65535 }
    requires moved { moved < 2 ^ 16 }
    ensures { result ≡ in_two (slot + 1) ++ in_two moved }
{
    let number = (slot as u16 + 1).to_be_bytes();
    let count = (moved as u16).to_be_bytes();
    [number[0], number[1], count[0], count[1]]
}

/// Gives the entry in place `k` of a record of the directory another implementation field.
#[tactic(auto, unfolding(crate::specs::Moving::with_mark, lif_model::specs::Directory::entry_at))]
fn put_mark(bytes: &mut Record, k: usize, mark: [u8; 4])
    requires { k < 8 }
    ensures { bytes.new ≡ with_entry bytes.old k (with_mark mark (entry_at bytes.old k)) }
{
    let mut entry: [u8; ENTRY] = bytes_at(bytes, ENTRY * k);
    put_part(&mut entry, 28, &mark);
    put_entry(bytes, k, &entry);
}

/// Writes `part` into an entry, from place `at` on.
pub fn put_part(entry: &mut [u8; ENTRY], at: usize, part: &[u8])
    requires { at + length part.now ≤ 32 }
    ensures { take (at + length part.now) entry.new ≡ take at entry.old ++ part.now }
{
    entry[at..at + part.len()].copy_from_slice(part);
}

/// Gives the entry in place `k` of a record of the directory another first record.
#[tactic(auto, unfolding(lif_model::specs::Packing::with_start, lif_model::specs::Directory::entry_at))]
fn put_start(bytes: &mut Record, k: usize, start: u32)
    requires { k < 8 }
    ensures { bytes.new ≡ with_entry bytes.old k (with_start start (entry_at bytes.old k)) }
{
    let mut entry: [u8; ENTRY] = bytes_at(bytes, ENTRY * k);
    entry[12..16].copy_from_slice(&start.to_be_bytes());
    put_entry(bytes, k, &entry);
}

/// Puts an entry into place `k` of a record of the directory.
#[tactic(auto, unfolding(lif_model::specs::Writing::with_entry))]
pub fn put_entry(bytes: &mut Record, k: usize, entry: &[u8; ENTRY])
    requires { k < 8 }
    ensures { bytes.new ≡ with_entry bytes.old k entry.now }
{
    bytes[ENTRY * k..ENTRY * k + ENTRY].copy_from_slice(entry);
}
