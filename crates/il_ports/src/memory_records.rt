ghost use Rattle.std.specs.Prelude.{◌≡◌, ◌<◌, ◌≤◌, ◌+◌, ◌++◌, ◌∷◌, ◌^◌, ℕ, [], true, length, get_or, set, IfOk};
ghost use Rattle.std.specs.Vec.{vec_capacity};
ghost use Rattle.std.specs.Result.{result_err};
ghost use Rattle.lif_model.specs.Redo.{changed};
ghost use Rattle.il_ports.specs.Counted.{failing};
ghost use Rattle.il_ports.specs.Trouble.{HasTroubleCause};

use crate::image::{after_record, copy_of, lay_out, next_record};
use crate::records::{Records, Trouble};
use lif_model::RECORD;
use std::alloc::{AllocError, Global};

/// What the first entry of that call says.
fn listed(fails: &[(u64, Trouble)], call: u64) -> Option<Trouble>
    ensures { result ≡ failing call fails.now }
{
    for fail in fails {
        if fail.0 == call {
            return Some(fail.1);
        }
    }
    None
}

/// The records of one tape in memory. The records that are read and written are counted together from 1, those of a run
/// one by one, and those that a list names fail with its trouble: a run ends at the first of them, and the failing one
/// is not changed. Every write with Ok is kept.
#[derive(Drop)]
pub struct MemoryRecords {
    records: Vec<[u8; 256]>,
    /// The tape as it was at first.
    first: Vec<[u8; 256]>,
    /// Every write, in room that was reserved.
    writes: Vec<(u16, [u8; 256])>,
    fails: Vec<(u64, Trouble)>,
    calls: u64,
    frame_faults: u64,
    medium_faults: u64,
    left: u32,
    sound: bool,
    ghost replays: { records.items ≡ changed writes.items first.items },
    ghost shaped: { (k : ℕ) → k < length records.items → length (get_or records.items k []) ≡ 256 },
    ghost few: { length records.items < 2 ^ 16 },
    ghost few_calls: { calls + left < 2 ^ 32 },
    ghost room: { length writes.items + left ≤ vec_capacity writes },
}

impl MemoryRecords {
    ghost use Rattle.il_ports.specs.MemoryRecords.{state_of, counted};

    /// A sound store with these records, of which there are fewer than 65,536. `fails` has the numbers of the reads and
    /// writes that fail; where one stands more than once, its first entry counts. `left` calls of `resume`, `read` and
    /// `write` may be made, each record of a run counting as one: each takes one, whatever it answers. All memory is
    /// taken here: a copy of the tape, and room for `left` writes. An error comes only where there is none.
    pub fn new(
        alloc: Global,
        records: Vec<[u8; 256]>,
        fails: Vec<(u64, Trouble)>,
        left: u32,
    ) -> Result<MemoryRecords, AllocError>
        requires { length records.items < 2 ^ 16 }
        ensures { IfOk result (λ r. state_of r ≡ record {
          records = records.items;
          first = records.items;
          writes = [];
          fails = fails.items;
          calls = 0;
          frame_faults = 0;
          medium_faults = 0;
          left = left;
          sound = true;
        }) }
    {
        let writes = Vec::with_capacity(alloc, left as usize)?;
        let mut first = Vec::with_capacity(alloc, records.len())?;
        for bytes in &records {
            first.push(copy_of(bytes)).unwrap();
        }
        Ok(MemoryRecords {
            records,
            first,
            writes,
            fails,
            calls: 0,
            frame_faults: 0,
            medium_faults: 0,
            left,
            sound: true,
        })
    }

    /// The records as they are.
    pub fn records(&self) -> &[[u8; 256]]
        ensures { result.now ≡ (state_of self.now).records }
    {
        &self.records
    }

    /// Every write with Ok, oldest first: the number of the record and its bytes.
    pub fn writes(&self) -> &[(u16, [u8; 256])]
        ensures { result.now ≡ (state_of self.now).writes }
    {
        &self.writes
    }

    /// Counts a record that is read or written, which fails where the list says so.
    fn count(&mut self) -> Result<(), Trouble>
        requires sound { (state_of self.old).sound ≡ true }
        requires left { 1 ≤ (state_of self.old).left }
        ensures cause { HasTroubleCause (state_of self.old).frame_faults (state_of self.new).frame_faults
            (state_of self.old).medium_faults (state_of self.new).medium_faults result }
        ensures listed { result_err result ≡ failing ((state_of self.old).calls + 1) (state_of self.old).fails }
        ensures counts { state_of self.new ≡ counted (state_of self.old) result }
        ensures kept { (self.new.first ≡ self.old.first) × (self.new.writes ≡ self.old.writes) }
    {
        self.left -= 1;
        self.calls += 1;
        let Some(trouble) = listed(&self.fails, self.calls) else {
            return Ok(());
        };
        self.sound = false;
        match trouble {
            Trouble::Frame => self.frame_faults = self.frame_faults.saturating_add(1),
            Trouble::Medium => self.medium_faults = self.medium_faults.saturating_add(1),
        }
        Err(trouble)
    }

    /// Writes a record, and keeps the write. Its room is that of the call that was counted.
    fn put(&mut self, n: u16, bytes: &[u8; 256])
        requires room { length self.old.writes.items + self.old.left < vec_capacity self.old.writes }
        requires within { n < length (state_of self.old).records }
        ensures { state_of self.new ≡ record (state_of self.old) {
          records = set (state_of self.old).records n bytes.now;
          writes = (state_of self.old).writes ++ (n, bytes.now) ∷ [];
        } }
    {
        self.records[n as usize] = *bytes;
        self.writes.push((n, *bytes)).unwrap();
    }
}

impl Records for MemoryRecords {
    ghost use Rattle.std.specs.Prelude.{◌≡◌, ◌<◌, ◌≤◌, ◌-◌, ◌+◌, ◌*◌, ◌/◌, Some, true, length};
    ghost use Rattle.std.specs.Result.{result_err};
    ghost use Rattle.lif_model.specs.Tape.{DidRead, DidReadRun};
    ghost use Rattle.lif_model.specs.Shelf.{cut};
    ghost use Rattle.lif_model.specs.Stops.{Torn, Elapses};
    ghost use Rattle.lif_model.specs.Transfers.{PartlyReplaced, WroteRun};
    ghost use Rattle.lif_model.specs.History.{LeftBy};
    ghost use Rattle.lif_model.proofs.History.{told_shape, told_now, told_only};
    ghost use Rattle.il_ports.specs.Counted.{failing};
    ghost use Rattle.il_ports.specs.Trouble.{HasTroubleCause, answers_ok};
    ghost use Rattle.il_ports.specs.Stores.{RecordsView, AreRecords};
    ghost use Rattle.il_ports.specs.MemoryRecords.{state_of, counted, records_after, writes_after, RanReads, RanWrites};

    type Start = ();

    ghost view = { λ r. record {
      valid = Unit {0};
      tape = Some (state_of r).records;
      record_count = length (state_of r).records;
      ready = true;
      sound = (state_of r).sound;
      calls_left = (state_of r).left;
      room = 0;
      frame_faults = (state_of r).frame_faults;
      medium_faults = (state_of r).medium_faults;
      moment = length (state_of r).writes;
      left_since = LeftBy (state_of r).first (state_of r).writes;
      transferred = λ list. Unit {0};
      present = tt;
      emptied = λ old new. Unit {0};
      stood = λ start. Unit {0};
      failed = λ failure. Unit {0};
      resumed = λ k. Unit {0};
    } };

    ghost is_store = { λ r. record {
      is_tape = λ t is. told_shape r.records.items r.shaped t is;
      leaves_now = λ m t le is. told_now r.first.items r.records.items r.writes.items r.replays m t le is;
      leaves_only = λ t c is left. told_only r.first.items r.records.items r.writes.items r.replays t c is left;
    } };

    fn size(&self) -> u16 {
        self.records.len() as u16
    }

    fn is_sound(&self) -> bool {
        self.sound
    }

    fn left(&self) -> u32 {
        self.left
    }

    fn begin(&mut self)
        ensures state { state_of self.new ≡ state_of self.old }
    {}

    fn resume(&mut self) -> Result<(), Trouble>
        requires left { 1 ≤ (state_of self.old).left }
        ensures ok { answers_ok result ≡ true }
        ensures state { state_of self.new ≡ record (state_of self.old) {
          left = (state_of self.old).left - 1;
          sound = true;
        } }
    {
        self.left -= 1;
        self.sound = true;
        Ok(())
    }

    fn read(&mut self, n: u16, into: &mut [u8; 256]) -> Result<(), Trouble>
        requires sound { (state_of self.old).sound ≡ true }
        requires within { n < length (state_of self.old).records }
        requires left { 1 ≤ (state_of self.old).left }
        ensures content { DidRead n into.new (Some (state_of self.old).records) result }
        ensures cause { HasTroubleCause (state_of self.old).frame_faults (state_of self.new).frame_faults
            (state_of self.old).medium_faults (state_of self.new).medium_faults result }
        ensures listed { result_err result ≡ failing ((state_of self.old).calls + 1) (state_of self.old).fails }
        ensures state { state_of self.new ≡ counted (state_of self.old) result }
    {
        self.count()?;
        *into = self.records[n as usize];
        Ok(())
    }

    fn write(&mut self, n: u16, from: &[u8; 256]) -> Result<(), Trouble>
        requires sound { (state_of self.old).sound ≡ true }
        requires within { n < length (state_of self.old).records }
        requires left { 1 ≤ (state_of self.old).left }
        ensures time { Elapses (length (state_of self.old).writes) (length (state_of self.new).writes)
            (LeftBy (state_of self.old).first (state_of self.old).writes) (LeftBy (state_of self.new).first (state_of self.new).writes)
            (Some (state_of self.old).records) (Torn n) }
        ensures cause { HasTroubleCause (state_of self.old).frame_faults (state_of self.new).frame_faults
            (state_of self.old).medium_faults (state_of self.new).medium_faults result }
        ensures listed { result_err result ≡ failing ((state_of self.old).calls + 1) (state_of self.old).fails }
        ensures state { state_of self.new ≡ record (counted (state_of self.old) result) {
          records = records_after n from.now (state_of self.old).records result;
          writes = writes_after n from.now (state_of self.old).writes result;
        } }
    {
        self.count()?;
        self.put(n, from);
        Ok(())
    }

    fn read_run(&mut self, first: u16, into: &mut [u8]) -> Result<(), Trouble>
        requires records { AreRecords (length into.old) }
        requires sound { (state_of self.old).sound ≡ true }
        requires within { first + length into.old / 256 ≤ length (state_of self.old).records }
        requires left { length into.old / 256 ≤ (state_of self.old).left }
        ensures content { DidReadRun first (length into.old / 256) into.new (Some (state_of self.old).records) result }
        ensures cause { HasTroubleCause (state_of self.old).frame_faults (state_of self.new).frame_faults
            (state_of self.old).medium_faults (state_of self.new).medium_faults result }
        ensures ran { RanReads (length into.old / 256) (state_of self.old) (state_of self.new) result }
    {
        for i in 0..into.len() / RECORD {
            self.count()?;
            lay_out(&self.records[usize::from(first) + i], i, into);
        }
        Ok(())
    }

    fn write_run(&mut self, first: u16, count: u16, from: &[u8]) -> Result<(), Trouble>
        requires some { 1 ≤ count }
        requires fits { length from.now ≤ 256 * count }
        requires sound { (state_of self.old).sound ≡ true }
        requires within { first + count ≤ length (state_of self.old).records }
        requires left { count ≤ (state_of self.old).left }
        ensures content { WroteRun first (cut count from.now) (Some (state_of self.old).records) (Some (state_of self.new).records) result }
        ensures time { Elapses (length (state_of self.old).writes) (length (state_of self.new).writes)
            (LeftBy (state_of self.old).first (state_of self.old).writes) (LeftBy (state_of self.new).first (state_of self.new).writes)
            (Some (state_of self.old).records) (PartlyReplaced first (cut count from.now)) }
        ensures cause { HasTroubleCause (state_of self.old).frame_faults (state_of self.new).frame_faults
            (state_of self.old).medium_faults (state_of self.new).medium_faults result }
        ensures ran { RanWrites first (cut count from.now) (state_of self.old) (state_of self.new) result }
    {
        let mut rest = from;
        for i in 0..count {
            self.count()?;
            self.put(first + i, &next_record(rest));
            rest = after_record(rest);
        }
        Ok(())
    }
}
