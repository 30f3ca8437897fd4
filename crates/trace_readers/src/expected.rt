#![tactic(auto)]

ghost use Rattle.std.specs.Prelude.{◌≡◌, ◌<◌, ◌≤◌, ◌*◌, ◌++◌, ◌∷◌, [], Some, None, true, false, length, take, drop};
ghost use Rattle.std.specs.Prelude.{map, get_or, MatchBool, MatchResult, IfOk};
ghost use Rattle.std.specs.Result.{result_err};
ghost use Rattle.lif_model.specs.Transfers.{cut_up};
ghost use Rattle.trace_readers.specs.Expected.{IsAllowedAs, IsToldBy, write_fault, known_after};
ghost use Rattle.trace_readers.specs.Expected as expected;

use lif_model::{RECORD, Record};
use std::alloc::{AllocError, Global};
use std::marker::Model;

/// Why the tapes that a write unit may have left are not told.
#[derive(Clone, Copy, Debug, PartialEq, Eq)]
pub enum UnitFault {
    /// Its status was 0, and its bytes are not whole records, or the last of them lies past the tape.
    BadUnit,
    /// It failed or was not finished, and two records of it at least had been sent whole.
    Unclear,
}

/// Which tapes the write units of a log may have left: each record of the tape is known, or may hold
/// any 256 bytes.
#[derive(Drop)]
pub struct Expected {
    records: Vec<Option<Record>>,
    room: usize,
}

impl Model for Expected {
    ghost use Rattle.std.specs.Prelude.{◌<◌, ◌≤◌, length};
    ghost use Rattle.std.specs.Vec.{vec_capacity};
    ghost use Rattle.trace_readers.specs.Expected.{Known};

    ghost Value = { Known };

    ghost view = { λ e. record { records = e.records.items; room = e.room } };

    ghost invariant = { λ e. (length e.records.items ≤ e.room) × (e.room ≤ vec_capacity e.records) × (e.room < 65536) };
}

/// Whether these bytes are whole records, and from `first` on lie on a tape of so many records.
fn lie_on(size: usize, first: usize, bytes: &[u8]) -> bool
    requires { first < 65536 }
    ensures { result ≡ expected.lie_on size first bytes.now }
{
    bytes.len() % RECORD == 0 && (bytes.is_empty() || first + bytes.len() / RECORD <= size)
}

/// The first record of these bytes.
fn first_record(bytes: &[u8]) -> Record
    requires { 256 ≤ length bytes.now }
    ensures { result ≡ take 256 bytes.now }
{
    let mut record = [0; RECORD];
    record.copy_from_slice(&bytes[..RECORD]);
    record
}

/// What follows the first record of these bytes.
fn after_first(bytes: &[u8]) -> &[u8]
    requires { 256 ≤ length bytes.now }
    ensures { result.now ≡ drop 256 bytes.now }
{
    &bytes[RECORD..]
}

/// Makes these records known by these bytes.
fn learn(records: &mut [Option<Record>], bytes: &[u8])
    requires { length bytes.now ≡ 256 * length records.old }
    ensures { records.new ≡ map Some (cut_up (length records.old) bytes.now) }
{
    let mut rest = bytes;
    for record in records.iter_mut() {
        *record = Some(first_record(rest));
        rest = after_first(rest);
    }
}

impl Expected {
    /// Room for a tape of so many records, of which there is none yet. All memory is taken here, and an error
    /// comes only where there is none.
    pub fn new(alloc: Global, size: u16) -> Result<Expected, AllocError>
        ensures { IfOk result (λ e. e ≡ record { records = []; room = size }) }
    {
        let room = size as usize;
        Ok(Expected {
            records: Vec::with_capacity(alloc, room)?,
            room,
        })
    }

    /// How many records there is room for.
    pub(crate) fn room(&self) -> usize
        ensures { result ≡ self.now.room }
    {
        self.room
    }

    /// The next record of the tape before the log. There has to be room for it.
    pub fn push(&mut self, bytes: &Record)
        requires { length self.old.records < self.old.room }
        ensures { self.new ≡ record {
          records = self.old.records ++ Some bytes.now ∷ [];
          room = self.old.room;
        } }
    {
        self.records.push(Some(*bytes)).unwrap();
    }

    /// Reads a unit that wrote these bytes from record `first` on, and whose status was 0, or else was
    /// another or did not come. An error comes exactly where its kind says so, and changes nothing.
    pub fn write(&mut self, first: u16, bytes: &[u8], is_good: bool) -> Result<(), UnitFault>
        ensures fault { result_err result ≡ write_fault (length self.old.records) first bytes.now is_good }
        ensures records { MatchResult result
            (λ _. self.new.records ≡ known_after first bytes.now is_good self.old.records)
            (λ _. self.new.records ≡ self.old.records) }
        ensures size { length self.new.records ≡ length self.old.records }
        ensures room { self.new.room ≡ self.old.room }
        ensures tapes { IfOk result (λ _. IsToldBy first bytes.now is_good self.old.records self.new.records) }
    {
        if is_good {
            self.keep(first as usize, bytes)
        } else {
            self.free(first as usize, bytes)
        }
    }

    /// Reads a unit whose status was 0.
    fn keep(&mut self, first: usize, bytes: &[u8]) -> Result<(), UnitFault>
        requires { first < 65536 }
        ensures fault { result_err result ≡ write_fault (length self.old.records) first bytes.now true }
        ensures records { MatchResult result
            (λ _. self.new.records ≡ known_after first bytes.now true self.old.records)
            (λ _. self.new.records ≡ self.old.records) }
        ensures room { self.new.room ≡ self.old.room }
    {
        if !lie_on(self.records.len(), first, bytes) {
            return Err(UnitFault::BadUnit);
        }
        let count = bytes.len() / RECORD;
        if count > 0 {
            learn(&mut self.records[first..first + count], bytes);
        }
        Ok(())
    }

    /// Reads a unit whose status was not 0, or did not come.
    fn free(&mut self, first: usize, bytes: &[u8]) -> Result<(), UnitFault>
        ensures fault { result_err result ≡ write_fault (length self.old.records) first bytes.now false }
        ensures records { MatchResult result
            (λ _. self.new.records ≡ known_after first bytes.now false self.old.records)
            (λ _. self.new.records ≡ self.old.records) }
        ensures room { self.new.room ≡ self.old.room }
    {
        match bytes.len() / RECORD {
            0 => Ok(()),
            1 => {
                if first < self.records.len() {
                    self.records[first] = None;
                }
                Ok(())
            }
            _ => Err(UnitFault::Unclear),
        }
    }

    /// Whether these bytes may stand in the record at that place, which the tape has.
    pub fn allows(&self, place: u16, bytes: &Record) -> bool
        requires { place < length self.now.records }
        ensures { MatchBool result
            (IsAllowedAs (get_or self.now.records place None) bytes.now)
            (IsAllowedAs (get_or self.now.records place None) bytes.now → ⊥) }
    {
        match &self.records[place as usize] {
            Some(known) => *known == *bytes,
            None => true,
        }
    }
}
