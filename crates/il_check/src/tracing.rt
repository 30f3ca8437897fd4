ghost use Rattle.std.specs.Prelude.{◌≡◌, ◌≤◌, ◌<◌, ◌+◌, ◌++◌, ◌∷◌, [], ℕ, List, length, take, None};
ghost use Rattle.il_frames.specs.declared.entry.Entry.{Entry};
ghost use Rattle.lif_model.specs.Tape.{Tape, IsTape};
ghost use Rattle.loop_model.specs.Loops.{host_loop};
ghost use Rattle.loop_model.specs.Exchanges.{Reading};
ghost use Rattle.il_script.specs.LineCut.{lines_of};
ghost use Rattle.trace_readers.specs.Effects.{IsEffectAfter};
ghost use Rattle.il_check.specs.Verdicts.{is_entry_line, IsVerdict};
ghost use Rattle.il_check.specs.Tracing.{HaveRead, ReadsLine, IsKnown, HasLines, HasTaken, MakesUpTo, fault_of_unit};

use crate::verdict::TraceFault;
use arrayvec::ArrayVec;
use il_frames::Entry;
use lif_model::Record;
use trace_readers::{Effects, Exchanges, Talkers, UnitFault};

/// How many bytes of a line are kept: one more than an entry's text has at most.
const KEPT: usize = 41;

/// The readers of the entries of a trace.
#[derive(Drop)]
struct Readers {
    talkers: Talkers,
    exchanges: Exchanges,
    effects: Effects,
}

/// A trace, of which the bytes come one after the other: the readers of its entries as far as they found no fault, or
/// the first fault. It takes no memory.
#[derive(Drop)]
pub(crate) struct Tracing {
    readers: Readers,
    /// The front of the line that is begun.
    kept: ArrayVec<u8, KEPT>,
    /// How many lines came.
    lines: u32,
    /// The first fault, and its line.
    fault: Option<(u32, TraceFault)>,
}

/// The fault of the line that ends such a unit.
fn fault_of_unit(fault: UnitFault) -> TraceFault
    ensures { result ≡ fault_of_unit fault }
{
    match fault {
        UnitFault::BadUnit => TraceFault::BadUnit,
        UnitFault::Unclear => TraceFault::Unclear,
    }
}

/// Whether a line begins as an entry's does.
fn is_entry_line(line: &[u8]) -> bool
    ensures { result ≡ is_entry_line line.now }
{
    line.first() == Some(&b'~')
}

impl Readers {
    /// Reads the entry of a line, of which this is the front. An error is the fault of the line, and after it the
    /// readers know nothing more.
    fn read(&mut self, line: &[u8]) -> Result<(), TraceFault>
        ensures reads { (k d : ℕ) (old : Tape) (log : List Entry) (whole : List ℕ) → line.now ≡ take 41 whole →
            HaveRead k d old log self.old → ReadsLine k d old log whole self.new result }
        ensures size { length self.new.effects.expected.records ≡ length self.old.effects.expected.records }
    {
        let Some(entry) = Entry::read_text(line) else {
            return Err(TraceFault::BadText);
        };
        if !self.talkers.take(entry) {
            return Err(TraceFault::NotTalker);
        }
        if !self.exchanges.take(entry) {
            return Err(TraceFault::NoExchange);
        }
        match self.effects.take(entry) {
            Ok(()) => Ok(()),
            Err(fault) => Err(fault_of_unit(fault)),
        }
    }
}

/// The first record of the tape after a log that the log may not have made.
fn first_not_made(effects: &Effects, after: &[Record]) -> Option<u16>
    requires size { length after.now ≡ length effects.now.expected.records }
    requires few { length after.now < 65536 }
    ensures { (k d : ℕ) (old : Tape) (log : List Entry) → IsEffectAfter d old log effects.now → Reading (host_loop k d) log →
        MakesUpTo k d old log after.now result }
{
    for place in 0..after.len() {
        if !effects.allows(place as u16, &after[place]) {
            return Some(place as u16);
        }
    }
    None
}

impl Tracing {
    /// No byte yet of the trace of a ring of so many devices, 1 to 30, and readers of the effects on the tape before
    /// it.
    pub(crate) fn new(devices: u8, effects: Effects) -> Tracing
        requires { (1 ≤ devices) × (devices ≤ 30) }
        ensures taken { (d : ℕ) (old : Tape) → IsEffectAfter d old [] effects → HasTaken devices d old [] result }
        ensures size { result.readers.effects ≡ effects }
        ensures lines { result.lines ≡ 0 }
    {
        Tracing {
            readers: Readers {
                talkers: Talkers::new(devices),
                exchanges: Exchanges::new(devices),
                effects,
            },
            kept: ArrayVec::new(),
            lines: 0,
            fault: None,
        }
    }

    /// The first fault after the line that is kept, which is the last of the lines. It is read where no line before it
    /// has a fault.
    fn read_kept(&mut self) -> Option<(u32, TraceFault)>
        ensures known { (k d : ℕ) (old : Tape) (lines : List (List ℕ)) (line : List ℕ) →
            self.old.kept.items ≡ take 41 line → self.old.lines ≡ length lines + 1 →
            IsKnown k d old lines self.old.readers self.old.fault → IsKnown k d old (lines ++ line ∷ []) self.new.readers result }
        ensures lines { self.new.lines ≡ self.old.lines }
        ensures size { length self.new.readers.effects.expected.records ≡ length self.old.readers.effects.expected.records }
    {
        if let Some(fault) = self.fault {
            return Some(fault);
        }
        if !is_entry_line(&self.kept) {
            return None;
        }
        match self.readers.read(&self.kept) {
            Ok(()) => None,
            Err(fault) => Some((self.lines, fault)),
        }
    }

    /// The line that is begun is complete.
    fn end_line(&mut self)
        requires { self.old.lines + 1 < 4294967296 }
        ensures known { (k d : ℕ) (old : Tape) (lines : List (List ℕ)) (line : List ℕ) →
            self.old.kept.items ≡ take 41 line → HasLines k d old lines self.old →
            HasLines k d old (lines ++ line ∷ []) self.new }
        ensures kept { self.new.kept.items ≡ [] }
        ensures lines { self.new.lines ≡ self.old.lines + 1 }
        ensures size { length self.new.readers.effects.expected.records ≡ length self.old.readers.effects.expected.records }
    {
        self.lines += 1;
        self.fault = self.read_kept();
        self.kept.clear();
    }

    /// The next byte of the trace.
    fn take_byte(&mut self, byte: u8)
        requires { self.old.lines + 1 < 4294967296 }
        ensures taken { (k d : ℕ) (old : Tape) (bytes : List ℕ) → HasTaken k d old bytes self.old →
            HasTaken k d old (bytes ++ byte ∷ []) self.new }
        ensures lines { self.new.lines ≤ self.old.lines + 1 }
        ensures size { length self.new.readers.effects.expected.records ≡ length self.old.readers.effects.expected.records }
    {
        if byte == b'\n' {
            self.end_line();
        } else if !self.kept.is_full() {
            self.kept.push(byte);
        }
    }

    /// The next bytes of the trace.
    pub(crate) fn take(&mut self, bytes: &[u8])
        requires { self.old.lines + length bytes.now < 4294967296 }
        ensures taken { (k d : ℕ) (old : Tape) (front : List ℕ) → HasTaken k d old front self.old →
            HasTaken k d old (front ++ bytes.now) self.new }
        ensures lines { self.new.lines ≤ self.old.lines + length bytes.now }
        ensures size { length self.new.readers.effects.expected.records ≡ length self.old.readers.effects.expected.records }
    {
        for byte in bytes {
            self.take_byte(*byte);
        }
    }

    /// The trace is at its end: what stands after the last line feed is a line, unless it is empty.
    pub(crate) fn end(&mut self)
        requires { self.old.lines + 1 < 4294967296 }
        ensures known { (k d : ℕ) (old : Tape) (bytes : List ℕ) → HasTaken k d old bytes self.old →
            HasLines k d old (lines_of bytes) self.new }
        ensures lines { self.new.lines ≤ self.old.lines + 1 }
        ensures size { length self.new.readers.effects.expected.records ≡ length self.old.readers.effects.expected.records }
    {
        if !self.kept.is_empty() {
            self.end_line();
        }
    }
    /// What is said of a trace that is at its end, of the tape before it, over which it was read, and of the tape after
    /// it: the fault and its line or record, or `None` where they go together.
    pub(crate) fn verdict(&self, after: &[Record]) -> Option<(u32, TraceFault)>
        requires lines { self.now.lines + 1 < 4294967296 }
        requires size { length after.now ≡ length self.now.readers.effects.expected.records }
        requires few { length after.now < 65536 }
        ensures { (k d : ℕ) (old : Tape) (lines : List (List ℕ)) → HasLines k d old lines self.now → IsTape (length old) after.now →
            IsVerdict k d old after.now lines result }
    {
        if let Some(fault) = self.fault {
            return Some(fault);
        }
        if !self.readers.exchanges.may_end() {
            return Some((self.lines + 1, TraceFault::NoExchange));
        }
        match first_not_made(&self.readers.effects, after) {
            Some(place) => Some((u32::from(place), TraceFault::NoEffect)),
            None => None,
        }
    }
}
