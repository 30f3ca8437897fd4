ghost use Rattle.std.specs.Prelude.{◌≡◌, ℕ, ◌+◌, ◌<◌, ◌≤◌, [], ◌∷◌, ◌++◌, List, Option, Some, true, false, length, take, min, IfOk, MatchOption, vec_len, if◌then◌else◌};
ghost use Rattle.std.specs.Vec.{vec_capacity};
ghost use Rattle.il_script.specs.LineCut.{line_cut, HasNoFeed};
ghost use Rattle.lif_model.specs.Causes.{HasCause};
ghost use Rattle.il_script.specs.Told.{line_of_length};

use crate::limits::{KEPT_OF_LINE, LONGEST_LINE, LONGEST_SCRIPT};
use il_ports::{Failed, Source};
use memchr::memchr;
use std::alloc::{AllocError, Global};
use std::marker::Model;

const CHUNK: usize = 4096;

/// What a turn gives.
#[derive(Clone, Copy, Debug, PartialEq, Eq)]
pub enum Line {
    /// A line.
    Text,
    /// The end of a line that has more bytes than a line may have.
    TooLong,
    /// The end of the script, after its last line.
    End,
    /// The source failed. The next turn goes on with the same line.
    Fault,
    /// The script has more bytes than a script may have. Every further turn says so.
    Over,
}

/// One line of a script at a time.
#[derive(Drop)]
pub struct Lines {
    /// The first bytes of the line.
    line: Vec<u8>,
    /// The line was given.
    is_given: bool,
    /// What was read ahead lies between the two places.
    chunk: Vec<u8>,
    from: usize,
    to: usize,
    taken: usize,
    is_ended: bool,
}

impl Model for Lines {
    ghost use Rattle.std.specs.Prelude.{◌≤◌, ◌<◌, ◌-◌, take, drop, vec_len, [], if◌then◌else◌};
    ghost use Rattle.std.specs.Vec.{vec_capacity};
    ghost use Rattle.il_script.specs.declared.limits.TheConstants.{KEPT_OF_LINE, LONGEST_SCRIPT};
    ghost use Rattle.il_script.specs.Progress.{Progress};

    ghost Value = { Progress };

    ghost view = { λ l. record {
      text = l.line.items;
      begun = if l.is_given then [] else l.line.items;
      held = take (l.to - l.from) (drop l.from l.chunk.items);
      taken = l.taken;
      ended = l.is_ended;
    } };

    ghost invariant = { λ l. (l.from ≤ l.to) × (l.to ≤ vec_len l.chunk) × (0 < vec_len l.chunk)
        × (l.taken ≤ LONGEST_SCRIPT) × (vec_len l.line ≤ KEPT_OF_LINE) × (KEPT_OF_LINE ≤ vec_capacity l.line) };
}

/// Where the first line feed stands.
fn first_feed(bytes: &[u8]) -> Option<usize>
    ensures { MatchOption result (HasNoFeed bytes.now) (λ at. (at < length bytes.now)
        × (line_cut (take (at + 1) bytes.now) ≡ record { whole = take at bytes.now ∷ []; open_line = [] })) }
{
    memchr(b'\n', bytes)
}

/// Empties the buffer where its line was given.
fn begin_line(line: &mut Vec<u8>, is_given: bool)
    ensures items { line.new.items ≡ (if is_given then [] else line.old.items) }
    ensures room { vec_capacity line.new ≡ vec_capacity line.old }
{
    if is_given {
        line.clear();
    }
}

/// Keeps of the bytes what the buffer has room for.
fn keep(line: &mut Vec<u8>, bytes: &[u8])
    requires fits { length line.old.items ≤ KEPT_OF_LINE }
    requires room { KEPT_OF_LINE ≤ vec_capacity line.old }
    ensures items { line.new.items ≡ take KEPT_OF_LINE (line.old.items ++ bytes.now) }
    ensures fits_after { vec_len line.new ≤ KEPT_OF_LINE }
    ensures room_after { KEPT_OF_LINE ≤ vec_capacity line.new }
{
    let count = bytes.len().min(KEPT_OF_LINE - line.len());
    line.extend_from_slice(&bytes[..count]).unwrap();
}

/// Moves the rest of a line to the buffer, as far as it has room. Says how many bytes the line and
/// its line feed take, and whether the line feed came.
fn move_line(line: &mut Vec<u8>, bytes: &[u8]) -> (usize, bool)
    requires fits { length line.old.items ≤ KEPT_OF_LINE }
    requires room { KEPT_OF_LINE ≤ vec_capacity line.old }
    ensures count { result.0 ≤ length bytes.now }
    ensures found { result.1 ≡ true → (body : List ℕ)
        × (line_cut (take result.0 bytes.now) ≡ record { whole = body ∷ []; open_line = [] })
        × (line.new.items ≡ take KEPT_OF_LINE (line.old.items ++ body)) }
    ensures none { result.1 ≡ false → (result.0 ≡ length bytes.now) × HasNoFeed bytes.now
        × (line.new.items ≡ take KEPT_OF_LINE (line.old.items ++ bytes.now)) }
    ensures fits_after { vec_len line.new ≤ KEPT_OF_LINE }
    ensures room_after { KEPT_OF_LINE ≤ vec_capacity line.new }
{
    match first_feed(bytes) {
        Some(at) => {
            keep(line, &bytes[..at]);
            (at + 1, true)
        }
        None => {
            keep(line, bytes);
            (bytes.len(), false)
        }
    }
}

/// What is said of a line of so many bytes.
fn told_as(length: usize) -> Line
    ensures { result ≡ line_of_length length }
{
    if length <= LONGEST_LINE {
        Line::Text
    } else {
        Line::TooLong
    }
}

impl Lines {
    ghost use Rattle.std.specs.Prelude.{◌≡◌, ◌≤◌, ℕ, List, Option, [], true, false, IfOk};
    ghost use Rattle.lif_model.specs.Causes.{HasCause};
    ghost use Rattle.il_script.specs.Progress.{Scans, FillsFrom, Lasts, Given, Turn, Stands, HasLineCause, IsTooLong, Lowers};

    /// No line was begun yet. All memory is taken here.
    pub fn new(alloc: Global) -> Result<Lines, AllocError>
        ensures { IfOk result (λ l. l ≡ record { text = []; begun = []; held = []; taken = 0; ended = false }) }
    {
        Ok(Lines {
            line: Vec::with_capacity(alloc, KEPT_OF_LINE)?,
            is_given: false,
            chunk: vec![in alloc; 0; CHUNK]?,
            from: 0,
            to: 0,
            taken: 0,
            is_ended: false,
        })
    }

    /// The line, after `Text`.
    pub fn text(&self) -> &[u8]
        ensures { result.now ≡ self.now.text }
    {
        self.line.as_slice()
    }

    /// Goes over what was read ahead, up to the end of a line or of what a script may hold.
    fn scan(&mut self) -> Option<Line>
        ensures scans { Scans self.old self.new result }
        ensures limit { self.new.taken ≤ LONGEST_SCRIPT }
    {
        begin_line(&mut self.line, self.is_given);
        self.is_given = false;
        let ahead = (self.to - self.from).min(LONGEST_SCRIPT - self.taken);
        let bytes = &self.chunk[self.from..self.from + ahead];
        let (count, found) = move_line(&mut self.line, bytes);
        self.from += count;
        self.taken += count;
        if found {
            let line = told_as(self.line.len());
            self.is_given = true;
            return Some(line);
        }
        if self.from < self.to {
            return Some(Line::Over);
        }
        None
    }

    /// Reads the next piece.
    fn fill<S: Source>(&mut self, source: &mut S) -> Result<(), Failed>
        requires { self.old.ended ≡ false }
        ensures bytes { FillsFrom self.old self.new (S.left source.old) (S.left source.new) result }
        ensures cause { HasCause (S.faults source.old) (S.faults source.new) result }
    {
        self.from = 0;
        self.to = 0;
        let count = source.read(&mut self.chunk)?;
        self.to = count;
        if count == 0 {
            self.is_ended = true;
        }
        Ok(())
    }

    /// The line that was begun is given at the end of the script.
    fn last(&mut self) -> Line
        ensures { Lasts self.old self.new result }
    {
        if self.is_given || self.line.is_empty() {
            return Line::End;
        }
        let line = told_as(self.line.len());
        self.is_given = true;
        line
    }

    fn is_ended(&self) -> bool
        ensures { result ≡ self.now.ended }
    {
        self.is_ended
    }

    /// Goes to the end of the next line. A fault leaves the line to be gone on with.
    pub fn next<S: Source>(&mut self, source: &mut S) -> Line
        ensures gives { (script : List ℕ) (given : List (Option (List ℕ)))
            → Given script self.old (S.left source.old) given
            → Turn script self.new (S.left source.new) given result }
        ensures cause { HasLineCause (S.faults source.old) (S.faults source.new) result }
        ensures stands { Stands self.new result }
        ensures ended { self.old.ended ≡ true → source.new ≡ source.old }
        ensures lowers { Lowers self.old self.new result }
        ensures again { IsTooLong self.old → result ≡ Line.Over }
    {
        'pieces: loop {
            match self.scan() {
                Some(line) => return line,
                None => {}
            }
            if self.is_ended() {
                return self.last();
            }
            match self.fill(source) {
                Ok(()) => {}
                Err(Failed) => return Line::Fault,
            }
        }
    }
}
