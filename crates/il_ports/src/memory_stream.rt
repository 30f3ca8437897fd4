ghost use Rattle.std.specs.Prelude.{◌≡◌, ◌+◌, ◌<◌, ◌≤◌, ◌↔◌, ◌⊎◌, [], length, min, Contains, IfOk, IsErr, Some};
ghost use Rattle.std.specs.Io.{ReadsAtMost};
ghost use Rattle.std.specs.Io.KnownBytes.{ReadConsumes, WriteAppends};
ghost use Rattle.lif_model.specs.Causes.{HasCause, next_count};
ghost use Rattle.il_ports.specs.Taking.{TakesSome};
ghost use Rattle.il_ports.specs.Counted.{faults_after};

use crate::stream::{Failed, Sink, Source, faulted};
use std::alloc::{AllocError, Global};
use std::marker::Model;

/// A source in memory. A call gives as many bytes as there are, as the caller has room for, and at most `piece`.
/// Calls are counted from 1; those that `fails` lists fail.
#[derive(Drop)]
pub struct MemorySource {
    bytes: Vec<u8>,
    taken: usize,
    piece: usize,
    fails: Vec<u64>,
    calls: u64,
    faults: u64,
}

impl Model for MemorySource {
    ghost use Rattle.std.specs.Prelude.{◌<◌, ◌≤◌, drop, vec_len};
    ghost use Rattle.il_ports.specs.MemoryStream.{SourceState};

    ghost Value = { SourceState };

    ghost view = { λ s. record {
      left = drop s.taken s.bytes.items;
      piece = s.piece;
      fails = s.fails.items;
      calls = s.calls;
      faults = s.faults;
    } };

    ghost invariant = { λ s. (s.taken ≤ vec_len s.bytes) × (0 < s.piece) };
}

impl MemorySource {
    /// A source of these bytes, which gives at most `piece` of them a call and fails at the listed calls.
    pub fn new(bytes: Vec<u8>, piece: usize, fails: Vec<u64>) -> MemorySource
        requires { 0 < piece }
        ensures { result ≡ record {
          left = bytes.items;
          piece = piece;
          fails = fails.items;
          calls = 0;
          faults = 0;
        } }
    {
        MemorySource {
            bytes,
            taken: 0,
            piece,
            fails,
            calls: 0,
            faults: 0,
        }
    }

    /// The bytes that are still to come.
    pub fn left(&self) -> &[u8]
        ensures { result.now ≡ self.now.left }
    {
        &self.bytes[self.taken..]
    }
}

impl Source for MemorySource {
    ghost left = { λ s. Some s.left };

    ghost faults = { λ s. s.faults };

    fn read(&mut self, into: &mut [u8]) -> Result<usize, Failed>
        requires { 0 < length into.old }
        ensures bound { ReadsAtMost result into.new }
        ensures bytes { ReadConsumes (Some self.old.left) (Some self.new.left) result into.new }
        ensures cause { HasCause self.old.faults self.new.faults result }
        ensures listed { IsErr result ↔ Contains self.old.fails (next_count self.old.calls) }
        ensures count { IfOk result (λ n. n ≡ min (length self.old.left) (min self.old.piece (length into.old))) }
        ensures counts { self.new ≡ record self.old {
          left = self.new.left;
          calls = next_count self.old.calls;
          faults = faults_after self.old.faults result;
        } }
    {
        self.calls = self.calls.saturating_add(1);
        if self.fails.contains(&self.calls) {
            return Err(faulted(&mut self.faults));
        }
        let left = &self.bytes[self.taken..];
        let count = left.len().min(self.piece.min(into.len()));
        into[..count].copy_from_slice(&left[..count]);
        self.taken += count;
        Ok(count)
    }
}

/// A sink in memory. It takes each piece whole, as long as all that was written fits into its room. Calls are
/// counted from 1; those that `fails` lists fail, and so does a write past the room.
#[derive(Drop)]
pub struct MemorySink {
    bytes: Vec<u8>,
    room: usize,
    fails: Vec<u64>,
    calls: u64,
    faults: u64,
}

impl Model for MemorySink {
    ghost use Rattle.std.specs.Prelude.{◌≤◌, vec_len};
    ghost use Rattle.std.specs.Vec.{vec_capacity};
    ghost use Rattle.il_ports.specs.MemoryStream.{SinkState};

    ghost Value = { SinkState };

    ghost view = { λ s. record {
      written = s.bytes.items;
      room = s.room;
      fails = s.fails.items;
      calls = s.calls;
      faults = s.faults;
    } };

    ghost invariant = { λ s. (vec_len s.bytes ≤ s.room) × (s.room ≤ vec_capacity s.bytes) };
}

impl MemorySink {
    /// An empty sink for `room` bytes, which fails at the listed calls. Its memory is taken here, and none later.
    pub fn new(alloc: Global, room: usize, fails: Vec<u64>) -> Result<MemorySink, AllocError>
        ensures { IfOk result (λ s. s ≡ record {
          written = [];
          room = room;
          fails = fails.items;
          calls = 0;
          faults = 0;
        }) }
    {
        Ok(MemorySink {
            bytes: Vec::with_capacity(alloc, room)?,
            room,
            fails,
            calls: 0,
            faults: 0,
        })
    }

    /// The bytes that were written, oldest first.
    pub fn written(&self) -> &[u8]
        ensures { result.now ≡ self.now.written }
    {
        self.bytes.as_slice()
    }
}

impl Sink for MemorySink {
    ghost written = { λ s. Some s.written };

    ghost faults = { λ s. s.faults };

    fn write(&mut self, piece: &[u8]) -> Result<usize, Failed>
        requires { 0 < length piece.now }
        ensures bound { TakesSome result piece.now }
        ensures bytes { WriteAppends (Some self.old.written) (Some self.new.written) result piece.now }
        ensures cause { HasCause self.old.faults self.new.faults result }
        ensures listed { IsErr result ↔ (Contains self.old.fails (next_count self.old.calls)
            ⊎ (self.old.room < length self.old.written + length piece.now)) }
        ensures count { IfOk result (λ n. n ≡ length piece.now) }
        ensures counts { self.new ≡ record self.old {
          written = self.new.written;
          calls = next_count self.old.calls;
          faults = faults_after self.old.faults result;
        } }
    {
        self.calls = self.calls.saturating_add(1);
        if self.fails.contains(&self.calls) || piece.len() > self.room - self.bytes.len() {
            return Err(faulted(&mut self.faults));
        }
        self.bytes.extend_from_slice(piece).unwrap();
        Ok(piece.len())
    }
}
