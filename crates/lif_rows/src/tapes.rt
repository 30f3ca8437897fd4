//! Tapes as lists of records, and what a stop leaves of them.
use lif_model::{RECORD, Record};
use std::process::Abort;

/// What opens a gate, and what opens none.
pub const GATE: &[u8] = b"LIFREDO1 OPEN   ";

pub const SHUT: &[u8] = b"LIFREDO1 OPEN  X";

/// Writes bytes from byte `at` of record `n` on.
pub fn put(rt: &impl Abort, tape: &mut Vec<Record>, n: usize, at: usize, bytes: &[u8]) {
    assert!(rt; n < tape.len() && at <= RECORD && bytes.len() <= RECORD - at);
    tape[n][at..at + bytes.len()].copy_from_slice(bytes);
}

/// The tape after the first `k` writes, torn within the next.
pub fn stopped(
    rt: &impl Abort,
    mut tape: Vec<Record>,
    writes: &[(u16, Record)],
    k: usize,
    torn: &Record,
) -> Vec<Record> {
    for (n, bytes) in writes.iter().take(k) {
        put(rt, &mut tape, usize::from(*n), 0, bytes);
    }
    if let Some((n, _)) = writes.get(k) {
        put(rt, &mut tape, usize::from(*n), 0, torn);
    }
    tape
}

/// What a stop within a write may leave in its record, and whether that opens the gate where it is the gate.
pub fn torn_contents() -> [(Record, bool); 3] {
    let mut gate = [0; RECORD];
    gate[..GATE.len()].copy_from_slice(GATE);
    [([0; RECORD], false), ([0xFF; RECORD], false), (gate, true)]
}
