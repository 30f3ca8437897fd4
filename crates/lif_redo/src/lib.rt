//! The atomic change of some records of a tape, through the redo file in the last records of the tape.
//!
//! On a tape of `n` records the gate is record `n - 4`, and the targets record, which names the records that change,
//! is record `n - 3`. Their new contents stand in records `n - 2` and `n - 1`, and where the redo file is of version
//! 2 in the thirty records before the gate first. A redo is open where the gate record begins with its sixteen bytes
//! and the targets record is valid. `commit` changes records so that a power stop leaves the old or the new ones,
//! once `settle` has carried out the redo that is open. Both work on any store of records, and neither takes memory.
#![tactic(auto)]

mod atomic;
mod steps;
mod texts;

pub use atomic::{Gate, are_changes, commit, commit_known, settle, settle_gate};
pub use lif_model::Version;
