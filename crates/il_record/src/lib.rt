//! Records over the loop: a store of records whose reads and writes go by frames to the drive. Each run of records is a
//! seek, one transmission and a poll of the drive's status.
#![tactic(auto)]

mod calls;
mod exchanges;
mod loop_calls;
mod poll;
mod records;
mod runs;

pub use records::{LoopRecords, Looped};
