//! The records of a directory that one commit changes: what a command changes is set aside in memory, and then
//! committed by the redo file.
#![tactic(auto)]

mod staged;

pub use staged::Staged;
