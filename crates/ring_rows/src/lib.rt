//! Tests of the drive and of the ring, and what they share with the tests of the crates above: tapes, devices, the
//! texts of frames and logs.
#![tactic(auto)]

mod plain;
mod tools;

pub use plain::{Calling, caller, second_drive};
pub use tools::{frame_of, has_paper, is_log, tape, tape_of};

#[cfg(test)]
mod drive_rows;
#[cfg(test)]
mod lend_rows;
#[cfg(test)]
mod lent_rows;
#[cfg(test)]
mod lineup;
#[cfg(test)]
mod round_rows;
#[cfg(test)]
mod telling;
