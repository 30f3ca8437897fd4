//! The HP 82161A Digital Cassette Drive as a device of the HP-IL loop, over a medium.
#![tactic(auto)]

mod commands;
mod drive;
mod mode;

pub use drive::Drive;
pub use mode::{Mode, Start};
