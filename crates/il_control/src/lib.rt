//! The controller of the loop: its exchanges on a ring, and the same as typed states. Each of these owns the ring, so
//! that nothing else acts on it: what may be done next is a method of the state, and a state is used up by the call.
#![tactic(auto)]

pub mod exchanges;
mod frames;
mod lending;
mod receiving;
mod rounds;
mod states;

pub use exchanges::Broken;
pub use frames::Sot;
pub use states::{Idle, Lost, Sending};
