//! The service state of a device of the HP-IL loop: its status, and its place in a parallel poll.
//! Everything here is over plain bytes; no frame is known, and no memory is taken.
#![tactic(auto)]

mod service;

pub use service::{Assignment, ServiceState};
