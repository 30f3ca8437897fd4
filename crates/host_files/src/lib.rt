//! A file of the host that is read whole.
#![tactic(auto)]

mod reading;

pub use reading::{NotRead, read_file};
