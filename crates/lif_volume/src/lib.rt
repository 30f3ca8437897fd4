//! A LIF volume on a store of records, and its commands.
//!
//! A [`Volume`] first settles the tape, reads record 0 and the directory and tests that they are
//! legal. What it read is kept from one command to the next.
#![tactic(auto)]

mod batching;
mod changing;
mod fault;
mod formatting;
mod reading;
mod volume;

pub use fault::VolumeFault;
pub use lif_plan::Refusal;
pub use volume::{Fetched, Kept, Listing, Volume};
