//! Where a new file goes on an adopted volume: the first slot of a purged file with room between its neighbours, else
//! the place before the redo file.
#![tactic(auto)]

pub use lif_plan::{Choice, choose};
