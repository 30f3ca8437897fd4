//! What the commands of a LIF volume change in its directory: over the slots in memory, before
//! anything is written.
#![tactic(auto)]

mod batches;
mod choosing;
mod directory;
mod extents;
mod fresh;
mod placing;
mod plans;

pub use batches::{BatchPlan, PlannedFile};
pub use choosing::{Choice, choose, redo_place};
pub use directory::{Directory, File, is_redo_entry, is_redo_file};
pub use fresh::FreshVolume;
pub use lif_model::Refusal;
