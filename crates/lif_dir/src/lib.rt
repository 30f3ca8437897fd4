//! The directory of a LIF volume: names, entries, the table of its slots, and how it is read.
#![tactic(auto)]

mod batch;
mod change;
mod entries;
mod index;
mod names;
mod reading;
mod steps;
mod table;

pub use batch::{Batch, Part};
pub use change::Change;
pub use entries::{FileEntry, Name, Slot};
pub use names::{NewLabel, NewName, without_end_spaces};
pub use reading::{read_slots, slots_of};
pub use steps::Steps;
pub use table::SlotTable;
