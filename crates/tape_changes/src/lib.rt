//! The jobs of the program `tape` that change the volume of an image.
#![tactic(auto)]

mod change_messages;
mod changing;
mod replace_messages;
mod replacing;
mod steps;
mod storing;

pub use change_messages::write_changed;
pub use changing::{Changing, Step};
pub use replace_messages::write_replaced;
pub use replacing::{NewFile, Replacing, Stored, replacing_batch};
pub use steps::{adopt_step, format_step, purge_steps, rename_step, store_step, upgrade_step};
pub use storing::{Incoming, Ready, ready_files, steps_of};
