//! The host: reads the words and the script, performs commands on the tape that is in the drive, by frames on a loop,
//! and answers them.
//!
//! [`run_il`] is a whole run; [`Host`] performs single commands.
#![tactic(auto)]

mod ending;
mod file_buffer;
mod gathering;
mod generating;
mod host;
mod job;
mod lent_log;
mod listing;
mod loop_commands;
mod loop_texts;
mod made_text;
mod opening;
mod parts;
mod performer;
mod run;
mod running;
mod scripts;
mod text_commands;
mod volume_commands;
mod write;

pub use ending::Ending;
pub use host::Host;
pub use il_ring::{Planned, Refused, Rig};
pub use job::{Job, with_host};
pub use performer::Performer;
pub use run::{Ended, run_il};
