//! What a job of the program `tape` on the volume of an image is, how it ends, and what is said of that.
#![tactic(auto)]

mod change;
mod ending;
mod job;
mod messages;
mod printing;
mod volumes;
mod went;

pub use change::Change;
pub use ending::Ending;
pub use job::VolumeJob;
pub use messages::{
    end_on, no_memory, output_lost, refuse_name, refuse_text, write_cause, write_ending,
    write_ending_of, write_file_ending, write_message, write_parts, write_text,
};
pub use printing::print;
pub use volumes::{FileRead, Volumes};
pub use went::{Went, written};
