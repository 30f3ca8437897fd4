//! The jobs of the program `tape` that read the volume of an image.
#![tactic(auto)]

mod collecting;
mod copy_messages;
mod copying;
mod differences;
mod listing;
mod progress;
mod reading;
mod slot_counts;

pub use collecting::{Collected, Collecting};
pub use copy_messages::write_copied;
pub use copying::{Copying, FileEnd, Taken};
pub use differences::difference_text;
pub use listing::{Listing, Style, dir};
pub use progress::Progress;
pub use reading::{Part, Reading, page_for_file};
