//! A folder of the host, into which files are copied so that each is there whole or not at all.
#![tactic(auto)]

mod folder;
mod keeping;
mod memory_folder;
mod part_name;
mod shelf;
mod system_folder;

pub use folder::Folder;
pub use keeping::{Kept, keep};
pub use memory_folder::MemoryFolder;
pub use system_folder::SystemFolder;
