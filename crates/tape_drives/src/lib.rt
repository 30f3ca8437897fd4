//! Where the drives, the folders and the new images of a job come from, and where they go back to.
#![tactic(auto)]

mod drives;
mod folders;
mod made;
mod makers;
mod system;

pub use drives::Drives;
pub use folders::Folders;
pub use makers::Makers;
pub use system::{SystemDrives, SystemFolders, SystemMakers, SystemReaders};
