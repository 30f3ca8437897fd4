//! The outside of the program: where bytes come from and go to, a medium with its tape, and what the volume sees
//! of a tape. Each port counts its faults.
#![tactic(auto)]

mod adapters;
mod file_medium;
mod file_tape;
mod image;
mod images;
mod medium;
mod memory_file;
mod memory_images;
mod memory_medium;
mod memory_records;
mod memory_stream;
mod records;
mod stream;
mod tape_file;

pub use adapters::{StdSink, StdSource};
pub use file_medium::{FileMedium, Opening, ToChange, ToRead, make_image};
pub use file_tape::FileTape;
pub use image::Size;
pub use images::{Images, Look, Naming};
pub use medium::{Inserted, Medium, New};
pub use memory_file::MemoryFile;
pub use memory_images::MemoryImages;
pub use memory_medium::MemoryMedium;
pub use memory_records::MemoryRecords;
pub use memory_stream::{MemorySink, MemorySource};
pub use records::{Records, Trouble};
pub use stream::{Failed, Sink, Source, write_all};
pub use tape_file::{Access, TapeFile};
