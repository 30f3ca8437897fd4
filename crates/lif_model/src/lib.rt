//! The meaning of tapes, volumes and ports, as definitions that contracts cite.
//!
//! The definitions stand in `specs/` and the laws on them in `proofs/`. The functions here are plain and slow: each is
//! a definition carried out, so that faster code can be compared with it.
//! A tape is a list of records and a record is a list of bytes. Numbers of two and four bytes are
//! read high byte first, and sums lose nothing.
#![tactic(auto)]

mod checking;
mod choosing;
mod fields;
mod reading;
mod refusal;
mod version;

pub use checking::plain_is_legal;
pub use choosing::{Spot, plain_fit};
pub use reading::plain_slots;
pub use refusal::Refusal;
pub use version::Version;

/// The number of bytes in a record of a tape.
pub const RECORD: usize = 256;

/// A record of a tape.
pub type Record = [u8; RECORD];

/// The number of bytes in an entry of a directory.
pub const ENTRY: usize = 32;

/// The number of entries in a record of a directory.
pub const ENTRIES: usize = 8;

/// The number of bytes on the largest medium, a disc.
pub const MOST_BYTES: usize = 630_784;

/// How many parts a batch has at most: with the redo entry they touch at most 32 records of a
/// directory, which is what one commit changes.
pub const MOST_PARTS: usize = 31;

/// The name of the redo file, with its spaces.
pub const REDO_NAME: &[u8; 10] = b"REDOFILE  ";

/// The type of the redo file.
pub const REDO_KIND: u16 = 0xE0D0;

/// Where the gate stands, counted back from the tape's end.
pub const GATE: u16 = 4;
