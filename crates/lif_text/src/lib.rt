//! Text files of the LIF format, type 0001 hex: their lines, and the bytes of a text that is made.
//!
//! A line is its length in two bytes, the most significant first, then its bytes, and where the length is odd one
//! filler byte of any value. FFFF hex in place of a length ends the text, whatever follows; so does the end of the
//! bytes. A line has at most 32,767 bytes: greater lengths but FFFF hex are in no text.
#![tactic(auto)]

mod buffer;
mod cutting;
mod pieces;

pub use buffer::{LongLine, TextBuffer};
pub use pieces::{Piece, TextFault, next};

/// How many bytes a line of a text has at most.
const LONGEST_LINE: u16 = 0x7FFF;

/// What ends a text, in place of a length.
const END_MARK: u16 = 0xFFFF;
