//! The header of a LIF volume, which stands in record 0 of its medium.
#![tactic(auto)]

mod fields;
mod geometry;
mod header;

pub use fields::{bytes_at, four_at, two_at};
pub use header::{Header, HeaderFault};
