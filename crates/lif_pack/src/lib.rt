//! Packing of a LIF volume: files are moved down, onto their own old records too, until no gap is left. It can be
//! stopped at any record.
#![tactic(auto)]

mod closing;
mod counting;
mod ending;
mod finish;
mod holding;
mod marks;
mod memory;
mod moving;
mod pack;
mod packer;
mod packing;
mod placed;
mod reading;
mod refusing;
mod tasks;

pub use memory::Packer;
pub use pack::Packed;
