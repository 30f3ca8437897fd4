//! Names for files that come from elsewhere, on a tape whose names must be names that can be made.
#![tactic(auto)]

mod mending;

pub use mending::names_for;
