//! Tests of the folders into which files are copied.
#![tactic(auto)]

#[cfg(test)]
mod memory;
#[cfg(test)]
mod system;
