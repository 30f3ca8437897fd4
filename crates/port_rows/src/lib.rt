//! Tests of the ports.
#![tactic(auto)]

#[cfg(test)]
mod files;
#[cfg(test)]
mod media;
#[cfg(test)]
mod memory_files;
#[cfg(test)]
mod records;
#[cfg(test)]
mod shelves;
#[cfg(test)]
mod streams;
