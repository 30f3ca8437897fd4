//! Tests that cross crates: whole runs over the ports in memory.
#![tactic(auto)]

#[cfg(test)]
mod batches;
#[cfg(test)]
mod checks;
#[cfg(test)]
mod directories;
#[cfg(test)]
mod endings;
#[cfg(test)]
mod faults;
#[cfg(test)]
mod files;
#[cfg(test)]
mod generated;
#[cfg(test)]
mod hostile;
#[cfg(test)]
mod images;
#[cfg(test)]
mod lending;
#[cfg(test)]
mod lines;
#[cfg(test)]
mod loops;
#[cfg(test)]
mod packing;
#[cfg(test)]
mod printing;
#[cfg(test)]
mod runs;
#[cfg(test)]
mod texts;
#[cfg(test)]
mod volumes;
