//! Tests of the volume's crates over records in memory.
#![tactic(auto)]

#[cfg(test)]
mod batched;
#[cfg(test)]
mod batches;
#[cfg(test)]
mod changing;
#[cfg(test)]
mod directories;
#[cfg(test)]
mod formats;
#[cfg(test)]
mod headers;
#[cfg(test)]
mod labels;
#[cfg(test)]
mod names;
#[cfg(test)]
mod places;
#[cfg(test)]
mod plain;
#[cfg(test)]
mod reading;
#[cfg(test)]
mod redo;
#[cfg(test)]
mod stops;
#[cfg(test)]
mod tables;
#[cfg(test)]
mod tapes;
#[cfg(test)]
mod volumes;
