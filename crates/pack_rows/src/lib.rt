//! Tests of packing over records in memory.
#![tactic(auto)]

#[cfg(test)]
mod calls;
#[cfg(test)]
mod marks;
#[cfg(test)]
mod opening;
#[cfg(test)]
mod places;
#[cfg(test)]
mod plain;
#[cfg(test)]
mod refusals;
#[cfg(test)]
mod stops;
#[cfg(test)]
mod tapes;
#[cfg(test)]
mod troubles;
