//! Tests of the arguments and of the jobs of `tape`.
#![tactic(auto)]

#[cfg(test)]
mod changes;
#[cfg(test)]
mod copies;
#[cfg(test)]
mod differences;
#[cfg(test)]
mod files;
#[cfg(test)]
mod given;
#[cfg(test)]
mod listings;
#[cfg(test)]
mod pages;
#[cfg(test)]
mod stored;
#[cfg(test)]
mod words;
