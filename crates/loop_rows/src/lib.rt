//! Tests of the loop's crates.
#![tactic(auto)]

#[cfg(test)]
mod checked_rows;
#[cfg(test)]
mod control_rows;
#[cfg(test)]
mod lend_reckoning;
#[cfg(test)]
mod lend_rows;
#[cfg(test)]
mod lend_store_rows;
#[cfg(test)]
mod lent_rows;
#[cfg(test)]
mod naming_rows;
#[cfg(test)]
mod reader_rows;
#[cfg(test)]
mod store_rows;
#[cfg(test)]
mod tools;
