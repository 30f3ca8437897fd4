//! What there is to be said of a trace of the loop, and of the tapes before it and after it.
#![tactic(auto)]

mod ending;
mod reading;
mod run;
mod tapes;
mod telling;
mod tracing;
mod verdict;
mod words;

pub use reading::LONGEST_TRACE;
pub use run::run_check;
pub use verdict::TraceFault;
