//! Readers of a finished log of the loop, one entry or one unit at a time: what each knows stands for all
//! of them so far, and takes no memory that grows with them.
#![tactic(auto)]

mod effects;
mod exchanges;
mod expected;
mod talkers;

pub use effects::{Effects, Progress, Stage, Told};
pub use exchanges::{Exchanges, Place, Tail};
pub use expected::{Expected, UnitFault};
pub use talkers::Talkers;
