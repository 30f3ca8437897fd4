//! The HP-IL loop, simulated: the host at party 0, the cassette drive between other devices, faults
//! that are planned, and a log of every frame.
//!
//! One frame is on its way at a time. It goes over a link to party 1, from there to party 2, and
//! from the last device back to the host. Each crossing of a link is counted before the fault that
//! is planned at it acts.
//!
//! What a frame asks of a device is the HP-IL Interface Specification's (HP 82166-90017); plan,
//! count of crossings and log are this project's own.
#![tactic(auto)]

mod books;
mod flight;
mod last;
mod paper;
mod plan;
mod rig;
mod ring;
mod running;
mod walk;

pub use flight::Flight;
pub use plan::{Arrival, PlanFault, Planned, is_plan};
pub use rig::{Refused, Rig};
pub use ring::{Ring, Seen};
pub use running::Running;
