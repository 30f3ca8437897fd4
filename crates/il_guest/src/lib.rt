//! A second controller for the HP-IL loop. Until the host hands control to it by TCT it is a device like
//! every other; then it asks each address for its status, again and again, until an IFC comes.
#![tactic(auto)]

mod control;
mod guest;

pub use control::{Command, Control, Place};
pub use guest::{Guest, GuestOut};
