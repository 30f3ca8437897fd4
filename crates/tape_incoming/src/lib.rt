//! Files of the host that are to be stored on an image: each is read whole, or refused with a message.
#![tactic(auto)]

mod arriving;
mod messages;

pub use arriving::{Arrived, NotStored, Refused, read_files};
pub use messages::write_refused;
