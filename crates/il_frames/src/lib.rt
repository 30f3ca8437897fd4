//! Frames of the HP-IL loop: their numbers, their messages and their texts, and the entries of a
//! log of frames. Nothing here takes memory: texts are written into an `ArrayVec`.
#![tactic(auto)]

mod entry;
mod frame;
mod line;
mod message;
mod names;
mod text;

pub use entry::{Entry, Outcome};
pub use frame::{Class, Frame};
pub use message::Message;
