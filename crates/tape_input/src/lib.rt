//! A text that the program `tape` reads from standard input, as the bytes of a text file.
#![tactic(auto)]

mod input;
mod messages;

pub use input::{NoText, read_text};
pub use messages::{stored_line, tell_no_text};
