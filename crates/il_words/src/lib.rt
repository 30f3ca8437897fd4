//! The words of the command line: what they ask for, and when they are refused.
//!
//! The program takes
//! `il [--new] [--new-disc] [--quiet] [--guest] [--lose LIST] [--alter LIST] [--generate SEED:COUNT] IMAGE`.
//! [`read_words`] reads these words; the grammars of the values are this project's own.
#![tactic(auto)]

mod command;
mod faults;
mod generate;
mod halves;
mod plan;
mod words;

pub use generate::Generated;
pub use words::{Words, WordsFault, read_words};
