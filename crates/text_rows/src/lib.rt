//! Tests of the script, of the words and of text files.
#![tactic(auto)]

#[cfg(test)]
mod commands;
#[cfg(test)]
mod pieces;
#[cfg(test)]
mod replies;
#[cfg(test)]
mod texts;
#[cfg(test)]
mod words;
