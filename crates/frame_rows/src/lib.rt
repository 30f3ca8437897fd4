//! Tests of frames, places in a poll, devices and the second controller, by their public calls.
#![tactic(auto)]

#[cfg(test)]
mod devices;
#[cfg(test)]
mod frames;
#[cfg(test)]
mod guests;
#[cfg(test)]
mod polls;
#[cfg(test)]
mod texts;
