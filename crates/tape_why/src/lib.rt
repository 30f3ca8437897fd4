//! Why the volume of an image can or cannot be listed and changed.
#![tactic(auto)]

mod causes;
mod defects;
mod explaining;
mod image;
mod listed;
mod memory;

pub use explaining::{Explained, explain};
