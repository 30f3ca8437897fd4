//! Images that are made for their drive: a new image, which is the tape of its drive until the drive is given up. The
//! program that made it may remove it again.
#![tactic(auto)]

mod made_image;
mod making;

pub use made_image::MadeImage;
pub use making::{NotMade, Refused};
