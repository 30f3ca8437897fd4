//! The script: its lines, the commands that they ask for, and the texts of the replies.
#![tactic(auto)]

mod command;
mod digits;
mod limits;
mod lines;
mod page;
mod payload;
mod reading;
mod reply;
mod spelling;
mod words;

pub use command::{Command, LineFault};
pub use digits::{read_byte, read_hex, read_number};
pub use limits::{
    KEPT_OF_LINE, LONGEST_LINE, LONGEST_PAYLOAD, LONGEST_SCRIPT, MOST_FRAMES, MOST_SLOTS,
};
pub use lines::{Line, Lines};
pub use page::Page;
pub use payload::Payload;
pub use reading::read_line;
pub use reply::{Code, Reply};
pub use spelling::spelt_name;
