//! Devices of the HP-IL loop: their roles, what each does with a frame that comes to it, and plain
//! devices, of which two kinds are here: a printer, and one that only passes frames on.
#![tactic(auto)]

mod device;
mod interface;
mod plain;
mod printer;
mod quiet;
mod roles;

pub use device::{Device, Out};
pub use interface::{Interface, OwnFrame, Turn};
pub use plain::{Kind, Plain};
pub use printer::Printer;
pub use quiet::Quiet;
pub use roles::Roles;
