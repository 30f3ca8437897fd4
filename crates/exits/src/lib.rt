//! How a process ends: its exit status, and the status if its arguments were not read.
#![tactic(auto)]

ghost use Rattle.std.specs.Prelude.{◌≡◌};
ghost use Rattle.std.specs.IoError.{error_kind};
ghost use Rattle.std.specs.Process.{exit_status};
ghost use Rattle.exits.specs.Statuses.{IsUnreadStatus};

use std::io::{self, ErrorKind};
use std::process::ExitCode;

/// The exit status if the arguments ask for nothing that the program does.
pub const BAD_WORDS: u8 = 2;

/// The exit status if there is no memory.
pub const OUT_OF_MEMORY: u8 = 7;

/// The exit status if the arguments were not read: for want of memory, or since one of them is not UTF-8.
pub fn unread_status(error: &io::Error) -> u8
    ensures { IsUnreadStatus (error_kind error.now) result }
{
    match error.kind() {
        ErrorKind::OutOfMemory => OUT_OF_MEMORY,
        _ => BAD_WORDS,
    }
}

/// How the process ends with that exit status.
pub fn exit(status: u8) -> ExitCode
    ensures { exit_status result ≡ status }
{
    ExitCode::from(status)
}
