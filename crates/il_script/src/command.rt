use lif_dir::{Name, NewLabel, NewName};
use thiserror::Error;

/// What a line of a script asks for. The bytes of `Store`, `Put` and `Say` stand in the [`Payload`](crate::Payload)
/// that the line was read with.
#[derive(Clone, Copy, Debug, PartialEq, Eq)]
pub enum Command {
    /// Lists the volume and its files.
    Dir,
    /// Tells the volume's label.
    Label,
    /// Tells the bytes of a file.
    Fetch(Name),
    /// Makes a file of the payload.
    Store {
        /// The name of the file.
        name: NewName,
        /// Its type, neither 0 nor FFFF hex.
        kind: u16,
        /// Its implementation field.
        implementation: [u8; 4],
    },
    /// Makes a text file of the payload, whose bytes 0A hex end its lines.
    Put(NewName),
    /// Tells the lines of a text file.
    Get(Name),
    /// Gives a file another name.
    Rename {
        /// The name that it has.
        old: Name,
        /// The name that it gets.
        new: NewName,
    },
    /// Purges a file.
    Purge(Name),
    /// Makes a new volume.
    Format {
        /// Its label.
        label: NewLabel,
        /// How many slots its directory has at least, 1 to [`MOST_SLOTS`](crate::MOST_SLOTS).
        slots: u16,
    },
    /// Gives a volume of another program its redo file.
    Adopt,
    /// Makes the redo file one of version 2.
    Upgrade,
    /// Moves files together, so that no gap is left between them.
    Pack,
    /// Begins a batch: the stores, renames and purges up to `Commit` are made as one.
    Begin,
    /// Ends a batch.
    Commit,
    /// Lists the devices on the loop.
    Devices,
    /// Tells the drive's status.
    Status,
    /// Tells the answer to a parallel poll.
    Poll,
    /// Sends the payload to a printer.
    Say,
    /// Tells what the printer has heard.
    Paper,
    /// Lends control of the loop to the last device, until so many frames have arrived at the host, 1 to
    /// [`MOST_FRAMES`](crate::MOST_FRAMES), and tells the status bytes that it has read.
    Lend(u16),
}

/// Why a line is no command.
#[derive(Clone, Copy, Debug, PartialEq, Eq, Drop, Error)]
pub enum LineFault {
    /// It is in none of the forms.
    #[error("BadLine")]
    BadLine,
    /// It is in one of the forms, with a name or a label that does not serve there.
    #[error("BadName")]
    BadName,
}
