use lif_dir::{Batch, Name, NewLabel, NewName};

/// A change of a volume.
#[derive(Clone, Copy, Debug)]
pub enum Change<'a> {
    /// Makes a file.
    Store {
        /// The name of the file.
        name: NewName,
        /// Its type, neither 0 nor FFFF hex.
        kind: u16,
        /// Its implementation field, whose meaning depends on the type.
        field: [u8; 4],
        /// Its bytes, 630,784 at most.
        bytes: &'a [u8],
    },
    /// Gives a file another name.
    Rename {
        /// The name that it has.
        old: Name,
        /// The name that it gets.
        new: NewName,
    },
    /// Purges the file of that name.
    Purge(Name),
    /// Gives a volume of another program its redo file.
    Adopt,
    /// Makes the redo file one of version 2.
    Upgrade,
    /// Makes a new volume.
    Format {
        /// Its label.
        label: NewLabel,
        /// How many slots its directory has at least, from 1 on.
        slots: u16,
    },
    /// Makes the changes of a batch as one.
    Batch(&'a Batch),
}
