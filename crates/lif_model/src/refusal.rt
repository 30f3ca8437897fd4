/// Why a command of a volume is refused. A refused command leaves the volume.
#[derive(Clone, Copy, Debug, PartialEq, Eq)]
pub enum Refusal {
    /// The tape is no legal LIF volume.
    NotLif,
    /// No file has the name.
    NoFile,
    /// A file has the new name.
    Exists,
    /// The directory has no slot for the file.
    NoSlot,
    /// No place has room for the file.
    NoRoom,
    /// The volume has no redo file.
    NoRedo,
    /// A file stands where the redo file is to be.
    InUse,
    /// The name is that of the redo file.
    Protected,
    /// The redo file is of version 1, and the command needs one of version 2.
    NeedsUpgrade,
    /// The files do not stand in the order of their slots.
    OutOfOrder,
}
