ghost use Rattle.std.specs.Prelude.{◌≡◌, ◌≤◌};
ghost use Rattle.il_drive.specs.Faults.{status_of_fault};

/// What the drive does with the next data byte that it hears or is asked for.
#[derive(Clone, Copy, PartialEq, Eq, Debug)]
pub enum Mode {
    /// It hears no byte, and none is due.
    Rest,
    /// A byte goes into buffer 0.
    FillBuffer0,
    /// A byte goes into buffer 1.
    FillBuffer1,
    /// A byte becomes the pointer.
    SetPointer,
    /// A byte is the high byte of the record to seek.
    SeekHigh,
    /// A byte is the low byte of the record to seek; this is the high byte.
    SeekLow(u8),
    /// A byte goes into buffer 0, and each full buffer is put on the tape.
    Write,
    /// The bytes of buffer 0 are due.
    SendBuffer0,
    /// The bytes of buffer 1 are due.
    SendBuffer1,
    /// The bytes of the tape's records are due, one record after the other.
    Read,
    /// The high byte of the position is due, and then its low byte.
    PositionHigh,
    /// The low byte of the position is due.
    PositionLow,
}

/// By which start message the drive began to send.
#[derive(Clone, Copy, PartialEq, Eq, Debug)]
pub enum Start {
    /// SDA, send data.
    Data,
    /// SST, send status.
    Status,
    /// SAI, send accessory ID.
    Identity,
}

/// Why the drive could not do what was asked of it.
#[derive(Clone, Copy, PartialEq, Eq, Debug)]
pub enum Fault {
    /// The medium could not read the record.
    Unread,
    /// The medium could not write the record.
    Unwritten,
    /// The tape has no such record.
    NoRecord,
}

impl Fault {
    /// The status that tells it.
    pub fn status(self) -> u8
        ensures value { result ≡ status_of_fault self }
        ensures range { result ≤ 3 }
    {
        match self {
            Fault::Unread => 1,
            Fault::Unwritten => 2,
            Fault::NoRecord => 3,
        }
    }
}
