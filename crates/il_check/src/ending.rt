ghost use Rattle.std.specs.Prelude.{◌≡◌};

/// How a check ends.
#[derive(Clone, Copy, PartialEq, Eq, Debug)]
pub(crate) enum Ending {
    /// The trace and the tapes go together.
    Together,
    /// They do not.
    Differ,
    /// The words are not those of a check.
    BadWords,
    /// There is no image of that name.
    NoImage,
    /// The image has more bytes than a medium.
    ImageTooLarge,
    /// The trace could not be read.
    SourceFailed,
    /// The output could not be written.
    SinkFailed,
    /// There was no memory for the check. No byte of the trace was read.
    OutOfMemory,
    /// The trace has more bytes than a trace may have.
    TraceTooLong,
    /// The image could not be put into the drive.
    InsertFailed,
    /// A record could not be read. No byte of the trace was.
    ReadFailed,
}

impl Ending {
    ghost use Rattle.il_check.specs.Endings.{check_status};

    /// The exit status of the program, 0 to 10 in the order above.
    pub(crate) fn status(self) -> u8
        ensures { result ≡ check_status self }
    {
        match self {
            Ending::Together => 0,
            Ending::Differ => 1,
            Ending::BadWords => 2,
            Ending::NoImage => 3,
            Ending::ImageTooLarge => 4,
            Ending::SourceFailed => 5,
            Ending::SinkFailed => 6,
            Ending::OutOfMemory => 7,
            Ending::TraceTooLong => 8,
            Ending::InsertFailed => 9,
            Ending::ReadFailed => 10,
        }
    }
}
