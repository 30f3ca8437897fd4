ghost use Rattle.std.specs.Prelude.{◌≡◌};

/// How a run ends.
#[derive(Clone, Copy, Debug, PartialEq, Eq)]
pub enum Ending {
    /// The script was read to its end, and every reply is ok.
    AllOk,
    /// The script was read to its end, and some reply is not ok.
    SomeNotOk,
    /// The words are not those of the program.
    BadWords,
    /// There is no image of that name.
    NoImage,
    /// The image has more bytes than a tape.
    ImageTooLarge,
    /// The script could not be read.
    SourceFailed,
    /// The output could not be written.
    SinkFailed,
    /// There was no memory for the host. No record was read.
    OutOfMemory,
    /// The script has more bytes than a script may have.
    ScriptTooLong,
    /// The image could not be put into the drive.
    InsertFailed,
}

impl Ending {
    ghost use Rattle.host_model.specs.Endings.{exit_status};
    ghost use Rattle.il_host.specs.Run.{end_of};

    /// The exit status of the program, 0 to 9 in the order above.
    pub fn status(self) -> u8
        ensures { result ≡ exit_status (end_of self) }
    {
        match self {
            Ending::AllOk => 0,
            Ending::SomeNotOk => 1,
            Ending::BadWords => 2,
            Ending::NoImage => 3,
            Ending::ImageTooLarge => 4,
            Ending::SourceFailed => 5,
            Ending::SinkFailed => 6,
            Ending::OutOfMemory => 7,
            Ending::ScriptTooLong => 8,
            Ending::InsertFailed => 9,
        }
    }
}
