ghost use Rattle.std.specs.Prelude.{◌≡◌};
ghost use Rattle.il_drive.specs.Commands.{listener_command, talker_command};

/// What a DDL message asks of the drive while it listens. The names follow the HP 82161A Owner's
/// Manual; the numbers and effects are this project's own.
#[derive(Clone, Copy, PartialEq, Eq, Debug)]
pub enum ListenerCommand {
    /// DDL 0: the bytes that follow fill buffer 0.
    FillBuffer0,
    /// DDL 1: the bytes that follow fill buffer 1.
    FillBuffer1,
    /// DDL 2: the bytes that follow are written on the tape, record after record.
    Write,
    /// DDL 3: the next byte is the pointer.
    SetPointer,
    /// DDL 4: the next two bytes are the record to seek, high byte first.
    Seek,
    /// DDL 6: the record at the position is read, and the bytes that follow are written over it
    /// from the pointer on.
    PartialWrite,
    /// DDL 7: the position is record 0.
    Rewind,
    /// DDL 8: a record that has some of its bytes is put on the tape.
    CloseRecord,
    /// DDL 10: buffer 1 becomes a copy of buffer 0.
    CopyBuffer,
}

impl ListenerCommand {
    /// The command of DDL `number`, if the drive has it.
    pub fn of(number: u8) -> Option<ListenerCommand>
        ensures { result ≡ listener_command number }
    {
        match number {
            0 => Some(ListenerCommand::FillBuffer0),
            1 => Some(ListenerCommand::FillBuffer1),
            2 => Some(ListenerCommand::Write),
            3 => Some(ListenerCommand::SetPointer),
            4 => Some(ListenerCommand::Seek),
            6 => Some(ListenerCommand::PartialWrite),
            7 => Some(ListenerCommand::Rewind),
            8 => Some(ListenerCommand::CloseRecord),
            10 => Some(ListenerCommand::CopyBuffer),
            _ => None,
        }
    }
}

/// What a DDT message asks of the drive while it talks.
#[derive(Clone, Copy, PartialEq, Eq, Debug)]
pub enum TalkerCommand {
    /// DDT 0: the bytes of buffer 0 are due.
    SendBuffer0,
    /// DDT 1: the bytes of buffer 1 are due.
    SendBuffer1,
    /// DDT 2: the bytes of the tape's records are due, from the position on.
    Read,
    /// DDT 3: the two bytes of the position are due, high byte first.
    SendPosition,
    /// DDT 4: the two buffers are exchanged.
    ExchangeBuffers,
}

impl TalkerCommand {
    /// The command of DDT `number`, if the drive has it.
    pub fn of(number: u8) -> Option<TalkerCommand>
        ensures { result ≡ talker_command number }
    {
        match number {
            0 => Some(TalkerCommand::SendBuffer0),
            1 => Some(TalkerCommand::SendBuffer1),
            2 => Some(TalkerCommand::Read),
            3 => Some(TalkerCommand::SendPosition),
            4 => Some(TalkerCommand::ExchangeBuffers),
            _ => None,
        }
    }
}
