use crate::command::LineFault;
use lif_model::Refusal;

/// Why a line or a command is refused. The numbers are 1 to 17 in this order.
#[derive(Clone, Copy, Debug, PartialEq, Eq)]
pub enum Code {
    /// The line is in none of the forms.
    BadLine,
    /// The line has more bytes than a line may have.
    LineTooLong,
    /// The tape holds no LIF volume that can be read.
    NotLif,
    /// No file has the name.
    NoFile,
    /// A file has the new name.
    Exists,
    /// The directory has no slot for the file.
    NoSlot,
    /// There is no room for the file or for the volume.
    NoRoom,
    /// The volume has no redo file.
    NoRedo,
    /// A name or a label of the line does not serve.
    BadName,
    /// Files stand in the records that the redo file is to have.
    InUse,
    /// The name is that of the redo file.
    Protected,
    /// There is no printer on the loop.
    NoPrinter,
    /// A batch has more parts or more bytes than a batch may have.
    BatchTooLarge,
    /// The redo file is of version 1, and the command needs one of version 2.
    NeedsUpgrade,
    /// The files do not stand in the order of their slots.
    OutOfOrder,
    /// A file is no text, or a line of it is too long.
    NotText,
    /// No device on the loop takes control over.
    NoTaker,
}

/// How a line or a command went.
#[derive(Clone, Copy, Debug, PartialEq, Eq)]
pub enum Reply {
    /// It was carried out.
    Ok,
    /// It was refused.
    No(Code),
    /// A frame was lost or altered on the loop.
    FaultFrame,
    /// The medium failed.
    FaultMedium,
}

impl Code {
    ghost use Rattle.std.specs.Prelude.{◌≡◌, ◌≤◌, length};
    ghost use Rattle.il_script.specs.Replies.{error_line, fault_code};

    /// The line of a reply that tells this code by its number and name, with its line feed.
    pub fn line(self) -> &'static [u8]
        ensures text { result.now ≡ error_line self }
        ensures size { length result.now ≤ 23 }
    {
        match self {
            Code::BadLine => b"error 1 BadLine\n",
            Code::LineTooLong => b"error 2 LineTooLong\n",
            Code::NotLif => b"error 3 NotLif\n",
            Code::NoFile => b"error 4 NoFile\n",
            Code::Exists => b"error 5 Exists\n",
            Code::NoSlot => b"error 6 NoSlot\n",
            Code::NoRoom => b"error 7 NoRoom\n",
            Code::NoRedo => b"error 8 NoRedo\n",
            Code::BadName => b"error 9 BadName\n",
            Code::InUse => b"error 10 InUse\n",
            Code::Protected => b"error 11 Protected\n",
            Code::NoPrinter => b"error 12 NoPrinter\n",
            Code::BatchTooLarge => b"error 13 BatchTooLarge\n",
            Code::NeedsUpgrade => b"error 14 NeedsUpgrade\n",
            Code::OutOfOrder => b"error 15 OutOfOrder\n",
            Code::NotText => b"error 16 NotText\n",
            Code::NoTaker => b"error 17 NoTaker\n",
        }
    }
}

impl From<LineFault> for Code {
    ghost use Rattle.std.specs.Prelude.{◌≡◌};
    ghost use Rattle.il_script.specs.Replies.{fault_code};

    ghost from_gives = { λ fault code. code ≡ fault_code fault };

    fn from(fault: LineFault) -> Code {
        match fault {
            LineFault::BadLine => Code::BadLine,
            LineFault::BadName => Code::BadName,
        }
    }
}

impl From<Refusal> for Code {
    ghost use Rattle.std.specs.Prelude.{◌≡◌};
    ghost use Rattle.il_script.specs.Replies.{code_of};

    ghost from_gives = { λ refusal code. code ≡ code_of refusal };

    fn from(refusal: Refusal) -> Code {
        match refusal {
            Refusal::NotLif => Code::NotLif,
            Refusal::NoFile => Code::NoFile,
            Refusal::Exists => Code::Exists,
            Refusal::NoSlot => Code::NoSlot,
            Refusal::NoRoom => Code::NoRoom,
            Refusal::NoRedo => Code::NoRedo,
            Refusal::InUse => Code::InUse,
            Refusal::Protected => Code::Protected,
            Refusal::NeedsUpgrade => Code::NeedsUpgrade,
            Refusal::OutOfOrder => Code::OutOfOrder,
        }
    }
}

impl Reply {
    ghost use Rattle.std.specs.Prelude.{◌≡◌, ◌≤◌, length};
    ghost use Rattle.il_script.specs.Replies.{reply_line, is_ok};

    /// The last line of the reply's text, with its line feed.
    pub fn last_line(self) -> &'static [u8]
        ensures text { result.now ≡ reply_line self }
        ensures size { length result.now ≤ 23 }
    {
        match self {
            Reply::Ok => b"ok\n",
            Reply::No(code) => code.line(),
            Reply::FaultFrame => b"fault frame\n",
            Reply::FaultMedium => b"fault medium\n",
        }
    }

    /// Whether it was carried out.
    pub fn is_ok(self) -> bool
        ensures { result ≡ is_ok self }
    {
        self == Reply::Ok
    }
}
