ghost use Rattle.std.specs.Prelude.{◌≡◌, [], map};
ghost use Rattle.std.specs.List.{flat_map};
ghost use Rattle.il_ports.specs.Writing.{WritesAll};
ghost use Rattle.lif_model.specs.Causes.{HasCause};
ghost use Rattle.tape_incoming.specs.Incoming.{refused_file};
ghost use Rattle.tape_incoming.specs.Messages.{not_read_cause, not_stored_cause, refused_line, refused_lines};
ghost use Rattle.tape_volumes.specs.Endings.{told_line};
ghost use Rattle.tape_volumes.specs.Messages.{WritesMessage};

use crate::arriving::{NotStored, Refused};
use host_files::NotRead;
use il_ports::{Failed, Sink};
use tape_volumes::write_parts;

/// Why a file of the host was not read.
fn not_read_cause(why: NotRead) -> &'static [u8]
    ensures { result.now ≡ not_read_cause why }
{
    match why {
        NotRead::Missing => b"there is no such file",
        NotRead::NotAFile => b"it is no file",
        NotRead::NotLooked => b"it could not be found out what has that name",
        NotRead::NotOpened => b"it could not be opened",
        NotRead::TooLarge => b"it has more than 630784 bytes, the size of a disc",
        NotRead::Unread => b"it could not be read",
        NotRead::OutOfMemory => b"there is not enough memory",
    }
}

/// Why a file of the host is not stored.
fn not_stored_cause(why: NotStored) -> &'static [u8]
    ensures { result.now ≡ not_stored_cause why }
{
    match why {
        NotStored::NoHostName => {
            b"its name is not NAME.TYPE.FIELD, a NAME of one to ten bytes, four hex digits and eight"
        }
        NotStored::NoType => b"no file has the type 0000 or FFFF",
        NotStored::NoNewName => b"no file can be given that name; 'tape in --mend' mends it",
        NotStored::NotRead(why) => not_read_cause(why),
    }
}

/// Writes a path, and why its file is not stored.
fn write_line<E: Sink>(to: &mut E, path: &str, cause: &[u8]) -> Result<(), Failed>
    ensures parts { WritesAll (E.written to.old) (E.written to.new) (told_line path.now cause.now []) result }
    ensures cause { HasCause (E.faults to.old) (E.faults to.new) result }
{
    write_parts(to, &[b"tape: ", path.as_bytes(), b": ", cause, b"", b"\n"])
}

/// Writes the line of a file that is not stored.
fn write_one<E: Sink>(to: &mut E, file: &Refused<'_>) -> Result<(), Failed>
    ensures parts { WritesAll (E.written to.old) (E.written to.new) (refused_line (refused_file file.now)) result }
    ensures cause { HasCause (E.faults to.old) (E.faults to.new) result }
{
    write_line(to, file.path, not_stored_cause(file.why))
}

/// Writes one line for each file that is not stored.
fn write_lines<E: Sink>(to: &mut E, refused: &[Refused<'_>]) -> Result<(), Failed>
    ensures parts { WritesAll (E.written to.old) (E.written to.new)
        (flat_map (λ file. refused_line (refused_file file)) refused.now) result }
    ensures cause { HasCause (E.faults to.old) (E.faults to.new) result }
{
    'lines: for file in refused {
        write_one(to, file)?;
    }
    Ok(())
}

/// Writes one line for each file that is not stored. What standard error does not take is lost.
pub fn write_refused<E: Sink>(to: &mut E, refused: &[Refused<'_>])
    ensures { WritesMessage (refused_lines (map refused_file refused.now))
        (E.written to.old) (E.written to.new) (E.faults to.old) (E.faults to.new) }
{
    let _ = write_lines(to, refused);
}
