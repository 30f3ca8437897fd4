//! What a job that stores a text file writes on standard error.
ghost use Rattle.std.specs.Prelude.{◌≡◌, ◌<◌};
ghost use Rattle.il_ports.specs.Writing.{WritesAll};
ghost use Rattle.lif_model.specs.Causes.{HasCause};
ghost use Rattle.tape_changes.specs.ReplaceMessages.{kind_digit, kind_digits, other_type, replaced_message};
ghost use Rattle.tape_changes.specs.ReplaceMessages.{stored_message, unlisted_message};
ghost use Rattle.tape_changes.specs.Replacing.{text_kind};
ghost use Rattle.tape_volumes.specs.Messages.{WritesMessage};

use crate::change_messages::{write_change, write_told_of};
use crate::replacing::{NewFile, Stored};
use il_ports::{Failed, Sink};
use il_script::Reply;
use tape_volumes::{Ending, Went, write_ending_of};

/// A number below 16 as a hex digit, in upper case.
fn kind_digit(number: u16) -> u8
    requires { number < 16 }
    ensures { result ≡ kind_digit number }
{
    b"0123456789ABCDEF"[usize::from(number)]
}

/// A type in four hex digits, high byte first.
fn kind_digits(kind: u16) -> [u8; 4]
    ensures { result ≡ kind_digits kind }
{
    [
        kind_digit(kind / 4096),
        kind_digit(kind / 256 % 16),
        kind_digit(kind / 16 % 16),
        kind_digit(kind % 16),
    ]
}

/// That a file has this type, which is not that of a text.
fn other_type(kind: u16) -> [u8; 19]
    ensures { result ≡ other_type kind }
{
    let mut cause = *b"no text file (0000)";
    cause[14..18].copy_from_slice(&kind_digits(kind));
    cause
}

/// Writes why the directory was not listed.
fn write_unlisted<K: Sink>(to: &mut K, image: &str, reply: Reply) -> Result<(), Failed>
    ensures parts { WritesAll (K.written to.old) (K.written to.new) (unlisted_message image.now reply) result }
    ensures cause { HasCause (K.faults to.old) (K.faults to.new) result }
{
    let ending = match reply {
        Reply::Ok => return Ok(()),
        Reply::No(code) => Ending::Went(Went::Refused(code)),
        Reply::FaultFrame | Reply::FaultMedium => Ending::Went(Went::Fault),
    };
    write_ending_of(to, image, &ending)
}

/// Writes the message of the file, unless it was stored.
fn write_stored<K: Sink>(
    to: &mut K,
    image: &str,
    text: &str,
    file: &NewFile<'_>,
    stored: Stored,
) -> Result<(), Failed>
    requires text { file.now.kind ≡ text_kind }
    ensures parts { WritesAll (K.written to.old) (K.written to.new)
        (stored_message image.now text.now file.now stored) result }
    ensures cause { HasCause (K.faults to.old) (K.faults to.new) result }
{
    let name = text.as_bytes();
    match stored {
        Stored::Untried => Ok(()),
        Stored::Unlisted(reply) => write_unlisted(to, image, reply),
        Stored::OtherType(kind) => {
            write_told_of(to, image, name, &other_type(kind), b": purge it first")
        }
        Stored::Asked(reply) => write_change(to, image, name, &file.store(), Some(reply)),
    }
}

/// Writes the message of the job.
fn write_message_of<K: Sink>(
    to: &mut K,
    image: &str,
    text: &str,
    ending: Ending,
    file: &NewFile<'_>,
    stored: Stored,
) -> Result<(), Failed>
    requires text { file.now.kind ≡ text_kind }
    ensures parts { WritesAll (K.written to.old) (K.written to.new)
        (replaced_message image.now text.now ending file.now stored) result }
    ensures cause { HasCause (K.faults to.old) (K.faults to.new) result }
{
    match ending {
        Ending::Went(Went::Done | Went::NotAll) => { write_stored(to, image, text, file, stored) }
        _ => write_ending_of(to, image, &ending),
    }
}

/// Writes the message of a job that stores a text file, whose name is this text, unless all was done. It is lost if
/// standard error cannot be written.
pub fn write_replaced<K: Sink>(
    to: &mut K,
    image: &str,
    text: &str,
    ending: Ending,
    file: &NewFile<'_>,
    stored: Stored,
)
    requires text { file.now.kind ≡ text_kind }
    ensures { WritesMessage (replaced_message image.now text.now ending file.now stored)
        (K.written to.old) (K.written to.new) (K.faults to.old) (K.faults to.new) }
{
    let _ = write_message_of(to, image, text, ending, file, stored);
}
