ghost use Rattle.std.specs.Prelude.{◌≡◌, [], OnOk};
ghost use Rattle.il_ports.specs.Writing.{WritesAll};
ghost use Rattle.std.specs.List.{flat_map};
ghost use Rattle.lif_model.specs.Causes.{HasCause};
ghost use Rattle.tape_volumes.specs.Messages.{WritesMessage, WritesEnding, WritesFileEnding, program_line};
ghost use Rattle.tape_volumes.specs.Messages.{memory_line, no_name_line, output_line};
ghost use Rattle.tape_volumes.specs.Endings.{ending_message, ending_status, file_message, told_line};

use crate::ending::Ending;
use exits::{BAD_WORDS, OUT_OF_MEMORY};
use il_ports::{Failed, Sink, write_all};

/// The exit status if standard output could not be written.
const OUTPUT_LOST: u8 = 6;

/// Writes these texts, one after the other.
pub fn write_parts<K: Sink>(to: &mut K, parts: &[&[u8]]) -> Result<(), Failed>
    ensures parts { WritesAll (K.written to.old) (K.written to.new)
        (flat_map (λ part. part.now) parts.now) result }
    ensures cause { HasCause (K.faults to.old) (K.faults to.new) result }
{
    'parts: for part in parts {
        write_all(to, part)?;
    }
    Ok(())
}

/// Writes a text to standard error. It is lost if standard error cannot be written.
pub fn write_text<K: Sink>(to: &mut K, text: &str)
    ensures { WritesMessage text.now
        (K.written to.old) (K.written to.new) (K.faults to.old) (K.faults to.new) }
{
    let _ = write_all(to, text.as_bytes());
}

/// Writes a line of the program's own, after its name. It is lost if standard error cannot be written.
pub fn write_message<K: Sink>(to: &mut K, text: &str)
    ensures { WritesMessage (program_line text.now)
        (K.written to.old) (K.written to.new) (K.faults to.old) (K.faults to.new) }
{
    let _ = write_parts(to, &[b"tape: ", text.as_bytes(), b"\n"]);
}

/// Writes that standard output could not be written, and says the exit status.
pub fn output_lost<K: Sink>(to: &mut K) -> u8
    ensures status { result ≡ 6 }
    ensures says { WritesMessage output_line
        (K.written to.old) (K.written to.new) (K.faults to.old) (K.faults to.new) }
{
    write_message(to, "standard output could not be written");
    OUTPUT_LOST
}

/// Writes that there is no memory, and says the exit status.
pub fn no_memory<K: Sink>(to: &mut K) -> u8
    ensures status { result ≡ 7 }
    ensures says { WritesMessage memory_line
        (K.written to.old) (K.written to.new) (K.faults to.old) (K.faults to.new) }
{
    write_message(to, "there is not enough memory");
    OUT_OF_MEMORY
}

/// Writes what a message concerns, why something was not done, and what that means.
fn write_told<K: Sink>(to: &mut K, subject: &str, cause: &[u8], advice: &[u8]) -> Result<(), Failed>
    ensures parts { WritesAll (K.written to.old) (K.written to.new)
        (told_line subject.now cause.now advice.now) result }
    ensures cause { HasCause (K.faults to.old) (K.faults to.new) result }
{
    write_parts(
        to,
        &[b"tape: ", subject.as_bytes(), b": ", cause, advice, b"\n"],
    )
}

/// Writes the message of an ending that concerns this.
pub fn write_ending_of<K: Sink>(to: &mut K, subject: &str, ending: &Ending) -> Result<(), Failed>
    ensures parts { WritesAll (K.written to.old) (K.written to.new)
        (ending_message subject.now ending.now) result }
    ensures cause { HasCause (K.faults to.old) (K.faults to.new) result }
{
    write_told(to, subject, ending.cause(), ending.advice())
}

/// Writes the message of a job on the image of that name, unless all was done.
pub fn write_ending<K: Sink>(to: &mut K, name: &str, ending: Ending)
    ensures { WritesEnding name.now ending (K.written to.old) (K.written to.new) (K.faults to.old) (K.faults to.new) }
{
    if ending.is_done() {
        return;
    }
    let _ = write_ending_of(to, name, &ending);
}

/// Writes the message of a job on the image of that name, unless all was done, and says the exit status.
pub fn end_on<K: Sink>(to: &mut K, name: &str, ending: Ending) -> u8
    ensures status { result ≡ ending_status ending }
    ensures says { WritesEnding name.now ending
        (K.written to.old) (K.written to.new) (K.faults to.old) (K.faults to.new) }
{
    write_ending(to, name, ending);
    ending.status()
}

/// Writes the message of a job on one file of an image.
fn write_of_file<K: Sink>(to: &mut K, image: &str, file: &str, ending: Ending)
    ensures { WritesMessage (file_message image.now file.now ending)
        (K.written to.old) (K.written to.new) (K.faults to.old) (K.faults to.new) }
{
    let _ = write_parts(
        to,
        &[
            b"tape: ",
            image.as_bytes(),
            b": ",
            file.as_bytes(),
            b": ",
            ending.cause(),
            ending.advice(),
            b"\n",
        ],
    );
}

/// Writes the message of a job on one file of an image, unless all was done. It names the file if the ending concerns the file.
pub fn write_file_ending<K: Sink>(to: &mut K, image: &str, file: &str, ending: Ending)
    ensures { WritesFileEnding image.now file.now ending
        (K.written to.old) (K.written to.new) (K.faults to.old) (K.faults to.new) }
{
    if ending.is_of_file() {
        write_of_file(to, image, file, ending);
    } else {
        write_ending(to, image, ending);
    }
}

/// Writes why something was not done, and what that concerns. It is lost if standard error cannot be written.
pub fn write_cause<K: Sink>(to: &mut K, subject: &str, cause: &[u8])
    ensures { WritesMessage (told_line subject.now cause.now [])
        (K.written to.old) (K.written to.new) (K.faults to.old) (K.faults to.new) }
{
    let _ = write_told(to, subject, cause, b"");
}

/// Writes why an argument is refused, and says the exit status.
pub fn refuse_text<K: Sink>(to: &mut K, text: &str, cause: &[u8]) -> u8
    ensures status { result ≡ 2 }
    ensures says { WritesMessage (told_line text.now cause.now [])
        (K.written to.old) (K.written to.new) (K.faults to.old) (K.faults to.new) }
{
    write_cause(to, text, cause);
    BAD_WORDS
}

/// Writes that a text spells the name of no file, and says the exit status.
pub fn refuse_name<K: Sink>(to: &mut K, text: &str) -> u8
    ensures status { result ≡ 2 }
    ensures says { WritesMessage (no_name_line text.now)
        (K.written to.old) (K.written to.new) (K.faults to.old) (K.faults to.new) }
{
    refuse_text(
        to,
        text,
        b"a file has a name of one to ten bytes, of which %HH spells one",
    )
}
