//! What is written if there is no text, and what is printed once one is stored.
ghost use Rattle.std.specs.Prelude.{◌≡◌, [], IfOk};
ghost use Rattle.il_ports.specs.Writing.{WritesAll};
ghost use Rattle.lif_model.specs.Causes.{HasCause};
ghost use Rattle.tape_input.specs.Messages.{long_line_text, no_text_line, no_text_status};
ghost use Rattle.tape_input.specs.Messages.{stored_line, too_large_line, unread_input_line};
ghost use Rattle.tape_volumes.specs.Endings.{told_line};
ghost use Rattle.tape_volumes.specs.Messages.{WritesMessage};

use crate::input::NoText;
use il_ports::{Failed, Sink};
use il_script::Page;
use itoa::Buffer;
use std::alloc::{AllocError, Global};
use tape_volumes::{no_memory, write_cause, write_message, write_parts};

/// The exit status if standard input could not be read.
const INPUT_LOST: u8 = 5;

/// The exit status if something was refused.
const REFUSED: u8 = 1;

/// Writes that standard input could not be read.
fn tell_unread<E: Sink>(to: &mut E)
    ensures { WritesMessage unread_input_line
        (E.written to.old) (E.written to.new) (E.faults to.old) (E.faults to.new) }
{
    write_message(to, "standard input could not be read");
}

/// Writes that a text is too large.
fn tell_too_large<E: Sink>(to: &mut E, name: &str)
    ensures { WritesMessage (too_large_line name.now)
        (E.written to.old) (E.written to.new) (E.faults to.old) (E.faults to.new) }
{
    write_cause(
        to,
        name,
        b"the text, or its file, has more than 630784 bytes, the size of a disc",
    );
}

/// Writes which line of a text is too long.
fn write_long_line<E: Sink>(to: &mut E, name: &str, number: usize) -> Result<(), Failed>
    ensures parts { WritesAll (E.written to.old) (E.written to.new)
        (told_line name.now (long_line_text number) []) result }
    ensures cause { HasCause (E.faults to.old) (E.faults to.new) result }
{
    let mut buffer = Buffer::new();
    let digits = buffer.format(number);
    write_parts(
        to,
        &[
            b"tape: ",
            name.as_bytes(),
            b": ",
            b"line ",
            digits.as_bytes(),
            b" has more than 32767 bytes",
            b"\n",
        ],
    )
}

/// Writes which line of a text is too long. It is lost if standard error cannot be written.
fn tell_long_line<E: Sink>(to: &mut E, name: &str, number: usize)
    ensures { WritesMessage (told_line name.now (long_line_text number) [])
        (E.written to.old) (E.written to.new) (E.faults to.old) (E.faults to.new) }
{
    let _ = write_long_line(to, name, number);
}

/// Writes why there is no text for the file of that name, and says the exit status: 5 if standard input could not be
/// read, 7 if there was no memory, and otherwise 1.
pub fn tell_no_text<E: Sink>(to: &mut E, name: &str, why: NoText) -> u8
    ensures status { result ≡ no_text_status why }
    ensures says { WritesMessage (no_text_line name.now why)
        (E.written to.old) (E.written to.new) (E.faults to.old) (E.faults to.new) }
{
    match why {
        NoText::Unread => {
            tell_unread(to);
            INPUT_LOST
        }
        NoText::TooLarge => {
            tell_too_large(to, name);
            REFUSED
        }
        NoText::LongLine(number) => {
            tell_long_line(to, name, number);
            REFUSED
        }
        NoText::OutOfMemory => no_memory(to),
    }
}

/// What is printed once a file is stored whose name is this text: the text as a line, unless the job is to be quiet.
pub fn stored_line(alloc: Global, quiet: bool, text: &str) -> Result<Page, AllocError>
    ensures { IfOk result (λ line. line.text ≡ stored_line quiet text.now) }
{
    let mut line = Page::new(alloc, text.len() + 1)?;
    if !quiet {
        line.put(text.as_bytes());
        line.put(b"\n");
    }
    Ok(line)
}
