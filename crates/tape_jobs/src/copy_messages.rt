//! What the job `out` writes on standard error.
ghost use Rattle.std.specs.Prelude.{◌≡◌, ◌≤◌, OnOk};
ghost use Rattle.il_ports.specs.Writing.{WritesAll};
ghost use Rattle.std.specs.List.{flat_map};
ghost use Rattle.lif_model.specs.Causes.{HasCause};
ghost use Rattle.tape_jobs.specs.CopyMessages.{copy_message, copy_messages, end_advice, end_cause, end_message, ending_by};
ghost use Rattle.tape_volumes.specs.Messages.{WritesMessage};

use crate::copying::{FileEnd, Taken};
use il_ports::{Failed, Sink};
use il_script::Page;
use tape_folder::Kept;
use tape_volumes::{Ending, Went, write_ending_of, write_parts};

/// Writes the message of the ending, unless those of the files tell what was not done. It concerns the image, or the
/// folder of that path.
fn write_copy_ending<K: Sink>(
    to: &mut K,
    image: &str,
    path: &str,
    ending: Ending,
) -> Result<(), Failed>
    ensures parts { WritesAll (K.written to.old) (K.written to.new)
        (copy_message image.now path.now ending) result }
    ensures cause { HasCause (K.faults to.old) (K.faults to.new) result }
{
    match ending {
        Ending::Went(Went::Done | Went::NotAll) => Ok(()),
        Ending::Went(Went::FolderLost) => write_ending_of(to, path, &ending),
        _ => write_ending_of(to, image, &ending),
    }
}

/// How a job on that file ends, if the file was not read.
fn ending_by(end: FileEnd) -> Ending
    ensures { result ≡ ending_by end }
{
    match end {
        FileEnd::Refused(code) => Ending::Went(Went::Refused(code)),
        _ => Ending::Went(Went::Fault),
    }
}

/// Why a file was not copied, if `ending` is how a job on it ends.
fn end_cause(end: FileEnd, ending: &Ending) -> &[u8]
    requires { ending.now ≡ ending_by end }
    ensures { result.now ≡ end_cause end }
{
    match end {
        FileEnd::Kept(Kept::Differs) => b"the folder has something else of that name",
        FileEnd::Kept(_) => b"it could not be written to the folder",
        _ => ending.cause(),
    }
}

/// What that means.
fn end_advice(end: FileEnd, ending: &Ending) -> &[u8]
    requires { ending.now ≡ ending_by end }
    ensures { result.now ≡ end_advice end }
{
    match end {
        FileEnd::Kept(_) => b"",
        _ => ending.advice(),
    }
}

/// Writes the message of a file, if it was not copied.
fn write_end<K: Sink>(to: &mut K, image: &str, taken: Taken, line: &mut Page) -> Result<(), Failed>
    requires room { 30 ≤ line.old.room }
    ensures room { line.new.room ≡ line.old.room }
    ensures parts { WritesAll (K.written to.old) (K.written to.new)
        (end_message image.now taken) result }
    ensures cause { HasCause (K.faults to.old) (K.faults to.new) result }
{
    if taken.end.is_copied() {
        return Ok(());
    }
    line.clear();
    line.put_name(&taken.name.bytes());
    let ending = ending_by(taken.end);
    write_parts(
        to,
        &[
            b"tape: ",
            image.as_bytes(),
            b": ",
            line.text(),
            b": ",
            end_cause(taken.end, &ending),
            end_advice(taken.end, &ending),
            b"\n",
        ],
    )
}

/// Writes the messages of the files that were not copied.
fn write_ends<K: Sink>(
    to: &mut K,
    image: &str,
    ends: &[Taken],
    line: &mut Page,
) -> Result<(), Failed>
    requires room { 30 ≤ line.old.room }
    ensures parts { WritesAll (K.written to.old) (K.written to.new)
        (flat_map (end_message image.now) ends.now) result }
    ensures cause { HasCause (K.faults to.old) (K.faults to.new) result }
{
    'ends: for taken in ends {
        let taken = *taken;
        write_end(to, image, taken, line)?;
    }
    Ok(())
}

/// Writes all messages of the job.
fn write_all_of<K: Sink>(
    to: &mut K,
    image: &str,
    path: &str,
    ending: Ending,
    ends: &[Taken],
    line: &mut Page,
) -> Result<(), Failed>
    requires room { 30 ≤ line.old.room }
    ensures parts { WritesAll (K.written to.old) (K.written to.new)
        (copy_messages image.now path.now ending ends.now) result }
    ensures cause { HasCause (K.faults to.old) (K.faults to.new) result }
{
    write_copy_ending(to, image, path, ending)?;
    write_ends(to, image, ends, line)
}

/// Writes the messages of the job. They are lost if standard error cannot be written.
pub fn write_copied<K: Sink>(
    to: &mut K,
    image: &str,
    path: &str,
    ending: Ending,
    ends: &[Taken],
    line: &mut Page,
)
    requires room { 30 ≤ line.old.room }
    ensures { WritesMessage (copy_messages image.now path.now ending ends.now)
        (K.written to.old) (K.written to.new) (K.faults to.old) (K.faults to.new) }
{
    let _ = write_all_of(to, image, path, ending, ends, line);
}
