//! What a job that changes an image writes on standard error.
ghost use Rattle.std.specs.Prelude.{◌≡◌, OnOk};
ghost use Rattle.il_ports.specs.Writing.{WritesAll};
ghost use Rattle.lif_model.specs.Causes.{HasCause};
ghost use Rattle.tape_changes.specs.ChangeMessages.{change_advice, change_message, change_messages, step_messages};
ghost use Rattle.tape_volumes.specs.Endings.{of_image, told_line};
ghost use Rattle.tape_volumes.specs.Messages.{WritesMessage};

use crate::changing::Step;
use il_ports::{Failed, Sink};
use il_script::{Code, Reply};
use tape_volumes::{Change, Ending, Went, write_ending_of, write_parts};

/// What an error of the volume means for a change, and what to do about it, after a colon.
fn change_advice(change: &Change<'_>, code: Code) -> &'static [u8]
    ensures { result.now ≡ change_advice change.now code }
{
    match (change, code) {
        (_, Code::NotLif) =>
            b": the image has no LIF volume that can be read; 'tape why IMAGE' tells why",
        (_, Code::NoFile) => b": there is no file of that name",
        (Change::Adopt, Code::Exists) =>
            b": there is a file REDOFILE, which is no redo file at its place",
        (Change::Rename { .. }, Code::Exists) => b": there is a file of the new name already",
        (_, Code::Exists) => b": there is a file of that name already",
        (_, Code::NoSlot) => b": the directory has no free slot",
        (Change::Format { .. }, Code::NoRoom) => b": the medium has no room for that many slots",
        (_, Code::NoRoom) => b": no free place is large enough",
        (_, Code::NoRedo) => b": the volume has no redo file; 'tape adopt IMAGE' makes one",
        (Change::Upgrade, Code::InUse) => {
            b": a file or the directory lies in the records that the redo file needs"
        }
        (_, Code::InUse) => b": a file lies in the records that the redo file needs",
        (Change::Rename { .. }, Code::Protected) => b": REDOFILE is the name of the redo file",
        (_, Code::Protected) => b": it is the redo file",
        (_, Code::NeedsUpgrade) => b": run 'tape upgrade IMAGE' first; that takes 30 records",
        _ => b"",
    }
}

/// Writes why a change that concerns this subject was not made, and what that means.
pub(crate) fn write_told_of<K: Sink>(
    to: &mut K,
    image: &str,
    subject: &[u8],
    cause: &[u8],
    advice: &[u8],
) -> Result<(), Failed>
    ensures parts { WritesAll (K.written to.old) (K.written to.new)
        (told_line (of_image image.now subject.now) cause.now advice.now) result }
    ensures cause { HasCause (K.faults to.old) (K.faults to.new) result }
{
    write_parts(
        to,
        &[
            b"tape: ",
            image.as_bytes(),
            b": ",
            subject,
            b": ",
            cause,
            advice,
            b"\n",
        ],
    )
}

/// Writes the message of a change that concerns this subject, unless it was made. One without a reply was not tried.
pub(crate) fn write_change<K: Sink>(
    to: &mut K,
    image: &str,
    subject: &[u8],
    change: &Change<'_>,
    reply: Option<Reply>,
) -> Result<(), Failed>
    ensures parts { WritesAll (K.written to.old) (K.written to.new)
        (change_message image.now subject.now change.now reply) result }
    ensures cause { HasCause (K.faults to.old) (K.faults to.new) result }
{
    match reply {
        Some(Reply::Ok) => Ok(()),
        Some(Reply::No(code)) => {
            let refused = Ending::Went(Went::Refused(code));
            let advice = change_advice(change, code);
            write_told_of(to, image, subject, refused.cause(), advice)
        }
        Some(Reply::FaultFrame | Reply::FaultMedium) => {
            let fault = Ending::Went(Went::Fault);
            write_told_of(to, image, subject, fault.cause(), b"")
        }
        None => write_told_of(to, image, subject, b"it was not tried", b""),
    }
}

/// Writes the messages of the steps whose changes were not made.
fn write_steps<K: Sink>(
    to: &mut K,
    image: &str,
    steps: &[Step<'_>],
    replies: &[Reply],
) -> Result<(), Failed>
    ensures parts { WritesAll (K.written to.old) (K.written to.new)
        (step_messages image.now steps.now replies.now) result }
    ensures cause { HasCause (K.faults to.old) (K.faults to.new) result }
{
    'steps: for place in 0..steps.len() {
        let step = &steps[place];
        let reply = replies.get(place).copied();
        write_change(to, image, step.subject, &step.change, reply)?;
    }
    Ok(())
}

/// Writes all messages of the job.
fn write_all_of<K: Sink>(
    to: &mut K,
    image: &str,
    ending: Ending,
    steps: &[Step<'_>],
    replies: &[Reply],
) -> Result<(), Failed>
    ensures parts { WritesAll (K.written to.old) (K.written to.new)
        (change_messages image.now ending steps.now replies.now) result }
    ensures cause { HasCause (K.faults to.old) (K.faults to.new) result }
{
    match ending {
        Ending::Went(Went::Done | Went::NotAll) => write_steps(to, image, steps, replies),
        Ending::Went(Went::Unwritten) => {
            write_ending_of(to, image, &ending)?;
            write_steps(to, image, steps, replies)
        }
        _ => write_ending_of(to, image, &ending),
    }
}

/// Writes the messages of the job. They are lost if standard error cannot be written.
pub fn write_changed<K: Sink>(
    to: &mut K,
    image: &str,
    ending: Ending,
    steps: &[Step<'_>],
    replies: &[Reply],
)
    ensures { WritesMessage (change_messages image.now ending steps.now replies.now)
        (K.written to.old) (K.written to.new) (K.faults to.old) (K.faults to.new) }
{
    let _ = write_all_of(to, image, ending, steps, replies);
}
