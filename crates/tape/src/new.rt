//! The job `new`.
ghost use Rattle.std.specs.Prelude.{◌≡◌, ◌≤◌, ◌<◌, [], true, length, map};
ghost use Rattle.std.specs.Vec.{vec_capacity};
ghost use Rattle.tape.specs.Lent.{both_arguments, one_if};
ghost use Rattle.tape.specs.New.{MakesBy, MakesImage, MakesOrNot, StaysIf, maker_sight};
ghost use Rattle.tape.specs.New.{not_made_cause, not_made_status, with_upgrade};
ghost use Rattle.tape_arguments.specs.Volumes.{label_spelt, slots_spelt};
ghost use Rattle.tape_changes.specs.Changing.{AreFormed, IsFormedStep, said};
ghost use Rattle.tape_drives.specs.Lending.{ComesBack, Uses};
ghost use Rattle.tape_drives.specs.Making.{MakesOn};
ghost use Rattle.tape_volumes.specs.Endings.{told_line};
ghost use Rattle.tape_volumes.specs.Messages.{WritesMessage};
ghost use Rattle.tape_volumes.specs.Outputs.{written};

use crate::images::{Returned, work_on_tape};
use exits::OUT_OF_MEMORY;
use il_ports::{Medium, Sink, Size};
use il_script::Reply;
use made_images::NotMade;
use std::alloc::Global;
use tape_arguments::{label_spelt, refuse_label, refuse_slots, slots_spelt};
use tape_changes::{Changing, Step, format_step, upgrade_step, write_changed};
use tape_drives::Makers;
use tape_volumes::{Ending, no_memory, write_cause};

/// The exit status if no image was made.
const NOT_DONE: u8 = 1;

/// Why no image was made.
fn not_made_cause(why: NotMade) -> &'static [u8]
    ensures { result.now ≡ not_made_cause why }
{
    match why {
        NotMade::Exists => b"there is something of that name already",
        NotMade::NotLooked => b"it could not be found out whether something has that name",
        NotMade::Failed => b"the image could not be made, and nothing of it is left",
        NotMade::Left =>
            b"the image could not be made, and something of that name may be there now",
        NotMade::OutOfMemory => b"there is not enough memory",
    }
}

/// Writes why no image was made, and says the exit status.
fn tell_not_made<E: Sink>(error: &mut E, image: &str, why: NotMade) -> u8
    ensures status { result ≡ not_made_status why }
    ensures says { WritesMessage (told_line image.now (not_made_cause why) [])
        (E.written error.old) (E.written error.new) (E.faults error.old) (E.faults error.new) }
{
    write_cause(error, image, not_made_cause(why));
    match why {
        NotMade::OutOfMemory => OUT_OF_MEMORY,
        _ => NOT_DONE,
    }
}

/// Gives a drive back with its image if all was done. Otherwise the image is removed, and a message says so if it was
/// not.
fn end_with<M: Medium + Drop, W: Makers<M>, E: Sink>(
    makers: &mut W,
    drive: M,
    is_done: bool,
    image: &str,
    error: &mut E,
)
    ensures stays { StaysIf is_done (W.making makers.new) drive image.now
        (E.written error.old) (E.written error.new) (E.faults error.old) (E.faults error.new) }
    ensures back { ComesBack (W.making makers.old).lending (W.making makers.new).lending drive }
    ensures goes_on { MakesOn (W.making makers.old) (W.making makers.new) }
{
    if is_done {
        makers.keep(drive);
    } else if !makers.remove(drive) {
        write_cause(
            error,
            image,
            b"the image was made, but not all was done, and it could not be removed",
        );
    }
}

/// Makes an image of that name and size, takes these steps on it, and says the exit status. The list of replies is empty,
/// with room for all.
fn make_image<M: Medium + Drop, W: Makers<M>, K: Sink + Drop, E: Sink>(
    alloc: Global,
    makers: &mut W,
    size: Size,
    image: &str,
    steps: &[Step<'_>],
    replies: Vec<Reply>,
    out: K,
    error: &mut E,
) -> (u8, K)
    requires back { (W.making makers.old).lending.all_back ≡ true }
    requires formed { AreFormed steps.now }
    requires some { 0 < length steps.now }
    requires empty { replies.items ≡ [] }
    requires room { length steps.now ≤ vec_capacity replies }
    ensures made { MakesOrNot (maker_sight M.view (W.making makers.old) (W.making makers.new)) image.now size steps.now result.0
        (written (K.written out) (K.faults out) (E.written error.old) (E.faults error.old))
        (written (K.written result.1) (K.faults result.1) (E.written error.new) (E.faults error.new)) }
    ensures drives { Uses 1 (W.making makers.old).lending (W.making makers.new).lending }
{
    let drive = match makers.make(alloc, image, size) {
        Ok(drive) => drive,
        Err(why) => return (tell_not_made(error, image, why), out),
    };
    let ends_early = true;
    let job = Changing {
        steps,
        ends_early,
        replies,
        out,
    };
    let (went, returned) = work_on_tape(alloc, drive, job);
    let Returned { medium, job } = returned;
    let ending = Ending::Went(went);
    write_changed(error, image, ending, steps, &job.replies);
    end_with(makers, medium, ending.is_done(), image, error);
    (ending.status(), job.out)
}

/// Makes an image of that name and size, takes these steps on it, and says the exit status.
fn make_by<M: Medium + Drop, W: Makers<M>, K: Sink + Drop, E: Sink>(
    alloc: Global,
    makers: &mut W,
    size: Size,
    image: &str,
    steps: &[Step<'_>],
    out: K,
    error: &mut E,
) -> (u8, K)
    requires back { (W.making makers.old).lending.all_back ≡ true }
    requires formed { AreFormed steps.now }
    requires some { 0 < length steps.now }
    ensures made { MakesBy (maker_sight M.view (W.making makers.old) (W.making makers.new)) image.now size (map said steps.now) result.0
        (written (K.written out) (K.faults out) (E.written error.old) (E.faults error.old))
        (written (K.written result.1) (K.faults result.1) (E.written error.new) (E.faults error.new)) }
    ensures drives { Uses 1 (W.making makers.old).lending (W.making makers.new).lending }
{
    match Vec::with_capacity(alloc, steps.len()) {
        Ok(replies) => make_image(alloc, makers, size, image, steps, replies, out, error),
        Err(_) => (no_memory(error), out),
    }
}

/// Makes an image with a volume of that label and number of slots, and says the exit status.
fn make_volume<M: Medium + Drop, W: Makers<M>, K: Sink + Drop, E: Sink>(
    alloc: Global,
    makers: &mut W,
    size: Size,
    image: &str,
    format: Step<'_>,
    small: bool,
    out: K,
    error: &mut E,
) -> (u8, K)
    requires back { (W.making makers.old).lending.all_back ≡ true }
    requires formed { IsFormedStep format }
    ensures made { MakesBy (maker_sight M.view (W.making makers.old) (W.making makers.new)) image.now size (with_upgrade small (said format.entry)) result.0
        (written (K.written out) (K.faults out) (E.written error.old) (E.faults error.old))
        (written (K.written result.1) (K.faults result.1) (E.written error.new) (E.faults error.new)) }
    ensures drives { Uses 1 (W.making makers.old).lending (W.making makers.new).lending }
{
    if small {
        return make_by(alloc, makers, size, image, &[format], out, error);
    }
    let steps = [format, upgrade_step()];
    make_by(alloc, makers, size, image, &steps, out, error)
}

/// Does the job `new`, and says the exit status.
pub fn new_image<M: Medium + Drop, W: Makers<M>, K: Sink + Drop, E: Sink>(
    alloc: Global,
    makers: &mut W,
    disc: bool,
    small: bool,
    image: &str,
    label_text: &str,
    slots_text: &str,
    out: K,
    error: &mut E,
) -> (u8, K)
    requires back { (W.making makers.old).lending.all_back ≡ true }
    ensures made { MakesImage (maker_sight M.view (W.making makers.old) (W.making makers.new)) disc small image.now label_text.now slots_text.now result.0
        (written (K.written out) (K.faults out) (E.written error.old) (E.faults error.old))
        (written (K.written result.1) (K.faults result.1) (E.written error.new) (E.faults error.new)) }
    ensures drives { Uses (one_if (both_arguments (label_spelt label_text.now) (slots_spelt slots_text.now))) (W.making makers.old).lending (W.making makers.new).lending }
{
    let Some(label) = label_spelt(label_text) else {
        return (refuse_label(error, label_text), out);
    };
    let Some(slots) = slots_spelt(slots_text) else {
        return (refuse_slots(error, slots_text), out);
    };
    let size = if disc { Size::Disc } else { Size::Tape };
    let format = format_step(label, slots, small);
    make_volume(alloc, makers, size, image, format, small, out, error)
}
