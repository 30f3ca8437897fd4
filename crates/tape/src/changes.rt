//! The jobs that change one image: `purge`, `rename`, `adopt` and `upgrade`.
ghost use Rattle.std.specs.Prelude.{◌≡◌, ◌≤◌, ◌<◌, [], true, length, map};
ghost use Rattle.std.specs.Vec.{vec_capacity};
ghost use Rattle.tape.specs.Changes.{AdoptsVolume, ChangesBy, ImageIsChanged, PurgesFiles, RenamesFile, UpgradesVolume};
ghost use Rattle.tape.specs.Images.{sight};
ghost use Rattle.tape_drives.specs.Lending.{Uses};
ghost use Rattle.tape.specs.Lent.{both_arguments, one_if};
ghost use Rattle.tape_arguments.specs.Names.{name_spelt, names_spelt, new_name_spelt};
ghost use Rattle.tape_changes.specs.Changing.{AreFormed, said};
ghost use Rattle.tape_changes.specs.Steps.{purges};
ghost use Rattle.tape_volumes.specs.Outputs.{written};

use crate::images::work_on_image;
use il_ports::{Medium, Sink};
use il_script::Reply;
use lif_dir::Name;
use std::alloc::Global;
use tape_arguments::{NoNames, name_spelt, names_spelt, new_name_spelt, refuse_new_name};
use tape_changes::{
    Changing, Step, adopt_step, purge_steps, rename_step, upgrade_step, write_changed,
};
use tape_drives::Drives;
use tape_volumes::{no_memory, refuse_name};

/// Makes the changes of these steps on the image of that name, and says the exit status. The list of replies is empty,
/// with room for all.
fn take_steps<M: Medium + Drop, D: Drives<M>, K: Sink + Drop, E: Sink>(
    alloc: Global,
    drives: &mut D,
    image: &str,
    steps: &[Step<'_>],
    replies: Vec<Reply>,
    out: K,
    error: &mut E,
) -> (u8, K)
    requires back { (D.lent drives.old).all_back ≡ true }
    requires formed { AreFormed steps.now }
    requires some { 0 < length steps.now }
    requires empty { replies.items ≡ [] }
    requires room { length steps.now ≤ vec_capacity replies }
    ensures changed { ImageIsChanged (sight M.view M.refuses (D.lent drives.old) (D.lent drives.new)) image.now steps.now result.0
        (written (K.written out) (K.faults out) (E.written error.old) (E.faults error.old))
        (written (K.written result.1) (K.faults result.1) (E.written error.new) (E.faults error.new)) }
    ensures drives { Uses 1 (D.lent drives.old) (D.lent drives.new) }
{
    let ends_early = false;
    let job = Changing {
        steps,
        ends_early,
        replies,
        out,
    };
    let (ending, job) = work_on_image(alloc, drives, image, job);
    write_changed(error, image, ending, steps, &job.replies);
    (ending.status(), job.out)
}

/// Makes the changes of these steps on the image of that name, and says the exit status.
pub(crate) fn change_image<M: Medium + Drop, D: Drives<M>, K: Sink + Drop, E: Sink>(
    alloc: Global,
    drives: &mut D,
    image: &str,
    steps: &[Step<'_>],
    out: K,
    error: &mut E,
) -> (u8, K)
    requires back { (D.lent drives.old).all_back ≡ true }
    requires formed { AreFormed steps.now }
    requires some { 0 < length steps.now }
    ensures changed { ChangesBy (sight M.view M.refuses (D.lent drives.old) (D.lent drives.new)) image.now (map said steps.now) result.0
        (written (K.written out) (K.faults out) (E.written error.old) (E.faults error.old))
        (written (K.written result.1) (K.faults result.1) (E.written error.new) (E.faults error.new)) }
    ensures drives { Uses 1 (D.lent drives.old) (D.lent drives.new) }
{
    match Vec::with_capacity(alloc, steps.len()) {
        Ok(replies) => take_steps(alloc, drives, image, steps, replies, out, error),
        Err(_) => (no_memory(error), out),
    }
}

/// Purges the files of these names, which the texts spell, and says the exit status.
fn purge_named<M: Medium + Drop, D: Drives<M>, K: Sink + Drop, E: Sink>(
    alloc: Global,
    drives: &mut D,
    image: &str,
    names: &[Name],
    texts: &[&str],
    out: K,
    error: &mut E,
) -> (u8, K)
    requires back { (D.lent drives.old).all_back ≡ true }
    requires each { length names.now ≡ length texts.now }
    requires some { 0 < length texts.now }
    ensures purged { ChangesBy (sight M.view M.refuses (D.lent drives.old) (D.lent drives.new)) image.now (purges names.now (map (λ text. text.now) texts.now)) result.0
        (written (K.written out) (K.faults out) (E.written error.old) (E.faults error.old))
        (written (K.written result.1) (K.faults result.1) (E.written error.new) (E.faults error.new)) }
    ensures drives { Uses 1 (D.lent drives.old) (D.lent drives.new) }
{
    match purge_steps(alloc, names, texts) {
        Ok(steps) => change_image(alloc, drives, image, &steps, out, error),
        Err(_) => (no_memory(error), out),
    }
}

/// Does the job `purge`, and says the exit status.
pub fn purge_files<M: Medium + Drop, D: Drives<M>, K: Sink + Drop, E: Sink>(
    alloc: Global,
    drives: &mut D,
    image: &str,
    texts: &[&str],
    out: K,
    error: &mut E,
) -> (u8, K)
    requires back { (D.lent drives.old).all_back ≡ true }
    ensures purged { PurgesFiles (sight M.view M.refuses (D.lent drives.old) (D.lent drives.new)) image.now (map (λ text. text.now) texts.now) result.0
        (written (K.written out) (K.faults out) (E.written error.old) (E.faults error.old))
        (written (K.written result.1) (K.faults result.1) (E.written error.new) (E.faults error.new)) }
    ensures drives { Uses (one_if (names_spelt (map (λ text. text.now) texts.now))) (D.lent drives.old) (D.lent drives.new) }
{
    if texts.is_empty() {
        return (0, out);
    }
    match names_spelt(alloc, texts) {
        Ok(names) => purge_named(alloc, drives, image, &names, texts, out, error),
        Err(NoNames::NoName(text)) => (refuse_name(error, text), out),
        Err(NoNames::OutOfMemory) => (no_memory(error), out),
    }
}

/// Does the job `rename`, and says the exit status.
pub fn rename_file<M: Medium + Drop, D: Drives<M>, K: Sink + Drop, E: Sink>(
    alloc: Global,
    drives: &mut D,
    image: &str,
    from: &str,
    to: &str,
    out: K,
    error: &mut E,
) -> (u8, K)
    requires back { (D.lent drives.old).all_back ≡ true }
    ensures renamed { RenamesFile (sight M.view M.refuses (D.lent drives.old) (D.lent drives.new)) image.now from.now to.now result.0
        (written (K.written out) (K.faults out) (E.written error.old) (E.faults error.old))
        (written (K.written result.1) (K.faults result.1) (E.written error.new) (E.faults error.new)) }
    ensures drives { Uses (one_if (both_arguments (name_spelt from.now) (new_name_spelt to.now))) (D.lent drives.old) (D.lent drives.new) }
{
    let Some(old) = name_spelt(from) else {
        return (refuse_name(error, from), out);
    };
    let Some(new) = new_name_spelt(to) else {
        return (refuse_new_name(error, to), out);
    };
    change_image(
        alloc,
        drives,
        image,
        &[rename_step(old, new, from)],
        out,
        error,
    )
}

/// Does the job `adopt`, and says the exit status.
pub fn adopt_volume<M: Medium + Drop, D: Drives<M>, K: Sink + Drop, E: Sink>(
    alloc: Global,
    drives: &mut D,
    image: &str,
    out: K,
    error: &mut E,
) -> (u8, K)
    requires back { (D.lent drives.old).all_back ≡ true }
    ensures adopted { AdoptsVolume (sight M.view M.refuses (D.lent drives.old) (D.lent drives.new)) image.now result.0
        (written (K.written out) (K.faults out) (E.written error.old) (E.faults error.old))
        (written (K.written result.1) (K.faults result.1) (E.written error.new) (E.faults error.new)) }
    ensures drives { Uses 1 (D.lent drives.old) (D.lent drives.new) }
{
    change_image(alloc, drives, image, &[adopt_step()], out, error)
}

/// Does the job `upgrade`, and says the exit status.
pub fn upgrade_volume<M: Medium + Drop, D: Drives<M>, K: Sink + Drop, E: Sink>(
    alloc: Global,
    drives: &mut D,
    image: &str,
    out: K,
    error: &mut E,
) -> (u8, K)
    requires back { (D.lent drives.old).all_back ≡ true }
    ensures upgraded { UpgradesVolume (sight M.view M.refuses (D.lent drives.old) (D.lent drives.new)) image.now result.0
        (written (K.written out) (K.faults out) (E.written error.old) (E.faults error.old))
        (written (K.written result.1) (K.faults result.1) (E.written error.new) (E.faults error.new)) }
    ensures drives { Uses 1 (D.lent drives.old) (D.lent drives.new) }
{
    change_image(alloc, drives, image, &[upgrade_step()], out, error)
}
