ghost use Rattle.std.specs.Prelude.{◌≡◌, ◌==◌, ◌||◌, ◌&&◌, if◌then◌else◌, true, length, map};
ghost use Rattle.tape.specs.Images.{sight};
ghost use Rattle.tape_volumes.specs.Endings.{is_last, is_done as done};
ghost use Rattle.tape_volumes.specs.Outputs.{written};
ghost use Rattle.tape_drives.specs.Lending.{Uses};
ghost use Rattle.tape.specs.Several.{DirDone, DirsEnd, ImageListed, IsStyleFor};

use crate::images::work_on_image;
use il_ports::{Medium, Sink, write_all};
use std::alloc::Global;
use tape_drives::Drives;
use tape_jobs::{Listing, Style};
use tape_text::first_csv_row;
use tape_volumes::{Ending, output_lost, write_ending};

/// How one of `count` images is listed.
fn style_for(csv: bool, count: usize, name: &str) -> Style<'_>
    ensures { IsStyleFor csv count name.entry.now result }
{
    if csv {
        Style::Rows(name)
    } else if count == 1 {
        Style::Columns(None)
    } else {
        Style::Columns(Some(name))
    }
}

/// Lists one of `count` images, and writes a message if that was not done.
fn dir_one<M: Medium + Drop, D: Drives<M>, K: Sink + Drop, E: Sink>(
    alloc: Global,
    drives: &mut D,
    csv: bool,
    count: usize,
    all: bool,
    name: &str,
    out: K,
    error: &mut E,
) -> (Ending, K)
    requires back { (D.lent drives.old).all_back ≡ true }
    ensures listed { ImageListed (sight M.view M.refuses (D.lent drives.old) (D.lent drives.new)) csv count all name.now result.0
        (written (K.written out) (K.faults out) (E.written error.old) (E.faults error.old))
        (written (K.written result.1) (K.faults result.1) (E.written error.new) (E.faults error.new)) }
    ensures drives { Uses 1 (D.lent drives.old) (D.lent drives.new) }
{
    let style = style_for(csv, count, name);
    let (ending, job) = work_on_image(alloc, drives, name, Listing { style, all, out });
    write_ending(error, name, ending);
    (ending, job.out)
}

/// Whether a job on `count` images ends with this ending.
fn ends_job(count: usize, ending: Ending) -> bool
    ensures { result ≡ (count == 1 || is_last ending) }
{
    count == 1 || ending.is_last()
}

/// Whether all was done, this too.
fn is_done_too(is_done: bool, ending: Ending) -> bool
    ensures { result ≡ (is_done && done ending) }
{
    is_done && ending.is_done()
}

/// The exit status of a job on several images, if no ending was the job's.
fn status_of_several(is_done: bool) -> u8
    ensures { result ≡ (if is_done then 0 else 1) }
{
    if is_done { 0 } else { 1 }
}

/// Lists images, one after the other. It ends at the first one at which standard output or memory is lost.
fn dir_each<M: Medium + Drop, D: Drives<M>, K: Sink + Drop, E: Sink>(
    alloc: Global,
    drives: &mut D,
    csv: bool,
    all: bool,
    names: &[&str],
    out: K,
    error: &mut E,
) -> (u8, K)
    requires back { (D.lent drives.old).all_back ≡ true }
    ensures listed { DirsEnd (sight M.view M.refuses (D.lent drives.old) (D.lent drives.new)) csv all (map (λ name. name.now) names.now) result.0
        (written (K.written out) (K.faults out) (E.written error.old) (E.faults error.old))
        (written (K.written result.1) (K.faults result.1) (E.written error.new) (E.faults error.new)) }
    ensures drives { Uses (length names.now) (D.lent drives.old) (D.lent drives.new) }
{
    let mut out = out;
    let mut is_done = true;
    'images: for name in names {
        let (ending, now) = dir_one(alloc, drives, csv, names.len(), all, name, out, error);
        out = now;
        if ends_job(names.len(), ending) {
            return (ending.status(), out);
        }
        is_done = is_done_too(is_done, ending);
    }
    (status_of_several(is_done), out)
}

/// Lists images in columns, or as rows of CSV after a first row of names.
pub fn dir_images<M: Medium + Drop, D: Drives<M>, K: Sink + Drop, E: Sink>(
    alloc: Global,
    drives: &mut D,
    csv: bool,
    all: bool,
    names: &[&str],
    out: K,
    error: &mut E,
) -> (u8, K)
    requires back { (D.lent drives.old).all_back ≡ true }
    ensures listed { DirDone (sight M.view M.refuses (D.lent drives.old) (D.lent drives.new)) csv all (map (λ name. name.now) names.now) result.0
        (written (K.written out) (K.faults out) (E.written error.old) (E.faults error.old))
        (written (K.written result.1) (K.faults result.1) (E.written error.new) (E.faults error.new)) }
    ensures drives { Uses (length names.now) (D.lent drives.old) (D.lent drives.new) }
{
    let mut out = out;
    if csv && write_all(&mut out, first_csv_row()).is_err() {
        return (output_lost(error), out);
    }
    dir_each(alloc, drives, csv, all, names, out, error)
}
