//! The jobs `free` and `map`.
ghost use Rattle.std.specs.Prelude.{◌≡◌, true};
ghost use Rattle.tape.specs.Images.{sight};
ghost use Rattle.tape_drives.specs.Lending.{Uses};
ghost use Rattle.tape_volumes.specs.Outputs.{written};
ghost use Rattle.tape.specs.Shown.{VolumeIsShown};

use crate::images::work_on_image;
use il_ports::{Medium, Sink};
use std::alloc::Global;
use tape_drives::Drives;
use tape_jobs::{Listing, Style};
use tape_volumes::end_on;

/// Prints the volume of the image of that name in this style, and says the exit status.
pub fn show_image<M: Medium + Drop, D: Drives<M>, K: Sink + Drop, E: Sink>(
    alloc: Global,
    drives: &mut D,
    style: Style<'_>,
    image: &str,
    out: K,
    error: &mut E,
) -> (u8, K)
    requires back { (D.lent drives.old).all_back ≡ true }
    ensures shown { VolumeIsShown (sight M.view M.refuses (D.lent drives.old) (D.lent drives.new)) style.entry image.now result.0
        (written (K.written out) (K.faults out) (E.written error.old) (E.faults error.old))
        (written (K.written result.1) (K.faults result.1) (E.written error.new) (E.faults error.new)) }
    ensures drives { Uses 1 (D.lent drives.old) (D.lent drives.new) }
{
    let all = false;
    let (ending, job) = work_on_image(alloc, drives, image, Listing { style, all, out });
    (end_on(error, image, ending), job.out)
}
