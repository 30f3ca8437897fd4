//! The job `why`.
ghost use Rattle.std.specs.Prelude.{◌≡◌, ◌≤◌, true, length};
ghost use Rattle.lif_model.specs.Shelf.{largest_image};
ghost use Rattle.tape.specs.Images.{sight};
ghost use Rattle.tape_drives.specs.Lending.{Uses};
ghost use Rattle.tape_volumes.specs.Outputs.{written};
ghost use Rattle.tape.specs.Whys.{ImageIsExplained, TellsWhy};

use crate::whole::read_image;
use il_ports::{Medium, Sink};
use std::alloc::Global;
use tape_drives::Drives;
use tape_volumes::{end_on, no_memory, print};
use tape_why::{Explained, explain};

/// Prints why an image of these bytes can or cannot be listed and changed, and says the exit status.
fn tell_why<K: Sink, E: Sink>(alloc: Global, bytes: &[u8], out: &mut K, error: &mut E) -> u8
    requires fits { length bytes.now ≤ largest_image }
    ensures { TellsWhy bytes.now result
        (written (K.written out.old) (K.faults out.old) (E.written error.old) (E.faults error.old))
        (written (K.written out.new) (K.faults out.new) (E.written error.new) (E.faults error.new)) }
{
    match explain(alloc, bytes) {
        Ok(
            Explained {
                page,
                is_changeable,
            },
        ) => print(if is_changeable { 0 } else { 1 }, page.text(), out, error),
        Err(_) => no_memory(error),
    }
}

/// Does the job `why`, and says the exit status.
pub fn why_image<M: Medium + Drop, D: Drives<M>, K: Sink, E: Sink>(
    alloc: Global,
    readers: &mut D,
    image: &str,
    out: &mut K,
    error: &mut E,
) -> u8
    requires back { (D.lent readers.old).all_back ≡ true }
    ensures explained { ImageIsExplained (sight M.view M.refuses (D.lent readers.old) (D.lent readers.new)) image.now result
        (written (K.written out.old) (K.faults out.old) (E.written error.old) (E.faults error.old))
        (written (K.written out.new) (K.faults out.new) (E.written error.new) (E.faults error.new)) }
    ensures drives { Uses 1 (D.lent readers.old) (D.lent readers.new) }
{
    match read_image(alloc, readers, image) {
        Ok(bytes) => tell_why(alloc, &bytes, out, error),
        Err(ending) => end_on(error, image, ending),
    }
}
