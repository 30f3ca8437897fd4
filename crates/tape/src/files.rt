ghost use Rattle.std.specs.Prelude.{true, ◌≡◌};
ghost use Rattle.tape.specs.Images.{sight};
ghost use Rattle.tape_drives.specs.Lending.{Uses};
ghost use Rattle.tape.specs.Lent.{one_if};
ghost use Rattle.tape.specs.Files.{FileIsRead, ReadsNamedFile};
ghost use Rattle.tape_arguments.specs.Names.{name_spelt};
ghost use Rattle.tape_jobs.specs.Reading.{HasRoomForFile};
ghost use Rattle.tape_volumes.specs.Outputs.{written};

use crate::images::work_on_image;
use il_ports::{Medium, Sink};
use il_script::Page;
use lif_dir::Name;
use std::alloc::Global;
use tape_arguments::name_spelt;
use tape_drives::Drives;
use tape_jobs::{Part, Reading, page_for_file};
use tape_volumes::{no_memory, refuse_name, write_file_ending};

/// Reads the file of an image whose name a text spells, and says the exit status.
fn read_named<M: Medium + Drop, D: Drives<M>, K: Sink + Drop, E: Sink>(
    alloc: Global,
    drives: &mut D,
    part: Part,
    image: &str,
    file: &Name,
    text: &str,
    page: Page,
    out: K,
    error: &mut E,
) -> (u8, K)
    requires back { (D.lent drives.old).all_back ≡ true }
    requires page { HasRoomForFile page }
    ensures read { FileIsRead (sight M.view M.refuses (D.lent drives.old) (D.lent drives.new)) part image.now file.now text.now result.0
        (written (K.written out) (K.faults out) (E.written error.old) (E.faults error.old))
        (written (K.written result.1) (K.faults result.1) (E.written error.new) (E.faults error.new)) }
    ensures drives { Uses 1 (D.lent drives.old) (D.lent drives.new) }
{
    let name = file;
    let job = Reading {
        part,
        name,
        page,
        out,
    };
    let (ending, job) = work_on_image(alloc, drives, image, job);
    write_file_ending(error, image, text, ending);
    (ending.status(), job.out)
}

/// Does the job `get` or `raw`, and says the exit status.
pub fn read_file<M: Medium + Drop, D: Drives<M>, K: Sink + Drop, E: Sink>(
    alloc: Global,
    drives: &mut D,
    part: Part,
    image: &str,
    text: &str,
    out: K,
    error: &mut E,
) -> (u8, K)
    requires back { (D.lent drives.old).all_back ≡ true }
    ensures read { ReadsNamedFile (sight M.view M.refuses (D.lent drives.old) (D.lent drives.new)) part image.now (name_spelt text.now) text.now result.0
        (written (K.written out) (K.faults out) (E.written error.old) (E.faults error.old))
        (written (K.written result.1) (K.faults result.1) (E.written error.new) (E.faults error.new)) }
    ensures drives { Uses (one_if (name_spelt text.now)) (D.lent drives.old) (D.lent drives.new) }
{
    let Some(file) = name_spelt(text) else {
        return (refuse_name(error, text), out);
    };
    match page_for_file(alloc) {
        Ok(page) => read_named(alloc, drives, part, image, &file, text, page, out, error),
        Err(_) => (no_memory(error), out),
    }
}
