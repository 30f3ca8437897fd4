//! The jobs `put` and `set`, which store a text from standard input.
ghost use Rattle.std.specs.Prelude.{◌≡◌, ◌≤◌, Bool, true, length};
ghost use Rattle.il_script.specs.declared.limits.TheConstants.{LONGEST_PAYLOAD};
ghost use Rattle.lif_dir.specs.Batches.{parts_of};
ghost use Rattle.tape.specs.Images.{sight};
ghost use Rattle.tape.specs.Lent.{one_if};
ghost use Rattle.tape_arguments.specs.Names.{new_name_spelt};
ghost use Rattle.tape.specs.Texts.{FileIsPut, FileIsSet, StoresBytes, StoresText, input_of};
ghost use Rattle.tape_input.specs.Messages.{stored_line};
ghost use Rattle.tape_changes.specs.Replacing.{replacing_parts, store_change, text_kind};
ghost use Rattle.tape_drives.specs.Lending.{Uses};
ghost use Rattle.tape_volumes.specs.Changes.{IsFormedChange};
ghost use Rattle.tape_volumes.specs.Outputs.{written};

use crate::changes::change_image;
use crate::images::work_on_image;
use il_ports::{Medium, Sink, Source};
use lif_dir::{Batch, NewName};
use std::alloc::Global;
use tape_arguments::{new_name_spelt, refuse_new_name};
use tape_changes::{NewFile, Replacing, Stored, replacing_batch, store_step, write_replaced};
use tape_drives::Drives;
use tape_input::{read_text, stored_line, tell_no_text};
use tape_volumes::no_memory;

/// Stores a file, if there is none of its name, and says the exit status.
fn put_file<M: Medium + Drop, D: Drives<M>, K: Sink + Drop, E: Sink>(
    alloc: Global,
    drives: &mut D,
    image: &str,
    text: &str,
    file: &NewFile<'_>,
    line: &[u8],
    out: K,
    error: &mut E,
) -> (u8, K)
    requires back { (D.lent drives.old).all_back ≡ true }
    requires formed { IsFormedChange (store_change file.now) }
    ensures put { (quiet : Bool) → line.now ≡ stored_line quiet text.now
        → FileIsPut (sight M.view M.refuses (D.lent drives.old) (D.lent drives.new)) quiet image.now text.now file.now result.0
        (written (K.written out) (K.faults out) (E.written error.old) (E.faults error.old))
        (written (K.written result.1) (K.faults result.1) (E.written error.new) (E.faults error.new)) }
    ensures drives { Uses 1 (D.lent drives.old) (D.lent drives.new) }
{
    let step = store_step(file, text, line);
    change_image(alloc, drives, image, &[step], out, error)
}

/// Stores a file, in place of a text file of its name if there is one, and says the exit status.
fn set_file<M: Medium + Drop, D: Drives<M>, K: Sink + Drop, E: Sink>(
    alloc: Global,
    drives: &mut D,
    image: &str,
    text: &str,
    file: &NewFile<'_>,
    batch: &Batch,
    line: &[u8],
    out: K,
    error: &mut E,
) -> (u8, K)
    requires back { (D.lent drives.old).all_back ≡ true }
    requires formed { IsFormedChange (store_change file.now) }
    requires text { file.now.kind ≡ text_kind }
    requires parts { parts_of batch.now ≡ replacing_parts file.now }
    ensures set { (quiet : Bool) → line.now ≡ stored_line quiet text.now
        → FileIsSet (sight M.view M.refuses (D.lent drives.old) (D.lent drives.new)) quiet image.now text.now file.now result.0
        (written (K.written out) (K.faults out) (E.written error.old) (E.faults error.old))
        (written (K.written result.1) (K.faults result.1) (E.written error.new) (E.faults error.new)) }
    ensures drives { Uses 1 (D.lent drives.old) (D.lent drives.new) }
{
    let stored = Stored::Untried;
    let job = Replacing {
        file,
        batch,
        line,
        stored,
        out,
    };
    let (ending, job) = work_on_image(alloc, drives, image, job);
    write_replaced(error, image, text, ending, file, job.stored);
    (ending.status(), job.out)
}

/// Stores the bytes of a text file under that name, which the text spells, and says the exit status. If it is `over`, a
/// text file of that name is replaced.
fn store_bytes<M: Medium + Drop, D: Drives<M>, K: Sink + Drop, E: Sink>(
    alloc: Global,
    drives: &mut D,
    over: bool,
    quiet: bool,
    image: &str,
    text: &str,
    name: NewName,
    bytes: &[u8],
    out: K,
    error: &mut E,
) -> (u8, K)
    requires back { (D.lent drives.old).all_back ≡ true }
    requires fits { length bytes.now ≤ LONGEST_PAYLOAD }
    ensures stored { StoresBytes (sight M.view M.refuses (D.lent drives.old) (D.lent drives.new)) over quiet image.now text.now name bytes.now result.0
        (written (K.written out) (K.faults out) (E.written error.old) (E.faults error.old))
        (written (K.written result.1) (K.faults result.1) (E.written error.new) (E.faults error.new)) }
    ensures drives { Uses 1 (D.lent drives.old) (D.lent drives.new) }
{
    let file = NewFile::text(name, bytes);
    let Ok(line) = stored_line(alloc, quiet, text) else {
        return (no_memory(error), out);
    };
    if !over {
        return put_file(alloc, drives, image, text, &file, line.text(), out, error);
    }
    match replacing_batch(alloc, &file) {
        Ok(batch) => set_file(
            alloc,
            drives,
            image,
            text,
            &file,
            &batch,
            line.text(),
            out,
            error,
        ),
        Err(_) => (no_memory(error), out),
    }
}

/// Does the job `put`, or `set` if it is `over`, and says the exit status.
pub fn store_text<M: Medium + Drop, D: Drives<M>, S: Source, K: Sink + Drop, E: Sink>(
    alloc: Global,
    drives: &mut D,
    input: &mut S,
    over: bool,
    quiet: bool,
    image: &str,
    text: &str,
    out: K,
    error: &mut E,
) -> (u8, K)
    requires back { (D.lent drives.old).all_back ≡ true }
    ensures stored { StoresText (sight M.view M.refuses (D.lent drives.old) (D.lent drives.new)) over quiet image.now text.now
        (input_of (S.left input.old) (S.faults input.old)) (input_of (S.left input.new) (S.faults input.new)) result.0
        (written (K.written out) (K.faults out) (E.written error.old) (E.faults error.old))
        (written (K.written result.1) (K.faults result.1) (E.written error.new) (E.faults error.new)) }
    ensures drives { Uses (one_if (new_name_spelt text.now)) (D.lent drives.old) (D.lent drives.new) }
{
    let Some(name) = new_name_spelt(text) else {
        return (refuse_new_name(error, text), out);
    };
    match read_text(alloc, input) {
        Ok(read) => store_bytes(
            alloc,
            drives,
            over,
            quiet,
            image,
            text,
            name,
            read.bytes(),
            out,
            error,
        ),
        Err(why) => (tell_no_text(error, text, why), out),
    }
}
