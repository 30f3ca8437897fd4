//! The job `in`, which stores files of the host.
ghost use Rattle.std.specs.Prelude.{◌≡◌, true, All, map};
ghost use Rattle.tape.specs.Images.{sight};
ghost use Rattle.tape.specs.Incoming.{StoresFiles, TakesFiles, host_sight, status_with};
ghost use Rattle.tape_changes.specs.Storing.{IsStorable};
ghost use Rattle.tape_drives.specs.Lending.{Uses};
ghost use Rattle.tape_incoming.specs.Incoming.{refused_file};
ghost use Rattle.tape_volumes.specs.Outputs.{written};

use crate::changes::change_image;
use il_ports::{Images, Medium, Sink, TapeFile};
use std::alloc::Global;
use tape_changes::{Incoming, ready_files, steps_of};
use tape_drives::Drives;
use tape_incoming::{Refused, read_files, write_refused};
use tape_volumes::no_memory;

/// The exit status if something was not done.
const NOT_DONE: u8 = 1;

/// The exit status, by that of what was stored.
fn status_with(refused: &[Refused<'_>], status: u8) -> u8
    ensures { result ≡ status_with (map refused_file refused.now) status }
{
    match refused {
        [] => status,
        [_, ..] => if status == 0 { NOT_DONE } else { status },
    }
}

/// Stores files on the image of that name, and says the exit status.
fn store_files<M: Medium + Drop, D: Drives<M>, K: Sink + Drop, E: Sink>(
    alloc: Global,
    drives: &mut D,
    over: bool,
    quiet: bool,
    image: &str,
    files: &[Incoming],
    out: K,
    error: &mut E,
) -> (u8, K)
    requires back { (D.lent drives.old).all_back ≡ true }
    requires storable { All IsStorable files.now }
    ensures stored { StoresFiles (sight M.view M.refuses (D.lent drives.old) (D.lent drives.new)) over quiet image.now files.now result.0
        (written (K.written out) (K.faults out) (E.written error.old) (E.faults error.old))
        (written (K.written result.1) (K.faults result.1) (E.written error.new) (E.faults error.new)) }
    ensures drives { Uses 1 (D.lent drives.old) (D.lent drives.new) }
{
    if files.is_empty() {
        return (0, out);
    }
    let Ok(ready) = ready_files(alloc, over, quiet, files) else {
        return (no_memory(error), out);
    };
    match steps_of(alloc, &ready) {
        Ok(steps) => change_image(alloc, drives, image, &steps, out, error),
        Err(_) => (no_memory(error), out),
    }
}

/// Does the job `in`, and says the exit status. Every file is read before the image is opened.
pub fn take_files<
    M: Medium + Drop,
    D: Drives<M>,
    F: TapeFile + Drop,
    I: Images<F>,
    K: Sink + Drop,
    E: Sink,
>(
    alloc: Global,
    drives: &mut D,
    host: &mut I,
    over: bool,
    mend: bool,
    quiet: bool,
    image: &str,
    paths: &[&str],
    out: K,
    error: &mut E,
) -> (u8, K)
    requires back { (D.lent drives.old).all_back ≡ true }
    ensures taken { TakesFiles (host_sight F.view I.view host.old host.new)
        (sight M.view M.refuses (D.lent drives.old) (D.lent drives.new)) over mend quiet image.now (map (λ path. path.now) paths.now) result.0
        (written (K.written out) (K.faults out) (E.written error.old) (E.faults error.old))
        (written (K.written result.1) (K.faults result.1) (E.written error.new) (E.faults error.new)) }
    ensures drives { Uses 1 (D.lent drives.old) (D.lent drives.new) }
{
    let Ok(arrived) = read_files(alloc, host, mend, paths) else {
        return (no_memory(error), out);
    };
    write_refused(error, &arrived.refused);
    let (status, out) = store_files(
        alloc,
        drives,
        over,
        quiet,
        image,
        &arrived.files,
        out,
        error,
    );
    (status_with(&arrived.refused, status), out)
}
