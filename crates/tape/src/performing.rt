ghost use Rattle.std.specs.Prelude.{◌≡◌, true, IfErr, IfOk, Some, map, string_bytes};
ghost use Rattle.std.specs.IoError.{error_kind};
ghost use Rattle.exits.specs.Statuses.{IsUnreadStatus};
ghost use Rattle.tape.specs.Images.{medium_sight, sight};
ghost use Rattle.tape_words.specs.Asked.{job_asked, arguments_in};
ghost use Rattle.tape_volumes.specs.Messages.{WritesMessage, memory_line, unread_line};
ghost use Rattle.tape_volumes.specs.Outputs.{written};
ghost use Rattle.tape.specs.Copies.{folder_sight};
ghost use Rattle.tape.specs.Incoming.{host_sight};
ghost use Rattle.tape.specs.Lent.{HostFor, drives_for, folders_for, makers_for, readers_for};
ghost use Rattle.tape_drives.specs.Lending.{Uses};
ghost use Rattle.tape.specs.New.{maker_sight};
ghost use Rattle.tape.specs.Performing.{DoesAsked, Explains, PerformsAsked, wanted_in};
ghost use Rattle.tape.specs.Shown.{map_style};
ghost use Rattle.tape.specs.Texts.{input_of};

use crate::changes::{adopt_volume, purge_files, rename_file, upgrade_volume};
use crate::copies::copy_files;
use crate::diff::compare_images;
use crate::files::read_file;
use crate::incoming::take_files;
use crate::new::new_image;
use crate::put::store_text;
use crate::several::dir_images;
use crate::showing::show_image;
use crate::why::why_image;
use exits::{BAD_WORDS, unread_status};
use il_ports::{Images, Medium, MemoryMedium, Sink, Source, TapeFile};
use std::alloc::{AllocError, Global};
use std::io;
use tape_drives::{Drives, Folders, Makers};
use tape_folder::Folder;
use tape_jobs::{Part, Progress, Style};
use tape_volumes::{no_memory, print, write_message, write_text};
use tape_words::{Job, NotRead, Topic, VERSION_TEXT, help_text, job_of, missing, parse};

/// Writes the help of the program or of a job, and says the exit status.
fn explain<K: Sink, E: Sink>(alloc: Global, topic: Option<Topic>, out: &mut K, error: &mut E) -> u8
    ensures { Explains result
        (written (K.written out.old) (K.faults out.old) (E.written error.old) (E.faults error.old))
        (written (K.written out.new) (K.faults out.new) (E.written error.new) (E.faults error.new)) }
{
    match help_text(alloc, topic) {
        Ok(text) => print(0, text.as_bytes(), out, error),
        Err(_) => no_memory(error),
    }
}

/// Writes why arguments ask for no job, and says the exit status.
fn refuse<E: Sink>(text: Result<String, AllocError>, error: &mut E) -> u8
    ensures ok { IfOk text (λ t. (result ≡ 2) × WritesMessage (string_bytes t)
        (E.written error.old) (E.written error.new) (E.faults error.old) (E.faults error.new)) }
    ensures err { IfErr text (λ e. (result ≡ 7) × WritesMessage memory_line
        (E.written error.old) (E.written error.new) (E.faults error.old) (E.faults error.new)) }
{
    match text {
        Ok(text) => {
            write_text(error, &text);
            BAD_WORDS
        }
        Err(_) => no_memory(error),
    }
}

/// Writes that arguments could not be read, and says the exit status.
fn refuse_unread<E: Sink>(unread: &io::Error, error: &mut E) -> u8
    ensures status { IsUnreadStatus (error_kind unread.now) result }
    ensures says { WritesMessage unread_line
        (E.written error.old) (E.written error.new) (E.faults error.old) (E.faults error.new) }
{
    write_message(
        error,
        "an argument is not UTF-8, or there is not enough memory",
    );
    unread_status(unread)
}

/// How `map` shows a volume: as an SVG file or not.
fn map_style(svg: bool) -> Style<'static>
    ensures { result ≡ map_style svg }
{
    if svg { Style::Picture } else { Style::Map }
}

/// Does the job, and says the exit status.
fn do_job<
    M: Medium + Drop,
    D: Drives<M>,
    N: Medium + Drop,
    R: Drives<N>,
    F: Folder + Drop,
    G: Folders<F>,
    O: Medium + Drop,
    W: Makers<O>,
    H: TapeFile + Drop,
    I: Images<H>,
    S: Source,
    P: Sink + Drop,
    K: Sink + Drop,
    E: Sink,
>(
    alloc: Global,
    job: Job<'_>,
    drives: &mut D,
    readers: &mut R,
    folders: &mut G,
    makers: &mut W,
    host: &mut I,
    input: &mut S,
    progress: Progress<P>,
    out: K,
    error: &mut E,
) -> (u8, K)
    requires drives { (D.lent drives.old).all_back ≡ true }
    requires readers { (R.lent readers.old).all_back ≡ true }
    requires folders { (G.lent folders.old).all_back ≡ true }
    requires makers { (W.making makers.old).lending.all_back ≡ true }
    ensures done { DoesAsked (sight M.view M.refuses (D.lent drives.old) (D.lent drives.new))
        (sight N.view N.refuses (R.lent readers.old) (R.lent readers.new))
        (medium_sight ⟦<MemoryMedium as Medium>⟧.view ⟦<MemoryMedium as Medium>⟧.refuses)
        (folder_sight F.view (G.lent folders.old) (G.lent folders.new))
        (maker_sight O.view (W.making makers.old) (W.making makers.new))
        (host_sight H.view I.view host.old host.new)
        (input_of (S.left input.old) (S.faults input.old)) (input_of (S.left input.new) (S.faults input.new)) (Some (job_asked job.entry)) result.0
        (written (K.written out) (K.faults out) (E.written error.old) (E.faults error.old))
        (written (K.written result.1) (K.faults result.1) (E.written error.new) (E.faults error.new)) }
    ensures drives { Uses (drives_for (Some (job_asked job.entry))) (D.lent drives.old) (D.lent drives.new) }
    ensures readers { Uses (readers_for (Some (job_asked job.entry))) (R.lent readers.old) (R.lent readers.new) }
    ensures folders { Uses (folders_for (Some (job_asked job.entry))) (G.lent folders.old) (G.lent folders.new) }
    ensures makers { Uses (makers_for (Some (job_asked job.entry))) (W.making makers.old).lending (W.making makers.new).lending }
    ensures host { HostFor (Some (job_asked job.entry)) host.old host.new }
{
    let mut out = out;
    match job {
        Job::Dir { all, csv, images } => dir_images(alloc, drives, csv, all, images, out, error),
        Job::Out {
            image,
            folder,
            names,
        } => (
            copy_files(
                alloc, drives, folders, progress, image, folder, names, error,
            ),
            out,
        ),
        Job::Get { image, name } => {
            read_file(alloc, drives, Part::Lines, image, name, out, error)
        }
        Job::Raw { image, name } => {
            read_file(alloc, drives, Part::Bytes, image, name, out, error)
        }
        Job::Free { image } => show_image(alloc, drives, Style::Free, image, out, error),
        Job::Map { svg, image } => show_image(alloc, drives, map_style(svg), image, out, error),
        Job::Why { image } => (why_image(alloc, readers, image, &mut out, error), out),
        Job::Diff { image, other } => (
            compare_images(alloc, readers, image, other, &mut out, error),
            out,
        ),
        Job::Purge { image, names } => purge_files(alloc, drives, image, names, out, error),
        Job::Rename { image, old, new } => {
            rename_file(alloc, drives, image, old, new, out, error)
        }
        Job::Adopt { image } => adopt_volume(alloc, drives, image, out, error),
        Job::Upgrade { image } => upgrade_volume(alloc, drives, image, out, error),
        Job::New {
            disc,
            small,
            image,
            label,
            slots,
        } => new_image(alloc, makers, disc, small, image, label, slots, out, error),
        Job::Put { quiet, image, name } => store_text(
            alloc, drives, input, false, quiet, image, name, out, error,
        ),
        Job::Set { quiet, image, name } => store_text(
            alloc, drives, input, true, quiet, image, name, out, error,
        ),
        Job::In {
            over,
            mend,
            quiet,
            image,
            files,
        } => take_files(
            alloc, drives, host, over, mend, quiet, image, files, out, error,
        ),
        Job::Help { topic } => (explain(alloc, topic, &mut out, error), out),
        Job::Version => (print(0, VERSION_TEXT.as_bytes(), &mut out, error), out),
    }
}

/// Does the job that the arguments ask for, and says the exit status.
fn perform_words<
    M: Medium + Drop,
    D: Drives<M>,
    N: Medium + Drop,
    R: Drives<N>,
    F: Folder + Drop,
    G: Folders<F>,
    O: Medium + Drop,
    W: Makers<O>,
    H: TapeFile + Drop,
    I: Images<H>,
    S: Source,
    P: Sink + Drop,
    K: Sink + Drop,
    E: Sink,
>(
    alloc: Global,
    words: &[String],
    drives: &mut D,
    readers: &mut R,
    folders: &mut G,
    makers: &mut W,
    host: &mut I,
    input: &mut S,
    progress: Progress<P>,
    out: K,
    error: &mut E,
) -> (u8, K)
    requires drives { (D.lent drives.old).all_back ≡ true }
    requires readers { (R.lent readers.old).all_back ≡ true }
    requires folders { (G.lent folders.old).all_back ≡ true }
    requires makers { (W.making makers.old).lending.all_back ≡ true }
    ensures done { PerformsAsked (sight M.view M.refuses (D.lent drives.old) (D.lent drives.new))
        (sight N.view N.refuses (R.lent readers.old) (R.lent readers.new))
        (medium_sight ⟦<MemoryMedium as Medium>⟧.view ⟦<MemoryMedium as Medium>⟧.refuses)
        (folder_sight F.view (G.lent folders.old) (G.lent folders.new))
        (maker_sight O.view (W.making makers.old) (W.making makers.new))
        (host_sight H.view I.view host.old host.new)
        (input_of (S.left input.old) (S.faults input.old)) (input_of (S.left input.new) (S.faults input.new)) (arguments_in (map string_bytes words.now)) result.0
        (written (K.written out) (K.faults out) (E.written error.old) (E.faults error.old))
        (written (K.written result.1) (K.faults result.1) (E.written error.new) (E.faults error.new)) }
    ensures drives { Uses (drives_for (arguments_in (map string_bytes words.now))) (D.lent drives.old) (D.lent drives.new) }
    ensures readers { Uses (readers_for (arguments_in (map string_bytes words.now))) (R.lent readers.old) (R.lent readers.new) }
    ensures folders { Uses (folders_for (arguments_in (map string_bytes words.now))) (G.lent folders.old) (G.lent folders.new) }
    ensures makers { Uses (makers_for (arguments_in (map string_bytes words.now))) (W.making makers.old).lending (W.making makers.new).lending }
    ensures host { HostFor (arguments_in (map string_bytes words.now)) host.old host.new }
{
    match parse(alloc, words) {
        Ok(matches) => match job_of(&matches) {
            Some(job) => do_job(
                alloc, job, drives, readers, folders, makers, host, input, progress, out, error,
            ),
            None => (refuse(missing(alloc, &matches), error), out),
        },
        Err(NotRead::Refused(text)) => (refuse(Ok(text), error), out),
        Err(NotRead::OutOfMemory) => (no_memory(error), out),
    }
}

/// The program over standard output and standard error, over the drives that it inserts images in, those that only read
/// them, the folders that it copies files into, the drives that new images are made for, the files of the host that it
/// reads, and standard input. `progress` shows which file is copied. It returns the exit status, and standard output.
pub fn perform<
    M: Medium + Drop,
    D: Drives<M>,
    N: Medium + Drop,
    R: Drives<N>,
    F: Folder + Drop,
    G: Folders<F>,
    O: Medium + Drop,
    W: Makers<O>,
    H: TapeFile + Drop,
    I: Images<H>,
    S: Source,
    P: Sink + Drop,
    K: Sink + Drop,
    E: Sink,
>(
    alloc: Global,
    words: io::Result<Vec<String>>,
    drives: &mut D,
    readers: &mut R,
    folders: &mut G,
    makers: &mut W,
    host: &mut I,
    input: &mut S,
    progress: Progress<P>,
    out: K,
    error: &mut E,
) -> (u8, K)
    requires drives { (D.lent drives.old).all_back ≡ true }
    requires readers { (R.lent readers.old).all_back ≡ true }
    requires folders { (G.lent folders.old).all_back ≡ true }
    requires makers { (W.making makers.old).lending.all_back ≡ true }
    ensures unread { IfErr words (λ e. IsUnreadStatus (error_kind e) result.0 × (result.1 ≡ out)
        × WritesMessage unread_line
        (E.written error.old) (E.written error.new) (E.faults error.old) (E.faults error.new)) }
    ensures asked { IfOk words (λ list.
        PerformsAsked (sight M.view M.refuses (D.lent drives.old) (D.lent drives.new))
        (sight N.view N.refuses (R.lent readers.old) (R.lent readers.new))
        (medium_sight ⟦<MemoryMedium as Medium>⟧.view ⟦<MemoryMedium as Medium>⟧.refuses)
        (folder_sight F.view (G.lent folders.old) (G.lent folders.new))
        (maker_sight O.view (W.making makers.old) (W.making makers.new))
        (host_sight H.view I.view host.old host.new)
        (input_of (S.left input.old) (S.faults input.old)) (input_of (S.left input.new) (S.faults input.new)) (arguments_in (map string_bytes list.items)) result.0
        (written (K.written out) (K.faults out) (E.written error.old) (E.faults error.old))
        (written (K.written result.1) (K.faults result.1) (E.written error.new) (E.faults error.new))) }
    ensures drives { Uses (drives_for (wanted_in words)) (D.lent drives.old) (D.lent drives.new) }
    ensures readers { Uses (readers_for (wanted_in words)) (R.lent readers.old) (R.lent readers.new) }
    ensures folders { Uses (folders_for (wanted_in words)) (G.lent folders.old) (G.lent folders.new) }
    ensures makers { Uses (makers_for (wanted_in words)) (W.making makers.old).lending (W.making makers.new).lending }
    ensures host { HostFor (wanted_in words) host.old host.new }
{
    match words {
        Ok(words) => perform_words(
            alloc, &words, drives, readers, folders, makers, host, input, progress, out, error,
        ),
        Err(unread) => (refuse_unread(&unread, error), out),
    }
}
