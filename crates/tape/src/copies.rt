ghost use Rattle.std.specs.Prelude.{◌≡◌, true, [], IfOk, None, map};
ghost use Rattle.tape.specs.Images.{sight};
ghost use Rattle.tape_drives.specs.Lending.{Uses};
ghost use Rattle.tape.specs.Lent.{one_if};
ghost use Rattle.tape_arguments.specs.Names.{names_spelt};
ghost use Rattle.tape.specs.Copies.{CopiesFiles, FilesAreCopied, folder_sight};
ghost use Rattle.tape_folder.specs.Paths.{IsFolderPath};

use crate::images::work_on_image;
use il_ports::{Medium, Sink};
use il_script::Page;
use lif_dir::Name;
use std::alloc::{AllocError, Global};
use tape_arguments::{NoNames, names_spelt};
use tape_drives::{Drives, Folders};
use tape_folder::Folder;
use tape_jobs::{Copying, Progress, write_copied};
use tape_names::HOST_NAME_LENGTH;
use tape_volumes::{no_memory, refuse_name};

/// What the job takes before it opens the image: a page for the name that a file has in the folder, and one for the
/// printed name of a file in a message.
#[derive(Drop)]
struct Pages {
    page: Page,
    line: Page,
}

/// The two pages.
fn take_pages(alloc: Global) -> Result<Pages, AllocError>
    ensures page { IfOk result (λ pages. pages.page ≡ record { text = []; room = HOST_NAME_LENGTH }) }
    ensures line { IfOk result (λ pages. pages.line ≡ record { text = []; room = HOST_NAME_LENGTH }) }
{
    Ok(Pages {
        page: Page::new(alloc, HOST_NAME_LENGTH)?,
        line: Page::new(alloc, HOST_NAME_LENGTH)?,
    })
}

/// Copies the files of these names, or all files if there is no name, into a folder, and says the exit status.
fn copy_named<
    M: Medium + Drop,
    D: Drives<M>,
    F: Folder + Drop,
    G: Folders<F>,
    P: Sink + Drop,
    E: Sink,
>(
    alloc: Global,
    drives: &mut D,
    folders: &mut G,
    folder: F,
    pages: Pages,
    progress: Progress<P>,
    image: &str,
    path: &str,
    names: &[Name],
    error: &mut E,
) -> u8
    requires back { (D.lent drives.old).all_back ≡ true }
    requires given { (G.lent folders.old).gave folder }
    requires closed { (F.view folder).part ≡ None }
    requires place { IsFolderPath path.now (F.view folder).path }
    requires page { pages.page ≡ record { text = []; room = HOST_NAME_LENGTH } }
    requires line { pages.line ≡ record { text = []; room = HOST_NAME_LENGTH } }
    ensures copied { FilesAreCopied (sight M.view M.refuses (D.lent drives.old) (D.lent drives.new))
        F.view (G.lent folders.new) image.now path.now names.now result
        (E.written error.old) (E.written error.new) (E.faults error.old) (E.faults error.new) }
    ensures drives { Uses 1 (D.lent drives.old) (D.lent drives.new) }
    ensures folders { Uses 0 (G.lent folders.old) (G.lent folders.new) }
{
    let Pages { page, mut line } = pages;
    let job = Copying {
        names,
        folder,
        page,
        progress,
        ends: Vec::new(alloc),
    };
    let (ending, job) = work_on_image(alloc, drives, image, job);
    write_copied(error, image, path, ending, &job.ends, &mut line);
    folders.back(job.folder);
    ending.status()
}

/// Does the job `out`, and says the exit status.
pub fn copy_files<
    M: Medium + Drop,
    D: Drives<M>,
    F: Folder + Drop,
    G: Folders<F>,
    P: Sink + Drop,
    E: Sink,
>(
    alloc: Global,
    drives: &mut D,
    folders: &mut G,
    progress: Progress<P>,
    image: &str,
    path: &str,
    texts: &[&str],
    error: &mut E,
) -> u8
    requires back { (D.lent drives.old).all_back ≡ true }
    requires folders { (G.lent folders.old).all_back ≡ true }
    ensures copied { CopiesFiles (sight M.view M.refuses (D.lent drives.old) (D.lent drives.new))
        (folder_sight F.view (G.lent folders.old) (G.lent folders.new)) image.now path.now (map (λ text. text.now) texts.now) result
        (E.written error.old) (E.written error.new) (E.faults error.old) (E.faults error.new) }
    ensures drives { Uses (one_if (names_spelt (map (λ text. text.now) texts.now))) (D.lent drives.old) (D.lent drives.new) }
    ensures folders { Uses (one_if (names_spelt (map (λ text. text.now) texts.now))) (G.lent folders.old) (G.lent folders.new) }
{
    let names = match names_spelt(alloc, texts) {
        Ok(names) => names,
        Err(NoNames::NoName(text)) => return refuse_name(error, text),
        Err(NoNames::OutOfMemory) => return no_memory(error),
    };
    let Ok(pages) = take_pages(alloc) else {
        return no_memory(error);
    };
    match folders.folder(alloc, path) {
        Ok(folder) => copy_named(
            alloc, drives, folders, folder, pages, progress, image, path, &names, error,
        ),
        Err(_) => no_memory(error),
    }
}
