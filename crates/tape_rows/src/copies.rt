//! The job `out` over a volume whose slots the test gives, and a folder in memory.
ghost use Rattle.std.specs.Prelude.{◌≡◌, ◌≤◌, IfOk, None, [], length};

use crate::given::{Answer, CONTENT, Given, volume};
use il_ports::MemorySink;
use il_same::same;
use il_script::{Code, Page};
use lif_dir::Name;
use std::alloc::{AllocError, Global};
use std::io::ErrorKind;
use std::process::Abort;
use std::test::Fail;
use tape_folder::{Folder, Kept, MemoryFolder};
use tape_jobs::{Copying, FileEnd, Progress, Taken};
use tape_volumes::{VolumeJob, Went};

/// The host names of the two files of the volume.
const STARTUP: &str = "STARTUP.E214.12060000";

const A_B: &str = "A,B.E0D0.00800000";

/// A folder with these files and these names of what is no file, of which these calls fail.
fn folder_with(
    alloc: Global,
    files: &[(&str, &[u8])],
    others: &[&str],
    calls: &[u64],
) -> Result<MemoryFolder, AllocError>
    ensures { IfOk result (λ f. f.part ≡ None) }
{
    let mut held = Vec::new(alloc);
    for file in files {
        let name = String::from_str(alloc, file.0)?;
        let bytes = file.1.to_vec(alloc)?;
        held.push((name, bytes))?;
    }
    let mut names = Vec::new(alloc);
    for other in others {
        names.push(String::from_str(alloc, other)?)?;
    }
    let mut fails = Vec::new(alloc);
    for call in calls {
        fails.push((*call, ErrorKind::StorageFull))?;
    }
    MemoryFolder::new(alloc, "folder", held, names, fails)
}

/// A folder with these files, of which these calls fail.
fn folder(alloc: Global, files: &[(&str, &[u8])], calls: &[u64]) -> Result<MemoryFolder, AllocError>
    ensures { IfOk result (λ f. f.part ≡ None) }
{
    folder_with(alloc, files, &[], calls)
}

/// Whether the folder has exactly these files, in this order, each with the bytes of a file of the volume.
fn has(folder: &MemoryFolder, names: &[&str]) -> bool {
    folder.files().len() == names.len()
        && folder.files().iter().zip(names).all(|(held, name)| held.0.as_str() == *name
            && held.1.as_slice() == CONTENT)
}

/// Whether these are the ends, in this order.
fn ended(ends: &[Taken], wanted: &[FileEnd]) -> bool {
    ends.len() == wanted.len()
        && ends
            .iter()
            .zip(wanted)
            .all(|(taken, end)| taken.end == *end)
}

/// Copies the files of these names, and compares how the job went, the ends, and the files of the folder.
fn copies(
    rt: &(impl Abort + AllocGlobal),
    mut volume: Given,
    names: &[Name],
    folder: MemoryFolder,
    went: Went,
    ends: &[FileEnd],
    files: &[&str],
) -> Result<(), Fail>
    requires { folder.part ≡ None }
{
    let mut job = Copying {
        names,
        folder,
        page: Page::new(rt.alloc(), 44)?,
        progress: Progress::<MemorySink> { terminal: None },
        ends: Vec::new(rt.alloc()),
    };
    assert!(rt; job.work(rt.alloc(), &mut volume) == went);
    assert!(rt; ended(&job.ends, ends));
    assert!(rt; has(&job.folder, files));
    Ok(())
}

/// The name of a file.
fn name(rt: &impl Abort, text: &[u8]) -> Name {
    Name::of(text).expect(rt, "a name")
}

const WRITTEN: FileEnd = FileEnd::Kept(Kept::Written);

const WAS_THERE: FileEnd = FileEnd::Kept(Kept::WasThere);

const DIFFERS: FileEnd = FileEnd::Kept(Kept::Differs);

const NOT_WRITTEN: FileEnd = FileEnd::Kept(Kept::NotWritten);

/// No file is asked for: all are copied except the redo file. One of them is there.
#[test]
fn all_files_are_copied(rt: HostRuntime) -> Result<(), Fail> {
    let given = volume(&rt, Answer::Listed)?;
    let there: (&str, &[u8]) = (A_B, CONTENT);
    let ends = [WRITTEN, WAS_THERE];
    copies(
        &rt,
        given,
        &[],
        folder(rt.alloc(), &[there], &[])?,
        Went::Done,
        &ends,
        &[A_B, STARTUP],
    )
}

/// A file is missing, and the medium fails at another: the last one is copied.
#[test]
fn the_job_goes_on_after_a_failure(rt: HostRuntime) -> Result<(), Fail> {
    let mut given = volume(&rt, Answer::Listed)?;
    given.faulty = Some(name(&rt, b"A,B"));
    let names = [name(&rt, b"NONE"), name(&rt, b"A,B"), name(&rt, b"STARTUP")];
    let ends = [FileEnd::Refused(Code::NoFile), FileEnd::Fault, WRITTEN];
    copies(
        &rt,
        given,
        &names,
        folder(rt.alloc(), &[], &[])?,
        Went::NotAll,
        &ends,
        &[STARTUP],
    )
}

/// Something that is no file has the name of one file: the other one is copied.
#[test]
fn a_name_is_taken(rt: HostRuntime) -> Result<(), Fail> {
    let given = volume(&rt, Answer::Listed)?;
    copies(
        &rt,
        given,
        &[],
        folder_with(rt.alloc(), &[], &[STARTUP], &[])?,
        Went::NotAll,
        &[DIFFERS, WRITTEN],
        &[A_B],
    )
}

/// The second call of the folder fails, which looks for the first file.
#[test]
fn a_file_that_is_not_written_is_in_the_status(rt: HostRuntime) -> Result<(), Fail> {
    let given = volume(&rt, Answer::Listed)?;
    let ends = [NOT_WRITTEN, WRITTEN];
    copies(
        &rt,
        given,
        &[],
        folder(rt.alloc(), &[], &[2])?,
        Went::NotAll,
        &ends,
        &[A_B],
    )
}

/// The folder cannot be made; or the disk does not get the names, with one file of six calls.
#[test]
fn the_folder_is_lost(rt: HostRuntime) -> Result<(), Fail> {
    let given = volume(&rt, Answer::Listed)?;
    copies(
        &rt,
        given,
        &[],
        folder(rt.alloc(), &[], &[1])?,
        Went::FolderLost,
        &[],
        &[],
    )?;
    let given = volume(&rt, Answer::Listed)?;
    let names = [name(&rt, b"STARTUP")];
    copies(
        &rt,
        given,
        &names,
        folder(rt.alloc(), &[], &[8])?,
        Went::FolderLost,
        &[WRITTEN],
        &[STARTUP],
    )
}

/// The volume refuses, or the medium fails: nothing is copied.
#[test]
fn nothing_is_copied(rt: HostRuntime) -> Result<(), Fail> {
    let given = volume(&rt, Answer::Refused(Code::NotLif))?;
    copies(
        &rt,
        given,
        &[],
        folder(rt.alloc(), &[], &[])?,
        Went::Refused(Code::NotLif),
        &[],
        &[],
    )?;
    let given = volume(&rt, Answer::Fault)?;
    copies(
        &rt,
        given,
        &[],
        folder(rt.alloc(), &[], &[])?,
        Went::Fault,
        &[],
        &[],
    )
}

/// A terminal is told which file is copied, and whether it can be written changes nothing.
#[test]
fn progress_is_told_on_a_terminal(rt: HostRuntime) -> Result<(), Fail> {
    for (room, wanted) in [(100, &b"1 of 2 STARTUP\n2 of 2 A,B\n"[..]), (0, b"")] {
        let mut given = volume(&rt, Answer::Listed)?;
        let terminal = Some(MemorySink::new(rt.alloc(), room, Vec::new(rt.alloc()))?);
        let mut job = Copying {
            names: &[],
            folder: folder(rt.alloc(), &[], &[])?,
            page: Page::new(rt.alloc(), 44)?,
            progress: Progress { terminal },
            ends: Vec::new(rt.alloc()),
        };
        assert!(rt; job.work(rt.alloc(), &mut given) == Went::Done);
        let told = job.progress.terminal.expect(&rt, "a terminal");
        assert!(rt; told.written() == wanted);
    }
    Ok(())
}
