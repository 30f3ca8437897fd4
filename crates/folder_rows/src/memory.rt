//! Files that are kept in a folder in memory: each answer, and calls that fail.
ghost use Rattle.std.specs.Prelude.{◌≡◌, IfOk, None};

use il_same::same;
use std::alloc::{AllocError, Global};
use std::io::ErrorKind;
use std::process::Abort;
use std::test::Fail;
use tape_folder::{Folder, Kept, MemoryFolder, keep};

/// The bytes that are to be kept.
const BYTES: &[u8] = b"twelve bytes";

/// A folder with these files and these names of what is no file, of which these calls fail.
fn folder_with(
    alloc: Global,
    files: &[(&str, &[u8])],
    others: &[&str],
    calls: &[u64],
) -> Result<MemoryFolder, AllocError>
    ensures { IfOk result (λ f. f.part ≡ None) }
{
    let mut held = Vec::new(alloc);
    for file in files {
        let name = String::from_str(alloc, file.0)?;
        let bytes = file.1.to_vec(alloc)?;
        held.push((name, bytes))?;
    }
    let mut names = Vec::new(alloc);
    for other in others {
        names.push(String::from_str(alloc, other)?)?;
    }
    let mut fails = Vec::new(alloc);
    for call in calls {
        fails.push((*call, ErrorKind::StorageFull))?;
    }
    MemoryFolder::new(alloc, "folder", held, names, fails)
}

/// A folder with these files, of which these calls fail.
fn folder(alloc: Global, files: &[(&str, &[u8])], calls: &[u64]) -> Result<MemoryFolder, AllocError>
    ensures { IfOk result (λ f. f.part ≡ None) }
{
    folder_with(alloc, files, &[], calls)
}

/// Whether the folder has exactly these files, in this order.
fn has(folder: &MemoryFolder, files: &[(&str, &[u8])]) -> bool {
    folder.files().len() == files.len()
        && folder.files().iter().zip(files).all(|(held, file)| held.0.as_str() == file.0
            && held.1.as_slice() == file.1)
}

/// Keeps the file, and compares the answer, the files and the number of calls with those that are wanted.
fn keeps(
    rt: &impl Abort,
    mut folder: MemoryFolder,
    row: usize,
    answer: Kept,
    files: &[(&str, &[u8])],
    calls: u64,
)
    requires { folder.part ≡ None }
{
    let got = keep(&mut folder, "FILE", BYTES);
    assert!(rt; same(got, answer), "the answer, row {row}");
    assert!(rt; has(&folder, files), "the files, row {row}");
    assert!(rt; same(folder.calls(), calls), "the calls, row {row}");
}

/// Without a fault: a new file, one that is there, one with other bytes, and part files that were left.
#[test]
fn answers(rt: HostRuntime) -> Result<(), Fail> {
    let alloc = rt.alloc();
    let left: &[u8] = b"left";
    let kept = ("FILE", BYTES);
    let other = ("FILE", left);
    let first = (".tape-0.part", left);
    let second = (".tape-1.part", left);
    keeps(&rt, folder(alloc, &[], &[])?, 0, Kept::Written, &[kept], 6);
    keeps(
        &rt,
        folder(alloc, &[kept], &[])?,
        1,
        Kept::WasThere,
        &[kept],
        2,
    );
    keeps(
        &rt,
        folder(alloc, &[other], &[])?,
        2,
        Kept::Differs,
        &[other],
        2,
    );
    let files = [first, second];
    let want = [first, second, kept];
    keeps(&rt, folder(alloc, &files, &[])?, 3, Kept::Written, &want, 8);
    keeps(
        &rt,
        folder(alloc, &[second], &[])?,
        4,
        Kept::Written,
        &[second, kept],
        6,
    );
    Ok(())
}

/// Something that is no file has the name of the file, or that of the part file with the number 0.
#[test]
fn others_have_the_names(rt: HostRuntime) -> Result<(), Fail> {
    let alloc = rt.alloc();
    let kept = ("FILE", BYTES);
    let taken = folder_with(alloc, &[], &["OTHER", "FILE"], &[])?;
    keeps(&rt, taken, 0, Kept::Differs, &[], 1);
    let part = folder_with(alloc, &[], &[".tape-0.part"], &[])?;
    keeps(&rt, part, 1, Kept::Written, &[kept], 7);
    Ok(())
}

/// A link does not replace what is no file.
#[test]
fn a_link_replaces_nothing(rt: HostRuntime) -> Result<(), Fail> {
    let mut folder = folder_with(rt.alloc(), &[], &["OTHER"], &[])?;
    folder.make(0)?;
    folder.write(BYTES)?;
    folder.sync()?;
    match folder.link("OTHER") {
        Ok(()) => assert!(rt; false, "the name is taken"),
        Err(error) => assert!(rt; same(error.kind(), ErrorKind::AlreadyExists), "the error"),
    }
    assert!(rt; has(&folder, &[(".tape-0.part", BYTES)]), "the files");
    Ok(())
}

/// The calls for a new file are a look, the part file, its bytes, a sync, a link and the end of the part's name. If the
/// link fails, a second look and a rename follow.
#[test]
fn each_call_fails(rt: HostRuntime) -> Result<(), Fail> {
    let alloc = rt.alloc();
    let kept = ("FILE", BYTES);
    let part = (".tape-0.part", BYTES);
    let empty: (&str, &[u8]) = (".tape-0.part", &[]);
    keeps(&rt, folder(alloc, &[], &[1])?, 1, Kept::NotWritten, &[], 1);
    keeps(&rt, folder(alloc, &[], &[2])?, 2, Kept::NotWritten, &[], 2);
    keeps(&rt, folder(alloc, &[], &[3])?, 3, Kept::NotWritten, &[], 4);
    keeps(&rt, folder(alloc, &[], &[4])?, 4, Kept::NotWritten, &[], 5);
    keeps(&rt, folder(alloc, &[], &[5])?, 5, Kept::Written, &[kept], 7);
    keeps(
        &rt,
        folder(alloc, &[], &[6])?,
        6,
        Kept::Written,
        &[part, kept],
        6,
    );
    keeps(
        &rt,
        folder(alloc, &[], &[3, 4])?,
        34,
        Kept::NotWritten,
        &[empty],
        4,
    );
    keeps(
        &rt,
        folder(alloc, &[], &[4, 5])?,
        45,
        Kept::NotWritten,
        &[part],
        5,
    );
    keeps(
        &rt,
        folder(alloc, &[], &[5, 6])?,
        56,
        Kept::NotWritten,
        &[],
        7,
    );
    keeps(
        &rt,
        folder(alloc, &[], &[5, 7])?,
        57,
        Kept::NotWritten,
        &[],
        8,
    );
    keeps(
        &rt,
        folder(alloc, &[kept], &[1])?,
        11,
        Kept::NotWritten,
        &[kept],
        1,
    );
    keeps(
        &rt,
        folder(alloc, &[kept], &[2])?,
        12,
        Kept::NotWritten,
        &[kept],
        2,
    );
    Ok(())
}

/// Each of the 1000 numbers of part files is taken.
#[test]
fn no_number_is_left(rt: HostRuntime) -> Result<(), Fail> {
    let alloc = rt.alloc();
    let mut held = Vec::new(alloc);
    for number in 0..1000 {
        let name = format!(in alloc; ".tape-{number}.part")?;
        held.push((name, Vec::new(alloc)))?;
    }
    let mut folder = MemoryFolder::new(alloc, "folder", held, Vec::new(alloc), Vec::new(alloc))?;
    let got = keep(&mut folder, "FILE", BYTES);
    assert!(rt; same(got, Kept::NotWritten), "no number is left");
    assert!(rt; same(folder.files().len(), 1000), "the files");
    assert!(rt; same(folder.calls(), 1001), "the calls");
    Ok(())
}
