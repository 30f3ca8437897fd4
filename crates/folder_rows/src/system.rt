//! Files that are kept in a folder of the system.
use il_same::{same, same_bytes};
use std::fs;
use std::test::Fail;
use tape_folder::{Folder, Kept, SystemFolder, keep};

/// A folder is made, and a file kept in it: new, again, and with other bytes. The part files are gone.
#[test]
fn a_file_is_kept(rt: HostRuntime) -> Result<(), Fail> {
    let _ = fs::remove_dir_all(&rt, "copied");
    let mut folder = SystemFolder::new(rt.alloc(), &rt, "copied//")?;
    folder.prepare()?;
    assert!(rt;
        same(keep(&mut folder, "FILE", b"bytes"), Kept::Written),
        "a new file"
    );
    assert!(rt;
        same(keep(&mut folder, "FILE", b"bytes"), Kept::WasThere),
        "the same file"
    );
    assert!(rt;
        same(keep(&mut folder, "FILE", b"other"), Kept::Differs),
        "another file"
    );
    assert!(rt;
        same(keep(&mut folder, "FILE", b"byte"), Kept::Differs),
        "a front of the file"
    );
    assert!(rt;
        same(keep(&mut folder, "FILE", b"bytes."), Kept::Differs),
        "a longer file"
    );
    folder.settle()?;
    let bytes = fs::read(&rt, "copied/FILE")?;
    assert!(rt; same_bytes(&bytes, b"bytes"), "what the file has");
    assert!(rt;
        fs::metadata(&rt, "copied/.tape-0.part").is_err(),
        "the part file is gone"
    );
    fs::remove_dir_all(&rt, "copied")?;
    Ok(())
}

/// The number 0 is taken, and something that is no file has the name.
#[test]
fn names_are_taken(rt: HostRuntime) -> Result<(), Fail> {
    let _ = fs::remove_dir_all(&rt, "taken");
    fs::create_dir(&rt, "taken")?;
    fs::create_dir(&rt, "taken/FOLDER")?;
    fs::write(&rt, "taken/.tape-0.part", b"left")?;
    let mut folder = SystemFolder::new(rt.alloc(), &rt, "taken")?;
    folder.prepare()?;
    assert!(rt;
        same(keep(&mut folder, "FOLDER", b"bytes"), Kept::Differs),
        "a folder"
    );
    assert!(rt;
        same(keep(&mut folder, "FILE", b""), Kept::Written),
        "an empty file"
    );
    folder.settle()?;
    let left = fs::read(&rt, "taken/.tape-0.part")?;
    assert!(rt; same_bytes(&left, b"left"), "the part file that was there");
    assert!(rt;
        fs::metadata(&rt, "taken/.tape-1.part").is_err(),
        "the part file is gone"
    );
    fs::remove_dir_all(&rt, "taken")?;
    Ok(())
}

/// There is no folder in which the folder could be made, or a file has its name.
#[test]
fn a_folder_cannot_be_made(rt: HostRuntime) -> Result<(), Fail> {
    let _ = fs::remove_file(&rt, "A_FILE");
    fs::write(&rt, "A_FILE", b"bytes")?;
    for path in ["A_FILE", "A_FILE/folder", "no_folder/folder"] {
        let mut folder = SystemFolder::new(rt.alloc(), &rt, path)?;
        assert!(rt; folder.prepare().is_err(), "{path}");
        assert!(rt;
            same(keep(&mut folder, "FILE", b"bytes"), Kept::NotWritten),
            "a file in {path}"
        );
    }
    fs::remove_file(&rt, "A_FILE")?;
    Ok(())
}
