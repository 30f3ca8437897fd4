ghost use Rattle.std.specs.Prelude.{◌≡◌, None, Some, MatchOption, OnOk, OnErr, IfOk};
ghost use Rattle.lif_model.specs.Shelf.{image_of};
ghost use Rattle.il_ports.specs.Drive.{images_of};
ghost use Rattle.tape_folder.specs.MemoryFolders.{OtherFilesStay, is_one_of};

use std::alloc::{AllocError, Global};

/// The bytes of the first file of that name.
pub(crate) fn find<'a>(files: &'a [(String, Vec<u8>)], name: &str) -> Option<&'a [u8]>
    ensures { MatchOption result (image_of name.now (images_of files.now) ≡ None)
        (λ found. image_of name.now (images_of files.now) ≡ Some found.now) }
{
    for file in files {
        if file.0.as_str() == name {
            return Some(&file.1);
        }
    }
    None
}

/// Whether the name is one of these.
pub(crate) fn is_one_of(names: &[String], name: &str) -> bool
    ensures { result ≡ is_one_of names.now name.now }
{
    for one in names {
        if one.as_str() == name {
            return true;
        }
    }
    false
}

/// Adds a file of that name, which no file has.
pub(crate) fn add(
    alloc: Global,
    files: &mut Vec<(String, Vec<u8>)>,
    name: &str,
    bytes: &[u8],
) -> Result<(), AllocError>
    requires { image_of name.now (images_of files.old.items) ≡ None }
    ensures file { OnOk result (image_of name.now (images_of files.new.items) ≡ Some bytes.now) }
    ensures others { OtherFilesStay name.now (images_of files.old.items) (images_of files.new.items) }
    ensures err { OnErr result (files.new.items ≡ files.old.items) }
{
    let name = String::from_str(alloc, name)?;
    let bytes = bytes.to_vec(alloc)?;
    files.push((name, bytes))?;
    Ok(())
}

/// Removes the files of that name.
pub(crate) fn remove(files: &mut Vec<(String, Vec<u8>)>, name: &str)
    ensures gone { image_of name.now (images_of files.new.items) ≡ None }
    ensures others { OtherFilesStay name.now (images_of files.old.items) (images_of files.new.items) }
{
    files.retain(|file| file.0.as_str() != name);
}

/// A copy of the files.
pub(crate) fn copy_of(
    alloc: Global,
    files: &[(String, Vec<u8>)],
) -> Result<Vec<(String, Vec<u8>)>, AllocError>
    ensures { IfOk result (λ copy. images_of copy.items ≡ images_of files.now) }
{
    let mut copy = Vec::new(alloc);
    for file in files {
        let name = String::from_str(alloc, &file.0)?;
        let bytes = file.1.to_vec(alloc)?;
        copy.push((name, bytes))?;
    }
    Ok(copy)
}
