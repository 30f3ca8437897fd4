ghost use Rattle.std.specs.Prelude.{◌≡◌, ◌<◌, None, is_some, true, false, length};
ghost use Rattle.std.specs.IoError.{error_kind};
ghost use Rattle.tape_folder.specs.Folders.{IsUnusedName, ShowsFiles, file_in_folder, is_hidden, is_taken};
ghost use Rattle.tape_folder.specs.Keeping.{PartOpens, PartFills, PartCloses, PartEnds, PartIsUsed, FileKept};

use crate::folder::Folder;
use il_ports::Look;
use std::io::{self, ErrorKind};

/// How many numbers part files have.
const PART_NUMBERS: u32 = 1000;

/// What became of a file that is to be kept in a folder.
#[derive(Clone, Copy, Debug, PartialEq, Eq)]
pub enum Kept {
    /// It was written.
    Written,
    /// The folder has this file, with the same bytes.
    WasThere,
    /// The folder has something else of that name.
    Differs,
    /// It could not be written or compared.
    NotWritten,
}

/// No part file could be made.
struct NoPart;

/// Says whether the error says that something has the name.
fn is_taken_name(error: &io::Error) -> bool
    ensures { result ≡ is_taken (error_kind error.now) }
{
    matches!(error.kind(), ErrorKind::AlreadyExists)
}

/// Makes the part file of the first number that is free.
fn open_part<F: Folder>(folder: &mut F) -> Result<(), NoPart>
    requires { (F.view folder.old).part ≡ None }
    ensures { PartOpens (F.view folder.old) (F.view folder.new) result }
{
    for number in 0..PART_NUMBERS {
        match folder.make(number) {
            Ok(()) => return Ok(()),
            Err(error) => {
                if !is_taken_name(&error) {
                    return Err(NoPart);
                }
            }
        }
    }
    Err(NoPart)
}

/// Writes the bytes of the part file, and waits until the disk has them.
fn fill_part<F: Folder>(folder: &mut F, bytes: &[u8]) -> io::Result<()>
    requires { is_some (F.view folder.old).part ≡ true }
    ensures { PartFills bytes.now (F.view folder.old) (F.view folder.new) result }
{
    folder.write(bytes)?;
    folder.sync()
}

/// Closes the part file, and removes its name if that can be done.
fn close_part<F: Folder>(folder: &mut F)
    requires { is_some (F.view folder.old).part ≡ true }
    ensures { PartCloses (F.view folder.old) (F.view folder.new) }
{
    let _ = folder.remove();
}

/// Gives the file of the part that name in place of its own, unless something has the name. This is for file systems
/// that cannot give a file two names.
fn move_part<F: Folder>(folder: &mut F, name: &str) -> Kept
    requires made { is_some (F.view folder.old).part ≡ true }
    requires synced { (F.view folder.old).on_disk ≡ true }
    requires plain { is_hidden name.now ≡ false }
    ensures { PartEnds name.now (F.view folder.old).written (F.view folder.old) (F.view folder.new) result }
{
    match folder.look(name) {
        Ok(Look::Missing) => match folder.rename(name) {
            Ok(()) => Kept::Written,
            Err(_) => {
                close_part(folder);
                Kept::NotWritten
            }
        },
        Ok(_) => {
            close_part(folder);
            Kept::Differs
        }
        Err(_) => {
            close_part(folder);
            Kept::NotWritten
        }
    }
}

/// Gives the file of the part that name, and takes its own from it.
fn name_part<F: Folder>(folder: &mut F, name: &str) -> Kept
    requires made { is_some (F.view folder.old).part ≡ true }
    requires synced { (F.view folder.old).on_disk ≡ true }
    requires plain { is_hidden name.now ≡ false }
    ensures { PartEnds name.now (F.view folder.old).written (F.view folder.old) (F.view folder.new) result }
{
    match folder.link(name) {
        Ok(()) => {
            close_part(folder);
            Kept::Written
        }
        Err(error) => {
            if is_taken_name(&error) {
                close_part(folder);
                Kept::Differs
            } else {
                move_part(folder, name)
            }
        }
    }
}

/// Writes the bytes to the part file, which then has that name.
fn use_part<F: Folder>(folder: &mut F, name: &str, bytes: &[u8]) -> Kept
    requires made { is_some (F.view folder.old).part ≡ true }
    requires plain { is_hidden name.now ≡ false }
    ensures { PartIsUsed name.now bytes.now (F.view folder.old) (F.view folder.new) result }
{
    match fill_part(folder, bytes) {
        Ok(()) => name_part(folder, name),
        Err(_) => {
            close_part(folder);
            Kept::NotWritten
        }
    }
}

/// Writes a file of that name, which the folder does not have.
fn write_file<F: Folder>(folder: &mut F, name: &str, bytes: &[u8]) -> Kept
    requires closed { (F.view folder.old).part ≡ None }
    requires plain { is_hidden name.now ≡ false }
    requires free { IsUnusedName name.now (F.view folder.old) }
    ensures { FileKept name.now bytes.now result (F.view folder.old) (F.view folder.new) }
{
    match open_part(folder) {
        Ok(()) => use_part(folder, name, bytes),
        Err(NoPart) => Kept::NotWritten,
    }
}

/// Compares the file of that name with these bytes.
fn compare<F: Folder>(folder: &mut F, name: &str, bytes: &[u8]) -> Kept
    requires closed { (F.view folder.old).part ≡ None }
    requires there { ShowsFiles (F.view folder.old)
        → is_some (file_in_folder name.now (F.view folder.old).files) ≡ true }
    ensures { FileKept name.now bytes.now result (F.view folder.old) (F.view folder.new) }
{
    match folder.holds(name, bytes) {
        Ok(true) => Kept::WasThere,
        Ok(false) => Kept::Differs,
        Err(_) => Kept::NotWritten,
    }
}

/// Keeps a file of that name with these bytes in the folder. If the folder has something of that name, nothing is
/// written. At the end no part file is open, and its name is gone unless the folder could not remove it.
pub fn keep<F: Folder>(folder: &mut F, name: &str, bytes: &[u8]) -> Kept
    requires closed { (F.view folder.old).part ≡ None }
    requires plain { is_hidden name.now ≡ false }
    requires named { 0 < length name.now }
    ensures { FileKept name.now bytes.now result (F.view folder.old) (F.view folder.new) }
{
    match folder.look(name) {
        Ok(Look::Missing) => write_file(folder, name, bytes),
        Ok(Look::File) => compare(folder, name, bytes),
        Ok(Look::Other) => Kept::Differs,
        Err(_) => Kept::NotWritten,
    }
}
