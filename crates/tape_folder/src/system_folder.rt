ghost use Rattle.std.specs.Prelude.{◌≡◌, ◌++◌, OnOk, string_bytes, codes};
ghost use Rattle.tape_folder.specs.Folders.{part_name};
ghost use Rattle.tape_folder.specs.Paths.{IsFolderPath};

use crate::folder::Folder;
use crate::part_name::push_part_name;
use il_ports::Look;
use std::alloc::{AllocError, Global};
use std::fs::{self, File};
use std::io::{self, ErrorKind, Read, Write};
use std::rt::Files;
use system_files::{folder_of, sync_if_it_can};

/// The most bytes of a name for which room is taken at the beginning.
const LONGEST_NAME: usize = 64;

/// The path of a folder without the slashes at its end. The top folder keeps one.
fn folder_path(path: &str) -> &str
    ensures { IsFolderPath path.now result.now }
{
    let front = path.trim_end_matches('/');
    if front.is_empty() && !path.is_empty() {
        "/"
    } else {
        front
    }
}

/// Makes the path of the file of that name in the folder.
fn put_path(path: &mut String, folder: &str, name: &str) -> Result<(), AllocError>
    ensures { OnOk result (string_bytes path.new ≡ folder.now ++ codes "/" ++ name.now) }
{
    path.clear();
    path.push_str(folder)?;
    path.push_str("/")?;
    path.push_str(name)
}

/// Makes the path of the part file of that number in the folder.
fn put_part_path(path: &mut String, folder: &str, number: u32) -> Result<(), AllocError>
    ensures { OnOk result (string_bytes path.new ≡ folder.now ++ codes "/" ++ part_name number) }
{
    put_path(path, folder, "")?;
    push_part_name(path, number)
}

/// Says whether what comes from the file from here on is exactly these bytes.
fn has_bytes(file: &mut File, bytes: &[u8]) -> io::Result<bool> {
    let mut piece = [0; 4096];
    let mut rest = bytes;
    'pieces: loop {
        let count = file.read(&mut piece)?;
        if count == 0 {
            return Ok(rest.is_empty());
        }
        if !rest.starts_with(&piece[..count]) {
            return Ok(false);
        }
        rest = &rest[count..];
    }
}

/// Waits until the disk has the names of the files in a folder, if its file system can sync folders.
fn sync_folder<R: Files<File = File>>(files: &R, path: &str) -> io::Result<()> {
    let folder = File::open(files, path)?;
    sync_if_it_can(folder.sync_all())?;
    Ok(())
}

/// The part file that is open.
#[derive(Drop)]
struct Part {
    number: u32,
    file: File,
    is_on_disk: bool,
}

/// A folder of the system, by its path. Contracts cannot see its files.
#[derive(Drop)]
pub struct SystemFolder<R: Files + Drop> {
    files: R,
    path: String,
    /// The paths of the part file that was made last, and of the file that a call speaks of.
    part_path: String,
    file_path: String,
    part: Option<Part>,
    /// A call of `prepare` made the folder.
    is_new: bool,
    /// A call of `prepare` made the folder, or found it.
    is_made: bool,
}

impl<R: Files<File = File> + Drop> SystemFolder<R> {
    ghost use Rattle.std.specs.Prelude.{◌≡◌, None, IfOk};
    ghost use Rattle.tape_folder.specs.Paths.{IsFolderPath};

    /// The folder of that path, which a call of `prepare` makes if there is none. All memory is taken here, if the
    /// names of files have at most 64 bytes.
    pub fn new(alloc: Global, files: R, path: &str) -> Result<SystemFolder<R>, AllocError>
        ensures hidden { IfOk result (λ f. (⟦<SystemFolder<R> as Folder>⟧.view f).files ≡ None) }
        ensures closed { IfOk result (λ f. (⟦<SystemFolder<R> as Folder>⟧.view f).part ≡ None) }
        ensures path { IfOk result (λ f. IsFolderPath path.now (⟦<SystemFolder<R> as Folder>⟧.view f).path) }
    {
        let path = folder_path(path);
        let room = path.len().saturating_add(1 + LONGEST_NAME);
        Ok(SystemFolder {
            files,
            path: String::from_str(alloc, path)?,
            part_path: String::with_capacity(alloc, room)?,
            file_path: String::with_capacity(alloc, room)?,
            part: None,
            is_new: false,
            is_made: false,
        })
    }
}

impl<R: Files<File = File> + Drop> Folder for SystemFolder<R> {
    ghost use Rattle.std.specs.Prelude.{string_bytes};
    ghost use Rattle.tape_folder.specs.HiddenFolders.{hidden_folder, hidden_is_folder};
    ghost use Rattle.tape_folder.specs.SystemFolders.{part_number_of, is_synced};

    ghost view = { λ f. hidden_folder (string_bytes f.path) f.is_made (part_number_of f.part) (is_synced f.part) };

    ghost is_folder = { λ f. hidden_is_folder (string_bytes f.path) f.is_made (part_number_of f.part)
        (is_synced f.part) };

    fn prepare(&mut self) -> io::Result<()> {
        match fs::create_dir(&self.files, self.path.as_str()) {
            Ok(()) => {
                self.is_new = true;
                self.is_made = true;
                Ok(())
            }
            Err(error) if error.kind() == ErrorKind::AlreadyExists => {
                if fs::metadata(&self.files, self.path.as_str())?.is_dir() {
                    self.is_made = true;
                    Ok(())
                } else {
                    Err(ErrorKind::NotADirectory.into())
                }
            }
            Err(error) => Err(error),
        }
    }

    fn look(&mut self, name: &str) -> io::Result<Look> {
        put_path(&mut self.file_path, &self.path, name)?;
        match fs::metadata(&self.files, self.file_path.as_str()) {
            Ok(found) if found.is_file() => Ok(Look::File),
            Ok(_) => Ok(Look::Other),
            Err(error) if error.kind() == ErrorKind::NotFound => Ok(Look::Missing),
            Err(error) => Err(error),
        }
    }

    fn holds(&mut self, name: &str, bytes: &[u8]) -> io::Result<bool> {
        put_path(&mut self.file_path, &self.path, name)?;
        let mut file = File::open(&self.files, self.file_path.as_str())?;
        if !has_bytes(&mut file, bytes)? {
            return Ok(false);
        }
        file.sync_all()?;
        Ok(true)
    }

    fn make(&mut self, number: u32) -> io::Result<()> {
        put_part_path(&mut self.part_path, &self.path, number)?;
        let file = File::create_new(&self.files, self.part_path.as_str())?;
        self.part = Some(Part {
            number,
            file,
            is_on_disk: false,
        });
        Ok(())
    }

    fn write(&mut self, bytes: &[u8]) -> io::Result<()> {
        match &mut self.part {
            None => Err(ErrorKind::NotFound.into()),
            Some(part) => {
                part.is_on_disk = false;
                part.file.write_all(bytes)
            }
        }
    }

    fn sync(&mut self) -> io::Result<()> {
        match &mut self.part {
            None => Err(ErrorKind::NotFound.into()),
            Some(part) => {
                part.file.sync_all()?;
                part.is_on_disk = true;
                Ok(())
            }
        }
    }

    fn link(&mut self, name: &str) -> io::Result<()> {
        put_path(&mut self.file_path, &self.path, name)?;
        fs::hard_link(
            &self.files,
            self.part_path.as_str(),
            self.file_path.as_str(),
        )
    }

    fn rename(&mut self, name: &str) -> io::Result<()> {
        put_path(&mut self.file_path, &self.path, name)?;
        fs::rename(
            &self.files,
            self.part_path.as_str(),
            self.file_path.as_str(),
        )?;
        self.part = None;
        Ok(())
    }

    fn remove(&mut self) -> io::Result<()> {
        self.part = None;
        fs::remove_file(&self.files, self.part_path.as_str())
    }

    fn settle(&mut self) -> io::Result<()> {
        sync_folder(&self.files, &self.path)?;
        match sync_folder(&self.files, folder_of(&self.path)) {
            Err(error) if self.is_new => Err(error),
            _ => Ok(()),
        }
    }
}
