//! Files of the system, by their paths. The methods of the traits pass each call to the system. No clause shows that
//! the system's files do what the traits promise: that is trusted.
#![tactic(auto)]

ghost use Rattle.std.specs.Prelude.{◌≡◌, if◌then◌else◌, Ok, Err, None, true, false};
ghost use Rattle.std.specs.IoError.{error_kind};
ghost use Rattle.system_files.specs.Folders.{IsFolderOf, has_no_sync};

use il_ports::{Access, Images, Look, Naming, TapeFile};
use std::fs::{self, File, OpenFile, OpenOptions, TryLockError};
use std::io::{self, ErrorKind};
use std::os::unix::fs::FileExt;
use std::rt::Files;

/// A file of the system, whose content contracts cannot see.
#[derive(Drop)]
pub struct SystemFile {
    file: File,
}

impl TapeFile for SystemFile {
    ghost use Rattle.system_files.specs.HiddenFiles.{hidden_file, hidden_is_file};

    ghost view = { λ f. hidden_file };

    ghost is_file = { λ f. hidden_is_file };

    fn claim(&mut self, access: Access) -> bool {
        let taken = match access {
            Access::Change => self.file.try_lock(),
            Access::Read => self.file.try_lock_shared(),
        };
        match taken {
            Err(TryLockError::WouldBlock) => false,
            Ok(()) | Err(TryLockError::Error(_)) => true,
        }
    }

    fn apart(&mut self) -> io::Result<()> {
        self.file = self.file.try_clone()?;
        Ok(())
    }

    fn len(&mut self) -> io::Result<u64> {
        let found = self.file.metadata()?;
        if found.is_file() {
            Ok(found.len())
        } else {
            Err(ErrorKind::InvalidInput.into())
        }
    }

    fn read_at(&mut self, from: u64, into: &mut [u8]) -> io::Result<usize> {
        FileExt::read_at(&self.file, into, from)
    }

    fn write_at(&mut self, from: u64, bytes: &[u8]) -> io::Result<usize> {
        match FileExt::write_at(&self.file, bytes, from) {
            Ok(0) => Err(ErrorKind::WriteZero.into()),
            answer => answer,
        }
    }

    fn set_len(&mut self, size: u64) -> io::Result<()> {
        OpenFile::set_len(&self.file, size)
    }

    fn sync(&mut self) -> io::Result<()> {
        self.file.sync_data()
    }

    fn settle(&mut self) -> io::Result<()> {
        sync_if_it_can(self.file.sync_all())?;
        Ok(())
    }
}

/// Says whether a file was synced, by the answer of its sync. If its file system has no sync, that is no error.
pub fn sync_if_it_can(synced: io::Result<()>) -> io::Result<bool>
    ensures ok { synced ≡ Ok tt → result ≡ Ok true }
    ensures err { (e : _) → synced ≡ Err e → result ≡ (if has_no_sync (error_kind e) then Ok false else Err e) }
{
    match synced {
        Ok(()) => Ok(true),
        Err(error) => match error.kind() {
            ErrorKind::InvalidInput | ErrorKind::Unsupported => Ok(false),
            _ => Err(error),
        },
    }
}

/// The folder of the file that a path names.
pub fn folder_of(name: &str) -> &str
    ensures { IsFolderOf name.now result.now }
{
    match name.rsplit_once('/') {
        None => ".",
        Some(("", _)) => "/",
        Some((folder, _)) => folder,
    }
}

/// Files of the system by their paths, whose content contracts cannot see.
#[derive(Drop)]
pub struct SystemImages<R: Files + Drop> {
    files: R,
}

impl<R: Files<File = File> + Drop> SystemImages<R> {
    /// The files that the runtime gives. No shelf is known.
    pub fn new(files: R) -> SystemImages<R>
        ensures { (⟦<SystemImages<R> as Images<SystemFile>>⟧.view result).shelf ≡ None }
    {
        SystemImages { files }
    }
}

impl<R: Files<File = File> + Drop> Images<SystemFile> for SystemImages<R> {
    ghost use Rattle.system_files.specs.HiddenFiles.{hidden_images};

    ghost view = { λ i. hidden_images };

    fn look(&mut self, name: &str) -> io::Result<Look> {
        match fs::metadata(&self.files, name) {
            Ok(found) if found.is_file() => Ok(Look::File),
            Ok(_) => Ok(Look::Other),
            Err(error) if error.kind() == ErrorKind::NotFound => Ok(Look::Missing),
            Err(error) => Err(error),
        }
    }

    fn open(&mut self, name: &str, access: Access) -> io::Result<SystemFile> {
        let is_changed = access == Access::Change;
        let file = OpenOptions::new()
            .read(true)
            .write(is_changed)
            .open(&self.files, name)?;
        Ok(SystemFile { file })
    }

    fn make(&mut self, name: &str) -> io::Result<SystemFile> {
        let file = File::create_new(&self.files, name)?;
        Ok(SystemFile { file })
    }

    fn settle_name(&mut self, name: &str, _: &SystemFile) -> io::Result<Naming> {
        match File::open(&self.files, folder_of(name)) {
            Ok(folder) => Ok(if sync_if_it_can(folder.sync_all())? {
                Naming::OnDisk
            } else {
                Naming::NoSync
            }),
            Err(_) => Ok(Naming::FolderClosed),
        }
    }

    fn remove(&mut self, name: &str, _: SystemFile) -> io::Result<()> {
        fs::remove_file(&self.files, name)
    }
}
