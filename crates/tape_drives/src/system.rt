use crate::drives::Drives;
use crate::folders::Folders;
use crate::made::{make_among, take_away};
use crate::makers::Makers;
use il_ports::{FileMedium, Images, Size, TapeFile, ToChange, ToRead};
use made_images::{MadeImage, NotMade};
use std::alloc::{AllocError, Global};
use std::fs::File;
use std::rt::Files;
use system_files::{SystemFile, SystemImages};
use tape_folder::SystemFolder;

/// Drives over the files of the system. Each opens its image to change it, or only to read it if the image may not be
/// changed. A drive that is back is dropped, which closes its image.
#[derive(Drop)]
pub struct SystemDrives<R: Files> {
    files: R,
}

impl<R: Files<File = File> + Copy + Drop> SystemDrives<R> {
    /// Drives over the files that the runtime gives.
    pub fn new(files: R) -> SystemDrives<R> {
        SystemDrives { files }
    }
}

impl<R: Files<File = File> + Copy + Drop> Drives<FileMedium<SystemFile, SystemImages<R>, ToChange>>
    for SystemDrives<R> {
    ghost use Rattle.tape_drives.specs.Lending.{unrecorded};

    ghost lent = { λ drives. unrecorded };

    fn drive(&mut self) -> FileMedium<SystemFile, SystemImages<R>, ToChange> {
        FileMedium::new(SystemImages::new(self.files))
    }

    fn back(&mut self, _: FileMedium<SystemFile, SystemImages<R>, ToChange>) {}
}

/// Drives over the files of the system, which open their images only to read them.
#[derive(Drop)]
pub struct SystemReaders<R: Files> {
    files: R,
}

impl<R: Files<File = File> + Copy + Drop> SystemReaders<R> {
    /// Drives over the files that the runtime gives.
    pub fn new(files: R) -> SystemReaders<R> {
        SystemReaders { files }
    }
}

impl<R: Files<File = File> + Copy + Drop> Drives<FileMedium<SystemFile, SystemImages<R>, ToRead>>
    for SystemReaders<R> {
    ghost use Rattle.tape_drives.specs.Lending.{unrecorded};

    ghost lent = { λ drives. unrecorded };

    fn drive(&mut self) -> FileMedium<SystemFile, SystemImages<R>, ToRead> {
        FileMedium::to_read(SystemImages::new(self.files))
    }

    fn back(&mut self, _: FileMedium<SystemFile, SystemImages<R>, ToRead>) {}
}

/// Folders of the system, by their paths. A folder that is back is dropped, which closes what it has opened.
#[derive(Drop)]
pub struct SystemFolders<R: Files> {
    files: R,
}

impl<R: Files<File = File> + Copy + Drop> SystemFolders<R> {
    /// Folders among the files that the runtime gives.
    pub fn new(files: R) -> SystemFolders<R> {
        SystemFolders { files }
    }
}

impl<R: Files<File = File> + Copy + Drop> Folders<SystemFolder<R>> for SystemFolders<R> {
    ghost use Rattle.tape_drives.specs.Lending.{unrecorded};

    ghost lent = { λ folders. unrecorded };

    fn folder(&mut self, alloc: Global, path: &str) -> Result<SystemFolder<R>, AllocError> {
        SystemFolder::new(alloc, self.files, path)
    }

    fn back(&mut self, _: SystemFolder<R>) {}
}

/// New images as files of the system. A drive that is back is dropped, which closes its image.
#[derive(Drop)]
pub struct SystemMakers<R: Files> {
    files: R,
}

impl<R: Files<File = File> + Copy + Drop> SystemMakers<R> {
    /// New images among the files that the runtime gives.
    pub fn new(files: R) -> SystemMakers<R> {
        SystemMakers { files }
    }
}

impl<R: Files<File = File> + Copy + Drop> Makers<MadeImage<SystemFile, SystemImages<R>>>
    for SystemMakers<R> {
    ghost use Rattle.tape_drives.specs.SystemMaking.{making_of};

    ghost making = { λ makers. making_of ⟦<SystemFile as TapeFile>⟧.view ⟦<SystemImages<R> as Images<SystemFile>>⟧.view };

    fn make(
        &mut self,
        alloc: Global,
        name: &str,
        size: Size,
    ) -> Result<MadeImage<SystemFile, SystemImages<R>>, NotMade> {
        make_among(alloc, SystemImages::new(self.files), name, size)
    }

    fn keep(&mut self, _: MadeImage<SystemFile, SystemImages<R>>) {}

    fn remove(&mut self, drive: MadeImage<SystemFile, SystemImages<R>>) -> bool {
        take_away(drive)
    }
}
