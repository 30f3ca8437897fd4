ghost use Rattle.std.specs.Prelude.{◌≡◌, ◌++◌, IfOk, string_bytes};
ghost use Rattle.il_ports.specs.MemoryFiles.{failing_kind};
ghost use Rattle.tape_folder.specs.Folders.{part_name};

use crate::folder::Folder;
use crate::part_name::push_part_name;
use crate::shelf::{add, copy_of, find, is_one_of, remove};
use il_ports::Look;
use std::alloc::{AllocError, Global};
use std::io::{self, ErrorKind};

/// The name of the part file of that number.
fn name_of_part(alloc: Global, number: u32) -> Result<String, AllocError>
    ensures { IfOk result (λ name. string_bytes name ≡ part_name number) }
{
    let mut name = String::new(alloc);
    push_part_name(&mut name, number)?;
    Ok(name)
}

/// How the first entry of that call says that it fails.
fn listed(fails: &[(u64, ErrorKind)], call: u64) -> Option<ErrorKind>
    ensures { result ≡ failing_kind call fails.now }
{
    for fail in fails {
        if fail.0 == call {
            return Some(fail.1);
        }
    }
    None
}

/// A folder in memory, which is always there. Of several files with one name, the first counts. Its calls are counted
/// from 1. A listed call fails with the kind that `fails` gives, by the first entry of its number. If that is
/// `AlreadyExists`, which says that a name is taken, the call fails with `Other`.
#[derive(Drop)]
pub struct MemoryFolder {
    alloc: Global,
    path: String,
    files: Vec<(String, Vec<u8>)>,
    /// The names of what is no file.
    others: Vec<String>,
    /// The files when the folder was last settled, and at first.
    on_disk: Vec<(String, Vec<u8>)>,
    first: Vec<(String, Vec<u8>)>,
    /// The number of the open part file, its bytes, and whether the disk has them.
    part: Option<u32>,
    written: Vec<u8>,
    is_synced: bool,
    fails: Vec<(u64, ErrorKind)>,
    calls: u64,
    failures: u64,
    unremoved: u64,
}

impl MemoryFolder {
    ghost use Rattle.std.specs.Prelude.{◌≡◌, ◌++◌, IfOk, IfSome, None, Some, OnSome, string_bytes};
    ghost use Rattle.std.specs.IoError.{error_kind};
    ghost use Rattle.lif_model.specs.Causes.{HasCause, Rose, next_count};
    ghost use Rattle.il_ports.specs.Drive.{images_of};
    ghost use Rattle.tape_folder.specs.HiddenFolders.{part_named};
    ghost use Rattle.tape_folder.specs.MemoryFolders.{AsksAsListed, FilesBut, IsFoundInMemory};

    /// A folder of that path with these files, all of them on the disk, and with something that is no file under each
    /// of the names `others`.
    pub fn new(
        alloc: Global,
        path: &str,
        files: Vec<(String, Vec<u8>)>,
        others: Vec<String>,
        fails: Vec<(u64, ErrorKind)>,
    ) -> Result<MemoryFolder, AllocError>
        ensures path { IfOk result (λ f. string_bytes f.path ≡ path.now) }
        ensures others { IfOk result (λ f. f.others ≡ others) }
        ensures files { IfOk result (λ f. f.files ≡ files) }
        ensures on_disk { IfOk result (λ f. images_of f.on_disk.items ≡ images_of files.items) }
        ensures first { IfOk result (λ f. images_of f.first.items ≡ images_of files.items) }
        ensures closed { IfOk result (λ f. f.part ≡ None) }
        ensures fails { IfOk result (λ f. f.fails ≡ fails) }
        ensures calls { IfOk result (λ f. f.calls ≡ 0) }
        ensures failures { IfOk result (λ f. f.failures ≡ 0) }
        ensures unremoved { IfOk result (λ f. f.unremoved ≡ 0) }
    {
        Ok(MemoryFolder {
            alloc,
            path: String::from_str(alloc, path)?,
            others,
            on_disk: copy_of(alloc, &files)?,
            first: copy_of(alloc, &files)?,
            files,
            part: None,
            written: Vec::new(alloc),
            is_synced: false,
            fails,
            calls: 0,
            failures: 0,
            unremoved: 0,
        })
    }

    /// The files, oldest first, with the part files.
    pub fn files(&self) -> &[(String, Vec<u8>)]
        ensures { (⟦<MemoryFolder as Folder>⟧.view self.now).files ≡ Some (images_of result.now) }
    {
        &self.files
    }

    /// How many calls were made, up to the largest number of the type.
    pub fn calls(&self) -> u64
        ensures { result ≡ self.now.calls }
    {
        self.calls
    }

    /// What has that name.
    fn found(&self, name: &str) -> Look
        ensures { IsFoundInMemory name.now (images_of self.now.files.items) self.now.others.items result }
    {
        match find(&self.files, name) {
            Some(_) => Look::File,
            None => {
                if is_one_of(&self.others, name) {
                    Look::Other
                } else {
                    Look::Missing
                }
            }
        }
    }

    /// The name of the open part file, unless there is no memory for it.
    fn part_name(&self) -> Option<String>
        ensures { IfSome result (λ name. part_named self.now.part ≡ Some (string_bytes name)) }
    {
        match self.part {
            None => None,
            Some(number) => name_of_part(self.alloc, number).ok(),
        }
    }

    /// Appends these bytes to the part file. If there is no memory, the part file may have any bytes.
    fn append(&mut self, bytes: &[u8]) -> Option<()>
        ensures same { self.new ≡ record self.old { files = self.new.files; written = self.new.written } }
        ensures written { OnSome result (self.new.written.items ≡ self.old.written.items ++ bytes.now) }
        ensures others { FilesBut (part_named self.old.part)
            (images_of self.old.files.items) (images_of self.new.files.items) }
    {
        let part = self.part_name()?;
        self.written.extend_from_slice(bytes).ok()?;
        remove(&mut self.files, &part);
        add(self.alloc, &mut self.files, &part, &self.written).ok()
    }

    /// Counts a failure.
    fn failed(&mut self, kind: ErrorKind) -> io::Error
        ensures rose { Rose self.old.failures self.new.failures }
        ensures same { self.new ≡ record self.old { failures = self.new.failures } }
        ensures kind { error_kind result ≡ kind }
    {
        self.failures = self.failures.saturating_add(1);
        kind.into()
    }

    /// Counts a call, which fails or not.
    fn ask(&mut self) -> io::Result<()>
        ensures cause { HasCause self.old.failures self.new.failures result }
        ensures same { self.new ≡ record self.old { calls = self.new.calls; failures = self.new.failures } }
        ensures counts { self.new.calls ≡ next_count self.old.calls }
        ensures listed { AsksAsListed error_kind self.old.calls self.old.fails.items result }
    {
        self.calls = self.calls.saturating_add(1);
        match listed(&self.fails, self.calls) {
            None => Ok(()),
            Some(ErrorKind::AlreadyExists) => Err(self.failed(ErrorKind::Other)),
            Some(kind) => Err(self.failed(kind)),
        }
    }
}

impl Folder for MemoryFolder {
    ghost use Rattle.std.specs.Prelude.{string_bytes};
    ghost use Rattle.il_ports.specs.Drive.{images_of};
    ghost use Rattle.tape_folder.specs.MemoryFolders.{memory_folder, memory_is_folder};

    ghost view = { λ f. memory_folder (string_bytes f.path) f.others.items (images_of f.files.items)
        (images_of f.on_disk.items) (images_of f.first.items)
        f.part f.written.items f.is_synced f.failures f.unremoved };

    ghost is_folder = { λ f. memory_is_folder (string_bytes f.path) f.others.items (images_of f.files.items)
        (images_of f.on_disk.items) (images_of f.first.items)
        f.part f.written.items f.is_synced f.failures f.unremoved };

    fn prepare(&mut self) -> io::Result<()> {
        self.ask()
    }

    fn look(&mut self, name: &str) -> io::Result<Look> {
        self.ask()?;
        Ok(self.found(name))
    }

    fn holds(&mut self, name: &str, bytes: &[u8]) -> io::Result<bool> {
        self.ask()?;
        match find(&self.files, name) {
            Some(found) => Ok(found == bytes),
            None => Ok(false),
        }
    }

    fn make(&mut self, number: u32) -> io::Result<()> {
        self.ask()?;
        let Ok(name) = name_of_part(self.alloc, number) else {
            return Err(self.failed(ErrorKind::OutOfMemory));
        };
        match self.found(&name) {
            Look::Missing => {}
            Look::File | Look::Other => return Err(ErrorKind::AlreadyExists.into()),
        }
        if add(self.alloc, &mut self.files, &name, &[]).is_err() {
            return Err(self.failed(ErrorKind::OutOfMemory));
        }
        self.part = Some(number);
        self.written = Vec::new(self.alloc);
        self.is_synced = false;
        Ok(())
    }

    fn write(&mut self, bytes: &[u8]) -> io::Result<()> {
        self.is_synced = false;
        self.ask()?;
        match self.append(bytes) {
            Some(()) => Ok(()),
            None => Err(self.failed(ErrorKind::OutOfMemory)),
        }
    }

    fn sync(&mut self) -> io::Result<()> {
        self.ask()?;
        self.is_synced = true;
        Ok(())
    }

    fn link(&mut self, name: &str) -> io::Result<()> {
        self.ask()?;
        match self.found(name) {
            Look::Missing => {}
            Look::File | Look::Other => return Err(ErrorKind::AlreadyExists.into()),
        }
        match add(self.alloc, &mut self.files, name, &self.written) {
            Ok(()) => Ok(()),
            Err(_) => Err(self.failed(ErrorKind::OutOfMemory)),
        }
    }

    fn rename(&mut self, name: &str) -> io::Result<()> {
        self.ask()?;
        let Some(part) = self.part_name() else {
            return Err(self.failed(ErrorKind::OutOfMemory));
        };
        if add(self.alloc, &mut self.files, name, &self.written).is_err() {
            return Err(self.failed(ErrorKind::OutOfMemory));
        }
        remove(&mut self.files, &part);
        self.part = None;
        Ok(())
    }

    fn remove(&mut self) -> io::Result<()> {
        let part = self.part_name();
        self.part = None;
        if let Err(error) = self.ask() {
            self.unremoved = self.unremoved.saturating_add(1);
            return Err(error);
        }
        match part {
            Some(part) => {
                remove(&mut self.files, &part);
                Ok(())
            }
            None => {
                self.unremoved = self.unremoved.saturating_add(1);
                Err(self.failed(ErrorKind::OutOfMemory))
            }
        }
    }

    fn settle(&mut self) -> io::Result<()> {
        self.ask()?;
        match copy_of(self.alloc, &self.files) {
            Ok(files) => {
                self.on_disk = files;
                Ok(())
            }
            Err(_) => Err(self.failed(ErrorKind::OutOfMemory)),
        }
    }
}
