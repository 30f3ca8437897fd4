ghost use Rattle.std.specs.Prelude.{Some};
ghost use Rattle.il_ports.specs.Drive.{images_of};

use crate::images::{Images, Look, Naming};
use crate::memory_file::{MemoryFile, listed};
use crate::memory_medium::find;
use crate::tape_file::Access;
use std::alloc::Global;
use std::io::{self, ErrorKind};
use std::mem;

/// Images in memory. Of several with one name, the first counts. Their calls are counted from 1. A listed call fails
/// with the kind that `fails` gives, by the first entry of its number. The first file that is opened or made fails at
/// the calls of `file_fails`. Each read and write of a file moves at most `most` bytes.
#[derive(Drop)]
pub struct MemoryImages {
    alloc: Global,
    images: Vec<(String, Vec<u8>)>,
    most: usize,
    fails: Vec<(u64, ErrorKind)>,
    file_fails: Vec<(u64, ErrorKind)>,
    calls: u64,
}

impl MemoryImages {
    ghost use Rattle.std.specs.Prelude.{◌≡◌};
    ghost use Rattle.std.specs.IoError.{error_kind};
    ghost use Rattle.lif_model.specs.Causes.{next_count};
    ghost use Rattle.il_ports.specs.MemoryFiles.{FailsAsListed};

    /// These images.
    pub fn new(
        alloc: Global,
        images: Vec<(String, Vec<u8>)>,
        most: usize,
        fails: Vec<(u64, ErrorKind)>,
        file_fails: Vec<(u64, ErrorKind)>,
    ) -> MemoryImages
        ensures images { result.images ≡ images }
        ensures most { result.most ≡ most }
        ensures fails { result.fails ≡ fails }
        ensures file_fails { result.file_fails ≡ file_fails }
        ensures calls { result.calls ≡ 0 }
    {
        MemoryImages {
            alloc,
            images,
            most,
            fails,
            file_fails,
            calls: 0,
        }
    }

    /// Counts a call, which fails or not.
    fn ask(&mut self) -> io::Result<()>
        ensures same { self.new ≡ record self.old { calls = self.new.calls } }
        ensures counts { self.new.calls ≡ next_count self.old.calls }
        ensures listed { FailsAsListed error_kind self.old.calls self.old.fails.items result }
    {
        self.calls = self.calls.saturating_add(1);
        match listed(&self.fails, self.calls) {
            None => Ok(()),
            Some(kind) => Err(kind.into()),
        }
    }
}

impl Images<MemoryFile> for MemoryImages {
    ghost use Rattle.il_ports.specs.Drive.{images_of};
    ghost use Rattle.std.specs.Prelude.{◌≡◌, [], None, Some, IfErr, IfOk, OnOk};
    ghost use Rattle.std.specs.declared.io.ErrorKind.{ErrorKind};
    ghost use Rattle.std.specs.IoError.{error_kind};
    ghost use Rattle.il_ports.specs.NamedImages.{Looked, Opened, Created, NameSettled, Removed};
    ghost use Rattle.lif_model.specs.Causes.{next_count};
    ghost use Rattle.il_ports.specs.MemoryFiles.{memory_images, failing_kind, FailsAsListed};

    ghost view = { λ m. memory_images (images_of m.images.items) };

    fn look(&mut self, name: &str) -> io::Result<Look>
        ensures did { Looked name.now
            (memory_images (images_of self.old.images.items)) (memory_images (images_of self.new.images.items)) result }
        ensures listed { FailsAsListed error_kind self.old.calls self.old.fails.items result }
        ensures counts { self.new.calls ≡ next_count self.old.calls }
    {
        self.ask()?;
        match find(&self.images, name) {
            Some(_) => Ok(Look::File),
            None => Ok(Look::Missing),
        }
    }

    fn open(&mut self, name: &str, access: Access) -> io::Result<MemoryFile>
        ensures did { Opened (⟦<MemoryFile as crate::tape_file::TapeFile>⟧.view) error_kind name.now access
            (memory_images (images_of self.old.images.items)) (memory_images (images_of self.new.images.items)) result }
        ensures listed { OnOk result (failing_kind (next_count self.old.calls) self.old.fails.items ≡ None) }
        ensures kind { (k : ErrorKind) → failing_kind (next_count self.old.calls) self.old.fails.items ≡ Some k
            → IfErr result (λ e. error_kind e ≡ k) }
        ensures counts { self.new.calls ≡ next_count self.old.calls }
        ensures file { IfOk result (λ f. (f.fails ≡ self.old.file_fails) × (f.most ≡ self.old.most) × (f.calls ≡ 0)) }
        ensures once { OnOk result (self.new.file_fails.items ≡ []) }
    {
        self.ask()?;
        let fails = mem::replace(&mut self.file_fails, Vec::new(self.alloc));
        match find(&self.images, name) {
            Some((_, bytes)) => Ok(MemoryFile::new(self.alloc, name, bytes, self.most, fails)?),
            None => Err(ErrorKind::NotFound.into()),
        }
    }

    fn make(&mut self, name: &str) -> io::Result<MemoryFile>
        ensures did { Created (⟦<MemoryFile as crate::tape_file::TapeFile>⟧.view) name.now
            (memory_images (images_of self.old.images.items)) (memory_images (images_of self.new.images.items)) result }
        ensures listed { OnOk result (failing_kind (next_count self.old.calls) self.old.fails.items ≡ None) }
        ensures kind { (k : ErrorKind) → failing_kind (next_count self.old.calls) self.old.fails.items ≡ Some k
            → IfErr result (λ e. error_kind e ≡ k) }
        ensures counts { self.new.calls ≡ next_count self.old.calls }
        ensures file { IfOk result (λ f. (f.fails ≡ self.old.file_fails) × (f.most ≡ self.old.most) × (f.calls ≡ 0)) }
        ensures once { OnOk result (self.new.file_fails.items ≡ []) }
    {
        self.ask()?;
        let fails = mem::replace(&mut self.file_fails, Vec::new(self.alloc));
        match find(&self.images, name) {
            Some(_) => Err(ErrorKind::AlreadyExists.into()),
            None => Ok(MemoryFile::new(self.alloc, name, &[], self.most, fails)?),
        }
    }

    fn settle_name(&mut self, name: &str, _: &MemoryFile) -> io::Result<Naming>
        ensures did { NameSettled name.now
            (memory_images (images_of self.old.images.items)) (memory_images (images_of self.new.images.items)) result }
        ensures listed { FailsAsListed error_kind self.old.calls self.old.fails.items result }
        ensures counts { self.new.calls ≡ next_count self.old.calls }
    {
        self.ask()?;
        Ok(Naming::OnDisk)
    }

    fn remove(&mut self, _: &str, _: MemoryFile) -> io::Result<()>
        ensures did { Removed
            (memory_images (images_of self.old.images.items)) (memory_images (images_of self.new.images.items)) result }
        ensures listed { FailsAsListed error_kind self.old.calls self.old.fails.items result }
        ensures counts { self.new.calls ≡ next_count self.old.calls }
    {
        self.ask()
    }
}
