ghost use Rattle.std.specs.Prelude.{◌≡◌, ◌*◌, ◌+◌, ◌<◌, ◌≤◌, ◌^◌, false};
ghost use Rattle.il_ports.specs.Files.{HasLock, IsClean};
ghost use Rattle.il_ports.specs.Storing.{FetchedBytes, Put, StoredBytes};
ghost use Rattle.il_ports.specs.declared.tape_file.Access.TheVariants.{Change};

use crate::image::Size;
use crate::stream::{Failed, faulted};
use crate::tape_file::{Access, TapeFile};
use lif_model::RECORD;
use std::io;
use std::marker::Model;

/// Reads 256 bytes. After the file's end they are zeros.
fn fetch<F: TapeFile>(file: &mut F, from: u64, into: &mut [u8; 256]) -> io::Result<()>
    requires small { from < 2 ^ 32 }
    requires held { HasLock (F.view file.old) }
    requires clean { IsClean (F.view file.old) }
    ensures { FetchedBytes from into.new (F.view file.old) (F.view file.new) result }
{
    let mut filled = 0;
    'pieces: while filled < RECORD {
        let count = file.read_at(from + filled as u64, &mut into[filled..])?;
        if count == 0 {
            into[filled..].fill(0);
            return Ok(());
        }
        filled += count;
    }
    Ok(())
}

/// Writes 256 bytes, which then wait for a sync.
fn put<F: TapeFile>(file: &mut F, from: u64, bytes: &[u8; 256]) -> io::Result<()>
    requires small { from < 2 ^ 32 }
    requires apart { (F.view file.old).apart }
    requires held { (F.view file.old).held Change }
    requires clean { IsClean (F.view file.old) }
    ensures { Put from bytes.now (F.view file.old) (F.view file.new) result }
{
    let mut written = 0;
    'pieces: while written < RECORD {
        written += file.write_at(from + written as u64, &bytes[written..])?;
    }
    Ok(())
}

/// Why bytes were not stored.
#[derive(Clone, Copy, Debug, PartialEq, Eq)]
enum StoreFault {
    /// The disk has what the file reads as, with any bytes in the places that were to be written.
    Failed,
    /// The file was not synced: what it reads as may never reach the disk.
    Unsynced,
}

/// Writes 256 bytes, and waits until the disk has them. It also syncs if only some of them were written.
fn store<F: TapeFile>(file: &mut F, from: u64, bytes: &[u8; 256]) -> Result<(), StoreFault>
    requires small { from < 2 ^ 32 }
    requires apart { (F.view file.old).apart }
    requires held { (F.view file.old).held Change }
    requires clean { IsClean (F.view file.old) }
    ensures { StoredBytes from bytes.now (F.view file.old) (F.view file.new) result }
{
    let wrote = put(file, from, bytes);
    match (file.sync(), wrote) {
        (Ok(()), Ok(())) => Ok(()),
        (Ok(()), Err(_)) => Err(StoreFault::Failed),
        (Err(_), _) => Err(StoreFault::Unsynced),
    }
}

/// A tape in a file. After a failed sync each later call is a counted fault, and nothing more is asked of the file. If
/// the file is only read, each write is a counted fault.
#[derive(Drop)]
pub struct FileTape<F: TapeFile + Drop> {
    file: F,
    size: Size,
    access: Access,
    /// A sync failed.
    is_broken: bool,
    faults: u64,
}

impl<F: TapeFile + Drop> Model for FileTape<F> {
    ghost use Rattle.il_ports.specs.FileTapes.{TapeState, IsInOrder};

    ghost Value = { TapeState F };

    ghost view = { λ m. record { file = m.file; size = m.size; access = m.access; is_broken = m.is_broken; faults = m.faults } };

    ghost invariant = { λ m. IsInOrder F.view (record { file = m.file; size = m.size; access = m.access; is_broken = m.is_broken; faults = m.faults }) };
}

impl<F: TapeFile + Drop> FileTape<F> {
    ghost use Rattle.std.specs.Prelude.{◌≡◌, ◌<◌, Option, false};
    ghost use Rattle.lif_model.specs.Shelf.{Shelf};
    ghost use Rattle.il_ports.specs.Media.{DidReadRecord, DidWriteRecord};
    ghost use Rattle.il_ports.specs.Sizes.{records_of_size};
    ghost use Rattle.il_ports.specs.Files.{IsClean};
    ghost use Rattle.il_ports.specs.FileTapes.{tape_view, ReadFails, WriteFails, StaysOpen, ReachesRecord};

    /// The tape in that file, which has the lock for that access, in a drive of which `faults` calls have failed.
    pub fn new(file: F, size: Size, access: Access, faults: u64) -> FileTape<F>
        requires clean { IsClean (F.view file) }
        requires held { (F.view file).held access }
        requires apart { (F.view file).apart }
        ensures { result ≡ record { file = file; size = size; access = access; is_broken = false; faults = faults } }
    {
        FileTape {
            file,
            size,
            access,
            is_broken: false,
            faults,
        }
    }

    /// The number of records, 512 or 2,464.
    pub fn records(&self) -> u16
        ensures { result ≡ records_of_size self.now.size }
    {
        self.size.records()
    }

    /// The file.
    pub fn file(&self) -> &F
        ensures { result.now ≡ self.now.file }
    {
        &self.file
    }

    /// The file, of which nothing more is asked as a tape.
    pub fn into_file(self) -> F
        ensures { result ≡ self.file }
    {
        self.file
    }

    /// Reads record `n`, which the tape has. After the file's end its bytes are zeros.
    pub fn read(&mut self, n: u16, into: &mut [u8; 256]) -> Result<(), Failed>
        requires { n < records_of_size self.old.size }
        ensures did { (images : Option Shelf) → DidReadRecord n into.new (tape_view F.view images self.old) (tape_view F.view images self.new) result }
        ensures cause { ReadFails F.view self.old self.new result }
        ensures open { StaysOpen F.view self.old self.new }
    {
        if self.is_broken {
            return Err(faulted(&mut self.faults));
        }
        match fetch(&mut self.file, RECORD as u64 * u64::from(n), into) {
            Ok(()) => Ok(()),
            Err(_) => Err(faulted(&mut self.faults)),
        }
    }

    /// Writes record `n`, which the tape has. After `Ok` it is on the disk. The file becomes no shorter, and it grows
    /// no further than to the end of the record.
    pub fn write(&mut self, n: u16, from: &[u8; 256]) -> Result<(), Failed>
        requires { n < records_of_size self.old.size }
        ensures did { (images : Option Shelf) → DidWriteRecord n from.now (tape_view F.view images self.old) (tape_view F.view images self.new) result }
        ensures cause { WriteFails F.view self.old self.new result }
        ensures open { StaysOpen F.view self.old self.new }
        ensures size { ReachesRecord F.view n self.old self.new }
    {
        if self.is_broken || self.access == Access::Read {
            return Err(faulted(&mut self.faults));
        }
        self.is_broken = true;
        match store(&mut self.file, RECORD as u64 * u64::from(n), from) {
            Ok(()) => {
                self.is_broken = false;
                Ok(())
            }
            Err(fault) => {
                self.is_broken = fault == StoreFault::Unsynced;
                Err(faulted(&mut self.faults))
            }
        }
    }
}
