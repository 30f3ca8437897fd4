ghost use Rattle.std.specs.Prelude.{◌≡◌, ◌≤◌, [], false, length, IfOk, Err};
ghost use Rattle.std.specs.Vec.{vec_capacity};
ghost use Rattle.il_ports.specs.Files.{HasLock, IsClean};
ghost use Rattle.il_ports.specs.NamedImages.{ImagesGoOn, MakesNone};
ghost use Rattle.il_ports.specs.declared.images.Look.TheVariants as look;
ghost use Rattle.il_ports.specs.declared.tape_file.Access.TheVariants as access;
ghost use Rattle.host_files.specs.HostFiles.{Measures, ReadsCount, OpenFileRead, FoundRead, HostFileRead};
ghost use Rattle.host_files.specs.HostFiles.{IsHostContent, IsLarger};
ghost use Rattle.host_files.specs.declared.reading.NotRead.TheVariants as not_read;

use il_ports::{Access, Images, Look, TapeFile};
use std::alloc::Global;

/// How many bytes are asked for at once.
const PIECE: usize = 4_096;

/// Why a file was not read.
#[derive(Clone, Copy, Debug, PartialEq, Eq, Drop)]
pub enum NotRead {
    /// Nothing has its name.
    Missing,
    /// Something that is no file has its name, such as a folder, a pipe or a device. It was not opened.
    NotAFile,
    /// It could not be found out what has its name. Nothing was opened.
    NotLooked,
    /// There is a file of that name, but it could not be opened.
    NotOpened,
    /// It has more bytes than asked for. It was not read.
    TooLarge,
    /// One of its calls failed, or another program holds a lock to change it, or it ended before as many bytes were
    /// read as it had.
    Unread,
    /// There was no memory for its bytes. It was not read.
    OutOfMemory,
}

/// A file that could not be read.
#[derive(Drop)]
struct Unreadable;

/// Asks for the lock of a file, to read it, and for its length in bytes.
fn measure<F: TapeFile>(file: &mut F) -> Result<u64, Unreadable>
    requires opened { (F.view file.old).opened access.Read }
    ensures { Measures F.view file.old file.new result }
{
    if !file.claim(Access::Read) {
        return Err(Unreadable);
    }
    match file.len() {
        Ok(count) => Ok(count),
        Err(_) => Err(Unreadable),
    }
}

/// Reads a file from its start on, until `size` bytes are read. There is room for them.
fn read_all<F: TapeFile>(file: &mut F, size: usize, bytes: Vec<u8>) -> Result<Vec<u8>, Unreadable>
    requires empty { bytes.items ≡ [] }
    requires room { size ≤ vec_capacity bytes }
    requires held { HasLock (F.view file.old) }
    requires clean { IsClean (F.view file.old) }
    ensures { ReadsCount F.view size file.old file.new result }
{
    let mut bytes = bytes;
    let mut piece = [0; PIECE];
    'pieces: while bytes.len() < size {
        let room = PIECE.min(size - bytes.len());
        let Ok(count) = file.read_at(bytes.len() as u64, &mut piece[..room]) else {
            return Err(Unreadable);
        };
        if count == 0 {
            return Err(Unreadable);
        }
        bytes.extend_from_slice(&piece[..count]).unwrap();
    }
    Ok(bytes)
}

/// Reads a file that was opened only to be read. All memory for its bytes is taken before the first read.
fn read_opened<F: TapeFile>(alloc: Global, file: &mut F, most: usize) -> Result<Vec<u8>, NotRead>
    requires sound { (F.view file.old).broken ≡ false }
    requires opened { (F.view file.old).opened access.Read }
    ensures { OpenFileRead F.view most file.old file.new result }
{
    let Ok(count) = measure(file) else {
        return Err(NotRead::Unread);
    };
    if count > most as u64 {
        return Err(NotRead::TooLarge);
    }
    let size = count as usize;
    let Ok(bytes) = Vec::with_capacity(alloc, size) else {
        return Err(NotRead::OutOfMemory);
    };
    let Ok(()) = file.settle() else {
        return Err(NotRead::Unread);
    };
    match read_all(file, size, bytes) {
        Ok(bytes) => Ok(bytes),
        Err(Unreadable) => Err(NotRead::Unread),
    }
}

/// Reads the file of that name, which a look has found.
fn read_found<F: TapeFile + Drop, I: Images<F>>(
    alloc: Global,
    files: &mut I,
    name: &str,
    most: usize,
) -> Result<Vec<u8>, NotRead>
    requires there { (I.view files.old).was_found name.now look.File }
    ensures { FoundRead F.view I.view name.now most files.old files.new result }
{
    match files.open(name, Access::Read) {
        Ok(mut file) => read_opened(alloc, &mut file, most),
        Err(_) => Err(NotRead::NotOpened),
    }
}

/// Reads the file of that name whole, if it has at most `most` bytes. The name is its path. What has the name is looked
/// at first. Only a file is opened, and only to be read. No file is made, changed or removed. All memory for the bytes
/// is taken before the first read. The error says why the file was not read.
pub fn read_file<F: TapeFile + Drop, I: Images<F>>(
    alloc: Global,
    files: &mut I,
    name: &str,
    most: usize,
) -> Result<Vec<u8>, NotRead>
    ensures goes_on { ImagesGoOn (I.view files.old) (I.view files.new) }
    ensures unmade { MakesNone (I.view files.old) (I.view files.new) }
    ensures did { HostFileRead F.view I.view name.now most files.old files.new result }
    ensures few { IfOk result (λ bytes. length bytes.items ≤ most) }
    ensures content { IfOk result (λ bytes. IsHostContent name.now (I.view files.new).shelf bytes.items) }
    ensures larger { result ≡ Err not_read.TooLarge → IsLarger name.now most (I.view files.new).shelf }
{
    match files.look(name) {
        Ok(Look::File) => read_found(alloc, files, name, most),
        Ok(Look::Missing) => Err(NotRead::Missing),
        Ok(Look::Other) => Err(NotRead::NotAFile),
        Err(_) => Err(NotRead::NotLooked),
    }
}
