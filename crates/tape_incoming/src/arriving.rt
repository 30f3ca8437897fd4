ghost use Rattle.std.specs.Prelude.{◌≡◌, ◌<◌, ◌≤◌, IfOk, All, true, false, drop, is_some, length, map};
ghost use Rattle.tape_changes.specs.Storing.{IsStorable};
ghost use Rattle.tape_incoming.specs.Incoming.{Arrive, ByEntry, ByName, ReadsOne, entry_stated, is_no_type, last_part};
ghost use Rattle.tape_incoming.specs.Incoming.{names_given, names_stated, refused_file};

use host_files::{NotRead, read_file};
use il_ports::{Images, TapeFile};
use lif_dir::{Name, NewName};
use lif_model::MOST_BYTES;
use mended_names::names_for;
use std::alloc::{AllocError, Global};
use tape_changes::Incoming;
use tape_names::{HostEntry, entry_of_host_name};

/// Why a file of the host is not stored.
#[derive(Clone, Copy, Debug, PartialEq, Eq, Drop)]
pub enum NotStored {
    /// The last part of its path is not NAME.TYPE.FIELD.
    NoHostName,
    /// Its type is 0000 or FFFF hex, which no file has.
    NoType,
    /// No file can be given its name.
    NoNewName,
    /// It was not read, for this reason, which is never want of memory.
    NotRead(NotRead),
}

/// A file of the host that is not stored.
#[derive(Clone, Copy, Debug, Drop)]
pub struct Refused<'a> {
    /// Its path.
    pub path: &'a str,
    /// Why it is not stored.
    pub why: NotStored,
}

/// What was read of files of the host.
#[derive(Drop)]
pub struct Arrived<'a> {
    /// The files that are to be stored, in the order of their paths.
    pub files: Vec<Incoming>,
    /// The files that are not stored, in the order of their paths.
    pub refused: Vec<Refused<'a>>,
}

/// The bytes of a path after its last slash.
fn last_part(path: &[u8]) -> &[u8]
    ensures { result.now ≡ last_part path.now }
{
    let mut part = path;
    'bytes: for place in 0..path.len() {
        if path[place] == b'/' {
            part = &path[place + 1..];
        }
    }
    part
}

/// The entry that the last part of a path states.
fn entry_stated(path: &str) -> Option<HostEntry>
    ensures { result ≡ entry_stated path.now }
{
    entry_of_host_name(last_part(path.as_bytes()))
}

/// The names that paths state, of those that state an entry.
fn names_stated(alloc: Global, paths: &[&str]) -> Result<Vec<Name>, AllocError>
    ensures { IfOk result (λ names. names.items ≡ names_stated (map (λ path. path.now) paths.now)) }
{
    let mut names = Vec::with_capacity(alloc, paths.len())?;
    'paths: for path in paths {
        if let Some(entry) = entry_stated(path) {
            names.push(entry.name).unwrap();
        }
    }
    Ok(names)
}

/// Whether a type is that of no file.
fn is_no_type(kind: u16) -> bool
    ensures { result ≡ is_no_type kind }
{
    kind == 0 || kind == 0xFFFF
}

/// Reads the file of a path that states this entry, whose type is that of a file, and which gets this name. The outer
/// error is want of memory.
fn read_one<F: TapeFile + Drop, I: Images<F>>(
    alloc: Global,
    host: &mut I,
    path: &str,
    entry: &HostEntry,
    name: NewName,
) -> Result<Result<Incoming, NotStored>, AllocError>
    requires file { is_no_type entry.now.kind ≡ false }
    ensures read { IfOk result (λ outcome. ReadsOne F.view I.view path.now entry.now name host.old host.new outcome) }
    ensures storable { IfOk result (λ outcome. IfOk outcome IsStorable) }
{
    match read_file(alloc, host, path, MOST_BYTES) {
        Ok(bytes) => Ok(Ok(Incoming {
            from: entry.name,
            name,
            kind: entry.kind,
            field: entry.field,
            bytes,
        })),
        Err(NotRead::OutOfMemory) => Err(AllocError),
        Err(unread) => Ok(Err(NotStored::NotRead(unread))),
    }
}

/// Reads the file of a path that states this entry and gets this name, unless the type is that of no file, or there is no
/// name. The outer error is want of memory.
fn read_named<F: TapeFile + Drop, I: Images<F>>(
    alloc: Global,
    host: &mut I,
    path: &str,
    entry: &HostEntry,
    name: Option<NewName>,
) -> Result<Result<Incoming, NotStored>, AllocError>
    ensures read { IfOk result (λ outcome. ByName F.view I.view path.now entry.now (is_no_type entry.now.kind) name host.old host.new outcome) }
    ensures storable { IfOk result (λ outcome. IfOk outcome IsStorable) }
{
    if is_no_type(entry.kind) {
        return Ok(Err(NotStored::NoType));
    }
    match name {
        Some(name) => read_one(alloc, host, path, entry, name),
        None => Ok(Err(NotStored::NoNewName)),
    }
}

/// What becomes of the file of a path, and how many of the names were used: one if the path states an entry. The names
/// are for the paths that state an entry, this one and those after it. The error is want of memory.
fn read_path<F: TapeFile + Drop, I: Images<F>>(
    alloc: Global,
    host: &mut I,
    path: &str,
    names: &[Option<NewName>],
) -> Result<(Result<Incoming, NotStored>, usize), AllocError>
    requires enough { is_some (entry_stated path.now) ≡ true → 0 < length names.now }
    ensures read { IfOk result (λ taken. ByEntry F.view I.view path.now (entry_stated path.now) names.now (drop taken.1 names.now)
        host.old host.new taken.0) }
    ensures used { IfOk result (λ taken. taken.1 ≤ length names.now) }
    ensures storable { IfOk result (λ taken. IfOk taken.0 IsStorable) }
{
    match entry_stated(path) {
        Some(entry) => Ok((read_named(alloc, host, path, &entry, names[0])?, 1)),
        None => Ok((Err(NotStored::NoHostName), 0)),
    }
}

/// Reads the files of the host that have these paths, one after the other, each whole. The last part of a path states
/// the name, the type and the implementation field of the file. If `mend` is set, a name that no file can be given is
/// mended. The only error is want of memory.
pub fn read_files<'a, F: TapeFile + Drop, I: Images<F>>(
    alloc: Global,
    host: &mut I,
    mend: bool,
    paths: &[&'a str],
) -> Result<Arrived<'a>, AllocError>
    ensures read { IfOk result (λ arrived. Arrive F.view I.view (map (λ path. path.now) paths.now)
        (names_given mend (map (λ path. path.now) paths.now)) host.old host.new arrived.files.items (map refused_file arrived.refused.items)) }
    ensures storable { IfOk result (λ arrived. All IsStorable arrived.files.items) }
{
    let names = names_stated(alloc, paths)?;
    let given = names_for(alloc, mend, &names)?;
    let mut files = Vec::with_capacity(alloc, paths.len())?;
    let mut refused = Vec::with_capacity(alloc, paths.len())?;
    let mut place = 0;
    'paths: for path in paths {
        let (outcome, used) = read_path(alloc, host, path, &given[place..])?;
        place += used;
        match outcome {
            Ok(file) => files.push(file).unwrap(),
            Err(why) => refused.push(Refused { path, why }).unwrap(),
        }
    }
    Ok(Arrived { files, refused })
}
