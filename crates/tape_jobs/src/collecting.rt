ghost use Rattle.std.specs.Prelude.{◌≡◌, [], IfOk, true};
ghost use Rattle.lif_model.specs.Apply.{Dir};
ghost use Rattle.tape_jobs.specs.Collecting.{CollectDid, FileCollected, IsAdded, NamedCollected, collected_content};
ghost use Rattle.tape_jobs.specs.Out.{GoesOnBeside};
ghost use Rattle.tape_volumes.specs.Volumes.{StaysBeside, StopLeaves, content_in};

use crate::copying::names_to_copy;
use il_script::Reply;
use lif_dir::Name;
use std::alloc::{AllocError, Global};
use tape_volumes::{FileRead, VolumeJob, Volumes, Went};

/// A file of an image, in memory.
#[derive(Drop)]
pub struct Collected {
    /// Its name.
    pub name: Name,
    /// Its type.
    pub kind: u16,
    /// Its implementation field, whose meaning depends on the type.
    pub field: [u8; 4],
    /// The bytes of all its records.
    pub bytes: Vec<u8>,
}

/// A copy of a file that was read.
fn copy_of(alloc: Global, name: &Name, file: FileRead<'_>) -> Result<Collected, AllocError>
    ensures name { IfOk result (λ f. f.name ≡ name.now) }
    ensures content { IfOk result (λ f. collected_content f ≡ content_in file.entry) }
{
    Ok(Collected {
        name: *name,
        kind: file.kind,
        field: file.field,
        bytes: file.bytes.to_vec(alloc)?,
    })
}

/// Adds a copy of a file that was read.
fn add_copy(
    alloc: Global,
    name: &Name,
    file: FileRead<'_>,
    files: &mut Vec<Collected>,
) -> Result<(), AllocError>
    ensures { IfOk result (λ _. IsAdded name.now (content_in file.entry) files.old.items files.new.items) }
{
    let copy = copy_of(alloc, name, file)?;
    files.push(copy)?;
    Ok(())
}

/// Reads the file of that name, and adds it to those that were read, or says how the job goes without it.
fn collect_file<V: Volumes>(
    alloc: Global,
    volumes: &mut V,
    name: &Name,
    files: &mut Vec<Collected>,
) -> Result<(), Went>
    requires valid { (V.seen volumes.old).valid }
    ensures valid { (V.seen volumes.new).valid }
    ensures collected { FileCollected name.now files.old.items files.new.items result
        (V.seen volumes.old).mounted (V.seen volumes.new).mounted }
    ensures beside { GoesOnBeside (StopLeaves Dir (V.seen volumes.old).mounted)
        (V.seen volumes.old) (V.seen volumes.new) }
{
    match volumes.fetch(name) {
        Reply::Ok => match add_copy(alloc, name, volumes.file(), files) {
            Ok(()) => Ok(()),
            Err(_) => Err(Went::OutOfMemory),
        },
        Reply::No(code) => Err(Went::Refused(code)),
        Reply::FaultFrame | Reply::FaultMedium => Err(Went::Fault),
    }
}

/// Reads the files of these names.
fn collect_files<V: Volumes>(
    alloc: Global,
    volumes: &mut V,
    names: &[Name],
    files: &mut Vec<Collected>,
) -> Went
    requires valid { (V.seen volumes.old).valid }
    requires empty { files.old.items ≡ [] }
    ensures valid { (V.seen volumes.new).valid }
    ensures collected { NamedCollected result names.now files.new.items
        (V.seen volumes.old).mounted (V.seen volumes.new).mounted }
    ensures beside { GoesOnBeside (StopLeaves Dir (V.seen volumes.old).mounted)
        (V.seen volumes.old) (V.seen volumes.new) }
{
    'names: for name in names {
        match collect_file(alloc, volumes, name, files) {
            Ok(()) => {}
            Err(went) => return went,
        }
    }
    Went::Done
}

/// Reads all files, after the directory was read.
fn collect_listed<V: Volumes>(alloc: Global, volumes: &mut V, files: &mut Vec<Collected>) -> Went
    requires valid { (V.seen volumes.old).valid }
    requires kept { (V.seen volumes.old).mounted.kept ≡ true }
    requires empty { files.old.items ≡ [] }
    ensures valid { (V.seen volumes.new).valid }
    ensures collects { CollectDid result files.new.items (V.seen volumes.old).mounted (V.seen volumes.new).mounted }
    ensures beside { GoesOnBeside (StopLeaves Dir (V.seen volumes.old).mounted)
        (V.seen volumes.old) (V.seen volumes.new) }
{
    match names_to_copy(alloc, volumes, &[]) {
        Ok(names) => collect_files(alloc, volumes, &names, files),
        Err(_) => Went::OutOfMemory,
    }
}

/// Reads all files of the image except the redo file.
fn collect<V: Volumes>(alloc: Global, volumes: &mut V, files: &mut Vec<Collected>) -> Went
    requires valid { (V.seen volumes.old).valid }
    requires empty { files.old.items ≡ [] }
    ensures valid { (V.seen volumes.new).valid }
    ensures collects { CollectDid result files.new.items (V.seen volumes.old).mounted (V.seen volumes.new).mounted }
    ensures beside { StaysBeside (StopLeaves Dir (V.seen volumes.old).mounted)
        (V.seen volumes.old) (V.seen volumes.new) }
{
    match volumes.list() {
        Reply::Ok => collect_listed(alloc, volumes, files),
        Reply::No(code) => Went::Refused(code),
        Reply::FaultFrame | Reply::FaultMedium => Went::Fault,
    }
}

/// The job that reads all files of one image except the redo file, and keeps them in memory.
#[derive(Drop)]
pub struct Collecting {
    /// The files, in the order of their slots. It is empty at first.
    pub files: Vec<Collected>,
}

impl VolumeJob for Collecting {
    ghost use Rattle.std.specs.Prelude.{◌≡◌, []};
    ghost use Rattle.lif_model.specs.Apply.{Dir};
    ghost use Rattle.tape_jobs.specs.Collecting.{CollectDid};
    ghost use Rattle.tape_volumes.specs.Volumes.{StopLeaves};

    ghost asks = { λ job. job.files.items ≡ [] };

    ghost does = { λ old new went s t. CollectDid went new.files.items s t };

    ghost leaves = { λ job s x. StopLeaves Dir s x };

    fn work<V: Volumes>(&mut self, alloc: Global, volumes: &mut V) -> Went {
        collect(alloc, volumes, &mut self.files)
    }
}
