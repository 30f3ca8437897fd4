ghost use Rattle.std.specs.Prelude.{◌≡◌, ◌≤◌, ◌<◌, ◌+◌, ◌++◌, ◌∷◌, [], None, IfOk, OnOk, MatchOption};
ghost use Rattle.std.specs.Prelude.{true, false, length, map};
ghost use Rattle.std.specs.Vec.{vec_capacity};
ghost use Rattle.lif_model.specs.Apply.{Dir};
ghost use Rattle.lif_dir.specs.Entries.{name_bytes};
ghost use Rattle.tape_text.specs.Listing.{shown_slot, shown_files};
ghost use Rattle.tape_folder.specs.Keeping.{FileKept};
ghost use Rattle.tape_folder.specs.Folders.{is_hidden};
ghost use Rattle.tape_jobs.specs.Out.{AreNamesCopied, Copied, CopyDid, FolderWent, GoesOnBeside, HasRoomForName};
ghost use Rattle.tape_jobs.specs.Out.{AreSlotsExact, OutDid, FilesWentBy, named};
ghost use Rattle.tape_jobs.specs.Out.{all_copied, has_fault, host_name, is_before_folder, is_failed_read, most_copied};
ghost use Rattle.tape_volumes.specs.Volumes.{StaysBeside, StopLeaves, content_in, volume_shown};

use crate::progress::Progress;
use crate::slot_counts::{are_few, most_slots};
use il_ports::Sink;
use il_script::{Code, Page, Reply};
use lif_dir::{Name, Slot, SlotTable};
use lif_plan::is_redo_file;
use std::alloc::{AllocError, Global};
use tape_folder::{Folder, Kept, keep};
use tape_names::{host_name_text, put_host_name};
use tape_volumes::{FileRead, VolumeJob, Volumes, Went};

/// What became of a file that was to be copied.
#[derive(Clone, Copy, Debug, PartialEq, Eq)]
pub enum FileEnd {
    /// It was read, and this is what the folder did.
    Kept(Kept),
    /// The volume refused to read it.
    Refused(Code),
    /// The medium failed.
    Fault,
}

impl FileEnd {
    ghost use Rattle.std.specs.Prelude.{◌≡◌};
    ghost use Rattle.tape_jobs.specs.Out.{is_copied};

    /// Whether the folder has the file.
    pub fn is_copied(self) -> bool
        ensures { result ≡ is_copied self }
    {
        matches!(self, FileEnd::Kept(Kept::Written | Kept::WasThere))
    }
}

/// A file that was to be copied, and what became of it.
#[derive(Clone, Copy, Debug, PartialEq, Eq)]
pub struct Taken {
    /// The name of the file.
    pub name: Name,
    /// What became of it.
    pub end: FileEnd,
}

/// Keeps a file that was read in the folder, under its host name.
fn keep_file<F: Folder>(name: &Name, file: FileRead<'_>, folder: &mut F, page: &mut Page) -> Kept
    requires room { HasRoomForName page.old }
    requires closed { (F.view folder.old).part ≡ None }
    ensures room { page.new.room ≡ page.old.room }
    ensures plain { is_hidden (host_name (name_bytes name.now) (content_in file.entry)) ≡ false }
    ensures kept { FileKept (host_name (name_bytes name.now) (content_in file.entry)) file.entry.bytes.now result
        (F.view folder.old) (F.view folder.new) }
{
    page.clear();
    put_host_name(page, name, file.kind, &file.field);
    keep(folder, host_name_text(page), file.bytes)
}

/// Reads a file of the image, and keeps it in the folder.
fn take_file<V: Volumes, F: Folder>(
    volumes: &mut V,
    name: &Name,
    folder: &mut F,
    page: &mut Page,
) -> FileEnd
    requires valid { (V.seen volumes.old).valid }
    requires room { HasRoomForName page.old }
    requires closed { (F.view folder.old).part ≡ None }
    ensures valid { (V.seen volumes.new).valid }
    ensures room { page.new.room ≡ page.old.room }
    ensures copied { Copied (is_failed_read result) (record { name = name.now; end = result } ∷ [])
        (V.seen volumes.old).mounted (V.seen volumes.new).mounted (F.view folder.old) (F.view folder.new) }
    ensures beside { GoesOnBeside (StopLeaves Dir (V.seen volumes.old).mounted)
        (V.seen volumes.old) (V.seen volumes.new) }
{
    match volumes.fetch(name) {
        Reply::Ok => FileEnd::Kept(keep_file(name, volumes.file(), folder, page)),
        Reply::No(code) => FileEnd::Refused(code),
        Reply::FaultFrame | Reply::FaultMedium => FileEnd::Fault,
    }
}

/// Copies the files of these names. If one cannot be copied, the next one is.
fn take_files<V: Volumes, F: Folder, P: Sink + Drop>(
    volumes: &mut V,
    names: &[Name],
    folder: &mut F,
    page: &mut Page,
    progress: &mut Progress<P>,
    ends: &mut Vec<Taken>,
)
    requires valid { (V.seen volumes.old).valid }
    requires room { HasRoomForName page.old }
    requires closed { (F.view folder.old).part ≡ None }
    requires empty { ends.old.items ≡ [] }
    requires space { length names.now ≤ vec_capacity ends.old }
    ensures valid { (V.seen volumes.new).valid }
    ensures names { map (λ taken. taken.name) ends.new.items ≡ names.now }
    ensures copied { Copied (has_fault ends.new.items) ends.new.items
        (V.seen volumes.old).mounted (V.seen volumes.new).mounted (F.view folder.old) (F.view folder.new) }
    ensures beside { GoesOnBeside (StopLeaves Dir (V.seen volumes.old).mounted)
        (V.seen volumes.old) (V.seen volumes.new) }
{
    for name in names {
        progress.tell(ends.len() + 1, names.len(), name, page);
        let end = take_file(volumes, name, folder, page);
        ends.push(Taken { name: *name, end }).unwrap();
    }
}

/// Whether all files were copied.
fn all_copied(ends: &[Taken]) -> bool
    ensures { result ≡ all_copied ends.now }
{
    for taken in ends {
        if !taken.end.is_copied() {
            return false;
        }
    }
    true
}

/// Says how the job went by what became of the files.
fn went_by(ends: &[Taken]) -> Went
    ensures { FilesWentBy result ends.now }
{
    if all_copied(ends) {
        Went::Done
    } else {
        Went::NotAll
    }
}

/// Makes the folder, and copies the files of these names into it.
fn copy_files<V: Volumes, F: Folder, P: Sink + Drop>(
    volumes: &mut V,
    names: &[Name],
    folder: &mut F,
    page: &mut Page,
    progress: &mut Progress<P>,
    ends: &mut Vec<Taken>,
) -> Went
    requires valid { (V.seen volumes.old).valid }
    requires room { HasRoomForName page.old }
    requires closed { (F.view folder.old).part ≡ None }
    requires empty { ends.old.items ≡ [] }
    requires space { length names.now ≤ vec_capacity ends.old }
    ensures valid { (V.seen volumes.new).valid }
    ensures copied { Copied (has_fault ends.new.items) ends.new.items
        (V.seen volumes.old).mounted (V.seen volumes.new).mounted (F.view folder.old) (F.view folder.new) }
    ensures went { FolderWent result (λ copied. copied ≡ names.now) ends.new.items
        (F.view folder.old) (F.view folder.new) }
    ensures beside { GoesOnBeside (StopLeaves Dir (V.seen volumes.old).mounted)
        (V.seen volumes.old) (V.seen volumes.new) }
{
    if folder.prepare().is_err() {
        return Went::FolderLost;
    }
    take_files(volumes, names, folder, page, progress, ends);
    if folder.settle().is_err() {
        return Went::FolderLost;
    }
    went_by(ends)
}

/// Returns the name of the file of a slot, unless it is the redo file.
fn name_at(size: u16, slot: &Slot) -> Option<Name>
    ensures { MatchOption result (shown_slot false size slot.now ≡ [])
        (λ name. map (λ e. e.name) (shown_slot false size slot.now) ≡ name ∷ []) }
{
    match slot {
        Slot::Live(entry) if !is_redo_file(*entry, size) => Some(entry.name),
        _ => None,
    }
}

/// Appends a name, if there is one. There is room for it.
fn add_name(names: &mut Vec<Name>, name: Option<Name>)
    requires room { length names.old.items < vec_capacity names.old }
    ensures names { names.new.items ≡ names.old.items ++ named name }
    ensures few { length names.new.items ≤ length names.old.items + 1 }
    ensures room { vec_capacity names.old ≤ vec_capacity names.new }
{
    if let Some(name) = name {
        names.push(name).unwrap();
    }
}

/// Appends the names of all files except the redo file. There is room for as many as there are slots.
fn put_names_in(names: &mut Vec<Name>, size: u16, slots: &SlotTable)
    requires empty { names.old.items ≡ [] }
    requires room { length slots.now.slots ≤ vec_capacity names.old }
    ensures names { names.new.items ≡ map (λ e. e.name) (shown_files false size slots.now.slots) }
    ensures few { length names.new.items ≤ length slots.now.slots }
{
    'slots: for place in 0..slots.len() {
        add_name(names, name_at(size, slots.get(place)));
    }
}

/// Returns how many files are copied at most.
fn most_copied(asked: &[Name], size: u16) -> usize
    ensures { result ≡ most_copied size asked.now }
{
    if asked.is_empty() {
        most_slots(size)
    } else {
        asked.len()
    }
}

/// Appends the names of the files that are to be copied, and returns whether the directory has no more slots than the
/// medium has room for. There is room for the names.
fn put_names<V: Volumes>(volumes: &V, asked: &[Name], names: &mut Vec<Name>) -> bool
    requires valid { (V.seen volumes.now).valid }
    requires kept { (V.seen volumes.now).mounted.kept ≡ true }
    requires empty { names.old.items ≡ [] }
    requires room { most_copied (V.seen volumes.now).mounted.records asked.now ≤ vec_capacity names.old }
    ensures names { result ≡ true → AreNamesCopied (V.seen volumes.now).mounted.records asked.now
        (volume_shown (V.seen volumes.now).mounted.tape) names.new.items }
    ensures exact { result ≡ true → asked.now ≡ [] → AreSlotsExact (volume_shown (V.seen volumes.now).mounted.tape) }
    ensures few { result ≡ true → length names.new.items ≤ most_copied (V.seen volumes.now).mounted.records asked.now }
    ensures lacks { result ≡ false → volume_shown (V.seen volumes.now).mounted.tape ≡ None }
{
    if !asked.is_empty() {
        names.extend_from_slice(asked).unwrap();
        return true;
    }
    let size = volumes.size();
    let Some((_, slots)) = volumes.directory() else {
        unreachable!()
    };
    if !are_few(slots, size) {
        return false;
    }
    put_names_in(names, size, slots);
    true
}

/// Returns the names of the files that are to be copied. The error is want of memory; it is also returned if the directory
/// has more slots than the medium has room for.
pub(crate) fn names_to_copy<V: Volumes>(
    alloc: Global,
    volumes: &V,
    asked: &[Name],
) -> Result<Vec<Name>, AllocError>
    requires valid { (V.seen volumes.now).valid }
    requires kept { (V.seen volumes.now).mounted.kept ≡ true }
    ensures names { IfOk result (λ names. AreNamesCopied (V.seen volumes.now).mounted.records asked.now
        (volume_shown (V.seen volumes.now).mounted.tape) names.items) }
    ensures exact { asked.now ≡ []
        → IfOk result (λ names. AreSlotsExact (volume_shown (V.seen volumes.now).mounted.tape)) }
{
    let mut names = Vec::with_capacity(alloc, most_copied(asked, volumes.size()))?;
    if put_names(volumes, asked, &mut names) {
        Ok(names)
    } else {
        Err(AllocError)
    }
}

/// Takes the room for the names of this many files, and for what becomes of each.
fn take_room(alloc: Global, count: usize, ends: &mut Vec<Taken>) -> Result<Vec<Name>, AllocError>
    requires empty { ends.old.items ≡ [] }
    ensures empty { ends.new.items ≡ [] }
    ensures names { IfOk result (λ names. (names.items ≡ []) × (count ≤ vec_capacity names)) }
    ensures ends { OnOk result (count ≤ vec_capacity ends.new) }
{
    let names = Vec::with_capacity(alloc, count)?;
    *ends = Vec::with_capacity(alloc, count)?;
    Ok(names)
}

/// Copies files, after the directory was read. The names are kept, since a fault may make the image forget the
/// directory. There is room for them.
fn copy_listed<V: Volumes, F: Folder, P: Sink + Drop>(
    volumes: &mut V,
    asked: &[Name],
    mut names: Vec<Name>,
    folder: &mut F,
    page: &mut Page,
    progress: &mut Progress<P>,
    ends: &mut Vec<Taken>,
) -> Went
    requires valid { (V.seen volumes.old).valid }
    requires kept { (V.seen volumes.old).mounted.kept ≡ true }
    requires room { HasRoomForName page.old }
    requires closed { (F.view folder.old).part ≡ None }
    requires none { names.items ≡ [] }
    requires names { most_copied (V.seen volumes.old).mounted.records asked.now ≤ vec_capacity names }
    requires empty { ends.old.items ≡ [] }
    requires space { most_copied (V.seen volumes.old).mounted.records asked.now ≤ vec_capacity ends.old }
    ensures valid { (V.seen volumes.new).valid }
    ensures copies { CopyDid result asked.now ends.new.items (V.seen volumes.old).mounted (V.seen volumes.new).mounted
        (F.view folder.old) (F.view folder.new) }
    ensures untouched { is_before_folder result ≡ true → folder.new ≡ folder.old }
    ensures beside { GoesOnBeside (StopLeaves Dir (V.seen volumes.old).mounted)
        (V.seen volumes.old) (V.seen volumes.new) }
{
    if !put_names(volumes, asked, &mut names) {
        return Went::OutOfMemory;
    }
    copy_files(volumes, &names, folder, page, progress, ends)
}

/// Copies files of the image into the folder. All memory is taken before the directory is read, since to read it may
/// settle or finish the tape.
fn copy<V: Volumes, F: Folder, P: Sink + Drop>(
    alloc: Global,
    volumes: &mut V,
    asked: &[Name],
    folder: &mut F,
    page: &mut Page,
    progress: &mut Progress<P>,
    ends: &mut Vec<Taken>,
) -> Went
    requires valid { (V.seen volumes.old).valid }
    requires room { HasRoomForName page.old }
    requires closed { (F.view folder.old).part ≡ None }
    requires empty { ends.old.items ≡ [] }
    ensures valid { (V.seen volumes.new).valid }
    ensures copies { OutDid result asked.now ends.new.items (V.seen volumes.old).mounted (V.seen volumes.new).mounted
        (F.view folder.old) (F.view folder.new) }
    ensures untouched { is_before_folder result ≡ true → folder.new ≡ folder.old }
    ensures beside { StaysBeside (StopLeaves Dir (V.seen volumes.old).mounted)
        (V.seen volumes.old) (V.seen volumes.new) }
{
    let Ok(names) = take_room(alloc, most_copied(asked, volumes.size()), ends) else {
        return Went::OutOfMemory;
    };
    match volumes.list() {
        Reply::Ok => copy_listed(volumes, asked, names, folder, page, progress, ends),
        Reply::No(code) => Went::Refused(code),
        Reply::FaultFrame | Reply::FaultMedium => Went::Fault,
    }
}

/// The job that copies files of one image into a folder.
#[derive(Drop)]
pub struct Copying<'a, F: Drop, P: Drop> {
    /// The names of the files. If there is none, all files except the redo file are copied.
    pub names: &'a [Name],
    /// The folder.
    pub folder: F,
    /// A page for a host name.
    pub page: Page,
    /// Where it is told which file is copied.
    pub progress: Progress<P>,
    /// The files that were to be copied, and what became of each. It is empty at first.
    pub ends: Vec<Taken>,
}

impl<'a, F: Folder + Drop, P: Sink + Drop> VolumeJob for Copying<'a, F, P> {
    ghost use Rattle.std.specs.Prelude.{◌≡◌, [], None, true};
    ghost use Rattle.lif_model.specs.Apply.{Dir};
    ghost use Rattle.tape_jobs.specs.Out.{HasRoomForName, OutDid, is_before_folder};
    ghost use Rattle.tape_volumes.specs.Volumes.{StopLeaves};

    ghost asks = { λ job. HasRoomForName job.page × (job.ends.items ≡ []) × ((F.view job.folder).part ≡ None) };

    ghost does = { λ old new went s t.
        OutDid went old.names.now new.ends.items s t (F.view old.folder) (F.view new.folder)
        × (is_before_folder went ≡ true → new.folder ≡ old.folder) };

    ghost leaves = { λ job s x. StopLeaves Dir s x };

    fn work<V: Volumes>(&mut self, alloc: Global, volumes: &mut V) -> Went {
        copy(
            alloc,
            volumes,
            self.names,
            &mut self.folder,
            &mut self.page,
            &mut self.progress,
            &mut self.ends,
        )
    }
}
