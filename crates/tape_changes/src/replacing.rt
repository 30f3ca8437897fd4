//! The job that stores a file, in place of the one of its name if that has the same type.
ghost use Rattle.std.specs.Prelude.{◌≡◌, true, map, option_map, IfErr, IfOk, None, Some};
ghost use Rattle.lif_model.specs.Directory.{type_of};
ghost use Rattle.lif_model.specs.Legal.{slot_named};
ghost use Rattle.lif_dir.specs.Batches.{parts_of};
ghost use Rattle.lif_dir.specs.Entries.{entry_bytes, slot_bytes};
ghost use Rattle.tape_changes.specs.Changing.{output_of};
ghost use Rattle.tape_changes.specs.Replacing.{IsKindAt, OldOrNewIsLeft, ReplaceDid, command_by};
ghost use Rattle.tape_changes.specs.Replacing.{new_name_bytes, replaced_went, replacing_parts, store_change};
ghost use Rattle.tape_volumes.specs.Changes.{IsFormedChange, change_command};
ghost use Rattle.tape_volumes.specs.Volumes.{StaysBeside, volume_shown};

use crate::changing::{Next, next_by};
use il_ports::Sink;
use il_script::Reply;
use lif_dir::{Batch, FileEntry, NewName, SlotTable};
use std::alloc::{AllocError, Global};
use tape_volumes::{Change, VolumeJob, Volumes, Went};

/// The type of a text file.
const TEXT: u16 = 1;

/// A file that is to be stored.
#[derive(Clone, Copy, Debug)]
pub struct NewFile<'a> {
    /// Its name.
    pub name: NewName,
    /// Its type, neither 0 nor FFFF hex.
    pub kind: u16,
    /// Its implementation field, whose meaning depends on the type.
    pub field: [u8; 4],
    /// Its bytes, 630,784 at most.
    pub bytes: &'a [u8],
}

/// What became of a file that was to be stored.
#[derive(Clone, Copy, Debug, PartialEq, Eq)]
pub enum Stored {
    /// Nothing was asked for yet.
    Untried,
    /// The directory was not listed, by this reply.
    Unlisted(Reply),
    /// A file of its name has this other type, and stays.
    OtherType(u16),
    /// Its change was asked for, with this reply.
    Asked(Reply),
}

impl<'a> NewFile<'a> {
    ghost use Rattle.std.specs.Prelude.{◌≡◌, ◌≤◌, length};
    ghost use Rattle.il_script.specs.declared.limits.TheConstants.{LONGEST_PAYLOAD};
    ghost use Rattle.tape_changes.specs.Replacing.{IsTextFile, store_change};
    ghost use Rattle.tape_volumes.specs.Changes.{IsFormedChange};

    /// A text file of that name with these bytes, which are those of its lines.
    pub fn text(name: NewName, bytes: &'a [u8]) -> NewFile<'a>
        requires { length bytes.now ≤ LONGEST_PAYLOAD }
        ensures file { IsTextFile name bytes.now result }
        ensures formed { IsFormedChange (store_change result) }
    {
        NewFile {
            name,
            kind: TEXT,
            field: [0; 4],
            bytes,
        }
    }

    /// The change that stores the file.
    pub fn store(&self) -> Change<'a>
        ensures { result ≡ store_change self.now }
    {
        let field = self.field;
        Change::Store {
            name: self.name,
            kind: self.kind,
            field,
            bytes: self.bytes,
        }
    }
}

/// A purge of the file's name and a store of the file, to be made as one. The only error is want of memory.
pub fn replacing_batch(alloc: Global, file: &NewFile<'_>) -> Result<Batch, AllocError>
    requires formed { IsFormedChange (store_change file.now) }
    ensures { IfOk result (λ batch. parts_of batch ≡ replacing_parts file.now) }
{
    let mut batch = Batch::new(alloc)?;
    batch.add_purge(file.name.name());
    batch.add_store(file.name, file.kind, file.field, file.bytes);
    Ok(batch)
}

/// The type of an entry.
fn kind_of(entry: FileEntry) -> u16
    ensures { result ≡ type_of (entry_bytes entry) }
{
    entry.kind
}

/// The type of the file of that name, if there is one.
fn kind_in(slots: &SlotTable, name: &[u8; 10]) -> Option<u16>
    ensures { result ≡ option_map type_of (slot_named (map slot_bytes slots.now.slots) name.now) }
{
    'slots: for place in 0..slots.len() {
        let entry = *slots.entry(place);
        if entry.is_live_named(name) {
            return Some(kind_of(entry));
        }
    }
    None
}

/// The type of the file that has the name of this one, if there is one, by the directory that is kept in memory.
fn kind_listed<V: Volumes>(volumes: &V, file: &NewFile<'_>) -> Option<u16>
    requires valid { (V.seen volumes.now).valid }
    requires kept { (V.seen volumes.now).mounted.kept ≡ true }
    ensures { IsKindAt (volume_shown (V.seen volumes.now).mounted.tape) (new_name_bytes file.now) result }
{
    let Some((_, slots)) = volumes.directory() else {
        unreachable!()
    };
    kind_in(slots, &file.name.name().bytes())
}

/// The change that stores the file, by the type of the file of its name. The error is that type, if it is another one.
fn change_by<'a>(
    file: &NewFile<'a>,
    batch: &'a Batch,
    found: Option<u16>,
) -> Result<Change<'a>, u16>
    requires formed { IsFormedChange (store_change file.now) }
    requires parts { parts_of batch.now ≡ replacing_parts file.now }
    ensures command { IfOk result (λ change. command_by file.now found ≡ Some (change_command change)) }
    ensures formed { IfOk result (λ change. IsFormedChange change) }
    ensures other { IfErr result (λ kind. (command_by file.now found ≡ None) × (found ≡ Some kind)) }
{
    match found {
        None => Ok(file.store()),
        Some(kind) if kind == file.kind => Ok(Change::Batch(batch)),
        Some(kind) => Err(kind),
    }
}

/// How the job went, by what is next after its change.
fn went_by(next: Next) -> Went
    ensures { result ≡ replaced_went next }
{
    match next {
        Next::GoesOn => Went::Done,
        Next::Ends => Went::NotAll,
        Next::LosesOutput => Went::Unwritten,
    }
}

/// Stores the file over the directory that is listed first, and says how that went and what became of the file.
fn replace<V: Volumes, K: Sink>(
    volumes: &mut V,
    file: &NewFile<'_>,
    batch: &Batch,
    line: &[u8],
    stored: &mut Stored,
    out: &mut K,
) -> Went
    requires valid { (V.seen volumes.old).valid }
    requires formed { IsFormedChange (store_change file.now) }
    requires parts { parts_of batch.now ≡ replacing_parts file.now }
    ensures valid { (V.seen volumes.new).valid }
    ensures did { ReplaceDid file.now line.now stored.new result
        (V.seen volumes.old).mounted (V.seen volumes.new).mounted
        (output_of (K.written out.old) (K.faults out.old)) (output_of (K.written out.new) (K.faults out.new)) }
    ensures beside { StaysBeside (OldOrNewIsLeft file.now (V.seen volumes.old).mounted)
        (V.seen volumes.old) (V.seen volumes.new) }
{
    let listed = volumes.list();
    if listed != Reply::Ok {
        *stored = Stored::Unlisted(listed);
        return Went::NotAll;
    }
    match change_by(file, batch, kind_listed(volumes, file)) {
        Ok(change) => {
            let reply = volumes.change(&change);
            *stored = Stored::Asked(reply);
            went_by(next_by(reply, true, line, out))
        }
        Err(kind) => {
            *stored = Stored::OtherType(kind);
            Went::NotAll
        }
    }
}

/// A job that stores a file, in place of the one of its name if that has the same type.
#[derive(Drop)]
pub struct Replacing<'a, K: Drop> {
    /// The file.
    pub file: &'a NewFile<'a>,
    /// A purge of the file's name, and a store of the file.
    pub batch: &'a Batch,
    /// What is printed once the file is stored.
    pub line: &'a [u8],
    /// What became of the file. It is `Untried` at first.
    pub stored: Stored,
    /// Standard output.
    pub out: K,
}

impl<'a, K: Sink + Drop> VolumeJob for Replacing<'a, K> {
    ghost use Rattle.std.specs.Prelude.{◌≡◌};
    ghost use Rattle.lif_dir.specs.Batches.{parts_of};
    ghost use Rattle.tape_changes.specs.Changing.{output_of};
    ghost use Rattle.tape_changes.specs.Replacing.{OldOrNewIsLeft, ReplaceDid, replacing_parts, store_change};
    ghost use Rattle.tape_changes.specs.declared.replacing.Stored.TheVariants as stored;
    ghost use Rattle.tape_volumes.specs.Changes.{IsFormedChange};

    ghost asks = { λ job. IsFormedChange (store_change job.file.now)
        × (parts_of job.batch.now ≡ replacing_parts job.file.now) × (job.stored ≡ stored.Untried) };

    ghost does = { λ old new went s t. ReplaceDid old.file.now old.line.now new.stored went s t
        (output_of (K.written old.out) (K.faults old.out)) (output_of (K.written new.out) (K.faults new.out)) };

    ghost leaves = { λ job s x. OldOrNewIsLeft job.file.now s x };

    fn work<V: Volumes>(&mut self, _: Global, volumes: &mut V) -> Went {
        replace(
            volumes,
            self.file,
            self.batch,
            self.line,
            &mut self.stored,
            &mut self.out,
        )
    }
}
