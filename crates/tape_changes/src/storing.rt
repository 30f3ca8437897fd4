//! Files that are stored, each by one step.
ghost use Rattle.std.specs.Prelude.{◌≡◌, IfOk, All, length, map};
ghost use Rattle.lif_dir.specs.Entries.{name_bytes};
ghost use Rattle.lif_model.specs.Printed.{printed};
ghost use Rattle.tape_changes.specs.Changing.{AreFormed, IsFormedStep, said};
ghost use Rattle.tape_changes.specs.Replacing.{store_change};
ghost use Rattle.tape_changes.specs.Storing.{IsBatchFor, IsReadyFile, IsStorable, incoming_line, incoming_step};
ghost use Rattle.tape_changes.specs.Storing.{incoming_steps, incoming_store, named_line, ready_step};
ghost use Rattle.tape_volumes.specs.Changes.{IsFormedChange, change_command};

use crate::changing::Step;
use crate::replacing::{NewFile, replacing_batch};
use il_script::Page;
use lif_dir::{Batch, Name, NewName};
use std::alloc::{AllocError, Global};
use tape_volumes::Change;

/// The room for a printed name, in bytes.
const NAME: usize = 30;

/// The room for two printed names, what is between them, and the end of a line, in bytes.
const LINE: usize = 73;

/// A file that is to be stored, with its bytes.
#[derive(Drop)]
pub struct Incoming {
    /// The name that it had.
    pub from: Name,
    /// The name that it gets.
    pub name: NewName,
    /// Its type, neither 0 nor FFFF hex.
    pub kind: u16,
    /// Its implementation field, whose meaning depends on the type.
    pub field: [u8; 4],
    /// Its bytes, 630,784 at most.
    pub bytes: Vec<u8>,
}

/// A file that is to be stored, with all that its step needs.
#[derive(Drop)]
pub struct Ready<'a> {
    /// The file.
    file: NewFile<'a>,
    /// A purge of the file's name and a store of the file, if it may take the place of another one.
    batch: Option<Batch>,
    /// The name that it gets, as it is printed.
    name: Page,
    /// What is printed once it is stored.
    line: Page,
}

/// The file, without the name that it had.
fn file_of(incoming: &Incoming) -> NewFile<'_>
    requires storable { IsStorable incoming.now }
    ensures stores { change_command (store_change result) ≡ incoming_store incoming.now }
    ensures formed { IsFormedChange (store_change result) }
{
    let field = incoming.field;
    NewFile {
        name: incoming.name,
        kind: incoming.kind,
        field,
        bytes: incoming.bytes.as_slice(),
    }
}

/// The name of a file, as it is printed.
fn name_page(alloc: Global, name: &Name) -> Result<Page, AllocError>
    ensures { IfOk result (λ page. page.text ≡ printed (name_bytes name.now)) }
{
    let mut page = Page::new(alloc, NAME)?;
    page.put_name(&name.bytes());
    Ok(page)
}

/// What is printed once a file is stored that had the name `from` and has the name `now`.
fn named_page(alloc: Global, from: &Name, now: &Name) -> Result<Page, AllocError>
    ensures { IfOk result (λ page. page.text ≡ named_line (name_bytes from.now) (name_bytes now.now)) }
{
    let mut page = Page::new(alloc, LINE)?;
    let (from, now) = (from.bytes(), now.bytes());
    if from != now {
        page.put_name(&from);
        page.put(b": stored as ");
    }
    page.put_name(&now);
    page.put(b"\n");
    Ok(page)
}

/// What is printed once a file is stored.
fn line_page(alloc: Global, quiet: bool, incoming: &Incoming) -> Result<Page, AllocError>
    ensures { IfOk result (λ page. page.text ≡ incoming_line quiet incoming.now) }
{
    if quiet {
        return Page::new(alloc, 0);
    }
    named_page(alloc, &incoming.from, &incoming.name.name())
}

/// The batch of a file, if it may take the place of another one.
fn batch_for(alloc: Global, over: bool, file: &NewFile<'_>) -> Result<Option<Batch>, AllocError>
    requires formed { IsFormedChange (store_change file.now) }
    ensures { IfOk result (λ batch. IsBatchFor over file.now batch) }
{
    if over {
        Ok(Some(replacing_batch(alloc, file)?))
    } else {
        Ok(None)
    }
}

/// A file with all that its step needs.
fn make_ready<'a>(
    alloc: Global,
    over: bool,
    quiet: bool,
    incoming: &'a Incoming,
) -> Result<Ready<'a>, AllocError>
    requires storable { IsStorable incoming.now }
    ensures step { IfOk result (λ ready. ready_step ready ≡ incoming_step over quiet incoming.now) }
    ensures ready { IfOk result IsReadyFile }
{
    let file = file_of(incoming);
    let batch = batch_for(alloc, over, &file)?;
    let name = name_page(alloc, &incoming.name.name())?;
    let line = line_page(alloc, quiet, incoming)?;
    Ok(Ready {
        file,
        batch,
        name,
        line,
    })
}

/// The files with all that their steps need. If `over` is set, each may take the place of a file of its name. If `quiet`
/// is set, nothing is printed once it is stored. The only error is want of memory.
pub fn ready_files<'a>(
    alloc: Global,
    over: bool,
    quiet: bool,
    files: &'a [Incoming],
) -> Result<Vec<Ready<'a>>, AllocError>
    requires storable { All IsStorable files.now }
    ensures count { IfOk result (λ ready. length ready.items ≡ length files.now) }
    ensures steps { IfOk result (λ ready. map ready_step ready.items ≡ incoming_steps over quiet files.now) }
    ensures ready { IfOk result (λ ready. All IsReadyFile ready.items) }
{
    let mut all = Vec::with_capacity(alloc, files.len())?;
    'files: for incoming in files {
        all.push(make_ready(alloc, over, quiet, incoming)?).unwrap();
    }
    Ok(all)
}

/// The step that stores a file.
fn step_of<'a>(ready: &'a Ready<'a>) -> Step<'a>
    requires ready { IsReadyFile ready.now }
    ensures said { said result ≡ ready_step ready.now }
    ensures formed { IsFormedStep result }
{
    Step {
        change: ready.file.store(),
        instead: ready.batch.as_ref().map(Change::Batch),
        subject: ready.name.text(),
        line: ready.line.text(),
    }
}

/// The steps that store the files, in their order. The only error is want of memory.
pub fn steps_of<'a>(alloc: Global, files: &'a [Ready<'a>]) -> Result<Vec<Step<'a>>, AllocError>
    requires ready { All IsReadyFile files.now }
    ensures count { IfOk result (λ steps. length steps.items ≡ length files.now) }
    ensures said { IfOk result (λ steps. map said steps.items ≡ map ready_step files.now) }
    ensures formed { IfOk result (λ steps. AreFormed steps.items) }
{
    let mut steps = Vec::with_capacity(alloc, files.len())?;
    'files: for ready in files {
        steps.push(step_of(ready)).unwrap();
    }
    Ok(steps)
}
