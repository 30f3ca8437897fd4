//! The steps of jobs.
ghost use Rattle.std.specs.Prelude.{◌≡◌, ◌<◌, IfOk, length, map};
ghost use Rattle.tape_changes.specs.Changing.{AreFormed, IsFormedStep, said};
ghost use Rattle.tape_changes.specs.Replacing.{store_change};
ghost use Rattle.tape_changes.specs.Steps.{adopt_step, format_step, purge_step, purges, rename_step, store_step};
ghost use Rattle.tape_changes.specs.Steps.{upgrade_step};
ghost use Rattle.tape_volumes.specs.Changes.{IsFormedChange};

use crate::changing::Step;
use crate::replacing::NewFile;
use lif_dir::{Name, NewLabel, NewName};
use std::alloc::{AllocError, Global};
use tape_volumes::Change;

/// What `adopt` prints once it was done.
const ADOPTED: &[u8] = b"the volume has its redo file\n";

/// What `upgrade` prints once it was done.
const UPGRADED: &[u8] = b"34 records are the redo file's\n";

/// What is printed once a volume is there, if its redo file stays as it was made.
const SMALL: &[u8] = b"4 records are the redo file's\n";

/// The step that purges the file of this name, which the text spells.
fn purge_step<'a>(name: Name, text: &'a str) -> Step<'a>
    ensures said { said result ≡ purge_step name text.now }
    ensures formed { IsFormedStep result }
{
    Step {
        change: Change::Purge(name),
        instead: None,
        subject: text.as_bytes(),
        line: b"",
    }
}

/// The steps that purge the files of these names, which the texts spell. The only error is want of memory.
pub fn purge_steps<'a>(
    alloc: Global,
    names: &[Name],
    texts: &[&'a str],
) -> Result<Vec<Step<'a>>, AllocError>
    requires { length names.now ≡ length texts.now }
    ensures count { IfOk result (λ steps. length steps.items ≡ length names.now) }
    ensures said { IfOk result (λ steps. map said steps.items ≡ purges names.now (map (λ text. text.now) texts.now)) }
    ensures formed { IfOk result (λ steps. AreFormed steps.items) }
{
    let mut steps = Vec::with_capacity(alloc, names.len())?;
    'names: for place in 0..names.len() {
        steps.push(purge_step(names[place], texts[place])).unwrap();
    }
    Ok(steps)
}

/// The step that gives the file of a name, which the text spells, another name.
pub fn rename_step<'a>(old: Name, new: NewName, text: &'a str) -> Step<'a>
    ensures said { said result ≡ rename_step old new text.now }
    ensures formed { IsFormedStep result }
{
    Step {
        change: Change::Rename { old, new },
        instead: None,
        subject: text.as_bytes(),
        line: b"",
    }
}

/// The step that stores a file, whose name is this text.
pub fn store_step<'a>(file: &NewFile<'a>, text: &'a str, line: &'a [u8]) -> Step<'a>
    requires formed { IsFormedChange (store_change file.now) }
    ensures said { said result ≡ store_step file.now text.now line.now }
    ensures formed { IsFormedStep result }
{
    Step {
        change: file.store(),
        instead: None,
        subject: text.as_bytes(),
        line,
    }
}

/// The step that gives a volume of another program its redo file.
pub fn adopt_step() -> Step<'static>
    ensures said { said result ≡ adopt_step }
    ensures formed { IsFormedStep result }
{
    Step {
        change: Change::Adopt,
        instead: None,
        subject: b"redo file",
        line: ADOPTED,
    }
}

/// The step that makes the redo file one of version 2.
pub fn upgrade_step() -> Step<'static>
    ensures said { said result ≡ upgrade_step }
    ensures formed { IsFormedStep result }
{
    Step {
        change: Change::Upgrade,
        instead: None,
        subject: b"redo file",
        line: UPGRADED,
    }
}

/// The step that makes a volume. If the redo file stays small, its line tells how small.
pub fn format_step(label: NewLabel, slots: u16, small: bool) -> Step<'static>
    requires { 0 < slots }
    ensures said { said result ≡ format_step label slots small }
    ensures formed { IsFormedStep result }
{
    let line: &[u8] = if small { SMALL } else { b"" };
    Step {
        change: Change::Format { label, slots },
        instead: None,
        subject: b"volume",
        line,
    }
}
