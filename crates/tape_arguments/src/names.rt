ghost use Rattle.std.specs.Prelude.{◌≡◌, IfOk, map, None, Some};
ghost use Rattle.tape_arguments.specs.Names.{IsRefusedName, name_spelt, names_spelt, new_name_spelt};
ghost use Rattle.tape_arguments.specs.Names.{no_new_name_line};
ghost use Rattle.tape_volumes.specs.Messages.{WritesMessage};

use il_ports::Sink;
use lif_dir::{Name, NewName};
use std::alloc::Global;
use tape_names::name_of_spelling;
use tape_volumes::refuse_text;

/// Why texts give no names.
#[derive(Drop)]
pub enum NoNames<'a> {
    /// This text spells the name of no file.
    NoName(&'a str),
    /// There was no memory for them.
    OutOfMemory,
}

/// The name that a text spells.
pub fn name_spelt(text: &str) -> Option<Name>
    ensures { result ≡ name_spelt text.now }
{
    name_of_spelling(text.as_bytes())
}

/// The names that texts spell, if each of them spells one.
pub fn names_spelt<'a>(alloc: Global, texts: &[&'a str]) -> Result<Vec<Name>, NoNames<'a>>
    ensures read { IfOk result (λ names. names_spelt (map (λ text. text.now) texts.now) ≡ Some names.items) }
    ensures refused { IsRefusedName (map (λ text. text.now) texts.now) result }
{
    let Ok(mut names) = Vec::with_capacity(alloc, texts.len()) else {
        return Err(NoNames::OutOfMemory);
    };
    'texts: for text in texts {
        match name_spelt(text) {
            Some(name) => names.push(name).unwrap(),
            None => return Err(NoNames::NoName(text)),
        }
    }
    Ok(names)
}

/// The name that a text spells, if a file can be given it.
pub fn new_name_spelt(text: &str) -> Option<NewName>
    ensures { result ≡ new_name_spelt text.now }
{
    let name = name_spelt(text)?;
    NewName::of(&name)
}

/// Writes that a file can be given no name that a text spells, and says the exit status.
pub fn refuse_new_name<E: Sink>(error: &mut E, text: &str) -> u8
    ensures status { result ≡ 2 }
    ensures says { WritesMessage (no_new_name_line text.now)
        (E.written error.old) (E.written error.new) (E.faults error.old) (E.faults error.new) }
{
    let cause =
        b"a file can be given a name of a capital letter, and then capital letters, digits and _, ten at most";
    refuse_text(error, text, cause)
}
