ghost use Rattle.std.specs.Prelude.{◌≡◌, ◌≢◌, IfOk, map, false, Some, None, Err, option_map};
ghost use Rattle.std.specs.String.{string_bytes};
ghost use Rattle.clap.specs.Words.{app_of, rule_of, found_of, rows_of, first_of};
ghost use Rattle.il_words.specs.Simple.{flag_rule, valued_rule, image_rule, bare_app, il_app, rows_in, is_set};
ghost use Rattle.clap.specs.declared.error.kind.ErrorKind.TheVariants as kinds;
ghost use Rattle.il_words.specs.declared.words.WordsFault.TheVariants.{Refused, OutOfMemory};

use crate::words::WordsFault;
use clap::error::ErrorKind;
use clap::{Arg, ArgAction, ArgMatches, Command};
use std::alloc::{AllocError, Global};

/// An option without a value.
fn flag<'a>(alloc: Global, id: &'a str) -> Arg<'a>
    ensures rule { rule_of result ≡ flag_rule id.entry.now }
    ensures local { result.global ≡ false }
{
    Arg::new(alloc, id).long(id).action(ArgAction::SetTrue)
}

/// An option with one value.
fn valued<'a>(alloc: Global, id: &'a str) -> Arg<'a>
    ensures rule { rule_of result ≡ valued_rule id.entry.now }
    ensures local { result.global ≡ false }
{
    Arg::new(alloc, id).long(id).action(ArgAction::Set)
}

/// The name of the image, which must be there.
fn image<'a>(alloc: Global) -> Arg<'a>
    ensures rule { rule_of result ≡ image_rule }
    ensures local { result.global ≡ false }
{
    Arg::new(alloc, "image")
        .required(true)
        .action(ArgAction::Set)
}

/// A command that takes no words yet, and asks for no help or version.
fn bare<'a>(alloc: Global) -> Command<'a>
    ensures { app_of result ≡ bare_app }
{
    Command::new(alloc, "il")
        .no_binary_name(true)
        .disable_help_flag(true)
        .disable_version_flag(true)
}

fn command<'a>(alloc: Global) -> Result<Command<'a>, AllocError>
    ensures { IfOk result (λ c. app_of c ≡ il_app) }
{
    let command = bare(alloc)
        .arg(flag(alloc, "new"))?
        .arg(flag(alloc, "new-disc"))?
        .arg(flag(alloc, "quiet"))?
        .arg(flag(alloc, "guest"))?
        .arg(valued(alloc, "lose"))?
        .arg(valued(alloc, "alter"))?
        .arg(valued(alloc, "generate"))?
        .arg(image(alloc))?;
    Ok(command)
}

/// The fault of the arguments that an error of this kind stands for.
fn told_as(kind: ErrorKind) -> WordsFault
    ensures memory { kind ≡ kinds.OutOfMemory → result ≡ OutOfMemory }
    ensures words { kind ≢ kinds.OutOfMemory → result ≡ Refused }
{
    match kind {
        ErrorKind::OutOfMemory => WordsFault::OutOfMemory,
        _ => WordsFault::Refused,
    }
}

/// What the simple command finds in the words. `Refused` comes exactly where it does not take them.
pub(crate) fn parse<'a>(alloc: Global, words: &'a [String]) -> Result<ArgMatches<'a>, WordsFault>
    ensures read { IfOk result (λ m. rows_in (map string_bytes words.entry.now) ≡ Some (rows_of (found_of m))) }
    ensures refused { result ≡ Err Refused → rows_in (map string_bytes words.entry.now) ≡ None }
{
    let Ok(command) = command(alloc) else {
        return Err(WordsFault::OutOfMemory);
    };
    match command.try_get_matches_from(words) {
        Ok(matches) => Ok(matches),
        Err(error) => Err(told_as(error.kind())),
    }
}

/// The value of an option or of the argument, where it is there.
pub(crate) fn value<'a>(matches: &ArgMatches<'a>, id: &str) -> Option<&'a str>
    ensures { option_map (λ text. text.now) result ≡ first_of id.now (rows_of (found_of matches.now)) }
{
    matches.get_str(id)
}

/// Whether an option without a value is there.
pub(crate) fn is_set(matches: &ArgMatches<'_>, id: &str) -> bool
    ensures { result ≡ is_set id.now (rows_of (found_of matches.now)) }
{
    match value(matches, id) {
        Some(text) => text == "true",
        None => false,
    }
}
