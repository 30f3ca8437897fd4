ghost use Rattle.std.specs.Prelude.{◌≡◌, ◌<◌, IfOk, map, option_map, Some, None, Err};
ghost use Rattle.std.specs.Option.{IfSome};
ghost use Rattle.std.specs.String.{string_bytes};
ghost use Rattle.clap.specs.Words.{found_of, rows_of};
ghost use Rattle.il_ring.specs.Plans.{IsPlan};
ghost use Rattle.il_words.specs.Asked.{made_by, asked_by, asked_in, words_in};
ghost use Rattle.il_words.specs.declared.words.WordsFault.TheVariants.{Refused};

use crate::command::{is_set, parse, value};
use crate::generate::{Generated, read_generated};
use crate::plan::{MOST_PLANNED, read_plan};
use arrayvec::ArrayVec;
use clap::ArgMatches;
use il_ports::New;
use il_ring::Planned;
use std::alloc::Global;

/// What the words of the program ask for.
#[derive(Drop)]
pub struct Words<'a> {
    /// The name of the image.
    pub image: &'a str,
    /// What is made where there is no image of that name.
    pub made: New,
    /// The faults that are planned, by rising crossings: at most 64 losses and 64 alterations.
    pub plan: ArrayVec<Planned, MOST_PLANNED>,
    /// Whether the replies are written without the trace of the loop.
    pub quiet: bool,
    /// Whether a second controller stands on the loop.
    pub guest: bool,
    /// The script that is made in place of one that is read.
    pub generated: Option<Generated>,
}

/// Why words are not read.
#[derive(Clone, Copy, Debug, PartialEq, Eq)]
pub enum WordsFault {
    /// The command does not take the words, or a value is not in its grammar. Words that ask for help or for a version
    /// are refused so.
    Refused,
    /// There was not enough memory to read them.
    OutOfMemory,
}

/// Reads the words after the program's name. `Refused` comes exactly where the command does not take them, a value is
/// not in its grammar, a crossing is named twice, or both a tape and a disc are to be made.
pub fn read_words<'a>(alloc: Global, words: &'a [String]) -> Result<Words<'a>, WordsFault>
    ensures read { IfOk result (λ w. words_in (map string_bytes words.entry.now) ≡ Some (asked_by w)) }
    ensures refused { result ≡ Err Refused → words_in (map string_bytes words.entry.now) ≡ None }
    ensures plan { IfOk result (λ w. IsPlan w.plan.items) }
    ensures seed { IfOk result (λ w. IfSome w.generated (λ script. script.seed < 2147483648)) }
{
    let matches = parse(alloc, words)?;
    match read_matches(&matches) {
        Some(words) => Ok(words),
        None => Err(WordsFault::Refused),
    }
}

/// What the values of the options and of the argument ask for.
fn read_matches<'a>(matches: &ArgMatches<'a>) -> Option<Words<'a>>
    ensures asked { option_map asked_by result ≡ asked_in (rows_of (found_of matches.now)) }
    ensures plan { IfSome result (λ w. IsPlan w.plan.items) }
    ensures seed { IfSome result (λ w. IfSome w.generated (λ script. script.seed < 2147483648)) }
{
    let image = value(matches, "image")?;
    let made = made_by(is_set(matches, "new"), is_set(matches, "new-disc"))?;
    let plan = read_plan(value(matches, "lose"), value(matches, "alter"))?;
    let generated = match value(matches, "generate") {
        Some(text) => Some(read_generated(text)?),
        None => None,
    };
    Some(Words {
        image,
        made,
        plan,
        quiet: is_set(matches, "quiet"),
        guest: is_set(matches, "guest"),
        generated,
    })
}

/// What is made where there is no image. A tape and a disc together are refused.
fn made_by(new: bool, new_disc: bool) -> Option<New>
    ensures { result ≡ made_by new new_disc }
{
    match (new, new_disc) {
        (false, false) => Some(New::No),
        (true, false) => Some(New::Tape),
        (false, true) => Some(New::Disc),
        (true, true) => None,
    }
}
