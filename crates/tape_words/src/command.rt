ghost use Rattle.std.specs.Prelude.{◌≡◌, ◌≢◌, true, IfOk, IfErr, None, [], map, option_map, unwrap_or};
ghost use Rattle.std.specs.String.{string_bytes};
ghost use Rattle.clap.specs.Words.{found_of, rows_of, first_of, all_of, subcommand_rows_of};
ghost use Rattle.clap.specs.declared.error.kind.ErrorKind.TheVariants as kinds;
ghost use Rattle.tape_words.specs.declared.jobs.Topic.TheVariants as topics;
ghost use Rattle.tape_words.specs.Simple.{is_switched_on};
ghost use Rattle.tape_words.specs.Asked.{IfRefused, arguments_in, job_asked, job_found_in, told_by};
ghost use Rattle.tape_words.specs.Asked.{asked_as, asked_for, help_in, pair_in, triple_in};

use crate::jobs::{Job, Topic, topic_of};
use crate::rules::command;
use clap::error::ErrorKind;
use clap::{ArgMatches, Error};
use std::alloc::{AllocError, Global};

/// Why arguments are not read.
#[derive(Drop)]
pub enum NotRead {
    /// The rules do not take the arguments. The text says why, for the user.
    Refused(String),
    /// There was not enough memory to read them.
    OutOfMemory,
}

/// Reads the arguments after the program's name. `Refused` is returned only if they ask for no job.
pub fn parse<'a>(alloc: Global, words: &'a [String]) -> Result<ArgMatches<'a>, NotRead>
    ensures read { IfOk result (λ m. arguments_in (map string_bytes words.entry.now) ≡ job_found_in m) }
    ensures refused { IfErr result (IfRefused (arguments_in (map string_bytes words.entry.now) ≡ None)) }
{
    let Ok(command) = command(alloc) else {
        return Err(NotRead::OutOfMemory);
    };
    match command.try_get_matches_from(words) {
        Ok(matches) => Ok(matches),
        Err(error) => Err(not_read(error.kind(), refusal(alloc, &error))),
    }
}

/// What an error of this kind means for the program, if this is its message.
fn not_read(kind: ErrorKind, message: Result<String, AllocError>) -> NotRead
    ensures memory { kind ≡ kinds.OutOfMemory → result ≡ NotRead.OutOfMemory }
    ensures words { kind ≢ kinds.OutOfMemory → result ≡ told_by message }
{
    match (kind, message) {
        (ErrorKind::OutOfMemory, _) | (_, Err(_)) => NotRead::OutOfMemory,
        (_, Ok(text)) => NotRead::Refused(text),
    }
}

/// The text of an error, as a message of `tape`.
fn refusal(alloc: Global, error: &Error) -> Result<String, AllocError> {
    let text = error.to_string(alloc)?;
    let reason = reason_in(text.as_str());
    format!(in alloc; "tape: {reason}\nFor more information, try 'tape help'.\n")
}

/// The text without the word with which `clap` begins an error.
fn reason_in(text: &str) -> &str {
    text.strip_prefix("error: ").unwrap_or(text)
}

/// The value of an argument, if it is given.
pub(crate) fn value<'a>(matches: &ArgMatches<'a>, id: &str) -> Option<&'a str>
    ensures { option_map (λ text. text.now) result ≡ first_of id.now (rows_of (found_of matches.now)) }
{
    matches.get_str(id)
}

/// All values of an argument, if it is given.
fn values<'r, 'a>(matches: &'r ArgMatches<'a>, id: &str) -> Option<&'r [&'a str]>
    ensures { option_map (λ texts. map (λ text. text.now) texts.now) result
        ≡ all_of id.now (rows_of (found_of matches.now)) }
{
    matches.get_strs(id)
}

/// Whether an option without a value is given.
fn is_switched_on(matches: &ArgMatches<'_>, id: &str) -> bool
    ensures { result ≡ is_switched_on id.now (rows_of (found_of matches.now)) }
{
    match value(matches, id) {
        Some(text) => text == "true",
        None => false,
    }
}

/// All values of an argument, none if it is not given.
fn any_values<'r, 'a>(matches: &'r ArgMatches<'a>, id: &str) -> &'r [&'r str]
    ensures { map (λ text. text.now) result.now ≡ unwrap_or (all_of id.now (rows_of (found_of matches.now))) [] }
{
    values(matches, id).unwrap_or(&[])
}

/// The values of two arguments, if both are given.
fn pair<'a>(matches: &ArgMatches<'a>, first: &str, second: &str) -> Option<(&'a str, &'a str)>
    ensures { option_map (λ p. (p.0.now, p.1.now)) result
        ≡ pair_in first.now second.now (rows_of (found_of matches.now)) }
{
    let first = value(matches, first)?;
    let second = value(matches, second)?;
    Some((first, second))
}

/// The values of three arguments, if all are given.
fn triple<'a>(
    matches: &ArgMatches<'a>,
    first: &str,
    second: &str,
    third: &str,
) -> Option<(&'a str, &'a str, &'a str)>
    ensures { option_map (λ t. (t.0.now, t.1.now, t.2.now)) result
        ≡ triple_in first.now second.now third.now (rows_of (found_of matches.now)) }
{
    let (first, second) = pair(matches, first, second)?;
    let third = value(matches, third)?;
    Some((first, second, third))
}

/// Help for the program, or for the job that is named.
fn help_for<'r>(name: Option<&str>) -> Option<Job<'r>>
    ensures { option_map job_asked result ≡ help_in (option_map (λ text. text.now) name.entry) }
{
    let topic = match name {
        Some(name) => Some(topic_of(name)?),
        None => None,
    };
    Some(Job::Help { topic })
}

/// The job that lists images, with the arguments that were found for it.
fn dir_job<'r, 'a>(found: &'r ArgMatches<'a>) -> Option<Job<'r>>
    ensures { option_map job_asked result ≡ asked_for topics.Dir (rows_of (found_of found.now)) }
{
    let images = values(found, "image")?;
    Some(Job::Dir {
        all: is_switched_on(found, "all"),
        csv: is_switched_on(found, "csv"),
        images,
    })
}

/// The job that copies files into a folder, with the arguments that were found for it.
fn out_job<'r, 'a>(found: &'r ArgMatches<'a>) -> Option<Job<'r>>
    ensures { option_map job_asked result ≡ asked_for topics.Out (rows_of (found_of found.now)) }
{
    let (image, folder) = pair(found, "image", "folder")?;
    let names = any_values(found, "names");
    Some(Job::Out {
        image,
        folder,
        names,
    })
}

/// The job that prints a picture, with the arguments that were found for it.
fn map_job<'r, 'a>(found: &'r ArgMatches<'a>) -> Option<Job<'r>>
    ensures { option_map job_asked result ≡ asked_for topics.Map (rows_of (found_of found.now)) }
{
    let image = value(found, "image")?;
    let svg = is_switched_on(found, "svg");
    Some(Job::Map { svg, image })
}

/// The job that makes an image, with the arguments that were found for it.
fn new_job<'r, 'a>(found: &'r ArgMatches<'a>) -> Option<Job<'r>>
    ensures { option_map job_asked result ≡ asked_for topics.New (rows_of (found_of found.now)) }
{
    let (image, label, slots) = triple(found, "image", "label", "slots")?;
    Some(Job::New {
        disc: is_switched_on(found, "disc"),
        small: is_switched_on(found, "small"),
        image,
        label,
        slots,
    })
}

/// The job that stores a text as a new file, with the arguments that were found for it.
fn put_job<'r, 'a>(found: &'r ArgMatches<'a>) -> Option<Job<'r>>
    ensures { option_map job_asked result ≡ asked_for topics.Put (rows_of (found_of found.now)) }
{
    let (image, name) = pair(found, "image", "name")?;
    let quiet = is_switched_on(found, "quiet");
    Some(Job::Put { quiet, image, name })
}

/// The job that stores a text as a new file or in place of one, with the arguments that were found for it.
fn set_job<'r, 'a>(found: &'r ArgMatches<'a>) -> Option<Job<'r>>
    ensures { option_map job_asked result ≡ asked_for topics.Set (rows_of (found_of found.now)) }
{
    let (image, name) = pair(found, "image", "name")?;
    let quiet = is_switched_on(found, "quiet");
    Some(Job::Set { quiet, image, name })
}

/// The job that copies files of the host onto an image, with the arguments that were found for it.
fn in_job<'r, 'a>(found: &'r ArgMatches<'a>) -> Option<Job<'r>>
    ensures { option_map job_asked result ≡ asked_for topics.In (rows_of (found_of found.now)) }
{
    let image = value(found, "image")?;
    let files = values(found, "files")?;
    Some(Job::In {
        over: is_switched_on(found, "over"),
        mend: is_switched_on(found, "mend"),
        quiet: is_switched_on(found, "quiet"),
        image,
        files,
    })
}

/// The job that purges files, with the arguments that were found for it.
fn purge_job<'r, 'a>(found: &'r ArgMatches<'a>) -> Option<Job<'r>>
    ensures { option_map job_asked result ≡ asked_for topics.Purge (rows_of (found_of found.now)) }
{
    let image = value(found, "image")?;
    let names = values(found, "names")?;
    Some(Job::Purge { image, names })
}

/// The job, with the arguments that were found for it.
fn job_for<'r, 'a>(topic: Topic, found: &'r ArgMatches<'a>) -> Option<Job<'r>>
    ensures { option_map job_asked result ≡ asked_for topic (rows_of (found_of found.now)) }
{
    match topic {
        Topic::Dir => dir_job(found),
        Topic::Out => out_job(found),
        Topic::Get => pair(found, "image", "name").map(|(image, name)| Job::Get { image, name }),
        Topic::Raw => pair(found, "image", "name").map(|(image, name)| Job::Raw { image, name }),
        Topic::Free => value(found, "image").map(|image| Job::Free { image }),
        Topic::Map => map_job(found),
        Topic::Why => value(found, "image").map(|image| Job::Why { image }),
        Topic::Diff => pair(found, "image", "other").map(|(image, other)| Job::Diff {
            image,
            other,
        }),
        Topic::New => new_job(found),
        Topic::Put => put_job(found),
        Topic::Set => set_job(found),
        Topic::In => in_job(found),
        Topic::Purge => purge_job(found),
        Topic::Rename => triple(found, "image", "old", "new").map(|(image, old, new)| Job::Rename {
            image,
            old,
            new,
        }),
        Topic::Adopt => value(found, "image").map(|image| Job::Adopt { image }),
        Topic::Upgrade => value(found, "image").map(|image| Job::Upgrade { image }),
        Topic::Help => help_for(value(found, "job")),
    }
}

/// The job of this name, or the help for it.
fn job_as<'r, 'a>(name: &str, found: &'r ArgMatches<'a>) -> Option<Job<'r>>
    ensures { option_map job_asked result ≡ asked_as name.now (rows_of (found_of found.now)) }
{
    let topic = topic_of(name)?;
    if is_switched_on(found, "help") {
        return Some(Job::Help { topic: Some(topic) });
    }
    job_for(topic, found)
}

/// The job that the arguments ask for. If there is none, [`crate::missing`] says why.
pub fn job_of<'r, 'a>(matches: &'r ArgMatches<'a>) -> Option<Job<'r>>
    ensures { option_map job_asked result ≡ job_found_in matches.now }
{
    if is_switched_on(matches, "help") {
        return Some(Job::Help { topic: None });
    }
    if is_switched_on(matches, "version") {
        return Some(Job::Version);
    }
    let (name, found) = matches.subcommand()?;
    job_as(name, found)
}
