use crate::command::value;
use crate::jobs::{Topic, topic_of};
use crate::rules::page_command;
use clap::ArgMatches;
use std::alloc::{AllocError, Global};

/// What `tape --version` prints.
pub const VERSION_TEXT: &str = "tape 1.0\n";

/// What `tape help` prints. The text is made from the rules that read the arguments.
pub fn help_text(alloc: Global, topic: Option<Topic>) -> Result<String, AllocError> {
    let mut command = page_command(alloc, topic)?;
    command.render_help()
}

/// Why arguments that the rules take ask for no job: what the program writes before it refuses them. If no job is
/// named, that is the help of the program.
pub fn missing(alloc: Global, matches: &ArgMatches<'_>) -> Result<String, AllocError> {
    let Some((name, found)) = matches.subcommand() else {
        return help_text(alloc, None);
    };
    let Some(topic) = topic_of(name) else {
        return help_text(alloc, None);
    };
    let needed = needs(topic);
    match value(found, "job") {
        Some(job) => {
            format!(in alloc; "tape: there is no job '{job}'; 'tape help' lists the jobs\n")
        }
        None => {
            format!(in alloc; "tape: {name} needs {needed}; 'tape help {name}' explains it\n")
        }
    }
}

/// The arguments without which a job is refused.
fn needs(topic: Topic) -> &'static str {
    match topic {
        Topic::Dir => "at least one IMAGE",
        Topic::Out => "IMAGE and FOLDER",
        Topic::Get | Topic::Raw | Topic::Put | Topic::Set => "IMAGE and NAME",
        Topic::Free | Topic::Map | Topic::Why | Topic::Adopt | Topic::Upgrade => "IMAGE",
        Topic::Diff => "IMAGE and OTHER",
        Topic::New => "IMAGE, LABEL and SLOTS",
        Topic::In => "IMAGE and at least one FILE",
        Topic::Purge => "IMAGE and at least one NAME",
        Topic::Rename => "IMAGE, OLD and NEW",
        Topic::Help => "no argument",
    }
}
