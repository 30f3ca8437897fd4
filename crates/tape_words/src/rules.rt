ghost use Rattle.std.specs.Prelude.{◌≡◌, IfOk, true, false, codes};
ghost use Rattle.clap.specs.Words.{app_of, rule_of};
ghost use Rattle.clap.specs.declared.builder.command.Command.TheViews.{out-Command};
ghost use Rattle.tape_words.specs.Simple.{switch_rule, short_switch_rule, one_rule, several_rule};
ghost use Rattle.tape_words.specs.Simple.{plain_app, dir_app, out_app, file_app, image_app, map_app};
ghost use Rattle.tape_words.specs.Simple.{diff_app, help_app, purge_app, rename_app};
ghost use Rattle.tape_words.specs.Simple.{new_volume_app, new_image_app, store_app};
ghost use Rattle.tape_words.specs.Simple.{in_files_app, in_app};
ghost use Rattle.tape_words.specs.Simple.{app_for};
ghost use Rattle.tape_words.specs.Simple.{top_app, program_app, tape_app, page_app};

use crate::jobs::Topic;
use clap::{Arg, ArgAction, Command};
use std::alloc::{AllocError, Global};

/// What `tape help` says of `raw`.
const RAW_ABOUT: &str = "Writes the bytes of a file, as many as its directory entry tells";

/// What `tape help` says of `why`.
const WHY_ABOUT: &str = "Prints why IMAGE can or cannot be listed and changed";

/// What `tape help` says of `adopt`.
const ADOPT_ABOUT: &str = "Gives a volume of another program its redo file";

/// What `tape help` says of `upgrade`.
const UPGRADE_ABOUT: &str = "Makes the redo file large, so that files can be replaced";

/// What a page of help says of IMAGE, for a job on one image.
const IMAGE_HELP: &str = "The image file";

/// What a page of help says of NAME.
const NAME_HELP: &str = "The name of a file; %HH is the byte HH hex";

/// What a page of help says of the NAME of a file that is stored.
const NEW_NAME_HELP: &str = "The file's name: a capital letter, then capital letters, digits and _";

/// What a page of help says of LABEL.
const LABEL_HELP: &str =
    "The volume's label: 1 to 6 of A-Z, 0-9 and _, a letter first; %HH is the byte HH hex";

/// What a page of help says of SLOTS.
const SLOTS_HELP: &str =
    "How many slots the directory has at least, 1 to 19664; the redo file takes one";

/// What a page of help says of `--disc`.
const DISC_HELP: &str = "Make a disc of 630,784 bytes, not a tape of 131,072 bytes";

/// What a page of help says of `--small`.
const SMALL_HELP: &str =
    "Make a redo file of 4 records, not 34: no file can be replaced before 'tape upgrade'";

/// What the page of `put` says at its end.
const PUT_HELP: &str = "\
'tape put' reads the text to its end before it opens IMAGE. Once the text is stored,
'tape put' prints NAME, unless '-q' is given.";

/// What the page of `set` says at its end.
const SET_HELP: &str = "\
'tape set' reads the text to its end before it opens IMAGE. It replaces a text file of that
name whole or not at all. If a file of that name has another type, that file stays as it is,
and a message says so. Once the text is stored, 'tape set' prints NAME, unless '-q' is given.";

/// What a page of help says of FILE.
const FILE_HELP: &str = "The path of a host file that is named NAME.TYPE.FIELD";

/// What a page of help says of `--over`.
const OVER_HELP: &str = "Replace a file of that name that is on IMAGE";

/// What a page of help says of `--mend`.
const MEND_HELP: &str = "Change a name that the volume cannot take";

/// What a page of help says of `--quiet`, for a job that stores several files.
const QUIET_HELP: &str = "Do not print the names of the stored files";

/// What the page of `in` says at its end.
const IN_HELP: &str = "\
A FILE is named NAME.TYPE.FIELD, as 'tape out' names it. In NAME, %HH is the byte HH hex. TYPE
has four hex digits, and FIELD has eight. 'tape in' reads every FILE whole before it opens IMAGE.
If IMAGE already has a file of that name, that file stays as it is, and a message says so. With
'--over', 'tape in' replaces that file whole or not at all.

With '--mend', 'tape in' changes a name that the volume cannot take. Small letters become capital
letters, and each byte that is no letter, digit or _ becomes _. If the first byte is no letter, X
is put before it. The name is cut to ten bytes. A name that another FILE has gets a number.

'tape in' prints a file's name once the file is safe on IMAGE. For a name that was changed, it
prints both names, as in 'A+B: stored as A_B'. With '-q', it prints nothing.";

/// An option without a value.
fn flag<'a>(alloc: Global, id: &'a str, help: &'a str) -> Arg<'a>
    ensures rule { rule_of result ≡ switch_rule id.entry.now }
    ensures local { result.global ≡ false }
{
    Arg::new(alloc, id)
        .long(id)
        .help(help)
        .action(ArgAction::SetTrue)
}

/// An option without a value, which one character names too.
fn short_flag<'a>(alloc: Global, id: &'a str, short: char, help: &'a str) -> Arg<'a>
    ensures rule { rule_of result ≡ short_switch_rule id.entry.now short }
    ensures local { result.global ≡ false }
{
    flag(alloc, id, help).short(short)
}

/// At most one argument that is not an option.
fn one<'a>(alloc: Global, id: &'a str, shown: &'a str, help: &'a str) -> Arg<'a>
    ensures rule { rule_of result ≡ one_rule id.entry.now }
    ensures local { result.global ≡ false }
{
    Arg::new(alloc, id)
        .value_name(shown)
        .help(help)
        .action(ArgAction::Set)
}

/// Any number of arguments that are not options.
fn several<'a>(alloc: Global, id: &'a str, shown: &'a str, help: &'a str) -> Arg<'a>
    ensures rule { rule_of result ≡ several_rule id.entry.now }
    ensures local { result.global ≡ false }
{
    Arg::new(alloc, id)
        .value_name(shown)
        .help(help)
        .action(ArgAction::Append)
}

/// A command that takes no arguments yet. What `clap` itself would add to it is off.
fn plain<'a>(alloc: Global, name: &'a str, about: &'a str, usage: &'a str) -> Command<'a>
    ensures app { app_of result ≡ plain_app name.entry.now }
    ensures local { (out-Command result).has_globals ≡ false }
{
    Command::new(alloc, name)
        .about(about)
        .override_usage(usage)
        .disable_help_flag(true)
        .disable_version_flag(true)
        .disable_help_subcommand(true)
}

fn dir<'a>(alloc: Global) -> Result<Command<'a>, AllocError>
    ensures app { IfOk result (λ c. app_of c ≡ dir_app) }
    ensures local { IfOk result (λ c. (out-Command c).has_globals ≡ false) }
{
    let command = plain(
        alloc,
        "dir",
        "Lists the files of each IMAGE",
        "tape dir [OPTIONS] IMAGE...",
    )
    .arg(several(
        alloc,
        "image",
        "IMAGE",
        "The image files to list, at least one",
    ))?
    .arg(flag(alloc, "all", "Also list the redo file"))?
    .arg(flag(alloc, "csv", "Write comma-separated values"))?
    .arg(flag(alloc, "help", "Print this page"))?;
    Ok(command)
}

fn out<'a>(alloc: Global) -> Result<Command<'a>, AllocError>
    ensures app { IfOk result (λ c. app_of c ≡ out_app) }
    ensures local { IfOk result (λ c. (out-Command c).has_globals ≡ false) }
{
    let command = plain(
        alloc,
        "out",
        "Copies files from IMAGE into FOLDER",
        "tape out IMAGE FOLDER [NAME...]",
    )
    .arg(one(alloc, "image", "IMAGE", IMAGE_HELP))?
    .arg(one(
        alloc,
        "folder",
        "FOLDER",
        "The folder that the files are copied into",
    ))?
    .arg(several(alloc, "names", "NAME", NAME_HELP))?
    .arg(flag(alloc, "help", "Print this page"))?;
    Ok(command)
}

/// The command of a job on one file.
fn file<'a>(
    alloc: Global,
    job: &'a str,
    about: &'a str,
    usage: &'a str,
) -> Result<Command<'a>, AllocError>
    ensures app { IfOk result (λ c. app_of c ≡ file_app job.entry.now) }
    ensures local { IfOk result (λ c. (out-Command c).has_globals ≡ false) }
{
    let command = plain(alloc, job, about, usage)
        .arg(one(alloc, "image", "IMAGE", IMAGE_HELP))?
        .arg(one(alloc, "name", "NAME", NAME_HELP))?
        .arg(flag(alloc, "help", "Print this page"))?;
    Ok(command)
}

/// The command of a job on one image.
fn image<'a>(
    alloc: Global,
    job: &'a str,
    about: &'a str,
    usage: &'a str,
) -> Result<Command<'a>, AllocError>
    ensures app { IfOk result (λ c. app_of c ≡ image_app job.entry.now) }
    ensures local { IfOk result (λ c. (out-Command c).has_globals ≡ false) }
{
    let command = plain(alloc, job, about, usage)
        .arg(one(alloc, "image", "IMAGE", IMAGE_HELP))?
        .arg(flag(alloc, "help", "Print this page"))?;
    Ok(command)
}

fn map<'a>(alloc: Global) -> Result<Command<'a>, AllocError>
    ensures app { IfOk result (λ c. app_of c ≡ map_app) }
    ensures local { IfOk result (λ c. (out-Command c).has_globals ≡ false) }
{
    let command = plain(
        alloc,
        "map",
        "Prints a picture of the records of IMAGE",
        "tape map [OPTIONS] IMAGE",
    )
    .arg(one(alloc, "image", "IMAGE", IMAGE_HELP))?
    .arg(flag(alloc, "svg", "Write the picture as an SVG file"))?
    .arg(flag(alloc, "help", "Print this page"))?;
    Ok(command)
}

fn diff<'a>(alloc: Global) -> Result<Command<'a>, AllocError>
    ensures app { IfOk result (λ c. app_of c ≡ diff_app) }
    ensures local { IfOk result (λ c. (out-Command c).has_globals ≡ false) }
{
    let command = plain(
        alloc,
        "diff",
        "Compares the files of IMAGE with those of OTHER",
        "tape diff IMAGE OTHER",
    )
    .arg(one(alloc, "image", "IMAGE", IMAGE_HELP))?
    .arg(one(
        alloc,
        "other",
        "OTHER",
        "The image file that it is compared with",
    ))?
    .arg(flag(alloc, "help", "Print this page"))?;
    Ok(command)
}

fn help<'a>(alloc: Global) -> Result<Command<'a>, AllocError>
    ensures app { IfOk result (λ c. app_of c ≡ help_app) }
    ensures local { IfOk result (λ c. (out-Command c).has_globals ≡ false) }
{
    let command = plain(
        alloc,
        "help",
        "Explains a job, or lists all jobs",
        "tape help [JOB]",
    )
    .arg(one(alloc, "job", "JOB", "The job to explain"))?
    .arg(flag(alloc, "help", "Print this page"))?;
    Ok(command)
}

/// The command of `new`, without its options.
fn new_volume<'a>(alloc: Global) -> Result<Command<'a>, AllocError>
    ensures app { IfOk result (λ c. app_of c ≡ new_volume_app) }
    ensures local { IfOk result (λ c. (out-Command c).has_globals ≡ false) }
{
    let command = plain(
        alloc,
        "new",
        "Makes a new image of a tape or a disc, with a volume",
        "tape new [OPTIONS] IMAGE LABEL SLOTS",
    )
    .arg(one(
        alloc,
        "image",
        "IMAGE",
        "The image file to make; a file that exists is never changed",
    ))?
    .arg(one(alloc, "label", "LABEL", LABEL_HELP))?
    .arg(one(alloc, "slots", "SLOTS", SLOTS_HELP))?;
    Ok(command)
}

fn new_image<'a>(alloc: Global) -> Result<Command<'a>, AllocError>
    ensures app { IfOk result (λ c. app_of c ≡ new_image_app) }
    ensures local { IfOk result (λ c. (out-Command c).has_globals ≡ false) }
{
    let command = new_volume(alloc)?
        .arg(flag(alloc, "disc", DISC_HELP))?
        .arg(flag(alloc, "small", SMALL_HELP))?
        .arg(flag(alloc, "help", "Print this page"))?;
    Ok(command)
}

/// The command of a job that stores a text.
fn store<'a>(
    alloc: Global,
    job: &'a str,
    about: &'a str,
    usage: &'a str,
) -> Result<Command<'a>, AllocError>
    ensures app { IfOk result (λ c. app_of c ≡ store_app job.entry.now) }
    ensures local { IfOk result (λ c. (out-Command c).has_globals ≡ false) }
{
    let command = plain(alloc, job, about, usage)
        .arg(one(alloc, "image", "IMAGE", IMAGE_HELP))?
        .arg(one(alloc, "name", "NAME", NEW_NAME_HELP))?
        .arg(short_flag(
            alloc,
            "quiet",
            'q',
            "Do not print the name of the stored file",
        ))?
        .arg(flag(alloc, "help", "Print this page"))?;
    Ok(command)
}

fn put<'a>(alloc: Global) -> Result<Command<'a>, AllocError>
    ensures app { IfOk result (λ c. app_of c ≡ store_app (codes "put")) }
    ensures local { IfOk result (λ c. (out-Command c).has_globals ≡ false) }
{
    let command = store(
        alloc,
        "put",
        "Stores a text from standard input as a new file NAME",
        "tape put [OPTIONS] IMAGE NAME",
    )?;
    Ok(command.after_help(PUT_HELP))
}

fn set<'a>(alloc: Global) -> Result<Command<'a>, AllocError>
    ensures app { IfOk result (λ c. app_of c ≡ store_app (codes "set")) }
    ensures local { IfOk result (λ c. (out-Command c).has_globals ≡ false) }
{
    let command = store(
        alloc,
        "set",
        "Stores a text from standard input as file NAME, new or in place of a text of that name",
        "tape set [OPTIONS] IMAGE NAME",
    )?;
    Ok(command.after_help(SET_HELP))
}

/// The command of `in`, without `--quiet` and `--help`.
fn in_files<'a>(alloc: Global) -> Result<Command<'a>, AllocError>
    ensures app { IfOk result (λ c. app_of c ≡ in_files_app) }
    ensures local { IfOk result (λ c. (out-Command c).has_globals ≡ false) }
{
    let command = plain(
        alloc,
        "in",
        "Copies host files onto IMAGE",
        "tape in [OPTIONS] IMAGE FILE...",
    )
    .arg(one(alloc, "image", "IMAGE", IMAGE_HELP))?
    .arg(several(alloc, "files", "FILE", FILE_HELP))?
    .arg(flag(alloc, "over", OVER_HELP))?
    .arg(flag(alloc, "mend", MEND_HELP))?;
    Ok(command)
}

fn copy_in<'a>(alloc: Global) -> Result<Command<'a>, AllocError>
    ensures app { IfOk result (λ c. app_of c ≡ in_app) }
    ensures local { IfOk result (λ c. (out-Command c).has_globals ≡ false) }
{
    let command = in_files(alloc)?
        .arg(short_flag(alloc, "quiet", 'q', QUIET_HELP))?
        .arg(flag(alloc, "help", "Print this page"))?;
    Ok(command.after_help(IN_HELP))
}

fn purge<'a>(alloc: Global) -> Result<Command<'a>, AllocError>
    ensures app { IfOk result (λ c. app_of c ≡ purge_app) }
    ensures local { IfOk result (λ c. (out-Command c).has_globals ≡ false) }
{
    let command = plain(
        alloc,
        "purge",
        "Purges files of IMAGE",
        "tape purge IMAGE NAME...",
    )
    .arg(one(alloc, "image", "IMAGE", IMAGE_HELP))?
    .arg(several(alloc, "names", "NAME", NAME_HELP))?
    .arg(flag(alloc, "help", "Print this page"))?;
    Ok(command)
}

fn rename<'a>(alloc: Global) -> Result<Command<'a>, AllocError>
    ensures app { IfOk result (λ c. app_of c ≡ rename_app) }
    ensures local { IfOk result (λ c. (out-Command c).has_globals ≡ false) }
{
    let command = plain(
        alloc,
        "rename",
        "Gives a file of IMAGE another name",
        "tape rename IMAGE OLD NEW",
    )
    .arg(one(alloc, "image", "IMAGE", IMAGE_HELP))?
    .arg(one(alloc, "old", "OLD", NAME_HELP))?
    .arg(one(
        alloc,
        "new",
        "NEW",
        "Its new name: a capital letter, then capital letters, digits and _",
    ))?
    .arg(flag(alloc, "help", "Print this page"))?;
    Ok(command)
}

/// The command that takes the arguments of one job.
pub(crate) fn job_command<'a>(alloc: Global, topic: Topic) -> Result<Command<'a>, AllocError>
    ensures app { IfOk result (λ c. app_of c ≡ app_for topic) }
    ensures local { IfOk result (λ c. (out-Command c).has_globals ≡ false) }
{
    match topic {
        Topic::Dir => dir(alloc),
        Topic::Out => out(alloc),
        Topic::Get => file(
            alloc,
            "get",
            "Prints the lines of a text file",
            "tape get IMAGE NAME",
        ),
        Topic::Raw => file(alloc, "raw", RAW_ABOUT, "tape raw IMAGE NAME"),
        Topic::Free => image(
            alloc,
            "free",
            "Prints how much room IMAGE has",
            "tape free IMAGE",
        ),
        Topic::Map => map(alloc),
        Topic::Why => image(alloc, "why", WHY_ABOUT, "tape why IMAGE"),
        Topic::Diff => diff(alloc),
        Topic::New => new_image(alloc),
        Topic::Put => put(alloc),
        Topic::Set => set(alloc),
        Topic::In => copy_in(alloc),
        Topic::Purge => purge(alloc),
        Topic::Rename => rename(alloc),
        Topic::Adopt => image(alloc, "adopt", ADOPT_ABOUT, "tape adopt IMAGE"),
        Topic::Upgrade => image(alloc, "upgrade", UPGRADE_ABOUT, "tape upgrade IMAGE"),
        Topic::Help => help(alloc),
    }
}

/// The command of the program, whose arguments do not begin with its name.
fn top<'a>(alloc: Global) -> Command<'a>
    ensures { app_of result ≡ top_app }
{
    plain(
        alloc,
        "tape",
        "Does one job with image files of HP-IL tapes and discs",
        "tape JOB [ARGUMENTS]",
    )
    .no_binary_name(true)
    .subcommand_help_heading("Jobs")
    .after_help("'tape help JOB' explains one job.")
}

/// The command without its jobs.
fn bare<'a>(alloc: Global) -> Result<Command<'a>, AllocError>
    ensures { IfOk result (λ c. app_of c ≡ program_app) }
{
    let command = top(alloc)
        .arg(flag(alloc, "help", "Print this page"))?
        .arg(flag(alloc, "version", "Print the version"))?;
    Ok(command)
}

/// The command that takes the arguments of the program: a subcommand for each job.
pub(crate) fn command<'a>(alloc: Global) -> Result<Command<'a>, AllocError>
    ensures { IfOk result (λ c. app_of c ≡ tape_app) }
{
    let command = bare(alloc)?
        .subcommand(job_command(alloc, Topic::Dir)?)?
        .subcommand(job_command(alloc, Topic::Out)?)?
        .subcommand(job_command(alloc, Topic::Get)?)?
        .subcommand(job_command(alloc, Topic::Raw)?)?
        .subcommand(job_command(alloc, Topic::Free)?)?
        .subcommand(job_command(alloc, Topic::Map)?)?
        .subcommand(job_command(alloc, Topic::Why)?)?
        .subcommand(job_command(alloc, Topic::Diff)?)?
        .subcommand(job_command(alloc, Topic::New)?)?
        .subcommand(job_command(alloc, Topic::Put)?)?
        .subcommand(job_command(alloc, Topic::Set)?)?
        .subcommand(job_command(alloc, Topic::In)?)?
        .subcommand(job_command(alloc, Topic::Purge)?)?
        .subcommand(job_command(alloc, Topic::Rename)?)?
        .subcommand(job_command(alloc, Topic::Adopt)?)?
        .subcommand(job_command(alloc, Topic::Upgrade)?)?
        .subcommand(job_command(alloc, Topic::Help)?)?;
    Ok(command)
}

/// The command that a page of help explains: that of one job, or of the program if there is no topic.
pub(crate) fn page_command<'a>(
    alloc: Global,
    topic: Option<Topic>,
) -> Result<Command<'a>, AllocError>
    ensures { IfOk result (λ c. app_of c ≡ page_app topic) }
{
    match topic {
        Some(topic) => job_command(alloc, topic),
        None => command(alloc),
    }
}
