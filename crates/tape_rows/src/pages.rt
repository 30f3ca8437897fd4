//! The help texts of `tape`, as they are printed.

use std::test::Fail;
use tape_words::{Topic, VERSION_TEXT, help_text};

const PROGRAM: &str = "\
Does one job with image files of HP-IL tapes and discs

Usage: tape JOB [ARGUMENTS]

Jobs:
  dir      Lists the files of each IMAGE
  out      Copies files from IMAGE into FOLDER
  get      Prints the lines of a text file
  raw      Writes the bytes of a file, as many as its directory entry tells
  free     Prints how much room IMAGE has
  map      Prints a picture of the records of IMAGE
  why      Prints why IMAGE can or cannot be listed and changed
  diff     Compares the files of IMAGE with those of OTHER
  new      Makes a new image of a tape or a disc, with a volume
  put      Stores a text from standard input as a new file NAME
  set      Stores a text from standard input as file NAME, new or in place of a text of that name
  in       Copies host files onto IMAGE
  purge    Purges files of IMAGE
  rename   Gives a file of IMAGE another name
  adopt    Gives a volume of another program its redo file
  upgrade  Makes the redo file large, so that files can be replaced
  help     Explains a job, or lists all jobs

Options:
      --help     Print this page
      --version  Print the version

'tape help JOB' explains one job.
";

const DIR: &str = "\
Lists the files of each IMAGE

Usage: tape dir [OPTIONS] IMAGE...

Arguments:
  [IMAGE]...  The image files to list, at least one

Options:
      --all   Also list the redo file
      --csv   Write comma-separated values
      --help  Print this page
";

const OUT: &str = "\
Copies files from IMAGE into FOLDER

Usage: tape out IMAGE FOLDER [NAME...]

Arguments:
  [IMAGE]    The image file
  [FOLDER]   The folder that the files are copied into
  [NAME]...  The name of a file; %HH is the byte HH hex

Options:
      --help  Print this page
";

const GET: &str = "\
Prints the lines of a text file

Usage: tape get IMAGE NAME

Arguments:
  [IMAGE]  The image file
  [NAME]   The name of a file; %HH is the byte HH hex

Options:
      --help  Print this page
";

const RAW: &str = "\
Writes the bytes of a file, as many as its directory entry tells

Usage: tape raw IMAGE NAME

Arguments:
  [IMAGE]  The image file
  [NAME]   The name of a file; %HH is the byte HH hex

Options:
      --help  Print this page
";

const FREE: &str = "\
Prints how much room IMAGE has

Usage: tape free IMAGE

Arguments:
  [IMAGE]  The image file

Options:
      --help  Print this page
";

const MAP: &str = "\
Prints a picture of the records of IMAGE

Usage: tape map [OPTIONS] IMAGE

Arguments:
  [IMAGE]  The image file

Options:
      --svg   Write the picture as an SVG file
      --help  Print this page
";

const WHY: &str = "\
Prints why IMAGE can or cannot be listed and changed

Usage: tape why IMAGE

Arguments:
  [IMAGE]  The image file

Options:
      --help  Print this page
";

const DIFF: &str = "\
Compares the files of IMAGE with those of OTHER

Usage: tape diff IMAGE OTHER

Arguments:
  [IMAGE]  The image file
  [OTHER]  The image file that it is compared with

Options:
      --help  Print this page
";

const NEW: &str = "\
Makes a new image of a tape or a disc, with a volume

Usage: tape new [OPTIONS] IMAGE LABEL SLOTS

Arguments:
  [IMAGE]  The image file to make; a file that exists is never changed
  [LABEL]  The volume's label: 1 to 6 of A-Z, 0-9 and _, a letter first; %HH is the byte HH hex
  [SLOTS]  How many slots the directory has at least, 1 to 19664; the redo file takes one

Options:
      --disc   Make a disc of 630,784 bytes, not a tape of 131,072 bytes
      --small  Make a redo file of 4 records, not 34: no file can be replaced before 'tape upgrade'
      --help   Print this page
";

const PUT: &str = "\
Stores a text from standard input as a new file NAME

Usage: tape put [OPTIONS] IMAGE NAME

Arguments:
  [IMAGE]  The image file
  [NAME]   The file's name: a capital letter, then capital letters, digits and _

Options:
  -q, --quiet  Do not print the name of the stored file
      --help   Print this page

'tape put' reads the text to its end before it opens IMAGE. Once the text is stored,
'tape put' prints NAME, unless '-q' is given.
";

const SET: &str = "\
Stores a text from standard input as file NAME, new or in place of a text of that name

Usage: tape set [OPTIONS] IMAGE NAME

Arguments:
  [IMAGE]  The image file
  [NAME]   The file's name: a capital letter, then capital letters, digits and _

Options:
  -q, --quiet  Do not print the name of the stored file
      --help   Print this page

'tape set' reads the text to its end before it opens IMAGE. It replaces a text file of that
name whole or not at all. If a file of that name has another type, that file stays as it is,
and a message says so. Once the text is stored, 'tape set' prints NAME, unless '-q' is given.
";

const IN: &str = "\
Copies host files onto IMAGE

Usage: tape in [OPTIONS] IMAGE FILE...

Arguments:
  [IMAGE]    The image file
  [FILE]...  The path of a host file that is named NAME.TYPE.FIELD

Options:
      --over   Replace a file of that name that is on IMAGE
      --mend   Change a name that the volume cannot take
  -q, --quiet  Do not print the names of the stored files
      --help   Print this page

A FILE is named NAME.TYPE.FIELD, as 'tape out' names it. In NAME, %HH is the byte HH hex. TYPE
has four hex digits, and FIELD has eight. 'tape in' reads every FILE whole before it opens IMAGE.
If IMAGE already has a file of that name, that file stays as it is, and a message says so. With
'--over', 'tape in' replaces that file whole or not at all.

With '--mend', 'tape in' changes a name that the volume cannot take. Small letters become capital
letters, and each byte that is no letter, digit or _ becomes _. If the first byte is no letter, X
is put before it. The name is cut to ten bytes. A name that another FILE has gets a number.

'tape in' prints a file's name once the file is safe on IMAGE. For a name that was changed, it
prints both names, as in 'A+B: stored as A_B'. With '-q', it prints nothing.
";

const PURGE: &str = "\
Purges files of IMAGE

Usage: tape purge IMAGE NAME...

Arguments:
  [IMAGE]    The image file
  [NAME]...  The name of a file; %HH is the byte HH hex

Options:
      --help  Print this page
";

const RENAME: &str = "\
Gives a file of IMAGE another name

Usage: tape rename IMAGE OLD NEW

Arguments:
  [IMAGE]  The image file
  [OLD]    The name of a file; %HH is the byte HH hex
  [NEW]    Its new name: a capital letter, then capital letters, digits and _

Options:
      --help  Print this page
";

const ADOPT: &str = "\
Gives a volume of another program its redo file

Usage: tape adopt IMAGE

Arguments:
  [IMAGE]  The image file

Options:
      --help  Print this page
";

const UPGRADE: &str = "\
Makes the redo file large, so that files can be replaced

Usage: tape upgrade IMAGE

Arguments:
  [IMAGE]  The image file

Options:
      --help  Print this page
";

const HELP: &str = "\
Explains a job, or lists all jobs

Usage: tape help [JOB]

Arguments:
  [JOB]  The job to explain

Options:
      --help  Print this page
";

#[test]
fn each_page_is_printed(rt: HostRuntime) -> Result<(), Fail> {
    for (topic, page) in [
        (None, PROGRAM),
        (Some(Topic::Dir), DIR),
        (Some(Topic::Out), OUT),
        (Some(Topic::Get), GET),
        (Some(Topic::Raw), RAW),
        (Some(Topic::Free), FREE),
        (Some(Topic::Map), MAP),
        (Some(Topic::Why), WHY),
        (Some(Topic::Diff), DIFF),
        (Some(Topic::New), NEW),
        (Some(Topic::Put), PUT),
        (Some(Topic::Set), SET),
        (Some(Topic::In), IN),
        (Some(Topic::Purge), PURGE),
        (Some(Topic::Rename), RENAME),
        (Some(Topic::Adopt), ADOPT),
        (Some(Topic::Upgrade), UPGRADE),
        (Some(Topic::Help), HELP),
    ] {
        let text = help_text(rt.alloc(), topic)?;
        assert_eq!(rt; text.as_str(), page);
    }
    Ok(())
}

#[test]
fn the_version_is_one_line(rt: HostRuntime) {
    assert_eq!(rt; VERSION_TEXT, "tape 1.0\n");
}
