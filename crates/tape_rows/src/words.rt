//! What the arguments of `tape` ask for.

use il_same::same;
use std::alloc::{AllocError, Global};
use std::test::Fail;
use tape_words::{Job, NotRead, Topic, job_of, missing, parse};

/// The arguments of a text, with a space between each two.
fn words_of(alloc: Global, text: &str) -> Result<Vec<String>, AllocError> {
    let mut words = Vec::new(alloc);
    if !text.is_empty() {
        for word in text.split(' ') {
            words.push(String::from_str(alloc, word)?)?;
        }
    }
    Ok(words)
}

/// Whether these arguments ask for this job.
fn asks(alloc: Global, text: &str, wanted: Job<'_>) -> Result<bool, AllocError> {
    let words = words_of(alloc, text)?;
    match parse(alloc, words.as_slice()) {
        Ok(found) => match job_of(&found) {
            Some(job) => Ok(same(job, wanted)),
            None => Ok(false),
        },
        Err(NotRead::Refused(_)) => Ok(false),
        Err(NotRead::OutOfMemory) => Err(AllocError),
    }
}

/// What a listing is asked for: the redo file too, comma-separated values, and the images.
type Listing = (bool, bool, &'static [&'static str]);

/// Arguments, and the listing that they ask for.
const LISTINGS: [(&str, Listing); 14] = [
    ("dir TAPE", (false, false, &["TAPE"])),
    ("dir A B C", (false, false, &["A", "B", "C"])),
    ("dir B A B", (false, false, &["B", "A", "B"])),
    ("dir --all TAPE", (true, false, &["TAPE"])),
    ("dir --csv TAPE", (false, true, &["TAPE"])),
    ("dir --all --csv TAPE", (true, true, &["TAPE"])),
    ("dir TAPE --csv --all", (true, true, &["TAPE"])),
    ("dir A --csv B", (false, true, &["A", "B"])),
    ("dir -- --x", (false, false, &["--x"])),
    ("dir --all -- --csv A", (true, false, &["--csv", "A"])),
    ("dir A -- -b", (false, false, &["A", "-b"])),
    ("dir -", (false, false, &["-"])),
    ("dir dir", (false, false, &["dir"])),
    ("dir help", (false, false, &["help"])),
];

#[test]
fn arguments_ask_for_a_listing(rt: HostRuntime) -> Result<(), Fail> {
    for (text, (all, csv, images)) in LISTINGS {
        let wanted = Job::Dir { all, csv, images };
        assert!(rt; asks(rt.alloc(), text, wanted)?, "{text}");
    }
    Ok(())
}

/// Arguments, and the image, the folder and the names of the copy that they ask for.
const COPIES: [(&str, &str, &str, &[&str]); 7] = [
    ("out TAPE files", "TAPE", "files", &[]),
    ("out TAPE files A", "TAPE", "files", &["A"]),
    ("out TAPE files B A B", "TAPE", "files", &["B", "A", "B"]),
    ("out TAPE files %20 A%2F", "TAPE", "files", &["%20", "A%2F"]),
    ("out -- -t -f -n", "-t", "-f", &["-n"]),
    ("out TAPE -- -f --help", "TAPE", "-f", &["--help"]),
    ("out out get", "out", "get", &[]),
];

#[test]
fn arguments_ask_for_a_copy(rt: HostRuntime) -> Result<(), Fail> {
    for (text, image, folder, names) in COPIES {
        let wanted = Job::Out {
            image,
            folder,
            names,
        };
        assert!(rt; asks(rt.alloc(), text, wanted)?, "{text}");
    }
    Ok(())
}

/// Arguments after `get` or `raw`, and the image and the name that they give.
const FILES: [(&str, &str, &str); 5] = [
    ("TAPE NOTE", "TAPE", "NOTE"),
    ("TAPE A%2FB", "TAPE", "A%2FB"),
    ("TAPE -", "TAPE", "-"),
    ("TAPE -- --help", "TAPE", "--help"),
    ("get raw", "get", "raw"),
];

#[test]
fn arguments_ask_for_a_file(rt: HostRuntime) -> Result<(), Fail> {
    let alloc = rt.alloc();
    for (text, image, name) in FILES {
        let get = format!(in alloc; "get {text}")?;
        let raw = format!(in alloc; "raw {text}")?;
        assert!(rt; asks(alloc, &get, Job::Get { image, name })?, "{get}");
        assert!(rt; asks(alloc, &raw, Job::Raw { image, name })?, "{raw}");
    }
    Ok(())
}

#[test]
fn arguments_ask_of_images(rt: HostRuntime) -> Result<(), Fail> {
    let (image, other) = ("TAPE", "B");
    let wanted = [
        ("free TAPE", Job::Free { image }),
        ("map TAPE", Job::Map { svg: false, image }),
        ("map --svg TAPE", Job::Map { svg: true, image }),
        ("map TAPE --svg", Job::Map { svg: true, image }),
        ("why -- TAPE", Job::Why { image }),
        ("diff TAPE B", Job::Diff { image, other }),
    ];
    for (text, job) in wanted {
        assert!(rt; asks(rt.alloc(), text, job)?, "{text}");
    }
    Ok(())
}

#[test]
fn arguments_ask_for_changes(rt: HostRuntime) -> Result<(), Fail> {
    let (image, old, new) = ("TAPE", "A", "B");
    let wanted = [
        (
            "purge TAPE A B",
            Job::Purge {
                image,
                names: &["A", "B"],
            },
        ),
        (
            "purge -- TAPE --help",
            Job::Purge {
                image,
                names: &["--help"],
            },
        ),
        ("rename TAPE A B", Job::Rename { image, old, new }),
        ("adopt TAPE", Job::Adopt { image }),
        ("upgrade TAPE", Job::Upgrade { image }),
    ];
    for (text, job) in wanted {
        assert!(rt; asks(rt.alloc(), text, job)?, "{text}");
    }
    Ok(())
}

#[test]
fn arguments_ask_for_new_images_and_texts(rt: HostRuntime) -> Result<(), Fail> {
    let (image, label, slots, name) = ("TAPE", "LABEL", "16", "NOTE");
    let new = |disc, small| Job::New {
        disc,
        small,
        image,
        label,
        slots,
    };
    let wanted = [
        ("new TAPE LABEL 16", new(false, false)),
        ("new --disc TAPE LABEL 16", new(true, false)),
        ("new TAPE --small LABEL 16", new(false, true)),
        ("new TAPE LABEL 16 --small --disc", new(true, true)),
        (
            "put TAPE NOTE",
            Job::Put {
                quiet: false,
                image,
                name,
            },
        ),
        (
            "put -q TAPE NOTE",
            Job::Put {
                quiet: true,
                image,
                name,
            },
        ),
        (
            "set TAPE --quiet NOTE",
            Job::Set {
                quiet: true,
                image,
                name,
            },
        ),
        (
            "set TAPE NOTE",
            Job::Set {
                quiet: false,
                image,
                name,
            },
        ),
    ];
    for (text, job) in wanted {
        assert!(rt; asks(rt.alloc(), text, job)?, "{text}");
    }
    Ok(())
}

/// What `in` is asked for: files replaced, names changed, no name printed, and the host files.
type Stored = (bool, bool, bool, &'static [&'static str]);

/// Arguments, and what they ask to store on TAPE.
const STORED: [(&str, Stored); 8] = [
    ("in TAPE A", (false, false, false, &["A"])),
    (
        "in TAPE out/B.0001.00000000 A B",
        (false, false, false, &["out/B.0001.00000000", "A", "B"]),
    ),
    ("in --over TAPE A", (true, false, false, &["A"])),
    ("in TAPE --mend A", (false, true, false, &["A"])),
    ("in -q TAPE A", (false, false, true, &["A"])),
    (
        "in TAPE A --quiet B --mend --over",
        (true, true, true, &["A", "B"]),
    ),
    (
        "in TAPE -- --over -q",
        (false, false, false, &["--over", "-q"]),
    ),
    ("in TAPE in", (false, false, false, &["in"])),
];

#[test]
fn arguments_ask_for_host_files(rt: HostRuntime) -> Result<(), Fail> {
    let image = "TAPE";
    for (text, (over, mend, quiet, files)) in STORED {
        let wanted = Job::In {
            over,
            mend,
            quiet,
            image,
            files,
        };
        assert!(rt; asks(rt.alloc(), text, wanted)?, "{text}");
    }
    Ok(())
}

/// Arguments, and the job that they ask to explain.
const HELPS: [(&str, Option<Topic>); 28] = [
    ("help", None),
    ("--help", None),
    ("--help --version", None),
    ("--version --help", None),
    ("--help dir", None),
    ("help dir", Some(Topic::Dir)),
    ("dir --help", Some(Topic::Dir)),
    ("dir --help A --all", Some(Topic::Dir)),
    ("help out", Some(Topic::Out)),
    ("out --help", Some(Topic::Out)),
    ("help get", Some(Topic::Get)),
    ("get --help", Some(Topic::Get)),
    ("help raw", Some(Topic::Raw)),
    ("raw TAPE --help", Some(Topic::Raw)),
    ("help free", Some(Topic::Free)),
    ("map --svg --help", Some(Topic::Map)),
    ("why --help", Some(Topic::Why)),
    ("help diff", Some(Topic::Diff)),
    ("purge TAPE --help", Some(Topic::Purge)),
    ("help rename", Some(Topic::Rename)),
    ("adopt --help", Some(Topic::Adopt)),
    ("help new", Some(Topic::New)),
    ("put --help", Some(Topic::Put)),
    ("help set", Some(Topic::Set)),
    ("help in", Some(Topic::In)),
    ("in --help TAPE --over", Some(Topic::In)),
    ("help help", Some(Topic::Help)),
    ("help --help dir", Some(Topic::Help)),
];

#[test]
fn arguments_ask_for_help(rt: HostRuntime) -> Result<(), Fail> {
    for (text, topic) in HELPS {
        let wanted = Job::Help { topic };
        assert!(rt; asks(rt.alloc(), text, wanted)?, "{text}");
    }
    Ok(())
}

#[test]
fn arguments_ask_for_the_version(rt: HostRuntime) -> Result<(), Fail> {
    for text in ["--version", "--version dir --help", "--version dir"] {
        assert!(rt; asks(rt.alloc(), text, Job::Version)?, "{text}");
    }
    Ok(())
}

/// The message for arguments that are refused, if they are.
fn refusal(alloc: Global, words: &[String]) -> Result<Option<String>, AllocError> {
    match parse(alloc, words) {
        Ok(found) => match job_of(&found) {
            Some(_) => Ok(None),
            None => Ok(Some(missing(alloc, &found)?)),
        },
        Err(NotRead::Refused(message)) => Ok(Some(message)),
        Err(NotRead::OutOfMemory) => Err(AllocError),
    }
}

/// Arguments that are refused, and how the message begins.
const REFUSED: [(&str, &str); 45] = [
    (
        "",
        "Does one job with image files of HP-IL tapes and discs\n",
    ),
    (
        "--",
        "Does one job with image files of HP-IL tapes and discs\n",
    ),
    (
        "dir",
        "tape: dir needs at least one IMAGE; 'tape help dir' explains it\n",
    ),
    (
        "dir --all --csv --",
        "tape: dir needs at least one IMAGE; 'tape help dir' explains it\n",
    ),
    (
        "out",
        "tape: out needs IMAGE and FOLDER; 'tape help out' explains it\n",
    ),
    (
        "out TAPE",
        "tape: out needs IMAGE and FOLDER; 'tape help out' explains it\n",
    ),
    (
        "get",
        "tape: get needs IMAGE and NAME; 'tape help get' explains it\n",
    ),
    (
        "get TAPE --",
        "tape: get needs IMAGE and NAME; 'tape help get' explains it\n",
    ),
    (
        "raw TAPE",
        "tape: raw needs IMAGE and NAME; 'tape help raw' explains it\n",
    ),
    (
        "free",
        "tape: free needs IMAGE; 'tape help free' explains it\n",
    ),
    (
        "map --svg",
        "tape: map needs IMAGE; 'tape help map' explains it\n",
    ),
    (
        "diff TAPE",
        "tape: diff needs IMAGE and OTHER; 'tape help diff' explains it\n",
    ),
    (
        "purge TAPE",
        "tape: purge needs IMAGE and at least one NAME; 'tape help purge' explains it\n",
    ),
    (
        "rename TAPE A",
        "tape: rename needs IMAGE, OLD and NEW; 'tape help rename' explains it\n",
    ),
    (
        "adopt",
        "tape: adopt needs IMAGE; 'tape help adopt' explains it\n",
    ),
    (
        "new TAPE LABEL",
        "tape: new needs IMAGE, LABEL and SLOTS; 'tape help new' explains it\n",
    ),
    (
        "put TAPE",
        "tape: put needs IMAGE and NAME; 'tape help put' explains it\n",
    ),
    (
        "set -q",
        "tape: set needs IMAGE and NAME; 'tape help set' explains it\n",
    ),
    (
        "set --over TAPE A",
        "tape: unexpected argument '--over' found\n",
    ),
    (
        "in --over TAPE",
        "tape: in needs IMAGE and at least one FILE; 'tape help in' explains it\n",
    ),
    (
        "in -q",
        "tape: in needs IMAGE and at least one FILE; 'tape help in' explains it\n",
    ),
    (
        "in --all TAPE A",
        "tape: unexpected argument '--all' found\n",
    ),
    ("upgrade TAPE B", "tape: unexpected argument 'B' found\n"),
    ("why TAPE B", "tape: unexpected argument 'B' found\n"),
    (
        "free --svg TAPE",
        "tape: unexpected argument '--svg' found\n",
    ),
    ("get TAPE A B", "tape: unexpected argument 'B' found\n"),
    ("raw TAPE A B", "tape: unexpected argument 'B' found\n"),
    (
        "get --all TAPE A",
        "tape: unexpected argument '--all' found\n",
    ),
    ("out TAPE -f", "tape: unexpected argument '-f' found\n"),
    (
        "help list",
        "tape: there is no job 'list'; 'tape help' lists the jobs\n",
    ),
    (
        "help DIR",
        "tape: there is no job 'DIR'; 'tape help' lists the jobs\n",
    ),
    ("list TAPE", "tape: unrecognized subcommand 'list'\n"),
    ("DIR TAPE", "tape: unrecognized subcommand 'DIR'\n"),
    ("-- dir TAPE", "tape: unexpected argument 'dir' found\n"),
    ("-h", "tape: unexpected argument '-h' found\n"),
    ("-V", "tape: unexpected argument '-V' found\n"),
    (
        "--all dir TAPE",
        "tape: unexpected argument '--all' found\n",
    ),
    ("dir --al TAPE", "tape: unexpected argument '--al' found\n"),
    ("dir -a TAPE", "tape: unexpected argument '-a' found\n"),
    (
        "dir --version",
        "tape: unexpected argument '--version' found\n",
    ),
    (
        "dir --all --all TAPE",
        "tape: the argument '--all' cannot be used multiple times\n",
    ),
    (
        "dir --all=1 TAPE",
        "tape: unexpected value '1' for '--all' found; no more were expected\n",
    ),
    (
        "--help --help",
        "tape: the argument '--help' cannot be used multiple times\n",
    ),
    (
        "--help --quiet",
        "tape: unexpected argument '--quiet' found\n",
    ),
    ("help dir dir", "tape: unexpected argument 'dir' found\n"),
];

#[test]
fn other_arguments_are_refused(rt: HostRuntime) -> Result<(), Fail> {
    for (text, begin) in REFUSED {
        let words = words_of(rt.alloc(), text)?;
        match refusal(rt.alloc(), words.as_slice())? {
            Some(message) => assert!(rt; message.as_str().starts_with(begin), "{text}: {message}"),
            None => assert!(rt; false, "{text}"),
        }
    }
    Ok(())
}

const UNKNOWN: &str = "\
tape: unexpected argument '--al' found

  tip: a similar argument exists: '--all'

Usage: tape dir [OPTIONS] IMAGE...

For more information, try 'tape help'.
";

#[test]
fn a_refusal_says_what_the_job_takes(rt: HostRuntime) -> Result<(), Fail> {
    let words = words_of(rt.alloc(), "dir --al TAPE")?;
    match refusal(rt.alloc(), words.as_slice())? {
        Some(message) => assert_eq!(rt; message.as_str(), UNKNOWN),
        None => assert!(rt; false),
    }
    Ok(())
}
