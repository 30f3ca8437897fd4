ghost use Rattle.std.specs.Prelude.{◌≡◌};
ghost use Rattle.tape_words.specs.Asked.{changing_topic, reading_topic, storing_topic, topic_in};

/// A job that `tape help` can explain.
#[derive(Clone, Copy, Debug, PartialEq, Eq)]
pub enum Topic {
    /// `tape dir`.
    Dir,
    /// `tape out`.
    Out,
    /// `tape get`.
    Get,
    /// `tape raw`.
    Raw,
    /// `tape free`.
    Free,
    /// `tape map`.
    Map,
    /// `tape why`.
    Why,
    /// `tape diff`.
    Diff,
    /// `tape new`.
    New,
    /// `tape put`.
    Put,
    /// `tape set`.
    Set,
    /// `tape in`.
    In,
    /// `tape purge`.
    Purge,
    /// `tape rename`.
    Rename,
    /// `tape adopt`.
    Adopt,
    /// `tape upgrade`.
    Upgrade,
    /// `tape help`.
    Help,
}

/// A job, with its arguments.
#[derive(Clone, Copy, Debug, PartialEq, Eq)]
pub enum Job<'a> {
    /// Lists the files of images.
    Dir {
        /// Whether the redo file is listed too.
        all: bool,
        /// Whether the listing is written as comma-separated values.
        csv: bool,
        /// The names of the images, at least one, in the order of the arguments.
        images: &'a [&'a str],
    },
    /// Copies files from an image into a folder.
    Out {
        /// The name of the image.
        image: &'a str,
        /// The name of the folder.
        folder: &'a str,
        /// The names of the files, in the order of the arguments. If there is none, all files are copied.
        names: &'a [&'a str],
    },
    /// Prints the lines of a text file.
    Get {
        /// The name of the image.
        image: &'a str,
        /// The name of the file.
        name: &'a str,
    },
    /// Writes the bytes of a file, as many as its directory entry tells.
    Raw {
        /// The name of the image.
        image: &'a str,
        /// The name of the file.
        name: &'a str,
    },
    /// Prints how much room an image has.
    Free {
        /// The name of the image.
        image: &'a str,
    },
    /// Prints a picture of the records of an image.
    Map {
        /// Whether the picture is an SVG file.
        svg: bool,
        /// The name of the image.
        image: &'a str,
    },
    /// Prints why an image can or cannot be listed and changed.
    Why {
        /// The name of the image.
        image: &'a str,
    },
    /// Compares the files of two images.
    Diff {
        /// The name of the first image.
        image: &'a str,
        /// The name of the second image.
        other: &'a str,
    },
    /// Makes a new image with a volume.
    New {
        /// Whether the image is one of a disc, of 630,784 bytes. If it is not, it is one of a tape, of 131,072 bytes.
        disc: bool,
        /// Whether the redo file stays one of version 1, which has 4 records. If it does not, it is one of version 2,
        /// which has 34.
        small: bool,
        /// The name of the image.
        image: &'a str,
        /// The label of the volume.
        label: &'a str,
        /// How many slots the directory has at least: any text, which need not be a number.
        slots: &'a str,
    },
    /// Stores a text from standard input as a new file.
    Put {
        /// Whether the name of the stored file is not printed.
        quiet: bool,
        /// The name of the image.
        image: &'a str,
        /// The name that the file gets.
        name: &'a str,
    },
    /// Stores a text from standard input as a new file, or in place of a text of that name.
    Set {
        /// Whether the name of the stored file is not printed.
        quiet: bool,
        /// The name of the image.
        image: &'a str,
        /// The name of the file.
        name: &'a str,
    },
    /// Copies files of the host onto an image.
    In {
        /// Whether a file of the image is replaced if it has the name of a host file. If it is not, it stays.
        over: bool,
        /// Whether a name that a volume cannot take is changed into one that it can take.
        mend: bool,
        /// Whether the names of the stored files are not printed.
        quiet: bool,
        /// The name of the image.
        image: &'a str,
        /// The paths of the files, at least one, in the order of the arguments.
        files: &'a [&'a str],
    },
    /// Purges files of an image.
    Purge {
        /// The name of the image.
        image: &'a str,
        /// The names of the files, at least one, in the order of the arguments.
        names: &'a [&'a str],
    },
    /// Gives a file of an image another name.
    Rename {
        /// The name of the image.
        image: &'a str,
        /// The name that the file has.
        old: &'a str,
        /// The name that it gets.
        new: &'a str,
    },
    /// Gives a volume of another program its redo file.
    Adopt {
        /// The name of the image.
        image: &'a str,
    },
    /// Makes the redo file of an image one of version 2.
    Upgrade {
        /// The name of the image.
        image: &'a str,
    },
    /// Explains one job, or the whole program if there is no topic.
    Help {
        /// The job that is explained.
        topic: Option<Topic>,
    },
    /// Prints the version.
    Version,
}

/// The job of this name.
pub(crate) fn topic_of(name: &str) -> Option<Topic>
    ensures { result ≡ topic_in name.now }
{
    reading_topic(name)
        .or(storing_topic(name))
        .or(changing_topic(name))
}

/// The job of this name, if it reads images.
fn reading_topic(name: &str) -> Option<Topic>
    ensures { result ≡ reading_topic name.now }
{
    if name == "dir" {
        return Some(Topic::Dir);
    }
    if name == "out" {
        return Some(Topic::Out);
    }
    if name == "get" {
        return Some(Topic::Get);
    }
    if name == "raw" {
        return Some(Topic::Raw);
    }
    if name == "free" {
        return Some(Topic::Free);
    }
    if name == "map" {
        return Some(Topic::Map);
    }
    if name == "why" {
        return Some(Topic::Why);
    }
    if name == "diff" {
        return Some(Topic::Diff);
    }
    None
}

/// The job of this name, if it makes an image or stores files on one.
fn storing_topic(name: &str) -> Option<Topic>
    ensures { result ≡ storing_topic name.now }
{
    if name == "new" {
        return Some(Topic::New);
    }
    if name == "put" {
        return Some(Topic::Put);
    }
    if name == "set" {
        return Some(Topic::Set);
    }
    if name == "in" {
        return Some(Topic::In);
    }
    None
}

/// The job of this name, if it changes the volume of an image; or that of help.
fn changing_topic(name: &str) -> Option<Topic>
    ensures { result ≡ changing_topic name.now }
{
    if name == "purge" {
        return Some(Topic::Purge);
    }
    if name == "rename" {
        return Some(Topic::Rename);
    }
    if name == "adopt" {
        return Some(Topic::Adopt);
    }
    if name == "upgrade" {
        return Some(Topic::Upgrade);
    }
    if name == "help" {
        return Some(Topic::Help);
    }
    None
}
