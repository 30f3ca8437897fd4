ghost use Rattle.std.specs.Prelude.{◌≡◌};
ghost use Rattle.tape_volumes.specs.Endings.{code_text};

use crate::went::Went;
use il_script::Code;

/// How a job on one image ended.
#[derive(Clone, Copy, Debug, PartialEq, Eq)]
pub enum Ending {
    /// The image was opened, and the job went so.
    Went(Went),
    /// There is no image of that name.
    NoImage,
    /// The image has more bytes than a disc.
    ImageTooLarge,
    /// The image could not be opened, or another program holds it.
    NotOpened,
}

impl Ending {
    ghost use Rattle.std.specs.Prelude.{◌≡◌};
    ghost use Rattle.tape_volumes.specs.Endings.{ending_status, is_last, is_done, is_of_file, cause_of, advice_of};

    /// The exit status, if the job has this image alone.
    pub fn status(self) -> u8
        ensures { result ≡ ending_status self }
    {
        match self {
            Ending::Went(Went::Done) => 0,
            Ending::Went(Went::Refused(_) | Went::Fault | Went::NoSize | Went::NotAll) => 1,
            Ending::NoImage => 3,
            Ending::ImageTooLarge => 4,
            Ending::Went(Went::Unwritten | Went::FolderLost) => 6,
            Ending::Went(Went::OutOfMemory) => 7,
            Ending::NotOpened => 9,
        }
    }

    /// Whether a job ends here though it has more images: standard output or memory is lost.
    pub fn is_last(self) -> bool
        ensures { result ≡ is_last self }
    {
        matches!(self, Ending::Went(Went::Unwritten | Went::OutOfMemory))
    }

    /// Whether all was done.
    pub fn is_done(self) -> bool
        ensures { result ≡ is_done self }
    {
        matches!(self, Ending::Went(Went::Done))
    }

    /// Whether what was not done concerns one file, and not the whole image.
    pub fn is_of_file(self) -> bool
        ensures { result ≡ is_of_file self }
    {
        match self {
            Ending::Went(Went::Refused(code)) => code != Code::NotLif,
            Ending::Went(Went::NoSize) => true,
            _ => false,
        }
    }

    /// Why something was not done: the error of the volume, or a text.
    pub fn cause(&self) -> &[u8]
        ensures { result.now ≡ cause_of self.now }
    {
        match *self {
            Ending::Went(Went::Done) => b"",
            Ending::Went(Went::Refused(code)) => code_text(code),
            Ending::Went(Went::Fault) => b"the image could not be read or written",
            Ending::Went(Went::Unwritten) => b"standard output could not be written",
            Ending::Went(Went::OutOfMemory) => b"there is not enough memory",
            Ending::Went(Went::NotAll) => b"not all was done",
            Ending::Went(Went::FolderLost) => b"the folder could not be made or written",
            Ending::Went(Went::NoSize) => b"it does not tell how many bytes it has",
            Ending::NoImage => b"there is no such image",
            Ending::ImageTooLarge => b"the image has more than 630784 bytes, the size of a disc",
            Ending::NotOpened => b"the image could not be opened, or another program is using it",
        }
    }

    /// What an error of the volume means, after a colon.
    pub fn advice(&self) -> &[u8]
        ensures { result.now ≡ advice_of self.now }
    {
        match *self {
            Ending::Went(Went::Refused(Code::NotLif)) => {
                b": it has no LIF volume that can be read; 'tape why IMAGE' tells why"
            }
            Ending::Went(Went::Refused(Code::NoFile)) => b": there is no file of that name",
            Ending::Went(Went::Refused(Code::NotText)) => b": it is no text file",
            Ending::Went(Went::Refused(Code::Protected)) => b": it is the redo file",
            _ => b"",
        }
    }
}

/// An error of the volume, by its number and name.
fn code_text(code: Code) -> &'static [u8]
    ensures { result.now ≡ code_text code }
{
    let line = code.line();
    &line[..line.len() - 1]
}
