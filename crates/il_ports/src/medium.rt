ghost use Rattle.std.specs.Prelude.{◌≡◌};
ghost use Rattle.std.specs.Option.{option_map};
ghost use Rattle.il_ports.specs.Inserting.{records_made};
ghost use Rattle.il_ports.specs.Sizes.{records_of_size};

use crate::image::Size;
use crate::stream::Failed;

/// What an insert found.
#[derive(Clone, Copy, Debug, PartialEq, Eq)]
pub enum Inserted {
    /// The tape is in the drive.
    Tape,
    /// The shelf has no image of that name.
    NoSuch,
    /// The image has this many bytes, which are more than a disc has.
    BadSize(u64),
}

/// What an insert makes if the image is missing.
#[derive(Clone, Copy, Debug, PartialEq, Eq)]
pub enum New {
    /// Nothing.
    No,
    /// A tape of the HP 82161A: 512 records of zeros, 131,072 bytes.
    Tape,
    /// A disc of the HP 9114: 2,464 records of zeros, 630,784 bytes.
    Disc,
}

impl New {
    /// The size of the medium that is made, if one is.
    pub(crate) fn size(self) -> Option<Size>
        ensures { option_map records_of_size result ≡ records_made self }
    {
        match self {
            New::No => None,
            New::Tape => Some(Size::Tape),
            New::Disc => Some(Size::Disc),
        }
    }
}

/// A shelf of named images, and the tape that is in the drive. A disc is a tape of another size.
pub trait Medium {
    ghost use Rattle.std.specs.Prelude.{◌≡◌, ◌<◌, ℕ, List, Option, OnErr};
    ghost use Rattle.il_ports.specs.Inserting.{records_made};
    ghost use Rattle.il_ports.specs.Media.{MediumView, IsMedium, DidInsert, DidReadRecord, DidWriteRecord};

    ghost view: { Self → MediumView };

    // Why an insert of an image fails: by the medium before and after it, the image's name, and the number of records
    // of the medium that it would make, if any.
    ghost refuses: { Self → Self → List ℕ → Option ℕ → Type 0 };

    /// Inserts the image of that name into the drive, which is empty. An image of at most 131,072 bytes is a tape of
    /// 512 records, and a larger one of at most 630,784 bytes is a disc of 2,464; either reads as if zeros followed it.
    /// If the image is missing, it is made as `new` says; if it is there, `new` changes nothing. Unless the insert is a
    /// fault, it answers `NoSuch` if and only if the image is missing and `new` is `No`, and `BadSize` if and only if
    /// the image has more bytes than a disc. After these two and after a fault no tape is inserted, and every image is
    /// as before. After `Tape` every other image is as before.
    fn insert(&mut self, name: &str, new: New) -> Result<Inserted, Failed>
        requires { (view self.old).record_count ≡ 0 }
        ensures did { DidInsert name.now new (view self.old) (view self.new) result }
        ensures cause { OnErr result (refuses self.old self.new name.now (records_made new)) };

    /// The number of records of the tape in the drive: 512 or 2,464, or 0 if no tape is inserted.
    fn size(&self) -> u16
        ensures { result ≡ (view self.now).record_count };

    /// Reads record `n`, which the tape has, into `into`. A fault leaves the tape as it was, and any bytes in `into`.
    fn read(&mut self, n: u16, into: &mut [u8; 256]) -> Result<(), Failed>
        requires { n < (view self.old).record_count }
        ensures { DidReadRecord n into.new (view self.old) (view self.new) result };

    /// Writes record `n`, which the tape has. After a fault the record holds any bytes. All other records, and all
    /// other images, are as before. A power stop during the call leaves any bytes in the record and changes no other.
    fn write(&mut self, n: u16, from: &[u8; 256]) -> Result<(), Failed>
        requires { n < (view self.old).record_count }
        ensures { DidWriteRecord n from.now (view self.old) (view self.new) result };

    ghost is_medium: { (m : Self) → IsMedium (view m) };
}
