//! Images that are read whole.
ghost use Rattle.std.specs.Prelude.{◌≡◌, None, true};
ghost use Rattle.lif_model.specs.Shelf.{IsSize};
ghost use Rattle.tape.specs.Images.{sight};
ghost use Rattle.tape.specs.WholeImages.{ReadsAllRecords, ReadsImage, ReadsWhole};
ghost use Rattle.tape_drives.specs.Lending.{Uses};

use il_ports::{Inserted, Medium, New};
use std::alloc::Global;
use tape_drives::Drives;
use tape_volumes::{Ending, Went};

/// The bytes of a record.
const RECORD: usize = 256;

/// Reads all records of the tape that is in the drive, or says how the job goes without them.
fn read_tape<M: Medium>(alloc: Global, medium: &mut M) -> Result<Vec<u8>, Went>
    requires size { IsSize (M.view medium.old).record_count }
    ensures { ReadsAllRecords (M.view medium.old) (M.view medium.new) result }
{
    let size = medium.size();
    let Ok(mut bytes) = Vec::with_capacity(alloc, RECORD * usize::from(size)) else {
        return Err(Went::OutOfMemory);
    };
    let mut record = [0; RECORD];
    'records: for n in 0..size {
        if medium.read(n, &mut record).is_err() {
            return Err(Went::Fault);
        }
        bytes.extend_from_slice(&record).unwrap();
    }
    Ok(bytes)
}

/// Reads the image of that name whole, in this empty drive.
fn read_in<M: Medium>(alloc: Global, medium: &mut M, name: &str) -> Result<Vec<u8>, Ending>
    requires empty { (M.view medium.old).record_count ≡ 0 }
    ensures { ReadsWhole (M.refuses medium.old medium.new name.now None) name.now
        (M.view medium.old) (M.view medium.new) result }
{
    match medium.insert(name, New::No) {
        Ok(Inserted::Tape) => match read_tape(alloc, medium) {
            Ok(bytes) => Ok(bytes),
            Err(went) => Err(Ending::Went(went)),
        },
        Ok(Inserted::NoSuch) => Err(Ending::NoImage),
        Ok(Inserted::BadSize(_)) => Err(Ending::ImageTooLarge),
        Err(_) => Err(Ending::NotOpened),
    }
}

/// Reads the image of that name whole, in a drive that is given for it, and that goes back after it. The bytes are those
/// of its tape or disc, which ends in zeros if the image is shorter.
pub fn read_image<M: Medium + Drop, D: Drives<M>>(
    alloc: Global,
    drives: &mut D,
    name: &str,
) -> Result<Vec<u8>, Ending>
    requires back { (D.lent drives.old).all_back ≡ true }
    ensures read { ReadsImage (sight M.view M.refuses (D.lent drives.old) (D.lent drives.new)) name.now result }
    ensures drives { Uses 1 (D.lent drives.old) (D.lent drives.new) }
{
    let mut drive = drives.drive();
    let read = read_in(alloc, &mut drive, name);
    drives.back(drive);
    read
}
