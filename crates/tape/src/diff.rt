//! The job `diff`.
ghost use Rattle.std.specs.Prelude.{◌≡◌, ◌⊎◌, ◌∷◌, true, [], IfOk, Some};
ghost use Rattle.tape.specs.Images.{medium_sight, sight};
ghost use Rattle.tape_drives.specs.Lending.{Uses};
ghost use Rattle.tape.specs.Comparing.{AreCollected, AreCollectedIn, CollectsIn, ImagesAreCompared, OtherIsCompared};
ghost use Rattle.tape.specs.Comparing.{TellsDifferences};
ghost use Rattle.tape_volumes.specs.declared.ending.Ending.TheVariants as ending;
ghost use Rattle.tape_volumes.specs.declared.went.Went.TheVariants as went;
ghost use Rattle.tape_volumes.specs.Outputs.{written};

use crate::images::{Returned, work_in};
use crate::whole::read_image;
use il_ports::{Medium, MemoryMedium, Sink};
use std::alloc::{AllocError, Global};
use tape_drives::Drives;
use tape_jobs::{Collected, Collecting, difference_text};
use tape_volumes::{Ending, Went, end_on, no_memory, print};

/// How many records can be written to a copy of an image in memory. That they are enough to settle it, and to finish a
/// packing, is tested.
const WRITES: usize = 16_384;

/// A drive in memory over an image of that name with these bytes.
fn memory_drive(alloc: Global, image: &str, bytes: Vec<u8>) -> Result<MemoryMedium, AllocError>
    ensures { IfOk result (λ m. ((⟦<MemoryMedium as Medium>⟧.view m).record_count ≡ 0)
        × ((⟦<MemoryMedium as Medium>⟧.view m).shelf ≡ Some ((image.now, bytes.items) ∷ []))) }
{
    let mut images = Vec::with_capacity(alloc, 1)?;
    images.push((String::from_str(alloc, image)?, bytes))?;
    MemoryMedium::new(
        alloc,
        images,
        Vec::new(alloc),
        Vec::new(alloc),
        Vec::new(alloc),
        WRITES,
    )
}

/// Inserts the image of that name in an empty drive, and collects its files.
fn collect_in<N: Medium + Drop>(alloc: Global, drive: N, image: &str) -> (Ending, Vec<Collected>)
    requires empty { (N.view drive).record_count ≡ 0 }
    ensures { CollectsIn (medium_sight N.view N.refuses) drive image.now result.0 result.1.items }
{
    let files = Vec::new(alloc);
    let (ending, returned) = work_in(alloc, drive, image, Collecting { files });
    let Returned { job, .. } = returned;
    (ending, job.files)
}

/// Collects the files of an image of that name with these bytes, from a copy in memory.
fn collect_copy(alloc: Global, image: &str, bytes: Vec<u8>) -> (Ending, Vec<Collected>)
    ensures { (result.0 ≡ ending.Went went.OutOfMemory)
        ⊎ AreCollectedIn
        (medium_sight ⟦<MemoryMedium as Medium>⟧.view ⟦<MemoryMedium as Medium>⟧.refuses)
        image.now bytes.items result.0 result.1.items }
{
    match memory_drive(alloc, image, bytes) {
        Ok(drive) => collect_in(alloc, drive, image),
        Err(_) => (Ending::Went(Went::OutOfMemory), Vec::new(alloc)),
    }
}

/// Reads the image of that name whole, closes it, and then collects its files from a copy.
fn collect_image<M: Medium + Drop, D: Drives<M>>(
    alloc: Global,
    readers: &mut D,
    image: &str,
) -> (Ending, Vec<Collected>)
    requires back { (D.lent readers.old).all_back ≡ true }
    ensures drives { Uses 1 (D.lent readers.old) (D.lent readers.new) }
    ensures collected { AreCollected (sight M.view M.refuses (D.lent readers.old) (D.lent readers.new))
        (medium_sight ⟦<MemoryMedium as Medium>⟧.view ⟦<MemoryMedium as Medium>⟧.refuses)
        image.now result.0 result.1.items }
{
    match read_image(alloc, readers, image) {
        Ok(bytes) => collect_copy(alloc, image, bytes),
        Err(ending) => (ending, Vec::new(alloc)),
    }
}

/// Prints how the files of two images differ, and says the exit status.
fn tell_differences<K: Sink, E: Sink>(
    alloc: Global,
    image: &str,
    other: &str,
    files: &[Collected],
    others: &[Collected],
    out: &mut K,
    error: &mut E,
) -> u8
    ensures { TellsDifferences image.now other.now files.now others.now result
        (written (K.written out.old) (K.faults out.old) (E.written error.old) (E.faults error.old))
        (written (K.written out.new) (K.faults out.new) (E.written error.new) (E.faults error.new)) }
{
    match difference_text(alloc, image, other, files, others) {
        Ok(text) => {
            let status = if text.is_empty() { 0 } else { 1 };
            print(status, text.as_slice(), out, error)
        }
        Err(_) => no_memory(error),
    }
}

/// Compares the files that were collected of one image with those of another one, and says the exit status.
fn compare_other<M: Medium + Drop, D: Drives<M>, K: Sink, E: Sink>(
    alloc: Global,
    readers: &mut D,
    image: &str,
    other: &str,
    files: &[Collected],
    out: &mut K,
    error: &mut E,
) -> u8
    requires back { (D.lent readers.old).all_back ≡ true }
    ensures drives { Uses 1 (D.lent readers.old) (D.lent readers.new) }
    ensures compared { OtherIsCompared (sight M.view M.refuses (D.lent readers.old) (D.lent readers.new))
        (medium_sight ⟦<MemoryMedium as Medium>⟧.view ⟦<MemoryMedium as Medium>⟧.refuses)
        image.now other.now files.now result
        (written (K.written out.old) (K.faults out.old) (E.written error.old) (E.faults error.old))
        (written (K.written out.new) (K.faults out.new) (E.written error.new) (E.faults error.new)) }
{
    let (ending, others) = collect_image(alloc, readers, other);
    if ending.is_done() {
        tell_differences(alloc, image, other, files, &others, out, error)
    } else {
        end_on(error, other, ending)
    }
}

/// Does the job `diff`, and says the exit status. The first image is closed before the other one is opened.
pub fn compare_images<M: Medium + Drop, D: Drives<M>, K: Sink, E: Sink>(
    alloc: Global,
    readers: &mut D,
    image: &str,
    other: &str,
    out: &mut K,
    error: &mut E,
) -> u8
    requires back { (D.lent readers.old).all_back ≡ true }
    ensures drives { Uses 2 (D.lent readers.old) (D.lent readers.new) }
    ensures compared { ImagesAreCompared (sight M.view M.refuses (D.lent readers.old) (D.lent readers.new))
        (medium_sight ⟦<MemoryMedium as Medium>⟧.view ⟦<MemoryMedium as Medium>⟧.refuses)
        image.now other.now result
        (written (K.written out.old) (K.faults out.old) (E.written error.old) (E.faults error.old))
        (written (K.written out.new) (K.faults out.new) (E.written error.new) (E.faults error.new)) }
{
    let (ending, files) = collect_image(alloc, readers, image);
    if ending.is_done() {
        compare_other(alloc, readers, image, other, &files, out, error)
    } else {
        end_on(error, image, ending)
    }
}
