ghost use Rattle.std.specs.Prelude.{◌≡◌, None, true};
ghost use Rattle.lif_model.specs.Shelf.{IsSize};
ghost use Rattle.tape.specs.Images.{EndsInDrive, JobEnds, WorksOnTape, sight};
ghost use Rattle.tape_drives.specs.Lending.{Uses};
ghost use Rattle.tape_volumes.specs.Volumes.{DoneOrNot};

use crate::hosted::Hosted;
use il_host::{Rig, with_host};
use il_ports::{Inserted, Medium, New};
use std::alloc::Global;
use tape_drives::Drives;
use tape_volumes::{Ending, VolumeJob, Went};

/// What is returned of a job on one image.
#[derive(Drop)]
pub struct Returned<M: Drop, J: Drop> {
    /// The medium, with the image in the drive if it was inserted.
    pub medium: M,
    /// The job.
    pub job: J,
}

/// Opens a host on the tape that is in the drive, and does the job.
pub fn work_on_tape<M: Medium + Drop, J: VolumeJob + Drop>(
    alloc: Global,
    medium: M,
    job: J,
) -> (Went, Returned<M, J>)
    requires size { IsSize (M.view medium).record_count }
    requires asks { J.asks job }
    ensures { WorksOnTape (DoneOrNot (J.does job result.1.job) (result.1.job ≡ job) result.0) (J.leaves job)
        (M.view medium) (M.view result.1.medium) }
{
    let rig = Rig {
        medium,
        before: Vec::new(alloc),
        after: Vec::new(alloc),
        guest: None,
    };
    let went = Went::OutOfMemory;
    let mut hosted = Hosted { job, went };
    match with_host(alloc, rig, &[], &mut hosted) {
        Ok(rig) => {
            let Hosted { job, went } = hosted;
            let medium = rig.medium;
            (went, Returned { medium, job })
        }
        Err(refused) => {
            let medium = refused.rig.medium;
            let job = hosted.job;
            (Went::OutOfMemory, Returned { medium, job })
        }
    }
}

/// Does a job on the image of that name, in this empty drive.
pub fn work_in<M: Medium + Drop, J: VolumeJob + Drop>(
    alloc: Global,
    mut medium: M,
    name: &str,
    job: J,
) -> (Ending, Returned<M, J>)
    requires empty { (M.view medium).record_count ≡ 0 }
    requires asks { J.asks job }
    ensures { JobEnds (J.does job result.1.job) (J.leaves job) (result.1.job ≡ job)
        (M.refuses medium result.1.medium name.entry.now None) result.0 name.entry.now
        (M.view medium) (M.view result.1.medium) }
{
    match medium.insert(name, New::No) {
        Ok(Inserted::Tape) => {
            let (went, returned) = work_on_tape(alloc, medium, job);
            (Ending::Went(went), returned)
        }
        Ok(Inserted::NoSuch) => (Ending::NoImage, Returned { medium, job }),
        Ok(Inserted::BadSize(_)) => (Ending::ImageTooLarge, Returned { medium, job }),
        Err(_) => (Ending::NotOpened, Returned { medium, job }),
    }
}

/// Does a job on the image of that name, in a drive that is given for it, and that goes back after it.
pub fn work_on_image<M: Medium + Drop, D: Drives<M>, J: VolumeJob + Drop>(
    alloc: Global,
    drives: &mut D,
    name: &str,
    job: J,
) -> (Ending, J)
    requires back { (D.lent drives.old).all_back ≡ true }
    requires asks { J.asks job }
    ensures ends { EndsInDrive (sight M.view M.refuses (D.lent drives.old) (D.lent drives.new))
        (J.does job result.1) (J.leaves job) (result.1 ≡ job) result.0 name.entry.now }
    ensures drives { Uses 1 (D.lent drives.old) (D.lent drives.new) }
{
    let drive = drives.drive();
    let (ending, returned) = work_in(alloc, drive, name, job);
    let Returned { medium, job } = returned;
    drives.back(medium);
    (ending, job)
}
