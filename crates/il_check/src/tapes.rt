ghost use Rattle.std.specs.Prelude.{◌≡◌, ◌≤◌, ◌<◌, ◌^◌, [], ℕ, length, IfOk, None, option_map};
ghost use Rattle.lif_model.specs.Shelf.{IsSize};
ghost use Rattle.trace_readers.specs.Effects.{IsEffectAfter};
ghost use Rattle.il_check.specs.Telling.{label_on};
ghost use Rattle.il_check.specs.Tapes.{IsTakenFrom, TapeCause};
ghost use Rattle.il_check.specs.Whole.{InsertFailedBy, InsertedAs, InsertCause, StaysSo};

use crate::ending::Ending;
use crate::telling::Label;
use il_ports::{Inserted, Medium, MemoryRecords, New};
use lif_model::{RECORD, Record};
use lif_volume::{Volume, VolumeFault};
use std::alloc::{AllocError, Global};
use trace_readers::Effects;

/// Puts the image of that name into the drive, where there is one.
pub(crate) fn insert<M: Medium>(medium: &mut M, name: &str) -> Result<(), Ending>
    requires { (M.view medium.old).record_count ≡ 0 }
    ensures inserts { InsertedAs name.now (M.view medium.old) (M.view medium.new) result }
    ensures cause { InsertCause (M.view medium.old).faults (M.view medium.new).faults result }
    ensures failed { InsertFailedBy result (M.refuses medium.old medium.new name.now None) }
{
    match medium.insert(name, New::No) {
        Ok(Inserted::Tape) => Ok(()),
        Ok(Inserted::NoSuch) => Err(Ending::NoImage),
        Ok(Inserted::BadSize(_)) => Err(Ending::ImageTooLarge),
        Err(_) => Err(Ending::InsertFailed),
    }
}

/// Reads the tape that is in the drive.
pub(crate) fn read_tape<M: Medium>(alloc: Global, medium: &mut M) -> Result<Vec<Record>, Ending>
    ensures tape { IfOk result (λ tape. IsTakenFrom (M.view medium.old) tape.items) }
    ensures stays { StaysSo (M.view medium.old) (M.view medium.new) }
    ensures cause { TapeCause (M.view medium.old).faults (M.view medium.new).faults result }
{
    let count = medium.size();
    let Ok(mut tape) = Vec::with_capacity(alloc, usize::from(count)) else {
        return Err(Ending::OutOfMemory);
    };
    let mut record = [0; RECORD];
    'records: for n in 0..count {
        match medium.read(n, &mut record) {
            Ok(()) => tape.push(record).unwrap(),
            Err(_) => return Err(Ending::ReadFailed),
        }
    }
    Ok(tape)
}

/// The readers of effects on this tape, of which the drive is at this party.
pub(crate) fn effects_on(alloc: Global, drive: u8, tape: &[Record]) -> Result<Effects, AllocError>
    requires party { drive ≤ 30 }
    requires few { length tape.now < 65536 }
    ensures known { IfOk result (λ effects. IsEffectAfter drive tape.now [] effects) }
    ensures size { IfOk result (λ effects. length effects.expected.records ≡ length tape.now) }
{
    let mut effects = Effects::new(alloc, drive, tape.len() as u16)?;
    for record in tape {
        effects.push(record);
    }
    Ok(effects)
}

/// A copy of a tape.
fn copied(alloc: Global, tape: &[Record]) -> Result<Vec<Record>, AllocError>
    ensures { IfOk result (λ copy. copy.items ≡ tape.now) }
{
    let mut copy = Vec::with_capacity(alloc, tape.len())?;
    for record in tape {
        copy.push(*record).unwrap();
    }
    Ok(copy)
}

/// The label of the volume of this tape, by a copy in memory, which is settled. No record of the copy fails.
pub(crate) fn label_on(alloc: Global, tape: &[Record]) -> Result<Label, AllocError>
    requires { IsSize (length tape.now) }
    ensures { IfOk result (λ label. label ≡ label_on tape.now) }
{
    let calls = 2 * tape.len() as u32 + 40;
    let records = MemoryRecords::new(alloc, copied(alloc, tape)?, Vec::new(alloc), calls)?;
    let Ok(mut volume) = Volume::open(alloc, records) else {
        return Err(AllocError);
    };
    match volume.label() {
        Ok(label) => Ok(Some(label)),
        Err(VolumeFault::Refused(_)) => Ok(None),
        Err(VolumeFault::Trouble(_)) => Err(AllocError),
    }
}
