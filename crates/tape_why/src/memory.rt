//! Settling and reading a tape in memory.
ghost use Rattle.std.specs.Prelude.{◌≡◌, ◌≤◌, ◌+◌, ◌*◌, ◌-◌, true, not, length, IfOk};
ghost use Rattle.lif_model.specs.Redo.{is_settled, settled};
ghost use Rattle.il_ports.specs.MemoryRecords.{state_of};
ghost use Rattle.tape_why.specs.Readings.{IsReadAs};

use il_ports::{MemoryRecords, Records};
use lif_dir::slots_of;
use lif_header::{Header, HeaderFault};
use lif_model::RECORD;
use lif_plan::Directory;
use lif_redo::settle;
use std::alloc::AllocError;

/// Completes a change that was broken off, and returns whether there was one. No read or write of this store fails. If
/// one failed, the error would be that of want of memory.
pub(crate) fn settle_records(records: &mut MemoryRecords) -> Result<bool, AllocError>
    requires size { 4 ≤ length (state_of records.old).records }
    requires sound { (state_of records.old).sound ≡ true }
    requires left { 70 ≤ (state_of records.old).left }
    ensures stopped { IfOk result (λ stopped. stopped ≡ not (is_settled (state_of records.old).records)) }
    ensures records { IfOk result (λ stopped. (state_of records.new).records ≡ settled (state_of records.old).records) }
    ensures sound { IfOk result (λ stopped. (state_of records.new).sound ≡ true) }
    ensures left { (state_of records.old).left ≤ (state_of records.new).left + 70 }
{
    match settle(records) {
        Ok(stopped) => Ok(stopped),
        Err(_) => Err(AllocError),
    }
}

/// Reads record 0 and the directory, and returns the header, or the first test that record 0 fails. The slots are read
/// into `directory`. No read of this store fails. If one failed, the error would be that of want of memory.
pub(crate) fn read_directory(
    records: &mut MemoryRecords,
    directory: &mut Directory,
) -> Result<Result<Header, HeaderFault>, AllocError>
    requires size { 5 ≤ length (state_of records.old).records }
    requires sound { (state_of records.old).sound ≡ true }
    requires left { length (state_of records.old).records ≤ (state_of records.old).left }
    requires room { 8 * (length (state_of records.old).records - 5) ≤ directory.old.table.room }
    ensures { IfOk result (IsReadAs (state_of records.old).records directory.new.table.slots) }
{
    let mut bytes = [0; RECORD];
    let Ok(()) = records.read(0, &mut bytes) else {
        return Err(AllocError);
    };
    match Header::read(&bytes, records.size()) {
        Err(fault) => Ok(Err(fault)),
        Ok(header) => match slots_of(records, &header, &mut directory.table) {
            Ok(()) => Ok(Ok(header)),
            Err(_) => Err(AllocError),
        },
    }
}
