ghost use Rattle.std.specs.Prelude.{◌≡◌, ◌<◌, ◌≤◌, ◌+◌, ◌*◌, ◌-◌, ◌^◌, Some, Ok, false, map};
ghost use Rattle.std.specs.Prelude.{length, take, IfOk, IfErr};
ghost use Rattle.lif_model.specs.Tape.{Tape, DidReadRun};
ghost use Rattle.il_ports.specs.Stores.{IsReady, GoesOn, IsQuiet};
ghost use Rattle.il_ports.specs.Transfers.{Adds, AddsOnly};
ghost use Rattle.lif_dir.specs.Entries.{slot_bytes};
ghost use Rattle.lif_commit.specs.Staged.{EndsWith};
ghost use Rattle.lif_plan.specs.Directories.{IsLegalDirectory};
ghost use Rattle.lif_volume.specs.Views.{IsDirectoryOn};
ghost use Rattle.lif_volume.specs.Answers.{store_answer, IsNotLif, IsLegalAs};
ghost use Rattle.lif_volume.specs.Commands.{directory_records};

use crate::fault::VolumeFault;
use il_ports::{Records, Trouble};
use lif_commit::Staged;
use lif_header::Header;
use lif_model::RECORD;
use lif_plan::{Directory, Refusal};

/// Reads record 0 and the directory, and tests that they are legal: if not, the answer is NotLif.
/// No record changes. After any other answer than Ok the slots in memory are any. `staged` keeps the
/// record with the end.
pub fn read_directory<R: Records>(
    records: &mut R,
    directory: &mut Directory,
    staged: &mut Staged,
) -> Result<Header, VolumeFault>
    requires size { 5 ≤ (R.view records.old).record_count }
    requires ready { IsReady ((R.view records.old).record_count - 4) (R.view records.old) }
    requires room { directory.old.table.room ≡ 8 * ((R.view records.old).record_count - 5) }

    ensures legal { IfOk result (λ header. IsLegalDirectory
        (R.view records.old).record_count header (map slot_bytes directory.new.table.slots)) }
    ensures found { IfOk result (λ header. (t : Tape) → (R.view records.old).tape ≡ Some t
        → IsDirectoryOn t header directory.new.table.slots) }
    ensures end { IfOk result (λ header. (t : Tape) → (R.view records.old).tape ≡ Some t
        → EndsWith header.start header.length (length directory.new.table.slots) staged.new.last t) }
    ensures exactly { (t : Tape) → (R.view records.old).tape ≡ Some t → IsLegalAs t result }
    ensures only { IfErr result IsNotLif }

    ensures goes_on { GoesOn ((R.view records.old).record_count - 4)
        (R.view records.old) (R.view records.new) (store_answer result) }
    ensures reads { IfOk result (λ header. GoesOn (1 + header.length)
        (R.view records.old) (R.view records.new) (store_answer result)) }
    ensures few { (t : Tape) → (R.view records.old).tape ≡ Some t → (R.view records.old).calls_left
        ≤ (R.view records.new).calls_left + (1 + directory_records t) }
    ensures quiet { IsQuiet (R.view records.old) (R.view records.new) }
    ensures transfers { AddsOnly (λ n. ⊥) (R.view records.old).transferred
        (R.view records.new).transferred (store_answer result) }
    ensures room { directory.new.table.room ≡ directory.old.table.room }
{
    let size = records.size();
    let mut bytes = [0; RECORD];
    records.read(0, &mut bytes)?;
    let Ok(header) = Header::read(&bytes, size) else {
        return Err(VolumeFault::Refused(Refusal::NotLif));
    };
    staged.read_slots(records, &header, &mut directory.table)?;
    if !directory.is_legal(&header, size) {
        return Err(VolumeFault::Refused(Refusal::NotLif));
    }
    Ok(header)
}

/// Reads `count` records, from record `first` on, into the front of `into`, by one run, or by none
/// where there are none. After a trouble `into` holds any bytes.
pub fn read_front<R: Records>(
    records: &mut R,
    first: u32,
    count: u32,
    into: &mut [u8],
) -> Result<(), Trouble>
    requires ready { IsReady count (R.view records.old) }
    requires small { (R.view records.old).record_count < 2 ^ 16 }
    requires within { 0 < count → first + count ≤ (R.view records.old).record_count }
    requires room { 256 * count ≤ length into.old }
    ensures goes_on { GoesOn count (R.view records.old) (R.view records.new) result }
    ensures quiet { IsQuiet (R.view records.old) (R.view records.new) }
    ensures content { DidReadRun first count (take (256 * count) into.new)
        (R.view records.old).tape result }
    ensures run { 0 < count → Adds
        (record { writes = false; first = first; bytes = take (256 * count) into.new })
        (R.view records.old).transferred (R.view records.new).transferred result }
    ensures none { count ≡ 0 → (result ≡ Ok tt) × (records.new ≡ records.old) }
{
    if count == 0 {
        return Ok(());
    }
    let front = &mut into[..RECORD * count as usize];
    records.read_run(first as u16, front)
}
