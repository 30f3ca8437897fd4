// Runs of records over the loop, whole, with faults of frames, and with a medium that fails.
ghost use Rattle.std.specs.Prelude.{◌≤◌, IfOk};

use crate::tools;
use il_device::{Device, Printer};
use il_frames::Entry;
use il_ports::{MemoryMedium, Records, Trouble};
use il_record::LoopRecords;
use il_ring::PlanFault::{Alter, Lose};
use il_ring::Planned;
use il_same::same;
use ring_rows::tape;
use std::process::Abort;
use std::test::Fail;

/// A store over a new ring of a printer, if one is wanted, and the drive.
pub(crate) fn store(
    rt: &(impl Abort + AllocGlobal),
    medium: MemoryMedium,
    printer: bool,
    plan: &[Planned],
) -> Result<LoopRecords<MemoryMedium>, Fail>
    ensures { IfOk result (λ records. (⟦<LoopRecords<MemoryMedium> as Records>⟧.view records).valid) }
{
    let alloc = rt.alloc();
    let mut before = Vec::new(alloc);
    if printer {
        let printer: Box<dyn Device> = Box::new(alloc, Printer::new(alloc)?)?;
        before.push(printer)?;
    }
    tools::store(rt, medium, before, Vec::new(alloc), plan)
}

/// Makes the store sound, and says what it answered.
pub(crate) fn resume<R: Records>(rt: &impl Abort, records: &mut R) -> Result<(), Trouble>
    requires { (R.view records.old).valid }
    ensures { (R.view records.new).valid }
{
    assert!(rt; records.left() >= 1);
    records.resume()
}

/// Writes bytes from a record on, two records or as many as they fill, and says what it answered.
pub(crate) fn write<R: Records>(
    rt: &impl Abort,
    records: &mut R,
    first: u16,
    count: u16,
    bytes: &[u8],
) -> Result<(), Trouble>
    requires { (R.view records.old).valid }
    ensures { (R.view records.new).valid }
{
    assert!(rt; records.is_sound());
    assert!(rt; count >= 1);
    assert!(rt; bytes.len() <= 256 * usize::from(count));
    assert!(rt; records.left() >= u32::from(count));
    assert!(rt; u32::from(first) + u32::from(count) <= u32::from(records.size()));
    records.write_run(first, count, bytes)
}

/// Reads records, as many as fill `into`, and says what it answered.
pub(crate) fn read<R: Records>(
    rt: &impl Abort,
    records: &mut R,
    first: u16,
    into: &mut [u8],
) -> Result<(), Trouble>
    requires { (R.view records.old).valid }
    ensures { (R.view records.new).valid }
{
    assert!(rt; records.is_sound());
    let count = into.len() / 256;
    assert!(rt; count >= 1 && into.len() % 256 == 0 && count <= 3);
    assert!(rt; records.left() >= count as u32);
    assert!(rt; usize::from(first) + count <= usize::from(records.size()));
    records.read_run(first, into)
}

/// Makes the store sound, which goes well.
pub(crate) fn resume_well<R: Records>(rt: &impl Abort, records: &mut R, what: &str)
    requires { (R.view records.old).valid }
    ensures { (R.view records.new).valid }
{
    assert!(rt; same(resume(rt, records), Ok(())), "{what}");
}

/// A store as by `store`, which is made sound.
fn resumed(
    rt: &(impl Abort + AllocGlobal),
    medium: MemoryMedium,
    printer: bool,
    plan: &[Planned],
) -> Result<LoopRecords<MemoryMedium>, Fail>
    ensures { IfOk result (λ records. (⟦<LoopRecords<MemoryMedium> as Records>⟧.view records).valid) }
{
    let mut records = store(rt, medium, printer, plan)?;
    resume_well(rt, &mut records, "resumed");
    Ok(records)
}

/// The log since it was last emptied.
fn log(records: &LoopRecords<MemoryMedium>) -> &[Entry]
    requires { (⟦<LoopRecords<MemoryMedium> as Records>⟧.view records.now).valid }
{
    records.ring().log()
}

/// Whether each of these bytes is that one.
fn are_all(bytes: &[u8], byte: u8) -> bool {
    for b in bytes {
        if *b != byte {
            return false;
        }
    }
    true
}

/// Writes sixes, which fill so many records but for 100 bytes, from record 7 on, by one transmission.
fn write_sixes(rt: &impl Abort, records: &mut LoopRecords<MemoryMedium>, count: u16)
    requires valid { (⟦<LoopRecords<MemoryMedium> as Records>⟧.view records.old).valid }
    requires few { (1 ≤ count) × (count ≤ 3) }
    ensures { (⟦<LoopRecords<MemoryMedium> as Records>⟧.view records.new).valid }
{
    let size = 256 * usize::from(count);
    records.begin();
    let written = write(rt, records, 7, count, &[6; 768][..size - 100]);
    assert!(rt; same(written, Ok(())), "written");
    assert!(rt; same(log(records).len(), 24 + size), "log of the write");
}

/// Reads them back by one transmission, the last record filled up with zeros.
fn read_sixes(rt: &impl Abort, records: &mut LoopRecords<MemoryMedium>, count: u16)
    requires valid { (⟦<LoopRecords<MemoryMedium> as Records>⟧.view records.old).valid }
    requires few { (1 ≤ count) × (count ≤ 3) }
    ensures { (⟦<LoopRecords<MemoryMedium> as Records>⟧.view records.new).valid }
{
    let size = 256 * usize::from(count);
    let mut into = [9; 768];
    records.begin();
    let answer = read(rt, records, 7, &mut into[..size]);
    assert!(rt; same(answer, Ok(())), "read back");
    assert!(rt; same(log(records).len(), 29 + size), "log of the read");
    assert!(rt; are_all(&into[..size - 100], 6));
    assert!(rt; are_all(&into[size - 100..size], 0));
    assert!(rt; are_all(&into[size..], 9));
}

/// A run of so many records, at most three, goes out and comes back, and each frame of the log comes past a device that
/// stands before the drive.
fn round_trip(rt: &(impl Abort + AllocGlobal), count: u16) -> Result<(), Fail>
    requires { (1 ≤ count) × (count ≤ 3) }
{
    let mut records = resumed(rt, tape(rt.alloc(), 0, 0)?, true, &[])?;
    assert!(rt; same(log(&records).len(), 11), "log of the resume");
    write_sixes(rt, &mut records, count);
    read_sixes(rt, &mut records, count);
    let rig = records.into_ring().into_rig();
    let printer = rig.before.get(0).expect(rt, "a printer");
    // All entries but the ETO of each receive, which goes from the drive to the host.
    assert!(rt;
        same(printer.frames(), 61 + 512 * u64::from(count)),
        "frames of the printer"
    );
    Ok(())
}

#[test]
fn writes_and_reads_back(rt: HostRuntime) -> Result<(), Fail> {
    round_trip(&rt, 1)?;
    round_trip(&rt, 3)
}

/// What stands of two records, of 1s and of 2s, that were written with a fault planned at that crossing, and the
/// answer.
fn written_with(
    rt: &(impl Abort + AllocGlobal),
    planned: Planned,
    image: &mut [u8; 512],
) -> Result<Result<(), Trouble>, Fail> {
    let mut records = resumed(rt, tape(rt.alloc(), 0, 0)?, false, &[planned])?;
    records.begin();
    let mut bytes = [1; 512];
    for place in 256..512 {
        bytes[place] = 2;
    }
    let answer = write(rt, &mut records, 7, 2, &bytes);
    assert!(rt;
        same(records.is_sound(), answer.is_ok()),
        "sound where all went well"
    );
    resume_well(rt, &mut records, "resumed again");
    assert!(rt; same(read(rt, &mut records, 7, image), Ok(())), "read");
    Ok(answer)
}

/// Whether a record of these bytes stands where the fault was planned after the crossing at which its last byte came
/// to the drive, and else nothing; at that crossing an altered last byte is the only one that is another.
fn stands(record: &[u8], byte: u8, end: u64, planned: Planned) -> bool {
    let altered = planned.hop == end && planned.fault == Alter(4);
    let Some((last, front)) = record.split_last() else {
        return false;
    };
    if planned.hop > end {
        are_all(record, byte)
    } else if altered {
        are_all(front, byte) && *last == byte ^ 4
    } else {
        are_all(record, 0)
    }
}

/// The same of two records, of 1s and of 2s.
fn both_stand(image: &[u8; 512], first: u64, second: u64, planned: Planned) -> bool {
    stands(&image[..256], 1, first, planned) && stands(&image[256..], 2, second, planned)
}

/// A loss and an alteration at every crossing of a write of two records: the answer is a fault of frames, and each
/// record stands as its frames came to the drive. The next resume and read work.
#[test]
fn faults_at_every_crossing(rt: HostRuntime) -> Result<(), Fail> {
    // Addressing and clearing have 11 frames of two links each, the seek has 8, and the commands of the write 6.
    let first = 2 * (11 + 8 + 6 + 255) + 1;
    let second = first + 512;
    // The poll of the status after the last byte crosses 18 links.
    let last = second + 19;
    for hop in 23..=last {
        for fault in [Lose, Alter(4)] {
            let mut image = [9; 512];
            let planned = Planned { hop, fault };
            assert!(rt;
                same(written_with(&rt, planned, &mut image)?, Err(Trouble::Frame)),
                "a fault of frames"
            );
            assert!(rt; both_stand(&image, first, second, planned));
        }
    }
    Ok(())
}

/// A write of fives to the last three records fails by the medium, and its exchanges are whole.
fn write_fails(rt: &impl Abort, records: &mut LoopRecords<MemoryMedium>)
    requires { (⟦<LoopRecords<MemoryMedium> as Records>⟧.view records.old).valid }
    ensures { (⟦<LoopRecords<MemoryMedium> as Records>⟧.view records.new).valid }
{
    records.begin();
    let answer = write(rt, records, 508, 3, &[5; 768]);
    assert!(rt; same(answer, Err(Trouble::Medium)), "a fault of the medium");
    assert!(rt; same(log(records).len(), 24 + 768), "log of the write");
    assert!(rt; records.is_ready() && !records.is_sound());
}

/// A medium that fails to write record k of a run of three, 1 to 3: the answer is a fault of the medium, the exchanges
/// are whole, the records before it stand, it holds what the medium left, and those after it are as before.
fn failing_write(rt: &(impl Abort + AllocGlobal), k: usize) -> Result<(), Fail>
    requires { (1 ≤ k) × (k ≤ 3) }
{
    let mut records = resumed(rt, tape(rt.alloc(), 0, k as u64)?, false, &[])?;
    write_fails(rt, &mut records);
    resume_well(rt, &mut records, "resumed again");
    let mut into = [9; 768];
    let answer = read(rt, &mut records, 508, &mut into);
    assert!(rt; same(answer, Ok(())), "read");
    assert!(rt; are_all(&into[..256 * (k - 1)], 5));
    assert!(rt; are_all(&into[256 * (k - 1)..256 * k], 7));
    assert!(rt; are_all(&into[256 * k..], 0));
    Ok(())
}

/// One that fails to read record k of a run of three: the receive ends after the records before it, without NRD, and
/// the status tells it.
fn failing_read(rt: &(impl Abort + AllocGlobal), k: usize) -> Result<(), Fail>
    requires { (1 ≤ k) × (k ≤ 3) }
{
    let mut records = resumed(rt, tape(rt.alloc(), k as u64, 0)?, false, &[])?;
    records.begin();
    let mut into = [9; 768];
    let answer = read(rt, &mut records, 508, &mut into);
    assert!(rt; same(answer, Err(Trouble::Medium)), "a fault of the medium");
    // Where the first record fails, SDA comes back, and there is no ETO.
    let no_end = usize::from(k == 1);
    assert!(rt;
        same(log(&records).len(), 28 + 256 * (k - 1) - no_end),
        "log of the read"
    );
    resume_well(rt, &mut records, "resumed again");
    let answer = read(rt, &mut records, 508, &mut into);
    assert!(rt; same(answer, Ok(())), "read again");
    Ok(())
}

#[test]
fn failing_medium(rt: HostRuntime) -> Result<(), Fail> {
    for k in 1..=3 {
        failing_write(&rt, k)?;
        failing_read(&rt, k)?;
    }
    Ok(())
}

/// Asks the drive for its status, and says what it answered.
pub(crate) fn status(
    rt: &impl Abort,
    records: &mut LoopRecords<MemoryMedium>,
) -> Result<u8, Trouble>
    requires { (⟦<LoopRecords<MemoryMedium> as Records>⟧.view records.old).valid }
    ensures { (⟦<LoopRecords<MemoryMedium> as Records>⟧.view records.new).valid }
{
    assert!(rt; records.is_ready() && records.ring().spare() >= 1000);
    records.drive_status()
}

/// A drive that failed to read, and whose poll was lost: it tells status 1 once, with bit 6 set, and 0 after that.
#[test]
fn tells_the_status_once(rt: HostRuntime) -> Result<(), Fail> {
    // Addressing and clearing have 11 frames of two links each, the seek has 8, and the receive that ends at once 9.
    let planned = Planned {
        hop: 57,
        fault: Lose,
    };
    let mut records = resumed(&rt, tape(rt.alloc(), 1, 0)?, false, &[planned])?;
    let answer = read(&rt, &mut records, 508, &mut [9; 256]);
    assert!(rt; same(answer, Err(Trouble::Frame)), "a fault of frames");
    assert!(rt; records.ring().spare() >= 64);
    assert!(rt; same(records.ready(), Ok(())), "ready");
    assert!(rt; same(status(&rt, &mut records), Ok(0x41)), "status 1 once");
    assert!(rt; same(status(&rt, &mut records), Ok(0)), "status 0 then");
    Ok(())
}
