// A store over the loop that is lent: no record changes, and it is not sound until it is resumed.
ghost use Rattle.std.specs.Prelude.{IfOk};

use crate::lend_reckoning::Lineup;
use crate::lend_rows::{found, rig};
use crate::store_rows::{read, resume_well, write};
use crate::tools;
use PlanFault::{Alter, Lose};
use il_ports::{Medium, MemoryMedium, Records, Trouble};
use il_record::LoopRecords;
use il_ring::{PlanFault, Planned};
use il_same::{same, same_bytes};
use std::process::Abort;
use std::test::Fail;

/// A quiet device, the drive and a second controller.
const LINEUP: Lineup = Lineup {
    devices: b"QD",
    last: Some(4),
};

/// A store over that loop.
fn store(
    rt: &(impl Abort + AllocGlobal),
    plan: &[Planned],
) -> Result<LoopRecords<MemoryMedium>, Fail>
    ensures { IfOk result (λ records. (⟦<LoopRecords<MemoryMedium> as Records>⟧.view records).valid) }
{
    let lost = tools::controller_of(rt, rig(rt, LINEUP)?, plan)?;
    Ok(LoopRecords::new(lost))
}

/// Lends the loop to the party of this number, and says what it answered.
fn lend(
    rt: &impl Abort,
    records: &mut LoopRecords<MemoryMedium>,
    party: u8,
    limit: u16,
) -> Result<bool, Trouble>
    requires { (⟦<LoopRecords<MemoryMedium> as Records>⟧.view records.old).valid }
    ensures { (⟦<LoopRecords<MemoryMedium> as Records>⟧.view records.new).valid }
{
    assert!(rt; 1 <= party && party <= 30);
    assert!(rt; 1 <= limit && limit <= 4096);
    assert!(rt; records.is_ready());
    assert!(rt; records.ring().spare() >= 4 * usize::from(limit) + 48);
    records.lend(party, limit)
}

/// A store that was resumed, and wrote 5s to record 7 and 8.
fn written(
    rt: &(impl Abort + AllocGlobal),
    plan: &[Planned],
) -> Result<LoopRecords<MemoryMedium>, Fail>
    ensures { IfOk result (λ records. (⟦<LoopRecords<MemoryMedium> as Records>⟧.view records).valid) }
{
    let mut records = store(rt, plan)?;
    resume_well(rt, &mut records, "resumed");
    let wrote = write(rt, &mut records, 7, 2, &[5; 512]);
    assert!(rt; same(wrote, Ok(())), "written");
    records.begin();
    Ok(records)
}

/// Record 7 and 8 hold 5s, record 9 this byte, and all others zeros.
fn compare_tape(rt: &impl Abort, records: LoopRecords<MemoryMedium>, ninth: u8) -> Result<(), Fail>
    requires { (⟦<LoopRecords<MemoryMedium> as Records>⟧.view records).valid }
{
    let mut medium = records.into_ring().into_rig().medium;
    let mut record = [0; 256];
    for place in 0..512 {
        let byte = match place {
            7 | 8 => 5,
            9 => ninth,
            _ => 0,
        };
        assert!(rt; place < medium.size());
        assert!(rt; same(medium.read(place, &mut record), Ok(())), "{place}");
        assert!(rt; same_bytes(&record, &[byte; 256]), "{place}");
    }
    Ok(())
}

/// The store is not sound, and is resumed with so many entries in the log.
fn resume_in(rt: &impl Abort, records: &mut LoopRecords<MemoryMedium>, entries: usize)
    requires { (⟦<LoopRecords<MemoryMedium> as Records>⟧.view records.old).valid }
    ensures { (⟦<LoopRecords<MemoryMedium> as Records>⟧.view records.new).valid }
{
    assert!(rt; !records.is_sound());
    records.begin();
    resume_well(rt, records, "resumed");
    assert!(rt; records.is_sound() && records.is_ready());
    assert!(rt; same(records.ring().log().len(), entries), "its entries");
}

/// The store reads the 5s, writes 6s to record 9, and reads them back.
fn use_well(rt: &impl Abort, records: &mut LoopRecords<MemoryMedium>)
    requires { (⟦<LoopRecords<MemoryMedium> as Records>⟧.view records.old).valid }
    ensures { (⟦<LoopRecords<MemoryMedium> as Records>⟧.view records.new).valid }
{
    let mut image = [9; 512];
    assert!(rt; same(read(rt, records, 7, &mut image), Ok(())), "read");
    assert!(rt; same_bytes(&image, &[5; 512]), "5s");
    let wrote = write(rt, records, 9, 1, &[6; 256]);
    assert!(rt; same(wrote, Ok(())), "written");
    let mut image = [9; 256];
    assert!(rt; same(read(rt, records, 9, &mut image), Ok(())), "read");
    assert!(rt; same_bytes(&image, &[6; 256]), "6s");
}

/// The store is not sound, is resumed with so many entries in the log, reads, writes and reads back, and no other
/// record has changed.
fn resume_and_use(
    rt: &impl Abort,
    mut records: LoopRecords<MemoryMedium>,
    entries: usize,
) -> Result<(), Fail>
    requires { (⟦<LoopRecords<MemoryMedium> as Records>⟧.view records).valid }
{
    resume_in(rt, &mut records, entries);
    use_well(rt, &mut records);
    compare_tape(rt, records, 6)
}

/// A lend with this limit to this party, which takes control where it is the second controller; the status of the drive
/// is told as here.
fn compare_lend(
    rt: &(impl Abort + AllocGlobal),
    party: u8,
    limit: u16,
    told: Option<u8>,
) -> Result<(), Fail> {
    let mut records = written(rt, &[])?;
    let answer = lend(rt, &mut records, party, limit);
    assert!(rt; same(answer, Ok(party == 3)), "{party} {limit}");
    assert!(rt; records.is_ready() && !records.is_sound(), "{limit}");
    assert!(rt; same(found(records.ring())[2], told), "{party} {limit}");
    resume_and_use(rt, records, 6)
}

/// A lend in which this fault is planned: the answer is a fault of frames.
fn compare_fault(rt: &(impl Abort + AllocGlobal), planned: Planned) -> Result<(), Fail> {
    let mut records = written(rt, &[planned])?;
    let answer = lend(rt, &mut records, 3, 20);
    let hop = planned.hop;
    assert!(rt; same(answer, Err(Trouble::Frame)), "{hop}");
    assert!(rt; !records.is_ready() && !records.is_sound(), "{hop}");
    resume_and_use(rt, records, 11)
}

/// Lends with these limits, to a second controller and to a device that takes no control. The loop is addressed after
/// them, so that `resume` has the drive listen and clears it.
#[test]
fn a_store_after_a_lend(rt: HostRuntime) -> Result<(), Fail> {
    // The drive's status comes to the host as frame 16, and is told before frame 17.
    let rows = [
        (3, 1, None),
        (3, 16, None),
        (3, 17, Some(0)),
        (3, 60, Some(0)),
        (3, 4096, Some(0)),
        (2, 60, None),
        (5, 60, None),
    ];
    for (party, limit, told) in rows {
        compare_lend(&rt, party, limit, told)?;
    }
    Ok(())
}

/// A loss and an alteration at each crossing of a lend of twenty frames, in which the drive tells its status: the
/// answer is a fault of frames, and no record has changed.
#[test]
fn a_store_after_a_fault(rt: HostRuntime) -> Result<(), Fail> {
    let mut records = written(&rt, &[])?;
    let before = records.ring().crossings();
    assert!(rt; same(lend(&rt, &mut records, 3, 20), Ok(true)), "lent");
    let after = records.ring().crossings();
    assert!(rt; before < after && after < 10_000);
    for hop in before + 1..=after {
        for fault in [Lose, Alter(4)] {
            compare_fault(&rt, Planned { hop, fault })?;
        }
    }
    Ok(())
}
