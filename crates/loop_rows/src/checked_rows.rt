// Logs of runs of records, handed to the readers of finished logs.
ghost use Rattle.std.specs.Prelude.{◌≡◌, ◌≤◌, IfOk, length};

use crate::store_rows::{read, resume, status, store, write};
use crate::tools;
use il_device::{Device, Quiet};
use il_frames::{Entry, Frame, Outcome};
use il_ports::{Medium, MemoryMedium, Records, Trouble};
use il_record::LoopRecords;
use il_ring::PlanFault::{Alter, Lose};
use il_ring::{Planned, Ring};
use il_same::same;
use ring_rows::tape;
use std::alloc::{AllocError, Global};
use std::process::Abort;
use std::test::Fail;
use trace_readers::{Effects, Exchanges, Talkers, UnitFault};

/// The crossings of a whole run: three of each of the host's 575 frames that come back and of the drive's 259 bytes,
/// two of each of the four start messages, and one of each ETO.
const CROSSINGS: u64 = 3 * (575 + 259) + 2 * 4 + 4;

/// The first crossing of the last byte of the first record: 280 frames go before it.
const FIRST_SENT: u64 = 3 * 280 + 1;

/// The first crossing of the last byte of the second record: 536 frames go before it.
const BOTH_SENT: u64 = 3 * 536 + 1;

/// The last crossing of the poll of the status after the bytes, which has 27.
const TOLD: u64 = BOTH_SENT + 2 + 27;

/// Writes two records of sixes on a tape of zeros, reads the first of them, and asks the drive for its status.
fn write_and_read(rt: &impl Abort, records: &mut LoopRecords<MemoryMedium>) -> Result<(), Trouble>
    requires { (⟦<LoopRecords<MemoryMedium> as Records>⟧.view records.old).valid }
    ensures { (⟦<LoopRecords<MemoryMedium> as Records>⟧.view records.new).valid }
{
    resume(rt, records)?;
    write(rt, records, 7, 2, &[6; 512])?;
    read(rt, records, 7, &mut [0; 256])?;
    status(rt, records)?;
    Ok(())
}

/// The ring of a printer and the drive after that run, or where it broke off, and what it answered.
fn run(
    rt: &(impl Abort + AllocGlobal),
    plan: &[Planned],
) -> Result<(Ring<MemoryMedium>, Result<(), Trouble>), Fail> {
    let mut records = store(rt, tape(rt.alloc(), 0, 0)?, true, plan)?;
    let answer = write_and_read(rt, &mut records);
    Ok((records.into_ring(), answer))
}

/// The place of the first entry after which there were two talkers among so many devices, or which was out of turn.
fn out_of_turn(devices: u8, log: &[Entry]) -> Option<usize>
    requires { (1 ≤ devices) × (devices ≤ 30) }
{
    let mut talkers = Talkers::new(devices);
    for (place, entry) in log.iter().enumerate() {
        if !talkers.take(*entry) {
            return Some(place);
        }
    }
    None
}

/// The place of the first entry with which the log of so many devices is no beginning of exchanges, or its end where it
/// may not end.
fn out_of_order(devices: u8, log: &[Entry]) -> Option<usize>
    requires { devices ≤ 30 }
{
    let mut exchanges = Exchanges::new(devices);
    for (place, entry) in log.iter().enumerate() {
        if !exchanges.take(*entry) {
            return Some(place);
        }
    }
    if exchanges.may_end() {
        return None;
    }
    Some(log.len())
}

/// The log of so many devices is exchanges with one talker.
pub(crate) fn is_read(devices: u8, log: &[Entry]) -> bool
    requires { (1 ≤ devices) × (devices ≤ 30) }
{
    out_of_turn(devices, log).is_none() && out_of_order(devices, log).is_none()
}

/// The reader of effects of a drive at this party on a tape of zeros.
fn on_zeros(rt: &impl AllocGlobal, drive: u8) -> Result<Effects, Fail>
    requires { drive ≤ 30 }
    ensures { IfOk result (λ effects. length effects.expected.records ≡ 512) }
{
    let mut effects = Effects::new(rt.alloc(), drive, 512)?;
    for _count in 0..512_usize {
        effects.push(&[0; 256]);
    }
    Ok(effects)
}

/// The first fault of the units of this log, and the place of its entry.
fn first_fault(effects: &mut Effects, log: &[Entry]) -> Option<(usize, UnitFault)>
    ensures { length effects.new.expected.records ≡ length effects.old.expected.records }
{
    for (place, entry) in log.iter().enumerate() {
        if let Err(fault) = effects.take(*entry) {
            return Some((place, fault));
        }
    }
    None
}

/// Each record of the tape is allowed.
fn compare_tape(rt: &impl Abort, medium: &mut MemoryMedium, effects: &Effects)
    requires { length effects.now.expected.records ≡ 512 }
{
    let mut record = [0; 256];
    for place in 0..512 {
        assert!(rt; place < medium.size());
        assert!(rt; same(medium.read(place, &mut record), Ok(())), "{place}");
        assert!(rt; effects.allows(place, &record), "{place}");
    }
}

/// After a run that broke off at this crossing, if at any, the first record may hold anything from its last byte on
/// until the status came, and the second holds zeros.
fn compare_records(rt: &impl Abort, effects: &Effects, crossing: u64)
    requires { length effects.now.expected.records ≡ 512 }
{
    let rows = [
        (7, 0, crossing <= TOLD),
        (7, 6, crossing >= FIRST_SENT),
        (8, 0, crossing <= TOLD),
        (8, 6, crossing > TOLD),
        (9, 6, false),
    ];
    for (place, byte, is_allowed) in rows {
        let found = effects.allows(place, &[byte; 256]);
        assert!(rt; found == is_allowed, "{crossing} {place} {byte}");
    }
}

/// The log of a run that broke off at this crossing, if at any, is exchanges with one talker. It ends by a unit that is
/// unclear exactly where both records had been sent whole and the status had not come; else it allows the tape that the
/// run left, and not every other.
fn compare_run(
    rt: &(impl Abort + AllocGlobal),
    ring: Ring<MemoryMedium>,
    crossing: u64,
) -> Result<(), Fail> {
    let log = ring.log();
    assert!(rt; is_read(2, log), "{crossing}");
    let mut effects = on_zeros(rt, 2)?;
    let fault = first_fault(&mut effects, log);
    if BOTH_SENT <= crossing && crossing <= TOLD {
        let last = log.len().saturating_sub(1);
        assert!(rt; same(fault, Some((last, UnitFault::Unclear))), "{crossing}");
        return Ok(());
    }
    assert!(rt; fault.is_none(), "{crossing}");
    compare_tape(rt, &mut ring.into_rig().medium, &effects);
    compare_records(rt, &effects, crossing);
    Ok(())
}

/// A loss and an alteration at this crossing break the run off, and the readers take its log.
fn compare_broken_off(rt: &(impl Abort + AllocGlobal), hop: u64) -> Result<(), Fail> {
    for fault in [Lose, Alter(4)] {
        let (ring, answer) = run(rt, &[Planned { hop, fault }])?;
        assert!(rt; same(answer, Err(Trouble::Frame)), "{hop}");
        compare_run(rt, ring, hop)?;
    }
    Ok(())
}

#[test]
fn runs_with_faults(rt: HostRuntime) -> Result<(), Fail> {
    let (ring, answer) = run(&rt, &[])?;
    assert!(rt; answer.is_ok() && same(ring.crossings(), CROSSINGS));
    compare_run(&rt, ring, u64::MAX)?;
    for count in 1..=CROSSINGS / 97 {
        compare_broken_off(&rt, 97 * count)?;
    }
    // From just before a record was sent whole, and until just after the status came.
    for hop in FIRST_SENT - 3..FIRST_SENT + 3 {
        compare_broken_off(&rt, hop)?;
    }
    for hop in BOTH_SENT - 3..=TOLD + 3 {
        compare_broken_off(&rt, hop)?;
    }
    // The end of the read, with its NRD, and two polls.
    for hop in CROSSINGS - 100..=CROSSINGS {
        compare_broken_off(&rt, hop)?;
    }
    Ok(())
}

/// So many devices that send nothing.
fn quiets(alloc: Global, count: u8) -> Result<Vec<Box<dyn Device>>, AllocError> {
    let mut devices = Vec::new(alloc);
    for _ in 0..count {
        let quiet: Box<dyn Device> = Box::new(alloc, Quiet::new())?;
        devices.push(quiet)?;
    }
    Ok(devices)
}

/// The ring of thirty devices after that run, where the drive stands at this party.
fn run_at(rt: &(impl Abort + AllocGlobal), party: u8) -> Result<Ring<MemoryMedium>, Fail>
    requires { (1 ≤ party) × (party ≤ 30) }
{
    let alloc = rt.alloc();
    let (before, after) = (quiets(alloc, party - 1)?, quiets(alloc, 30 - party)?);
    let mut records = tools::store(rt, tape(alloc, 0, 0)?, before, after, &[])?;
    assert!(rt; write_and_read(rt, &mut records).is_ok(), "{party}");
    Ok(records.into_ring())
}

/// The drive stands at this party among thirty devices.
fn compare_party(rt: &(impl Abort + AllocGlobal), party: u8) -> Result<(), Fail>
    requires { (1 ≤ party) × (party ≤ 30) }
{
    let ring = run_at(rt, party)?;
    assert!(rt; is_read(30, ring.log()), "{party}");
    let mut effects = on_zeros(rt, party)?;
    assert!(rt; first_fault(&mut effects, ring.log()).is_none(), "{party}");
    assert!(rt;
        effects.allows(8, &[6; 256]) && !effects.allows(8, &[0; 256]),
        "{party}"
    );
    Ok(())
}

#[test]
fn drive_at_every_party(rt: HostRuntime) -> Result<(), Fail> {
    for party in 1..=30 {
        compare_party(&rt, party)?;
    }
    Ok(())
}

/// What is done to one entry of a log.
#[derive(Clone, Copy)]
enum Change {
    /// It is left out.
    Missing,
    /// It stands twice.
    Twice,
    /// It stands after its next.
    Swapped,
    /// It came back with another byte.
    Altered,
}

/// The log with a change at this entry.
fn changed(
    rt: &(impl Abort + AllocGlobal),
    log: &[Entry],
    change: Change,
    place: usize,
) -> Result<Vec<Entry>, Fail> {
    let mut entries = log.to_vec(rt.alloc())?;
    assert!(rt; place < 1000 && place + 1 < entries.len());
    let entry = entries[place];
    match change {
        Change::Missing => {
            let _ = entries.remove(place);
        }
        Change::Twice => entries.insert(place, entry)?,
        Change::Swapped => entries.swap(place, place + 1),
        Change::Altered => {
            let back = Frame::new(entry.frame.class(), entry.frame.byte() ^ 1);
            entries[place].outcome = Outcome::Back(back);
        }
    }
    Ok(entries)
}

// The log of the whole run has IFC RFC AAU RFC AAD; from entry 5 on UNL RFC LAD RFC SDC RFC; from 11 on the seek UNL
// RFC LAD RFC DDL RFC DAB DAB; from 19 on the write UNL RFC LAD RFC DDL RFC and 512 bytes; from 537 on the poll UNL RFC
// TAD RFC SST NRD DAB ETO UNT RFC; from 547 on a seek; from 555 on the read UNL RFC TAD RFC DDT RFC SDA, 255 bytes, NRD
// DAB ETO UNT RFC; and from 822 on two polls.

// Changes after which the log is no list of exchanges, and the entry that shows it.
static OUT_OF_ORDER: [(Change, usize, usize); 24] = [
    // RFC begins no exchange, nor goes on with data
    (Change::Missing, 11, 11),
    (Change::Missing, 537, 537),
    (Change::Swapped, 11, 11),
    (Change::Twice, 12, 13),
    // a command comes where RFC is due
    (Change::Missing, 12, 12),
    (Change::Missing, 546, 546),
    (Change::Twice, 11, 12),
    (Change::Twice, 545, 546),
    // NRD where a start message is due
    (Change::Missing, 541, 541),
    (Change::Swapped, 541, 541),
    // a second SST or NRD while the drive is to talk
    (Change::Twice, 541, 542),
    (Change::Twice, 542, 543),
    // ETO where the last byte after NRD is due
    (Change::Missing, 543, 543),
    (Change::Swapped, 543, 543),
    (Change::Swapped, 542, 544),
    // another byte where ETO is due
    (Change::Twice, 543, 544),
    (Change::Swapped, 816, 818),
    // UNT where ETO is due, and the other way round
    (Change::Missing, 544, 544),
    (Change::Twice, 544, 545),
    // RFC where UNT is due
    (Change::Missing, 545, 545),
    // AAD with the wrong count, and RFC that is another
    (Change::Altered, 4, 4),
    (Change::Altered, 12, 12),
    // a byte that came back as another ends a send, and asks for ETE in a receive
    (Change::Altered, 100, 101),
    (Change::Altered, 600, 601),
];

// Changes after which it is such a list: the entry that is not the talker's, and the fault of the unit with its entry.
static IN_ORDER: [(Change, usize, Option<usize>, Option<(usize, UnitFault)>); 7] = [
    // without AAD no device has the address, so that none talks where the status comes
    (Change::Missing, 4, Some(542), None),
    (Change::Twice, 4, None, None),
    // 511 and 513 bytes with status 0, which the last RFC of the poll completes
    (Change::Missing, 100, None, Some((545, UnitFault::BadUnit))),
    (Change::Twice, 100, None, Some((547, UnitFault::BadUnit))),
    // a seek of record 1792
    (Change::Swapped, 17, None, Some((546, UnitFault::BadUnit))),
    // a talker may end without NRD, and a read may be of 257 bytes
    (Change::Missing, 542, None, None),
    (Change::Twice, 600, None, None),
];

/// The log with this change is no list of exchanges, as this entry shows.
fn compare_refused(
    rt: &(impl Abort + AllocGlobal),
    log: &[Entry],
    change: Change,
    place: usize,
    refused: usize,
) -> Result<(), Fail> {
    let log = changed(rt, log, change, place)?;
    assert!(rt;
        same(out_of_order(2, &log), Some(refused)),
        "{place} {refused}"
    );
    Ok(())
}

/// The log with this change is such a list; this entry is not the talker's, and this unit has this fault.
fn compare_taken(
    rt: &(impl Abort + AllocGlobal),
    log: &[Entry],
    change: Change,
    place: usize,
    turn: Option<usize>,
    fault: Option<(usize, UnitFault)>,
) -> Result<(), Fail> {
    let log = changed(rt, log, change, place)?;
    assert!(rt; out_of_order(2, &log).is_none(), "{place}");
    assert!(rt; same(out_of_turn(2, &log), turn), "{place}");
    let mut effects = on_zeros(rt, 2)?;
    assert!(rt; same(first_fault(&mut effects, &log), fault), "{place}");
    Ok(())
}

#[test]
fn changed_logs(rt: HostRuntime) -> Result<(), Fail> {
    let (ring, _) = run(&rt, &[])?;
    for (change, place, refused) in OUT_OF_ORDER {
        compare_refused(&rt, ring.log(), change, place, refused)?;
    }
    for (change, place, turn, fault) in IN_ORDER {
        compare_taken(&rt, ring.log(), change, place, turn, fault)?;
    }
    Ok(())
}
