// Lends of loops on which the drive has a status, lends one after the other, and a lend among thirty devices.
ghost use Rattle.std.specs.Prelude.{IfOk};
ghost use Rattle.il_control.specs.Calls.{IsIdle};

use crate::lend_rows::{
    Lending, addressed, compare_faults, found, lend_and_poll, lend_as_reckoned, lend_last, poll,
};
use il_control::Idle;
use il_frames::{Entry, Outcome};
use il_ports::MemoryMedium;
use il_ring::Seen;
use il_same::same;
use ring_rows::frame_of;
use std::process::Abort;
use std::test::Fail;

/// The status bytes that this party told a second controller, another party, to their end.
fn told_by(rt: &impl AllocGlobal, log: &[Entry], party: u8, guest: u8) -> Result<Vec<u8>, Fail> {
    let mut bytes = Vec::new(rt.alloc());
    let eto = frame_of("ETO")?;
    for (entry, next) in log.iter().zip(log.iter().skip(1)) {
        let ends = next.frame == eto && next.outcome == Outcome::Taken(guest);
        if entry.source == party && next.source == party && ends {
            bytes.push(entry.frame.byte())?;
        }
    }
    Ok(bytes)
}

/// The drive tells the status 3 once, and 0 each further time; where the lend ends before ETO, the poll after it tells
/// 3.
#[test]
fn a_status_is_told_once(rt: HostRuntime) -> Result<(), Fail> {
    // A round of a drive alone has eleven frames, with the status as the ninth. Each further time is eleven later.
    let rows: [(u16, usize, u8); 8] = [
        (1, 0, 3),
        (8, 0, 3),
        (9, 0, 3),
        (10, 1, 0),
        (20, 1, 0),
        (21, 2, 0),
        (32, 3, 0),
        (110, 10, 0),
    ];
    for (limit, times, after) in rows {
        let lending = lend_last(b"D", 1, limit, 3);
        let idle = addressed(&rt, &lending, &[])?;
        let (idle, left) = lend_as_reckoned(&rt, idle, &lending, None)?;
        assert!(rt; same(left.status, after), "{limit}");
        let idle = poll(&rt, idle, &lending, after)?;
        let bytes = told_by(&rt, idle.ring().log(), 1, 2)?;
        assert!(rt; same(bytes.len(), times), "{limit}");
        for (place, byte) in bytes.iter().enumerate() {
            let want = if place == 0 { 0x43 } else { 0 };
            assert!(rt; same(*byte, want), "{limit}");
        }
    }
    Ok(())
}

/// The same in every place of the drive, of whose wish for service other statuses tell until then.
#[test]
fn a_status_in_every_place(rt: HostRuntime) -> Result<(), Fail> {
    for devices in [b"PPPD", b"PPDP", b"PDPP", b"DPPP", b"CQDP", b"QDCQ"] {
        for limit in 1..=60 {
            lend_and_poll(&rt, &lend_last(devices, 5, limit, 3), None, 0)?;
        }
    }
    for limit in [8, 9, 10, 21] {
        compare_faults(&rt, &lend_last(b"DP", 3, limit, 3))?;
        compare_faults(&rt, &lend_last(b"CDP", 2, limit, 3))?;
    }
    Ok(())
}

/// One more lend of this limit, without a fault, and how the loop stands before the next one.
fn lend_again(
    rt: &(impl Abort + AllocGlobal),
    idle: Idle<MemoryMedium>,
    lending: Lending,
    limit: u16,
) -> Result<(Idle<MemoryMedium>, Lending), Fail>
    requires { IsIdle (⟦<Idle<MemoryMedium> as Seen<MemoryMedium>>⟧.seen idle) }
    ensures { IfOk result (λ told. IsIdle (⟦<Idle<MemoryMedium> as Seen<MemoryMedium>>⟧.seen told.0)) }
{
    let lending = Lending { limit, ..lending };
    let (idle, left) = lend_as_reckoned(rt, idle, &lending, None)?;
    let status = left.status;
    Ok((idle, Lending { status, ..lending }))
}

/// Three lends one after the other on a new loop, with these limits, and a poll.
fn lend_in_turn(
    rt: &(impl Abort + AllocGlobal),
    devices: &'static [u8],
    limits: [u16; 3],
    status: u8,
) -> Result<(), Fail> {
    let lending = lend_last(devices, 30, 1, status);
    let idle = addressed(rt, &lending, &[])?;
    let (idle, lending) = lend_again(rt, idle, lending, limits[0])?;
    let (idle, lending) = lend_again(rt, idle, lending, limits[1])?;
    let (idle, lending) = lend_again(rt, idle, lending, limits[2])?;
    poll(rt, idle, &lending, lending.status)?;
    Ok(())
}

/// What was told in a lend is forgotten as the next one begins, and the drive's status is told where it was not.
#[test]
fn lends_in_turn(rt: HostRuntime) -> Result<(), Fail> {
    for devices in [b"DP".as_slice(), b"PD", b"CQD", b"QDPC"] {
        for limits in [
            [60, 1, 9],
            [9, 60, 12],
            [1, 1, 60],
            [10, 10, 10],
            [20, 8, 24],
        ] {
            for status in [0, 3] {
                lend_in_turn(&rt, devices, limits, status)?;
            }
        }
    }
    Ok(())
}

/// The drive and 28 others.
static TWENTY_NINE: &[u8] = b"PQQCPQQPPQQDQPQQPCQPQQPQQPQQC";

/// All statuses, and none of the quiet devices, of the second controller and of address 0.
fn compare_found(rt: &impl Abort, found: [Option<u8>; 31]) {
    assert!(rt; found[0].is_none() && found[30].is_none());
    for (place, kind) in TWENTY_NINE.iter().enumerate() {
        let want = match kind {
            b'Q' => None,
            b'C' => Some(0x41),
            b'D' => Some(0x43),
            _ => Some(0),
        };
        assert!(rt; same(found[place + 1], want), "{place}");
    }
}

/// A second controller after 29 devices asks them all. A round has two frames, and of each address seven, or nine
/// where it tells a status.
#[test]
fn among_thirty_devices(rt: HostRuntime) -> Result<(), Fail> {
    let frames = 2 + 29 * 7 + 2 * TWENTY_NINE.iter().filter(|kind| **kind != b'Q').count();
    assert!(rt; 1 < frames && frames < 4096);
    let lending = lend_last(TWENTY_NINE, 30, frames as u16, 3);
    let idle = addressed(&rt, &lending, &[])?;
    let (idle, _) = lend_as_reckoned(&rt, idle, &lending, None)?;
    compare_found(&rt, found(idle.ring()));
    lend_in_turn(&rt, TWENTY_NINE, [frames as u16 - 1, 200, 1], 3)
}
