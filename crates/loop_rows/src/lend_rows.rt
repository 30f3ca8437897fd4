// Lends of the loop to a second controller: the answer, the whole log, the links that were crossed, what was told and
// the drive's status after it, each as reckoned; and the exchanges that follow.
ghost use Rattle.std.specs.Prelude.{IfErr, IfOk};
ghost use Rattle.il_control.specs.Calls.{IsIdle, IsLost};

use crate::lend_reckoning::{Left, Lineup, Reckoning, status_byte};
use crate::tools;
use PlanFault::{Alter, Lose};
use il_control::{Idle, Lost, Sot};
use il_device::{Device, Printer, Quiet};
use il_frames::{Class, Entry, Frame, Outcome};
use il_guest::Guest;
use il_ports::MemoryMedium;
use il_ring::{PlanFault, Planned, Rig, Ring, Seen};
use il_same::same;
use ring_rows::{caller, frame_of, tape};
use std::alloc::Global;
use std::process::Abort;
use std::test::Fail;

/// The devices before the second controller.
static DEVICES: [&[u8]; 12] = [
    b"D", b"DP", b"QD", b"DC", b"DQP", b"PDC", b"CPD", b"DPQC", b"QDPP", b"PQDC", b"CPQD", b"QQDQ",
];

/// A lend, and the drive's status before it, 0 or 3.
#[derive(Clone, Copy)]
pub(crate) struct Lending {
    pub lineup: Lineup,
    pub address: u8,
    pub limit: u16,
    pub status: u8,
}

impl Lending {
    /// What tells it in a message.
    fn name(&self) -> (&'static [u8], Option<u8>, u8, u16, u8) {
        (
            self.lineup.devices,
            self.lineup.last,
            self.address,
            self.limit,
            self.status,
        )
    }

    /// What it leaves.
    fn left(
        &self,
        alloc: Global,
        found: [Option<u8>; 31],
        fault: Option<Planned>,
    ) -> Result<Left, Fail> {
        self.reckoning(alloc)?.left(alloc, found, fault)
    }

    fn reckoning(&self, alloc: Global) -> Result<Reckoning, Fail> {
        Reckoning::of(alloc, self.lineup, self.address, self.limit, self.status)
    }
}

/// The lend of a loop with a second controller, which asks up to this address.
pub(crate) fn lend_last(devices: &'static [u8], last: u8, limit: u16, status: u8) -> Lending {
    let lineup = Lineup {
        devices,
        last: Some(last),
    };
    Lending {
        lineup,
        address: lineup.count(),
        limit,
        status,
    }
}

/// The devices over a new tape.
pub(crate) fn rig(
    rt: &(impl Abort + AllocGlobal),
    lineup: Lineup,
) -> Result<Rig<MemoryMedium>, Fail> {
    let alloc = rt.alloc();
    let (mut before, mut after) = (Vec::new(alloc), Vec::new(alloc));
    let mut behind = false;
    for kind in lineup.devices {
        let device: Box<dyn Device> = match kind {
            b'D' => {
                behind = true;
                continue;
            }
            b'P' => Box::new(alloc, Printer::new(alloc)?)?,
            b'C' => Box::new(alloc, caller())?,
            _ => Box::new(alloc, Quiet::new())?,
        };
        if behind {
            after.push(device)?;
        } else {
            before.push(device)?;
        }
    }
    let guest = match lineup.last {
        Some(last) => {
            assert!(rt; 1 <= last && last <= 30);
            Some(Guest::new(last))
        }
        None => None,
    };
    Ok(Rig {
        medium: tape(alloc, 0, 0)?,
        before,
        after,
        guest,
    })
}

/// An entry of the host's frame that came back.
fn came_back(frame: Frame, back: Frame) -> Entry {
    Entry {
        source: 0,
        frame,
        outcome: Outcome::Back(back),
    }
}

/// The last entries of the log are these.
fn ends_with(log: &[Entry], start: usize, entries: &[Entry]) -> bool {
    let mut alike = same(log.len(), start.saturating_add(entries.len()));
    for (entry, want) in log.iter().skip(start).zip(entries) {
        alike &= same(*entry, *want);
    }
    alike
}

/// The loop is addressed.
fn resumed(
    rt: &impl Abort,
    lost: Lost<MemoryMedium>,
    lineup: Lineup,
) -> Result<Idle<MemoryMedium>, Fail>
    requires { IsLost (⟦<Lost<MemoryMedium> as Seen<MemoryMedium>>⟧.seen lost) }
    ensures { IfOk result (λ idle. IsIdle (⟦<Idle<MemoryMedium> as Seen<MemoryMedium>>⟧.seen idle)) }
{
    let start = lost.ring().log().len();
    assert!(rt; lost.ring().spare() >= 37);
    let Ok((idle, count)) = lost.resume() else {
        return Err(Fail::from("not addressed"));
    };
    assert!(rt; same(count, lineup.count()), "as many devices");
    let (ifc, rfc, aau) = (frame_of("IFC")?, frame_of("RFC")?, frame_of("AAU")?);
    let next = Frame::new(Class::Rdy, 0x80 | count.min(30).saturating_add(1));
    let entries = [
        came_back(ifc, ifc),
        came_back(rfc, rfc),
        came_back(aau, aau),
        came_back(rfc, rfc),
        came_back(frame_of("AAD 01")?, next),
    ];
    assert!(rt; ends_with(idle.ring().log(), start, &entries), "addressing");
    Ok(idle)
}

/// The drive seeks a record that is not there, so that its status is 3.
fn miss(rt: &impl Abort, idle: Idle<MemoryMedium>, drive: u8) -> Result<Idle<MemoryMedium>, Fail>
    requires { IsIdle (⟦<Idle<MemoryMedium> as Seen<MemoryMedium>>⟧.seen idle) }
    ensures { IfOk result (λ idle. IsIdle (⟦<Idle<MemoryMedium> as Seen<MemoryMedium>>⟧.seen idle)) }
{
    assert!(rt; 1 <= drive && drive <= 30);
    assert!(rt; idle.ring().spare() >= 38);
    let Ok(sending) = idle.listen(drive, Some(4)) else {
        return Err(Fail::from("the drive does not listen"));
    };
    assert!(rt; sending.ring().spare() >= 33);
    let Ok(sending) = sending.byte(2) else {
        return Err(Fail::from("a byte of the seek"));
    };
    assert!(rt; sending.ring().spare() >= 33);
    let Ok(sending) = sending.byte(0) else {
        return Err(Fail::from("a byte of the seek"));
    };
    Ok(sending.done())
}

/// The controller of a new loop that is addressed, before the lend, with this fault.
pub(crate) fn addressed(
    rt: &(impl Abort + AllocGlobal),
    lending: &Lending,
    plan: &[Planned],
) -> Result<Idle<MemoryMedium>, Fail>
    ensures { IfOk result (λ idle. IsIdle (⟦<Idle<MemoryMedium> as Seen<MemoryMedium>>⟧.seen idle)) }
{
    let lost = tools::controller_of(rt, rig(rt, lending.lineup)?, plan)?;
    let idle = resumed(rt, lost, lending.lineup)?;
    if lending.status == 0 {
        Ok(idle)
    } else {
        miss(rt, idle, lending.lineup.drive())
    }
}

/// Lends the loop.
fn lend(
    rt: &impl Abort,
    idle: Idle<MemoryMedium>,
    lending: &Lending,
) -> Result<(Idle<MemoryMedium>, bool), Lost<MemoryMedium>>
    requires { IsIdle (⟦<Idle<MemoryMedium> as Seen<MemoryMedium>>⟧.seen idle) }
    ensures idle { IfOk result (λ told. IsIdle (⟦<Idle<MemoryMedium> as Seen<MemoryMedium>>⟧.seen told.0)) }
    ensures lost { IfErr result (λ lost. IsLost (⟦<Lost<MemoryMedium> as Seen<MemoryMedium>>⟧.seen lost)) }
{
    assert!(rt; 1 <= lending.address && lending.address <= 30);
    assert!(rt; 1 <= lending.limit && lending.limit <= 4096);
    assert!(rt; idle.ring().spare() >= 4 * usize::from(lending.limit) + 48);
    idle.lend(lending.address, lending.limit)
}

/// What a second controller was told by now; nothing where there is none.
pub(crate) fn found(ring: &Ring<MemoryMedium>) -> [Option<u8>; 31] {
    match ring.guest() {
        Some(guest) => *guest.found(),
        None => [None; 31],
    }
}

/// What a lend left, which began with so many entries and crossings.
fn compare(
    rt: &impl Abort,
    ring: &Ring<MemoryMedium>,
    lending: &Lending,
    left: &Left,
    before: (usize, u64),
) -> Result<(), Fail> {
    let name = lending.name();
    assert!(rt; ends_with(ring.log(), before.0, &left.log), "{name:?}");
    let crossings = before.1.saturating_add(left.crossings);
    assert!(rt; same(ring.crossings(), crossings), "{name:?}");
    assert!(rt; ring.held().is_none(), "{name:?}");
    for (status, told) in found(ring).iter().zip(&left.found) {
        assert!(rt; same(*status, *told), "{name:?}");
    }
    Ok(())
}

/// The loop is lent as reckoned, with this fault of the plan, counted by the crossings of the lend. Where it broke off,
/// it is addressed anew.
pub(crate) fn lend_as_reckoned(
    rt: &(impl Abort + AllocGlobal),
    idle: Idle<MemoryMedium>,
    lending: &Lending,
    fault: Option<Planned>,
) -> Result<(Idle<MemoryMedium>, Left), Fail>
    requires { IsIdle (⟦<Idle<MemoryMedium> as Seen<MemoryMedium>>⟧.seen idle) }
    ensures { IfOk result (λ told. IsIdle (⟦<Idle<MemoryMedium> as Seen<MemoryMedium>>⟧.seen told.0)) }
{
    let left = lending.left(rt.alloc(), found(idle.ring()), fault)?;
    let before = (idle.ring().log().len(), idle.ring().crossings());
    match lend(rt, idle, lending) {
        Ok((idle, taken)) => {
            assert!(rt; same(left.answer, Some(taken)), "{:?}", lending.name());
            compare(rt, idle.ring(), lending, &left, before)?;
            Ok((idle, left))
        }
        Err(lost) => {
            assert!(rt; left.answer.is_none(), "{:?}", lending.name());
            compare(rt, lost.ring(), lending, &left, before)?;
            Ok((resumed(rt, lost, lending.lineup)?, left))
        }
    }
}

/// The entries of a poll of the drive, which tells this status byte.
fn poll_entries(lineup: Lineup, status: u8) -> Result<[Entry; 10], Fail> {
    let drive = lineup.drive();
    let (unl, rfc, unt) = (frame_of("UNL")?, frame_of("RFC")?, frame_of("UNT")?);
    let (sst, nrd, eto) = (frame_of("SST")?, frame_of("NRD")?, frame_of("ETO")?);
    let talk = Frame::new(Class::Cmd, 0x40 | drive);
    let byte = Frame::new(Class::Dab, status);
    let back = Outcome::Back(lineup.echo(drive, byte, 0));
    let entry = |source, frame, outcome| Entry {
        source,
        frame,
        outcome,
    };
    Ok([
        came_back(unl, unl),
        came_back(rfc, rfc),
        came_back(talk, talk),
        came_back(rfc, rfc),
        entry(0, sst, Outcome::Taken(drive)),
        came_back(nrd, nrd),
        entry(drive, byte, back),
        entry(drive, eto, Outcome::Taken(0)),
        came_back(unt, unt),
        came_back(rfc, rfc),
    ])
}

/// The host asks the drive for its status, which is this.
pub(crate) fn poll(
    rt: &impl Abort,
    idle: Idle<MemoryMedium>,
    lending: &Lending,
    status: u8,
) -> Result<Idle<MemoryMedium>, Fail>
    requires { IsIdle (⟦<Idle<MemoryMedium> as Seen<MemoryMedium>>⟧.seen idle) }
    ensures { IfOk result (λ idle. IsIdle (⟦<Idle<MemoryMedium> as Seen<MemoryMedium>>⟧.seen idle)) }
{
    let start = idle.ring().log().len();
    let byte = status_byte(status);
    let drive = lending.lineup.drive();
    let mut into = [0xFF];
    assert!(rt; 1 <= drive && drive <= 30);
    assert!(rt; idle.ring().spare() >= 44);
    let Ok((idle, count)) = idle.receive(drive, None, Sot::Sst, &mut into) else {
        return Err(Fail::from("the poll"));
    };
    assert!(rt;
        same(count, 1) && same(into[0], byte),
        "{:?}",
        lending.name()
    );
    let entries = poll_entries(lending.lineup, byte)?;
    assert!(rt;
        ends_with(idle.ring().log(), start, &entries),
        "{:?}",
        lending.name()
    );
    Ok(idle)
}

/// A lend on a new loop, with this fault of the plan, and what follows: a poll tells the drive's status, and another
/// that it is 0 then.
pub(crate) fn lend_and_poll(
    rt: &(impl Abort + AllocGlobal),
    lending: &Lending,
    fault: Option<Planned>,
    before: u64,
) -> Result<(), Fail> {
    let idle = match fault {
        Some(Planned { hop, fault }) => {
            let hop = hop.saturating_add(before);
            addressed(rt, lending, &[Planned { hop, fault }])?
        }
        None => addressed(rt, lending, &[])?,
    };
    let (idle, left) = lend_as_reckoned(rt, idle, lending, fault)?;
    let idle = poll(rt, idle, lending, left.status)?;
    let idle = poll(rt, idle, lending, 0)?;
    if let Some(guest) = idle.ring().guest() {
        assert!(rt; !guest.in_control(), "{:?}", lending.name());
    }
    Ok(())
}

/// On loops of the drive in every place among up to four devices and a second controller that asks few addresses or
/// more than there are.
#[test]
fn whole_lends(rt: HostRuntime) -> Result<(), Fail> {
    for devices in DEVICES {
        let beyond = devices.len().min(28) as u8 + 2;
        for last in 1..=beyond {
            for limit in [1, 2, 10, 60] {
                lend_and_poll(&rt, &lend_last(devices, last, limit, 0), None, 0)?;
            }
        }
        lend_and_poll(&rt, &lend_last(devices, beyond, 4096, 0), None, 0)?;
    }
    Ok(())
}

/// Nobody takes control at another address than that of a second controller, nor where there is none.
#[test]
fn nobody_takes_control(rt: HostRuntime) -> Result<(), Fail> {
    for devices in DEVICES {
        for last in [None, Some(2)] {
            let lineup = Lineup { devices, last };
            for address in 1..=30 {
                if last.is_some() && address == lineup.count() {
                    continue;
                }
                for status in [0, 3] {
                    let lending = Lending {
                        lineup,
                        address,
                        limit: 10,
                        status,
                    };
                    lend_and_poll(&rt, &lending, None, 0)?;
                }
            }
        }
    }
    Ok(())
}

/// A loss and two alterations at each crossing of a lend.
pub(crate) fn compare_faults(
    rt: &(impl Abort + AllocGlobal),
    lending: &Lending,
) -> Result<(), Fail> {
    let before = addressed(rt, lending, &[])?.ring().crossings();
    let links = lending.reckoning(rt.alloc())?.crossings();
    assert!(rt; links < 1000, "{links}");
    for hop in 1..=links {
        for fault in [Lose, Alter(0x01), Alter(0x80)] {
            lend_and_poll(rt, lending, Some(Planned { hop, fault }), before)?;
        }
    }
    Ok(())
}

/// Where a lend ends at NRD or at the status that came past the host, nobody sees that it was altered.
#[test]
fn a_fault_at_each_crossing(rt: HostRuntime) -> Result<(), Fail> {
    for devices in DEVICES {
        for limit in [1, 8, 9, 10, 20] {
            compare_faults(&rt, &lend_last(devices, 4, limit, 0))?;
        }
        let lineup = Lineup {
            devices,
            last: Some(4),
        };
        let lending = Lending {
            lineup,
            address: lineup.drive(),
            limit: 10,
            status: 0,
        };
        compare_faults(&rt, &lending)?;
    }
    Ok(())
}
