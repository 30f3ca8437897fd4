// Lends on rings of many kinds, whole and with faults: what comes to the host, the log, the links that were crossed and
// the statuses that were told, each as a plain telling has it.

use crate::frame_of;
use crate::lineup::Lineup;
use crate::lineup::Party::{self, Caller, Drive, Printer, Quiet};
use crate::round_rows::{is_led, ring_of, send};
use crate::telling::{Telling, links, statuses};
use PlanFault::{Alter, Lose};
use il_frames::{Class, Frame, Outcome};
use il_ports::MemoryMedium;
use il_ring::{Arrival, PlanFault, Planned, Ring};
use il_same::same;
use std::alloc::Global;
use std::process::Abort;
use std::test::Fail;

// The devices before the second controller, and the number that is added to a party for its address.
static DEVICES: [(&[Party], u8); 14] = [
    (&[Drive], 0),
    (&[Drive, Printer], 0),
    (&[Printer, Drive], 0),
    (&[Drive, Quiet], 0),
    (&[Quiet, Drive], 3),
    (&[Drive, Caller], 0),
    (&[Caller, Drive], 0),
    (&[Drive, Printer, Quiet], 0),
    (&[Quiet, Drive, Printer], 0),
    (&[Printer, Quiet, Drive], 26),
    (&[Printer, Drive, Printer], 1),
    (&[Drive, Quiet, Printer, Quiet], 0),
    (&[Quiet, Printer, Drive, Caller], 0),
    (&[Caller, Printer, Caller, Drive], 2),
];

/// The host sends a frame, and this one arrives.
fn is_answered(
    rt: &impl Abort,
    ring: &mut Ring<MemoryMedium>,
    frame: Frame,
    arrives: Frame,
) -> bool {
    assert!(rt; ring.spare() >= 32);
    same(send(rt, ring, frame), Arrival::Frame(arrives))
}

/// The devices take their addresses.
fn address(rt: &impl Abort, ring: &mut Ring<MemoryMedium>, lineup: &Lineup) {
    let first = Frame::new(Class::Rdy, 0x80 | lineup.address(1));
    let guest = lineup.address(lineup.guest());
    let next = Frame::new(Class::Rdy, 0x80 | guest.saturating_add(1));
    assert!(rt; is_answered(rt, ring, first, next), "the addresses");
}

/// The second controller talks. The log begins here.
fn talk(rt: &impl Abort, ring: &mut Ring<MemoryMedium>, lineup: &Lineup) {
    let frame = Frame::new(Class::Cmd, 0x40 | lineup.address(lineup.guest()));
    assert!(rt; is_answered(rt, ring, frame, frame), "the talker");
    ring.clear_log();
}

/// A new ring of these devices, in which the second controller talks.
fn talking(
    rt: &(impl Abort + AllocGlobal),
    lineup: &Lineup,
    plan: &[Planned],
) -> Result<Ring<MemoryMedium>, Fail> {
    let mut ring = ring_of(rt, lineup.rig(rt)?, plan);
    address(rt, &mut ring, lineup);
    talk(rt, &mut ring, lineup);
    Ok(ring)
}

/// The host hands control over, and sends on what comes to it until so many frames have come, or one is lost.
fn lend(rt: &impl Abort, ring: &mut Ring<MemoryMedium>, telling: &Telling<'_>) -> Result<(), Fail> {
    let name = telling.name();
    assert!(rt; ring.spare() >= 32);
    let mut arrival = send(rt, ring, frame_of("TCT")?);
    let passes = telling.limit.saturating_sub(1);
    for frame in telling.arrivals.iter().take(passes) {
        assert!(rt; same(arrival, Arrival::Frame(*frame)), "{name:?}");
        assert!(rt; is_led(ring) && ring.held().is_none(), "{name:?}");
        assert!(rt; ring.is_lent() && ring.spare() >= 32, "{name:?}");
        arrival = ring.pass();
    }
    let last = match telling.arrivals.get(passes) {
        Some(frame) => Arrival::Frame(*frame),
        None => Arrival::Lost,
    };
    assert!(rt; same(arrival, last), "{name:?}");
    assert!(rt; same(ring.is_lent(), last != Arrival::Lost), "{name:?}");
    assert!(rt; same(is_led(ring), telling.is_taken()), "{name:?}");
    Ok(())
}

/// The host takes control back. An IFC that was lost before it came to the second controller leaves it in control.
fn clear(
    rt: &impl Abort,
    ring: &mut Ring<MemoryMedium>,
    telling: &Telling<'_>,
) -> Result<(), Fail> {
    let ifc = frame_of("IFC")?;
    for left in (0..telling.clears).rev() {
        let led = is_led(ring);
        let back = is_answered(rt, ring, ifc, ifc);
        assert!(rt; same(back, left == 0), "{:?}", telling.name());
        assert!(rt; !ring.is_lent(), "{:?}", telling.name());
        let is_missed = match ring.log().last() {
            Some(entry) => matches!(entry.outcome, Outcome::Lost(party) if party > 0),
            None => false,
        };
        assert!(rt;
            same(is_led(ring), led && is_missed),
            "{:?}",
            telling.name()
        );
    }
    Ok(())
}

/// What the lend left.
fn compare(
    rt: &impl Abort,
    ring: &Ring<MemoryMedium>,
    telling: &Telling<'_>,
    before: u64,
) -> Result<(), Fail> {
    let name = telling.name();
    assert!(rt; same(ring.log().len(), telling.log.len()), "{name:?}");
    let mut crossings = before;
    for (entry, told) in ring.log().iter().zip(&telling.log) {
        assert!(rt; same(*entry, *told), "{name:?}");
        crossings = crossings.saturating_add(links(entry, ring.devices()));
    }
    assert!(rt; same(ring.crossings(), crossings), "{name:?}");
    assert!(rt; same(ring.crossings(), telling.crossings), "{name:?}");
    assert!(rt;
        ring.held().is_none() && !ring.is_lent() && !is_led(ring),
        "{name:?}"
    );
    let guest = ring.guest().expect(rt, "a second controller");
    let found = statuses(ring.log(), ring.devices())?;
    for (status, told) in guest.found().iter().zip(&found) {
        assert!(rt; same(*status, *told), "{name:?}");
    }
    Ok(())
}

/// A whole lend on a ring whose second controller talks, as it is told, with these faults.
fn lend_and_clear(
    rt: &(impl Abort + AllocGlobal),
    ring: &mut Ring<MemoryMedium>,
    lineup: &Lineup,
    limit: usize,
    plan: &[Planned],
) -> Result<(), Fail> {
    let before = ring.crossings();
    let mut telling = Telling::lent(rt.alloc(), *lineup, limit, plan, before)?;
    telling.clear()?;
    lend(rt, ring, &telling)?;
    clear(rt, ring, &telling)?;
    compare(rt, ring, &telling, before)
}

/// The same on a new ring. After it nobody talks, and the ring can be addressed anew and lent as before.
fn lend_with_faults(
    rt: &(impl Abort + AllocGlobal),
    lineup: &Lineup,
    limit: usize,
    plan: &[Planned],
) -> Result<(), Fail> {
    let mut ring = talking(rt, lineup, plan)?;
    lend_and_clear(rt, &mut ring, lineup, limit, plan)?;
    for text in ["TCT", "AAU"] {
        let frame = frame_of(text)?;
        assert!(rt;
            is_answered(rt, &mut ring, frame, frame) && !ring.is_lent(),
            "{text}"
        );
    }
    address(rt, &mut ring, lineup);
    talk(rt, &mut ring, lineup);
    lend_and_clear(rt, &mut ring, lineup, limit, &[])
}

/// Lends of each length on one ring, with each last address from 1 to one that no device has. The longest is the first,
/// so that statuses that were told before are seen to be forgotten.
#[test]
fn each_limit(rt: HostRuntime) -> Result<(), Fail> {
    for (devices, base) in DEVICES {
        let mut lineup = Lineup {
            devices,
            base,
            last: 1,
        };
        let beyond = lineup.address(lineup.guest()).saturating_add(1).min(30);
        for last in 1..=beyond {
            lineup.last = last;
            let mut ring = talking(&rt, &lineup, &[])?;
            for limit in (1..=60).rev() {
                lend_and_clear(&rt, &mut ring, &lineup, limit, &[])?;
                talk(&rt, &mut ring, &lineup);
            }
        }
    }
    Ok(())
}

/// The devices of a ring as long as it may be.
static TWENTY_NINE: [Party; 29] = [
    Printer, Quiet, Quiet, Printer, Quiet, Quiet, Printer, Quiet, Quiet, Printer, Quiet, Drive,
    Printer, Quiet, Quiet, Printer, Quiet, Quiet, Printer, Quiet, Quiet, Printer, Quiet, Quiet,
    Printer, Quiet, Quiet, Caller, Printer,
];

#[test]
fn among_thirty_devices(rt: HostRuntime) -> Result<(), Fail> {
    let lineup = Lineup {
        devices: &TWENTY_NINE,
        base: 0,
        last: 30,
    };
    let mut ring = talking(&rt, &lineup, &[])?;
    assert!(rt; same(ring.devices(), 30) && same(ring.party(), 12));
    // A round is of 229 frames.
    for limit in [500, 231, 230, 229, 228, 110, 9, 8, 2, 1] {
        lend_and_clear(&rt, &mut ring, &lineup, limit, &[])?;
        talk(&rt, &mut ring, &lineup);
    }
    Ok(())
}

/// Rings on which each crossing of a lend meets a fault.
const WITH_FAULTS: [Lineup; 2] = [
    Lineup {
        devices: &[Drive, Printer],
        base: 0,
        last: 2,
    },
    Lineup {
        devices: &[Quiet, Caller, Drive],
        base: 0,
        last: 5,
    },
];

/// How many crossings there were on a ring without a fault as the host was about to hand control over, and as it had
/// taken so many frames then.
fn crossings_of(
    rt: &(impl Abort + AllocGlobal),
    lineup: &Lineup,
    limit: usize,
) -> Result<(u64, u64), Fail> {
    let before = talking(rt, lineup, &[])?.crossings();
    let telling = Telling::lent(rt.alloc(), *lineup, limit, &[], before)?;
    Ok((before, telling.crossings))
}

/// A loss and two alterations at each crossing of a lend, its IFC among them.
#[test]
fn a_fault_at_each_crossing(rt: HostRuntime) -> Result<(), Fail> {
    for lineup in &WITH_FAULTS {
        for limit in [1, 7, 8, 9, 10, 16, 17, 18, 20, 30, 31] {
            let (before, taken) = crossings_of(&rt, lineup, limit)?;
            let links = u64::from(lineup.guest()) + 1;
            for hop in before.saturating_add(1)..=taken.saturating_add(links) {
                for fault in [Lose, Alter(0x01), Alter(0x80)] {
                    lend_with_faults(&rt, lineup, limit, &[Planned { hop, fault }])?;
                }
            }
        }
    }
    Ok(())
}

/// How many crossings there were as a lend with faults had ended, with so many before.
fn crossings_after(
    rt: &(impl Abort + AllocGlobal),
    lineup: &Lineup,
    limit: usize,
    plan: &[Planned],
    before: u64,
) -> Result<u64, Fail> {
    let mut telling = Telling::lent(rt.alloc(), *lineup, limit, plan, before)?;
    telling.clear()?;
    Ok(telling.crossings)
}

/// A byte that was altered is lost where it would be altered back. No more than ten links lie between, and both
/// alterations are met in the lend.
#[test]
fn altered_twice(rt: HostRuntime) -> Result<(), Fail> {
    for lineup in &WITH_FAULTS {
        let (before, taken) = crossings_of(&rt, lineup, 20)?;
        for hop in before.saturating_add(1)..=taken {
            for links in 1..=10 {
                let second = hop.saturating_add(links);
                let fault = Alter(0x20);
                let plan = [Planned { hop, fault }, Planned { hop: second, fault }];
                if second <= crossings_after(&rt, lineup, 20, &plan, before)? {
                    lend_with_faults(&rt, lineup, 20, &plan)?;
                }
            }
        }
    }
    Ok(())
}

/// An IFC is lost at each link.
#[test]
fn a_lost_ifc(rt: HostRuntime) -> Result<(), Fail> {
    for lineup in &WITH_FAULTS {
        for limit in 1..=40 {
            let (_, taken) = crossings_of(&rt, lineup, limit)?;
            for link in 1..=u64::from(lineup.guest()) + 1 {
                let hop = taken.saturating_add(link);
                lend_with_faults(&rt, lineup, limit, &[Planned { hop, fault: Lose }])?;
            }
        }
    }
    Ok(())
}

/// How many crossings there were as this fault had broken a lend off, with so many before.
fn broken_off(
    rt: &(impl Abort + AllocGlobal),
    lineup: &Lineup,
    limit: usize,
    fault: Planned,
    before: u64,
) -> Result<u64, Fail> {
    let plan = [fault];
    let telling = Telling::lent(rt.alloc(), *lineup, limit, &plan, before)?;
    assert!(rt; !telling.is_whole(), "{fault:?}");
    Ok(telling.crossings)
}

/// A plan of this fault, and then of the loss of IFC after IFC after so many crossings: each at a link further on, up
/// to the one to the second controller.
fn lose_each_ifc(
    alloc: Global,
    fault: Planned,
    crossings: u64,
    lineup: &Lineup,
) -> Result<Vec<Planned>, Fail> {
    let mut plan = Vec::from_array(alloc, [fault])?;
    let mut hop = crossings;
    for link in 1..=u64::from(lineup.guest()) {
        hop = hop.saturating_add(link);
        plan.push(Planned { hop, fault: Lose })?;
    }
    Ok(plan)
}

/// Where a lend breaks off the second controller sends nothing more, however many IFC are lost before they come to it.
#[test]
fn silent_until_an_ifc_comes(rt: HostRuntime) -> Result<(), Fail> {
    for lineup in &WITH_FAULTS {
        let (before, taken) = crossings_of(&rt, lineup, 30)?;
        for hop in before.saturating_add(1)..=taken {
            for fault in [Lose, Alter(0x10)] {
                let fault = Planned { hop, fault };
                let crossings = broken_off(&rt, lineup, 30, fault, before)?;
                let plan = lose_each_ifc(rt.alloc(), fault, crossings, lineup)?;
                lend_with_faults(&rt, lineup, 30, &plan)?;
            }
        }
    }
    Ok(())
}
