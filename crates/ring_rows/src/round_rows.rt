// Rounds of the ring: what arrives, the log, the crossings, and what the printer heard.

ghost use Rattle.std.specs.Prelude.{◌≡◌, ◌≤◌};
ghost use Rattle.il_ring.specs.Rings.{spare_of};
ghost use Rattle.il_ring.specs.Lending.{leads};

use crate::{frame_of, has_paper, is_log, second_drive, tape};
use PlanFault::{Alter, Lose};
use il_device::{Device, Printer, Quiet};
use il_frames::{Class, Frame};
use il_guest::Guest;
use il_ports::{Medium, MemoryMedium};
use il_ring::{Arrival, PlanFault, Planned, Rig, Ring, Seen, is_plan};
use il_same::{same, same_bytes};
use std::alloc::{AllocError, Global};
use std::process::Abort;
use std::test::Fail;

/// A day of the drive and a printer after it, three links a round.
pub(crate) struct Day {
    pub name: &'static str,
    /// The crossings at which something is planned.
    pub plan: &'static [(u64, PlanFault)],
    /// The frame that the host sends, or `relay` or `pass`, and the frame that arrives, or `lost`.
    pub rounds: &'static [(&'static str, &'static str)],
    pub log: &'static [&'static str],
    pub crossings: u64,
    pub held: Option<&'static str>,
    /// What the printer heard.
    pub paper: &'static [u8],
}

static DAYS: [Day; 18] = [
    Day {
        name: "a command is lost after the drive, and no fault is left",
        plan: &[(2, Lose)],
        rounds: &[("IFC", "lost"), ("IFC", "IFC")],
        log: &["~ 0 IFC ! 2", "~ 0 IFC = IFC"],
        crossings: 5,
        held: None,
        paper: b"",
    },
    Day {
        name: "an altered ready frame is lost",
        plan: &[(1, Alter(1))],
        rounds: &[("RFC", "lost")],
        log: &["~ 0 RFC ! 1"],
        crossings: 1,
        held: None,
        paper: b"",
    },
    Day {
        name: "an altered identify frame is lost on the last link",
        plan: &[(3, Alter(0x80))],
        rounds: &[("IDY 00", "lost")],
        log: &["~ 0 IDY 00 ! 0"],
        crossings: 3,
        held: None,
        paper: b"",
    },
    Day {
        name: "a byte altered before the printer",
        plan: &[(8, Alter(3))],
        rounds: &[
            ("AAD 01", "AAD 03"),
            ("LAD 02", "LAD 02"),
            ("DAB 41", "DAB 42"),
            ("DAB 41", "DAB 41"),
        ],
        log: &[
            "~ 0 AAD 01 = AAD 03",
            "~ 0 LAD 02 = LAD 02",
            "~ 0 DAB 41 = DAB 42",
            "~ 0 DAB 41 = DAB 41",
        ],
        crossings: 12,
        held: None,
        paper: b"BA",
    },
    Day {
        name: "a byte altered after the printer",
        plan: &[(9, Alter(3))],
        rounds: &[
            ("AAD 01", "AAD 03"),
            ("LAD 02", "LAD 02"),
            ("END 41", "END 42"),
        ],
        log: &[
            "~ 0 AAD 01 = AAD 03",
            "~ 0 LAD 02 = LAD 02",
            "~ 0 END 41 = END 42",
        ],
        crossings: 9,
        held: None,
        paper: b"A",
    },
    Day {
        name: "a byte altered before and after the printer is lost",
        plan: &[(8, Alter(3)), (9, Alter(3))],
        rounds: &[
            ("AAD 01", "AAD 03"),
            ("LAD 02", "LAD 02"),
            ("DAB 41", "lost"),
        ],
        log: &[
            "~ 0 AAD 01 = AAD 03",
            "~ 0 LAD 02 = LAD 02",
            "~ 0 DAB 41 ! 0",
        ],
        crossings: 9,
        held: None,
        paper: b"B",
    },
    Day {
        name: "a byte altered before and after the drive is lost",
        plan: &[(7, Alter(1)), (8, Alter(2))],
        rounds: &[
            ("AAD 01", "AAD 03"),
            ("LAD 02", "LAD 02"),
            ("DAB 41", "lost"),
        ],
        log: &[
            "~ 0 AAD 01 = AAD 03",
            "~ 0 LAD 02 = LAD 02",
            "~ 0 DAB 41 ! 2",
        ],
        crossings: 8,
        held: None,
        paper: b"",
    },
    Day {
        name: "the drive asks for service, which is no alteration",
        plan: &[(14, Alter(1))],
        rounds: &[
            ("AAD 01", "AAD 03"),
            ("LAD 01", "LAD 01"),
            ("DDL 04", "DDL 04"),
            ("DAB 02", "DAB 02"),
            ("DAB 00", "DSR 01"),
            ("END 07", "ESR 07"),
            ("IDY 00", "ISR 00"),
        ],
        log: &[
            "~ 0 AAD 01 = AAD 03",
            "~ 0 LAD 01 = LAD 01",
            "~ 0 DDL 04 = DDL 04",
            "~ 0 DAB 02 = DAB 02",
            "~ 0 DAB 00 = DSR 01",
            "~ 0 END 07 = ESR 07",
            "~ 0 IDY 00 = ISR 00",
        ],
        crossings: 21,
        held: None,
        paper: b"",
    },
    Day {
        name: "the drive's status, stopped",
        plan: &[],
        rounds: &[
            ("AAD 01", "AAD 03"),
            ("TAD 01", "TAD 01"),
            ("SST", "DAB 00"),
            ("NRD", "NRD"),
            ("relay", "ETO"),
            ("UNT", "UNT"),
        ],
        log: &[
            "~ 0 AAD 01 = AAD 03",
            "~ 0 TAD 01 = TAD 01",
            "~ 0 SST > 1",
            "~ 0 NRD = NRD",
            "~ 1 DAB 00 = DAB 00",
            "~ 1 ETO > 0",
            "~ 0 UNT = UNT",
        ],
        crossings: 18,
        held: None,
        paper: b"",
    },
    Day {
        name: "the drive's status is held",
        plan: &[],
        rounds: &[
            ("AAD 01", "AAD 03"),
            ("TAD 01", "TAD 01"),
            ("SST", "DAB 00"),
        ],
        log: &["~ 0 AAD 01 = AAD 03", "~ 0 TAD 01 = TAD 01", "~ 0 SST > 1"],
        crossings: 9,
        held: Some("DAB 00"),
        paper: b"",
    },
    Day {
        name: "the printer's ID comes from party 2",
        plan: &[],
        rounds: &[
            ("AAD 01", "AAD 03"),
            ("TAD 02", "TAD 02"),
            ("SAI", "DAB 20"),
            ("relay", "ETO"),
        ],
        log: &[
            "~ 0 AAD 01 = AAD 03",
            "~ 0 TAD 02 = TAD 02",
            "~ 0 SAI > 2",
            "~ 2 DAB 20 = DAB 20",
            "~ 2 ETO > 0",
        ],
        crossings: 12,
        held: None,
        paper: b"",
    },
    Day {
        name: "what the drive sends in place of a start message is lost",
        plan: &[(9, Lose)],
        rounds: &[("AAD 01", "AAD 03"), ("TAD 01", "TAD 01"), ("SST", "lost")],
        log: &[
            "~ 0 AAD 01 = AAD 03",
            "~ 0 TAD 01 = TAD 01",
            "~ 0 SST > 1",
            "~ 1 DAB 00 ! 0",
        ],
        crossings: 9,
        held: None,
        paper: b"",
    },
    Day {
        name: "a lost NRD drops the held frame, of which nothing is noted",
        plan: &[(11, Lose)],
        rounds: &[
            ("AAD 01", "AAD 03"),
            ("TAD 01", "TAD 01"),
            ("SST", "DAB 00"),
            ("NRD", "lost"),
        ],
        log: &[
            "~ 0 AAD 01 = AAD 03",
            "~ 0 TAD 01 = TAD 01",
            "~ 0 SST > 1",
            "~ 0 NRD ! 2",
        ],
        crossings: 11,
        held: None,
        paper: b"",
    },
    Day {
        name: "a held frame altered on its way back to the drive",
        plan: &[(10, Alter(1))],
        rounds: &[
            ("AAD 01", "AAD 03"),
            ("TAD 01", "TAD 01"),
            ("SST", "DAB 00"),
            ("relay", "ETE"),
        ],
        log: &[
            "~ 0 AAD 01 = AAD 03",
            "~ 0 TAD 01 = TAD 01",
            "~ 0 SST > 1",
            "~ 1 DAB 00 = DAB 01",
            "~ 1 ETE > 0",
        ],
        crossings: 12,
        held: None,
        paper: b"",
    },
    Day {
        name: "a held frame altered on its way to the host",
        plan: &[(8, Alter(1))],
        rounds: &[
            ("AAD 01", "AAD 03"),
            ("TAD 01", "TAD 01"),
            ("SST", "DAB 01"),
            ("relay", "ETE"),
        ],
        log: &[
            "~ 0 AAD 01 = AAD 03",
            "~ 0 TAD 01 = TAD 01",
            "~ 0 SST > 1",
            "~ 1 DAB 00 = DAB 01",
            "~ 1 ETE > 0",
        ],
        crossings: 12,
        held: None,
        paper: b"",
    },
    Day {
        name: "a held frame altered on both sides of the host is lost",
        plan: &[(9, Alter(1)), (10, Alter(1))],
        rounds: &[
            ("AAD 01", "AAD 03"),
            ("TAD 01", "TAD 01"),
            ("SST", "DAB 01"),
            ("relay", "lost"),
        ],
        log: &[
            "~ 0 AAD 01 = AAD 03",
            "~ 0 TAD 01 = TAD 01",
            "~ 0 SST > 1",
            "~ 1 DAB 00 ! 1",
        ],
        crossings: 10,
        held: None,
        paper: b"",
    },
    Day {
        name: "the end of a transmission is lost",
        plan: &[(11, Lose)],
        rounds: &[
            ("AAD 01", "AAD 03"),
            ("TAD 01", "TAD 01"),
            ("SST", "DAB 00"),
            ("relay", "lost"),
        ],
        log: &[
            "~ 0 AAD 01 = AAD 03",
            "~ 0 TAD 01 = TAD 01",
            "~ 0 SST > 1",
            "~ 1 DAB 00 = DAB 00",
            "~ 1 ETO ! 2",
        ],
        crossings: 11,
        held: None,
        paper: b"",
    },
    Day {
        name: "no device talks",
        plan: &[],
        rounds: &[("SDA", "SDA"), ("DAB 41", "DAB 41"), ("NRD", "NRD")],
        log: &["~ 0 SDA = SDA", "~ 0 DAB 41 = DAB 41", "~ 0 NRD = NRD"],
        crossings: 9,
        held: None,
        paper: b"",
    },
];

/// Days of the drive, a printer and a second controller after it, four links a round.
static GUEST_DAYS: [Day; 6] = [
    Day {
        name: "a command is lost before the second controller, and after it",
        plan: &[(3, Lose), (7, Lose)],
        rounds: &[("IFC", "lost"), ("IFC", "lost"), ("IFC", "IFC")],
        log: &["~ 0 IFC ! 3", "~ 0 IFC ! 0", "~ 0 IFC = IFC"],
        crossings: 11,
        held: None,
        paper: b"",
    },
    Day {
        name: "a second controller talks, and answers no start message",
        plan: &[],
        rounds: &[
            ("AAD 01", "AAD 04"),
            ("TAD 03", "TAD 03"),
            ("SDA", "SDA"),
            ("SST", "SST"),
            ("SAI", "SAI"),
            ("IDY 00", "IDY 00"),
        ],
        log: &[
            "~ 0 AAD 01 = AAD 04",
            "~ 0 TAD 03 = TAD 03",
            "~ 0 SDA = SDA",
            "~ 0 SST = SST",
            "~ 0 SAI = SAI",
            "~ 0 IDY 00 = IDY 00",
        ],
        crossings: 24,
        held: None,
        paper: b"",
    },
    Day {
        name: "a byte altered before and after the second controller is lost",
        plan: &[(11, Alter(3)), (12, Alter(3))],
        rounds: &[
            ("AAD 01", "AAD 04"),
            ("LAD 02", "LAD 02"),
            ("DAB 41", "lost"),
        ],
        log: &[
            "~ 0 AAD 01 = AAD 04",
            "~ 0 LAD 02 = LAD 02",
            "~ 0 DAB 41 ! 0",
        ],
        crossings: 12,
        held: None,
        paper: b"A",
    },
    Day {
        name: "the drive's status, altered before the second controller",
        plan: &[(11, Alter(1))],
        rounds: &[
            ("AAD 01", "AAD 04"),
            ("TAD 01", "TAD 01"),
            ("SST", "DAB 01"),
            ("NRD", "NRD"),
            ("relay", "ETE"),
        ],
        log: &[
            "~ 0 AAD 01 = AAD 04",
            "~ 0 TAD 01 = TAD 01",
            "~ 0 SST > 1",
            "~ 0 NRD = NRD",
            "~ 1 DAB 00 = DAB 01",
            "~ 1 ETE > 0",
        ],
        crossings: 20,
        held: None,
        paper: b"",
    },
    Day {
        name: "the end of a transmission is lost before the second controller",
        plan: &[(15, Lose)],
        rounds: &[
            ("AAD 01", "AAD 04"),
            ("TAD 01", "TAD 01"),
            ("SST", "DAB 00"),
            ("relay", "lost"),
        ],
        log: &[
            "~ 0 AAD 01 = AAD 04",
            "~ 0 TAD 01 = TAD 01",
            "~ 0 SST > 1",
            "~ 1 DAB 00 = DAB 00",
            "~ 1 ETO ! 3",
        ],
        crossings: 15,
        held: None,
        paper: b"",
    },
    Day {
        name: "a second controller listens, and nothing of it is told",
        plan: &[],
        rounds: &[
            ("AAD 01", "AAD 04"),
            ("LAD 03", "LAD 03"),
            ("END 41", "END 41"),
        ],
        log: &[
            "~ 0 AAD 01 = AAD 04",
            "~ 0 LAD 03 = LAD 03",
            "~ 0 END 41 = END 41",
        ],
        crossings: 12,
        held: None,
        paper: b"",
    },
];

/// How many entries the log of a ring has room for.
const ROOM: usize = 1000;

/// A ring of the rig, which follows the plan.
pub(crate) fn ring_of(
    rt: &(impl Abort + AllocGlobal),
    rig: Rig<MemoryMedium>,
    plan: &[Planned],
) -> Ring<MemoryMedium> {
    assert!(rt; rig.fits());
    assert!(rt; is_plan(plan));
    assert!(rt; rig.medium.size() > 0);
    Ring::new(rt.alloc(), rig, plan, ROOM)
        .ok()
        .expect(rt, "memory for a ring")
}

/// Whether a second controller controls the loop.
pub(crate) fn is_led(ring: &Ring<MemoryMedium>) -> bool
    ensures { result ≡ leads (⟦<Ring<MemoryMedium> as Seen<MemoryMedium>>⟧.seen ring.now).guest }
{
    match ring.guest() {
        None => false,
        Some(guest) => guest.in_control(),
    }
}

/// The host sends a frame: any while it controls, and else IFC.
pub(crate) fn send(rt: &impl Abort, ring: &mut Ring<MemoryMedium>, frame: Frame) -> Arrival
    requires { 32 ≤ spare_of (⟦<Ring<MemoryMedium> as Seen<MemoryMedium>>⟧.seen ring.old) }
{
    assert!(rt; ring.held().is_none() || frame == Frame::new(Class::Rdy, 0x42));
    assert!(rt; !is_led(ring) || frame == Frame::new(Class::Cmd, 0x90));
    ring.send(frame)
}

/// One round: the frame that the host sends, or `relay` or `pass`, and the frame that arrives, or
/// `lost`.
fn go_round(
    rt: &impl Abort,
    ring: &mut Ring<MemoryMedium>,
    frame: &str,
    arrives: &str,
) -> Result<(), Fail> {
    assert!(rt; ring.spare() >= 32);
    let arrival = if frame == "relay" {
        assert!(rt; ring.held().is_some());
        ring.relay()
    } else if frame == "pass" {
        assert!(rt; ring.is_lent());
        ring.pass()
    } else {
        send(rt, ring, frame_of(frame)?)
    };
    let want = if arrives == "lost" {
        Arrival::Lost
    } else {
        Arrival::Frame(frame_of(arrives)?)
    };
    assert!(rt; same(arrival, want), "{frame}");
    let leads = frame == "pass" || (frame == "TCT" && arrives != "TCT");
    assert!(rt; same(ring.is_lent(), leads && arrives != "lost"), "{frame}");
    Ok(())
}

/// These rounds, one after the other.
fn go_rounds(
    rt: &impl Abort,
    ring: &mut Ring<MemoryMedium>,
    rounds: &[(&str, &str)],
) -> Result<(), Fail> {
    for (frame, arrives) in rounds {
        go_round(rt, ring, frame, arrives)?;
    }
    Ok(())
}

/// What the day left.
fn compare_day(rt: &impl Abort, ring: &Ring<MemoryMedium>, day: &Day) -> Result<(), Fail> {
    let name = day.name;
    assert!(rt; is_log(ring.log(), day.log), "{name}");
    assert!(rt;
        same(ROOM.checked_sub(ring.spare()), Some(day.log.len())),
        "{name}"
    );
    assert!(rt; same(ring.crossings(), day.crossings), "{name}");
    let held = match day.held {
        Some(text) => Some(frame_of(text)?),
        None => None,
    };
    assert!(rt; same(ring.held(), held), "{name}");
    assert!(rt; has_paper(ring, day.paper), "{name}");
    Ok(())
}

/// The ring after the day, of the drive, a printer and this second controller, or none.
pub(crate) fn live_through(
    rt: &(impl Abort + AllocGlobal),
    guest: Option<Guest>,
    day: &Day,
) -> Result<Ring<MemoryMedium>, Fail> {
    let alloc = rt.alloc();
    let printer: Box<dyn Device> = Box::new(alloc, Printer::new(alloc)?)?;
    let rig = Rig {
        medium: tape(alloc, 0, 0)?,
        before: Vec::new(alloc),
        after: Vec::from_array(alloc, [printer])?,
        guest,
    };
    let mut plan = Vec::new(alloc);
    for (hop, fault) in day.plan {
        plan.push(Planned {
            hop: *hop,
            fault: *fault,
        })?;
    }
    let mut ring = ring_of(rt, rig, &plan);
    go_rounds(rt, &mut ring, day.rounds)?;
    compare_day(rt, &ring, day)?;
    Ok(ring)
}

/// A day without a second controller.
fn compare_day_of_two(rt: &(impl Abort + AllocGlobal), day: &Day) -> Result<(), Fail> {
    let ring = live_through(rt, None, day)?;
    assert!(rt; ring.guest().is_none() && same(ring.devices(), 2));
    Ok(())
}

/// A day with one, which never controls the loop.
fn compare_day_of_three(rt: &(impl Abort + AllocGlobal), day: &Day) -> Result<(), Fail> {
    let ring = live_through(rt, Some(Guest::new(2)), day)?;
    assert!(rt; same(ring.devices(), 3), "{}", day.name);
    assert!(rt; is_still(ring.guest()), "{}", day.name);
    assert!(rt; is_still(ring.into_rig().guest.as_ref()), "{}", day.name);
    Ok(())
}

#[test]
fn days(rt: HostRuntime) -> Result<(), Fail> {
    for day in &DAYS {
        compare_day_of_two(&rt, day)?;
    }
    for day in &GUEST_DAYS {
        compare_day_of_three(&rt, day)?;
    }
    Ok(())
}

/// There is a second controller that asks up to address 2, and it has not controlled the loop.
fn is_still(guest: Option<&Guest>) -> bool {
    match guest {
        None => false,
        Some(guest) => {
            same(guest.last(), 2)
                && !guest.in_control()
                && guest.found().iter().all(|status| status.is_none())
        }
    }
}

/// So many devices that send nothing.
fn quiets(alloc: Global, count: u8) -> Result<Vec<Box<dyn Device>>, AllocError> {
    let mut devices = Vec::new(alloc);
    for _ in 0..count {
        let quiet: Box<dyn Device> = Box::new(alloc, Quiet::new())?;
        devices.push(quiet)?;
    }
    Ok(devices)
}

/// The ring of a loop as long as it may be, with so many quiet devices before and after the drive: one more does not
/// fit.
fn full_ring(
    rt: &(impl Abort + AllocGlobal),
    before: u8,
    after: u8,
    guest: Option<Guest>,
) -> Result<Ring<MemoryMedium>, Fail>
    requires { after ≤ 30 }
{
    let alloc = rt.alloc();
    let mut rig = Rig {
        medium: tape(alloc, 0, 0)?,
        before: quiets(alloc, before)?,
        after: quiets(alloc, after + 1)?,
        guest,
    };
    assert!(rt; !rig.fits());
    let _ = rig.after.pop();
    Ok(ring_of(rt, rig, &[]))
}

/// A loop as long as it may be with a second controller: 28 boxed devices.
#[test]
fn guest_of_thirty(rt: HostRuntime) -> Result<(), Fail> {
    let mut ring = full_ring(&rt, 0, 28, Some(Guest::new(2)))?;
    assert!(rt;
        same(ring.devices(), 30) && ring.paper().is_none(),
        "thirty"
    );
    let rounds = [("AAD 01", "IAA"), ("TAD 1E", "TAD 1E"), ("SAI", "SAI")];
    go_rounds(&rt, &mut ring, &rounds)?;
    let log = ["~ 0 AAD 01 = IAA", "~ 0 TAD 1E = TAD 1E", "~ 0 SAI = SAI"];
    assert!(rt; is_log(ring.log(), &log), "a guest of thirty");
    assert!(rt; same(ring.crossings(), 3 * 31), "crossings");
    let mut rig = ring.into_rig();
    // It has an address and talks; and in control it makes no new ring either.
    rig.after.clear();
    assert!(rt; !rig.fits());
    rig.guest = Some(Guest::new(2));
    assert!(rt; rig.fits());
    Ok(())
}

/// The drive is party 11 of thirty.
static AMONG_THIRTY: [(&str, &str); 6] = [
    ("AAD 01", "IAA"),
    ("TAD 0B", "TAD 0B"),
    ("SAI", "DAB 10"),
    ("relay", "ETO"),
    ("LAD 1E", "LAD 1E"),
    ("DAB 41", "DAB 41"),
];

static AMONG_THIRTY_LOG: [&str; 7] = [
    "~ 0 AAD 01 = IAA",
    "~ 0 TAD 0B = TAD 0B",
    "~ 0 SAI > 11",
    "~ 11 DAB 10 = DAB 10",
    "~ 11 ETO > 0",
    "~ 0 LAD 1E = LAD 1E",
    "~ 0 DAB 41 = DAB 41",
];

/// Each device of a rig of ten devices before the drive and nineteen after it took six frames.
fn took_six(rt: &impl Abort, rig: &Rig<MemoryMedium>) {
    assert!(rt;
        same((rig.before.len(), rig.after.len()), (10, 19)),
        "the rig"
    );
    for device in rig.before.iter().chain(rig.after.iter()) {
        assert!(rt; same(device.frames(), 6), "frames");
    }
}

/// A loop as long as it may be: 29 devices beside the drive.
#[test]
fn thirty_devices(rt: HostRuntime) -> Result<(), Fail> {
    let mut ring = full_ring(&rt, 10, 19, None)?;
    assert!(rt; same(ring.party(), 11), "the drive");
    assert!(rt; ring.paper().is_none(), "no printer");
    go_rounds(&rt, &mut ring, &AMONG_THIRTY)?;
    assert!(rt; is_log(ring.log(), &AMONG_THIRTY_LOG), "thirty devices");
    assert!(rt; same(ring.crossings(), 6 * 31), "crossings");
    ring.clear_log();
    assert!(rt;
        same((ring.spare(), ring.crossings()), (ROOM, 6 * 31)),
        "no log, and the crossings"
    );
    took_six(&rt, &ring.into_rig());
    Ok(())
}

/// The first printer hears three bytes, the second the last of them.
static PRINTED: [(&str, &str); 8] = [
    ("AAD 01", "AAD 04"),
    ("LAD 01", "LAD 01"),
    ("DAB 48", "DAB 48"),
    ("END 50", "END 50"),
    ("LAD 03", "LAD 03"),
    ("DAB 21", "DAB 21"),
    ("UNL", "UNL"),
    ("DAB 3F", "DAB 3F"),
];

/// A printer stands before the drive, and another after it.
fn between_printers(rt: &impl AllocGlobal) -> Result<Rig<MemoryMedium>, Fail> {
    let alloc = rt.alloc();
    let first: Box<dyn Device> = Box::new(alloc, Printer::new(alloc)?)?;
    let second: Box<dyn Device> = Box::new(alloc, Printer::new(alloc)?)?;
    Ok(Rig {
        medium: tape(alloc, 0, 0)?,
        before: Vec::from_array(alloc, [first])?,
        after: Vec::from_array(alloc, [second])?,
        guest: None,
    })
}

/// A second drive may not stand on the loop.
#[test]
fn a_second_drive(rt: HostRuntime) -> Result<(), Fail> {
    let mut rig = between_printers(&rt)?;
    let drive: Box<dyn Device> = Box::new(rt.alloc(), second_drive())?;
    rig.after.push(drive)?;
    assert!(rt; !rig.fits());
    let _ = rig.after.pop();
    assert!(rt; rig.fits());
    Ok(())
}

/// The printers of the rig heard what they were to hear, and the tape is in it. Devices that have an address already
/// make no new ring.
fn heard_by_printers(rt: &impl Abort, rig: &Rig<MemoryMedium>) {
    assert!(rt; same(rig.medium.size(), 512), "the tape in the rig");
    let heard = rig.before.iter().chain(rig.after.iter());
    for (device, want) in heard.zip([b"HP!".as_slice(), b"!".as_slice()]) {
        assert!(rt; same_bytes(device.heard(), want), "heard");
    }
    assert!(rt; !rig.fits());
}

#[test]
fn printer_first(rt: HostRuntime) -> Result<(), Fail> {
    let mut ring = ring_of(&rt, between_printers(&rt)?, &[]);
    assert!(rt; same(ring.party(), 2) && has_paper(&ring, b""), "a printer");
    go_rounds(&rt, &mut ring, &PRINTED)?;
    assert!(rt; has_paper(&ring, b"HP!"), "the paper of the first");
    assert!(rt; same(ring.medium().size(), 512), "the tape on the ring");
    heard_by_printers(&rt, &ring.into_rig());
    Ok(())
}
