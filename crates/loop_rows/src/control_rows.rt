// Sends and receives of the controller, whole and with a fault at each crossing.
ghost use Rattle.std.specs.Prelude.{◌<◌, IfOk, IfSome};
ghost use Rattle.il_control.specs.Calls.{IsLost};

use crate::tools;
use il_control::{Lost, Sot};
use il_device::{Device, Printer};
use il_frames::{Entry, Outcome};
use il_ports::MemoryMedium;
use il_ring::PlanFault::{Alter, Lose};
use il_ring::{Planned, Ring, Seen};
use il_same::{same, same_bytes};
use ring_rows::{frame_of, has_paper, is_log, tape};
use std::process::Abort;
use std::test::Fail;

/// What a controller sends that addresses drive and printer and sends two bytes to the printer.
const SENT: [&str; 11] = [
    "IFC", "RFC", "AAU", "RFC", "AAD 01", "UNL", "RFC", "LAD 02", "RFC", "DAB 48", "DAB 50",
];

/// The links that are crossed by then: three a frame.
const LINKS: u64 = 33;

/// The controller of a new ring of the drive and this printer after it.
fn controller(
    rt: &(impl Abort + AllocGlobal),
    printer: Box<dyn Device>,
    plan: &[Planned],
) -> Result<Lost<MemoryMedium>, Fail>
    ensures { IfOk result (λ lost. IsLost (⟦<Lost<MemoryMedium> as Seen<MemoryMedium>>⟧.seen lost)) }
{
    let alloc = rt.alloc();
    let mut after = Vec::new(alloc);
    after.push(printer)?;
    tools::controller(rt, tape(alloc, 0, 0)?, Vec::new(alloc), after, plan)
}

/// Addresses the loop and sends `HP` to the printer, or gives up where that breaks off.
fn print(rt: &impl Abort, lost: Lost<MemoryMedium>) -> Ring<MemoryMedium>
    requires { IsLost (⟦<Lost<MemoryMedium> as Seen<MemoryMedium>>⟧.seen lost) }
{
    assert!(rt; lost.ring().spare() >= 37);
    let idle = match lost.resume() {
        Ok((idle, count)) => {
            assert!(rt; same(count, 2), "two devices");
            idle
        }
        Err(lost) => return lost.into_ring(),
    };
    assert!(rt; idle.ring().spare() >= 38);
    let sending = match idle.listen(2, None) {
        Ok(sending) => sending,
        Err(lost) => return lost.into_ring(),
    };
    assert!(rt; sending.ring().spare() >= 33);
    let sending = match sending.byte(0x48) {
        Ok(sending) => sending,
        Err(lost) => return lost.into_ring(),
    };
    assert!(rt; sending.ring().spare() >= 33);
    let sending = match sending.byte(0x50) {
        Ok(sending) => sending,
        Err(lost) => return lost.into_ring(),
    };
    sending.done().give_up().into_ring()
}

/// The entries of the first frames of `SENT` that came back: all as they were but AAD.
fn compare_whole(rt: &impl Abort, log: &[Entry], count: usize) -> Result<(), Fail> {
    for (entry, text) in log.iter().zip(SENT).take(count) {
        let back = if text == "AAD 01" { "AAD 03" } else { text };
        let want = Entry {
            source: 0,
            frame: frame_of(text)?,
            outcome: Outcome::Back(frame_of(back)?),
        };
        assert!(rt; same(*entry, want), "an entry that came back");
    }
    Ok(())
}

#[test]
fn nothing_planned(rt: HostRuntime) -> Result<(), Fail> {
    let alloc = rt.alloc();
    let printer: Box<dyn Device> = Box::new(alloc, Printer::new(alloc)?)?;
    let ring = print(&rt, controller(&rt, printer, &[])?);
    assert!(rt; same(ring.log().len(), SENT.len()), "all entries");
    compare_whole(&rt, ring.log(), SENT.len())?;
    assert!(rt; same(ring.crossings(), LINKS), "crossings");
    assert!(rt; has_paper(&ring, b"HP"), "paper");
    Ok(())
}

/// The log of a send that broke off after so many frames, the last of which ended so, and what the printer heard.
fn compare_broken(
    rt: &impl Abort,
    ring: &Ring<MemoryMedium>,
    whole: usize,
    last: Outcome,
    paper: &[u8],
) -> Result<(), Fail> {
    let log = ring.log();
    compare_whole(rt, log, whole)?;
    assert!(rt; log.len() > whole, "{whole}");
    assert!(rt;
        same(log.len(), whole + 1) && same(log[whole].outcome, last),
        "{whole}"
    );
    assert!(rt; has_paper(ring, paper), "{whole}");
    Ok(())
}

/// A frame is lost at each crossing in turn.
#[test]
fn lost_at_each_crossing(rt: HostRuntime) -> Result<(), Fail> {
    let alloc = rt.alloc();
    for hop in 1..=LINKS {
        let printer: Box<dyn Device> = Box::new(alloc, Printer::new(alloc)?)?;
        let ring = print(
            &rt,
            controller(&rt, printer, &[Planned { hop, fault: Lose }])?,
        );
        let paper: &[u8] = match hop {
            0..30 => b"",
            30..33 => b"H",
            _ => b"HP",
        };
        let last = Outcome::Lost((hop % 3) as u8);
        compare_broken(&rt, &ring, (hop as usize - 1) / 3, last, paper)?;
        assert!(rt; same(ring.crossings(), hop), "{hop}");
    }
    Ok(())
}

/// A data frame that is altered is heard so after the fault, and the send breaks off.
#[test]
fn altered_bytes(rt: HostRuntime) -> Result<(), Fail> {
    let rows: [(u64, usize, &str, &[u8]); 6] = [
        (28, 9, "DAB 49", b"I"),
        (29, 9, "DAB 49", b"I"),
        (30, 9, "DAB 49", b"H"),
        (31, 10, "DAB 51", b"HQ"),
        (32, 10, "DAB 51", b"HQ"),
        (33, 10, "DAB 51", b"HP"),
    ];
    let alloc = rt.alloc();
    for (hop, whole, back, paper) in rows {
        let printer: Box<dyn Device> = Box::new(alloc, Printer::new(alloc)?)?;
        let fault = Alter(1);
        let ring = print(&rt, controller(&rt, printer, &[Planned { hop, fault }])?);
        let last = Outcome::Back(frame_of(back)?);
        compare_broken(&rt, &ring, whole, last, paper)?;
    }
    Ok(())
}

/// A receive on the loop of the drive and a printer that was addressed, three links a frame that the host sends.
struct Call {
    name: &'static str,
    /// The crossings at which a byte is altered, by 1.
    altered: &'static [u64],
    address: u8,
    number: Option<u8>,
    start: Sot,
    room: usize,
    /// The bytes that came, or none where it broke off.
    came: Option<&'static [u8]>,
    /// The entries after those of the addressing.
    log: &'static [&'static str],
}

static CALLS: [Call; 11] = [
    Call {
        name: "the drive's status",
        altered: &[],
        address: 1,
        number: None,
        start: Sot::Sst,
        room: 1,
        came: Some(&[0]),
        log: &[
            "~ 0 UNL = UNL",
            "~ 0 RFC = RFC",
            "~ 0 TAD 01 = TAD 01",
            "~ 0 RFC = RFC",
            "~ 0 SST > 1",
            "~ 0 NRD = NRD",
            "~ 1 DAB 00 = DAB 00",
            "~ 1 ETO > 0",
            "~ 0 UNT = UNT",
            "~ 0 RFC = RFC",
        ],
    },
    Call {
        name: "the drive's status, with room to spare",
        altered: &[],
        address: 1,
        number: None,
        start: Sot::Sst,
        room: 2,
        came: Some(&[0]),
        log: &[
            "~ 0 UNL = UNL",
            "~ 0 RFC = RFC",
            "~ 0 TAD 01 = TAD 01",
            "~ 0 RFC = RFC",
            "~ 0 SST > 1",
            "~ 1 DAB 00 = DAB 00",
            "~ 1 ETO > 0",
            "~ 0 UNT = UNT",
            "~ 0 RFC = RFC",
        ],
    },
    Call {
        name: "the status is altered on its way to the host",
        altered: &[30],
        address: 1,
        number: None,
        start: Sot::Sst,
        room: 1,
        came: None,
        log: &[
            "~ 0 UNL = UNL",
            "~ 0 RFC = RFC",
            "~ 0 TAD 01 = TAD 01",
            "~ 0 RFC = RFC",
            "~ 0 SST > 1",
            "~ 0 NRD = NRD",
            "~ 1 DAB 00 = DAB 01",
            "~ 1 ETE > 0",
        ],
    },
    Call {
        name: "the status is altered on its way back",
        altered: &[34],
        address: 1,
        number: None,
        start: Sot::Sst,
        room: 1,
        came: None,
        log: &[
            "~ 0 UNL = UNL",
            "~ 0 RFC = RFC",
            "~ 0 TAD 01 = TAD 01",
            "~ 0 RFC = RFC",
            "~ 0 SST > 1",
            "~ 0 NRD = NRD",
            "~ 1 DAB 00 = DAB 01",
            "~ 1 ETE > 0",
        ],
    },
    Call {
        name: "the status is altered before and behind the host",
        altered: &[30, 34],
        address: 1,
        number: None,
        start: Sot::Sst,
        room: 1,
        came: None,
        log: &[
            "~ 0 UNL = UNL",
            "~ 0 RFC = RFC",
            "~ 0 TAD 01 = TAD 01",
            "~ 0 RFC = RFC",
            "~ 0 SST > 1",
            "~ 0 NRD = NRD",
            "~ 1 DAB 00 ! 1",
        ],
    },
    Call {
        name: "the status is altered, with room to spare",
        altered: &[29],
        address: 1,
        number: None,
        start: Sot::Sst,
        room: 2,
        came: None,
        log: &[
            "~ 0 UNL = UNL",
            "~ 0 RFC = RFC",
            "~ 0 TAD 01 = TAD 01",
            "~ 0 RFC = RFC",
            "~ 0 SST > 1",
            "~ 1 DAB 00 = DAB 01",
            "~ 1 ETE > 0",
        ],
    },
    Call {
        name: "no device has the address",
        altered: &[],
        address: 3,
        number: None,
        start: Sot::Sst,
        room: 1,
        came: Some(&[]),
        log: &[
            "~ 0 UNL = UNL",
            "~ 0 RFC = RFC",
            "~ 0 TAD 03 = TAD 03",
            "~ 0 RFC = RFC",
            "~ 0 SST = SST",
            "~ 0 UNT = UNT",
            "~ 0 RFC = RFC",
        ],
    },
    Call {
        name: "the drive's ID",
        altered: &[],
        address: 1,
        number: None,
        start: Sot::Sai,
        room: 1,
        came: Some(&[16]),
        log: &[
            "~ 0 UNL = UNL",
            "~ 0 RFC = RFC",
            "~ 0 TAD 01 = TAD 01",
            "~ 0 RFC = RFC",
            "~ 0 SAI > 1",
            "~ 0 NRD = NRD",
            "~ 1 DAB 10 = DAB 10",
            "~ 1 ETO > 0",
            "~ 0 UNT = UNT",
            "~ 0 RFC = RFC",
        ],
    },
    Call {
        name: "the printer's ID",
        altered: &[],
        address: 2,
        number: None,
        start: Sot::Sai,
        room: 1,
        came: Some(&[32]),
        log: &[
            "~ 0 UNL = UNL",
            "~ 0 RFC = RFC",
            "~ 0 TAD 02 = TAD 02",
            "~ 0 RFC = RFC",
            "~ 0 SAI > 2",
            "~ 0 NRD = NRD",
            "~ 2 DAB 20 = DAB 20",
            "~ 2 ETO > 0",
            "~ 0 UNT = UNT",
            "~ 0 RFC = RFC",
        ],
    },
    Call {
        name: "the drive's position, to its end",
        altered: &[],
        address: 1,
        number: Some(3),
        start: Sot::Sda,
        room: 3,
        came: Some(&[0, 0]),
        log: &[
            "~ 0 UNL = UNL",
            "~ 0 RFC = RFC",
            "~ 0 TAD 01 = TAD 01",
            "~ 0 RFC = RFC",
            "~ 0 DDT 03 = DDT 03",
            "~ 0 RFC = RFC",
            "~ 0 SDA > 1",
            "~ 1 DAB 00 = DAB 00",
            "~ 1 DAB 00 = DAB 00",
            "~ 1 ETO > 0",
            "~ 0 UNT = UNT",
            "~ 0 RFC = RFC",
        ],
    },
    Call {
        name: "two bytes of a record",
        altered: &[],
        address: 1,
        number: Some(2),
        start: Sot::Sda,
        room: 2,
        came: Some(&[0, 0]),
        log: &[
            "~ 0 UNL = UNL",
            "~ 0 RFC = RFC",
            "~ 0 TAD 01 = TAD 01",
            "~ 0 RFC = RFC",
            "~ 0 DDT 02 = DDT 02",
            "~ 0 RFC = RFC",
            "~ 0 SDA > 1",
            "~ 1 DAB 00 = DAB 00",
            "~ 0 NRD = NRD",
            "~ 1 DAB 00 = DAB 00",
            "~ 1 ETO > 0",
            "~ 0 UNT = UNT",
            "~ 0 RFC = RFC",
        ],
    },
];

/// The number of its command, which is below 32.
fn number_of(call: &Call) -> Option<u8>
    ensures { IfSome result (λ n. n < 32) }
{
    match call.number {
        Some(number) if number < 32 => Some(number),
        _ => None,
    }
}

/// Addresses the loop and receives. Answers how many bytes came, or none where that broke off.
fn receive(
    rt: &impl Abort,
    lost: Lost<MemoryMedium>,
    call: &Call,
    into: &mut [u8],
) -> (Ring<MemoryMedium>, Option<usize>)
    requires { IsLost (⟦<Lost<MemoryMedium> as Seen<MemoryMedium>>⟧.seen lost) }
{
    assert!(rt; lost.ring().spare() >= 37);
    let idle = match lost.resume() {
        Ok((idle, _)) => idle,
        Err(lost) => return (lost.into_ring(), None),
    };
    assert!(rt; !into.is_empty() && into.len() < 10);
    assert!(rt; idle.ring().spare() >= 53);
    assert!(rt; 1 <= call.address && call.address <= 30);
    match idle.receive(call.address, number_of(call), call.start, into) {
        Ok((idle, count)) => (idle.give_up().into_ring(), Some(count)),
        Err(lost) => (lost.into_ring(), None),
    }
}

/// The entries after those of the addressing.
fn received<'a>(rt: &impl Abort, log: &'a [Entry]) -> &'a [Entry] {
    log.get(5..).expect(rt, "entries")
}

/// The bytes that came, or none where it broke off.
fn compare_bytes(rt: &impl Abort, came: Option<&[u8]>, call: &Call) {
    let name = call.name;
    match (came, call.came) {
        (Some(bytes), Some(want)) => assert!(rt; same_bytes(bytes, want), "{name}"),
        (bytes, want) => assert!(rt; bytes.is_none() && want.is_none(), "{name}"),
    }
}

#[test]
fn receives(rt: HostRuntime) -> Result<(), Fail> {
    let alloc = rt.alloc();
    for call in &CALLS {
        let mut plan = Vec::new(alloc);
        for hop in call.altered {
            plan.push(Planned {
                hop: *hop,
                fault: Alter(1),
            })?;
        }
        let printer: Box<dyn Device> = Box::new(alloc, Printer::new(alloc)?)?;
        let lost = controller(&rt, printer, &plan)?;
        let mut bytes = [0xFF; 3];
        assert!(rt; call.room <= bytes.len());
        let (ring, count) = receive(&rt, lost, call, &mut bytes[..call.room]);
        let log = received(&rt, ring.log());
        assert!(rt; is_log(log, call.log), "{}", call.name);
        compare_bytes(&rt, count.and_then(|count| bytes.get(..count)), call);
    }
    Ok(())
}

/// What is lost of a receive of the drive's status: the crossings of a frame, how many entries of the receive stand
/// before its own, its source and its text.
const LOSSES: [(u64, u64, usize, u8, &str); 11] = [
    (16, 18, 0, 0, "UNL"),
    (19, 21, 1, 0, "RFC"),
    (22, 24, 2, 0, "TAD 01"),
    (25, 27, 3, 0, "RFC"),
    (28, 28, 4, 0, "SST"),
    (29, 30, 5, 1, "DAB 00"),
    (31, 33, 5, 0, "NRD"),
    (34, 34, 6, 1, "DAB 00"),
    (35, 36, 7, 1, "ETO"),
    (37, 39, 8, 0, "UNT"),
    (40, 42, 9, 0, "RFC"),
];

/// A receive whose frame at this crossing is lost: the entries that stand, and then the lost frame of this source.
fn compare_lost(
    rt: &(impl Abort + AllocGlobal),
    hop: u64,
    want: &[&str],
    source: u8,
    text: &str,
) -> Result<(), Fail> {
    let printer: Box<dyn Device> = Box::new(rt.alloc(), Printer::new(rt.alloc())?)?;
    let lost = controller(rt, printer, &[Planned { hop, fault: Lose }])?;
    let (ring, came) = receive(rt, lost, &CALLS[0], &mut [0]);
    assert!(rt; came.is_none() && same(ring.crossings(), hop), "{hop}");
    let (entry, before) = ring.log().split_last().expect(rt, "an entry");
    assert!(rt; is_log(received(rt, before), want), "{text}");
    let lost_entry = Entry {
        source,
        frame: frame_of(text)?,
        outcome: Outcome::Lost((hop % 3) as u8),
    };
    assert!(rt; same(*entry, lost_entry), "{hop}");
    Ok(())
}

/// A frame of a receive is lost at each crossing in turn.
#[test]
fn receive_lost_at_each_crossing(rt: HostRuntime) -> Result<(), Fail> {
    for (first, last, standing, source, text) in LOSSES {
        let want = CALLS[0].log.get(..standing).expect(&rt, "the entries");
        for hop in first..=last {
            compare_lost(&rt, hop, want, source, text)?;
        }
    }
    Ok(())
}
