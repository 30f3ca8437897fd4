// The accessory IDs of all devices of a loop, and what they answer to a parallel poll.
ghost use Rattle.std.specs.Prelude.{IfOk};

use crate::checked_rows::is_read;
use crate::tools::store;
use arrayvec::ArrayVec;
use il_device::{Device, Printer, Quiet};
use il_ports::{MemoryMedium, Records, Trouble};
use il_record::LoopRecords;
use il_ring::PlanFault::{Alter, Lose};
use il_ring::{Planned, Ring};
use il_same::same;
use ring_rows::{caller, frame_of, tape};
use std::process::Abort;
use std::test::Fail;

/// Addresses the loop.
fn address(rt: &impl Abort, records: &mut LoopRecords<MemoryMedium>) -> Result<(), Fail>
    requires { (⟦<LoopRecords<MemoryMedium> as Records>⟧.view records.old).valid }
    ensures { IfOk result (λ x. (⟦<LoopRecords<MemoryMedium> as Records>⟧.view records.new).valid) }
{
    assert!(rt; records.ring().spare() >= 64);
    match records.ready() {
        Ok(()) => Ok(()),
        Err(_) => Err(Fail::from("a fault in the addressing")),
    }
}

/// The devices of a loop in order, the drive (D) among printers (P), callers (C) and quiet ones, and what a poll
/// answers.
struct Loop {
    devices: &'static [u8],
    poll: &'static str,
}

static LOOPS: [Loop; 5] = [
    Loop {
        devices: b"D",
        poll: "IDY 00",
    },
    Loop {
        devices: b"PDQCP",
        poll: "ISR 08",
    },
    Loop {
        devices: b"CDC",
        poll: "ISR 05",
    },
    // Thirty devices: the eighth wants service, and so do the ninth and the last, which have no bit.
    Loop {
        devices: b"QQQQPQQCCQDQQQQQQQQQQPQQQQQQQC",
        poll: "ISR 80",
    },
    // None of the first eight does.
    Loop {
        devices: b"QQQQPQQDCC",
        poll: "ISR 00",
    },
];

/// The accessory ID of a device of this kind.
fn id_of(kind: u8) -> Option<u8> {
    match kind {
        b'D' => Some(16),
        b'P' => Some(32),
        b'C' => Some(5),
        _ => None,
    }
}

/// Compares the accessory IDs of all devices.
fn compare_names(
    rt: &impl Abort,
    devices: &Loop,
    records: &mut LoopRecords<MemoryMedium>,
) -> Result<(), Fail>
    requires { (⟦<LoopRecords<MemoryMedium> as Records>⟧.view records.old).valid }
    ensures { IfOk result (λ x. (⟦<LoopRecords<MemoryMedium> as Records>⟧.view records.new).valid) }
{
    assert!(rt; records.is_ready() && records.ring().spare() >= 1000);
    let mut ids = ArrayVec::new();
    assert!(rt; records.accessories(&mut ids).is_ok(), "the IDs");
    assert!(rt; same(ids.len(), devices.devices.len()), "as many IDs");
    for (id, kind) in ids.iter().zip(devices.devices) {
        assert!(rt; same(*id, id_of(*kind)), "an ID");
    }
    Ok(())
}

/// Compares the answer of a poll.
fn compare_poll(
    rt: &impl Abort,
    devices: &Loop,
    records: &mut LoopRecords<MemoryMedium>,
) -> Result<(), Fail>
    requires { (⟦<LoopRecords<MemoryMedium> as Records>⟧.view records.old).valid }
    ensures { IfOk result (λ x. (⟦<LoopRecords<MemoryMedium> as Records>⟧.view records.new).valid) }
{
    assert!(rt; records.is_ready() && records.ring().spare() >= 1000);
    let Ok(frame) = records.parallel_poll() else {
        return Err(Fail::from("a fault"));
    };
    assert!(rt; same(frame, frame_of(devices.poll)?), "the poll");
    Ok(())
}

/// The store over a new loop of these devices.
fn loop_of(
    rt: &(impl Abort + AllocGlobal),
    devices: &Loop,
    plan: &[Planned],
) -> Result<LoopRecords<MemoryMedium>, Fail>
    ensures { IfOk result (λ records. (⟦<LoopRecords<MemoryMedium> as Records>⟧.view records).valid) }
{
    let alloc = rt.alloc();
    let (mut before, mut after) = (Vec::new(alloc), Vec::new(alloc));
    let mut behind = false;
    for kind in devices.devices {
        let device: Box<dyn Device> = match kind {
            b'D' => {
                behind = true;
                continue;
            }
            b'P' => Box::new(alloc, Printer::new(alloc)?)?,
            b'C' => Box::new(alloc, caller())?,
            _ => Box::new(alloc, Quiet::new())?,
        };
        if behind {
            after.push(device)?;
        } else {
            before.push(device)?;
        }
    }
    store(rt, tape(alloc, 0, 0)?, before, after, plan)
}

/// Addresses the loop, asks for all IDs, and polls.
fn name_and_poll(rt: &impl Abort, records: &mut LoopRecords<MemoryMedium>) -> Result<(), Trouble>
    requires { (⟦<LoopRecords<MemoryMedium> as Records>⟧.view records.old).valid }
    ensures { (⟦<LoopRecords<MemoryMedium> as Records>⟧.view records.new).valid }
{
    assert!(rt; records.ring().spare() >= 64);
    records.ready()?;
    assert!(rt; records.is_ready() && records.ring().spare() >= 1000);
    records.accessories(&mut ArrayVec::new())?;
    assert!(rt; records.is_ready() && records.ring().spare() >= 1000);
    records.parallel_poll()?;
    Ok(())
}

/// The readers of finished logs take the log, whole or broken off.
fn compare_readers(rt: &impl Abort, devices: &Loop, ring: &Ring<MemoryMedium>) {
    let count = devices.devices.len();
    assert!(rt; 1 <= count && count <= 30);
    assert!(rt; is_read(count as u8, ring.log()), "the log");
}

/// A loss and an alteration at this crossing break the calls off, which are made once more then. The readers take the
/// whole log.
fn compare_broken_off(
    rt: &(impl Abort + AllocGlobal),
    devices: &Loop,
    hop: u64,
) -> Result<(), Fail> {
    for fault in [Lose, Alter(4)] {
        let mut records = loop_of(rt, devices, &[Planned { hop, fault }])?;
        let _ = name_and_poll(rt, &mut records);
        let _ = name_and_poll(rt, &mut records);
        compare_readers(rt, devices, &records.into_ring());
    }
    Ok(())
}

#[test]
fn names_and_polls(rt: HostRuntime) -> Result<(), Fail> {
    for devices in &LOOPS {
        let mut records = loop_of(&rt, devices, &[])?;
        address(&rt, &mut records)?;
        compare_names(&rt, devices, &mut records)?;
        compare_poll(&rt, devices, &mut records)?;
        let ring = records.into_ring();
        compare_readers(&rt, devices, &ring);
        for count in 1..=ring.crossings() / 31 {
            compare_broken_off(&rt, devices, 31 * count)?;
        }
    }
    // On the loop of a caller, the drive and a caller, at each crossing.
    for hop in 1..=200 {
        compare_broken_off(&rt, &LOOPS[2], hop)?;
    }
    Ok(())
}
