// What the drive answers to each frame, and what it puts on the tape.

use crate::{frame_of, tape_of};
use il_device::Out;
use il_drive::Drive;
use il_frames::{Class, Frame};
use il_ports::{Medium, MemoryMedium};
use il_same::{same, same_bytes};
use std::process::Abort;
use std::test::Fail;

/// What a frame is to be answered by: `=` for passed on as it came, `> F` for F passed on, `< F`
/// for F sent.
fn answer_to(frame: Frame, text: &[u8]) -> Option<Out> {
    match text {
        b"=" => Some(Out::Pass(frame)),
        [b'>', b' ', rest @ ..] => Some(Out::Pass(Frame::read_text(rest)?)),
        [b'<', b' ', rest @ ..] => Some(Out::Source(Frame::read_text(rest)?)),
        _ => None,
    }
}

/// Sends each frame to the drive, and compares its answer.
fn talk(
    rt: &impl Abort,
    drive: &mut Drive<MemoryMedium>,
    lines: &[(&str, &str)],
) -> Result<(), Fail> {
    for (text, answer) in lines {
        let frame = frame_of(text)?;
        let want = answer_to(frame, answer.as_bytes()).expect(rt, "an answer");
        assert!(rt; same(drive.take(frame), want), "{text}");
    }
    Ok(())
}

/// A drive at address 1 over a tape whose record 0 holds the bytes 0 to 255, record 1 bytes 11 hex
/// and all others zeros. This read and this write fail, which leaves bytes FE hex.
fn drive_with(
    rt: &(impl Abort + AllocGlobal),
    read: u64,
    write: u64,
) -> Result<Drive<MemoryMedium>, Fail> {
    let mut bytes = [0x11; 512];
    for byte in 0..=255_u8 {
        bytes[usize::from(byte)] = byte;
    }
    let image = Vec::from_array(rt.alloc(), bytes)?;
    let medium = tape_of(rt.alloc(), image, read, write, 0xFE)?;
    assert!(rt; medium.size() > 0);
    let mut drive = Drive::new(medium);
    talk(rt, &mut drive, &[("AAD 01", "> AAD 02")])?;
    Ok(drive)
}

/// Hears so many bytes that are all the same.
fn hear(rt: &impl Abort, drive: &mut Drive<MemoryMedium>, count: u16, byte: u8) {
    let frame = Frame::new(Class::Dab, byte);
    for _ in 0..count {
        assert!(rt; same(drive.take(frame), Out::Pass(frame)), "heard");
    }
}

fn record_of(drive: &Drive<MemoryMedium>, n: usize) -> Option<&[u8]> {
    drive.medium().image("TAPE")?.chunks(256).nth(n)
}

/// Whether the record holds that byte all over.
fn holds(drive: &Drive<MemoryMedium>, n: usize, byte: u8) -> bool {
    match record_of(drive, n) {
        Some(record) => same_bytes(record, &[byte; 256]),
        None => false,
    }
}

// Each DDL and DDT, each with the frames before it that matter: each case has a drive of its own.
const COMMANDS: [(&str, &[(&str, &str)]); 15] = [
    (
        "DDL 0 and DDT 0, with DDL 3",
        &[
            ("LAD 01", "="),
            ("DDL 03", "="),
            ("DAB FF", "="),
            ("DDL 00", "="),
            ("DAB AA", "="),
            ("END BB", "="),
            ("DDL 03", "="),
            ("DAB FF", "="),
            ("TAD 01", "="),
            ("DDT 00", "="),
            ("SDA", "< DAB AA"),
            ("DAB AA", "< ETO"),
            ("DDT 00", "="),
            ("SDA", "< DAB BB"),
            ("NRD", "="),
            ("DAB BB", "< ETO"),
            ("UNT", "="),
        ],
    ),
    (
        "DDL 1 and DDT 1",
        &[
            ("LAD 01", "="),
            ("DDL 03", "="),
            ("DAB 05", "="),
            ("DDL 01", "="),
            ("DAB CC", "="),
            ("DDL 03", "="),
            ("DAB 05", "="),
            ("UNL", "="),
            ("TAD 01", "="),
            ("DDT 01", "="),
            ("SDA", "< DAB CC"),
            ("DAB CC", "< DAB 00"),
            ("NRD", "="),
            ("DAB 00", "< ETO"),
            ("UNT", "="),
        ],
    ),
    (
        "DDL 4 and DDT 3",
        &[
            ("LAD 01", "="),
            ("DDL 04", "="),
            ("DAB 01", "="),
            ("DAB FF", "="),
            ("TAD 01", "="),
            ("DDT 03", "="),
            ("SDA", "< DAB 01"),
            ("DAB 01", "< DAB FF"),
            ("DAB FF", "< ETO"),
            ("SDA", "="),
            ("UNT", "="),
        ],
    ),
    (
        "DDL 5 and DDL 9 have no effect: the seek goes on",
        &[
            ("LAD 01", "="),
            ("DDL 04", "="),
            ("DAB 00", "="),
            ("DDL 05", "="),
            ("DDL 09", "="),
            ("DAB 02", "="),
            ("TAD 01", "="),
            ("DDT 03", "="),
            ("DDT 05", "="),
            ("SDA", "< DAB 00"),
            ("DAB 00", "< DAB 02"),
            ("DAB 02", "< ETO"),
            ("UNT", "="),
        ],
    ),
    (
        "DDL 7",
        &[
            ("LAD 01", "="),
            ("DDL 04", "="),
            ("DAB 00", "="),
            ("DAB 07", "="),
            ("DDL 07", "="),
            ("TAD 01", "="),
            ("DDT 03", "="),
            ("SDA", "< DAB 00"),
            ("DAB 00", "< DAB 00"),
            ("DAB 00", "< ETO"),
            ("UNT", "="),
        ],
    ),
    (
        "DDT 2: the record, and NRD after its second byte",
        &[
            ("LAD 01", "="),
            ("DDL 07", "="),
            ("TAD 01", "="),
            ("DDT 02", "="),
            ("SDA", "< DAB 00"),
            ("DAB 00", "< DAB 01"),
            ("NRD", "="),
            ("DAB 01", "< ETO"),
            ("DDT 03", "="),
            ("SDA", "< DAB 00"),
            ("DAB 00", "< DAB 01"),
            ("DAB 01", "< ETO"),
            ("UNT", "="),
        ],
    ),
    (
        "DDT 2 again: pointer 0, the next record; a wrong echo",
        &[
            ("TAD 01", "="),
            ("DDT 02", "="),
            ("SDA", "< DAB 00"),
            ("DAB 00", "< DAB 01"),
            ("NRD", "="),
            ("DAB 01", "< ETO"),
            ("DDT 02", "="),
            ("SDA", "< DAB 11"),
            ("DAB 10", "< ETE"),
            ("SDA", "="),
            ("UNT", "="),
        ],
    ),
    (
        "DDL 10: buffer 1 is a copy of buffer 0",
        &[
            ("LAD 01", "="),
            ("DDL 06", "="),
            ("DDL 0A", "="),
            ("DDL 03", "="),
            ("DAB FF", "="),
            ("TAD 01", "="),
            ("DDT 01", "="),
            ("SDA", "< DAB FF"),
            ("DAB FF", "< ETO"),
            ("UNT", "="),
        ],
    ),
    (
        "DDT 4: the buffers are exchanged",
        &[
            ("LAD 01", "="),
            ("DDL 03", "="),
            ("DAB FE", "="),
            ("DDL 00", "="),
            ("DAB 77", "="),
            ("DDL 03", "="),
            ("DAB FE", "="),
            ("TAD 01", "="),
            ("DDT 04", "="),
            ("SDA", "="),
            ("DDT 01", "="),
            ("SDA", "< DAB 77"),
            ("NRD", "="),
            ("DAB 77", "< ETO"),
            ("UNT", "="),
            ("LAD 01", "="),
            ("DDL 03", "="),
            ("DAB FE", "="),
            ("TAD 01", "="),
            ("DDT 00", "="),
            ("SDA", "< DAB 00"),
            ("NRD", "="),
            ("DAB 00", "< ETO"),
            ("UNT", "="),
        ],
    ),
    (
        "DDL 6 and DDL 8: one byte of record 1 is revised",
        &[
            ("LAD 01", "="),
            ("DDL 04", "="),
            ("DAB 00", "="),
            ("DAB 01", "="),
            ("DDL 03", "="),
            ("DAB 02", "="),
            ("DDL 06", "="),
            ("DAB EE", "="),
            ("DDL 08", "="),
            ("TAD 01", "="),
            ("DDT 03", "="),
            ("SDA", "< DAB 00"),
            ("DAB 00", "< DAB 02"),
            ("DAB 02", "< ETO"),
            ("LAD 01", "="),
            ("DDL 04", "="),
            ("DAB 00", "="),
            ("DAB 01", "="),
            ("TAD 01", "="),
            ("DDT 02", "="),
            ("SDA", "< DAB 11"),
            ("DAB 11", "< DAB 11"),
            ("DAB 11", "< DAB EE"),
            ("DAB EE", "< DAB 11"),
            ("UNT", "="),
        ],
    ),
    (
        "DDL 2 and DDL 8 without a byte: nothing is put",
        &[
            ("LAD 01", "="),
            ("DDL 02", "="),
            ("DDL 08", "="),
            ("TAD 01", "="),
            ("DDT 03", "="),
            ("SDA", "< DAB 00"),
            ("DAB 00", "< DAB 00"),
            ("DAB 00", "< ETO"),
            ("DDT 02", "="),
            ("SDA", "< DAB 00"),
            ("DAB 00", "< DAB 01"),
            ("UNT", "="),
        ],
    ),
    (
        "DDL 2 and one byte, ended by UNL: nothing is put",
        &[
            ("LAD 01", "="),
            ("DDL 02", "="),
            ("DAB 99", "="),
            ("UNL", "="),
            ("LAD 01", "="),
            ("DDL 08", "="),
            ("TAD 01", "="),
            ("DDT 03", "="),
            ("SDA", "< DAB 00"),
            ("DAB 00", "< DAB 00"),
            ("DAB 00", "< ETO"),
            ("DDT 02", "="),
            ("SDA", "< DAB 00"),
            ("DAB 00", "< DAB 01"),
            ("UNT", "="),
        ],
    ),
    (
        "the last record is read, and none after it",
        &[
            ("LAD 01", "="),
            ("DDL 04", "="),
            ("DAB 01", "="),
            ("DAB FF", "="),
            ("TAD 01", "="),
            ("DDT 02", "="),
            ("SDA", "< DAB 00"),
            ("NRD", "="),
            ("DAB 00", "< ETO"),
            ("DDT 02", "="),
            ("SDA", "="),
            ("DAB 00", "> DSR 00"),
            ("DDT 02", "="),
            ("SDA", "="),
            ("SST", "< DAB 43"),
            ("DAB 42", "< ETE"),
            ("SST", "< DAB 43"),
            ("DSR 43", "< ETO"),
            ("SST", "< DAB 00"),
            ("DAB 00", "< ETO"),
            ("UNT", "="),
        ],
    ),
    (
        "DDL 6 after the last record; SDC clears the status, and SAI is answered by 16",
        &[
            ("LAD 01", "="),
            ("DDL 04", "="),
            ("DAB 01", "="),
            ("DAB FF", "="),
            ("TAD 01", "="),
            ("DDT 02", "="),
            ("SDA", "< DAB 00"),
            ("NRD", "="),
            ("DAB 00", "< ETO"),
            ("LAD 01", "="),
            ("DDL 06", "="),
            ("DAB 00", "> DSR 00"),
            ("SDC", "="),
            ("TAD 01", "="),
            ("SAI", "< DAB 10"),
            ("DAB 10", "< ETO"),
            ("SST", "< DAB 00"),
            ("DAB 00", "< ETO"),
            ("SDI", "="),
            ("UNT", "="),
        ],
    ),
    (
        "with a status DDL 2 and DDT 2 rest",
        &[
            ("LAD 01", "="),
            ("DDL 04", "="),
            ("DAB FF", "="),
            ("DAB 00", "> DSR 00"),
            ("DDL 02", "="),
            ("DAB 55", "> DSR 55"),
            ("DDL 08", "="),
            ("TAD 01", "="),
            ("DDT 02", "="),
            ("SDA", "="),
            ("DCL", "="),
            ("DDT 02", "="),
            ("SDA", "< DAB 00"),
            ("NRD", "="),
            ("DAB 00", "< ETO"),
            ("UNT", "="),
        ],
    ),
];

// What meets an own frame on the loop, a place in the parallel poll, and the end of the tape.
const MEETINGS: [(&str, &[(&str, &str)]); 6] = [
    (
        "SST stopped by NRD: the right echo clears the status all the same",
        &[
            ("LAD 01", "="),
            ("DDL 04", "="),
            ("DAB 02", "="),
            ("DAB 00", "> DSR 00"),
            ("TAD 01", "="),
            ("SST", "< DAB 43"),
            ("NRD", "="),
            ("DAB 43", "< ETO"),
            ("SST", "< DAB 00"),
            ("DAB 00", "< ETO"),
        ],
    ),
    (
        "DCL with an own frame on the loop: the transmission ends after its echo",
        &[
            ("TAD 01", "="),
            ("DDT 02", "="),
            ("SDA", "< DAB 00"),
            ("DCL", "="),
            ("DAB 00", "< ETO"),
            ("SDA", "="),
            ("SST", "< DAB 00"),
        ],
    ),
    (
        "IFC with an own frame on the loop: its echo is no longer the drive's",
        &[
            ("TAD 01", "="),
            ("DDT 02", "="),
            ("SDA", "< DAB 00"),
            ("IFC", "="),
            ("DAB 00", "="),
            ("SST", "="),
        ],
    ),
    (
        "IDY with a place and a status: the place's bit where the status has its sense",
        &[
            ("LAD 01", "="),
            ("PPE 0A", "="),
            ("IDY 00", "="),
            ("DDL 04", "="),
            ("DAB FF", "="),
            ("DAB FF", "> DSR FF"),
            ("IDY 80", "> ISR 84"),
            ("PPE 03", "="),
            ("IDY 80", "> ISR 80"),
            ("SDC", "="),
            ("IDY 80", "> IDY 88"),
        ],
    ),
    (
        "put after the last record, by DDL 8",
        &[
            ("LAD 01", "="),
            ("DDL 04", "="),
            ("DAB 01", "="),
            ("DAB FF", "="),
            ("DDL 03", "="),
            ("DAB FF", "="),
            ("DDL 06", "="),
            ("DAB A1", "="),
            ("DAB A2", "="),
            ("DDL 08", "="),
            ("DAB A3", "> DSR A3"),
            ("TAD 01", "="),
            ("SST", "< DAB 43"),
            ("DAB 43", "< ETO"),
            ("DDT 03", "="),
            ("SDA", "< DAB 02"),
            ("DAB 02", "< DAB 00"),
        ],
    ),
    (
        "SAI while a byte is awaited back goes on",
        &[
            ("TAD 01", "="),
            ("DDT 03", "="),
            ("SDA", "< DAB 00"),
            ("SAI", "="),
            ("DAB 00", "< DAB 00"),
        ],
    ),
];

/// A new drive, which does not talk yet, answers these lines.
fn compare_talk(
    rt: &(impl Abort + AllocGlobal),
    what: &str,
    lines: &[(&str, &str)],
) -> Result<(), Fail> {
    let mut drive = drive_with(rt, 0, 0)?;
    assert!(rt; !drive.roles().talks, "{what}");
    talk(rt, &mut drive, lines)
}

#[test]
fn every_command(rt: HostRuntime) -> Result<(), Fail> {
    for (what, lines) in COMMANDS.iter().chain(MEETINGS.iter()) {
        compare_talk(&rt, what, lines)?;
    }
    Ok(())
}

// Faults that the drive has told and cleared: the read that fails, and the frames.
const CLEARED: [(u64, &[(&str, &str)]); 2] = [
    // A seek past the end.
    (
        0,
        &[
            ("LAD 01", "="),
            ("DDL 04", "="),
            ("DAB 02", "="),
            ("DAB 00", "> DSR 00"),
            ("UNL", "="),
            ("TAD 01", "="),
            ("SST", "< DAB 43"),
            ("DAB 43", "< ETO"),
            ("SST", "< DAB 00"),
        ],
    ),
    // A record to revise is not read.
    (
        1,
        &[
            ("LAD 01", "="),
            ("DDL 06", "="),
            ("DAB 77", "> DSR 77"),
            ("DDL 08", "="),
            ("TAD 01", "="),
            ("SST", "< DAB 41"),
            ("DAB 41", "< ETO"),
            ("DDT 02", "="),
            ("SDA", "< DAB 00"),
            ("DAB 00", "< DAB 01"),
        ],
    ),
];

#[test]
fn faults_are_cleared(rt: HostRuntime) -> Result<(), Fail> {
    for (read, lines) in CLEARED {
        let mut drive = drive_with(&rt, read, 0)?;
        talk(&rt, &mut drive, lines)?;
        assert!(rt; same(drive.status(), 0), "{read}");
    }
    Ok(())
}

// The third write fails, and leaves its bytes; the first read fails.
const FAILING: [(&str, &str); 15] = [
    ("DAB A5", "> DSR A5"),
    ("TAD 01", "="),
    ("SST", "< DAB 42"),
    ("DAB 42", "< ETO"),
    ("DDT 03", "="),
    ("SDA", "< DAB 00"),
    ("DAB 00", "< DAB 05"),
    ("DAB 05", "< ETO"),
    ("DDT 02", "="),
    ("SDA", "="),
    ("SST", "< DAB 41"),
    ("DAB 41", "< ETO"),
    ("DDT 02", "="),
    ("SDA", "< DAB FE"),
    ("DAB FE", "< DAB FE"),
];

#[test]
fn records_are_put(rt: HostRuntime) -> Result<(), Fail> {
    let mut drive = drive_with(&rt, 1, 3)?;
    let seek = [
        ("LAD 01", "="),
        ("DDL 04", "="),
        ("DAB 00", "="),
        ("DAB 03", "="),
        ("DDL 02", "="),
    ];
    talk(&rt, &mut drive, &seek)?;
    hear(&rt, &mut drive, 256, 0xA3);
    hear(&rt, &mut drive, 256, 0xA4);
    assert!(rt;
        holds(&drive, 3, 0xA3) && holds(&drive, 4, 0xA4),
        "records 3 and 4"
    );
    assert!(rt; same(drive.status(), 0), "no fault");
    hear(&rt, &mut drive, 255, 0xA5);
    talk(&rt, &mut drive, &FAILING)?;
    assert!(rt;
        holds(&drive, 5, 0xFE) && holds(&drive, 6, 0),
        "records 5 and 6"
    );
    let mut medium = drive.into_medium();
    let mut record = [0; 256];
    assert!(rt; medium.size() > 5);
    assert!(rt;
        same(medium.read(5, &mut record), Ok(())),
        "record 5 of the medium"
    );
    assert!(rt; same_bytes(&record, &[0xFE; 256]), "its bytes");
    Ok(())
}

#[test]
fn a_record_is_put_after_the_last(rt: HostRuntime) -> Result<(), Fail> {
    let mut drive = drive_with(&rt, 0, 0)?;
    let seek = [
        ("LAD 01", "="),
        ("DDL 04", "="),
        ("DAB 01", "="),
        ("DAB FF", "="),
        ("DDL 02", "="),
    ];
    talk(&rt, &mut drive, &seek)?;
    hear(&rt, &mut drive, 256, 0xA1);
    hear(&rt, &mut drive, 255, 0xA2);
    assert!(rt; same(drive.status(), 0), "no fault");
    talk(
        &rt,
        &mut drive,
        &[("DAB A2", "> DSR A2"), ("DAB A3", "> DSR A3")],
    )?;
    assert!(rt; same(drive.status(), 3), "no such record");
    assert!(rt; holds(&drive, 511, 0xA1), "the last record");
    Ok(())
}
