//! A second controller: its rounds, what it answers to a wrong frame, and what it does as a device.

use crate::texts::frame_of;
use GuestOut::{Pass, Relay, Source, Stop};
use il_device::{Device, Out, Quiet};
use il_frames::{Class, Frame};
use il_guest::{Guest, GuestOut};
use il_same::same;
use std::test::Fail;

fn command(byte: u8) -> Frame {
    Frame::new(Class::Cmd, byte)
}

fn ready(byte: u8) -> Frame {
    Frame::new(Class::Rdy, byte)
}

/// A second controller of this address, which has just taken control.
fn taken(own: u8, last: u8) -> Option<Guest> {
    if own < 1 || 30 < own || last < 1 || 30 < last {
        return None;
    }
    let mut guest = Guest::new(last);
    guest.take(ready(0x80 + own));
    guest.take(command(0x40 + own));
    let begun = same(guest.take(ready(0x64)), Source(command(0x10)));
    begun.then_some(guest)
}

/// What a second controller does with a frame, by the texts of frames.
enum Answer {
    Sends(&'static str),
    Relays(&'static str),
    Passes(&'static str),
    Stops,
}

use Answer::{Passes, Relays, Sends, Stops};

fn answer_of(answer: &Answer) -> Result<GuestOut, &'static str> {
    Ok(match answer {
        Sends(text) => Source(frame_of(text)?),
        Relays(text) => Relay(frame_of(text)?),
        Passes(text) => Pass(frame_of(text)?),
        Stops => Stop,
    })
}

// A second controller with address 3 asks the addresses 1 and 2, of which 1 alone answers. In the second
// round it has a status again, and the host takes control back as the frame of address 2 is held.
static LEND: [(&str, Answer); 54] = [
    ("IFC", Passes("IFC")),
    ("AAU", Passes("AAU")),
    ("AAD 03", Passes("AAD 04")),
    ("UNL", Passes("UNL")),
    ("TCT", Passes("TCT")),
    ("TAD 03", Passes("TAD 03")),
    ("RFC", Passes("RFC")),
    ("TCT", Sends("NOP")),
    ("NOP", Sends("RFC")),
    ("RFC", Sends("UNL")),
    ("UNL", Sends("RFC")),
    ("RFC", Sends("TAD 01")),
    ("TAD 01", Sends("RFC")),
    ("RFC", Sends("SST")),
    ("DAB 00", Sends("NRD")),
    ("NRD", Relays("DAB 00")),
    ("ETO", Sends("UNT")),
    ("UNT", Sends("RFC")),
    ("RFC", Sends("UNL")),
    ("UNL", Sends("RFC")),
    ("RFC", Sends("TAD 02")),
    ("TAD 02", Sends("RFC")),
    ("RFC", Sends("SST")),
    ("SST", Sends("UNT")),
    ("UNT", Sends("RFC")),
    ("RFC", Sends("NOP")),
    ("NOP", Sends("RFC")),
    ("RFC", Sends("UNL")),
    ("UNL", Sends("RFC")),
    ("RFC", Sends("TAD 01")),
    ("TAD 01", Sends("RFC")),
    ("RFC", Sends("SST")),
    ("DSR 43", Sends("NRD")),
    ("NRD", Relays("DSR 43")),
    ("ETO", Sends("UNT")),
    ("UNT", Sends("RFC")),
    ("RFC", Sends("UNL")),
    ("UNL", Sends("RFC")),
    ("RFC", Sends("TAD 02")),
    ("TAD 02", Sends("RFC")),
    ("RFC", Sends("SST")),
    ("END 07", Sends("NRD")),
    ("IFC", Passes("IFC")),
    ("NRD", Passes("NRD")),
    ("SST", Passes("SST")),
    ("TCT", Passes("TCT")),
    ("TAD 03", Passes("TAD 03")),
    ("TCT", Sends("NOP")),
    ("NOP", Sends("RFC")),
    ("IFC", Passes("IFC")),
    ("RFC", Passes("RFC")),
    ("LAD 03", Passes("LAD 03")),
    ("DAB 41", Passes("DAB 41")),
    ("TCT", Passes("TCT")),
];

#[test]
fn lent_and_taken_back(rt: HostRuntime) -> Result<(), Fail> {
    let mut guest = Guest::new(2);
    assert!(rt; guest.is_idle() && !guest.in_control() && same(guest.last(), 2));
    for (place, (text, answer)) in LEND.iter().enumerate() {
        let expected = answer_of(answer)?;
        assert!(rt;
            same(guest.take(frame_of(text)?), expected),
            "{place}: {text}"
        );
        let leads = (7 <= place && place < 42) || (47 <= place && place < 49);
        assert!(rt; same(guest.in_control(), leads), "control at {place}");
        let status = match place {
            16..34 => Some(0x00),
            34..47 => Some(0x43),
            _ => None,
        };
        assert!(rt; same(guest.found()[1], status), "status at {place}");
        assert!(rt; guest.found()[2].is_none() && guest.found()[3].is_none());
    }
    assert!(rt; !guest.is_idle());
    guest.take(frame_of("AAU")?);
    assert!(rt; guest.is_idle());
    Ok(())
}

/// The command that the controller sent comes back, and RFC after it; it then sends this frame.
fn commanded(guest: &mut Guest, sent: Frame, next: Frame) -> bool {
    same(guest.take(sent), Source(ready(0x00))) && same(guest.take(ready(0x00)), Source(next))
}

/// The address is asked for its status and gives this one, or none.
fn polled(guest: &mut Guest, address: u8, status: Option<u8>) -> bool {
    let (unl, tad, sst) = (command(0x3F), command(0x40 | address), ready(0x61));
    if !commanded(guest, unl, tad) || !commanded(guest, tad, sst) {
        return false;
    }
    let untalk = Source(command(0x5F));
    let Some(status) = status else {
        return same(guest.take(sst), untalk);
    };
    let data = Frame::new(Class::Dab, status);
    same(guest.take(data), Source(ready(0x42)))
        && same(guest.take(ready(0x42)), Relay(data))
        && same(guest.take(ready(0x40)), untalk)
}

/// Whether a round with these statuses, one for each address from 1 on, is as it should be.
fn rounds_well(guest: &mut Guest, own: u8, statuses: &[Option<u8>]) -> bool {
    let mut sent = command(0x10);
    for (address, status) in (1..=30u8).zip(statuses) {
        if address == own {
            continue;
        }
        if !commanded(guest, sent, command(0x3F)) || !polled(guest, address, *status) {
            return false;
        }
        sent = command(0x5F);
    }
    commanded(guest, sent, command(0x10))
}

// The own address, and the statuses of the addresses from 1 on.
static ROUNDS: [(u8, &[Option<u8>]); 9] = [
    (1, &[None]),
    (2, &[None]),
    (2, &[Some(0x41)]),
    (1, &[None, Some(0x00)]),
    (2, &[Some(0x7F), None]),
    (3, &[Some(0x01), Some(0x02)]),
    (3, &[Some(0x01), None, None, Some(0xFF), None]),
    (5, &[Some(0x01), None, Some(0x40), Some(0x00), None]),
    (6, &[None, None, None, None, Some(0x20)]),
];

#[test]
fn rounds_of_each_length(rt: HostRuntime) -> Result<(), Fail> {
    for (own, statuses) in ROUNDS {
        let mut guest = taken(own, statuses.len() as u8).ok_or("not taken")?;
        assert!(rt; rounds_well(&mut guest, own, statuses), "round of {own}");
        for (found, status) in guest.found().iter().skip(1).zip(statuses) {
            assert!(rt; same(*found, *status), "found by {own}");
        }
        let silent = [None; 30];
        let none = silent.get(..statuses.len()).ok_or("30 at most")?;
        assert!(rt; rounds_well(&mut guest, own, none), "next round of {own}");
        assert!(rt; guest.found().iter().all(|found| found.is_none()));
    }
    Ok(())
}

#[test]
fn all_addresses(rt: HostRuntime) -> Result<(), Fail> {
    let mut statuses = [None; 30];
    for (number, status) in statuses.iter_mut().enumerate() {
        if number % 3 != 0 && number != 29 {
            *status = Some(number as u8);
        }
    }
    let mut guest = taken(30, 30).ok_or("not taken")?;
    assert!(rt; rounds_well(&mut guest, 30, &statuses));
    for (found, status) in guest.found().iter().skip(1).zip(&statuses) {
        assert!(rt; same(*found, *status));
    }
    Ok(())
}

// What comes in place of the frame that a second controller waits for, by what it has sent.
static WRONG: [(&[&str], &[&str]); 8] = [
    (
        &[],
        &["RFC", "UNL", "TCT", "DAB 10", "IDY 00", "AAU", "SST"],
    ),
    (&["NOP"], &["NOP", "NRD", "DAB 00", "ISR 00"]),
    (&["NOP", "RFC", "UNL", "RFC"], &["TAD 02", "TAD 03", "UNT"]),
    (
        &["NOP", "RFC", "UNL", "RFC", "TAD 01", "RFC"],
        &["ETO", "ETE", "NRD", "SDA", "IDY 00"],
    ),
    (
        &["NOP", "RFC", "UNL", "RFC", "TAD 01", "RFC", "DAB 05"],
        &["DAB 05", "ETO", "ETE", "RFC"],
    ),
    (
        &["NOP", "RFC", "UNL", "RFC", "TAD 01", "RFC", "DAB 05", "NRD"],
        &["ETE", "DAB 05", "DAB 06", "NRD", "UNT"],
    ),
    (
        &["NOP", "RFC", "UNL", "RFC", "TAD 01", "RFC", "SST"],
        &["RFC", "DAB 05", "ETO"],
    ),
    (
        &["NOP", "RFC", "UNL", "RFC", "TAD 01", "RFC", "SST", "UNT"],
        &["UNT", "TCT"],
    ),
];

/// Whether the second controller is silent at each of these frames, or at none of them.
fn stays(guest: &mut Guest, texts: &[&'static str], is_silent: bool) -> Result<bool, &'static str> {
    let mut stays = true;
    for text in texts {
        stays &= same(guest.take(frame_of(text)?), Stop) == is_silent;
    }
    Ok(stays)
}

/// Whether IFC ends its control, and it has kept its address and talks no more.
fn is_given_back(guest: &mut Guest) -> Result<bool, &'static str> {
    let (ifc, tct) = (frame_of("IFC")?, frame_of("TCT")?);
    if !guest.in_control() || !same(guest.take(ifc), Pass(ifc)) || guest.in_control() {
        return Ok(false);
    }
    let silent = same(guest.take(tct), Pass(tct));
    guest.take(frame_of("TAD 03")?);
    Ok(silent && same(guest.take(tct), Source(frame_of("NOP")?)))
}

#[test]
fn silent_after_a_wrong_frame(rt: HostRuntime) -> Result<(), Fail> {
    for (before, frames) in WRONG {
        for wrong in frames {
            let mut guest = taken(3, 2).ok_or("not taken")?;
            assert!(rt; stays(&mut guest, before, false)?, "before {wrong}");
            assert!(rt; same(guest.take(frame_of(wrong)?), Stop), "{wrong}");
            let after = ["NOP", "ETO", "DAB 05", "TCT", "TAD 03", "TCT"];
            assert!(rt; stays(&mut guest, &after, true)?, "after {wrong}");
            assert!(rt; guest.found().iter().all(|found| found.is_none()));
            assert!(rt; is_given_back(&mut guest)?, "IFC after {wrong}");
        }
    }
    Ok(())
}

// What brings a device into each of its states, and then a frame of each kind.
static STATES: [&[&str]; 7] = [
    &[],
    &["AAD 05"],
    &["AAD 05", "TAD 05"],
    &["AAD 05", "LAD 05"],
    &["AAD 05", "LAD 05", "PPE 0A"],
    &["AAD 05", "LAD 05", "PPE 03"],
    &["AAD 05", "LAD 05", "PPE 03", "TAD 05"],
];

static FRAMES: [&str; 37] = [
    "DAB 41", "DSR 42", "END 0A", "ESR 0D", "IDY 00", "ISR 81", "NUL", "GTL", "SDC", "PPD", "GET",
    "NOP", "DCL", "PPU", "LAD 05", "LAD 06", "UNL", "TAD 05", "TAD 06", "UNT", "SAD 05", "PPE 09",
    "IFC", "AAU", "DDL 02", "DDT 02", "RFC", "ETO", "ETE", "NRD", "SDA", "SST", "SDI", "SAI",
    "AAD 07", "AAD 1E", "IAA",
];

fn as_guest(out: Out) -> GuestOut {
    match out {
        Out::Pass(frame) => Pass(frame),
        Out::Source(frame) => Source(frame),
    }
}

/// Whether both do the same at each of these frames.
fn alike(
    guest: &mut Guest,
    quiet: &mut Quiet,
    texts: &[&'static str],
) -> Result<bool, &'static str> {
    let mut alike = true;
    for text in texts {
        let frame = frame_of(text)?;
        alike &= same(guest.take(frame), as_guest(quiet.take(frame)));
    }
    Ok(alike)
}

#[test]
fn as_a_quiet_device(rt: HostRuntime) -> Result<(), Fail> {
    for state in STATES {
        for text in FRAMES {
            let mut guest = Guest::new(30);
            let mut quiet = Quiet::new();
            assert!(rt; alike(&mut guest, &mut quiet, state)?, "before {text}");
            let after = [text, "IDY 40", "DAB 43", "AAD 09", "SST"];
            assert!(rt; alike(&mut guest, &mut quiet, &after)?, "{text}");
            assert!(rt; same(guest.is_idle(), quiet.is_idle()), "{text}");
        }
    }
    Ok(())
}
