//! Devices: a printer, one that sends nothing, and the part that all have alike.

use crate::texts::frame_of;
use il_device::{Device, Interface, Out, Printer, Quiet};
use il_frames::Frame;
use il_same::{same, same_bytes};
use std::test::Fail;

/// What a printer does with a frame, by the texts of frames.
enum Answer {
    Passes(&'static str),
    Sends(&'static str),
}

use Answer::{Passes, Sends};

// A day on the loop: a frame, the printer's answer to it, and the frame that Quiet passes on. Each of
// the two stands alone on a loop of its own.
static DAY: [(&str, Answer, &str); 76] = [
    ("IFC", Passes("IFC"), "IFC"),
    ("AAU", Passes("AAU"), "AAU"),
    // Address 0 is taken by none, and an address is taken once.
    ("AAD 00", Passes("AAD 00"), "AAD 00"),
    ("AAD 01", Passes("AAD 02"), "AAD 02"),
    ("AAD 05", Passes("AAD 05"), "AAD 05"),
    ("IAA", Passes("IAA"), "IAA"),
    // Nothing is heard before LAD with the own address.
    ("DAB 41", Passes("DAB 41"), "DAB 41"),
    ("LAD 02", Passes("LAD 02"), "LAD 02"),
    ("DAB 42", Passes("DAB 42"), "DAB 42"),
    ("LAD 01", Passes("LAD 01"), "LAD 01"),
    ("DDL 04", Passes("DDL 04"), "DDL 04"),
    ("DAB 43", Passes("DAB 43"), "DAB 43"),
    ("END 0A", Passes("END 0A"), "END 0A"),
    ("DSR 44", Passes("DSR 44"), "DSR 44"),
    ("ESR 45", Passes("ESR 45"), "ESR 45"),
    ("SDC", Passes("SDC"), "SDC"),
    // Bit 1 asks for service, which neither wants.
    ("PPE 09", Passes("PPE 09"), "PPE 09"),
    ("IDY 00", Passes("IDY 00"), "IDY 00"),
    // Bit 2 says that no service is wanted.
    ("PPE 02", Passes("PPE 02"), "PPE 02"),
    ("IDY 80", Passes("IDY 84"), "IDY 84"),
    ("ISR 00", Passes("ISR 04"), "ISR 04"),
    // Only a listener takes PPE and PPD.
    ("UNL", Passes("UNL"), "UNL"),
    ("PPD", Passes("PPD"), "PPD"),
    ("PPE 0B", Passes("PPE 0B"), "PPE 0B"),
    ("IDY 00", Passes("IDY 04"), "IDY 04"),
    ("DAB 46", Passes("DAB 46"), "DAB 46"),
    ("PPU", Passes("PPU"), "PPU"),
    ("IDY 00", Passes("IDY 00"), "IDY 00"),
    // Only the talker answers a start message.
    ("TAD 02", Passes("TAD 02"), "TAD 02"),
    ("SST", Passes("SST"), "SST"),
    ("TAD 01", Passes("TAD 01"), "TAD 01"),
    ("SDA", Passes("SDA"), "SDA"),
    ("SDI", Passes("SDI"), "SDI"),
    // The status byte, stopped, with the right echo.
    ("SST", Sends("DAB 00"), "SST"),
    ("NRD", Passes("NRD"), "NRD"),
    ("SST", Passes("SST"), "SST"),
    ("DAB 00", Sends("ETO"), "DAB 00"),
    ("DAB 00", Passes("DAB 00"), "DAB 00"),
    // A wrong byte, the right byte with a service request, and the right byte in a wrong class.
    ("SST", Sends("DAB 00"), "SST"),
    ("DAB 01", Sends("ETE"), "DAB 01"),
    ("SST", Sends("DAB 00"), "SST"),
    ("DSR 00", Sends("ETO"), "DSR 00"),
    ("SST", Sends("DAB 00"), "SST"),
    ("END 00", Sends("ETE"), "END 00"),
    // The accessory ID.
    ("SAI", Sends("DAB 20"), "SAI"),
    ("DAB 20", Sends("ETO"), "DAB 20"),
    ("SAI", Sends("DAB 20"), "SAI"),
    ("DAB 00", Sends("ETE"), "DAB 00"),
    // UNT, IFC and TAD end the own frame, and then nothing is compared.
    ("SAI", Sends("DAB 20"), "SAI"),
    ("UNT", Passes("UNT"), "UNT"),
    ("DAB 20", Passes("DAB 20"), "DAB 20"),
    ("SAI", Passes("SAI"), "SAI"),
    ("TAD 01", Passes("TAD 01"), "TAD 01"),
    ("SST", Sends("DAB 00"), "SST"),
    ("IFC", Passes("IFC"), "IFC"),
    ("DAB 00", Passes("DAB 00"), "DAB 00"),
    ("SST", Passes("SST"), "SST"),
    ("TAD 01", Passes("TAD 01"), "TAD 01"),
    ("SST", Sends("DAB 00"), "SST"),
    ("TAD 01", Passes("TAD 01"), "TAD 01"),
    ("DAB 00", Passes("DAB 00"), "DAB 00"),
    ("SST", Sends("DAB 00"), "SST"),
    ("TAD 03", Passes("TAD 03"), "TAD 03"),
    ("DAB 00", Passes("DAB 00"), "DAB 00"),
    // AAU ends the role and the address. After address 30 stands IAA.
    ("LAD 01", Passes("LAD 01"), "LAD 01"),
    ("AAU", Passes("AAU"), "AAU"),
    ("DAB 47", Passes("DAB 47"), "DAB 47"),
    ("LAD 01", Passes("LAD 01"), "LAD 01"),
    ("DAB 48", Passes("DAB 48"), "DAB 48"),
    ("AAD 1E", Passes("IAA"), "IAA"),
    ("LAD 1E", Passes("LAD 1E"), "LAD 1E"),
    ("DAB 49", Passes("DAB 49"), "DAB 49"),
    // A talker does not hear, and a talker that is to listen talks no more.
    ("TAD 1E", Passes("TAD 1E"), "TAD 1E"),
    ("DAB 4A", Passes("DAB 4A"), "DAB 4A"),
    ("LAD 1E", Passes("LAD 1E"), "LAD 1E"),
    ("DAB 4B", Passes("DAB 4B"), "DAB 4B"),
];

#[test]
fn a_day(rt: HostRuntime) -> Result<(), Fail> {
    let mut printer = Printer::new(rt.alloc())?;
    let mut quiet = Quiet::default();
    assert!(rt; printer.is_idle() && quiet.is_idle());
    for (text, answer, passed) in &DAY {
        let frame = frame_of(text)?;
        let expected = match answer {
            Passes(text) => Out::Pass(frame_of(text)?),
            Sends(text) => Out::Source(frame_of(text)?),
        };
        assert!(rt; same(printer.take(frame), expected), "printer at {text}");
        let on = Out::Pass(frame_of(passed)?);
        assert!(rt; same(quiet.take(frame), on), "quiet at {text}");
    }
    let heard = [0x43, 0x0A, 0x44, 0x45, 0x49, 0x4B];
    assert!(rt;
        same_bytes(printer.heard(), &heard) && quiet.heard().is_empty(),
        "heard"
    );
    assert!(rt;
        same(printer.heard_count(), 6) && same(quiet.heard_count(), 6),
        "counts"
    );
    assert!(rt;
        same(printer.frames(), 76) && same(quiet.frames(), 76),
        "frames"
    );
    assert!(rt;
        same(printer.accessory(), Some(32)),
        "the ID of the printer"
    );
    assert!(rt; same(quiet.accessory(), None), "the ID of the quiet device");
    assert!(rt; !printer.is_idle() && !quiet.is_idle());
    Ok(())
}

// A place in a poll outlasts AAU, and a device with one is not idle.
#[test]
fn idle_without_a_place(rt: HostRuntime) -> Result<(), Fail> {
    let mut quiet = Quiet::default();
    for text in ["AAD 01", "LAD 01", "PPE 08", "AAU"] {
        quiet.take(frame_of(text)?);
        assert!(rt; !quiet.is_idle(), "{text}");
    }
    quiet.take(frame_of("PPU")?);
    assert!(rt; quiet.is_idle());
    Ok(())
}

// A printer and Quiet on one loop, as boxes that the caller made: a frame, and the frame after both.
static ROUNDS: [(&str, &str); 14] = [
    ("AAD 01", "AAD 03"),
    ("LAD 01", "LAD 01"),
    ("PPE 00", "PPE 00"),
    ("UNL", "UNL"),
    ("LAD 02", "LAD 02"),
    ("PPE 01", "PPE 01"),
    ("DAB 41", "DAB 41"),
    ("UNL", "UNL"),
    ("IDY 00", "IDY 03"),
    ("TAD 01", "TAD 01"),
    ("SAI", "DAB 20"),
    ("DAB 20", "ETO"),
    ("TAD 02", "TAD 02"),
    ("SAI", "SAI"),
];

/// The frame after all of the devices, each of which takes what the one before sent on.
fn past_all(devices: &mut [Box<dyn Device>], frame: Frame) -> Frame {
    let mut on = frame;
    for device in devices.iter_mut() {
        on = match device.take(on) {
            Out::Pass(frame) | Out::Source(frame) => frame,
        };
    }
    on
}

#[test]
fn past_boxes(rt: HostRuntime) -> Result<(), Fail> {
    let printer: Box<dyn Device> = Box::new(rt.alloc(), Printer::new(rt.alloc())?)?;
    let quiet: Box<dyn Device> = Box::new(rt.alloc(), Quiet::new())?;
    let mut devices = Vec::from_array(rt.alloc(), [printer, quiet])?;
    for (text, behind) in ROUNDS {
        let passed = past_all(&mut devices, frame_of(text)?);
        assert!(rt; same(passed, frame_of(behind)?), "{text}");
    }
    for (device, heard_count) in devices.iter().zip([0, 1]) {
        assert!(rt;
            same(device.heard_count(), heard_count),
            "{heard_count} heard"
        );
        assert!(rt; same(device.frames(), 14), "frames");
    }
    Ok(())
}

// The part that all devices have, with status 3: a frame, and the frame that is passed on.
static SERVED: [(&str, &str); 9] = [
    ("AAD 07", "AAD 08"),
    ("LAD 07", "LAD 07"),
    ("DAB 41", "DSR 41"),
    ("ESR 0A", "ESR 0A"),
    ("END 0A", "ESR 0A"),
    ("IDY 01", "ISR 01"),
    ("PPE 0F", "PPE 0F"),
    ("ISR 01", "ISR 81"),
    ("SST", "SST"),
];

#[test]
fn service_is_asked_for(rt: HostRuntime) -> Result<(), Fail> {
    let mut interface = Interface::new(Some(16));
    interface.set_status(3);
    for (text, behind) in SERVED {
        let before = interface.roles();
        let frame = frame_of(text)?;
        interface.effect(frame);
        let passed = interface.passed(before, frame);
        assert!(rt; same(passed, frame_of(behind)?), "{text}");
    }
    assert!(rt; interface.wants());
    assert!(rt; same(interface.status_byte(), 0x43), "status");
    assert!(rt; same(interface.heard_count(), 3), "heard");
    assert!(rt; same(interface.accessory(), Some(16)), "the ID");
    Ok(())
}
