//! Frames, their texts, and the lines of entries.

use arrayvec::ArrayVec;
use il_frames::{Class, Entry, Frame, Message, Outcome};
use std::test::Fail;

// Frames by number, text and message, from the tables of the HP-IL Interface Specification: each
// name, the first and last of each group, and bytes without a name beside those with one.
static FRAMES: [(u16, &str, Message); 66] = [
    (0, "DAB 00", Message::Dab(0)),
    (255, "DAB FF", Message::Dab(255)),
    (256, "DSR 00", Message::Dsr(0)),
    (577, "END 41", Message::End(65)),
    (1023, "ESR FF", Message::Esr(255)),
    (1024, "NUL", Message::Nul),
    (1025, "GTL", Message::Gtl),
    (1026, "CMD 02", Message::OtherCmd(2)),
    (1028, "SDC", Message::Sdc),
    (1029, "PPD", Message::Ppd),
    (1032, "GET", Message::Get),
    (1033, "CMD 09", Message::OtherCmd(9)),
    (1039, "ELN", Message::Eln),
    (1040, "NOP", Message::Nop),
    (1041, "LLO", Message::Llo),
    (1044, "DCL", Message::Dcl),
    (1045, "PPU", Message::Ppu),
    (1048, "EAR", Message::Ear),
    (1055, "CMD 1F", Message::OtherCmd(31)),
    (1056, "LAD 00", Message::Lad(0)),
    (1057, "LAD 01", Message::Lad(1)),
    (1086, "LAD 1E", Message::Lad(30)),
    (1087, "UNL", Message::Unl),
    (1088, "TAD 00", Message::Tad(0)),
    (1118, "TAD 1E", Message::Tad(30)),
    (1119, "UNT", Message::Unt),
    (1120, "SAD 00", Message::Sad(0)),
    (1150, "SAD 1E", Message::Sad(30)),
    (1151, "CMD 7F", Message::OtherCmd(127)),
    (1152, "PPE 00", Message::Ppe(0)),
    (1167, "PPE 0F", Message::Ppe(15)),
    (1168, "IFC", Message::Ifc),
    (1169, "CMD 91", Message::OtherCmd(145)),
    (1170, "REN", Message::Ren),
    (1171, "NRE", Message::Nre),
    (1178, "AAU", Message::Aau),
    (1179, "LPD", Message::Lpd),
    (1180, "CMD 9C", Message::OtherCmd(156)),
    (1184, "DDL 00", Message::Ddl(0)),
    (1186, "DDL 02", Message::Ddl(2)),
    (1215, "DDL 1F", Message::Ddl(31)),
    (1216, "DDT 00", Message::Ddt(0)),
    (1247, "DDT 1F", Message::Ddt(31)),
    (1248, "CMD E0", Message::OtherCmd(224)),
    (1279, "CMD FF", Message::OtherCmd(255)),
    (1280, "RFC", Message::Rfc),
    (1281, "RDY 01", Message::OtherRdy(1)),
    (1344, "ETO", Message::Eto),
    (1345, "ETE", Message::Ete),
    (1346, "NRD", Message::Nrd),
    (1347, "RDY 43", Message::OtherRdy(67)),
    (1376, "SDA", Message::Sda),
    (1377, "SST", Message::Sst),
    (1378, "SDI", Message::Sdi),
    (1379, "SAI", Message::Sai),
    (1380, "TCT", Message::Tct),
    (1381, "RDY 65", Message::OtherRdy(101)),
    (1407, "RDY 7F", Message::OtherRdy(127)),
    (1408, "AAD 00", Message::Aad(0)),
    (1409, "AAD 01", Message::Aad(1)),
    (1438, "AAD 1E", Message::Aad(30)),
    (1439, "IAA", Message::Iaa),
    (1440, "RDY A0", Message::OtherRdy(160)),
    (1535, "RDY FF", Message::OtherRdy(255)),
    (1536, "IDY 00", Message::Idy(0)),
    (2047, "ISR FF", Message::Isr(255)),
];

// Bytes that no frame has as its text.
static NO_TEXTS: [&str; 16] = [
    "", "L", "DAB", "DAB 0", "DAB 000", "CMD 00", "CMD 20", "RDY 9F", "lad 01", "LAD 1f", "LAD 1F",
    "LAD-01", "LAD 01 ", "PPE 10", "RFC 00", "XYZ 00",
];

// Lines that no entry has: a part that lacks, a leading zero, a party past 255, a false mark or spelling,
// and a byte too many at the end, at the head or between the parts.
static NO_LINES: [&str; 16] = [
    "",
    "~",
    "~ 0",
    "~ 0 SST",
    "~ 0 SST >",
    "~ 0 SST > ",
    "~ 01 SST > 1",
    "~ 0 SST > 01",
    "~ 256 SST > 1",
    "~ 0 SST > 256",
    "~ 0 SST < 1",
    "~ 0 RDY 61 > 1",
    "~ 0 SST > 1 ",
    " ~ 0 SST > 1",
    "~ 0 SST  > 1",
    "~ 0 SST = RDY 61",
];

#[test]
fn numbers_texts_and_messages(rt: HostRuntime) -> Result<(), Fail> {
    let mut out = ArrayVec::new();
    for (bits, text, message) in FRAMES {
        let frame = Frame::of_bits(bits).ok_or(text)?;
        assert!(rt; frame.bits() == bits, "{text}");
        assert!(rt; frame.message() == message, "{text}");
        assert!(rt; Frame::new(frame.class(), frame.byte()) == frame, "{text}");
        assert!(rt; Frame::of(frame.message()) == frame, "{text}");
        assert!(rt; Frame::read_text(text.as_bytes()) == Some(frame), "{text}");
        frame.text(&mut out);
        assert!(rt; out.as_slice() == text.as_bytes(), "{text}");
    }
    Ok(())
}

#[test]
fn no_frame(rt: HostRuntime) {
    for bits in [2048, 65535] {
        assert!(rt; Frame::of_bits(bits).is_none(), "{bits}");
    }
    for text in NO_TEXTS {
        assert!(rt; Frame::read_text(text.as_bytes()).is_none(), "{text}");
    }
}

#[test]
fn no_entry(rt: HostRuntime) {
    for line in NO_LINES {
        assert!(rt; Entry::read_text(line.as_bytes()).is_none(), "{line}");
    }
}

#[test]
fn lines_of_entries(rt: HostRuntime) {
    let data = |byte: u8| Frame::new(Class::Dab, byte);
    let ready = |byte: u8| Frame::new(Class::Rdy, byte);
    let rows = [
        (
            0,
            ready(0x81),
            Outcome::Back(ready(0x83)),
            "~ 0 AAD 01 = AAD 03",
        ),
        (0, ready(0x61), Outcome::Taken(1), "~ 0 SST > 1"),
        (0, ready(0x00), Outcome::Lost(0), "~ 0 RFC ! 0"),
        (
            1,
            data(0x00),
            Outcome::Back(data(0x01)),
            "~ 1 DAB 00 = DAB 01",
        ),
        (
            255,
            data(0xFF),
            Outcome::Back(data(0xFE)),
            "~ 255 DAB FF = DAB FE",
        ),
        (30, ready(0x41), Outcome::Lost(10), "~ 30 ETE ! 10"),
    ];
    let mut out = ArrayVec::new();
    for (source, frame, outcome, line) in rows {
        let entry = Entry {
            source,
            frame,
            outcome,
        };
        entry.text(&mut out);
        assert!(rt; out.as_slice() == line.as_bytes(), "{line}");
        assert!(rt; Entry::read_text(line.as_bytes()) == Some(entry), "{line}");
    }
}
