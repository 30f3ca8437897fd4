//! The readers of traces: one talker, exchanges, what may stand in a record, and units.
ghost use Rattle.std.specs.Prelude.{◌≡◌, length, IfOk};

use il_frames::Entry;
use std::process::Abort;
use std::test::Fail;
use trace_readers::{Effects, Exchanges, Expected, Talkers, UnitFault};

// Logs of two devices without roles: the lines of a log, and whether there was one talker at most after each.
static LOGS: [(&[&str], &[bool]); 3] = [
    // the first device talks, and the second ends the talk
    (
        &[
            "~ 0 AAD 01 = AAD 03",
            "~ 0 TAD 01 = TAD 01",
            "~ 0 SST > 1",
            "~ 1 DAB 00 = DAB 00",
            "~ 2 ETO > 0",
            "~ 1 ETO > 0",
        ],
        &[true, true, true, true, false, false],
    ),
    // the second device talks after the first; a TAD 01 that is lost before the second leaves two talkers
    (
        &[
            "~ 0 AAD 01 = AAD 03",
            "~ 0 TAD 01 = TAD 01",
            "~ 0 TAD 02 = TAD 02",
            "~ 2 DAB 41 = DAB 41",
            "~ 0 TAD 01 ! 2",
        ],
        &[true, true, true, true, false],
    ),
    // no device talks, so the host may send data, and no ETO
    (&["~ 0 DAB 41 = DAB 41", "~ 0 ETO = ETO"], &[true, false]),
];

#[test]
fn logs_with_one_talker(rt: HostRuntime) -> Result<(), Fail> {
    for (lines, answers) in LOGS {
        let mut talkers = Talkers::new(2);
        for (line, answer) in lines.iter().zip(answers) {
            let entry = Entry::read_text(line.as_bytes()).ok_or(*line)?;
            assert!(rt; talkers.take(entry) == *answer, "{line}");
        }
    }
    Ok(())
}

// Logs of a ring of two devices: the lines, and after each of them whether the log can go on to a list of
// exchanges, and whether it is one.
static EXCHANGES: [&[(&str, bool, bool)]; 4] = [
    // a receive, and a send whose data came back altered
    &[
        ("~ 0 AAD 01 = AAD 03", true, true),
        ("~ 0 UNL = UNL", true, false),
        ("~ 0 RFC = RFC", true, true),
        ("~ 0 TAD 01 = TAD 01", true, false),
        ("~ 0 RFC = RFC", true, false),
        ("~ 0 SST > 1", true, false),
        ("~ 1 DAB 00 = DSR 00", true, false),
        ("~ 1 ETO > 0", true, false),
        ("~ 0 UNT = UNT", true, false),
        ("~ 0 RFC = RFC", true, true),
        ("~ 0 UNL = UNL", true, false),
        ("~ 0 RFC = RFC", true, true),
        ("~ 0 LAD 01 = LAD 01", true, false),
        ("~ 0 RFC = RFC", true, true),
        ("~ 0 DAB 41 = DAB 40", true, true),
        ("~ 0 DAB 41 = DAB 41", false, false),
    ],
    // a talker that was stopped, whose last byte came back altered
    &[
        ("~ 0 UNL = UNL", true, false),
        ("~ 0 RFC = RFC", true, true),
        ("~ 0 TAD 02 = TAD 02", true, false),
        ("~ 0 RFC = RFC", true, false),
        ("~ 0 DDT 02 = DDT 02", true, false),
        ("~ 0 RFC = RFC", true, false),
        ("~ 0 SDA > 2", true, false),
        ("~ 0 NRD = NRD", true, false),
        ("~ 2 END 05 = END 07", true, false),
        ("~ 2 ETE > 0", true, true),
    ],
    // three devices answer on a ring of two
    &[("~ 0 AAD 01 = AAD 04", false, false)],
    // a talk address without UNL before it
    &[
        ("~ 0 TAD 01 = TAD 01", false, false),
        ("~ 0 UNL ! 1", false, false),
    ],
];

#[test]
fn logs_of_exchanges(rt: HostRuntime) -> Result<(), Fail> {
    for lines in EXCHANGES {
        let mut exchanges = Exchanges::new(2);
        for (line, goes_on, may_end) in lines {
            let entry = Entry::read_text(line.as_bytes()).ok_or(*line)?;
            assert!(rt; exchanges.take(entry) == *goes_on, "{line}");
            assert!(rt; exchanges.may_end() == *may_end, "{line}");
        }
    }
    Ok(())
}

// What may stand in a record: zeros alone, sevens alone, or both.
const OLD: (bool, bool) = (true, false);

const NEW: (bool, bool) = (false, true);

const ANY: (bool, bool) = (true, true);

// Writes of sevens on a tape of three records of zeros: the first record, the number of bytes, whether the
// status was 0, the fault, and what may stand in each record after it.
static WRITES: [(u16, usize, bool, Option<UnitFault>, [(bool, bool); 3]); 10] = [
    (1, 512, true, None, [OLD, NEW, NEW]),
    (1, 768, true, Some(UnitFault::BadUnit), [OLD, OLD, OLD]),
    (0, 300, true, Some(UnitFault::BadUnit), [OLD, OLD, OLD]),
    (9, 0, true, None, [OLD, OLD, OLD]),
    (1, 255, false, None, [OLD, OLD, OLD]),
    (1, 256, false, None, [OLD, ANY, OLD]),
    (2, 511, false, None, [OLD, OLD, ANY]),
    (3, 256, false, None, [OLD, OLD, OLD]),
    (0, 512, false, Some(UnitFault::Unclear), [OLD, OLD, OLD]),
    (0, 768, true, None, [NEW, NEW, NEW]),
];

/// What a tape of three records of zeros may hold after such a write is what the row tells.
fn compare_write(
    rt: &(impl Abort + AllocGlobal),
    first: u16,
    count: usize,
    is_good: bool,
    fault: Option<UnitFault>,
    stands: &[(bool, bool); 3],
) -> Result<(), Fail> {
    let mut expected = Expected::new(rt.alloc(), 3)?;
    expected.push(&[0; 256]);
    expected.push(&[0; 256]);
    expected.push(&[0; 256]);
    let sevens = [7; 768];
    let bytes = sevens.get(..count).ok_or("count")?;
    let answer = expected.write(first, bytes, is_good);
    assert!(rt; answer.err() == fault, "{first} {count}");
    for place in 0..3 {
        let found = (
            expected.allows(place, &[0; 256]),
            expected.allows(place, &[7; 256]),
        );
        assert!(rt; found == stands[place as usize], "{first} {count} {place}");
    }
    Ok(())
}

#[test]
fn writes_of_sevens(rt: HostRuntime) -> Result<(), Fail> {
    for (first, count, is_good, fault, stands) in WRITES {
        compare_write(&rt, first, count, is_good, fault, &stands)?;
    }
    Ok(())
}

// A seek of record 1 of the drive, which is the first device, and what stands before the bytes of a unit.
static SEEK: [&str; 14] = [
    "~ 0 UNL = UNL",
    "~ 0 RFC = RFC",
    "~ 0 LAD 01 = LAD 01",
    "~ 0 RFC = RFC",
    "~ 0 DDL 04 = DDL 04",
    "~ 0 RFC = RFC",
    "~ 0 DAB 00 = DAB 00",
    "~ 0 DAB 01 = DAB 01",
    "~ 0 UNL = UNL",
    "~ 0 RFC = RFC",
    "~ 0 LAD 01 = LAD 01",
    "~ 0 RFC = RFC",
    "~ 0 DDL 02 = DDL 02",
    "~ 0 RFC = RFC",
];

// What stands before the status of the drive, and after it.
static POLL: [&str; 5] = [
    "~ 0 UNL = UNL",
    "~ 0 RFC = RFC",
    "~ 0 TAD 01 = TAD 01",
    "~ 0 RFC = RFC",
    "~ 0 SST > 1",
];

static END: [&str; 3] = ["~ 1 ETO > 0", "~ 0 UNT = UNT", "~ 0 RFC = RFC"];

// Units of sevens on a tape of three records of zeros: how many bytes came back as they were, whether the status
// was told, what followed (the status), the fault, and what may stand in each record.
static UNITS: [(usize, bool, &[&str], Option<UnitFault>, [(bool, bool); 3]); 11] = [
    (256, true, &["~ 1 DAB 00 = DAB 00"], None, [OLD, NEW, OLD]),
    (512, true, &["~ 1 DAB 00 = DAB 00"], None, [OLD, NEW, NEW]),
    (
        300,
        true,
        &["~ 1 DAB 00 = DAB 00"],
        Some(UnitFault::BadUnit),
        [OLD, OLD, OLD],
    ),
    (
        768,
        true,
        &["~ 1 DAB 00 = DAB 00"],
        Some(UnitFault::BadUnit),
        [OLD, OLD, OLD],
    ),
    (256, true, &["~ 1 DAB 01 = DAB 01"], None, [OLD, ANY, OLD]),
    (255, false, &["~ 0 UNL ! 1"], None, [OLD, OLD, OLD]),
    (257, false, &["~ 0 UNL ! 1"], None, [OLD, ANY, OLD]),
    (255, false, &["~ 0 DAB 07 = DAB 06"], None, [OLD, ANY, OLD]),
    (
        511,
        false,
        &["~ 0 DAB 07 ! 1"],
        Some(UnitFault::Unclear),
        [OLD, OLD, OLD],
    ),
    (
        256,
        false,
        &["~ 0 UNL = UNL", "~ 0 RFC = RFC", "~ 0 TAD 01 ! 0"],
        None,
        [OLD, ANY, OLD],
    ),
    (
        256,
        false,
        &["~ 0 UNL = UNL", "~ 0 RFC = RFC"],
        None,
        [OLD, OLD, OLD],
    ),
];

/// Reads lines. The answer is the fault of the last of them that had one.
fn read_lines(effects: &mut Effects, lines: &[&str]) -> Result<Option<UnitFault>, Fail>
    ensures { length effects.new.expected.records ≡ length effects.old.expected.records }
{
    let mut fault = None;
    for line in lines {
        let entry = Entry::read_text(line.as_bytes()).ok_or(*line)?;
        fault = effects.take(entry).err().or(fault);
    }
    Ok(fault)
}

/// The reader of effects of the first device on a tape of three records of zeros.
fn on_three_zeros(rt: &impl AllocGlobal) -> Result<Effects, Fail>
    ensures { IfOk result (λ effects. length effects.expected.records ≡ 3) }
{
    let mut effects = Effects::new(rt.alloc(), 1, 3)?;
    effects.push(&[0; 256]);
    effects.push(&[0; 256]);
    effects.push(&[0; 256]);
    Ok(effects)
}

/// Reads the seek of record 1 and so many bytes that came back as they were, of which none shows a fault.
fn read_sevens(rt: &impl Abort, effects: &mut Effects, count: usize) -> Result<(), Fail>
    ensures { length effects.new.expected.records ≡ length effects.old.expected.records }
{
    let sevens = ["~ 0 DAB 07 = DAB 07"; 768];
    let bytes = sevens.get(..count).ok_or("count")?;
    assert!(rt; read_lines(effects, &SEEK)?.is_none(), "{count}");
    assert!(rt; read_lines(effects, bytes)?.is_none(), "{count}");
    Ok(())
}

/// Reads how a unit goes on, in the poll of the status or without it. The answer is the last fault.
fn read_rest(
    rt: &impl Abort,
    effects: &mut Effects,
    is_told: bool,
    rest: &[&str],
) -> Result<Option<UnitFault>, Fail>
    ensures { length effects.new.expected.records ≡ length effects.old.expected.records }
{
    if !is_told {
        return read_lines(effects, rest);
    }
    assert!(rt; read_lines(effects, &POLL)?.is_none(), "the poll");
    let found = read_lines(effects, rest)?;
    Ok(read_lines(effects, &END)?.or(found))
}

/// What the tape may hold after such a unit is what the row tells.
fn compare_unit(
    rt: &(impl Abort + AllocGlobal),
    count: usize,
    is_told: bool,
    rest: &[&str],
    fault: Option<UnitFault>,
    stands: &[(bool, bool); 3],
) -> Result<(), Fail> {
    let mut effects = on_three_zeros(rt)?;
    read_sevens(rt, &mut effects, count)?;
    let found = read_rest(rt, &mut effects, is_told, rest)?;
    assert!(rt; found == fault, "{count}");
    for place in 0..3 {
        let found = (
            effects.allows(place, &[0; 256]),
            effects.allows(place, &[7; 256]),
        );
        assert!(rt; found == stands[place as usize], "{count} {place}");
    }
    Ok(())
}

#[test]
fn units_of_sevens(rt: HostRuntime) -> Result<(), Fail> {
    for (count, is_told, rest, fault, stands) in UNITS {
        compare_unit(&rt, count, is_told, rest, fault, &stands)?;
    }
    Ok(())
}
