//! What the words of the command line ask for.

use il_ports::New;
use il_ring::{PlanFault, Planned};
use il_same::same;
use il_words::{Generated, WordsFault, read_words};
use std::alloc::{AllocError, Global};
use std::fmt::Write;
use std::test::Fail;

/// What words ask for: the image, what is made where it is missing, the faults that are planned, whether the run is
/// quiet, whether a second controller is on the loop, and the script that is generated.
type Asked = (
    &'static str,
    New,
    &'static [Planned],
    bool,
    bool,
    Option<Generated>,
);

const LOST_AT_5: Planned = Planned {
    hop: 5,
    fault: PlanFault::Lose,
};

const LOST_AT_6: Planned = Planned {
    hop: 6,
    fault: PlanFault::Lose,
};

const LOST_LAST: Planned = Planned {
    hop: 999_999_999_999_999_999,
    fault: PlanFault::Lose,
};

const ALTERED_AT_5: Planned = Planned {
    hop: 5,
    fault: PlanFault::Alter(0x10),
};

const ALTERED_AT_30: Planned = Planned {
    hop: 30,
    fault: PlanFault::Alter(0x01),
};

const ALTERED_AT_34: Planned = Planned {
    hop: 34,
    fault: PlanFault::Alter(0xFF),
};

const MIXED: [Planned; 4] = [ALTERED_AT_5, LOST_AT_6, ALTERED_AT_30, ALTERED_AT_34];

/// Words, and what they ask for.
const RUNS: [(&str, Asked); 20] = [
    ("TAPE", ("TAPE", New::No, &[], false, false, None)),
    ("-- --x", ("--x", New::No, &[], false, false, None)),
    ("--quiet TAPE", ("TAPE", New::No, &[], true, false, None)),
    (
        "--new --quiet TAPE",
        ("TAPE", New::Tape, &[], true, false, None),
    ),
    (
        "TAPE --new-disc",
        ("TAPE", New::Disc, &[], false, false, None),
    ),
    ("--guest TAPE", ("TAPE", New::No, &[], false, true, None)),
    ("TAPE --guest", ("TAPE", New::No, &[], false, true, None)),
    ("-- --guest", ("--guest", New::No, &[], false, false, None)),
    (
        "--guest --quiet TAPE",
        ("TAPE", New::No, &[], true, true, None),
    ),
    (
        "--quiet TAPE --guest",
        ("TAPE", New::No, &[], true, true, None),
    ),
    (
        "--lose 6 --guest TAPE",
        ("TAPE", New::No, &[LOST_AT_6], false, true, None),
    ),
    (
        "--lose 6 TAPE",
        ("TAPE", New::No, &[LOST_AT_6], false, false, None),
    ),
    (
        "--lose=5 TAPE",
        ("TAPE", New::No, &[LOST_AT_5], false, false, None),
    ),
    (
        "--lose 6,5 TAPE",
        ("TAPE", New::No, &[LOST_AT_5, LOST_AT_6], false, false, None),
    ),
    (
        "--lose 999999999999999999 TAPE",
        ("TAPE", New::No, &[LOST_LAST], false, false, None),
    ),
    (
        "--alter 30:01,34:fF TAPE",
        (
            "TAPE",
            New::No,
            &[ALTERED_AT_30, ALTERED_AT_34],
            false,
            false,
            None,
        ),
    ),
    (
        "--alter 34:Ff,5:10,30:01 --lose 6 TAPE",
        ("TAPE", New::No, &MIXED, false, false, None),
    ),
    (
        "--generate 0:1 TAPE",
        (
            "TAPE",
            New::No,
            &[],
            false,
            false,
            Some(Generated { seed: 0, count: 1 }),
        ),
    ),
    (
        "--generate 1:8 --new TAPE",
        (
            "TAPE",
            New::Tape,
            &[],
            false,
            false,
            Some(Generated { seed: 1, count: 8 }),
        ),
    ),
    (
        "--generate 2147483647:10000 TAPE",
        (
            "TAPE",
            New::No,
            &[],
            false,
            false,
            Some(Generated {
                seed: 2_147_483_647,
                count: 10_000,
            }),
        ),
    ),
];

/// The words of a text, with a space between each two.
fn words_of(alloc: Global, text: &str) -> Result<Vec<String>, AllocError> {
    let mut words = Vec::new(alloc);
    if !text.is_empty() {
        for word in text.split(' ') {
            words.push(String::from_str(alloc, word)?)?;
        }
    }
    Ok(words)
}

#[test]
fn words_ask_for_a_run(rt: HostRuntime) -> Result<(), Fail> {
    for (text, asked) in RUNS {
        let words = words_of(rt.alloc(), text)?;
        let Ok(read) = read_words(rt.alloc(), words.as_slice()) else {
            assert!(rt; false, "{text}");
            continue;
        };
        let came = (
            read.image,
            read.made,
            read.plan.as_slice(),
            read.quiet,
            read.guest,
            read.generated,
        );
        assert!(rt; same(came, asked), "{text}");
    }
    Ok(())
}

/// Words that are none of a run.
const REFUSED: [&str; 46] = [
    "",
    "TAPE TAPE",
    "--new --new-disc TAPE",
    "--quiet --quiet TAPE",
    "--lose 5 --lose 6 TAPE",
    "--quiet= TAPE",
    "--help",
    "-h",
    "--version",
    "-V",
    "--quie TAPE",
    "--guest",
    "--guest --guest TAPE",
    "TAPE --guest --guest",
    "--guest= TAPE",
    "--guest=2 TAPE",
    "--guest 2 TAPE",
    "--gues TAPE",
    "-guest TAPE",
    "--lose TAPE",
    "--lose= TAPE",
    "--lose 0 TAPE",
    "--lose 05 TAPE",
    "--lose 5, TAPE",
    "--lose ,5 TAPE",
    "--lose 5x TAPE",
    "--lose -5 TAPE",
    "--lose 1000000000000000000 TAPE",
    "--lose 5,6,5 TAPE",
    "--lose 5 --alter 5:01 TAPE",
    "--alter 30:00 TAPE",
    "--alter 30:1 TAPE",
    "--alter 30:001 TAPE",
    "--alter 30:0g TAPE",
    "--alter 30:01:01 TAPE",
    "--alter 30 TAPE",
    "--alter :01 TAPE",
    "--alter 030:01 TAPE",
    "--generate 01:8 TAPE",
    "--generate 00:8 TAPE",
    "--generate 1:0 TAPE",
    "--generate 1:08 TAPE",
    "--generate 1:10001 TAPE",
    "--generate 2147483648:1 TAPE",
    "--generate 1 TAPE",
    "--generate 1:8:8 TAPE",
];

#[test]
fn other_words_are_refused(rt: HostRuntime) -> Result<(), Fail> {
    for text in REFUSED {
        let words = words_of(rt.alloc(), text)?;
        match read_words(rt.alloc(), words.as_slice()) {
            Ok(_) => assert!(rt; false, "{text}"),
            Err(fault) => assert!(rt; same(fault, WordsFault::Refused), "{text}"),
        }
    }
    Ok(())
}

/// The numbers from 1 to the last one, separated by commas.
fn numbers_to(alloc: Global, last: u8) -> Result<String, Fail> {
    let mut list = String::from_str(alloc, "1")?;
    for number in 2..=last {
        write!(list, ",{number}")?;
    }
    Ok(list)
}

#[test]
fn a_list_has_at_most_64_items(rt: HostRuntime) -> Result<(), Fail> {
    let alloc = rt.alloc();
    for (last, planned) in [(64, Some(64)), (65, None)] {
        let mut words = words_of(alloc, "TAPE --lose")?;
        words.push(numbers_to(alloc, last)?)?;
        let read = match read_words(alloc, words.as_slice()) {
            Ok(read) => Some(read.plan.len()),
            Err(_) => None,
        };
        assert!(rt; same(read, planned), "{last} items");
    }
    Ok(())
}
