//! How runs end, and what they leave.

use crate::images::{END_ENTRY, FILE_ENTRY, SECOND_REDO_ENTRY, formatted, put_at, with_entries};
use crate::lines::{LISTED, joined};
use crate::runs::{Given, answers, image_after, run};
use il_same::{same, same_bytes};
use std::alloc::Global;
use std::process::Abort;
use std::test::Fail;

/// A run ends with this status. It writes nothing, and leaves the image.
fn ends_early(rt: &impl Abort, alloc: Global, given: &Given, status: u8) -> Result<(), Fail> {
    let left = run(alloc, given)?;
    let words = given.words;
    assert!(rt;
        same(
            (left.status, left.output.len(), left.writes.is_empty()),
            (status, 0, true)
        ),
        "status {status} of {words}"
    );
    Ok(())
}

#[test]
fn words_that_are_refused(rt: HostRuntime) -> Result<(), Fail> {
    let alloc = rt.alloc();
    let image = formatted(alloc)?;
    let dir = Given::script(&image, b"dir\n");
    for words in [
        "",
        "-TAPE",
        "TAPE TAPE",
        "--help",
        "--lose 0 TAPE",
        "--lose 5 --alter 5:01 TAPE",
        "--new --new-disc TAPE",
    ] {
        ends_early(&rt, alloc, &dir.with_words(words), 2)?;
    }
    Ok(())
}

#[test]
fn an_early_ending_by_the_image_has_its_status_and_writes_nothing(
    rt: HostRuntime,
) -> Result<(), Fail> {
    let alloc = rt.alloc();
    let none = Given::without_image(b"dir\n", "--quiet TAPE");
    ends_early(&rt, alloc, &none, 3)?;
    let image = formatted(alloc)?;
    let other = Given::script(&image, b"dir\n").with_words("tape");
    ends_early(&rt, alloc, &other, 3)?;
    let long = vec![in alloc; 0; 630_785]?;
    ends_early(&rt, alloc, &Given::script(&long, b"dir\n"), 4)
}

#[test]
fn an_early_ending_by_a_call_has_its_status_and_writes_nothing(
    rt: HostRuntime,
) -> Result<(), Fail> {
    let alloc = rt.alloc();
    let image = formatted(alloc)?;
    let dir = Given::script(&image, b"dir\n");
    let first: &[u64] = &[1];
    let rows: [(Given, u8); 4] = [
        (
            Given {
                failing_takes: first,
                ..dir
            },
            5,
        ),
        (
            Given {
                failing_puts: first,
                ..dir
            },
            6,
        ),
        (Given { room: 0, ..dir }, 6),
        (
            Given {
                failing_inserts: first,
                ..dir
            },
            9,
        ),
    ];
    for (given, status) in &rows {
        ends_early(&rt, alloc, given, *status)?;
    }
    Ok(())
}

/// A run of `label` with these words, into a sink with so much room, ends with this status and this output.
fn fits_in(
    rt: &impl Abort,
    alloc: Global,
    (words, room): (&str, usize),
    status: u8,
    output: &[u8],
) -> Result<(), Fail> {
    let image = formatted(alloc)?;
    let given = Given {
        words,
        room,
        ..Given::script(&image, b"label")
    };
    answers(rt, alloc, &given, status, output)
}

#[test]
fn a_sink_takes_what_it_has_room_for(rt: HostRuntime) -> Result<(), Fail> {
    let alloc = rt.alloc();
    // The text of a reply is one piece, and so is a trace of few lines.
    fits_in(&rt, alloc, ("--quiet TAPE", 10), 6, b"")?;
    fits_in(&rt, alloc, ("--quiet TAPE", 16), 0, LABELLED)?;
    fits_in(&rt, alloc, ("TAPE", 40), 6, b"")
}

#[test]
fn a_sink_takes_the_first_piece_of_a_long_trace(rt: HostRuntime) -> Result<(), Fail> {
    let alloc = rt.alloc();
    let image = formatted(alloc)?;
    let traced = Given {
        room: 5000,
        ..Given::script(&image, b"label").with_words("TAPE")
    };
    let left = run(alloc, &traced)?;
    // Whole lines, as many as 4,096 bytes hold.
    let is_full = left.output.len() > 4055 && left.output.len() <= 4096;
    let is_whole = left.output.ends_with(b"\n");
    assert!(rt;
        same((left.status, is_full, is_whole), (6, true, true)),
        "the status, the length and the end of a long trace"
    );
    Ok(())
}

#[test]
fn a_long_comment_is_skipped(rt: HostRuntime) -> Result<(), Fail> {
    let alloc = rt.alloc();
    let image = formatted(alloc)?;
    let comment = vec![in alloc; b'#'; 262_144]?;
    ends_early(&rt, alloc, &Given::script(&image, &comment), 0)
}

/// Of two commands over a formatted volume the first has this fault, which is one of the medium.
fn ends_its_command(rt: &impl Abort, alloc: Global, failing_reads: &[u64]) -> Result<(), Fail> {
    let image = formatted(alloc)?;
    let wanted = joined(alloc, &[b"fault medium\n", LISTED])?;
    let given = Given {
        failing_reads,
        ..Given::script(&image, b"dir\ndir\n")
    };
    answers(rt, alloc, &given, 1, &wanted)
}

#[test]
fn a_fault_of_the_medium_ends_only_its_command(rt: HostRuntime) -> Result<(), Fail> {
    // One `dir` reads the gate, record 0 and one record of the directory.
    for fault in 1..=3 {
        ends_its_command(&rt, rt.alloc(), &[fault])?;
    }
    Ok(())
}

#[test]
fn a_run_changes_nothing_on_the_tape(rt: HostRuntime) -> Result<(), Fail> {
    let alloc = rt.alloc();
    let mut image = formatted(alloc)?;
    let left = image_after(alloc, &Given::script(&image, b"dir\nlist\ndir"))?;
    image.resize(131_072, 0)?;
    assert!(rt; same_bytes(&left, &image), "the image");
    Ok(())
}

#[test]
fn a_fault_cuts_off_the_line_that_it_meets(rt: HostRuntime) -> Result<(), Fail> {
    let alloc = rt.alloc();
    let image = formatted(alloc)?;
    let given = Given {
        failing_takes: &[2],
        piece: 7,
        ..Given::script(&image, b"dir\ndir")
    };
    answers(&rt, alloc, &given, 5, LISTED)
}

const LABELLED: &[u8] = b"label HPTAPE\nok\n";

/// A script in pieces of six bytes, of which these takes fail, has these replies. The tape is left or not.
fn is_cut_off<'x>(
    rt: &impl Abort,
    alloc: Global,
    tape: &'x [u8],
    script: &'x [u8],
    failing_takes: &'x [u64],
    output: &[u8],
    is_left: bool,
) -> Result<(), Fail> {
    let given = Given {
        failing_takes,
        piece: 6,
        ..Given::script(tape, script)
    };
    let left = run(alloc, &given)?;
    assert!(rt;
        same(
            (left.ended_with(5, output), left.writes.is_empty()),
            (true, is_left)
        ),
        "the output and the writes"
    );
    Ok(())
}

#[test]
fn complete_lines_before_a_fault_are_answered(rt: HostRuntime) -> Result<(), Fail> {
    let alloc = rt.alloc();
    let tape = with_entries(alloc, &[FILE_ENTRY, SECOND_REDO_ENTRY, END_ENTRY])?;
    let (label, batch) = (b"label\nlabel\n", b"label\nbegin\npurge A\ncommit\n");
    is_cut_off(&rt, alloc, &tape, label, &[2], LABELLED, true)?;
    // A batch is answered with the end of its last line.
    is_cut_off(&rt, alloc, &tape, batch, &[5], LABELLED, true)?;
    let output = b"label HPTAPE\nok\nok\n";
    is_cut_off(&rt, alloc, &tape, batch, &[6], output, false)
}

#[test]
fn a_script_of_the_greatest_length(rt: HostRuntime) -> Result<(), Fail> {
    let alloc = rt.alloc();
    let image = formatted(alloc)?;
    let feeds = vec![in alloc; b'\n'; 16_777_216]?;
    answers(&rt, alloc, &Given::script(&image, &feeds), 0, b"")
}

#[test]
fn a_script_has_a_greatest_length(rt: HostRuntime) -> Result<(), Fail> {
    let alloc = rt.alloc();
    let image = formatted(alloc)?;
    let mut script = vec![in alloc; b'\n'; 16_777_217]?;
    put_at(&mut script, 0, b"label\nbegin\n");
    answers(&rt, alloc, &Given::script(&image, &script), 8, LABELLED)
}
