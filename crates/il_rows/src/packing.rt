//! Packing: files move together, and a stop or a fault at any moment keeps each of them.

ghost use Rattle.std.specs.Prelude.{◌≤◌};

use crate::faults::stopped_at;
use crate::images::{foreign_with, formatted, put_at};
use crate::runs::{Given, answers, each_answers, image_after, nth_answers, run, words_with};
use il_same::{same, same_bytes};
use std::alloc::{AllocError, Global};
use std::process::Abort;
use std::test::Fail;

/// An entry of a file of one record that lies before the first program of a foreign volume.
const LOWER_ENTRY: &[u8] = b"LAST      \0\x01\0\0\0\x03\0\0\0\x01\0\0\0\0\0\0\x80\x01\0\0\0\0";

/// The bytes of so many records in hex, those of each another.
fn push_records(text: &mut Vec<u8>, count: u8) -> Result<(), AllocError> {
    for record in 0..count {
        for _ in 0..256 {
            text.push(b'0' + record / 10 % 10)?;
            text.push(b'0' + record % 10)?;
        }
    }
    Ok(())
}

/// A tape with a file B of so many records after one record of a purged file, and a file C after it.
fn with_gap(alloc: Global, count: u8) -> Result<Vec<u8>, Fail> {
    let tape = formatted(alloc)?;
    let mut script = Vec::from_slice(
        alloc,
        b"upgrade\nstore A 0001 00000000 41\nstore B 0001 00000000 ",
    )?;
    push_records(&mut script, count)?;
    script.extend_from_slice(b"\nstore C 0001 00000000 43\npurge A\n")?;
    image_after(alloc, &Given::script(&tape, &script))
}

/// This reply, and then that to a fetch of B.
fn then_fetched(alloc: Global, reply: &[u8], count: u8) -> Result<Vec<u8>, AllocError> {
    let mut output = Vec::from_slice(alloc, reply)?;
    output.extend_from_slice(b"data 0001 00000000 ")?;
    push_records(&mut output, count)?;
    output.extend_from_slice(b"\nok\n")?;
    Ok(output)
}

#[test]
fn files_move_together(rt: HostRuntime) -> Result<(), Fail> {
    let alloc = rt.alloc();
    let tape = with_gap(alloc, 40)?;
    answers(
        &rt,
        alloc,
        &Given::script(&tape, b"pack\ndir\npack\n"),
        0,
        b"packed 2 433\nok\nvolume HPTAPE 2 2 3 16\nfile B 0001 4 40 00000000\nfile C 0001 44 1 00000000\nfile REDOFILE E0D0 478 34 00000000\nok\npacked 0 433\nok\n",
    )
}

#[test]
fn what_is_not_packed(rt: HostRuntime) -> Result<(), Fail> {
    let alloc = rt.alloc();
    let tape = formatted(alloc)?;
    each_answers(
        &rt,
        alloc,
        &tape,
        &[
            (b"pack\n", 1, b"error 14 NeedsUpgrade\n"),
            (b"pack A\n", 1, b"error 1 BadLine\n"),
        ],
    )?;
    let blank = Given::script(&[0; 1024], b"pack\n");
    answers(&rt, alloc, &blank, 1, b"error 3 NotLif\n")
}

#[test]
fn files_out_of_order_are_not_packed(rt: HostRuntime) -> Result<(), Fail> {
    let alloc = rt.alloc();
    let mut crossed = foreign_with(alloc, LOWER_ENTRY)?;
    put_at(&mut crossed, 19, b"\x01");
    answers(
        &rt,
        alloc,
        &Given::script(&crossed, b"pack\nadopt\nupgrade\npack\n"),
        1,
        b"error 8 NoRedo\nok\nok\nerror 15 OutOfOrder\n",
    )
}

/// The writes of a packing of this tape, which are so many.
fn writes_of(
    rt: &impl Abort,
    alloc: Global,
    tape: &[u8],
    count: usize,
) -> Result<Vec<(u16, [u8; 256])>, Fail> {
    let writes = run(alloc, &Given::script(tape, b"pack\n"))?.writes;
    assert!(rt; same(writes.len(), count), "the writes");
    Ok(writes)
}

/// A stop within the last of these writes, before any of its bytes, leaves a file that is fetched so.
fn stops_at(
    rt: &impl Abort,
    alloc: Global,
    tape: &[u8],
    writes: &[(u16, [u8; 256])],
    wanted: &[u8],
) -> Result<(), Fail> {
    let image = stopped_at(alloc, tape, writes, &[0; 256])?;
    let given = Given::script(&image, b"fetch B\n");
    nth_answers(rt, alloc, writes.len(), &given, 0, wanted)
}

#[test]
fn a_stop_within_each_write_of_a_packing(rt: HostRuntime) -> Result<(), Fail> {
    let alloc = rt.alloc();
    let tape = with_gap(alloc, 40)?;
    let wanted = then_fetched(alloc, b"", 40)?;
    let writes = writes_of(&rt, alloc, &tape, 107)?;
    for write in 1..=107 {
        let made = writes.get(..write).unwrap_or(&[]);
        stops_at(&rt, alloc, &tape, made, &wanted)?;
    }
    Ok(())
}

/// A failure of this write leaves a file that is fetched so.
fn fails_at(
    rt: &impl Abort,
    alloc: Global,
    tape: &[u8],
    write: u64,
    wanted: &[u8],
) -> Result<(), Fail> {
    let given = Given {
        failing_writes: &[(write, [0; 256])],
        ..Given::script(tape, b"pack\nfetch B\n")
    };
    nth_answers(rt, alloc, write as usize, &given, 1, wanted)
}

#[test]
fn each_write_of_a_packing_fails(rt: HostRuntime) -> Result<(), Fail> {
    let alloc = rt.alloc();
    let tape = with_gap(alloc, 2)?;
    let wanted = then_fetched(alloc, b"fault medium\n", 2)?;
    writes_of(&rt, alloc, &tape, 26)?;
    for write in 1..=26 {
        fails_at(&rt, alloc, &tape, write, &wanted)?;
    }
    Ok(())
}

/// Whether a run with these words is past the last fault that a packing can have. Before it, the reply is this.
fn is_past(
    rt: &impl Abort,
    alloc: Global,
    tape: &[u8],
    words: &str,
    faulted: &[u8],
) -> Result<bool, Fail> {
    let given = Given::script(tape, b"pack\nfetch B\n").with_words(words);
    let left = run(alloc, &given)?;
    if left.output.starts_with(b"packed 2 471\nok\n") {
        return Ok(true);
    }
    assert!(rt; same_bytes(&left.output, faulted), "{words}");
    Ok(false)
}

/// How many of the crossings 1, 1 + step and so on a packing has. A fault at each of them keeps the files.
fn crossings_tried(
    rt: &impl Abort,
    alloc: Global,
    tape: &[u8],
    option: &str,
    change: &str,
    step: u64,
) -> Result<u64, Fail>
    requires { step ≤ 1000 }
{
    let faulted = then_fetched(alloc, b"fault frame\n", 2)?;
    for tried in 0..1000 {
        let words = words_with(alloc, option, step * tried + 1, change)?;
        if is_past(rt, alloc, tape, &words, &faulted)? {
            return Ok(tried);
        }
    }
    Ok(1000)
}

#[test]
fn a_packing_whose_frames_are_lost_or_altered_keeps_the_files(rt: HostRuntime) -> Result<(), Fail> {
    let alloc = rt.alloc();
    let tape = with_gap(alloc, 2)?;
    let lost = crossings_tried(&rt, alloc, &tape, "--lose ", "", 97)?;
    let altered = crossings_tried(&rt, alloc, &tape, "--alter ", ":01", 970)?;
    assert!(rt;
        same((lost, altered), (348, 35)),
        "the crossings lost and altered"
    );
    Ok(())
}

/// Scripts over a volume of which the file B is being moved, and the replies.
const FINISHED: [(&[u8], &[u8]); 7] = [
    (
        b"dir\n",
        b"volume HPTAPE 2 2 4 16\nfile B 0001 4 40 00000000\nfile C 0001 45 1 00000000\nfile REDOFILE E0D0 478 34 00000000\nok\n",
    ),
    (
        b"store D 0001 00000000 44\ndir\n",
        b"ok\nvolume HPTAPE 2 2 5 16\nfile B 0001 4 40 00000000\nfile C 0001 45 1 00000000\nfile D 0001 46 1 00000000\nfile REDOFILE E0D0 478 34 00000000\nok\n",
    ),
    (
        b"begin\nrename B D\npurge C\ncommit\ndir\n",
        b"ok\nvolume HPTAPE 2 2 4 16\nfile D 0001 4 40 00000000\nfile REDOFILE E0D0 478 34 00000000\nok\n",
    ),
    (
        b"put T 41\ndir\n",
        b"ok\nvolume HPTAPE 2 2 5 16\nfile B 0001 4 40 00000000\nfile C 0001 45 1 00000000\nfile T 0001 46 1 00000000\nfile REDOFILE E0D0 478 34 00000000\nok\n",
    ),
    (
        b"upgrade\ndir\n",
        b"ok\nvolume HPTAPE 2 2 4 16\nfile B 0001 4 40 00000000\nfile C 0001 45 1 00000000\nfile REDOFILE E0D0 478 34 00000000\nok\n",
    ),
    (b"label\n", b"label HPTAPE\nok\n"),
    (b"pack\n", b"packed 1 433\nok\n"),
];

/// A volume of which the file B is being moved.
fn being_moved(alloc: Global) -> Result<Vec<u8>, Fail> {
    let tape = with_gap(alloc, 40)?;
    let writes = run(alloc, &Given::script(&tape, b"pack\n"))?.writes;
    // Thirty records of B and the mark have become one commit, in sixty-five writes; the stop is within the next one.
    let made = writes.get(..66).ok_or("sixty-six writes")?;
    Ok(stopped_at(alloc, &tape, made, &[0; 256])?)
}

/// A script over a volume on which a file is being moved has this reply, and moves the rest.
fn finishes(
    rt: &impl Abort,
    alloc: Global,
    tape: &[u8],
    script: &[u8],
    output: &[u8],
) -> Result<(), Fail> {
    let left = run(alloc, &Given::script(tape, script))?;
    assert!(rt;
        same(
            (left.ended_with(0, output), left.writes.is_empty()),
            (true, false)
        ),
        "the output, and that the rest is moved"
    );
    Ok(())
}

#[test]
fn the_next_command_finishes_a_packing(rt: HostRuntime) -> Result<(), Fail> {
    let alloc = rt.alloc();
    let tape = being_moved(alloc)?;
    for (script, output) in FINISHED {
        finishes(&rt, alloc, &tape, script, output)?;
    }
    Ok(())
}
