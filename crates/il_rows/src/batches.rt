//! Several changes at once: a batch has one reply, and counts whole or not at all.

use crate::faults::Change;
use crate::images::{
    END_ENTRY, FILE_ENTRY, HEADER, OPEN_GATE, REDO_ENTRY, SECOND_REDO_ENTRY, formatted, image_of,
    put_at,
};
use crate::lines::{joined, repeated};
use crate::runs::{Given, answers, each_answers, image_after, run};
use il_same::same;
use std::alloc::{AllocError, Global};
use std::process::Abort;
use std::test::Fail;

/// A volume that takes batches, with no file but the redo file.
pub(crate) fn upgraded(alloc: Global) -> Result<Vec<u8>, Fail> {
    let tape = formatted(alloc)?;
    image_after(alloc, &Given::script(&tape, b"upgrade\n"))
}

/// Batches that lines spoil: by a command that is no part, and by thirty-two parts.
const SPOILT: &[u8] = b"\
upgrade\n\
store A 0001 00000000 41\n\
begin\n\
dir\n\
commit\n\
begin\n\
purge A\npurge A\npurge A\npurge A\npurge A\npurge A\npurge A\npurge A\n\
purge A\npurge A\npurge A\npurge A\npurge A\npurge A\npurge A\npurge A\n\
purge A\npurge A\npurge A\npurge A\npurge A\npurge A\npurge A\npurge A\n\
purge A\npurge A\npurge A\npurge A\npurge A\npurge A\npurge A\npurge A\n\
commit\n\
begin\n\
commit\n\
dir\n";

/// Scripts of batches on a formatted volume, the statuses, and the replies.
const BATCHES: [(&[u8], u8, &[u8]); 4] = [
    (
        b"upgrade\nbegin\nstore A 0001 00000000 41\nrename A B\nstore A 0001 00000000 42\npurge B\ncommit\ndir\n",
        0,
        b"ok\nok\nvolume HPTAPE 2 2 3 16\nfile A 0001 5 1 00000000\nfile REDOFILE E0D0 478 34 00000000\nok\n",
    ),
    (
        b"begin\npurge A\ncommit\nupgrade\nstore A 0001 00000000 41\nbegin\npurge A\n# again\n\npurge A\ncommit\ndir\n",
        1,
        b"error 14 NeedsUpgrade\nok\nok\nerror 4 NoFile\nvolume HPTAPE 2 2 2 16\nfile A 0001 4 1 00000000\nfile REDOFILE E0D0 478 34 00000000\nok\n",
    ),
    (
        b"upgrade\nbegin\nstore A 0001 00000000 41\ncommit\nbegin\ncommit\npurge A\nbegin\ncommit\ndir\n",
        0,
        b"ok\nok\nok\nok\nok\nvolume HPTAPE 2 2 2 16\nfile REDOFILE E0D0 478 34 00000000\nok\n",
    ),
    (
        SPOILT,
        1,
        b"ok\nok\nerror 1 BadLine\nerror 13 BatchTooLarge\nok\nvolume HPTAPE 2 2 2 16\nfile A 0001 4 1 00000000\nfile REDOFILE E0D0 478 34 00000000\nok\n",
    ),
];

#[test]
fn a_batch_has_one_reply(rt: HostRuntime) -> Result<(), Fail> {
    let alloc = rt.alloc();
    let tape = formatted(alloc)?;
    each_answers(&rt, alloc, &tape, &BATCHES)
}

/// A batch of a part, these lines, two that are no parts either, on a volume that takes batches: it has this reply
/// alone, and leaves no file.
fn is_spoilt(
    rt: &impl Abort,
    alloc: Global,
    tape: &[u8],
    lines: &[u8],
    reply: &[u8],
) -> Result<(), Fail> {
    let begin = b"begin\nstore A 0001 00000000 41\n";
    let commit = b"\nrename A a\nlist\ncommit\nfetch A\n";
    let script = joined(alloc, &[begin, lines, commit])?;
    let wanted = joined(alloc, &[reply, b"error 4 NoFile\n"])?;
    answers(rt, alloc, &Given::script(tape, &script), 1, &wanted)
}

#[test]
fn the_first_line_that_is_no_part_spoils_a_batch(rt: HostRuntime) -> Result<(), Fail> {
    let alloc = rt.alloc();
    let tape = upgraded(alloc)?;
    for lines in [
        b"dir".as_slice(),
        b"begin",
        b"put A 41",
        b"upgrade",
        b"paper",
        b"purge",
    ] {
        is_spoilt(&rt, alloc, &tape, lines, b"error 1 BadLine\n")?;
    }
    is_spoilt(&rt, alloc, &tape, b"rename A b", b"error 9 BadName\n")
}

#[test]
fn a_line_that_is_too_long_spoils_a_batch(rt: HostRuntime) -> Result<(), Fail> {
    let alloc = rt.alloc();
    let tape = upgraded(alloc)?;
    let line = vec![in alloc; b'A'; 1_261_569]?;
    is_spoilt(&rt, alloc, &tape, &line, b"error 2 LineTooLong\n")
}

#[test]
fn parts_or_bytes_too_many_spoil_a_batch(rt: HostRuntime) -> Result<(), Fail> {
    let alloc = rt.alloc();
    let tape = upgraded(alloc)?;
    let parts = repeated(alloc, b"", (31, b"purge B\n"), b"dir")?;
    is_spoilt(&rt, alloc, &tape, &parts, b"error 13 BatchTooLarge\n")?;
    // With the byte of the first part one more than a batch has.
    let last = b"\nstore C 0001 00000000 4142434445464748494A4B";
    let bytes = repeated(alloc, b"store B 0001 00000000 ", (630_773, b"44"), last)?;
    is_spoilt(&rt, alloc, &tape, &bytes, b"error 13 BatchTooLarge\n")
}

#[test]
fn a_batch_that_is_not_begun_or_not_ended_is_a_bad_line(rt: HostRuntime) -> Result<(), Fail> {
    let alloc = rt.alloc();
    let tape = upgraded(alloc)?;
    each_answers(
        &rt,
        alloc,
        &tape,
        &[
            (
                b"commit\nlabel\n",
                1,
                b"error 1 BadLine\nlabel HPTAPE\nok\n",
            ),
            (
                b"label\nbegin\npurge A\n",
                1,
                b"label HPTAPE\nok\nerror 1 BadLine\n",
            ),
            (b"begin\ndir\nlabel", 1, b"error 1 BadLine\n"),
        ],
    )
}

/// After a stop the volume is listed so: with this redo entry, an open gate, a list of one target in this version, and
/// its data at the place of the second version.
fn lists(
    rt: &impl Abort,
    alloc: Global,
    entry: &[u8],
    version: &[u8],
    output: &[u8],
) -> Result<(), Fail> {
    let mut tape = image_of(
        alloc,
        &[
            (0, &[HEADER]),
            (2, &[REDO_ENTRY, END_ENTRY]),
            (478, &[FILE_ENTRY, SECOND_REDO_ENTRY, END_ENTRY]),
            (508, &[OPEN_GATE]),
            (509, &[b"LIFREDO1\0\x01\0\x02"]),
            (512, &[]),
        ],
    )?;
    put_at(&mut tape, 512, entry);
    put_at(&mut tape, 256 * 509, version);
    answers(rt, alloc, &Given::script(&tape, b"dir\n"), 0, output)
}

#[test]
fn the_targets_tell_where_their_data_is(rt: HostRuntime) -> Result<(), Fail> {
    let alloc = rt.alloc();
    let listed =
        b"volume HPTAPE 2 2 2 16\nfile A 0001 4 1 00000000\nfile REDOFILE E0D0 478 34 00000000\nok\n";
    let zeros = b"volume HPTAPE 2 2 16 16\nok\n";
    // With the redo entry of the second version, and with that of the first.
    for entry in [SECOND_REDO_ENTRY, REDO_ENTRY] {
        lists(&rt, alloc, entry, b"LIFREDO2", listed)?;
        lists(&rt, alloc, entry, b"LIFREDO1", zeros)?;
    }
    Ok(())
}

const PARTS: &[u8] =
    b"begin\nstore A 0001 00000000 41\nstore B 0001 00000000 42\nrename A C\ncommit\ndir\n";

/// A batch of two files on this tape.
pub(crate) fn batch_on<'a>(tape: &'a [u8]) -> Change<'a> {
    Change {
        tape,
        script: PARTS,
        without: b"volume HPTAPE 2 2 1 16\nfile REDOFILE E0D0 478 34 00000000\nok\n",
        with: b"volume HPTAPE 2 2 3 16\nfile C 0001 4 1 00000000\nfile B 0001 5 1 00000000\nfile REDOFILE E0D0 478 34 00000000\nok\n",
        making: 5,
    }
}

#[test]
fn a_batch_whose_frames_are_lost_or_altered_counts_as_one(rt: HostRuntime) -> Result<(), Fail> {
    let alloc = rt.alloc();
    let tape = upgraded(alloc)?;
    // One write more than the store of a file.
    batch_on(&tape).has_crossings(&rt, alloc, 87)
}

#[test]
fn each_write_of_a_batch_fails_or_stops(rt: HostRuntime) -> Result<(), Fail> {
    let alloc = rt.alloc();
    let tape = upgraded(alloc)?;
    let batch = batch_on(&tape);
    let writes = run(alloc, &Given::script(&tape, PARTS))?.writes;
    // Two files, the record of the directory, the targets, the gate, the directory and the gate again.
    assert!(rt; same(writes.len(), 7), "the writes");
    batch.fails_at_each(&rt, alloc, 7)?;
    batch.stops_at_each(&rt, alloc, &writes)
}
