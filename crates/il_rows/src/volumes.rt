//! What the commands of a volume answer, one after the other.

use crate::images::{END_ENTRY, REDO_ENTRY, foreign_with, formatted, on_a_disc, with_redo};
use crate::lines::{LISTED, joined, repeated};
use crate::runs::{Given, answers, formatted_answers, run, run_formatted};
use il_same::same;
use std::alloc::{AllocError, Global};
use std::process::Abort;
use std::test::Fail;

/// The line that stores a file of so many bytes A.
fn store_line(alloc: Global, name: &[u8], count: usize) -> Result<Vec<u8>, AllocError> {
    let first = joined(alloc, &[b"store ", name, b" 0001 00000000 "])?;
    repeated(alloc, &first, (count, b"41"), b"\n")
}

#[test]
fn a_new_tape_is_formatted(rt: HostRuntime) -> Result<(), Fail> {
    let alloc = rt.alloc();
    // All but the redo file, which keeps what was written there.
    let mut wanted = formatted(alloc)?;
    wanted.resize(508 * 256, 0)?;
    let given = Given::without_image(b"dir\nformat HPTAPE 16\ndir\n", "--new --quiet TAPE");
    let left = run(alloc, &given)?;
    let output =
        b"error 3 NotLif\nok\nvolume HPTAPE 2 2 1 16\nfile REDOFILE E0D0 508 4 00000000\nok\n";
    assert!(rt;
        same(
            (left.ended_with(1, output), left.part(0, 508 * 256)),
            (true, Some(wanted.as_slice()))
        ),
        "the output and the image"
    );
    Ok(())
}

#[test]
fn a_file_comes_back_in_whole_records(rt: HostRuntime) -> Result<(), Fail> {
    let alloc = rt.alloc();
    let listed =
        b"\nok\nvolume HPTAPE 2 2 2 16\nfile A 0001 4 1 00000000\nfile REDOFILE E0D0 508 4 00000000\nok\n";
    let wanted = repeated(alloc, b"ok\ndata 0001 00000000 4142", (508, b"0"), listed)?;
    let script = b"store A 0001 00000000 4142\nfetch A\ndir\n";
    formatted_answers(&rt, alloc, script, 0, &wanted)
}

/// The first part, and so many bytes, 0 to 250 over and over, as hex digits.
fn rising_hex(alloc: Global, first: &[u8], count: usize) -> Result<Vec<u8>, AllocError> {
    let digits = b"0123456789ABCDEF";
    let mut text = Vec::from_slice(alloc, first)?;
    for k in 0..count {
        let byte = k % 251;
        text.push(digits[byte / 16])?;
        text.push(digits[byte % 16])?;
    }
    Ok(text)
}

/// The image after the store of a file A of 700 bytes.
fn stored(rt: &impl Abort, alloc: Global) -> Result<Vec<u8>, Fail> {
    let script = rising_hex(alloc, b"store A E080 01020304 ", 700)?;
    let left = run_formatted(alloc, "--quiet TAPE", &script)?;
    assert!(rt; left.ended_with(0, b"ok\n"), "the store");
    Ok(left.image.ok_or("an image")?)
}

#[test]
fn a_file_is_on_the_tape_as_it_was_stored(rt: HostRuntime) -> Result<(), Fail> {
    let alloc = rt.alloc();
    let image = stored(&rt, alloc)?;
    // Three records, of which the last one ends in 68 zeros.
    let data = rising_hex(alloc, b"data E080 01020304 ", 700)?;
    let wanted = repeated(alloc, &data, (136, b"0"), b"\nok\n")?;
    answers(&rt, alloc, &Given::script(&image, b"fetch A\n"), 0, &wanted)
}

#[test]
fn files_lie_one_behind_the_other(rt: HostRuntime) -> Result<(), Fail> {
    let alloc = rt.alloc();
    let first = store_line(alloc, b"Y", 256)?;
    let second = store_line(alloc, b"X", 257)?;
    let script = joined(
        alloc,
        &[b"store Z 0001 00000000 -\n", &first, &second, b"dir\n"],
    )?;
    formatted_answers(
        &rt,
        alloc,
        &script,
        0,
        b"ok\nok\nok\nvolume HPTAPE 2 2 4 16\nfile Z 0001 4 1 00000000\nfile Y 0001 5 1 00000000\nfile X 0001 6 2 00000000\nfile REDOFILE E0D0 508 4 00000000\nok\n",
    )
}

/// On a new tape with eight slots the store of a file of so many bytes, and a listing, end with this status and output.
fn fills_a_tape(
    rt: &impl Abort,
    alloc: Global,
    count: usize,
    status: u8,
    output: &[u8],
) -> Result<(), Fail> {
    let first = b"format HPTAPE 8\nstore A 0001 00000000 ";
    let script = repeated(alloc, first, (count, b"41"), b"\ndir\n")?;
    let given = Given::without_image(&script, "--new --quiet TAPE");
    answers(rt, alloc, &given, status, output)
}

#[test]
fn one_file_may_fill_the_tape(rt: HostRuntime) -> Result<(), Fail> {
    let alloc = rt.alloc();
    let filled =
        b"ok\nok\nvolume HPTAPE 2 1 2 8\nfile A 0001 3 505 00000000\nfile REDOFILE E0D0 508 4 00000000\nok\n";
    fills_a_tape(&rt, alloc, 129_280, 0, filled)?;
    let refused =
        b"ok\nerror 7 NoRoom\nvolume HPTAPE 2 1 1 8\nfile REDOFILE E0D0 508 4 00000000\nok\n";
    fills_a_tape(&rt, alloc, 129_281, 1, refused)
}

#[test]
fn a_tape_of_another_make_is_adopted(rt: HostRuntime) -> Result<(), Fail> {
    let alloc = rt.alloc();
    let tape = foreign_with(alloc, b"")?;
    let wanted = repeated(
        alloc,
        b"volume %20 2 2 1 16\nfile PROG1 E080 4 2 00000180\nok\ndata E080 00000180 ",
        (512, b"11"),
        b"\nok\nerror 8 NoRedo\nok\nok\nvolume %20 2 2 3 16\nfile PROG1 E080 4 2 00000180\nfile X 0001 6 1 00000000\nfile REDOFILE E0D0 508 4 00000000\nok\n",
    )?;
    answers(
        &rt,
        alloc,
        &Given::script(
            &tape,
            b"dir\nfetch PROG1\nstore X 0001 00000000 58\nadopt\nstore X 0001 00000000 58\ndir\n",
        ),
        1,
        &wanted,
    )
}

#[test]
fn a_file_in_the_way_is_in_use(rt: HostRuntime) -> Result<(), Fail> {
    let alloc = rt.alloc();
    let last = b"LAST      \xE0\x80\0\0\x01\xFF\0\0\0\x01\0\0\0\0\0\0\x80\x01\0\0\0\0";
    let tape = foreign_with(alloc, last)?;
    answers(
        &rt,
        alloc,
        &Given::script(&tape, b"adopt\nformat HPTAPE 8\n"),
        1,
        b"error 10 InUse\nerror 10 InUse\n",
    )
}

/// The lines that store files F1, F2 and so on up to this digit, of one byte each, and these after them.
fn numbered_files(alloc: Global, last: u8, end: &[u8]) -> Result<Vec<u8>, AllocError> {
    let mut script = Vec::new(alloc);
    for number in b'1'..=last {
        script.extend_from_slice(&store_line(alloc, &[b'F', number], 1)?)?;
    }
    script.extend_from_slice(end)?;
    Ok(script)
}

/// The replies to the scripts that store six files and seven.
const SIX_FILES: &[u8] =
    b"ok\nok\nok\nok\nok\nok\nvolume HPTAPE 2 2 7 16\nfile F1 0001 4 1 00000000\nfile F2 0001 5 1 00000000\nfile F3 0001 6 1 00000000\nfile F4 0001 7 1 00000000\nfile F5 0001 8 1 00000000\nfile F6 0001 9 1 00000000\nfile REDOFILE E0D0 508 4 00000000\nok\n";

const SEVEN_FILES: &[u8] =
    b"ok\nok\nok\nok\nok\nok\nok\nvolume HPTAPE 2 2 8 16\nfile F1 0001 4 1 00000000\nfile F2 0001 5 1 00000000\nfile F3 0001 6 1 00000000\nfile F4 0001 7 1 00000000\nfile F5 0001 8 1 00000000\nfile F6 0001 9 1 00000000\nfile F7 0001 10 1 00000000\nfile REDOFILE E0D0 508 4 00000000\nok\n";

/// A formatted volume with these bytes in the slots of record 3.
fn with_old_bytes(alloc: Global, old: u8) -> Result<Vec<u8>, AllocError> {
    let mut tape = formatted(alloc)?;
    tape.truncate(768);
    tape.resize(1024, old)?;
    Ok(tape)
}

/// The stores of the files up to this digit, over old bytes, and a listing have this output. From this slot on the
/// directory has then these.
fn leaves_slots(
    rt: &impl Abort,
    alloc: Global,
    (last, old): (u8, u8),
    output: &[u8],
    slot: usize,
    slots: &[u8],
) -> Result<(), Fail> {
    let tape = with_old_bytes(alloc, old)?;
    let script = numbered_files(alloc, last, b"dir\n")?;
    let left = run(alloc, &Given::script(&tape, &script))?;
    let from = slot.saturating_mul(32).saturating_add(512);
    let found = left.part(from, from.saturating_add(slots.len()));
    assert!(rt;
        same((left.ended_with(0, output), found), (true, Some(slots))),
        "the output and the slots, over {old}"
    );
    Ok(())
}

#[test]
fn the_redo_entry_moves_behind_new_files(rt: HostRuntime) -> Result<(), Fail> {
    let alloc = rt.alloc();
    // Zeros in the slots of record 3, and then old bytes.
    for old in [0, 0x33] {
        let six = joined(alloc, &[REDO_ENTRY, END_ENTRY])?;
        leaves_slots(&rt, alloc, (b'6', old), SIX_FILES, 6, &six)?;
        // The slot after the redo entry ends the directory, and its other bytes stay.
        let (front, back) = ([old; 10], [old; 20]);
        let seven = joined(alloc, &[REDO_ENTRY, &front, b"\xFF\xFF", &back])?;
        leaves_slots(&rt, alloc, (b'7', old), SEVEN_FILES, 7, &seven)?;
    }
    Ok(())
}

#[test]
fn a_purged_slot_is_used_again(rt: HostRuntime) -> Result<(), Fail> {
    let alloc = rt.alloc();
    let again = b"purge F2\nstore F8 0001 00000000 41\ndir\n";
    let stores = numbered_files(alloc, b'8', again)?;
    let script = joined(alloc, &[b"format HPTAPE 8\n", &stores])?;
    answers(
        &rt,
        alloc,
        &Given::script(&[], &script),
        1,
        b"ok\nok\nok\nok\nok\nok\nok\nok\nerror 6 NoSlot\nok\nok\nvolume HPTAPE 2 1 8 8\nfile F1 0001 3 1 00000000\nfile F8 0001 4 1 00000000\nfile F3 0001 5 1 00000000\nfile F4 0001 6 1 00000000\nfile F5 0001 7 1 00000000\nfile F6 0001 8 1 00000000\nfile F7 0001 9 1 00000000\nfile REDOFILE E0D0 508 4 00000000\nok\n",
    )
}

#[test]
fn a_gap_takes_what_fits_between_its_neighbours(rt: HostRuntime) -> Result<(), Fail> {
    let alloc = rt.alloc();
    let behind = store_line(alloc, b"C", 128_512)?;
    let too_long = store_line(alloc, b"D", 257)?;
    let script = joined(
        alloc,
        &[
            b"store A 0001 00000000 41\nstore B 0001 00000000 41\n",
            &behind,
            b"purge A\npurge B\n",
            &too_long,
            b"store D 0001 00000000 41\ndir\n",
        ],
    )?;
    formatted_answers(
        &rt,
        alloc,
        &script,
        1,
        b"ok\nok\nok\nok\nok\nerror 7 NoRoom\nok\nvolume HPTAPE 2 2 4 16\nfile D 0001 4 1 00000000\nfile C 0001 6 502 00000000\nfile REDOFILE E0D0 508 4 00000000\nok\n",
    )
}

#[test]
fn each_refusal_has_its_code(rt: HostRuntime) -> Result<(), Fail> {
    formatted_answers(
        &rt,
        rt.alloc(),
        b"fetch B\nstore A 0001 00000000 41\nstore A 0001 00000000 41\nrename A A\nrename A REDOFILE\nrename B C\npurge REDOFILE\nfetch REDOFILE\nstore a 0001 00000000 41\nfetch ABCDEFGHIJK\npurge A\npurge A\n",
        1,
        b"error 4 NoFile\nok\nerror 5 Exists\nok\nerror 11 Protected\nerror 4 NoFile\nerror 11 Protected\nerror 11 Protected\nerror 9 BadName\nerror 9 BadName\nok\nerror 4 NoFile\n",
    )
}

#[test]
fn lines_that_are_no_commands(rt: HostRuntime) -> Result<(), Fail> {
    let alloc = rt.alloc();
    let lines = b"store A 0001 00000000 414\nstore A FFFF 00000000 41\nlist\n";
    let script = repeated(alloc, lines, (1_261_569, b"A"), b"\nlabel")?;
    formatted_answers(
        &rt,
        alloc,
        &script,
        1,
        b"error 1 BadLine\nerror 1 BadLine\nerror 1 BadLine\nerror 2 LineTooLong\nlabel HPTAPE\nok\n",
    )
}

/// The replies to the formatting of a disc and a `dir` after it.
const NEW_DISC: &[u8] = b"ok\nvolume HPDISC 2 16 1 128\nfile REDOFILE E0D0 2460 4 00000000\nok\n";

/// How many bytes are stored on a new disc, the status, and the replies to the store and to a `dir` after it.
const ON_A_DISC: [(usize, u8, &[u8]); 2] = [
    (
        625_152,
        0,
        b"ok\nvolume HPDISC 2 16 2 128\nfile A 0001 18 2442 00000000\nfile REDOFILE E0D0 2460 4 00000000\nok\n",
    ),
    (
        625_153,
        1,
        b"error 7 NoRoom\nvolume HPDISC 2 16 1 128\nfile REDOFILE E0D0 2460 4 00000000\nok\n",
    ),
];

/// The store of a file of so many bytes on a new disc has this status and these replies. The header has the geometry.
fn fills_a_disc(
    rt: &impl Abort,
    alloc: Global,
    count: usize,
    status: u8,
    replies: &[u8],
) -> Result<(), Fail> {
    let first = b"format HPDISC 128\ndir\nstore A 0001 00000000 ";
    let script = repeated(alloc, first, (count, b"41"), b"\ndir\n")?;
    let given = Given::without_image(&script, "--new-disc --quiet TAPE");
    let left = run(alloc, &given)?;
    let found = left.output.strip_prefix(NEW_DISC);
    let geometry = b"\0\0\0\x4D\0\0\0\x02\0\0\0\x10".as_slice();
    assert!(rt;
        same(
            (left.status, found, left.part(24, 36)),
            (status, Some(replies), Some(geometry))
        ),
        "the replies and the geometry for {count} bytes"
    );
    Ok(())
}

#[test]
fn a_disc_has_more_room(rt: HostRuntime) -> Result<(), Fail> {
    let alloc = rt.alloc();
    for (count, status, replies) in ON_A_DISC {
        fills_a_disc(&rt, alloc, count, status, replies)?;
    }
    Ok(())
}

#[test]
fn a_byte_more_than_a_tape_is_a_disc(rt: HostRuntime) -> Result<(), Fail> {
    let alloc = rt.alloc();
    formatted_answers(&rt, alloc, b"format HPTAPE 4049\n", 1, b"error 7 NoRoom\n")?;
    let disc = on_a_disc(alloc)?;
    let wanted = joined(alloc, &[LISTED, b"error 8 NoRedo\nerror 5 Exists\n"])?;
    answers(
        &rt,
        alloc,
        &Given::script(&disc, b"dir\nstore A 0001 00000000 41\nadopt\n"),
        1,
        &wanted,
    )
}

/// Scripts over a volume whose open redo puts the file A there, the status, and the replies.
const SETTLED: [(&[u8], u8, &[u8]); 5] = [
    (
        b"dir\n",
        0,
        b"volume HPTAPE 2 2 2 16\nfile A 0001 4 1 00000000\nfile REDOFILE E0D0 508 4 00000000\nok\n",
    ),
    (
        b"upgrade\ndir\n",
        0,
        b"ok\nvolume HPTAPE 2 2 2 16\nfile A 0001 4 1 00000000\nfile REDOFILE E0D0 478 34 00000000\nok\n",
    ),
    (
        b"put T 41\ndir\n",
        0,
        b"ok\nvolume HPTAPE 2 2 3 16\nfile A 0001 4 1 00000000\nfile T 0001 5 1 00000000\nfile REDOFILE E0D0 508 4 00000000\nok\n",
    ),
    (b"begin\npurge A\ncommit\n", 1, b"error 14 NeedsUpgrade\n"),
    (b"pack\n", 1, b"error 14 NeedsUpgrade\n"),
];

/// A script over this volume has this status and this output, and leaves the gate of the redo file closed.
fn closes_the_gate(
    rt: &impl Abort,
    alloc: Global,
    open: &[u8],
    script: &[u8],
    status: u8,
    output: &[u8],
) -> Result<(), Fail> {
    let left = run(alloc, &Given::script(open, script))?;
    let gate = left.part(508 * 256, 509 * 256);
    assert!(rt;
        same(
            (left.ended_with(status, output), gate),
            (true, Some([0; 256].as_slice()))
        ),
        "the output and the gate"
    );
    Ok(())
}

#[test]
fn an_open_redo_is_settled_first(rt: HostRuntime) -> Result<(), Fail> {
    let alloc = rt.alloc();
    let open = with_redo(alloc, b"LIFREDO1 OPEN   ", 1)?;
    for (script, status, output) in SETTLED {
        closes_the_gate(&rt, alloc, &open, script, status, output)?;
    }
    Ok(())
}

#[test]
fn another_sixteenth_byte_closes_the_gate(rt: HostRuntime) -> Result<(), Fail> {
    let alloc = rt.alloc();
    let closed = with_redo(alloc, b"LIFREDO1 OPEN  X", 1)?;
    answers(&rt, alloc, &Given::script(&closed, b"dir\n"), 0, LISTED)
}

#[test]
fn three_targets_are_not_valid(rt: HostRuntime) -> Result<(), Fail> {
    let alloc = rt.alloc();
    let invalid = with_redo(alloc, b"LIFREDO1 OPEN   ", 3)?;
    let wanted = joined(alloc, &[LISTED, b"ok\n"])?;
    answers(
        &rt,
        alloc,
        &Given::script(&invalid, b"dir\nstore B 0001 00000000 42\n"),
        0,
        &wanted,
    )
}
