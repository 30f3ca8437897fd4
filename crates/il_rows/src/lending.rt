//! Lends of the loop to a second controller: what is told of them, and that they leave the tape as it is.

use crate::images::formatted;
use crate::lines::{joined, put_number};
use crate::runs::{
    Behind, Given, Left, answers, image_after, nth_answers, run, run_formatted, words_with,
};
use il_same::{same, same_bytes};
use std::alloc::{AllocError, Global};
use std::process::Abort;
use std::test::Fail;

/// The frames of a first `lend 10` and its reply, over a drive, a printer and a second controller.
const LENT_TRACE: &[u8] =
    b"~ 0 IFC = IFC\n~ 0 RFC = RFC\n~ 0 AAU = AAU\n~ 0 RFC = RFC\n~ 0 AAD 01 = AAD 04\n~ 0 UNL = UNL\n~ 0 RFC = RFC\n~ 0 TAD 03 = TAD 03\n~ 0 RFC = RFC\n~ 0 TCT > 3\n~ 3 NOP = NOP\n~ 3 RFC = RFC\n~ 3 UNL = UNL\n~ 3 RFC = RFC\n~ 3 TAD 01 = TAD 01\n~ 3 RFC = RFC\n~ 3 SST > 1\n~ 3 NRD = NRD\n~ 1 DAB 00 = DAB 00\n~ 1 ETO > 3\n~ 3 UNT > 0\n~ 0 IFC = IFC\n~ 0 RFC = RFC\nguest 1 00\nguest 2 --\nok\n";

/// The frames of a first `lend` and its reply, over a drive and a printer.
const REFUSED_TRACE: &[u8] =
    b"~ 0 IFC = IFC\n~ 0 RFC = RFC\n~ 0 AAU = AAU\n~ 0 RFC = RFC\n~ 0 AAD 01 = AAD 03\n~ 0 UNL = UNL\n~ 0 RFC = RFC\n~ 0 TAD 02 = TAD 02\n~ 0 RFC = RFC\n~ 0 TCT = TCT\n~ 0 UNT = UNT\n~ 0 RFC = RFC\nerror 17 NoTaker\n";

#[test]
fn the_frames_of_a_lend(rt: HostRuntime) -> Result<(), Fail> {
    let alloc = rt.alloc();
    let tape = formatted(alloc)?;
    for (words, script, status, output) in [
        ("--guest TAPE", b"lend 10\n".as_slice(), 0, LENT_TRACE),
        ("TAPE", b"lend 1\n", 1, REFUSED_TRACE),
        (
            "--guest --quiet TAPE",
            b"lend 4096\ndir\n",
            0,
            b"guest 1 00\nguest 2 00\nok\nvolume HPTAPE 2 2 1 16\nfile REDOFILE E0D0 508 4 00000000\nok\n",
        ),
    ] {
        let given = Given::script(&tape, script).with_words(words);
        answers(&rt, alloc, &given, status, output)?;
    }
    Ok(())
}

/// Nobody takes control of a loop of the drive and this device, with these words.
fn refuses(rt: &impl Abort, alloc: Global, behind: Behind, words: &str) -> Result<(), Fail> {
    let tape = formatted(alloc)?;
    answers(
        rt,
        alloc,
        &Given {
            behind,
            guest: false,
            ..Given::script(&tape, b"lend 1\nlend 4096\n").with_words(words)
        },
        1,
        b"error 17 NoTaker\nerror 17 NoTaker\n",
    )
}

#[test]
fn nobody_takes_control(rt: HostRuntime) -> Result<(), Fail> {
    let alloc = rt.alloc();
    for behind in [
        Behind::Nothing,
        Behind::Printer,
        Behind::Quiet,
        Behind::Full,
    ] {
        refuses(&rt, alloc, behind, "--guest --quiet TAPE")?;
        refuses(&rt, alloc, behind, "--quiet TAPE")?;
    }
    Ok(())
}

/// The reply to a lend of so many frames. The first address has told its status before the tenth frame, the second
/// before the nineteenth.
fn found_in(frames: u16) -> &'static [u8] {
    if frames < 10 {
        b"guest 1 --\nguest 2 --\nok\n"
    } else if frames < 19 {
        b"guest 1 00\nguest 2 --\nok\n"
    } else {
        b"guest 1 00\nguest 2 00\nok\n"
    }
}

/// A lend of so many frames has its reply, and the loop is as it was after it.
fn lends(rt: &impl Abort, alloc: Global, tape: &[u8], frames: u16) -> Result<(), Fail> {
    let mut script = Vec::new(alloc);
    put_number(&mut script, b"lend ", frames, b"\nstatus\ndevices\n")?;
    let after = b"status 00\nok\ndevice 1 10\ndevice 2 20\ndevice 3 --\nok\n";
    let output = joined(alloc, &[found_in(frames), after])?;
    let given = Given::script(tape, &script).with_words("--guest --quiet TAPE");
    nth_answers(rt, alloc, usize::from(frames), &given, 0, &output)
}

#[test]
fn a_lend_of_any_length(rt: HostRuntime) -> Result<(), Fail> {
    let alloc = rt.alloc();
    let tape = formatted(alloc)?;
    for frames in 1..=60 {
        lends(&rt, alloc, &tape, frames)?;
    }
    Ok(())
}

/// The commands of a day, each with the frames of the lend before it and with its reply, over the tape of `before`.
static DAY: [(u16, &[u8], &[u8]); 9] = [
    (10, b"store D 0001 00000000 44\n", b"ok\n"),
    (1, b"fetch B\n", b"data 0001 00000000 42"),
    (
        4096,
        b"begin\nstore F 0001 00000000 46\nrename C E\npurge B\ncommit\n",
        b"ok\n",
    ),
    (25, b"pack\n", b"packed 2 471\nok\n"),
    (17, b"status\n", b"status 00\nok\n"),
    (
        2,
        b"devices\n",
        b"device 1 10\ndevice 2 20\ndevice 3 --\nok\n",
    ),
    (
        60,
        b"dir\n",
        b"volume HPTAPE 2 2 4 16\nfile D 0001 4 1 00000000\nfile E 0001 5 1 00000000\nfile F 0001 6 1 00000000\nfile REDOFILE E0D0 478 34 00000000\nok\n",
    ),
    (9, b"say 4849\n", b"ok\n"),
    (19, b"paper\n", b"paper 4849 2\nok\n"),
];

/// The day's places of the store, the batch and the packing, where each command has a lend before it.
const STORE: usize = 1;

const BATCH: usize = 5;

const PACK: usize = 7;

/// A tape that takes batches, with files B and C after one record of a purged file.
fn before(alloc: Global) -> Result<Vec<u8>, Fail> {
    let tape = formatted(alloc)?;
    let script =
        b"upgrade\nstore A 0001 00000000 41\nstore B 0001 00000000 42\nstore C 0001 00000000 43\npurge A\n";
    image_after(alloc, &Given::script(&tape, script))
}

/// A reply. The data of a file of one byte fill a record.
fn put_reply(output: &mut Vec<u8>, reply: &[u8]) -> Result<(), AllocError> {
    output.extend_from_slice(reply)?;
    if reply.starts_with(b"data") {
        output.resize(output.len() + 510, b'0')?;
        output.extend_from_slice(b"\nok\n")?;
    }
    Ok(())
}

/// A command of the day, with the lend before it or without.
fn put_command(
    script: &mut Vec<u8>,
    frames: u16,
    command: &[u8],
    lends: bool,
) -> Result<(), AllocError> {
    if lends {
        put_number(script, b"lend ", frames, b"\n")?;
    }
    script.extend_from_slice(command)
}

/// The script of the day, with its lends or without.
fn script_of(alloc: Global, lends: bool) -> Result<Vec<u8>, AllocError> {
    let mut script = Vec::new(alloc);
    for (frames, command, _) in &DAY {
        put_command(&mut script, *frames, command, lends)?;
    }
    Ok(script)
}

/// What it replies.
fn output_of(alloc: Global, lends: bool) -> Result<Vec<u8>, AllocError> {
    let mut output = Vec::new(alloc);
    for (frames, _, reply) in &DAY {
        output.extend_from_slice(if lends { found_in(*frames) } else { b"" })?;
        put_reply(&mut output, reply)?;
    }
    Ok(output)
}

/// What the day leaves over this tape, with its lends or without. It has its replies.
fn day_over(rt: &impl Abort, alloc: Global, tape: &[u8], lends: bool) -> Result<Left, Fail> {
    let script = script_of(alloc, lends)?;
    let given = Given::script(tape, &script).with_words("--guest --quiet TAPE");
    let left = run(alloc, &given)?;
    let wanted = output_of(alloc, lends)?;
    assert!(rt; left.ended_with(0, &wanted), "with lends: {lends}");
    Ok(left)
}

/// Two runs made the same writes, and left the same image.
fn wrote_alike(rt: &impl Abort, left: &Left, other: &Left, words: &str) -> Result<(), Fail> {
    assert!(rt; left.writes == other.writes, "the writes, {words}");
    assert!(rt;
        left.image.is_some() && left.image == other.image,
        "the image, {words}"
    );
    Ok(())
}

#[test]
fn lends_leave_the_tape_as_it_is(rt: HostRuntime) -> Result<(), Fail> {
    let alloc = rt.alloc();
    let tape = before(alloc)?;
    let plain = day_over(&rt, alloc, &tape, false)?;
    let lent = day_over(&rt, alloc, &tape, true)?;
    wrote_alike(&rt, &lent, &plain, "without a fault")
}

/// What the lines of an output tell.
#[derive(Clone, Copy)]
struct Told {
    replies: usize,
    /// How many of them are `fault frame`, and the place of the last one.
    faults: u8,
    place: usize,
    /// How many lines tell an error, or another fault.
    others: usize,
}

fn told_by(output: &[u8]) -> Told {
    let mut told = Told {
        replies: 0,
        faults: 0,
        place: 0,
        others: 0,
    };
    for line in output.split(|byte| *byte == b'\n') {
        if line == b"ok".as_slice() {
            told.replies = told.replies.saturating_add(1);
        } else if line == b"fault frame".as_slice() {
            told.place = told.replies;
            told.replies = told.replies.saturating_add(1);
            told.faults = told.faults.saturating_add(1);
        } else if line.starts_with(b"error") || line.starts_with(b"fault") {
            told.others = told.others.saturating_add(1);
        }
    }
    told
}

/// What fetches reply where the store was made or not, and the batch was.
fn fetched(alloc: Global, stored: bool, batched: bool) -> Result<Vec<u8>, AllocError> {
    let mut output = Vec::new(alloc);
    for (is_there, data) in [
        (stored, b"data 0001 00000000 44".as_slice()),
        (!batched, b"data 0001 00000000 42"),
        (!batched, b"data 0001 00000000 43"),
        (batched, b"data 0001 00000000 43"),
        (batched, b"data 0001 00000000 46"),
    ] {
        let reply = if is_there { data } else { b"error 4 NoFile\n" };
        put_reply(&mut output, reply)?;
    }
    Ok(output)
}

/// How many files an output lists.
fn files_in(output: &[u8]) -> usize {
    output
        .split(|byte| *byte == b'\n')
        .filter(|line| line.starts_with(b"file "))
        .count()
}

/// Whether an output begins with what fetches reply where the store was made or not, and the batch was. If so, the
/// listing of the files ends it.
fn tells_files(
    rt: &impl Abort,
    alloc: Global,
    output: &[u8],
    (stored, batched): (bool, bool),
    words: &str,
) -> Result<bool, Fail> {
    let first = fetched(alloc, stored, batched)?;
    if !output.starts_with(&first) {
        return Ok(false);
    }
    let files = if stored { 4 } else { 3 };
    assert!(rt;
        same(
            (files_in(output), output.ends_with(b"\nok\n")),
            (files, true)
        ),
        "the listing, {words}"
    );
    Ok(true)
}

/// Whether an output begins as the fetches reply with each file that was made by a command of the day but the one at
/// this place, and of that one all or nothing. If so, the listing of the files ends it.
fn tells_kept_files(
    rt: &impl Abort,
    alloc: Global,
    output: &[u8],
    place: usize,
    words: &str,
) -> Result<bool, Fail> {
    let kept = (place != STORE, place != BATCH);
    Ok(
        tells_files(rt, alloc, output, (true, true), words)?
            || tells_files(rt, alloc, output, kept, words)?,
    )
}

/// The image has each file that was made by a command of the day but the one at this place, and of that one all or
/// nothing.
fn has_files(
    rt: &impl Abort,
    alloc: Global,
    image: &[u8],
    place: usize,
    words: &str,
) -> Result<(), Fail> {
    let script = b"fetch D\nfetch B\nfetch C\nfetch E\nfetch F\ndir\n";
    let left = run(alloc, &Given::script(image, script))?;
    let found = tells_kept_files(rt, alloc, &left.output, place, words)?;
    assert!(rt; found, "the files of the commands that were made, {words}");
    Ok(())
}

/// After this day the image has the files of its commands. Where none of those that change it was the fault, it is that
/// of the day without one, and without a fault so is the output.
fn is_kept(
    rt: &impl Abort,
    alloc: Global,
    left: &Left,
    clean: &Left,
    told: Told,
    words: &str,
) -> Result<(), Fail> {
    assert!(rt;
        told.faults == 1 || same_bytes(&left.output, &clean.output),
        "the output, {words}"
    );
    let changing = told.place == STORE || told.place == BATCH || told.place == PACK;
    if told.faults == 0 || !changing {
        return wrote_alike(rt, left, clean, words);
    }
    match &left.image {
        Some(image) => has_files(rt, alloc, image, told.place, words),
        None => Err(Fail::from("an image")),
    }
}

/// What a day tells under a fault. At most one reply is a fault, and each other one is `ok`.
fn told_under(rt: &impl Abort, left: &Left, words: &str) -> Told {
    let told = told_by(&left.output);
    assert!(rt;
        same(
            (told.replies, told.others, left.status),
            (18, 0, told.faults)
        ),
        "the replies and the status, {words}"
    );
    assert!(rt; told.faults <= 1, "the faults, {words}");
    told
}

/// The day over a tape with its lends, and what it leaves without a fault.
#[derive(Clone, Copy)]
struct Day<'a> {
    tape: &'a [u8],
    script: &'a [u8],
    clean: &'a Left,
}

/// Whether a reply is a fault where these words plan one. The day then leaves what it has to.
fn faulted(rt: &impl Abort, alloc: Global, day: Day, words: &str) -> Result<bool, Fail> {
    let left = run(
        alloc,
        &Given::script(day.tape, day.script).with_words(words),
    )?;
    let told = told_under(rt, &left, words);
    is_kept(rt, alloc, &left, day.clean, told, words)?;
    Ok(told.faults == 1)
}

/// How many crossings the day has.
const CROSSINGS: u64 = 87_180;

/// Faults of one kind, at the crossing 1 and each so many further.
#[derive(Clone, Copy)]
struct Faults<'a> {
    option: &'a str,
    end: &'a str,
    step: u64,
}

const LOSSES: Faults<'static> = Faults {
    option: "--guest --lose ",
    end: "",
    step: 97,
};

const ALTERATIONS: Faults<'static> = Faults {
    option: "--guest --alter ",
    end: ":01",
    step: 197,
};

/// Whether the day has a reply that is a fault, with this one of the faults.
fn is_felt(
    rt: &impl Abort,
    alloc: Global,
    day: Day,
    faults: Faults,
    number: u64,
) -> Result<bool, Fail> {
    let crossing = faults.step.saturating_mul(number).saturating_add(1);
    let words = words_with(alloc, faults.option, crossing, faults.end)?;
    faulted(rt, alloc, day, &words)
}

/// So many of these days, each with one of the faults, have a reply that is a fault.
fn are_felt(
    rt: &impl Abort,
    alloc: Global,
    day: Day,
    faults: Faults,
    (first, end): (u64, u64),
    wanted: u64,
) -> Result<(), Fail> {
    let mut felt = 0u64;
    for number in first..end {
        if is_felt(rt, alloc, day, faults, number)? {
            felt = felt.saturating_add(1);
        }
    }
    assert!(rt; same(felt, wanted), "the faults");
    Ok(())
}

/// The same of the day over its own tape.
fn days_feel(
    rt: &impl Abort,
    alloc: Global,
    faults: Faults,
    days: (u64, u64),
    wanted: u64,
) -> Result<(), Fail> {
    let tape = before(alloc)?;
    let script = script_of(alloc, true)?;
    let given = Given::script(&tape, &script).with_words("--guest --quiet TAPE");
    let clean = run(alloc, &given)?;
    let day = Day {
        tape: &tape,
        script: &script,
        clean: &clean,
    };
    are_felt(rt, alloc, day, faults, days, wanted)
}

#[test]
fn frames_lost_in_the_first_third(rt: HostRuntime) -> Result<(), Fail> {
    days_feel(&rt, rt.alloc(), LOSSES, (0, 300), 300)
}

#[test]
fn frames_lost_in_the_second_third(rt: HostRuntime) -> Result<(), Fail> {
    days_feel(&rt, rt.alloc(), LOSSES, (300, 600), 300)
}

#[test]
fn frames_lost_in_the_last_third(rt: HostRuntime) -> Result<(), Fail> {
    // The last of these losses would be after the day.
    days_feel(&rt, rt.alloc(), LOSSES, (600, 900), 299)
}

#[test]
fn bytes_altered_in_the_first_half(rt: HostRuntime) -> Result<(), Fail> {
    days_feel(&rt, rt.alloc(), ALTERATIONS, (0, 222), 222)
}

#[test]
fn bytes_altered_in_the_second_half(rt: HostRuntime) -> Result<(), Fail> {
    // The last of these alterations would be after the day.
    days_feel(&rt, rt.alloc(), ALTERATIONS, (222, 444), 221)
}

#[test]
fn the_last_crossing_of_a_day(rt: HostRuntime) -> Result<(), Fail> {
    for (step, felt) in [(CROSSINGS - 1, 1), (CROSSINGS, 0)] {
        let faults = Faults { step, ..LOSSES };
        days_feel(&rt, rt.alloc(), faults, (1, 2), felt)?;
    }
    Ok(())
}

/// A generated script without an image.
fn generated(alloc: Global, words: &str) -> Result<Left, Fail> {
    run(alloc, &Given::without_image(b"", words))
}

#[test]
fn no_lend_is_generated(rt: HostRuntime) -> Result<(), Fail> {
    let alloc = rt.alloc();
    let plain = generated(alloc, "--new --generate 7:40 TAPE")?;
    assert!(rt; plain.output.starts_with(b"generated 40\nok "), "a tally");
    let beside = generated(alloc, "--new --guest --generate 7:40 TAPE")?;
    assert!(rt;
        beside.ended_with(plain.status, &plain.output),
        "the tally and the status"
    );
    wrote_alike(&rt, &beside, &plain, "generated")
}

/// The second controller comes back from a run with these words, idle or not.
fn comes_back(rt: &impl Abort, alloc: Global, words: &str, is_idle: bool) -> Result<(), Fail> {
    let left = run_formatted(alloc, words, b"lend 30\n")?;
    assert!(rt; same(left.guest, Some((2, is_idle))), "{words}");
    Ok(())
}

#[test]
fn the_second_controller_comes_back(rt: HostRuntime) -> Result<(), Fail> {
    let alloc = rt.alloc();
    for words in [
        "--quiet TAPE",
        "--quiet --lose 1 TAPE",
        "TAPE TAPE",
        "--guest OTHER",
    ] {
        comes_back(&rt, alloc, words, true)?;
    }
    comes_back(&rt, alloc, "--guest --quiet TAPE", false)?;
    comes_back(&rt, alloc, "--guest --quiet --lose 60 TAPE", false)
}
