//! What the commands of the loop answer, and the frames of a run.

use crate::images::formatted;
use crate::lines::{LISTED, joined, repeated, store_of_three_records};
use crate::runs::{Behind, Given, answers, formatted_answers, run_formatted};
use il_same::same;
use std::alloc::Global;
use std::process::Abort;
use std::test::Fail;

/// The frames of the first `status` of a run, over a drive and a printer.
pub(crate) const STATUS_TRACE: &[u8] =
    b"~ 0 IFC = IFC\n~ 0 RFC = RFC\n~ 0 AAU = AAU\n~ 0 RFC = RFC\n~ 0 AAD 01 = AAD 03\n~ 0 UNL = UNL\n~ 0 RFC = RFC\n~ 0 TAD 01 = TAD 01\n~ 0 RFC = RFC\n~ 0 SST > 1\n~ 0 NRD = NRD\n~ 1 DAB 00 = DAB 00\n~ 1 ETO > 0\n~ 0 UNT = UNT\n~ 0 RFC = RFC\nstatus 00\nok\n";

/// The frames of the first `status` up to the byte of the drive's status.
pub(crate) const ALTERED_TRACE: &[u8] =
    b"~ 0 IFC = IFC\n~ 0 RFC = RFC\n~ 0 AAU = AAU\n~ 0 RFC = RFC\n~ 0 AAD 01 = AAD 03\n~ 0 UNL = UNL\n~ 0 RFC = RFC\n~ 0 TAD 01 = TAD 01\n~ 0 RFC = RFC\n~ 0 SST > 1\n~ 0 NRD = NRD\n";

#[test]
fn the_status_and_its_frames(rt: HostRuntime) -> Result<(), Fail> {
    let alloc = rt.alloc();
    let left = run_formatted(alloc, "TAPE", b"status\n")?;
    // The printer has every frame but SST, which the drive took.
    assert!(rt;
        same(
            (left.ended_with(0, STATUS_TRACE), left.frames),
            (true, Some(14))
        ),
        "the trace, and the frames of the printer"
    );
    Ok(())
}

/// A run of this script with these words, which has a fault, writes this trace.
fn has_trace(
    rt: &impl Abort,
    alloc: Global,
    words: &str,
    script: &[u8],
    trace: &[&[u8]],
) -> Result<(), Fail> {
    let tape = formatted(alloc)?;
    let wanted = joined(alloc, trace)?;
    let given = Given::script(&tape, script).with_words(words);
    answers(rt, alloc, &given, 1, &wanted)
}

#[test]
fn a_frame_that_is_lost(rt: HostRuntime) -> Result<(), Fail> {
    has_trace(
        &rt,
        rt.alloc(),
        "--lose 6 TAPE",
        b"status\nstatus\n",
        &[b"~ 0 IFC = IFC\n~ 0 RFC ! 0\nfault frame\n", STATUS_TRACE],
    )
}

#[test]
fn a_byte_that_is_altered(rt: HostRuntime) -> Result<(), Fail> {
    let alloc = rt.alloc();
    // How the frames end where that byte is altered.
    let once = b"~ 1 DAB 00 = DAB 01\n~ 1 ETE > 0\nfault frame\n";
    let words = "--alter 30:01 TAPE";
    has_trace(&rt, alloc, words, b"status\n", &[ALTERED_TRACE, once])?;
    let twice = b"~ 1 DAB 00 ! 1\nfault frame\n";
    let words = "--alter 30:01,34:01 TAPE";
    has_trace(&rt, alloc, words, b"status\n", &[ALTERED_TRACE, twice])
}

/// A quiet run over a loop of the drive and this device.
fn answers_with(
    rt: &impl Abort,
    alloc: Global,
    behind: Behind,
    script: &[u8],
    status: u8,
    output: &[u8],
) -> Result<(), Fail> {
    let tape = formatted(alloc)?;
    answers(
        rt,
        alloc,
        &Given {
            behind,
            ..Given::script(&tape, script)
        },
        status,
        output,
    )
}

#[test]
fn devices_polls_and_the_printer(rt: HostRuntime) -> Result<(), Fail> {
    let alloc = rt.alloc();
    formatted_answers(
        &rt,
        alloc,
        b"devices\npoll\nsay 4849\npaper\n",
        0,
        b"device 1 10\ndevice 2 20\nok\npoll 00 quiet\nok\nok\npaper 4849 2\nok\n",
    )?;
    answers_with(
        &rt,
        alloc,
        Behind::Nothing,
        b"devices\nsay 41\npaper\n",
        1,
        b"device 1 10\nok\nerror 12 NoPrinter\nerror 12 NoPrinter\n",
    )?;
    answers_with(
        &rt,
        alloc,
        Behind::Quiet,
        b"devices\n",
        0,
        b"device 1 10\ndevice 2 --\nok\n",
    )
}

#[test]
fn a_long_text_for_the_printer(rt: HostRuntime) -> Result<(), Fail> {
    let alloc = rt.alloc();
    let script = repeated(alloc, b"say ", (10_000, b"44"), b"\npaper\n")?;
    // The paper keeps 8,192 bytes.
    let wanted = repeated(alloc, b"ok\npaper ", (8_192, b"44"), b" 10000\nok\n")?;
    formatted_answers(&rt, alloc, &script, 0, &wanted)
}

#[test]
fn a_kept_directory_needs_no_frame(rt: HostRuntime) -> Result<(), Fail> {
    let alloc = rt.alloc();
    let left = run_formatted(alloc, "TAPE", b"dir\ndir\n")?;
    let twice = joined(alloc, &[LISTED, LISTED])?;
    assert!(rt;
        same((left.output.ends_with(&twice), left.status), (true, 0)),
        "two listings and their status"
    );
    Ok(())
}

#[test]
fn a_loop_that_lost_a_frame_is_addressed_anew(rt: HostRuntime) -> Result<(), Fail> {
    let alloc = rt.alloc();
    let left = run_formatted(alloc, "--lose 1 TAPE", b"dir\ndir\n")?;
    // The lost frame, and the addressing after it.
    let front = b"~ 0 IFC ! 1\nfault frame\n~ 0 IFC = IFC\n~ 0 RFC = RFC\n~ 0 AAU = AAU\n";
    let is_addressed = left.output.starts_with(front);
    let is_listed = left.output.ends_with(LISTED);
    assert!(rt;
        same((is_addressed, is_listed, left.status), (true, true, 1)),
        "the addressing, the listing after it, and the status"
    );
    Ok(())
}

/// How often a line stands in a text.
fn count_of(text: &[u8], line: &[u8]) -> usize {
    text.split(|byte| *byte == b'\n')
        .filter(|part| *part == line)
        .count()
}

#[test]
fn the_records_of_a_file_go_in_one_run(rt: HostRuntime) -> Result<(), Fail> {
    let alloc = rt.alloc();
    let script = store_of_three_records(alloc)?;
    let left = run_formatted(alloc, "TAPE", &script)?;
    // One run for the file's three records, and five writes of the commit.
    let runs = count_of(&left.output, b"~ 0 DDL 02 = DDL 02");
    assert!(rt;
        same((runs, left.status), (6, 0)),
        "the runs of writes, and the status"
    );
    Ok(())
}
