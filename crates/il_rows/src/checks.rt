//! What is said of traces, and of the tapes before them and after them.

ghost use Rattle.std.specs.Prelude.{◌≡◌, IfOk};

use crate::images::{
    END_ENTRY, HEADER, REDO_ENTRY, formatted, image_of, on_a_disc, with_header, with_packing_mark,
    with_redo_of_header,
};
use crate::lines::{joined, store_of_three_records};
use crate::loops::{ALTERED_TRACE, STATUS_TRACE};
use crate::runs;
use crate::runs::{shelf_of, words_of};
use il_check::run_check;
use il_ports::{Medium, MemoryMedium, MemorySink, MemorySource};
use il_same::same;
use std::alloc::{AllocError, Global};
use std::process::Abort;
use std::test::Fail;

/// Calls that fail, counted from 1.
type Calls<'a> = &'a [u64];

/// No call of either tape.
const NONE: (Calls, Calls) = (&[], &[]);

/// What a check is given. The lists name the calls that fail, where there are two those of the tape before come first.
#[derive(Clone, Copy)]
struct Given<'a> {
    /// With a space between two of them.
    words: &'a str,
    trace: &'a [u8],
    /// The bytes of the image B before the trace, and of A after it, where there is one.
    before: Option<&'a [u8]>,
    after: Option<&'a [u8]>,
    failing_takes: Calls<'a>,
    failing_puts: Calls<'a>,
    failing_inserts: (Calls<'a>, Calls<'a>),
    failing_reads: (Calls<'a>, Calls<'a>),
}

impl<'a> Given<'a> {
    /// A trace of two devices, of which the drive is the first, over these tapes, without a fault.
    fn trace(trace: &'a [u8], before: &'a [u8], after: &'a [u8]) -> Given<'a> {
        Given {
            words: "check 2 1 B A",
            trace,
            before: Some(before),
            after: Some(after),
            failing_takes: &[],
            failing_puts: &[],
            failing_inserts: NONE,
            failing_reads: NONE,
        }
    }

    /// The same with these words.
    fn with_words(self, words: &'a str) -> Given<'a> {
        Given { words, ..self }
    }
}

/// A medium with an image of this name, of which these inserts and reads fail. No tape is in.
fn medium(
    alloc: Global,
    name: &str,
    image: Option<&[u8]>,
    inserts: Calls,
    reads: Calls,
) -> Result<MemoryMedium, AllocError>
    ensures { IfOk result (λ m. (⟦<MemoryMedium as Medium>⟧.view m).record_count ≡ 0) }
{
    MemoryMedium::new(
        alloc,
        shelf_of(alloc, name, image)?,
        Vec::from_slice(alloc, reads)?,
        Vec::new(alloc),
        Vec::from_slice(alloc, inserts)?,
        0,
    )
}

/// Checks over the ports in memory, with this trace and into this sink: the status.
fn check_into(
    alloc: Global,
    given: &Given,
    trace: &mut MemorySource,
    out: &mut MemorySink,
) -> Result<u8, AllocError> {
    let words = words_of(alloc, given.words)?;
    let (inserts, reads) = (given.failing_inserts, given.failing_reads);
    let mut before = medium(alloc, "B", given.before, inserts.0, reads.0)?;
    let mut after = medium(alloc, "A", given.after, inserts.1, reads.1)?;
    Ok(run_check(alloc, words.as_slice(), trace, out, &mut before, &mut after))
}

/// A check ends with this status and this output.
fn answers(
    rt: &impl Abort,
    alloc: Global,
    given: &Given,
    status: u8,
    output: &[u8],
) -> Result<(), Fail> {
    let bytes = Vec::from_slice(alloc, given.trace)?;
    let takes = Vec::from_slice(alloc, given.failing_takes)?;
    let mut trace = MemorySource::new(bytes, 1000, takes);
    let puts = Vec::from_slice(alloc, given.failing_puts)?;
    let mut out = MemorySink::new(alloc, 1000, puts)?;
    let ended = check_into(alloc, given, &mut trace, &mut out)?;
    assert!(rt;
        same((ended, out.written()), (status, output)),
        "the status and the output"
    );
    Ok(())
}

/// The output where a trace goes together with the volume HPTAPE before it and after it.
const TOGETHER: &[u8] = b"check ok\nbefore HPTAPE\nafter HPTAPE\n";

/// How the output of `status` ends after its first eleven lines, what is said of the whole trace, and the status.
static ENDS: [(&[u8], &[u8], u8); 9] = [
    (
        b"~ 1 DAB 00 = DAB 00\n~ 1 ETO > 0\n~ 0 UNT = UNT\n~ 0 RFC = RFC\nstatus 00\nok\n",
        TOGETHER,
        0,
    ),
    // a last line without a line feed
    (
        b"~ 1 DAB 00 = DAB 00\n~ 1 ETO > 0\n~ 0 UNT = UNT\n~ 0 RFC = RFC",
        TOGETHER,
        0,
    ),
    (
        b"~ 1 DAB 00 = DAB 00\n~ 1 ETO > 0\n~ 0 UNT = UNT\n~ 0 RFC ",
        b"check no 15 1 BadText\n",
        1,
    ),
    (
        b"~ 1 DAB 00 = DAB 00\n~ 2 ETO > 0\n~ 0 UNT = UNT\n~ 0 RFC = RFC\nstatus 00\nok\n",
        b"check no 13 2 NotTalker\n",
        1,
    ),
    (
        b"~ 1 DAB 00 = DAB 00\n~ 1 ETO > 0\n~ 0 UNT = UNT\n",
        b"check no 15 3 NoExchange\n",
        1,
    ),
    (
        b"~ 1 DAB 00 = DAB 00\n~ 1 ETO > 0\n~ 0 RFC = RFC\n~ 2 ETO > 0\n",
        b"check no 14 3 NoExchange\n",
        1,
    ),
    (
        b"~ 1 DAB 00 = DAB 0\n~ 2 ETO > 0\n",
        b"check no 12 1 BadText\n",
        1,
    ),
    (b"~\n", b"check no 12 1 BadText\n", 1),
    (
        b"\n~ 1 DAB 00 = DAB 00\n\n~ 3 ETO > 0\n",
        b"check no 15 2 NotTalker\n",
        1,
    ),
];

/// A check of this trace over formatted tapes ends with this status and this output.
fn says_of(
    rt: &impl Abort,
    alloc: Global,
    trace: &[u8],
    status: u8,
    output: &[u8],
) -> Result<(), Fail> {
    let tape = formatted(alloc)?;
    let given = Given::trace(trace, &tape, &tape);
    answers(rt, alloc, &given, status, output)
}

#[test]
fn what_is_said_of_traces(rt: HostRuntime) -> Result<(), Fail> {
    let alloc = rt.alloc();
    for (end, output, status) in &ENDS {
        let trace = joined(alloc, &[ALTERED_TRACE, end])?;
        says_of(&rt, alloc, &trace, *status, output)?;
    }
    Ok(())
}

/// The trace of a run of this script with these words.
fn traced(alloc: Global, words: &str, script: &[u8]) -> Result<Vec<u8>, Fail> {
    Ok(runs::run_formatted(alloc, words, script)?.output)
}

/// What a check with these words says of this trace over formatted tapes.
fn says_with(
    rt: &impl Abort,
    alloc: Global,
    words: &str,
    trace: Vec<u8>,
    output: &[u8],
) -> Result<(), Fail> {
    let tape = formatted(alloc)?;
    let given = Given::trace(&trace, &tape, &tape).with_words(words);
    answers(rt, alloc, &given, 1, output)
}

#[test]
fn a_lend_is_read_up_to_take_control(rt: HostRuntime) -> Result<(), Fail> {
    let alloc = rt.alloc();
    let (three, two) = ("check 3 1 B A", "check 2 1 B A");
    let tenth = b"check no 10 3 NoExchange\n";
    let first = traced(alloc, "--guest TAPE", b"lend 10\n")?;
    says_with(&rt, alloc, three, first, tenth)?;
    let second = traced(alloc, "--guest TAPE", b"status\nlend 10\ndir\n")?;
    says_with(&rt, alloc, three, second, b"check no 22 3 NoExchange\n")?;
    let refused = traced(alloc, "TAPE", b"lend 1\n")?;
    says_with(&rt, alloc, two, refused, tenth)
}

/// A check of this byte and a long line after it ends with this status and this output.
fn says_of_a_long_line(
    rt: &impl Abort,
    alloc: Global,
    first: u8,
    status: u8,
    output: &[u8],
) -> Result<(), Fail> {
    let mut trace = vec![in alloc; first; 1]?;
    trace.resize(50_000, b'~')?;
    says_of(rt, alloc, &trace, status, output)
}

#[test]
fn lines_of_any_length(rt: HostRuntime) -> Result<(), Fail> {
    let alloc = rt.alloc();
    says_of_a_long_line(&rt, alloc, b'x', 0, TOGETHER)?;
    says_of_a_long_line(&rt, alloc, b'~', 1, b"check no 1 1 BadText\n")
}

/// A check of this trace over a formatted tape and this one ends with the status 1 and this output.
fn differs(
    rt: &impl Abort,
    alloc: Global,
    trace: &[u8],
    after: &[u8],
    output: &[u8],
) -> Result<(), Fail> {
    let tape = formatted(alloc)?;
    answers(rt, alloc, &Given::trace(trace, &tape, after), 1, output)
}

#[test]
fn what_is_said_of_tapes(rt: HostRuntime) -> Result<(), Fail> {
    let alloc = rt.alloc();
    let other = image_of(
        alloc,
        &[
            (0, &[HEADER]),
            (2, &[REDO_ENTRY, END_ENTRY]),
            (7, &[b"\x01"]),
        ],
    )?;
    let effect = b"check no 7 4 NoEffect\n";
    differs(&rt, alloc, b"", &other, effect)?;
    differs(&rt, alloc, STATUS_TRACE, &other, effect)?;
    let disc = on_a_disc(alloc)?;
    differs(&rt, alloc, b"", &disc, b"check no 0 7 SizeDiffers\n")
}

/// The output where tapes without a volume go together.
const NO_VOLUMES: &[u8] = b"check ok\nbefore notlif\nafter notlif\n";

/// This tape goes together with itself, with this output.
fn goes_together(rt: &impl Abort, alloc: Global, tape: Vec<u8>, output: &[u8]) -> Result<(), Fail> {
    answers(rt, alloc, &Given::trace(b"", &tape, &tape), 0, output)
}

#[test]
fn labels_are_those_of_the_settled_tapes(rt: HostRuntime) -> Result<(), Fail> {
    let alloc = rt.alloc();
    goes_together(&rt, alloc, Vec::new(alloc), NO_VOLUMES)?;
    let unmarked = with_header(alloc, 0, b"\x80\x01")?;
    goes_together(&rt, alloc, unmarked, NO_VOLUMES)?;
    goes_together(&rt, alloc, on_a_disc(alloc)?, TOGETHER)?;
    goes_together(&rt, alloc, with_packing_mark(alloc)?, TOGETHER)?;
    let open = with_redo_of_header(alloc, b"\x80\0SECOND")?;
    goes_together(&rt, alloc, open, b"check ok\nbefore SECOND\nafter SECOND\n")
}

/// A day of commands that write.
const DAY: &[u8] = b"\
upgrade
begin
store A 0001 00000000 41
store B 0001 00000000 42
commit
purge A
put T 6869
get T
pack
devices
say 4849
";

/// A run ends with the first status, and a check of its trace, its tape and what it leaves with the second, so.
fn is_told_of_a_run(
    rt: &impl Abort,
    alloc: Global,
    given: &runs::Given,
    (ended, status): (u8, u8),
    output: &[u8],
) -> Result<(), Fail> {
    let before = given.image.ok_or("an image")?;
    let left = runs::run(alloc, given)?;
    assert!(rt; same(left.status, ended), "the run");
    let after = left.image.as_deref().ok_or("an image")?;
    let given = Given::trace(&left.output, before, after);
    answers(rt, alloc, &given, status, output)
}

#[test]
fn what_a_run_leaves_goes_together_with_its_trace(rt: HostRuntime) -> Result<(), Fail> {
    let alloc = rt.alloc();
    let tape = formatted(alloc)?;
    let day = runs::Given::script(&tape, DAY).with_words("TAPE");
    is_told_of_a_run(&rt, alloc, &day, (0, 0), TOGETHER)?;
    let made = runs::Given::script(&[], b"format SECOND 16\n").with_words("TAPE");
    let output = b"check ok\nbefore notlif\nafter SECOND\n";
    is_told_of_a_run(&rt, alloc, &made, (0, 0), output)
}

/// The same of a run with these words that stores a file of three records.
fn is_told_of_a_store(
    rt: &impl Abort,
    alloc: Global,
    words: &str,
    statuses: (u8, u8),
    output: &[u8],
) -> Result<(), Fail> {
    let tape = formatted(alloc)?;
    let script = store_of_three_records(alloc)?;
    let given = runs::Given::script(&tape, &script).with_words(words);
    is_told_of_a_run(rt, alloc, &given, statuses, output)
}

#[test]
fn a_frame_lost_within_a_write_leaves_the_tape_unclear(rt: HostRuntime) -> Result<(), Fail> {
    let alloc = rt.alloc();
    is_told_of_a_store(&rt, alloc, "TAPE", (0, 0), TOGETHER)?;
    // The first crossing that is lost lies in the write of the file's three records, the second after it.
    let unclear = b"check no 1506 5 Unclear\n";
    is_told_of_a_store(&rt, alloc, "--lose 4500 TAPE", (1, 1), unclear)?;
    is_told_of_a_store(&rt, alloc, "--lose 5000 TAPE", (1, 0), TOGETHER)
}

/// A check with these words ends with this status, and writes nothing.
fn is_refused(rt: &impl Abort, alloc: Global, words: &str, status: u8) -> Result<(), Fail> {
    let tape = formatted(alloc)?;
    let given = Given::trace(b"ok\n", &tape, &tape).with_words(words);
    answers(rt, alloc, &given, status, b"")
}

#[test]
fn checks_with_other_words_write_nothing(rt: HostRuntime) -> Result<(), Fail> {
    let alloc = rt.alloc();
    for words in [
        "check 0 1 B A",
        "check 31 1 B A",
        "check 2 0 B A",
        "check 2 3 B A",
        "check 02 1 B A",
        "check 2 1 B",
        "check 2 1 B A A",
        "Check 2 1 B A",
    ] {
        is_refused(&rt, alloc, words, 2)?;
    }
    is_refused(&rt, alloc, "check 2 1 A B", 3)
}

#[test]
fn checks_without_images_write_nothing(rt: HostRuntime) -> Result<(), Fail> {
    let alloc = rt.alloc();
    let tape = formatted(alloc)?;
    let long = vec![in alloc; 0; 630_785]?;
    let given = Given::trace(b"ok\n", &tape, &tape);
    let (one, other): (Option<&[u8]>, Option<&[u8]>) = (Some(&tape), Some(&long));
    for (before, after, status) in [
        (None, one, 3),
        (one, None, 3),
        (other, one, 4),
        (one, other, 4),
    ] {
        let given = Given {
            before,
            after,
            ..given
        };
        answers(&rt, alloc, &given, status, b"")?;
    }
    Ok(())
}

/// A trace, the takes of it and the puts that fail, the inserts of either tape, the reads of either, and the status.
type Failure = (
    &'static [u8],
    (Calls<'static>, Calls<'static>),
    (Calls<'static>, Calls<'static>),
    (Calls<'static>, Calls<'static>),
    u8,
);

static FAILURES: [Failure; 9] = [
    (b"ok\n", (&[1], &[]), NONE, NONE, 5),
    (b"ok\n", (&[2], &[]), NONE, NONE, 5),
    (b"~\n", (&[2], &[]), NONE, NONE, 5),
    (b"ok\n", (&[], &[1]), NONE, NONE, 6),
    (b"~\n", (&[], &[1]), NONE, NONE, 6),
    (b"ok\n", NONE, (&[1], &[]), NONE, 9),
    (b"ok\n", NONE, (&[], &[1]), NONE, 9),
    (b"ok\n", NONE, NONE, (&[512], &[]), 10),
    (b"ok\n", NONE, NONE, (&[], &[512]), 10),
];

/// A check over formatted tapes with this failure ends with its status, and writes nothing.
fn fails_so(rt: &impl Abort, alloc: Global, failure: &Failure) -> Result<(), Fail> {
    let tape = formatted(alloc)?;
    let (trace, calls, failing_inserts, failing_reads, status) = *failure;
    let given = Given {
        failing_takes: calls.0,
        failing_puts: calls.1,
        failing_inserts,
        failing_reads,
        ..Given::trace(trace, &tape, &tape)
    };
    answers(rt, alloc, &given, status, b"")
}

#[test]
fn checks_of_which_a_call_fails_write_nothing(rt: HostRuntime) -> Result<(), Fail> {
    for failure in &FAILURES {
        fails_so(&rt, rt.alloc(), failure)?;
    }
    Ok(())
}
