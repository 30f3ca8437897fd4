//! What the commands that make and tell texts answer.

use crate::lines::repeated;
use crate::runs::{Given, answers, formatted_answers};
use std::alloc::Global;
use std::process::Abort;
use std::test::Fail;

#[test]
fn a_text_comes_back_line_by_line(rt: HostRuntime) -> Result<(), Fail> {
    let alloc = rt.alloc();
    let told = b"ok\nline 6869\nline -\nline 79\nok\ndata 0001 00000000 00026869000000017900FFFF";
    let wanted = repeated(alloc, told, (244, b"00"), b"\nok\nok\nok\n")?;
    let script = b"put T 68690A0A79\nget T\nfetch T\nput E -\nget E\n";
    formatted_answers(&rt, alloc, script, 0, &wanted)
}

#[test]
fn what_is_no_text_is_not_told(rt: HostRuntime) -> Result<(), Fail> {
    let alloc = rt.alloc();
    // The rest of the record is zeros, which are lines too.
    let wanted = repeated(
        alloc,
        b"ok\nline 414243\n",
        (125, b"line -\n"),
        b"ok\nok\nerror 16 NotText\nok\nerror 16 NotText\nerror 4 NoFile\nerror 11 Protected\n",
    )?;
    let script = b"\
store U 0001 00000000 0003414243
get U
store V 0001 00000000 8000
get V
store W E0D1 00000000 FFFF
get W
get X
get REDOFILE
";
    formatted_answers(&rt, alloc, script, 1, &wanted)
}

/// On a blank tape a text of one line with so many bytes A is refused so.
fn is_refused(rt: &impl Abort, alloc: Global, count: usize, output: &[u8]) -> Result<(), Fail> {
    let script = repeated(alloc, b"put L ", (count, b"41"), b"\n")?;
    answers(rt, alloc, &Given::script(&[], &script), 1, output)
}

#[test]
fn a_line_that_is_too_long_is_refused_first(rt: HostRuntime) -> Result<(), Fail> {
    is_refused(&rt, rt.alloc(), 32_768, b"error 16 NotText\n")?;
    is_refused(&rt, rt.alloc(), 32_767, b"error 3 NotLif\n")
}
