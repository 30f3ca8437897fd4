//! Bytes for the printer under faults, and a loop of thirty devices.

use crate::images::formatted;
use crate::lines::put_number;
use crate::runs::{Behind, Given, answers, run_formatted, words_with};
use il_same::same;
use std::alloc::{AllocError, Global};
use std::process::Abort;
use std::test::Fail;

/// Whether a reply of `paper` shows the first bytes of `H` and `I` and at most one byte more, of any value.
fn shows_a_front(reply: &[u8]) -> bool {
    let Some(shown) = reply.strip_prefix(b"fault frame\npaper ") else {
        return false;
    };
    shown.starts_with(b"- 0\n")
        || (shown.get(2..) == Some(b" 1\nok\n".as_slice()))
        || (shown.starts_with(b"48") && shown.get(4..) == Some(b" 2\nok\n".as_slice()))
        || (shown.starts_with(b"4849") && shown.get(6..) == Some(b" 3\nok\n".as_slice()))
}

/// Whether a run with these words is past the last fault that `say 4849` can have. Before it, a front of the bytes is
/// on the paper.
fn is_past(rt: &impl Abort, alloc: Global, words: &str) -> Result<bool, Fail> {
    let left = run_formatted(alloc, words, b"say 4849\npaper\n")?;
    if left.output.starts_with(b"ok\n") {
        return Ok(true);
    }
    assert!(rt;
        same((shows_a_front(&left.output), left.status), (true, 1)),
        "the paper and the status, {words}"
    );
    Ok(false)
}

/// How many crossings `say 4849` has. A fault at each of them leaves a front of the bytes on the paper.
fn crossings_of_say(
    rt: &impl Abort,
    alloc: Global,
    option: &str,
    change: &str,
) -> Result<u64, Fail> {
    for crossing in 1..1000 {
        let words = words_with(alloc, option, crossing, change)?;
        if is_past(rt, alloc, &words)? {
            return Ok(crossing - 1);
        }
    }
    Ok(1000)
}

#[test]
fn a_fault_at_each_crossing_of_say(rt: HostRuntime) -> Result<(), Fail> {
    let alloc = rt.alloc();
    let lost = crossings_of_say(&rt, alloc, "--lose ", "")?;
    let altered = crossings_of_say(&rt, alloc, "--alter ", ":81")?;
    assert!(rt; 50 < lost && lost < 200);
    assert!(rt; same(altered, lost), "the crossings that are altered");
    Ok(())
}

/// What `devices` and then the printer of a full loop reply.
fn full_loop(alloc: Global) -> Result<Vec<u8>, AllocError> {
    let mut output = Vec::from_slice(alloc, b"device 1 10\n")?;
    for address in 2..30 {
        put_number(&mut output, b"device ", address, b" --\n")?;
    }
    output.extend_from_slice(b"device 30 20\nok\npoll 00 quiet\nok\nok\npaper 41 1\nok\n")?;
    Ok(output)
}

#[test]
fn thirty_devices(rt: HostRuntime) -> Result<(), Fail> {
    let alloc = rt.alloc();
    let tape = formatted(alloc)?;
    let wanted = full_loop(alloc)?;
    let given = Given {
        behind: Behind::Full,
        guest: false,
        ..Given::script(&tape, b"devices\npoll\nsay 41\npaper\n")
    };
    answers(&rt, alloc, &given, 0, &wanted)
}
