//! Scripts that a run makes by itself.

use crate::images::formatted;
use crate::runs::{Given, answers, run};
use std::test::Fail;

#[test]
fn a_small_script(rt: HostRuntime) -> Result<(), Fail> {
    let given = Given::without_image(b"dir\n", "--new --generate 1:8 TAPE");
    let output = b"generated 8\nok 2\nerror 6\nfault 0\n";
    answers(&rt, rt.alloc(), &given, 1, output)
}

#[test]
fn the_same_seed_gives_the_same_script(rt: HostRuntime) -> Result<(), Fail> {
    let alloc = rt.alloc();
    let given = Given::without_image(b"", "--new --generate 7:400 TAPE");
    let first = run(alloc, &given)?;
    let summary = b"generated 400\nok 212\nerror 188\nfault 0\n";
    let second = run(alloc, &given)?;
    assert!(rt;
        first.ended_with(1, summary) && second.ended_with(1, summary),
        "the statuses and the summaries"
    );
    assert!(rt;
        first.image.is_some() && first.image == second.image,
        "the same image"
    );
    Ok(())
}

#[test]
fn a_fault_is_counted(rt: HostRuntime) -> Result<(), Fail> {
    let alloc = rt.alloc();
    let tape = formatted(alloc)?;
    let given = Given::script(&tape, b"").with_words("--lose 1 --generate 1:8 TAPE");
    // The volume stays as it is, and the script finds no files in it.
    answers(
        &rt,
        alloc,
        &given,
        1,
        b"generated 8\nok 1\nerror 6\nfault 1\n",
    )
}
