//! Files that are stored, each by one step, over a volume whose answers the test gives.
ghost use Rattle.std.specs.Prelude.{IfOk};
ghost use Rattle.tape_changes.specs.Storing.{IsStorable};

use crate::given::{Answer, Given, volume};
use il_ports::MemorySink;
use il_same::same_bytes;
use il_script::{Code, Reply};
use lif_dir::{Name, NewName};
use std::process::Abort;
use std::test::Fail;
use tape_changes::{Changing, Incoming, ready_files, steps_of};
use tape_volumes::{VolumeJob, Went};

/// The name of a file.
fn name(rt: &impl Abort, text: &[u8]) -> Name {
    Name::of(text).expect(rt, "a name")
}

/// A file that had the name `from` and gets the name `now`.
fn incoming(rt: &(impl Abort + AllocGlobal), from: &[u8], now: &[u8]) -> Result<Incoming, Fail>
    ensures { IfOk result IsStorable }
{
    Ok(Incoming {
        from: name(rt, from),
        name: NewName::of(&name(rt, now)).expect(rt, "a name that a file can be given"),
        kind: 0xE214,
        field: [0; 4],
        bytes: b"its bytes".to_vec(rt.alloc())?,
    })
}

/// What a job must give.
#[derive(Clone, Copy)]
struct Wanted<'a> {
    went: Went,
    replies: &'a [Reply],
    printed: &'a [u8],
}

/// Stores two files, of which one had another name, and compares how the job went, the replies, and what was printed.
fn stores(
    rt: &(impl Abort + AllocGlobal),
    mut given: Given,
    over: bool,
    quiet: bool,
    wanted: &Wanted<'_>,
) -> Result<(), Fail> {
    let files = [incoming(rt, b"A+B", b"A_B")?, incoming(rt, b"C", b"C")?];
    let ready = ready_files(rt.alloc(), over, quiet, &files)?;
    let steps = steps_of(rt.alloc(), &ready)?;
    let mut job = Changing {
        steps: &steps,
        ends_early: false,
        replies: Vec::with_capacity(rt.alloc(), 2)?,
        out: MemorySink::new(rt.alloc(), 100, Vec::new(rt.alloc()))?,
    };
    let went = job.work(rt.alloc(), &mut given);
    assert!(rt; went == wanted.went);
    assert!(rt; job.replies.as_slice() == wanted.replies);
    assert!(rt; same_bytes(job.out.written(), wanted.printed));
    Ok(())
}

#[test]
fn new_names_are_printed(rt: HostRuntime) -> Result<(), Fail> {
    let given = volume(&rt, Answer::Listed)?;
    let wanted = Wanted {
        went: Went::Done,
        replies: &[Reply::Ok; 2],
        printed: b"A+B: stored as A_B\nC\n",
    };
    stores(&rt, given, false, false, &wanted)
}

#[test]
fn nothing_is_printed_if_quiet(rt: HostRuntime) -> Result<(), Fail> {
    let given = volume(&rt, Answer::Listed)?;
    let wanted = Wanted {
        went: Went::Done,
        replies: &[Reply::Ok; 2],
        printed: b"",
    };
    stores(&rt, given, true, true, &wanted)
}

#[test]
fn a_file_that_is_there_stays(rt: HostRuntime) -> Result<(), Fail> {
    let mut given = volume(&rt, Answer::Listed)?;
    given.other = Some((1, Answer::Refused(Code::Exists)));
    let wanted = Wanted {
        went: Went::NotAll,
        replies: &[Reply::No(Code::Exists), Reply::Ok],
        printed: b"C\n",
    };
    stores(&rt, given, false, false, &wanted)
}

/// The store is refused, and the batch is asked for after it.
#[test]
fn a_file_that_is_there_is_replaced(rt: HostRuntime) -> Result<(), Fail> {
    let mut given = volume(&rt, Answer::Listed)?;
    given.other = Some((1, Answer::Refused(Code::Exists)));
    let wanted = Wanted {
        went: Went::Done,
        replies: &[Reply::Ok; 2],
        printed: b"A+B: stored as A_B\nC\n",
    };
    stores(&rt, given, true, false, &wanted)
}

#[test]
fn another_refusal_replaces_nothing(rt: HostRuntime) -> Result<(), Fail> {
    let mut given = volume(&rt, Answer::Listed)?;
    given.other = Some((1, Answer::Refused(Code::NoRoom)));
    let wanted = Wanted {
        went: Went::NotAll,
        replies: &[Reply::No(Code::NoRoom), Reply::Ok],
        printed: b"C\n",
    };
    stores(&rt, given, true, false, &wanted)
}
