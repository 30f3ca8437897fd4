//! The job that makes changes, over a volume whose answers the test gives.
ghost use Rattle.tape_changes.specs.Changing.{IsFormedStep};

use crate::given::{Answer, Given, volume};
use il_ports::MemorySink;
use il_same::same_bytes;
use il_script::{Code, Reply};
use lif_dir::{Name, NewLabel, NewName};
use std::process::Abort;
use std::test::Fail;
use tape_changes::{Changing, Step, write_changed};
use tape_volumes::{Change, Ending, VolumeJob, Went, write_parts};

/// The name of a file.
fn name(rt: &impl Abort, text: &[u8]) -> Name {
    Name::of(text).expect(rt, "a name")
}

/// The step that purges the file of that name.
fn purge<'a>(rt: &impl Abort, file: &'a [u8], line: &'a [u8]) -> Step<'a>
    ensures { IsFormedStep result }
{
    Step {
        change: Change::Purge(name(rt, file)),
        instead: None,
        subject: file,
        line,
    }
}

/// What a job must give.
#[derive(Clone, Copy)]
struct Wanted<'a> {
    went: Went,
    replies: &'a [Reply],
    printed: &'a [u8],
    told: &'a [u8],
}

/// Purges three files, and compares how the job went, the replies, what was printed, and the messages.
fn purges(
    rt: &(impl Abort + AllocGlobal),
    mut given: Given,
    ends_early: bool,
    room: usize,
    wanted: &Wanted<'_>,
) -> Result<(), Fail> {
    let steps = [
        purge(rt, b"A", b"A is purged\n"),
        purge(rt, b"B", b"B is purged\n"),
        purge(rt, b"C", b"C is purged\n"),
    ];
    let mut job = Changing {
        steps: &steps,
        ends_early,
        replies: Vec::with_capacity(rt.alloc(), 3)?,
        out: MemorySink::new(rt.alloc(), room, Vec::new(rt.alloc()))?,
    };
    let went = job.work(rt.alloc(), &mut given);
    assert!(rt; went == wanted.went);
    assert!(rt; job.replies.as_slice() == wanted.replies);
    assert!(rt; same_bytes(job.out.written(), wanted.printed));
    let mut error = MemorySink::new(rt.alloc(), 1000, Vec::new(rt.alloc()))?;
    write_changed(&mut error, "TAPE", Ending::Went(went), &steps, &job.replies);
    assert!(rt; same_bytes(error.written(), wanted.told));
    Ok(())
}

#[test]
fn all_changes_are_made(rt: HostRuntime) -> Result<(), Fail> {
    let given = volume(&rt, Answer::Listed)?;
    let wanted = Wanted {
        went: Went::Done,
        replies: &[Reply::Ok; 3],
        printed: b"A is purged\nB is purged\nC is purged\n",
        told: b"",
    };
    purges(&rt, given, false, 100, &wanted)
}

#[test]
fn the_job_goes_on_after_a_refusal(rt: HostRuntime) -> Result<(), Fail> {
    let mut given = volume(&rt, Answer::Listed)?;
    given.other = Some((2, Answer::Refused(Code::NoFile)));
    let wanted = Wanted {
        went: Went::NotAll,
        replies: &[Reply::Ok, Reply::No(Code::NoFile), Reply::Ok],
        printed: b"A is purged\nC is purged\n",
        told: b"tape: TAPE: B: error 4 NoFile: there is no file of that name\n",
    };
    purges(&rt, given, false, 100, &wanted)
}

#[test]
fn the_job_ends_early(rt: HostRuntime) -> Result<(), Fail> {
    let mut given = volume(&rt, Answer::Listed)?;
    given.other = Some((2, Answer::Refused(Code::Protected)));
    let wanted = Wanted {
        went: Went::NotAll,
        replies: &[Reply::Ok, Reply::No(Code::Protected)],
        printed: b"A is purged\n",
        told: b"\
tape: TAPE: B: error 11 Protected: it is the redo file
tape: TAPE: C: it was not tried
",
    };
    purges(&rt, given, true, 100, &wanted)
}

#[test]
fn a_fault_ends_the_job(rt: HostRuntime) -> Result<(), Fail> {
    let mut given = volume(&rt, Answer::Listed)?;
    given.other = Some((1, Answer::Fault));
    let wanted = Wanted {
        went: Went::NotAll,
        replies: &[Reply::FaultMedium],
        printed: b"",
        told: b"\
tape: TAPE: A: the image could not be read or written
tape: TAPE: B: it was not tried
tape: TAPE: C: it was not tried
",
    };
    purges(&rt, given, false, 100, &wanted)
}

/// The second line does not fit. The second change was made, so it has no message.
#[test]
fn lost_output_ends_the_job(rt: HostRuntime) -> Result<(), Fail> {
    let given = volume(&rt, Answer::Listed)?;
    let wanted = Wanted {
        went: Went::Unwritten,
        replies: &[Reply::Ok; 2],
        printed: b"A is purged\n",
        told: b"\
tape: TAPE: standard output could not be written
tape: TAPE: C: it was not tried
",
    };
    purges(&rt, given, false, 20, &wanted)
}

/// Writes the message of one change of the file A that was refused, and compares its error and advice.
fn tells(
    rt: &(impl Abort + AllocGlobal),
    change: Change<'_>,
    code: Code,
    told: &[u8],
) -> Result<(), Fail> {
    let mut wanted = MemorySink::new(rt.alloc(), 1000, Vec::new(rt.alloc()))?;
    let parts = write_parts(&mut wanted, &[b"tape: TAPE: A: ", told, b"\n"]);
    assert!(rt; parts.is_ok());
    let steps = [Step {
        change,
        instead: None,
        subject: b"A",
        line: b"",
    }];
    let mut error = MemorySink::new(rt.alloc(), 1000, Vec::new(rt.alloc()))?;
    let ending = Ending::Went(Went::NotAll);
    write_changed(&mut error, "TAPE", ending, &steps, &[Reply::No(code)]);
    assert!(rt; same_bytes(error.written(), wanted.written()));
    Ok(())
}

#[test]
fn a_refusal_has_its_advice(rt: HostRuntime) -> Result<(), Fail> {
    let old = name(&rt, b"A");
    let new = NewName::of(&old).expect(&rt, "a new name");
    let store = Change::Store {
        name: new,
        kind: 1,
        field: [0; 4],
        bytes: b"",
    };
    let format = Change::Format {
        label: NewLabel::of(b"HP41").expect(&rt, "a label"),
        slots: 64,
    };
    let rows: [(Change<'_>, Code, &[u8]); 11] = [
        (
            store,
            Code::NotLif,
            b"error 3 NotLif: the image has no LIF volume that can be read; 'tape why IMAGE' tells why",
        ),
        (
            store,
            Code::Exists,
            b"error 5 Exists: there is a file of that name already",
        ),
        (
            Change::Adopt,
            Code::Exists,
            b"error 5 Exists: there is a file REDOFILE, which is no redo file at its place",
        ),
        (
            store,
            Code::NoSlot,
            b"error 6 NoSlot: the directory has no free slot",
        ),
        (
            store,
            Code::NoRoom,
            b"error 7 NoRoom: no free place is large enough",
        ),
        (
            format,
            Code::NoRoom,
            b"error 7 NoRoom: the medium has no room for that many slots",
        ),
        (
            store,
            Code::NoRedo,
            b"error 8 NoRedo: the volume has no redo file; 'tape adopt IMAGE' makes one",
        ),
        (
            Change::Adopt,
            Code::InUse,
            b"error 10 InUse: a file lies in the records that the redo file needs",
        ),
        (
            Change::Rename { old, new },
            Code::Protected,
            b"error 11 Protected: REDOFILE is the name of the redo file",
        ),
        (
            store,
            Code::NeedsUpgrade,
            b"error 14 NeedsUpgrade: run 'tape upgrade IMAGE' first; that takes 30 records",
        ),
        (store, Code::BadName, b"error 9 BadName"),
    ];
    for row in &rows {
        tells(&rt, row.0, row.1, row.2)?;
    }
    Ok(())
}

/// Nothing was tried on an image that is not there: it has one message.
#[test]
fn an_image_that_is_not_there_has_one_message(rt: HostRuntime) -> Result<(), Fail> {
    let steps = [purge(&rt, b"A", b"")];
    let mut error = MemorySink::new(rt.alloc(), 1000, Vec::new(rt.alloc()))?;
    write_changed(&mut error, "TAPE", Ending::NoImage, &steps, &[]);
    assert!(rt; same_bytes(error.written(), b"tape: TAPE: there is no such image\n"));
    Ok(())
}
