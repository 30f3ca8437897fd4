//! The job that makes changes of one image.
ghost use Rattle.std.specs.Prelude.{◌≡◌, ◌<◌, ◌≤◌, [], length};
ghost use Rattle.std.specs.List.{list_all};
ghost use Rattle.std.specs.Vec.{vec_capacity};
ghost use Rattle.tape_changes.specs.Changing.{AreFormed, AttemptLeaves, ChangesDid, FrontIsLeft, IsFormedStep, NextBy};
ghost use Rattle.tape_changes.specs.Changing.{StepTried, StepsTaken, attempt_of, attempts_of, output_of, says_exists};
ghost use Rattle.tape_changes.specs.Changing.{was_made};
ghost use Rattle.tape_volumes.specs.Volumes.{StaysBeside};

use il_ports::{Sink, write_all};
use il_script::{Code, Reply};
use std::alloc::Global;
use tape_volumes::{Change, VolumeJob, Volumes, Went};

/// A change, with what is said of it.
#[derive(Clone, Copy, Debug)]
pub struct Step<'a> {
    /// The change.
    pub change: Change<'a>,
    /// What is asked for instead of it, if it is refused since there is a file of its name already.
    pub instead: Option<Change<'a>>,
    /// What a message says that it concerns, such as the name of a file.
    pub subject: &'a [u8],
    /// What is printed once it was made.
    pub line: &'a [u8],
}

/// What the job does after a step.
#[derive(Clone, Copy, Debug, PartialEq, Eq)]
pub(crate) enum Next {
    /// It takes the next step.
    GoesOn,
    /// It ends.
    Ends,
    /// It ends, since standard output could not be written.
    LosesOutput,
}

/// Prints the line of a step if its change was made, and says what is next.
pub(crate) fn next_by<K: Sink>(reply: Reply, ends_early: bool, line: &[u8], out: &mut K) -> Next
    ensures { NextBy ends_early reply line.now result
        (K.written out.old) (K.written out.new) (K.faults out.old) (K.faults out.new) }
{
    match reply {
        Reply::Ok => match write_all(out, line) {
            Ok(()) => Next::GoesOn,
            Err(_) => Next::LosesOutput,
        },
        Reply::No(_) if !ends_early => Next::GoesOn,
        _ => Next::Ends,
    }
}

/// Whether all changes were made.
fn all_made(replies: &[Reply]) -> bool
    ensures { result ≡ list_all was_made replies.now }
{
    'replies: for reply in replies {
        if *reply != Reply::Ok {
            return false;
        }
    }
    true
}

/// Whether a change was refused since there is a file of its name already.
fn says_exists(reply: Reply) -> bool
    ensures { result ≡ says_exists reply }
{
    matches!(reply, Reply::No(Code::Exists))
}

/// Asks for the change of a step, and then for the one instead of it if there is a file of its name already.
fn try_step<V: Volumes>(volumes: &mut V, step: &Step<'_>) -> Reply
    requires valid { (V.seen volumes.old).valid }
    requires formed { IsFormedStep step.now }
    ensures valid { (V.seen volumes.new).valid }
    ensures tried { StepTried step.now result (V.seen volumes.old).mounted (V.seen volumes.new).mounted }
    ensures beside { StaysBeside (AttemptLeaves (attempt_of step.now) (V.seen volumes.old).mounted)
        (V.seen volumes.old) (V.seen volumes.new) }
{
    let first = volumes.change(&step.change);
    match &step.instead {
        Some(change) if says_exists(first) => volumes.change(change),
        _ => first,
    }
}

/// Takes the steps, one after the other, until the job ends. Says whether standard output failed.
fn take_steps<V: Volumes, K: Sink>(
    volumes: &mut V,
    steps: &[Step<'_>],
    ends_early: bool,
    replies: &mut Vec<Reply>,
    out: &mut K,
) -> bool
    requires valid { (V.seen volumes.old).valid }
    requires formed { AreFormed steps.now }
    requires some { 0 < length steps.now }
    requires empty { replies.old.items ≡ [] }
    requires room { length steps.now ≤ vec_capacity replies.old }
    ensures valid { (V.seen volumes.new).valid }
    ensures taken { StepsTaken ends_early steps.now replies.new.items result
        (V.seen volumes.old).mounted (V.seen volumes.new).mounted
        (output_of (K.written out.old) (K.faults out.old)) (output_of (K.written out.new) (K.faults out.new)) }
    ensures beside { StaysBeside (FrontIsLeft (attempts_of steps.now) (V.seen volumes.old).mounted)
        (V.seen volumes.old) (V.seen volumes.new) }
{
    'steps: for step in steps {
        let reply = try_step(volumes, step);
        replies.push(reply).unwrap();
        match next_by(reply, ends_early, step.line, out) {
            Next::GoesOn => {}
            Next::Ends => return false,
            Next::LosesOutput => return true,
        }
    }
    false
}

/// Makes the changes of the steps, one after the other.
fn make_changes<V: Volumes, K: Sink>(
    volumes: &mut V,
    steps: &[Step<'_>],
    ends_early: bool,
    replies: &mut Vec<Reply>,
    out: &mut K,
) -> Went
    requires valid { (V.seen volumes.old).valid }
    requires formed { AreFormed steps.now }
    requires some { 0 < length steps.now }
    requires empty { replies.old.items ≡ [] }
    requires room { length steps.now ≤ vec_capacity replies.old }
    ensures valid { (V.seen volumes.new).valid }
    ensures did { ChangesDid ends_early steps.now result replies.new.items
        (V.seen volumes.old).mounted (V.seen volumes.new).mounted
        (output_of (K.written out.old) (K.faults out.old)) (output_of (K.written out.new) (K.faults out.new)) }
    ensures beside { StaysBeside (FrontIsLeft (attempts_of steps.now) (V.seen volumes.old).mounted)
        (V.seen volumes.old) (V.seen volumes.new) }
{
    if take_steps(volumes, steps, ends_early, replies, out) {
        Went::Unwritten
    } else if all_made(replies) {
        Went::Done
    } else {
        Went::NotAll
    }
}

/// A job that makes changes of one image, one after the other. It ends after a fault of the medium, and if standard
/// output fails.
#[derive(Drop)]
pub struct Changing<'a, K: Drop> {
    /// The changes, in this order. There is one at least.
    pub steps: &'a [Step<'a>],
    /// Whether it ends after a change that is refused.
    pub ends_early: bool,
    /// The replies to the changes. It is empty at first, with room for all of them.
    pub replies: Vec<Reply>,
    /// Standard output.
    pub out: K,
}

impl<'a, K: Sink + Drop> VolumeJob for Changing<'a, K> {
    ghost use Rattle.std.specs.Prelude.{◌≡◌, ◌<◌, ◌≤◌, [], length};
    ghost use Rattle.std.specs.Vec.{vec_capacity};
    ghost use Rattle.tape_changes.specs.Changing.{AreFormed, ChangesDid, FrontIsLeft, attempts_of, output_of};

    ghost asks = { λ job. AreFormed job.steps.now × (0 < length job.steps.now) × (job.replies.items ≡ [])
        × (length job.steps.now ≤ vec_capacity job.replies) };

    ghost does = { λ old new went s t. ChangesDid old.ends_early old.steps.now went new.replies.items s t
        (output_of (K.written old.out) (K.faults old.out)) (output_of (K.written new.out) (K.faults new.out)) };

    ghost leaves = { λ job s x. FrontIsLeft (attempts_of job.steps.now) s x };

    fn work<V: Volumes>(&mut self, _: Global, volumes: &mut V) -> Went {
        make_changes(
            volumes,
            self.steps,
            self.ends_early,
            &mut self.replies,
            &mut self.out,
        )
    }
}
