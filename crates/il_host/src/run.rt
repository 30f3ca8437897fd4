ghost use Rattle.std.specs.Prelude.{◌≡◌, ◌≢◌, ◌+◌, ◌<◌, ◌≤◌, map, length, string_bytes, not, IfSome};
ghost use Rattle.std.specs.Option.{option_or};
ghost use Rattle.std.specs.List.{All};
ghost use Rattle.lif_model.specs.Shelf.{IsSize};
ghost use Rattle.il_ring.specs.Rings.{MayStand};
ghost use Rattle.host_model.specs.Endings.{HasEndingCause, HasNoTape, IsEarly};
ghost use Rattle.host_model.specs.Leaves.{LeavesBy};
ghost use Rattle.host_model.specs.Orders.{taking_part};
ghost use Rattle.il_host.specs.EarlyEndings.{uninserted_ending, unread_ending};
ghost use Rattle.il_host.specs.Run.{end_of};
ghost use Rattle.il_host.specs.Whole.{AnswersOver, FailsBy, MayHaveLeft, MayStandBeside, RunLeaves, outside_of};
ghost use Rattle.il_host.specs.Words.{order_in, order_of};
ghost use Rattle.il_words.specs.Asked.{asked_by};
ghost use Rattle.il_ring.specs.Plans.{IsPlan};
ghost use Rattle.il_host.specs.declared.ending.Ending.{Ending};

use crate::ending::Ending;
use crate::host::Host;
use crate::scripts::{Buffers, answer_script};
use il_device::Device;
use il_guest::Guest;
use il_ports::{Failed, Inserted, Medium, Sink, Source};
use il_ring::Rig;
use il_words::{Words, WordsFault, read_words};
use std::alloc::Global;

/// How a run ended, and what it hands back.
#[derive(Drop)]
pub struct Ended<M: Medium> {
    /// The exit status, 0 to 9: the number of an [`Ending`].
    pub status: u8,
    /// The rig, with the tape and the devices as they are.
    pub rig: Rig<M>,
}

/// Takes a second controller out of its place, where it takes no part.
fn keep_aside(guest: &mut Option<Guest>, takes_part: bool) -> Option<Guest>
    ensures aside { result ≡ taking_part (not takes_part) guest.old }
    ensures left { guest.new ≡ taking_part takes_part guest.old }
{
    if takes_part { None } else { guest.take() }
}

/// Puts a second controller into a rig, if it was kept aside.
fn put_back<M: Medium + Drop>(rig: Rig<M>, aside: Option<Guest>) -> Rig<M>
    ensures { result ≡ record rig { guest = option_or aside rig.guest } }
{
    match aside {
        Some(guest) => Rig {
            guest: Some(guest),
            ..rig
        },
        None => rig,
    }
}

/// How a run ends if its arguments were not read.
fn ending_by(fault: WordsFault) -> Ending
    ensures { result ≡ unread_ending fault }
{
    match fault {
        WordsFault::Refused => Ending::BadWords,
        WordsFault::OutOfMemory => Ending::OutOfMemory,
    }
}

/// How a run ends if the image was not inserted, or `None` if it was.
fn ending_of(answer: &Result<Inserted, Failed>) -> Option<Ending>
    ensures { result ≡ uninserted_ending answer.now }
{
    match answer {
        Ok(Inserted::Tape) => None,
        Ok(Inserted::NoSuch) => Some(Ending::NoImage),
        Ok(Inserted::BadSize(_)) => Some(Ending::ImageTooLarge),
        Err(_) => Some(Ending::InsertFailed),
    }
}

/// Opens the host on the tape that is in the drive, with the faults that are planned, and answers the script. A second
/// controller takes part where the words ask for it.
fn run_script<S: Source, K: Sink, M: Medium + Drop>(
    alloc: Global,
    words: &Words<'_>,
    script: &mut S,
    out: &mut K,
    mut rig: Rig<M>,
) -> (Ending, Rig<M>)
    requires devices { MayStandBeside ⟦<Box<dyn Device> as Device>⟧.state rig.before.items rig.after.items rig.guest }
    requires size { IsSize (M.view rig.medium).record_count }
    requires plan { IsPlan words.now.plan.items }
    requires seed { IfSome words.now.generated (λ g. g.seed < 2147483648) }
    ensures over { result.0 ≢ Ending.OutOfMemory → AnswersOver (order_of (asked_by words.now)) (end_of result.0) (M.view rig.medium) (M.view result.1.medium)
        (outside_of M.view S.left K.written ⟦<Box<dyn Device> as Device>⟧.state script.old out.old rig)
        (outside_of M.view S.left K.written ⟦<Box<dyn Device> as Device>⟧.state script.new out.new result.1) }
    ensures kept { result.0 ≡ Ending.OutOfMemory → (result.1.medium ≡ rig.medium)
        × (map ⟦<Box<dyn Device> as Device>⟧.state result.1.before.items ≡ map ⟦<Box<dyn Device> as Device>⟧.state rig.before.items)
        × (map ⟦<Box<dyn Device> as Device>⟧.state result.1.after.items ≡ map ⟦<Box<dyn Device> as Device>⟧.state rig.after.items)
        × (result.1.guest ≡ rig.guest) }
    ensures untouched { IsEarly (end_of result.0) → (script.new ≡ script.old) × (out.new ≡ out.old) }
    ensures cause { HasEndingCause (end_of result.0) (S.faults script.old) (S.faults script.new)
        (K.faults out.old) (K.faults out.new) (M.view rig.medium).faults (M.view result.1.medium).faults }
    ensures inside { HasNoTape (end_of result.0) → ⊥ }
{
    let Ok(buffers) = Buffers::new(alloc) else {
        return (Ending::OutOfMemory, rig);
    };
    let aside = keep_aside(&mut rig.guest, words.guest);
    match Host::open(alloc, rig, words.plan.as_slice()) {
        Ok(mut host) => {
            let ending = answer_script(
                buffers,
                words.generated,
                words.quiet,
                script,
                &mut host,
                out,
            );
            (ending, put_back(host.close(), aside))
        }
        Err(refused) => (Ending::OutOfMemory, put_back(refused.rig, aside)),
    }
}

/// Reads the words, inserts the image and answers the script.
fn run<S: Source, K: Sink, M: Medium + Drop>(
    alloc: Global,
    words: &[String],
    script: &mut S,
    out: &mut K,
    mut rig: Rig<M>,
) -> (Ending, Rig<M>)
    requires empty { (M.view rig.medium).record_count ≡ 0 }
    requires devices { MayStandBeside ⟦<Box<dyn Device> as Device>⟧.state rig.before.items rig.after.items rig.guest }
    ensures leaves { LeavesBy (end_of result.0) (order_in (map string_bytes words.now))
        (outside_of M.view S.left K.written ⟦<Box<dyn Device> as Device>⟧.state script.old out.old rig)
        (outside_of M.view S.left K.written ⟦<Box<dyn Device> as Device>⟧.state script.new out.new result.1)
        (MayHaveLeft (M.view rig.medium) (M.view result.1.medium)) }
    ensures cause { HasEndingCause (end_of result.0) (S.faults script.old) (S.faults script.new)
        (K.faults out.old) (K.faults out.new) (M.view rig.medium).faults (M.view result.1.medium).faults }
    ensures failed { FailsBy (end_of result.0) (order_in (map string_bytes words.now)) (M.refuses rig.medium result.1.medium) }
    ensures empty { HasNoTape (end_of result.0) → (M.view result.1.medium).record_count ≡ 0 }
    ensures untouched { IsEarly (end_of result.0) → (script.new ≡ script.old) × (out.new ≡ out.old) }
{
    let words = match read_words(alloc, words) {
        Ok(words) => words,
        Err(fault) => return (ending_by(fault), rig),
    };
    let answer = rig.medium.insert(words.image, words.made);
    match ending_of(&answer) {
        None => run_script(alloc, &words, script, out, rig),
        Some(ending) => (ending, rig),
    }
}

/// A run: reads the words, inserts the image that they name, opens a host on it, and answers the script line after
/// line. No tape is in the drive yet, and the devices make a new ring, as `Rig::fits` says. A second controller is on
/// the loop where the words ask for it; else it is kept aside and handed back as it is.
pub fn run_il<S: Source, K: Sink, M: Medium + Drop>(
    alloc: Global,
    words: &[String],
    script: &mut S,
    out: &mut K,
    rig: Rig<M>,
) -> Ended<M>
    requires empty { (M.view rig.medium).record_count ≡ 0 }
    requires devices { MayStandBeside ⟦<Box<dyn Device> as Device>⟧.state rig.before.items rig.after.items rig.guest }
    ensures leaves { RunLeaves result.status (map string_bytes words.now) (M.view rig.medium) (M.view result.rig.medium)
        (outside_of M.view S.left K.written ⟦<Box<dyn Device> as Device>⟧.state script.old out.old rig)
        (outside_of M.view S.left K.written ⟦<Box<dyn Device> as Device>⟧.state script.new out.new result.rig)
        (S.faults script.old) (S.faults script.new) (K.faults out.old) (K.faults out.new) (M.refuses rig.medium result.rig.medium)
        ((script.new ≡ script.old) × (out.new ≡ out.old)) }
{
    let (ending, rig) = run(alloc, words, script, out, rig);
    Ended {
        status: ending.status(),
        rig,
    }
}
