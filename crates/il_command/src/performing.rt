ghost use Rattle.lif_model.specs.Causes.{HasCause};
ghost use Rattle.std.specs.Prelude.{◌≡◌, ◌≤◌, ◌+◌, [], length, map, string_bytes, IfErr, IfOk, OnOk};
ghost use Rattle.std.specs.IoError.{error_kind};
ghost use Rattle.std.specs.Io.KnownBytes.{Appends};
ghost use Rattle.std.specs.List.{All};
ghost use Rattle.std.specs.Process.{exit_status};
ghost use Rattle.il_ring.specs.Guests.{IsIdleGuest, MayBeGuest, guest_devices};
ghost use Rattle.il_ring.specs.Rings.{MayStand};
ghost use Rattle.il_command.specs.Messages.{line_of, way_of};
ghost use Rattle.exits.specs.Statuses.{IsUnreadStatus};
ghost use Rattle.il_command.specs.Performing.{ChecksWith, IsCheck, IsRun, IsUnread, RunsWith};
ghost use Rattle.il_command.specs.Performing.{devices, status_made, streams, way_made};
ghost use Rattle.il_command.specs.declared.messages.Way.TheVariants.{Script, Check};

use crate::checking::{Checked, check_with};
use crate::messages::Way;
use crate::running::{Finished, run_with};
use crate::telling::told;
use exits::{exit, unread_status};
use il_device::Device;
use il_guest::Guest;
use il_ports::{Failed, Images, Sink, Source, StdSink, StdSource, TapeFile};
use std::alloc::Global;
use std::io::{self, Read, Write};
use std::process::ExitCode;

/// What the program did by its arguments, and what it returns.
#[derive(Drop)]
pub enum Performed<A: Drop, B: Drop> {
    /// The arguments were not read. This is the exit status.
    Unread(u8),
    /// It answered a script.
    Ran(A),
    /// It checked a trace.
    Checked(B),
}

/// What the program did, and how its process ends.
#[derive(Drop)]
pub struct Outcome<A: Drop, B: Drop> {
    /// What it did by its arguments.
    pub performed: Performed<A, B>,
    /// Whether the line for the exit status was written.
    pub told: Result<(), Failed>,
    /// How the process ends.
    pub code: ExitCode,
}

impl<A: Drop, B: Drop> Outcome<A, B> {
    ghost use Rattle.std.specs.Prelude.{◌≡◌};

    /// Closes the images, and says how the process ends.
    pub fn close(self) -> ExitCode
        ensures { result ≡ self.code }
    {
        let Outcome {
            performed,
            told: _,
            code,
        } = self;
        match performed {
            Performed::Unread(_) => {}
            Performed::Ran(run) => drop(run),
            Performed::Checked(check) => drop(check),
        }
        code
    }
}

impl<A: Drop, B: Drop> Performed<A, B> {
    ghost use Rattle.std.specs.Prelude.{◌≡◌};
    ghost use Rattle.il_command.specs.Performing.{way_made};

    /// Whether it checked a trace. Arguments that were not read count as those of a script.
    fn way(&self) -> Way
        ensures { result ≡ way_made self.now }
    {
        match self {
            Performed::Unread(_) | Performed::Ran(_) => Way::Script,
            Performed::Checked(_) => Way::Check,
        }
    }
}

impl<R: Read + Drop, W: Write + Drop, F: TapeFile + Drop, I: Images<F> + Drop> Performed<
    Finished<R, W, F, I>,
    Checked<R, W, F, I>,
> {
    ghost use Rattle.std.specs.Prelude.{◌≡◌};
    ghost use Rattle.il_command.specs.Performing.{status_made};

    /// The exit status.
    fn status(&self) -> u8
        ensures { result ≡ status_made (λ run. run.status) (λ check. check.status) self.now }
    {
        match self {
            Performed::Unread(status) => *status,
            Performed::Ran(run) => run.status,
            Performed::Checked(check) => check.status,
        }
    }
}

/// Answers a script or checks a trace, as the arguments say.
fn perform<R: Read + Drop, W: Write + Drop, F: TapeFile + Drop, I: Images<F> + Drop>(
    alloc: Global,
    words: io::Result<Vec<String>>,
    reader: R,
    writer: W,
    images: I,
    others: I,
    after: Vec<Box<dyn Device>>,
    guest: Option<Guest>,
) -> Performed<Finished<R, W, F, I>, Checked<R, W, F, I>>
    requires few { length after.items + length (guest_devices guest) ≤ 29 }
    requires stand { All (λ b. MayStand (⟦<Box<dyn Device> as Device>⟧.state b)) after.items }
    requires guest { IsIdleGuest guest × MayBeGuest guest }
    ensures unread { IfErr words (λ error. IsUnread result (IsUnreadStatus (error_kind error))) }
    ensures script { IfOk words (λ list. way_of (map string_bytes list.items) ≡ Script → IsRun result (λ run.
        RunsWith F.view I.view run.status (map string_bytes list.items) images run.rig.medium
        (streams (R.remaining reader) (W.contents writer))
        (streams (⟦<StdSource<R> as Source>⟧.left run.script) (⟦<StdSink<W> as Sink>⟧.written run.out))
        (devices ⟦<Box<dyn Device> as Device>⟧.state [] after.items guest)
        (devices ⟦<Box<dyn Device> as Device>⟧.state run.rig.before.items run.rig.after.items run.rig.guest)
        (⟦<StdSource<R> as Source>⟧.faults run.script) (⟦<StdSink<W> as Sink>⟧.faults run.out))) }
    ensures check { IfOk words (λ list. way_of (map string_bytes list.items) ≡ Check → IsCheck result (λ check.
        ChecksWith F.view I.view check.status (map string_bytes list.items) images others check.before check.after
        (streams (R.remaining reader) (W.contents writer))
        (streams (⟦<StdSource<R> as Source>⟧.left check.trace) (⟦<StdSink<W> as Sink>⟧.written check.out))
        (⟦<StdSource<R> as Source>⟧.faults check.trace) (⟦<StdSink<W> as Sink>⟧.faults check.out))) }
{
    let words = match words {
        Ok(words) => words,
        Err(error) => return Performed::Unread(unread_status(&error)),
    };
    match Way::of(&words) {
        Way::Script => Performed::Ran(run_with(
            alloc, &words, reader, writer, images, after, guest,
        )),
        Way::Check => Performed::Checked(check_with(
            alloc,
            &words,
            reader,
            writer,
            (images, others),
        )),
    }
}

/// The program over a reader and a writer of std, over named images, and over the devices after the drive and a second
/// controller. It answers a script or checks a trace, as the arguments say, and then tells on `error` what there is to
/// tell of the exit status.
pub fn perform_with<
    R: Read + Drop,
    W: Write + Drop,
    K: Sink,
    F: TapeFile + Drop,
    I: Images<F> + Drop,
>(
    alloc: Global,
    words: io::Result<Vec<String>>,
    reader: R,
    writer: W,
    error: &mut K,
    images: I,
    others: I,
    after: Vec<Box<dyn Device>>,
    guest: Option<Guest>,
) -> Outcome<Finished<R, W, F, I>, Checked<R, W, F, I>>
    requires few { length after.items + length (guest_devices guest) ≤ 29 }
    requires stand { All (λ b. MayStand (⟦<Box<dyn Device> as Device>⟧.state b)) after.items }
    requires guest { IsIdleGuest guest × MayBeGuest guest }
    ensures unread { IfErr words (λ error. IsUnread result.performed (IsUnreadStatus (error_kind error))) }
    ensures script { IfOk words (λ list. way_of (map string_bytes list.items) ≡ Script →
        IsRun result.performed (λ run. RunsWith F.view I.view run.status (map string_bytes list.items) images
        run.rig.medium
        (streams (R.remaining reader) (W.contents writer))
        (streams (⟦<StdSource<R> as Source>⟧.left run.script) (⟦<StdSink<W> as Sink>⟧.written run.out))
        (devices ⟦<Box<dyn Device> as Device>⟧.state [] after.items guest)
        (devices ⟦<Box<dyn Device> as Device>⟧.state run.rig.before.items run.rig.after.items run.rig.guest)
        (⟦<StdSource<R> as Source>⟧.faults run.script) (⟦<StdSink<W> as Sink>⟧.faults run.out))) }
    ensures check { IfOk words (λ list. way_of (map string_bytes list.items) ≡ Check →
        IsCheck result.performed (λ check. ChecksWith F.view I.view check.status (map string_bytes list.items)
        images others check.before check.after
        (streams (R.remaining reader) (W.contents writer))
        (streams (⟦<StdSource<R> as Source>⟧.left check.trace) (⟦<StdSink<W> as Sink>⟧.written check.out))
        (⟦<StdSource<R> as Source>⟧.faults check.trace) (⟦<StdSink<W> as Sink>⟧.faults check.out))) }
    ensures told { OnOk result.told (Appends (K.written error.old) (K.written error.new)
        (line_of (way_made result.performed)
        (status_made (λ run. run.status) (λ check. check.status) result.performed))) }
    ensures cause { HasCause (K.faults error.old) (K.faults error.new) result.told }
    ensures code { exit_status result.code ≡ status_made (λ run. run.status) (λ check. check.status) result.performed }
{
    let performed = perform(alloc, words, reader, writer, images, others, after, guest);
    let status = performed.status();
    let told = told(error, performed.way(), status);
    Outcome {
        performed,
        told,
        code: exit(status),
    }
}
