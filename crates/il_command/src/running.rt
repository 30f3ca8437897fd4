ghost use Rattle.std.specs.Prelude.{◌≡◌, ◌≤◌, ◌+◌, [], length, map, string_bytes};
ghost use Rattle.std.specs.List.{All};
ghost use Rattle.il_ring.specs.Guests.{IsIdleGuest, MayBeGuest, guest_devices};
ghost use Rattle.il_ring.specs.Rings.{MayStand};
ghost use Rattle.il_command.specs.Performing.{RunsWith, devices, streams};

use il_device::Device;
use il_guest::Guest;
use il_host::{Ended, Rig, run_il};
use il_ports::{FileMedium, Images, Sink, Source, StdSink, StdSource, TapeFile, ToChange};
use std::alloc::Global;
use std::io::{Read, Write};

/// How a run ended, and what it returns.
#[derive(Drop)]
pub struct Finished<R: Read + Drop, W: Write + Drop, F: TapeFile + Drop, I: Images<F> + Drop> {
    /// The exit status.
    pub status: u8,
    /// What is left of the script.
    pub script: StdSource<R>,
    /// What was written.
    pub out: StdSink<W>,
    /// The drive, which opens images to change them, and the devices after it.
    pub rig: Rig<FileMedium<F, I, ToChange>>,
}

/// A run over a reader and a writer of std, over named images, and over the devices after the drive and a second
/// controller, as `run_il` makes it. It takes no memory of its own.
pub fn run_with<R: Read + Drop, W: Write + Drop, F: TapeFile + Drop, I: Images<F> + Drop>(
    alloc: Global,
    words: &[String],
    reader: R,
    writer: W,
    images: I,
    after: Vec<Box<dyn Device>>,
    guest: Option<Guest>,
) -> Finished<R, W, F, I>
    requires few { length after.items + length (guest_devices guest) ≤ 29 }
    requires stand { All (λ b. MayStand (⟦<Box<dyn Device> as Device>⟧.state b)) after.items }
    requires guest { IsIdleGuest guest × MayBeGuest guest }
    ensures { RunsWith F.view I.view result.status (map string_bytes words.now) images result.rig.medium
        (streams (R.remaining reader) (W.contents writer))
        (streams (⟦<StdSource<R> as Source>⟧.left result.script) (⟦<StdSink<W> as Sink>⟧.written result.out))
        (devices ⟦<Box<dyn Device> as Device>⟧.state [] after.items guest)
        (devices ⟦<Box<dyn Device> as Device>⟧.state result.rig.before.items result.rig.after.items result.rig.guest)
        (⟦<StdSource<R> as Source>⟧.faults result.script) (⟦<StdSink<W> as Sink>⟧.faults result.out) }
{
    let mut script = StdSource::new(reader);
    let mut out = StdSink::new(writer);
    let rig = Rig {
        medium: FileMedium::new(images),
        before: Vec::new(alloc),
        after,
        guest,
    };
    let Ended { status, rig } = run_il(alloc, words, &mut script, &mut out, rig);
    // What the tape is used for, the drive says itself.
    rig.medium.file();
    Finished {
        status,
        script,
        out,
        rig,
    }
}
