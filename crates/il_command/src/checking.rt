ghost use Rattle.std.specs.Prelude.{map, string_bytes};
ghost use Rattle.il_command.specs.Performing.{ChecksWith, streams};

use il_check::run_check;
use il_ports::{FileMedium, Images, Sink, Source, StdSink, StdSource, TapeFile, ToRead};
use std::alloc::Global;
use std::io::{Read, Write};

/// How a check ended, and what it returns.
#[derive(Drop)]
pub struct Checked<R: Read + Drop, W: Write + Drop, F: TapeFile + Drop, I: Images<F> + Drop> {
    /// The exit status.
    pub status: u8,
    /// What is left of the trace.
    pub trace: StdSource<R>,
    /// What was written.
    pub out: StdSink<W>,
    /// The drives with the images before the trace and after it.
    pub before: FileMedium<F, I, ToRead>,
    pub after: FileMedium<F, I, ToRead>,
}

/// A check over a reader and a writer of std, and over named images, which are opened only to read them, as `run_check`
/// makes it.
pub fn check_with<R: Read + Drop, W: Write + Drop, F: TapeFile + Drop, I: Images<F> + Drop>(
    alloc: Global,
    words: &[String],
    reader: R,
    writer: W,
    images: (I, I),
) -> Checked<R, W, F, I>
    ensures { ChecksWith F.view I.view result.status (map string_bytes words.now) images.0 images.1
        result.before result.after
        (streams (R.remaining reader) (W.contents writer))
        (streams (⟦<StdSource<R> as Source>⟧.left result.trace) (⟦<StdSink<W> as Sink>⟧.written result.out))
        (⟦<StdSource<R> as Source>⟧.faults result.trace) (⟦<StdSink<W> as Sink>⟧.faults result.out) }
{
    let mut trace = StdSource::new(reader);
    let mut out = StdSink::new(writer);
    let mut before = FileMedium::to_read(images.0);
    let mut after = FileMedium::to_read(images.1);
    let status = run_check(alloc, words, &mut trace, &mut out, &mut before, &mut after);
    // What each tape is used for, its drive says itself.
    before.file();
    after.file();
    Checked {
        status,
        trace,
        out,
        before,
        after,
    }
}
