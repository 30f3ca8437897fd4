ghost use Rattle.std.specs.Prelude.{◌≡◌};

use crate::stream::{Failed, Sink, Source, faulted};
use std::io::{Read, Write};

/// A source over any reader of std, such as standard input or a file. It tells what the reader tells. Each error
/// of the reader, an interrupted call too, is a counted fault; the count stands still at its last value.
#[derive(Drop)]
pub struct StdSource<R> {
    reader: R,
    faults: u64,
}

impl<R: Read> StdSource<R> {
    /// A source of the bytes that the reader gives from now on.
    pub fn new(reader: R) -> StdSource<R>
        ensures told { ⟦<StdSource<R> as Source>⟧.left result ≡ R.remaining reader }
        ensures faults { ⟦<StdSource<R> as Source>⟧.faults result ≡ 0 }
    {
        StdSource { reader, faults: 0 }
    }
}

impl<R: Read> Source for StdSource<R> {
    ghost left = { λ s. R.remaining s.reader };

    ghost faults = { λ s. s.faults };

    fn read(&mut self, into: &mut [u8]) -> Result<usize, Failed> {
        match self.reader.read(into) {
            Ok(count) => Ok(count),
            Err(_) => Err(faulted(&mut self.faults)),
        }
    }
}

/// A sink over any writer of std, such as standard output or a file. It tells what the writer tells. Each error of
/// the writer, and a write that takes nothing, is a counted fault; the count stands still at its last value.
#[derive(Drop)]
pub struct StdSink<W> {
    writer: W,
    faults: u64,
}

impl<W: Write> StdSink<W> {
    /// A sink that appends to what the writer holds.
    pub fn new(writer: W) -> StdSink<W>
        ensures told { ⟦<StdSink<W> as Sink>⟧.written result ≡ W.contents writer }
        ensures faults { ⟦<StdSink<W> as Sink>⟧.faults result ≡ 0 }
    {
        StdSink { writer, faults: 0 }
    }
}

impl<W: Write> Sink for StdSink<W> {
    ghost written = { λ s. W.contents s.writer };

    ghost faults = { λ s. s.faults };

    fn write(&mut self, piece: &[u8]) -> Result<usize, Failed> {
        match self.writer.write(piece) {
            Ok(count) if count > 0 => Ok(count),
            _ => Err(faulted(&mut self.faults)),
        }
    }
}
