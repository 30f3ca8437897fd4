ghost use Rattle.std.specs.Prelude.{◌≢◌};
ghost use Rattle.tape_volumes.specs.Outputs.{WritesText};
ghost use Rattle.tape_volumes.specs.declared.went.Went.TheVariants as went;

use il_ports::{Sink, write_all};
use il_script::Code;

/// How a job on one image went.
#[derive(Clone, Copy, Debug, PartialEq, Eq)]
pub enum Went {
    /// All was done.
    Done,
    /// The volume refused it.
    Refused(Code),
    /// The medium failed.
    Fault,
    /// Standard output could not be written.
    Unwritten,
    /// There was no memory.
    OutOfMemory,
    /// The file does not tell how many bytes it has.
    NoSize,
    /// The folder could not be made or written.
    FolderLost,
    /// A file was not copied, or a change was not made.
    NotAll,
}

/// Writes a text, and says how that went.
pub fn written<K: Sink>(out: &mut K, text: &[u8]) -> Went
    ensures text { WritesText result text.now
        (K.written out.old) (K.written out.new) (K.faults out.old) (K.faults out.new) }
    ensures memory { result ≢ went.OutOfMemory }
{
    match write_all(out, text) {
        Ok(()) => Went::Done,
        Err(_) => Went::Unwritten,
    }
}
