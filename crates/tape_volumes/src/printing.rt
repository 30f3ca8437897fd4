//! Texts on standard output.
ghost use Rattle.tape_volumes.specs.Outputs.{PrintsWith, written};

use crate::messages::output_lost;
use il_ports::{Sink, write_all};

/// Writes a text to standard output, and says the exit status, which is `done` if all of it was written.
pub fn print<K: Sink, E: Sink>(done: u8, text: &[u8], out: &mut K, error: &mut E) -> u8
    ensures { PrintsWith done text.now result
        (written (K.written out.old) (K.faults out.old) (E.written error.old) (E.faults error.old))
        (written (K.written out.new) (K.faults out.new) (E.written error.new) (E.faults error.new)) }
{
    match write_all(out, text) {
        Ok(()) => done,
        Err(_) => output_lost(error),
    }
}
