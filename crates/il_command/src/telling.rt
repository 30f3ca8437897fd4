ghost use Rattle.lif_model.specs.Causes.{HasCause};
ghost use Rattle.std.specs.Prelude.{◌≡◌, OnOk};
ghost use Rattle.std.specs.Io.KnownBytes.{Appends};
ghost use Rattle.std.specs.Process.{exit_status};
ghost use Rattle.il_command.specs.Messages.{line_of};
ghost use Rattle.il_command.specs.declared.messages.Way.TheVariants.{Script};

use crate::messages::{Way, message};
use exits::{OUT_OF_MEMORY, exit};
use il_ports::{Failed, Sink, write_all};
use std::process::ExitCode;

/// Writes what there is to tell of an exit status, as a line.
pub fn told<K: Sink>(to: &mut K, way: Way, status: u8) -> Result<(), Failed>
    ensures line { OnOk result (Appends (K.written to.old) (K.written to.new) (line_of way status)) }
    ensures cause { HasCause (K.faults to.old) (K.faults to.new) result }
{
    let Some(text) = message(way, status) else {
        return Ok(());
    };
    write_all(to, text.as_bytes())?;
    write_all(to, b"\n")
}

/// Tells that there is no memory to begin with. The first value is how the process ends, and the second is whether the
/// line was written.
pub fn no_memory<K: Sink>(to: &mut K) -> (ExitCode, Result<(), Failed>)
    ensures status { exit_status result.0 ≡ 7 }
    ensures line { OnOk result.1 (Appends (K.written to.old) (K.written to.new) (line_of Script 7)) }
    ensures cause { HasCause (K.faults to.old) (K.faults to.new) result.1 }
{
    (exit(OUT_OF_MEMORY), told(to, Way::Script, OUT_OF_MEMORY))
}
