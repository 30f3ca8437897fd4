ghost use Rattle.std.specs.Prelude.{◌≡◌, ◌≤◌, ◌+◌, ℕ, [], length};
ghost use Rattle.lif_model.specs.Tape.{Tape};
ghost use Rattle.il_check.specs.Reading.{ReadsTrace, HasReadCause};
ghost use Rattle.il_check.specs.Tracing.{HasTaken};

use crate::tracing::Tracing;
use il_ports::Source;

/// How many bytes a trace may have.
pub const LONGEST_TRACE: usize = 1_073_741_824;

/// How many bytes are read at once.
const CHUNK: usize = 4096;

/// Why a trace was not read to its end.
#[derive(Clone, Copy)]
pub(crate) enum Cut {
    /// The source failed.
    Failed,
    /// It has more bytes than a trace may have.
    TooLong,
}

/// Reads a trace to its end, of which no byte was taken yet.
pub(crate) fn read_trace<S: Source>(trace: &mut S, tracing: &mut Tracing) -> Result<(), Cut>
    requires { tracing.old.lines ≡ 0 }
    ensures reads { (k d : ℕ) (old : Tape) → HasTaken k d old [] tracing.old →
        ReadsTrace k d old (S.left trace.old) (S.left trace.new) tracing.new result }
    ensures cause { HasReadCause (S.faults trace.old) (S.faults trace.new) result }
    ensures lines { tracing.new.lines ≤ LONGEST_TRACE + 1 }
    ensures size { length tracing.new.readers.effects.expected.records ≡ length tracing.old.readers.effects.expected.records }
{
    let mut chunk = [0; CHUNK];
    let mut left = LONGEST_TRACE;
    'pieces: loop {
        let Ok(count) = trace.read(&mut chunk) else {
            return Err(Cut::Failed);
        };
        if count == 0 {
            tracing.end();
            return Ok(());
        }
        if count > left {
            return Err(Cut::TooLong);
        }
        left -= count;
        tracing.take(&chunk[..count]);
    }
}
