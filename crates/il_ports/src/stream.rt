ghost use Rattle.std.specs.Prelude.{◌≡◌, ℕ, List, Option, ◌<◌, length};
ghost use Rattle.std.specs.Io.{ReadsAtMost};
ghost use Rattle.std.specs.Io.KnownBytes.{ReadConsumes, WriteAppends};
ghost use Rattle.lif_model.specs.Causes.{HasCause, Rose, next_count};
ghost use Rattle.il_ports.specs.Taking.{TakesSome};
ghost use Rattle.il_ports.specs.Writing.{WritesAll};

/// The one fault of a port. The port has counted it.
#[derive(Clone, Copy, Debug, PartialEq, Eq)]
pub struct Failed;

/// Counts a fault. A count stands still at its last value.
pub(crate) fn faulted(faults: &mut u64) -> Failed
    ensures counted { faults.new ≡ next_count faults.old }
    ensures rose { Rose faults.old faults.new }
{
    *faults = faults.saturating_add(1);
    Failed
}

/// Where bytes come from.
pub trait Source {
    // The bytes that are still to come, where the source tells them.
    ghost left: { Self → Option (List ℕ) };
    // How many calls have failed.
    ghost faults: { Self → ℕ };

    /// Fills the front of `into`, which is not empty, with the next bytes and says how many. `Ok(0)` is the end of
    /// the input. A failed call has taken nothing from it.
    fn read(&mut self, into: &mut [u8]) -> Result<usize, Failed>
        requires { 0 < length into.old }
        ensures bound { ReadsAtMost result into.new }
        ensures bytes { ReadConsumes (left self.old) (left self.new) result into.new }
        ensures cause { HasCause (faults self.old) (faults self.new) result };
}

/// Where bytes go.
pub trait Sink {
    // The bytes that were written, where the sink tells them.
    ghost written: { Self → Option (List ℕ) };
    // How many calls have failed.
    ghost faults: { Self → ℕ };

    /// Appends the first bytes of `piece`, which is not empty, and says how many: at least one. A failed call has
    /// appended nothing.
    fn write(&mut self, piece: &[u8]) -> Result<usize, Failed>
        requires { 0 < length piece.now }
        ensures bound { TakesSome result piece.now }
        ensures bytes { WriteAppends (written self.old) (written self.new) result piece.now }
        ensures cause { HasCause (faults self.old) (faults self.new) result };
}

/// Writes all of the bytes, in as many pieces as the sink takes. After a fault a front of them was written.
pub fn write_all<K: Sink>(out: &mut K, bytes: &[u8]) -> Result<(), Failed>
    ensures bytes { WritesAll (K.written out.old) (K.written out.new) bytes.now result }
    ensures cause { HasCause (K.faults out.old) (K.faults out.new) result }
{
    let mut from = 0;
    'pieces: while from < bytes.len() {
        let count = out.write(&bytes[from..])?;
        from += count;
    }
    Ok(())
}
