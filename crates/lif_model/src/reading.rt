//! The slots of a tape, one entry after the other.
ghost use Rattle.std.specs.Prelude.{◌≡◌, ◌+◌, ◌*◌, ◌/◌, ◌%◌, ◌<◌, ◌≤◌, length, IfOk};
ghost use Rattle.lif_model.specs.Tape.{record_at};
ghost use Rattle.lif_model.specs.Header.{directory_end};
ghost use Rattle.lif_model.specs.Directory.{entry_at, slots_of};

use crate::Record;
use crate::fields::{four_at, is_end};
use std::alloc::{AllocError, Global};

/// Entry k of a record.
#[tactic(auto, unfolding(crate::specs::Directory::entry_at))]
fn entry_of(bytes: &Record, k: usize) -> [u8; 32]
    requires { k < 8 }
    ensures { result ≡ entry_at bytes.now k }
{
    let mut entry = [0; 32];
    entry.copy_from_slice(&bytes[32 * k..32 * k + 32]);
    entry
}

/// The slots of the directory that record 0 of the tape tells of, live and purged ones, each as its 32 bytes.
pub fn plain_slots(alloc: Global, tape: &[Record]) -> Result<Vec<[u8; 32]>, AllocError>
    requires some { 0 < length tape.now }
    requires within { directory_end (record_at tape.now 0) ≤ length tape.now }
    ensures { IfOk result (λ slots. slots.items ≡ slots_of tape.now) }
{
    let start = four_at(&tape[0], 8) as usize;
    let count = four_at(&tape[0], 16) as usize;
    let mut slots = Vec::new(alloc);
    for k in 0..8 * count {
        let entry = entry_of(&tape[start + k / 8], k % 8);
        if is_end(&entry) {
            return Ok(slots);
        }
        slots.push(entry)?;
    }
    Ok(slots)
}
