ghost use Rattle.std.specs.Prelude.{◌≡◌, ◌≤◌, ◌*◌, [], length, vec_len, IfOk, if◌then◌else◌, false, Some, None};
ghost use Rattle.std.specs.Vec.{vec_capacity};
ghost use Rattle.il_script.specs.Digits.{payload_of};

use crate::limits::LONGEST_PAYLOAD;
use std::alloc::{AllocError, Global};
use std::marker::Model;

/// The bytes that a command carries. All memory is taken by `new`.
#[derive(Drop)]
pub struct Payload {
    /// With room for the longest payload.
    bytes: Vec<u8>,
}

impl Model for Payload {
    ghost use Rattle.std.specs.Prelude.{ℕ, List, ◌≡◌, ◌≤◌, vec_len};
    ghost use Rattle.std.specs.Vec.{vec_capacity};
    ghost use Rattle.il_script.specs.declared.limits.TheConstants.{LONGEST_PAYLOAD};

    ghost Value = { List ℕ };

    ghost view = { λ p. p.bytes.items };

    ghost invariant = { λ p. (vec_len p.bytes ≤ LONGEST_PAYLOAD) × (LONGEST_PAYLOAD ≤ vec_capacity p.bytes) };
}

impl Payload {
    /// No bytes.
    pub fn new(alloc: Global) -> Result<Payload, AllocError>
        ensures { IfOk result (λ p. p ≡ []) }
    {
        Ok(Payload {
            bytes: Vec::with_capacity(alloc, LONGEST_PAYLOAD)?,
        })
    }

    /// The bytes.
    pub fn bytes(&self) -> &[u8]
        ensures bytes { result.now ≡ self.now }
        ensures size { length result.now ≤ LONGEST_PAYLOAD }
    {
        self.bytes.as_slice()
    }

    /// Drops the bytes.
    pub fn clear(&mut self)
        ensures { self.new ≡ [] }
    {
        self.bytes.clear();
    }

    /// Takes the bytes that a text spells, and says whether it spells any. Where it does not, there are no bytes.
    pub fn read(&mut self, text: &[u8]) -> bool
        requires { length text.now ≤ 2 * LONGEST_PAYLOAD }
        ensures read { payload_of text.now ≡ (if result then Some self.new else None) }
        ensures refused { result ≡ false → self.new ≡ [] }
    {
        let spelt = read_payload(text, &mut self.bytes);
        if !spelt {
            self.clear();
        }
        spelt
    }
}

/// Decodes the bytes that a text spells, and says whether it spells any. They have room: no memory is taken.
fn read_payload(text: &[u8], bytes: &mut Vec<u8>) -> bool
    requires { length text.now ≤ 2 * vec_capacity bytes.old }
    ensures bytes { payload_of text.now ≡ (if result then Some bytes.new.items else None) }
    ensures count { 2 * vec_len bytes.new ≤ length text.now }
    ensures room { vec_capacity bytes.old ≤ vec_capacity bytes.new }
{
    if text == b"-".as_slice() {
        bytes.clear();
        return true;
    }
    bytes.resize(text.len() / 2, 0).unwrap();
    !text.is_empty() && hex::decode_to_slice(text, bytes.as_mut_slice()).is_ok()
}
