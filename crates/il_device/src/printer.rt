#![tactic(auto)]

ghost use Rattle.std.specs.Prelude.{◌≡◌, ◌≤◌, Some, IfOk, length, vec_capacity};
ghost use Rattle.il_device.specs.State.{fresh};

use crate::plain::{Kind, Plain};
use std::alloc::{AllocError, Global};

/// The accessory ID of a printer.
const ID: u8 = 32;

/// How many bytes are kept.
const ROOM: usize = 8192;

/// The kind of a printer, with the first bytes that were heard.
#[derive(Debug, Drop)]
pub struct Heard {
    bytes: Vec<u8>,
    ghost few: { length bytes.items ≤ 8192 },
    ghost room: { 8192 ≤ vec_capacity bytes },
}

impl Kind for Heard {
    ghost use Rattle.std.proofs.Common.{lit≤};

    ghost accessory = { Some 32 };

    ghost status = { 0 };

    ghost room = { 8192 };

    ghost bytes = { λ kind. kind.bytes.items };

    fn accessory(&self) -> Option<u8> {
        Some(ID)
    }

    fn status(&self) -> u8 {
        0
    }

    fn bytes(&self) -> &[u8] {
        &self.bytes
    }

    fn hear(&mut self, byte: u8) {
        if self.bytes.len() < ROOM {
            // The room was taken at the start.
            self.bytes.push_reserved(byte);
        }
    }

    ghost small = { λ kind. (kind.few, lit≤ tt) };
}

/// A printer: it keeps the first 8,192 bytes that it hears, and counts them all. It sends its status
/// byte 00 at SST and its accessory ID 20 hex at SAI, and passes SDA and SDI. It never wants service.
pub type Printer = Plain<Heard>;

impl Printer {
    /// A printer that nothing has come to yet. It takes the memory for its bytes here, and none later.
    ///
    /// The only error is want of memory.
    pub fn new(alloc: Global) -> Result<Printer, AllocError>
        ensures { IfOk result (λ printer. printer ≡ fresh (Some 32) 8192) }
    {
        let bytes = Vec::with_capacity(alloc, ROOM)?;
        Ok(Plain::of(Heard { bytes }))
    }
}
