//! Devices for tests.

use il_device::{Kind, Plain};

/// The kind with this accessory ID, which keeps no byte and wants service at every moment.
#[derive(Drop)]
pub struct Calling<const ID: u8>;

impl<const ID: u8> Kind for Calling<ID> {
    ghost use Rattle.std.specs.Prelude.{Some, []};
    ghost use Rattle.std.proofs.Common.{lit≤};

    ghost accessory = { Some ID };

    ghost status = { 1 };

    ghost room = { 0 };

    ghost bytes = { λ kind. [] };

    fn accessory(&self) -> Option<u8> {
        Some(ID)
    }

    fn status(&self) -> u8 {
        1
    }

    fn bytes(&self) -> &[u8] {
        &[]
    }

    fn hear(&mut self, _byte: u8) {}

    ghost small = { λ kind. (lit≤ tt, lit≤ tt) };
}

/// One with the accessory ID of a drive.
pub fn second_drive() -> Plain<Calling<16>> {
    Plain::of(Calling)
}

/// One with the accessory ID 5.
pub fn caller() -> Plain<Calling<5>> {
    Plain::of(Calling)
}
