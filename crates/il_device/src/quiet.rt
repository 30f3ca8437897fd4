#![tactic(auto)]

ghost use Rattle.std.specs.Prelude.{◌≡◌, [], None};
ghost use Rattle.il_device.specs.State.{fresh};

use crate::plain::{Kind, Plain};

/// The kind with no accessory ID, which keeps no byte.
#[derive(Debug, Drop)]
pub struct Deaf;

impl Kind for Deaf {
    ghost use Rattle.std.proofs.Common.{lit≤};

    ghost accessory = { None };

    ghost status = { 0 };

    ghost room = { 0 };

    ghost bytes = { λ kind. [] };

    fn accessory(&self) -> Option<u8> {
        None
    }

    fn status(&self) -> u8 {
        0
    }

    fn bytes(&self) -> &[u8] {
        &[]
    }

    fn hear(&mut self, _byte: u8) {}

    ghost small = { λ kind. (lit≤ tt, lit≤ tt) };
}

/// A device with no accessory ID, which sends nothing: every start message passes it. It counts the
/// bytes that it hears, and keeps none.
pub type Quiet = Plain<Deaf>;

impl Quiet {
    /// A device that nothing has come to yet.
    pub fn new() -> Quiet
        ensures { result ≡ fresh None 0 }
    {
        Plain::of(Deaf)
    }
}

impl Default for Quiet {
    ghost is_default = { λ quiet. quiet ≡ fresh None 0 };

    fn default() -> Quiet {
        Quiet::new()
    }
}
