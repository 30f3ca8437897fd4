ghost use Rattle.std.specs.Prelude.{◌≡◌, ◌∷◌, [], IfOk, Some};
ghost use Rattle.il_device.specs.State.{fresh};
ghost use Rattle.il_guest.specs.State.{fresh_guest};
ghost use Rattle.il_ring.specs.Guests.{IsIdleGuest, MayBeGuest};

use il_device::{Device, Printer};
use il_guest::Guest;
use std::alloc::{AllocError, Global};

/// The last address that the second controller asks: it asks the drive and the printer.
const LAST_ASKED: u8 = 2;

/// A new printer, which has received no frame.
pub fn new_printer(alloc: Global) -> Result<Box<Printer>, AllocError>
    ensures { IfOk result (λ printer. printer.value ≡ fresh (Some 32) 8192) }
{
    let printer = Printer::new(alloc)?;
    Ok(Box::new(alloc, printer)?)
}

/// The devices after the drive: the printer alone.
pub fn printer_after(
    alloc: Global,
    printer: Box<dyn Device>,
) -> Result<Vec<Box<dyn Device>>, AllocError>
    ensures { IfOk result (λ after. after.items ≡ printer ∷ []) }
{
    Ok(Vec::from_array(alloc, [printer])?)
}

/// The second controller, which is on the loop if the arguments ask for it. Nothing has come to it yet.
pub fn second_controller() -> Option<Guest>
    ensures exact { result ≡ Some (fresh_guest 2) }
    ensures may { IsIdleGuest result × MayBeGuest result }
{
    Some(Guest::new(LAST_ASKED))
}
