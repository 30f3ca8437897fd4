ghost use Rattle.std.specs.Prelude.{◌≡◌, map, option_map, find};
ghost use Rattle.il_ring.specs.Rings.{has_id, printer_id, paper_of};

use il_device::Device;

/// The accessory ID of a printer.
const PRINTER_ID: u8 = 32;

/// Whether the device is a printer.
fn is_printer<D: Device>(device: &D) -> bool
    ensures { result ≡ has_id printer_id (D.state device.now).accessory }
{
    device.accessory() == Some(PRINTER_ID)
}

/// The first printer among devices.
fn printer_in<D: Device>(devices: &[D]) -> Option<&D>
    ensures { option_map (λ d. d.now) result ≡ find (λ d. has_id printer_id (D.state d).accessory) devices.now }
{
    devices.iter().find(|device| is_printer(*device))
}

/// The bytes that the first printer among devices has kept, and how many it heard.
pub(crate) fn paper_in<D: Device>(devices: &[D]) -> Option<(&[u8], u64)>
    ensures { option_map (λ p. (p.0.now, p.1)) result ≡ paper_of (map D.state devices.now) }
{
    let printer = printer_in(devices)?;
    Some((printer.heard(), printer.heard_count()))
}
