ghost use Rattle.std.specs.Prelude.{◌≡◌, ◌<◌, ◌^◌, IfSome};
ghost use Rattle.tape_names.specs.Sizes.{bytes_told, said_bytes};

/// Returns the number of bytes that the implementation field states for this type, or `None` if the type has no such
/// number.
fn said_bytes(kind: u16, field: &[u8; 4]) -> Option<u64>
    ensures number { result ≡ said_bytes kind field.now }
    ensures bound { IfSome result (λ count. count < 2 ^ 32) }
{
    let high_two = u64::from(u16::from_be_bytes([field[0], field[1]]));
    let low = u64::from(u16::from_le_bytes([field[0], field[1]]));
    match kind {
        0xE080 => Some(high_two),
        0xE0D0 => Some(8 * high_two),
        0xE0F0 | 0xE0F1 => Some(low * u64::from(u16::from_le_bytes([field[2], field[3]]))),
        0xE204 | 0xE208 | 0xE20C | 0xE214 | 0xE215 | 0xE216 | 0xE217 | 0xE218 | 0xE21C => {
            Some((low + 65536 * u64::from(field[2]) + 1) / 2)
        }
        _ => None,
    }
}

/// Returns the number of bytes of a file that has this many records, if its implementation field states one and that
/// many bytes end in the file's last record.
pub fn bytes_told(kind: u16, field: &[u8; 4], records: u32) -> Option<u64>
    ensures { result ≡ bytes_told kind field.now records }
{
    let said = said_bytes(kind, field)?;
    let least = 256 * u64::from(records.saturating_sub(1));
    if least < said && said <= 256 * u64::from(records) {
        Some(said)
    } else {
        None
    }
}
