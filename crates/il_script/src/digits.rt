ghost use Rattle.std.specs.Prelude.{◌≡◌, ◌<◌, ◌≤◌, ◌∷◌, [], option_map};
ghost use Rattle.std.specs.Option.{IfSome};
ghost use Rattle.il_script.specs.Digits.{number_up_to, hex_bytes, type_in};

/// The number that a text spells in decimal: one or more digits, the first of them not 0, so it is at least 1.
/// `None` comes exactly where the text is no such number, and where the number is larger than `most`.
pub fn read_number(text: &[u8], most: u64) -> Option<u64>
    ensures number { result ≡ number_up_to most text.now }
    ensures range { IfSome result (λ number. (0 < number) × (number ≤ most)) }
{
    if text.is_empty() || text[0] == b'0' {
        return None;
    }
    let mut value = 0u64;
    for digit in text {
        if !digit.is_ascii_digit() {
            return None;
        }
        value = value
            .checked_mul(10)?
            .checked_add(u64::from(*digit - b'0'))?;
        if value > most {
            return None;
        }
    }
    Some(value)
}

/// So many bytes in hex digits.
pub fn read_hex<const N: usize>(text: &[u8]) -> Option<[u8; N]>
    ensures { result ≡ hex_bytes N text.now }
{
    let mut bytes = [0; N];
    match hex::decode_to_slice(text, &mut bytes) {
        Ok(()) => Some(bytes),
        Err(_) => None,
    }
}

/// The byte that a text spells in hex: exactly two digits, of either case. `None` comes exactly where the text is
/// anything else.
pub fn read_byte(text: &[u8]) -> Option<u8>
    ensures { option_map (λ byte. byte ∷ []) result ≡ hex_bytes 1 text.now }
{
    let mut byte = [0];
    match hex::decode_to_slice(text, &mut byte) {
        Ok(()) => Some(byte[0]),
        Err(_) => None,
    }
}

/// The type of a file that is there, in four hex digits.
pub fn read_type(text: &[u8]) -> Option<u16>
    ensures { result ≡ type_in text.now }
{
    match u16::from_be_bytes(read_hex(text)?) {
        0 | 0xFFFF => None,
        kind => Some(kind),
    }
}
