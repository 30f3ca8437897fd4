ghost use Rattle.std.specs.Prelude.{◌≡◌, ◌≤◌, length, option_map, IfSome};
ghost use Rattle.tape_names.specs.Types.{type_name};

/// Returns the name of a file type, or `None` if the table has no such type. A name has at most 8 letters.
pub fn type_name(kind: u16) -> Option<&'static str>
    ensures name { option_map (λ name. name.now) result ≡ type_name kind }
    ensures size { IfSome result (λ name. length name.now ≤ 8) }
{
    match kind {
        0x0001 | 0xE052 => Some("TEXT"),
        0xE020 => Some("WALL"),
        0xE030 | 0xE20C => Some("KEY"),
        0xE040 => Some("STATUS"),
        0xE050 | 0xE21C => Some("ROM"),
        0xE080 => Some("PROG"),
        0xE0D0 => Some("SDATA"),
        0xE0D5 => Some("TEXT-S"),
        0xE0F0 => Some("DATA"),
        0xE0F1 => Some("DATA-S"),
        0xE204 => Some("BIN"),
        0xE208 | 0xE089 => Some("LEX"),
        0xE214 | 0xE088 => Some("BASIC"),
        0xE215 => Some("BASIC-S"),
        0xE216 => Some("BASIC-P"),
        0xE217 => Some("BASIC-SP"),
        0xE218 => Some("FORTH"),
        _ => None,
    }
}
