ghost use Rattle.std.specs.Prelude.{◌≡◌, ◌≤◌, ◌<◌, List, ℕ, [], map, string_bytes, option_map, get_or, IfSome, length};
ghost use Rattle.il_check.specs.Orders.{check_asked, check_order};

use il_script::read_number;

/// The most devices of a ring.
const MOST_DEVICES: u64 = 30;

/// The number of devices of the ring, and the drive's party, that the words of a check ask for: `check K D BEFORE
/// AFTER`. The images are named by the last two. `None` comes exactly where the words are no such words.
pub(crate) fn read_party(words: &[String]) -> Option<(u8, u8)>
    ensures party { option_map (λ party. check_order (get_or (map string_bytes words.now) 3 []) (get_or (map string_bytes words.now) 4 []) (party.0, party.1)) result
        ≡ check_asked (map string_bytes words.now) }
    ensures range { IfSome result (λ party. (1 ≤ party.0) × (party.0 ≤ 30) × (1 ≤ party.1) × (party.1 ≤ party.0)) }
    ensures count { IfSome result (λ party. length words.now ≡ 5) }
{
    if words.len() != 5 || words[0].as_str() != "check" {
        return None;
    }
    let devices = read_number(words[1].as_bytes(), MOST_DEVICES)?;
    let drive = read_number(words[2].as_bytes(), devices)?;
    Some((devices as u8, drive as u8))
}

/// A word.
pub(crate) fn word(words: &[String], place: usize) -> &str
    requires { place < length words.now }
    ensures { result.now ≡ get_or (map string_bytes words.now) place [] }
{
    words[place].as_str()
}
