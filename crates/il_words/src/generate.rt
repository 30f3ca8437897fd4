ghost use Rattle.std.specs.Prelude.{◌≡◌, ◌<◌, option_map};
ghost use Rattle.std.specs.Option.{IfSome};
ghost use Rattle.il_words.specs.Generating.{seed_in, count_in, script_in};

use crate::halves::halves;
use il_script::read_number;

/// A script that is made from a seed, in place of one that is read.
#[derive(Clone, Copy, Debug, PartialEq, Eq)]
pub struct Generated {
    /// What the script is made from, at most 2,147,483,647.
    pub seed: u32,
    /// The number of its lines, 1 to 10,000.
    pub count: u16,
}

/// The greatest seed, 2^31 - 1.
const GREATEST_SEED: u32 = 2_147_483_647;

/// The most lines of a script that is generated.
const MOST_LINES: u16 = 10_000;

/// A seed: 0, or a number without a leading zero.
fn read_seed(text: &str) -> Option<u32>
    ensures seed { result ≡ seed_in text.now }
    ensures range { IfSome result (λ seed. seed < 2147483648) }
{
    if text == "0" {
        return Some(0);
    }
    let seed = read_number(text.as_bytes(), u64::from(GREATEST_SEED))?;
    Some(seed as u32)
}

/// A number of lines.
fn read_count(text: &str) -> Option<u16>
    ensures { result ≡ count_in text.now }
{
    let count = read_number(text.as_bytes(), u64::from(MOST_LINES))?;
    Some(count as u16)
}

/// The script that `SEED:COUNT` asks for. `None` comes exactly where the text has no such form.
pub(crate) fn read_generated(text: &str) -> Option<Generated>
    ensures script { option_map (λ script. (script.seed, script.count)) result ≡ script_in text.now }
    ensures seed { IfSome result (λ script. script.seed < 2147483648) }
{
    let (seed, count) = halves(text)?;
    Some(Generated {
        seed: read_seed(seed)?,
        count: read_count(count)?,
    })
}
