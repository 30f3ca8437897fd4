//! The fields of entries and headers, high byte first.
ghost use Rattle.std.specs.Prelude.{◌≡◌, ◌+◌, ◌≤◌, ◌<◌, ◌^◌, length};
ghost use Rattle.lif_model.specs.Numbers.{two_at, four_at};
ghost use Rattle.lif_model.specs.Directory.{name_of, start_of, is_end, is_purged};
ghost use Rattle.lif_model.specs.Legal.{has_records, occupies, end_of};

/// The number in the two bytes from place `at`.
#[tactic(auto, unfolding(crate::specs::Numbers::two_at))]
pub fn two_at(bytes: &[u8], at: usize) -> u16
    requires { at + 2 ≤ length bytes.now }
    ensures { result ≡ two_at bytes.now at }
{
    u16::from_be_bytes([bytes[at], bytes[at + 1]])
}

/// The number in the four bytes from place `at`.
#[tactic(auto, unfolding(crate::specs::Numbers::four_at, crate::specs::Numbers::two_at))]
pub fn four_at(bytes: &[u8], at: usize) -> u64
    requires { at + 4 ≤ length bytes.now }
    ensures value { result ≡ four_at bytes.now at }
    ensures bound { result < 2 ^ 32 }
{
    u64::from(u32::from_be_bytes([bytes[at], bytes[at + 1], bytes[at + 2], bytes[at + 3]]))
}

/// Whether the entry ends the directory.
pub fn is_end(entry: &[u8; 32]) -> bool
    ensures { result ≡ is_end entry.now }
{
    two_at(entry, 10) == 0xFFFF
}

/// Whether the slot is that of a purged file.
pub fn is_purged(slot: &[u8; 32]) -> bool
    ensures { result ≡ is_purged slot.now }
{
    two_at(slot, 10) == 0
}

/// The first record of the slot's extent.
pub fn start_of(slot: &[u8; 32]) -> u64
    ensures value { result ≡ start_of slot.now }
    ensures bound { result < 2 ^ 32 }
{
    four_at(slot, 12)
}

/// The first record after the slot's extent.
pub fn end_of(slot: &[u8; 32]) -> u64
    ensures value { result ≡ end_of slot.now }
    ensures bound { result < 2 ^ 33 }
{
    four_at(slot, 12) + four_at(slot, 16)
}

/// Whether the slot's extent is not empty.
pub fn has_records(slot: &[u8; 32]) -> bool
    ensures { result ≡ has_records slot.now }
{
    0 < four_at(slot, 16)
}

/// Whether the slot is that of a live file that has records.
pub fn occupies(slot: &[u8; 32]) -> bool
    ensures { result ≡ occupies slot.now }
{
    !is_purged(slot) && has_records(slot)
}

/// The slot's name, with its spaces.
#[tactic(auto, unfolding(crate::specs::Directory::name_of))]
pub fn name_of(slot: &[u8; 32]) -> &[u8]
    ensures { result.now ≡ name_of slot.now }
{
    &slot[..10]
}
