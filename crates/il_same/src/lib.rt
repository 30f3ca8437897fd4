//! What tests compare: the value or the bytes that came with those that were wanted.
#![tactic(auto)]

ghost use Rattle.std.specs.Prelude.{◌≡◌, ◌↔◌, IsTrue};

/// Whether the value that came is the one that was wanted, by its type's own equality.
pub fn same<T: PartialEq + Copy>(got: T, want: T) -> bool
    ensures { result ≡ T.eq got want }
{
    got == want
}

/// Whether the bytes that came are those that were wanted, and as many.
pub fn same_bytes(bytes: &[u8], wanted: &[u8]) -> bool
    ensures { IsTrue result ↔ (bytes.now ≡ wanted.now) }
{
    bytes == wanted
}
