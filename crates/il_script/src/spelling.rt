ghost use Rattle.std.specs.Prelude.{◌≡◌, ◌<◌, ◌++◌, ◌∷◌, [], length, option_map, take};
ghost use Rattle.lif_model.specs.Printed.{is_plain as is_plain_byte};
ghost use Rattle.lif_dir.specs.Names.{name_of_bytes, new_label};
ghost use Rattle.il_script.specs.Spelling.{spelt, IsSpeltFirst};
ghost use Rattle.il_script.specs.Commands.{spelt_as, new_name_of_bytes};

use crate::digits::read_byte;
use arrayvec::ArrayVec;
use lif_dir::{Name, NewLabel, NewName};

/// Whether a byte of a name stands for itself.
pub fn is_plain(byte: u8) -> bool
    ensures { result ≡ is_plain_byte byte }
{
    byte.is_ascii_graphic() && byte != b'%'
}

/// The first byte of a spelling, and how many bytes spell it.
fn first_spelt(text: &[u8]) -> Option<(u8, usize)>
    requires { 0 < length text.now }
    ensures { IsSpeltFirst text.now result }
{
    let first = text[0];
    if is_plain(first) {
        return Some((first, 1));
    }
    if first != b'%' || text.len() < 3 {
        return None;
    }
    let byte = read_byte(&text[1..3])?;
    Some((byte, 3))
}

/// Keeps a byte where there is room.
fn keep_byte(bytes: &mut ArrayVec<u8, 11>, byte: u8)
    ensures { bytes.new.items ≡ take 11 (bytes.old.items ++ byte ∷ []) }
{
    if bytes.is_full() {
        return;
    }
    bytes.push(byte);
}

/// The bytes that a spelling stands for, as many as there is room for.
fn read_spelling(text: &[u8]) -> Option<ArrayVec<u8, 11>>
    ensures { option_map (λ bytes. bytes.items) result ≡ option_map (λ bytes. take 11 bytes) (spelt text.now) }
{
    let mut bytes = ArrayVec::new();
    let mut rest = text;
    'bytes: while !rest.is_empty() {
        let (byte, count) = first_spelt(rest)?;
        keep_byte(&mut bytes, byte);
        rest = &rest[count..];
    }
    Some(bytes)
}

/// The name that a spelling stands for, where it has as many bytes as a name has.
pub fn spelt_name(text: &[u8]) -> Option<Option<Name>>
    ensures { result ≡ spelt_as name_of_bytes text.now }
{
    let bytes = read_spelling(text)?;
    Some(Name::of(&bytes))
}

/// The name that a spelling stands for, where a file can be given it.
pub fn spelt_new_name(text: &[u8]) -> Option<Option<NewName>>
    ensures { result ≡ spelt_as new_name_of_bytes text.now }
{
    let bytes = read_spelling(text)?;
    Some(new_name(&bytes))
}

/// The label that a spelling stands for, where a volume can be given it.
pub fn spelt_new_label(text: &[u8]) -> Option<Option<NewLabel>>
    ensures { result ≡ spelt_as new_label text.now }
{
    let bytes = read_spelling(text)?;
    Some(NewLabel::of(&bytes))
}

/// A name that a file can be given, from its bytes.
fn new_name(bytes: &[u8]) -> Option<NewName>
    ensures { result ≡ new_name_of_bytes bytes.now }
{
    NewName::of(&Name::of(bytes)?)
}
