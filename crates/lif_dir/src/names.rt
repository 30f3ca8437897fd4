ghost use Rattle.std.specs.Prelude.{◌≡◌, ◌≤◌, length};
ghost use Rattle.std.specs.List.{list_all};
ghost use Rattle.lif_model.specs.Printed.{trimmed};
ghost use Rattle.lif_dir.specs.Names.{is_name_byte, is_made, new_name, made_name, new_label, label_bytes};

use crate::entries::Name;

/// A name that a file can be given: one letter `A` to `Z`, and then letters `A` to `Z`, digits and
/// `_`.
#[derive(Clone, Copy, Debug, PartialEq, Eq)]
pub struct NewName {
    name: Name,
}

/// A label that a volume can be given: one letter `A` to `Z`, and then letters `A` to `Z`, digits
/// and `_`, six bytes at most.
#[derive(Clone, Copy, Debug, PartialEq, Eq)]
pub struct NewLabel {
    bytes: [u8; 6],
}

impl NewName {
    /// The name as one that can be given. The spaces at its end are no part of it. `None` where it
    /// is not made so.
    pub fn of(name: &Name) -> Option<NewName>
        ensures { result ≡ new_name name.now }
    {
        is_made_so(without_end_spaces(&name.bytes())).then_some(NewName { name: *name })
    }

    /// The name.
    pub fn name(&self) -> Name
        ensures { result ≡ made_name self.now }
    {
        self.name
    }
}

impl NewLabel {
    /// The label of these bytes, filled up with spaces. `None` where it is not made so or has more
    /// than six bytes.
    pub fn of(bytes: &[u8]) -> Option<NewLabel>
        ensures { result ≡ new_label bytes.now }
    {
        if !is_made_so(bytes) || bytes.len() > 6 {
            return None;
        }
        let mut label = [b' '; 6];
        label[..bytes.len()].copy_from_slice(bytes);
        Some(NewLabel { bytes: label })
    }

    /// The six bytes of the label, with its spaces.
    pub fn bytes(&self) -> [u8; 6]
        ensures { result ≡ label_bytes self.now }
    {
        self.bytes
    }
}

/// Whether a byte may stand in a name that is made.
fn is_inner(byte: u8) -> bool
    ensures { result ≡ is_name_byte byte }
{
    byte.is_ascii_uppercase() || byte.is_ascii_digit() || byte == b'_'
}

/// Whether each of the bytes may stand in a name that is made.
fn are_inner(bytes: &[u8]) -> bool
    ensures { result ≡ list_all is_name_byte bytes.now }
{
    bytes.iter().all(|byte| is_inner(*byte))
}

/// Whether the bytes are one letter, and then letters, digits and `_`.
fn is_made_so(bytes: &[u8]) -> bool
    ensures { result ≡ is_made bytes.now }
{
    match bytes {
        [first, rest @ ..] => first.is_ascii_uppercase() && are_inner(rest),
        [] => false,
    }
}

/// The bytes without the spaces at their end.
pub fn without_end_spaces(bytes: &[u8]) -> &[u8]
    ensures text { result.now ≡ trimmed bytes.now }
    ensures size { length result.now ≤ length bytes.now }
{
    let mut end = bytes.len();
    'spaces: while end > 0 && bytes[end - 1] == b' ' {
        end -= 1;
    }
    &bytes[..end]
}
