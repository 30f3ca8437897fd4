//! Names of files and labels of volumes.
use crate::labels::{check, row};
use il_same::{same, same_bytes};
use lif_dir::{Name, NewLabel, NewName, without_end_spaces};
use std::process::Abort;

/// The name of these bytes.
pub fn name_of(rt: &impl Abort, bytes: &[u8]) -> Name {
    Name::of(bytes).expect(rt, "a name")
}

/// The name of these bytes, which a file can be given.
pub fn new_name(rt: &impl Abort, bytes: &[u8]) -> NewName {
    NewName::of(&name_of(rt, bytes)).expect(rt, "a new name")
}

/// Bytes, the name that they are, and whether a file can be given that name, and a volume these bytes as its label.
type Row = (&'static [u8], Option<[u8; 10]>, bool, bool);

const ROWS: &[Row] = &[
    (b"", None, false, false),
    (b"A", Some(*b"A         "), true, true),
    (b"Z_0", Some(*b"Z_0       "), true, true),
    (b"A ", Some(*b"A         "), true, false),
    (b" A", Some(*b" A        "), false, false),
    (b" ", Some(*b"          "), false, false),
    (b"a", Some(*b"a         "), false, false),
    (b"1A", Some(*b"1A        "), false, false),
    (b"A-B", Some(*b"A-B       "), false, false),
    (b"A\x00", Some(*b"A\x00        "), false, false),
    (
        b" %\x00\x7F\xFF ",
        Some(*b" %\x00\x7F\xFF     "),
        false,
        false,
    ),
    (b"SIXSIX", Some(*b"SIXSIX    "), true, true),
    (b"SEVENTH", Some(*b"SEVENTH   "), true, false),
    (b"TENLETTERS", Some(*b"TENLETTERS"), true, false),
    (b"ELEVENCHARS", None, false, false),
];

/// What the bytes of a row are.
fn is_told(rt: &impl Abort, example: &Row, k: u64) {
    let (bytes, filled, new, label) = *example;
    let name = Name::of(bytes);
    row(rt, same(name.map(|name| name.bytes()), filled), "name", k);
    let has_new = name.and_then(|name| NewName::of(&name)).is_some();
    row(rt, has_new == new, "new name", k);
    row(rt, NewLabel::of(bytes).is_some() == label, "label", k);
}

#[test]
fn names_and_labels(rt: HostRuntime) {
    for (k, example) in ROWS.iter().enumerate() {
        is_told(&rt, example, k as u64);
    }
}

#[test]
fn names_and_labels_keep_their_bytes(rt: HostRuntime) {
    let new = new_name(&rt, b"DATA_1");
    check(
        &rt,
        same(new.name(), name_of(&rt, b"DATA_1")),
        "the same name",
    );
    let label = NewLabel::of(b"TAPE").expect(&rt, "a label");
    check(
        &rt,
        same(label.bytes(), *b"TAPE  "),
        "a label with its spaces",
    );
    let short = without_end_spaces(b" A  ");
    check(
        &rt,
        same_bytes(short, b" A"),
        "without the spaces at the end",
    );
}
