//! The plain functions of the model: slots, and legal directories.
ghost use Rattle.std.specs.Prelude.{◌≡◌, ◌<◌};
ghost use Rattle.lif_model.specs.Header.{directory_end};

use crate::labels::{check, named};
use lif_model::{RECORD, Record, plain_is_legal, plain_slots};
use std::test::Fail;

/// The name, the type, the first record and the number of records of a file.
type File = (u8, u8, u8, u8);

/// The entry of a file.
fn entry(file: File) -> [u8; 32] {
    let (name, kind, start, count) = file;
    let mut bytes = [0; 32];
    bytes[..10].copy_from_slice(b"          ");
    bytes[0] = name;
    bytes[11] = kind;
    bytes[15] = start;
    bytes[19] = count;
    bytes
}

/// The header of a volume whose directory is records 2 and 3.
#[tactic(auto, unfolding(lif_model::specs::Numbers::four_at, lif_model::specs::Numbers::two_at))]
fn header() -> Record
    ensures { directory_end result ≡ 4 }
{
    let mut bytes = [0; RECORD];
    bytes[0] = 0x80;
    bytes[11] = 2;
    bytes[19] = 2;
    bytes
}

/// The redo file's entry on a tape of twelve records.
fn redo() -> [u8; 32] {
    let mut bytes = entry((b'R', 0, 8, 4));
    bytes[..12].copy_from_slice(b"REDOFILE  \xE0\xD0");
    bytes
}

/// Puts an entry into slot k of a directory record.
fn put_entry(directory: &mut Record, k: usize, entry: &[u8; 32])
    requires { k < 8 }
{
    directory[32 * k..32 * k + 32].copy_from_slice(entry);
}

/// Three slots, and the type of the fourth, high byte first: FFFF hex alone ends a directory.
#[test]
fn slots_stop_at_the_end(rt: HostRuntime) -> Result<(), Fail> {
    let mut directory = [0; RECORD];
    put_entry(&mut directory, 0, &entry((b'A', 1, 4, 1)));
    put_entry(&mut directory, 1, &entry((b'B', 0, 5, 1)));
    put_entry(&mut directory, 2, &redo());
    for (high, low, count) in [(0, 0, 16), (0, 0xFF, 16), (0xFF, 0xFF, 3)] {
        directory[106] = high;
        directory[107] = low;
        let tape = [header(), [0; RECORD], directory, [0; RECORD]];
        check(
            &rt,
            plain_slots(rt.alloc(), &tape)?.len() == count,
            "slots before the end",
        );
    }
    Ok(())
}

/// A name, two files, and whether a tape of twelve records may have them.
type Legal = (&'static str, [File; 2], bool);

const LEGAL: &[Legal] = &[
    ("neighbours", [(b'A', 1, 4, 2), (b'B', 1, 6, 6)], true),
    ("overlap", [(b'A', 1, 4, 2), (b'B', 1, 5, 1)], false),
    (
        "overlap a purged one",
        [(b'A', 0, 4, 2), (b'B', 1, 5, 1)],
        true,
    ),
    ("twins", [(b'A', 1, 4, 1), (b'A', 1, 5, 1)], false),
    (
        "twin of a purged one",
        [(b'A', 0, 4, 1), (b'A', 1, 5, 1)],
        true,
    ),
    (
        "in the directory",
        [(b'A', 1, 3, 1), (b'B', 1, 5, 1)],
        false,
    ),
    (
        "far without records",
        [(b'A', 1, 11, 1), (b'B', 1, 200, 0)],
        true,
    ),
    ("past the end", [(b'A', 1, 11, 2), (b'B', 1, 5, 1)], false),
];

/// Whether a tape of twelve records may have these files.
fn is_legal(files: &[File; 2]) -> bool {
    let slots = [entry(files[0]), entry(files[1])];
    plain_is_legal(12, &header(), &slots)
}

#[test]
fn legal_directories(rt: HostRuntime) {
    for (name, files, legal) in LEGAL {
        named(&rt, is_legal(files) == *legal, "the answer", name);
    }
    let good = !plain_is_legal(7, &header(), &[]);
    check(&rt, good, "no room for the redo file");
}
