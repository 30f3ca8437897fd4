//! What packing makes of a directory and its files.
use crate::opening::packed_on;
use crate::plain::{packs_to, plain_packing};
use crate::tapes::{Item, REDO, SIZE, entries, row, tape_of};
use il_same::same;
use lif_pack::Packed;
use std::test::Fail;

/// How many records a directory has, its slots, those after a packing, the answer, and how many records are written.
type Row = (usize, &'static [Item], &'static [Item], (u32, u32), usize);

/// Slots of three records of a directory, live and purged, and those after a packing.
const MIXED: &[Item] = &[
    (b'a', 0, 0),
    (b'b', 6, 9),
    (b'C', 6, 1),
    (b'D', 7, 1),
    (b'e', 8, 1),
    (b'F', 9, 0),
    (b'g', 9, 1),
    (b'h', 0, 0),
    (b'i', 0, 0),
    (b'J', 10, 2),
    (b'K', 12, 1),
    (b'l', 13, 7),
    (b'm', 0, 0),
    (b'N', 20, 1),
    (b'O', 1, 0),
    (b'P', 30, 3),
    (b'q', 0, 0),
    (b'R', 40, 1),
    REDO,
    (b's', 0, 0),
];

const MIXED_AFTER: &[Item] = &[
    (b'C', 5, 1),
    (b'D', 6, 1),
    (b'F', 9, 0),
    (b'J', 7, 2),
    (b'K', 9, 1),
    (b'N', 10, 1),
    (b'O', 1, 0),
    (b'P', 11, 3),
    (b'R', 14, 1),
    REDO,
];

/// The slots of two records, of which none is left, and those of a record that they become.
const FULL: &[Item] = &[
    (b'A', 4, 1),
    (b'b', 5, 1),
    (b'c', 6, 1),
    (b'D', 9, 1),
    (b'e', 0, 0),
    (b'F', 10, 1),
    (b'G', 11, 1),
    (b'h', 0, 0),
    (b'I', 12, 1),
    (b'j', 0, 0),
    (b'K', 13, 1),
    (b'l', 0, 0),
    (b'm', 0, 0),
    (b'n', 0, 0),
    (b'O', 15, 1),
    REDO,
];

const FULL_AFTER: &[Item] = &[
    (b'A', 4, 1),
    (b'D', 5, 1),
    (b'F', 6, 1),
    (b'G', 7, 1),
    (b'I', 8, 1),
    (b'K', 9, 1),
    (b'O', 10, 1),
    REDO,
];

/// The directory begins at record 2. Files stand from the record after it on, up to record 126.
const ROWS: [Row; 19] = [
    // What is packed already is not written.
    (1, &[REDO], &[REDO], (0, 123), 0),
    (
        1,
        &[(b'A', 3, 4), (b'B', 7, 2), REDO],
        &[(b'A', 3, 4), (b'B', 7, 2), REDO],
        (0, 117),
        0,
    ),
    // Files that move onto their own records, down by one and by more, and one that moves clear of them.
    (1, &[(b'A', 4, 1), REDO], &[(b'A', 3, 1), REDO], (1, 122), 7),
    (
        1,
        &[(b'A', 4, 30), REDO],
        &[(b'A', 3, 30), REDO],
        (1, 93),
        65,
    ),
    (
        1,
        &[(b'A', 4, 31), REDO],
        &[(b'A', 3, 31), REDO],
        (1, 92),
        72,
    ),
    (
        1,
        &[(b'A', 4, 61), REDO],
        &[(b'A', 3, 61), REDO],
        (1, 62),
        137,
    ),
    (
        1,
        &[(b'A', 32, 70), REDO],
        &[(b'A', 3, 70), REDO],
        (1, 53),
        155,
    ),
    (
        1,
        &[(b'A', 33, 70), REDO],
        &[(b'A', 3, 70), REDO],
        (1, 53),
        155,
    ),
    (
        1,
        &[(b'A', 34, 70), REDO],
        &[(b'A', 3, 70), REDO],
        (1, 53),
        155,
    ),
    (
        1,
        &[(b'A', 65, 61), REDO],
        &[(b'A', 3, 61), REDO],
        (1, 62),
        137,
    ),
    // Files without records stand anywhere.
    (
        1,
        &[(b'A', 5, 2), (b'E', 9, 0), (b'B', 9, 3), REDO],
        &[(b'A', 3, 2), (b'E', 9, 0), (b'B', 5, 3), REDO],
        (2, 118),
        20,
    ),
    (
        1,
        &[
            (b'E', 120, 0),
            (b'A', 5, 1),
            (b'F', 0, 0),
            (b'B', 125, 1),
            (b'G', 1, 0),
            REDO,
        ],
        &[
            (b'E', 120, 0),
            (b'A', 3, 1),
            (b'F', 0, 0),
            (b'B', 4, 1),
            (b'G', 1, 0),
            REDO,
        ],
        (2, 121),
        14,
    ),
    // Purged slots go: in front, between and after, after the redo entry alone, and with numbers of no medium.
    (
        1,
        &[
            (b'a', 3, 2),
            (b'B', 5, 2),
            (b'c', 7, 1),
            (b'D', 9, 3),
            (b'e', 12, 1),
            REDO,
            (b'f', 1, 9),
        ],
        &[(b'B', 3, 2), (b'D', 5, 3), REDO],
        (2, 118),
        30,
    ),
    (
        1,
        &[(b'A', 3, 1), REDO, (b'b', 9, 9), (b'c', 3, 1)],
        &[(b'A', 3, 1), REDO],
        (0, 122),
        5,
    ),
    (
        1,
        &[(b'x', 0xFFFF_FFFF, 0xFFFF_FFFF), (b'A', 3, 1), REDO],
        &[(b'A', 3, 1), REDO],
        (0, 122),
        10,
    ),
    // A directory without an end, of live slots alone and with purged ones.
    (
        1,
        &[
            (b'A', 3, 1),
            (b'B', 5, 1),
            (b'C', 6, 1),
            (b'D', 9, 2),
            (b'E', 1, 0),
            (b'F', 20, 1),
            (b'G', 30, 1),
            REDO,
        ],
        &[
            (b'A', 3, 1),
            (b'B', 4, 1),
            (b'C', 5, 1),
            (b'D', 6, 2),
            (b'E', 1, 0),
            (b'F', 8, 1),
            (b'G', 9, 1),
            REDO,
        ],
        (5, 116),
        37,
    ),
    (
        1,
        &[
            (b'a', 3, 1),
            (b'B', 3, 1),
            (b'c', 0, 0),
            (b'D', 5, 1),
            (b'e', 0, 0),
            (b'f', 0, 0),
            (b'G', 7, 1),
            REDO,
        ],
        &[(b'B', 3, 1), (b'D', 4, 1), (b'G', 5, 1), REDO],
        (2, 120),
        24,
    ),
    // Directories of several records.
    (3, MIXED, MIXED_AFTER, (7, 111), 91),
    (2, FULL, FULL_AFTER, (6, 115), 65),
];

#[test]
fn packs_as_a_copy_would(rt: HostRuntime) -> Result<(), Fail> {
    let alloc = rt.alloc();
    for (k, (length, before, after, (files, free), writes)) in ROWS.iter().enumerate() {
        let answer = Packed {
            files: *files,
            free: *free,
        };
        let tape = tape_of(&rt, alloc, SIZE, *length, &entries(alloc, before)?)?;
        let wanted = plain_packing(&rt, alloc, &tape)?;
        let listed = entries(alloc, after)?;
        row(&rt, same(wanted.answer, answer), "plain answer", k);
        row(
            &rt,
            same(wanted.after.as_slice(), listed.as_slice()),
            "plain slots",
            k,
        );
        let front = tape.get(0).copied();
        let (came, records) = packed_on(&rt, alloc, tape)?;
        row(&rt, same(came, Ok(answer)), "answer", k);
        row(
            &rt,
            same(records.records().get(0).copied(), front),
            "header",
            k,
        );
        row(&rt, records.writes().len() == *writes, "writes", k);
        packs_to(&rt, alloc, records.records(), &wanted, k)?;
    }
    Ok(())
}
