//! What a packing refuses, and that the tape is settled alone then.
use crate::opening::packed_on;
use crate::stops::GATE;
use crate::tapes::{FIRST, Item, REDO, REDO_ONE, REDO_START, SIZE, copied, put, row, tape_with};
use il_same::same;
use lif_model::{RECORD, Record};
use lif_volume::{Refusal, VolumeFault};
use std::alloc::Global;
use std::process::Abort;
use std::test::Fail;

/// The slots of a directory, which of them has a mark, and the refusal.
type Row = (&'static [Item], usize, Refusal);

/// Redo files that are purged, too short, and elsewhere.
const ROWS: [Row; 10] = [
    (&[], 0, Refusal::NoRedo),
    (&[(b'A', 4, 3)], 0, Refusal::NoRedo),
    (&[(b'A', 4, 3), (b'-', 126, 34)], 1, Refusal::NoRedo),
    (&[(b'A', 4, 3), (b'*', 126, 33)], 1, Refusal::NoRedo),
    (&[(b'A', 4, 3), (b'*', 125, 34)], 1, Refusal::NoRedo),
    (&[(b'A', 4, 3), REDO_ONE], 1, Refusal::NeedsUpgrade),
    (
        &[(b'A', 9, 3), (b'B', 4, 3), REDO_ONE],
        2,
        Refusal::NeedsUpgrade,
    ),
    (
        &[(b'A', 9, 3), (b'E', 1, 0), (b'B', 4, 3), REDO],
        3,
        Refusal::OutOfOrder,
    ),
    (&[(b'A', 4, 3), REDO, (b'B', 9, 3)], 1, Refusal::OutOfOrder),
    (
        &[(b'A', 4, 3), REDO, (b'a', 4, 3), (b'E', 4, 0)],
        1,
        Refusal::OutOfOrder,
    ),
];

/// The tape is refused, and what it is then is this: row `k`.
fn refuses(
    rt: &impl Abort,
    alloc: Global,
    tape: &[Record],
    after: &[Record],
    why: Refusal,
    k: usize,
) -> Result<(), Fail> {
    let (answer, records) = packed_on(rt, alloc, copied(alloc, tape)?)?;
    row(
        rt,
        same(answer, Err(VolumeFault::Refused(why))),
        "refused",
        k,
    );
    row(rt, same(records.records(), after), "settled alone", k);
    Ok(())
}

/// The same where a redo is open that changes record 1.
fn refuses_open(
    rt: &impl Abort,
    alloc: Global,
    mut tape: Vec<Record>,
    why: Refusal,
    k: usize,
) -> Result<(), Fail> {
    put(rt, &mut tape, SIZE - 3, 0, &[0; RECORD]);
    put(rt, &mut tape, SIZE - 3, 0, b"LIFREDO2\0\x01\0\x01");
    let mut after = copied(alloc, &tape)?;
    put(rt, &mut tape, SIZE - 4, 0, GATE);
    assert!(rt; REDO_START < tape.len() && 1 < after.len());
    after[1] = tape[REDO_START];
    put(rt, &mut after, SIZE - 4, 0, &[0; RECORD]);
    refuses(rt, alloc, &tape, &after, why, k)
}

#[test]
fn refuses_and_settles_alone(rt: HostRuntime) -> Result<(), Fail> {
    let alloc = rt.alloc();
    for (k, (items, slot, why)) in ROWS.iter().enumerate() {
        assert!(rt; *slot < 8);
        let mut tape = tape_with(&rt, alloc, items)?;
        put(&rt, &mut tape, FIRST, 32 * *slot + 28, b"\0\x01\0\x02");
        refuses(&rt, alloc, &tape, &tape, *why, k)?;
        refuses_open(&rt, alloc, tape, *why, k)?;
    }
    // A tape without the mark of a volume, and one whose files overlap.
    for (k, items) in [&[(b'A', 4, 3), REDO], &[(b'A', 4, 126), REDO]]
        .iter()
        .enumerate()
    {
        let mut tape = tape_with(&rt, alloc, items.as_slice())?;
        put(&rt, &mut tape, 0, 0, &[if k == 0 { 0x40 } else { 0x80 }]);
        refuses(&rt, alloc, &tape, &tape, Refusal::NotLif, k)?;
        refuses_open(&rt, alloc, tape, Refusal::NotLif, k)?;
    }
    Ok(())
}
