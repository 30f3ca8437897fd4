//! Packing by copying, plainly and slowly.
use crate::tapes::row;
use il_same::same;
use lif_dir::Slot;
use lif_header::four_at;
use lif_model::{ENTRY, REDO_NAME, Record, plain_slots};
use lif_pack::Packed;
use std::alloc::Global;
use std::process::Abort;
use std::test::Fail;

/// How many records a redo file of version 2 has.
const REDO_LENGTH: usize = 34;

/// What packing makes of a volume: the slots before it and the redo entry's field, the slots after it, the records of
/// the files in their order, and the answer.
#[derive(Drop)]
pub struct Plain {
    pub before: Vec<[u8; ENTRY]>,
    pub field: [u8; 4],
    pub after: Vec<[u8; ENTRY]>,
    pub files: Vec<Record>,
    pub answer: Packed,
}

/// The live files are copied out in the order of their slots, each gets the next place, and the redo entry comes last.
pub fn plain_packing(rt: &impl Abort, alloc: Global, tape: &[Record]) -> Result<Plain, Fail> {
    assert!(rt; REDO_LENGTH < tape.len() && tape.len() < 3000);
    let end = u64::from(four_at(&tape[0], 8)) + u64::from(four_at(&tape[0], 16));
    assert!(rt; end <= tape.len() as u64, "a directory");
    let before = plain_slots(alloc, tape)?;
    let (mut after, mut files) = (Vec::new(alloc), Vec::new(alloc));
    let (mut redo, mut field) = ([0; ENTRY], [0; 4]);
    let (mut place, mut moved) = (end as u32, 0_u32);
    for slot in &before {
        let Slot::Live(entry) = Slot::of(slot) else {
            continue;
        };
        let mut bytes = *slot;
        if entry.is_live_named(REDO_NAME) {
            redo = bytes;
            field = entry.implementation;
            redo[28..].copy_from_slice(&[0; 4]);
            continue;
        }
        if 0 < entry.length {
            bytes[12..16].copy_from_slice(&place.to_be_bytes());
            let from = entry.start as usize;
            let until = from.saturating_add(entry.length as usize);
            files.extend_from_slice(tape.get(from..until).ok_or("a file")?)?;
            moved = moved.saturating_add(u32::from(entry.start != place));
            place = place.saturating_add(entry.length);
        }
        after.push(bytes)?;
    }
    after.push(redo)?;
    let free = ((tape.len() - REDO_LENGTH) as u32).saturating_sub(place);
    Ok(Plain {
        before,
        field,
        after,
        files,
        answer: Packed { files: moved, free },
    })
}

/// The tape has the files that are wanted, in the same order, and no mark: row `k`.
pub fn has_files(
    rt: &impl Abort,
    alloc: Global,
    tape: &[Record],
    wanted: &Plain,
    k: usize,
) -> Result<Plain, Fail> {
    let found = plain_packing(rt, alloc, tape)?;
    let slots = same(found.after.as_slice(), wanted.after.as_slice());
    row(rt, slots, "slots", k);
    let files = same(found.files.as_slice(), wanted.files.as_slice());
    row(rt, files, "files", k);
    row(rt, same(found.field, [0; 4]), "no mark", k);
    Ok(found)
}

/// The tape is packed to what is wanted: row `k`.
pub fn packs_to(
    rt: &impl Abort,
    alloc: Global,
    tape: &[Record],
    wanted: &Plain,
    k: usize,
) -> Result<(), Fail> {
    let found = has_files(rt, alloc, tape, wanted, k)?;
    let slots = same(found.before.as_slice(), wanted.after.as_slice());
    row(rt, slots, "packed slots", k);
    row(rt, same(found.answer.files, 0), "each at its place", k);
    row(rt, same(found.answer.free, wanted.answer.free), "free", k);
    Ok(())
}
