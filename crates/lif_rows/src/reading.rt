//! Volumes as they are read: foreign ones, ones with an open redo, discs, and after a trouble.
ghost use Rattle.std.specs.Prelude.{IfOk};
ghost use Rattle.lif_volume.specs.Seen.{seen};
ghost use Rattle.lif_volume.specs.Views.{IsOpen};

use crate::labels::{check, named, row};
use crate::tapes::{GATE, SHUT, put};
use crate::volumes::{
    END, EXISTS, FILE, FOREIGN_HEADER, HEADER, NO_REDO, PROGRAM, REDO, REDO_TWO, Step,
    TARGETS_THREE, change_now, dir_now, failing_on, fetch_now, file_of, holds, open_now,
    resume_now, room_of, shows, tape_of, tape_with,
};
use il_ports::{MemoryRecords, Records, Trouble};
use il_same::same;
use lif_model::{RECORD, Record};
use lif_volume::{Fetched, Listing, Refusal, Volume, VolumeFault};
use std::alloc::{AllocError, Global};
use std::process::Abort;
use std::test::Fail;

/// A cassette of another system, with a program of two records of ones.
fn foreign_volume(rt: &impl Abort, alloc: Global) -> Result<Volume<MemoryRecords>, Fail>
    ensures { IfOk result (λ volume. IsOpen ⟦<MemoryRecords as Records>⟧.view
        (seen volume)) }
{
    let ones = [0x11; RECORD];
    let others = [(4, ones.as_slice()), (5, ones.as_slice())];
    let tape = tape_of(rt, alloc, 512, FOREIGN_HEADER, &[PROGRAM, END], &others)?;
    open_now(rt, alloc, tape, Vec::new(alloc))
}

/// It is listed as its record 0 says, with its one slot.
fn lists_foreign(rt: &impl Abort, volume: &mut Volume<MemoryRecords>)
    requires { IsOpen ⟦<MemoryRecords as Records>⟧.view
        (seen volume.old) }
    ensures { IsOpen ⟦<MemoryRecords as Records>⟧.view
        (seen volume.new) }
{
    let want = Listing {
        label: *b"      ",
        start: 2,
        length: 2,
    };
    check(
        rt,
        same(dir_now(rt, volume), Ok(want)),
        "what record 0 says",
    );
    check(rt, holds(volume, &[PROGRAM]), "the slot");
}

/// Its program is fetched, and no other file, in five calls altogether.
fn fetches_foreign(rt: &impl Abort, volume: &mut Volume<MemoryRecords>, into: &mut [u8])
    requires { IsOpen ⟦<MemoryRecords as Records>⟧.view
        (seen volume.old) }
    ensures { IsOpen ⟦<MemoryRecords as Records>⟧.view
        (seen volume.new) }
{
    let program = Fetched {
        kind: 0xE080,
        implementation: [0, 0, 1, 0x80],
        length: 512,
    };
    check(
        rt,
        same(fetch_now(rt, volume, b"PROG1", into), Ok(program)),
        "the program",
    );
    let past = into.iter().position(|byte| *byte != 0x11);
    check(rt, same(past, Some(512)), "two records of ones");
    let refused = fetch_now(rt, volume, b"PROG2", into);
    check(
        rt,
        same(refused, Err(VolumeFault::Refused(Refusal::NoFile))),
        "no such file",
    );
    let left = volume.records().left();
    check(
        rt,
        same((left, volume.is_kept()), (10000 - 5, true)),
        "five calls",
    );
}

/// Nothing of it is purged before it is adopted, which makes the slot of a redo file and an end after it.
fn adopts_foreign(rt: &impl Abort, volume: &mut Volume<MemoryRecords>)
    requires { IsOpen ⟦<MemoryRecords as Records>⟧.view
        (seen volume.old) }
    ensures { IsOpen ⟦<MemoryRecords as Records>⟧.view
        (seen volume.new) }
{
    let purged = change_now(rt, volume, Step::Purge(b"PROG1"));
    check(rt, same(purged, NO_REDO), "no purge without a redo file");
    check(rt, change_now(rt, volume, Step::Adopt).is_ok(), "adopted");
    check(rt, holds(volume, &[PROGRAM, REDO]), "the slots then");
    let end = volume.records().records().get(2).map(|record| record[74]);
    check(rt, same(end, Some(0xFF)), "an end after the redo entry");
}

#[test]
fn lists_fetches_and_adopts_a_foreign_volume(rt: HostRuntime) -> Result<(), Fail> {
    let alloc = rt.alloc();
    let mut into = room_of(alloc, 0)?;
    let mut volume = foreign_volume(&rt, alloc)?;
    lists_foreign(&rt, &mut volume);
    fetches_foreign(&rt, &mut volume, &mut into);
    adopts_foreign(&rt, &mut volume);
    drop(volume);
    Ok(())
}

/// Whether `dir` lists the volume HPTAPE with these slots, keeps them, and leaves a gate that begins
/// so.
fn lists(
    rt: &impl Abort,
    alloc: Global,
    tape: Vec<Record>,
    slots: &[&[u8]],
    gate: &[u8],
) -> Result<bool, Fail> {
    let mut volume = open_now(rt, alloc, tape, Vec::new(alloc))?;
    let want = Listing {
        label: *b"HPTAPE",
        start: 2,
        length: 2,
    };
    let front = same(dir_now(rt, &mut volume), Ok(want));
    let shut = match volume.records().records().get(508) {
        Some(record) => record.starts_with(gate),
        None => false,
    };
    let good = front && volume.is_kept() && holds(&volume, slots) && shut;
    drop(volume);
    Ok(good)
}

/// Targets records that name record 2, of either version.
const TARGETS: &[u8] = b"LIFREDO1\0\x01\0\x02";

const TARGETS_TWO: &[u8] = b"LIFREDO2\0\x01\0\x02";

/// A record of zeros, and a slot of zeros, which is purged.
const BLANK: &[u8] = &[0; RECORD];

const ZEROS: &[u8] = &[0; 32];

/// A cassette with this redo entry, this gate and these targets, and in that record the directory
/// of a file and that redo entry.
fn redo_tape(
    rt: &impl Abort,
    alloc: Global,
    redo: &[u8],
    gate: &[u8],
    targets: &[u8],
    content: (usize, &[u8]),
) -> Result<Vec<Record>, AllocError> {
    let others = [(508, gate), (509, targets)];
    let mut tape = tape_of(rt, alloc, 512, HEADER, &[redo, END], &others)?;
    put(rt, &mut tape, content.0, 0, FILE);
    put(rt, &mut tape, content.0, 32, content.1);
    put(rt, &mut tape, content.0, 64, END);
    Ok(tape)
}

/// A name, the redo entry, the gate and the targets of a cassette, a record with the directory of a
/// file and such a redo entry, the slots that are listed, and how the gate begins then.
type Settled = (
    &'static str,
    &'static [u8],
    &'static [u8],
    &'static [u8],
    (usize, &'static [u8]),
    &'static [&'static [u8]],
    &'static [u8],
);

/// An open redo, a gate that is not open, and targets that are not valid; the same of version 2, and
/// of version 1 where the content is a record of zeros.
const SETTLED: &[Settled] = &[
    (
        "open",
        REDO,
        GATE,
        TARGETS,
        (510, REDO),
        &[FILE, REDO],
        BLANK,
    ),
    ("shut", REDO, SHUT, TARGETS, (510, REDO), &[REDO], SHUT),
    (
        "not valid",
        REDO,
        GATE,
        TARGETS_THREE,
        (510, REDO),
        &[REDO],
        GATE,
    ),
    (
        "version 2",
        REDO_TWO,
        GATE,
        TARGETS_TWO,
        (478, REDO_TWO),
        &[FILE, REDO_TWO],
        BLANK,
    ),
    (
        "version 1",
        REDO,
        GATE,
        TARGETS,
        (478, REDO_TWO),
        &[ZEROS; 16],
        BLANK,
    ),
];

/// Lists the volume of a row.
fn settles(rt: &impl Abort, alloc: Global, example: &Settled) -> Result<(), Fail> {
    let (name, redo, gate, targets, content, slots, left) = *example;
    let tape = redo_tape(rt, alloc, redo, gate, targets, content)?;
    named(rt, lists(rt, alloc, tape, slots, left)?, "the answer", name);
    Ok(())
}

#[test]
fn settles_before_it_lists(rt: HostRuntime) -> Result<(), Fail> {
    for example in SETTLED {
        settles(&rt, rt.alloc(), example)?;
    }
    Ok(())
}

#[test]
fn lists_what_is_formatted(rt: HostRuntime) -> Result<(), Fail> {
    let tape = tape_with(&rt, rt.alloc(), HEADER, &[REDO])?;
    let good = lists(&rt, rt.alloc(), tape, &[REDO], BLANK)?;
    check(&rt, good, "as it is formatted");
    Ok(())
}

/// A file in the last record of a disc.
const FAR: &[u8] = b"C         \0\x01\0\0\x09\x9F\0\0\0\x01\0\0\0\0\0\0\x80\x01\0\0\0\0";

/// Names, and files that no disc may have beside the file in record 4.
const ILLEGAL: &[(&str, &[u8])] = &[
    (
        "past",
        b"C         \0\x01\0\0\x09\x9F\0\0\0\x02\0\0\0\0\0\0\x80\x01\0\0\0\0",
    ),
    (
        "in the directory",
        b"D         \0\x01\0\0\0\x03\0\0\0\x01\0\0\0\0\0\0\x80\x01\0\0\0\0",
    ),
    (
        "twin",
        b"A         \0\x01\0\0\0\x09\0\0\0\x01\0\0\0\0\0\0\x80\x01\0\0\0\0",
    ),
    (
        "longer",
        b"E         \0\x01\0\0\0\x04\0\0\0\x02\0\0\0\0\0\0\x80\x01\0\0\0\0",
    ),
];

/// A volume on a disc with these slots.
fn disc(rt: &impl Abort, alloc: Global, slots: &[&[u8]]) -> Result<Volume<MemoryRecords>, Fail>
    ensures { IfOk result (λ volume. IsOpen ⟦<MemoryRecords as Records>⟧.view
        (seen volume)) }
{
    let tape = tape_of(rt, alloc, 2464, HEADER, slots, &[])?;
    open_now(rt, alloc, tape, Vec::new(alloc))
}

/// A disc with the file in record 4 and this one is no volume.
fn is_no_volume(rt: &impl Abort, alloc: Global, name: &str, bad: &[u8]) -> Result<(), Fail> {
    let mut volume = disc(rt, alloc, &[FILE, bad, END])?;
    let good = shows(rt, &mut volume, b"", &[]);
    drop(volume);
    named(rt, good, "the answer", name);
    Ok(())
}

#[test]
fn an_illegal_disc_is_no_volume(rt: HostRuntime) -> Result<(), Fail> {
    for (name, bad) in ILLEGAL {
        is_no_volume(&rt, rt.alloc(), name, bad)?;
    }
    Ok(())
}

#[test]
fn a_disc_is_legal_up_to_its_last_record(rt: HostRuntime) -> Result<(), Fail> {
    let slots = [FAR, FILE, END];
    let tape = tape_of(&rt, rt.alloc(), 2464, HEADER, &slots, &[])?;
    let good = lists(&rt, rt.alloc(), tape, &[FAR, FILE], BLANK)?;
    check(&rt, good, "up to the last record");
    Ok(())
}

#[test]
fn the_redo_file_of_a_cassette_adopts_no_disc(rt: HostRuntime) -> Result<(), Fail> {
    let mut volume = disc(&rt, rt.alloc(), &[REDO, END])?;
    let shown = shows(&rt, &mut volume, HEADER, &[REDO]);
    let purged = change_now(&rt, &mut volume, Step::Purge(b"REDOFILE"));
    let adopted = change_now(&rt, &mut volume, Step::Adopt);
    drop(volume);
    check(&rt, shown, "another redo file");
    check(&rt, same(purged, NO_REDO), "no purge of it");
    check(&rt, same(adopted, EXISTS), "no second one");
    Ok(())
}

/// Of the files A and REDOFILE the first alone is fetched, and no other one.
fn protects_the_redo_file(rt: &impl Abort, volume: &mut Volume<MemoryRecords>, into: &mut [u8])
    requires { IsOpen ⟦<MemoryRecords as Records>⟧.view
        (seen volume.old) }
    ensures { IsOpen ⟦<MemoryRecords as Records>⟧.view
        (seen volume.new) }
{
    let answer = fetch_now(rt, volume, b"A", into);
    check(rt, same(answer, file_of(256)), "a file");
    let answer = fetch_now(rt, volume, b"REDOFILE", into);
    check(
        rt,
        same(answer, Err(VolumeFault::Refused(Refusal::Protected))),
        "the redo file",
    );
    let answer = fetch_now(rt, volume, b"B", into);
    check(
        rt,
        same(answer, Err(VolumeFault::Refused(Refusal::NoFile))),
        "no such file",
    );
    check(rt, volume.is_kept(), "kept");
}

/// A fetch of which this call fails forgets what was kept; the next ones read it anew.
fn forgets_and_reads_anew(
    rt: &impl Abort,
    alloc: Global,
    call: u64,
    into: &mut [u8],
) -> Result<(), Fail> {
    let tape = tape_with(rt, alloc, HEADER, &[FILE, REDO])?;
    let mut volume = failing_on(rt, alloc, tape, call)?;
    let answer = fetch_now(rt, &mut volume, b"A", into);
    let trouble = VolumeFault::Trouble(Trouble::Medium);
    row(rt, same(answer, Err(trouble)), "call fails", call);
    row(rt, !volume.is_kept(), "call forgotten", call);
    check(rt, resume_now(rt, &mut volume).is_ok(), "resumed");
    volume.begin();
    protects_the_redo_file(rt, &mut volume, into);
    drop(volume);
    Ok(())
}

#[test]
fn protects_the_redo_file_and_forgets_after_a_trouble(rt: HostRuntime) -> Result<(), Fail> {
    let mut into = room_of(rt.alloc(), 0)?;
    // The gate, record 0, the directory and the file are one call each.
    for call in 1..5 {
        forgets_and_reads_anew(&rt, rt.alloc(), call, &mut into)?;
    }
    Ok(())
}
