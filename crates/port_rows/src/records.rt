//! Records in memory: what is written is read back, and calls that fail by number.
use il_ports::{MemoryRecords, Records, Trouble};
use il_same::{same, same_bytes};
use lif_model::{RECORD, Record};
use std::alloc::{AllocError, Global};
use std::process::Abort;
use std::test::Fail;

/// Three records, of ones, twos and threes, and so many calls.
fn three(
    alloc: Global,
    fails: Vec<(u64, Trouble)>,
    left: u32,
) -> Result<MemoryRecords, AllocError> {
    let records = Vec::from_array(alloc, [[1; RECORD], [2; RECORD], [3; RECORD]])?;
    MemoryRecords::new(alloc, records, fails, left)
}

/// A write of record `n`, one byte all over: its answer.
fn writes(rt: &impl Abort, store: &mut MemoryRecords, n: u16, byte: u8, want: Result<(), Trouble>) {
    assert!(rt; store.is_sound(), "sound before write of {n}");
    assert!(rt; n < store.size(), "the tape has record {n}");
    assert!(rt; store.left() > 0, "a call is left for write of {n}");
    let answer = store.write(n, &[byte; RECORD]);
    assert!(rt; same(answer, want), "write of {n}");
    assert!(rt;
        same(store.is_sound(), want.is_ok()),
        "sound after write of {n}"
    );
}

/// A read of record `n`, which is one byte all over: its answer.
fn reads(rt: &impl Abort, store: &mut MemoryRecords, n: u16, want: Result<u8, Trouble>) {
    assert!(rt; store.is_sound(), "sound before read of {n}");
    assert!(rt; n < store.size(), "the tape has record {n}");
    assert!(rt; store.left() > 0, "a call is left for read of {n}");
    let mut into = [0; RECORD];
    let answer = store.read(n, &mut into);
    assert!(rt; same(answer, want.map(|_| ())), "read of {n}");
    assert!(rt;
        same(store.is_sound(), want.is_ok()),
        "sound after read of {n}"
    );
    if let Ok(byte) = want {
        assert!(rt; same_bytes(into.as_slice(), &[byte; RECORD]), "record {n}");
    }
}

fn resume(rt: &impl Abort, store: &mut MemoryRecords) {
    assert!(rt; !store.is_sound(), "not sound before a resume");
    assert!(rt; store.left() > 0, "a call is left for a resume");
    assert!(rt; same(store.resume(), Ok(())), "a resume");
    assert!(rt; store.is_sound(), "sound after a resume");
}

/// The records of the store, each one byte all over.
fn holds(rt: &impl Abort, store: &MemoryRecords, bytes: [u8; 3]) {
    let records = bytes.map(|byte| [byte; RECORD]);
    assert!(rt; same(store.records(), records.as_slice()), "the records");
}

#[test]
fn a_write_is_read_back(rt: HostRuntime) -> Result<(), Fail> {
    let alloc = rt.alloc();
    let mut store = three(alloc, Vec::new(alloc), 4)?;
    assert!(rt; same(store.size(), 3), "three records");
    assert!(rt; store.writes().is_empty(), "no write at first");
    holds(&rt, &store, [1, 2, 3]);
    reads(&rt, &mut store, 2, Ok(3));
    writes(&rt, &mut store, 2, 7, Ok(()));
    reads(&rt, &mut store, 2, Ok(7));
    reads(&rt, &mut store, 1, Ok(2));
    assert!(rt; same(store.left(), 0), "all calls are used");
    assert!(rt;
        same(store.writes(), [(2, [7; RECORD])].as_slice()),
        "the write"
    );
    holds(&rt, &store, [1, 2, 7]);
    Ok(())
}

/// The first entry of a number counts, and no call has number 0. An emptied log changes nothing here.
#[test]
fn listed_calls_fail(rt: HostRuntime) -> Result<(), Fail> {
    let alloc = rt.alloc();
    let fails = [
        (5, Trouble::Medium),
        (2, Trouble::Frame),
        (5, Trouble::Frame),
        (0, Trouble::Frame),
    ];
    let mut store = three(alloc, Vec::from_array(alloc, fails)?, 8)?;
    writes(&rt, &mut store, 1, 7, Ok(()));
    writes(&rt, &mut store, 2, 8, Err(Trouble::Frame));
    resume(&rt, &mut store);
    reads(&rt, &mut store, 2, Ok(3));
    reads(&rt, &mut store, 1, Ok(7));
    reads(&rt, &mut store, 0, Err(Trouble::Medium));
    resume(&rt, &mut store);
    store.begin();
    writes(&rt, &mut store, 0, 9, Ok(()));
    assert!(rt; same(store.left(), 0), "all calls are used");
    let writes = [(1, [7; RECORD]), (0, [9; RECORD])];
    assert!(rt; same(store.writes(), writes.as_slice()), "the writes");
    holds(&rt, &store, [9, 7, 3]);
    Ok(())
}

/// A run of sevens, one byte short of so many records, of which the record of that number fails.
fn run_of(
    rt: &impl Abort,
    alloc: Global,
    count: u16,
    fails: u16,
) -> Result<MemoryRecords, AllocError> {
    let failing = vec![in alloc; (u64::from(fails), Trouble::Medium)]?;
    let mut store = three(alloc, failing, 4)?;
    assert!(rt; 0 < count && count < 4, "a run of {count}");
    let bytes = vec![in alloc; 7; RECORD * usize::from(count) - 1]?;
    assert!(rt; count <= store.size(), "the tape has {count} records");
    assert!(rt; u32::from(count) <= store.left(), "{count} calls are left");
    assert!(rt; store.is_sound(), "sound before a run of {count}");
    let answer = store.write_run(0, count, &bytes);
    let want = if fails > count {
        Ok(())
    } else {
        Err(Trouble::Medium)
    };
    assert!(rt; same(answer, want), "run of {count}, fault {fails}");
    Ok(store)
}

/// What record `n`, which held that byte, holds after that run, of which `done` records were written.
fn after_run(n: u16, byte: u8, count: u16, done: u16) -> Record {
    let mut record = [if n < done { 7 } else { byte }; RECORD];
    if n < done && n + 1 == count {
        record[255] = 0;
    }
    record
}

/// Runs of one, two and three records, with a failing record at each place of the run, or at none. The pieces before
/// it are written, and the failing record and those after it are as before.
#[test]
fn runs_end_at_a_failing_record(rt: HostRuntime) -> Result<(), Fail> {
    let alloc = rt.alloc();
    for (count, fails, done, left) in [
        (1, 1, 0, 3),
        (1, 2, 1, 3),
        (2, 1, 0, 3),
        (2, 2, 1, 2),
        (2, 3, 2, 2),
        (3, 1, 0, 3),
        (3, 2, 1, 2),
        (3, 3, 2, 1),
        (3, 4, 3, 1),
    ] {
        let store = run_of(&rt, alloc, count, fails)?;
        assert!(rt;
            same(store.writes().len(), usize::from(done)),
            "writes of {count}, fault {fails}"
        );
        assert!(rt; same(store.left(), left), "calls of {count}, fault {fails}");
        let records = [(0, 1), (1, 2), (2, 3)].map(|(n, byte)| after_run(n, byte, count, done));
        assert!(rt;
            same(store.records(), records.as_slice()),
            "records of {count}, fault {fails}"
        );
    }
    Ok(())
}

/// The bytes of the records from `first` on, of which there are so many: each holds its number and one more.
fn are_from(rt: &impl Abort, bytes: &[u8], first: u16) {
    for (n, byte) in bytes.iter().enumerate() {
        let want = usize::from(first) + n / RECORD + 1;
        assert!(rt; same(usize::from(*byte), want), "byte {n} from {first}");
    }
}

#[test]
fn runs_are_read(rt: HostRuntime) -> Result<(), Fail> {
    let alloc = rt.alloc();
    for (first, count, fails, want) in [
        (0, 3, 4, Ok(())),
        (1, 2, 3, Ok(())),
        (2, 1, 1, Err(Trouble::Frame)),
        (0, 3, 3, Err(Trouble::Frame)),
    ] {
        let mut store = three(alloc, vec![in alloc; (fails, Trouble::Frame)]?, 3)?;
        let mut into = vec![in alloc; 9; RECORD * count]?;
        assert!(rt; store.is_sound(), "sound before the run at {first}");
        assert!(rt; !into.is_empty() && into.len() % RECORD == 0, "records");
        assert!(rt; into.len() / RECORD <= store.left() as usize, "calls");
        assert!(rt;
            usize::from(first) + into.len() / RECORD <= usize::from(store.size()),
            "the tape has them"
        );
        assert!(rt;
            same(store.read_run(first, &mut into), want),
            "run at {first}"
        );
        assert!(rt;
            same(store.is_sound(), want.is_ok()),
            "sound after the run at {first}"
        );
        if want.is_ok() {
            are_from(&rt, &into, first);
        }
    }
    Ok(())
}
