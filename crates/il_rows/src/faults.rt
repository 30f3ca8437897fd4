//! Faults of the loop and of the medium: a command counts whole or not at all.

use crate::batches::{batch_on, upgraded};
use crate::images::{OPEN_GATE, formatted, put_at};
use crate::lines::{LISTED, repeated};
use crate::runs::{Given, answers, nth_answers, run, words_with};
use il_same::same;
use std::alloc::{AllocError, Global};
use std::process::Abort;
use std::test::Fail;

pub(crate) const STORE: &[u8] = b"store A 0001 00000000 41\n";

pub(crate) const SCRIPT: &[u8] = b"store A 0001 00000000 41\ndir\n";

const WITH: &[u8] =
    b"volume HPTAPE 2 2 2 16\nfile A 0001 4 1 00000000\nfile REDOFILE E0D0 508 4 00000000\nok\n";

/// A change under a fault: the script makes it, and then lists the directory without what it made or with it.
#[derive(Clone, Copy)]
pub(crate) struct Change<'a> {
    pub(crate) tape: &'a [u8],
    pub(crate) script: &'a [u8],
    pub(crate) without: &'a [u8],
    pub(crate) with: &'a [u8],
    /// The number of the write that makes it.
    pub(crate) making: usize,
}

/// The store of a file on this tape.
pub(crate) fn store_on<'a>(tape: &'a [u8]) -> Change<'a> {
    Change {
        tape,
        script: SCRIPT,
        without: LISTED,
        with: WITH,
        making: 4,
    }
}

/// The same file, put as a text.
fn put_on<'a>(tape: &'a [u8]) -> Change<'a> {
    Change {
        script: b"put A 41\ndir\n",
        ..store_on(tape)
    }
}

/// What a write that is cut off may leave in its record.
fn torn_records() -> [[u8; 256]; 3] {
    let mut open_gate = [0; 256];
    put_at(&mut open_gate, 0, OPEN_GATE);
    [[0; 256], [0xFF; 256], open_gate]
}

impl<'a> Change<'a> {
    /// This line, and then one of the two listings: whether it is the second.
    pub(crate) fn listed_behind(&self, line: &[u8], output: &[u8]) -> Option<bool> {
        let listing = output.strip_prefix(line)?;
        if listing == self.without {
            return Some(false);
        }
        if listing == self.with {
            Some(true)
        } else {
            None
        }
    }

    /// What is listed of this image, and the status of the run.
    pub(crate) fn listed_on(
        &self,
        alloc: Global,
        image: &[u8],
    ) -> Result<(Option<bool>, u8), Fail> {
        let left = run(alloc, &Given::script(image, b"dir\n"))?;
        Ok((self.listed_behind(b"", &left.output), left.status))
    }

    /// Whether it is made after a fault or a stop within that write, which leaves these bytes in its record.
    fn is_made(&self, write: usize, torn: &[u8; 256]) -> bool {
        self.making < write || (write == self.making && torn.starts_with(OPEN_GATE))
    }

    /// A failure of this write, which leaves these bytes in its record, leaves the change made or not.
    fn fails_at(
        &self,
        rt: &impl Abort,
        alloc: Global,
        write: u64,
        torn: [u8; 256],
    ) -> Result<(), Fail> {
        let given = Given {
            failing_writes: &[(write, torn)],
            ..Given::script(self.tape, self.script)
        };
        let left = run(alloc, &given)?;
        let listed = self.listed_behind(b"fault medium\n", &left.output);
        let is_made = self.is_made(write as usize, &torn);
        assert!(rt;
            same((listed, left.status), (Some(is_made), 1)),
            "a failure of write {write}"
        );
        Ok(())
    }

    /// A failure of each of so many writes leaves the change made or not.
    pub(crate) fn fails_at_each(
        &self,
        rt: &impl Abort,
        alloc: Global,
        count: u64,
    ) -> Result<(), Fail> {
        for write in 1..=count {
            for torn in torn_records() {
                self.fails_at(rt, alloc, write, torn)?;
            }
        }
        Ok(())
    }

    /// A stop within the last of these writes, which leaves these bytes in its record, leaves the change made or not.
    fn stops_at(
        &self,
        rt: &impl Abort,
        alloc: Global,
        writes: &[(u16, [u8; 256])],
        torn: &[u8; 256],
    ) -> Result<(), Fail> {
        let write = writes.len();
        let image = stopped_at(alloc, self.tape, writes, torn)?;
        let listed = self.listed_on(alloc, &image)?;
        assert!(rt;
            same(listed, (Some(self.is_made(write, torn)), 0)),
            "a stop within write {write}"
        );
        Ok(())
    }

    /// A stop within each of these writes leaves the change made or not.
    pub(crate) fn stops_at_each(
        &self,
        rt: &impl Abort,
        alloc: Global,
        writes: &[(u16, [u8; 256])],
    ) -> Result<(), Fail> {
        for write in 1..=writes.len() {
            let made = writes.get(..write).unwrap_or(&[]);
            for torn in &torn_records() {
                self.stops_at(rt, alloc, made, torn)?;
            }
        }
        Ok(())
    }

    /// Whether a run is past the last fault that the change can have. Before it, the change has the fault of this line,
    /// and is made or not.
    fn is_past(
        &self,
        rt: &impl Abort,
        alloc: Global,
        given: &Given,
        line: &[u8],
        fault: u64,
    ) -> Result<bool, Fail> {
        let left = run(alloc, given)?;
        if left.output.starts_with(b"ok\n") {
            return Ok(true);
        }
        let listed = self.listed_behind(line, &left.output);
        assert!(rt;
            same((listed.is_some(), left.status), (true, 1)),
            "fault {fault}"
        );
        Ok(false)
    }

    /// The same of a fault at this crossing.
    fn is_past_crossing(
        &self,
        rt: &impl Abort,
        alloc: Global,
        option: &str,
        end: &str,
        crossing: u64,
    ) -> Result<bool, Fail> {
        let words = words_with(alloc, option, crossing, end)?;
        let given = Given::script(self.tape, self.script).with_words(&words);
        self.is_past(rt, alloc, &given, b"fault frame\n", crossing)
    }

    /// How many of the crossings 1, 98, 195 and so on the change has. A fault at each of them leaves it made or not.
    pub(crate) fn crossings_tried(
        &self,
        rt: &impl Abort,
        alloc: Global,
        option: &str,
        end: &str,
    ) -> Result<u64, Fail> {
        for tried in 0..1000 {
            if self.is_past_crossing(rt, alloc, option, end, 97 * tried + 1)? {
                return Ok(tried);
            }
        }
        Ok(1000)
    }

    /// So many of those crossings lose a frame, and as many alter a byte.
    pub(crate) fn has_crossings(
        &self,
        rt: &impl Abort,
        alloc: Global,
        wanted: u64,
    ) -> Result<(), Fail> {
        let lost = self.crossings_tried(rt, alloc, "--lose ", "")?;
        let altered = self.crossings_tried(rt, alloc, "--alter ", ":01")?;
        assert!(rt;
            same((lost, altered), (wanted, wanted)),
            "the crossings lost and altered"
        );
        Ok(())
    }

    /// How many reads the change makes. A fault of each of them leaves it made or not.
    fn reads_tried(&self, rt: &impl Abort, alloc: Global) -> Result<u64, Fail> {
        for read in 1..20 {
            let given = Given {
                failing_reads: &[read],
                ..Given::script(self.tape, self.script)
            };
            if self.is_past(rt, alloc, &given, b"fault medium\n", read)? {
                return Ok(read - 1);
            }
        }
        Ok(20)
    }

    /// The change makes so many reads.
    fn has_reads(&self, rt: &impl Abort, alloc: Global, wanted: u64) -> Result<(), Fail> {
        let reads = self.reads_tried(rt, alloc)?;
        assert!(rt; same(reads, wanted), "the reads");
        Ok(())
    }
}

#[test]
fn a_file_counts_whole_or_not_at_all(rt: HostRuntime) -> Result<(), Fail> {
    let alloc = rt.alloc();
    let tape = formatted(alloc)?;
    // Either has 7,602 crossings: 33 to address the loop and clear the drive, 849 for each of three reads and 837 for
    // each of six writes.
    store_on(&tape).has_crossings(&rt, alloc, 79)?;
    put_on(&tape).has_crossings(&rt, alloc, 79)?;
    let store = Given::script(&tape, STORE);
    let last = store.with_words("--quiet --lose 7602 TAPE");
    answers(&rt, alloc, &last, 1, b"fault frame\n")?;
    let next = store.with_words("--quiet --lose 7603 TAPE");
    answers(&rt, alloc, &next, 0, b"ok\n")
}

#[test]
fn a_write_that_fails(rt: HostRuntime) -> Result<(), Fail> {
    let alloc = rt.alloc();
    let tape = formatted(alloc)?;
    let given = Given {
        failing_writes: &[(3, [0; 256])],
        ..Given::script(
            &tape,
            b"store A 0001 00000000 41\nstore A 0001 00000000 41\n",
        )
    };
    answers(&rt, alloc, &given, 1, b"fault medium\nok\n")
}

#[test]
fn each_write_of_a_store_fails(rt: HostRuntime) -> Result<(), Fail> {
    let alloc = rt.alloc();
    let tape = formatted(alloc)?;
    store_on(&tape).fails_at_each(&rt, alloc, 6)
}

#[test]
fn each_read_of_a_change_fails(rt: HostRuntime) -> Result<(), Fail> {
    let alloc = rt.alloc();
    let (tape, second) = (formatted(alloc)?, upgraded(alloc)?);
    // The gate, record 0 and the directory's record; the commit reads none.
    store_on(&tape).has_reads(&rt, alloc, 3)?;
    put_on(&tape).has_reads(&rt, alloc, 3)?;
    batch_on(&second).has_reads(&rt, alloc, 3)
}

/// The image as it was after the first writes, with these bytes in the record of the next.
pub(crate) fn stopped_at(
    alloc: Global,
    tape: &[u8],
    writes: &[(u16, [u8; 256])],
    torn: &[u8; 256],
) -> Result<Vec<u8>, AllocError> {
    let mut image = Vec::from_slice(alloc, tape)?;
    image.resize(131_072, 0)?;
    for (record, bytes) in writes {
        put_at(&mut image, 256 * usize::from(*record), bytes);
    }
    if let Some((record, _)) = writes.last() {
        put_at(&mut image, 256 * usize::from(*record), torn);
    }
    Ok(image)
}

/// A fetch of the file has this image's reply. Its one byte comes back in a whole record.
fn is_fetched(
    rt: &impl Abort,
    alloc: Global,
    write: usize,
    image: &[u8],
    is_there: bool,
) -> Result<(), Fail> {
    let given = Given::script(image, b"fetch A\n");
    if !is_there {
        return nth_answers(rt, alloc, write, &given, 1, b"error 4 NoFile\n");
    }
    let wanted = repeated(alloc, b"data 0001 00000000 41", (510, b"0"), b"\nok\n")?;
    nth_answers(rt, alloc, write, &given, 0, &wanted)
}

/// After a stop within the last of these writes of the store the file is fetched, or there is none.
fn is_fetched_after(
    rt: &impl Abort,
    alloc: Global,
    store: &Change,
    writes: &[(u16, [u8; 256])],
    torn: &[u8; 256],
) -> Result<(), Fail> {
    let write = writes.len();
    let image = stopped_at(alloc, store.tape, writes, torn)?;
    is_fetched(rt, alloc, write, &image, store.is_made(write, torn))
}

/// The same after a stop within each of these writes.
fn is_fetched_after_each(
    rt: &impl Abort,
    alloc: Global,
    store: &Change,
    writes: &[(u16, [u8; 256])],
) -> Result<(), Fail> {
    for write in 1..=writes.len() {
        let made = writes.get(..write).unwrap_or(&[]);
        for torn in &torn_records() {
            is_fetched_after(rt, alloc, store, made, torn)?;
        }
    }
    Ok(())
}

/// The records of a store's writes.
const RECORDS: [u16; 6] = [4, 510, 509, 508, 2, 508];

#[test]
fn a_stop_within_each_write_of_a_store(rt: HostRuntime) -> Result<(), Fail> {
    let alloc = rt.alloc();
    let tape = formatted(alloc)?;
    let store = store_on(&tape);
    let writes = run(alloc, &Given::script(&tape, STORE))?.writes;
    let records = writes.iter().map(|made| made.0);
    assert!(rt; records.eq(RECORDS), "the records of the writes");
    store.stops_at_each(&rt, alloc, &writes)?;
    is_fetched_after_each(&rt, alloc, &store, &writes)
}
