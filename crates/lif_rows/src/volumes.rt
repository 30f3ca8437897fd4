//! Volumes over records in memory: what tests of commands begin with, and how they call them.
ghost use Rattle.std.specs.Prelude.{◌≡◌, IfOk};
ghost use Rattle.lif_volume.specs.Commands.{IsReadyFor};
ghost use Rattle.lif_volume.specs.Seen.{seen};
ghost use Rattle.lif_volume.specs.Views.{IsOpen};

use crate::labels::check;
use crate::names::{name_of, new_name};
use crate::tapes::put;
use il_ports::{MemoryRecords, Records, Trouble};
use lif_dir::NewLabel;
use lif_model::{RECORD, Record};
use lif_volume::{Fetched, Listing, Refusal, Volume, VolumeFault};
use std::alloc::{AllocError, Global};
use std::process::Abort;
use std::test::Fail;

/// The headers of a volume HPTAPE, as it is formatted, and of one without a label. The directories
/// are records 2 and 3.
pub const HEADER: &[u8] =
    b"\x80\0HPTAPE\0\0\0\x02\x10\0\0\0\0\0\0\x02\0\x01\0\0\0\0\0\x02\0\0\0\x01\0\0\x01\0";

pub const FOREIGN_HEADER: &[u8] = b"\x80\0      \0\0\0\x02\x10\0\0\0\0\0\0\x02";

/// The end of a directory.
pub const END: &[u8] = b"\0\0\0\0\0\0\0\0\0\0\xFF\xFF";

/// A program of an HP-41, in records 4 and 5.
pub const PROGRAM: &[u8] =
    b"PROG1     \xE0\x80\0\0\0\x04\0\0\0\x02\0\0\0\0\0\0\x80\x01\0\0\x01\x80";

/// A file in the last record of a cassette.
pub const LAST: &[u8] = b"LAST      \0\x01\0\0\x01\xFF\0\0\0\x01\0\0\0\0\0\0\x80\x01\0\0\0\0";

/// A file in record 4; the same purged, and under another name.
pub const FILE: &[u8] = b"A         \0\x01\0\0\0\x04\0\0\0\x01\0\0\0\0\0\0\x80\x01\0\0\0\0";

pub const PURGED: &[u8] = b"A         \0\0\0\0\0\x04\0\0\0\x01\0\0\0\0\0\0\x80\x01\0\0\0\0";

pub const RENAMED: &[u8] = b"B         \0\x01\0\0\0\x04\0\0\0\x01\0\0\0\0\0\0\x80\x01\0\0\0\0";

/// The redo file of a cassette, of version 1 and of version 2.
pub const REDO: &[u8] = b"REDOFILE  \xE0\xD0\0\0\x01\xFC\0\0\0\x04\0\0\0\0\0\0\x80\x01\0\0\0\0";

pub const REDO_TWO: &[u8] = b"REDOFILE  \xE0\xD0\0\0\x01\xDE\0\0\0\x22\0\0\0\0\0\0\x80\x01\0\0\0\0";

/// A purged slot whose numbers are none of any medium, and a second file, in records 5 and 6.
pub const JUNK: &[u8] =
    b"OLD       \0\0\xFF\xFF\xFF\xFF\xFF\xFF\xFF\xFF\x26\x11\x27\x12\0\0\0\0\x55\x55\x55\x55";

pub const SECOND_FILE: &[u8] = b"B         \0\x01\0\0\0\x05\0\0\0\x02\0\0\0\0\0\0\x80\x01\0\0\0\0";

/// A targets record that names three records, which is not valid.
pub const TARGETS_THREE: &[u8] = b"LIFREDO1\0\x03\0\x02";

/// The header of a medium and the slots of its directory; no volume, where the header is empty.
pub type Shown = (&'static [u8], &'static [&'static [u8]]);

pub const TWO: Shown = (HEADER, &[FILE, REDO_TWO]);

/// What a command answers.
pub type Answer = Result<(), VolumeFault>;

pub const NOT_LIF: Answer = Err(VolumeFault::Refused(Refusal::NotLif));

pub const NO_REDO: Answer = Err(VolumeFault::Refused(Refusal::NoRedo));

pub const PROTECTED: Answer = Err(VolumeFault::Refused(Refusal::Protected));

pub const NO_FILE: Answer = Err(VolumeFault::Refused(Refusal::NoFile));

pub const EXISTS: Answer = Err(VolumeFault::Refused(Refusal::Exists));

pub const IN_USE: Answer = Err(VolumeFault::Refused(Refusal::InUse));

pub const NO_ROOM: Answer = Err(VolumeFault::Refused(Refusal::NoRoom));

pub const TROUBLE: Answer = Err(VolumeFault::Trouble(Trouble::Medium));

/// What a fetch answers of a file of type 1 that has so many bytes.
pub fn file_of(length: usize) -> Result<Fetched, VolumeFault> {
    Ok(Fetched {
        kind: 1,
        implementation: [0; 4],
        length,
    })
}

/// A tape of zeros but for a header, the slots of record 2, and the beginnings of other records.
pub fn tape_of(
    rt: &impl Abort,
    alloc: Global,
    size: usize,
    header: &[u8],
    slots: &[&[u8]],
    others: &[(usize, &[u8])],
) -> Result<Vec<Record>, AllocError> {
    let mut tape = Vec::with_capacity(alloc, size)?;
    tape.resize(size, [0; RECORD])?;
    put(rt, &mut tape, 0, 0, header);
    for (k, slot) in slots.iter().enumerate() {
        assert!(rt; k < 8);
        put(rt, &mut tape, 2, 32 * k, slot);
    }
    for other in others {
        put(rt, &mut tape, other.0, 0, other.1);
    }
    Ok(tape)
}

/// A cassette with this header and this directory, and an end after it.
pub fn tape_with(
    rt: &impl Abort,
    alloc: Global,
    header: &[u8],
    slots: &[&[u8]],
) -> Result<Vec<Record>, AllocError> {
    assert!(rt; slots.len() < 8);
    let mut tape = tape_of(rt, alloc, 512, header, slots, &[])?;
    put(rt, &mut tape, 2, 32 * slots.len(), END);
    Ok(tape)
}

/// Room for the longest file of a cassette, all of this byte.
pub fn room_of(alloc: Global, byte: u8) -> Result<Vec<u8>, AllocError> {
    vec![in alloc; byte; 512 * RECORD]
}

/// A volume on a tape, whose store is sound. The listed calls of the store fail.
pub fn open_now(
    rt: &impl Abort,
    alloc: Global,
    tape: Vec<Record>,
    fails: Vec<(u64, Trouble)>,
) -> Result<Volume<MemoryRecords>, Fail>
    ensures { IfOk result (λ volume. IsOpen ⟦<MemoryRecords as Records>⟧.view
        (seen volume)) }
{
    assert!(rt; 37 < tape.len() && tape.len() < 3000);
    let records = MemoryRecords::new(alloc, tape, fails, 10000)?;
    match Volume::open(alloc, records) {
        Ok(volume) => Ok(volume),
        Err(kept) => {
            drop(kept);
            Err("no memory".into())
        }
    }
}

/// A volume on a cassette with this header and this directory, and an end after it.
pub fn volume_with(
    rt: &impl Abort,
    alloc: Global,
    header: &[u8],
    slots: &[&[u8]],
) -> Result<Volume<MemoryRecords>, Fail>
    ensures { IfOk result (λ volume. IsOpen ⟦<MemoryRecords as Records>⟧.view
        (seen volume)) }
{
    let tape = tape_with(rt, alloc, header, slots)?;
    open_now(rt, alloc, tape, Vec::new(alloc))
}

/// A volume on this tape, of whose store this call fails.
pub fn failing_on(
    rt: &impl Abort,
    alloc: Global,
    tape: Vec<Record>,
    call: u64,
) -> Result<Volume<MemoryRecords>, Fail>
    ensures { IfOk result (λ volume. IsOpen ⟦<MemoryRecords as Records>⟧.view
        (seen volume)) }
{
    let fails = Vec::from_array(alloc, [(call, Trouble::Medium)])?;
    open_now(rt, alloc, tape, fails)
}

/// Stops the test where the store of a volume is not ready for a command. The answer is how many
/// records it has.
fn ready<R: Records>(rt: &impl Abort, volume: &Volume<R>) -> u16
    requires { IsOpen R.view (seen volume.now) }
    ensures size { result ≡ (R.view (seen volume.now).records).record_count }
    ensures ready { IsReadyFor R.view (seen volume.now) }
{
    let size = volume.records().size();
    let calls = 2 * u32::from(size) + 40;
    assert!(rt; volume.records().is_sound() && calls <= volume.records().left());
    size
}

/// Lists a volume whose store is ready for it.
pub fn dir_now<R: Records>(rt: &impl Abort, volume: &mut Volume<R>) -> Result<Listing, VolumeFault>
    requires { IsOpen R.view (seen volume.old) }
    ensures { IsOpen R.view (seen volume.new) }
{
    ready(rt, volume);
    volume.dir()
}

/// Fetches a file of a volume whose store is ready for it.
pub fn fetch_now<R: Records>(
    rt: &impl Abort,
    volume: &mut Volume<R>,
    name: &[u8],
    into: &mut [u8],
) -> Result<Fetched, VolumeFault>
    requires { IsOpen R.view (seen volume.old) }
    ensures { IsOpen R.view (seen volume.new) }
{
    let size = ready(rt, volume);
    assert!(rt; RECORD * usize::from(size) <= into.len());
    volume.fetch(&name_of(rt, name), into)
}

/// Makes the store of a volume sound again.
pub fn resume_now<R: Records>(rt: &impl Abort, volume: &mut Volume<R>) -> Result<(), Trouble>
    requires { IsOpen R.view (seen volume.old) }
    ensures { IsOpen R.view (seen volume.new) }
{
    assert!(rt; 1 <= volume.records().left());
    volume.records_mut().resume()
}

/// A command that changes a volume.
#[derive(Clone, Copy)]
pub enum Step<'a> {
    Format(&'a [u8], u16),
    Purge(&'a [u8]),
    Rename(&'a [u8], &'a [u8]),
    Store(&'a [u8], &'a [u8]),
    Adopt,
    Upgrade,
}

/// Changes a volume whose store is ready for it.
pub fn change_now<R: Records>(rt: &impl Abort, volume: &mut Volume<R>, step: Step) -> Answer
    requires { IsOpen R.view (seen volume.old) }
    ensures { IsOpen R.view (seen volume.new) }
{
    ready(rt, volume);
    match step {
        Step::Format(label, slots) => {
            assert!(rt; 0 < slots);
            let label = NewLabel::of(label).expect(rt, "a label");
            volume.format(&label, slots)
        }
        Step::Purge(name) => volume.purge(&name_of(rt, name)),
        Step::Rename(old, new) => volume.rename(&name_of(rt, old), &new_name(rt, new)),
        Step::Store(name, bytes) => volume.store(&new_name(rt, name), 1, [0; 4], bytes),
        Step::Adopt => volume.adopt(),
        Step::Upgrade => volume.upgrade(),
    }
}

/// Whether the slots are these, with all their bytes.
pub fn holds<R: Records>(volume: &Volume<R>, slots: &[&[u8]]) -> bool {
    let table = volume.slots();
    if table.len() != slots.len() {
        return false;
    }
    for k in 0..table.len() {
        let bytes = table.entry(k).bytes();
        if slots.get(k).copied() != Some(bytes.as_slice()) {
            return false;
        }
    }
    true
}

/// Whether `dir` lists these slots, of a volume with this record 0; or no volume, where that is
/// empty.
pub fn shows(
    rt: &impl Abort,
    volume: &mut Volume<MemoryRecords>,
    header: &[u8],
    slots: &[&[u8]],
) -> bool
    requires { IsOpen ⟦<MemoryRecords as Records>⟧.view
        (seen volume.old) }
    ensures { IsOpen ⟦<MemoryRecords as Records>⟧.view
        (seen volume.new) }
{
    let answer = dir_now(rt, volume);
    if header.is_empty() {
        return !volume.is_kept() && answer == Err(VolumeFault::Refused(Refusal::NotLif));
    }
    let front = match volume.records().records().get(0) {
        Some(record) => record.starts_with(header),
        None => false,
    };
    answer.is_ok() && volume.is_kept() && front && holds(volume, slots)
}

/// Reads the volume anew, and says whether it shows this.
pub fn shows_again(
    rt: &impl Abort,
    volume: &mut Volume<MemoryRecords>,
    header: &[u8],
    slots: &[&[u8]],
) -> bool
    requires { IsOpen ⟦<MemoryRecords as Records>⟧.view
        (seen volume.old) }
    ensures { IsOpen ⟦<MemoryRecords as Records>⟧.view
        (seen volume.new) }
{
    check(rt, resume_now(rt, volume).is_ok(), "resumed");
    shows(rt, volume, header, slots)
}

/// Stops the test where a trouble did not make the volume forget what it kept, or where it shows
/// neither of these when it is read anew.
pub fn forgets(rt: &impl Abort, volume: &mut Volume<MemoryRecords>, old: Shown, new: Shown)
    requires { IsOpen ⟦<MemoryRecords as Records>⟧.view
        (seen volume.old) }
    ensures { IsOpen ⟦<MemoryRecords as Records>⟧.view
        (seen volume.new) }
{
    check(rt, !volume.is_kept(), "forgotten");
    let is_old = shows_again(rt, volume, old.0, old.1);
    check(rt, is_old || shows(rt, volume, new.0, new.1), "old or new");
}
