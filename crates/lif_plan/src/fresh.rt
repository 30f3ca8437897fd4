//! What `format` makes of a medium: an empty volume whose only slot is that of the redo file.
ghost use Rattle.std.specs.Prelude.{◌≡◌, ◌<◌, ◌≤◌, ◌++◌, not, false, length, drop};
ghost use Rattle.lif_model.specs.Header.{header_of};
ghost use Rattle.lif_model.specs.Made.{first_directory_record, fresh_header, records_for_slots};
ghost use Rattle.lif_model.specs.declared.version.Version.TheVariants.{One};
ghost use Rattle.lif_model.specs.Volume.{redo_entry};
ghost use Rattle.lif_model.specs.Writing.{format_changes};
ghost use Rattle.lif_model.specs.Apply.{is_too_long};
ghost use Rattle.lif_dir.specs.Names.{label_bytes};

use crate::plans::redo_entry;
use lif_dir::NewLabel;
use lif_header::Header;
use lif_model::{ENTRIES, ENTRY, RECORD, Record, Version};

/// The first record of the directory of a new volume.
const FIRST: u16 = 2;

/// Where the type of an entry stands in it.
const TYPE: usize = 10;

/// How many records of a medium a new directory cannot have: two before it, and the redo file's.
const LEFT: u16 = 6;

/// A new volume: what its record 0 says, and the records that are to change.
#[derive(Drop)]
pub struct FreshVolume {
    /// What record 0 is to say.
    pub header: Header,
    /// Record 0, and the first record of the directory.
    pub changes: [(u16, Record); 2],
}

impl FreshVolume {
    /// Whether a medium of `size` records has room for a directory of so many slots.
    pub fn fits(slots: u16, size: u16) -> bool
        requires { 6 ≤ size }
        ensures { result ≡ not (is_too_long size slots) }
    {
        usize::from(slots) <= ENTRIES * usize::from(size - LEFT)
    }

    /// One with this label and a directory of at least so many slots, one or more, for which a
    /// medium of `size` records has room.
    pub fn new(label: &NewLabel, slots: u16, size: u16) -> FreshVolume
        requires some { 0 < slots }
        requires fits { is_too_long size slots ≡ false }
        ensures label { length (label_bytes label.now) ≡ 6 }
        ensures changes { result.changes ≡ format_changes size (label_bytes label.now) slots }
        ensures header { result.header
            ≡ header_of (fresh_header size (label_bytes label.now) (records_for_slots slots)) }
    {
        let front = Header::fresh(&label.bytes(), records_for_slots(slots), size);
        let Ok(header) = Header::read(&front, size) else {
            unreachable!()
        };
        FreshVolume {
            header,
            changes: [(0, front), (FIRST, first_record(size))],
        }
    }
}

/// How many records a directory of so many slots has.
fn records_for_slots(slots: u16) -> u16
    ensures { result ≡ records_for_slots slots }
{
    slots.div_ceil(ENTRIES as u16)
}

/// The first record of a directory whose only slot is that of the redo file: an end stands after
/// it, and then zeros.
fn first_record(size: u16) -> Record
    ensures { result ≡ first_directory_record (redo_entry One size) }
{
    let mut bytes = [0; RECORD];
    put_first(&mut bytes, &redo_entry(Version::One, size).bytes());
    bytes[ENTRY + TYPE] = 0xFF;
    bytes[ENTRY + TYPE + 1] = 0xFF;
    bytes
}

/// Puts an entry into the first place of a record of a directory.
fn put_first(bytes: &mut Record, entry: &[u8; 32])
    ensures { bytes.new ≡ entry.now ++ drop 32 bytes.old }
{
    bytes[..ENTRY].copy_from_slice(entry);
}
