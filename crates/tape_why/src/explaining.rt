//! What `why` says of an image.
ghost use Rattle.std.specs.Prelude.{◌≡◌, ◌≤◌, ◌<◌, ◌+◌, ◌*◌, ◌-◌, ◌++◌, [], true, not, length, IfOk};
ghost use Rattle.lif_model.specs.Tape.{Tape};
ghost use Rattle.lif_model.specs.Shelf.{largest_image};
ghost use Rattle.lif_model.specs.Redo.{is_settled};
ghost use Rattle.lif_model.specs.Volume.{volume_in, volume_of};
ghost use Rattle.il_ports.specs.MemoryRecords.{state_of};
ghost use Rattle.tape_why.specs.Readings.{IsDirectoryRead, IsReadAs};
ghost use Rattle.tape_why.specs.Why.{stopped_line, volume_cause, why_on, why_text};
ghost use Rattle.tape_why.specs.Why.{is_changeable, is_changeable_with};

use crate::causes::put_unlisted;
use crate::defects::{Defect, first_defect};
use crate::image::{record_count, tape_records};
use crate::listed::{LISTED, put_listed};
use crate::memory::{read_directory, settle_records};
use il_ports::MemoryRecords;
use il_script::Page;
use lif_header::{Header, HeaderFault};
use lif_plan::Directory;
use std::alloc::{AllocError, Global};

/// The most bytes of the line of a change that was broken off.
const STOPPED: usize = 60;

/// The most bytes of the text.
const ROOM: usize = 260;

/// What is said of the volume of an image.
#[derive(Drop)]
pub struct Explained {
    /// The text: at most two lines, each with its line feed.
    pub page: Page,
    /// Whether the volume can be listed and changed.
    pub is_changeable: bool,
}

/// Appends the line of a volume whose header and slots are read, and returns whether it can be listed and changed.
fn put_volume(page: &mut Page, directory: &mut Directory, header: &Header, size: u16) -> bool
    requires size { 37 < size }
    requires read { (t : Tape) × (length t ≡ size) × IsDirectoryRead t header.now directory.old.table.slots }
    requires room { length page.old.text + LISTED ≤ page.old.room }
    ensures text { (t : Tape) → length t ≡ size → IsDirectoryRead t header.now directory.old.table.slots
        → page.new ≡ record page.old { text = page.old.text ++ volume_cause t (volume_in t) } }
    ensures changeable { (t : Tape) → length t ≡ size → IsDirectoryRead t header.now directory.old.table.slots
        → result ≡ is_changeable_with size (volume_in t) }
{
    if directory.is_legal(header, size) {
        return put_listed(page, directory, header, size);
    }
    if let Some(defect) = first_defect(&directory.table, header, size) {
        put_unlisted(page, &directory.table, defect);
    }
    false
}

/// Appends the line of a volume, and returns whether it can be listed and changed. `reading` is its header, whose slots
/// are in `directory`, or the first test that record 0 fails.
fn put_reading(
    page: &mut Page,
    directory: &mut Directory,
    reading: Result<Header, HeaderFault>,
    size: u16,
) -> bool
    requires size { 37 < size }
    requires read { (t : Tape) × (length t ≡ size) × IsReadAs t directory.old.table.slots reading }
    requires room { length page.old.text + LISTED ≤ page.old.room }
    ensures text { (t : Tape) → length t ≡ size → IsReadAs t directory.old.table.slots reading
        → page.new ≡ record page.old { text = page.old.text ++ volume_cause t (volume_in t) } }
    ensures changeable { (t : Tape) → length t ≡ size → IsReadAs t directory.old.table.slots reading
        → result ≡ is_changeable_with size (volume_in t) }
{
    match reading {
        Ok(header) => put_volume(page, directory, &header, size),
        Err(fault) => {
            put_unlisted(page, &directory.table, Defect::Header(fault));
            false
        }
    }
}

/// Appends the line of a change that was broken off, if one was.
fn put_stopped(page: &mut Page, is_stopped: bool)
    requires room { length page.old.text + STOPPED ≤ page.old.room }
    ensures text { (t : Tape) → is_stopped ≡ not (is_settled t)
        → page.new ≡ record page.old { text = page.old.text ++ stopped_line t } }
    ensures size { length page.new.text ≤ length page.old.text + STOPPED }
{
    if is_stopped {
        page.put(b"a change was broken off, and the next command completes it\n");
    }
}

/// Writes why the volume of a tape in memory can or cannot be listed and changed, and returns whether it can be changed.
/// The records in memory are settled.
fn explain_records(
    records: &mut MemoryRecords,
    directory: &mut Directory,
    page: &mut Page,
    size: u16,
) -> Result<bool, AllocError>
    requires size { 37 < size }
    requires count { length (state_of records.old).records ≡ size }
    requires sound { (state_of records.old).sound ≡ true }
    requires left { size + 70 ≤ (state_of records.old).left }
    requires memory { 8 * (size - 5) ≤ directory.old.table.room }
    requires empty { page.old.text ≡ [] }
    requires room { ROOM ≤ page.old.room }
    ensures text { IfOk result (λ changeable. page.new.text ≡ why_on (state_of records.old).records) }
    ensures changeable { IfOk result (λ changeable.
        changeable ≡ is_changeable_with size (volume_of (state_of records.old).records)) }
{
    let is_stopped = settle_records(records)?;
    put_stopped(page, is_stopped);
    let reading = read_directory(records, directory)?;
    Ok(put_reading(page, directory, reading, size))
}

/// Returns why the volume of an image can or cannot be listed and changed. The image stays: a copy of its records in
/// memory is settled and read. All memory is taken first, and the only error is want of memory.
pub fn explain(alloc: Global, image: &[u8]) -> Result<Explained, AllocError>
    requires { length image.now ≤ largest_image }
    ensures text { IfOk result (λ explained. explained.page.text ≡ why_text image.now) }
    ensures changeable { IfOk result (λ explained. explained.is_changeable ≡ is_changeable image.now) }
{
    let size = record_count(image);
    let records = tape_records(alloc, image)?;
    let mut store = MemoryRecords::new(alloc, records, Vec::new(alloc), u32::from(size) + 70)?;
    let mut directory = Directory::new(alloc, 8 * usize::from(size))?;
    let mut page = Page::new(alloc, ROOM)?;
    let is_changeable = explain_records(&mut store, &mut directory, &mut page, size)?;
    Ok(Explained {
        page,
        is_changeable,
    })
}
