//! The text of a volume that cannot be listed.
ghost use Rattle.std.specs.Prelude.{◌≡◌, ◌≤◌, ◌<◌, ◌+◌, ◌++◌, length, map, Some};
ghost use Rattle.lif_model.specs.Directory.{name_of};
ghost use Rattle.lif_model.specs.Printed.{printed};
ghost use Rattle.lif_dir.specs.Entries.{entry_bytes, slot_bytes};
ghost use Rattle.tape_why.specs.Why.{header_cause, printed_name_at, defect_cause, unlisted_line};
ghost use Rattle.tape_why.specs.Searches.{IsDefectOf};

use crate::defects::Defect;
use il_script::Page;
use lif_dir::{FileEntry, SlotTable};
use lif_header::HeaderFault;

/// The most bytes of the line of a volume that cannot be listed.
pub(crate) const UNLISTED: usize = 160;

/// Appends what is wrong with record 0.
fn put_header_cause(page: &mut Page, fault: HeaderFault)
    requires room { length page.old.text + 80 ≤ page.old.room }
    ensures text { page.new ≡ record page.old { text = page.old.text ++ header_cause fault } }
    ensures size { length page.new.text ≤ length page.old.text + 80 }
{
    page.put(match fault {
        HeaderFault::Id(_) => b"it does not begin with 8000 hex, the mark of a LIF volume",
        HeaderFault::Start(_) => b"its directory would begin in record 0",
        HeaderFault::Length(_) => b"its directory has no record",
        HeaderFault::Past(_) =>
            b"its directory does not end before the last 4 records of the medium",
    });
}

/// Appends the name of a file.
fn put_name(page: &mut Page, entry: FileEntry)
    requires room { length page.old.text + 30 ≤ page.old.room }
    ensures text { page.new
        ≡ record page.old { text = page.old.text ++ printed (name_of (entry_bytes entry)) } }
    ensures size { length page.new.text ≤ length page.old.text + 30 }
{
    page.put_name(&entry.name.bytes());
}

/// Appends the name of the file of a slot.
fn put_name_at(page: &mut Page, table: &SlotTable, place: usize)
    requires within { place < length table.now.slots }
    requires room { length page.old.text + 30 ≤ page.old.room }
    ensures text { page.new
        ≡ record page.old { text = page.old.text ++ printed_name_at (map slot_bytes table.now.slots) place } }
    ensures size { length page.new.text ≤ length page.old.text + 30 }
{
    put_name(page, *table.entry(place));
}

/// Appends what is wrong with a directory.
fn put_defect(page: &mut Page, table: &SlotTable, defect: Defect)
    requires within { IsDefectOf (length table.now.slots) defect }
    requires room { length page.old.text + 130 ≤ page.old.room }
    ensures text { page.new
        ≡ record page.old { text = page.old.text ++ defect_cause (map slot_bytes table.now.slots) defect } }
    ensures size { length page.new.text ≤ length page.old.text + 130 }
{
    match defect {
        Defect::Header(fault) => put_header_cause(page, fault),
        Defect::Outside(place) => {
            put_name_at(page, table, place);
            page.put(b" has records that are not between the directory and the end of the medium");
        }
        Defect::SharedRecords(first, later) => {
            put_name_at(page, table, first);
            page.put(b" and ");
            put_name_at(page, table, later);
            page.put(b" have records in common");
        }
        Defect::SharedName(first, _) => {
            page.put(b"two files have the name ");
            put_name_at(page, table, first);
        }
    }
}

/// Appends the line of a volume that cannot be listed for this defect.
pub(crate) fn put_unlisted(page: &mut Page, table: &SlotTable, defect: Defect)
    requires within { IsDefectOf (length table.now.slots) defect }
    requires room { length page.old.text + UNLISTED ≤ page.old.room }
    ensures text { page.new ≡ record page.old {
      text = page.old.text ++ unlisted_line (map slot_bytes table.now.slots) (Some defect);
    } }
    ensures size { length page.new.text ≤ length page.old.text + UNLISTED }
{
    page.put(b"it cannot be listed: ");
    put_defect(page, table, defect);
    page.put(b"\n");
}
