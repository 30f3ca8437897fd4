//! The text of a volume that can be listed.
ghost use Rattle.std.specs.Prelude.{◌≡◌, ◌≤◌, ◌<◌, ◌+◌, ◌++◌, length, map};
ghost use Rattle.lif_model.specs.declared.version.Version.TheVariants.{Two};
ghost use Rattle.lif_model.specs.Volume.{Volume, is_adopted, is_adopted_with};
ghost use Rattle.lif_dir.specs.Entries.{slot_bytes};
ghost use Rattle.lif_plan.specs.Directories.{IsLegalDirectory};
ghost use Rattle.lif_plan.specs.Plans.{IsVolumeWith};
ghost use Rattle.tape_why.specs.Why.{adopt_text, upgrade_text, listed_text};

use il_script::Page;
use lif_dir::SlotTable;
use lif_header::Header;
use lif_model::Version;
use lif_plan::{Directory, Refusal, is_redo_entry};

/// The most bytes of the line of a volume that can be listed.
pub(crate) const LISTED: usize = 200;

/// Appends what the command that makes the redo file would answer.
fn put_adopt(page: &mut Page, answer: Option<Refusal>)
    requires room { length page.old.text + 70 ≤ page.old.room }
    ensures text { page.new ≡ record page.old { text = page.old.text ++ adopt_text answer } }
    ensures size { length page.new.text ≤ length page.old.text + 70 }
{
    page.put(match answer {
        None => b"the command adopt of il makes one of the last 4 records",
        Some(Refusal::Exists) => b"none can be made, since another file has the name REDOFILE",
        Some(Refusal::NoSlot) => b"none can be made, since no slot is free",
        Some(Refusal::InUse) => b"none can be made, since a file has one of the last 4 records",
        Some(_) => b"",
    });
}

/// Appends what the command that makes the redo file larger would answer.
fn put_upgrade(page: &mut Page, answer: Option<Refusal>)
    requires room { length page.old.text + 80 ≤ page.old.room }
    ensures text { page.new ≡ record page.old { text = page.old.text ++ upgrade_text answer } }
    ensures size { length page.new.text ≤ length page.old.text + 80 }
{
    page.put(match answer {
        None => b"the command upgrade of il gives it 30 records more",
        Some(Refusal::InUse) => {
            b"it cannot have 30 records more, since the directory or a file has one of them"
        }
        Some(_) => b"",
    });
}

/// Tests if the redo file is of version 2, which has 34 records.
fn is_upgraded(table: &SlotTable, size: u16) -> bool
    ensures { result ≡ is_adopted_with size Two (map slot_bytes table.now.slots) }
{
    'slots: for place in 0..table.len() {
        if is_redo_entry(*table.entry(place), size, Version::Two) {
            return true;
        }
    }
    false
}

/// Appends the line of a volume that can be listed, and returns whether it can be changed.
pub(crate) fn put_listed(page: &mut Page, directory: &Directory, header: &Header, size: u16) -> bool
    requires size { 37 < size }
    requires legal { IsLegalDirectory size header.now (map slot_bytes directory.now.table.slots) }
    requires room { length page.old.text + LISTED ≤ page.old.room }
    ensures text { (v : Volume) → IsVolumeWith size header.now (map slot_bytes directory.now.table.slots) v
        → page.new ≡ record page.old { text = page.old.text ++ listed_text size v } }
    ensures changeable { result ≡ is_adopted size (map slot_bytes directory.now.table.slots) }
{
    if is_upgraded(&directory.table, size) {
        page.put(b"it can be listed and changed\n");
        true
    } else if directory.is_adopted(size) {
        page.put(
            b"it can be listed and changed, but not packed, and not by a batch: its redo file has 4 records; ",
        );
        put_upgrade(page, directory.upgrade(header, size).err());
        page.put(b"\n");
        true
    } else {
        page.put(b"it can be listed, but not changed: it has no redo file; ");
        put_adopt(page, directory.adopt(header, size).err());
        page.put(b"\n");
        false
    }
}
