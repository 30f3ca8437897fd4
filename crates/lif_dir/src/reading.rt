ghost use Rattle.std.specs.Prelude.{◌≡◌, ◌≤◌, ◌<◌, ◌+◌, ◌*◌, ◌/◌, ◌++◌, length, map, true, false, Some, OnOk};
ghost use Rattle.std.specs.List.{list_any};
ghost use Rattle.lif_model.specs.Tape.{Tape, record_at};
ghost use Rattle.lif_model.specs.Directory.{is_end, entries_of, before_end};
ghost use Rattle.il_ports.specs.Stores.{IsReady};
ghost use Rattle.lif_dir.specs.Entries.{slot_from, slot_bytes};
ghost use Rattle.lif_dir.specs.Reading.{ReadsSlots};

use crate::entries::Slot;
use crate::table::SlotTable;
use il_ports::{Records, Trouble};
use lif_header::{Header, bytes_at};
use lif_model::{ENTRIES, ENTRY, RECORD, Record};

/// Appends the slots of one record of the directory, as far as its end, and says whether the end is
/// in it.
fn append_slots(bytes: &Record, table: &mut SlotTable) -> bool
    requires { length table.old.slots + 8 ≤ table.old.room }
    ensures slots { table.new.slots ≡ table.old.slots ++ map slot_from (before_end (entries_of bytes.now)) }
    ensures bytes { map slot_bytes table.new.slots ≡ map slot_bytes table.old.slots
        ++ before_end (entries_of bytes.now) }
    ensures ended { result ≡ list_any is_end (entries_of bytes.now) }
    ensures room { table.new.room ≡ table.old.room }
    ensures part { result ≡ true → length table.new.slots < length table.old.slots + 8 }
    ensures whole { result ≡ false → length table.new.slots ≡ length table.old.slots + 8 }
{
    for k in 0..ENTRIES {
        match Slot::of(&bytes_at(bytes, ENTRY * k)) {
            Slot::End => return true,
            slot => table.push(slot),
        }
    }
    false
}

/// Reads the directory of a volume into `table`: the entries before the first of type FFFF hex, or
/// all of them. After a trouble the table holds any slots.
///
/// The store is sound, the directory ends where the tape does or before, as many records may still
/// be read as it has, and the table has room for eight slots of each.
pub fn slots_of<R: Records>(
    records: &mut R,
    header: &Header,
    table: &mut SlotTable,
) -> Result<(), Trouble>
    requires within { header.now.start + header.now.length ≤ (R.view records.old).record_count }
    requires ready { IsReady header.now.length (R.view records.old) }
    requires room { 8 * header.now.length ≤ table.old.room }
    ensures reads { ReadsSlots header.now (R.view records.old) (R.view records.new) table.new.slots result }
    ensures room { table.new.room ≡ table.old.room }
{
    read_slots(records, header, table, &mut [0; RECORD])
}

/// The same, and leaves in `last` the record that holds the end of the directory, where it has one.
pub fn read_slots<R: Records>(
    records: &mut R,
    header: &Header,
    table: &mut SlotTable,
    last: &mut Record,
) -> Result<(), Trouble>
    requires within { header.now.start + header.now.length ≤ (R.view records.old).record_count }
    requires ready { IsReady header.now.length (R.view records.old) }
    requires room { 8 * header.now.length ≤ table.old.room }
    ensures reads { ReadsSlots header.now (R.view records.old) (R.view records.new) table.new.slots result }
    ensures last { OnOk result ((t : Tape) → (R.view records.old).tape ≡ Some t →
        length table.new.slots < 8 * header.now.length
        → last.new ≡ record_at t (header.now.start + length table.new.slots / 8)) }
    ensures room { table.new.room ≡ table.old.room }
{
    table.clear();
    for n in header.start()..header.end() {
        records.read(n, last)?;
        if append_slots(last, table) {
            return Ok(());
        }
    }
    Ok(())
}
