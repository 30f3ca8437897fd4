//! The files of a volume are moved to their places, in slot order.
ghost use Rattle.std.specs.Prelude.{◌≡◌, ◌<◌, ◌≤◌, ◌+◌, ◌*◌, ◌^◌, ◌&&◌, nat_lt, ℕ, [], true, false, Some, Ok, OnOk};
ghost use Rattle.std.specs.Prelude.{get_or, set, length};
ghost use Rattle.lif_model.specs.Tape.{Tape};
ghost use Rattle.lif_model.specs.Directory.{start_of, length_of, is_end};
ghost use Rattle.lif_model.specs.Redo.{IsSettled};
ghost use Rattle.lif_model.specs.Legal.{occupies};
ghost use Rattle.il_ports.specs.Stores.{IsReady, GoesOn, RunLeaves};
ghost use Rattle.lif_dir.specs.Entries.{entry_bytes, slot_bytes, is_entry};
ghost use Rattle.lif_model.specs.Packing.{with_start};
ghost use Rattle.lif_pack.specs.Packers.{slots_held};
ghost use Rattle.lif_pack.specs.Steps.{MayPack, ArePlaced, OfSlots, HasSlotsOf, ArePackedAlike};
ghost use Rattle.lif_pack.specs.Tasks.{KeepsFiles};

use crate::marks::Move;
use crate::memory::Packer;
use crate::placed::{length_of, live_length, occupies, start_of};
use crate::reading::Readable;
use il_ports::{Records, Trouble};
use lif_dir::{FileEntry, Slot};
use lif_model::ENTRY;

impl Packer {
    /// Moves the file of a slot down to its place, which it does not stand at yet. The slot in memory begins there
    /// then, as that of the directory does.
    fn move_file<R: Records>(
        &mut self,
        records: &mut R,
        first: u16,
        redo: usize,
        slot: usize,
        place: u32,
    ) -> Result<(), Trouble>
        requires may { (end : ℕ) × MayPack (R.view records.old).record_count first end redo (slots_held self.old)
            × ArePlaced end slot place (slots_held self.old) }
        requires before { slot < redo }
        requires number { slot < 65535 }
        requires takes { occupies (get_or (slots_held self.old) slot []) ≡ true }
        requires down { place < start_of (get_or (slots_held self.old) slot []) }
        requires ready { IsReady (4 * length_of (get_or (slots_held self.old) slot []) + 11) (R.view records.old) }
        requires settled { (t : Tape) → (R.view records.old).tape ≡ Some t → IsSettled t }
        requires medium { (R.view records.old).record_count < 2 ^ 16 }
        ensures room { self.new.slots.room ≡ self.old.slots.room }
        ensures goes_on { GoesOn (4 * length_of (get_or (slots_held self.old) slot []) + 11) (R.view records.old)
            (R.view records.new) result }
        ensures settled { OnOk result ((t : Tape) → (R.view records.new).tape ≡ Some t → IsSettled t) }
        ensures slots { OnOk result (slots_held self.new
            ≡ set (slots_held self.old) slot (with_start place (get_or (slots_held self.old) slot []))) }
        ensures moves { OnOk result ((end : ℕ) (t : Tape)
            → MayPack (R.view records.old).record_count first end redo (slots_held self.old)
            → ArePlaced end slot place (slots_held self.old) → (R.view records.old).tape ≡ Some t
            → (x : Tape) × ((R.view records.new).tape ≡ Some x) × HasSlotsOf first end (slots_held self.old)
            (set (slots_held self.old) slot (with_start place (get_or (slots_held self.old) slot []))) t x) }
        // A stop at any moment leaves a tape with the same files.
        ensures stops { (end : ℕ) (t : Tape)
            → MayPack (R.view records.old).record_count first end redo (slots_held self.old)
            → ArePlaced end slot place (slots_held self.old) → (R.view records.old).tape ≡ Some t
            → OfSlots first end (slots_held self.old) t (λ v.
            RunLeaves (R.view records.old) (R.view records.new) (KeepsFiles (R.view records.old).record_count t)) }
    {
        let entry = *self.slots.entry(slot);
        let file = Move {
            slot,
            place,
            start: start_of(entry),
            length: length_of(entry),
            moved: 0,
        };
        self.move_rest(records, first, redo, &file)?;
        self.slots.set(slot, started(entry, place));
        Ok(())
    }
}

impl Packer {
    ghost use Rattle.std.specs.Prelude.{◌-◌, take, IfOk};
    ghost use Rattle.lif_model.specs.declared.version.Version.TheVariants.{Two};
    ghost use Rattle.lif_model.specs.Redo.{redo_start};
    ghost use Rattle.lif_model.specs.Packing.{live_length, are_packed};

    /// Moves the files of this directory from slot `from` on, before the redo entry, to their places, in slot order.
    /// Those before slot `from` stand there, and `place` is the next one. Of each record of a file at most 15 are read
    /// and written.
    pub(crate) fn move_files<R: Records>(
        &mut self,
        records: &mut R,
        found: &Readable,
        from: usize,
        place: u32,
    ) -> Result<(), Trouble>
        requires may { MayPack (R.view records.old).record_count found.now.first found.now.end
            found.now.redo (slots_held self.old) }
        requires placed { ArePlaced found.now.end from place (slots_held self.old) }
        requires before { from ≤ found.now.redo }
        requires number { found.now.redo < 65536 }
        requires ready { IsReady (15 * (redo_start Two (R.view records.old).record_count - place))
            (R.view records.old) }
        requires settled { (t : Tape) → (R.view records.old).tape ≡ Some t → IsSettled t }
        requires medium { (R.view records.old).record_count < 2 ^ 16 }
        ensures room { self.new.slots.room ≡ self.old.slots.room }
        ensures goes_on { GoesOn (15 * (redo_start Two (R.view records.old).record_count - place)) (R.view records.old)
            (R.view records.new) result }
        ensures settled { OnOk result ((t : Tape) → (R.view records.new).tape ≡ Some t → IsSettled t) }
        ensures may { OnOk result (MayPack (R.view records.old).record_count found.now.first found.now.end
            found.now.redo (slots_held self.new)) }
        ensures packed { OnOk result (are_packed found.now.end (take found.now.redo (slots_held self.new)) ≡ true) }
        // Where there is none nothing is read or written.
        ensures idle { from ≡ found.now.redo → (result ≡ Ok tt) × (records.new ≡ records.old)
            × (slots_held self.new ≡ slots_held self.old) }
        // Packing makes of them what it made of the slots before.
        ensures alike { OnOk result (ArePackedAlike (R.view records.old).record_count found.now.end
            (slots_held self.old) (slots_held self.new)) }
        ensures moves { OnOk result ((t : Tape) → (R.view records.old).tape ≡ Some t
            → (x : Tape) × ((R.view records.new).tape ≡ Some x)
            × HasSlotsOf found.now.first found.now.end (slots_held self.old) (slots_held self.new) t x) }
        // A stop at any moment leaves a tape with the same files.
        ensures stops { (t : Tape) → (R.view records.old).tape ≡ Some t
            → OfSlots found.now.first found.now.end (slots_held self.old) t (λ v.
            RunLeaves (R.view records.old) (R.view records.new) (KeepsFiles (R.view records.old).record_count t)) }
    {
        let mut next = place;
        for slot in from..found.redo {
            next = self.place_file(records, found.first, found.redo, slot, next)?;
        }
        Ok(())
    }

    /// Moves the file of a slot to its place, where it has records and does not stand there, and tells the place after
    /// it.
    fn place_file<R: Records>(
        &mut self,
        records: &mut R,
        first: u16,
        redo: usize,
        slot: usize,
        place: u32,
    ) -> Result<u32, Trouble>
        requires may { (end : ℕ) × MayPack (R.view records.old).record_count first end redo (slots_held self.old)
            × ArePlaced end slot place (slots_held self.old) }
        requires before { slot < redo }
        requires number { slot < 65535 }
        requires below { place ≤ redo_start Two (R.view records.old).record_count }
        requires ready { IsReady (15 * live_length (get_or (slots_held self.old) slot [])) (R.view records.old) }
        requires settled { (t : Tape) → (R.view records.old).tape ≡ Some t → IsSettled t }
        requires medium { (R.view records.old).record_count < 2 ^ 16 }
        ensures room { self.new.slots.room ≡ self.old.slots.room }
        ensures goes_on { GoesOn (15 * live_length (get_or (slots_held self.old) slot [])) (R.view records.old)
            (R.view records.new) result }
        ensures settled { OnOk result ((t : Tape) → (R.view records.new).tape ≡ Some t → IsSettled t) }
        ensures next { IfOk result (λ next. next ≡ place + live_length (get_or (slots_held self.old) slot [])) }
        ensures may { IfOk result (λ next. (end : ℕ)
            → MayPack (R.view records.old).record_count first end redo (slots_held self.old)
            → ArePlaced end slot place (slots_held self.old)
            → MayPack (R.view records.old).record_count first end redo (slots_held self.new)
            × ArePlaced end (slot + 1) next (slots_held self.new)
            × ArePackedAlike (R.view records.old).record_count end (slots_held self.old) (slots_held self.new)) }
        ensures moves { OnOk result ((end : ℕ) (t : Tape)
            → MayPack (R.view records.old).record_count first end redo (slots_held self.old)
            → ArePlaced end slot place (slots_held self.old) → (R.view records.old).tape ≡ Some t
            → (x : Tape) × ((R.view records.new).tape ≡ Some x)
            × HasSlotsOf first end (slots_held self.old) (slots_held self.new) t x) }
        // A stop at any moment leaves a tape with the same files.
        ensures stops { (end : ℕ) (t : Tape)
            → MayPack (R.view records.old).record_count first end redo (slots_held self.old)
            → ArePlaced end slot place (slots_held self.old) → (R.view records.old).tape ≡ Some t
            → OfSlots first end (slots_held self.old) t (λ v.
            RunLeaves (R.view records.old) (R.view records.new) (KeepsFiles (R.view records.old).record_count t)) }
    {
        let entry = *self.slots.entry(slot);
        let next = place + live_length(entry);
        if !begins_above(entry, place) {
            return Ok(next);
        }
        self.move_file(records, first, redo, slot, place)?;
        Ok(next)
    }
}

/// Whether the file is live, has records and begins above this place.
fn begins_above(entry: FileEntry, place: u32) -> bool
    ensures { result ≡ (occupies (entry_bytes entry) && nat_lt place (start_of (entry_bytes entry))) }
{
    occupies(entry) && place < start_of(entry)
}

/// The slot of the entry with another first record. The entry ends no directory.
pub fn started(entry: FileEntry, start: u32) -> Slot
    requires { is_end (entry_bytes entry) ≡ false }
    ensures bytes { slot_bytes result ≡ with_start start (entry_bytes entry) }
    ensures entry { is_entry result ≡ true }
{
    Slot::of(&started_bytes(entry, start))
}

/// The bytes of the entry with another first record.
#[tactic(auto, unfolding(lif_model::specs::Packing::with_start))]
fn started_bytes(entry: FileEntry, start: u32) -> [u8; ENTRY]
    ensures bytes { result ≡ with_start start (entry_bytes entry) }
    ensures size { length (entry_bytes entry) ≡ 32 }
{
    let mut bytes = entry.bytes();
    bytes[12..16].copy_from_slice(&start.to_be_bytes());
    bytes
}
