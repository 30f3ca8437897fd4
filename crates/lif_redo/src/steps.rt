//! The steps of settling and of a commit, in the order in which they are made.
ghost use Rattle.std.specs.Prelude.{◌≡◌, ◌<◌, ◌≤◌, ◌+◌, ◌*◌, ◌++◌, ℕ, List, [], if◌then◌else◌, ◌∷◌, true, false, Some};
ghost use Rattle.std.specs.Prelude.{length, set, OnOk, IfOk};
ghost use Rattle.lif_model.specs.Tape.{Tape, record_at};
ghost use Rattle.lif_model.specs.Gate.{gate_of, has_open_gate};
ghost use Rattle.lif_model.specs.Stops.{Torn, Elapses};
ghost use Rattle.lif_model.specs.declared.version.Version.{Version};
ghost use Rattle.lif_model.specs.Redo.{are_targets, zeros, Changes, redo_of, changed, settled, targets_place};
ghost use Rattle.lif_model.specs.Redo.{targets_record, targets_in};
ghost use Rattle.lif_model.specs.Commit.{AreChanges, SettlesAs, Quiet, IsShut, IsStaged, IsArmed};
ghost use Rattle.lif_model.specs.Commit.{settle_writes, close_writes, content_writes};
ghost use Rattle.il_ports.specs.Stores.{IsReady, GoesOn, IsQuiet, RunLeaves, Fetched, Stored};
ghost use Rattle.lif_redo.specs.Reading.{MayBeFound, IsOpenWith, IsFound};
ghost use Rattle.lif_redo.specs.Writing.{AddsWrites};
ghost use Rattle.lif_redo.specs.Filling.{IsFilled};

use crate::texts::{
    MOST, Named, TARGETS, is_open_gate, open_gate_record, read_targets, targets_record, zero_record,
};
use arrayvec::ArrayVec;
use il_ports::{Records, Trouble};
use lif_model::{GATE, RECORD, Record, Version};

// ---- one record

/// Reads a record.
fn get<R: Records>(records: &mut R, n: u16, into: &mut Record) -> Result<(), Trouble>
    requires ready { IsReady 1 (R.view records.old) }
    requires within { n < (R.view records.old).record_count }
    ensures fetched { Fetched n into.new (R.view records.old) (R.view records.new) result }
    ensures writes { OnOk result (AddsWrites [] (R.view records.old).transferred (R.view records.new).transferred) }
{
    records.read(n, into)
}

/// Writes a record.
pub fn put<R: Records>(records: &mut R, n: u16, bytes: &Record) -> Result<(), Trouble>
    requires ready { IsReady 1 (R.view records.old) }
    requires within { n < (R.view records.old).record_count }
    ensures stored { Stored n bytes.now (R.view records.old) (R.view records.new) result }
    ensures writes { OnOk result (AddsWrites ((n, bytes.now) ∷ []) (R.view records.old).transferred
        (R.view records.new).transferred) }
{
    records.write(n, bytes)
}

/// Writes to record `to` what record `from` holds.
fn copy<R: Records>(records: &mut R, from: u16, to: u16) -> Result<(), Trouble>
    requires ready { IsReady 2 (R.view records.old) }
    requires from { from < (R.view records.old).record_count }
    requires to { to < (R.view records.old).record_count }
    ensures goes_on { GoesOn 2 (R.view records.old) (R.view records.new) result }
    ensures content { OnOk result ((t : Tape) → (R.view records.old).tape ≡ Some t
        → (R.view records.new).tape ≡ Some (set t to (record_at t from))) }
    ensures time { Elapses (R.view records.old).moment (R.view records.new).moment (R.view records.old).left_since
        (R.view records.new).left_since (R.view records.old).tape (Torn to) }
    ensures writes { OnOk result ((bytes : List ℕ) × ((t : Tape) → (R.view records.old).tape ≡ Some t
        → bytes ≡ record_at t from)
        × AddsWrites ((to, bytes) ∷ []) (R.view records.old).transferred (R.view records.new).transferred) }
{
    let mut bytes = [0; RECORD];
    get(records, from, &mut bytes)?;
    put(records, to, &bytes)?;
    Ok(())
}

// ---- settling

/// What the gate and the targets record hold.
#[derive(Drop)]
pub enum Found {
    /// The gate reads closed.
    Shut,
    /// The gate reads open, but the targets are valid of no version: no redo is open.
    Idle,
    /// A redo is open.
    Redo(Named),
}

/// Whether the gate reads open.
pub fn is_gate_open<R: Records>(records: &mut R) -> Result<bool, Trouble>
    requires size { 4 ≤ (R.view records.old).record_count }
    requires ready { IsReady 1 (R.view records.old) }
    ensures gate { IfOk result (λ is_open. (t : Tape) → (R.view records.old).tape ≡ Some t → is_open ≡ has_open_gate t) }
    ensures quiet { IsQuiet (R.view records.old) (R.view records.new) }
    ensures goes_on { GoesOn 1 (R.view records.old) (R.view records.new) result }
    ensures writes { OnOk result (AddsWrites [] (R.view records.old).transferred (R.view records.new).transferred) }
{
    let gate = records.size() - GATE;
    let mut bytes = [0; RECORD];
    get(records, gate, &mut bytes)?;
    Ok(is_open_gate(&bytes))
}

/// Reads which redo is open, if one is.
pub fn look<R: Records>(records: &mut R) -> Result<Found, Trouble>
    requires size { 4 ≤ (R.view records.old).record_count }
    requires ready { IsReady 2 (R.view records.old) }
    ensures found { IfOk result (λ found. (t : Tape) → (R.view records.old).tape ≡ Some t → IsFound t found) }
    ensures may_be { IfOk result (MayBeFound (R.view records.old).record_count) }
    ensures quiet { IsQuiet (R.view records.old) (R.view records.new) }
    ensures goes_on { GoesOn 2 (R.view records.old) (R.view records.new) result }
    ensures writes { OnOk result (AddsWrites [] (R.view records.old).transferred (R.view records.new).transferred) }
{
    if !is_gate_open(records)? {
        return Ok(Found::Shut);
    }
    let size = records.size();
    let mut bytes = [0; RECORD];
    get(records, size - TARGETS, &mut bytes)?;
    Ok(match read_targets(size, &bytes) {
        None => Found::Idle,
        Some(named) => Found::Redo(named),
    })
}

/// Carries out the redo that is open with these targets.
pub fn replay<R: Records>(records: &mut R, version: Version, targets: &[u16]) -> Result<(), Trouble>
    requires ready { IsReady (2 * length targets.now + 1) (R.view records.old) }
    requires may_be { are_targets version (R.view records.old).record_count targets.now ≡ true }
    requires found { (t : Tape) → (R.view records.old).tape ≡ Some t → IsOpenWith version targets.now t }
    ensures done { OnOk result ((t : Tape) → (R.view records.old).tape ≡ Some t
        → (R.view records.new).tape ≡ Some (settled t)) }
    ensures any_moment { (t : Tape) → (R.view records.old).tape ≡ Some t
        → RunLeaves (R.view records.old) (R.view records.new) (SettlesAs (settled t)) }
    ensures goes_on { GoesOn (2 * length targets.now + 1) (R.view records.old) (R.view records.new) result }
    ensures writes { OnOk result ((changes : Changes) × ((t : Tape) → (R.view records.old).tape ≡ Some t
        → changes ≡ redo_of t)
        × AddsWrites (settle_writes (R.view records.old).record_count changes) (R.view records.old).transferred
        (R.view records.new).transferred) }
{
    let size = records.size();
    for i in 0..targets.len() {
        copy(records, version.data_record(size, i as u16), targets[i])?;
    }
    put(records, size - GATE, &zero_record())?;
    Ok(())
}

// ---- a commit

/// Closes a gate that reads open though no redo is.
pub fn close<R: Records>(records: &mut R, is_open: bool) -> Result<(), Trouble>
    requires size { 4 < (R.view records.old).record_count }
    requires ready { IsReady 1 (R.view records.old) }
    requires none { (t : Tape) → (R.view records.old).tape ≡ Some t → redo_of t ≡ [] }
    requires gate { (t : Tape) → (R.view records.old).tape ≡ Some t → is_open ≡ has_open_gate t }
    ensures closed { OnOk result ((t : Tape) → (R.view records.old).tape ≡ Some t → (u : Tape)
        × ((R.view records.new).tape ≡ Some u) × ((version : Version) → IsShut version t u)) }
    ensures any_moment { (version : Version) (t : Tape) → (R.view records.old).tape ≡ Some t
        → RunLeaves (R.view records.old) (R.view records.new) (Quiet version t) }
    ensures goes_on { GoesOn (if is_open then 1 else 0) (R.view records.old) (R.view records.new) result }
    ensures writes { OnOk result (AddsWrites (close_writes (R.view records.old).record_count is_open)
        (R.view records.old).transferred (R.view records.new).transferred) }
{
    if is_open {
        let gate = records.size() - GATE;
        put(records, gate, &zero_record())?;
    }
    Ok(())
}

/// Writes the new contents, each at its data record, while the gate is closed.
pub fn fill<R: Records>(
    records: &mut R,
    version: Version,
    changes: &[(u16, Record)],
) -> Result<(), Trouble>
    requires ready { IsReady (length changes.now) (R.view records.old) }
    requires changes { AreChanges version (R.view records.old).record_count changes.now }
    requires shut { (t : Tape) → (R.view records.old).tape ≡ Some t → has_open_gate t ≡ false }
    ensures filled { OnOk result ((t : Tape) → (R.view records.old).tape ≡ Some t → (u : Tape)
        × ((R.view records.new).tape ≡ Some u) × IsFilled version (length changes.now) changes.now t u) }
    ensures any_moment { (t : Tape) → (R.view records.old).tape ≡ Some t
        → RunLeaves (R.view records.old) (R.view records.new) (IsShut version t) }
    ensures goes_on { GoesOn (length changes.now) (R.view records.old) (R.view records.new) result }
    ensures writes { OnOk result (AddsWrites (content_writes version
        (R.view records.old).record_count 0 changes.now) (R.view records.old).transferred
        (R.view records.new).transferred) }
{
    let size = records.size();
    for i in 0..changes.len() {
        put(records, version.data_record(size, i as u16), &changes[i].1)?;
    }
    Ok(())
}

/// The numbers of the records that change.
pub fn numbers(changes: &[(u16, Record)]) -> ArrayVec<u16, MOST>
    requires { length changes.now ≤ 32 }
    ensures { result.items ≡ targets_in changes.now }
{
    let mut numbers = ArrayVec::new();
    for change in changes {
        numbers.push(change.0);
    }
    numbers
}

/// Writes the new contents, and then the targets, while the gate is closed.
pub fn stage<R: Records>(
    records: &mut R,
    version: Version,
    changes: &[(u16, Record)],
) -> Result<(), Trouble>
    requires ready { IsReady (length changes.now + 1) (R.view records.old) }
    requires changes { AreChanges version (R.view records.old).record_count changes.now }
    requires shut { (t : Tape) → (R.view records.old).tape ≡ Some t → has_open_gate t ≡ false }
    ensures staged { OnOk result ((t : Tape) → (R.view records.old).tape ≡ Some t → (u : Tape)
        × ((R.view records.new).tape ≡ Some u) × IsStaged version changes.now t u) }
    ensures any_moment { (t : Tape) → (R.view records.old).tape ≡ Some t
        → RunLeaves (R.view records.old) (R.view records.new) (IsShut version t) }
    ensures goes_on { GoesOn (length changes.now + 1) (R.view records.old) (R.view records.new) result }
    ensures writes { OnOk result (AddsWrites (content_writes version
        (R.view records.old).record_count 0 changes.now
        ++ (
          targets_place (R.view records.old).record_count,
          targets_record version
              (targets_in changes.now),
        ) ∷ []) (R.view records.old).transferred (R.view records.new).transferred) }
{
    fill(records, version, changes)?;
    let targets = records.size() - TARGETS;
    let numbers = numbers(changes);
    put(
        records,
        targets,
        &targets_record(version, numbers.as_slice()),
    )?;
    Ok(())
}

/// Writes the targets in place, in their order, and then closes the gate.
pub fn finish<R: Records>(records: &mut R, changes: &[(u16, Record)]) -> Result<(), Trouble>
    requires ready { IsReady (length changes.now + 1) (R.view records.old) }
    requires changes { (version : Version) × AreChanges version (R.view records.old).record_count changes.now }
    requires armed { (t : Tape) → (R.view records.old).tape ≡ Some t → (version : Version)
        × IsArmed version changes.now t }
    ensures done { OnOk result ((t : Tape) → (R.view records.old).tape ≡ Some t
        → (R.view records.new).tape ≡ Some (set (changed changes.now t) (gate_of (length t)) zeros)) }
    ensures any_moment { (t : Tape) → (R.view records.old).tape ≡ Some t
        → RunLeaves (R.view records.old) (R.view records.new) (SettlesAs (changed changes.now t)) }
    ensures goes_on { GoesOn (length changes.now + 1) (R.view records.old) (R.view records.new) result }
    ensures writes { OnOk result (AddsWrites (changes.now ++ (gate_of (R.view records.old).record_count, zeros)
        ∷ []) (R.view records.old).transferred (R.view records.new).transferred) }
{
    for change in changes {
        put(records, change.0, &change.1)?;
    }
    let gate = records.size() - GATE;
    put(records, gate, &zero_record())?;
    Ok(())
}
