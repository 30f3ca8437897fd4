ghost use Rattle.std.specs.Prelude.{◌≡◌, ◌≢◌, ◌↔◌, ◌≤◌, ◌+◌, ◌*◌, [], length, IsTrue, IfOk, Some};
ghost use Rattle.lif_model.specs.Tape.{Tape};
ghost use Rattle.lif_model.specs.Gate.{has_open_gate};
ghost use Rattle.lif_model.specs.Redo.{redo_of, IsSettled};
ghost use Rattle.lif_model.specs.Commit.{AreChanges};
ghost use Rattle.il_ports.specs.Stores.{IsReady};
ghost use Rattle.lif_redo.specs.Reading.{is_applied, reads_open};
ghost use Rattle.lif_redo.specs.Atomic.{Commits, Settles, commit_calls};

use crate::steps::{Found, close, finish, is_gate_open, look, numbers, put, replay, stage};
use crate::texts::{MOST, are_targets, open_gate_record};
use il_ports::{Records, Trouble};
use lif_model::{GATE, Record, Version};

/// Whether a redo file of that version, on a tape of `size` records, takes these changes: one or two with version 1,
/// and up to 32 with version 2, of distinct records that lie before the redo file.
pub fn are_changes(version: Version, size: u16, changes: &[(u16, Record)]) -> bool
    ensures { IsTrue result ↔ AreChanges version size changes.now }
{
    changes.len() <= MOST && are_targets(version, size, numbers(changes).as_slice())
}

/// Changes some records of a settled tape at once, with a redo file of that version: each pair is the number of a
/// record and its new content. They are such as `are_changes` takes. A power stop at any moment, and a trouble, leave
/// a tape that settles to the one before or to the one with all the changes, but for the records of the redo file.
/// For k changes at most 2 k + 6 calls of the store are made.
pub fn commit<R: Records>(
    records: &mut R,
    version: Version,
    changes: &[(u16, Record)],
) -> Result<(), Trouble>
    requires ready { IsReady (2 * length changes.now + 6) (R.view records.old) }
    requires changes { AreChanges version (R.view records.old).record_count changes.now }
    requires settled { (t : Tape) → (R.view records.old).tape ≡ Some t → IsSettled t }
    ensures { Commits (2 * length changes.now + 6) version changes.now (R.view records.old) (R.view records.new) result }
{
    let is_open = is_gate_open(records)?;
    commit_known(records, version, changes, is_open)
}

/// The same, of a tape of which it is known whether its gate reads open. For k changes 2 k + 3 calls of the store are
/// made at most, and one more where it does.
pub fn commit_known<R: Records>(
    records: &mut R,
    version: Version,
    changes: &[(u16, Record)],
    is_open: bool,
) -> Result<(), Trouble>
    requires ready { IsReady (commit_calls is_open (length changes.now)) (R.view records.old) }
    requires changes { AreChanges version (R.view records.old).record_count changes.now }
    requires settled { (t : Tape) → (R.view records.old).tape ≡ Some t → IsSettled t }
    requires gate { (t : Tape) → (R.view records.old).tape ≡ Some t → is_open ≡ has_open_gate t }
    ensures { Commits (commit_calls is_open (length changes.now)) version changes.now (R.view records.old) (R.view records.new) result }
{
    close(records, is_open)?;
    stage(records, version, changes)?;
    let gate = records.size() - GATE;
    put(records, gate, &open_gate_record())?;
    finish(records, changes)?;
    Ok(())
}

/// What settling found of the gate.
#[derive(Clone, Copy, Debug, PartialEq, Eq, Drop)]
pub enum Gate {
    /// It reads closed: no redo was open.
    Closed,
    /// A redo was open, and is carried out: the gate reads closed now.
    Applied,
    /// It reads open, but the targets are valid of no version: no redo is open, and the tape stays as it is.
    Open,
}

impl Gate {
    /// Whether the gate reads open after settling.
    pub fn reads_open(self) -> bool
        ensures { result ≡ reads_open self }
    {
        match self {
            Gate::Open => true,
            Gate::Closed | Gate::Applied => false,
        }
    }
}

/// Carries out the redo that is open, of either version, if one is, and answers whether one was. A power stop at any
/// moment, and a trouble, leave a tape that settles to the same in all records but the gate, and the very same tape
/// where no redo is open. At most 70 calls of the store are made.
pub fn settle<R: Records>(records: &mut R) -> Result<bool, Trouble>
    requires size { 4 ≤ (R.view records.old).record_count }
    requires ready { IsReady 70 (R.view records.old) }
    ensures settles { Settles (R.view records.old) (R.view records.new) result }
    // It answers true exactly where the gate was open with valid targets.
    ensures applied { IfOk result (λ applied. (t : Tape) → (R.view records.old).tape ≡ Some t
        → (IsTrue applied ↔ (redo_of t ≢ []))) }
{
    Ok(settle_gate(records)? == Gate::Applied)
}

/// The same, and answers what was found of the gate.
pub fn settle_gate<R: Records>(records: &mut R) -> Result<Gate, Trouble>
    requires size { 4 ≤ (R.view records.old).record_count }
    requires ready { IsReady 70 (R.view records.old) }
    ensures settles { Settles (R.view records.old) (R.view records.new) result }
    ensures applied { IfOk result (λ gate. (t : Tape) → (R.view records.old).tape ≡ Some t
        → (IsTrue (is_applied gate) ↔ (redo_of t ≢ []))) }
    // Whether the gate reads open then.
    ensures gate { IfOk result (λ gate. (t : Tape) → (R.view records.new).tape ≡ Some t
        → reads_open gate ≡ has_open_gate t) }
{
    match look(records)? {
        Found::Shut => Ok(Gate::Closed),
        Found::Idle => Ok(Gate::Open),
        Found::Redo(named) => {
            replay(records, named.version, named.targets.as_slice())?;
            Ok(Gate::Applied)
        }
    }
}
