//! The batches of a script, gathered line by line.
ghost use Rattle.std.specs.Prelude.{◌≡◌, if◌then◌else◌, List, ℕ, IfSome, Result, Option};
ghost use Rattle.il_script.specs.declared.reply.Code.TheVariants as code;
ghost use Rattle.il_host.specs.declared.gathering.Gathering.TheVariants as gathering;
ghost use Rattle.lif_model.specs.Parts.{Part};
ghost use Rattle.lif_dir.specs.Batches.{BatchView, parts_of};
ghost use Rattle.host_model.specs.Requests.{Outside, Within, Spoilt, item_for, part_asked, with_part};
ghost use Rattle.il_host.specs.PlainCommands.{IsFormed, IsFormedRead, IsAlone, IsPlainAsked};
ghost use Rattle.il_host.specs.Gathering.{stands_open, IsGathered, read_with, Gathers};
ghost use Rattle.il_host.specs.Run.{item_asked};

use crate::running::Asked;
use il_script::{Code, Command};
use lif_dir::Batch;

/// What stands open after some lines of a script. The parts of a batch stand in a `Batch`.
#[derive(Clone, Copy)]
pub(crate) enum Gathering {
    /// No batch.
    Outside,
    /// A batch.
    Within,
    /// A batch that a line has spoilt. It is answered by this code.
    Spoilt(Code),
}

/// Goes on by a line that reads so and carries these bytes: what stands open after it, and what it asks for.
pub(crate) fn gather(
    gathering: Gathering,
    read: Result<Option<Command>, Code>,
    bytes: &[u8],
    batch: &mut Batch,
) -> (Gathering, Option<Asked>)
    requires formed { IsFormedRead read }
    requires gathered { IsGathered batch.old }
    ensures gathered { IsGathered batch.new }
    ensures gathers { Gathers (read_with read bytes.now) (stands_open gathering batch.old) result.0 batch.new result.1 bytes.now }
    ensures plain { IfSome result.1 IsPlainAsked }
{
    match gathering {
        Gathering::Outside => outside(read, batch),
        Gathering::Within => within(read, bytes, batch),
        Gathering::Spoilt(code) => spoilt(read, code),
    }
}

/// What a command asks for outside a batch: `commit` there is a bad line.
pub(crate) fn alone(command: Command) -> Asked
    requires formed { IsFormed command }
    ensures item { (bytes : List ℕ) (parts : List Part) → item_asked result bytes parts ≡ item_for command bytes }
    ensures plain { IsPlainAsked result }
    ensures alone { IsAlone result }
{
    match command {
        Command::Begin | Command::Commit => Asked::NoCommand(Code::BadLine),
        command => Asked::Command(command),
    }
}

/// A line outside a batch is answered by itself, but for `begin`.
fn outside(read: Result<Option<Command>, Code>, batch: &mut Batch) -> (Gathering, Option<Asked>)
    requires formed { IsFormedRead read }
    requires gathered { IsGathered batch.old }
    ensures gathered { IsGathered batch.new }
    ensures gathers { (bytes : List ℕ) → Gathers (read_with read bytes) Outside result.0 batch.new result.1 bytes }
    ensures plain { IfSome result.1 IsPlainAsked }
{
    match read {
        Ok(None) => (Gathering::Outside, None),
        Ok(Some(Command::Begin)) => {
            batch.clear();
            (Gathering::Within, None)
        }
        Ok(Some(command)) => (Gathering::Outside, Some(alone(command))),
        Err(code) => (Gathering::Outside, Some(Asked::NoCommand(code))),
    }
}

/// A line of a batch is a part of it, or ends it, or spoils it.
fn within(
    read: Result<Option<Command>, Code>,
    bytes: &[u8],
    batch: &mut Batch,
) -> (Gathering, Option<Asked>)
    requires formed { IsFormedRead read }
    requires gathered { IsGathered batch.old }
    ensures gathered { IsGathered batch.new }
    ensures gathers { Gathers (read_with read bytes.now) (Within (parts_of batch.old)) result.0 batch.new result.1 bytes.now }
    ensures plain { IfSome result.1 IsPlainAsked }
{
    match read {
        Ok(None) => (Gathering::Within, None),
        Ok(Some(Command::Commit)) => (Gathering::Outside, Some(Asked::Batch)),
        Ok(Some(command)) => (add(command, bytes, batch), None),
        Err(code) => (Gathering::Spoilt(code), None),
    }
}

/// Adds the part that a command asks for. A command that is no part spoils the batch, and so does a part for which
/// there is no room.
fn add(command: Command, bytes: &[u8], batch: &mut Batch) -> Gathering
    requires formed { IsFormed command }
    requires gathered { IsGathered batch.old }
    ensures gathered { IsGathered batch.new }
    ensures stands { stands_open result batch.new ≡ with_part (parts_of batch.old) (part_asked command bytes.now) }
{
    match command {
        Command::Store {
            name,
            kind,
            implementation,
        } => open_with(batch.add_store(name, kind, implementation, bytes)),
        Command::Rename { old, new } => open_with(batch.add_rename(old, new)),
        Command::Purge(name) => open_with(batch.add_purge(name)),
        _ => Gathering::Spoilt(Code::BadLine),
    }
}

/// A batch to which a part was added, or for which there was no room.
fn open_with(is_added: bool) -> Gathering
    ensures { result ≡ (if is_added then gathering.Within else gathering.Spoilt code.BatchTooLarge) }
{
    if is_added {
        Gathering::Within
    } else {
        Gathering::Spoilt(Code::BatchTooLarge)
    }
}

/// The lines of a batch that is spoilt are read on as far as `commit`.
fn spoilt(read: Result<Option<Command>, Code>, code: Code) -> (Gathering, Option<Asked>)
    ensures gathers { (bytes : List ℕ) (batch : BatchView) → Gathers (read_with read bytes) (Spoilt code) result.0 batch result.1 bytes }
    ensures plain { IfSome result.1 IsPlainAsked }
{
    match read {
        Ok(Some(Command::Commit)) => (Gathering::Outside, Some(Asked::NoCommand(code))),
        _ => (Gathering::Spoilt(code), None),
    }
}
