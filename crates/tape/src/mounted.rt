ghost use Rattle.std.specs.Prelude.{◌≡◌, ◌≤◌, false, length};
ghost use Rattle.host_model.specs.Requests.{Asks, OfVolume, item_for};
ghost use Rattle.il_host.specs.PlainCommands.{IsPlainCommand};
ghost use Rattle.il_script.specs.declared.limits.TheConstants.{LONGEST_PAYLOAD};
ghost use Rattle.tape_volumes.specs.Changes.{IsFormedChange, change_command, is_batch};

use il_host::Performer;
use il_script::{Command, Reply};
use lif_dir::{Name, SlotTable};
use lif_header::Header;
use tape_volumes::{Change, FileRead, Volumes};

/// The command that makes a change other than a batch, and the bytes that it carries.
fn command_for<'a>(change: &Change<'a>) -> (Command, &'a [u8])
    requires formed { IsFormedChange change.now }
    requires single { is_batch change.now ≡ false }
    ensures plain { IsPlainCommand result.0 }
    ensures few { length result.1.now ≤ LONGEST_PAYLOAD }
    ensures item { item_for result.0 result.1.now ≡ Asks (OfVolume (change_command change.now)) }
{
    match *change {
        Change::Store {
            name,
            kind,
            field: implementation,
            bytes,
        } => (
            Command::Store {
                name,
                kind,
                implementation,
            },
            bytes,
        ),
        Change::Rename { old, new } => (Command::Rename { old, new }, b""),
        Change::Purge(name) => (Command::Purge(name), b""),
        Change::Adopt => (Command::Adopt, b""),
        Change::Upgrade => (Command::Upgrade, b""),
        Change::Format { label, slots } => (Command::Format { label, slots }, b""),
        Change::Batch(_) => unreachable!(),
    }
}

/// The image in the drive of a host, on a loop without planned faults.
#[derive(Drop)]
pub struct Mounted<P: Drop> {
    pub(crate) host: P,
}

impl<P: Performer + Drop> Volumes for Mounted<P> {
    ghost use Rattle.tape.specs.Mounts.{content_read, mounted};

    ghost seen = { λ m. mounted (P.view m.host) };

    ghost file = { λ m. content_read (P.file m.host) };

    fn list(&mut self) -> Reply {
        self.host.perform(&Command::Dir, b"")
    }

    fn fetch(&mut self, name: &Name) -> Reply {
        self.host.fetch(name)
    }

    fn change(&mut self, change: &Change<'_>) -> Reply {
        if let Change::Batch(batch) = change {
            return self.host.perform_batch(batch);
        }
        let (command, bytes) = command_for(change);
        self.host.perform(&command, bytes)
    }

    fn file(&self) -> FileRead<'_> {
        let (fetched, bytes) = self.host.file();
        let field = fetched.implementation;
        FileRead {
            kind: fetched.kind,
            field,
            bytes,
        }
    }

    fn size(&self) -> u16 {
        self.host.size()
    }

    fn directory(&self) -> Option<(Header, &SlotTable)> {
        self.host.directory()
    }

    ghost is_mounted = { λ m valid. record {
      is_tape = (P.is_host m.host valid.0).is_tape;
      leaves_only = (P.is_host m.host valid.0).leaves_only;
    } };
}
