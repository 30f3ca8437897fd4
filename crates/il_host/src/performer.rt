use il_frames::Entry;
use il_script::{Command, Reply};
use lif_dir::{Batch, Name, SlotTable};
use lif_header::Header;
use lif_volume::Fetched;

/// What performs commands, one after the other. The loop over a script is proved for every performer, and the host is
/// one.
pub trait Performer {
    ghost use Rattle.std.specs.Prelude.{◌≡◌, ◌≤◌, length, IfSome, is_some};
    ghost use Rattle.il_host.specs.Kept.{FileRead, GivesFile, TellsKept};
    ghost use Rattle.il_script.specs.declared.limits.TheConstants.{LONGEST_PAYLOAD};
    ghost use Rattle.host_model.specs.Requests.{item_for};
    ghost use Rattle.il_host.specs.HostView.{HostView, IsHost, Performed};
    ghost use Rattle.il_host.specs.PlainCommands.{IsPlainCommand};
    ghost use Rattle.lif_model.specs.Apply as volume;
    ghost use Rattle.lif_model.specs.Shelf.{largest_image};
    ghost use Rattle.lif_dir.specs.Batches.{parts_of};
    ghost use Rattle.lif_dir.specs.Entries.{name_bytes};
    ghost use Rattle.il_script.specs.declared.reply.Reply.TheVariants as reply;
    ghost use Rattle.host_model.specs.Requests.{Asks, OfVolume};

    ghost view: { Self → HostView };

    // what `file` returns
    ghost file: { Self → FileRead };

    /// Performs a command that a script can ask for, with the bytes that its line carries.
    fn perform(&mut self, command: &Command, bytes: &[u8]) -> Reply
        requires valid { (view self.old).valid }
        requires plain { IsPlainCommand command.now }
        requires few { length bytes.now ≤ LONGEST_PAYLOAD }
        ensures { Performed (item_for command.now bytes.now) result (view self.old) (view self.new) };

    /// Makes the changes of a batch as one.
    fn perform_batch(&mut self, batch: &Batch) -> Reply
        requires valid { (view self.old).valid }
        ensures { Performed (Asks (OfVolume (volume.Batch (parts_of batch.now)))) result (view self.old) (view self.new) };

    /// Performs the command `fetch`, which reads a file.
    fn fetch(&mut self, name: &Name) -> Reply
        requires valid { (view self.old).valid }
        ensures performed { Performed (Asks (OfVolume (volume.Fetch (name_bytes name.now)))) result (view self.old) (view self.new) }
        ensures read { result ≡ reply.Ok → GivesFile (view self.old).state (name_bytes name.now) (file self.new) };

    /// What was told of a file, and the bytes of all its records, right after a `fetch` of it that replied ok.
    fn file(&self) -> (Fetched, &[u8])
        requires { (view self.now).valid }
        ensures fetched { result.0 ≡ (file self.now).fetched }
        ensures bytes { result.1.now ≡ (file self.now).bytes }
        ensures fits { length result.1.now ≤ largest_image };

    /// The text of the reply to the last command.
    fn text(&self) -> &[u8]
        requires { (view self.now).valid }
        ensures { result.now ≡ (view self.now).text };

    /// The log of the last command, oldest entry first.
    fn log(&self) -> &[Entry]
        requires { (view self.now).valid }
        ensures { result.now ≡ (view self.now).log };

    /// The number of records of the medium.
    fn size(&self) -> u16
        requires { (view self.now).valid }
        ensures { result ≡ (view self.now).state.records };

    /// What record 0 says, and the slots of the directory, if they are kept in memory: they are after each command of
    /// the volume that replied ok, except `pack`.
    fn directory(&self) -> Option<(Header, &SlotTable)>
        requires { (view self.now).valid }
        ensures kept { is_some result ≡ (view self.now).state.kept }
        ensures told { IfSome result (λ d. TellsKept (view self.now).state d.0 d.1.now.slots) };

    ghost is_host: { (p : Self) → (view p).valid → IsHost (view p) };
}
