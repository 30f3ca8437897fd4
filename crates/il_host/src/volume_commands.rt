ghost use Rattle.std.specs.Prelude.{◌≡◌, ◌≤◌, ◌+◌, [], length, Err};
ghost use Rattle.lif_volume.specs.Views.{IsOpen};
ghost use Rattle.lif_volume.specs.Commands.{IsReadyFor};
ghost use Rattle.lif_volume.specs.Did.{Alters};
ghost use Rattle.lif_model.specs.Apply as command;
ghost use Rattle.lif_dir.specs.Batches.{parts_of};
ghost use Rattle.lif_dir.specs.Entries.{name_bytes};
ghost use Rattle.host_model.specs.Requests.{Asks, OfVolume, Pack, request_of};
ghost use Rattle.il_host.specs.HostView.{Performed};
ghost use Rattle.il_host.specs.Hosts.{volume_in, space_of};
ghost use Rattle.il_host.specs.Kept.{GivesFile, file_held};
ghost use Rattle.il_script.specs.declared.reply.Reply.TheVariants as reply;
ghost use Rattle.il_host.specs.PlainCommands.{ChangesVolume, IsOnVolume, IsPlainCommand, OnVolume};
ghost use Rattle.il_host.specs.Standings.{Ends, HasDriveStatus, volume_reply};

use crate::host::Host;
use crate::listing::{put_data, put_label, put_listing, put_packed};
use crate::performer::Performer;
use il_ports::{Medium, Records};
use il_record::{LoopRecords, Looped};
use il_script::{Code, Command, Reply};
use lif_dir::{Batch, Name};
use lif_volume::{Volume, VolumeFault};

impl<M: Medium + Drop> Host<M> {
    /// Performs a command of the volume, with the bytes that its line carries.
    pub(crate) fn on_volume(&mut self, command: &Command, bytes: &[u8]) -> Reply
        requires valid { (⟦<Host<M> as Performer>⟧.view self.old).valid }
        requires blank { (⟦<Host<M> as Performer>⟧.view self.old).text ≡ [] }
        requires plain { IsPlainCommand command.now }
        requires volume { IsOnVolume command.now }
        ensures { Performed (Asks (request_of command.now bytes.now)) result (⟦<Host<M> as Performer>⟧.view self.old) (⟦<Host<M> as Performer>⟧.view self.new) }
    {
        self.volume.begin();
        if let Err(trouble) = self.prepare() {
            return self.faulted(trouble);
        }
        match command {
            Command::Dir => match self.volume.dir() {
                Ok(listing) => {
                    put_listing(&mut self.page, &listing, self.volume.slots());
                    self.answered(Reply::Ok)
                }
                Err(fault) => self.refused(fault),
            },
            Command::Label => match self.volume.label() {
                Ok(label) => {
                    put_label(&mut self.page, &label);
                    self.answered(Reply::Ok)
                }
                Err(fault) => self.refused(fault),
            },
            _ => {
                let answer = alter(&mut self.volume, command, bytes);
                self.ended(answer)
            }
        }
    }

    /// Reads a file. The reply has its bytes.
    pub(crate) fn read_file(&mut self, name: &Name) -> Reply
        requires valid { (⟦<Host<M> as Performer>⟧.view self.old).valid }
        requires blank { (⟦<Host<M> as Performer>⟧.view self.old).text ≡ [] }
        ensures performed { Performed (Asks (OfVolume (command.Fetch (name_bytes name.now)))) result (⟦<Host<M> as Performer>⟧.view self.old) (⟦<Host<M> as Performer>⟧.view self.new) }
        ensures read { result ≡ reply.Ok
            → GivesFile (⟦<Host<M> as Performer>⟧.view self.old).state (name_bytes name.now) (file_held self.new.file) }
    {
        self.volume.begin();
        if let Err(trouble) = self.prepare() {
            return self.faulted(trouble);
        }
        self.file.fill();
        match self.volume.fetch(name, &mut self.file.bytes) {
            Ok(fetched) => {
                self.file.fetched = fetched;
                put_data(&mut self.page, &fetched, self.file.read());
                self.answered(Reply::Ok)
            }
            Err(fault) => self.refused(fault),
        }
    }

    /// Makes the changes of a batch as one.
    pub(crate) fn on_batch(&mut self, batch: &Batch) -> Reply
        requires valid { (⟦<Host<M> as Performer>⟧.view self.old).valid }
        requires blank { (⟦<Host<M> as Performer>⟧.view self.old).text ≡ [] }
        ensures { Performed (Asks (OfVolume (command.Batch (parts_of batch.now)))) result (⟦<Host<M> as Performer>⟧.view self.old) (⟦<Host<M> as Performer>⟧.view self.new) }
    {
        self.volume.begin();
        if let Err(trouble) = self.prepare() {
            return self.faulted(trouble);
        }
        let answer = self.volume.batch(batch);
        self.ended(answer)
    }

    /// Moves the files of the volume together.
    pub(crate) fn pack(&mut self) -> Reply
        requires valid { (⟦<Host<M> as Performer>⟧.view self.old).valid }
        requires blank { (⟦<Host<M> as Performer>⟧.view self.old).text ≡ [] }
        ensures { Performed (Asks Pack) result (⟦<Host<M> as Performer>⟧.view self.old) (⟦<Host<M> as Performer>⟧.view self.new) }
    {
        self.volume.begin();
        if let Err(trouble) = self.make_sound() {
            return self.faulted(trouble);
        }
        match self.packer.pack(&mut self.volume) {
            Ok(packed) => {
                put_packed(&mut self.page, &packed);
                self.answered(Reply::Ok)
            }
            Err(fault) => self.refused(fault),
        }
    }

    /// The reply to a command that tells nothing, by the volume's answer.
    pub(crate) fn ended(&mut self, answer: Result<(), VolumeFault>) -> Reply
        requires volume_open { IsOpen ⟦<LoopRecords<M> as Records>⟧.view (volume_in self.old.volume) }
        requires room { length self.old.page.text + 23 ≤ self.old.page.room }
        ensures ended { Ends (volume_reply answer) self.old.volume self.old.page (space_of self.old.file self.old.packer) result self.new.volume self.new.page (space_of self.new.file self.new.packer) }
        ensures drive { HasDriveStatus (⟦<LoopRecords<M> as Looped<M>>⟧.looped self.old.volume.records).ring }
    {
        match answer {
            Ok(()) => self.answered(Reply::Ok),
            Err(fault) => self.refused(fault),
        }
    }

    /// The reply to a command that the volume did not perform.
    pub(crate) fn refused(&mut self, fault: VolumeFault) -> Reply
        requires volume_open { IsOpen ⟦<LoopRecords<M> as Records>⟧.view (volume_in self.old.volume) }
        requires room { length self.old.page.text + 23 ≤ self.old.page.room }
        ensures ended { Ends (volume_reply {T = Unit {0}} (Err fault)) self.old.volume self.old.page (space_of self.old.file self.old.packer) result self.new.volume self.new.page (space_of self.new.file self.new.packer) }
        ensures drive { HasDriveStatus (⟦<LoopRecords<M> as Looped<M>>⟧.looped self.old.volume.records).ring }
    {
        match fault {
            VolumeFault::Refused(refusal) => self.answered(Reply::No(Code::from(refusal))),
            VolumeFault::Trouble(trouble) => self.faulted(trouble),
        }
    }
}

/// Performs a command that changes the volume, with the bytes that its line carries.
fn alter<R: Records>(
    volume: &mut Volume<R>,
    command: &Command,
    bytes: &[u8],
) -> Result<(), VolumeFault>
    requires open { IsOpen R.view (volume_in volume.old) }
    requires ready { IsReadyFor R.view (volume_in volume.old) }
    requires plain { IsPlainCommand command.now }
    requires changes { ChangesVolume command.now }
    ensures open { IsOpen R.view (volume_in volume.new) }
    ensures did { OnVolume (request_of command.now bytes.now)
        (λ c. Alters c R.view (volume_in volume.old) (volume_in volume.new) result) }
{
    match command {
        Command::Store {
            name,
            kind,
            implementation,
        } => volume.store(name, *kind, *implementation, bytes),
        Command::Rename { old, new } => volume.rename(old, new),
        Command::Purge(name) => volume.purge(name),
        Command::Format { label, slots } => volume.format(label, *slots),
        Command::Adopt => volume.adopt(),
        Command::Upgrade => volume.upgrade(),
        _ => unreachable!(),
    }
}
