ghost use Rattle.std.specs.Prelude.{◌≡◌, ◌≤◌, ◌+◌, ◌*◌, if◌then◌else◌, true, length, None};
ghost use Rattle.il_ports.specs.Stores.{Continues};
ghost use Rattle.lif_volume.specs.Views.{IsOpen};
ghost use Rattle.lif_pack.specs.Packers.{IsPackerFor};
ghost use Rattle.il_ring.specs.Seen.{ring_seen};
ghost use Rattle.il_host.specs.Hosts.{volume_in, space_of};
ghost use Rattle.il_host.specs.Preparing.{Prepares};
ghost use Rattle.il_host.specs.Standings.{Ends, HasDriveStatus, KeepsPage, MakesSound, fault_of};

use crate::file_buffer::FileBuffer;
use crate::made_text::MadeText;
use crate::performer::Performer;
use il_device::Device;
use il_frames::Entry;
use il_ports::{Medium, Records, Trouble};
use il_record::{LoopRecords, Looped};
use il_script::{Command, Page, Reply};
use lif_dir::{Batch, Name, SlotTable};
use lif_header::Header;
use lif_pack::Packer;
use lif_volume::{Fetched, Volume};
use std::marker::PhantomData;

/// Performs commands on the tape that is in the drive, by frames on a loop.
#[derive(Drop)]
pub struct Host<M: Medium> {
    pub(crate) volume: Volume<LoopRecords<M>>,
    pub(crate) page: Page,
    pub(crate) file: FileBuffer,
    pub(crate) text: MadeText,
    pub(crate) packer: Packer,
    pub(crate) devices: PhantomData<Box<dyn Device>>,
}

impl<M: Medium + Drop> Performer for Host<M> {
    ghost use Rattle.il_ring.specs.Seen.{ring_seen};
    ghost use Rattle.il_host.specs.HostView.{HostView};
    ghost use Rattle.il_host.specs.Hosts.{host_in};
    ghost use Rattle.il_host.specs.IsHosts.{is_host_at};
    ghost use Rattle.il_host.specs.Kept.{file_held};

    ghost view = { λ h. host_in M.view (ring_seen (λ b. (Device-box b).state b.value))
        h.volume h.page.text h.page.room (space_of h.file h.packer) };

    ghost file = { λ h. file_held h.file };

    ghost is_host = { λ h valid. is_host_at M.view _ h.volume h.page.text h.page.room (space_of h.file h.packer) M.is_medium valid };

    fn perform(&mut self, command: &Command, bytes: &[u8]) -> Reply {
        self.page.clear();
        match command {
            Command::Devices => self.devices(),
            Command::Status => self.status(),
            Command::Poll => self.poll(),
            Command::Say => self.say(bytes),
            Command::Paper => self.paper(),
            Command::Lend(frames) => self.lend(*frames),
            Command::Put(name) => self.put(name, bytes),
            Command::Get(name) => self.get(name),
            Command::Pack => self.pack(),
            Command::Fetch(name) => self.read_file(name),
            Command::Dir
            | Command::Label
            | Command::Store { .. }
            | Command::Rename { .. }
            | Command::Purge(_)
            | Command::Format { .. }
            | Command::Adopt
            | Command::Upgrade => self.on_volume(command, bytes),
            Command::Begin | Command::Commit => unreachable!(),
        }
    }

    fn perform_batch(&mut self, batch: &Batch) -> Reply {
        self.page.clear();
        self.on_batch(batch)
    }

    fn fetch(&mut self, name: &Name) -> Reply {
        self.page.clear();
        self.read_file(name)
    }

    fn file(&self) -> (Fetched, &[u8]) {
        (self.file.fetched, self.file.read())
    }

    fn text(&self) -> &[u8] {
        self.page.text()
    }

    fn log(&self) -> &[Entry] {
        self.volume.records().ring().log()
    }

    fn size(&self) -> u16 {
        self.volume.records().size()
    }

    fn directory(&self) -> Option<(Header, &SlotTable)> {
        let header = self.volume.header()?;
        Some((header, self.volume.slots()))
    }
}

impl<M: Medium + Drop> Host<M> {
    /// Makes the store sound, where a fault came before: addresses the loop, where it is not ready, and clears the
    /// drive.
    pub(crate) fn make_sound(&mut self) -> Result<(), Trouble>
        requires volume_open { IsOpen ⟦<LoopRecords<M> as Records>⟧.view (volume_in self.old.volume) }
        requires left { 1 ≤ (⟦<LoopRecords<M> as Records>⟧.view self.old.volume.records).calls_left }
        ensures makes { MakesSound M.view (⟦<LoopRecords<M> as Looped<M>>⟧.looped self.old.volume.records) (⟦<LoopRecords<M> as Looped<M>>⟧.looped self.new.volume.records) result }
        ensures sounds { Continues 1 (⟦<LoopRecords<M> as Records>⟧.view self.old.volume.records) (⟦<LoopRecords<M> as Records>⟧.view self.new.volume.records) result }
        ensures opens { IsOpen ⟦<LoopRecords<M> as Records>⟧.view (volume_in self.new.volume) }
        ensures rests { KeepsPage self.old.page (space_of self.old.file self.old.packer) self.new.page (space_of self.new.file self.new.packer) }
        ensures text { self.new.text ≡ self.old.text }
        // A directory that is kept of a sound store stays, and any other is forgotten.
        ensures kept { (volume_in self.new.volume).kept ≡ (if (⟦<LoopRecords<M> as Looped<M>>⟧.looped self.old.volume.records).sound
            then (volume_in self.old.volume).kept else None) }
        ensures still { (⟦<LoopRecords<M> as Looped<M>>⟧.looped self.old.volume.records).sound ≡ true → self.new.volume ≡ self.old.volume }
    {
        if self.volume.records().is_sound() {
            return Ok(());
        }
        self.volume.records_mut().resume()
    }

    /// Makes the store sound, and finishes a packing that was stopped. Where the directory is kept there is none.
    pub(crate) fn prepare(&mut self) -> Result<(), Trouble>
        requires volume_open { IsOpen ⟦<LoopRecords<M> as Records>⟧.view (volume_in self.old.volume) }
        requires left { 15 * (⟦<LoopRecords<M> as Records>⟧.view self.old.volume.records).record_count + 121
            ≤ (⟦<LoopRecords<M> as Records>⟧.view self.old.volume.records).calls_left }
        requires memory { IsPackerFor (⟦<LoopRecords<M> as Records>⟧.view self.old.volume.records).record_count self.old.packer }
        ensures prepares { Prepares M.view (ring_seen (λ b. (Device-box b).state b.value)) self.old.volume self.new.volume result }
        ensures opens { IsOpen ⟦<LoopRecords<M> as Records>⟧.view (volume_in self.new.volume) }
        ensures rests { KeepsPage self.old.page (space_of self.old.file self.old.packer) self.new.page (space_of self.new.file self.new.packer) }
        ensures text { self.new.text ≡ self.old.text }
    {
        self.make_sound()?;
        if self.volume.is_kept() {
            return Ok(());
        }
        self.packer.finish(&mut self.volume)
    }

    /// Ends the text of a reply.
    pub(crate) fn answered(&mut self, reply: Reply) -> Reply
        requires volume_open { IsOpen ⟦<LoopRecords<M> as Records>⟧.view (volume_in self.old.volume) }
        requires room { length self.old.page.text + 23 ≤ self.old.page.room }
        ensures ended { Ends reply self.old.volume self.old.page (space_of self.old.file self.old.packer) result self.new.volume self.new.page (space_of self.new.file self.new.packer) }
        ensures drive { HasDriveStatus (⟦<LoopRecords<M> as Looped<M>>⟧.looped self.old.volume.records).ring }
        ensures file { self.new.file ≡ self.old.file }
    {
        self.page.put(reply.last_line());
        reply
    }

    /// The reply to a trouble of the store, with its line.
    pub(crate) fn faulted(&mut self, trouble: Trouble) -> Reply
        requires volume_open { IsOpen ⟦<LoopRecords<M> as Records>⟧.view (volume_in self.old.volume) }
        requires room { length self.old.page.text + 23 ≤ self.old.page.room }
        ensures ended { Ends (fault_of trouble) self.old.volume self.old.page (space_of self.old.file self.old.packer) result self.new.volume self.new.page (space_of self.new.file self.new.packer) }
        ensures drive { HasDriveStatus (⟦<LoopRecords<M> as Looped<M>>⟧.looped self.old.volume.records).ring }
    {
        match trouble {
            Trouble::Frame => self.answered(Reply::FaultFrame),
            Trouble::Medium => self.answered(Reply::FaultMedium),
        }
    }
}
