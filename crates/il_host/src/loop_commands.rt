ghost use Rattle.std.specs.Prelude.{◌≡◌, ◌<◌, ◌≤◌, if◌then◌else◌, suc, [], length, None, option_map, IfSome};
ghost use Rattle.std.specs.List.{position};
ghost use Rattle.il_ring.specs.Rings.{has_id, printer_id};
ghost use Rattle.il_script.specs.declared.limits.TheConstants.{LONGEST_PAYLOAD, MOST_FRAMES};
ghost use Rattle.il_record.specs.Called.{LeavesStore};
ghost use Rattle.il_record.specs.LoopStores.{Addresses};
ghost use Rattle.lif_volume.specs.Views.{IsOpen};
ghost use Rattle.host_model.specs.Requests.{Asks, Devices, Lend, Paper, Poll, Say, Status};
ghost use Rattle.il_host.specs.HostView.{Performed};
ghost use Rattle.il_host.specs.Hosts.{volume_in, space_of};
ghost use Rattle.il_host.specs.Standings.{KeepsPage};

use crate::host::Host;
use crate::loop_texts::{put_devices, put_found, put_paper, put_poll, put_status};
use crate::performer::Performer;
use arrayvec::ArrayVec;
use il_ports::{Medium, Records, Trouble};
use il_record::{LoopRecords, Looped};
use il_script::{Code, Reply};

impl<M: Medium + Drop> Host<M> {
    /// Tells the status of the drive.
    pub(crate) fn status(&mut self) -> Reply
        requires valid { (⟦<Host<M> as Performer>⟧.view self.old).valid }
        requires blank { (⟦<Host<M> as Performer>⟧.view self.old).text ≡ [] }
        ensures { Performed (Asks Status) result (⟦<Host<M> as Performer>⟧.view self.old) (⟦<Host<M> as Performer>⟧.view self.new) }
    {
        self.volume.begin();
        if let Err(trouble) = self.make_ready() {
            return self.faulted(trouble);
        }
        match self.volume.records_mut().drive_status() {
            Ok(byte) => {
                put_status(&mut self.page, byte);
                self.answered(Reply::Ok)
            }
            Err(trouble) => self.faulted(trouble),
        }
    }

    /// Polls the devices in parallel.
    pub(crate) fn poll(&mut self) -> Reply
        requires valid { (⟦<Host<M> as Performer>⟧.view self.old).valid }
        requires blank { (⟦<Host<M> as Performer>⟧.view self.old).text ≡ [] }
        ensures { Performed (Asks Poll) result (⟦<Host<M> as Performer>⟧.view self.old) (⟦<Host<M> as Performer>⟧.view self.new) }
    {
        self.volume.begin();
        if let Err(trouble) = self.make_ready() {
            return self.faulted(trouble);
        }
        match self.volume.records_mut().parallel_poll() {
            Ok(frame) => {
                put_poll(&mut self.page, &frame);
                self.answered(Reply::Ok)
            }
            Err(trouble) => self.faulted(trouble),
        }
    }

    /// Tells the accessory IDs of the devices.
    pub(crate) fn devices(&mut self) -> Reply
        requires valid { (⟦<Host<M> as Performer>⟧.view self.old).valid }
        requires blank { (⟦<Host<M> as Performer>⟧.view self.old).text ≡ [] }
        ensures { Performed (Asks Devices) result (⟦<Host<M> as Performer>⟧.view self.old) (⟦<Host<M> as Performer>⟧.view self.new) }
    {
        self.volume.begin();
        if let Err(trouble) = self.make_ready() {
            return self.faulted(trouble);
        }
        let mut ids = ArrayVec::new();
        match self.volume.records_mut().accessories(&mut ids) {
            Ok(()) => {
                put_devices(&mut self.page, &ids);
                self.answered(Reply::Ok)
            }
            Err(trouble) => self.faulted(trouble),
        }
    }

    /// Sends bytes to the first printer.
    pub(crate) fn say(&mut self, bytes: &[u8]) -> Reply
        requires valid { (⟦<Host<M> as Performer>⟧.view self.old).valid }
        requires blank { (⟦<Host<M> as Performer>⟧.view self.old).text ≡ [] }
        requires few { length bytes.now ≤ LONGEST_PAYLOAD }
        ensures { Performed (Asks (Say bytes.now)) result (⟦<Host<M> as Performer>⟧.view self.old) (⟦<Host<M> as Performer>⟧.view self.new) }
    {
        self.volume.begin();
        if let Err(trouble) = self.make_ready() {
            return self.faulted(trouble);
        }
        let mut ids = ArrayVec::new();
        if let Err(trouble) = self.volume.records_mut().accessories(&mut ids) {
            return self.faulted(trouble);
        }
        let Some(address) = printer_among(&ids) else {
            return self.answered(Reply::No(Code::NoPrinter));
        };
        match self.volume.records_mut().say(address, bytes) {
            Ok(()) => self.answered(Reply::Ok),
            Err(trouble) => self.faulted(trouble),
        }
    }

    /// Tells what the printer's paper has.
    pub(crate) fn paper(&mut self) -> Reply
        requires valid { (⟦<Host<M> as Performer>⟧.view self.old).valid }
        requires blank { (⟦<Host<M> as Performer>⟧.view self.old).text ≡ [] }
        ensures { Performed (Asks Paper) result (⟦<Host<M> as Performer>⟧.view self.old) (⟦<Host<M> as Performer>⟧.view self.new) }
    {
        self.volume.begin();
        match self.volume.records().ring().paper() {
            Some((kept, count)) => {
                put_paper(&mut self.page, kept, count);
                self.answered(Reply::Ok)
            }
            None => self.answered(Reply::No(Code::NoPrinter)),
        }
    }

    /// Hands control of the loop to a second controller at the last address, until so many frames have come to the
    /// host, and tells the statuses that it has found.
    pub(crate) fn lend(&mut self, frames: u16) -> Reply
        requires valid { (⟦<Host<M> as Performer>⟧.view self.old).valid }
        requires blank { (⟦<Host<M> as Performer>⟧.view self.old).text ≡ [] }
        requires frames { (0 < frames) × (frames ≤ MOST_FRAMES) }
        ensures { Performed (Asks (Lend frames)) result (⟦<Host<M> as Performer>⟧.view self.old) (⟦<Host<M> as Performer>⟧.view self.new) }
    {
        self.volume.begin();
        if let Err(trouble) = self.make_ready() {
            return self.faulted(trouble);
        }
        let last = self.volume.records().ring().devices();
        match self.volume.records_mut().lend(last, frames) {
            Ok(true) => {
                let ring = self.volume.records().ring();
                put_found(&mut self.page, last, ring.guest(), ring.log());
                self.answered(Reply::Ok)
            }
            Ok(false) => self.answered(Reply::No(Code::NoTaker)),
            Err(trouble) => self.faulted(trouble),
        }
    }

    /// Addresses the loop, where it is not ready. Else what is kept of the directory stays.
    fn make_ready(&mut self) -> Result<(), Trouble>
        requires volume_open { IsOpen ⟦<LoopRecords<M> as Records>⟧.view (volume_in self.old.volume) }
        requires left { 1 ≤ (⟦<LoopRecords<M> as Records>⟧.view self.old.volume.records).calls_left }
        ensures addresses { Addresses M.view (⟦<LoopRecords<M> as Looped<M>>⟧.looped self.old.volume.records).ready (⟦<LoopRecords<M> as Looped<M>>⟧.looped self.old.volume.records) (⟦<LoopRecords<M> as Looped<M>>⟧.looped self.new.volume.records) result }
        ensures leaves { LeavesStore 1 ((⟦<LoopRecords<M> as Records>⟧.view self.old.volume.records).failed None) (⟦<LoopRecords<M> as Records>⟧.view self.old.volume.records) (⟦<LoopRecords<M> as Records>⟧.view self.new.volume.records) result }
        ensures opens { IsOpen ⟦<LoopRecords<M> as Records>⟧.view (volume_in self.new.volume) }
        ensures rests { KeepsPage self.old.page (space_of self.old.file self.old.packer) self.new.page (space_of self.new.file self.new.packer) }
        ensures kept { (volume_in self.new.volume).kept ≡ (if (⟦<LoopRecords<M> as Looped<M>>⟧.looped self.old.volume.records).ready
            then (volume_in self.old.volume).kept else None) }
    {
        if self.volume.records().is_ready() {
            return Ok(());
        }
        self.volume.records_mut().ready()
    }
}

/// The accessory ID of a printer.
const PRINTER_ID: u8 = 32;

/// Whether it is that of a printer.
fn is_printer(id: &Option<u8>) -> bool
    ensures { result ≡ has_id printer_id id.now }
{
    *id == Some(PRINTER_ID)
}

/// The place of the first printer.
fn printer_place(ids: &[Option<u8>]) -> Option<usize>
    ensures { result ≡ position (has_id printer_id) ids.now }
{
    ids.iter().position(is_printer)
}

/// The address of the first printer, by the accessory IDs of all devices. There are at most 30.
fn printer_among(ids: &ArrayVec<Option<u8>, 30>) -> Option<u8>
    ensures first { result ≡ option_map suc (position (has_id printer_id) ids.now.items) }
    ensures bound { IfSome result (λ address. (1 ≤ address) × (address ≤ 30)) }
{
    let place = printer_place(ids)?;
    Some(place as u8 + 1)
}
