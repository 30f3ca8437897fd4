// A lend as it should go, reckoned from the ways of its frames: each from where it is sent, or goes on, to where it
// stops. No ring and no device takes part.

use PlanFault::Alter;
use il_frames::{Class, Entry, Frame, Outcome};
use il_ring::{PlanFault, Planned};
use ring_rows::frame_of;
use std::alloc::Global;
use std::test::Fail;

/// The devices of a loop, in order: the drive (D) among printers (P), quiet ones (Q), which tell no status, and callers
/// (C), which want service at every moment. The address of each is its number.
#[derive(Clone, Copy)]
pub(crate) struct Lineup {
    pub devices: &'static [u8],
    /// The last address that the second controller asks. It stands after them, where there is one.
    pub last: Option<u8>,
}

impl Lineup {
    /// How many parties there are beside the host. Where there is a second controller, it is the last.
    pub fn count(&self) -> u8 {
        self.devices.len().min(29) as u8 + u8::from(self.last.is_some())
    }

    /// The party of the drive.
    pub fn drive(&self) -> u8 {
        let place = self.devices.iter().position(|kind| *kind == b'D');
        place.unwrap_or(0).min(28) as u8 + 1
    }

    /// The device of this party, before the second controller.
    fn kind(&self, party: u8) -> Option<u8> {
        let place = usize::from(party).checked_sub(1)?;
        self.devices.get(place).copied()
    }

    /// The frame as which a status of a party came back, where the drive has this status meanwhile: a device on the way
    /// that wants service says so.
    pub fn echo(&self, party: u8, frame: Frame, status: u8) -> Frame {
        for other in 1..=self.count() {
            let calls = match self.kind(other) {
                Some(b'C') => true,
                Some(b'D') => status != 0,
                _ => false,
            };
            if other != party && calls {
                return frame.with_service();
            }
        }
        frame
    }
}

/// The status byte of a status.
pub(crate) fn status_byte(status: u8) -> u8 {
    if status == 0 { 0 } else { status | 0x40 }
}

/// A frame on its way between two parties at which it stops.
#[derive(Clone, Copy)]
struct Way {
    source: u8,
    frame: Frame,
    from: u8,
    to: u8,
    /// How it ends there, unless it goes on.
    outcome: Option<Outcome>,
    /// The status that the second controller holds meanwhile, as it ends where this frame does not come back.
    held: Option<Entry>,
    /// The status byte whose end this frame is.
    told: Option<u8>,
}

impl Way {
    fn new(source: u8, frame: Frame, from: u8, to: u8, outcome: Option<Outcome>) -> Way {
        Way {
            source,
            frame,
            from,
            to,
            outcome,
            held: None,
            told: None,
        }
    }

    /// Whether it comes past the host.
    fn passes_host(&self) -> bool {
        self.source != 0 && self.to <= self.from
    }

    fn ended(&self, outcome: Outcome) -> Entry {
        Entry {
            source: self.source,
            frame: self.frame,
            outcome,
        }
    }
}

/// What a lend leaves.
#[derive(Drop)]
pub(crate) struct Left {
    /// Whether a second controller took control, or none where the lend broke off.
    pub answer: Option<bool>,
    pub log: Vec<Entry>,
    /// How many links were crossed.
    pub crossings: u64,
    /// By address, what the second controller was told.
    pub found: [Option<u8>; 31],
    /// The status of the drive.
    pub status: u8,
}

impl Left {
    /// An entry. Where a status was held and its NRD did not come back, the status has ended too.
    fn note(&mut self, way: &Way, outcome: Outcome) -> Result<(), Fail> {
        if let (Some(entry), Outcome::Taken(_) | Outcome::Lost(_)) = (way.held, outcome) {
            self.log.push(entry)?;
        }
        self.log.push(way.ended(outcome))?;
        Ok(())
    }

    /// The second controller was told the status of an address.
    fn find(&mut self, address: u8, status: u8) {
        if let Some(place) = self.found.get_mut(usize::from(address)) {
            *place = Some(status);
        }
    }
}

/// The ways of the frames of a lend without a fault.
#[derive(Drop)]
pub(crate) struct Reckoning {
    lineup: Lineup,
    limit: u16,
    /// How many frames have come past the host.
    arrived: u16,
    /// The status of the drive before the lend.
    before: u8,
    status: u8,
    ways: Vec<Way>,
}

impl Reckoning {
    /// Of a lend of this address, before which the drive has this status.
    pub fn of(
        alloc: Global,
        lineup: Lineup,
        address: u8,
        limit: u16,
        status: u8,
    ) -> Result<Reckoning, Fail> {
        let mut reckoning = Reckoning {
            lineup,
            limit,
            arrived: 0,
            before: status,
            status,
            ways: Vec::new(alloc),
        };
        reckoning.host("UNL")?;
        reckoning.host("RFC")?;
        reckoning.push_host(Frame::new(Class::Cmd, 0x40 | address))?;
        reckoning.host("RFC")?;
        if lineup.last.is_some() && address == lineup.count() {
            let tct = frame_of("TCT")?;
            let taken = Some(Outcome::Taken(address));
            reckoning.ways.push(Way::new(0, tct, 0, address, taken))?;
            reckoning.rounds()?;
            reckoning.host("IFC")?;
        } else {
            reckoning.host("TCT")?;
            reckoning.host("UNT")?;
        }
        reckoning.host("RFC")?;
        Ok(reckoning)
    }

    /// A frame of the host goes round.
    fn push_host(&mut self, frame: Frame) -> Result<(), Fail> {
        let back = Some(Outcome::Back(frame));
        self.ways.push(Way::new(0, frame, 0, 0, back))?;
        Ok(())
    }

    fn host(&mut self, text: &str) -> Result<(), Fail> {
        self.push_host(frame_of(text)?)
    }

    /// A way of a frame of the second controller or of a device. The host ends the one that is the last which it takes,
    /// and there are no more.
    fn push(&mut self, way: Way) -> Result<(), Fail> {
        if self.arrived >= self.limit {
            return Ok(());
        }
        let mut way = way;
        if way.passes_host() {
            self.arrived = self.arrived.saturating_add(1);
            if self.arrived == self.limit {
                way.to = 0;
                way.outcome = Some(Outcome::Taken(0));
            }
        }
        self.ways.push(way)?;
        Ok(())
    }

    /// A frame of the second controller goes round.
    fn own(&mut self, frame: Frame) -> Result<(), Fail> {
        let party = self.lineup.count();
        let back = Some(Outcome::Back(frame));
        self.push(Way::new(party, frame, party, party, back))
    }

    /// A command of the second controller.
    fn command(&mut self, frame: Frame) -> Result<(), Fail> {
        self.own(frame)?;
        self.own(frame_of("RFC")?)
    }

    /// Rounds, of which each has two frames at least.
    fn rounds(&mut self) -> Result<(), Fail> {
        for _ in 0..self.limit {
            if self.arrived >= self.limit {
                break;
            }
            self.command(frame_of("NOP")?)?;
            for address in 1..=self.lineup.last.unwrap_or(0) {
                if address != self.lineup.count() {
                    self.ask(address)?;
                }
            }
        }
        Ok(())
    }

    /// The second controller asks an address.
    fn ask(&mut self, address: u8) -> Result<(), Fail> {
        self.command(frame_of("UNL")?)?;
        self.command(Frame::new(Class::Cmd, 0x40 | address))?;
        match self.lineup.kind(address) {
            Some(b'P') => self.tell(address, 0)?,
            Some(b'C') => self.tell(address, 0x41)?,
            Some(b'D') => {
                self.tell(address, status_byte(self.status))?;
                self.status = 0;
            }
            _ => self.own(frame_of("SST")?)?,
        }
        self.command(frame_of("UNT")?)
    }

    /// A device tells its status: SST to it, the byte to the second controller, NRD round, the byte on to the device,
    /// and ETO to the second controller.
    fn tell(&mut self, party: u8, status: u8) -> Result<(), Fail> {
        let guest = self.lineup.count();
        let (sst, nrd, eto) = (frame_of("SST")?, frame_of("NRD")?, frame_of("ETO")?);
        let byte = Frame::new(Class::Dab, status);
        let back = self.lineup.echo(party, byte, self.status);
        let to_party = Some(Outcome::Taken(party));
        self.push(Way::new(guest, sst, guest, party, to_party))?;
        let sent = Way::new(party, byte, party, guest, None);
        self.push(sent)?;
        self.push(Way {
            held: Some(sent.ended(Outcome::Taken(guest))),
            ..Way::new(guest, nrd, guest, guest, Some(Outcome::Back(nrd)))
        })?;
        let came_back = Some(Outcome::Back(back));
        self.push(Way::new(party, byte, guest, party, came_back))?;
        self.push(Way {
            told: Some(status),
            ..Way::new(party, eto, party, guest, Some(Outcome::Taken(guest)))
        })
    }

    /// How many links a way crosses.
    fn links(&self, way: &Way) -> u64 {
        let (from, to) = (u64::from(way.from), u64::from(way.to));
        if from < to {
            to - from
        } else {
            (u64::from(self.lineup.count()) + 1 + to).saturating_sub(from)
        }
    }

    /// How many links all cross.
    pub fn crossings(&self) -> u64 {
        let mut crossings: u64 = 0;
        for way in &self.ways {
            crossings = crossings.saturating_add(self.links(way));
        }
        crossings
    }

    /// The way that crosses a link as its crossing is counted, and how many of its links it has crossed then.
    fn met(&self, hop: u64) -> Option<(usize, u64)> {
        let mut left = hop;
        for (place, way) in self.ways.iter().enumerate() {
            let links = self.links(way);
            if left <= links {
                return Some((place, left));
            }
            left = left.saturating_sub(links);
        }
        None
    }

    /// What the first ways leave, where the second controller was told this before.
    fn front(&self, alloc: Global, found: [Option<u8>; 31], count: usize) -> Result<Left, Fail> {
        let mut left = Left {
            answer: None,
            log: Vec::new(alloc),
            crossings: 0,
            found,
            status: self.before,
        };
        for way in self.ways.iter().take(count) {
            self.go(&mut left, way)?;
        }
        Ok(left)
    }

    /// A frame goes its way to the end.
    fn go(&self, left: &mut Left, way: &Way) -> Result<(), Fail> {
        left.crossings = left.crossings.saturating_add(self.links(way));
        if way.source == 0 && way.to != 0 {
            left.found = [None; 31];
        }
        if let Some(status) = way.told {
            left.find(way.source, status);
        }
        self.clear_status(left, way);
        match way.outcome {
            Some(outcome) => left.note(way, outcome),
            None => Ok(()),
        }
    }

    /// The drive's status is 0 as soon as it ends the transmission of it.
    fn clear_status(&self, left: &mut Left, way: &Way) {
        if way.told.is_some() && way.source == self.lineup.drive() {
            left.status = 0;
        }
    }

    /// All frames go their way.
    fn whole(&self, alloc: Global, found: [Option<u8>; 31]) -> Result<Left, Fail> {
        let mut left = self.front(alloc, found, self.ways.len())?;
        left.answer = Some(self.arrived > 0);
        Ok(left)
    }

    /// A frame is lost at this link of its way.
    fn lost(
        &self,
        alloc: Global,
        found: [Option<u8>; 31],
        place: usize,
        link: u64,
    ) -> Result<Left, Fail> {
        let mut left = self.front(alloc, found, place)?;
        if let Some(way) = self.ways.get(place) {
            left.crossings = left.crossings.saturating_add(link);
            let reached = u64::from(way.from).saturating_add(link);
            let party = reached % (u64::from(self.lineup.count()) + 1);
            self.clear_status(&mut left, way);
            left.note(way, Outcome::Lost(u8::try_from(party).unwrap_or(0)))?;
        }
        Ok(left)
    }

    /// A status is altered on one of its two ways. Where it comes back, its device ends by ETE, which silences the
    /// second controller; and else nobody sees it.
    fn altered(
        &self,
        alloc: Global,
        found: [Option<u8>; 31],
        place: usize,
        change: u8,
    ) -> Result<Left, Fail> {
        for (back, way) in self.ways.iter().enumerate().skip(place) {
            let Some(Outcome::Back(echo)) = way.outcome else {
                continue;
            };
            if way.source == 0 || !way.frame.is_data() {
                continue;
            }
            let mut left = self.front(alloc, found, back)?;
            let echo = Frame::new(echo.class(), echo.byte() ^ change);
            left.note(way, Outcome::Back(echo))?;
            let guest = self.lineup.count();
            let taken = Outcome::Taken(guest);
            let end = Way::new(way.source, frame_of("ETE")?, way.source, guest, None);
            left.note(&end, taken)?;
            let links = self.links(way).saturating_add(self.links(&end));
            left.crossings = left.crossings.saturating_add(links);
            return Ok(left);
        }
        self.whole(alloc, found)
    }

    /// What the lend leaves, with a fault at the crossing of this number of its own, if at any. The second controller
    /// was told this before.
    pub fn left(
        &self,
        alloc: Global,
        found: [Option<u8>; 31],
        fault: Option<Planned>,
    ) -> Result<Left, Fail> {
        let Some(planned) = fault else {
            return self.whole(alloc, found);
        };
        let Some((place, link)) = self.met(planned.hop) else {
            return self.whole(alloc, found);
        };
        match (planned.fault, self.ways.get(place)) {
            (Alter(change), Some(way)) if way.frame.is_data() => {
                self.altered(alloc, found, place, change)
            }
            _ => self.lost(alloc, found, place, link),
        }
    }
}
