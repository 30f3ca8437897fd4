// A lend, told plainly: each frame goes from party to party, and what comes of it stands in the log. No device and no
// ring takes part.

use crate::frame_of;
use crate::lineup::{Lineup, Party};
use il_frames::{Class, Entry, Frame, Outcome};
use il_ring::{PlanFault, Planned};
use std::alloc::Global;
use std::test::Fail;

/// A frame on its way.
#[derive(Clone, Copy, PartialEq, Eq, Debug)]
struct Sent {
    source: u8,
    frame: Frame,
    /// The frame as it is now.
    now: Frame,
    altered: bool,
}

impl Sent {
    fn by(source: u8, frame: Frame) -> Sent {
        Sent {
            source,
            frame,
            now: frame,
            altered: false,
        }
    }

    fn ended(self, outcome: Outcome) -> Entry {
        Entry {
            source: self.source,
            frame: self.frame,
            outcome,
        }
    }
}

/// What a lend leaves: the host hands control over by TCT, takes so many frames, and sends IFC until it comes back.
#[derive(Drop)]
pub(crate) struct Telling<'a> {
    lineup: Lineup,
    pub limit: usize,
    plan: &'a [Planned],
    /// The status that the second controller holds while its NRD is on its way.
    held: Option<Sent>,
    /// How many links were crossed since the ring was made.
    pub crossings: u64,
    pub log: Vec<Entry>,
    /// The frames that came to the host before the first IFC.
    pub arrivals: Vec<Frame>,
    /// How many IFC the host sends.
    pub clears: usize,
}

impl<'a> Telling<'a> {
    /// The lend, with so many crossings before it, up to the moment at which the host takes control back or a frame is
    /// lost.
    pub fn lent(
        alloc: Global,
        lineup: Lineup,
        limit: usize,
        plan: &'a [Planned],
        crossings: u64,
    ) -> Result<Telling<'a>, Fail> {
        let mut telling = Telling {
            lineup,
            limit,
            plan,
            held: None,
            crossings,
            log: Vec::new(alloc),
            arrivals: Vec::new(alloc),
            clears: 0,
        };
        let tct = Sent::by(0, frame_of("TCT")?);
        if telling.go(tct, 0, lineup.guest())?.is_some() {
            telling.rounds()?;
        }
        Ok(telling)
    }

    /// The host sends IFC until one comes back. Each fault of the plan makes one more of them necessary at most.
    pub fn clear(&mut self) -> Result<(), Fail> {
        let ifc = Sent::by(0, frame_of("IFC")?);
        for _ in 0..=self.plan.len() {
            self.clears = self.clears.saturating_add(1);
            if self.go(ifc, 0, 0)?.is_some() {
                break;
            }
        }
        Ok(())
    }

    /// The devices, the last address that is asked, the limit and the plan, for messages.
    pub fn name(&self) -> (&'static [Party], u8, usize, &'a [Planned]) {
        (self.lineup.devices, self.lineup.last, self.limit, self.plan)
    }

    /// Whether the second controller took control.
    pub fn is_taken(&self) -> bool {
        match self.log.first() {
            Some(entry) => entry.outcome == Outcome::Taken(self.lineup.guest()),
            None => false,
        }
    }

    /// Whether all frames that the host takes came to it.
    pub fn is_whole(&self) -> bool {
        self.arrivals.len() == self.limit
    }

    /// Rounds, which end before there are as many as frames are to come.
    fn rounds(&mut self) -> Result<(), Fail> {
        let own = self.lineup.address(self.lineup.guest());
        for _ in 0..self.limit {
            if !self.command(frame_of("NOP")?)? {
                break;
            }
            for address in 1..=self.lineup.last {
                if address != own && !self.ask(address)? {
                    return Ok(());
                }
            }
        }
        Ok(())
    }

    /// The second controller asks an address for its status. Whether the lend goes on.
    fn ask(&mut self, address: u8) -> Result<bool, Fail> {
        let talk = Frame::new(Class::Cmd, 0x40 | address);
        if !self.command(frame_of("UNL")?)? || !self.command(talk)? {
            return Ok(false);
        }
        let told = match self.lineup.teller(address) {
            Some((party, status)) => self.tell(party, status)?,
            None => self.own(frame_of("SST")?)?,
        };
        Ok(told && self.command(frame_of("UNT")?)?)
    }

    /// SST comes to the party that tells its status.
    fn tell(&mut self, party: u8, status: Frame) -> Result<bool, Fail> {
        let guest = self.lineup.guest();
        let sst = Sent::by(guest, frame_of("SST")?);
        if self.go(sst, guest, party)?.is_none() {
            return Ok(false);
        }
        self.held = self.go(Sent::by(party, status), party, guest)?;
        let Some(held) = self.held else {
            return Ok(false);
        };
        if !self.own(frame_of("NRD")?)? {
            return Ok(false);
        }
        self.held = None;
        let Some(echo) = self.go(held, guest, party)? else {
            return Ok(false);
        };
        let end = if echo.altered { "ETE" } else { "ETO" };
        let came = self.go(Sent::by(party, frame_of(end)?), party, guest)?;
        Ok(came.is_some() && !echo.altered)
    }

    /// A command of the second controller, and RFC after it.
    fn command(&mut self, frame: Frame) -> Result<bool, Fail> {
        Ok(self.own(frame)? && self.own(frame_of("RFC")?)?)
    }

    /// A frame of the second controller goes round.
    fn own(&mut self, frame: Frame) -> Result<bool, Fail> {
        let guest = self.lineup.guest();
        let back = self.go(Sent::by(guest, frame), guest, guest)?;
        Ok(back.is_some())
    }

    /// A frame goes from one party to the next where it stops, and as it is there; or it is lost before, or is the last
    /// that the host takes.
    fn go(&mut self, sent: Sent, from: u8, to: u8) -> Result<Option<Sent>, Fail> {
        let last = self.lineup.guest();
        let mut sent = sent;
        for party in (0..=last).chain(0..=last).skip(usize::from(from) + 1) {
            let Some(across) = self.cross(sent, party)? else {
                return Ok(None);
            };
            sent = across;
            if party == 0 && from > 0 && self.arrive(sent.now)? {
                self.note(sent, Outcome::Taken(0))?;
                return Ok(None);
            }
            if party == to {
                self.stop(sent, party)?;
                return Ok(Some(sent));
            }
            if sent.frame.is_data() && self.lineup.calls(party) {
                sent.now = sent.now.with_service();
            }
        }
        Ok(None)
    }

    /// A frame crosses the link to a party, or is lost there.
    fn cross(&mut self, sent: Sent, party: u8) -> Result<Option<Sent>, Fail> {
        self.crossings = self.crossings.saturating_add(1);
        match self.fault() {
            None => Ok(Some(sent)),
            Some(PlanFault::Alter(change)) if sent.frame.is_data() && !sent.altered => {
                let now = Frame::new(sent.now.class(), sent.now.byte() ^ change);
                Ok(Some(Sent {
                    now,
                    altered: true,
                    ..sent
                }))
            }
            Some(_) => {
                self.note(sent, Outcome::Lost(party))?;
                Ok(None)
            }
        }
    }

    /// What is planned at the crossing that was counted last.
    fn fault(&self) -> Option<PlanFault> {
        for planned in self.plan {
            if planned.hop == self.crossings {
                return Some(planned.fault);
            }
        }
        None
    }

    /// A frame comes to the host. Whether it is the last that it takes.
    fn arrive(&mut self, frame: Frame) -> Result<bool, Fail> {
        self.arrivals.push(frame)?;
        Ok(self.arrivals.len() == self.limit)
    }

    /// A frame stops at a party: its source, or one that takes it. A status is held at the second controller, and has
    /// no entry yet.
    fn stop(&mut self, sent: Sent, party: u8) -> Result<(), Fail> {
        if party == sent.source {
            self.note(sent, Outcome::Back(sent.now))
        } else if sent.frame.is_data() {
            Ok(())
        } else {
            self.note(sent, Outcome::Taken(party))
        }
    }

    /// The entry of a frame. That of a held status stands before it where the frame did not come back.
    fn note(&mut self, sent: Sent, outcome: Outcome) -> Result<(), Fail> {
        if let (Some(held), Outcome::Taken(_) | Outcome::Lost(_)) = (self.held, outcome) {
            let guest = self.lineup.guest();
            self.log.push(held.ended(Outcome::Taken(guest)))?;
            self.held = None;
        }
        self.log.push(sent.ended(outcome))?;
        Ok(())
    }
}

/// How many links the frame of an entry crossed on a ring of so many devices: from its source to where it ended.
pub(crate) fn links(entry: &Entry, devices: u8) -> u64 {
    let source = u64::from(entry.source);
    let end = match entry.outcome {
        Outcome::Back(_) => source,
        Outcome::Taken(party) | Outcome::Lost(party) => u64::from(party),
    };
    if source < end {
        end - source
    } else {
        (u64::from(devices) + 1 + end).saturating_sub(source)
    }
}

/// By address, the status that a second controller, this party, was told by a log: the data that came back to the
/// device at that address, where ETO came to it then. None where SST came back later, and before TCT.
pub(crate) fn statuses(log: &[Entry], guest: u8) -> Result<[Option<u8>; 31], Fail> {
    let (tct, sst, eto) = (frame_of("TCT")?, frame_of("SST")?, frame_of("ETO")?);
    let mut found = [None; 31];
    let (mut asked, mut told) = (0, None);
    for entry in log {
        let talk = entry.source == guest && entry.frame.class() == Class::Cmd;
        match entry.outcome {
            Outcome::Taken(party) if entry.frame == tct && party == guest => found = [None; 31],
            Outcome::Back(_) if talk && (0x41..0x5F).contains(&entry.frame.byte()) => {
                asked = usize::from(entry.frame.byte() & 0x1F);
            }
            Outcome::Back(_) if entry.frame.is_data() => told = Some(entry.frame.byte()),
            Outcome::Back(_) if entry.frame == sst => keep(&mut found, asked, None),
            Outcome::Taken(_) if entry.frame == eto => keep(&mut found, asked, told),
            _ => {}
        }
    }
    Ok(found)
}

/// Keeps what an address told.
fn keep(found: &mut [Option<u8>; 31], address: usize, status: Option<u8>) {
    if let Some(place) = found.get_mut(address) {
        *place = status;
    }
}
