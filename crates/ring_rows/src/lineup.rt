// Rings whose last party is a second controller, by the devices before it.

use crate::{caller, tape};
use il_device::{Device, Printer, Quiet};
use il_frames::{Class, Frame};
use il_guest::Guest;
use il_ports::MemoryMedium;
use il_ring::Rig;
use std::alloc::Global;
use std::process::Abort;
use std::test::Fail;

/// A device before the second controller.
#[derive(Clone, Copy, PartialEq, Eq, Debug)]
pub(crate) enum Party {
    Drive,
    Printer,
    Quiet,
    /// One that wants service at every moment.
    Caller,
}

impl Party {
    /// The status byte that it tells, if it tells one.
    fn status(self) -> Option<u8> {
        match self {
            Party::Drive | Party::Printer => Some(0x00),
            Party::Quiet => None,
            Party::Caller => Some(0x41),
        }
    }
}

/// The devices of a ring: at most 29, and a second controller after them.
#[derive(Clone, Copy)]
pub(crate) struct Lineup {
    /// The first is party 1. One of them is the drive.
    pub devices: &'static [Party],
    /// A party has its number and this as its address.
    pub base: u8,
    /// The last address that the second controller asks.
    pub last: u8,
}

impl Lineup {
    /// The party of the second controller.
    pub fn guest(&self) -> u8 {
        self.devices.len().min(29) as u8 + 1
    }

    /// The address of a party.
    pub fn address(&self, party: u8) -> u8 {
        party.saturating_add(self.base)
    }

    /// The device of this party.
    fn device(&self, party: u8) -> Option<Party> {
        let place = usize::from(party).checked_sub(1)?;
        self.devices.get(place).copied()
    }

    /// Whether a party wants service.
    pub fn calls(&self, party: u8) -> bool {
        self.device(party) == Some(Party::Caller)
    }

    /// The party with this address and its status frame, if there is one that tells its status.
    pub fn teller(&self, address: u8) -> Option<(u8, Frame)> {
        let party = address.checked_sub(self.base)?;
        let status = self.device(party)?.status()?;
        Some((party, Frame::new(Class::Dab, status)))
    }

    /// The devices over a new tape.
    pub fn rig(&self, rt: &(impl Abort + AllocGlobal)) -> Result<Rig<MemoryMedium>, Fail> {
        let alloc = rt.alloc();
        let (mut before, mut after) = (Vec::new(alloc), Vec::new(alloc));
        let mut passed = false;
        for party in self.devices {
            let device: Box<dyn Device> = match party {
                Party::Drive => {
                    passed = true;
                    continue;
                }
                Party::Printer => Box::new(alloc, Printer::new(alloc)?)?,
                Party::Quiet => Box::new(alloc, Quiet::new())?,
                Party::Caller => Box::new(alloc, caller())?,
            };
            if passed {
                after.push(device)?;
            } else {
                before.push(device)?;
            }
        }
        assert!(rt; 1 <= self.last && self.last <= 30);
        Ok(Rig {
            medium: tape(alloc, 0, 0)?,
            before,
            after,
            guest: Some(Guest::new(self.last)),
        })
    }
}
