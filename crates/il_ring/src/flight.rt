ghost use Rattle.std.specs.Prelude.{◌≡◌, Some};
ghost use Rattle.il_ring.specs.declared.plan.PlanFault.TheVariants.{Alter};
ghost use Rattle.il_ring.specs.Flights.{sourced, altered_by, hit, lost_at, ended_at};
ghost use Rattle.il_ring.specs.Books.{IsHeld};

use crate::plan::PlanFault;
use il_frames::{Entry, Frame, Outcome};
use std::marker::Model;

/// A frame on its way. It is public because contracts see the held frame as one; a ring hands out
/// none.
#[derive(Clone, Copy, PartialEq, Eq, Debug)]
pub struct Flight {
    /// The party that sent it: 0 is the host, and k, 1 to 30, the k-th device.
    pub source: u8,
    /// The frame as it was sent.
    pub sent: Frame,
    /// The frame as it is now.
    pub now: Frame,
    /// Whether a planned fault has altered it since it was sent.
    pub altered: bool,
}

impl Flight {
    /// A frame that a party has just sent.
    #[inline(always)]
    pub(crate) fn sourced(source: u8, frame: Frame) -> Flight
        ensures { result ≡ sourced source frame }
    {
        Flight {
            source,
            sent: frame,
            now: frame,
            altered: false,
        }
    }

    /// The same flight, copied field by field, as a flight is written when it is sent. A copy of the whole would load
    /// several fields at once while their stores are still under way. A processor cannot forward a load from two
    /// stores: it waits until both are done. A field that is read with the width that it was written with is forwarded
    /// at once.
    #[inline(always)]
    pub(crate) fn again(&self) -> Flight
        ensures { result ≡ self.entry.now }
    {
        Flight {
            source: self.source,
            sent: Frame::new(self.sent.class(), self.sent.byte()),
            now: Frame::new(self.now.class(), self.now.byte()),
            altered: self.altered,
        }
    }

    /// The frame after a link if this is planned. `None` if it is lost.
    pub(crate) fn struck(self, fault: Option<PlanFault>) -> Option<Flight>
        ensures { result ≡ hit fault self }
    {
        match fault {
            None => Some(self),
            Some(PlanFault::Lose) => None,
            Some(PlanFault::Alter(change)) => self.altered_by(change),
        }
    }

    /// The same with another byte, if it can be altered.
    fn altered_by(self, change: u8) -> Option<Flight>
        ensures { result ≡ hit (Some (Alter change)) self }
    {
        if !self.now.is_data() || self.altered {
            return None;
        }
        Some(Flight {
            now: Frame::new(self.now.class(), self.now.byte() ^ change),
            altered: true,
            ..self
        })
    }

    /// Its entry if it did not reach a party.
    pub(crate) fn lost_at(self, party: u8) -> Entry
        ensures { result ≡ lost_at self party }
    {
        Entry {
            source: self.source,
            frame: self.sent,
            outcome: Outcome::Lost(party),
        }
    }

    /// Its entry if it ended at a party: it came back to its source, or another took it.
    #[inline(always)]
    pub(crate) fn ended_at(self, party: u8) -> Entry
        ensures { result ≡ ended_at self party }
    {
        let outcome = if self.source == party {
            Outcome::Back(self.now)
        } else {
            Outcome::Taken(party)
        };
        Entry {
            source: self.source,
            frame: self.sent,
            outcome,
        }
    }
}

/// A frame that is held at the host outside of the books, or none.
#[derive(Drop)]
pub(crate) struct Standing {
    pub flight: Option<Flight>,
}

impl Model for Standing {
    ghost use Rattle.std.specs.Prelude.{Option};
    ghost use Rattle.il_ring.specs.declared.flight.Flight.{Flight};
    ghost use Rattle.il_ring.specs.Books.{IsHeld};

    ghost Value = { Option Flight };

    ghost view = { λ s. s.flight };

    ghost invariant = { λ s. IsHeld s.flight };
}

impl Standing {
    /// The frame.
    #[inline(always)]
    pub fn flight(&self) -> Option<Flight>
        ensures flight { result ≡ self.now }
        ensures held { IsHeld result }
    {
        self.flight
    }
}
