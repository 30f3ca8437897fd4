ghost use Rattle.std.specs.Prelude.{◌≡◌, ◌<◌, ◌≤◌, ◌+◌, length, option_map};
ghost use Rattle.il_guest.specs.State.{IsGuest};
ghost use Rattle.il_ring.specs.Books.{KeepsBooks};
ghost use Rattle.il_ring.specs.Guests.{guest_mind, guest_devices, MayBeGuest};
ghost use Rattle.il_ring.specs.Journeys.{trip_of};
ghost use Rattle.il_ring.specs.Lending.{LastPassage, GuestReaches, leads, controlled, controlled_answers};
ghost use Rattle.il_ring.specs.Rings.{paper_of};

use crate::books::Books;
use crate::flight::Flight;
use il_guest::{Guest, GuestOut};
use std::marker::Model;

/// The last party of a ring, if a second controller is there.
#[derive(Drop)]
pub(crate) struct Last {
    guest: Option<Guest>,
}

impl Model for Last {
    ghost use Rattle.std.specs.Prelude.{Option};
    ghost use Rattle.il_guest.specs.State.{GuestState};
    ghost use Rattle.il_ring.specs.Guests.{IsLast};

    ghost Value = { Option GuestState };

    ghost view = { λ l. l.guest };

    ghost invariant = { λ l. IsLast l.guest };
}

impl Last {
    /// This second controller, or none.
    pub fn new(guest: Option<Guest>) -> Last
        requires { MayBeGuest guest }
        ensures { result ≡ guest }
    {
        Last { guest }
    }

    /// The second controller.
    pub fn guest(&self) -> Option<&Guest>
        ensures { option_map (λ g. g.now) result ≡ self.now }
    {
        self.guest.as_ref()
    }

    /// Whether a second controller controls the loop.
    pub fn leads(&self) -> bool
        ensures { result ≡ leads (guest_mind self.now) }
    {
        match &self.guest {
            None => false,
            Some(guest) => guest.in_control(),
        }
    }

    /// How many devices it is: one or none.
    pub fn count(&self) -> u8
        ensures count { result ≡ length (guest_devices self.now) }
        ensures range { result ≤ 1 }
    {
        match self.guest {
            None => 0,
            Some(_) => 1,
        }
    }

    /// Its paper: always `None`, since a second controller is never a printer.
    pub fn paper(&self) -> Option<(&[u8], u64)>
        ensures { option_map (λ p. (p.0.now, p.1)) result ≡ paper_of (guest_devices self.now) }
    {
        let _guest = &self.guest;
        None
    }

    /// Returns the second controller.
    pub fn into_guest(self) -> Option<Guest>
        ensures { result ≡ self }
    {
        self.guest
    }

    /// A frame goes past it.
    pub fn pass(&mut self, party: u8, books: &mut Books, flight: Option<Flight>) -> Option<Flight>
        requires { length books.old.log < books.old.room }
        ensures passage { LastPassage books.old.plan party (trip_of books.old flight) books.old.kept self.old
            (controlled (trip_of books.new result) books.new.kept) self.new }
        ensures count { length (guest_devices self.new) ≡ length (guest_devices self.old) }
        ensures books { KeepsBooks 1 (record books.old { kept = books.new.kept }) books.new }
    {
        match &mut self.guest {
            None => flight,
            Some(guest) => pass_guest(guest, party, books, flight),
        }
    }
}

/// A frame crosses a link and is taken by the second controller after it, or it is lost.
fn pass_guest(
    guest: &mut Guest,
    party: u8,
    books: &mut Books,
    flight: Option<Flight>,
) -> Option<Flight>
    requires room { length books.old.log < books.old.room }
    requires guest { IsGuest guest.old }
    ensures passage { GuestReaches books.old.plan party (trip_of books.old flight) books.old.kept flight guest.old
        (controlled (trip_of books.new result) books.new.kept) guest.new }
    ensures guest { IsGuest guest.new }
    ensures books { KeepsBooks 1 (record books.old { kept = books.new.kept }) books.new }
{
    let flight = books.cross(flight?, party)?;
    let out = guest.take(flight.now);
    go_on_controlled(books, flight, party, out)
}

/// What goes on after a second controller that has answered.
fn go_on_controlled(books: &mut Books, flight: Flight, party: u8, out: GuestOut) -> Option<Flight>
    requires { length books.old.log < books.old.room }
    ensures trip { controlled (trip_of books.new result) books.new.kept
        ≡ controlled_answers books.old.crossings books.old.log party flight books.old.kept out }
    ensures books { KeepsBooks 1 (record books.old { kept = books.new.kept }) books.new }
{
    match out {
        GuestOut::Pass(frame) => Some(Flight {
            now: frame,
            ..flight
        }),
        GuestOut::Source(frame) => {
            if flight.now.is_data() {
                books.keep(flight);
            } else {
                books.finish(flight, party);
            }
            Some(Flight::sourced(party, frame))
        }
        GuestOut::Relay(_) => {
            books.finish(flight, party);
            books.take_kept()
        }
        GuestOut::Stop => {
            books.finish(flight, party);
            None
        }
    }
}
