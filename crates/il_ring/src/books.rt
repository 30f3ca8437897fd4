ghost use Rattle.std.specs.Prelude.{◌≡◌, ℕ, true, ◌^◌, ◌+◌, ◌-◌, ◌<◌, ◌≤◌, [], ◌∷◌, ◌++◌, ◌==◌, IfOk, OnSome, IfNone, IfSome, Some, None, length, vec_len, vec_capacity};
ghost use Rattle.il_device.specs.State.{risen};
ghost use Rattle.il_ring.specs.Plans.{next_fault, IsPlan};
ghost use Rattle.il_ring.specs.Flights.{hit, lost_at, ended_at, sourced};
ghost use Rattle.il_ring.specs.Books.{IsClear, IsClearBefore, IsHeld, books_emptied};
ghost use Rattle.il_frames.specs.Frames.{is_data};
ghost use Rattle.il_ring.specs.Rings.{fresh_books, home, comes, arrived, arriving};
ghost use Rattle.il_ring.specs.Lending.{before_last, lent_home, lent_lost, lending_ended};

use crate::flight::{Flight, Standing};
use crate::plan::{Arrival, PlanFault, Planned};
use il_frames::{Entry, Frame};
use std::alloc::{AllocError, Global};
use std::marker::Model;

/// How many links a frame crosses at most after the first: HP-IL has 30 addresses, and the last link leads to the
/// host.
const MOST_AFTER: u64 = 30;

/// What a ring keeps beside its devices: the planned faults, the count of crossings, the log in the
/// room that was reserved for it, and the frame that is held at the host.
#[derive(Drop)]
pub(crate) struct Books {
    plan: Vec<Planned>,
    crossings: u64,
    /// How many there were as the log was last emptied with no frame held.
    begun: u64,
    /// How many of the planned faults lie at the crossings that were counted.
    passed: usize,
    /// A round that begins before this many crossings reaches nothing planned.
    clear_before: u64,
    log: Vec<Entry>,
    room: usize,
    held: Option<Flight>,
    /// The frame that is at the host while the ring is lent.
    lent: Option<Flight>,
    /// The data or end frame that the second controller keeps while its NRD is on its way.
    kept: Option<Flight>,
}

impl Model for Books {
    ghost use Rattle.std.specs.Vec.{vec_len, vec_capacity};
    ghost use Rattle.il_ring.specs.Books.{BooksView, IsBooks, IsPassed, IsClearBefore};

    ghost Value = { BooksView };

    ghost view = { λ b. record { plan = b.plan.items; crossings = b.crossings; begun = b.begun; log = b.log.items; room = b.room; held = b.held; lent = b.lent; kept = b.kept } };

    ghost invariant = { λ b. IsBooks (vec_len b.log) (vec_capacity b.log) (record { plan = b.plan.items; crossings = b.crossings; begun = b.begun; log = b.log.items; room = b.room; held = b.held; lent = b.lent; kept = b.kept })
        × IsPassed b.plan.items b.crossings b.passed
        × IsClearBefore b.plan.items b.crossings b.clear_before };
}

impl Books {
    /// Books in which nothing has happened yet, with room for `room` entries. All memory is taken
    /// here: a copy of the plan, and the log's.
    pub fn new(alloc: Global, plan: &[Planned], room: usize) -> Result<Books, AllocError>
        requires { IsPlan plan.now }
        ensures { IfOk result (λ books. books ≡ fresh_books plan.now room) }
    {
        Ok(Books {
            plan: plan.to_vec(alloc)?,
            crossings: 0,
            begun: 0,
            passed: 0,
            clear_before: 0,
            log: Vec::with_capacity(alloc, room)?,
            room,
            held: None,
            lent: None,
            kept: None,
        })
    }

    /// How many more entries the log has room for.
    pub fn spare(&self) -> usize
        ensures { result ≡ self.now.room - length self.now.log }
    {
        self.room - self.log.len()
    }

    /// The log, oldest entry first.
    pub fn log(&self) -> &[Entry]
        ensures { result.now ≡ self.now.log }
    {
        &self.log
    }

    /// Empties the log, which begins here if no frame is held anywhere.
    pub fn clear_log(&mut self)
        ensures { self.new ≡ books_emptied self.old }
    {
        self.log.clear();
        if self.held.is_none() && self.lent.is_none() && self.kept.is_none() {
            self.begun = self.crossings;
        }
    }

    /// How many crossings of links there were.
    pub fn crossings(&self) -> u64
        ensures { result ≡ self.now.crossings }
    {
        self.crossings
    }

    /// The frame that is held at the host.
    pub fn held(&self) -> Option<Flight>
        ensures value { result ≡ self.now.held }
        ensures held { IsHeld result }
    {
        self.held
    }

    /// The frame that is held at the host, which is not held any more.
    #[inline(always)]
    pub fn take_held(&mut self) -> Option<Flight>
        ensures value { result ≡ self.old.held }
        ensures held { IsHeld result }
        ensures released { self.new ≡ record self.old { held = None } }
    {
        // Not `Option::take`, which copies the flight as a whole: `Flight::again` says why that is slow.
        let held = match &self.held {
            None => return None,
            Some(flight) => flight.again(),
        };
        self.held = None;
        Some(held)
    }

    /// Appends the entry of a frame that ended at a party.
    #[inline(always)]
    pub fn finish(&mut self, flight: Flight, party: u8)
        requires { length self.old.log < self.old.room }
        ensures { self.new ≡ record self.old { log = self.old.log ++ ended_at flight party ∷ [] } }
    {
        self.note(flight.ended_at(party));
    }

    /// Does the same as `finish`. It is not inlined, so that the path of a frame that is passed on stays short.
    #[inline(never)]
    pub fn finish_apart(&mut self, flight: Flight, party: u8)
        requires { length self.old.log < self.old.room }
        ensures { self.new ≡ record self.old { log = self.old.log ++ ended_at flight party ∷ [] } }
    {
        self.note(flight.ended_at(party));
    }

    /// The frame crosses the link to a party. `None` if it is lost there, which its entry says.
    pub fn cross(&mut self, flight: Flight, party: u8) -> Option<Flight>
        requires { length self.old.log < self.old.room }
        ensures after { result ≡ hit (next_fault self.old.plan self.old.crossings) flight }
        ensures passed { OnSome result (self.new ≡ record self.old { crossings = risen self.old.crossings }) }
        ensures lost { IfNone result (self.new ≡ record self.old { crossings = risen self.old.crossings; log = self.old.log ++ lost_at flight party ∷ [] }) }
    {
        let after = flight.struck(self.count_crossing());
        self.look_ahead();
        if after.is_none() {
            self.note(flight.lost_at(party));
        }
        after
    }

    /// Counts the next crossing, and returns what is planned there. The plan rises, so one planned
    /// fault alone is looked at. After the greatest count nothing is counted or planned.
    fn count_crossing(&mut self) -> Option<PlanFault>
        ensures planned { result ≡ next_fault self.old.plan self.old.crossings }
        ensures counted { self.new ≡ record self.old { crossings = risen self.old.crossings } }
    {
        self.crossings = self.crossings.checked_add(1)?;
        let planned = self.plan.get(self.passed)?;
        if planned.hop != self.crossings {
            return None;
        }
        self.passed += 1;
        Some(planned.fault)
    }

    /// Notes how far off the next planned fault is.
    fn look_ahead(&mut self)
        ensures { self.new ≡ self.old }
    {
        self.clear_before = self.last_clear();
    }

    /// The count of crossings before which a round reaches nothing that is planned and still to come.
    fn last_clear(&self) -> u64
        ensures { IsClearBefore self.now.plan self.now.crossings result }
    {
        match self.plan.get(self.passed) {
            Some(planned) => rounds_before(planned.hop),
            None => u64::MAX - MOST_AFTER,
        }
    }

    /// Whether it is known that a round meets nothing planned: that nothing is planned at the next crossings, one for
    /// each link, and that all of them are counted.
    #[inline(always)]
    pub fn is_clear(&self) -> bool
        ensures { result ≡ true → IsClear self.now.plan self.now.crossings 31 }
    {
        self.crossings < self.clear_before
    }

    /// A frame crosses a link at which nothing is planned.
    #[inline(always)]
    pub fn cross_clear(&mut self)
        requires { IsClear self.old.plan self.old.crossings 1 }
        ensures clear { next_fault self.old.plan self.old.crossings ≡ None }
        ensures counted { self.new ≡ record self.old { crossings = risen self.old.crossings } }
        ensures more { self.new.crossings ≡ self.old.crossings + 1 }
    {
        self.crossings += 1;
    }

    /// Appends an entry, which takes no memory.
    #[inline(always)]
    fn note(&mut self, entry: Entry)
        requires { length self.old.log < self.old.room }
        ensures { self.new ≡ record self.old { log = self.old.log ++ entry ∷ [] } }
    {
        append(&mut self.log, entry);
    }

    /// What comes to the host over the last link. `None` if the frame was lost before or is lost
    /// there.
    fn cross_last(&mut self, flight: Option<Flight>) -> Option<Flight>
        requires { IfSome flight (λ f. length self.old.log < self.old.room) }
        ensures arriving { result ≡ arriving self.old.plan self.old.crossings flight }
        ensures arrived { IfSome result (λ f. home self.old flight ≡ comes self.new f (f.source == 0) (is_data f.now)) }
        ensures lost { IfNone result (home self.old flight ≡ record self.new { held = None }) }
        ensures lent { IfSome result (λ f. (k : ℕ) → lent_home k self.old flight
            ≡ record self.new { held = None; lent = Some f }) }
        ensures lent_lost { IfNone result ((k : ℕ) → lent_home k self.old flight ≡ lent_lost k self.new) }
        ensures room { OnSome result ((self.new.room ≡ self.old.room) × (self.new.log ≡ self.old.log)) }
        ensures grows { (self.new.room ≡ self.old.room) × (length self.new.log ≤ length self.old.log + 1) }
    {
        self.cross(flight?, 0)
    }

    /// The frame crosses the last link and comes to the host: its own ends there, a data or end
    /// frame of a device is held there, and any other frame of a device is taken. If it is lost
    /// nothing is held any more.
    pub fn home(&mut self, flight: Option<Flight>) -> Arrival
        requires { IfSome flight (λ f. length self.old.log < self.old.room) }
        ensures books { self.new ≡ home self.old flight }
        ensures answer { result ≡ arrived (arriving self.old.plan self.old.crossings flight) }
    {
        let Some(flight) = self.cross_last(flight) else {
            self.held = None;
            return Arrival::Lost;
        };
        self.come(flight);
        Arrival::Frame(flight.now)
    }

    /// Does the same as `home` if a frame comes to the last link, and nothing is planned there.
    #[inline(always)]
    pub fn home_clear(&mut self, flight: Flight) -> Arrival
        requires room { length self.old.log < self.old.room }
        requires clear { IsClear self.old.plan self.old.crossings 1 }
        ensures books { self.new ≡ home self.old (Some flight) }
        ensures answer { result ≡ arrived (arriving self.old.plan self.old.crossings (Some flight)) }
    {
        self.cross_clear();
        self.come(flight);
        Arrival::Frame(flight.now)
    }

    /// Does the same, but returns the frame that is held then, and drops the one that was held before.
    #[inline(always)]
    pub fn come_clear(&mut self, flight: Flight) -> Standing
        requires room { length self.old.log < self.old.room }
        requires clear { IsClear self.old.plan self.old.crossings 1 }
        ensures books { record self.new { held = result } ≡ home (record self.old { held = None }) (Some flight) }
        ensures answer { arrived (Some flight) ≡ arrived (arriving self.old.plan self.old.crossings (Some flight)) }
    {
        self.cross_clear();
        if flight.source == 0 || !flight.now.is_data() {
            // A copy, so that the flight itself needs no address and stays in registers.
            let last = flight;
            self.finish_apart(last, 0);
            return Standing { flight: None };
        }
        // It is copied field by field, as the next round reads it.
        Standing {
            flight: Some(flight.again()),
        }
    }

    /// Returns the held frame, which is no longer held.
    pub fn hand_out(&mut self) -> Standing
        ensures { self.old ≡ record self.new { held = result } }
    {
        Standing {
            flight: self.take_held(),
        }
    }

    /// Holds this frame, or none.
    #[inline(always)]
    pub fn stand(&mut self, standing: Standing)
        ensures { self.new ≡ record self.old { held = standing } }
    {
        self.held = standing.flight;
    }

    /// The frame has come to the host.
    #[inline(always)]
    fn come(&mut self, flight: Flight)
        requires { length self.old.log < self.old.room }
        ensures { self.new ≡ comes self.old flight (flight.source == 0) (is_data flight.now) }
    {
        if flight.source == 0 {
            self.finish(flight, 0);
        } else if flight.now.is_data() {
            // It is copied field by field, as `take_held` reads it in the next round.
            self.held = Some(flight.again());
        } else {
            self.finish(flight, 0);
            self.held = None;
        }
    }

    /// The frame that is at the host while the ring is lent.
    pub fn lent(&self) -> Option<Flight>
        ensures { result ≡ self.now.lent }
    {
        self.lent
    }

    /// Takes the frame that is at the host while the ring is lent, which is there no longer.
    pub fn take_lent(&mut self) -> Option<Flight>
        ensures value { result ≡ self.old.lent }
        ensures gone { self.new ≡ record self.old { lent = None } }
    {
        self.lent.take()
    }

    /// The second controller keeps a data or end frame.
    pub fn keep(&mut self, flight: Flight)
        ensures { self.new ≡ record self.old { kept = Some flight } }
    {
        self.kept = Some(flight);
    }

    /// The frame that the second controller keeps, which it lets go.
    pub fn take_kept(&mut self) -> Option<Flight>
        ensures value { result ≡ self.old.kept }
        ensures gone { self.new ≡ record self.old { kept = None } }
    {
        self.kept.take()
    }

    /// The ring is lent no more: the frame that is at the host ends there, and before it the one
    /// that the second controller, this party, keeps.
    pub fn end_lending(&mut self, party: u8)
        requires { length self.old.log + 1 < self.old.room }
        ensures { self.new ≡ lending_ended party self.old }
    {
        if let Some(kept) = self.kept.take() {
            self.finish(kept, party);
        }
        if let Some(lent) = self.lent.take() {
            self.finish(lent, 0);
        }
    }

    /// The same as `home` while a second controller, this party, controls: what comes to the host
    /// is there. If it is lost the ring is lent no more.
    pub fn lent_home(&mut self, flight: Option<Flight>, party: u8) -> Arrival
        requires { length self.old.log + 1 < self.old.room }
        ensures books { self.new ≡ lent_home party self.old flight }
        ensures answer { result ≡ arrived (arriving self.old.plan self.old.crossings flight) }
    {
        let Some(flight) = self.cross_last(flight) else {
            self.lose_lent(party);
            return Arrival::Lost;
        };
        self.held = None;
        self.lent = Some(flight);
        Arrival::Frame(flight.now)
    }

    /// The last frame was lost: logs the frame that the second controller withholds directly before it.
    fn lose_lent(&mut self, party: u8)
        requires { length self.old.log < self.old.room }
        ensures { self.new ≡ lent_lost party self.old }
    {
        self.held = None;
        self.lent = None;
        if let Some(kept) = self.kept.take() {
            self.note_before_last(kept.ended_at(party));
        }
    }

    /// Puts an entry directly before the last one.
    fn note_before_last(&mut self, entry: Entry)
        requires { length self.old.log < self.old.room }
        ensures { self.new ≡ record self.old { log = before_last entry self.old.log } }
    {
        let len = self.log.len();
        if len == 0 {
            return self.note(entry);
        }
        let last = self.log[len - 1];
        self.log[len - 1] = entry;
        self.note(last);
    }
}

/// The count of crossings before which a round ends before the crossing `hop`.
fn rounds_before(hop: u64) -> u64
    ensures before { 0 < result → result + 31 ≡ hop }
    ensures counted { result + 31 < 2 ^ 64 }
{
    hop.saturating_sub(1 + MOST_AFTER)
}

/// With room an append takes no memory, and cannot fail.
#[inline(always)]
fn append<T: Drop>(list: &mut Vec<T>, item: T)
    requires { vec_len list.old < vec_capacity list.old }
    ensures items { list.new.items ≡ list.old.items ++ item ∷ [] }
    ensures len { vec_len list.new ≡ vec_len list.old + 1 }
    ensures capacity { vec_capacity list.old ≤ vec_capacity list.new }
{
    list.push_reserved(item);
}
