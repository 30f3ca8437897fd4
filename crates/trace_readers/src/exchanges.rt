#![tactic(auto)]

ghost use Rattle.std.specs.Prelude.{◌≡◌, ◌≤◌, ◌↔◌, ℕ, true, List, [], ◌∷◌, ◌++◌};
ghost use Rattle.il_frames.specs.declared.entry.Entry.{Entry};
ghost use Rattle.loop_model.specs.Loops.{host_loop};
ghost use Rattle.loop_model.specs.Exchanges.{Reading};
ghost use Rattle.trace_readers.specs.Exchanges.{IsPrefix, IsReadAfter};
ghost use Rattle.trace_readers.specs.Places as spec;

use il_frames::{Class, Entry, Frame, Message, Outcome};
use std::marker::Model;

/// What the whole exchanges at the end of a log are the beginning of.
#[derive(Clone, Copy, PartialEq, Eq, Debug)]
pub enum Tail {
    /// Nothing longer.
    Plain,
    /// UNL: a send or a receive.
    Unlisten,
    /// UNL and a listen address: a send.
    Listen,
    /// A send to which data may be added.
    Data,
}

/// Where within an exchange of the host a log ends.
#[derive(Clone, Copy, PartialEq, Eq, Debug)]
pub enum Place {
    /// Each exchange is whole or broken.
    Between(Tail),
    /// A command came back, and RFC is due.
    Commanded(Tail),
    /// The talk address of a receive came back, and RFC is due.
    Addressed,
    /// A talk address was given: DDT or a start message is due.
    Told,
    /// The DDT of a receive came back, and RFC is due.
    Numbered,
    /// A start message is due.
    Starting,
    /// This party took the start message, and sent at least one data frame or none.
    Talking(u8, bool),
    /// NRD came back: the last data frame of this party is due.
    Stopping(u8),
    /// The last data frame came back: ETO of this party is due.
    Stopped(u8),
    /// A data frame of this party came back as another: its ETE is due.
    Failed(u8),
    /// The start message came back, or the talker ended: UNT is due.
    Answered,
}

/// How a frame ended.
#[derive(Clone, Copy, PartialEq, Eq, Debug)]
pub(crate) enum Fate {
    /// It came back, the same apart from the service bit.
    Returned,
    /// It came back as another.
    Altered,
    /// This party took it.
    Taken(u8),
    /// It was lost.
    Lost,
}

impl Fate {
    /// How a frame ended, by its outcome.
    pub(crate) fn of(frame: Frame, outcome: Outcome) -> Fate
        ensures { result ≡ spec.fate_of frame outcome }
    {
        match outcome {
            Outcome::Back(back) if frame.same_but_service(back) => Fate::Returned,
            Outcome::Back(_) => Fate::Altered,
            Outcome::Taken(party) => Fate::Taken(party),
            Outcome::Lost(_) => Fate::Lost,
        }
    }
}

impl Place {
    /// Each exchange is whole or broken, and nothing longer begins at the end.
    const PLAIN: Place = Place::Between(Tail::Plain);

    /// The place after a frame that is to come back as it was.
    fn after_returned(self, fate: Fate) -> Option<Place>
        ensures { result ≡ spec.after_returned self fate }
    {
        match fate {
            Fate::Returned => Some(self),
            Fate::Lost => Some(Place::PLAIN),
            Fate::Altered | Fate::Taken(_) => None,
        }
    }

    /// The place after a data frame, with the place after one that came back as another.
    fn after_data(self, altered: Place, fate: Fate) -> Option<Place>
        ensures { result ≡ spec.after_data self altered fate }
    {
        match fate {
            Fate::Returned => Some(self),
            Fate::Altered => Some(altered),
            Fate::Lost => Some(Place::PLAIN),
            Fate::Taken(_) => None,
        }
    }

    /// The place after a frame that the host is to take.
    fn after_end(self, fate: Fate) -> Option<Place>
        ensures { result ≡ spec.after_end self fate }
    {
        match fate {
            Fate::Taken(0) => Some(self),
            Fate::Lost => Some(Place::PLAIN),
            Fate::Returned | Fate::Altered | Fate::Taken(_) => None,
        }
    }
}

/// The place after a start message.
fn after_start(fate: Fate) -> Option<Place>
    ensures { result ≡ spec.after_start fate }
{
    match fate {
        Fate::Returned => Some(Place::Answered),
        Fate::Taken(0) => None,
        Fate::Taken(party) => Some(Place::Talking(party, false)),
        Fate::Lost => Some(Place::PLAIN),
        Fate::Altered => None,
    }
}

/// The place after AAD 01 on a ring of so many devices.
fn after_address(devices: u8, outcome: Outcome) -> Option<Place>
    requires { devices ≤ 30 }
    ensures { result ≡ spec.after_address devices outcome }
{
    match outcome {
        Outcome::Back(back) if back.class() == Class::Rdy && back.byte() == 0x81 + devices => Some(
            Place::PLAIN,
        ),
        Outcome::Lost(_) => Some(Place::PLAIN),
        Outcome::Back(_) | Outcome::Taken(_) => None,
    }
}

/// The place after IDY 00.
fn after_identify(outcome: Outcome) -> Option<Place>
    ensures { result ≡ spec.after_identify outcome }
{
    match outcome {
        Outcome::Back(back) if matches!(back.class(), Class::Idy | Class::Isr) => Some(
            Place::PLAIN,
        ),
        Outcome::Lost(_) => Some(Place::PLAIN),
        Outcome::Back(_) | Outcome::Taken(_) => None,
    }
}

impl Tail {
    /// Whether data of the host may follow.
    fn hears(self) -> bool
        ensures { result ≡ spec.hears self }
    {
        matches!(self, Tail::Listen | Tail::Data)
    }

    /// What the log ends by after one more command, by its byte, which gives no talk address.
    fn after_command(self, byte: u8) -> Tail
        ensures { result ≡ spec.after_command self byte }
    {
        match (self, byte) {
            // UNL, a listen address and DDL
            (_, 0x3F) => Tail::Unlisten,
            (Tail::Unlisten, 0x20..=0x3E) => Tail::Listen,
            (Tail::Listen, 0xA0..=0xBF) => Tail::Data,
            _ => Tail::Plain,
        }
    }

    /// The place after a command, by its byte. A talk address, 40 to 5E hex, begins a receive after UNL alone.
    fn commanded(self, byte: u8, fate: Fate) -> Option<Place>
        ensures { result ≡ spec.commanded_at self byte fate }
    {
        match (self, byte) {
            (Tail::Unlisten, 0x40..=0x5E) => Place::Addressed.after_returned(fate),
            (_, 0x40..=0x5E) => None,
            _ => Place::Commanded(self.after_command(byte)).after_returned(fate),
        }
    }

    /// The place after a frame of the host between two exchanges.
    fn begun(self, devices: u8, frame: Frame, outcome: Outcome) -> Option<Place>
        requires { devices ≤ 30 }
        ensures { result ≡ spec.begun devices self frame outcome }
    {
        let fate = Fate::of(frame, outcome);
        match (frame.class(), frame.byte()) {
            (Class::Dab, _) if self.hears() => Place::Between(Tail::Data).after_data(
                Place::PLAIN,
                fate,
            ),
            (Class::Cmd, byte) => self.commanded(byte, fate),
            // AAD 01 and IDY 00
            (Class::Rdy, 0x81) => after_address(devices, outcome),
            (Class::Idy, 0x00) => after_identify(outcome),
            _ => None,
        }
    }
}

/// The place after an entry of the host with this frame, which is to come back.
fn after_frame(entry: Entry, frame: Frame, next: Place) -> Option<Place>
    ensures { result ≡ spec.after_frame frame next entry }
{
    if entry.source == 0 && entry.frame == frame {
        next.after_returned(Fate::of(entry.frame, entry.outcome))
    } else {
        None
    }
}

/// The place after an entry that is to be a start message of the host.
fn after_due_start(entry: Entry) -> Option<Place>
    ensures { result ≡ spec.after_due_start entry }
{
    match (entry.source, entry.frame.class(), entry.frame.byte()) {
        (0, Class::Rdy, 0x60..=0x63) => after_start(Fate::of(entry.frame, entry.outcome)),
        _ => None,
    }
}

/// The place after an entry that is to be a DDT or a start message of the host.
fn after_told(entry: Entry) -> Option<Place>
    ensures { result ≡ spec.after_told entry }
{
    match (entry.source, entry.frame.class(), entry.frame.byte()) {
        (0, Class::Cmd, 0xC0..=0xDF) => Place::Numbered.after_returned(Fate::of(
            entry.frame,
            entry.outcome,
        )),
        _ => after_due_start(entry),
    }
}

/// The place after an entry that is to be a data or end frame of this party.
fn after_spoken(party: u8, next: Place, entry: Entry) -> Option<Place>
    ensures { result ≡ spec.after_spoken party next entry }
{
    if entry.source == party && entry.frame.is_data() {
        next.after_data(Place::Failed(party), Fate::of(entry.frame, entry.outcome))
    } else {
        None
    }
}

/// The place after an entry that is to be this frame of this party, which the host takes.
fn after_end_frame(party: u8, frame: Frame, next: Place, entry: Entry) -> Option<Place>
    ensures { result ≡ spec.after_end_frame party frame next entry }
{
    if entry.source == party && entry.frame == frame {
        next.after_end(Fate::of(entry.frame, entry.outcome))
    } else {
        None
    }
}

/// The place after an entry while a party talks.
fn after_talk(party: u8, spoke: bool, entry: Entry) -> Option<Place>
    ensures { result ≡ spec.after_talk party spoke entry }
{
    if entry.source == 0 {
        after_frame(entry, Frame::of(Message::Nrd), Place::Stopping(party))
    } else if entry.frame.is_data() {
        after_spoken(party, Place::Talking(party, true), entry)
    } else if spoke {
        after_end_frame(party, Frame::of(Message::Eto), Place::Answered, entry)
    } else {
        None
    }
}

/// The place after an entry.
fn after(place: Place, devices: u8, entry: Entry) -> Option<Place>
    requires { devices ≤ 30 }
    ensures { result ≡ spec.step devices place entry }
{
    match place {
        Place::Between(tail) if entry.source == 0 => tail.begun(
            devices,
            entry.frame,
            entry.outcome,
        ),
        Place::Between(_) => None,
        Place::Commanded(tail) => after_frame(entry, Frame::of(Message::Rfc), Place::Between(tail)),
        Place::Addressed => after_frame(entry, Frame::of(Message::Rfc), Place::Told),
        Place::Told => after_told(entry),
        Place::Numbered => after_frame(entry, Frame::of(Message::Rfc), Place::Starting),
        Place::Starting => after_due_start(entry),
        Place::Talking(party, spoke) => after_talk(party, spoke, entry),
        Place::Stopping(party) => after_spoken(party, Place::Stopped(party), entry),
        Place::Stopped(party) => after_end_frame(
            party,
            Frame::of(Message::Eto),
            Place::Answered,
            entry,
        ),
        Place::Failed(party) => after_end_frame(
            party,
            Frame::of(Message::Ete),
            Place::PLAIN,
            entry,
        ),
        Place::Answered => after_frame(
            entry,
            Frame::of(Message::Unt),
            Place::Commanded(Tail::Plain),
        ),
    }
}

/// The place after an entry, where there may be none before it.
fn after_any(place: Option<Place>, devices: u8, entry: Entry) -> Option<Place>
    requires { devices ≤ 30 }
    ensures { result ≡ spec.step_from devices place entry }
{
    after(place?, devices, entry)
}

/// Whether there is a place.
fn is_open(place: Option<Place>) -> bool
    ensures { result ≡ spec.is_open place }
{
    place.is_some()
}

/// Whether there is a place, between two exchanges.
fn is_finished(place: Option<Place>) -> bool
    ensures { result ≡ spec.is_finished place }
{
    matches!(place, Some(Place::Between(_)))
}

/// A reader of a log that is to be a list of whole and broken exchanges of the host, one entry at a time. The
/// frames of each exchange and their order follow the HP-IL Interface Specification (HP 82166-90017).
#[derive(Drop)]
pub struct Exchanges {
    devices: u8,
    place: Option<Place>,
}

impl Model for Exchanges {
    ghost use Rattle.std.specs.Prelude.{◌≤◌};
    ghost use Rattle.trace_readers.specs.Exchanges.{Reader};

    ghost Value = { Reader };

    ghost view = { λ r. record { devices = r.devices; place = r.place } };

    ghost invariant = { λ r. r.devices ≤ 30 };
}

impl Exchanges {
    /// A ring of so many devices, up to 30, and no entry yet.
    pub fn new(devices: u8) -> Exchanges
        requires { devices ≤ 30 }
        ensures { IsReadAfter devices [] result }
    {
        Exchanges {
            devices,
            place: Some(Place::PLAIN),
        }
    }

    /// Reads the next entry. The answer is whether the entries so far, with this one, can go on so that the whole
    /// is a list of whole and broken exchanges. Once they cannot, no further entry mends it.
    pub fn take(&mut self, entry: Entry) -> bool
        ensures known { (k : ℕ) (log : List Entry) → IsReadAfter k log self.old →
            IsReadAfter k (log ++ entry ∷ []) self.new }
        ensures answer { (k : ℕ) (log : List Entry) → IsReadAfter k log self.old →
            (d : ℕ) → (result ≡ true) ↔ IsPrefix (host_loop k d) (log ++ entry ∷ []) }
    {
        let devices = self.devices;
        self.place = after_any(self.place, devices, entry);
        is_open(self.place)
    }

    /// Whether the entries so far are such a list as they are.
    pub fn may_end(&self) -> bool
        ensures { (k : ℕ) (log : List Entry) → IsReadAfter k log self.now →
            (d : ℕ) → (result ≡ true) ↔ Reading (host_loop k d) log }
    {
        is_finished(self.place)
    }
}
