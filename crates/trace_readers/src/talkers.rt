#![tactic(auto)]

ghost use Rattle.std.specs.Prelude.{◌≡◌, ◌≤◌, ◌&&◌, ℕ, List, [], ◌∷◌, ◌++◌, length};
ghost use Rattle.std.specs.List.{position, count_by};
ghost use Rattle.il_frames.specs.declared.entry.Entry.{Entry};
ghost use Rattle.loop_model.specs.Roles.{talkers};
ghost use Rattle.loop_model.specs.Roles as model;
ghost use Rattle.loop_model.specs.Reach as reach;
ghost use Rattle.trace_readers.specs.Talkers.{IsTalkAfter, is_talker};

use il_device::Roles;
use il_frames::{Entry, Message, Outcome};
use std::marker::Model;

/// The most devices that a ring has.
const MOST: usize = 30;

/// Who talks on a ring of up to 30 devices, by a log that is read one entry at a time, by the talker
/// function of the HP-IL Interface Specification (HP 82166-90017).
#[derive(Drop)]
pub struct Talkers {
    roles: [Roles; MOST],
    devices: usize,
    had_one: bool,
}

impl Model for Talkers {
    ghost use Rattle.std.specs.Prelude.{◌≤◌, take};
    ghost use Rattle.trace_readers.specs.Talkers.{Talk};

    ghost Value = { Talk };

    ghost view = { λ t. record { roles = take t.devices t.roles; had_one = t.had_one } };

    ghost invariant = { λ t. t.devices ≤ 30 };
}

/// Whether a frame of the host that ended so reached this device.
fn is_reached(outcome: Outcome, party: u8) -> bool
    requires { 1 ≤ party }
    ensures { result ≡ reach.is_reached 0 outcome party }
{
    match outcome {
        Outcome::Back(_) => true,
        Outcome::Taken(taker) => party <= taker,
        Outcome::Lost(last) => last == 0 || party < last,
    }
}

/// The message as a device with these roles passes it on.
fn passed_on(message: Message, roles: Roles) -> Message
    ensures { result ≡ model.passed_on message roles }
{
    match message {
        Message::Aad(30) if roles.takes_address(30) => Message::Iaa,
        Message::Aad(address) if roles.takes_address(address) => Message::Aad(address + 1),
        _ => message,
    }
}

/// A message of the host that ended so passes the devices.
fn pass(devices: &mut [Roles], outcome: Outcome, message: Message)
    requires { length devices.old ≤ 30 }
    ensures { devices.new ≡ model.roles_along 0 outcome 1 message devices.old }
{
    let mut message = message;
    for place in 0..devices.len() {
        if is_reached(outcome, place as u8 + 1) {
            let roles = devices[place];
            devices[place] = roles.after(message);
            message = passed_on(message, roles);
        }
    }
}

/// The place of the first device that talks, from 0.
fn first_talker(devices: &[Roles]) -> Option<usize>
    ensures { result ≡ position is_talker devices.now }
{
    devices.iter().position(|roles| roles.talks)
}

/// How many of the devices talk.
fn talker_count(devices: &[Roles]) -> usize
    ensures { result ≡ count_by is_talker devices.now }
{
    devices.iter().filter(|roles| roles.talks).count()
}

/// Whether at most one of the devices talks.
fn is_at_most_one(devices: &[Roles]) -> bool
    ensures { result ≡ model.is_at_most_one (talkers devices.now) }
{
    talker_count(devices) <= 1
}

/// Whether it is a message that only a talking device sends.
fn is_end_of_talk(message: Message) -> bool
    ensures { result ≡ model.is_end_of_talk message }
{
    matches!(message, Message::Eto | Message::Ete)
}

/// Whether it is a message for the talker, or for the host where no device talks.
fn is_spoken(message: Message) -> bool
    ensures { result ≡ model.is_spoken message }
{
    match message {
        Message::Dab(_) | Message::Dsr(_) | Message::End(_) | Message::Esr(_) => true,
        _ => is_end_of_talk(message),
    }
}

/// Whether the talker leaves it to this party to send such a message.
fn may_speak(devices: &[Roles], party: u8, message: Message) -> bool
    requires { length devices.now ≤ 30 }
    ensures { result ≡ model.may_speak (talkers devices.now) party message }
{
    match first_talker(devices) {
        Some(place) => party as usize == place + 1,
        None => party == 0 && !is_end_of_talk(message),
    }
}

/// Whether the entry, if it is spoken, is one of the party whose turn it is.
fn is_in_turn(devices: &[Roles], entry: Entry) -> bool
    requires { length devices.now ≤ 30 }
    ensures { result ≡ model.is_in_turn (talkers devices.now) entry }
{
    let message = entry.frame.message();
    !is_spoken(message) || may_speak(devices, entry.source, message)
}

/// Reads an entry. The answer is whether it is in turn, and leaves at most one talker.
fn read(devices: &mut [Roles], entry: Entry) -> bool
    requires { length devices.old ≤ 30 }
    ensures roles { devices.new ≡ model.roles_after_entry devices.old entry }
    ensures answer { result ≡ (model.is_in_turn (talkers devices.old) entry
        && model.is_at_most_one (talkers devices.new)) }
{
    let is_in_turn = is_in_turn(devices, entry);
    if entry.source == 0 {
        pass(devices, entry.outcome, entry.frame.message());
    }
    is_in_turn && is_at_most_one(devices)
}

impl Talkers {
    /// So many devices that begin with no roles, 1 to 30, and no entry yet.
    pub fn new(devices: u8) -> Talkers
        requires { (1 ≤ devices) × (devices ≤ 30) }
        ensures { IsTalkAfter devices [] result }
    {
        Talkers {
            roles: [Roles::NONE; MOST],
            devices: devices as usize,
            had_one: true,
        }
    }

    /// Reads the next entry. The answer is whether in all the entries so far at most one device talked at
    /// every moment, and each data or end frame, ETO and ETE was the talker's own, or a data or end frame
    /// of the host where no device talked.
    pub fn take(&mut self, entry: Entry) -> bool
        ensures known { (k : ℕ) (log : List Entry) → IsTalkAfter k log self.old →
            IsTalkAfter k (log ++ entry ∷ []) self.new }
        ensures answer { result ≡ self.new.had_one }
    {
        let count = self.devices;
        self.had_one &= read(&mut self.roles[..count], entry);
        self.had_one
    }
}
