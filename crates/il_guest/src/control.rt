#![tactic(auto)]

ghost use Rattle.std.specs.Prelude.{◌≡◌, ◌≤◌};
ghost use Rattle.il_frames.specs.NamedFrames.{is_frame};
ghost use Rattle.il_guest.specs.Steps.{IsAsked, IsNumber, IsRoundPlace, IsControl, IsNoted, command_frame, sent_at, out_at, out_of};
ghost use Rattle.il_guest.specs.Steps.{passed_over, command_then, control_after, told_at};
ghost use Rattle.il_guest.specs.Steps as steps;
ghost use Rattle.il_guest.specs.declared.control.Command.TheVariants as command;
ghost use Rattle.il_guest.specs.declared.control.Place.TheVariants as place;

use crate::guest::GuestOut;
use il_frames::{Frame, Message};

/// A command of the rounds. The address, 1 to 30, is the one that is asked for its status.
#[derive(Clone, Copy, PartialEq, Eq, Debug)]
pub enum Command {
    /// No operation, with which each round begins.
    Nop,
    /// Unlisten, before this address is asked.
    Unl(u8),
    /// The talk address.
    Tad(u8),
    /// Untalk, after this address was asked.
    Unt(u8),
}

/// A place in the rounds: what the second controller sent last, and waits for.
#[derive(Clone, Copy, PartialEq, Eq, Debug)]
pub enum Place {
    /// The command, which is to come back.
    Command(Command),
    /// RFC after this command.
    Ready(Command),
    /// SST to this address.
    Start(u8),
    /// NRD, while this data frame of the address is held.
    Held(u8, Frame),
    /// The data frame of this address, which goes on; its ETO is to come.
    Relayed(u8, Frame),
}

/// Who controls the loop.
#[derive(Clone, Copy, PartialEq, Eq, Debug)]
pub enum Control {
    /// The host: the second controller is a device like every other.
    Host,
    /// The second controller, which stands at this place in its rounds.
    Rounds(Place),
    /// The second controller, which answers nothing any more until an IFC comes.
    Silent,
}

impl Command {
    /// The frame.
    fn frame(self) -> Frame
        requires { IsAsked self }
        ensures { result ≡ command_frame self }
    {
        match self {
            Command::Nop => Frame::of(Message::Nop),
            Command::Unl(_) => Frame::of(Message::Unl),
            Command::Tad(address) => Frame::of(Message::Tad(address)),
            Command::Unt(_) => Frame::of(Message::Unt),
        }
    }

    /// Where the controller goes on after this command and its RFC.
    fn next(self, own: Option<u8>, last: u8) -> Place
        requires asked { IsAsked self }
        requires last { last ≤ 30 }
        ensures value { result ≡ command_then own last self }
        ensures range { IsRoundPlace result }
    {
        match self {
            Command::Nop => Place::Command(asking(own, last, 1)),
            Command::Unl(address) => Place::Command(Command::Tad(address)),
            Command::Tad(address) => Place::Start(address),
            Command::Unt(address) => Place::Command(asking(own, last, address + 1)),
        }
    }
}

impl Place {
    /// The frame of its own that the controller sent last.
    pub(crate) fn sent(self) -> Frame
        requires { IsRoundPlace self }
        ensures { result ≡ sent_at self }
    {
        match self {
            Place::Command(command) => command.frame(),
            Place::Ready(_) => Frame::of(Message::Rfc),
            Place::Start(_) => Frame::of(Message::Sst),
            Place::Held(_, _) | Place::Relayed(_, _) => Frame::of(Message::Nrd),
        }
    }

    /// Where the controller stands after the frame came. It has the address `own`, and asks those up to
    /// `last`.
    pub(crate) fn after(self, own: Option<u8>, last: u8, frame: Frame) -> Control
        requires place { IsRoundPlace self }
        requires last { last ≤ 30 }
        ensures value { result ≡ control_after own last self frame }
        ensures range { IsControl result }
    {
        match self {
            Place::Command(command) => expecting(frame, command.frame(), Place::Ready(command)),
            Place::Ready(command) => expecting(
                frame,
                Frame::of(Message::Rfc),
                command.next(own, last),
            ),
            Place::Start(address) if frame.is_data() => Control::Rounds(Place::Held(
                address, frame,
            )),
            Place::Start(address) => expecting(frame, Frame::of(Message::Sst), untalked(address)),
            Place::Held(address, held) => {
                expecting(
                    frame,
                    Frame::of(Message::Nrd),
                    Place::Relayed(address, held),
                )
            }
            Place::Relayed(address, _) => expecting(
                frame,
                Frame::of(Message::Eto),
                untalked(address),
            ),
        }
    }

    /// What the frame tells of an address: that it told no status, or its status byte.
    pub(crate) fn told(self, frame: Frame) -> Option<(u8, Option<u8>)>
        requires { IsRoundPlace self }
        ensures value { result ≡ told_at self frame }
        ensures range { IsNoted result }
    {
        match self {
            Place::Start(address) if frame == Frame::of(Message::Sst) => Some((address, None)),
            Place::Relayed(address, held) if frame == Frame::of(Message::Eto) => Some((
                address,
                Some(held.byte()),
            )),
            _ => None,
        }
    }

    /// What goes out as the controller comes to this place.
    fn out(self) -> GuestOut
        requires { IsRoundPlace self }
        ensures { result ≡ out_at self }
    {
        match self {
            Place::Relayed(_, held) => GuestOut::Relay(held),
            _ => GuestOut::Source(self.sent()),
        }
    }
}

impl Control {
    /// What the controller answers as it comes to this.
    pub(crate) fn out(self) -> GuestOut
        requires { IsControl self }
        ensures { result ≡ out_of self }
    {
        match self {
            Control::Rounds(place) => place.out(),
            Control::Host | Control::Silent => GuestOut::Stop,
        }
    }
}

/// The next place where the frame is the one that is waited for, and else silence.
fn expecting(frame: Frame, waited_for: Frame, next: Place) -> Control
    requires { IsRoundPlace next }
    ensures value { result ≡ steps.expecting (is_frame frame waited_for) next }
    ensures range { IsControl result }
{
    if frame == waited_for {
        Control::Rounds(next)
    } else {
        Control::Silent
    }
}

/// UNT after this address was asked.
fn untalked(address: u8) -> Place
    requires { IsNumber address }
    ensures value { result ≡ place.Command (command.Unt address) }
    ensures range { IsRoundPlace result }
{
    Place::Command(Command::Unt(address))
}

/// The command that begins with this address, or with the next one where this is the own one; a new
/// round where it is past the last one.
fn asking(own: Option<u8>, last: u8, address: u8) -> Command
    requires address { (1 ≤ address) × (address ≤ 31) }
    requires last { last ≤ 30 }
    ensures value { result ≡ steps.asking last (passed_over own address) }
    ensures range { IsAsked result }
{
    let address = if own == Some(address) {
        address + 1
    } else {
        address
    };
    if address <= last {
        Command::Unl(address)
    } else {
        Command::Nop
    }
}
