#![tactic(auto)]

ghost use Rattle.std.specs.Prelude.{◌≡◌, ◌↔◌, ◌<◌, ◌&&◌, IsTrue, Some, None, true, false, not, is_some, if◌then◌else◌};
ghost use Rattle.il_frames.specs.Frames as frames;
ghost use Rattle.il_frames.specs.Messages.{message_of, is_in_range};
ghost use Rattle.il_poll.specs.Service.{wants_service, status_byte_of};
ghost use Rattle.il_device.specs.Interfaces.{InterfaceState, IsInterface, IsIdleInterface, fresh_interface};
ghost use Rattle.il_device.specs.Interfaces.{interface_after, obeyed, turn_on, placed, with_status};
ghost use Rattle.il_device.specs.Interfaces.{passed_on, identified_on, sending};
ghost use Rattle.il_device.specs.Passing as passing;
ghost use Rattle.il_device.specs.Roles.{own_after, assignment_after, is_data_message};
ghost use Rattle.il_device.specs.Takes.{count_after, turn_at, turn_at_data, turn_at_start};
ghost use Rattle.il_device.specs.Takes.{just_sent, eto, ete};
ghost use Rattle.il_device.specs.declared.device.Out.TheVariants.{Source};

use crate::device::Out;
use crate::roles::Roles;
use il_frames::{Class, Frame, Message};
use il_poll::ServiceState;
use std::marker::Model;

/// A data or end frame that a device sent, and that has not come back to it.
#[derive(Clone, Copy, PartialEq, Eq, Debug)]
pub struct OwnFrame {
    /// The frame as it was sent.
    pub frame: Frame,
    /// No other frame follows: after the right echo comes ETO.
    pub last: bool,
    /// NRD came: after the right echo comes ETO.
    pub stopped: bool,
}

/// What a frame asks of a device, before it has any effect.
#[derive(Clone, Copy, PartialEq, Eq, Debug)]
pub enum Turn {
    /// To pass it on.
    Pass,
    /// To hear its byte, and to pass it on.
    Hear,
    /// A start message to a talker: to send the first frame, or to pass it on.
    Begin,
    /// SAI to a talker: to send this accessory ID.
    Identify(u8),
    /// Data after an own frame: to compare the two.
    Compare(OwnFrame),
}

/// The part that every device has alike: its roles, its own frame on the loop, its service state, its
/// accessory ID, and the counts of the bytes that it heard and of the frames that it took.
#[derive(Debug, Drop)]
pub struct Interface {
    roles: Roles,
    own: Option<OwnFrame>,
    service: ServiceState,
    heard_count: u64,
    frames: u64,
    accessory: Option<u8>,
}

impl Model for Interface {
    ghost use Rattle.il_device.specs.Interfaces.{InterfaceState, IsInterface};

    ghost Value = { InterfaceState };

    ghost view = { λ i. record {
      roles = i.roles;
      own = i.own;
      service = i.service;
      heard_count = i.heard_count;
      frames = i.frames;
      accessory = i.accessory;
    } };

    ghost invariant = { λ i. IsInterface (record {
      roles = i.roles;
      own = i.own;
      service = i.service;
      heard_count = i.heard_count;
      frames = i.frames;
      accessory = i.accessory;
    }) };
}

impl Interface {
    /// Nothing has come yet: no role, no own frame, status 0, nothing heard and no frame taken.
    pub fn new(accessory: Option<u8>) -> Interface
        ensures { result ≡ fresh_interface accessory }
    {
        Interface {
            roles: Roles::NONE,
            own: None,
            service: ServiceState::new(),
            heard_count: 0,
            frames: 0,
            accessory,
        }
    }

    /// The roles.
    pub fn roles(&self) -> Roles
        ensures value { result ≡ self.now.roles }
        ensures standing { IsInterface self.now }
    {
        self.roles
    }

    /// The own frame on the loop.
    pub fn own(&self) -> Option<OwnFrame>
        ensures { result ≡ self.now.own }
    {
        self.own
    }

    /// Whether there is no address, no role, no place in a parallel poll and no own frame.
    pub fn is_idle(&self) -> bool
        ensures idle { IsTrue result ↔ IsIdleInterface self.now }
        ensures standing { IsInterface self.now }
    {
        self.roles == Roles::NONE && self.service.assignment().is_none() && self.own.is_none()
    }

    /// Whether the device wants service.
    pub fn wants(&self) -> bool
        ensures { result ≡ wants_service self.now.service.status }
    {
        self.service.wants()
    }

    /// The status, 0 to 63.
    pub fn status(&self) -> u8
        ensures value { result ≡ self.now.service.status }
        ensures range { result < 64 }
    {
        self.service.status()
    }

    /// The byte that answers SST.
    pub fn status_byte(&self) -> u8
        ensures { result ≡ status_byte_of self.now.service.status }
    {
        self.service.status_byte()
    }

    /// Sets the status, a number below 64.
    pub fn set_status(&mut self, status: u8)
        requires { status < 64 }
        ensures { self.new ≡ with_status self.old status }
    {
        self.service.set(status);
    }

    /// How many frames were taken. The count stays at its greatest value.
    pub fn frames(&self) -> u64
        ensures { result ≡ self.now.frames }
    {
        self.frames
    }

    /// How many bytes were heard. The count stays at its greatest value.
    pub fn heard_count(&self) -> u64
        ensures { result ≡ self.now.heard_count }
    {
        self.heard_count
    }

    /// The byte that answers SAI, if there is one.
    pub fn accessory(&self) -> Option<u8>
        ensures { result ≡ self.now.accessory }
    {
        self.accessory
    }

    /// What a message that is no data and no end asks of the device.
    fn turn(&self, message: Message) -> Turn
        requires other { is_data_message message ≡ false }
        ensures { result ≡ turn_at self.now.roles self.now.own self.now.accessory message }
    {
        match message {
            Message::Sda | Message::Sst | Message::Sdi => self.turn_at_start(Turn::Begin),
            Message::Sai => match self.accessory {
                Some(id) => self.turn_at_start(Turn::Identify(id)),
                None => Turn::Pass,
            },
            _ => Turn::Pass,
        }
    }

    /// What a data or end frame asks.
    fn turn_at_data(&self) -> Turn
        ensures { result ≡ turn_at_data self.now.own self.now.roles.listens }
    {
        match self.own {
            Some(own) => Turn::Compare(own),
            None if self.roles.listens => Turn::Hear,
            None => Turn::Pass,
        }
    }

    /// What a start message asks.
    fn turn_at_start(&self, asked: Turn) -> Turn
        ensures { result ≡ turn_at_start self.now.own self.now.roles.talks asked }
    {
        if self.own.is_none() && self.roles.talks {
            asked
        } else {
            Turn::Pass
        }
    }

    /// Whether it is a data or end frame that the device neither hears nor compares with one of its own.
    pub(crate) fn only_passes(&self, frame: Frame) -> bool
        ensures { result ≡ (frames.is_data frame && (not (is_some self.now.own) && not self.now.roles.listens)) }
    {
        frame.is_data() && self.own.is_none() && !self.roles.listens
    }

    /// What the frame does to every device alike, and what it asks of this one. It comes before the
    /// answer.
    #[inline(always)]
    pub fn effect(&mut self, frame: Frame) -> Turn
        ensures turn { result ≡ turn_on self.old frame }
        ensures state { self.new ≡ interface_after self.old frame }
        ensures standing { IsInterface self.new }
    {
        let turn = if frame.is_data() {
            self.turn_at_data()
        } else if frame.class() == Class::Rdy && frame.byte() == 0 {
            // RFC follows every command and does nothing to a device, so its message is not looked for.
            Turn::Pass
        } else {
            self.obey(frame)
        };
        self.count_hearing(turn);
        self.frames = self.frames.saturating_add(1);
        turn
    }

    /// Counts the byte where the frame asks the device to hear it.
    fn count_hearing(&mut self, turn: Turn)
        ensures { self.new ≡ record self.old { heard_count = count_after turn self.old.heard_count } }
    {
        match turn {
            Turn::Hear => self.heard_count = self.heard_count.saturating_add(1),
            _ => {}
        }
    }

    /// What a frame that is no data and no end does to every device alike but to the counts, and what
    /// it asks of this one. It stands apart, so that the way of a data frame stays short.
    #[inline(never)]
    fn obey(&mut self, frame: Frame) -> Turn
        requires other { frames.is_data frame ≡ false }
        ensures turn { result ≡ turn_on self.old frame }
        ensures state { self.new ≡ obeyed self.old (message_of frame) }
    {
        let message = said(frame);
        let turn = self.turn(message);
        let roles = self.roles;
        self.own = own_behind(roles, self.own, message);
        self.roles = roles.after(message);
        poll(&mut self.service, roles, message);
        turn
    }

    /// The frame that goes on, after its effect. As it came the roles were `before`.
    #[inline(always)]
    pub fn passed(&self, before: Roles, frame: Frame) -> Frame
        ensures { result ≡ passed_on self.now before frame }
    {
        if frame.is_data() {
            served(self.wants(), frame)
        } else if frame.class() == Class::Cmd
            || (frame.class() == Class::Rdy && frame.byte() == 0)
        {
            // No device changes a command or RFC. The class and the byte show that, so the message is not looked for.
            frame
        } else {
            self.passed_other(before, frame)
        }
    }

    /// The same of a frame that is no data and no end. It stands apart, so that the way of a data
    /// frame stays short.
    #[inline(never)]
    fn passed_other(&self, before: Roles, frame: Frame) -> Frame
        requires other { frames.is_data frame ≡ false }
        ensures { result ≡ passed_on self.now before frame }
    {
        match said(frame) {
            Message::Idy(_) | Message::Isr(_) => self.identified(frame),
            // The next device gets the next address. After AAD 30 that frame is IAA.
            Message::Aad(address) if before.takes_address(address) => {
                Frame::new(Class::Rdy, frame.byte() + 1)
            }
            _ => frame,
        }
    }

    /// The identify frame that goes on.
    fn identified(&self, frame: Frame) -> Frame
        ensures { result ≡ identified_on self.now frame }
    {
        let byte = self.service.on_idy(frame.byte());
        served(self.wants(), Frame::new(frame.class(), byte))
    }

    /// Sends a data or end frame, which is then the own frame on the loop. `last` says that no other
    /// follows.
    pub fn source(&mut self, frame: Frame, last: bool) -> Out
        requires talks { self.old.roles.talks ≡ true }
        requires data { frames.is_data frame ≡ true }
        ensures answer { result ≡ Source frame }
        ensures state { self.new ≡ sending self.old (Some (just_sent frame last)) }
        ensures standing { IsInterface self.new }
    {
        self.own = Some(OwnFrame {
            frame,
            last,
            stopped: false,
        });
        Out::Source(frame)
    }

    /// Ends the transmission: by ETO where the echo of the own frame was right, and else by ETE.
    pub fn finish(&mut self, echoed: bool) -> Out
        ensures answer { result ≡ Source (if echoed then eto else ete) }
        ensures state { self.new ≡ sending self.old None }
        ensures standing { IsInterface self.new }
    {
        self.own = None;
        Out::Source(Frame::of(if echoed { Message::Eto } else { Message::Ete }))
    }
}

impl OwnFrame {
    /// Whether the frame is the right echo: it equals the own frame apart from the service bit.
    pub fn is_echo(self, frame: Frame) -> bool
        ensures { result ≡ frames.same_but_service self.frame frame }
    {
        // Mostly the two are equal, which is soon seen.
        self.frame == frame || self.frame.same_but_service(frame)
    }
}

/// What a frame that is no data and no end says, which is no data and no end message.
fn said(frame: Frame) -> Message
    requires other { frames.is_data frame ≡ false }
    ensures value { result ≡ message_of frame }
    ensures range { is_in_range result ≡ true }
    ensures other { is_data_message result ≡ false }
{
    frame.message()
}

/// The frame as it goes on, its service bit set where service is wanted.
fn served(wants: bool, frame: Frame) -> Frame
    ensures { result ≡ passing.served wants frame }
{
    if wants { frame.with_service() } else { frame }
}

/// The own frame after a message.
fn own_behind(roles: Roles, own: Option<OwnFrame>, message: Message) -> Option<OwnFrame>
    ensures { result ≡ own_after roles own message }
{
    match message {
        Message::Ifc | Message::Aau | Message::Tad(_) | Message::Unt => None,
        Message::Lad(address) if roles.is_own(address) => None,
        Message::Nrd => {
            let own = own?;
            Some(OwnFrame {
                stopped: true,
                ..own
            })
        }
        _ => own,
    }
}

/// What a message does to the place in a parallel poll.
fn poll(service: &mut ServiceState, roles: Roles, message: Message)
    requires { is_in_range message ≡ true }
    ensures { service.new ≡ placed service.old (assignment_after roles service.old.assignment message) }
{
    match message {
        Message::Ppe(n) if roles.listens => service.on_ppe(n),
        Message::Ppd if roles.listens => service.on_ppd(),
        Message::Ppu => service.on_ppd(),
        _ => {}
    }
}
