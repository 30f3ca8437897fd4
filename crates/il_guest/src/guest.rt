#![tactic(auto)]

ghost use Rattle.std.specs.Prelude.{◌≡◌, ◌⊎◌, ◌↔◌, ◌≤◌, IsTrue, true};
ghost use Rattle.il_frames.specs.Messages.{message_of};
ghost use Rattle.il_device.specs.State.{IsDevice, IsIdle};
ghost use Rattle.il_frames.specs.NamedFrames as named;
ghost use Rattle.il_guest.specs.State.{GuestState, IsGuest, fresh_guest, is_leading};
ghost use Rattle.il_guest.specs.Frames.{nop};
ghost use Rattle.il_guest.specs.Steps.{IsNoted, noted, out_of};
ghost use Rattle.il_guest.specs.Takes.{GuestTakes, passed_by, under_host, taking_control, leading};
ghost use Rattle.il_guest.specs.Takes as takes;
ghost use Rattle.il_guest.specs.declared.guest.GuestOut.TheVariants.{Pass, Source};
ghost use Rattle.il_guest.specs.declared.control.Control.TheVariants as control;

use crate::control::{Command, Control, Place};
use il_device::Interface;
use il_frames::{Frame, Message};
use std::marker::Model;

/// How many addresses there are, 0 to 30.
const ADDRESSES: usize = 31;

/// What a second controller does with a frame.
#[derive(Clone, Copy, PartialEq, Eq, Debug)]
pub enum GuestOut {
    /// It passes this frame on.
    Pass(Frame),
    /// It takes the frame in, and sends this one of its own.
    Source(Frame),
    /// It takes the frame in, and the frame of another that it held goes on.
    Relay(Frame),
    /// It takes the frame in, and answers nothing until an IFC comes.
    Stop,
}

/// A second controller, which polls.
///
/// Until it takes control it is a device like every other, which answers no start message and never
/// wants service. It takes control by TCT while it talks. It then makes rounds: NOP, and for each address
/// from 1 to `last` but its own UNL, TAD, SST and UNT, each command with RFC after it. It stops the
/// answer to SST after one byte by NRD. A frame that it does not wait for silences it, ETE among them.
/// IFC ends its control.
#[derive(Debug, Drop)]
pub struct Guest {
    interface: Interface,
    last: u8,
    control: Control,
    found: [Option<u8>; ADDRESSES],
}

impl Model for Guest {
    ghost use Rattle.std.specs.Prelude.{◌≡◌, ◌≤◌, None, length};
    ghost use Rattle.il_device.specs.Interfaces.{IsInterface};
    ghost use Rattle.il_guest.specs.Steps.{IsControl};
    ghost use Rattle.il_guest.specs.State.{GuestState, guest_device};

    ghost Value = { GuestState };

    ghost view = { λ g. record {
      device = guest_device g.interface g.control;
      last = g.last;
      control = g.control;
      found = g.found;
    } };

    ghost invariant = { λ g. IsInterface g.interface
        × (g.interface.own ≡ None)
        × (g.interface.accessory ≡ None)
        × (g.interface.service.status ≡ 0)
        × ((1 ≤ g.last) × (g.last ≤ 30))
        × IsControl g.control
        × (length g.found ≡ 31) };
}

impl Guest {
    /// A second controller that nothing has come to yet. It will ask the addresses up to `last`, 1 to 30.
    pub fn new(last: u8) -> Guest
        requires { (1 ≤ last) × (last ≤ 30) }
        ensures { result ≡ fresh_guest last }
    {
        Guest {
            interface: Interface::new(None),
            last,
            control: Control::Host,
            found: [None; ADDRESSES],
        }
    }

    /// Whether the host controls the loop, and there is no address, no role and no place in a parallel
    /// poll. That it keeps its rules is seen here too.
    pub fn is_idle(&self) -> bool
        ensures idle { IsTrue result ↔ (IsIdle self.now.device × (self.now.control ≡ control.Host)) }
        ensures guest { IsGuest self.now }
    {
        self.control == Control::Host && self.interface.is_idle()
    }

    /// Whether it controls the loop, also where it answers nothing any more.
    pub fn in_control(&self) -> bool
        ensures { result ≡ is_leading self.now.control }
    {
        self.control != Control::Host
    }

    /// The last address that it asks, 1 to 30.
    pub fn last(&self) -> u8
        ensures value { result ≡ self.now.last }
        ensures range { (1 ≤ result) × (result ≤ 30) }
    {
        self.last
    }

    /// By address, 0 to 30, the last status byte since it took control; `None` where there is none.
    pub fn found(&self) -> &[Option<u8>; 31]
        ensures { result.now ≡ self.now.found }
    {
        &self.found
    }

    /// The frame comes: its effect comes first, and the answer after it.
    pub fn take(&mut self, frame: Frame) -> GuestOut
        ensures { GuestTakes self.old frame result self.new }
    {
        match self.control {
            Control::Host if is_tct(frame) && self.interface.roles().talks => {
                self.take_control(frame)
            }
            Control::Rounds(place) if !is_ifc(frame) => self.lead(place, frame),
            Control::Silent if !is_ifc(frame) => GuestOut::Stop,
            _ => self.pass(frame),
        }
    }

    /// It passes the frame as every device does, and the host controls then.
    fn pass(&mut self, frame: Frame) -> GuestOut
        requires passes { (self.old.control ≡ control.Host) ⊎ (named.is_ifc (message_of frame) ≡ true) }
        ensures answer { result ≡ Pass (passed_by self.old.device frame) }
        ensures state { self.new ≡ under_host self.old frame }
        ensures guest { IsGuest self.new }
    {
        let before = self.interface.roles();
        self.interface.effect(frame);
        self.control = Control::Host;
        GuestOut::Pass(self.interface.passed(before, frame))
    }

    /// It takes control, and sends its first frame.
    fn take_control(&mut self, frame: Frame) -> GuestOut
        requires host { self.old.control ≡ control.Host }
        ensures answer { result ≡ Source nop }
        ensures state { self.new ≡ taking_control self.old frame }
        ensures guest { IsGuest self.new }
    {
        self.interface.effect(frame);
        self.found = [None; ADDRESSES];
        self.control = Control::Rounds(Place::Command(Command::Nop));
        self.control.out()
    }

    /// It goes on in its rounds. What its own frame does to its roles is done as the next frame comes;
    /// contracts see it as soon as the frame goes out.
    fn lead(&mut self, place: Place, frame: Frame) -> GuestOut
        requires rounds { self.old.control ≡ control.Rounds place }
        ensures answer { result ≡ out_of self.new.control }
        ensures state { self.new ≡ leading self.old place frame }
        ensures guest { IsGuest self.new }
    {
        self.interface.effect(place.sent());
        note(&mut self.found, place.told(frame));
        let own = self.interface.roles().address;
        self.control = place.after(own, self.last, frame);
        self.control.out()
    }
}

/// Keeps what was told of an address.
fn note(found: &mut [Option<u8>; ADDRESSES], told: Option<(u8, Option<u8>)>)
    requires { IsNoted told }
    ensures { found.new ≡ noted told found.old }
{
    if let Some((address, status)) = told {
        found[address as usize] = status;
    }
}

/// Whether the frame is interface clear.
fn is_ifc(frame: Frame) -> bool
    ensures { result ≡ named.is_ifc (message_of frame) }
{
    matches!(frame.message(), Message::Ifc)
}

/// Whether the frame is take control.
fn is_tct(frame: Frame) -> bool
    ensures { result ≡ takes.is_tct (message_of frame) }
{
    matches!(frame.message(), Message::Tct)
}
