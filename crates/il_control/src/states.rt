ghost use Rattle.std.specs.Prelude.{◌≡◌, ◌≤◌, ◌<◌, ◌+◌, ◌*◌, [], true, length, IfSome, IfOk, IfErr, not, is_some};
ghost use Rattle.il_frames.specs.Messages.{message_of};
ghost use Rattle.loop_model.specs.Exchanges.Exchange.{Command, Identify, Send};
ghost use Rattle.il_ring.specs.Rings.{spare_of, devices_of, ring_emptied};
ghost use Rattle.il_ring.specs.Lists.{Each};
ghost use Rattle.il_ring.specs.Polls.{identified_along};
ghost use Rattle.il_control.specs.Calls.{idy, IsIdle, IsLost, is_command, Made, BrokenOff, Obeyed, ObeyedInPart, AllStay, Resumed, NotResumed, IsTold, Sent, NotSent};
ghost use Rattle.il_control.specs.Receives.{start_of, Received, NotReceived};
ghost use Rattle.il_control.specs.Lent.{LendBroken, LendMade};

use crate::exchanges;
use crate::exchanges::Broken;
use crate::frames::Sot;
use il_device::Device;
use il_frames::Frame;
use il_ports::Medium;
use il_ring::{Ring, Seen};
use std::marker::PhantomData;

/// No device talks.
#[derive(Drop)]
pub struct Idle<M: Medium> {
    ring: Ring<M>,
    devices: PhantomData<Box<dyn Device>>,
}

/// The host sends to a device that listens.
#[derive(Drop)]
pub struct Sending<M: Medium> {
    ring: Ring<M>,
    devices: PhantomData<Box<dyn Device>>,
}

/// An exchange was broken off, or none was made yet.
#[derive(Drop)]
pub struct Lost<M: Medium> {
    ring: Ring<M>,
    devices: PhantomData<Box<dyn Device>>,
}

impl<M: Medium> Seen<M> for Idle<M> {
    ghost use Rattle.il_ring.specs.Seen.{ring_seen};

    ghost seen = { λ s. ring_seen (λ b. (Device-box b).state b.value) s.ring };
}

impl<M: Medium> Seen<M> for Lost<M> {
    ghost use Rattle.il_ring.specs.Seen.{ring_seen};

    ghost seen = { λ s. ring_seen (λ b. (Device-box b).state b.value) s.ring };
}

impl<M: Medium> Seen<M> for Sending<M> {
    ghost use Rattle.il_ring.specs.Seen.{ring_seen};

    ghost seen = { λ s. ring_seen (λ b. (Device-box b).state b.value) s.ring };
}

impl<M: Medium> Sending<M> {
    /// Sends a byte, which each listening device hears. It was sent if its frame came back the
    /// same apart from the service bit.
    pub fn byte(self, byte: u8) -> Result<Sending<M>, Lost<M>>
        requires room { 33 ≤ spare_of (⟦<Sending<M> as Seen<M>>⟧.seen self) }
        requires idle { IsIdle (⟦<Sending<M> as Seen<M>>⟧.seen self) }
        ensures sent { IfOk result (λ sending. Sent M.view byte (⟦<Sending<M> as Seen<M>>⟧.seen self) (⟦<Sending<M> as Seen<M>>⟧.seen sending)) }
        ensures not_sent { IfErr result (λ lost. NotSent M.view byte (⟦<Sending<M> as Seen<M>>⟧.seen self) (⟦<Lost<M> as Seen<M>>⟧.seen lost)) }
    {
        let Sending { mut ring, devices } = self;
        match exchanges::send_byte(&mut ring, byte) {
            Ok(()) => Ok(Sending { ring, devices }),
            Err(Broken) => Err(Lost { ring, devices }),
        }
    }

    /// Ends the send.
    pub fn done(self) -> Idle<M>
        ensures { ⟦<Idle<M> as Seen<M>>⟧.seen result ≡ ⟦<Sending<M> as Seen<M>>⟧.seen self }
    {
        let Sending { ring, devices } = self;
        Idle { ring, devices }
    }

    /// The ring.
    pub fn ring(&self) -> &Ring<M>
        ensures { ⟦<Ring<M> as Seen<M>>⟧.seen result.now ≡ ⟦<Sending<M> as Seen<M>>⟧.seen self.now }
    {
        &self.ring
    }

    /// Empties the log of the ring.
    pub fn clear_log(&mut self)
        requires idle { IsIdle (⟦<Sending<M> as Seen<M>>⟧.seen self.old) }
        ensures { ⟦<Sending<M> as Seen<M>>⟧.seen self.new ≡ ring_emptied (⟦<Sending<M> as Seen<M>>⟧.seen self.old) }
    {
        self.ring.clear_log();
    }
}

impl<M: Medium> Lost<M> {
    /// The controller of a ring. No frame is held, and at most one device talks.
    pub fn new(ring: Ring<M>) -> Lost<M>
        requires { IsLost (⟦<Ring<M> as Seen<M>>⟧.seen ring) }
        ensures { ⟦<Lost<M> as Seen<M>>⟧.seen result ≡ ⟦<Ring<M> as Seen<M>>⟧.seen ring }
    {
        Lost {
            ring,
            devices: PhantomData,
        }
    }

    /// Clears the interface, takes all addresses away and gives each device its number as address,
    /// counted from the host's output. Answers how many there are, 1 to 30.
    pub fn resume(self) -> Result<(Idle<M>, u8), Lost<M>>
        requires room { 37 ≤ spare_of (⟦<Lost<M> as Seen<M>>⟧.seen self) }
        requires lost { IsLost (⟦<Lost<M> as Seen<M>>⟧.seen self) }
        ensures resumed { IfOk result (λ told. Resumed M.view told.1 (⟦<Lost<M> as Seen<M>>⟧.seen self) (⟦<Idle<M> as Seen<M>>⟧.seen told.0)) }
        // No device hears anything, and each keeps its place in the parallel poll and its wish for service.
        ensures stays { IfOk result (λ told. AllStay true (⟦<Lost<M> as Seen<M>>⟧.seen self) (⟦<Idle<M> as Seen<M>>⟧.seen told.0)) }
        ensures stays_lost { IfErr result (λ lost. AllStay true (⟦<Lost<M> as Seen<M>>⟧.seen self) (⟦<Lost<M> as Seen<M>>⟧.seen lost)) }
        ensures not_resumed { IfErr result (λ lost. NotResumed M.view (⟦<Lost<M> as Seen<M>>⟧.seen self) (⟦<Lost<M> as Seen<M>>⟧.seen lost)) }
    {
        let Lost { mut ring, devices } = self;
        match exchanges::resume(&mut ring) {
            Ok(count) => Ok((Idle { ring, devices }, count)),
            Err(Broken) => Err(Lost { ring, devices }),
        }
    }

    /// The ring, as it is.
    pub fn into_ring(self) -> Ring<M>
        ensures { ⟦<Ring<M> as Seen<M>>⟧.seen result ≡ ⟦<Lost<M> as Seen<M>>⟧.seen self }
    {
        let Lost { ring, .. } = self;
        ring
    }

    /// The ring.
    pub fn ring(&self) -> &Ring<M>
        ensures { ⟦<Ring<M> as Seen<M>>⟧.seen result.now ≡ ⟦<Lost<M> as Seen<M>>⟧.seen self.now }
    {
        &self.ring
    }

    /// Empties the log of the ring.
    pub fn clear_log(&mut self)
        requires lost { IsLost (⟦<Lost<M> as Seen<M>>⟧.seen self.old) }
        ensures { ⟦<Lost<M> as Seen<M>>⟧.seen self.new ≡ ring_emptied (⟦<Lost<M> as Seen<M>>⟧.seen self.old) }
    {
        self.ring.clear_log();
    }
}

impl<M: Medium> Idle<M> {
    /// Sends a command and awaits the handshake after it.
    pub fn command(self, frame: Frame) -> Result<Idle<M>, Lost<M>>
        requires room { 34 ≤ spare_of (⟦<Idle<M> as Seen<M>>⟧.seen self) }
        requires idle { IsIdle (⟦<Idle<M> as Seen<M>>⟧.seen self) }
        requires command { is_command frame ≡ true }
        ensures made { IfOk result (λ idle. Made M.view (Command frame) (⟦<Idle<M> as Seen<M>>⟧.seen self) (⟦<Idle<M> as Seen<M>>⟧.seen idle)) }
        // Each device did what the command asks: roles and places in the parallel poll are those that it gives.
        ensures obeyed { IfOk result (λ idle. Obeyed (message_of frame) (⟦<Idle<M> as Seen<M>>⟧.seen self) (⟦<Idle<M> as Seen<M>>⟧.seen idle)) }
        ensures broken { IfErr result (λ lost. BrokenOff M.view (Command frame) (⟦<Idle<M> as Seen<M>>⟧.seen self) (⟦<Lost<M> as Seen<M>>⟧.seen lost)) }
        // Broken off, it was so for the devices that the command came to.
        ensures part { IfErr result (λ lost. ObeyedInPart (message_of frame) (⟦<Idle<M> as Seen<M>>⟧.seen self) (⟦<Lost<M> as Seen<M>>⟧.seen lost)) }
    {
        let Idle { mut ring, devices } = self;
        match exchanges::command(&mut ring, frame) {
            Ok(()) => Ok(Idle { ring, devices }),
            Err(Broken) => Err(Lost { ring, devices }),
        }
    }

    /// Sends the identify frame. What comes back has the bit of each device that is assigned one in
    /// the parallel poll and wants service, and the service bit if any wants it.
    pub fn identify(self) -> Result<(Idle<M>, Frame), Lost<M>>
        requires room { 33 ≤ spare_of (⟦<Idle<M> as Seen<M>>⟧.seen self) }
        requires idle { IsIdle (⟦<Idle<M> as Seen<M>>⟧.seen self) }
        ensures made { IfOk result (λ told. Made M.view (Identify told.1) (⟦<Idle<M> as Seen<M>>⟧.seen self) (⟦<Idle<M> as Seen<M>>⟧.seen told.0)) }
        ensures poll { IfOk result (λ told. told.1 ≡ identified_along (devices_of (⟦<Idle<M> as Seen<M>>⟧.seen self)) idy) }
        // No device hears anything, and each keeps its place in the poll and its wish for service.
        ensures stays { IfOk result (λ told. AllStay true (⟦<Idle<M> as Seen<M>>⟧.seen self) (⟦<Idle<M> as Seen<M>>⟧.seen told.0)) }
        ensures stays_lost { IfErr result (λ lost. AllStay true (⟦<Idle<M> as Seen<M>>⟧.seen self) (⟦<Lost<M> as Seen<M>>⟧.seen lost)) }
        ensures broken { IfErr result (λ lost. BrokenOff M.view (Identify idy) (⟦<Idle<M> as Seen<M>>⟧.seen self) (⟦<Lost<M> as Seen<M>>⟧.seen lost)) }
    {
        let Idle { mut ring, devices } = self;
        match exchanges::identify(&mut ring) {
            Ok(frame) => Ok((Idle { ring, devices }, frame)),
            Err(Broken) => Err(Lost { ring, devices }),
        }
    }

    /// Has the device of this address, 1 to 30, listen, and no other; after that it sends device
    /// dependent listener command `number`, 0 to 31, if one is given.
    pub fn listen(self, address: u8, number: Option<u8>) -> Result<Sending<M>, Lost<M>>
        requires room { 38 ≤ spare_of (⟦<Idle<M> as Seen<M>>⟧.seen self) }
        requires idle { IsIdle (⟦<Idle<M> as Seen<M>>⟧.seen self) }
        requires address { (1 ≤ address) × (address ≤ 30) }
        requires number { IfSome number (λ n. n < 32) }
        ensures made { IfOk result (λ sending. Made M.view (Send address number []) (⟦<Idle<M> as Seen<M>>⟧.seen self) (⟦<Sending<M> as Seen<M>>⟧.seen sending)) }
        // No device hears anything, and each keeps its place in the parallel poll; and if no command is given, its
        // wish for service.
        ensures stays { IfOk result (λ sending. AllStay (not (is_some number)) (⟦<Idle<M> as Seen<M>>⟧.seen self) (⟦<Sending<M> as Seen<M>>⟧.seen sending)) }
        ensures stays_lost { IfErr result (λ lost. AllStay (not (is_some number)) (⟦<Idle<M> as Seen<M>>⟧.seen self) (⟦<Lost<M> as Seen<M>>⟧.seen lost)) }
        ensures told { IfOk result (λ sending. Each (IsTold address) 1 (devices_of (⟦<Sending<M> as Seen<M>>⟧.seen sending))) }
        ensures broken { IfErr result (λ lost. BrokenOff M.view (Send address number []) (⟦<Idle<M> as Seen<M>>⟧.seen self) (⟦<Lost<M> as Seen<M>>⟧.seen lost)) }
    {
        let Idle { mut ring, devices } = self;
        match exchanges::listen(&mut ring, address, number) {
            Ok(()) => Ok(Sending { ring, devices }),
            Err(Broken) => Err(Lost { ring, devices }),
        }
    }

    /// Has the device of this address, 1 to 30, talk, and takes the bytes that it sends into the front of `into`, to
    /// its end or until `into` is full; then it talks no more. After the talk address it sends device dependent talker
    /// command `number`, 0 to 31, if one is given. Answers how many bytes came, none if no device took the start
    /// message. A talker that fills `into` is stopped at that byte. If a frame was lost or came back to the talker
    /// with another byte, the bytes in `into` are any.
    pub fn receive(
        self,
        address: u8,
        number: Option<u8>,
        start: Sot,
        into: &mut [u8],
    ) -> Result<(Idle<M>, usize), Lost<M>>
        requires some { 0 < length into.old }
        requires room { 43 + length into.old ≤ spare_of (⟦<Idle<M> as Seen<M>>⟧.seen self) }
        requires idle { IsIdle (⟦<Idle<M> as Seen<M>>⟧.seen self) }
        requires address { (1 ≤ address) × (address ≤ 30) }
        requires number { IfSome number (λ n. n < 32) }
        ensures received { IfOk result (λ told. Received M.view address number (start_of start) told.1 (⟦<Idle<M> as Seen<M>>⟧.seen self) into.old into.new (⟦<Idle<M> as Seen<M>>⟧.seen told.0)) }
        ensures not_received { IfErr result (λ lost. NotReceived M.view address number (start_of start) (length into.old) (⟦<Idle<M> as Seen<M>>⟧.seen self) (⟦<Lost<M> as Seen<M>>⟧.seen lost)) }
    {
        let Idle { mut ring, devices } = self;
        match exchanges::receive(&mut ring, address, number, start, into) {
            Ok(count) => Ok((Idle { ring, devices }, count)),
            Err(Broken) => Err(Lost { ring, devices }),
        }
    }

    /// Hands control of the loop to the second controller, if it is at this address, 1 to 30: the device there
    /// is to talk, and TCT is sent. While the second controller polls, each of its frames comes past the host; at the
    /// one that is the `limit`-th, 1 to 4,096, the host takes control back by IFC. Answers whether a second controller
    /// took control. If none did, TCT came back, and no device talks any more.
    ///
    /// The error comes if a frame was lost, or a status came back to its device with another byte. The second
    /// controller may control the loop still; `resume` takes control back. Source: HP-IL Interface Specification, HP
    /// 82166-90017, take control and interface clear; that the host counts frames is this project's own.
    pub fn lend(self, address: u8, limit: u16) -> Result<(Idle<M>, bool), Lost<M>>
        requires address { (1 ≤ address) × (address ≤ 30) }
        requires limit { (1 ≤ limit) × (limit ≤ 4096) }
        requires room { 4 * limit + 48 ≤ spare_of (⟦<Idle<M> as Seen<M>>⟧.seen self) }
        requires idle { IsIdle (⟦<Idle<M> as Seen<M>>⟧.seen self) }
        ensures made { IfOk result (λ told. LendMade address limit told.1 (⟦<Idle<M> as Seen<M>>⟧.seen self) (⟦<Idle<M> as Seen<M>>⟧.seen told.0)) }
        ensures broken { IfErr result (λ lost. LendBroken address limit (⟦<Idle<M> as Seen<M>>⟧.seen self) (⟦<Lost<M> as Seen<M>>⟧.seen lost)) }
    {
        let Idle { mut ring, devices } = self;
        match exchanges::lend(&mut ring, address, limit) {
            Ok(taken) => Ok((Idle { ring, devices }, taken)),
            Err(Broken) => Err(Lost { ring, devices }),
        }
    }

    /// Gives up what the controller knows of the devices.
    pub fn give_up(self) -> Lost<M>
        ensures { ⟦<Lost<M> as Seen<M>>⟧.seen result ≡ ⟦<Idle<M> as Seen<M>>⟧.seen self }
    {
        let Idle { ring, devices } = self;
        Lost { ring, devices }
    }

    /// The ring.
    pub fn ring(&self) -> &Ring<M>
        ensures { ⟦<Ring<M> as Seen<M>>⟧.seen result.now ≡ ⟦<Idle<M> as Seen<M>>⟧.seen self.now }
    {
        &self.ring
    }

    /// Empties the log of the ring.
    pub fn clear_log(&mut self)
        requires idle { IsIdle (⟦<Idle<M> as Seen<M>>⟧.seen self.old) }
        ensures { ⟦<Idle<M> as Seen<M>>⟧.seen self.new ≡ ring_emptied (⟦<Idle<M> as Seen<M>>⟧.seen self.old) }
    {
        self.ring.clear_log();
    }
}
