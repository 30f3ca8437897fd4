#![tactic(auto)]

ghost use Rattle.std.specs.Prelude.{ℕ, ◌≡◌, ◌≢◌, ◌<◌, ◌↔◌, IsTrue, IsSome, None, Some};
ghost use Rattle.il_poll.specs.Service.{wants_service, status_byte_of, assigned, polled, IsPlace, SetsBit};

use std::marker::Model;

/// The place of a device in a parallel poll, as a PPE message gives it (HP-IL Interface
/// Specification, HP 82166-90017).
#[derive(Clone, Copy, PartialEq, Eq, Debug)]
pub struct Assignment {
    /// The bit of the identify byte, 0 to 7.
    pub bit: u8,
    /// Whether the bit is set to ask for service, rather than to ask for none.
    pub sense: bool,
}

/// The status of a device, 0 to 63, and its place in a parallel poll, if it has one.
#[derive(Debug, Drop)]
pub struct ServiceState {
    status: u8,
    assignment: Option<Assignment>,
}

impl Model for ServiceState {
    ghost use Rattle.il_poll.specs.Service.{Service, IsService};

    ghost Value = { Service };

    ghost view = { λ s. record { status = s.status; assignment = s.assignment } };

    ghost invariant = { λ s. IsService (record { status = s.status; assignment = s.assignment }) };
}

impl ServiceState {
    /// Status 0 and no place in a poll.
    pub fn new() -> ServiceState
        ensures { result ≡ record { status = 0; assignment = None } }
    {
        ServiceState {
            status: 0,
            assignment: None,
        }
    }

    /// Whether the device wants service: its status is not 0.
    pub fn wants(&self) -> bool
        ensures { result ≡ wants_service self.now.status }
    {
        self.status != 0
    }

    /// The status, 0 to 63.
    pub fn status(&self) -> u8
        ensures value { result ≡ self.now.status }
        ensures range { result < 64 }
    {
        self.status
    }

    /// Sets the status, a number below 64.
    pub fn set(&mut self, status: u8)
        requires { status < 64 }
        ensures { self.new ≡ record self.old { status = status } }
    {
        self.status = status;
    }

    /// The byte that answers SST: the status, plus 64 where the device wants service.
    pub fn status_byte(&self) -> u8
        ensures value { result ≡ status_byte_of self.now.status }
        ensures range { result < 128 }
    {
        if self.wants() {
            self.status + 64
        } else {
            self.status
        }
    }

    /// The place in a poll, if there is one.
    pub fn assignment(&self) -> Option<Assignment>
        ensures value { result ≡ self.now.assignment }
        ensures place { IsPlace result }
    {
        self.assignment
    }

    /// PPE n, n below 16: the place is bit `n mod 8`, with sense `n / 8`.
    pub fn on_ppe(&mut self, n: u8)
        requires { n < 16 }
        ensures { self.new ≡ record self.old { assignment = Some (assigned n) } }
    {
        self.assignment = Some(Assignment {
            bit: n % 8,
            sense: n / 8 == 1,
        });
    }

    /// PPD or PPU: the device has no place any more.
    pub fn on_ppd(&mut self)
        ensures { self.new ≡ record self.old { assignment = None } }
    {
        self.assignment = None;
    }

    /// The identify byte that goes on: the assigned bit is set where the device wants service and
    /// the sense is 1, or wants none and the sense is 0.
    pub fn on_idy(&self, byte: u8) -> u8
        ensures value { result ≡ polled self.now.assignment (wants_service self.now.status) byte }
        ensures bits { SetsBit self.now.assignment (wants_service self.now.status) byte result }
    {
        answered(self.assignment, self.wants(), byte)
    }
}

impl Default for ServiceState {
    ghost is_default = { λ service. service ≡ record { status = 0; assignment = None } };

    fn default() -> ServiceState {
        ServiceState::new()
    }
}

/// The identify byte after a device with this place in the poll.
fn answered(place: Option<Assignment>, wants: bool, byte: u8) -> u8
    requires { IsPlace place }
    ensures { result ≡ polled place wants byte }
{
    match place {
        Some(Assignment { bit, sense }) if sense == wants => byte | 1 << bit,
        _ => byte,
    }
}
