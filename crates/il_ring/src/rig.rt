ghost use Rattle.std.specs.Prelude.{◌≡◌, ◌↔◌, ◌+◌, ◌≤◌, IsTrue, length};
ghost use Rattle.std.specs.List.{All};
ghost use Rattle.il_ring.specs.Guests.{guest_devices, IsIdleGuest, MayBeGuest};
ghost use Rattle.il_ring.specs.Rings.{IsNewcomer, MayStand};

use il_device::Device;
use il_guest::Guest;
use il_ports::Medium;

/// The accessory ID of the HP 82161A, which no device beside the drive may have.
const DRIVE_ID: u8 = 16;

/// How many devices may be beside the drive: HP-IL has 30 addresses.
const MOST_BESIDE: usize = 29;

/// What a ring is made of. The drive, over the medium, is between `before` and `after`. The
/// parties are counted from the host's output: the first device of `before` is party 1, and if
/// `before` is empty the drive is.
#[derive(Drop)]
pub struct Rig<M: Medium> {
    /// The medium of the drive.
    pub medium: M,
    /// The devices between the host's output and the drive.
    pub before: Vec<Box<dyn Device>>,
    /// The devices between the drive and the host's input.
    pub after: Vec<Box<dyn Device>>,
    /// A second controller, which is last, after `after`.
    pub guest: Option<Guest>,
}

/// Memory is lacking; with the rig that was given.
#[derive(Drop)]
pub struct Refused<M: Medium> {
    /// The rig as it was.
    pub rig: Rig<M>,
}

impl<M: Medium> Rig<M> {
    /// Whether it makes a ring that nothing has come to yet: at most 29 devices are beside the
    /// drive, a second controller among them, since HP-IL has the addresses 1 to 30; none of them has
    /// an address, a role, a place in a parallel poll or a frame of its own on the loop; none of the
    /// boxed ones has the accessory ID 16, which is the drive's; and a second controller does not
    /// control the loop.
    pub fn fits(&self) -> bool
        ensures exact { IsTrue result ↔ ((length self.now.before.items + length self.now.after.items + length (guest_devices self.now.guest) ≤ 29)
            × All (λ b. IsNewcomer (state b)) self.now.before.items
            × All (λ b. IsNewcomer (state b)) self.now.after.items
            × IsIdleGuest self.now.guest) }
        ensures stands { IsTrue result → (length self.now.before.items + length self.now.after.items + length (guest_devices self.now.guest) ≤ 29)
            × All (λ b. MayStand (state b)) self.now.before.items
            × All (λ b. MayStand (state b)) self.now.after.items
            × IsIdleGuest self.now.guest
            × MayBeGuest self.now.guest }
    {
        self.boxes_fit() && is_idle_guest(&self.guest)
    }

    /// Whether the boxed devices are few enough, and may be there.
    fn boxes_fit(&self) -> bool
        ensures exact { IsTrue result ↔ ((length self.now.before.items + length self.now.after.items + length (guest_devices self.now.guest) ≤ 29)
            × All (λ b. IsNewcomer (state b)) self.now.before.items
            × All (λ b. IsNewcomer (state b)) self.now.after.items) }
        ensures stands { IsTrue result → (length self.now.before.items + length self.now.after.items + length (guest_devices self.now.guest) ≤ 29)
            × All (λ b. MayStand (state b)) self.now.before.items
            × All (λ b. MayStand (state b)) self.now.after.items }
    {
        let most = most_boxed(&self.guest);
        self.before.len() <= most
            && self.after.len() <= most - self.before.len()
            && all_may_stand(&self.before)
            && all_may_stand(&self.after)
    }
}

/// How many boxed devices may be beside the drive and a second controller, if there is one.
fn most_boxed(guest: &Option<Guest>) -> usize
    ensures { result + length (guest_devices guest.now) ≡ 29 }
{
    match guest {
        None => MOST_BESIDE,
        Some(_) => MOST_BESIDE - 1,
    }
}

/// Whether a second controller is idle, if there is one.
fn is_idle_guest(guest: &Option<Guest>) -> bool
    ensures exact { IsTrue result ↔ IsIdleGuest guest.now }
    ensures stands { IsTrue result → MayBeGuest guest.now }
{
    match guest {
        None => true,
        Some(guest) => guest.is_idle(),
    }
}

/// Whether a device may be beside the drive on a new ring.
fn may_stand<D: Device>(device: &D) -> bool
    ensures exact { IsTrue result ↔ IsNewcomer (D.state device.now) }
    ensures stands { IsTrue result → MayStand (D.state device.now) }
{
    device.is_idle() && device.accessory() != Some(DRIVE_ID)
}

/// Whether each of them may.
fn all_may_stand<D: Device>(devices: &[D]) -> bool
    ensures exact { IsTrue result ↔ All (λ d. IsNewcomer (D.state d)) devices.now }
    ensures stands { IsTrue result → All (λ d. MayStand (D.state d)) devices.now }
{
    devices.iter().all(|device| may_stand(device))
}
