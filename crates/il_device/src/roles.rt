#![tactic(auto)]

ghost use Rattle.std.specs.Prelude.{◌≡◌};
ghost use Rattle.il_device.specs.Roles.{is_own, takes_address, roles_after};

use il_frames::Message;

/// What a device is on the loop, by the HP-IL Interface Specification (HP 82166-90017).
#[derive(Clone, Copy, PartialEq, Eq, Debug)]
pub struct Roles {
    /// The address, 1 to 30, if the device has taken one.
    pub address: Option<u8>,
    /// Whether the device is the talker.
    pub talks: bool,
    /// Whether the device is a listener.
    pub listens: bool,
}

impl Roles {
    /// No address and no role.
    pub const NONE: Roles = Roles {
        address: None,
        talks: false,
        listens: false,
    };

    /// Whether this is the device's address.
    pub(crate) fn is_own(self, address: u8) -> bool
        ensures { result ≡ is_own self.address address }
    {
        self.address == Some(address)
    }

    /// Whether the device takes this address at AAD: it has none, and the address is 1 to 30.
    pub fn takes_address(self, address: u8) -> bool
        ensures { result ≡ takes_address self.address address }
    {
        self.address.is_none() && 1 <= address && address <= 30
    }

    /// The roles that a message leaves.
    pub fn after(self, message: Message) -> Roles
        ensures { result ≡ roles_after self message }
    {
        match message {
            Message::Ifc => Roles {
                talks: false,
                listens: false,
                ..self
            },
            Message::Aau => Roles::NONE,
            Message::Aad(address) if self.takes_address(address) => Roles {
                address: Some(address),
                ..self
            },
            Message::Tad(address) if self.is_own(address) => Roles {
                talks: true,
                listens: false,
                ..self
            },
            Message::Tad(_) | Message::Unt => Roles {
                talks: false,
                ..self
            },
            Message::Lad(address) if self.is_own(address) => Roles {
                talks: false,
                listens: true,
                ..self
            },
            Message::Unl => Roles {
                listens: false,
                ..self
            },
            _ => self,
        }
    }
}
