// Start messages (HP-IL Interface Specification, HP 82166-90017, the table of ready messages).
ghost use Rattle.std.specs.Prelude.{◌≡◌};
ghost use Rattle.loop_model.specs.Exchanges.{start_frame};
ghost use Rattle.il_control.specs.Receives.{start_of};

use il_frames::{Frame, Message};

/// Start messages: what a talker is to send.
#[derive(Clone, Copy, Debug, PartialEq, Eq)]
pub enum Sot {
    /// Send data.
    Sda,
    /// Send status.
    Sst,
    /// Send device ID.
    Sdi,
    /// Send accessory ID.
    Sai,
}

impl Sot {
    /// Its frame.
    pub(crate) fn frame(self) -> Frame
        ensures { result ≡ start_frame (start_of self) }
    {
        match self {
            Sot::Sda => Frame::of(Message::Sda),
            Sot::Sst => Frame::of(Message::Sst),
            Sot::Sdi => Frame::of(Message::Sdi),
            Sot::Sai => Frame::of(Message::Sai),
        }
    }
}
