#![tactic(auto)]

ghost use Rattle.std.specs.Prelude.{◌≡◌, ◌↔◌, IsTrue};
ghost use Rattle.il_device.specs.State.{DeviceState, IsDevice, IsIdle};
ghost use Rattle.il_device.specs.Takes.{Takes};

use il_frames::Frame;

/// What a device does with a frame.
#[derive(Clone, Copy, PartialEq, Eq, Debug)]
pub enum Out {
    /// It passes this frame on.
    Pass(Frame),
    /// It takes the frame in, and sends this one of its own.
    Source(Frame),
}

/// A device of the HP-IL loop. Contracts see its `state`, and `take` says what a frame does to it.
pub trait Device: Drop {
    ghost state: { Self → DeviceState };

    /// Whether the device has no address, no role, no place in a parallel poll and no frame of its
    /// own on the loop. That it keeps the rules of every device is seen here too.
    fn is_idle(&self) -> bool
        ensures idle { IsTrue result ↔ IsIdle (state self.now) }
        ensures device { IsDevice (state self.now) };

    /// The byte that answers SAI, if there is one.
    fn accessory(&self) -> Option<u8>
        ensures { result ≡ (state self.now).accessory };

    /// The first bytes that were heard, as far as the device keeps them.
    fn heard(&self) -> &[u8]
        ensures { result.now ≡ (state self.now).heard };

    /// How many bytes were heard. The count stays at its greatest value.
    fn heard_count(&self) -> u64
        ensures { result ≡ (state self.now).heard_count };

    /// How many frames the device took. The count stays at its greatest value.
    fn frames(&self) -> u64
        ensures { result ≡ (state self.now).frames };

    /// The frame comes to the device: its effect comes first, and the answer after it.
    fn take(&mut self, frame: Frame) -> Out
        ensures { Takes (state self.old) frame result (state self.new) };
}

impl Device for Box<dyn Device> {
    ghost state = { λ b. (Device-box b).state b.value };

    fn is_idle(&self) -> bool {
        (**self).is_idle()
    }

    fn accessory(&self) -> Option<u8> {
        (**self).accessory()
    }

    fn heard(&self) -> &[u8] {
        (**self).heard()
    }

    fn heard_count(&self) -> u64 {
        (**self).heard_count()
    }

    fn frames(&self) -> u64 {
        (**self).frames()
    }

    fn take(&mut self, frame: Frame) -> Out {
        (**self).take(frame)
    }
}
