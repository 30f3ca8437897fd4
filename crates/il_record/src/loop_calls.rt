// Calls of a store over the loop that move no record.
ghost use Rattle.std.specs.Prelude.{◌≡◌, ◌≤◌, ◌+◌, ◌/◌, true, false, length, ◌*◌};
ghost use Rattle.loop_model.specs.Polls.{polled_along};
ghost use Rattle.il_ring.specs.Rings.{spare_of, devices_of, drive_party};
ghost use Rattle.il_control.specs.Calls.{idy};
ghost use Rattle.il_record.specs.Asks.{up_to};
ghost use Rattle.il_record.specs.Called.{Calls, LeavesLent, LeavesStore, LendCalls};
ghost use Rattle.il_record.specs.LoopCalls.{AllNamed, LeftAlone, NotSaid, Said, id_asks};
ghost use Rattle.il_record.specs.LoopStores.{StandsSo, since_said};
ghost use Rattle.il_record.specs.Polls.{HasPolled, PollBroke, poll_asks};
ghost use Rattle.il_record.specs.Runs.{NotPolled, Polled};

use crate::records::{LoopRecords, Looped, Since};
use crate::runs::status;
use crate::{calls, poll};
use arrayvec::ArrayVec;
use il_control::exchanges;
use il_frames::Frame;
use il_ports::{Medium, Records, Trouble};

impl<M: Medium + Drop> LoopRecords<M> {
    /// Asks the drive for its status, which is 0 after it, and answers the status byte: 0, or 64 more than the status.
    ///
    /// The error is `Trouble::Frame`, and comes exactly where a planned fault acted on a frame of the call.
    pub fn drive_status(&mut self) -> Result<u8, Trouble>
        requires valid { StandsSo (⟦<LoopRecords<M> as Looped<M>>⟧.looped self.old) }
        requires ready { (⟦<LoopRecords<M> as Looped<M>>⟧.looped self.old).ready ≡ true }
        requires room { 1000 ≤ spare_of (⟦<LoopRecords<M> as Looped<M>>⟧.looped self.old).ring }
        ensures told { Calls (λ byte r s. Polled M.view (drive_party r) byte r s) (λ r s. NotPolled M.view (drive_party r) r s) (⟦<LoopRecords<M> as Looped<M>>⟧.looped self.old).sound (⟦<LoopRecords<M> as Looped<M>>⟧.looped self.old).since (⟦<LoopRecords<M> as Looped<M>>⟧.looped self.old) (⟦<LoopRecords<M> as Looped<M>>⟧.looped self.new) result }
        ensures leaves { LeavesStore 1 (Unit {0}) (⟦<LoopRecords<M> as Records>⟧.view self.old) (⟦<LoopRecords<M> as Records>⟧.view self.new) result }
    {
        let answer = status(&mut self.ring);
        self.ended(answer)
    }

    /// Asks each device, in the order of the ring, for its accessory ID, and puts these into `into`: None for a device
    /// that has none.
    ///
    /// The error is `Trouble::Frame`, and comes exactly where a planned fault acted on a frame of the call.
    pub fn accessories(&mut self, into: &mut ArrayVec<Option<u8>, 30>) -> Result<(), Trouble>
        requires valid { StandsSo (⟦<LoopRecords<M> as Looped<M>>⟧.looped self.old) }
        requires ready { (⟦<LoopRecords<M> as Looped<M>>⟧.looped self.old).ready ≡ true }
        requires room { 1000 ≤ spare_of (⟦<LoopRecords<M> as Looped<M>>⟧.looped self.old).ring }
        ensures named { Calls (λ x r s. AllNamed M.view into.new.items r s) (λ r s. LeftAlone M.view false (up_to (id_asks (devices_of r)) (length (devices_of r))) r s) (⟦<LoopRecords<M> as Looped<M>>⟧.looped self.old).sound (⟦<LoopRecords<M> as Looped<M>>⟧.looped self.old).since (⟦<LoopRecords<M> as Looped<M>>⟧.looped self.old) (⟦<LoopRecords<M> as Looped<M>>⟧.looped self.new) result }
        ensures leaves { LeavesStore 2 (Unit {0}) (⟦<LoopRecords<M> as Records>⟧.view self.old) (⟦<LoopRecords<M> as Records>⟧.view self.new) result }
    {
        let answer = calls::accessories(&mut self.ring, into);
        self.ended(answer)
    }

    /// Polls the first eight devices in parallel, and answers the identify frame as it came back: bit a - 1 is set
    /// where device a wants service, and its class is ISR where any device on the ring does.
    ///
    /// The error is `Trouble::Frame`, and comes exactly where a planned fault acted on a frame of the call.
    pub fn parallel_poll(&mut self) -> Result<Frame, Trouble>
        requires valid { StandsSo (⟦<LoopRecords<M> as Looped<M>>⟧.looped self.old) }
        requires ready { (⟦<LoopRecords<M> as Looped<M>>⟧.looped self.old).ready ≡ true }
        requires room { 1000 ≤ spare_of (⟦<LoopRecords<M> as Looped<M>>⟧.looped self.old).ring }
        ensures polled { Calls (HasPolled M.view) (λ r s. PollBroke M.view 54 (poll_asks (length (devices_of r)) (polled_along 1 (devices_of r) idy)) r s) (⟦<LoopRecords<M> as Looped<M>>⟧.looped self.old).sound (⟦<LoopRecords<M> as Looped<M>>⟧.looped self.old).since (⟦<LoopRecords<M> as Looped<M>>⟧.looped self.old) (⟦<LoopRecords<M> as Looped<M>>⟧.looped self.new) result }
        ensures leaves { LeavesStore 1 (Unit {0}) (⟦<LoopRecords<M> as Records>⟧.view self.old) (⟦<LoopRecords<M> as Records>⟧.view self.new) result }
    {
        let answer = poll::parallel_poll(&mut self.ring);
        self.ended(answer)
    }

    /// Sends bytes to the device of this address, 1 to 30.
    ///
    /// The error is `Trouble::Frame`, and comes exactly where a planned fault acted on a frame of the call. The device
    /// then heard those bytes that the log has whole, the first ones, and at most one byte more, of any value.
    pub fn say(&mut self, printer: u8, bytes: &[u8]) -> Result<(), Trouble>
        requires valid { StandsSo (⟦<LoopRecords<M> as Looped<M>>⟧.looped self.old) }
        requires ready { (⟦<LoopRecords<M> as Looped<M>>⟧.looped self.old).ready ≡ true }
        requires room { length bytes.now + 1000 ≤ spare_of (⟦<LoopRecords<M> as Looped<M>>⟧.looped self.old).ring }
        requires address { (1 ≤ printer) × (printer ≤ 30) }
        ensures said { Calls (λ x r s. Said M.view printer bytes.now r s) (λ r s. NotSaid M.view printer bytes.now r s) (⟦<LoopRecords<M> as Looped<M>>⟧.looped self.old).sound (since_said (⟦<LoopRecords<M> as Looped<M>>⟧.looped self.old).since) (⟦<LoopRecords<M> as Looped<M>>⟧.looped self.old) (⟦<LoopRecords<M> as Looped<M>>⟧.looped self.new) result }
        ensures leaves { LeavesStore ((length bytes.now + 306) / 300) (Unit {0}) (⟦<LoopRecords<M> as Records>⟧.view self.old) (⟦<LoopRecords<M> as Records>⟧.view self.new) result }
    {
        self.since = self.since.said();
        let answer = calls::say(&mut self.ring, printer, bytes);
        self.ended(answer)
    }

    /// Lends the loop to the second controller where it stands at this address, 1 to 30, until `limit` frames of it, 1
    /// to 4,096, have come to the host. Answers whether a second controller took control. No record changes; the store
    /// is not sound then.
    ///
    /// The error is `Trouble::Frame`, and comes where a frame was lost, or a status came back to its device with
    /// another byte.
    pub fn lend(&mut self, address: u8, limit: u16) -> Result<bool, Trouble>
        requires valid { StandsSo (⟦<LoopRecords<M> as Looped<M>>⟧.looped self.old) }
        requires ready { (⟦<LoopRecords<M> as Looped<M>>⟧.looped self.old).ready ≡ true }
        requires address { (1 ≤ address) × (address ≤ 30) }
        requires limit { (1 ≤ limit) × (limit ≤ 4096) }
        requires room { 4 * limit + 48 ≤ spare_of (⟦<LoopRecords<M> as Looped<M>>⟧.looped self.old).ring }
        ensures lent { LendCalls address limit (⟦<LoopRecords<M> as Looped<M>>⟧.looped self.old) (⟦<LoopRecords<M> as Looped<M>>⟧.looped self.new) result }
        ensures leaves { LeavesLent ((2 * limit + 309) / 300) (⟦<LoopRecords<M> as Records>⟧.view self.old) (⟦<LoopRecords<M> as Records>⟧.view self.new) }
    {
        self.sound = false;
        self.since = Since::Mended;
        let answer = exchanges::lend(&mut self.ring, address, limit);
        self.ended(answer)
    }
}
