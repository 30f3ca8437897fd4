ghost use Rattle.std.specs.Prelude.{◌≡◌, ◌⊎◌, ◌↔◌, ◌<◌, ◌≤◌, ◌^◌, if◌then◌else◌, true, Some};
ghost use Rattle.il_frames.specs.Frames as frames;
ghost use Rattle.il_frames.specs.Messages.{message_of};
ghost use Rattle.il_device.specs.Interfaces.{passed_on};
ghost use Rattle.il_device.specs.Takes.{Takes, eto, ete};
ghost use Rattle.lif_model.specs.Tape.{Tape};
ghost use Rattle.lif_model.specs.Stops.{LeavesOnly};
ghost use Rattle.lif_model.specs.Causes.{Rose};
ghost use Rattle.il_drive.specs.State.{fresh_drive, status_of, device_of, is_single, IsDrive};
ghost use Rattle.il_drive.specs.Steps.{Did};
ghost use Rattle.il_drive.specs.Facts.{has_wrong_echo, lacks_record, record_put, IsTapeAfter, IsLeft};
ghost use Rattle.il_drive.specs.Commands.{listener_command, talker_command};
ghost use Rattle.il_drive.specs.Table as table;
ghost use Rattle.il_drive.specs.declared.commands.TalkerCommand.TheVariants as ddt;
ghost use Rattle.il_device.specs.declared.device.Out.TheVariants.{Pass, Source};

use crate::commands::{ListenerCommand, TalkerCommand};
use crate::mode::{Fault, Mode, Start};
use il_device::{Interface, Out, OwnFrame, Roles, Turn};
use il_frames::{Class, Frame, Message};
use il_ports::Medium;
use std::marker::Model;

/// The accessory ID of the HP 82161A.
const ID: u8 = 16;

/// The HP 82161A Digital Cassette Drive over a medium.
///
/// Beside what every device has, it has two buffers of 256 bytes, a byte pointer 0 to 255, a
/// position 0 to N on the tape of N records, a mark that buffer 0 was filled, a mode and a status:
/// 0, 1 where a record could not be read, 2 where one could not be written, 3 where the tape has no
/// such record. It wants service while the status is not 0.
#[derive(Drop)]
pub struct Drive<M: Medium> {
    interface: Interface,
    buffer_0: [u8; 256],
    buffer_1: [u8; 256],
    pointer: u8,
    position: u16,
    filled: bool,
    mode: Mode,
    begun: Start,
    medium: M,
}

impl<M: Medium> Model for Drive<M> {
    ghost use Rattle.il_drive.specs.State.{DriveView, IsDrive};

    ghost Value = { DriveView M };

    ghost view = { λ d. record {
      state = record {
        interface = d.interface;
        buffer_0 = d.buffer_0;
        buffer_1 = d.buffer_1;
        pointer = d.pointer;
        position = d.position;
        filled = d.filled;
        mode = d.mode;
        begun = d.begun;
      };
      medium = d.medium;
    } };

    ghost invariant = { λ d. IsDrive (M.view d.medium).record_count (record {
      interface = d.interface;
      buffer_0 = d.buffer_0;
      buffer_1 = d.buffer_1;
      pointer = d.pointer;
      position = d.position;
      filled = d.filled;
      mode = d.mode;
      begun = d.begun;
    }) };
}

impl<M: Medium> Drive<M> {
    /// A drive that nothing has come to yet, over a medium whose tape is in: buffers of zeros,
    /// pointer 0, position 0, not filled, status 0, mode Rest.
    pub fn new(medium: M) -> Drive<M>
        requires { 0 < (M.view medium).record_count }
        ensures fresh { result ≡ record { state = fresh_drive; medium = medium } }
        ensures drive { IsDrive (M.view medium).record_count fresh_drive }
    {
        Drive {
            interface: Interface::new(Some(ID)),
            buffer_0: [0; 256],
            buffer_1: [0; 256],
            pointer: 0,
            position: 0,
            filled: false,
            mode: Mode::Rest,
            begun: Start::Data,
            medium,
        }
    }

    /// The roles on the loop.
    pub fn roles(&self) -> Roles
        ensures { result ≡ self.now.state.interface.roles }
    {
        self.interface.roles()
    }

    /// The status, 0 to 3.
    pub fn status(&self) -> u8
        ensures value { result ≡ status_of self.now.state }
        ensures range { result ≤ 3 }
    {
        self.interface.status()
    }

    /// The medium.
    pub fn medium(&self) -> &M
        ensures medium { result.now ≡ self.now.medium }
        // What holds of the drive at every moment.
        ensures drive { IsDrive (M.view self.now.medium).record_count self.now.state }
    {
        &self.medium
    }

    /// The medium, whose tape stays in.
    pub fn into_medium(self) -> M
        ensures { result ≡ self.medium }
    {
        self.medium
    }

    /// The frame comes to the drive: its effect comes first, and the answer after it. A record is
    /// put on the tape before the byte that fills it goes on.
    #[inline(always)]
    pub fn take(&mut self, frame: Frame) -> Out
        // What every device does.
        ensures takes { Takes (device_of self.old.state) frame result (device_of self.new.state) }
        // What the drive's table says.
        ensures did { Did M.view (table.drive_step (M.view self.old.medium).record_count self.old.state frame) (self.new.state, result) self.old.medium self.new.medium }
        ensures before { IsDrive (M.view self.old.medium).record_count self.old.state }
        ensures after { IsDrive (M.view self.new.medium).record_count self.new.state }
        ensures size { (M.view self.new.medium).record_count ≡ (M.view self.old.medium).record_count }
        // A transmission ends by ETE exactly where the echo is wrong.
        ensures ete { (result ≡ Source ete) ↔ (has_wrong_echo self.old.state frame ≡ true) }
        // Status 1 and 2 come only where the medium failed in this call, and 3 exactly where the
        // tape has no such record.
        ensures unread { status_of self.new.state ≡ 1 → (status_of self.old.state ≡ 1) ⊎ Rose (M.view self.old.medium).faults (M.view self.new.medium).faults }
        ensures unwritten { status_of self.new.state ≡ 2 → (status_of self.old.state ≡ 2) ⊎ Rose (M.view self.old.medium).faults (M.view self.new.medium).faults }
        ensures lacks { lacks_record (M.view self.old.medium).record_count self.old.state frame ≡ true → status_of self.new.state ≡ 3 }
        ensures lacked { status_of self.new.state ≡ 3 → (status_of self.old.state ≡ 3) ⊎ (lacks_record (M.view self.old.medium).record_count self.old.state frame ≡ true) }
        // The tape changes only where a record is put, and then by that record alone.
        ensures tape { IsTapeAfter (record_put (M.view self.old.medium).record_count self.old.state frame) (M.view self.old.medium).tape (M.view self.new.medium).tape }
        ensures stops { (t : Tape) → (M.view self.old.medium).tape ≡ Some t → LeavesOnly (M.view self.old.medium).moment (M.view self.new.medium).moment
            (M.view self.old.medium).left_since (M.view self.new.medium).left_since (IsLeft (record_put (M.view self.old.medium).record_count self.old.state frame) t) }
    {
        let out = self.step(frame);
        // After a field the proof sees that the ranges hold.
        let _ = &self.interface;
        out
    }

    // Data has a way of its own, which stays short.
    #[inline(always)]
    fn step(&mut self, frame: Frame) -> Out
        ensures did { Did M.view (table.drive_step (M.view self.old.medium).record_count self.old.state frame) (self.new.state, result) self.old.medium self.new.medium }
        ensures before { IsDrive (M.view self.old.medium).record_count self.old.state }
    {
        if frame.is_data() {
            self.step_here(frame)
        } else {
            self.step_apart(frame)
        }
    }

    // The same, apart from the way of data.
    #[inline(never)]
    fn step_apart(&mut self, frame: Frame) -> Out
        ensures did { Did M.view (table.drive_step (M.view self.old.medium).record_count self.old.state frame) (self.new.state, result) self.old.medium self.new.medium }
        ensures before { IsDrive (M.view self.old.medium).record_count self.old.state }
    {
        self.step_here(frame)
    }

    // The same, compiled into its callers, so that each of them pays for its own kinds of frames.
    #[inline(always)]
    fn step_here(&mut self, frame: Frame) -> Out
        ensures did { Did M.view (table.drive_step (M.view self.old.medium).record_count self.old.state frame) (self.new.state, result) self.old.medium self.new.medium }
        ensures before { IsDrive (M.view self.old.medium).record_count self.old.state }
    {
        let before = self.interface.roles();
        match self.interface.effect(frame) {
            Turn::Pass => {
                self.obey_frame(before, frame);
                self.pass(before, frame)
            }
            Turn::Hear => {
                self.hear(frame.byte());
                self.pass(before, frame)
            }
            Turn::Begin => self.begin(before, frame),
            Turn::Identify(id) => self.send(Start::Identity, true, id),
            Turn::Compare(own) => self.compare(own, frame),
        }
    }

    // ---- the parts of a step

    fn rest(&mut self)
        ensures { self.new ≡ record self.old { state = table.at_rest self.old.state } }
    {
        self.mode = Mode::Rest;
    }

    fn fail(&mut self, fault: Fault)
        ensures { self.new ≡ record self.old { state = table.faulty fault self.old.state } }
    {
        self.interface.set_status(fault.status());
        self.rest();
    }

    fn empty(&mut self)
        ensures { self.new ≡ record self.old { state = table.emptied self.old.state } }
    {
        self.pointer = 0;
        self.filled = false;
    }

    fn advance(&mut self)
        ensures { self.new ≡ record self.old { state = table.advanced self.old.state } }
    {
        self.pointer = self.pointer.wrapping_add(1);
    }

    // ---- the tape

    // Reads the record at the position into buffer 0, and says whether it could. It is not inlined: it is called once
    // in 256 bytes, and its 256 bytes of stack would slow every byte.
    #[inline(never)]
    fn load(&mut self) -> bool
        ensures did { Did M.view (table.loaded (M.view self.old.medium).record_count self.old.state) (self.new.state, result)
            self.old.medium self.new.medium }
        ensures within { result ≡ true → self.new.state.position < (M.view self.new.medium).record_count }
        ensures small { (M.view self.new.medium).record_count < 2 ^ 16 }
    {
        if self.position == self.medium.size() {
            self.fail(Fault::NoRecord);
            return false;
        }
        let mut record = [0; 256];
        match self.medium.read(self.position, &mut record) {
            Ok(()) => {
                self.buffer_0 = record;
                true
            }
            Err(_) => {
                self.fail(Fault::Unread);
                false
            }
        }
    }

    // Buffer 0 becomes the record at the position.
    fn write_record(&mut self)
        ensures did { Did M.view (table.recorded (M.view self.old.medium).record_count self.old.state) self.new.state self.old.medium self.new.medium }
    {
        if self.position == self.medium.size() {
            self.fail(Fault::NoRecord);
            return;
        }
        match self.medium.write(self.position, &self.buffer_0) {
            Ok(()) => self.position += 1,
            Err(_) => self.fail(Fault::Unwritten),
        }
    }

    // The record is put: buffer 0 goes on the tape, and is empty then.
    fn put(&mut self)
        ensures did { Did M.view (table.put (M.view self.old.medium).record_count self.old.state) self.new.state self.old.medium self.new.medium }
    {
        self.write_record();
        self.empty();
    }

    // ---- messages

    // What a message does that no data come with. Before it the roles were `before`.
    fn obey(&mut self, before: Roles, message: Message)
        ensures { Did M.view (table.obeyed message (M.view self.old.medium).record_count before self.old.state) self.new.state self.old.medium self.new.medium }
    {
        match message {
            Message::Ifc | Message::Aau => self.rest(),
            Message::Tad(_) | Message::Unt | Message::Lad(_) | Message::Unl => {
                self.rest_if_changed(before);
            }
            Message::Sdc if before.listens => self.clear(),
            Message::Dcl => self.clear(),
            Message::Ddl(number) if before.listens => self.listen(number),
            Message::Ddt(number) if before.talks => self.talk(number),
            _ => {}
        }
    }

    // What a frame that the drive passes does. Only commands do something, and the class tells them, so the message of
    // no other frame is looked for.
    #[inline(always)]
    fn obey_frame(&mut self, before: Roles, frame: Frame)
        ensures { Did M.view (table.obeyed (message_of frame) (M.view self.old.medium).record_count before self.old.state) self.new.state self.old.medium self.new.medium }
    {
        if frame.class() == Class::Cmd {
            self.obey(before, frame.message());
        }
    }

    fn rest_if_changed(&mut self, before: Roles)
        ensures { self.new ≡ record self.old { state = table.at_rest_if_changed before self.old.state } }
    {
        let now = self.interface.roles();
        if before.talks != now.talks || before.listens != now.listens {
            self.rest();
        }
    }

    fn clear(&mut self)
        ensures { self.new ≡ record self.old { state = table.cleared self.old.state } }
    {
        self.empty();
        self.interface.set_status(0);
        self.rest();
    }

    // ---- DDL, while listening

    fn listen(&mut self, number: u8)
        ensures { Did M.view (table.listened_to (listener_command number) (M.view self.old.medium).record_count self.old.state) self.new.state self.old.medium self.new.medium }
    {
        let Some(command) = ListenerCommand::of(number) else {
            return;
        };
        match command {
            ListenerCommand::FillBuffer0 => self.mode = Mode::FillBuffer0,
            ListenerCommand::FillBuffer1 => self.mode = Mode::FillBuffer1,
            ListenerCommand::Write => self.begin_writing(),
            ListenerCommand::SetPointer => self.mode = Mode::SetPointer,
            ListenerCommand::Seek => self.mode = Mode::SeekHigh,
            ListenerCommand::PartialWrite => self.partial_write(),
            ListenerCommand::Rewind => self.rewind(),
            ListenerCommand::CloseRecord => self.close_record(),
            ListenerCommand::CopyBuffer => self.copy_buffer(),
        }
    }

    fn begin_writing(&mut self)
        ensures { self.new ≡ record self.old { state = table.write self.old.state } }
    {
        if self.status() == 0 {
            self.empty();
            self.mode = Mode::Write;
        } else {
            self.rest();
        }
    }

    fn partial_write(&mut self)
        ensures { Did M.view (table.partial_write (M.view self.old.medium).record_count self.old.state) self.new.state self.old.medium self.new.medium }
    {
        if self.status() != 0 {
            self.rest();
        } else if self.load() {
            self.filled = false;
            self.mode = Mode::Write;
        }
    }

    fn rewind(&mut self)
        ensures { self.new ≡ record self.old { state = table.at_rest (record self.old.state { position = 0 }) } }
    {
        self.position = 0;
        self.rest();
    }

    fn close_record(&mut self)
        ensures { Did M.view (table.close_record (M.view self.old.medium).record_count self.old.state) self.new.state self.old.medium self.new.medium }
    {
        if self.mode == Mode::Write && self.filled {
            self.put();
        }
        self.empty();
        self.rest();
    }

    fn copy_buffer(&mut self)
        ensures { self.new ≡ record self.old { state = table.at_rest (record self.old.state { buffer_1 = self.old.state.buffer_0 }) } }
    {
        self.buffer_1 = self.buffer_0;
        self.rest();
    }

    // ---- DDT, while talking

    fn talk(&mut self, number: u8)
        ensures { self.new ≡ record self.old { state = table.talked_by (talker_command number) self.old.state } }
    {
        let Some(command) = TalkerCommand::of(number) else {
            return;
        };
        match command {
            TalkerCommand::SendBuffer0 => self.mode = Mode::SendBuffer0,
            TalkerCommand::SendBuffer1 => self.mode = Mode::SendBuffer1,
            TalkerCommand::Read => self.begin_reading(),
            TalkerCommand::SendPosition => self.mode = Mode::PositionHigh,
            TalkerCommand::ExchangeBuffers => self.exchange_buffers(),
        }
    }

    fn begin_reading(&mut self)
        ensures { self.new ≡ record self.old { state = table.read self.old.state } }
    {
        if self.status() == 0 {
            self.pointer = 0;
            self.mode = Mode::Read;
        } else {
            self.rest();
        }
    }

    fn exchange_buffers(&mut self)
        ensures { self.new ≡ record self.old { state = table.talked ddt.ExchangeBuffers self.old.state } }
    {
        std::mem::swap(&mut self.buffer_0, &mut self.buffer_1);
        self.rest();
    }

    // ---- a data byte that is heard

    fn hear(&mut self, byte: u8)
        ensures { Did M.view (table.heard_in self.old.state.mode byte (M.view self.old.medium).record_count self.old.state) self.new.state self.old.medium self.new.medium }
    {
        match self.mode {
            Mode::FillBuffer0 => {
                self.buffer_0[usize::from(self.pointer)] = byte;
                self.advance();
            }
            Mode::FillBuffer1 => {
                self.buffer_1[usize::from(self.pointer)] = byte;
                self.advance();
            }
            Mode::SetPointer => {
                self.pointer = byte;
                self.rest();
            }
            Mode::SeekHigh => self.mode = Mode::SeekLow(byte),
            Mode::SeekLow(high) => self.seek(u16::from(high) * 256 + u16::from(byte)),
            Mode::Write => self.take_byte(byte),
            _ => {}
        }
    }

    // The position becomes `k`, where the tape has that record.
    fn seek(&mut self, k: u16)
        ensures { self.new ≡ record self.old { state = table.sought k (M.view self.old.medium).record_count self.old.state } }
    {
        if k < self.medium.size() {
            self.position = k;
            self.rest();
        } else {
            self.fail(Fault::NoRecord);
        }
    }

    // A byte of the record to be written. The last one puts the record.
    fn take_byte(&mut self, byte: u8)
        ensures { Did M.view (table.taken byte (M.view self.old.medium).record_count self.old.state) self.new.state self.old.medium self.new.medium }
    {
        self.buffer_0[usize::from(self.pointer)] = byte;
        self.filled = true;
        if self.pointer < 255 {
            self.advance();
        } else {
            self.put();
        }
    }

    // ---- the byte that is due

    fn due(&mut self) -> Option<u8>
        ensures { Did M.view (table.due (M.view self.old.medium).record_count self.old.state) (self.new.state, result) self.old.medium self.new.medium }
    {
        match self.mode {
            Mode::SendBuffer0 => {
                let byte = self.buffer_0[usize::from(self.pointer)];
                self.leave_byte();
                Some(byte)
            }
            Mode::SendBuffer1 => {
                let byte = self.buffer_1[usize::from(self.pointer)];
                self.leave_byte();
                Some(byte)
            }
            Mode::Read => self.due_of_record(),
            Mode::PositionHigh => {
                self.mode = Mode::PositionLow;
                Some((self.position / 256) as u8)
            }
            Mode::PositionLow => {
                self.rest();
                Some((self.position % 256) as u8)
            }
            _ => None,
        }
    }

    // The byte that is due. After an echo it is mostly a byte of a record: that path has no call of `due` and no jump
    // by the mode.
    #[inline(always)]
    fn due_soon(&mut self) -> Option<u8>
        ensures { Did M.view (table.due (M.view self.old.medium).record_count self.old.state) (self.new.state, result) self.old.medium self.new.medium }
    {
        match self.mode {
            Mode::Read => self.due_of_record(),
            _ => self.due_apart(),
        }
    }

    // The same in any mode. It is not inlined, so that `due`, which is inlined here, does not lengthen the path of a
    // record's bytes.
    #[inline(never)]
    fn due_apart(&mut self) -> Option<u8>
        ensures { Did M.view (table.due (M.view self.old.medium).record_count self.old.state) (self.new.state, result) self.old.medium self.new.medium }
    {
        self.due()
    }

    // After the last byte of a buffer none is due.
    fn leave_byte(&mut self)
        ensures { self.new ≡ record self.old { state = table.after_byte self.old.state } }
    {
        if self.pointer == 255 {
            self.rest();
        }
        self.advance();
    }

    // At pointer 0 the record at the position is read first.
    #[inline(always)]
    fn due_of_record(&mut self) -> Option<u8>
        ensures { Did M.view (table.due_of_record (M.view self.old.medium).record_count self.old.state) (self.new.state, result) self.old.medium self.new.medium }
    {
        if self.pointer == 0 {
            if !self.load() {
                return None;
            }
            self.position += 1;
        }
        let byte = self.buffer_0[usize::from(self.pointer)];
        self.advance();
        Some(byte)
    }

    // ---- transmissions

    // The frame goes on. As it came the roles were `before`.
    #[inline(always)]
    fn pass(&self, before: Roles, frame: Frame) -> Out
        ensures { result ≡ Pass (passed_on self.now.state.interface before frame) }
    {
        Out::Pass(self.interface.passed(before, frame))
    }

    // Sends a byte as an answer to that start message.
    fn send(&mut self, start: Start, last: bool, byte: u8) -> Out
        requires talks { self.old.state.interface.roles.talks ≡ true }
        requires single { last ≡ is_single start }
        ensures sends { (self.new.state, result) ≡ table.sends start last byte self.old.state }
        ensures medium { self.new.medium ≡ self.old.medium }
    {
        self.begun = start;
        self.interface.source(Frame::new(Class::Dab, byte), last)
    }

    // A start message to a talker.
    fn begin(&mut self, before: Roles, frame: Frame) -> Out
        requires { self.old.state.interface.roles.talks ≡ true }
        ensures { Did M.view (table.began (message_of frame) (M.view self.old.medium).record_count before frame self.old.state) (self.new.state, result) self.old.medium self.new.medium }
    {
        match frame.message() {
            Message::Sda => match self.due() {
                Some(byte) => self.send(Start::Data, false, byte),
                None => self.pass(before, frame),
            },
            Message::Sst => {
                let status = self.interface.status_byte();
                self.send(Start::Status, true, status)
            }
            _ => self.pass(before, frame),
        }
    }

    // Data after an own frame: the echo is right where the two are equal apart from the service
    // bit.
    #[inline(always)]
    fn compare(&mut self, own: OwnFrame, frame: Frame) -> Out
        requires { self.old.state.interface.roles.talks ≡ true }
        ensures { Did M.view (table.compared (frames.same_but_service own.frame frame) own (M.view self.old.medium).record_count self.old.state) (self.new.state, result) self.old.medium self.new.medium }
    {
        if !own.is_echo(frame) {
            return self.end(false);
        }
        if own.stopped || own.last {
            self.acknowledge();
            return self.end(true);
        }
        match self.due_soon() {
            Some(byte) => self.send(Start::Data, false, byte),
            None => self.end(true),
        }
    }

    // The transmission ends: by ETO after the right echo, and else by ETE.
    fn end(&mut self, echoed: bool) -> Out
        ensures ends { (self.new.state, result) ≡ table.ends (if echoed then eto else ete) self.old.state }
        ensures medium { self.new.medium ≡ self.old.medium }
    {
        self.rest();
        self.interface.finish(echoed)
    }

    // The status that was sent is cleared.
    fn acknowledge(&mut self)
        ensures { self.new ≡ record self.old { state = table.acknowledged self.old.state.begun self.old.state } }
    {
        if self.begun == Start::Status {
            self.interface.set_status(0);
        }
    }
}
