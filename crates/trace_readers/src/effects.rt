#![tactic(auto)]

ghost use Rattle.std.specs.Prelude.{◌≡◌, ◌≤◌, ◌<◌, ◌↔◌, ◌++◌, ◌∷◌, [], ℕ, List, Some, None, Err, true, length, IfOk, MatchResult};
ghost use Rattle.std.specs.Result.{result_err};
ghost use Rattle.il_frames.specs.declared.entry.Entry.{Entry};
ghost use Rattle.lif_model.specs.Tape.{Tape, record_at};
ghost use Rattle.loop_model.specs.Loops.{host_loop};
ghost use Rattle.loop_model.specs.Exchanges.{Reading};
ghost use Rattle.loop_model.specs.Units.{RecordUnit};
ghost use Rattle.loop_model.specs.Effect.{is_good, Effect};
ghost use Rattle.trace_readers.specs.Exchanges.{IsPrefix};
ghost use Rattle.trace_readers.specs.Expected.{unit_fault};
ghost use Rattle.trace_readers.specs.Effects.{EndsUnit, IsEffectAfter};
ghost use Rattle.trace_readers.specs.Effects as effects;

use crate::exchanges::Fate;
use crate::expected::{Expected, UnitFault};
use il_frames::{Class, Entry, Frame};
use lif_model::{RECORD, Record};
use std::alloc::{AllocError, Global};
use std::marker::Model;

/// What a frame is in a unit of the drive.
#[derive(Clone, Copy, PartialEq, Eq, Debug)]
enum Cue {
    /// UNL.
    Unlisten,
    /// The drive's listen address.
    Listen,
    /// The drive's talk address.
    Talk,
    /// DDL 4: the number of a record follows.
    Seek,
    /// DDL 2: the bytes of records follow.
    Write,
    /// SST: the drive's status is asked for.
    Status,
    /// RFC.
    Ready,
    /// ETE: the talker saw a byte altered.
    Failed,
    /// A data or end frame of this byte.
    Data(u8),
    /// Any other frame.
    Other,
}

/// What the last whole exchange was.
#[derive(Clone, Copy, PartialEq, Eq, Debug)]
pub enum Progress {
    /// Neither of these.
    Nothing,
    /// A seek of this record.
    Sought(u16),
    /// A write of bytes, directly after a seek of this record.
    Sent(u16),
}

/// The bytes of a status so far.
#[derive(Clone, Copy, PartialEq, Eq, Debug)]
pub enum Told {
    /// None.
    Nothing,
    /// This one.
    One(u8),
    /// Two or more.
    More,
}

/// How far a log has come in a unit that writes.
#[derive(Clone, Copy, PartialEq, Eq, Debug)]
pub enum Stage {
    /// Nothing of a unit is open.
    Clear,
    /// UNL was given, after this.
    Unlistened(Progress),
    /// UNL and the drive's listen address were given, after this.
    Listening(Progress),
    /// DDL 4 was given to the drive.
    Seeking,
    /// And the high byte of a record.
    High(u8),
    /// And the low one: the drive was told this record.
    Sought(u16),
    /// After a seek of this record DDL 2 was given to the drive.
    Writing(u16),
    /// And at least one byte of the unit on this record.
    Sent(u16),
    /// After the bytes of the unit on this record UNL and the drive's talk address were given.
    Talking(u16),
    /// And SST, with these bytes of the drive.
    Asked(u16, Told),
}

/// How a unit that wrote ended: its first record and its status, if it came.
#[derive(Clone, Copy, PartialEq, Eq, Debug)]
struct Ended {
    first: u16,
    status: Option<u8>,
}

impl Cue {
    /// What a frame is to the drive at this address, up to 30.
    fn of(drive: u8, frame: Frame) -> Cue
        requires { drive ≤ 30 }
        ensures { result ≡ effects.cue_of drive frame }
    {
        match (frame.class(), frame.byte()) {
            (Class::Dab | Class::Dsr | Class::End | Class::Esr, byte) => Cue::Data(byte),
            (Class::Cmd, byte) => Cue::of_command(drive, byte),
            (Class::Rdy, 0x00) => Cue::Ready,
            (Class::Rdy, 0x41) => Cue::Failed,
            (Class::Rdy, 0x61) => Cue::Status,
            _ => Cue::Other,
        }
    }

    /// What a command is to the drive, by its byte.
    fn of_command(drive: u8, byte: u8) -> Cue
        requires { drive ≤ 30 }
        ensures { result ≡ effects.command_cue drive byte }
    {
        match byte {
            0x3F => Cue::Unlisten,
            0xA2 => Cue::Write,
            0xA4 => Cue::Seek,
            _ if byte == 0x20 + drive => Cue::Listen,
            _ if byte == 0x40 + drive => Cue::Talk,
            _ => Cue::Other,
        }
    }
}

impl Told {
    /// One byte more.
    fn and(self, byte: u8) -> Told
        ensures { result ≡ effects.told_more self byte }
    {
        match self {
            Told::Nothing => Told::One(byte),
            Told::One(_) | Told::More => Told::More,
        }
    }
}

impl Stage {
    /// What a unit can go on from after UNL.
    fn progress(self) -> Progress
        ensures { result ≡ effects.progress self }
    {
        match self {
            Stage::Sought(record) => Progress::Sought(record),
            Stage::Sent(first) => Progress::Sent(first),
            _ => Progress::Nothing,
        }
    }

    /// The stage after a frame that was not lost, nor altered.
    fn after_heard(self, cue: Cue) -> Stage
        ensures { result ≡ effects.after_heard self cue }
    {
        match (cue, self) {
            (Cue::Unlisten, _) => Stage::Unlistened(self.progress()),
            (Cue::Listen, Stage::Unlistened(progress)) => Stage::Listening(progress),
            (Cue::Talk, Stage::Unlistened(Progress::Sent(first))) => Stage::Talking(first),
            (Cue::Seek, Stage::Listening(_)) => Stage::Seeking,
            (Cue::Write, Stage::Listening(Progress::Sought(first))) => Stage::Writing(first),
            (Cue::Status, Stage::Talking(first)) => Stage::Asked(first, Told::Nothing),
            (Cue::Ready, Stage::Asked(_, _)) => Stage::Clear,
            (Cue::Ready, _) => self,
            (Cue::Data(byte), _) => self.after_byte(byte),
            (Cue::Other, Stage::Asked(_, _)) => self,
            _ => Stage::Clear,
        }
    }

    /// The stage after a data or end frame that came back as it was.
    fn after_byte(self, byte: u8) -> Stage
        ensures { result ≡ effects.byte_sent self byte }
    {
        match self {
            Stage::Seeking => Stage::High(byte),
            Stage::High(high) => Stage::Sought(u16::from_be_bytes([high, byte])),
            Stage::Writing(first) | Stage::Sent(first) => Stage::Sent(first),
            Stage::Asked(first, told) => Stage::Asked(first, told.and(byte)),
            _ => Stage::Clear,
        }
    }

    /// The stage after a frame.
    fn after(self, cue: Cue, fate: Fate) -> Stage
        ensures { result ≡ effects.stage_after self cue fate }
    {
        match (fate, self) {
            (Fate::Returned | Fate::Taken(_), _) => self.after_heard(cue),
            (Fate::Altered, Stage::Asked(_, _)) => self,
            _ => Stage::Clear,
        }
    }

    /// The unit that ends by a frame that was lost.
    fn ended_by_loss(self, cue: Cue) -> Option<Ended>
        ensures { result ≡ effects.ended_by_loss self cue }
    {
        match (self, cue) {
            (Stage::Writing(first), Cue::Data(_)) => Ended::unfinished(first),
            (Stage::Sent(first), Cue::Data(_) | Cue::Unlisten) => Ended::unfinished(first),
            (Stage::Unlistened(Progress::Sent(first)), Cue::Ready | Cue::Talk) => Ended::unfinished(
                first,
            ),
            (Stage::Talking(first), Cue::Ready | Cue::Status) => Ended::unfinished(first),
            (Stage::Asked(first, _), _) => Ended::unfinished(first),
            _ => None,
        }
    }

    /// The unit that ends by a frame that came back as another.
    fn ended_by_change(self, cue: Cue) -> Option<Ended>
        ensures { result ≡ effects.ended_by_change self cue }
    {
        match (self, cue) {
            (Stage::Writing(first) | Stage::Sent(first), Cue::Data(_)) => Ended::unfinished(first),
            _ => None,
        }
    }

    /// The unit that ends by another frame.
    fn ended_heard(self, cue: Cue) -> Option<Ended>
        ensures { result ≡ effects.ended_heard self cue }
    {
        match (self, cue) {
            (Stage::Asked(first, _), Cue::Failed) => Ended::unfinished(first),
            (Stage::Asked(first, Told::One(status)), Cue::Ready) => Some(Ended {
                first,
                status: Some(status),
            }),
            _ => None,
        }
    }

    /// The unit that ends by a frame.
    fn ended(self, cue: Cue, fate: Fate) -> Option<Ended>
        ensures { result ≡ effects.ended self cue fate }
    {
        match fate {
            Fate::Returned | Fate::Taken(_) => self.ended_heard(cue),
            Fate::Altered => self.ended_by_change(cue),
            Fate::Lost => self.ended_by_loss(cue),
        }
    }
}

impl Ended {
    /// A unit on this record without a status.
    fn unfinished(first: u16) -> Option<Ended>
        ensures { result ≡ effects.unfinished first }
    {
        Some(Ended {
            first,
            status: None,
        })
    }

    /// Whether the status came and is 0.
    fn is_good(self) -> bool
        ensures { result ≡ is_good self.status }
    {
        self.status == Some(0)
    }
}

/// A reader of a log after a tape, one entry at a time: which tapes the log may have left. It is for logs that are
/// lists of whole and broken exchanges of the host; which units they are is this project's own.
#[derive(Drop)]
pub struct Effects {
    drive: u8,
    stage: Stage,
    bytes: Vec<u8>,
    expected: Expected,
}

impl Model for Effects {
    ghost use Rattle.std.specs.Prelude.{◌≤◌, ◌<◌, length};
    ghost use Rattle.std.specs.Vec.{vec_capacity};
    ghost use Rattle.trace_readers.specs.Effects.{EffectReader, unit_room};

    ghost Value = { EffectReader };

    ghost view = { λ e. record { drive = e.drive; stage = e.stage; bytes = e.bytes.items; expected = e.expected } };

    ghost invariant = { λ e. (e.drive ≤ 30) × (e.expected.room < 65536) × (length e.bytes.items ≤ unit_room e.expected.room)
        × (unit_room e.expected.room ≤ vec_capacity e.bytes) };
}

impl Effects {
    /// A drive at this party, up to 30, whose address is the same number, and a tape of so many records, of which
    /// there is none yet. All memory is taken here, and an error comes only where there is none.
    pub fn new(alloc: Global, drive: u8, size: u16) -> Result<Effects, AllocError>
        requires { drive ≤ 30 }
        ensures known { IfOk result (λ e. IsEffectAfter drive [] [] e) }
        ensures expected { IfOk result (λ e. e.expected ≡ record { records = []; room = size }) }
    {
        Ok(Effects {
            drive,
            stage: Stage::Clear,
            bytes: Vec::with_capacity(alloc, RECORD * (size as usize + 2))?,
            expected: Expected::new(alloc, size)?,
        })
    }

    /// The next record of the tape before the log. There has to be room for it.
    pub fn push(&mut self, bytes: &Record)
        requires { length self.old.expected.records < self.old.expected.room }
        ensures known { (d : ℕ) (old : Tape) → IsEffectAfter d old [] self.old →
            IsEffectAfter d (old ++ bytes.now ∷ []) [] self.new }
        ensures expected { self.new.expected ≡ record {
          records = self.old.expected.records ++ Some bytes.now ∷ [];
          room = self.old.expected.room;
        } }
    {
        self.expected.push(bytes);
    }

    /// Keeps the byte of a unit, if the frame has one.
    fn keep(&mut self, cue: Cue)
        ensures bytes { self.new.bytes ≡ effects.kept_bytes_after self.old.stage
            (effects.unit_room self.old.expected.room) cue self.old.bytes }
        ensures drive { self.new.drive ≡ self.old.drive }
        ensures stage { self.new.stage ≡ self.old.stage }
        ensures expected { self.new.expected ≡ self.old.expected }
    {
        match (self.stage, cue) {
            (Stage::Writing(_), Cue::Data(byte)) => {
                self.bytes.clear();
                self.bytes.push(byte).unwrap();
            }
            (Stage::Sent(_), Cue::Data(byte)) => {
                if self.bytes.len() < RECORD * (self.expected.room() + 2) {
                    self.bytes.push(byte).unwrap();
                }
            }
            _ => {}
        }
    }

    /// Reads the unit of the bytes that are kept, if it ended.
    fn finish(&mut self, ended: Option<Ended>) -> Result<(), UnitFault>
        ensures fault { result_err result
            ≡ effects.end_fault (length self.old.expected.records) self.old.bytes ended }
        ensures records { MatchResult result
            (λ _. self.new.expected.records ≡ effects.known_end self.old.bytes ended self.old.expected.records)
            (λ _. self.new.expected.records ≡ self.old.expected.records) }
        ensures size { length self.new.expected.records ≡ length self.old.expected.records }
        ensures room { self.new.expected.room ≡ self.old.expected.room }
        ensures drive { self.new.drive ≡ self.old.drive }
        ensures stage { self.new.stage ≡ self.old.stage }
        ensures bytes { self.new.bytes ≡ self.old.bytes }
    {
        match ended {
            Some(unit) => self.expected.write(unit.first, &self.bytes, unit.is_good()),
            None => Ok(()),
        }
    }

    /// Reads the next entry. An error comes exactly where it is the last of a unit whose effect on the tape is not
    /// told: `BadUnit` of one whose status was 0, `Unclear` of one that failed or was not finished. After an
    /// error nothing more is told.
    pub fn take(&mut self, entry: Entry) -> Result<(), UnitFault>
        ensures known { (d : ℕ) (old : Tape) (log : List Entry) → IsEffectAfter d old log self.old →
            IfOk result (λ _. IsEffectAfter d old (log ++ entry ∷ []) self.new) }
        ensures fault { (k d : ℕ) (old : Tape) (log : List Entry) → IsEffectAfter d old log self.old →
            IsPrefix (host_loop k d) (log ++ entry ∷ []) → (f : UnitFault) →
            (result ≡ Err f)
            ↔ ((w : RecordUnit) × EndsUnit (host_loop k d) log entry w × (unit_fault (length old) w ≡ Some f)) }
        ensures size { length self.new.expected.records ≡ length self.old.expected.records }
        ensures room { self.new.expected.room ≡ self.old.expected.room }
    {
        let cue = Cue::of(self.drive, entry.frame);
        let fate = Fate::of(entry.frame, entry.outcome);
        let ended = self.stage.ended(cue, fate);
        self.keep(cue);
        self.stage = self.stage.after(cue, fate);
        self.finish(ended)
    }

    /// Whether the log may have left these bytes in the record at that place, which the tape has: whether they stand
    /// there on some tape that the log may have made of the one before it.
    pub fn allows(&self, place: u16, bytes: &Record) -> bool
        requires { place < length self.now.expected.records }
        ensures { (k d : ℕ) (old : Tape) (log : List Entry) → IsEffectAfter d old log self.now →
            Reading (host_loop k d) log →
            (result ≡ true)
            ↔ ((new : Tape) × Effect (host_loop k d) old log new × (record_at new place ≡ bytes.now)) }
    {
        self.expected.allows(place, bytes)
    }
}
