ghost use Rattle.std.specs.Prelude.{◌≡◌, ◌≤◌, ◌<◌, ◌+◌, ◌/◌, ◌*◌, false, None, [], length};
ghost use Rattle.lif_model.specs.Shelf.{cut};
ghost use Rattle.il_ring.specs.Lists.{Each};
ghost use Rattle.il_ring.specs.Rings.{spare_of, devices_of};
ghost use Rattle.il_record.specs.Polls.{MayPoll};
ghost use Rattle.il_control.specs.Calls.{IsLost};
ghost use Rattle.il_record.specs.Called.{EndedBy, LeavesStore, Moved};
ghost use Rattle.il_record.specs.declared.records.Since.TheVariants as since_is;
ghost use Rattle.il_record.specs.LoopStores.{calls_in as calls_of, IsFresh, StandsSo, log_emptied, Addresses, Resumes, counted_resume, since_frame, since_medium, since_more, since_said};
ghost use Rattle.il_ports.specs.Stores.{Begun};

use crate::runs::{clear, read_run, write_run};
use il_control::{Broken, Lost, exchanges};
use il_device::Device;
use il_ports::{Medium, Records, Trouble};
use il_ring::{Ring, Seen};
use std::marker::PhantomData;

/// How the log stands since it was last emptied.
#[derive(Clone, Copy, PartialEq, Eq)]
pub(crate) enum Since {
    /// No call has failed.
    Unbroken,
    /// The exchanges are whole, but the medium failed in one.
    Failed,
    /// The last exchange was broken off.
    Broken,
    /// It goes on after an exchange that was broken off, or control of the loop was lent.
    Mended,
    /// Bytes were sent to another device than the drive, and all exchanges are whole.
    Said,
    /// So they were, and the last exchange was broken off.
    SaidBroken,
}

impl Since {
    /// After a call that was broken off.
    fn broken(self) -> Since
        ensures { result ≡ since_frame self }
    {
        match self {
            Since::Unbroken | Since::Failed => Since::Broken,
            Since::Said => Since::SaidBroken,
            Since::Broken | Since::SaidBroken | Since::Mended => Since::Mended,
        }
    }

    /// After a call in which the medium failed.
    fn failed(self) -> Since
        ensures { result ≡ since_medium self }
    {
        match self {
            Since::Unbroken => Since::Failed,
            other => other,
        }
    }

    /// Where exchanges follow.
    fn more(self) -> Since
        ensures { result ≡ since_more self }
    {
        match self {
            Since::Broken | Since::SaidBroken => Since::Mended,
            other => other,
        }
    }

    /// After bytes for another device than the drive.
    pub(crate) fn said(self) -> Since
        ensures { result ≡ since_said self }
    {
        match self {
            Since::Unbroken | Since::Failed | Since::Said => Since::Said,
            Since::Broken | Since::SaidBroken | Since::Mended => Since::Mended,
        }
    }
}

/// How many records the room for so many entries is enough for: each takes at most 300, and 32 are kept for the last
/// frame.
fn calls_in(spare: usize) -> u32
    ensures { result ≡ calls_of spare }
{
    let calls = spare.saturating_sub(32) / 300;
    u32::try_from(calls).unwrap_or(u32::MAX)
}

/// The records of the tape in the drive, over the loop: each read and write seeks, moves all its records in one
/// transmission and asks the drive for its status. The log of the ring has every frame.
#[derive(Drop)]
pub struct LoopRecords<M: Medium> {
    pub(crate) ring: Ring<M>,
    /// Whether the loop is addressed and no device talks.
    ready: bool,
    /// Whether records can be read and written.
    pub(crate) sound: bool,
    pub(crate) since: Since,
    resumes: u32,
    devices: PhantomData<Box<dyn Device>>,
}

/// What contracts see of a store over the loop.
pub trait Looped<M> {
    ghost use Rattle.il_record.specs.LoopStores.{LoopView};

    ghost looped: { Self → LoopView M };
}

impl<M: Medium> Looped<M> for LoopRecords<M> {
    ghost use Rattle.il_ring.specs.Seen.{ring_seen};
    ghost use Rattle.il_record.specs.LoopStores.{LoopView};

    ghost looped = { λ l. record {
      ring = ring_seen (λ b. (Device-box b).state b.value) l.ring;
      ready = l.ready;
      sound = l.sound;
      since = l.since;
      resumes = l.resumes;
    } };
}

impl<M: Medium + Drop> LoopRecords<M> {
    /// A store over the loop of this controller: not ready and not sound. The log of its ring is empty, and this counts
    /// as its first emptying. No device has another place in the parallel poll than that of its party.
    pub fn new(lost: Lost<M>) -> LoopRecords<M>
        requires lost { IsLost (⟦<Lost<M> as Seen<M>>⟧.seen lost) }
        requires places { Each MayPoll 1 (devices_of (⟦<Lost<M> as Seen<M>>⟧.seen lost)) }
        requires empty { (⟦<Lost<M> as Seen<M>>⟧.seen lost).books.log ≡ [] }
        ensures at { ⟦<LoopRecords<M> as Looped<M>>⟧.looped result ≡ record { ring = ⟦<Lost<M> as Seen<M>>⟧.seen lost; ready = false; sound = false; since = since_is.Unbroken; resumes = 0 } }
        ensures fresh { IsFresh (⟦<LoopRecords<M> as Records>⟧.view result) }
    {
        LoopRecords {
            ring: lost.into_ring(),
            ready: false,
            sound: false,
            since: Since::Unbroken,
            resumes: 0,
            devices: PhantomData,
        }
    }

    /// Whether the loop is addressed and no device talks, so that a call can begin.
    pub fn is_ready(&self) -> bool
        ensures { result ≡ (⟦<LoopRecords<M> as Looped<M>>⟧.looped self.now).ready }
    {
        self.ready
    }

    /// How many calls of `resume` there were since the log was last emptied. The count stays at its greatest value.
    pub fn resumes(&self) -> u32
        ensures { result ≡ (⟦<LoopRecords<M> as Looped<M>>⟧.looped self.now).resumes }
    {
        self.resumes
    }

    /// The ring.
    pub fn ring(&self) -> &Ring<M>
        ensures { ⟦<Ring<M> as Seen<M>>⟧.seen result.now ≡ (⟦<LoopRecords<M> as Looped<M>>⟧.looped self.now).ring }
    {
        &self.ring
    }

    /// Empties the log of the ring, as `begin` does. From now on it counts what stands.
    pub fn clear_log(&mut self)
        requires valid { StandsSo (⟦<LoopRecords<M> as Looped<M>>⟧.looped self.old) }
        ensures emptied { ⟦<LoopRecords<M> as Looped<M>>⟧.looped self.new ≡ log_emptied (⟦<LoopRecords<M> as Looped<M>>⟧.looped self.old) }
        ensures begun { Begun (⟦<LoopRecords<M> as Records>⟧.view self.old) (⟦<LoopRecords<M> as Records>⟧.view self.new) }
    {
        self.ring.clear_log();
        self.since = Since::Unbroken;
        self.resumes = 0;
    }

    /// The ring, as it stands.
    pub fn into_ring(self) -> Ring<M>
        ensures { ⟦<Ring<M> as Seen<M>>⟧.seen result ≡ (⟦<LoopRecords<M> as Looped<M>>⟧.looped self).ring }
    {
        self.ring
    }

    /// Addresses the loop where it is not ready, and else does nothing.
    ///
    /// The error comes exactly where a planned fault acted on a frame of the call.
    pub fn ready(&mut self) -> Result<(), Trouble>
        requires valid { StandsSo (⟦<LoopRecords<M> as Looped<M>>⟧.looped self.old) }
        requires room { 64 ≤ spare_of (⟦<LoopRecords<M> as Looped<M>>⟧.looped self.old).ring }
        ensures addresses { Addresses M.view (⟦<LoopRecords<M> as Looped<M>>⟧.looped self.old).ready (⟦<LoopRecords<M> as Looped<M>>⟧.looped self.old) (⟦<LoopRecords<M> as Looped<M>>⟧.looped self.new) result }
        ensures leaves { LeavesStore 1 ((⟦<LoopRecords<M> as Records>⟧.view self.old).failed None) (⟦<LoopRecords<M> as Records>⟧.view self.old) (⟦<LoopRecords<M> as Records>⟧.view self.new) result }
    {
        if self.ready {
            return Ok(());
        }
        let answer = exchanges::resume(&mut self.ring);
        self.ended(answer)?;
        self.ready = true;
        self.since = self.since.more();
        Ok(())
    }

    /// The answer of a call by how its exchanges ended. Where they were broken off the loop is not ready, and the store
    /// not sound.
    pub(crate) fn ended<T>(&mut self, answer: Result<T, Broken>) -> Result<T, Trouble>
        ensures { EndedBy answer (⟦<LoopRecords<M> as Looped<M>>⟧.looped self.old) (⟦<LoopRecords<M> as Looped<M>>⟧.looped self.new) result }
    {
        match answer {
            Ok(told) => Ok(told),
            Err(Broken) => {
                self.ready = false;
                self.sound = false;
                self.since = self.since.broken();
                Err(Trouble::Frame)
            }
        }
    }

    /// The same for a run of records, whose exchanges told whether the medium moved all of them.
    fn moved(&mut self, answer: Result<bool, Broken>) -> Result<(), Trouble>
        ensures { Moved answer (⟦<LoopRecords<M> as Looped<M>>⟧.looped self.old) (⟦<LoopRecords<M> as Looped<M>>⟧.looped self.new) result }
    {
        if self.ended(answer)? {
            return Ok(());
        }
        self.sound = false;
        self.since = self.since.failed();
        Err(Trouble::Medium)
    }
}

impl<M: Medium + Drop> Records for LoopRecords<M> {
    ghost use Rattle.il_ring.specs.Seen.{ring_seen};
    ghost use Rattle.il_ports.specs.Stores.{Resumed, IsReady, AreRecords, Fetched, Stored, FetchedRun, StoredRun};
    ghost use Rattle.il_record.specs.LoopStores.{view_of};
    ghost use Rattle.il_record.specs.IsStore.{is_store_of};

    type Start = Ring<M>;

    ghost view = { λ l. view_of M.view (ring_seen (λ b. (Device-box b).state b.value)) l.ring (record {
      ring = ring_seen (λ b. (Device-box b).state b.value) l.ring;
      ready = l.ready;
      sound = l.sound;
      since = l.since;
      resumes = l.resumes;
    }) };

    ghost is_store = { λ l. is_store_of M.view _ _ _ M.is_medium };

    fn size(&self) -> u16 {
        self.ring.medium().size()
    }

    fn is_sound(&self) -> bool {
        self.sound
    }

    fn left(&self) -> u32 {
        calls_in(self.ring.spare())
    }

    fn begin(&mut self)
        requires { (⟦<LoopRecords<M> as Records>⟧.view self.old).valid }
        ensures begun { Begun (⟦<LoopRecords<M> as Records>⟧.view self.old) (⟦<LoopRecords<M> as Records>⟧.view self.new) }
        ensures emptied { ⟦<LoopRecords<M> as Looped<M>>⟧.looped self.new ≡ log_emptied (⟦<LoopRecords<M> as Looped<M>>⟧.looped self.old) }
    {
        self.clear_log();
    }

    /// Makes the store sound where it is not: addresses the loop where it is not ready, and clears the drive. Where it
    /// is sound, nothing is sent.
    fn resume(&mut self) -> Result<(), Trouble>
        requires valid { (⟦<LoopRecords<M> as Records>⟧.view self.old).valid }
        requires left { 1 ≤ (⟦<LoopRecords<M> as Records>⟧.view self.old).calls_left }
        ensures resumed { Resumed (⟦<LoopRecords<M> as Records>⟧.view self.old) (⟦<LoopRecords<M> as Records>⟧.view self.new) result }
        ensures resumes { Resumes M.view (⟦<LoopRecords<M> as Looped<M>>⟧.looped self.old).sound (counted_resume (⟦<LoopRecords<M> as Looped<M>>⟧.looped self.old)) (⟦<LoopRecords<M> as Looped<M>>⟧.looped self.new) result }
    {
        self.resumes = self.resumes.saturating_add(1);
        if self.sound {
            return Ok(());
        }
        self.ready()?;
        let answer = clear(&mut self.ring);
        self.ended(answer)?;
        self.sound = true;
        Ok(())
    }

    fn read(&mut self, n: u16, into: &mut [u8; 256]) -> Result<(), Trouble>
        requires ready { IsReady 1 (⟦<LoopRecords<M> as Records>⟧.view self.old) }
        requires within { n < (⟦<LoopRecords<M> as Records>⟧.view self.old).record_count }
        ensures { Fetched n into.new (⟦<LoopRecords<M> as Records>⟧.view self.old) (⟦<LoopRecords<M> as Records>⟧.view self.new) result }
    {
        self.read_run(n, into)
    }

    fn write(&mut self, n: u16, from: &[u8; 256]) -> Result<(), Trouble>
        requires ready { IsReady 1 (⟦<LoopRecords<M> as Records>⟧.view self.old) }
        requires within { n < (⟦<LoopRecords<M> as Records>⟧.view self.old).record_count }
        ensures { Stored n from.now (⟦<LoopRecords<M> as Records>⟧.view self.old) (⟦<LoopRecords<M> as Records>⟧.view self.new) result }
    {
        self.write_run(n, 1, from)
    }

    fn read_run(&mut self, first: u16, into: &mut [u8]) -> Result<(), Trouble>
        requires records { AreRecords (length into.old) }
        requires ready { IsReady (length into.old / 256) (⟦<LoopRecords<M> as Records>⟧.view self.old) }
        requires within { first + length into.old / 256 ≤ (⟦<LoopRecords<M> as Records>⟧.view self.old).record_count }
        ensures { FetchedRun first (length into.old / 256) into.new (⟦<LoopRecords<M> as Records>⟧.view self.old) (⟦<LoopRecords<M> as Records>⟧.view self.new) result }
    {
        let answer = read_run(&mut self.ring, first, into);
        self.moved(answer)
    }

    fn write_run(&mut self, first: u16, count: u16, from: &[u8]) -> Result<(), Trouble>
        requires some { 1 ≤ count }
        requires fits { length from.now ≤ 256 * count }
        requires ready { IsReady count (⟦<LoopRecords<M> as Records>⟧.view self.old) }
        requires within { first + count ≤ (⟦<LoopRecords<M> as Records>⟧.view self.old).record_count }
        ensures { StoredRun first (cut count from.now) (⟦<LoopRecords<M> as Records>⟧.view self.old) (⟦<LoopRecords<M> as Records>⟧.view self.new) result }
    {
        let answer = write_run(&mut self.ring, first, count, from);
        self.moved(answer)
    }
}
