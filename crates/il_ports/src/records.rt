/// Why a store of records could not do what was asked.
#[derive(Clone, Copy, Debug, PartialEq, Eq)]
pub enum Trouble {
    /// A frame was lost or altered on the loop.
    Frame,
    /// The medium failed.
    Medium,
}

/// The records of one tape, as the volume sees them: N of them, 512 or 2,464 over a medium, numbered from 0, of 256
/// bytes each.
///
/// After a trouble the store is not sound: no record can be read or written until `resume` answers Ok. The number of
/// records never changes.
pub trait Records {
    ghost use Rattle.std.specs.Prelude.{◌≡◌, ◌<◌, ◌≤◌, ◌+◌, ◌*◌, ◌/◌, length};
    ghost use Rattle.lif_model.specs.Shelf.{cut};
    ghost use Rattle.il_ports.specs.Stores.{RecordsView, IsStore, IsReady, AreRecords, Begun, Resumed, Fetched, Stored, FetchedRun, StoredRun};

    /// A store as it stood when its log was last emptied. Only contracts speak of it.
    type Start;

    ghost view: { Self → RecordsView Self.Start };

    /// The number of records.
    fn size(&self) -> u16
        requires { (view self.now).valid }
        ensures { result ≡ (view self.now).record_count };

    /// Whether records can be read and written.
    fn is_sound(&self) -> bool
        requires { (view self.now).valid }
        ensures { result ≡ (view self.now).sound };

    /// How many records may still be read and written. A call of `resume` counts as one record, and so does each record
    /// of a run.
    fn left(&self) -> u32
        requires { (view self.now).valid }
        ensures { result ≡ (view self.now).calls_left };

    /// Empties the log that the store keeps, if it keeps one, and with it the list of reads and writes. Then at least
    /// as many records may be read and written as before, and as after each earlier emptying.
    fn begin(&mut self)
        requires { (view self.old).valid }
        ensures { Begun (view self.old) (view self.new) };

    /// Makes the store sound again. No record changes.
    fn resume(&mut self) -> Result<(), Trouble>
        requires valid { (view self.old).valid }
        requires left { 1 ≤ (view self.old).calls_left }
        ensures { Resumed (view self.old) (view self.new) result };

    /// Reads record `n` of a sound store into `into`. After a trouble `into` holds any bytes. No record changes.
    fn read(&mut self, n: u16, into: &mut [u8; 256]) -> Result<(), Trouble>
        requires ready { IsReady 1 (view self.old) }
        requires within { n < (view self.old).record_count }
        ensures { Fetched n into.new (view self.old) (view self.new) result };

    /// Writes record `n` of a sound store. After a trouble the record holds any bytes. All other records are as before.
    /// A power stop during the call leaves any bytes in the record and changes no other.
    fn write(&mut self, n: u16, from: &[u8; 256]) -> Result<(), Trouble>
        requires ready { IsReady 1 (view self.old) }
        requires within { n < (view self.old).record_count }
        ensures { Stored n from.now (view self.old) (view self.new) result };

    /// Reads records of a sound store, from record `first` on, as many as fill `into`. After a trouble `into` holds any
    /// bytes. No record changes.
    fn read_run(&mut self, first: u16, into: &mut [u8]) -> Result<(), Trouble>
        requires records { AreRecords (length into.old) }
        requires ready { IsReady (length into.old / 256) (view self.old) }
        requires within { first + length into.old / 256 ≤ (view self.old).record_count }
        ensures { FetchedRun first (length into.old / 256) into.new (view self.old) (view self.new) result };

    /// Writes `count` records of a sound store, from record `first` on: the bytes of `from`, filled up with zeros.
    /// After a trouble some of them stand, the first ones, the record of the next holds any bytes, and all others are
    /// as before. A power stop during the call leaves such a tape.
    fn write_run(&mut self, first: u16, count: u16, from: &[u8]) -> Result<(), Trouble>
        requires some { 1 ≤ count }
        requires fits { length from.now ≤ 256 * count }
        requires ready { IsReady count (view self.old) }
        requires within { first + count ≤ (view self.old).record_count }
        ensures { StoredRun first (cut count from.now) (view self.old) (view self.new) result };

    ghost is_store: { (r : Self) → IsStore (view r) };
}
