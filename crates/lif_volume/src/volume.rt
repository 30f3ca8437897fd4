use crate::fault::VolumeFault;
use crate::reading::{read_directory, read_front};
use il_ports::Records;
use lif_commit::Staged;
use lif_dir::{Name, SlotTable};
use lif_header::Header;
use lif_model::{ENTRIES, RECORD};
use lif_plan::{BatchPlan, Directory};
use lif_redo::settle_gate;
use std::alloc::Global;

/// What `dir` answers: what record 0 says. The slots stand in `Volume::slots`.
#[derive(Clone, Copy, Debug, PartialEq, Eq)]
pub struct Listing {
    /// The label, with its spaces.
    pub label: [u8; 6],
    /// The first record of the directory.
    pub start: u16,
    /// How many records the directory has.
    pub length: u16,
}

/// What `fetch` answers.
#[derive(Clone, Copy, Debug, PartialEq, Eq)]
pub struct Fetched {
    /// The type.
    pub kind: u16,
    /// The implementation field, whose meaning depends on the type.
    pub implementation: [u8; 4],
    /// How many bytes the file's records have.
    pub length: usize,
}

/// There was no memory for the volume. The records are handed back.
#[derive(Drop)]
pub struct Kept<R> {
    pub records: R,
}

/// A LIF volume on a store of records.
#[derive(Drop)]
pub struct Volume<R> {
    pub(crate) records: R,
    pub(crate) directory: Directory,
    pub(crate) staged: Staged,
    pub(crate) plan: BatchPlan,
    pub(crate) kept: Option<Header>,
    /// Whether the gate of the redo file reads open.
    pub(crate) is_open: bool,
}

impl<R: Records> Volume<R> {
    ghost use Rattle.std.specs.Prelude.{◌≡◌, ◌<◌, ◌≤◌, ◌*◌, length, Some, None, Ok, IfSome, IfOk, IfErr, is_some};
    ghost use Rattle.std.specs.Borrow.{sem};
    ghost use Rattle.lif_model.specs.Apply.{Dir, Label, Fetch};
    ghost use Rattle.il_ports.specs.Stores.{Begun};
    ghost use Rattle.lif_dir.specs.Entries.{name_bytes};
    ghost use Rattle.lif_volume.specs.Views.{IsOpen};
    ghost use Rattle.lif_volume.specs.Seen.{seen};
    ghost use Rattle.lif_volume.specs.Lending.{LendsRecords};
    ghost use Rattle.lif_volume.specs.Answers.{IsNotLif};
    ghost use Rattle.lif_volume.specs.Commands.{IsReadyFor, Mounts, IsRefusedExactly, KeepsVolume, OnlySettles, WritesBySettling, TellsGate};
    ghost use Rattle.lif_volume.specs.Commands.{Lists, Labels, FetchesFile, FetchesByRun};
    ghost use Rattle.lif_volume.specs.Did.{Did};

    /// A volume on these records, of which nothing is read yet. All memory of the volume is taken
    /// here; where there is none the records are handed back.
    pub fn open(alloc: Global, records: R) -> Result<Volume<R>, Kept<R>>
        requires valid { (R.view records).valid }
        requires size { 37 < (R.view records).record_count }
        ensures open { IfOk result (λ volume.
            IsOpen R.view (seen volume)) }
        ensures records { IfOk result (λ volume.
            (seen volume).records ≡ records) }
        ensures kept { IfOk result (λ volume.
            (seen volume).kept ≡ None) }
        ensures handed_back { IfErr result (λ kept. kept.records ≡ records) }
    {
        let room = ENTRIES * (usize::from(records.size()) - BESIDE);
        match (
            Directory::new(alloc, room),
            Staged::new(alloc),
            BatchPlan::new(alloc),
        ) {
            (Ok(directory), Ok(staged), Ok(plan)) => Ok(Volume {
                records,
                directory,
                staged,
                plan,
                kept: None,
                is_open: false,
            }),
            _ => Err(Kept { records }),
        }
    }

    /// What record 0 says, if it and the directory are kept from the last command.
    pub fn header(&self) -> Option<Header>
        ensures { result ≡ (seen self.now).kept }
    {
        self.kept
    }

    /// Whether record 0 and the directory are kept from the last command.
    pub fn is_kept(&self) -> bool
        ensures { result ≡ is_some (seen self.now).kept }
    {
        self.kept.is_some()
    }

    /// The store of records.
    pub fn records(&self) -> &R
        ensures { result.now ≡ (seen self.now).records }
    {
        &self.records
    }

    /// The store of records, lent. What was kept of the directory is forgotten.
    pub fn records_mut(&mut self) -> &mut R
        ensures* writes_back { sem 𝓛 (LendsRecords R.row self.entry result) }
        ensures value { result.now ≡ (seen self.old).records }
    {
        self.kept = None;
        &mut self.records
    }

    /// Empties the log that the store keeps, if it keeps one. What is kept of the directory stays.
    pub fn begin(&mut self)
        requires { IsOpen R.view (seen self.old) }
        ensures open { IsOpen R.view (seen self.new) }
        ensures begun { Begun (R.view (seen self.old).records)
            (R.view (seen self.new).records) }
        ensures kept { (seen self.new).kept
            ≡ (seen self.old).kept }
        ensures slots { (seen self.new).slots
            ≡ (seen self.old).slots }
    {
        self.records.begin();
    }

    /// Hands the records back.
    pub fn into_records(self) -> R
        ensures { result ≡ (seen self).records }
    {
        self.records
    }

    /// The slots that the last reading of the directory found: all of them after an Ok of `dir`.
    pub fn slots(&self) -> &SlotTable
        ensures { result.now.slots ≡ (seen self.now).slots }
    {
        &self.directory.table
    }

    /// Settles the tape, reads record 0 and the directory, tests that they are legal, and keeps
    /// them. Where they are kept it does nothing.
    pub(crate) fn mount(&mut self) -> Result<Header, VolumeFault>
        requires open { IsOpen R.view (seen self.old) }
        requires ready { IsReadyFor R.view (seen self.old) }
        ensures open { IsOpen R.view (seen self.new) }
        ensures consults { Mounts R.view (seen self.old)
            (seen self.new) result }
        ensures kept { IfOk result (λ header.
            (seen self.new).kept ≡ Some header) }
        ensures still { IfSome (seen self.old).kept (λ header.
            (result ≡ Ok header) × (self.new ≡ self.old)) }
        // It is refused exactly where the settled tape is not legal, and then with NotLif.
        ensures only { IfErr result IsNotLif }
        ensures exactly { IsRefusedExactly R.view (seen self.old) result }
        // Nothing is changed but by settling, and the volume of a tape that is not foreign-gated stays:
        // at any moment, and also after a trouble.
        ensures settling { OnlySettles R.view (seen self.old)
            (seen self.new) }
        ensures stays { KeepsVolume R.view (seen self.old)
            (seen self.new) }
        ensures transfers { WritesBySettling R.view (seen self.old)
            (seen self.new) result }
        ensures gate { TellsGate R.view (seen self.new) result }
    {
        if let Some(header) = self.kept {
            return Ok(header);
        }
        self.is_open = settle_gate(&mut self.records)?.reads_open();
        let header = read_directory(&mut self.records, &mut self.directory, &mut self.staged)?;
        self.kept = Some(header);
        Ok(header)
    }

    /// Lists the volume: what record 0 says, and the slots, which stand in `slots` from then on.
    pub fn dir(&mut self) -> Result<Listing, VolumeFault>
        requires open { IsOpen R.view (seen self.old) }
        requires ready { IsReadyFor R.view (seen self.old) }
        ensures open { IsOpen R.view (seen self.new) }
        ensures did { Did Dir R.view (seen self.old) (seen self.new) result }
        // It is refused exactly where the settled tape is not legal.
        ensures exactly { IsRefusedExactly R.view (seen self.old) result }
        ensures listed { IfOk result (Lists R.view (seen self.old) (seen self.new)) }
        ensures kept { IfOk result (λ listing. (seen self.new).kept
            ≡ Some (record { label = listing.label; start = listing.start; length = listing.length })) }
    {
        let header = self.mount()?;
        Ok(Listing {
            label: header.label(),
            start: header.start(),
            length: header.length(),
        })
    }

    /// The label of the volume, with its spaces.
    pub fn label(&mut self) -> Result<[u8; 6], VolumeFault>
        requires open { IsOpen R.view (seen self.old) }
        requires ready { IsReadyFor R.view (seen self.old) }
        ensures open { IsOpen R.view (seen self.new) }
        ensures did { Did Label R.view (seen self.old) (seen self.new) result }
        // It is refused exactly where the settled tape is not legal.
        ensures exactly { IsRefusedExactly R.view (seen self.old) result }
        ensures label { IfOk result (Labels R.view (seen self.old)) }
    {
        let header = self.mount()?;
        Ok(header.label())
    }

    /// Reads all records of a file into the front of `into`, by one run, or by none where it has no
    /// records. The redo file of an adopted volume is protected.
    pub fn fetch(&mut self, name: &Name, into: &mut [u8]) -> Result<Fetched, VolumeFault>
        requires open { IsOpen R.view (seen self.old) }
        requires ready { IsReadyFor R.view (seen self.old) }
        requires room { 256 * (R.view (seen self.old).records).record_count ≤ length into.old }
        ensures open { IsOpen R.view (seen self.new) }
        ensures did { Did (Fetch (name_bytes name.now)) R.view (seen self.old) (seen self.new) result }
        ensures fetched { IfOk result (λ fetched. FetchesFile (name_bytes name.now) R.view (seen self.old) fetched into.new) }
        ensures run { IfOk result (λ fetched. FetchesByRun (name_bytes name.now) R.view (seen self.old) (seen self.new)
            fetched into.new) }
    {
        self.mount()?;
        let file = self.directory.file_named(name, self.records.size())?;
        if let Err(trouble) = read_front(&mut self.records, file.first, file.count, into) {
            self.kept = None;
            return Err(VolumeFault::Trouble(trouble));
        }
        let implementation = file.implementation;
        Ok(Fetched {
            kind: file.kind,
            implementation,
            length: RECORD * file.count as usize,
        })
    }
}

/// How many records of a medium no directory has: record 0, and the four of the redo file.
const BESIDE: usize = 5;
