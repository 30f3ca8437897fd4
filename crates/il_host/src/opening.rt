ghost use Rattle.std.specs.Prelude.{◌≡◌, ◌<◌, ◌≤◌, ◌+◌, [], map, length, IfOk, IfErr};
ghost use Rattle.std.specs.List.{All};
ghost use Rattle.lif_model.specs.Shelf.{IsSize};
ghost use Rattle.il_ring.specs.Plans.{IsPlan};
ghost use Rattle.host_model.specs.HostStates.{log_room, text_room};
ghost use Rattle.il_host.specs.Hosts.{IsOpened, IsClosed, space_of, HasSpaceFor};
ghost use Rattle.il_host.specs.Whole.{MayStandBeside};

use crate::file_buffer::FileBuffer;
use crate::host::Host;
use crate::made_text::MadeText;
use crate::performer::Performer;
use il_control::Lost;
use il_ports::Medium;
use il_record::LoopRecords;
use il_ring::{Planned, Refused, Rig, Ring};
use il_script::Page;
use lif_pack::Packer;
use lif_volume::Volume;
use std::alloc::{AllocError, Global};
use std::marker::PhantomData;

/// How many entries the log of a command may have on a medium of so many records.
fn log_room(records: u16) -> usize
    ensures { result ≡ log_room records }
{
    5500 * usize::from(records) + 60_000
}

/// What a host takes memory for, on a medium of so many records.
#[derive(Drop)]
struct Memory {
    /// The text of every reply.
    page: Page,
    /// The bytes of every file.
    file: FileBuffer,
    /// The text of every payload.
    text: MadeText,
    /// The slots of every directory.
    packer: Packer,
}

impl Memory {
    /// All of it.
    fn new(alloc: Global, records: u16) -> Result<Memory, AllocError>
        requires { 37 < records }
        ensures page { IfOk result (λ m. m.page ≡ record { text = []; room = text_room records }) }
        ensures space { IfOk result (λ m. HasSpaceFor records (space_of m.file m.packer)) }
    {
        Ok(Memory {
            page: Page::new(alloc, 1000 * usize::from(records) + 20_000)?,
            file: FileBuffer::new(alloc, 256 * usize::from(records))?,
            text: MadeText::new(alloc)?,
            packer: Packer::new(alloc, records)?,
        })
    }
}

impl<M: Medium + Drop> Host<M> {
    /// A host for the tape that is in the drive, over the devices of the rig, with faults planned at these crossings of
    /// the loop. The log of a command has room for 5,500 entries for each record of the medium and 60,000 more. All
    /// memory of the host is taken here; where there is none the rig is handed back, and no frame was sent. A second
    /// controller in the rig stands on the loop.
    pub fn open(alloc: Global, rig: Rig<M>, plan: &[Planned]) -> Result<Host<M>, Refused<M>>
        requires devices { MayStandBeside (λ b. state b) rig.before.items rig.after.items rig.guest }
        requires size { IsSize (M.view rig.medium).record_count }
        requires plan { IsPlan plan.now }
        ensures opened { IfOk result (λ host. IsOpened M.view rig.medium (map (λ b. state b) rig.before.items) (map (λ b. state b) rig.after.items) rig.guest plan.now (⟦<Host<M> as Performer>⟧.view host)) }
        ensures refused { IfErr result (λ refused. refused.rig.medium ≡ rig.medium) }
        // The devices that are handed back are as they were.
        ensures before { IfErr result (λ refused. map (λ b. state b) refused.rig.before.items ≡ map (λ b. state b) rig.before.items) }
        ensures after { IfErr result (λ refused. map (λ b. state b) refused.rig.after.items ≡ map (λ b. state b) rig.after.items) }
        ensures guest { IfErr result (λ refused. refused.rig.guest ≡ rig.guest) }
    {
        let records = rig.medium.size();
        let Ok(memory) = Memory::new(alloc, records) else {
            return Err(Refused { rig });
        };
        let ring = match Ring::new(alloc, rig, plan, log_room(records)) {
            Ok(ring) => ring,
            Err(refused) => return Err(refused),
        };
        match Volume::open(alloc, LoopRecords::new(Lost::new(ring))) {
            Ok(volume) => Ok(Host {
                volume,
                page: memory.page,
                file: memory.file,
                text: memory.text,
                packer: memory.packer,
                devices: PhantomData,
            }),
            Err(kept) => Err(Refused {
                rig: kept.records.into_ring().into_rig(),
            }),
        }
    }

    /// Hands the rig back: the medium with the tape as it is, the devices, and a second controller that was in it.
    pub fn close(self) -> Rig<M>
        requires valid { (⟦<Host<M> as Performer>⟧.view self).valid }
        ensures closed { IsClosed M.view (⟦<Host<M> as Performer>⟧.view self) result.medium (map (λ b. state b) result.before.items) (map (λ b. state b) result.after.items) result.guest }
        ensures size { (M.view result.medium).record_count ≡ (⟦<Host<M> as Performer>⟧.view self).state.records }
    {
        self.volume.into_records().into_ring().into_rig()
    }

    /// How many crossings of links there were since the host was opened.
    pub fn crossings(&self) -> u64
        requires valid { (⟦<Host<M> as Performer>⟧.view self.now).valid }
        ensures { result ≡ (⟦<Host<M> as Performer>⟧.view self.now).state.crossings }
    {
        self.volume.records().ring().crossings()
    }
}
