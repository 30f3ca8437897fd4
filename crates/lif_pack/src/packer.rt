ghost use Rattle.std.specs.Prelude.{◌<◌, IfOk};
ghost use Rattle.lif_pack.specs.Packers.{IsPackerFor};

use crate::memory::Packer;
use lif_dir::SlotTable;
use lif_model::{ENTRIES, Version};
use std::alloc::{AllocError, Global};

impl Packer {
    /// A packer for volumes on media of `size` records, which are more than 37. The error is want of memory.
    pub fn new(alloc: Global, size: u16) -> Result<Packer, AllocError>
        requires { 37 < size }
        ensures { IfOk result (IsPackerFor size) }
    {
        Ok(Packer {
            slots: SlotTable::new(alloc, ENTRIES * (usize::from(size) - BESIDE))?,
            changes: Vec::with_capacity(alloc, Version::Two.most_targets())?,
        })
    }
}

/// How many records of a medium no directory has: record 0, and the four of the redo file.
const BESIDE: usize = 5;
