//! The memory of packing.
ghost use Rattle.std.specs.Prelude.{◌≤◌, vec_capacity};
ghost use Rattle.lif_model.specs.Redo.{most_targets};
ghost use Rattle.lif_model.specs.declared.version.Version.TheVariants.{Two};

use lif_dir::SlotTable;
use lif_model::Record;

/// Packs volumes, and finishes a packing that was stopped. All memory is taken by `new`.
#[derive(Drop)]
pub struct Packer {
    /// The slots of the directory, as they stand between two commits.
    pub(crate) slots: SlotTable,
    /// What one commit changes: records of the directory, and the records of a file that are moved, 30 at most.
    pub(crate) changes: Vec<(u16, Record)>,
    ghost memory: { most_targets Two ≤ vec_capacity changes },
}
