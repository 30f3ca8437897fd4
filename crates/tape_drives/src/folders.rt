use std::alloc::{AllocError, Global};
use tape_folder::Folder;

/// Where folders come from.
pub trait Folders<F: Folder> {
    ghost use Rattle.std.specs.Prelude.{◌≡◌, IfOk, None, true};
    ghost use Rattle.tape_drives.specs.Lending.{Lending, MayGive, ComesBack};
    ghost use Rattle.tape_folder.specs.Paths.{IsFolderPath};

    // The folders that were given, and those that are back.
    ghost lent: { Self → Lending F };

    /// Gives the folder of that path. It takes all its memory here. Each one that was given before is back.
    fn folder(&mut self, alloc: Global, path: &str) -> Result<F, AllocError>
        requires { (lent self.old).all_back ≡ true }
        ensures gives { MayGive (lent self.old) (lent self.new) result }
        ensures closed { IfOk result (λ folder. (F.view folder).part ≡ None) }
        ensures path { IfOk result (λ folder. IsFolderPath path.now (F.view folder).path) };

    /// Takes a folder back.
    fn back(&mut self, folder: F)
        ensures { ComesBack (lent self.old) (lent self.new) folder };
}
