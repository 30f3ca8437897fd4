use il_ports::Medium;

/// Where drives come from: each image is inserted in a drive of its own.
pub trait Drives<M: Medium> {
    ghost use Rattle.std.specs.Prelude.{◌≡◌, true};
    ghost use Rattle.tape_drives.specs.Lending.{Lending, Gives, ComesBack};

    // The drives that were given, and those that are back.
    ghost lent: { Self → Lending M };

    /// Gives an empty drive. Each one that was given before is back.
    fn drive(&mut self) -> M
        requires { (lent self.old).all_back ≡ true }
        ensures empty { (M.view result).record_count ≡ 0 }
        ensures gives { Gives (lent self.old) (lent self.new) result };

    /// Takes a drive back.
    fn back(&mut self, drive: M)
        ensures { ComesBack (lent self.old) (lent self.new) drive };
}
