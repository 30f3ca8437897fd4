use il_ports::{Medium, Size};
use made_images::NotMade;
use std::alloc::Global;

/// Where new images come from. Each is made for a drive of its own, which is given with the image in it.
pub trait Makers<M: Medium> {
    ghost use Rattle.std.specs.Prelude.{◌≡◌, true};
    ghost use Rattle.tape_drives.specs.Making.{Making, MayMake, KeepsImage, Removes};

    // The images that were made, and what became of them.
    ghost making: { Self → Making M };

    /// Makes an image of that name, in zeros, and gives the drive that has it. Something that has the name already is
    /// left as it is. Each drive that was given before is back.
    fn make(&mut self, alloc: Global, name: &str, size: Size) -> Result<M, NotMade>
        requires { (making self.old).lending.all_back ≡ true }
        ensures { MayMake M.view name.now size (making self.old) (making self.new) result };

    /// Takes a drive back. Its image stays.
    fn keep(&mut self, drive: M)
        ensures { KeepsImage (making self.old) (making self.new) drive };

    /// Takes a drive back, removes its image, and says whether it was removed.
    fn remove(&mut self, drive: M) -> bool
        ensures { Removes (making self.old) (making self.new) drive result };
}
