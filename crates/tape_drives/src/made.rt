ghost use Rattle.std.specs.Prelude.{IfErr, IfOk};
ghost use Rattle.made_images.specs.MadeImages.{IsMadeAs};
ghost use Rattle.tape_drives.specs.SystemMaking.{IsRefusal, IsRemoval};

use il_ports::{Images, Size, TapeFile};
use made_images::{MadeImage, NotMade};
use std::alloc::Global;

/// Makes an image of that name and size among these images, in zeros, or says why none was made.
pub(crate) fn make_among<F: TapeFile + Drop, I: Images<F> + Drop>(
    alloc: Global,
    images: I,
    name: &str,
    size: Size,
) -> Result<MadeImage<F, I>, NotMade>
    ensures made { IfOk result (λ made. IsMadeAs F.view I.view name.now size made) }
    ensures refused { IfErr result (λ why. IsRefusal F.view I.view name.now images why) }
{
    match MadeImage::make(alloc, images, name, size) {
        Ok(drive) => Ok(drive),
        Err(refused) => Err(refused.why),
    }
}

/// Removes the image of a drive, and says whether that was done.
pub(crate) fn take_away<F: TapeFile + Drop, I: Images<F> + Drop>(drive: MadeImage<F, I>) -> bool
    ensures { IsRemoval I.view drive result }
{
    let (removed, _) = drive.remove();
    removed.is_ok()
}
