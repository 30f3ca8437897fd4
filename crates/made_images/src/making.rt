ghost use Rattle.std.specs.Prelude.{IfErr, IfOk};
ghost use Rattle.il_ports.specs.NamedImages.{ImagesGoOn};
ghost use Rattle.il_ports.specs.declared.images.Look.TheVariants as look;
ghost use Rattle.made_images.specs.MadeImages.{IsNewImage, IsNotMade, FailsToMake, LooksAgain};

use il_ports::{Images, Look, Size, TapeFile, make_image};

/// Why an image was not made.
#[derive(Clone, Copy, Debug, PartialEq, Eq)]
pub enum NotMade {
    /// Something has its name already. Nothing was made.
    Exists,
    /// It could not be found out whether something has its name. Nothing was made.
    NotLooked,
    /// The image could not be made whole. A look afterwards found nothing of its name.
    Failed,
    /// The image could not be made whole. A look afterwards found something of its name, or that look failed.
    Left,
    /// There was no memory for its name. Nothing was made, and the images were not asked.
    OutOfMemory,
}

/// Images of which none was made, and why.
#[derive(Drop)]
pub struct Refused<I: Drop> {
    /// The images.
    pub images: I,
    /// Why none was made.
    pub why: NotMade,
}

/// Looks at the name of an image that could not be made whole. It answers `Failed` if and only if that look finds
/// nothing, and otherwise `Left`.
fn look_again<F: TapeFile, I: Images<F>>(images: &mut I, name: &str) -> NotMade
    ensures { LooksAgain name.now (I.view images.old) (I.view images.new) result }
{
    match images.look(name) {
        Ok(Look::Missing) => NotMade::Failed,
        _ => NotMade::Left,
    }
}

/// Makes the image, of whose name a look has found nothing.
fn make_missing<F: TapeFile + Drop, I: Images<F>>(
    images: &mut I,
    name: &str,
    size: Size,
) -> Result<F, NotMade>
    requires missing { (I.view images.old).was_found name.now look.Missing }
    ensures goes_on { ImagesGoOn (I.view images.old) (I.view images.new) }
    ensures made { IfOk result (λ file. IsNewImage name.now size (I.view images.new) (F.view file)) }
    ensures refused { IfErr result (λ why. FailsToMake F.view I.view name.now images.old images.new why) }
{
    match make_image(images, name, size) {
        Ok(file) => Ok(file),
        Err(_) => Err(look_again(images, name)),
    }
}

/// Looks at the name, and makes the image if nothing has the name.
pub(crate) fn make_new<F: TapeFile + Drop, I: Images<F>>(
    images: &mut I,
    name: &str,
    size: Size,
) -> Result<F, NotMade>
    ensures goes_on { ImagesGoOn (I.view images.old) (I.view images.new) }
    ensures made { IfOk result (λ file. IsNewImage name.now size (I.view images.new) (F.view file)) }
    ensures refused { IfErr result (λ why. IsNotMade F.view I.view name.now images.old images.new why) }
{
    match images.look(name) {
        Ok(Look::Missing) => make_missing(images, name, size),
        Ok(_) => Err(NotMade::Exists),
        Err(_) => Err(NotMade::NotLooked),
    }
}
