use crate::making::{NotMade, Refused, make_new};
use il_ports::{Access, Failed, FileTape, Images, Inserted, Medium, New, Size, TapeFile};
use std::alloc::Global;
use std::io;
use std::marker::Model;

/// A drive with an image that was made for it. That image is its tape at any time: no other is ever inserted. The drive
/// can remove the image again.
#[derive(Drop)]
pub struct MadeImage<F: TapeFile + Drop, I: Images<F> + Drop> {
    images: I,
    tape: FileTape<F>,
    name: String,
}

impl<F: TapeFile + Drop, I: Images<F> + Drop> Model for MadeImage<F, I> {
    ghost use Rattle.std.specs.Prelude.{string_bytes};
    ghost use Rattle.made_images.specs.MadeImages.{MadeState, IsItsMaker};

    ghost Value = { MadeState F I };

    ghost view = { λ m. record { images = m.images; tape = m.tape; name = string_bytes m.name } };

    ghost invariant = { λ m. IsItsMaker F.view I.view
        (record { images = m.images; tape = m.tape; name = string_bytes m.name }) };
}

impl<F: TapeFile + Drop, I: Images<F> + Drop> MadeImage<F, I> {
    ghost use Rattle.std.specs.Prelude.{◌≡◌, IfErr, IfOk};
    ghost use Rattle.il_ports.specs.NamedImages.{ImagesGoOn, Removed};
    ghost use Rattle.made_images.specs.MadeImages.{IsItsMaker, IsMadeAs, IsNotMade, images_after};

    /// Makes an image of that name and size, in zeros, and inserts it. The name is its path. If something has the name
    /// already, that stays as it is. On success the disk has the image, and it has the name too if the folder can be
    /// synced. If the image cannot be made whole, this call tries to remove it again, unless another program has locked
    /// it. The error says why no image was made, and whether something of the name is left.
    pub fn make(
        alloc: Global,
        images: I,
        name: &str,
        size: Size,
    ) -> Result<MadeImage<F, I>, Refused<I>>
        ensures goes_on { ImagesGoOn (I.view images) (I.view (images_after result)) }
        ensures made { IfOk result (λ made. IsMadeAs F.view I.view name.now size made) }
        ensures refused { IfErr result (λ refused. IsNotMade F.view I.view name.now
            images refused.images refused.why) }
    {
        let Ok(kept_name) = String::from_str(alloc, name) else {
            return Err(Refused {
                images,
                why: NotMade::OutOfMemory,
            });
        };
        let mut images = images;
        match make_new(&mut images, name, size) {
            Ok(file) => Ok(MadeImage {
                images,
                tape: FileTape::new(file, size, Access::Change, 0),
                name: kept_name,
            }),
            Err(why) => Err(Refused { images, why }),
        }
    }

    /// The file of the image, which may be changed and removed at any time.
    pub fn file(&self) -> &F
        ensures file { result.now ≡ self.now.tape.file }
        ensures own { IsItsMaker F.view I.view self.now }
    {
        self.tape.file()
    }

    /// Removes the image, closes its file and returns the images. The lock is held until the name is gone. It is an
    /// error if the system does not remove the image, which may then still be there.
    pub fn remove(self) -> (io::Result<()>, I)
        ensures { Removed (I.view self.images) (I.view result.1) result.0 }
    {
        let mut images = self.images;
        let file = self.tape.into_file();
        let removed = images.remove(&self.name, file);
        (removed, images)
    }
}

impl<F: TapeFile + Drop, I: Images<F> + Drop> Medium for MadeImage<F, I> {
    ghost use Rattle.std.specs.Prelude.{◌≡◌, ◌<◌, IsErr, Some};
    ghost use Rattle.il_ports.specs.FileDrives.{ReadsTape, WritesTape};
    ghost use Rattle.il_ports.specs.FileLaws.{drive_laws};
    ghost use Rattle.il_ports.specs.Media.{DidReadRecord, DidWriteRecord};
    ghost use Rattle.made_images.specs.MadeImages.{medium_of};

    ghost view = { medium_of F.view I.view };

    ghost refuses = { λ m w name made. ⊥ };

    ghost is_medium = { λ m. drive_laws F.view (I.view m.images).shelf (Some m.tape) 0 F.is_file };

    /// A tape is inserted at any time, so this answers an error, and nothing changes. No count rises.
    fn insert(&mut self, _: &str, _: New) -> Result<Inserted, Failed>
        ensures refused { IsErr result }
        ensures same { self.new ≡ self.old }
    {
        Err(Failed)
    }

    fn size(&self) -> u16 {
        self.tape.records()
    }

    fn read(&mut self, n: u16, into: &mut [u8; 256]) -> Result<(), Failed>
        requires { n < (medium_of F.view I.view self.old).record_count }
        ensures did { DidReadRecord n into.new
            (medium_of F.view I.view self.old) (medium_of F.view I.view self.new) result }
        ensures tape { ReadsTape F.view result self.old.tape self.new.tape }
        ensures images { self.new.images ≡ self.old.images }
        ensures name { self.new.name ≡ self.old.name }
    {
        self.tape.read(n, into)
    }

    fn write(&mut self, n: u16, from: &[u8; 256]) -> Result<(), Failed>
        requires { n < (medium_of F.view I.view self.old).record_count }
        ensures did { DidWriteRecord n from.now
            (medium_of F.view I.view self.old) (medium_of F.view I.view self.new) result }
        ensures tape { WritesTape F.view n result self.old.tape self.new.tape }
        ensures images { self.new.images ≡ self.old.images }
        ensures name { self.new.name ≡ self.old.name }
    {
        self.tape.write(n, from)
    }
}
