ghost use Rattle.std.specs.Prelude.{◌≡◌, ◌≢◌, IfOk, OnOk, OnErr, None, Some, false};
ghost use Rattle.lif_model.specs.Causes.{Rose};
ghost use Rattle.lif_model.specs.Shelf.{Shelf, image_of, image_bytes};
ghost use Rattle.il_ports.specs.Inserting.{records_made};
ghost use Rattle.il_ports.specs.NamedImages.{ImagesGoOn, IsOpenedFor, MakesNone, Opens};
ghost use Rattle.il_ports.specs.FileDrives.{IsFoundFile, FoundFor, UsesAs};
ghost use Rattle.il_ports.specs.Files.{IsSettledFile};
ghost use Rattle.il_ports.specs.FindingFiles.{Claims, LaidOut, LayingFails, Claimable, WasMade, MakeFails, InsertFails};
ghost use Rattle.il_ports.specs.Sizes.{records_of_size};
ghost use Rattle.il_ports.specs.declared.images.Naming.{Naming};
ghost use Rattle.il_ports.specs.declared.images.Look.TheVariants as look;
ghost use Rattle.il_ports.specs.declared.tape_file.Access.{Access};
ghost use Rattle.il_ports.specs.declared.tape_file.Access.TheVariants.{Change};

use crate::file_tape::FileTape;
use crate::image::Size;
use crate::images::{Images, Look};
use crate::medium::{Inserted, Medium, New};
use crate::stream::{Failed, faulted};
use crate::tape_file::{Access, TapeFile};
use std::io::{self, ErrorKind};
use std::marker::Model;

/// Claims a file that was opened, sets it apart from the standard streams and measures it, in this order. Then it waits
/// until the disk has all that an earlier program wrote to the file, unless that is known. It returns the length in
/// bytes.
fn take<F: TapeFile>(file: &mut F, access: Access, is_settled: bool) -> io::Result<u64>
    requires sound { Claimable access is_settled (F.view file.old) }
    ensures { Claims access (F.view file.old) (F.view file.new) result }
{
    if !file.claim(access) {
        return Err(ErrorKind::WouldBlock.into());
    }
    file.apart()?;
    let length = file.len()?;
    if !is_settled {
        file.settle()?;
    }
    Ok(length)
}

/// Gives a new file its full size, in zeros. It waits until the disk has the file, and then brings the file's name to
/// the disk.
fn lay_out<F: TapeFile, I: Images<F>>(
    images: &mut I,
    file: &mut F,
    name: &str,
    size: Size,
) -> io::Result<()>
    requires sound { (F.view file.old).broken ≡ false }
    requires held { (F.view file.old).held Change }
    requires made { (F.view file.old).made }
    requires named { (s : Shelf) → (I.view images.old).shelf ≡ Some s → (F.view file.old).named ≡ Some name.now }
    ensures goes_on { ImagesGoOn (I.view images.old) (I.view images.new) }
    ensures did { LaidOut (image_bytes (records_of_size size)) (F.view file.old) (F.view file.new) result }
    ensures named { OnOk result ((how : Naming) × (I.view images.new).settled name.now how) }
    ensures fails { OnErr result (LayingFails (F.view file.old) (F.view file.new) (I.view images.old) (I.view images.new)) }
{
    file.apart()?;
    file.set_len(size.bytes())?;
    file.settle()?;
    images.settle_name(name, file)?;
    Ok(())
}

/// Makes a file of zeros, which has its full size at once. A look has found nothing of that name; if something has the
/// name by now, that stays, and the call fails. If the file cannot have that size, it is removed again while its lock is
/// held. If another program has the lock already, the file belongs to that program, and it stays.
pub fn make_image<F: TapeFile + Drop, I: Images<F>>(
    images: &mut I,
    name: &str,
    size: Size,
) -> io::Result<F>
    requires missing { (I.view images.old).was_found name.now look.Missing }
    ensures goes_on { ImagesGoOn (I.view images.old) (I.view images.new) }
    ensures did { IfOk result (λ file. WasMade name.now (I.view images.new).shelf (image_bytes (records_of_size size)) (F.view file)) }
    ensures named { OnOk result ((how : Naming) × (I.view images.new).settled name.now how) }
    ensures fails { OnErr result (MakeFails F.view (I.view images.old) (I.view images.new)) }
{
    let mut file = images.make(name)?;
    if !file.claim(Access::Change) {
        return Err(ErrorKind::WouldBlock.into());
    }
    match lay_out(images, &mut file, name, size) {
        Ok(()) => Ok(file),
        Err(error) => {
            let _ = images.remove(name, file);
            Err(error)
        }
    }
}

/// Opens an image for that access. If it was to be changed and may not be, it is opened only to be read, and the disk
/// has what it reads as.
fn open<F: TapeFile, I: Images<F>>(
    images: &mut I,
    name: &str,
    access: Access,
) -> io::Result<(F, Access)>
    requires there { (I.view images.old).was_found name.now look.File }
    ensures goes_on { ImagesGoOn (I.view images.old) (I.view images.new) }
    ensures unmade { MakesNone (I.view images.old) (I.view images.new) }
    ensures did { IfOk result (λ opened. IsOpenedFor name.now opened.1 (I.view images.new).shelf (F.view opened.0)) }
    ensures settled { IfOk result (λ opened. opened.1 ≢ access → IsSettledFile (F.view opened.0)) }
    ensures used { IfOk result (λ opened. UsesAs access ((I.view images.new).denied name.now) opened.1) }
    ensures fails { OnErr result (Rose ((I.view images.old).failures Opens) ((I.view images.new).failures Opens)) }
{
    match images.open(name, access) {
        Ok(file) => Ok((file, access)),
        Err(error) => match error.kind() {
            ErrorKind::PermissionDenied | ErrorKind::ReadOnlyFilesystem => {
                Ok((images.open(name, Access::Read)?, Access::Read))
            }
            _ => Err(error),
        },
    }
}

/// What an insert finds.
enum Found<F: TapeFile + Drop> {
    /// A file, the size that it reads as, and what it may be used for.
    Tape(F, Size, Access),
    /// There is no image, and none was to be made.
    NoSuch,
    /// The file has more bytes than a disc.
    BadSize(u64),
}

/// Opens the image that a look has found.
fn find_file<F: TapeFile + Drop, I: Images<F>>(
    images: &mut I,
    name: &str,
    new: New,
    access: Access,
) -> io::Result<Found<F>>
    requires there { (I.view images.old).was_found name.now look.File }
    ensures goes_on { ImagesGoOn (I.view images.old) (I.view images.new) }
    ensures did { IfOk result (λ found. IsFoundFile F.view name.now new (I.view images.new).shelf found) }
    ensures used { IfOk result (λ found. FoundFor name.now access (I.view images.old) (I.view images.new) found) }
    ensures fails { OnErr result (InsertFails F.view name.now (records_made new) access (I.view images.old) (I.view images.new)) }
{
    let (mut file, used) = open(images, name, access)?;
    let length = take(&mut file, used, used != access)?;
    match Size::of(length) {
        Some(size) => Ok(Found::Tape(file, size, used)),
        None => Ok(Found::BadSize(length)),
    }
}

/// Makes the image, if one must be made.
fn make_file<F: TapeFile + Drop, I: Images<F>>(
    images: &mut I,
    name: &str,
    new: New,
    access: Access,
) -> io::Result<Found<F>>
    requires missing { (I.view images.old).was_found name.now look.Missing }
    requires none { (s : Shelf) → (I.view images.old).shelf ≡ Some s → image_of name.now s ≡ None }
    ensures goes_on { ImagesGoOn (I.view images.old) (I.view images.new) }
    ensures did { IfOk result (λ found. IsFoundFile F.view name.now new (I.view images.new).shelf found) }
    ensures used { IfOk result (λ found. FoundFor name.now access (I.view images.old) (I.view images.new) found) }
    ensures fails { OnErr result (InsertFails F.view name.now (records_made new) access (I.view images.old) (I.view images.new)) }
{
    let Some(size) = new.size() else {
        return Ok(Found::NoSuch);
    };
    if access == Access::Read {
        return Err(ErrorKind::PermissionDenied.into());
    }
    Ok(Found::Tape(make_image(images, name, size)?, size, access))
}

/// Looks for the image, and opens or makes it.
fn find<F: TapeFile + Drop, I: Images<F>>(
    images: &mut I,
    name: &str,
    new: New,
    access: Access,
) -> io::Result<Found<F>>
    ensures goes_on { ImagesGoOn (I.view images.old) (I.view images.new) }
    ensures did { IfOk result (λ found. IsFoundFile F.view name.now new (I.view images.new).shelf found) }
    ensures used { IfOk result (λ found. FoundFor name.now access (I.view images.old) (I.view images.new) found) }
    ensures fails { OnErr result (InsertFails F.view name.now (records_made new) access (I.view images.old) (I.view images.new)) }
{
    match images.look(name)? {
        Look::Missing => make_file(images, name, new, access),
        Look::File => find_file(images, name, new, access),
        Look::Other => Err(ErrorKind::InvalidInput.into()),
    }
}

/// What a drive opens its images for: to change them if they may be changed, or only to read them.
pub trait Opening: Drop {
    ghost use Rattle.std.specs.Prelude.{◌≡◌};
    ghost use Rattle.il_ports.specs.declared.tape_file.Access.{Access};

    ghost access: { Access };

    /// The access that it asks for.
    fn access(&self) -> Access
        ensures { result ≡ access };
}

/// The drive opens images to change them. An image that may not be changed is opened only to be read.
#[derive(Debug, Drop)]
pub struct ToChange;

impl Opening for ToChange {
    ghost use Rattle.il_ports.specs.declared.tape_file.Access.TheVariants.{Change};

    ghost access = { Change };

    fn access(&self) -> Access {
        Access::Change
    }
}

/// The drive opens images only to read them.
#[derive(Debug, Drop)]
pub struct ToRead;

impl Opening for ToRead {
    ghost use Rattle.il_ports.specs.declared.tape_file.Access.TheVariants.{Read};

    ghost access = { Read };

    fn access(&self) -> Access {
        Access::Read
    }
}

/// Images as files, with a drive. An image is named by its path.
///
/// An insert answers `NoSuch` if the file is missing and `new` is `No`; otherwise it makes a missing file, of 131,072
/// or of 630,784 zeros. It answers `BadSize` if the file has more bytes than a disc. It is a counted fault if
/// something that is no file has that name, such as a folder or a device, if another program holds the image, if the
/// folder of a new image is missing, or if another call of the images or of the file fails. One error counts as no
/// fault: if the image may not be changed, it is opened only to be read, and then each write to it is a fault.
///
/// A write is on the disk before it answers Ok. A write past the file's end makes the file longer, up to the end of
/// the record, with zeros in between. No file grows past the bytes of its tape or disc, or becomes shorter. The drive
/// syncs the file after each write, also after a failed one. If a sync fails, what the file reads as may never reach
/// the disk: each later read and write is then a fault, and nothing more is asked of the file. Only the images take
/// memory.
#[derive(Drop)]
pub struct FileMedium<F: TapeFile + Drop, I: Images<F> + Drop, A: Opening> {
    images: I,
    opening: A,
    tape: Option<FileTape<F>>,
    /// How many calls failed while no tape was inserted.
    faults: u64,
}

impl<F: TapeFile + Drop, I: Images<F> + Drop, A: Opening> Model for FileMedium<F, I, A> {
    ghost use Rattle.il_ports.specs.FileDrives.{FileDrive, IsUsedFor};

    ghost Value = { FileDrive F I };

    ghost view = { λ m. record { images = m.images; tape = m.tape; faults = m.faults } };

    ghost invariant = { λ m. IsUsedFor A.access (I.view m.images) m.tape };
}

impl<F: TapeFile + Drop, I: Images<F> + Drop> FileMedium<F, I, ToChange> {
    ghost use Rattle.std.specs.Prelude.{◌≡◌, None};

    /// An empty drive over these images.
    pub fn new(images: I) -> FileMedium<F, I, ToChange>
        ensures { result ≡ record { images = images; tape = None; faults = 0 } }
    {
        FileMedium {
            images,
            opening: ToChange,
            tape: None,
            faults: 0,
        }
    }
}

impl<F: TapeFile + Drop, I: Images<F> + Drop> FileMedium<F, I, ToRead> {
    ghost use Rattle.std.specs.Prelude.{◌≡◌, None};

    /// An empty drive that only reads these images: each write is a counted fault, and so is an insert that would make
    /// an image.
    pub fn to_read(images: I) -> FileMedium<F, I, ToRead>
        ensures { result ≡ record { images = images; tape = None; faults = 0 } }
    {
        FileMedium {
            images,
            opening: ToRead,
            tape: None,
            faults: 0,
        }
    }
}

impl<F: TapeFile + Drop, I: Images<F> + Drop, A: Opening> FileMedium<F, I, A> {
    ghost use Rattle.std.specs.Prelude.{◌≡◌, option_map};
    ghost use Rattle.il_ports.specs.FileDrives.{file_in, IsUsedFor};

    /// The file of the tape that is inserted, if one is. That tape is used for the drive's access, or it is only read
    /// since an image may not be changed.
    pub fn file(&self) -> Option<&F>
        ensures file { option_map (λ file. file.now) result ≡ file_in self.now.tape }
        ensures used { IsUsedFor A.access (I.view self.now.images) self.now.tape }
    {
        self.tape.as_ref().map(|tape| tape.file())
    }
}

impl<F: TapeFile + Drop, I: Images<F> + Drop, A: Opening> Medium for FileMedium<F, I, A> {
    ghost use Rattle.std.specs.Prelude.{◌≡◌, ◌<◌, OnErr};
    ghost use Rattle.il_ports.specs.Inserting.{records_made};
    ghost use Rattle.il_ports.specs.Media.{DidInsert, DidReadRecord, DidWriteRecord};
    ghost use Rattle.il_ports.specs.FileDrives.{drive_view, drive_of, PutsIn, PutsInFor, OnTape, ReadsTape, WritesTape};
    ghost use Rattle.il_ports.specs.FindingFiles.{InsertFails};
    ghost use Rattle.il_ports.specs.FileLaws.{drive_laws};

    ghost view = { λ m. drive_view F.view (I.view m.images).shelf m.tape m.faults };

    ghost refuses = { λ m w name made. InsertFails F.view name made A.access (I.view m.images) (I.view w.images) };

    ghost is_medium = { λ m. drive_laws F.view (I.view m.images).shelf m.tape m.faults F.is_file };

    fn insert(&mut self, name: &str, new: New) -> Result<Inserted, Failed>
        requires { (drive_of F.view I.view self.old).record_count ≡ 0 }
        ensures did { DidInsert name.now new (drive_of F.view I.view self.old) (drive_of F.view I.view self.new) result }
        ensures cause { OnErr result (InsertFails F.view name.now (records_made new) A.access (I.view self.old.images) (I.view self.new.images)) }
        ensures file { PutsIn F.view I.view name.now self.old self.new result }
        ensures used { PutsInFor name.now A.access (I.view self.old.images) (I.view self.new.images) self.new.tape result }
    {
        match find(&mut self.images, name, new, self.opening.access()) {
            Ok(Found::Tape(file, size, access)) => {
                self.tape = Some(FileTape::new(file, size, access, self.faults));
                Ok(Inserted::Tape)
            }
            Ok(Found::NoSuch) => Ok(Inserted::NoSuch),
            Ok(Found::BadSize(size)) => Ok(Inserted::BadSize(size)),
            Err(_) => Err(faulted(&mut self.faults)),
        }
    }

    fn size(&self) -> u16 {
        match &self.tape {
            Some(tape) => tape.records(),
            None => 0,
        }
    }

    fn read(&mut self, n: u16, into: &mut [u8; 256]) -> Result<(), Failed>
        requires { n < (drive_of F.view I.view self.old).record_count }
        ensures did { DidReadRecord n into.new (drive_of F.view I.view self.old) (drive_of F.view I.view self.new) result }
        ensures file { OnTape (ReadsTape F.view result) self.old.tape self.new.tape }
    {
        let Some(tape) = &mut self.tape else {
            unreachable!()
        };
        tape.read(n, into)
    }

    fn write(&mut self, n: u16, from: &[u8; 256]) -> Result<(), Failed>
        requires { n < (drive_of F.view I.view self.old).record_count }
        ensures did { DidWriteRecord n from.now (drive_of F.view I.view self.old) (drive_of F.view I.view self.new) result }
        ensures file { OnTape (WritesTape F.view n result) self.old.tape self.new.tape }
    {
        let Some(tape) = &mut self.tape else {
            unreachable!()
        };
        tape.write(n, from)
    }
}
