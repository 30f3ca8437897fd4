use crate::tape_file::{Access, TapeFile};
use std::io;

/// What has a name.
#[derive(Clone, Copy, Debug, PartialEq, Eq)]
pub enum Look {
    Missing,
    File,
    /// Something that is no file, such as a folder or a pipe.
    Other,
}

/// What is known of an image's name after the call that brings it to the disk.
#[derive(Clone, Copy, Debug, PartialEq, Eq)]
pub enum Naming {
    /// The disk has the name.
    OnDisk,
    /// The folder could not be opened, so it was not synced: the disk may lack the name.
    FolderClosed,
    /// The file system cannot sync folders: the disk may lack the name.
    NoSync,
}

/// Named images, of which each is a file. An image that was made counts as one of them once it is inserted in a drive.
pub trait Images<F: TapeFile> {
    ghost use Rattle.std.specs.Prelude.{◌≡◌, Some};
    ghost use Rattle.std.specs.IoError.{error_kind};
    ghost use Rattle.lif_model.specs.Shelf.{Shelf};
    ghost use Rattle.il_ports.specs.Files.{IsSettledFile};
    ghost use Rattle.il_ports.specs.NamedImages.{ImagesView, Looked, Opened, Created, NameSettled, IsOwn, Removed};
    ghost use Rattle.il_ports.specs.declared.images.Look.TheVariants as look;

    ghost view: { Self → ImagesView };

    /// Finds what has that name, and does not open it.
    fn look(&mut self, name: &str) -> io::Result<Look>
        ensures { Looked name.now (view self.old) (view self.new) result };

    /// Opens the image of that name, which a look has found. If the system refused to open it to change it, and it is
    /// opened only to be read, the disk has what it reads as.
    fn open(&mut self, name: &str, access: Access) -> io::Result<F>
        requires { (view self.old).was_found name.now look.File }
        ensures { Opened F.view error_kind name.now access (view self.old) (view self.new) result };

    /// Makes an image of that name, without a byte. A look has found nothing of that name.
    fn make(&mut self, name: &str) -> io::Result<F>
        requires { (view self.old).was_found name.now look.Missing }
        ensures { Created F.view name.now (view self.old) (view self.new) result };

    /// Waits until the disk has the name of this image, if its folder can be synced, and says whether the disk has it.
    /// The file is settled before this call, so this call brings no name to the disk before the bytes of its file.
    fn settle_name(&mut self, name: &str, file: &F) -> io::Result<Naming>
        requires settled { IsSettledFile (F.view file.now) }
        requires named { (s : Shelf) → (view self.old).shelf ≡ Some s → (F.view file.now).named ≡ Some name.now }
        ensures { NameSettled name.now (view self.old) (view self.new) result };

    /// Removes the image of that name, and then closes its file. The lock of the file is held until the name is gone. A
    /// call of `make` made the image.
    fn remove(&mut self, name: &str, file: F) -> io::Result<()>
        requires { IsOwn name.now (view self.old).shelf (F.view file) }
        ensures { Removed (view self.old) (view self.new) result };
}
