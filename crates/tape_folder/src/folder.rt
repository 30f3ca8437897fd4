use il_ports::Look;
use std::io;

/// A folder, and the files in it. The bytes of a new file go to a part file, which has a hidden name. Once the disk has
/// all of them, the file is given its own name. So a stop of the machine leaves no file that lacks bytes under that
/// name. If the system brings bytes or names to the disk between two calls, that counts as part of the earlier call.
pub trait Folder {
    ghost use Rattle.std.specs.Prelude.{◌≡◌, None, is_some, true, false};
    ghost use Rattle.std.specs.IoError.{error_kind};
    ghost use Rattle.tape_folder.specs.Folders.{FolderView, IsFolder, IsUnusedName, ShowsFiles};
    ghost use Rattle.tape_folder.specs.Folders.{file_in_folder, is_hidden};
    ghost use Rattle.tape_folder.specs.Folders.{Prepared, FolderLooked, Compared};
    ghost use Rattle.tape_folder.specs.Folders.{PartMade, PartWritten, PartSynced, PartLinked, PartRenamed};
    ghost use Rattle.tape_folder.specs.Folders.{PartRemoved, FolderSettled};

    ghost view: { Self → FolderView };

    /// Makes the folder, unless there is one. It is an error if something else has its name.
    fn prepare(&mut self) -> io::Result<()>
        ensures { Prepared (view self.old) (view self.new) result };

    /// Finds what has that name in the folder, and does not open it.
    fn look(&mut self, name: &str) -> io::Result<Look>
        ensures { FolderLooked name.now (view self.old) (view self.new) result };

    /// Says whether the file of that name, which a look has found, has exactly these bytes. If it has, the file is
    /// synced before the answer.
    fn holds(&mut self, name: &str, bytes: &[u8]) -> io::Result<bool>
        requires { ShowsFiles (view self.old) → is_some (file_in_folder name.now (view self.old).files) ≡ true }
        ensures { Compared name.now bytes.now (view self.old) (view self.new) result };

    /// Makes the part file of that number, without a byte, and opens it. If something has its name, this is an error of
    /// the kind `AlreadyExists`.
    fn make(&mut self, number: u32) -> io::Result<()>
        requires { (view self.old).part ≡ None }
        ensures { PartMade error_kind number (view self.old) (view self.new) result };

    /// Appends these bytes to the part file. After an error the part file may have any bytes.
    fn write(&mut self, bytes: &[u8]) -> io::Result<()>
        requires { is_some (view self.old).part ≡ true }
        ensures { PartWritten bytes.now (view self.old) (view self.new) result };

    /// Waits until the disk has the bytes of the part file.
    fn sync(&mut self) -> io::Result<()>
        requires { is_some (view self.old).part ≡ true }
        ensures { PartSynced (view self.old) (view self.new) result };

    /// Gives the file of the part that name too. If something has the name, this is an error of the kind
    /// `AlreadyExists`.
    fn link(&mut self, name: &str) -> io::Result<()>
        requires made { is_some (view self.old).part ≡ true }
        requires synced { (view self.old).on_disk ≡ true }
        requires plain { is_hidden name.now ≡ false }
        ensures { PartLinked error_kind name.now (view self.old) (view self.new) result };

    /// Gives the file of the part that name in place of its own, and closes it. A look has found nothing of that name.
    fn rename(&mut self, name: &str) -> io::Result<()>
        requires made { is_some (view self.old).part ≡ true }
        requires synced { (view self.old).on_disk ≡ true }
        requires plain { is_hidden name.now ≡ false }
        requires free { IsUnusedName name.now (view self.old) }
        ensures { PartRenamed name.now (view self.old) (view self.new) result };

    /// Closes the part file and removes its name. After an error the part file is closed too.
    fn remove(&mut self) -> io::Result<()>
        requires { is_some (view self.old).part ≡ true }
        ensures { PartRemoved (view self.old) (view self.new) result };

    /// Waits until the disk has the names of the files, if the file system can sync folders.
    fn settle(&mut self) -> io::Result<()>
        requires { (view self.old).part ≡ None }
        ensures { FolderSettled (view self.old) (view self.new) result };

    ghost is_folder: { (f : Self) → IsFolder (view f) };
}
