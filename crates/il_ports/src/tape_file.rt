use std::io;

/// What an image is opened for.
#[derive(Clone, Copy, Debug, PartialEq, Eq)]
pub enum Access {
    /// It may be changed.
    Change,
    /// It is only read.
    Read,
}

/// A file of bytes, which reads as zeros from its end on. After a successful sync the disk has all that was written.
/// Until then the disk may have any part of it. After a failed sync nothing more may be asked of the file: what it
/// reads as may never reach the disk. If the system brings bytes to the disk between two calls, that counts as part of
/// the earlier call.
pub trait TapeFile {
    ghost use Rattle.std.specs.Prelude.{◌≡◌, ◌<◌, false, length};
    ghost use Rattle.il_ports.specs.Files.{FileView, IsFile, HasLock, IsClean, SetApart, Claimed, Measured, Gave, TookBytes, Resized, Synced, Settled};
    ghost use Rattle.il_ports.specs.declared.tape_file.Access.TheVariants.{Change};

    ghost view: { Self → FileView };

    /// Asks for the lock of the file, which lasts until the file is closed: a lock to change it, which nobody shares,
    /// or one to read it, which others who read share. Says whether it was granted. It is refused if another program
    /// holds a lock that bars it. If the system cannot lock this file, the lock counts as granted.
    fn claim(&mut self, access: Access) -> bool
        requires opened { (view self.old).opened access }
        ensures { Claimed access (view self.old) (view self.new) result };

    /// Gives the file a number above those of the standard streams. If one of these was closed before the program
    /// began, its number is free. The file could have that number, and text for that stream would change the image.
    fn apart(&mut self) -> io::Result<()>
        ensures { SetApart (view self.old) (view self.new) result };

    /// Says how many bytes the file has. It is an error if this is no file.
    fn len(&mut self) -> io::Result<u64>
        requires held { HasLock (view self.old) }
        ensures { Measured (view self.old) (view self.new) result };

    /// Reads bytes from place `from` on into the front of `into`, and says how many. It answers `Ok(0)` only if `from`
    /// is at the end or after it.
    fn read_at(&mut self, from: u64, into: &mut [u8]) -> io::Result<usize>
        requires some { 0 < length into.old }
        requires held { HasLock (view self.old) }
        requires clean { IsClean (view self.old) }
        ensures { Gave from into.new (view self.old) (view self.new) result };

    /// Writes the first bytes of `bytes` from place `from` on, and says how many: at least one.
    fn write_at(&mut self, from: u64, bytes: &[u8]) -> io::Result<usize>
        requires some { 0 < length bytes.now }
        requires apart { (view self.old).apart }
        requires held { (view self.old).held Change }
        requires sound { (view self.old).broken ≡ false }
        ensures { TookBytes from bytes.now (view self.old) (view self.new) result };

    /// Gives the file, which a call of `make` made, `size` bytes. New bytes are zeros.
    fn set_len(&mut self, size: u64) -> io::Result<()>
        requires made { (view self.old).made }
        requires apart { (view self.old).apart }
        requires held { (view self.old).held Change }
        requires sound { (view self.old).broken ≡ false }
        ensures { Resized size (view self.old) (view self.new) result };

    /// Waits until all that was written is on the disk.
    fn sync(&mut self) -> io::Result<()>
        requires held { (view self.old).held Change }
        requires sound { (view self.old).broken ≡ false }
        ensures { Synced (view self.old) (view self.new) result };

    /// Waits until all that was written, also by an earlier program, and the length of the file are on the disk.
    fn settle(&mut self) -> io::Result<()>
        requires locked { HasLock (view self.old) }
        requires sound { (view self.old).broken ≡ false }
        ensures { Settled (view self.old) (view self.new) result };

    ghost is_file: { (f : Self) → IsFile (view f) };
}
