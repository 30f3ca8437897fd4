use crate::change::Change;
use il_script::Reply;
use lif_dir::{Name, SlotTable};
use lif_header::Header;

/// A file that was read.
#[derive(Clone, Copy, Debug)]
pub struct FileRead<'a> {
    /// Its type.
    pub kind: u16,
    /// Its implementation field, whose meaning depends on the type.
    pub field: [u8; 4],
    /// The bytes of all its records.
    pub bytes: &'a [u8],
}

/// An image in a drive, with the volume on it. The jobs of the program are written over it: each call is a command of
/// the volume, or returns what an earlier one read.
pub trait Volumes {
    ghost use Rattle.std.specs.Prelude.{◌≡◌, ◌≤◌, IfSome, is_some, length};
    ghost use Rattle.lif_model.specs.Apply.{Dir, Fetch};
    ghost use Rattle.lif_model.specs.Shelf.{largest_image};
    ghost use Rattle.lif_dir.specs.Entries.{name_bytes};
    ghost use Rattle.il_script.specs.declared.reply.Reply.TheVariants as reply;
    ghost use Rattle.tape_volumes.specs.Volumes.{VolumesView, Commanded, FileContent, IsMounted};
    ghost use Rattle.tape_volumes.specs.Volumes.{IsDirectoryAt, IsFileAt, volume_shown};
    ghost use Rattle.tape_volumes.specs.Changes.{IsFormedChange, change_command};

    ghost seen: { Self → VolumesView };

    // what `file` returns
    ghost file: { Self → FileContent };

    /// Reads the directory, which is then kept in memory.
    fn list(&mut self) -> Reply
        requires valid { (seen self.old).valid }
        ensures { Commanded Dir result (seen self.old) (seen self.new) };

    /// Reads all records of the file of that name.
    fn fetch(&mut self, name: &Name) -> Reply
        requires valid { (seen self.old).valid }
        ensures commanded { Commanded (Fetch (name_bytes name.now)) result (seen self.old) (seen self.new) }
        ensures read { result ≡ reply.Ok
            → IsFileAt (volume_shown (seen self.old).mounted.tape) (name_bytes name.now) (file self.new) };

    /// Makes a change of the volume.
    fn change(&mut self, change: &Change<'_>) -> Reply
        requires valid { (seen self.old).valid }
        requires formed { IsFormedChange change.now }
        ensures { Commanded (change_command change.now) result (seen self.old) (seen self.new) };

    /// The file, right after a `fetch` of it that replied ok.
    fn file(&self) -> FileRead<'_>
        requires valid { (seen self.now).valid }
        ensures kind { result.kind ≡ (file self.now).kind }
        ensures field { result.field ≡ (file self.now).field }
        ensures bytes { result.bytes.now ≡ (file self.now).bytes }
        ensures fits { length result.bytes.now ≤ largest_image };

    /// The number of records of the medium.
    fn size(&self) -> u16
        requires valid { (seen self.now).valid }
        ensures { result ≡ (seen self.now).mounted.records };

    /// What record 0 says, and the slots of the directory, if they are kept in memory.
    fn directory(&self) -> Option<(Header, &SlotTable)>
        requires valid { (seen self.now).valid }
        ensures kept { is_some result ≡ (seen self.now).mounted.kept }
        ensures known { IfSome result
            (λ d. IsDirectoryAt (volume_shown (seen self.now).mounted.tape) d.0 d.1.now.slots) };

    ghost is_mounted: { (volumes : Self) → (seen volumes).valid → IsMounted (seen volumes) };
}
