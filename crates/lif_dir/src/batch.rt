ghost use Rattle.std.specs.Prelude.{◌≡◌, ◌≢◌, ◌≤◌, ◌++◌, ◌∷◌, [], length, if◌then◌else◌, All, IfOk};
ghost use Rattle.lif_dir.specs.Batches.{BatchView, has_room, IsPartOf};
ghost use Rattle.lif_dir.specs.declared.batch.Part.TheVariants.{Store, Rename, Purge};

use crate::entries::Name;
use crate::names::NewName;
use lif_model::{MOST_BYTES, MOST_PARTS};
use std::alloc::{AllocError, Global};
use std::marker::Model;

/// One change of a batch.
#[derive(Clone, Copy, Debug, PartialEq, Eq)]
pub enum Part {
    /// A new file.
    Store {
        /// Its name.
        name: NewName,
        /// Its type, neither 0 nor FFFF hex.
        kind: u16,
        /// Its implementation field.
        implementation: [u8; 4],
        /// Where its bytes begin in those of the batch.
        from: u32,
        /// How many bytes it has.
        length: u32,
    },
    /// A file gets another name.
    Rename {
        /// The name that it has.
        old: Name,
        /// The name that it gets.
        new: NewName,
    },
    /// A file is purged.
    Purge(Name),
}

/// Changes of a directory that are to be made as one: at most 31 parts, and at most 630,784 bytes
/// of the files that they store. All memory is taken by `new`.
#[derive(Debug, Drop)]
pub struct Batch {
    parts: Vec<Part>,
    bytes: Vec<u8>,
}

impl Model for Batch {
    ghost use Rattle.std.specs.Vec.{vec_len, vec_capacity};
    ghost use Rattle.lif_dir.specs.Batches.{BatchView, IsBatch};

    ghost Value = { BatchView };

    ghost view = { λ b. record { parts = b.parts.items; bytes = b.bytes.items } };

    ghost invariant = { λ b. IsBatch (vec_len b.parts) (vec_capacity b.parts) (vec_len b.bytes) (vec_capacity b.bytes)
        (record { parts = b.parts.items; bytes = b.bytes.items }) };
}

impl Batch {
    /// A batch without parts. The only error is want of memory.
    pub fn new(alloc: Global) -> Result<Batch, AllocError>
        ensures { IfOk result (λ batch. batch ≡ record { parts = []; bytes = [] }) }
    {
        Ok(Batch {
            parts: Vec::with_capacity(alloc, MOST_PARTS)?,
            bytes: Vec::with_capacity(alloc, MOST_BYTES)?,
        })
    }

    /// Leaves no part and no byte.
    pub fn clear(&mut self)
        ensures { self.new ≡ record { parts = []; bytes = [] } }
    {
        self.parts.clear();
        self.bytes.clear();
    }

    /// The parts, in the order in which they were added. The bytes of each file are among those of
    /// the batch, and its type is that of a file.
    pub fn parts(&self) -> &[Part]
        ensures parts { result.now ≡ self.now.parts }
        ensures few { length result.now ≤ MOST_PARTS }
        ensures each { All (IsPartOf (length self.now.bytes)) result.now }
    {
        &self.parts
    }

    /// The bytes of the files that are stored, one file after the other.
    pub fn bytes(&self) -> &[u8]
        ensures bytes { result.now ≡ self.now.bytes }
        ensures few { length result.now ≤ MOST_BYTES }
    {
        &self.bytes
    }

    /// Adds a part that stores these bytes as a file of this name, type and implementation field,
    /// and says whether there was room for it; where there was none nothing is added. The type is
    /// none of a purged file and none that ends a directory.
    pub fn add_store(
        &mut self,
        name: NewName,
        kind: u16,
        implementation: [u8; 4],
        bytes: &[u8],
    ) -> bool
        requires live { kind ≢ 0 }
        requires no_end { kind ≢ 0xFFFF }
        ensures room { result ≡ has_room self.old (length bytes.now) }
        ensures added { self.new ≡ (if result
            then record {
              parts = self.old.parts ++ Store name kind implementation (length self.old.bytes) (length bytes.now) ∷ [];
              bytes = self.old.bytes ++ bytes.now;
            }
            else self.old) }
    {
        if !self.has_room(bytes.len()) {
            return false;
        }
        let part = Part::Store {
            name,
            kind,
            implementation,
            from: self.bytes.len() as u32,
            length: bytes.len() as u32,
        };
        self.bytes.extend_from_slice(bytes).unwrap();
        self.parts.push(part).unwrap();
        true
    }

    /// Adds a part that gives the file `old` the name `new`, and says whether there was room for it;
    /// where there was none nothing is added.
    pub fn add_rename(&mut self, old: Name, new: NewName) -> bool
        ensures room { result ≡ has_room self.old 0 }
        ensures added { self.new ≡ (if result then record self.old { parts = self.old.parts ++ Rename old new ∷ [] }
            else self.old) }
    {
        self.add(Part::Rename { old, new })
    }

    /// Adds a part that purges the file, and says whether there was room for it; where there was
    /// none nothing is added.
    pub fn add_purge(&mut self, name: Name) -> bool
        ensures room { result ≡ has_room self.old 0 }
        ensures added { self.new ≡ (if result then record self.old { parts = self.old.parts ++ Purge name ∷ [] }
            else self.old) }
    {
        self.add(Part::Purge(name))
    }

    /// Whether there is room for one part more, and for so many bytes.
    fn has_room(&self, count: usize) -> bool
        ensures { result ≡ has_room self.now count }
    {
        self.parts.len() < MOST_PARTS && count <= MOST_BYTES - self.bytes.len()
    }

    /// Adds a part without bytes.
    fn add(&mut self, part: Part) -> bool
        requires { IsPartOf 0 part }
        ensures room { result ≡ has_room self.old 0 }
        ensures added { self.new ≡ (if result then record self.old { parts = self.old.parts ++ part ∷ [] }
            else self.old) }
    {
        if !self.has_room(0) {
            return false;
        }
        self.parts.push(part).unwrap();
        true
    }
}
