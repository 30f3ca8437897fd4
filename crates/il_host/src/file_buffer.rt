ghost use Rattle.std.specs.Prelude.{◌≡◌, ◌≤◌, length, take, vec_len, IfOk};
ghost use Rattle.std.specs.Vec.{vec_capacity};

use lif_volume::Fetched;
use std::alloc::{AllocError, Global};

/// The bytes of a file that is read. Memory is taken by `new`, and the first fetch fills it: a run that reads no file
/// never touches it.
#[derive(Drop)]
pub(crate) struct FileBuffer {
    pub(crate) bytes: Vec<u8>,
    pub(crate) room: usize,
    /// What the last fetch has told of its file, whose bytes are at the front.
    pub(crate) fetched: Fetched,
    pub ghost fits: { room ≤ vec_capacity bytes },
    pub ghost holds: { vec_len bytes ≤ room },
}

impl FileBuffer {
    /// No bytes, with memory for so many.
    pub(crate) fn new(alloc: Global, room: usize) -> Result<FileBuffer, AllocError>
        ensures { IfOk result (λ file. file.room ≡ room) }
    {
        Ok(FileBuffer {
            bytes: Vec::with_capacity(alloc, room)?,
            room,
            fetched: Fetched {
                kind: 0,
                implementation: [0; 4],
                length: 0,
            },
        })
    }

    /// Has as many bytes as there is memory for.
    pub(crate) fn fill(&mut self)
        ensures bytes { length self.new.bytes.items ≡ self.old.room }
        ensures room { self.new.room ≡ self.old.room }
    {
        self.bytes.resize(self.room, 0).unwrap();
    }

    /// The bytes of the file that was read last.
    pub(crate) fn read(&self) -> &[u8]
        ensures bytes { result.now ≡ take self.now.fetched.length self.now.bytes.items }
        ensures within { length result.now ≤ self.now.room }
    {
        let count = self.fetched.length.min(self.bytes.len());
        &self.bytes[..count]
    }
}
