// What tests share: a tape, the frames of texts, and what a ring printed and logged.

use arrayvec::ArrayVec;
use il_frames::{Entry, Frame};
use il_ports::{Inserted, Medium, MemoryMedium, New};
use il_ring::Ring;
use il_same::{same, same_bytes};
use std::alloc::Global;
use std::test::Fail;

/// A medium of 512 records that begin with the image, and are zeros after it. This read and this write fail, counted
/// from 1, or none where the number is 0; a write that fails leaves that byte all over the record.
pub fn tape_of(
    alloc: Global,
    image: Vec<u8>,
    read: u64,
    write: u64,
    left: u8,
) -> Result<MemoryMedium, Fail> {
    let shelf = Vec::from_array(alloc, [(String::from_str(alloc, "TAPE")?, image)])?;
    let reads = Vec::from_array(alloc, [read])?;
    let writes = Vec::from_array(alloc, [(write, [left; 256])])?;
    let mut medium = MemoryMedium::new(alloc, shelf, reads, writes, Vec::new(alloc), 20)?;
    if !same(medium.insert("TAPE", New::No), Ok(Inserted::Tape)) {
        return Err(Fail::from("no tape"));
    }
    Ok(medium)
}

/// A medium of 512 records of zeros, of which this read and this write fail; a write that fails leaves 7s.
pub fn tape(alloc: Global, read: u64, write: u64) -> Result<MemoryMedium, Fail> {
    tape_of(alloc, Vec::new(alloc), read, write, 7)
}

/// The frame of a text.
pub fn frame_of(text: &str) -> Result<Frame, Fail> {
    match Frame::read_text(text.as_bytes()) {
        Some(frame) => Ok(frame),
        None => Err(Fail::new(text)),
    }
}

/// The printer kept these bytes, and heard no more.
pub fn has_paper(ring: &Ring<MemoryMedium>, bytes: &[u8]) -> bool {
    match ring.paper() {
        Some((kept, count)) => same_bytes(kept, bytes) && same(count, bytes.len() as u64),
        None => false,
    }
}

/// The entries have these texts, and there are no more.
pub fn is_log(log: &[Entry], texts: &[&str]) -> bool {
    let mut line = ArrayVec::new();
    let mut alike = same(log.len(), texts.len());
    for (entry, text) in log.iter().zip(texts) {
        entry.text(&mut line);
        alike &= same_bytes(line.as_slice(), text.as_bytes());
    }
    alike
}
