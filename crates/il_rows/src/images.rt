//! Images of tapes.

use std::alloc::{AllocError, Global};

/// The entry of the redo file on a tape of 512 records.
pub const REDO_ENTRY: &[u8] =
    b"REDOFILE  \xE0\xD0\0\0\x01\xFC\0\0\0\x04\0\0\0\0\0\0\x80\x01\0\0\0\0";

/// The entry of a redo file that takes batches, on a tape of 512 records.
pub const SECOND_REDO_ENTRY: &[u8] =
    b"REDOFILE  \xE0\xD0\0\0\x01\xDE\0\0\0\x22\0\0\0\0\0\0\x80\x01\0\0\0\0";

/// An entry that ends a directory.
pub const END_ENTRY: &[u8] =
    b"\0\0\0\0\0\0\0\0\0\0\xFF\xFF\0\0\0\0\0\0\0\0\0\0\0\0\0\0\0\0\0\0\0\0";

/// How an open gate of a redo file begins.
pub const OPEN_GATE: &[u8] = b"LIFREDO1 OPEN   ";

/// The entry of a file A of one record, the first after the directory.
pub const FILE_ENTRY: &[u8] = b"A         \0\x01\0\0\0\x04\0\0\0\x01\0\0\0\0\0\0\x80\x01\0\0\0\0";

/// The entry of such a redo file while a file in the first slot is being moved, of which one record stands at its new
/// place, and the entry of that file.
const MOVING_REDO_ENTRY: &[u8] =
    b"REDOFILE  \xE0\xD0\0\0\x01\xDE\0\0\0\x22\0\0\0\0\0\0\x80\x01\0\x01\0\x01";

const MOVING_ENTRY: &[u8] = b"A         \0\x01\0\0\0\x05\0\0\0\x02\0\0\0\0\0\0\x80\x01\0\0\0\0";

/// The header of a volume HPTAPE with room for sixteen entries in records 2 and 3.
pub const HEADER: &[u8] =
    b"\x80\0HPTAPE\0\0\0\x02\x10\0\0\0\0\0\0\x02\0\x01\0\0\0\0\0\x02\0\0\0\x01\0\0\x01\0\0\0\0\0\0\0";

/// The header of a volume without a label, as an HP-41 leaves it.
const FOREIGN_HEADER: &[u8] = b"\x80\0      \0\0\0\x02\x10\0\0\0\0\0\0\x02";

const FOREIGN_ENTRY: &[u8] =
    b"PROG1     \xE0\x80\0\0\0\x04\0\0\0\x02\0\0\0\0\0\0\x80\x01\0\0\x01\x80";

/// Puts these bytes at a place.
pub(crate) fn put_at(image: &mut [u8], place: usize, bytes: &[u8]) {
    for (byte, new) in image.iter_mut().skip(place).zip(bytes) {
        *byte = *new;
    }
}

/// Zeros up to this record, and then these pieces.
fn put_record(image: &mut Vec<u8>, record: u16, pieces: &[&[u8]]) -> Result<(), AllocError> {
    image.resize(256 * usize::from(record), 0)?;
    for piece in pieces {
        image.extend_from_slice(piece)?;
    }
    Ok(())
}

/// An image with these pieces from these records on, and zeros between them.
pub(crate) fn image_of(alloc: Global, records: &[(u16, &[&[u8]])]) -> Result<Vec<u8>, AllocError> {
    let mut image = Vec::new(alloc);
    for (record, pieces) in records {
        put_record(&mut image, *record, pieces)?;
    }
    Ok(image)
}

/// An image of four records: a header, and a directory of these entries.
pub(crate) fn with_entries(alloc: Global, entries: &[&[u8]]) -> Result<Vec<u8>, AllocError> {
    image_of(alloc, &[(0, &[HEADER]), (2, entries), (4, &[])])
}

/// A volume as it is formatted: the redo file alone.
pub(crate) fn formatted(alloc: Global) -> Result<Vec<u8>, AllocError> {
    with_entries(alloc, &[REDO_ENTRY, END_ENTRY])
}

/// A formatted volume of one byte more than a tape has, which is on a disc.
pub(crate) fn on_a_disc(alloc: Global) -> Result<Vec<u8>, AllocError> {
    let mut disc = formatted(alloc)?;
    disc.resize(131_073, 0)?;
    Ok(disc)
}

/// A volume on which a file is being moved.
pub(crate) fn with_packing_mark(alloc: Global) -> Result<Vec<u8>, AllocError> {
    with_entries(alloc, &[MOVING_ENTRY, MOVING_REDO_ENTRY, END_ENTRY])
}

/// A formatted volume with these bytes at a place of record 0.
pub(crate) fn with_header(
    alloc: Global,
    place: usize,
    bytes: &[u8],
) -> Result<Vec<u8>, AllocError> {
    let mut image = formatted(alloc)?;
    put_at(&mut image, place, bytes);
    Ok(image)
}

/// A formatted volume with an open redo, by which its record 0 begins with these bytes.
pub(crate) fn with_redo_of_header(alloc: Global, header: &[u8]) -> Result<Vec<u8>, AllocError> {
    let mut image = image_of(
        alloc,
        &[
            (0, &[HEADER]),
            (2, &[REDO_ENTRY, END_ENTRY]),
            (508, &[OPEN_GATE]),
            (509, &[b"LIFREDO1\0\x01\0\0"]),
            (510, &[HEADER]),
        ],
    )?;
    put_at(&mut image, 256 * 510, header);
    Ok(image)
}

/// A volume of another make, with one program and this entry after it, or none, and no redo file.
pub(crate) fn foreign_with(alloc: Global, entry: &[u8]) -> Result<Vec<u8>, AllocError> {
    let mut image = image_of(
        alloc,
        &[(0, &[FOREIGN_HEADER]), (2, &[FOREIGN_ENTRY]), (4, &[])],
    )?;
    put_at(&mut image, 544, entry);
    put_at(&mut image, entry.len().saturating_add(544), END_ENTRY);
    image.resize(256 * 6, 0x11)?;
    Ok(image)
}

/// A formatted volume with a redo file that puts the file A into the directory: after a gate that begins so, with so
/// many targets.
pub(crate) fn with_redo(alloc: Global, gate: &[u8], targets: u8) -> Result<Vec<u8>, AllocError> {
    let mut image = image_of(
        alloc,
        &[
            (0, &[HEADER]),
            (2, &[REDO_ENTRY, END_ENTRY]),
            (509, &[b"LIFREDO1\0\0\0\x02"]),
            (510, &[FILE_ENTRY, REDO_ENTRY, END_ENTRY]),
            (511, &[]),
        ],
    )?;
    put_at(&mut image, 256 * 508, gate);
    put_at(&mut image, 256 * 509 + 9, &[targets]);
    Ok(image)
}

/// A formatted volume whose redo file has an open gate.
pub(crate) fn with_open_gate(alloc: Global) -> Result<Vec<u8>, AllocError> {
    image_of(
        alloc,
        &[
            (0, &[HEADER]),
            (2, &[REDO_ENTRY, END_ENTRY]),
            (508, &[OPEN_GATE]),
        ],
    )
}
