//! Scripts and replies, put together.

use itoa::Buffer;
use std::alloc::{AllocError, Global};

/// The listing of a formatted volume.
pub const LISTED: &[u8] = b"volume HPTAPE 2 2 1 16\nfile REDOFILE E0D0 508 4 00000000\nok\n";

/// These parts, one after the other.
pub(crate) fn joined(alloc: Global, parts: &[&[u8]]) -> Result<Vec<u8>, AllocError> {
    let mut text = Vec::new(alloc);
    for part in parts {
        text.extend_from_slice(part)?;
    }
    Ok(text)
}

/// The first part, so many times the middle one, and the last part.
pub(crate) fn repeated(
    alloc: Global,
    first: &[u8],
    (count, middle): (usize, &[u8]),
    last: &[u8],
) -> Result<Vec<u8>, AllocError> {
    let mut text = Vec::from_slice(alloc, first)?;
    for _ in 0..count {
        text.extend_from_slice(middle)?;
    }
    text.extend_from_slice(last)?;
    Ok(text)
}

/// Puts the first part, this number, and the last part.
pub(crate) fn put_number(
    text: &mut Vec<u8>,
    first: &[u8],
    number: u16,
    last: &[u8],
) -> Result<(), AllocError> {
    let mut digits = Buffer::new();
    for part in [first, digits.format(number).as_bytes(), last] {
        text.extend_from_slice(part)?;
    }
    Ok(())
}

/// The script that stores a file A of three records.
pub(crate) fn store_of_three_records(alloc: Global) -> Result<Vec<u8>, AllocError> {
    repeated(alloc, b"store A 0001 00000000 ", (600, b"44"), b"")
}
