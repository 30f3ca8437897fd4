//! The records that an image reads as.
ghost use Rattle.std.specs.Prelude.{◌≡◌, ◌≤◌, length, drop, IfOk};
ghost use Rattle.lif_model.specs.Shelf.{piece, tape_of, records_for};

use lif_model::Record;
use std::alloc::{AllocError, Global};

/// The most bytes of the image of a cassette.
const CASSETTE_BYTES: usize = 131_072;

/// The number of records of a cassette.
const CASSETTE_RECORDS: u16 = 512;

/// The number of records of a disc.
const DISC_RECORDS: u16 = 2464;

/// Returns the number of records that an image reads as: those of a cassette, or those of a disc if it has more bytes.
pub(crate) fn record_count(image: &[u8]) -> u16
    ensures count { result ≡ records_for (length image.now) }
    ensures low { CASSETTE_RECORDS ≤ result }
    ensures high { result ≤ DISC_RECORDS }
{
    if image.len() <= CASSETTE_BYTES {
        CASSETTE_RECORDS
    } else {
        DISC_RECORDS
    }
}

/// Returns the first record of these bytes, filled up with zeros.
#[tactic(auto, unfolding(lif_model::specs::Shelf::piece))]
fn first_piece(bytes: &[u8]) -> Record
    ensures content { result ≡ piece bytes.now }
    ensures whole { length result ≡ 256 }
{
    let mut record = [0; 256];
    if bytes.len() < 256 {
        record[..bytes.len()].copy_from_slice(bytes);
    } else {
        record.copy_from_slice(&bytes[..256]);
    }
    record
}

/// Returns the bytes after the first record.
fn after_piece(bytes: &[u8]) -> &[u8]
    ensures { result.now ≡ drop 256 bytes.now }
{
    if bytes.len() < 256 {
        &[]
    } else {
        &bytes[256..]
    }
}

/// Returns the records that an image reads as. The only error is want of memory.
pub(crate) fn tape_records(alloc: Global, image: &[u8]) -> Result<Vec<Record>, AllocError>
    ensures tape { IfOk result (λ records. records.items ≡ tape_of image.now) }
    ensures count { IfOk result (λ records. length records.items ≡ records_for (length image.now)) }
{
    let count = record_count(image);
    let mut records = Vec::with_capacity(alloc, usize::from(count))?;
    let mut rest = image;
    'records: for place in 0..count {
        records.push(first_piece(rest)).unwrap();
        rest = after_piece(rest);
    }
    Ok(records)
}
