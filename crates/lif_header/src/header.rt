ghost use Rattle.std.specs.Prelude.{◌≡◌, ◌+◌, ◌≤◌, ◌++◌, length, take, drop, IfOk, IfErr, is_ok};
ghost use Rattle.lif_model.specs.Header.{is_readable, header_of};
ghost use Rattle.lif_model.specs.Made.{fresh_header};
ghost use Rattle.lif_model.specs.Shelf.{piece};

use crate::fields::{bytes_at, four_at, two_at};
use crate::geometry::Geometry;
use lif_model::{RECORD, Record};
use std::marker::Model;
use thiserror::Error;

/// What bytes 0 and 1 of a LIF volume hold.
const VOLUME_MARK: u16 = 0x8000;

/// How many records at the end of the medium no directory may reach: those of the redo file.
const REDO_RECORDS: u16 = 4;

/// The bytes of the header before its date and time.
const TEXT: usize = 36;

/// Where the directory of a new volume begins.
const FRESH_START: u32 = 2;

/// Bytes 12 to 15 of a new volume: the word 1000 hex, and zero.
const FRESH_WORD: [u8; 4] = [0x10, 0, 0, 0];

/// Bytes 20 to 23 of a new volume: LIF version 1, and zero.
const FRESH_VERSION: [u8; 4] = [0, 1, 0, 0];

/// What the header of a LIF volume says: the label, and where its directory lies.
#[derive(Clone, Copy, Debug, PartialEq, Eq)]
pub struct Header {
    label: [u8; 6],
    start: u16,
    length: u16,
}

impl Model for Header {
    ghost use Rattle.std.specs.Prelude.{◌+◌, ◌<◌, ◌^◌};
    ghost use Rattle.lif_model.specs.Header.{HeaderParts};

    ghost Value = { HeaderParts };

    ghost view = { λ h. record { label = h.label; start = h.start; length = h.length } };

    ghost invariant = { λ h. h.start + h.length < 2 ^ 16 };

    ghost inverse = { λ h. record { label = h.label; start = h.start; length = h.length } };
}

/// Why record 0 is not the header of a volume: the first of these tests that fails, in this order.
#[derive(Clone, Copy, Debug, PartialEq, Eq, Error)]
pub enum HeaderFault {
    /// Bytes 0 and 1 are not 8000 hex, but this.
    #[error("Id")]
    Id(u16),
    /// The directory's first record is this one, record 0.
    #[error("Start")]
    Start(u32),
    /// The directory has this many records, none.
    #[error("Length")]
    Length(u32),
    /// The directory ends at this record, which lies after the first of the last four.
    #[error("Past")]
    Past(u64),
}

impl Header {
    ghost use Rattle.lif_header.specs.Reading.{IsFault, LiesWithin};
    ghost use Rattle.lif_header.specs.declared.header.HeaderFault.{HeaderFault};

    /// Reads record 0 of a medium of `size` records, by the LIF volume header: the mark in bytes 0
    /// and 1, the label in bytes 2 to 7, the directory's first record in bytes 8 to 11 and its
    /// number of records in bytes 16 to 19.
    #[tactic(auto, unfolding(lif_model::specs::Header::label_of))]
    pub fn read(bytes: &Record, size: u16) -> Result<Header, HeaderFault>
        requires { 4 ≤ size }
        ensures readable { is_ok result ≡ is_readable size bytes.now }
        ensures header { IfOk result (λ header. header ≡ header_of bytes.now) }
        ensures within { IfOk result (LiesWithin size) }
        ensures fault { IfErr result (IsFault size bytes.now) }
        ensures exactly { (fault : HeaderFault) → IsFault size bytes.now fault → result ≡ Err fault }
    {
        let mark = two_at(bytes, 0);
        if mark != VOLUME_MARK {
            return Err(HeaderFault::Id(mark));
        }
        let start = four_at(bytes, 8);
        if start == 0 {
            return Err(HeaderFault::Start(start));
        }
        let length = four_at(bytes, 16);
        if length == 0 {
            return Err(HeaderFault::Length(length));
        }
        let end = u64::from(start) + u64::from(length);
        if end > u64::from(size - REDO_RECORDS) {
            return Err(HeaderFault::Past(end));
        }
        Ok(Header {
            label: bytes_at(bytes, 2),
            start: start as u16,
            length: length as u16,
        })
    }

    /// Record 0 as a new volume has it on a medium of `size` records, by the LIF volume header: the
    /// label, a directory of `length` records from record 2 on, LIF version 1, no date, and the
    /// geometry of an HP 9114 disc where the medium has its 2,464 records, else that of an
    /// HP 82161A cassette. Zeros follow.
    pub fn fresh(label: &[u8; 6], length: u16, size: u16) -> Record
        ensures { result ≡ fresh_header size label.now length }
    {
        let medium = Geometry::of(size);
        let mut text = [0; TEXT];
        put(&mut text, 0, &VOLUME_MARK.to_be_bytes());
        put(&mut text, 2, label);
        put(&mut text, 8, &FRESH_START.to_be_bytes());
        put(&mut text, 12, &FRESH_WORD);
        put(&mut text, 16, &u32::from(length).to_be_bytes());
        put(&mut text, 20, &FRESH_VERSION);
        put(&mut text, 24, &medium.tracks.to_be_bytes());
        put(&mut text, 28, &medium.surfaces.to_be_bytes());
        put(&mut text, 32, &medium.records.to_be_bytes());
        record_of(&text)
    }

    /// The label, filled up with spaces.
    pub fn label(&self) -> [u8; 6]
        ensures { result ≡ self.now.label }
    {
        self.label
    }

    /// The first record of the directory.
    pub fn start(&self) -> u16
        ensures { result ≡ self.now.start }
    {
        self.start
    }

    /// How many records the directory has.
    pub fn length(&self) -> u16
        ensures { result ≡ self.now.length }
    {
        self.length
    }

    /// The first record after the directory.
    pub fn end(&self) -> u16
        ensures { result ≡ self.now.start + self.now.length }
    {
        self.start + self.length
    }
}

/// The record that begins with this text, and has zeros after it.
fn record_of(text: &[u8; TEXT]) -> Record
    ensures { result ≡ piece text.now }
{
    let mut bytes = [0; RECORD];
    put(&mut bytes, 0, text);
    bytes
}

/// Writes `part` from place `at` on.
fn put(bytes: &mut [u8], at: usize, part: &[u8])
    requires { at + length part.now ≤ length bytes.old }
    ensures { bytes.new ≡ take at bytes.old ++ part.now ++ drop (at + length part.now) bytes.old }
{
    bytes[at..at + part.len()].copy_from_slice(part);
}
