//! Images of tapes: bytes that are read as records, as if followed by zeros.
ghost use Rattle.std.specs.Prelude.{◌≡◌, ◌<◌, ◌≤◌, ◌+◌, ◌*◌, ◌++◌, ℕ, [], length, get_or, take, drop, MatchOption};
ghost use Rattle.lif_model.specs.Shelf.{piece, cut, image_bytes, largest_image, records_for};
ghost use Rattle.il_ports.specs.Sizes.{records_of_size};

use lif_model::RECORD;

/// The size of a medium.
#[derive(Clone, Copy, Debug, PartialEq, Eq)]
pub enum Size {
    /// A tape of the HP 82161A.
    Tape,
    /// A disc of the HP 9114.
    Disc,
}

impl Size {
    /// The number of records.
    pub const fn records(self) -> u16
        ensures { result ≡ records_of_size self }
    {
        match self {
            Size::Tape => 512,
            Size::Disc => 2464,
        }
    }

    /// The bytes of an image.
    pub fn bytes(self) -> u64
        ensures { result ≡ image_bytes (records_of_size self) }
    {
        RECORD as u64 * u64::from(self.records())
    }

    /// The size that an image of so many bytes reads as: a tape's, or a disc's where a tape has fewer bytes. None comes
    /// exactly where a disc has fewer, too.
    pub fn of(bytes: u64) -> Option<Size>
        ensures { MatchOption result (largest_image < bytes) (λ size. (records_of_size size ≡ records_for bytes) × (bytes ≤ largest_image)) }
    {
        [Size::Tape, Size::Disc]
            .into_iter()
            .find(|size| bytes <= size.bytes())
    }
}

/// A copy of a record, which is known to have 256 bytes.
pub(crate) fn copy_of(bytes: &[u8; 256]) -> [u8; 256]
    ensures content { result ≡ bytes.now }
    ensures whole { length result ≡ 256 }
{
    *bytes
}

/// The next record of an image.
#[tactic(auto, unfolding(lif_model::specs::Shelf::piece))]
pub(crate) fn next_record(rest: &[u8]) -> [u8; 256]
    ensures content { result ≡ piece rest.now }
    ensures whole { length result ≡ 256 }
{
    let mut record = [0; 256];
    if rest.len() < 256 {
        record[..rest.len()].copy_from_slice(rest);
    } else {
        record.copy_from_slice(&rest[..256]);
    }
    record
}

/// What follows the next record of an image.
pub(crate) fn after_record(rest: &[u8]) -> &[u8]
    ensures { result.now ≡ drop 256 rest.now }
{
    if rest.len() < 256 { &[] } else { &rest[256..] }
}

/// Makes of the tape what the image reads as, with as many records.
pub(crate) fn lay_in(bytes: &[u8], tape: &mut [[u8; 256]])
    ensures content { tape.new ≡ cut (length tape.old) bytes.now }
    ensures shaped { (k : ℕ) → k < length tape.old → length (get_or tape.new k []) ≡ 256 }
{
    let mut rest = bytes;
    for record in tape.iter_mut() {
        *record = next_record(rest);
        rest = after_record(rest);
    }
}

/// Puts a record into its place among the bytes of records, and changes no other byte.
pub(crate) fn lay_out(content: &[u8; 256], place: usize, bytes: &mut [u8])
    requires { 256 * (place + 1) ≤ length bytes.old }
    ensures size { length bytes.new ≡ length bytes.old }
    ensures front { take (256 * (place + 1)) bytes.new ≡ take (256 * place) bytes.old ++ content.now }
    ensures behind { drop (256 * (place + 1)) bytes.new ≡ drop (256 * (place + 1)) bytes.old }
{
    bytes[RECORD * place..RECORD * (place + 1)].copy_from_slice(content);
}
