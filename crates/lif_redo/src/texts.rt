//! The records of the redo file: the gate, and the record that names the targets.
ghost use Rattle.std.specs.Prelude.{◌≡◌, ◌+◌, ◌/◌, ◌%◌, ◌≤◌, ◌&&◌, set, length, nat_lt, nat_eq, not};
ghost use Rattle.std.specs.Str.{bytes_eq};
ghost use Rattle.std.specs.List.{list_all};
ghost use Rattle.lif_model.specs.Numbers.{two_at};
ghost use Rattle.lif_model.specs.Pairs.{all_pairs};
ghost use Rattle.lif_model.specs.Gate.{is_open};
ghost use Rattle.lif_model.specs.Redo.{most_targets, zeros, open_gate, targets_record, are_targets, named_by};
ghost use Rattle.lif_model.specs.Redo.{targets_of};
ghost use Rattle.lif_redo.specs.Reading.{targets_read, MayBeNamed};

use arrayvec::ArrayVec;
use lif_model::{RECORD, Record, Version};

/// Where the targets record stands, counted back from the tape's end.
pub const TARGETS: u16 = 3;

/// How many targets there are at most, of any version.
pub const MOST: usize = 32;

/// What an open gate begins with.
const OPEN_TEXT: &[u8; 16] = b"LIFREDO1 OPEN   ";

/// Where the numbers stand in a targets record: how many targets there are, and from where on which.
const COUNT: usize = 8;

const FIRST_TARGET: usize = 10;

/// The targets that a record names, in their order.
#[derive(Drop)]
pub struct Named {
    pub version: Version,
    pub targets: ArrayVec<u16, MOST>,
}

/// The record that closes the gate.
#[tactic(auto, unfolding(lif_model::specs::Redo::zeros))]
pub fn zero_record() -> Record
    ensures { result ≡ zeros }
{
    [0; RECORD]
}

/// The record that opens the gate.
#[tactic(auto, unfolding(lif_model::specs::Redo::open_gate, lif_model::specs::Shelf::piece))]
pub fn open_gate_record() -> Record
    ensures { result ≡ open_gate }
{
    let mut bytes = [0; RECORD];
    bytes[..OPEN_TEXT.len()].copy_from_slice(OPEN_TEXT);
    bytes
}

/// Whether a gate record is open.
#[tactic(auto, unfolding(lif_model::specs::Gate::is_open))]
pub fn is_open_gate(bytes: &Record) -> bool
    ensures { result ≡ is_open bytes.now }
{
    bytes.starts_with(OPEN_TEXT)
}

/// The targets record that names these targets.
pub fn targets_record(version: Version, targets: &[u16]) -> Record
    requires { length targets.now ≤ most_targets version }
    ensures { result ≡ targets_record version targets.now }
{
    let mut bytes = [0; RECORD];
    bytes[..COUNT].copy_from_slice(&version.text());
    put_number(&mut bytes, COUNT, targets.len() as u16);
    for i in 0..targets.len() {
        put_number(&mut bytes, FIRST_TARGET + 2 * i, targets[i]);
    }
    bytes
}

/// Reads the targets record of a tape of `size` records: none where it is valid of no version.
pub fn read_targets(size: u16, bytes: &Record) -> Option<Named>
    ensures read { targets_of size bytes.now ≡ targets_read result }
    ensures may_be { MayBeNamed size result }
{
    let one = named_numbers(Version::One, bytes);
    if is_valid(Version::One, size, bytes, one.as_slice()) {
        return Some(Named {
            version: Version::One,
            targets: one,
        });
    }
    let two = named_numbers(Version::Two, bytes);
    if is_valid(Version::Two, size, bytes, two.as_slice()) {
        return Some(Named {
            version: Version::Two,
            targets: two,
        });
    }
    None
}

/// Whether this is the very record that names these targets, and they may be targets.
fn is_valid(version: Version, size: u16, bytes: &Record, targets: &[u16]) -> bool
    requires { length targets.now ≤ most_targets version }
    ensures { result ≡ (bytes_eq bytes.now (targets_record version targets.now)
        && are_targets version size targets.now) }
{
    *bytes == targets_record(version, targets) && are_targets(version, size, targets)
}

/// The numbers that a record of that version names.
fn named_numbers(version: Version, bytes: &Record) -> ArrayVec<u16, MOST>
    ensures numbers { result.items ≡ named_by version bytes.now }
    ensures few { length result.items ≤ most_targets version }
{
    let count = usize::from(number_at(bytes, COUNT)).min(version.most_targets());
    let mut numbers = ArrayVec::new();
    for i in 0..count {
        numbers.push(number_at(bytes, FIRST_TARGET + 2 * i));
    }
    numbers
}

/// Whether they may be the targets of a redo file on a tape of `size` records.
pub fn are_targets(version: Version, size: u16, targets: &[u16]) -> bool
    ensures { result ≡ are_targets version size targets.now }
{
    !targets.is_empty()
        && (targets.len() <= version.most_targets()
            && (all_below(version.start(size), targets) && are_distinct(targets)))
}

/// Whether each of these is below the limit.
fn all_below(limit: u16, targets: &[u16]) -> bool
    ensures { result ≡ list_all (λ k. nat_lt k limit) targets.now }
{
    targets.iter().all(|target| *target < limit)
}

/// Whether a target is none of these.
fn is_none_of(target: u16, others: &[u16]) -> bool
    ensures { result ≡ list_all (λ k. not (nat_eq target k)) others.now }
{
    others.iter().all(|other| target != *other)
}

/// Whether no two of these are equal.
fn are_distinct(targets: &[u16]) -> bool
    ensures { result ≡ all_pairs (λ j k. not (nat_eq j k)) targets.now }
{
    for i in 0..targets.len() {
        if !is_none_of(targets[i], &targets[i + 1..]) {
            return false;
        }
    }
    true
}

/// The number in the two bytes from place `at`, high byte first.
#[tactic(auto, unfolding(lif_model::specs::Numbers::two_at))]
fn number_at(bytes: &Record, at: usize) -> u16
    requires { at + 2 ≤ 256 }
    ensures { result ≡ two_at bytes.now at }
{
    u16::from_be_bytes([bytes[at], bytes[at + 1]])
}

/// Puts a number into the two bytes from place `at`, high byte first.
fn put_number(bytes: &mut Record, at: usize, number: u16)
    requires { at + 2 ≤ 256 }
    ensures { bytes.new ≡ set (set bytes.old at (number / 256)) (at + 1) (number % 256) }
{
    let [high, low] = number.to_be_bytes();
    bytes[at] = high;
    bytes[at + 1] = low;
}
