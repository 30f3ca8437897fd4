#![tactic(auto)]

ghost use Rattle.std.specs.Prelude.{◌≡◌, ◌≢◌, ◌<◌, ◌++◌, ℕ, List, length, take, drop, codes, IfSome, IfNone, Some};
ghost use Rattle.std.specs.Fmt.{decimal};
ghost use Rattle.std.specs.List.{position, before_first};
ghost use Rattle.il_frames.specs.declared.entry.Entry.{Entry};
ghost use Rattle.il_frames.specs.declared.entry.Outcome.{Outcome};
ghost use Rattle.il_frames.specs.Entries.{outcome_text, entry_text, IsOutcome, IsEntry};
ghost use Rattle.il_frames.specs.Frames.{IsFrame};
ghost use Rattle.il_frames.specs.Names.{is_space};
ghost use Rattle.il_frames.specs.Texts.{text_of};

use crate::entry::{Entry, Outcome};
use crate::frame::Frame;
use crate::names::{byte_at, candidate};
use arrayvec::ArrayVec;

/// The one party whose number these digits may be.
fn party_spelled(digits: &[u8]) -> u8
    ensures { (party : ℕ) → party < 256 → decimal party ≡ digits.now → result ≡ party }
{
    let appended = |number: u8, digit: &u8| number
        .wrapping_mul(10)
        .wrapping_add(digit.wrapping_sub(b'0'));
    digits.iter().fold(0, appended)
}

/// The text without so many bytes at its head.
fn after(text: &[u8], count: usize) -> &[u8]
    ensures { result.now ≡ drop count text.now }
{
    text.get(count..).unwrap_or(&[])
}

/// The text without a frame's text at its head.
fn after_frame(text: &[u8], frame: Frame) -> &[u8]
    ensures { result.now ≡ drop (length (text_of frame)) text.now }
{
    let mut own_text = ArrayVec::new();
    frame.text(&mut own_text);
    after(text, own_text.len())
}

/// Where the first space is.
fn first_space(text: &[u8]) -> Option<usize>
    ensures { result ≡ position is_space text.now }
{
    text.iter().position(|byte| *byte == b' ')
}

/// The bytes before the first space, or all of them.
fn first_word(text: &[u8]) -> &[u8]
    ensures { result.now ≡ before_first is_space text.now }
{
    match first_space(text) {
        Some(length) => &text[..length],
        None => text,
    }
}

/// The one outcome that may have this text.
fn outcome_spelled(text: &[u8]) -> Option<Outcome>
    ensures every { (outcome : Outcome) → IsOutcome outcome → outcome_text outcome ≡ text.now → result ≡ Some outcome }
    ensures range { IfSome result IsOutcome }
{
    let rest = after(text, 3);
    match byte_at(text, 1) {
        b'=' => Some(Outcome::Back(candidate(rest)?)),
        b'>' => Some(Outcome::Taken(party_spelled(rest))),
        b'!' => Some(Outcome::Lost(party_spelled(rest))),
        _ => None,
    }
}

/// The one entry that may have this line: its own line is still to be compared.
fn entry_spelled(line: &[u8]) -> Option<Entry>
    ensures every { (entry : Entry) → IsEntry entry → entry_text entry ≡ line.now → result ≡ Some entry }
    ensures range { IfSome result IsEntry }
{
    let line = after(line, 2);
    let digits = first_word(line);
    let line = after(line, digits.len() + 1);
    let frame = candidate(line)?;
    let outcome = outcome_spelled(after_frame(line, frame))?;
    Some(Entry {
        source: party_spelled(digits),
        frame,
        outcome,
    })
}

impl Entry {
    /// The entry that has this line of a trace, without its line feed, and `None` where no entry has
    /// it.
    ///
    /// Each entry has one line: parties are read in decimal from 0 to 255 without leading zeros, and
    /// frames as [`Frame::read_text`] reads them.
    pub fn read_text(text: &[u8]) -> Option<Entry>
        ensures found { IfSome result (λ entry. entry_text entry ≡ text.now) }
        ensures range { IfSome result (λ entry. IsEntry entry) }
        ensures every { (entry : Entry) → IsEntry entry → entry_text entry ≡ text.now → result ≡ Some entry }
        ensures none { IfNone result ((entry : Entry) → IsEntry entry → entry_text entry ≢ text.now) }
    {
        let entry = entry_spelled(text)?;
        let mut own_text = ArrayVec::new();
        entry.text(&mut own_text);
        if own_text.as_slice() == text {
            Some(entry)
        } else {
            None
        }
    }
}
