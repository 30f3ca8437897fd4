//! What the log of a second controller's rounds tells of the statuses that it asked for.
ghost use Rattle.std.specs.Prelude.{◌≡◌};
ghost use Rattle.il_ring.specs.Statuses as spec;

use il_frames::{Entry, Frame, Message, Outcome};

/// Whether `party` took the frame.
fn is_taken_by(party: u8, outcome: Outcome) -> bool
    ensures { result ≡ spec.is_taken_by party outcome }
{
    match outcome {
        Outcome::Taken(by) => by == party,
        Outcome::Back(_) | Outcome::Lost(_) => false,
    }
}

/// Whether the next entry is the ETO of the same source, which `party` took.
fn is_ended(party: u8, entry: Entry, after: &[Entry]) -> bool
    ensures { result ≡ spec.is_ended party entry after.now }
{
    match after {
        [next, ..] => {
            next.source == entry.source
                && (next.frame == Frame::of(Message::Eto) && is_taken_by(party, next.outcome))
        }
        [] => false,
    }
}

/// Whether the entry is a byte that `party` was told.
fn is_told(party: u8, entry: Entry, after: &[Entry]) -> bool
    ensures { result ≡ spec.is_reported party entry after.now }
{
    entry.frame.is_data() && is_ended(party, entry, after)
}

/// Whether the entry is an SST of `party` that came back: no device answered it.
fn tells_none(party: u8, entry: Entry) -> bool
    ensures { result ≡ spec.reports_none party entry }
{
    entry.source == party
        && (entry.frame == Frame::of(Message::Sst) && matches!(entry.outcome, Outcome::Back(_)))
}

/// The address that `party` asks after the entry.
fn asked_after(party: u8, asked: Option<u8>, entry: Entry) -> Option<u8>
    ensures { result ≡ spec.asked_after party asked entry }
{
    match entry.frame.message() {
        Message::Tad(address) if entry.source == party => Some(address),
        _ => asked,
    }
}

/// What is known of the address that is asked after the entry, which these follow.
fn answer_known(party: u8, known: Option<u8>, entry: Entry, after: &[Entry]) -> Option<u8>
    ensures { result ≡ spec.answer_known party known entry after.now }
{
    if tells_none(party, entry) {
        None
    } else if is_told(party, entry, after) {
        Some(entry.frame.byte())
    } else {
        known
    }
}

/// The last status of `address` that `party` was told: the byte of the last one, or `None` where SST came back since.
pub(crate) fn last_status(log: &[Entry], party: u8, address: u8) -> Option<u8>
    ensures { result ≡ spec.last_known party address log.now }
{
    let mut asked = None;
    let mut known = None;
    let mut rest = log;
    while let [entry, after @ ..] = rest {
        if asked == Some(address) {
            known = answer_known(party, known, *entry, after);
        }
        asked = asked_after(party, asked, *entry);
        rest = after;
    }
    known
}
