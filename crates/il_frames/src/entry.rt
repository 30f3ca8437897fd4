#![tactic(auto)]

ghost use Rattle.std.specs.Prelude.{◌≡◌, ◌+◌, ◌<◌, ◌≤◌, ◌++◌, length};
ghost use Rattle.std.specs.Fmt.{decimal};
ghost use Rattle.arrayvec.specs.ArrayVec.{array_vec_len};
ghost use Rattle.il_frames.specs.declared.entry.Entry.{Entry};
ghost use Rattle.il_frames.specs.Entries.{outcome_text, entry_text, IsOutcome, IsEntry};
ghost use Rattle.il_frames.specs.Frames.{IsFrame};
ghost use Rattle.il_frames.specs.Texts.{text_of};

use crate::frame::Frame;
use crate::text::{append, append_frame};
use arrayvec::ArrayVec;
use itoa::Buffer;

/// One line of a log of the loop: a frame that was sent, and how it ended.
#[derive(Clone, Copy, PartialEq, Eq, Debug)]
pub struct Entry {
    /// The party that sent the frame: 0 is the host, and k the k-th device counted from the host's
    /// output.
    pub source: u8,
    /// The frame as it was sent.
    pub frame: Frame,
    /// How it ended.
    pub outcome: Outcome,
}

/// How a frame ended.
#[derive(Clone, Copy, PartialEq, Eq, Debug)]
pub enum Outcome {
    /// It came back to its source, as this frame.
    Back(Frame),
    /// This party took it, and sent a frame of its own in its place.
    Taken(u8),
    /// It did not reach this party.
    Lost(u8),
}

/// Appends a party's number in decimal.
fn append_party(out: &mut ArrayVec<u8, 40>, party: u8)
    requires { array_vec_len out.old ≤ 37 }
    ensures items { out.new.items ≡ out.old.items ++ decimal party }
    ensures len { array_vec_len out.new ≤ array_vec_len out.old + 3 }
    ensures range { party < 256 }
{
    if party < 10 {
        append(out, &[b'0' + party]);
        return;
    }
    let mut digits = Buffer::new();
    append(out, digits.format(party).as_bytes());
}

/// Appends how a frame ended.
fn append_outcome(out: &mut ArrayVec<u8, 40>, outcome: Outcome)
    requires { array_vec_len out.old ≤ 31 }
    ensures items { out.new.items ≡ out.old.items ++ outcome_text outcome }
    ensures range { IsOutcome outcome }
{
    match outcome {
        Outcome::Back(frame) => {
            append(out, b" = ");
            append_frame(out, frame);
        }
        Outcome::Taken(party) => {
            append(out, b" > ");
            append_party(out, party);
        }
        Outcome::Lost(party) => {
            append(out, b" ! ");
            append_party(out, party);
        }
    }
}

impl Entry {
    /// Replaces `out` by the entry's line of a trace, without its line feed: `~ S TEXT = TEXT` for
    /// `Back`, `~ S TEXT > Q` for `Taken` and `~ S TEXT ! Q` for `Lost`, the parties in decimal.
    pub fn text(&self, out: &mut ArrayVec<u8, 40>)
        ensures line { out.new.items ≡ entry_text self.now }
        ensures distinct { (other : Entry) → IsEntry other → entry_text other ≡ out.new.items → other ≡ self.now }
    {
        out.clear();
        append(out, b"~ ");
        append_party(out, self.source);
        append(out, b" ");
        append_frame(out, self.frame);
        append_outcome(out, self.outcome);
    }
}
