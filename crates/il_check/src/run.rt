ghost use Rattle.std.specs.Prelude.{◌≡◌, ◌≤◌, ◌<◌, ◌⊎◌, [], ℕ, None, length, map, string_bytes};
ghost use Rattle.lif_model.specs.Shelf.{IsSize};
ghost use Rattle.lif_model.specs.Tape.{IsTape};
ghost use Rattle.il_check.specs.Endings.{Says, TraceCause, OutputCause, MediaCause, MediaCauseOf};
ghost use Rattle.il_check.specs.Orders.{check_asked};
ghost use Rattle.il_check.specs.Telling.{verdict_text};
ghost use Rattle.il_check.specs.Whole.{CheckLeaves, CheckedBy, InsertFailedBy, CheckFailedBy, InsertsBoth, StaysSo, TellsAs, TellsOf, PutsAs};

use crate::ending::Ending;
use crate::reading::{Cut, read_trace};
use crate::tapes::{effects_on, insert, label_on, read_tape};
use crate::telling::{Label, ROOM, put_verdict};
use crate::tracing::Tracing;
use crate::verdict::TraceFault;
use crate::words::{read_party, word};
use il_ports::{Medium, Sink, Source, write_all};
use il_script::Page;
use lif_model::Record;
use std::alloc::Global;

/// Writes what is said, by an empty page. The check ends with it, or with a fault of the sink.
fn tell<K: Sink>(
    out: &mut K,
    mut page: Page,
    said: Option<(u32, TraceFault)>,
    before: Label,
    after: Label,
) -> Ending
    requires empty { page.text ≡ [] }
    requires room { 100 ≤ page.room }
    ensures says { Says result said }
    ensures writes { PutsAs result (verdict_text said before after) (K.written out.old) (K.written out.new) }
    ensures sink { OutputCause result (K.faults out.old) (K.faults out.new) }
    ensures media { (m n : ℕ) → MediaCause result m m n n }
{
    put_verdict(&mut page, said, before, after);
    match (write_all(out, page.text()), said) {
        (Ok(()), None) => Ending::Together,
        (Ok(()), Some(_)) => Ending::Differ,
        (Err(_), _) => Ending::SinkFailed,
    }
}

/// Checks a trace and the tapes before it and after it, which have as many records, of a ring of so many devices, of
/// which the drive is at this party. All memory is taken before the trace is read.
fn check_trace<S: Source, K: Sink>(
    alloc: Global,
    party: (u8, u8),
    old: &[Record],
    new: &[Record],
    page: Page,
    trace: &mut S,
    out: &mut K,
) -> Ending
    requires party { (1 ≤ party.0) × (party.0 ≤ 30) × (party.1 ≤ 30) }
    requires size { IsSize (length old.now) }
    requires same { length new.now ≡ length old.now }
    requires empty { page.text ≡ [] }
    requires room { 100 ≤ page.room }
    ensures tells { TellsAs party.0 party.1 (length old.now) (length new.now) old.now new.now (IsTape (length old.now) new.now)
        (S.left trace.old) (S.left trace.new) (K.written out.old) (K.written out.new) result }
    ensures source { TraceCause result (S.faults trace.old) (S.faults trace.new) }
    ensures sink { OutputCause result (K.faults out.old) (K.faults out.new) }
    ensures media { (m n : ℕ) → MediaCause result m m n n }
{
    let (Ok(effects), Ok(before), Ok(after)) = (
        effects_on(alloc, party.1, old),
        label_on(alloc, old),
        label_on(alloc, new),
    ) else {
        return Ending::OutOfMemory;
    };
    let mut tracing = Tracing::new(party.0, effects);
    match read_trace(trace, &mut tracing) {
        Ok(()) => tell(out, page, tracing.verdict(new), before, after),
        Err(Cut::Failed) => Ending::SourceFailed,
        Err(Cut::TooLong) => Ending::TraceTooLong,
    }
}

/// Checks a trace and the tapes that are in the drives.
fn check_media<S: Source, K: Sink, M: Medium>(
    alloc: Global,
    party: (u8, u8),
    before: &mut M,
    after: &mut M,
    trace: &mut S,
    out: &mut K,
) -> Ending
    requires party { (1 ≤ party.0) × (party.0 ≤ 30) × (party.1 ≤ 30) }
    requires size { IsSize (M.view before.old).record_count }
    ensures tells { TellsOf party.0 party.1 (M.view before.new).record_count (M.view after.new).record_count
        (M.view before.new).tape (M.view after.new).tape
        (S.left trace.old) (S.left trace.new) (K.written out.old) (K.written out.new) result }
    ensures before { StaysSo (M.view before.old) (M.view before.new) }
    ensures after { StaysSo (M.view after.old) (M.view after.new) }
    ensures source { TraceCause result (S.faults trace.old) (S.faults trace.new) }
    ensures sink { OutputCause result (K.faults out.old) (K.faults out.new) }
    ensures media { MediaCause result (M.view before.old).faults (M.view before.new).faults (M.view after.old).faults (M.view after.new).faults }
{
    let Ok(page) = Page::new(alloc, ROOM) else {
        return Ending::OutOfMemory;
    };
    if before.size() != after.size() {
        return tell(out, page, Some((0, TraceFault::SizeDiffers)), None, None);
    }
    let old = match read_tape(alloc, before) {
        Ok(tape) => tape,
        Err(end) => return end,
    };
    let new = match read_tape(alloc, after) {
        Ok(tape) => tape,
        Err(end) => return end,
    };
    check_trace(alloc, party, &old, &new, page, trace, out)
}

/// Puts the images of these names into the drives, first the one before the trace.
fn insert_both<M: Medium>(
    before: &mut M,
    after: &mut M,
    first: &str,
    second: &str,
) -> Result<(), Ending>
    requires { ((M.view before.old).record_count ≡ 0) × ((M.view after.old).record_count ≡ 0) }
    ensures inserts { InsertsBoth first.now second.now (M.view before.old) (M.view before.new) (M.view after.old) (M.view after.new) result }
    ensures cause { MediaCauseOf result (M.view before.old).faults (M.view before.new).faults (M.view after.old).faults (M.view after.new).faults }
    ensures failed { InsertFailedBy result (M.refuses before.old before.new first.now None ⊎ M.refuses after.old after.new second.now None) }
{
    insert(before, first)?;
    insert(after, second)
}

/// Reads the words, inserts the images that they name, and checks the trace and the tapes.
fn check<S: Source, K: Sink, M: Medium>(
    alloc: Global,
    words: &[String],
    trace: &mut S,
    out: &mut K,
    before: &mut M,
    after: &mut M,
) -> Ending
    requires { ((M.view before.old).record_count ≡ 0) × ((M.view after.old).record_count ≡ 0) }
    ensures leaves { CheckedBy result (check_asked (map string_bytes words.now)) (M.view before.old) (M.view before.new) (M.view after.old) (M.view after.new)
        (S.left trace.old) (S.left trace.new) (K.written out.old) (K.written out.new) }
    ensures failed { CheckFailedBy result (check_asked (map string_bytes words.now)) (λ name. M.refuses before.old before.new name None) (λ name. M.refuses after.old after.new name None) }
    ensures source { TraceCause result (S.faults trace.old) (S.faults trace.new) }
    ensures sink { OutputCause result (K.faults out.old) (K.faults out.new) }
    ensures media { MediaCause result (M.view before.old).faults (M.view before.new).faults (M.view after.old).faults (M.view after.new).faults }
{
    let Some(party) = read_party(words) else {
        return Ending::BadWords;
    };
    match insert_both(before, after, word(words, 3), word(words, 4)) {
        Ok(()) => check_media(alloc, party, before, after, trace, out),
        Err(end) => end,
    }
}

/// A check: reads the words, inserts the images that they name, reads the trace to its end, and writes whether the
/// trace, the tape before it and the tape after it go together, or the first fault. No tape is in a drive yet. The
/// answer is the exit status, 0 to 10. Nothing is written at 2 to 5 and 7 to 10, and no image is ever written.
pub fn run_check<S: Source, K: Sink, M: Medium>(
    alloc: Global,
    words: &[String],
    trace: &mut S,
    out: &mut K,
    before: &mut M,
    after: &mut M,
) -> u8
    requires { ((M.view before.old).record_count ≡ 0) × ((M.view after.old).record_count ≡ 0) }
    ensures { CheckLeaves result (map string_bytes words.now) (M.view before.old) (M.view before.new) (M.view after.old) (M.view after.new)
        (S.left trace.old) (S.left trace.new) (K.written out.old) (K.written out.new)
        (S.faults trace.old) (S.faults trace.new) (K.faults out.old) (K.faults out.new)
        (λ name. M.refuses before.old before.new name None) (λ name. M.refuses after.old after.new name None) }
{
    check(alloc, words, trace, out, before, after).status()
}
