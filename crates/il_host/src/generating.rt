//! A run over a script that it makes by itself. It tells how many replies there were of each kind.
ghost use Rattle.std.specs.Prelude.{◌≡◌, ℕ, ◌+◌, ◌*◌, ◌<◌, ◌≤◌, ◌++◌, List, [], Option, Some, true, length, is_some};
ghost use Rattle.il_script.specs.declared.limits.TheConstants.{LONGEST_LINE, LONGEST_PAYLOAD};
ghost use Rattle.il_script.specs.Replies.{next};
ghost use Rattle.host_model.specs.Endings.{IsEarly, HasEndingCause};
ghost use Rattle.host_model.specs.Generated.{generated_name, rising, store_line};
ghost use Rattle.host_model.specs.Replies.{bytes_text};
ghost use Rattle.host_model.specs.Requests.{item_of};
ghost use Rattle.host_model.specs.Runs.{Summary, count_line};
ghost use Rattle.il_host.specs.Generating.{next_line, next_state, line_at, state_at, AnswersLine};
ghost use Rattle.il_host.specs.PlainCommands.{IsAlone, IsPlainAsked};
ghost use Rattle.il_host.specs.Run.{Answers, AnswersScript, end_of, item_asked};

use crate::ending::Ending;
use crate::parts::put_next_number;
use crate::performer::Performer;
use crate::running::{Asked, read_text};
use il_ports::{Sink, write_all};
use il_script::{Page, Payload, Reply};
use std::marker::Model;

/// How much room a page needs for each line of a generated script, of which the longest has 4,022 bytes, and for the
/// summary.
pub const GENERATED_ROOM: usize = 4_100;

/// Numbers that look drawn by lot, each made of the one before it, by the rule of the C standard's sample `rand`.
#[derive(Drop)]
struct Draws {
    state: u32,
    ghost in_range: { state < 2147483648 },
}

impl Draws {
    ghost use Rattle.std.specs.Prelude.{◌≡◌, ◌<◌};
    ghost use Rattle.host_model.specs.Generated.{draw, drawn};

    /// The next number, below 32768.
    fn next(&mut self) -> u32
        ensures state { self.new.state ≡ draw self.old.state }
        ensures number { result ≡ drawn self.new.state }
    {
        let state = (u64::from(self.state) * 1_103_515_245 + 12_345) % 2_147_483_648;
        self.state = state as u32;
        self.state / 65536
    }
}

/// Which of sixteen names a number chooses.
fn put_next_generated_name(page: &mut Page, number: u32)
    requires { length page.old.text + 4 ≤ page.old.room }
    ensures text { page.new ≡ record page.old { text = page.old.text ++ next (generated_name number) } }
    ensures size { length page.new.text ≡ length page.old.text + 4 }
{
    let name = (number % 16) as u8;
    page.put(&[b' ', b'F', b'0' + name / 10, b'0' + name % 10]);
}

/// So many bytes as hex digits, each one more than the one before it, or a minus sign for none.
fn put_next_rising(page: &mut Page, first: u32, count: u32)
    requires few { first + count ≤ u32.MAX }
    requires room { length page.old.text + 2 * count + 2 ≤ page.old.room }
    ensures text { page.new ≡ record page.old { text = page.old.text ++ next (bytes_text (rising first count)) } }
    ensures size { length page.new.text ≤ length page.old.text + 2 * count + 2 }
{
    if count == 0 {
        page.put(b" -");
        return;
    }
    page.put(b" ");
    for place in 0..count {
        page.put_hex(&[((first + place) % 256) as u8]);
    }
}

/// The line of a command that names a file.
fn put_name_line(page: &mut Page, word: &[u8], name: u32)
    requires { length page.old.text + length word.now + 4 ≤ page.old.room }
    ensures text { page.new ≡ record page.old { text = page.old.text ++ (word.now ++ next (generated_name name)) } }
    ensures size { length page.new.text ≡ length page.old.text + length word.now + 4 }
{
    page.put(word);
    put_next_generated_name(page, name);
}

/// The line that stores a file: two numbers choose its name and its size.
fn put_store_line(page: &mut Page, name: u32, size: u32)
    requires { length page.old.text + 4023 ≤ page.old.room }
    ensures text { page.new ≡ record page.old { text = page.old.text ++ store_line name size } }
    ensures size { length page.new.text ≤ length page.old.text + 4023 }
{
    put_name_line(page, b"store", name);
    page.put(b" 0001 00000000");
    put_next_rising(page, name % 16, size % 2000);
}

/// The line that the next draws choose, on an empty page.
fn put_next_line(page: &mut Page, draws: &mut Draws)
    requires empty { page.old.text ≡ [] }
    requires room { GENERATED_ROOM ≤ page.old.room }
    ensures text { page.new ≡ record page.old { text = next_line draws.old.state } }
    ensures size { length page.new.text ≤ GENERATED_ROOM }
    ensures draws { draws.new.state ≡ next_state draws.old.state }
{
    let name = draws.next();
    let chosen = draws.next() % 4;
    if chosen < 2 {
        put_store_line(page, name, draws.next());
    } else if chosen == 2 {
        put_name_line(page, b"purge", name);
    } else {
        put_name_line(page, b"fetch", name);
    }
}

/// The line at this place of the script, in place of the one before it.
fn put_line(page: &mut Page, draws: &mut Draws, place: u16)
    requires { GENERATED_ROOM ≤ page.old.room }
    ensures text { page.new ≡ record page.old { text = line_at place draws.old.state } }
    ensures size { length page.new.text ≤ GENERATED_ROOM }
    ensures draws { draws.new.state ≡ state_at place draws.old.state }
{
    page.clear();
    if place == 0 {
        page.put(b"format GENTAP 64");
    } else {
        put_next_line(page, draws);
    }
}

/// Answers what a line asks for, and writes nothing.
fn reply_to<P: Performer>(host: &mut P, asked: Asked, bytes: &[u8]) -> Reply
    requires valid { (P.view host.old).valid }
    requires plain { IsPlainAsked asked }
    requires alone { IsAlone asked }
    requires few { length bytes.now ≤ LONGEST_PAYLOAD }
    ensures { (written : Option (List ℕ)) → Answers {E = Unit {0}} (item_asked asked bytes.now []) result Summary (P.view host.old) (P.view host.new) written written (Ok tt) }
{
    match asked {
        Asked::Command(command) => host.perform(&command, bytes),
        Asked::Batch => unreachable!(),
        Asked::NoCommand(code) => Reply::No(code),
    }
}

/// Answers a line that is an item, and writes nothing.
fn answer_line<P: Performer>(line: &[u8], payload: &mut Payload, host: &mut P) -> Reply
    requires valid { (P.view host.old).valid }
    requires few { length line.now ≤ LONGEST_LINE }
    requires item { is_some (item_of (Some line.now)) ≡ true }
    ensures { AnswersLine line.now result (P.view host.old) (P.view host.new) }
{
    let Some(asked) = read_text(line, payload) else {
        unreachable!()
    };
    reply_to(host, asked, payload.bytes())
}

/// The line of a count.
fn put_count(page: &mut Page, name: &[u8], count: u16)
    requires { length page.old.text + length name.now + 12 ≤ page.old.room }
    ensures text { page.new ≡ record page.old { text = page.old.text ++ count_line name.now count } }
    ensures size { length page.new.text ≤ length page.old.text + length name.now + 12 }
{
    page.put(name);
    put_next_number(page, u32::from(count));
    page.put(b"\n");
}

/// How many replies are ok, errors and faults.
#[derive(Drop)]
struct Counts {
    ok: u16,
    errors: u16,
    faults: u16,
}

impl Model for Counts {
    ghost use Rattle.host_model.specs.Runs.{Tally};

    ghost Value = { Tally };

    ghost view = { λ c. record { ok = c.ok; errors = c.errors; faults = c.faults } };
}

impl Counts {
    ghost use Rattle.std.specs.Prelude.{◌≡◌, ◌+◌, ◌<◌, ◌≤◌, ◌++◌, [], length};
    ghost use Rattle.host_model.specs.Runs.{with_reply, tally_of, tally_text};
    ghost use Rattle.il_host.specs.Generating.{total, is_all_ok};

    /// No replies.
    fn new() -> Counts
        ensures { result ≡ tally_of [] }
    {
        Counts {
            ok: 0,
            errors: 0,
            faults: 0,
        }
    }

    /// One reply more.
    fn count(&mut self, reply: Reply)
        requires { total self.old < u16.MAX }
        ensures counted { self.new ≡ with_reply reply self.old }
        ensures total { total self.new ≡ total self.old + 1 }
    {
        match reply {
            Reply::Ok => self.ok += 1,
            Reply::No(_) => self.errors += 1,
            Reply::FaultFrame | Reply::FaultMedium => self.faults += 1,
        }
    }

    /// Whether each reply is ok.
    fn is_all_ok(&self) -> bool
        ensures { result ≡ is_all_ok self.now }
    {
        self.errors == 0 && self.faults == 0
    }

    /// The summary of a script of so many lines.
    fn put_summary(&self, page: &mut Page, count: u16)
        requires { length page.old.text + 69 ≤ page.old.room }
        ensures { page.new ≡ record page.old { text = page.old.text ++ tally_text count self.now } }
    {
        put_count(page, b"generated", count);
        put_count(page, b"ok", self.ok);
        put_count(page, b"error", self.errors);
        put_count(page, b"fault", self.faults);
    }
}

/// Answers so many lines of the script that a seed makes, one by one, and writes their summary. The page has the room
/// for it.
pub fn answer_generated<P: Performer, K: Sink>(
    mut page: Page,
    mut payload: Payload,
    seed: u32,
    count: u16,
    host: &mut P,
    out: &mut K,
) -> Ending
    requires page { page ≡ record { text = []; room = GENERATED_ROOM } }
    requires seed { seed < 2147483648 }
    requires valid { (P.view host.old).valid }
    ensures valid { (P.view host.new).valid }
    ensures plan { (P.view host.new).plan ≡ (P.view host.old).plan }
    ensures answers { (left : Option (List ℕ)) → AnswersScript (Some (seed, count)) result Summary (P.view host.old) (P.view host.new)
        left left (K.written out.old) (K.written out.new) }
    ensures cause { (n : ℕ) → HasEndingCause (end_of result) n n
        (K.faults out.old) (K.faults out.new) (P.view host.old).state.faults (P.view host.new).state.faults }
    ensures late { IsEarly (end_of result) → ⊥ }
{
    let mut draws = Draws { state: seed };
    let mut counts = Counts::new();
    'lines: for place in 0..count {
        put_line(&mut page, &mut draws, place);
        counts.count(answer_line(page.text(), &mut payload, host));
    }
    page.clear();
    counts.put_summary(&mut page, count);
    match write_all(out, page.text()) {
        Err(_) => Ending::SinkFailed,
        Ok(()) if counts.is_all_ok() => Ending::AllOk,
        Ok(()) => Ending::SomeNotOk,
    }
}
