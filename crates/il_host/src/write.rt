ghost use Rattle.lif_model.specs.Causes.{HasCause};
ghost use Rattle.host_model.specs.Replies.{trace_text};
ghost use Rattle.il_ports.specs.Writing.{WritesAll};
ghost use Rattle.il_host.specs.Writing.{MakesRoom, told_text};
ghost use Rattle.std.specs.Prelude.{◌≡◌, ◌≤◌, ◌+◌, ◌++◌, OnOk};
ghost use Rattle.arrayvec.specs.ArrayVec.{array_vec_len};
ghost use Rattle.il_script.specs.Replies.{text_line};
ghost use Rattle.il_frames.specs.Entries.{entry_text};

use arrayvec::ArrayVec;
use il_frames::Entry;
use il_ports::{Failed, Sink, write_all};

/// How many bytes of a trace are written as one piece, at most.
const PIECE: usize = 4096;

/// How many bytes the line of an entry has, at most, with its line feed.
const LONGEST_LINE: usize = 41;

/// Puts the line of an entry after those that wait to be written.
fn put_entry(waiting: &mut ArrayVec<u8, PIECE>, entry: &Entry)
    requires { array_vec_len waiting.old + LONGEST_LINE ≤ PIECE }
    ensures { waiting.new.items ≡ waiting.old.items ++ text_line (entry_text entry.now) }
{
    let mut text = ArrayVec::new();
    entry.text(&mut text);
    waiting.try_extend_from_slice(&text).unwrap();
    waiting.push(b'\n');
}

/// Writes what waits where it leaves no room for one more line.
fn make_room<K: Sink>(out: &mut K, waiting: &mut ArrayVec<u8, PIECE>) -> Result<(), Failed>
    ensures bytes { MakesRoom (K.written out.old) (K.written out.new) waiting.old.items waiting.new.items result }
    ensures room { OnOk result (array_vec_len waiting.new + LONGEST_LINE ≤ PIECE) }
    ensures cause { HasCause (K.faults out.old) (K.faults out.new) result }
{
    if waiting.remaining_capacity() < LONGEST_LINE {
        write_all(out, waiting)?;
        waiting.clear();
    }
    Ok(())
}

/// Writes a log, a line for each entry, in pieces: one where a line finds no more room, and one at the end.
fn write_trace<K: Sink>(out: &mut K, log: &[Entry]) -> Result<(), Failed>
    ensures bytes { WritesAll (K.written out.old) (K.written out.new) (trace_text log.now) result }
    ensures cause { HasCause (K.faults out.old) (K.faults out.new) result }
{
    let mut waiting = ArrayVec::new();
    'entries: for entry in log {
        make_room(out, &mut waiting)?;
        put_entry(&mut waiting, entry);
    }
    write_all(out, &waiting)
}

/// Writes what is told of a command: its log, unless the run is quiet, and the text of its reply.
pub fn write_told<K: Sink>(
    out: &mut K,
    log: &[Entry],
    text: &[u8],
    quiet: bool,
) -> Result<(), Failed>
    ensures bytes { WritesAll (K.written out.old) (K.written out.new) (told_text quiet log.now text.now) result }
    ensures cause { HasCause (K.faults out.old) (K.faults out.new) result }
{
    if quiet {
        return write_all(out, text);
    }
    write_trace(out, log)?;
    write_all(out, text)
}
