ghost use Rattle.std.specs.Prelude.{◌≡◌, ◌≤◌, [], Ok, length};
ghost use Rattle.il_script.specs.Digits.{number_up_to, payload_of};
ghost use Rattle.il_script.specs.Words.{words_of};
ghost use Rattle.il_script.specs.Commands.{is_comment, fetch_of, get_of, purge_of, rename_of, format_of, lend_of, carrying, store_of, put_of, say_of, word_command, lone_of, command_of, asked_of, reading_of, command_in, bytes_in, command_read, bytes_read, name_of_part, in_form, with_name};
ghost use Rattle.il_script.specs.declared.command.Command.{Command};
ghost use Rattle.lif_dir.specs.declared.names.NewName.{NewName};

use crate::command::{Command, LineFault};
use crate::digits::{read_hex, read_number, read_type};
use crate::limits::{LONGEST_LINE, MOST_FRAMES, MOST_SLOTS};
use crate::payload::Payload;
use crate::spelling::{spelt_name, spelt_new_label, spelt_new_name};
use crate::words::{four_parts, is_end, next_word, one_part, two_parts, without_return};
use lif_dir::{Name, NewName};

/// What a line asks for, and into `payload` the bytes that its command carries. `None` stands for a line that is
/// skipped: one without words, or one whose first word begins with `#`. A carriage return at the end of the line is
/// dropped. Where the line carries no bytes, and where it is at fault, the payload is empty.
pub fn read_line(line: &[u8], payload: &mut Payload) -> Result<Option<Command>, LineFault>
    requires { length line.now ≤ LONGEST_LINE }
    ensures command { result ≡ command_read (reading_of line.now) }
    ensures payload { payload.new ≡ bytes_read (reading_of line.now) }
{
    payload.clear();
    let (word, rest) = next_word(without_return(line));
    if word.is_empty() || is_note(word) {
        return Ok(None);
    }
    match read_command(word, rest, payload) {
        Ok(command) => Ok(Some(command)),
        Err(fault) => Err(fault),
    }
}

/// Whether the first word begins a comment.
fn is_note(word: &[u8]) -> bool
    ensures { result ≡ is_comment word.now }
{
    word.starts_with(b"#")
}

/// What the first word and the rest of a line ask for.
fn read_command(word: &[u8], rest: &[u8], payload: &mut Payload) -> Result<Command, LineFault>
    requires size { length rest.now ≤ LONGEST_LINE }
    requires empty { payload.old ≡ [] }
    ensures command { result ≡ command_in (asked_of word.now (words_of rest.now)) }
    ensures payload { payload.new ≡ bytes_in (asked_of word.now (words_of rest.now)) }
{
    if word == b"store".as_slice() {
        return read_store(rest, payload);
    }
    if word == b"put".as_slice() {
        return read_put(rest, payload);
    }
    if word == b"say".as_slice() {
        return read_say(rest, payload);
    }
    read_bare(word, rest)
}

/// A command that carries no bytes.
fn read_bare(word: &[u8], rest: &[u8]) -> Result<Command, LineFault>
    ensures { result ≡ command_of word.now (words_of rest.now) }
{
    if word == b"fetch".as_slice() {
        return read_fetch(rest);
    }
    if word == b"get".as_slice() {
        return read_get(rest);
    }
    if word == b"purge".as_slice() {
        return read_purge(rest);
    }
    if word == b"rename".as_slice() {
        return read_rename(rest);
    }
    if word == b"format".as_slice() {
        return read_format(rest);
    }
    if word == b"lend".as_slice() {
        return read_lend(rest);
    }
    read_lone(word, rest)
}

/// A command without parts.
fn read_lone(word: &[u8], rest: &[u8]) -> Result<Command, LineFault>
    ensures { result ≡ lone_of word.now (words_of rest.now) }
{
    match lone_command(word) {
        Some(command) if is_end(rest) => Ok(command),
        _ => Err(LineFault::BadLine),
    }
}

fn lone_command(word: &[u8]) -> Option<Command>
    ensures { result ≡ word_command word.now }
{
    if word == b"dir".as_slice() {
        return Some(Command::Dir);
    }
    if word == b"label".as_slice() {
        return Some(Command::Label);
    }
    if word == b"adopt".as_slice() {
        return Some(Command::Adopt);
    }
    if word == b"upgrade".as_slice() {
        return Some(Command::Upgrade);
    }
    if word == b"pack".as_slice() {
        return Some(Command::Pack);
    }
    if word == b"begin".as_slice() {
        return Some(Command::Begin);
    }
    if word == b"commit".as_slice() {
        return Some(Command::Commit);
    }
    if word == b"devices".as_slice() {
        return Some(Command::Devices);
    }
    if word == b"status".as_slice() {
        return Some(Command::Status);
    }
    if word == b"poll".as_slice() {
        return Some(Command::Poll);
    }
    if word == b"paper".as_slice() {
        return Some(Command::Paper);
    }
    None
}

/// `fetch NAME`
fn read_fetch(rest: &[u8]) -> Result<Command, LineFault>
    ensures { result ≡ fetch_of (words_of rest.now) }
{
    let name = read_name(rest)?;
    Ok(Command::Fetch(name))
}

/// `get NAME`
fn read_get(rest: &[u8]) -> Result<Command, LineFault>
    ensures { result ≡ get_of (words_of rest.now) }
{
    let name = read_name(rest)?;
    Ok(Command::Get(name))
}

/// `purge NAME`
fn read_purge(rest: &[u8]) -> Result<Command, LineFault>
    ensures { result ≡ purge_of (words_of rest.now) }
{
    let name = read_name(rest)?;
    Ok(Command::Purge(name))
}

/// `rename OLD NEW`
fn read_rename(rest: &[u8]) -> Result<Command, LineFault>
    ensures { result ≡ rename_of (words_of rest.now) }
{
    let (old, new) = two_parts(rest).ok_or(LineFault::BadLine)?;
    let old = spelt_name(old).ok_or(LineFault::BadLine)?;
    let new = spelt_new_name(new).ok_or(LineFault::BadLine)?;
    Ok(Command::Rename {
        old: old.ok_or(LineFault::BadName)?,
        new: new.ok_or(LineFault::BadName)?,
    })
}

/// `format LABEL SLOTS`
fn read_format(rest: &[u8]) -> Result<Command, LineFault>
    ensures { result ≡ format_of (words_of rest.now) }
{
    let (label, slots) = two_parts(rest).ok_or(LineFault::BadLine)?;
    let label = spelt_new_label(label).ok_or(LineFault::BadLine)?;
    let slots = read_count(slots, MOST_SLOTS).ok_or(LineFault::BadLine)?;
    let label = label.ok_or(LineFault::BadName)?;
    Ok(Command::Format { label, slots })
}

/// `lend FRAMES`
fn read_lend(rest: &[u8]) -> Result<Command, LineFault>
    ensures { result ≡ lend_of (words_of rest.now) }
{
    let frames = one_part(rest).ok_or(LineFault::BadLine)?;
    let frames = read_count(frames, MOST_FRAMES).ok_or(LineFault::BadLine)?;
    Ok(Command::Lend(frames))
}

/// A count of slots or of frames, 1 to `most`.
fn read_count(text: &[u8], most: u16) -> Option<u16>
    ensures { result ≡ number_up_to most text.now }
{
    let count = read_number(text, u64::from(most))?;
    Some(count as u16)
}

/// `store NAME TYPE IMPL HEX`
fn read_store(rest: &[u8], payload: &mut Payload) -> Result<Command, LineFault>
    requires size { length rest.now ≤ LONGEST_LINE }
    requires empty { payload.old ≡ [] }
    ensures command { result ≡ command_in (store_of (words_of rest.now)) }
    ensures payload { payload.new ≡ bytes_in (store_of (words_of rest.now)) }
{
    let (name, kind, implementation, bytes) = four_parts(rest).ok_or(LineFault::BadLine)?;
    let name = spelt_new_name(name).ok_or(LineFault::BadLine)?;
    let kind = read_type(kind).ok_or(LineFault::BadLine)?;
    let implementation = read_hex(implementation).ok_or(LineFault::BadLine)?;
    let name = read_carried(name, bytes, payload)?;
    Ok(Command::Store {
        name,
        kind,
        implementation,
    })
}

/// `put NAME HEX`
fn read_put(rest: &[u8], payload: &mut Payload) -> Result<Command, LineFault>
    requires size { length rest.now ≤ LONGEST_LINE }
    requires empty { payload.old ≡ [] }
    ensures command { result ≡ command_in (put_of (words_of rest.now)) }
    ensures payload { payload.new ≡ bytes_in (put_of (words_of rest.now)) }
{
    let (name, bytes) = two_parts(rest).ok_or(LineFault::BadLine)?;
    let name = spelt_new_name(name).ok_or(LineFault::BadLine)?;
    let name = read_carried(name, bytes, payload)?;
    Ok(Command::Put(name))
}

/// Takes the bytes that a text spells, for the file that gets this name. Where either does not serve there are none.
fn read_carried(
    name: Option<NewName>,
    text: &[u8],
    payload: &mut Payload,
) -> Result<NewName, LineFault>
    requires { length text.now ≤ LONGEST_LINE }
    ensures name { result ≡ in_form (payload_of text.now) (λ bytes. with_name name (λ name. Ok name)) }
    ensures payload { (command : NewName → Command) → payload.new ≡ bytes_in (carrying command name text.now) }
{
    if !payload.read(text) {
        return Err(LineFault::BadLine);
    }
    if name.is_none() {
        payload.clear();
    }
    name.ok_or(LineFault::BadName)
}

/// `say HEX`
fn read_say(rest: &[u8], payload: &mut Payload) -> Result<Command, LineFault>
    requires size { length rest.now ≤ LONGEST_LINE }
    requires empty { payload.old ≡ [] }
    ensures command { result ≡ command_in (say_of (words_of rest.now)) }
    ensures payload { payload.new ≡ bytes_in (say_of (words_of rest.now)) }
{
    let bytes = one_part(rest).ok_or(LineFault::BadLine)?;
    if !payload.read(bytes) {
        return Err(LineFault::BadLine);
    }
    Ok(Command::Say)
}

/// The name that is the only part.
fn read_name(rest: &[u8]) -> Result<Name, LineFault>
    ensures { result ≡ name_of_part (words_of rest.now) }
{
    let name = one_part(rest).ok_or(LineFault::BadLine)?;
    let name = spelt_name(name).ok_or(LineFault::BadLine)?;
    name.ok_or(LineFault::BadName)
}
