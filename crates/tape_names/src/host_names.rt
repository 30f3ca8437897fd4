//! The names that files of a tape have on the host.
ghost use Rattle.std.specs.Prelude.{◌≡◌, ◌≤◌, ◌+◌, ◌*◌, ◌++◌, Some, length, option_and_then};
ghost use Rattle.std.specs.List.{flat_map};
ghost use Rattle.lif_dir.specs.Entries.{name_bytes};
ghost use Rattle.lif_dir.specs.Names.{name_of_bytes};
ghost use Rattle.lif_dir.specs.declared.entries.Name.{Name};
ghost use Rattle.il_script.specs.Spelling.{spelt};
ghost use Rattle.tape_names.specs.HostNames.{host_byte, host_first, host_text, host_tail, host_name_of};
ghost use Rattle.tape_names.specs.HostNames.{entry_of_parts, entry_of_host_name, IsHostName};

use il_script::{Page, read_hex, spelt_name};
use lif_dir::{Name, without_end_spaces};

/// The most bytes that the host name of a file has.
pub const HOST_NAME_LENGTH: usize = 44;

/// The number of bytes after the name: a point, four hex digits, a point, and eight hex digits.
const TAIL: usize = 14;

/// What the name of a host file states.
#[derive(Clone, Copy, Debug, PartialEq, Eq)]
pub struct HostEntry {
    /// The name of the file.
    pub name: Name,
    /// Its type.
    pub kind: u16,
    /// Its implementation field.
    pub field: [u8; 4],
}

/// Appends a byte of a name as `il` prints it, except that a slash is escaped too.
fn put_host_byte(page: &mut Page, byte: u8)
    requires { length page.old.text + 3 ≤ page.old.room }
    ensures text { page.new ≡ record page.old { text = page.old.text ++ host_byte byte } }
    ensures size { length page.new.text ≤ length page.old.text + 3 }
{
    if byte == b'/' {
        page.put(b"%2F");
    } else {
        page.put_name_byte(byte);
    }
}

/// Appends the first byte of a name. A point is escaped too, so that no host name begins with one.
fn put_host_first(page: &mut Page, byte: u8)
    requires { length page.old.text + 3 ≤ page.old.room }
    ensures text { page.new ≡ record page.old { text = page.old.text ++ host_first byte } }
    ensures size { length page.new.text ≤ length page.old.text + 3 }
{
    if byte == b'.' {
        page.put(b"%2E");
    } else {
        put_host_byte(page, byte);
    }
}

/// Appends the bytes of a name after its first.
fn put_host_rest(page: &mut Page, rest: &[u8])
    requires { length page.old.text + 3 * length rest.now ≤ page.old.room }
    ensures text { page.new ≡ record page.old { text = page.old.text ++ flat_map host_byte rest.now } }
    ensures size { length page.new.text ≤ length page.old.text + 3 * length rest.now }
{
    for byte in rest {
        put_host_byte(page, *byte);
    }
}

/// Appends a name that has no spaces at its end.
fn put_host_text(page: &mut Page, kept: &[u8])
    requires few { length kept.now ≤ 10 }
    requires room { length page.old.text + 30 ≤ page.old.room }
    ensures text { page.new ≡ record page.old { text = page.old.text ++ host_text kept.now } }
    ensures size { length page.new.text ≤ length page.old.text + 30 }
{
    match kept {
        [] => page.put(b"%20"),
        [first, rest @ ..] => {
            put_host_first(page, *first);
            put_host_rest(page, rest);
        }
    }
}

/// Appends the type and the implementation field, each after a point.
#[tactic(auto, unfolding(crate::specs::HostNames::host_tail))]
fn put_host_tail(page: &mut Page, kind: u16, field: &[u8; 4])
    requires room { length page.old.text + 14 ≤ page.old.room }
    ensures text { page.new ≡ record page.old { text = page.old.text ++ host_tail kind field.now } }
    ensures size { length page.new.text ≤ length page.old.text + 14 }
{
    page.put(b".");
    page.put_hex(&kind.to_be_bytes());
    page.put(b".");
    page.put_hex(field);
}

/// Appends the host name of a file with this name, type and implementation field.
#[tactic(auto, unfolding(crate::specs::HostNames::host_name_of))]
fn put_parts(page: &mut Page, name: &[u8; 10], kind: u16, field: &[u8; 4])
    requires { length page.old.text + HOST_NAME_LENGTH ≤ page.old.room }
    ensures text { page.new ≡ record page.old { text = page.old.text ++ host_name_of name.now kind field.now } }
    ensures size { length page.new.text ≤ length page.old.text + HOST_NAME_LENGTH }
    ensures read_back { (file : Name) → name_bytes file ≡ name.now →
        entry_of_host_name (host_name_of name.now kind field.now)
        ≡ Some (record { name = file; kind = kind; field = field.now }) }
    ensures safe { IsHostName (host_name_of name.now kind field.now) }
{
    put_host_text(page, without_end_spaces(name));
    put_host_tail(page, kind, field);
}

/// Appends the name that a file has on the host: its name as `il` prints it, except that a slash and a point at the
/// front are escaped too, its type, and its implementation field. This host name has 15 to 44 bytes, each a printed ASCII
/// character other than a space or a slash, and it does not begin with a point. `entry_of_host_name` reads it back.
pub fn put_host_name(page: &mut Page, name: &Name, kind: u16, field: &[u8; 4])
    requires { length page.old.text + HOST_NAME_LENGTH ≤ page.old.room }
    ensures text { page.new ≡ record page.old {
      text = page.old.text ++ host_name_of (name_bytes name.now) kind field.now;
    } }
    ensures size { length page.new.text ≤ length page.old.text + HOST_NAME_LENGTH }
    ensures read_back { entry_of_host_name (host_name_of (name_bytes name.now) kind field.now)
        ≡ Some (record { name = name.now; kind = kind; field = field.now }) }
    ensures safe { IsHostName (host_name_of (name_bytes name.now) kind field.now) }
{
    put_parts(page, &name.bytes(), kind, field);
}

/// Returns the text of a page that has a host name only, as after `put_host_name` on an empty page.
pub fn host_name_text(page: &Page) -> &str
    requires { IsHostName page.now.text }
    ensures { result.now ≡ page.now.text }
{
    str::from_utf8(page.text()).unwrap()
}

/// Returns the name of one to ten bytes that a text spells as a script does, `%HH` for a byte, or `None` if it spells
/// none.
pub fn name_of_spelling(text: &[u8]) -> Option<Name>
    ensures { result ≡ option_and_then name_of_bytes (spelt text.now) }
{
    spelt_name(text)?
}

/// Returns the entry of a name and of the 14 bytes after it.
fn entry_of_parts(name: &[u8], tail: &[u8]) -> Option<HostEntry>
    requires { length tail.now ≡ TAIL }
    ensures { result ≡ entry_of_parts name.now tail.now }
{
    if tail[0] != b'.' || tail[5] != b'.' {
        return None;
    }
    Some(HostEntry {
        name: name_of_spelling(name)?,
        kind: u16::from_be_bytes(read_hex(&tail[1..5])?),
        field: read_hex(&tail[6..])?,
    })
}

/// Returns what the name of a host file states, or `None` if it does not end in a point, four hex digits, a point and
/// eight hex digits, or if the rest does not spell a name of one to ten bytes.
pub fn entry_of_host_name(text: &[u8]) -> Option<HostEntry>
    ensures { result ≡ entry_of_host_name text.now }
{
    if text.len() <= TAIL {
        return None;
    }
    let (name, tail) = text.split_at(text.len() - TAIL);
    entry_of_parts(name, tail)
}
