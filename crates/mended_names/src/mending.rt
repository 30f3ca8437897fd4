ghost use Rattle.std.specs.Prelude.{◌≡◌, ◌≤◌, ◌<◌, ◌+◌, ◌++◌, ◌∷◌, [], if◌then◌else◌, map, take, length, codes, IfOk};
ghost use Rattle.std.specs.Option.{option_map};
ghost use Rattle.std.specs.List.{list_any};
ghost use Rattle.arrayvec.specs.ArrayVec.{array_vec_len};
ghost use Rattle.lif_dir.specs.Entries.{name_bytes};
ghost use Rattle.lif_dir.specs.Names.{new_name};
ghost use Rattle.mended_names.specs.Mending.{mended_byte, missing_letter, mended_base, with_number, has_text, is_free};
ghost use Rattle.mended_names.specs.Mending.{first_numbered, first_free, new_name_of, mended};
ghost use Rattle.mended_names.specs.Mending.{mended_name, mended_from, names_for};

use arrayvec::ArrayVec;
use itoa::Buffer;
use lif_dir::{Name, NewName, without_end_spaces};
use lif_model::REDO_NAME;
use std::alloc::{AllocError, Global};

/// How many bytes a name has at most.
const LONGEST: usize = 10;

/// The largest number that a mended name ends with.
const LAST_NUMBER: u16 = 9_999;

/// A name without the spaces at its end.
type Text = ArrayVec<u8, LONGEST>;

/// A letter as a capital. A byte that is no letter, digit or `_` becomes `_`.
fn mended_byte(byte: u8) -> u8
    ensures { result ≡ mended_byte byte }
{
    let capital = byte.to_ascii_uppercase();
    if capital.is_ascii_uppercase() || capital.is_ascii_digit() {
        capital
    } else {
        b'_'
    }
}

/// Whether the first of the bytes is a letter.
fn begins_with_letter(text: &[u8]) -> bool
    ensures { missing_letter (map mended_byte text.now) ≡ (if result then [] else codes "X") }
{
    match text {
        [first, ..] => first.is_ascii_alphabetic(),
        [] => false,
    }
}

/// X, if the text does not begin with a letter.
fn missing_letter(text: &[u8]) -> Text
    ensures { result.items ≡ missing_letter (map mended_byte text.now) }
{
    let mut front = Text::new();
    if !begins_with_letter(text) {
        front.push(b'X');
    }
    front
}

/// Adds the first bytes of a text, as far as there is room.
fn append_mended(base: &mut Text, text: &[u8])
    ensures { base.new.items ≡ take 10 (base.old.items ++ map mended_byte text.now) }
{
    let room = text.len().min(LONGEST - base.len());
    'bytes: for byte in &text[..room] {
        base.push(mended_byte(*byte));
    }
}

/// What a name is mended to, if no other file has that name.
fn mended_base(name: &Name) -> Text
    ensures { result.items ≡ mended_base (name_bytes name.now) }
{
    let bytes = name.bytes();
    let text = without_end_spaces(&bytes);
    let mut base = missing_letter(text);
    append_mended(&mut base, text);
    base
}

/// Adds bytes for which there is room.
fn append(text: &mut Text, bytes: &[u8])
    requires { array_vec_len text.old + length bytes.now ≤ 10 }
    ensures items { text.new.items ≡ text.old.items ++ bytes.now }
    ensures len { array_vec_len text.new ≡ array_vec_len text.old + length bytes.now }
{
    let _ = text.try_extend_from_slice(bytes);
}

/// The base with a number at its end. The last bytes of the base make room for it.
fn with_number(base: &[u8], number: u16) -> Text
    ensures { result.items ≡ with_number base.now number }
{
    let mut buffer = Buffer::new();
    let digits = buffer.format(number).as_bytes();
    let front = base.len().min(LONGEST - digits.len());
    let mut text = Text::new();
    append(&mut text, &base[..front]);
    append(&mut text, digits);
    text
}

/// Whether a file that has this name, or none, has that text as its name.
fn has_text(text: &[u8], new: Option<NewName>) -> bool
    ensures { result ≡ has_text text.now new }
{
    match new {
        Some(new) => text == without_end_spaces(&new.name().bytes()),
        None => false,
    }
}

/// Whether the text is one of these names that can be made.
fn is_made_name(text: &[u8], names: &[Name]) -> bool
    ensures { result ≡ list_any (has_text text.now) (map new_name names.now) }
{
    'names: for name in names {
        if has_text(text, NewName::of(name)) {
            return true;
        }
    }
    false
}

/// Whether the text is one of the names that are given.
fn is_given(text: &[u8], given: &[Option<NewName>]) -> bool
    ensures { result ≡ list_any (has_text text.now) given.now }
{
    given.iter().any(|new| has_text(text, *new))
}

/// Whether the text is neither the name of the redo file, nor one of the names that can be made, nor one of those that
/// are given already.
fn is_free(names: &[Name], given: &[Option<NewName>], text: &[u8]) -> bool
    ensures { result ≡ is_free (map new_name names.now ++ given.now) text.now }
{
    let is_redo = text == without_end_spaces(REDO_NAME);
    !is_redo && !is_made_name(text, names) && !is_given(text, given)
}

/// The first that is free of the base with 2, 3, .. up to the largest number.
fn first_numbered(names: &[Name], given: &[Option<NewName>], base: &[u8]) -> Option<Text>
    ensures { option_map (λ text. text.items) result
        ≡ first_numbered (map new_name names.now ++ given.now) base.now }
{
    'numbers: for number in 2..=LAST_NUMBER {
        let text = with_number(base, number);
        if is_free(names, given, &text) {
            return Some(text);
        }
    }
    None
}

/// The first that is free: the base, or the base with a number.
fn first_free(names: &[Name], given: &[Option<NewName>], base: Text) -> Option<Text>
    ensures { option_map (λ text. text.items) result
        ≡ first_free (map new_name names.now ++ given.now) base.items }
{
    if is_free(names, given, &base) {
        Some(base)
    } else {
        first_numbered(names, given, &base)
    }
}

/// The name of that text, if it can be made.
fn new_name_of(text: &[u8]) -> Option<NewName>
    ensures { result ≡ new_name_of text.now }
{
    match Name::of(text) {
        Some(name) => NewName::of(&name),
        None => None,
    }
}

/// The name of a file that is mended, if those before it have the names that are given.
fn mended(names: &[Name], given: &[Option<NewName>], name: &Name) -> Option<NewName>
    ensures { result ≡ mended (map new_name names.now ++ given.now) name.now }
{
    match first_free(names, given, mended_base(name)) {
        Some(text) => new_name_of(&text),
        None => None,
    }
}

/// The name of a file, if those before it have the names that are given.
fn mended_name(names: &[Name], given: &[Option<NewName>], name: &Name) -> Option<NewName>
    ensures { result ≡ mended_name (map new_name names.now ++ given.now) name.now }
{
    match NewName::of(name) {
        Some(new) => Some(new),
        None => mended(names, given, name),
    }
}

/// The names of the files, each of which gets one.
fn mended_names(alloc: Global, names: &[Name]) -> Result<Vec<Option<NewName>>, AllocError>
    ensures { IfOk result (λ given. given.items ≡ mended_from (map new_name names.now) names.now) }
{
    let mut given = Vec::with_capacity(alloc, names.len())?;
    'names: for name in names {
        let new = mended_name(names, &given, name);
        given.push(new).unwrap();
    }
    Ok(given)
}

/// The names of the files, of which only those have one whose own can be made.
fn own_names(alloc: Global, names: &[Name]) -> Result<Vec<Option<NewName>>, AllocError>
    ensures { IfOk result (λ own. own.items ≡ map new_name names.now) }
{
    let mut own = Vec::with_capacity(alloc, names.len())?;
    'names: for name in names {
        own.push(NewName::of(name)).unwrap();
    }
    Ok(own)
}

/// The names that the files of one job get on a tape whose names must be names that can be made, in the order of the
/// files.
///
/// Without `mend`, a file whose name can be made has it, and any other has `None`. With `mend`, a name that can be made
/// stays too, also REDOFILE, which a volume with a redo file refuses to store. Any other name is mended: its letters
/// become capitals, and each byte that is no letter, digit or `_` becomes `_`. If it does not begin with a letter then,
/// `X` is put before it. It is cut to ten bytes. If that is REDOFILE, or the name of another file, the first number of
/// 2, 3, .. up to 9999 follows for which it is neither, and the name is cut so that both have ten bytes at most. Other
/// files are all whose names can be made, and those before this one. If no number is free, the file has `None`.
///
/// The only error is want of memory, all of which is taken before the first name is made.
pub fn names_for(
    alloc: Global,
    mend: bool,
    names: &[Name],
) -> Result<Vec<Option<NewName>>, AllocError>
    ensures { IfOk result (λ given. given.items ≡ names_for mend names.now) }
{
    if mend {
        mended_names(alloc, names)
    } else {
        own_names(alloc, names)
    }
}
