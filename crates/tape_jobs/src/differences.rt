//! How the files of two images differ.
ghost use Rattle.std.specs.Prelude.{◌≡◌, ◌≤◌, ◌++◌, OnOk, IfOk, option_map};
ghost use Rattle.std.specs.List.{flat_map};
ghost use Rattle.tape_jobs.specs.Differences.{change_line, differences, file_line_of, first_line, have_same_bytes};
ghost use Rattle.tape_jobs.specs.Differences.{have_same_name, have_same_type, named_file, namesake, other_line};

use crate::collecting::Collected;
use il_script::Page;
use std::alloc::{AllocError, Global};

/// The most bytes of a name as it is printed.
const LONGEST_NAME: usize = 30;

fn have_same_name(file: &Collected, other: &Collected) -> bool
    ensures { result ≡ have_same_name (named_file file.now) (named_file other.now) }
{
    file.name.bytes() == other.name.bytes()
}

/// Whether two files have the same type and the same implementation field.
fn have_same_type(file: &Collected, other: &Collected) -> bool
    ensures { result ≡ have_same_type (named_file file.now) (named_file other.now) }
{
    file.kind == other.kind && file.field == other.field
}

fn have_same_bytes(file: &Collected, other: &Collected) -> bool
    ensures { result ≡ have_same_bytes (named_file file.now) (named_file other.now) }
{
    file.bytes.as_slice() == other.bytes.as_slice()
}

/// The file that has the same name, if there is one.
fn namesake<'a>(file: &Collected, files: &'a [Collected]) -> Option<&'a Collected>
    ensures { option_map (λ found. named_file found.now) result ≡ namesake named_file file.now files.now }
{
    files.iter().find(|other| have_same_name(file, other))
}

/// Appends the line of a file, with these two texts in it.
fn put_line(
    text: &mut Vec<u8>,
    cell: &mut Page,
    file: &Collected,
    what: &[u8],
    more: &[u8],
) -> Result<(), AllocError>
    requires room { LONGEST_NAME ≤ cell.old.room }
    ensures room { cell.new.room ≡ cell.old.room }
    ensures text { OnOk result (text.new.items ≡ text.old.items ++ file_line_of (named_file file.now) (what.now ++ more.now)) }
{
    cell.clear();
    cell.put_name(&file.name.bytes());
    text.extend_from_slice(cell.text())?;
    text.extend_from_slice(b": ")?;
    text.extend_from_slice(what)?;
    text.extend_from_slice(more)?;
    text.extend_from_slice(b"\n")
}

/// Appends the line of a file that differs from the file of its name on the other image, if it does.
fn put_change(
    text: &mut Vec<u8>,
    cell: &mut Page,
    file: &Collected,
    other: &Collected,
) -> Result<(), AllocError>
    requires room { LONGEST_NAME ≤ cell.old.room }
    ensures room { cell.new.room ≡ cell.old.room }
    ensures text { OnOk result (text.new.items ≡ text.old.items ++ change_line (named_file file.now) (named_file other.now)) }
{
    if !have_same_type(file, other) {
        put_line(text, cell, file, b"other type or field", b"")
    } else if !have_same_bytes(file, other) {
        put_line(text, cell, file, b"other bytes", b"")
    } else {
        Ok(())
    }
}

/// Appends the line of a file of the first image, if it has one.
fn put_first(
    text: &mut Vec<u8>,
    cell: &mut Page,
    image: &str,
    file: &Collected,
    others: &[Collected],
) -> Result<(), AllocError>
    requires room { LONGEST_NAME ≤ cell.old.room }
    ensures room { cell.new.room ≡ cell.old.room }
    ensures text { OnOk result (text.new.items
        ≡ text.old.items ++ first_line image.now (named_file file.now) (namesake named_file file.now others.now)) }
{
    match namesake(file, others) {
        Some(other) => put_change(text, cell, file, other),
        None => put_line(text, cell, file, b"only on ", image.as_bytes()),
    }
}

/// Appends the line of a file of the other image, if it has one.
fn put_other(
    text: &mut Vec<u8>,
    cell: &mut Page,
    image: &str,
    file: &Collected,
    firsts: &[Collected],
) -> Result<(), AllocError>
    requires room { LONGEST_NAME ≤ cell.old.room }
    ensures room { cell.new.room ≡ cell.old.room }
    ensures text { OnOk result (text.new.items
        ≡ text.old.items ++ other_line image.now (named_file file.now) (namesake named_file file.now firsts.now)) }
{
    match namesake(file, firsts) {
        Some(_) => Ok(()),
        None => put_line(text, cell, file, b"only on ", image.as_bytes()),
    }
}

/// Appends the lines of the files of the first image.
fn put_firsts(
    text: &mut Vec<u8>,
    cell: &mut Page,
    image: &str,
    files: &[Collected],
    others: &[Collected],
) -> Result<(), AllocError>
    requires room { LONGEST_NAME ≤ cell.old.room }
    ensures room { cell.new.room ≡ cell.old.room }
    ensures text { OnOk result (text.new.items
        ≡ text.old.items ++ flat_map (λ f. first_line image.now (named_file f) (namesake named_file f others.now)) files.now) }
{
    'files: for file in files {
        put_first(text, cell, image, file, others)?;
    }
    Ok(())
}

/// Appends the lines of the files that only the other image has.
fn put_others(
    text: &mut Vec<u8>,
    cell: &mut Page,
    image: &str,
    files: &[Collected],
    firsts: &[Collected],
) -> Result<(), AllocError>
    requires room { LONGEST_NAME ≤ cell.old.room }
    ensures room { cell.new.room ≡ cell.old.room }
    ensures text { OnOk result (text.new.items
        ≡ text.old.items ++ flat_map (λ f. other_line image.now (named_file f) (namesake named_file f firsts.now)) files.now) }
{
    'files: for file in files {
        put_other(text, cell, image, file, firsts)?;
    }
    Ok(())
}

/// Returns the text that tells how the files of two images differ: a line for each file of the image named `image` that
/// the image named `other` lacks, or has with another type, field or bytes, and then a line for each file that only
/// `other` has. It is empty if the files are the same. The only error is want of memory.
pub fn difference_text(
    alloc: Global,
    image: &str,
    other: &str,
    files: &[Collected],
    others: &[Collected],
) -> Result<Vec<u8>, AllocError>
    ensures { IfOk result (λ text.
        text.items ≡ differences named_file image.now other.now files.now others.now) }
{
    let mut text = Vec::new(alloc);
    let mut cell = Page::new(alloc, LONGEST_NAME)?;
    put_firsts(&mut text, &mut cell, image, files, others)?;
    put_others(&mut text, &mut cell, other, others, files)?;
    Ok(text)
}
