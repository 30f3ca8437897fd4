//! Fields of rows of CSV, by RFC 4180. The crate csv defines their text; its writer may take memory, so it is not used.
ghost use Rattle.std.specs.Prelude.{◌≡◌, ◌≤◌, ◌+◌, ◌*◌, ◌++◌, ◌∷◌, [], length};
ghost use Rattle.csv.specs.Writing.{comma, default_writer, escaped, field_text, needs_byte, needs_quotes, quoted};

use il_script::Page;

/// Tests if a field with this byte is quoted: a comma, a quote, CR or LF.
fn is_special(byte: u8) -> bool
    ensures { result ≡ needs_byte default_writer byte }
{
    matches!(byte, b',' | b'"' | b'\r' | b'\n')
}

/// Tests if a field is quoted.
fn is_quoted(field: &[u8]) -> bool
    ensures { result ≡ needs_quotes default_writer field.now }
{
    field.iter().any(|byte| is_special(*byte))
}

/// Appends a byte of a quoted field: a quote is doubled.
#[tactic(auto, unfolding(csv::specs::Writing::escaped))]
fn put_quoted_byte(page: &mut Page, byte: u8)
    requires room { length page.old.text + length (escaped default_writer (byte ∷ [])) ≤ page.old.room }
    ensures text { page.new ≡ record page.old { text = page.old.text ++ escaped default_writer (byte ∷ []) } }
{
    if byte == b'"' {
        page.put(b"\"\"");
    } else {
        page.put(&[byte]);
    }
}

/// Appends a field between quotes.
fn put_quoted(page: &mut Page, field: &[u8])
    requires room { length page.old.text + length (quoted default_writer field.now) ≤ page.old.room }
    ensures text { page.new ≡ record page.old { text = page.old.text ++ quoted default_writer field.now } }
{
    page.put(b"\"");
    'bytes: for byte in field {
        put_quoted_byte(page, *byte);
    }
    page.put(b"\"");
}

/// Appends a field. It is quoted if it has a comma, a quote, CR or LF.
fn put_field(page: &mut Page, field: &[u8])
    requires room { length page.old.text + length (field_text default_writer field.now) ≤ page.old.room }
    ensures text { page.new ≡ record page.old { text = page.old.text ++ field_text default_writer field.now } }
{
    if is_quoted(field) {
        put_quoted(page, field);
    } else {
        page.put(field);
    }
}

/// Appends the first field of a row: at most twice as many bytes, and two quotes.
pub(crate) fn put_first(page: &mut Page, field: &[u8])
    requires room { length page.old.text + 2 * length field.now + 2 ≤ page.old.room }
    ensures text { page.new ≡ record page.old { text = page.old.text ++ field_text default_writer field.now } }
    ensures size { length page.new.text ≤ length page.old.text + 2 * length field.now + 2 }
{
    put_field(page, field);
}

/// Appends a comma and another field of a row.
pub(crate) fn put_next(page: &mut Page, field: &[u8])
    requires room { length page.old.text + 1 + length (field_text default_writer field.now) ≤ page.old.room }
    ensures text { page.new
        ≡ record page.old { text = page.old.text ++ (comma ∷ field_text default_writer field.now) } }
    ensures size { length page.new.text ≡ length page.old.text + 1 + length (field_text default_writer field.now) }
{
    page.put(b",");
    put_field(page, field);
}
