//! The parts of a line, each with the space before it.
ghost use Rattle.std.specs.Prelude.{◌≡◌, ◌+◌, ◌*◌, ◌≤◌, ◌<◌, ◌++◌, length, decimal};
ghost use Rattle.hex.specs.Hex.{encode_upper};
ghost use Rattle.lif_model.specs.Printed.{printed};
ghost use Rattle.il_script.specs.Replies.{next};
ghost use Rattle.host_model.specs.Replies.{bytes_text, byte_text};

use il_script::Page;
use itoa::Buffer;

/// A name or a label.
pub(crate) fn put_next_name(page: &mut Page, name: &[u8])
    requires some { 0 < length name.now }
    requires room { length page.old.text + 3 * length name.now + 1 ≤ page.old.room }
    ensures text { page.new ≡ record page.old { text = page.old.text ++ next (printed name.now) } }
    ensures size { length page.new.text ≤ length page.old.text + 3 * length name.now + 1 }
{
    page.put(b" ");
    page.put_name(name);
}

/// A number in decimal.
pub(crate) fn put_next_number(page: &mut Page, number: u32)
    requires { length page.old.text + 11 ≤ page.old.room }
    ensures text { page.new ≡ record page.old { text = page.old.text ++ next (decimal number) } }
    ensures size { length page.new.text ≤ length page.old.text + 11 }
{
    page.put(b" ");
    page.put_number(number);
}

/// A count in decimal, at most twenty digits.
pub(crate) fn put_next_count(page: &mut Page, count: u64)
    requires { length page.old.text + 21 ≤ page.old.room }
    ensures text { page.new ≡ record page.old { text = page.old.text ++ next (decimal count) } }
    ensures size { length page.new.text ≤ length page.old.text + 21 }
{
    let mut buffer = Buffer::new();
    page.put(b" ");
    page.put(buffer.format(count).as_bytes());
}

/// Bytes as hex digits.
pub(crate) fn put_next_hex(page: &mut Page, bytes: &[u8])
    requires { length page.old.text + 2 * length bytes.now + 1 ≤ page.old.room }
    ensures text { page.new ≡ record page.old { text = page.old.text ++ next (encode_upper bytes.now) } }
    ensures size { length page.new.text ≡ length page.old.text + 2 * length bytes.now + 1 }
{
    page.put(b" ");
    page.put_hex(bytes);
}

/// A byte as two hex digits.
pub(crate) fn put_next_byte(page: &mut Page, byte: u8)
    requires { length page.old.text + 3 ≤ page.old.room }
    ensures text { page.new ≡ record page.old { text = page.old.text ++ next (byte_text byte) } }
    ensures size { length page.new.text ≡ length page.old.text + 3 }
{
    put_next_hex(page, &[byte]);
}

/// Bytes as hex digits, or a minus sign for none.
pub(crate) fn put_next_bytes(page: &mut Page, bytes: &[u8])
    requires { length page.old.text + 2 * length bytes.now + 2 ≤ page.old.room }
    ensures text { page.new ≡ record page.old { text = page.old.text ++ next (bytes_text bytes.now) } }
    ensures size { length page.new.text ≤ length page.old.text + 2 * length bytes.now + 2 }
{
    if bytes.is_empty() {
        page.put(b" -");
    } else {
        put_next_hex(page, bytes);
    }
}
