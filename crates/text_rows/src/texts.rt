//! Text files: what stands at a place, and the bytes of a text that is made.

use il_same::{same, same_bytes};
use lif_text::{LongLine, Piece, TextBuffer, TextFault, next};
use std::alloc::{AllocError, Global};
use std::process::Abort;
use std::test::Fail;

/// How many bytes a line has at most.
const LONGEST: usize = 32_767;

/// What is read at a place.
type Read = Result<Piece, TextFault>;

const END: Read = Ok(Piece::End);

/// A line of no bytes at place 0.
const EMPTY: Read = Ok(Piece::Line {
    from: 2,
    to: 2,
    next: 2,
});

/// A line of one byte and a filler at place 0.
const ODD: Read = Ok(Piece::Line {
    from: 2,
    to: 3,
    next: 4,
});

/// A line of two bytes at place 0.
const EVEN: Read = Ok(Piece::Line {
    from: 2,
    to: 4,
    next: 4,
});

/// Bytes, a place, and what stands there.
const PIECES: [(&[u8], usize, Read); 18] = [
    (b"", 0, END),
    (b"\x00\x01y\x09", 0, ODD),
    (b"\x00\x01y\x09", 4, END),
    (b"\x00\x00", 0, EMPTY),
    (b"\x00\x00", 2, END),
    (b"\x00\x02hi\xFF\xFF\x80\x00", 4, END),
    (b"\x00\x02hi\xFF\xFF\x80\x00", 0, EVEN),
    (b"\x00\x02hi\xFF\xFF\x80\x00", 6, Err(TextFault::Length(6))),
    (b"\x00\x02hi\xFF\xFF\x80\x00", 7, Err(TextFault::Short(7))),
    (b"\x80\x00", 0, Err(TextFault::Length(0))),
    (b"\xFF\xFE", 0, Err(TextFault::Length(0))),
    (b"\xFF\xFE\x00\x00", 0, Err(TextFault::Length(0))),
    (b"\x7F\xFF", 0, Err(TextFault::Short(0))),
    (b"\xFF", 0, Err(TextFault::Short(0))),
    (b"\x00\x02h", 0, Err(TextFault::Short(0))),
    (b"\x00\x01y", 0, Err(TextFault::Short(0))),
    (b"\x00\x03abc\x00\x00", 6, Err(TextFault::Short(6))),
    (b"\x01\x00", 1, Err(TextFault::Short(1))),
];

#[test]
fn what_stands_at_a_place(rt: HostRuntime) {
    for (row, (bytes, at, wanted)) in PIECES.into_iter().enumerate() {
        assert!(rt; at <= bytes.len());
        assert!(rt; same(next(bytes, at), wanted), "row {row}");
    }
}

#[test]
fn longest_lines(rt: HostRuntime) -> Result<(), Fail> {
    let mut bytes = Vec::from_slice(rt.alloc(), b"\x7F\xFF")?;
    bytes.resize(2 + LONGEST, b'x')?;
    assert!(rt;
        same(next(&bytes, 0), Err(TextFault::Short(0))),
        "without its filler"
    );
    bytes.push(1)?;
    let wanted = Ok(Piece::Line {
        from: 2,
        to: 2 + LONGEST,
        next: 3 + LONGEST,
    });
    assert!(rt; same(next(&bytes, 0), wanted), "with its filler");
    Ok(())
}

/// Texts, and the bytes of their lines.
const MADE: [(&[u8], &[u8]); 6] = [
    (b"hi\n\ny", b"\x00\x02hi\x00\x00\x00\x01y\x00\xFF\xFF"),
    (b"hi\n\ny\n", b"\x00\x02hi\x00\x00\x00\x01y\x00\xFF\xFF"),
    (b"", b"\xFF\xFF"),
    (b"\n", b"\x00\x00\xFF\xFF"),
    (b"y", b"\x00\x01y\x00\xFF\xFF"),
    (b"y\r\n\n", b"\x00\x02y\r\x00\x00\xFF\xFF"),
];

#[test]
fn texts_are_made(rt: HostRuntime) -> Result<(), Fail> {
    for (row, (text, bytes)) in MADE.into_iter().enumerate() {
        let mut buffer = TextBuffer::new(rt.alloc(), 2 * text.len() + 4)?;
        assert!(rt; same_bytes(buffer.bytes(), b""), "a new buffer");
        assert!(rt; same(buffer.fill(text), Ok(())), "row {row}");
        assert!(rt; same_bytes(buffer.bytes(), bytes), "the bytes of row {row}");
    }
    Ok(())
}

/// A text of so many bytes: two short lines, and a third of all bytes but three.
fn three_lines(alloc: Global, size: usize) -> Result<Vec<u8>, AllocError> {
    let mut text = Vec::from_slice(alloc, b"a\n\n")?;
    text.resize(size, b'x')?;
    Ok(text)
}

#[test]
fn a_line_that_is_too_long_leaves_the_buffer(rt: HostRuntime) -> Result<(), Fail> {
    let alloc = rt.alloc();
    let room = 2 * (4 + LONGEST) + 4;
    let mut buffer = TextBuffer::new(alloc, room)?;
    let long = three_lines(alloc, 4 + LONGEST)?;
    let longest = three_lines(alloc, 3 + LONGEST)?;
    assert!(rt; long.len() <= 4 + LONGEST && longest.len() <= 4 + LONGEST);
    assert!(rt; same(buffer.fill(&longest), Ok(())), "a longest line");
    let made = Vec::from_slice(alloc, buffer.bytes())?;
    assert!(rt; same(made.len(), 4 + 2 + 3 + LONGEST + 2), "its bytes");
    assert!(rt; same(buffer.fill(&long), Err(LongLine(3))), "one byte more");
    assert!(rt; same_bytes(buffer.bytes(), &made), "the buffer");
    Ok(())
}
