//! The lines of a script that comes in pieces.

use il_ports::MemorySource;
use il_same::{same, same_bytes};
use il_script::{LONGEST_LINE, Line, Lines};
use std::alloc::{AllocError, Global};
use std::test::Fail;

/// A script: a line with a carriage return, an empty line, a line that is one byte too long, a longest line of letters
/// y, and two short ones, the last of which has no line feed.
fn script(alloc: Global) -> Result<Vec<u8>, AllocError> {
    let mut script = Vec::from_slice(alloc, b"label\r\n\n#")?;
    script.resize(9 + LONGEST_LINE, b'x')?;
    script.push(b'\n')?;
    script.resize(10 + 2 * LONGEST_LINE, b'y')?;
    script.extend_from_slice(b"\ndir\nlast")?;
    Ok(script)
}

#[test]
fn lines_come_in_pieces(rt: HostRuntime) -> Result<(), Fail> {
    let alloc = rt.alloc();
    let longest = vec![in alloc; b'y'; LONGEST_LINE]?;
    // What comes of each call, the second of the source failing, and the text where there is one.
    let rows: [(Line, &[u8]); 9] = [
        (Line::Fault, b""),
        (Line::Text, b"label\r"),
        (Line::Text, b""),
        (Line::TooLong, b""),
        (Line::Text, &longest),
        (Line::Text, b"dir"),
        (Line::Text, b"last"),
        (Line::End, b""),
        (Line::End, b""),
    ];
    let mut source = MemorySource::new(script(alloc)?, 6, vec![in alloc; 2; 1]?);
    let mut lines = Lines::new(alloc)?;
    for (row, (line, text)) in rows.into_iter().enumerate() {
        assert!(rt; same(lines.next(&mut source), line), "row {row}");
        if line == Line::Text {
            assert!(rt; same_bytes(lines.text(), text), "the text of row {row}");
        }
    }
    Ok(())
}
