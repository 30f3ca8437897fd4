//! What lines of a script ask for.

use il_same::{same, same_bytes};
use il_script::{Command, LONGEST_LINE, LONGEST_PAYLOAD, LineFault, Payload, read_line};
use lif_dir::{Name, NewLabel, NewName};
use std::process::Abort;
use std::test::Fail;

/// What a line is taken for.
#[derive(Clone, Copy, PartialEq, Eq)]
enum Taken {
    Command,
    Skipped,
    BadLine,
    BadName,
}

/// What a line is taken for, and how many bytes it carries.
fn read(rt: &impl Abort, payload: &mut Payload, line: &[u8]) -> (Taken, usize) {
    assert!(rt; line.len() <= LONGEST_LINE);
    let taken = match read_line(line, payload) {
        Ok(Some(_)) => Taken::Command,
        Ok(None) => Taken::Skipped,
        Err(LineFault::BadLine) => Taken::BadLine,
        Err(LineFault::BadName) => Taken::BadName,
    };
    (taken, payload.bytes().len())
}

/// Lines, after a mark of what they are taken for: a command `+`, skipped `.`, BadLine `-`, BadName `!`.
const LINES: &str = "\
+dir\n\
+label\n\
+adopt\n\
+devices\n\
+status\n\
+poll\n\
+paper\n\
-dir A\n\
-label A\n\
-adopt A\n\
-upgrade A\n\
-begin A\n\
-commit A\n\
-commits\n\
-devices 1\n\
-status 1\n\
-poll 1\n\
-paper -\n\
-Dir\n\
-di\n\
-dirs\n\
-dir\x00\n\
-list\n\
.\n\
.   \n\
.\r\n\
. \r\n\
.#\n\
.#dir\n\
.  # dir\n\
+  dir  \n\
+dir\r\n\
+dir \r\n\
-dir\r\r\n\
-\rdir\n\
-dir\t\n\
-\tdir\n\
-dir # all\n\
-fetch\n\
-fetch A B\n\
+fetch   A  \n\
-fetch\tA\n\
+fetch a!~\n\
+fetch #A\n\
+fetch TENLETTERS\n\
!fetch ELEVENCHARS\n\
+fetch %54ENLETTERS\n\
!fetch %45LEVENCHARS\n\
+fetch A%20B\n\
+fetch %00%fF%Ff\n\
-fetch %\n\
-fetch %0\n\
-fetch A%\n\
-fetch A%4\n\
-fetch %4G\n\
-fetch %g4\n\
-fetch %%41\n\
-fetch A\x00\n\
-fetch A\x7F\n\
-fetch A\u{80}\n\
-fetch A\tB\n\
-purge\n\
+purge A\n\
-purge A B\n\
!purge ELEVENCHARS\n\
-rename A\n\
+rename A B\n\
-rename A B C\n\
+rename a-b B\n\
!rename A b\n\
!rename A 1B\n\
+rename A B%20\n\
!rename A B%20C\n\
!rename ELEVENCHARS B\n\
!rename A ELEVENCHARS\n\
-rename ELEVENCHARS %\n\
-format A\n\
+format A 1\n\
-format A 1 1\n\
-format A 0\n\
-format A 00\n\
-format A 01\n\
+format A 19664\n\
-format A 19665\n\
-format A 65537\n\
-format A 4294967297\n\
-format A 18446744073709551617\n\
-format A +1\n\
-format A 1x\n\
-format A -\n\
+format SIXSIX 8\n\
!format SEVENTH 8\n\
!format a 8\n\
!format A%20 8\n\
-format SEVENTH 0\n\
-format % 8\n\
-store A 0001 00000000\n\
-store A 0001 00000000 - -\n\
+store A 0001 00000000 -\n\
-store A 0000 00000000 -\n\
-store A FFFF 00000000 -\n\
-store A fFfF 00000000 -\n\
-store A 001 00000000 -\n\
-store A 00001 00000000 -\n\
-store A 000g 00000000 -\n\
-store A 0x01 00000000 -\n\
-store A 0001 0000000 -\n\
-store A 0001 000000000 -\n\
-store A 0001 0000000G -\n\
-store A 0001 00000000 4\n\
-store A 0001 00000000 414\n\
-store A 0001 00000000 4x\n\
-store A 0001 00000000 --\n\
!store a 0001 00000000 -\n\
-store a 0001 00000000 4\n\
!store ELEVENCHARS 0001 00000000 -\n\
+put A -\n\
+put A%20 -\n\
-put\n\
-put A\n\
-put A - -\n\
-put A 0001 00000000 -\n\
-put A 4\n\
-put A 4x\n\
-put A --\n\
-put % -\n\
!put a -\n\
-put a 4\n\
!put ELEVENCHARS 41\n\
-put ELEVENCHARS hello\n\
-puts A -\n\
-Put A -\n\
+get A\n\
+get a-b\n\
-get\n\
-get A B\n\
-get %\n\
!get ELEVENCHARS\n\
-gets A\n\
+lend 1\n\
+lend 4096\n\
+  lend   7  \n\
-lend\n\
-lend 0\n\
-lend 00\n\
-lend 01\n\
-lend 4097\n\
-lend 65537\n\
-lend 18446744073709551617\n\
-lend +1\n\
-lend -1\n\
-lend -\n\
-lend 1x\n\
-lend 1 2\n\
-lends 1\n\
-Lend 1\n\
-say\n\
+say -\n\
-say - -\n\
-say 4\n\
-say 4g\n\
-say hello";

#[test]
fn each_form_and_what_comes_near_it(rt: HostRuntime) -> Result<(), Fail> {
    let mut payload = Payload::new(rt.alloc())?;
    for row in LINES.split('\n') {
        let (mark, line) = row.as_bytes().split_first().ok_or("a mark")?;
        let wanted = match *mark {
            b'+' => Taken::Command,
            b'.' => Taken::Skipped,
            b'-' => Taken::BadLine,
            _ => Taken::BadName,
        };
        assert!(rt; same(read(&rt, &mut payload, line), (wanted, 0)), "{row}");
    }
    Ok(())
}

/// Lines with commands of no parts.
const LONE: [(&str, Command); 11] = [
    ("dir", Command::Dir),
    ("label", Command::Label),
    ("adopt", Command::Adopt),
    ("upgrade", Command::Upgrade),
    ("pack", Command::Pack),
    ("begin", Command::Begin),
    ("commit", Command::Commit),
    ("devices", Command::Devices),
    ("status", Command::Status),
    ("poll", Command::Poll),
    ("paper", Command::Paper),
];

/// The line asks for that command, which carries these bytes.
fn asks(rt: &impl Abort, payload: &mut Payload, line: &str, bytes: &[u8], command: Command) {
    assert!(rt; line.len() <= LONGEST_LINE);
    assert!(rt;
        same(read_line(line.as_bytes(), payload), Ok(Some(command))),
        "{line}"
    );
    assert!(rt; same_bytes(payload.bytes(), bytes), "the bytes of {line}");
}

#[test]
fn commands_have_their_parts(rt: HostRuntime) -> Result<(), Fail> {
    let mut payload = Payload::new(rt.alloc())?;
    let file = Name::of(b"A \x00%").ok_or("a name")?;
    let new = NewName::of(&Name::of(b"DATA_1").ok_or("a name")?).ok_or("a new name")?;
    let label = NewLabel::of(b"TAPE").ok_or("a label")?;
    let store = Command::Store {
        name: new,
        kind: 0xE080,
        implementation: [0, 0x1A, 0xFF, 3],
    };
    let rename = Command::Rename { old: file, new };
    let format = Command::Format { label, slots: 4048 };
    let rows: [(&str, &[u8], Command); 12] = [
        ("store DATA_1 e080 001aFF03 4142fF", b"AB\xFF", store),
        ("store DATA_1 E080 001AFF03 -", b"", store),
        ("put DATA_1 68690A0a79", b"hi\n\ny", Command::Put(new)),
        ("put DATA_1%20 -", b"", Command::Put(new)),
        ("fetch A%20%00%25", b"", Command::Fetch(file)),
        ("get A%20%00%25", b"", Command::Get(file)),
        ("purge A%20%00%25%20", b"", Command::Purge(file)),
        ("rename A%20%00%25 DATA_1%20", b"", rename),
        ("format TAPE 4048", b"", format),
        ("say 00", b"\x00", Command::Say),
        ("lend 1", b"", Command::Lend(1)),
        ("lend 4096", b"", Command::Lend(4096)),
    ];
    for (line, bytes, command) in rows {
        asks(&rt, &mut payload, line, bytes, command);
    }
    for (line, command) in LONE {
        asks(&rt, &mut payload, line, b"", command);
    }
    Ok(())
}

#[test]
fn no_bytes_of_a_line_before_stay(rt: HostRuntime) -> Result<(), Fail> {
    let mut payload = Payload::new(rt.alloc())?;
    for line in [
        "dir",
        "",
        "#",
        "list",
        "say 4",
        "store a 0001 00000000 4142",
        "put a 4142",
        "get A",
        "lend 1",
        "lend 4097",
        "fetch ELEVENCHARS",
    ] {
        let before = read(&rt, &mut payload, b"say 414243");
        assert!(rt; same(before, (Taken::Command, 3)), "before {line}");
        let (_, carried) = read(&rt, &mut payload, line.as_bytes());
        assert!(rt; same(carried, 0), "{line}");
    }
    Ok(())
}

#[test]
fn a_line_may_fill_the_payload(rt: HostRuntime) -> Result<(), Fail> {
    let alloc = rt.alloc();
    let mut payload = Payload::new(alloc)?;
    let mut line = Vec::from_slice(alloc, b"say ")?;
    line.resize(LONGEST_LINE, b'a')?;
    let full = (Taken::Command, LONGEST_PAYLOAD - 2);
    assert!(rt;
        same(read(&rt, &mut payload, &line), full),
        "a full payload"
    );
    assert!(rt; same(payload.bytes().last(), Some(&0xAA)), "its last byte");
    line.clear();
    line.resize(LONGEST_LINE, b'#')?;
    assert!(rt;
        same(read(&rt, &mut payload, &line), (Taken::Skipped, 0)),
        "a comment"
    );
    Ok(())
}
