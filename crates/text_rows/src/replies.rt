//! The texts of replies.

use il_same::{same, same_bytes};
use il_script::{Code, LineFault, Page, Reply};
use std::test::Fail;

/// Each reply, and its last line.
const REPLIES: [(Reply, &str); 20] = [
    (Reply::Ok, "ok\n"),
    (Reply::No(Code::BadLine), "error 1 BadLine\n"),
    (Reply::No(Code::LineTooLong), "error 2 LineTooLong\n"),
    (Reply::No(Code::NotLif), "error 3 NotLif\n"),
    (Reply::No(Code::NoFile), "error 4 NoFile\n"),
    (Reply::No(Code::Exists), "error 5 Exists\n"),
    (Reply::No(Code::NoSlot), "error 6 NoSlot\n"),
    (Reply::No(Code::NoRoom), "error 7 NoRoom\n"),
    (Reply::No(Code::NoRedo), "error 8 NoRedo\n"),
    (Reply::No(Code::BadName), "error 9 BadName\n"),
    (Reply::No(Code::InUse), "error 10 InUse\n"),
    (Reply::No(Code::Protected), "error 11 Protected\n"),
    (Reply::No(Code::NoPrinter), "error 12 NoPrinter\n"),
    (Reply::No(Code::BatchTooLarge), "error 13 BatchTooLarge\n"),
    (Reply::No(Code::NeedsUpgrade), "error 14 NeedsUpgrade\n"),
    (Reply::No(Code::OutOfOrder), "error 15 OutOfOrder\n"),
    (Reply::No(Code::NotText), "error 16 NotText\n"),
    (Reply::No(Code::NoTaker), "error 17 NoTaker\n"),
    (Reply::FaultFrame, "fault frame\n"),
    (Reply::FaultMedium, "fault medium\n"),
];

#[test]
fn replies_end_with_their_line(rt: HostRuntime) {
    for (reply, line) in REPLIES {
        assert!(rt; same_bytes(reply.last_line(), line.as_bytes()), "{line}");
        assert!(rt;
            same(reply.is_ok(), reply == Reply::Ok),
            "whether {line} is ok"
        );
    }
    assert!(rt;
        same(Code::from(LineFault::BadLine), Code::BadLine),
        "a bad line"
    );
    assert!(rt;
        same(Code::from(LineFault::BadName), Code::BadName),
        "a bad name"
    );
}

#[test]
fn names_and_digits_in_print(rt: HostRuntime) -> Result<(), Fail> {
    let mut page = Page::new(rt.alloc(), 100)?;
    page.put(b"file ");
    page.put_name(b"A %\x7F\x00~  ");
    page.put(b" ");
    page.put_name(b"      ");
    page.put(b" ");
    page.put_hex(b"\x00\xAB\xFF");
    page.put(b" ");
    page.put_number(4_294_967_295);
    let wanted = b"file A%20%25%7F%00~ %20 00ABFF 4294967295";
    assert!(rt; same_bytes(page.text(), wanted), "a line");
    page.clear();
    assert!(rt; same_bytes(page.text(), b""), "an empty page");
    Ok(())
}
