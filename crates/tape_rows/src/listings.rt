//! The job `dir` over a volume whose slots the test gives.
use crate::given::{Answer, volume};
use il_ports::MemorySink;
use il_same::same_bytes;
use il_script::Code;
use std::process::Abort;
use std::test::Fail;
use tape_jobs::{Style, dir};
use tape_volumes::Went;

const COLUMNS: &str = "\
TAPE:
volume HP71, 2 files, 1 purged, 12 slots free, 496 records free
STARTUP  E214 BASIC  4 records   777 bytes  1985-11-23 14:30  12060000
A,B      E0D0 SDATA  4 records  1024 bytes  1985-11-23 14:30  00800000
";

const ROWS: &str = "\
\"A \"\"TAPE\"\"\",HP71,STARTUP,E214,BASIC,4,4,777,1985-11-23 14:30,12060000
\"A \"\"TAPE\"\"\",HP71,\"A,B\",E0D0,SDATA,10,4,1024,1985-11-23 14:30,00800000
\"A \"\"TAPE\"\"\",HP71,REDOFILE,E0D0,SDATA,508,4,-,1985-11-23 14:30,00000000
";

const FREE: &str = "\
volume HP71, 2 files, 1 purged, 12 slots free, 496 records free
the largest file that can be added: 494 records, 126464 bytes
";

const MAP: &str = "\
volume HP71, 2 files, 1 purged, 12 slots free, 496 records free
   0  H-DDaaaa..bbbb..................................................
  64  ................................................................
 128  ................................................................
 192  ................................................................
 256  ................................................................
 320  ................................................................
 384  ................................................................
 448  ............................................................RRRR
a  STARTUP  4 records from 4
b  A,B      4 records from 10
H header, D directory, R redo file, - unused, . free
";

/// Lists the volume, and compares how the job went and what was written.
fn lists(
    rt: &(impl Abort + AllocGlobal),
    answer: Answer,
    style: Style<'_>,
    all: bool,
    room: usize,
    went: Went,
    text: &str,
) -> Result<(), Fail> {
    let mut volume = volume(rt, answer)?;
    let mut out = MemorySink::new(rt.alloc(), room, Vec::new(rt.alloc()))?;
    assert!(rt; dir(rt.alloc(), &mut volume, style, all, &mut out) == went);
    assert!(rt; same_bytes(out.written(), text.as_bytes()));
    Ok(())
}

#[test]
fn a_volume_is_listed_in_columns(rt: HostRuntime) -> Result<(), Fail> {
    lists(
        &rt,
        Answer::Listed,
        Style::Columns(Some("TAPE")),
        false,
        1000,
        Went::Done,
        COLUMNS,
    )
}

#[test]
fn a_volume_is_listed_as_rows(rt: HostRuntime) -> Result<(), Fail> {
    lists(
        &rt,
        Answer::Listed,
        Style::Rows("A \"TAPE\""),
        true,
        1000,
        Went::Done,
        ROWS,
    )
}

#[test]
fn what_is_free_and_the_map_are_written(rt: HostRuntime) -> Result<(), Fail> {
    for (style, text) in [(Style::Free, FREE), (Style::Map, MAP)] {
        lists(&rt, Answer::Listed, style, false, 1000, Went::Done, text)?;
    }
    Ok(())
}

#[test]
fn a_refusal_or_a_fault_writes_nothing(rt: HostRuntime) -> Result<(), Fail> {
    let style = Style::Columns(None);
    let refused = Answer::Refused(Code::NotLif);
    lists(
        &rt,
        refused,
        style,
        false,
        1000,
        Went::Refused(Code::NotLif),
        "",
    )?;
    lists(&rt, Answer::Fault, style, false, 1000, Went::Fault, "")
}

#[test]
fn lost_output_is_told(rt: HostRuntime) -> Result<(), Fail> {
    let style = Style::Columns(None);
    lists(&rt, Answer::Listed, style, false, 10, Went::Unwritten, "")
}
