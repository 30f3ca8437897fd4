//! Sources and sinks in memory, over files and over a pipe.
use il_ports::{Failed, MemorySink, MemorySource, Sink, Source, StdSink, StdSource};
use il_same::{same, same_bytes};
use std::process::Abort;
use std::test::Fail;
use std::{fs, io};

/// Read `k`, into room for six bytes: its answer, and the bytes that it gives.
fn reads<S: Source>(
    rt: &impl Abort,
    source: &mut S,
    k: u64,
    want: Result<usize, Failed>,
    bytes: &[u8],
) {
    let mut into = [0; 6];
    let answer = source.read(&mut into);
    assert!(rt; same(answer, want), "read {k}");
    if let Ok(count) = answer {
        assert!(rt; same_bytes(&into[..count], bytes), "bytes of read {k}");
    }
}

/// Write `k`: its answer.
fn writes<S: Sink>(
    rt: &impl Abort,
    sink: &mut S,
    k: u64,
    piece: &[u8],
    want: Result<usize, Failed>,
) {
    assert!(rt; !piece.is_empty(), "piece {k}");
    assert!(rt; same(sink.write(piece), want), "write {k}");
}

/// A source of pieces of three bytes, whose second read fails.
#[test]
fn a_source_in_memory(rt: HostRuntime) -> Result<(), Fail> {
    let alloc = rt.alloc();
    let mut source = MemorySource::new(b"HP82161A".to_vec(alloc)?, 3, vec![in alloc; 2]?);
    assert!(rt; same_bytes(source.left(), b"HP82161A"), "all is left");
    reads(&rt, &mut source, 1, Ok(3), b"HP8");
    reads(&rt, &mut source, 2, Err(Failed), b"");
    assert!(rt;
        same_bytes(source.left(), b"2161A"),
        "a fault takes nothing"
    );
    reads(&rt, &mut source, 3, Ok(3), b"216");
    reads(&rt, &mut source, 4, Ok(2), b"1A");
    reads(&rt, &mut source, 5, Ok(0), b"");
    assert!(rt; same_bytes(source.left(), b""), "nothing is left");
    Ok(())
}

/// A sink with room for eight bytes, whose second write fails.
#[test]
fn a_sink_in_memory(rt: HostRuntime) -> Result<(), Fail> {
    let alloc = rt.alloc();
    let mut sink = MemorySink::new(alloc, 8, vec![in alloc; 2]?)?;
    assert!(rt; same_bytes(sink.written(), b""), "nothing at first");
    writes(&rt, &mut sink, 1, b"HP82", Ok(4));
    writes(&rt, &mut sink, 2, b"161A", Err(Failed));
    writes(&rt, &mut sink, 3, b"161AB", Err(Failed));
    assert!(rt; same_bytes(sink.written(), b"HP82"), "faults add nothing");
    writes(&rt, &mut sink, 4, b"161A", Ok(4));
    writes(&rt, &mut sink, 5, b"B", Err(Failed));
    assert!(rt;
        same_bytes(sink.written(), b"HP82161A"),
        "all that was written"
    );
    Ok(())
}

#[test]
fn streams_over_files(rt: HostRuntime) -> Result<(), Fail> {
    let mut sink = StdSink::new(fs::create(&rt, "stream")?);
    writes(&rt, &mut sink, 1, b"HP82161A", Ok(8));
    let mut source = StdSource::new(fs::open(&rt, "stream")?);
    reads(&rt, &mut source, 1, Ok(6), b"HP8216");
    reads(&rt, &mut source, 2, Ok(2), b"1A");
    reads(&rt, &mut source, 3, Ok(0), b"");
    // A file that was opened for reading, and a folder.
    let mut sink = StdSink::new(fs::open(&rt, "stream")?);
    writes(&rt, &mut sink, 2, b"not for writing", Err(Failed));
    let mut source = StdSource::new(fs::open(&rt, ".")?);
    reads(&rt, &mut source, 4, Err(Failed), b"");
    fs::remove_file(&rt, "stream")?;
    Ok(())
}

/// A pipe gives what is there, and ends where its writer does.
#[test]
fn streams_over_a_pipe(rt: HostRuntime) -> Result<(), Fail> {
    let (reader, writer) = io::pipe(&rt)?;
    let mut source = StdSource::new(reader);
    {
        let mut sink = StdSink::new(writer);
        writes(&rt, &mut sink, 1, b"dir", Ok(3));
        reads(&rt, &mut source, 1, Ok(3), b"dir");
    }
    reads(&rt, &mut source, 2, Ok(0), b"");
    Ok(())
}
