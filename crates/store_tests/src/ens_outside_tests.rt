use ens_base::Status;
use environment::{
    Lines, MemSink, MemSource, Next, NextError, ReaderSource, Sink, Source, WriterSink, finish,
    write_all,
};
use std::test::Fail;

/// Whether a look gave these bytes, as a line or as the rest behind the last one.
fn gave(next: &Result<Next, NextError>, wanted: &[u8]) -> bool {
    match next {
        Ok(Next::Line(line)) => line.as_slice() == wanted,
        Ok(Next::Rest(rest)) => rest.as_slice() == wanted,
        _ => false,
    }
}

#[test]
fn lines_come_one_by_one_and_go_on_after_a_fault(rt: HostRuntime) -> Result<(), Fail> {
    let alloc = rt.alloc();
    let mut source = MemSource::new(b"a\nbc\nd".to_vec(alloc)?, vec![in alloc; 1]?);
    let mut lines = Lines::new(alloc);
    assert!(rt; lines.next(alloc, &mut source).err() == Some(NextError::Failed));
    for want in [b"a".as_slice(), b"bc", b"d"] {
        assert!(rt; gave(&lines.next(alloc, &mut source), want));
    }
    assert!(rt; lines.is_end(&mut source) == Ok(true) && source.faults() == 1);
    Ok(())
}

#[test]
fn a_full_sink_keeps_a_prefix_and_std_reads_and_writes(rt: HostRuntime) -> Result<(), Fail> {
    let mut sink = MemSink::new(rt.alloc(), 6, Vec::new(rt.alloc()))?;
    assert!(rt; finish(&mut sink, "end\n", Status::Usage) == Status::Usage);
    assert!(rt; write_all(&mut sink, b"abc").is_err() && sink.bytes() == b"end\nab".as_slice());
    let mut source = ReaderSource::new(b"ab".as_slice());
    let mut buf = [0u8; 4];
    assert!(rt; source.read_some(&mut buf) == Ok(2));
    let mut sink = WriterSink::new(Vec::new(rt.alloc()));
    assert!(rt; write_all(&mut sink, b"abc") == Ok(()));
    Ok(())
}
