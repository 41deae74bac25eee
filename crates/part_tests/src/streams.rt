//! What the system's streams do, and that the streams that never fail find memory.
ghost use Rattle.std.specs.Prelude.{◌≡◌, IfOk};

use rma_streams::{
    Failed, ReadError, SafeSink, SafeSource, Sink, Source, StdSink, StdSource, read_input,
    write_output,
};
use std::io;
use std::io::{ErrorKind, Read, Write};
use std::test::Fail;

/// A reader and writer that fails so often with this kind of error, and then moves all.
#[derive(Drop)]
struct FailingStream {
    times: u32,
    kind: ErrorKind,
}

impl FailingStream {
    fn moves(&mut self, count: usize) -> io::Result<usize>
        ensures { IfOk result (λ n. n ≡ count) }
    {
        if self.times == 0 {
            return Ok(count);
        }
        self.times -= 1;
        Err(io::Error::from(self.kind))
    }
}

impl Read for FailingStream {
    fn read(&mut self, buf: &mut [u8]) -> io::Result<usize> {
        self.moves(buf.len())
    }
}

impl Write for FailingStream {
    fn write(&mut self, buf: &[u8]) -> io::Result<usize> {
        self.moves(buf.len())
    }

    fn flush(&mut self) -> io::Result<()> {
        Ok(())
    }
}

/// A writer that takes nothing.
#[derive(Drop)]
struct FullWriter;

impl Write for FullWriter {
    fn write(&mut self, _buf: &[u8]) -> io::Result<usize> {
        Ok(0)
    }

    fn flush(&mut self) -> io::Result<()> {
        Ok(())
    }
}

#[test]
fn the_standard_input_is_read(rt: HostRuntime) {
    let mut source = StdSource::new(rt.stdin());
    assert!(rt; read_input(rt.alloc(), &mut source).is_ok());
}

#[test]
fn the_standard_output_is_written(rt: HostRuntime) {
    let mut sink = StdSink::new(rt.stdout());
    assert_eq!(rt; write_output(&mut sink, b"written\n"), Ok(()));
    let mut full = StdSink::new(FullWriter);
    assert_eq!(rt; write_output(&mut full, b"none"), Err(Failed));
    assert_eq!(rt; full.write(b""), Ok(0));
}

/// A call that is interrupted is made 64 times again; any other error is a fault at once. The next call goes on.
#[test]
fn interrupted_calls_are_made_again(rt: HostRuntime) {
    let mut piece = [0u8; 3];
    for (times, kind, first) in [
        (64, ErrorKind::Interrupted, Ok(3)),
        (65, ErrorKind::Interrupted, Err(Failed)),
        (1, ErrorKind::Other, Err(Failed)),
    ] {
        let mut source = StdSource::new(FailingStream { times, kind });
        assert_eq!(rt; source.read(&mut piece), first);
        assert_eq!(rt; source.read(&mut piece), Ok(3));
        let mut sink = StdSink::new(FailingStream { times, kind });
        assert_eq!(rt; sink.write(b"abc"), first);
        assert_eq!(rt; sink.write(b"abc"), Ok(3));
    }
    let mut failing = StdSource::new(FailingStream {
        times: 1,
        kind: ErrorKind::Other,
    });
    assert!(rt; matches!(read_input(rt.alloc(), &mut failing), Err(ReadError::Failed)));
}

#[test]
fn streams_that_never_fail_find_memory(rt: HostRuntime) -> Result<(), Fail> {
    let mut source = SafeSource::new(b"abcd".to_vec(rt.alloc())?);
    assert_eq!(rt;
        read_input(rt.alloc(), &mut source)?.as_slice(),
        b"abcd".as_slice()
    );
    let mut sink = SafeSink::new(rt.alloc(), 3)?;
    assert_eq!(rt; write_output(&mut sink, b"ab"), Ok(()));
    assert_eq!(rt; write_output(&mut sink, b"cd"), Ok(()));
    assert_eq!(rt; sink.bytes(), b"abc".as_slice());
    Ok(())
}
