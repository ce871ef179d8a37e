// The tests of revc_io.
ghost use Rattle.std.specs.Prelude.{◌≤◌};

use revc_base::Memory;
use revc_io::{
    Buffer, Failed, MemorySink, ReadFault, Sink, StdSink, StdSource, SureSource, put_all,
    put_decimal, read_up_to,
};
use std::alloc::Global;
use std::io;
use std::io::{Cursor, Error, ErrorKind, Read, Write};
use std::process::Abort;
use std::test::Fail;

// A reader that fails at its first call, and is at its end after that.
#[derive(Drop)]
struct FailsOnce {
    failed: bool,
}

impl Read for FailsOnce {
    fn read(&mut self, _buf: &mut [u8]) -> io::Result<usize> {
        if self.failed {
            return Ok(0);
        }
        self.failed = true;
        Err(Error::from(ErrorKind::Other))
    }
}

// A writer that takes every byte, and cannot hand on what it took.
#[derive(Drop)]
struct FailsToFlush;

impl Write for FailsToFlush {
    fn write(&mut self, buf: &[u8]) -> io::Result<usize> {
        Ok(buf.len())
    }

    fn flush(&mut self) -> io::Result<()> {
        Err(Error::from(ErrorKind::Other))
    }
}

// How many bytes of a text of 5,000 are read within a limit.
fn read_within(alloc: Global, limit: u16) -> Result<usize, ReadFault> {
    let mut source = SureSource::new(vec![in alloc; b'a'; 5000]?);
    Ok(read_up_to(alloc, &mut source, usize::from(limit))?.len())
}

// A text of exactly the limit is read, and one byte more is refused.
const LIMITS: &[(u16, Result<usize, ReadFault>)] = &[
    (5000, Ok(5000)),
    (4999, Err(ReadFault::TooLong)),
    (0, Err(ReadFault::TooLong)),
    (4096, Err(ReadFault::TooLong)),
    (9000, Ok(5000)),
];

#[test]
fn texts_are_read_up_to_a_limit(rt: HostRuntime) {
    for (limit, expected) in LIMITS {
        assert!(rt; read_within(rt.alloc(), *limit) == *expected, "at {limit}");
    }
}

// What `put_all` and a flush answer in a sink of this room, failing call and most bytes a call, and
// whether it then holds these bytes.
fn ends(
    alloc: Global,
    room: usize,
    failing: u64,
    most: usize,
    held: &[u8],
) -> Result<(bool, bool, bool), Memory>
    requires { 1 ≤ most }
{
    let mut sink = MemorySink::new(alloc, room, vec![in alloc; failing; 1]?, most)?;
    let writes = put_all(&mut sink, b"version").is_ok();
    let flushes = sink.flush().is_ok();
    Ok((writes, flushes, sink.bytes() == held))
}

type SinkRow = (usize, u64, usize, bool, bool, &'static [u8]);

const SINKS: &[SinkRow] = &[
    (9, 0, 9, true, true, b"version"),
    (9, 0, 1, true, true, b"version"),
    (9, 1, 9, false, true, b""),
    (9, 2, 9, true, false, b"version"),
    (9, 3, 1, false, true, b"ve"),
    (9, 8, 1, true, false, b"version"),
    (5, 0, 2, false, true, b"versi"),
];

fn assert_ends(rt: &impl Abort, alloc: Global, sinks: &[SinkRow]) -> Result<(), Memory> {
    for (room, failing, most, writes, flushes, held) in sinks {
        assert!(rt; *most > 0);
        let ended = ends(alloc, *room, *failing, *most, held)?;
        assert!(rt; ended == (*writes, *flushes, true), "at {failing}");
    }
    Ok(())
}

#[test]
fn sinks_fail_where_they_are_told(rt: HostRuntime) -> Result<(), Fail> {
    Ok(assert_ends(&rt, rt.alloc(), SINKS)?)
}

// Puts three pieces that pass the buffer's size, one of them on its own.
fn put_pieces(buffer: &mut Buffer, sink: &mut MemorySink, long: &[u8]) -> Result<(), Failed> {
    buffer.put(sink, b"first")?;
    buffer.put(sink, long)?;
    buffer.put(sink, b"last")
}

fn are_pieces(bytes: &[u8]) -> bool {
    bytes.len() == 9009 && bytes.starts_with(b"firstbbb") && bytes.ends_with(b"bbblast")
}

// Whether the pieces reach a sink in order; and whether the flush at the end does, where the call
// with this number fails.
fn gathers(alloc: Global, failing: u64) -> Result<(bool, bool), Fail> {
    let long = vec![in alloc; b'b'; 9000]?;
    let mut sink = MemorySink::new(alloc, 20000, vec![in alloc; failing; 1]?, 20000)?;
    Ok(gathers_pieces(&mut sink, &long)?)
}

fn gathers_pieces(sink: &mut MemorySink, long: &[u8]) -> Result<(bool, bool), Failed> {
    let mut buffer = Buffer::new();
    put_pieces(&mut buffer, sink, long)?;
    let is_flushed = buffer.finish(sink).is_ok();
    Ok((are_pieces(sink.bytes()), is_flushed))
}

#[test]
fn pieces_are_gathered(rt: HostRuntime) -> Result<(), Fail> {
    for (failing, is_flushed) in [(0, true), (4, false), (5, true)] {
        assert!(rt;
            gathers(rt.alloc(), failing)? == (true, is_flushed),
            "at {failing}"
        );
    }
    Ok(())
}

fn write_numbers(sink: &mut MemorySink) -> Result<(), Failed> {
    let mut buffer = Buffer::new();
    for number in [0, 10, 409, u64::MAX] {
        buffer.put(sink, b" ")?;
        put_decimal(&mut buffer, sink, number)?;
    }
    buffer.finish(sink)
}

// Numbers of 1, 2, 3 and 20 digits, to a sink that takes one byte a call.
#[test]
fn numbers_are_written(rt: HostRuntime) -> Result<(), Fail> {
    let mut sink = MemorySink::new(rt.alloc(), 100, Vec::new(rt.alloc()), 1)?;
    let is_written = write_numbers(&mut sink).is_ok();
    assert!(rt; is_written && sink.bytes() == b" 0 10 409 18446744073709551615".as_slice());
    Ok(())
}

// Over readers of the standard library bytes pass through.
#[test]
fn standard_readers_are_sources(rt: HostRuntime) -> Result<(), Fail> {
    let mut source = StdSource::new(b"input".as_slice());
    assert!(rt; read_up_to(rt.alloc(), &mut source, 9)?.as_slice() == b"input".as_slice());
    Ok(())
}

// A fault is no end: what is behind it can be read.
fn read_twice(alloc: Global, broken: FailsOnce) -> Result<(bool, usize), ReadFault> {
    let mut source = StdSource::new(broken);
    let is_failed = matches!(read_up_to(alloc, &mut source, 9), Err(ReadFault::Failed));
    Ok((is_failed, read_up_to(alloc, &mut source, 9)?.len()))
}

#[test]
fn broken_readers_are_faults(rt: HostRuntime) -> Result<(), Fail> {
    assert!(rt; read_twice(rt.alloc(), FailsOnce { failed: false })? == (true, 0));
    Ok(())
}

// Whether `put_all` and a flush pass.
fn put_out<K: Sink>(sink: &mut K) -> (bool, bool) {
    (put_all(sink, b"output").is_ok(), sink.flush().is_ok())
}

#[test]
fn standard_writers_are_sinks(rt: HostRuntime) {
    let mut written = Vec::new(rt.alloc());
    assert!(rt; put_out(&mut StdSink::new(&mut written)) == (true, true));
    assert!(rt; written.as_slice() == b"output".as_slice());
}

// A written 0 is a fault, and so are errors.
#[test]
fn broken_writers_are_faults(rt: HostRuntime) {
    assert!(rt; put_out(&mut StdSink::new(Cursor::new([0; 3]))) == (false, true));
    let mut stuck = StdSink::new(FailsToFlush);
    assert!(rt; put_out(&mut stuck) == (true, false));
    assert!(rt; Buffer::new().finish(&mut stuck) == Err(Failed));
}
