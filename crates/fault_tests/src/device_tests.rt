// Calls whose devices fail at each point in turn.
use crate::calls::{Left, PRODUCT, PRODUCT_FILE, left_by, words_of};
use revc_base::Memory;
use revc_driver::revc;
use revc_io::{MemorySink, MemorySource, StdSource};
use std::alloc::Global;
use std::io;
use std::io::{Error, ErrorKind, Read};
use std::process::Abort;
use std::test::Fail;

// A call of each command that ends well: its words, and its text, which is empty where none is
// read.
const CALLS: &[(&str, &[u8])] = &[
    ("compile", PRODUCT),
    ("compile --format qasm", PRODUCT),
    ("check", PRODUCT),
    ("ands", PRODUCT),
    ("eval 11", PRODUCT),
    ("stat", PRODUCT_FILE),
    ("run 11 10", PRODUCT_FILE),
    ("convert", PRODUCT_FILE),
    ("convert --to real", PRODUCT_FILE),
    ("tidy", PRODUCT_FILE),
    ("verify", BESIDE),
    ("gen 1", b""),
    ("bench 1", b""),
    ("arith inc 1", b""),
    ("arith less 1 --write qasm", b""),
];

// The product and its file.
const BESIDE: &[u8] = b"main (a : bool) (b : bool) = a && b
---
.version 2.0\n.numvars 4\n.variables x0 x1 y0 w0\n.inputs x0 x1 y0 w0
.outputs x0 x1 y0 w0\n.constants --00\n.garbage ----\n.begin\nt3 x0 x1 w0\nt2 w0 y0\nt3 x0 x1 w0
.end\n";

const READ_FAULT: &[u8] = b"revc: read fault\n";

const WRITE_FAULT: &[u8] = b"revc: write fault\n";

// The most bytes of one call of a source or of standard output, of which the last is more than any
// text here; and of standard error the number of the write that fails, none where it is 0, and the
// most bytes of one write.
const PIECES: &[(usize, u64, usize)] = &[
    (1, 0, 100),
    (1, 1, 100),
    (1, 3, 1),
    (7, 0, 1),
    (7, 1, 1),
    (7, 2, 5),
    (4096, 0, 100),
    (4096, 1, 100),
    (4096, 4, 3),
];

// A call: its words and its text.
#[derive(Clone, Copy)]
struct Call<'t> {
    words: &'t str,
    text: &'t [u8],
}

// The devices of a call: the numbers of the read and of the write that fail, none where they are 0;
// the most bytes of one read and of one write; the room of standard output; the failing write of
// standard error, and the most bytes of one.
#[derive(Clone, Copy)]
struct Devices {
    failing_read: u64,
    most_read: usize,
    failing_write: u64,
    most_written: usize,
    room: usize,
    failing_err: u64,
    most_told: usize,
}

const SOUND: Devices = Devices {
    failing_read: 0,
    most_read: 4096,
    failing_write: 0,
    most_written: 4096,
    room: 10_000,
    failing_err: 0,
    most_told: 100,
};

// What a call over these devices leaves.
fn left_over(alloc: Global, call: Call<'_>, on: Devices) -> Result<Left, Memory> {
    let failing = vec![in alloc; on.failing_read]?;
    let mut source = MemorySource::new(call.text.to_vec(alloc)?, failing, on.most_read.max(1));
    let mut out = sink(alloc, on.room, on.failing_write, on.most_written)?;
    let mut err = sink(alloc, 100, on.failing_err, on.most_told)?;
    let words = words_of(alloc, call.words)?;
    let status = revc(alloc, &words, &mut source, &mut out, &mut err);
    left_by(alloc, status, out.bytes(), err.bytes())
}

fn sink(alloc: Global, room: usize, failing: u64, most: usize) -> Result<MemorySink, Memory> {
    MemorySink::new(alloc, room, vec![in alloc; failing]?, most.max(1))
}

// How many bytes of a message reach standard error.
fn told(message: &[u8], on: Devices) -> usize {
    if on.failing_err == 0 {
        return message.len();
    }
    let writes = (on.failing_err - 1) as usize;
    message.len().min(writes.saturating_mul(on.most_told))
}

// Whether the call ended with this status, so many of the first bytes of its text, and what reached
// standard error of the message.
fn is_ended(
    left: &Left,
    status: u8,
    text: &[u8],
    held: usize,
    message: &[u8],
    on: Devices,
) -> bool {
    left.status == status
        && left.out.len() == held
        && text.starts_with(&left.out)
        && left.err.len() == told(message, on)
        && message.starts_with(&left.err)
}

// How many reads a text takes, the last of which finds its end.
fn reads_of(text: &[u8], most: usize) -> u64 {
    if text.is_empty() {
        return 0;
    }
    text.len().div_ceil(most.max(1)) as u64 + 1
}

// Each read fails in turn: nothing is written. One number further, none does.
fn fail_reads(rt: &impl Abort, alloc: Global, call: Call<'_>, on: Devices) -> Result<(), Memory> {
    let words = call.words;
    let reads = reads_of(call.text, on.most_read);
    for failing_read in 1..=reads {
        let on = Devices { failing_read, ..on };
        let left = left_over(alloc, call, on)?;
        assert!(rt;
            is_ended(&left, 9, b"", 0, READ_FAULT, on),
            "{words}: read {failing_read}"
        );
    }
    let past = Devices {
        failing_read: reads.saturating_add(1),
        ..on
    };
    assert!(rt; left_over(alloc, call, past)?.status == 0, "{words}");
    Ok(())
}

// Over these devices the call writes all that it writes over sound ones.
fn write_all(
    rt: &impl Abort,
    alloc: Global,
    call: Call<'_>,
    on: Devices,
    whole: &[u8],
) -> Result<(), Memory> {
    let words = call.words;
    assert!(rt; left_over(alloc, call, on)?.is(0, whole), "{words}");
    Ok(())
}

// Each write and the flush fail in turn: the bytes of the writes before are there. One number
// further, none fails.
fn fail_writes(rt: &impl Abort, alloc: Global, call: Call<'_>, on: Devices) -> Result<(), Memory> {
    let words = call.words;
    let whole = left_over(alloc, call, SOUND)?.out;
    let calls = whole.len().div_ceil(on.most_written.max(1)) as u64 + 1;
    for failing_write in 1..=calls {
        let on = Devices {
            failing_write,
            ..on
        };
        let left = left_over(alloc, call, on)?;
        let held = on
            .most_written
            .saturating_mul(failing_write as usize - 1)
            .min(whole.len());
        let is_right = is_ended(&left, 10, &whole, held, WRITE_FAULT, on);
        assert!(rt; is_right, "{words}: write {failing_write}");
    }
    let past = Devices {
        failing_write: calls.saturating_add(1),
        ..on
    };
    write_all(rt, alloc, call, past, &whole)
}

#[test]
fn each_read_and_each_write_may_fail(rt: HostRuntime) -> Result<(), Fail> {
    for (words, text) in CALLS {
        let call = Call { words, text };
        for (most, failing_err, most_told) in PIECES {
            let on = Devices {
                most_read: *most,
                most_written: *most,
                failing_err: *failing_err,
                most_told: *most_told,
                ..SOUND
            };
            fail_reads(&rt, rt.alloc(), call, on)?;
            fail_writes(&rt, rt.alloc(), call, on)?;
        }
    }
    Ok(())
}

// The room ends at each length of what is written: it is full then.
fn fill_rooms(rt: &impl Abort, alloc: Global, call: Call<'_>) -> Result<(), Memory> {
    let words = call.words;
    let whole = left_over(alloc, call, SOUND)?.out;
    for room in 0..whole.len() {
        let on = Devices { room, ..SOUND };
        let left = left_over(alloc, call, on)?;
        assert!(rt;
            is_ended(&left, 10, &whole, room, WRITE_FAULT, on),
            "{words}: room {room}"
        );
    }
    let enough = Devices {
        room: whole.len(),
        ..SOUND
    };
    write_all(rt, alloc, call, enough, &whole)
}

#[test]
fn each_room_may_be_too_small(rt: HostRuntime) -> Result<(), Fail> {
    for (words, text) in CALLS {
        fill_rooms(&rt, rt.alloc(), Call { words, text })?;
    }
    Ok(())
}

// A reader that gives a part of the text and then fails.
#[derive(Drop)]
struct Torn {
    given: bool,
}

impl Read for Torn {
    fn read(&mut self, buf: &mut [u8]) -> io::Result<usize> {
        if self.given || buf.is_empty() {
            return Err(Error::from(ErrorKind::Other));
        }
        self.given = true;
        buf[0] = b'm';
        Ok(1)
    }
}

// What a call leaves whose source fails.
fn left_torn(alloc: Global) -> Result<Left, Memory> {
    let words = words_of(alloc, "compile")?;
    let mut source = StdSource::new(Torn { given: false });
    let mut out = MemorySink::new(alloc, 1000, Vec::new(alloc), 100)?;
    let mut err = MemorySink::new(alloc, 100, Vec::new(alloc), 4)?;
    let status = revc(alloc, &words, &mut source, &mut out, &mut err);
    left_by(alloc, status, out.bytes(), err.bytes())
}

#[test]
fn a_fault_of_the_source_ends_the_reading(rt: HostRuntime) -> Result<(), Fail> {
    assert!(rt; left_torn(rt.alloc())?.is(9, b"revc: read fault\n"));
    Ok(())
}
