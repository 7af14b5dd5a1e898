//! Readers and writers that fail at each of their calls in turn, and a script that is cut at every
//! byte.
use super::checks::check_at;
use super::table::ends;
use script_kinds::Status::{self, Done, Unreadable};
use script_kinds::run;
use std::io;
use std::io::{ErrorKind, Read, Write};
use std::process::Abort;

/// The script of row `bump-first-path`, and its output.
const FIRST_PATH: &[u8] =
    b"bump 4096 1024\nalloc 48 4\nshow\nalloc 10 32\nalloc 950 1\nalloc 1 1\nshow\n";

const FIRST_PATH_LINES: &[u8] = b"chunk 4096 48\n\
BumpAllocator { start: 4096, size: 1024, current_position: 48 }\n\
used 48 free 976 total 1024\n\
chunk 4160 10\n\
chunk 4170 950\n\
OutOfMemory\n\
BumpAllocator { start: 4096, size: 1024, current_position: 1024 }\n\
used 1024 free 0 total 1024\n";

/// A script, with its output, the number of writes for that, and its status.
type Row = (&'static [u8], &'static [u8], usize, Status);

const SCRIPTS: [Row; 2] = [
    (FIRST_PATH, FIRST_PATH_LINES, 49, Done),
    (b"bump 4096 8\nbad\n", b"line 2: refused\n", 4, Unreadable),
];

/// Gives its bytes seven at a time, and fails at one of its reads.
#[derive(Drop)]
struct FailingReader<'a> {
    left: &'a [u8],
    reads: usize,
    /// The number of the read that fails with this error, counted from 1.
    fails_read: (usize, ErrorKind),
}

impl Read for FailingReader<'_> {
    fn read(&mut self, buf: &mut [u8]) -> io::Result<usize> {
        self.reads = self.reads.saturating_add(1);
        if self.reads == self.fails_read.0 {
            return Err(io::Error::from(self.fails_read.1));
        }
        let most = buf.len().min(7);
        self.left.read(&mut buf[..most])
    }
}

/// Stores what is written to it, at most five bytes for each write, and counts its calls. One of
/// its writes may fail with an error, and so may its flushes.
#[derive(Drop)]
struct CountingWriter<'a> {
    kept: &'a mut Vec<u8>,
    writes: usize,
    flushes: usize,
    /// The number of the write that fails with this error, counted from 1.
    fails_write: (usize, ErrorKind),
    fails_flush: bool,
}

impl Write for CountingWriter<'_> {
    fn write(&mut self, buf: &[u8]) -> io::Result<usize> {
        self.writes = self.writes.saturating_add(1);
        if self.writes == self.fails_write.0 {
            return Err(io::Error::from(self.fails_write.1));
        }
        let most = buf.len().min(5);
        self.kept.write(&buf[..most])
    }

    fn flush(&mut self) -> io::Result<()> {
        self.flushes = self.flushes.saturating_add(1);
        if self.fails_flush {
            return Err(io::Error::from(ErrorKind::Other));
        }
        Ok(())
    }
}

/// Runs the script of row `bump-first-path` over a failing reader, and checks status and output.
fn reads(
    rt: &(impl Abort + AllocGlobal),
    fails_read: (usize, ErrorKind),
    ends: Status,
    lines: &[u8],
) {
    let mut output = Vec::new(rt.alloc());
    let reader = FailingReader {
        left: FIRST_PATH,
        reads: 0,
        fails_read,
    };
    let ended = run(rt.alloc(), reader, &mut output);
    check_at(
        rt,
        ended == ends && output.as_slice() == lines,
        fails_read.0,
    );
}

/// Fails each read in turn. The script has 70 bytes: ten reads, and one that finds its end.
fn each_read_fails(rt: &(impl Abort + AllocGlobal), fault: ErrorKind, ends: Status) {
    for at in 1..12 {
        reads(rt, (at, fault), ends, b"");
    }
    reads(rt, (12, fault), Done, FIRST_PATH_LINES);
}

// row: reader-fails-in-turn
#[test]
fn reader_fails_in_turn(rt: HostRuntime) {
    each_read_fails(&rt, ErrorKind::Other, Status::InputFailed);
    each_read_fails(&rt, ErrorKind::OutOfMemory, Status::OutOfMemory);
    let interrupted = (3, ErrorKind::Interrupted);
    reads(&rt, interrupted, Done, FIRST_PATH_LINES);
}

/// Runs a script over a writer. Checks that the run ends with this status after this many writes
/// and flushes, that the output is the beginning of the row's lines, and that it is all of these
/// lines before a flush.
fn writes(
    rt: &(impl Abort + AllocGlobal),
    row: &Row,
    (fails_write, fails_flush): ((usize, ErrorKind), bool),
    ends: (Status, usize, usize),
) {
    let mut kept = Vec::new(rt.alloc());
    let mut writer = CountingWriter {
        kept: &mut kept,
        writes: 0,
        flushes: 0,
        fails_write,
        fails_flush,
    };
    let status = run(rt.alloc(), row.0, &mut writer);
    let found = (status, writer.writes, writer.flushes);
    let is_whole = kept.len() == row.1.len();
    let begins = row.1.starts_with(kept.as_slice()) && (is_whole || found.2 == 0);
    check_at(rt, found == ends && begins, fails_write.0);
}

/// Makes the write of this number fail, and then makes it be interrupted.
fn write_fails(rt: &(impl Abort + AllocGlobal), at: usize, row: &Row) {
    let failed = (Status::OutputFailed, at, 0);
    writes(rt, row, ((at, ErrorKind::Other), false), failed);
    let done = (row.3, row.2.saturating_add(1), 1);
    writes(rt, row, ((at, ErrorKind::Interrupted), false), done);
}

/// A failed write is the last call, and an interrupted write is tried again.
// row: writer-fails-in-turn
#[test]
fn writer_fails_in_turn(rt: HostRuntime) {
    let none = (0, ErrorKind::Other);
    for row in &SCRIPTS {
        for at in 0..row.2 {
            write_fails(&rt, at.saturating_add(1), row);
        }
        writes(&rt, row, (none, false), (row.3, row.2, 1));
        let failed = (Status::OutputFailed, row.2, 1);
        writes(&rt, row, (none, true), failed);
    }
}

/// If the script is cut before any of the bytes from the first number up to the second, this line
/// is unreadable. So is `alloc 10 3`, since 3 isn't a power of two.
const UNREADABLE_CUTS: [(usize, usize, &[u8]); 7] = [
    (0, 11, b"line 1: refused\n"),
    (16, 25, b"line 2: refused\n"),
    (27, 30, b"line 3: refused\n"),
    (32, 42, b"line 4: refused\n"),
    (44, 54, b"line 5: refused\n"),
    (56, 64, b"line 6: refused\n"),
    (66, 69, b"line 7: refused\n"),
];

/// If the script is cut before any byte from the first number up to the second, the run succeeds,
/// with this many bytes of the whole script's lines. So does `bump 4096 1`, since that is a region,
/// too.
const DONE_CUTS: [(usize, usize, usize); 7] = [
    (11, 16, 0),
    (25, 27, 14),
    (30, 32, 106),
    (42, 44, 120),
    (54, 56, 135),
    (64, 66, 147),
    (69, 71, FIRST_PATH_LINES.len()),
];

/// Checks that the script, cut before each byte from `from` up to `to`, ends with this status and
/// these lines.
fn cuts(rt: &(impl Abort + AllocGlobal), from: usize, to: usize, (status, lines): (Status, &[u8])) {
    for cut in from..to {
        let script = FIRST_PATH.get(..cut).unwrap_or(b"");
        check_at(rt, ends(rt.alloc(), script, status, lines), cut);
    }
}

// row: script-cut-at-every-byte
#[test]
fn script_cut_at_every_byte(rt: HostRuntime) {
    for row in &UNREADABLE_CUTS {
        cuts(&rt, row.0, row.1, (Unreadable, row.2));
    }
    for row in &DONE_CUTS {
        let lines = FIRST_PATH_LINES.get(..row.2).unwrap_or(b"no such lines");
        cuts(&rt, row.0, row.1, (Done, lines));
    }
}
