//! Tests of readers and writers over slices, and of those of std.

use super::super::expect;
use fast_text::{BlockWriter, Failed, FromBytes, Source, Target, ToBytes, Watched};
use std::io;
use std::io::{ErrorKind, Read, Write};
use std::process::Abort;

/// A reader and writer of one byte a call, which fails at a call.
#[derive(Drop)]
struct OneByOne<'a> {
    cells: &'a mut [u8],
    at: usize,
    calls: usize,
}

impl OneByOne<'_> {
    fn call(&mut self) -> io::Result<usize> {
        if self.calls == 0 {
            return Err(io::Error::from(ErrorKind::Other));
        }
        self.calls -= 1;
        if self.at < self.cells.len() {
            self.at += 1;
            Ok(1)
        } else {
            Ok(0)
        }
    }
}

impl Read for OneByOne<'_> {
    fn read(&mut self, buf: &mut [u8]) -> io::Result<usize> {
        let from = self.at;
        let count = self.call()?;
        if count == 1 && !buf.is_empty() && from < self.cells.len() {
            buf[0] = self.cells[from];
            return Ok(1);
        }
        Ok(0)
    }
}

impl Write for OneByOne<'_> {
    fn write(&mut self, buf: &[u8]) -> io::Result<usize> {
        let to = self.at;
        let count = self.call()?;
        if count == 1 && !buf.is_empty() && to < self.cells.len() {
            self.cells[to] = buf[0];
            return Ok(1);
        }
        Ok(0)
    }

    fn flush(&mut self) -> io::Result<()> {
        Ok(())
    }
}

/// Checks that each read returns this result, leaves these bytes at the start of the buffer, and leaves the reader failed or not.
fn expect_reads<S: Source>(
    rt: &impl Abort,
    source: &mut S,
    buf: &mut [u8],
    reads: &[(Result<usize, Failed>, &[u8], bool)],
) {
    for (answer, front, failed) in reads {
        let is_right = source.read(buf) == *answer && buf.starts_with(front);
        let is_right = is_right && source.failed() == *failed;
        expect(rt, is_right, "a read", front.len());
    }
}

/// Checks that the piece is written whole, or that the write fails.
fn expect_write<T: Target>(
    rt: &impl Abort,
    target: &mut T,
    piece: &[u8],
    answer: Result<(), Failed>,
) {
    let is_right = target.write_all(piece) == answer && target.failed() == answer.is_err();
    expect(rt, is_right, "a write", piece.len());
}

#[test]
fn a_slice_is_read_to_its_end(rt: HostRuntime) {
    let reads: [(_, &[u8], _); 3] = [
        (Ok(3), b"abc", false),
        (Ok(2), b"dec", false),
        (Ok(0), b"dec", false),
    ];
    expect_reads(&rt, &mut FromBytes::new(b"abcde"), &mut [0; 3], &reads);
}

#[test]
fn a_full_slice_fails(rt: HostRuntime) {
    let mut cells = [0; 4];
    let mut target = ToBytes::new(&mut cells);
    expect_write(&rt, &mut target, b"abc", Ok(()));
    assert!(rt; target.room() == 1);
    expect_write(&rt, &mut target, b"de", Err(Failed));
    assert!(rt; target.bytes() == b"abcd".as_slice());
}

#[test]
fn a_reader_of_std_fails_where_a_call_does(rt: HostRuntime) {
    let mut cells = *b"ab";
    let mut source = Watched::new(OneByOne {
        cells: &mut cells,
        at: 0,
        calls: 3,
    });
    let reads: [(_, &[u8], _); 4] = [
        (Ok(1), b"a", false),
        (Ok(1), b"b", false),
        (Ok(0), b"b", false),
        (Err(Failed), b"b", true),
    ];
    expect_reads(&rt, &mut source, &mut [0; 8], &reads);
}

#[test]
fn a_writer_of_std_fails_where_a_call_does_or_writes_nothing(rt: HostRuntime) {
    for (calls, written) in [(2, *b"ab\0"), (9, *b"abc")] {
        let mut cells = [0; 3];
        let mut target = Watched::new(OneByOne {
            cells: &mut cells,
            at: 0,
            calls,
        });
        expect_write(&rt, &mut target, b"ab", Ok(()));
        let is_flushed = Target::flush(&mut target).is_ok() && !Target::failed(&target);
        expect_write(&rt, &mut target, b"cd", Err(Failed));
        drop(target);
        expect(
            &rt,
            is_flushed && cells == written,
            "a writer of std",
            calls,
        );
    }
}

/// A block is written at a flush; if that fails, the bytes that the target has no room for stay in the buffer.
#[test]
fn a_block_is_handed_on_at_a_flush(rt: HostRuntime) {
    let mut cells = [0; 4];
    let mut target = BlockWriter::new(ToBytes::new(&mut cells));
    let writes = target.write_all(b"ab").is_ok() && target.flush().is_ok();
    let waits = target.write_all(b"cde").is_ok() && !target.failed();
    let fails = target.flush().is_err() && target.failed();
    drop(target);
    assert!(rt; writes && waits && fails && cells == *b"abcd");
}

/// A piece that is longer than a block is written after the buffered bytes.
#[test]
fn a_long_piece_goes_past_a_block(rt: HostRuntime) {
    let mut cells = [0; 9001];
    let mut target = BlockWriter::new(ToBytes::new(&mut cells));
    let keeps = target.keep(b"ab", 1) && target.write_all(&[b'c'; 9000]).is_ok();
    let full = !target.keep(&[b'd'; 9000], 1);
    let flushes = target.flush().is_ok();
    drop(target);
    assert!(rt;
        keeps && full && flushes && cells[0] == b'a' && cells[1] == b'c' && cells[9000] == b'c'
    );
}

/// A writer that accepts everything, counts flushes, and fails at one.
#[derive(Drop)]
struct Flushes {
    count: u32,
    fails_at: u32,
}

impl Write for Flushes {
    fn write(&mut self, buf: &[u8]) -> io::Result<usize> {
        Ok(buf.len())
    }

    fn flush(&mut self) -> io::Result<()> {
        self.count = self.count.saturating_add(1);
        if self.count == self.fails_at {
            return Err(io::Error::from(ErrorKind::Other));
        }
        Ok(())
    }
}

#[test]
fn a_writer_of_std_has_failed_from_a_flush_on_that_fails(rt: HostRuntime) {
    let mut target = Watched::new(Flushes {
        count: 0,
        fails_at: 2,
    });
    for (answer, failed) in [(Ok(()), false), (Err(Failed), true), (Ok(()), true)] {
        let is_right = Target::flush(&mut target) == answer && Target::failed(&target) == failed;
        expect(&rt, is_right, "a flush", 0);
    }
    let count = target.into_inner().count;
    expect(&rt, count == 3, "flushes", 3);
}

/// A flush of a block flushes the writer inside it too.
#[test]
fn a_flush_of_a_block_flushes_the_writer_inside(rt: HostRuntime) {
    let mut target = BlockWriter::new(Watched::new(Flushes {
        count: 0,
        fails_at: 2,
    }));
    let first = target.write_all(b"ab").is_ok() && target.flush().is_ok() && !target.failed();
    let second = target.flush().is_err() && target.failed();
    assert!(rt; first && second);
}
