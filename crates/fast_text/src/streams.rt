//! Readers and writers whose bytes a contract can refer to, and adapters for those of std.

ghost use Rattle.std.specs.Prelude.{◌≡◌, ℕ, ◌≤◌, ◌<◌, List, [], Bool, false, IsTrue, take, length, Option, Some, Ok, IsErr, IfOk, OnOk, OnErr};
ghost use Rattle.std.specs.Io.KnownBytes.{IsAtEnd};
ghost use Rattle.fast_text.specs.meaning.Streams.{Reads, Appends, AppendsFront};

use std::error::Error;
use std::fmt;
use std::io::{self, Read, Write};

/// A read or a write failed.
#[derive(Clone, Copy, Debug, PartialEq, Eq)]
pub struct Failed;

impl fmt::Display for Failed {
    fn fmt<W: fmt::Write>(&self, f: &mut fmt::Formatter<W>) -> fmt::Result {
        f.write_str("a read or a write failed")
    }
}

impl Error for Failed {}

/// A reader of bytes.
pub trait Source {
    // The bytes that later reads will return, if that is known.
    ghost left: { Self → Option (List ℕ) };

    ghost has_failed: { Self → Bool };

    /// Reads into the start of a buffer, and returns the number of bytes read. 0 bytes, if the buffer is not empty, mean the end. A read
    /// that fails has returned nothing.
    fn read(&mut self, buf: &mut [u8]) -> Result<usize, Failed>
        ensures count { IfOk result (λ n. n ≤ length buf.new) }
        ensures bytes { IfOk result (λ n. Reads (left self.old) (left self.new) (take n buf.new)) }
        ensures end { IfOk result (λ n. n ≡ 0 → 0 < length buf.new → IsAtEnd (left self.new)) }
        ensures kept { OnErr result (Reads (left self.old) (left self.new) []) }
        ensures fails { OnErr result (IsTrue (has_failed self.new)) }
        ensures stays { OnOk result (has_failed self.new ≡ has_failed self.old) };

    /// Returns whether a read has failed.
    fn failed(&self) -> bool
        ensures { result ≡ has_failed self.now };
}

/// A writer of bytes.
pub trait Target {
    // The bytes that were written so far, if that is known.
    ghost written: { Self → Option (List ℕ) };

    ghost has_failed: { Self → Bool };

    /// Writes the start of a piece, and returns the number of bytes written: at least one if the piece is not empty. A write that fails has
    /// written nothing.
    fn write(&mut self, piece: &[u8]) -> Result<usize, Failed>
        ensures count { IfOk result (λ n. n ≤ length piece.now) }
        ensures some { IfOk result (λ n. 0 < length piece.now → 0 < n) }
        ensures bytes { IfOk result (λ n. Appends (written self.old) (written self.new) (take n piece.now)) }
        ensures kept { OnErr result (Appends (written self.old) (written self.new) []) }
        ensures fails { OnErr result (IsTrue (has_failed self.new)) }
        ensures stays { OnOk result (has_failed self.new ≡ has_failed self.old) };

    /// Writes out the bytes that the target buffers, if it does.
    fn flush(&mut self) -> Result<(), Failed>
        ensures kept { Appends (written self.old) (written self.new) [] }
        ensures fails { OnErr result (IsTrue (has_failed self.new)) }
        ensures stays { OnOk result (has_failed self.new ≡ has_failed self.old) };

    /// Returns whether a write has failed.
    fn failed(&self) -> bool
        ensures { result ≡ has_failed self.now };

    /// Appends the first `count` bytes of a block to the target's own buffer, if that has room for the whole block, and returns whether it
    /// did. A target without a buffer always returns false.
    #[inline(always)]
    fn keep(&mut self, block: &[u8], count: usize) -> bool
        requires { count ≤ length block.now }
        ensures kept { IsTrue result → Appends (written self.old) (written self.new) (take count block.now) }
        ensures unchanged { result ≡ false → self.new ≡ self.old }
        ensures stays { has_failed self.new ≡ has_failed self.old }
    {
        let _ = (block.len(), count);
        false
    }

    /// Writes a whole piece. If it fails, a part of the piece may have been written.
    final fn write_all(&mut self, piece: &[u8]) -> Result<(), Failed>
    where
        Self: Sized,
        ensures bytes { OnOk result (Appends (written self.old) (written self.new) piece.now) }
        ensures part { OnErr result (AppendsFront (written self.old) (written self.new) piece.now) }
        ensures fails { OnErr result (IsTrue (has_failed self.new)) }
        ensures stays { OnOk result (has_failed self.new ≡ has_failed self.old) }
    {
        let mut rest = piece;
        while !rest.is_empty() {
            let count = self.write(rest)?;
            rest = &rest[count..];
        }
        Ok(())
    }
}

/// A reader of the bytes of a slice. It never fails.
#[derive(Debug, Drop)]
pub struct FromBytes<'a> {
    rest: &'a [u8],
}

impl<'a> FromBytes<'a> {
    /// Makes a reader of these bytes.
    pub fn new(bytes: &'a [u8]) -> FromBytes<'a>
        ensures { ⟦<FromBytes<'a> as Source>⟧.left result ≡ Some bytes.entry.now }
    {
        FromBytes { rest: bytes }
    }
}

impl Source for FromBytes<'_> {
    ghost left = { λ s. Some s.rest.now };

    ghost has_failed = { λ _. false };

    fn read(&mut self, buf: &mut [u8]) -> Result<usize, Failed> {
        let count = self.rest.len().min(buf.len());
        let (front, rest) = self.rest.split_at(count);
        buf[..count].copy_from_slice(front);
        self.rest = rest;
        Ok(count)
    }

    fn failed(&self) -> bool {
        false
    }
}

/// A writer into a borrowed slice. It fails when the slice is full.
#[derive(Debug, Drop)]
pub struct ToBytes<'a> {
    cells: &'a mut [u8],
    len: usize,
    failed: bool,
    ghost within: { len ≤ length cells.now },
    ghost full_where_failed: { IsTrue failed → length cells.now ≤ len },
}

impl<'a> ToBytes<'a> {
    ghost use Rattle.fast_text.specs.meaning.ToBytes.{room_of};

    /// Makes a writer that has written nothing.
    pub fn new(cells: &'a mut [u8]) -> ToBytes<'a>
        ensures empty { ⟦<ToBytes<'a> as Target>⟧.written result ≡ Some [] }
        ensures room { room_of result ≡ length cells.old }
        ensures good { ⟦<ToBytes<'a> as Target>⟧.has_failed result ≡ false }
    {
        ToBytes {
            cells,
            len: 0,
            failed: false,
        }
    }

    /// Returns the bytes that were written.
    pub fn bytes(&self) -> &[u8]
        ensures { ⟦<ToBytes<'a> as Target>⟧.written self.now ≡ Some result.now }
    {
        &self.cells[..self.len]
    }

    /// Returns the number of bytes that still have room.
    pub fn room(&self) -> usize
        ensures room { result ≡ room_of self.now }
        ensures full_where_failed { IsTrue (⟦<ToBytes<'a> as Target>⟧.has_failed self.now) → result ≡ 0 }
    {
        self.cells.len() - self.len
    }
}

impl Target for ToBytes<'_> {
    ghost written = { λ s. Some (take s.len s.cells.now) };

    ghost has_failed = { λ s. s.failed };

    fn write(&mut self, piece: &[u8]) -> Result<usize, Failed> {
        let room = self.room();
        if room == 0 && !piece.is_empty() {
            self.failed = true;
            return Err(Failed);
        }
        let count = piece.len().min(room);
        self.cells[self.len..self.len + count].copy_from_slice(&piece[..count]);
        self.len += count;
        Ok(count)
    }

    fn flush(&mut self) -> Result<(), Failed> {
        Ok(())
    }

    fn failed(&self) -> bool {
        self.failed
    }
}

/// A reader or a writer of std, with a flag that says whether a call of it has failed. It reads and writes the same bytes.
#[derive(Debug, Drop)]
pub struct Watched<T> {
    inner: T,
    broken: bool,
}

impl<T> Watched<T> {
    ghost use Rattle.fast_text.specs.meaning.Watched.{inner_of, has_call_failed};

    /// Wraps a reader or a writer, of which no call has failed yet.
    pub fn new(inner: T) -> Watched<T>
        ensures inner { inner_of result ≡ inner }
        ensures good { has_call_failed result ≡ false }
    {
        Watched {
            inner,
            broken: false,
        }
    }

    /// Returns the number of bytes that a read returned, and notes a failure.
    #[inline(always)]
    fn note_read(&mut self, outcome: io::Result<usize>) -> Result<usize, Failed>
        ensures inner { inner_of self.new ≡ inner_of self.old }
        ensures ok { IfOk result (λ n. outcome ≡ Ok n) }
        ensures err { OnErr result (IsErr outcome) }
        ensures fails { OnErr result (IsTrue (has_call_failed self.new)) }
        ensures stays { OnOk result (has_call_failed self.new ≡ has_call_failed self.old) }
    {
        match outcome {
            Ok(count) => Ok(count),
            Err(_) => {
                self.broken = true;
                Err(Failed)
            }
        }
    }

    /// Returns the reader or writer, in the state in which the calls have left it.
    pub fn into_inner(self) -> T
        ensures { result ≡ inner_of self }
    {
        self.inner
    }
}

impl<R: Read> Source for Watched<R> {
    ghost use Rattle.fast_text.specs.meaning.Watched.{inner_of};

    ghost left = { λ s. R.remaining (inner_of s) };

    ghost has_failed = { λ s. s.broken };

    fn read(&mut self, buf: &mut [u8]) -> Result<usize, Failed> {
        let outcome = self.inner.read(buf);
        self.note_read(outcome)
    }

    fn failed(&self) -> bool {
        self.broken
    }
}

impl<W: Write> Target for Watched<W> {
    ghost use Rattle.fast_text.specs.meaning.Watched.{inner_of};

    ghost written = { λ s. W.contents (inner_of s) };

    ghost has_failed = { λ s. s.broken };

    fn write(&mut self, piece: &[u8]) -> Result<usize, Failed> {
        match self.inner.write(piece) {
            Ok(count) if count > 0 || piece.is_empty() => Ok(count),
            _ => {
                self.broken = true;
                Err(Failed)
            }
        }
    }

    fn flush(&mut self) -> Result<(), Failed> {
        match self.inner.flush() {
            Ok(()) => Ok(()),
            Err(_) => {
                self.broken = true;
                Err(Failed)
            }
        }
    }

    fn failed(&self) -> bool {
        self.broken
    }
}
