//! The reader and the writer of std that the tests use.
//!
//! There is one of each, with all that the tests need: the compiler makes a copy of the decoder's loop for each writer.

ghost use Rattle.std.specs.Prelude.{◌≤◌, length, IfOk};

use std::io::{self, ErrorKind, Read, Write};

/// The result of the call that differs from all others.
#[derive(Clone, Copy, PartialEq, Eq)]
pub enum Answer {
    /// It fails.
    Failure,
    /// No byte is read or written.
    Nothing,
}

/// A reader of one byte a call, except at one call; or one without an end, each call of which fills the buffer.
#[derive(Drop)]
pub struct Giver<'a> {
    bytes: &'a [u8],
    pub calls: usize,
    differs_at: usize,
    answer: Answer,
    is_endless: bool,
}

impl<'a> Giver<'a> {
    /// Makes a reader of these bytes.
    pub fn new(bytes: &'a [u8], differs_at: usize, answer: Answer) -> Giver<'a> {
        Giver {
            bytes,
            calls: 0,
            differs_at,
            answer,
            is_endless: false,
        }
    }

    /// Makes a reader without an end.
    pub fn endless() -> Giver<'a> {
        Giver {
            bytes: &[],
            calls: 0,
            differs_at: 0,
            answer: Answer::Failure,
            is_endless: true,
        }
    }
}

impl Read for Giver<'_> {
    fn read(&mut self, buf: &mut [u8]) -> io::Result<usize> {
        self.calls = self.calls.saturating_add(1);
        if self.calls == self.differs_at {
            return match self.answer {
                Answer::Failure => Err(ErrorKind::Other.into()),
                Answer::Nothing => Ok(0),
            };
        }
        if self.is_endless {
            return Ok(buf.len());
        }
        match (self.bytes.split_first(), buf.first_mut()) {
            (Some((byte, rest)), Some(cell)) => {
                *cell = *byte;
                self.bytes = rest;
                Ok(1)
            }
            _ => Ok(0),
        }
    }
}

/// A writer of one byte a call, except at one call, which keeps the first of them; or one of whole pieces, up to the end of its cells. It
/// can fail at a flush.
#[derive(Drop)]
pub struct Taker<'a> {
    cells: &'a mut [u8],
    pub kept: usize,
    calls: usize,
    differs_at: usize,
    answer: Answer,
    is_whole: bool,
    pub lines: usize,
    pub flushes: usize,
    flush_fails_at: usize,
}

impl<'a> Taker<'a> {
    /// Makes a writer of one byte a call, which keeps the first of them.
    pub fn new(
        cells: &'a mut [u8],
        differs_at: usize,
        answer: Answer,
        flush_fails_at: usize,
    ) -> Taker<'a> {
        Taker {
            cells,
            kept: 0,
            calls: 0,
            differs_at,
            answer,
            is_whole: false,
            lines: 0,
            flushes: 0,
            flush_fails_at,
        }
    }

    /// Makes a writer of whole pieces, up to the end of its cells.
    pub fn whole(cells: &'a mut [u8]) -> Taker<'a> {
        let mut taker = Taker::new(cells, 0, Answer::Failure, 0);
        taker.is_whole = true;
        taker
    }

    /// Makes a writer of everything, which fails at a flush if it comes to it.
    pub fn counting(flush_fails_at: usize) -> Taker<'a> {
        Taker::new(&mut [], 0, Answer::Failure, flush_fails_at)
    }

    /// Returns the bytes that were written, as far as they have room in its cells.
    pub fn bytes(&self) -> &[u8] {
        self.cells.get(..self.kept).unwrap_or(&[])
    }

    /// Returns whether this part of the lines was written.
    pub fn has_kept(&self, lines: &[u8], count: usize) -> bool {
        self.cells.get(..self.kept) == lines.get(..count)
    }

    /// Writes the part of a piece that has room in the cells, and fails if they are full.
    fn take_piece(&mut self, piece: &[u8]) -> io::Result<usize>
        ensures { IfOk result (λ n. n ≤ length piece.now) }
    {
        let Some(room) = self.cells.get_mut(self.kept..) else {
            return Err(ErrorKind::Other.into());
        };
        let count = piece.len().min(room.len());
        if count == 0 && !piece.is_empty() {
            return Err(ErrorKind::Other.into());
        }
        room[..count].copy_from_slice(&piece[..count]);
        self.kept = self.kept.saturating_add(count);
        Ok(count)
    }
}

impl Write for Taker<'_> {
    fn write(&mut self, buf: &[u8]) -> io::Result<usize> {
        self.calls = self.calls.saturating_add(1);
        if self.calls == self.differs_at {
            return match self.answer {
                Answer::Failure => Err(ErrorKind::Other.into()),
                Answer::Nothing => Ok(0),
            };
        }
        if self.is_whole {
            return self.take_piece(buf);
        }
        let Some(byte) = buf.first() else {
            return Ok(0);
        };
        if let Some(cell) = self.cells.get_mut(self.kept) {
            *cell = *byte;
        }
        self.kept = self.kept.saturating_add(1);
        if *byte == b'\n' {
            self.lines = self.lines.saturating_add(1);
        }
        Ok(1)
    }

    fn flush(&mut self) -> io::Result<()> {
        self.flushes = self.flushes.saturating_add(1);
        if self.flushes == self.flush_fails_at {
            return Err(ErrorKind::Other.into());
        }
        Ok(())
    }
}
