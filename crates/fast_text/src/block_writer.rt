//! A target that buffers its bytes, and writes them in large blocks.

ghost use Rattle.std.specs.Prelude.{◌≡◌, ◌≤◌, ◌+◌, [], ◌++◌, OnOk, OnErr, IsTrue, length, take};
ghost use Rattle.fast_text.specs.meaning.Streams.{Appends};

use crate::streams::{Failed, Target};

/// The size of the buffer in bytes. Pieces that are longer are written directly.
const BLOCK: usize = 8192;

/// A target that buffers what is written to it, and writes it to another target when the buffer is full, or when it is flushed.
#[derive(Drop)]
pub struct BlockWriter<T> {
    inner: T,
    cells: [u8; BLOCK],
    /// The offset in `cells` at which the buffered bytes start.
    start: usize,
    /// The offset in `cells` at which they end.
    end: usize,
    ghost ordered: { start ≤ end },
    ghost within: { end ≤ 8192 },
}

impl<T: Target> BlockWriter<T> {
    ghost use Rattle.fast_text.specs.meaning.BlockWriter.{kept_of, target_of, with_kept};

    /// Makes a writer over a target, with an empty buffer.
    pub fn new(inner: T) -> BlockWriter<T>
        ensures written { with_kept T.written result ≡ T.written inner }
        ensures target { target_of result ≡ inner }
    {
        BlockWriter {
            inner,
            cells: [0; BLOCK],
            start: 0,
            end: 0,
        }
    }

    /// Writes all buffered bytes to the target. If that fails, the bytes that were not written stay in the buffer.
    fn hand_on(&mut self) -> Result<(), Failed>
        ensures kept { Appends (with_kept T.written self.old) (with_kept T.written self.new) [] }
        ensures empty { OnOk result (kept_of self.new ≡ []) }
        ensures room { OnOk result (self.new.end ≡ 0) }
        ensures fails { OnErr result (IsTrue (T.has_failed (target_of self.new))) }
        ensures stays { OnOk result (T.has_failed (target_of self.new) ≡ T.has_failed (target_of self.old)) }
    {
        while self.start < self.end {
            let (_, kept) = self.cells[..self.end].split_at(self.start);
            let count = self.inner.write(kept)?;
            self.start += count;
        }
        self.start = 0;
        self.end = 0;
        Ok(())
    }

    /// Adds the first `count` bytes of a block to the buffer. It copies the whole block, which needs no call if the block's length is known
    /// to the compiler.
    #[inline(always)]
    fn store(&mut self, block: &[u8], count: usize)
        requires room { self.old.end + length block.now ≤ BLOCK }
        requires front { count ≤ length block.now }
        ensures kept { kept_of self.new ≡ kept_of self.old ++ take count block.now }
        ensures target { target_of self.new ≡ target_of self.old }
    {
        self.cells[self.end..self.end + block.len()].copy_from_slice(block);
        self.end += count;
    }
}

impl<T: Target> Target for BlockWriter<T> {
    ghost use Rattle.fast_text.specs.meaning.BlockWriter.{target_of, with_kept};

    ghost written = { with_kept T.written };

    ghost has_failed = { λ s. T.has_failed (target_of s) };

    fn write(&mut self, piece: &[u8]) -> Result<usize, Failed> {
        if piece.len() <= BLOCK - self.end {
            self.store(piece, piece.len());
            return Ok(piece.len());
        }
        self.hand_on()?;
        if piece.len() > BLOCK {
            let count = self.inner.write(piece)?;
            return Ok(count);
        }
        self.store(piece, piece.len());
        Ok(piece.len())
    }

    fn flush(&mut self) -> Result<(), Failed> {
        self.hand_on()?;
        self.inner.flush()?;
        Ok(())
    }

    fn failed(&self) -> bool {
        self.inner.failed()
    }

    #[inline(always)]
    fn keep(&mut self, block: &[u8], count: usize) -> bool {
        if block.len() > BLOCK - self.end {
            return false;
        }
        self.store(block, count);
        true
    }
}
