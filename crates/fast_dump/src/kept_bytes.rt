//! The bytes that have been read and are not in a row yet, with their offset.

ghost use Rattle.std.specs.Prelude.{◌≡◌, ◌+◌, ◌<◌, ◌≤◌, ◌^◌, [], ◌∷◌, ◌++◌, IfOk, IsTrue, false, length};

use std::alloc::{AllocError, Global};

/// The bytes since the last row, and their offset.
#[derive(Debug, Drop)]
pub struct KeptBytes {
    cells: Vec<u8>,
    len: usize,
    at: u64,
    ghost some: { 0 < length cells.items },
    ghost within: { len ≤ length cells.items },
    ghost few: { at + len < 2 ^ 64 },
}

impl KeptBytes {
    ghost use Rattle.fast_dump.specs.meaning.Kept.{kept, place, end};

    /// Makes an empty buffer with room for this many bytes, at offset 0.
    pub fn new(alloc: Global, room: usize) -> Result<KeptBytes, AllocError>
        requires { 0 < room }
        ensures { IfOk result (λ k. (kept k ≡ []) × (place k ≡ 0)) }
    {
        Ok(KeptBytes {
            cells: vec![in alloc; 0u8; room]?,
            len: 0,
            at: 0,
        })
    }

    /// Returns whether the buffer has room for another byte.
    pub fn has_room(&self) -> bool
        ensures room { IsTrue result → self.now.len < length self.now.cells.items }
        ensures full { result ≡ false → 0 < self.now.len }
    {
        self.len < self.cells.len()
    }

    /// Returns the offset after the last byte.
    pub fn end(&self) -> u64
        ensures { result ≡ end self.now }
    {
        self.at + self.len as u64
    }

    /// Keeps another byte.
    pub fn push(&mut self, byte: u8)
        requires room { self.old.len < length self.old.cells.items }
        requires few { end self.old + 1 < 2 ^ 64 }
        ensures kept { kept self.new ≡ kept self.old ++ byte ∷ [] }
        ensures place { place self.new ≡ place self.old }
    {
        self.cells[self.len] = byte;
        self.len += 1;
    }

    /// Returns the bytes.
    pub fn bytes(&self) -> &[u8]
        ensures bytes { result.now ≡ kept self.now }
        ensures few { place self.now + length result.now < 2 ^ 64 }
    {
        &self.cells[..self.len]
    }

    /// Returns the offset of the first byte.
    pub fn place(&self) -> u64
        ensures { result ≡ place self.now }
    {
        self.at
    }

    /// Keeps none of the bytes any more, since they are in a row.
    pub fn clear(&mut self)
        ensures room { self.new.len ≡ 0 }
        ensures kept { kept self.new ≡ [] }
        ensures place { place self.new ≡ place self.old + length (kept self.old) }
    {
        self.at += self.len as u64;
        self.len = 0;
    }
}
