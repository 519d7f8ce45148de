//! A buffer for bytes, such as those of a string.

ghost use Rattle.std.specs.Prelude.{◌≡◌, ◌+◌, ◌<◌, ◌≤◌, ◌==◌, [], ◌∷◌, ◌++◌, length, take, IfOk};

use std::alloc::{AllocError, Global};
use std::marker::Model;

/// Bytes in order, with room for more. It allocates memory only when it is made.
#[derive(Drop)]
pub struct Scratch {
    cells: Vec<u8>,
    len: usize,
}

impl Model for Scratch {
    ghost use Rattle.std.specs.Prelude.{◌≤◌, take, vec_len};
    ghost use Rattle.fast_units.specs.device.Scratches.{Held};

    ghost Value = { Held };

    ghost view = { λ s. record { text = take s.len s.cells.items; capacity = vec_len s.cells } };

    ghost invariant = { λ s. s.len ≤ vec_len s.cells };
}

impl Scratch {
    /// Makes an empty buffer for `capacity` bytes.
    ///
    /// # Errors
    ///
    /// An allocation failed.
    pub fn new(alloc: Global, capacity: usize) -> Result<Scratch, AllocError>
        ensures text { IfOk result (λ s. s.text ≡ []) }
        ensures capacity { IfOk result (λ s. s.capacity ≡ capacity) }
    {
        let cells = vec![in alloc; 0u8; capacity]?;
        Ok(Scratch { cells, len: 0 })
    }

    /// Returns the bytes, in order.
    #[inline]
    pub fn as_slice(&self) -> &[u8]
        ensures { result.now ≡ self.now.text }
    {
        &self.cells[..self.len]
    }

    /// Returns the number of bytes.
    #[inline]
    pub fn len(&self) -> usize
        ensures len { result ≡ length self.now.text }
        ensures within { result ≤ self.now.capacity }
    {
        self.len
    }

    /// Returns whether there are no bytes.
    #[inline]
    pub fn is_empty(&self) -> bool
        ensures { result ≡ (length self.now.text == 0) }
    {
        self.len == 0
    }

    /// Returns the number of bytes that there is room for after these.
    #[inline]
    pub fn room(&self) -> usize
        ensures { length self.now.text + result ≡ self.now.capacity }
    {
        self.cells.len() - self.len
    }

    /// Discards the bytes.
    #[inline]
    pub fn clear(&mut self)
        ensures text { self.new.text ≡ [] }
        ensures capacity { self.new.capacity ≡ self.old.capacity }
    {
        self.len = 0;
    }

    /// Appends bytes.
    #[inline]
    pub fn append(&mut self, bytes: &[u8])
        requires { length self.old.text + length bytes.now ≤ self.old.capacity }
        ensures text { self.new.text ≡ self.old.text ++ bytes.now }
        ensures capacity { self.new.capacity ≡ self.old.capacity }
    {
        let end = self.len + bytes.len();
        self.cells[self.len..end].copy_from_slice(bytes);
        self.len = end;
    }

    /// Inserts bytes before the others.
    #[inline]
    pub(crate) fn prepend(&mut self, bytes: &[u8])
        requires { length self.old.text + length bytes.now ≤ self.old.capacity }
        ensures text { self.new.text ≡ bytes.now ++ self.old.text }
        ensures capacity { self.new.capacity ≡ self.old.capacity }
    {
        let count = bytes.len();
        self.cells.copy_within(..self.len, count);
        self.cells[0..count].copy_from_slice(bytes);
        self.len += count;
    }

    /// Replaces the bytes by others.
    #[inline]
    pub(crate) fn set(&mut self, bytes: &[u8])
        requires { length bytes.now ≤ self.old.capacity }
        ensures text { self.new.text ≡ bytes.now }
        ensures capacity { self.new.capacity ≡ self.old.capacity }
    {
        self.clear();
        self.append(bytes);
    }

    /// Appends bytes, often a single one, which is written in place.
    #[inline(always)]
    pub fn keep(&mut self, bytes: &[u8])
        requires { length self.old.text + length bytes.now ≤ self.old.capacity }
        ensures text { self.new.text ≡ self.old.text ++ bytes.now }
        ensures capacity { self.new.capacity ≡ self.old.capacity }
    {
        if bytes.len() == 1 {
            self.push(bytes[0]);
        } else {
            self.append(bytes);
        }
    }

    /// Appends the first `count` bytes of a block. All 16 bytes of the block are written, which is one move, and those after the first ones
    /// are not counted.
    #[inline(always)]
    pub fn append_front(&mut self, block: &[u8], count: usize)
        requires count { count ≤ 16 }
        requires block { 16 ≤ length block.now }
        requires room { length self.old.text + 16 ≤ self.old.capacity }
        ensures text { self.new.text ≡ self.old.text ++ take count block.now }
        ensures capacity { self.new.capacity ≡ self.old.capacity }
    {
        self.append(&block[..16]);
        let end = self.len() - (16 - count);
        self.truncate(end);
    }

    /// Discards all bytes but the first `len`.
    #[inline]
    pub(crate) fn truncate(&mut self, len: usize)
        requires { len ≤ length self.old.text }
        ensures text { self.new.text ≡ take len self.old.text }
        ensures capacity { self.new.capacity ≡ self.old.capacity }
    {
        self.len = len;
    }

    /// Appends a byte.
    #[inline]
    pub fn push(&mut self, byte: u8)
        requires { length self.old.text < self.old.capacity }
        ensures text { self.new.text ≡ self.old.text ++ byte ∷ [] }
        ensures capacity { self.new.capacity ≡ self.old.capacity }
    {
        self.cells[self.len] = byte;
        self.len += 1;
    }
}
