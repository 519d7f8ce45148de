//! The draft of a message that is being encoded.

ghost use Rattle.std.specs.Prelude.{◌≡◌, ◌≤◌, ◌∷◌, ◌++◌, [], true, if◌then◌else◌, take, drop, vec_len, length, ◌+◌, ◌<◌, IfOk, OnOk, IfErr};
ghost use Rattle.fast_spelling.specs.declared.faults.EncodeFault.TheVariants.{E3};
ghost use Rattle.fast_spelling.specs.device.Drafts.{IsTold, Closes};
ghost use Rattle.fast_spelling.specs.meaning.Refusals.{HaveNoMap};

use crate::bits::Bits;
use crate::faults::EncodeFault;
use std::alloc::{AllocError, Global};

/// The bytes of a message so far, and the presence bits of its open segments.
#[derive(Drop)]
pub struct Draft {
    /// The bytes of all segments that are complete, without the presence maps of open segments.
    pub bytes: Vec<u8>,
    /// The presence bits of the open segments, the outermost one's first.
    pub bits: Bits,
    /// Memory in which bits are put in a row for a map of more than two bytes.
    scratch: Vec<bool>,
}

/// The position in a draft at which a segment begins.
#[derive(Clone, Copy)]
pub struct Mark {
    /// The number of bytes before it.
    pub bytes: usize,
    /// The number of presence bits before it, of the segments around it.
    pub bits: usize,
}

impl Draft {
    /// Makes an empty draft.
    pub fn new(alloc: Global) -> Draft
        ensures bytes { result.bytes.items ≡ [] }
        ensures bits { result.bits ≡ [] }
    {
        Draft {
            bytes: Vec::new(alloc),
            bits: Bits::new(alloc),
            scratch: Vec::new(alloc),
        }
    }

    /// Empties the draft, which keeps its memory.
    pub fn clear(&mut self)
        ensures bytes { self.new.bytes.items ≡ [] }
        ensures bits { self.new.bits ≡ [] }
    {
        self.bytes.clear();
        self.bits.clear();
    }

    /// Begins a message: the draft has no bits, and one byte, which is reserved for the presence map.
    ///
    /// # Errors
    ///
    /// An allocation failed.
    #[inline(always)]
    pub fn begin(&mut self) -> Result<(), AllocError>
        ensures bytes { OnOk result (self.new.bytes.items ≡ 0 ∷ []) }
        ensures bits { OnOk result (self.new.bits ≡ []) }
    {
        self.clear();
        self.bytes.push(0)?;
        Ok(())
    }

    /// Ends a message: the presence map of its bits replaces the reserved byte.
    ///
    /// # Errors
    ///
    /// E3 if the bits do not fit in a presence map; `Memory` if an allocation failed.
    #[inline(always)]
    pub fn finish(&mut self) -> Result<(), EncodeFault>
        requires { 1 ≤ vec_len self.old.bytes }
        ensures { OnOk result (Closes true [] (drop 1 self.old.bytes.items) self.old.bits self.new.bytes.items) }
    {
        put_kept_map(
            &mut self.bytes,
            Mark { bytes: 0, bits: 0 },
            &self.bits,
            &mut self.scratch,
        )
    }

    /// Begins a segment, and reserves a byte for its presence map if it has one.
    ///
    /// # Errors
    ///
    /// An allocation failed.
    #[inline(always)]
    pub fn open(&mut self, has_map: bool) -> Result<Mark, AllocError>
        ensures mark { IfOk result (λ m. (m.bytes ≡ vec_len self.old.bytes) × (m.bits ≡ length self.old.bits)) }
        ensures bytes { OnOk result
            (self.new.bytes.items ≡ self.old.bytes.items ++ (if has_map then 0 ∷ [] else [])) }
        ensures bits { self.new.bits ≡ self.old.bits }
    {
        let mark = self.mark();
        if has_map {
            self.bytes.push(0)?;
        }
        Ok(mark)
    }

    /// Ends the segment that was opened at the mark: the presence map of its bits, if it has one, replaces the reserved byte.
    ///
    /// # Errors
    ///
    /// E3 if the bits do not fit in a presence map; `Memory` if an allocation failed.
    #[inline(always)]
    pub fn seal(&mut self, mark: Mark, has_map: bool) -> Result<(), EncodeFault>
        requires bytes { mark.bytes + (if has_map then 1 else 0) ≤ vec_len self.old.bytes }
        requires bits { mark.bits ≤ length self.old.bits }
        ensures ok { OnOk result
            (Closes has_map (take mark.bytes self.old.bytes.items)
            (drop (mark.bytes + (if has_map then 1 else 0)) self.old.bytes.items)
            (drop mark.bits self.old.bits) self.new.bytes.items) }
        ensures bits { OnOk result (self.new.bits ≡ take mark.bits self.old.bits) }
    {
        if has_map {
            put_kept_map(&mut self.bytes, mark, &self.bits, &mut self.scratch)?;
        }
        self.bits.truncate(mark.bits);
        Ok(())
    }

    /// Appends a presence bit of the innermost segment.
    ///
    /// # Errors
    ///
    /// An allocation failed.
    #[inline(always)]
    pub fn push_bit(&mut self, bit: bool) -> Result<(), AllocError>
        ensures bits { OnOk result (self.new.bits ≡ self.old.bits ++ bit ∷ []) }
        ensures bytes { self.new.bytes.items ≡ self.old.bytes.items }
    {
        self.bits.push(bit)
    }

    /// Appends a presence bit if `used`, else nothing.
    ///
    /// # Errors
    ///
    /// An allocation failed.
    #[inline(always)]
    pub fn push_bit_if(&mut self, used: bool, bit: bool) -> Result<(), AllocError>
        ensures bits { OnOk result (self.new.bits ≡ self.old.bits ++ (if used then bit ∷ [] else [])) }
        ensures bytes { self.new.bytes.items ≡ self.old.bytes.items }
    {
        if used {
            return self.push_bit(bit);
        }
        Ok(())
    }

    /// Returns the position of a segment that begins here.
    #[inline(always)]
    pub fn mark(&self) -> Mark
        ensures { (result.bytes ≡ vec_len self.now.bytes) × (result.bits ≡ length self.now.bits) }
    {
        Mark {
            bytes: self.bytes.len(),
            bits: self.bits.len(),
        }
    }

    /// Ends the segment that began at the mark: the presence map of its bits, if it has one, is inserted before its bytes.
    ///
    /// # Errors
    ///
    /// E3 if the bits do not fit in a presence map; `Memory` if an allocation failed.
    #[inline(always)]
    pub fn close(&mut self, mark: Mark, has_map: bool) -> Result<(), EncodeFault>
        requires bytes { mark.bytes ≤ vec_len self.old.bytes }
        requires bits { mark.bits ≤ length self.old.bits }
        ensures ok { OnOk result
            (Closes has_map (take mark.bytes self.old.bytes.items) (drop mark.bytes self.old.bytes.items)
            (drop mark.bits self.old.bits) self.new.bytes.items) }
        ensures bits { OnOk result (self.new.bits ≡ take mark.bits self.old.bits) }
        ensures err { IfErr result
            (IsTold (λ c. (c ≡ E3) × (has_map ≡ true) × HaveNoMap (drop mark.bits self.old.bits))) }
    {
        if has_map {
            put_map(&mut self.bytes, mark, &self.bits, &mut self.scratch)?;
        }
        self.bits.truncate(mark.bits);
        Ok(())
    }
}

/// Inserts the shortest presence map of the bits after a mark at its position.
///
/// # Errors
///
/// E3 if the bits do not fit in a presence map; `Memory` if an allocation failed.
#[inline(always)]
fn put_map(
    bytes: &mut Vec<u8>,
    mark: Mark,
    presence: &Bits,
    scratch: &mut Vec<bool>,
) -> Result<(), EncodeFault>
    requires place { mark.bytes ≤ vec_len bytes.old }
    requires bits { mark.bits ≤ length presence.now }
    ensures ok { OnOk result
        (Closes true (take mark.bytes bytes.old.items) (drop mark.bytes bytes.old.items) (drop mark.bits presence.now)
        bytes.new.items) }
    ensures err { IfErr result (IsTold (λ c. (c ≡ E3) × HaveNoMap (drop mark.bits presence.now))) }
{
    match presence.as_byte(mark.bits) {
        Some(byte) => insert(bytes, mark.bytes, &[byte])?,
        None => match presence.as_map(mark.bits, scratch)? {
            Some(map) => insert(bytes, mark.bytes, map.as_slice())?,
            None => return Err(EncodeFault::E3),
        },
    }
    Ok(())
}

/// Replaces the byte at a mark by the shortest presence map of the bits after it.
///
/// # Errors
///
/// E3 if the bits do not fit in a presence map; `Memory` if an allocation failed.
#[inline(always)]
fn put_kept_map(
    bytes: &mut Vec<u8>,
    mark: Mark,
    presence: &Bits,
    scratch: &mut Vec<bool>,
) -> Result<(), EncodeFault>
    requires place { mark.bytes < vec_len bytes.old }
    requires bits { mark.bits ≤ length presence.now }
    ensures { OnOk result
        (Closes true (take mark.bytes bytes.old.items) (drop (mark.bytes + 1) bytes.old.items)
        (drop mark.bits presence.now) bytes.new.items) }
{
    match presence.as_byte(mark.bits) {
        Some(byte) => {
            bytes[mark.bytes] = byte;
            Ok(())
        }
        None => put_wide_map(bytes, mark, presence, scratch),
    }
}

/// Replaces the byte at a mark by the shortest presence map of the bits after it, which usually has two bytes.
fn put_wide_map(
    bytes: &mut Vec<u8>,
    mark: Mark,
    presence: &Bits,
    scratch: &mut Vec<bool>,
) -> Result<(), EncodeFault>
    requires place { mark.bytes < vec_len bytes.old }
    requires bits { mark.bits ≤ length presence.now }
    ensures { OnOk result
        (Closes true (take mark.bytes bytes.old.items) (drop (mark.bytes + 1) bytes.old.items)
        (drop mark.bits presence.now) bytes.new.items) }
{
    match presence.as_pair(mark.bits) {
        Some(pair) => {
            bytes[mark.bytes] = pair.0;
            insert(bytes, mark.bytes + 1, &[pair.1])?;
            Ok(())
        }
        None => widen(bytes, mark, presence, scratch),
    }
}

/// Replaces the byte at a mark by the shortest presence map of the bits after it, of more than one byte.
#[cold]
fn widen(
    bytes: &mut Vec<u8>,
    mark: Mark,
    presence: &Bits,
    scratch: &mut Vec<bool>,
) -> Result<(), EncodeFault>
    requires place { mark.bytes < vec_len bytes.old }
    requires bits { mark.bits ≤ length presence.now }
    ensures { OnOk result
        (Closes true (take mark.bytes bytes.old.items) (drop (mark.bytes + 1) bytes.old.items)
        (drop mark.bits presence.now) bytes.new.items) }
{
    let _ = bytes.remove(mark.bytes);
    match presence.as_map(mark.bits, scratch)? {
        Some(map) => Ok(insert(bytes, mark.bytes, map.as_slice())?),
        None => Err(EncodeFault::E3),
    }
}

/// Inserts a piece at an offset (`place`).
#[inline(always)]
fn insert(bytes: &mut Vec<u8>, place: usize, piece: &[u8]) -> Result<(), AllocError>
    requires { place ≤ vec_len bytes.old }
    ensures { OnOk result (bytes.new.items ≡ take place bytes.old.items ++ piece.now ++ drop place bytes.old.items) }
{
    for (i, byte) in piece.iter().enumerate() {
        bytes.insert(place + i, *byte)?;
    }
    Ok(())
}
