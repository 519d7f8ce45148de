//! The presence bits of the segments that are being encoded.

ghost use Rattle.std.specs.Prelude.{◌≡◌, ◌≤◌, ◌<◌, ◌+◌, ◌^◌, ◌∷◌, ◌++◌, [], true, length, take, drop, IfSome, IfNone, OnOk, IfOk};
ghost use Rattle.fast_wire.specs.meaning.Maps.{bits, IsMap};
ghost use Rattle.fast_spelling.specs.device.Presence.{bits_after, low_bits};
ghost use Rattle.fast_spelling.specs.meaning.Encoding.{SameBits};
ghost use Rattle.fast_spelling.specs.meaning.Refusals.{HaveNoMap};

use arrayvec::ArrayVec;
use fast_wire::{MAP_LIMIT, MapBuilder};
use std::alloc::{AllocError, Global};
use std::marker::Model;

/// The presence bits of all open segments, an outer segment's before those of the segments in it. The latest of them, most often all, are in
/// one word.
#[derive(Drop)]
pub struct Bits {
    /// The latest bits, at most 63, after a bit that is set: the last one is the least significant.
    word: u64,
    /// The bits before them.
    more: Vec<bool>,
}

impl Model for Bits {
    ghost use Rattle.std.specs.Prelude.{◌++◌, ◌≤◌, Bool, List};
    ghost use Rattle.fast_spelling.specs.device.Presence.{bits_after};

    ghost Value = { List Bool };

    ghost view = { λ s. s.more.items ++ bits_after s.word };

    ghost invariant = { λ s. record { marked : 1 ≤ s.word } };
}

/// The word without bits.
const NO_BITS: u64 = 1;

/// The least word that has no room for another bit.
const FULL: u64 = 1 << 63;

/// The greatest number of bits in a presence map.
const MOST_BITS: usize = 7 * MAP_LIMIT;

impl Bits {
    /// Makes an empty list of bits.
    #[inline(always)]
    pub fn new(alloc: Global) -> Bits
        ensures { result ≡ [] }
    {
        Bits {
            word: NO_BITS,
            more: Vec::new(alloc),
        }
    }

    /// Removes all bits, and keeps the memory.
    #[inline(always)]
    pub fn clear(&mut self)
        ensures { self.new ≡ [] }
    {
        self.word = NO_BITS;
        self.more.clear();
    }

    /// Appends a bit.
    ///
    /// # Errors
    ///
    /// An allocation failed.
    #[inline(always)]
    pub fn push(&mut self, bit: bool) -> Result<(), AllocError>
        ensures { OnOk result (self.new ≡ self.old ++ bit ∷ []) }
    {
        if self.word >= FULL {
            spill(self.word, &mut self.more)?;
            self.word = NO_BITS;
        }
        self.word = with_bit(self.word, bit);
        Ok(())
    }

    /// Returns the number of bits.
    #[inline(always)]
    pub fn len(&self) -> usize
        ensures { result ≡ length self.now }
    {
        self.more.len() + count_of(self.word)
    }

    /// Keeps the first `len` bits.
    #[inline(always)]
    pub fn truncate(&mut self, len: usize)
        requires { len ≤ length self.old }
        ensures { self.new ≡ take len self.old }
    {
        if len >= self.more.len() {
            self.word = first_of(self.word, len - self.more.len());
        } else {
            self.more.truncate(len);
            self.word = NO_BITS;
        }
    }

    /// Returns the presence map of the bits from an index on, if one byte is enough, and these bits are all in the word.
    #[inline(always)]
    pub fn as_byte(&self, from: usize) -> Option<u8>
        requires { from ≤ length self.now }
        ensures map { IfSome result (λ byte. IsMap true (byte ∷ [])) }
        ensures bits { IfSome result (λ byte. SameBits (bits (byte ∷ [])) (drop from self.now)) }
    {
        if from < self.more.len() {
            return None;
        }
        byte_of(self.word, from - self.more.len())
    }

    /// Returns the presence map of the bits from an index on, if two bytes are the shortest one, and these bits are all in the word.
    #[inline(always)]
    pub fn as_pair(&self, from: usize) -> Option<(u8, u8)>
        requires { from ≤ length self.now }
        ensures map { IfSome result (λ pair. IsMap true (pair.0 ∷ pair.1 ∷ [])) }
        ensures bits { IfSome result (λ pair. SameBits (bits (pair.0 ∷ pair.1 ∷ [])) (drop from self.now)) }
    {
        if from < self.more.len() {
            return None;
        }
        pair_of(self.word, from - self.more.len())
    }

    /// Returns the shortest presence map of the bits from an index on, if there is one. It overwrites `scratch`, whose memory is kept from one
    /// map to the next.
    ///
    /// # Errors
    ///
    /// An allocation failed.
    pub fn as_map(
        &self,
        from: usize,
        scratch: &mut Vec<bool>,
    ) -> Result<Option<ArrayVec<u8, MAP_LIMIT>>, AllocError>
        requires { from ≤ length self.now }
        ensures map { IfOk result (λ r. IfSome r (λ m. IsMap true m.items)) }
        ensures bits { IfOk result (λ r. IfSome r (λ m. SameBits (bits m.items) (drop from self.now))) }
        ensures none { IfOk result (λ r. IfNone r (HaveNoMap (drop from self.now))) }
    {
        scratch.clear();
        scratch.extend_from_slice(&self.more)?;
        spill(self.word, scratch)?;
        Ok(map_of(&scratch[from..]))
    }
}

/// Returns the word with one bit more.
#[inline(always)]
fn with_bit(word: u64, bit: bool) -> u64
    requires some { 1 ≤ word }
    requires room { word < 2 ^ 63 }
    ensures marked { 1 ≤ result }
    ensures bits { bits_after result ≡ bits_after word ++ bit ∷ [] }
{
    if bit {
        return word * 2 + 1;
    }
    word * 2
}

/// Returns the number of bits in the word.
#[inline(always)]
fn count_of(word: u64) -> usize
    requires { 1 ≤ word }
    ensures { result ≡ length (bits_after word) }
{
    63 - word.leading_zeros() as usize
}

/// Returns the word with its first `count` bits.
#[inline(always)]
fn first_of(word: u64, count: usize) -> u64
    requires some { 1 ≤ word }
    requires few { count ≤ length (bits_after word) }
    ensures marked { 1 ≤ result }
    ensures bits { bits_after result ≡ take count (bits_after word) }
{
    word >> (63 - (word.leading_zeros() as usize + count))
}

/// Appends the bits of the word to the vector.
#[cold]
fn spill(word: u64, more: &mut Vec<bool>) -> Result<(), AllocError>
    requires { 1 ≤ word }
    ensures { OnOk result (more.new.items ≡ more.old.items ++ bits_after word) }
{
    let count = 63 - word.leading_zeros();
    for i in 0..count {
        more.push((word >> (count - 1 - i)) % 2 == 1)?;
    }
    Ok(())
}

/// Returns the presence map of the bits of a word from an index on, if one byte is enough.
#[inline(always)]
fn byte_of(word: u64, from: usize) -> Option<u8>
    requires some { 1 ≤ word }
    requires few { from ≤ length (bits_after word) }
    ensures map { IfSome result (λ byte. IsMap true (byte ∷ [])) }
    ensures bits { IfSome result (λ byte. SameBits (bits (byte ∷ [])) (drop from (bits_after word))) }
{
    let top = top_of(word, from);
    if top << 7 != 0 {
        return None;
    }
    Some((top >> 57) as u8 | 0x80)
}

/// Returns the presence map of the bits of a word from an index on, if two bytes are the shortest one.
#[inline(always)]
fn pair_of(word: u64, from: usize) -> Option<(u8, u8)>
    requires some { 1 ≤ word }
    requires few { from ≤ length (bits_after word) }
    ensures map { IfSome result (λ pair. IsMap true (pair.0 ∷ pair.1 ∷ [])) }
    ensures bits { IfSome result (λ pair. SameBits (bits (pair.0 ∷ pair.1 ∷ [])) (drop from (bits_after word))) }
{
    let top = top_of(word, from);
    if top << 7 == 0 || top << 14 != 0 {
        return None;
    }
    Some(((top >> 57) as u8, (top << 7 >> 57) as u8 | 0x80))
}

/// Returns the bits of a word from an index on, from the most significant bit of the result on.
#[inline(always)]
fn top_of(word: u64, from: usize) -> u64
    requires some { 1 ≤ word }
    requires few { from ≤ length (bits_after word) }
    ensures { SameBits (low_bits 64 result) (drop from (bits_after word)) }
{
    (word << (word.leading_zeros() as usize + from)) << 1
}

/// Returns the shortest presence map of the bits, if there is one.
fn map_of(presence: &[bool]) -> Option<ArrayVec<u8, MAP_LIMIT>>
    ensures map { IfSome result (λ m. IsMap true m.items) }
    ensures bits { IfSome result (λ m. SameBits (bits m.items) presence.now) }
    ensures none { IfNone result (HaveNoMap presence.now) }
{
    let mut map = MapBuilder::new();
    for (i, bit) in presence.iter().enumerate() {
        if *bit {
            if i >= MOST_BITS {
                return None;
            }
            map.set(i);
        }
    }
    Some(map.finish())
}
