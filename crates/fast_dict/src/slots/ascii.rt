//! ASCII strings in the slots of a dictionary, under their own type: without checks that were already made, and with blocks that are moved
//! as a whole.

use super::{Slots, copy_into};
use crate::entry::Entry;
use fast_value::Kind;

impl Slots {
    ghost use Rattle.std.specs.Prelude.{◌≡◌, ◌≢◌, ℕ, List, ◌+◌, ◌<◌, ◌≤◌, ◌++◌, length, take, true, false, slice_index_or, vec_len, Some, None, IsTrue};
    ghost use Rattle.fast_value.specs.meaning.Kinds.{AsciiText};
    ghost use Rattle.fast_dict.specs.meaning.Dictionary.{assigned, previous_at, write_at};
    ghost use Rattle.fast_dict.specs.meaning.Operators.{with_tail};
    ghost use Rattle.fast_dict.specs.meaning.Slots.{slots_dictionary, slots_terms, text_in, HoldsAscii};

    /// Returns whether the entry holds an ASCII string of its own type, in a slot.
    #[inline(always)]
    pub fn holds_ascii(&self, entry: usize) -> bool
        requires { entry < length (slots_dictionary self.now) }
        ensures holds { result ≡ true → HoldsAscii self.now entry }
        ensures text { result ≡ true → (text : List ℕ)
            × (previous_at (Some entry) (slots_dictionary self.now) ≡ assigned Kind.Ascii (AsciiText text)) }
    {
        match self.entry(entry) {
            Entry::Ascii(_) => self.places[entry].is_some(),
            _ => false,
        }
    }

    /// Returns the ASCII string that the entry is known to hold.
    #[inline(always)]
    pub fn kept_ascii(&self, entry: usize) -> &[u8]
        requires { HoldsAscii self.now entry }
        ensures { previous_at (Some entry) (slots_dictionary self.now) ≡ assigned Kind.Ascii (AsciiText result.now) }
    {
        let Entry::Ascii(size) = self.entry(entry) else {
            unreachable!();
        };
        let Some(place) = self.places[entry] else {
            unreachable!();
        };
        &self.block[place..place + size]
    }

    /// Stores an ASCII string at an entry that can hold one.
    pub fn set_ascii(&mut self, entry: usize, text: &[u8])
        requires there { entry < length (slots_dictionary self.old) }
        requires takes { IsTrue ((slots_terms self.old).takes_text entry) }
        requires fits { length text.now ≤ (slots_terms self.old).max_text }
        ensures entry { slots_dictionary self.new ≡ write_at (Some entry)
            (assigned Kind.Ascii (AsciiText text.now)) (slots_dictionary self.old) }
        ensures holds { HoldsAscii self.new entry }
        ensures same { slots_terms self.new ≡ slots_terms self.old }
    {
        self.write_text(entry, text);
        self.put(entry, Entry::Ascii(text.len()));
    }

    /// Stores the first `count` bytes of a block as an ASCII string at an entry that can hold one. The block is moved as a whole.
    #[inline(always)]
    pub fn set_ascii_block(&mut self, entry: usize, block: &[u8], count: usize)
        requires there { entry < length (slots_dictionary self.old) }
        requires takes { IsTrue ((slots_terms self.old).takes_text entry) }
        requires room { 16 ≤ (slots_terms self.old).max_text }
        requires block { length block.now ≡ 16 }
        requires count { count ≤ 16 }
        ensures entry { slots_dictionary self.new ≡ write_at (Some entry)
            (assigned Kind.Ascii (AsciiText (take count block.now))) (slots_dictionary self.old) }
        ensures holds { HoldsAscii self.new entry }
        ensures same { slots_terms self.new ≡ slots_terms self.old }
    {
        self.write_block(entry, 0, block);
        self.put(entry, Entry::Ascii(count));
    }

    /// Stores the ASCII string that joins a tail, the first `count` bytes of a block, to the string that the entry holds. Returns `false`,
    /// with nothing changed, if the entry holds no ASCII string of its own type, or the block has no room there.
    #[inline(always)]
    pub fn set_ascii_tail(&mut self, entry: usize, block: &[u8], count: usize) -> bool
        requires there { entry < length (slots_dictionary self.old) }
        requires block { length block.now ≡ 16 }
        requires count { count ≤ 16 }
        ensures tail { result ≡ true → (base : List ℕ)
            × (previous_at (Some entry) (slots_dictionary self.old) ≡ assigned Kind.Ascii (AsciiText base))
            × (slots_dictionary self.new ≡ write_at (Some entry)
            (assigned Kind.Ascii (AsciiText (with_tail base (take count block.now)))) (slots_dictionary self.old)) }
        ensures holds { result ≡ true → HoldsAscii self.new entry }
        ensures left { result ≡ false → self.new ≡ self.old }
        ensures same { slots_terms self.new ≡ slots_terms self.old }
    {
        let Entry::Ascii(size) = self.entry(entry) else {
            return false;
        };
        let at = size.saturating_sub(count);
        if self.places[entry].is_none() || self.max_text - at < 16 {
            return false;
        }
        self.write_block(entry, at, block);
        self.put(entry, Entry::Ascii(at + count));
        true
    }

    /// Writes a block of 16 bytes into the slot of an entry. The bytes in front of it stay.
    #[inline(always)]
    fn write_block(&mut self, entry: usize, at: usize, block: &[u8])
        requires there { entry < vec_len self.old.entries }
        requires fits { at + 16 ≤ self.old.max_text }
        requires takes { IsTrue ((slots_terms self.old).takes_text entry) }
        requires block { length block.now ≡ 16 }
        ensures text { (size : ℕ) → size ≤ 16
            → text_in self.new.block.items (slice_index_or self.new.places.items entry None) (at + size)
            ≡ text_in self.old.block.items (slice_index_or self.old.places.items entry None) at
            ++ take size block.now }
        ensures others { (i size : ℕ) → i ≢ entry → size ≤ self.new.max_text
            → text_in self.new.block.items (slice_index_or self.new.places.items i None) size
            ≡ text_in self.old.block.items (slice_index_or self.old.places.items i None) size }
        ensures entries { self.new.entries ≡ self.old.entries }
        ensures places { self.new.places ≡ self.old.places }
        ensures max_text { self.new.max_text ≡ self.old.max_text }
        ensures size { vec_len self.new.block ≡ vec_len self.old.block }
    {
        if let Some(place) = self.places[entry] {
            copy_into(&mut self.block, place + at, block);
        }
    }
}
