//! Strings that change in their slots.

ghost use Rattle.std.specs.Prelude.{◌≡◌, ◌≢◌, ◌+◌, ◌<◌, ◌≤◌, ◌++◌, ℕ, List, length, take, slice_index_or, vec_len, IsTrue, None, IfSome};
ghost use Rattle.fast_value.specs.meaning.Kinds.{family, texts, value_of_text};
ghost use Rattle.fast_dict.specs.meaning.Entry.{text_length, with_text};
ghost use Rattle.fast_dict.specs.meaning.Dictionary.{assigned, previous_at, write_at};
ghost use Rattle.fast_dict.specs.meaning.Slots.{slots_dictionary, slots_terms, text_in};

use super::{Slots, copy_into};
use crate::entry::Entry;
use fast_value::Kind;

impl Slots {
    ghost use Rattle.std.specs.Prelude.{◌≡◌, ◌≢◌, ◌+◌, ◌<◌, ◌≤◌, ◌++◌, ℕ, List, length, take, slice_index_or, vec_len, IsTrue, Some, None, IfSome};
    ghost use Rattle.fast_value.specs.meaning.Kinds.{family, texts, value_of_text};
    ghost use Rattle.fast_dict.specs.meaning.Dictionary.{assigned, previous_at, write_at};
    ghost use Rattle.fast_dict.specs.meaning.Slots.{slots_dictionary, slots_terms, text_in};

    /// Returns the string that the entry holds in its slot, if it is one of this type.
    #[inline(always)]
    pub fn own_text(&self, entry: usize, kind: Kind) -> Option<&[u8]>
        requires { entry < length (slots_dictionary self.now) }
        ensures held { IfSome result (λ text. previous_at (Some entry) (slots_dictionary self.now)
            ≡ assigned kind (value_of_text kind text.now)) }
        ensures fits { IfSome result (λ text. length text.now ≤ (slots_terms self.now).max_text) }
        ensures takes { IfSome result (λ _. IsTrue ((slots_terms self.now).takes_text entry)) }
    {
        let size = size_under(kind, self.entry(entry))?;
        let place = self.places[entry]?;
        Some(&self.block[place..place + size])
    }

    /// Writes bytes after the first `keep` ones of the string that the entry holds, which then ends with them.
    #[inline(always)]
    pub fn extend_text(&mut self, entry: usize, kind: Kind, keep: usize, part: &[u8])
        requires there { entry < length (slots_dictionary self.old) }
        requires takes { IsTrue ((slots_terms self.old).takes_text entry) }
        requires kind { family kind ≡ texts }
        requires fits { keep + length part.now ≤ (slots_terms self.old).max_text }
        ensures entry { (text : List ℕ)
            → previous_at (Some entry) (slots_dictionary self.old) ≡ assigned kind (value_of_text kind text)
            → keep ≤ length text → slots_dictionary self.new
            ≡ write_at (Some entry) (assigned kind (value_of_text kind (take keep text ++ part.now)))
            (slots_dictionary self.old) }
        ensures same { slots_terms self.new ≡ slots_terms self.old }
    {
        self.write_behind(entry, keep, part);
        self.put(entry, entry_of(kind, keep + part.len()));
    }

    /// Writes bytes into the slot of an entry, after the first `keep` ones.
    #[inline(always)]
    fn write_behind(&mut self, entry: usize, keep: usize, part: &[u8])
        requires there { entry < vec_len self.old.entries }
        requires takes { IsTrue ((slots_terms self.old).takes_text entry) }
        requires fits { keep + length part.now ≤ self.old.max_text }
        ensures text { text_in self.new.block.items (slice_index_or self.new.places.items entry None)
            (keep + length part.now)
            ≡ text_in self.old.block.items (slice_index_or self.old.places.items entry None) keep ++ part.now }
        ensures others { (i size : ℕ) → i ≢ entry → size ≤ self.new.max_text
            → text_in self.new.block.items (slice_index_or self.new.places.items i None) size
            ≡ text_in self.old.block.items (slice_index_or self.old.places.items i None) size }
        ensures entries { self.new.entries ≡ self.old.entries }
        ensures places { self.new.places ≡ self.old.places }
        ensures max_text { self.new.max_text ≡ self.old.max_text }
        ensures size { vec_len self.new.block ≡ vec_len self.old.block }
    {
        if let Some(place) = self.places[entry] {
            copy_into(&mut self.block, place + keep, part);
        }
    }
}

/// Returns the length of a string under this type.
#[inline(always)]
fn size_under(kind: Kind, held: Entry) -> Option<usize>
    ensures { IfSome result (λ n. (text_length held ≡ n)
        × ((text : List ℕ) → with_text held text ≡ assigned kind (value_of_text kind text))) }
{
    match (kind, held) {
        (Kind::Ascii, Entry::Ascii(size)) => Some(size),
        (Kind::Unicode, Entry::Unicode(size)) => Some(size),
        (Kind::Bytes, Entry::Bytes(size)) => Some(size),
        _ => None,
    }
}

/// Returns the entry of a string under its own type.
#[inline(always)]
fn entry_of(kind: Kind, size: usize) -> Entry
    requires { family kind ≡ texts }
    ensures value { (text : List ℕ) → with_text result text ≡ assigned kind (value_of_text kind text) }
    ensures size { text_length result ≡ size }
{
    match kind {
        Kind::Unicode => Entry::Unicode(size),
        Kind::Bytes => Entry::Bytes(size),
        _ => Entry::Ascii(size),
    }
}
