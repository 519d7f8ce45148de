//! A dictionary in memory that is allocated at once.

mod ascii;
mod texts;

ghost use Rattle.std.specs.Prelude.{◌≡◌, ℕ, ◌+◌, ◌*◌, ◌<◌, ◌≤◌, ◌^◌, ◌-◌, ◌++◌, length, take, drop, count_by, replicate, slice_index_or, vec_len, Some, None, IfOk};
ghost use Rattle.fast_value.specs.meaning.Kinds.{text_of};
ghost use Rattle.fast_value.specs.meaning.Values.{scalar_data};
ghost use Rattle.fast_dict.specs.meaning.Entry.{text_length};
ghost use Rattle.fast_dict.specs.device.Places.{places_from};
ghost use Rattle.fast_dict.specs.declared.entry.Entry.TheVariants.{Undefined};

use crate::entry::Entry;
use crate::previous::Previous;
use crate::store::Store;
use fast_value::{Kind, Scalar};
use std::alloc::{AllocError, Global};

/// A [`Store`] that allocates all its memory when it is made: one block has a slot of the greatest length for each entry that can hold a
/// string. No later call allocates, so [`Store::set`] never fails.
#[derive(Debug, Drop)]
pub struct Slots {
    entries: Vec<Entry>,
    // the offset of each entry's slot in the block, if it has one
    places: Vec<Option<usize>>,
    block: Vec<u8>,
    max_text: usize,
    ghost paired: { vec_len places ≡ vec_len entries },
    ghost ordered: { (i j p q : ℕ) → i < j → slice_index_or places.items i None ≡ Some p
        → slice_index_or places.items j None ≡ Some q → p + max_text ≤ q },
    ghost within: { (i p : ℕ) → slice_index_or places.items i None ≡ Some p → p + max_text ≤ vec_len block },
    ghost fitting: { (i : ℕ) → text_length (slice_index_or entries.items i Undefined) ≤ max_text },
    ghost small: { vec_len block ≤ vec_len entries * max_text },
}

impl Slots {
    ghost use Rattle.std.specs.Prelude.{◌≡◌, ◌≢◌, ℕ, List, [], ◌<◌, ◌≤◌, length, false, slice_index_or, slice_set, vec_len, None, IsTrue, IfOk};
    ghost use Rattle.fast_dict.specs.meaning.Dictionary.{fresh, previous_at, write_at};
    ghost use Rattle.fast_dict.specs.meaning.Entry.{text_length, with_text};
    ghost use Rattle.fast_dict.specs.meaning.Previous.{previous_data};
    ghost use Rattle.fast_dict.specs.meaning.Slots.{slots_dictionary, slots_terms, text_in, entry_data};
    ghost use Rattle.fast_dict.specs.declared.entry.Entry.TheVariants.{Undefined};

    /// Makes a dictionary with all entries undefined: one for each mark, which says whether the entry can hold a string, of at most
    /// `max_text` bytes.
    ///
    /// # Errors
    ///
    /// An allocation failed.
    pub fn new(alloc: Global, takes_text: &[bool], max_text: usize) -> Result<Slots, AllocError>
        ensures entries { IfOk result (λ s. slots_dictionary s ≡ fresh (length takes_text.now)) }
        ensures texts { IfOk result (λ s. (e : ℕ)
            → (slots_terms s).takes_text e ≡ slice_index_or takes_text.now e false) }
        ensures max_text { IfOk result (λ s. (slots_terms s).max_text ≡ max_text) }
    {
        let count = takes_text.iter().filter(|takes| **takes).count();
        let size = count.checked_mul(max_text).ok_or(AllocError)?;
        let block = vec![in alloc; 0u8; size]?;
        let places = places_of(alloc, takes_text, max_text)?;
        let entries = vec![in alloc; Entry::Undefined; takes_text.len()]?;
        Ok(Slots {
            entries,
            places,
            block,
            max_text,
        })
    }

    /// Returns the entry without the bytes of a string. One look at the variant distinguishes a number of the field's own type from all
    /// else, which [`Store::get`] then reads.
    #[inline(always)]
    pub fn held(&self, entry: usize) -> Entry
        requires { entry < length (slots_dictionary self.now) }
        ensures { (text : List ℕ) × (with_text result text ≡ previous_at (Some entry) (slots_dictionary self.now)) }
    {
        self.entry(entry)
    }

    /// Stores a number at the entry, under the type that `held` names. Unlike [`Store::set`] it checks neither the type nor for a string.
    #[inline(always)]
    pub fn set_number(&mut self, entry: usize, held: Entry)
        requires there { entry < length (slots_dictionary self.old) }
        requires number { text_length held ≡ 0 }
        ensures entry { slots_dictionary self.new
            ≡ write_at (Some entry) (with_text held []) (slots_dictionary self.old) }
        ensures same { slots_terms self.new ≡ slots_terms self.old }
    {
        self.put(entry, held);
    }

    /// Stores a number as [`Slots::set_number`] does, at an entry that holds an integer under that type: only the number is written.
    #[inline(always)]
    pub fn change_number(&mut self, entry: usize, held: Entry)
        requires there { entry < length (slots_dictionary self.old) }
        requires number { text_length held ≡ 0 }
        ensures entry { slots_dictionary self.new
            ≡ write_at (Some entry) (with_text held []) (slots_dictionary self.old) }
        ensures same { slots_terms self.new ≡ slots_terms self.old }
    {
        self.entries[entry].change(held);
    }

    /// Returns the entry without the bytes of its string.
    #[inline(always)]
    fn entry(&self, entry: usize) -> Entry
        requires { entry < vec_len self.now.entries }
        ensures value { result ≡ slice_index_or self.now.entries.items entry Undefined }
        ensures fits { text_length result ≤ self.now.max_text }
    {
        self.entries[entry]
    }

    /// Returns the contents of the entry.
    #[inline(always)]
    fn previous(&self, entry: usize) -> Previous<'_>
        requires { entry < vec_len self.now.entries }
        ensures { previous_data result ≡ entry_data self.now.block.items
            (slice_index_or self.now.places.items entry None)
            (slice_index_or self.now.entries.items entry Undefined) }
    {
        match self.entry(entry) {
            Entry::Undefined => Previous::Undefined,
            Entry::Empty => Previous::Empty,
            Entry::UInt32(number) => Previous::Assigned(Kind::UInt32, Scalar::U(number)),
            Entry::Int32(number) => Previous::Assigned(Kind::Int32, Scalar::I(number)),
            Entry::UInt64(number) => Previous::Assigned(Kind::UInt64, Scalar::U(number)),
            Entry::Int64(number) => Previous::Assigned(Kind::Int64, Scalar::I(number)),
            Entry::Decimal(exponent, mantissa) => {
                Previous::Assigned(Kind::Decimal, Scalar::Dec { exponent, mantissa })
            }
            Entry::Ascii(size) => {
                Previous::Assigned(Kind::Ascii, Scalar::Ascii(self.text(entry, size)))
            }
            Entry::Unicode(size) => {
                Previous::Assigned(Kind::Unicode, Scalar::Unicode(self.text(entry, size)))
            }
            Entry::Bytes(size) => {
                Previous::Assigned(Kind::Bytes, Scalar::Bytes(self.text(entry, size)))
            }
            Entry::OtherUnsigned(kind, number) => Previous::Assigned(kind, Scalar::U(number)),
            Entry::OtherSigned(kind, number) => Previous::Assigned(kind, Scalar::I(number)),
            Entry::OtherDecimal(kind, exponent, mantissa) => {
                Previous::Assigned(kind, Scalar::Dec { exponent, mantissa })
            }
            Entry::OtherAscii(kind, size) => {
                Previous::Assigned(kind, Scalar::Ascii(self.text(entry, size)))
            }
            Entry::OtherUnicode(kind, size) => {
                Previous::Assigned(kind, Scalar::Unicode(self.text(entry, size)))
            }
            Entry::OtherBytes(kind, size) => {
                Previous::Assigned(kind, Scalar::Bytes(self.text(entry, size)))
            }
        }
    }

    /// Stores the entry, without the bytes of its string.
    #[inline(always)]
    fn put(&mut self, entry: usize, held: Entry)
        requires there { entry < vec_len self.old.entries }
        requires fits { text_length held ≤ self.old.max_text }
        ensures entries { self.new.entries.items ≡ slice_set self.old.entries.items entry held }
        ensures places { self.new.places ≡ self.old.places }
        ensures block { self.new.block ≡ self.old.block }
        ensures max_text { self.new.max_text ≡ self.old.max_text }
    {
        self.entries[entry] = held;
    }

    /// Returns the string of an entry, which has `size` bytes.
    fn text(&self, entry: usize, size: usize) -> &[u8]
        requires there { entry < vec_len self.now.entries }
        requires fits { size ≤ self.now.max_text }
        ensures { result.now ≡ text_in self.now.block.items (slice_index_or self.now.places.items entry None) size }
    {
        match self.places[entry] {
            Some(place) => &self.block[place..place + size],
            None => &[],
        }
    }

    /// Writes a string into the slot of an entry.
    #[inline(always)]
    fn write_text(&mut self, entry: usize, text: &[u8])
        requires there { entry < vec_len self.old.entries }
        requires fits { length text.now ≤ self.old.max_text }
        requires takes { 0 < length text.now → IsTrue ((slots_terms self.old).takes_text entry) }
        ensures text { text_in self.new.block.items (slice_index_or self.new.places.items entry None) (length text.now)
            ≡ text.now }
        ensures others { (i size : ℕ) → i ≢ entry → size ≤ self.new.max_text
            → text_in self.new.block.items (slice_index_or self.new.places.items i None) size
            ≡ text_in self.old.block.items (slice_index_or self.old.places.items i None) size }
        ensures entries { self.new.entries ≡ self.old.entries }
        ensures places { self.new.places ≡ self.old.places }
        ensures max_text { self.new.max_text ≡ self.old.max_text }
        ensures size { vec_len self.new.block ≡ vec_len self.old.block }
    {
        if text.is_empty() {
            return;
        }
        if let Some(place) = self.places[entry] {
            copy_into(&mut self.block, place, text);
        }
    }
}

impl Store for Slots {
    ghost use Rattle.fast_dict.specs.meaning.Slots.{slots_dictionary, slots_terms, slots_units, slots_bounded};

    ghost dictionary = { slots_dictionary };

    ghost terms = { slots_terms };

    ghost units = { slots_units };

    ghost bounded = { slots_bounded };

    #[inline]
    fn entries(&self) -> usize {
        self.entries.len()
    }

    #[inline]
    fn max_text(&self) -> usize {
        self.max_text
    }

    #[inline]
    fn takes_text(&self, entry: usize) -> bool {
        self.places[entry].is_some()
    }

    #[inline]
    fn can_refuse(&self) -> bool {
        false
    }

    #[inline(always)]
    fn get(&self, entry: usize) -> Previous<'_> {
        self.previous(entry)
    }

    #[inline(always)]
    fn set(&mut self, entry: usize, kind: Kind, scalar: Scalar<'_>) -> Result<(), AllocError> {
        self.write_text(entry, bytes_of(scalar));
        self.put(entry, Entry::of(kind, scalar));
        Ok(())
    }

    #[inline(always)]
    fn set_empty(&mut self, entry: usize) {
        self.put(entry, Entry::Empty);
    }

    fn reset(&mut self) {
        if !self.entries.is_empty() {
            clear_others(&mut self.entries);
        }
    }

    fn reset_all(&mut self) {
        clear_all(&mut self.entries);
    }
}

/// Returns the bytes of a string, none of a number.
#[inline(always)]
fn bytes_of(scalar: Scalar<'_>) -> &[u8]
    ensures { result.now ≡ text_of (scalar_data scalar.entry) }
{
    match scalar {
        Scalar::U(_) | Scalar::I(_) | Scalar::Dec { .. } => &[],
        Scalar::Ascii(text) | Scalar::Unicode(text) | Scalar::Bytes(text) => text,
    }
}

/// Makes entries undefined.
fn clear(entries: &mut [Entry])
    ensures { entries.new ≡ replicate (length entries.old) Undefined }
{
    for entry in entries.iter_mut() {
        *entry = Entry::Undefined;
    }
}

/// Makes all entries undefined.
fn clear_all(entries: &mut Vec<Entry>)
    ensures items { entries.new.items ≡ replicate (vec_len entries.old) Undefined }
    ensures len { vec_len entries.new ≡ vec_len entries.old }
{
    clear(entries);
}

/// Makes all entries but the first undefined.
fn clear_others(entries: &mut Vec<Entry>)
    requires { 0 < vec_len entries.old }
    ensures items { entries.new.items ≡ take 1 entries.old.items ++ replicate (vec_len entries.old - 1) Undefined }
    ensures len { vec_len entries.new ≡ vec_len entries.old }
{
    clear(&mut entries[1..]);
}

/// Returns the offsets of slots of `size` bytes, one after the other, one for each mark that is set.
fn places_of(alloc: Global, marks: &[bool], size: usize) -> Result<Vec<Option<usize>>, AllocError>
    requires { count_by (λ b. b) marks.now * size < 2 ^ 64 }
    ensures items { IfOk result (λ v. v.items ≡ places_from size 0 marks.now) }
    ensures len { IfOk result (λ v. vec_len v ≡ length marks.now) }
{
    let mut places = Vec::with_capacity(alloc, marks.len())?;
    let mut next = 0;
    for mark in marks {
        if *mark {
            places.push(Some(next))?;
            next += size;
        } else {
            places.push(None)?;
        }
    }
    Ok(places)
}

/// Writes the string into the block at the offset.
#[inline(always)]
fn copy_into(block: &mut Vec<u8>, place: usize, text: &[u8])
    requires { place + length text.now ≤ vec_len block.old }
    ensures items { block.new.items ≡ take place block.old.items ++ text.now
        ++ drop (place + length text.now) block.old.items }
    ensures len { vec_len block.new ≡ vec_len block.old }
{
    block[place..place + text.len()].copy_from_slice(text);
}
