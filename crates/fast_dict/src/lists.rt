//! A dictionary that grows.

ghost use Rattle.std.specs.Prelude.{◌≡◌, ℕ, ◌-◌, ◌<◌, ◌≤◌, ◌++◌, map, take, replicate, length, slice_index_or, vec_len, IfOk};
ghost use Rattle.fast_dict.specs.meaning.Held.{held_data, text_size};
ghost use Rattle.fast_dict.specs.declared.held.Held.TheVariants.{Undefined};

use crate::held::{Held, owned};
use crate::previous::Previous;
use crate::store::Store;
use fast_value::{Kind, Scalar};
use std::alloc::{AllocError, Global};

/// A [`Store`] in which each string has memory of its own, so that a [`Store::set`] of a string allocates. Any entry can hold a string.
#[derive(Debug, Drop)]
pub struct Lists {
    entries: Vec<Held>,
    max_text: usize,
    ghost fitting: { (i : ℕ) → text_size (held_data (slice_index_or entries.items i Undefined)) ≤ max_text },
}

impl Lists {
    ghost use Rattle.std.specs.Prelude.{◌≡◌, IfOk};
    ghost use Rattle.fast_dict.specs.meaning.Dictionary.{fresh};
    ghost use Rattle.fast_dict.specs.meaning.Lists.{lists_dictionary, lists_terms};

    /// Makes a dictionary of `entries` entries, all undefined, for strings of at most `max_text` bytes.
    ///
    /// # Errors
    ///
    /// An allocation failed.
    pub fn new(alloc: Global, entries: usize, max_text: usize) -> Result<Lists, AllocError>
        ensures entries { IfOk result (λ s. lists_dictionary s ≡ fresh entries) }
        ensures max_text { IfOk result (λ s. (lists_terms s).max_text ≡ max_text) }
    {
        Ok(Lists {
            entries: undefined_entries(alloc, entries)?,
            max_text,
        })
    }

    /// Copies the dictionary.
    ///
    /// # Errors
    ///
    /// An allocation failed.
    pub fn copy(&self) -> Result<Lists, AllocError>
        ensures entries { IfOk result (λ s. lists_dictionary s ≡ lists_dictionary self.now) }
        ensures terms { IfOk result (λ s. lists_terms s ≡ lists_terms self.now) }
    {
        Ok(Lists {
            entries: copied_entries(*self.entries.allocator(), &self.entries)?,
            max_text: self.max_text,
        })
    }
}

impl Store for Lists {
    ghost use Rattle.fast_dict.specs.meaning.Lists.{lists_dictionary, lists_terms, lists_units, lists_bounded};

    ghost dictionary = { lists_dictionary };

    ghost terms = { lists_terms };

    ghost units = { lists_units };

    ghost bounded = { lists_bounded };

    fn entries(&self) -> usize {
        self.entries.len()
    }

    fn max_text(&self) -> usize {
        self.max_text
    }

    fn takes_text(&self, entry: usize) -> bool {
        let _ = entry;
        true
    }

    fn can_refuse(&self) -> bool {
        true
    }

    fn get(&self, entry: usize) -> Previous<'_> {
        self.entries[entry].as_previous()
    }

    fn set(&mut self, entry: usize, kind: Kind, scalar: Scalar<'_>) -> Result<(), AllocError> {
        let value = owned(*self.entries.allocator(), scalar)?;
        self.entries[entry] = Held::Assigned(kind, value);
        Ok(())
    }

    fn set_empty(&mut self, entry: usize) {
        self.entries[entry] = Held::Empty;
    }

    fn reset(&mut self) {
        if !self.entries.is_empty() {
            clear_others(&mut self.entries);
        }
    }

    fn reset_all(&mut self) {
        clear_all(&mut self.entries);
    }
}

/// Returns `count` entries, all undefined.
fn undefined_entries(alloc: Global, count: usize) -> Result<Vec<Held>, AllocError>
    ensures { IfOk result (λ v. v.items ≡ replicate count Undefined) }
{
    let mut entries = Vec::with_capacity(alloc, count)?;
    for _ in 0..count {
        entries.push(Held::Undefined)?;
    }
    Ok(entries)
}

/// Copies entries, with strings in memory of their own.
fn copied_entries(alloc: Global, entries: &[Held]) -> Result<Vec<Held>, AllocError>
    ensures { IfOk result (λ v. map held_data v.items ≡ map held_data entries.now) }
{
    let mut copies = Vec::with_capacity(alloc, entries.len())?;
    for held in entries {
        copies.push(held.copy(alloc)?)?;
    }
    Ok(copies)
}

/// Makes entries undefined.
fn clear(entries: &mut [Held])
    ensures { entries.new ≡ replicate (length entries.old) Undefined }
{
    for held in entries.iter_mut() {
        *held = Held::Undefined;
    }
}

/// Makes all entries undefined.
fn clear_all(entries: &mut Vec<Held>)
    ensures items { entries.new.items ≡ replicate (vec_len entries.old) Undefined }
    ensures len { vec_len entries.new ≡ vec_len entries.old }
{
    clear(entries);
}

/// Makes all entries but the first undefined.
fn clear_others(entries: &mut Vec<Held>)
    requires { 0 < vec_len entries.old }
    ensures items { entries.new.items ≡ take 1 entries.old.items ++ replicate (vec_len entries.old - 1) Undefined }
    ensures len { vec_len entries.new ≡ vec_len entries.old }
{
    clear(&mut entries[1..]);
}
