//! The encoder's dictionary. The changes of a message can be undone, which allocates nothing.

ghost use Rattle.std.specs.Prelude.{◌≡◌, ◌<◌, ◌≤◌, ◌-◌, ◌++◌, ◌↔◌, ℕ, All, length, take, slice_set, Some, IfOk, IfSome, IsTrue, OnOk};
ghost use Rattle.fast_value.specs.meaning.Kinds.{U, text_of};
ghost use Rattle.fast_value.specs.meaning.Values.{scalar_data};
ghost use Rattle.fast_dict.specs.meaning.Dictionary.{assigned, empty, fresh, reset, previous_at, write_at};
ghost use Rattle.fast_dict.specs.meaning.Held.{text_size};
ghost use Rattle.fast_dict.specs.meaning.Previous.{previous_data};
ghost use Rattle.fast_spelling.specs.meaning.Entries.{IsShort};
ghost use Rattle.fast_spelling.specs.meaning.Ledgers.{all_now, all_before, AreKept};

use crate::entry::Entry;
use fast_dict::Previous;
use fast_value::{Kind, Scalar};
use std::alloc::{AllocError, Global};
use std::marker::Model;

/// A dictionary of previous values (FAST 1.1, Dictionaries and Previous Values). Messages are numbered: an entry keeps the value that it
/// had before the message in which it was changed last, until [`Ledger::commit`] begins the next one.
#[derive(Debug, Drop)]
pub struct Ledger {
    entries: Vec<Entry>,
    epoch: u64,
    max_text: usize,
}

impl Model for Ledger {
    ghost use Rattle.std.specs.Prelude.{◌≤◌};
    ghost use Rattle.fast_spelling.specs.meaning.Ledgers.{LedgerData, all_now, all_before, AreKept};

    ghost Value = { LedgerData };

    ghost view = { λ s. record {
      now = all_now s.entries.items;
      before = all_before s.epoch s.entries.items;
      max_text = s.max_text;
    } };

    ghost invariant = { λ s. record { kept : AreKept s.epoch s.max_text s.entries.items; begun : 1 ≤ s.epoch } };
}

impl Ledger {
    /// Makes a dictionary of `entries` entries, all undefined, for strings of at most `max_text` bytes.
    ///
    /// # Errors
    ///
    /// An allocation failed.
    pub fn new(alloc: Global, entries: usize, max_text: usize) -> Result<Ledger, AllocError>
        ensures now { IfOk result (λ s. s.now ≡ fresh entries) }
        ensures before { IfOk result (λ s. s.before ≡ s.now) }
        ensures max_text { IfOk result (λ s. s.max_text ≡ max_text) }
    {
        Ok(Ledger {
            entries: undefined_entries(alloc, entries)?,
            epoch: 1,
            max_text,
        })
    }

    /// Returns the value of the entry, with its string borrowed.
    #[inline(always)]
    pub fn get(&self, entry: usize) -> Previous<'_>
        requires { entry < length self.now.now }
        ensures value { previous_data result ≡ previous_at (Some entry) self.now.now }
        ensures short { text_size (previous_data result) ≤ self.now.max_text }
    {
        self.entries[entry].as_previous()
    }

    /// Returns the unsigned integer that the entry holds; `None` if it holds no value that a field of this type assigned.
    #[inline(always)]
    pub fn unsigned_at(&self, entry: usize, kind: Kind) -> Option<Scalar<'static>>
        requires { entry < length self.now.now }
        ensures value { IfSome result (λ v. previous_at (Some entry) self.now.now ≡ assigned kind (scalar_data v)) }
        ensures short { IfSome result (λ v. length (text_of (scalar_data v)) ≤ self.now.max_text) }
    {
        self.entries[entry].unsigned(kind)
    }

    /// Returns whether the entry holds this unsigned integer, which a field of this type assigned.
    #[inline(always)]
    pub fn holds(&self, entry: usize, kind: Kind, number: u64) -> bool
        requires { entry < length self.now.now }
        ensures { IsTrue result ↔ (previous_at (Some entry) self.now.now ≡ assigned kind (U number)) }
    {
        self.entries[entry].holds(kind, number)
    }

    /// Returns the signed integer that the entry holds; `None` if it holds no value that a field of this type assigned.
    #[inline(always)]
    pub fn signed_at(&self, entry: usize, kind: Kind) -> Option<Scalar<'static>>
        requires { entry < length self.now.now }
        ensures value { IfSome result (λ v. previous_at (Some entry) self.now.now ≡ assigned kind (scalar_data v)) }
        ensures short { IfSome result (λ v. length (text_of (scalar_data v)) ≤ self.now.max_text) }
    {
        self.entries[entry].signed(kind)
    }

    /// Returns the ASCII string that the entry holds; `None` if it holds no value that a field of this type assigned.
    #[inline(always)]
    pub fn ascii_at(&self, entry: usize, kind: Kind) -> Option<Scalar<'_>>
        requires { entry < length self.now.now }
        ensures value { IfSome result (λ v. previous_at (Some entry) self.now.now ≡ assigned kind (scalar_data v)) }
        ensures short { IfSome result (λ v. length (text_of (scalar_data v)) ≤ self.now.max_text) }
    {
        self.entries[entry].ascii(kind)
    }

    /// Returns the Unicode string that the entry holds; `None` if it holds no value that a field of this type assigned.
    #[inline(always)]
    pub fn unicode_at(&self, entry: usize, kind: Kind) -> Option<Scalar<'_>>
        requires { entry < length self.now.now }
        ensures value { IfSome result (λ v. previous_at (Some entry) self.now.now ≡ assigned kind (scalar_data v)) }
        ensures short { IfSome result (λ v. length (text_of (scalar_data v)) ≤ self.now.max_text) }
    {
        self.entries[entry].unicode(kind)
    }

    /// Returns the byte vector that the entry holds; `None` if it holds no value that a field of this type assigned.
    #[inline(always)]
    pub fn bytes_at(&self, entry: usize, kind: Kind) -> Option<Scalar<'_>>
        requires { entry < length self.now.now }
        ensures value { IfSome result (λ v. previous_at (Some entry) self.now.now ≡ assigned kind (scalar_data v)) }
        ensures short { IfSome result (λ v. length (text_of (scalar_data v)) ≤ self.now.max_text) }
    {
        self.entries[entry].bytes(kind)
    }

    /// Returns the decimal that the entry holds; `None` if it holds no value that a field of this type assigned.
    #[inline(always)]
    pub fn decimal_at(&self, entry: usize, kind: Kind) -> Option<Scalar<'static>>
        requires { entry < length self.now.now }
        ensures value { IfSome result (λ v. previous_at (Some entry) self.now.now ≡ assigned kind (scalar_data v)) }
        ensures short { IfSome result (λ v. length (text_of (scalar_data v)) ≤ self.now.max_text) }
    {
        self.entries[entry].decimal(kind)
    }

    /// Assigns the value to the entry, as a field of the type does.
    ///
    /// # Errors
    ///
    /// An allocation failed.
    #[inline(always)]
    pub fn set(&mut self, entry: usize, kind: Kind, scalar: Scalar<'_>) -> Result<(), AllocError>
        requires there { entry < length self.old.now }
        requires short { length (text_of (scalar_data scalar)) ≤ self.old.max_text }
        ensures now { OnOk result
            (self.new.now ≡ write_at (Some entry) (assigned kind (scalar_data scalar.entry)) self.old.now) }
        ensures before { self.new.before ≡ self.old.before }
        ensures max_text { self.new.max_text ≡ self.old.max_text }
        ensures length { length self.new.now ≡ length self.old.now }
    {
        assign_at(&mut self.entries, self.epoch, entry, kind, scalar)
    }

    /// Makes the entry empty.
    #[inline(always)]
    pub fn set_empty(&mut self, entry: usize)
        requires there { entry < length self.old.now }
        ensures now { self.new.now ≡ write_at (Some entry) empty self.old.now }
        ensures before { self.new.before ≡ self.old.before }
        ensures max_text { self.new.max_text ≡ self.old.max_text }
        ensures length { length self.new.now ≡ length self.old.now }
    {
        clear_at(&mut self.entries, self.epoch, entry);
    }

    /// Makes all entries undefined except that of the template identifier, as a template with the key `reset` does.
    pub fn reset_others(&mut self)
        ensures now { self.new.now ≡ reset self.old.now }
        ensures before { self.new.before ≡ self.old.before }
        ensures max_text { self.new.max_text ≡ self.old.max_text }
        ensures length { length self.new.now ≡ length self.old.now }
    {
        undefine_from(&mut self.entries, self.epoch, 1);
    }

    /// Makes all entries undefined, and commits that.
    pub fn reset_all(&mut self)
        ensures now { self.new.now ≡ fresh (length self.old.now) }
        ensures before { self.new.before ≡ self.new.now }
        ensures max_text { self.new.max_text ≡ self.old.max_text }
    {
        undefine_from(&mut self.entries, self.epoch, 0);
        self.commit();
    }

    /// Keeps the changes since the last commit.
    pub fn commit(&mut self)
        ensures now { self.new.now ≡ self.old.now }
        ensures before { self.new.before ≡ self.old.now }
        ensures max_text { self.new.max_text ≡ self.old.max_text }
    {
        if self.epoch == u64::MAX {
            settle_all(&mut self.entries);
            self.epoch = 1;
            return;
        }
        self.epoch += 1;
    }

    /// Undoes the changes since the last commit.
    pub fn take_back(&mut self)
        ensures now { self.new.now ≡ self.old.before }
        ensures before { self.new.before ≡ self.old.before }
        ensures max_text { self.new.max_text ≡ self.old.max_text }
    {
        take_all_back(&mut self.entries, self.epoch);
    }
}

/// Assigns the value to the entry.
#[inline(always)]
fn assign_at(
    entries: &mut Vec<Entry>,
    epoch: u64,
    entry: usize,
    kind: Kind,
    scalar: Scalar<'_>,
) -> Result<(), AllocError>
    requires { entry < length entries.old.items }
    ensures now { OnOk result
        (all_now entries.new.items
        ≡ slice_set (all_now entries.old.items) entry (assigned kind (scalar_data scalar.entry))) }
    ensures before { all_before epoch entries.new.items ≡ all_before epoch entries.old.items }
    ensures kept { (m : ℕ) → AreKept epoch m entries.old.items → length (text_of (scalar_data scalar.entry)) ≤ m
        → AreKept epoch m entries.new.items }
    ensures length { length entries.new.items ≡ length entries.old.items }
{
    let slot = &mut entries[entry];
    slot.touch(epoch);
    slot.assign(kind, scalar)
}

/// Makes the entry empty.
#[inline(always)]
fn clear_at(entries: &mut Vec<Entry>, epoch: u64, entry: usize)
    requires { entry < length entries.old.items }
    ensures now { all_now entries.new.items ≡ slice_set (all_now entries.old.items) entry empty }
    ensures before { all_before epoch entries.new.items ≡ all_before epoch entries.old.items }
    ensures kept { (m : ℕ) → AreKept epoch m entries.old.items → AreKept epoch m entries.new.items }
    ensures length { length entries.new.items ≡ length entries.old.items }
{
    let slot = &mut entries[entry];
    slot.touch(epoch);
    slot.clear();
}

/// Makes the entries from this number on undefined.
fn undefine_from(entries: &mut Vec<Entry>, epoch: u64, first: usize)
    ensures now { all_now entries.new.items
        ≡ take first (all_now entries.old.items) ++ fresh (length entries.old.items - first) }
    ensures before { all_before epoch entries.new.items ≡ all_before epoch entries.old.items }
    ensures kept { (m : ℕ) → AreKept epoch m entries.old.items → AreKept epoch m entries.new.items }
    ensures length { length entries.new.items ≡ length entries.old.items }
{
    for i in first..entries.len() {
        let slot = &mut entries[i];
        slot.touch(epoch);
        slot.undefine();
    }
}

/// Undoes the changes of this message in all entries.
fn take_all_back(entries: &mut Vec<Entry>, epoch: u64)
    requires { 1 ≤ epoch }
    ensures now { all_now entries.new.items ≡ all_before epoch entries.old.items }
    ensures before { all_before epoch entries.new.items ≡ all_before epoch entries.old.items }
    ensures kept { (m : ℕ) → AreKept epoch m entries.old.items → AreKept epoch m entries.new.items }
{
    for i in 0..entries.len() {
        entries[i].take_back(epoch);
    }
}

/// Forgets, for all entries, in which message they were changed.
fn settle_all(entries: &mut Vec<Entry>)
    ensures now { all_now entries.new.items ≡ all_now entries.old.items }
    ensures short { (m : ℕ) → All (IsShort m) entries.old.items → All (IsShort m) entries.new.items }
    ensures settled { All (λ e. e.epoch ≡ 0) entries.new.items }
{
    for i in 0..entries.len() {
        entries[i].settle();
    }
}

/// Makes `count` entries, all undefined.
fn undefined_entries(alloc: Global, count: usize) -> Result<Vec<Entry>, AllocError>
    ensures now { IfOk result (λ v. all_now v.items ≡ fresh count) }
    ensures settled { IfOk result (λ v. All (λ e. e.epoch ≡ 0) v.items) }
    ensures short { IfOk result (λ v. (m : ℕ) → All (IsShort m) v.items) }
{
    let mut entries = Vec::with_capacity(alloc, count)?;
    for _ in 0..count {
        entries.push(Entry::new(alloc))?;
    }
    Ok(entries)
}
