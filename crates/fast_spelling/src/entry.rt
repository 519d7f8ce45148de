//! An entry of the encoder's dictionary, with the value that it held before the message that changes it.

ghost use Rattle.std.specs.Prelude.{◌≡◌, ◌≤◌, ◌↔◌, ℕ, List, length, IfSome, IsFalse, IsTrue, OnOk};
ghost use Rattle.fast_value.specs.meaning.Kinds.{U, text_of};
ghost use Rattle.fast_value.specs.meaning.Values.{scalar_data};
ghost use Rattle.fast_dict.specs.meaning.Dictionary.{assigned, empty, undefined};
ghost use Rattle.fast_dict.specs.meaning.Previous.{previous_data};
ghost use Rattle.fast_spelling.specs.meaning.Entries.{held_data, entry_now, entry_before, IsShort};

use fast_dict::Previous;
use fast_value::{Kind, Scalar};
use std::alloc::{AllocError, Global};
use std::mem;

/// The value of an entry, without the bytes of a string.
#[derive(Clone, Copy, Debug)]
pub enum Held {
    /// Undefined: no value was assigned since the entry was reset.
    Undefined,
    /// Empty: the field that was assigned last was absent.
    Empty,
    /// An unsigned integer, and the type of the field that assigned it.
    U(Kind, u64),
    /// A signed integer.
    I(Kind, i64),
    /// A decimal: its exponent and its mantissa.
    Dec(Kind, i32, i64),
    /// An ASCII string.
    Ascii(Kind),
    /// A Unicode string.
    Unicode(Kind),
    /// A byte vector.
    Bytes(Kind),
}

impl Held {
    /// Returns whether it is a string or byte vector.
    #[inline(always)]
    fn is_text(self) -> bool
        ensures { IsFalse result → (t u : List ℕ) → held_data self t ≡ held_data self u }
    {
        matches!(self, Held::Ascii(_) | Held::Unicode(_) | Held::Bytes(_))
    }
}

/// An entry, with the value that it held before the message in which it was changed last. The bytes of a new string overwrite those from
/// before the last change, so that no string is moved.
#[derive(Debug, Drop)]
pub struct Entry {
    /// The current value.
    held: Held,
    /// The bytes of the current value, if it is a string or byte vector.
    text: Vec<u8>,
    /// The value before the last message that changed it.
    old_held: Held,
    /// The bytes of that value, if it is a string or byte vector.
    old_text: Vec<u8>,
    /// The number of the message in which it was changed last.
    epoch: u64,
}

impl Entry {
    /// Makes an undefined entry that no message has changed.
    pub fn new(alloc: Global) -> Entry
        ensures now { entry_now result ≡ undefined }
        ensures epoch { result.epoch ≡ 0 }
        ensures short { (m : ℕ) → IsShort m result }
    {
        Entry {
            held: Held::Undefined,
            text: Vec::new(alloc),
            old_held: Held::Undefined,
            old_text: Vec::new(alloc),
            epoch: 0,
        }
    }

    /// Returns the current value, with its string borrowed.
    #[inline(always)]
    pub fn as_previous(&self) -> Previous<'_>
        ensures { previous_data result ≡ entry_now self.now }
    {
        match self.held {
            Held::Undefined => Previous::Undefined,
            Held::Empty => Previous::Empty,
            Held::U(kind, number) => Previous::Assigned(kind, Scalar::U(number)),
            Held::I(kind, number) => Previous::Assigned(kind, Scalar::I(number)),
            Held::Dec(kind, exponent, mantissa) => {
                Previous::Assigned(kind, Scalar::Dec { exponent, mantissa })
            }
            Held::Ascii(kind) => Previous::Assigned(kind, Scalar::Ascii(&self.text)),
            Held::Unicode(kind) => Previous::Assigned(kind, Scalar::Unicode(&self.text)),
            Held::Bytes(kind) => Previous::Assigned(kind, Scalar::Bytes(&self.text)),
        }
    }

    /// Returns the unsigned integer that the entry holds; `None` if it holds no value that a field of this type assigned.
    #[inline(always)]
    pub fn unsigned(&self, kind: Kind) -> Option<Scalar<'static>>
        ensures { IfSome result (λ v. entry_now self.now ≡ assigned kind (scalar_data v)) }
    {
        match self.held {
            Held::U(found, number) if found == kind => Some(Scalar::U(number)),
            _ => None,
        }
    }

    /// Returns whether the entry holds this unsigned integer, which a field of this type assigned.
    #[inline(always)]
    pub fn holds(&self, kind: Kind, number: u64) -> bool
        ensures { IsTrue result ↔ (entry_now self.now ≡ assigned kind (U number)) }
    {
        match self.held {
            Held::U(found, held) => found == kind && held == number,
            _ => false,
        }
    }

    /// Returns the signed integer that the entry holds; `None` if it holds no value that a field of this type assigned.
    #[inline(always)]
    pub fn signed(&self, kind: Kind) -> Option<Scalar<'static>>
        ensures { IfSome result (λ v. entry_now self.now ≡ assigned kind (scalar_data v)) }
    {
        match self.held {
            Held::I(found, number) if found == kind => Some(Scalar::I(number)),
            _ => None,
        }
    }

    /// Returns the ASCII string that the entry holds; `None` if it holds no value that a field of this type assigned.
    #[inline(always)]
    pub fn ascii(&self, kind: Kind) -> Option<Scalar<'_>>
        ensures { IfSome result (λ v. entry_now self.now ≡ assigned kind (scalar_data v)) }
    {
        match self.held {
            Held::Ascii(found) if found == kind => Some(Scalar::Ascii(&self.text)),
            _ => None,
        }
    }

    /// Returns the Unicode string that the entry holds; `None` if it holds no value that a field of this type assigned.
    #[inline(always)]
    pub fn unicode(&self, kind: Kind) -> Option<Scalar<'_>>
        ensures { IfSome result (λ v. entry_now self.now ≡ assigned kind (scalar_data v)) }
    {
        match self.held {
            Held::Unicode(found) if found == kind => Some(Scalar::Unicode(&self.text)),
            _ => None,
        }
    }

    /// Returns the byte vector that the entry holds; `None` if it holds no value that a field of this type assigned.
    #[inline(always)]
    pub fn bytes(&self, kind: Kind) -> Option<Scalar<'_>>
        ensures { IfSome result (λ v. entry_now self.now ≡ assigned kind (scalar_data v)) }
    {
        match self.held {
            Held::Bytes(found) if found == kind => Some(Scalar::Bytes(&self.text)),
            _ => None,
        }
    }

    /// Returns the decimal that the entry holds; `None` if it holds no value that a field of this type assigned.
    #[inline(always)]
    pub fn decimal(&self, kind: Kind) -> Option<Scalar<'static>>
        ensures { IfSome result (λ v. entry_now self.now ≡ assigned kind (scalar_data v)) }
    {
        match self.held {
            Held::Dec(found, exponent, mantissa) if found == kind => {
                Some(Scalar::Dec { exponent, mantissa })
            }
            _ => None,
        }
    }

    /// Notes that this message changes the entry: saves its current value, unless this message did so already.
    #[inline(always)]
    pub fn touch(&mut self, epoch: u64)
        ensures epoch { self.new.epoch ≡ epoch }
        ensures before { entry_before epoch self.new ≡ entry_before epoch self.old }
        ensures short { (m : ℕ) → IsShort m self.old → IsShort m self.new }
    {
        if self.epoch != epoch {
            if self.held.is_text() {
                mem::swap(&mut self.text, &mut self.old_text);
            }
            self.old_held = self.held;
            self.held = Held::Undefined;
            self.epoch = epoch;
        }
    }

    /// Assigns a value, as a field of the type does. The saved value stays.
    ///
    /// # Errors
    ///
    /// An allocation failed.
    #[inline(always)]
    pub fn assign(&mut self, kind: Kind, scalar: Scalar<'_>) -> Result<(), AllocError>
        ensures now { OnOk result (entry_now self.new ≡ assigned kind (scalar_data scalar.entry)) }
        ensures epoch { self.new.epoch ≡ self.old.epoch }
        ensures before { (e : ℕ) → e ≡ self.old.epoch → entry_before e self.new ≡ entry_before e self.old }
        ensures short { (m : ℕ) → IsShort m self.old → length (text_of (scalar_data scalar.entry)) ≤ m
            → IsShort m self.new }
    {
        self.held = match scalar {
            Scalar::U(number) => Held::U(kind, number),
            Scalar::I(number) => Held::I(kind, number),
            Scalar::Dec { exponent, mantissa } => Held::Dec(kind, exponent, mantissa),
            Scalar::Ascii(text) => {
                write_over(&mut self.text, text)?;
                Held::Ascii(kind)
            }
            Scalar::Unicode(text) => {
                write_over(&mut self.text, text)?;
                Held::Unicode(kind)
            }
            Scalar::Bytes(text) => {
                write_over(&mut self.text, text)?;
                Held::Bytes(kind)
            }
        };
        Ok(())
    }

    /// Makes the entry empty: the field was absent.
    #[inline(always)]
    pub fn clear(&mut self)
        ensures now { entry_now self.new ≡ empty }
        ensures epoch { self.new.epoch ≡ self.old.epoch }
        ensures before { (e : ℕ) → e ≡ self.old.epoch → entry_before e self.new ≡ entry_before e self.old }
        ensures short { (m : ℕ) → IsShort m self.old → IsShort m self.new }
    {
        self.held = Held::Empty;
    }

    /// Makes the entry undefined.
    pub fn undefine(&mut self)
        ensures now { entry_now self.new ≡ undefined }
        ensures epoch { self.new.epoch ≡ self.old.epoch }
        ensures before { (e : ℕ) → e ≡ self.old.epoch → entry_before e self.new ≡ entry_before e self.old }
        ensures short { (m : ℕ) → IsShort m self.old → IsShort m self.new }
    {
        self.held = Held::Undefined;
    }

    /// Undoes the changes of this message.
    pub fn take_back(&mut self, epoch: u64)
        ensures now { entry_now self.new ≡ entry_before epoch self.old }
        ensures epoch { (self.new.epoch ≡ epoch → epoch ≡ 0) × (self.new.epoch ≤ self.old.epoch) }
        ensures short { (m : ℕ) → IsShort m self.old → IsShort m self.new }
    {
        if self.epoch == epoch {
            mem::swap(&mut self.text, &mut self.old_text);
            self.held = self.old_held;
            self.old_held = Held::Undefined;
            self.epoch = 0;
        }
    }

    /// Forgets in which message the entry was changed.
    pub fn settle(&mut self)
        ensures now { entry_now self.new ≡ entry_now self.old }
        ensures epoch { self.new.epoch ≡ 0 }
        ensures short { (m : ℕ) → IsShort m self.old → IsShort m self.new }
    {
        self.epoch = 0;
    }
}

/// Replaces the bytes of a string. The code for a single character is inlined.
#[inline(always)]
fn write_over(text: &mut Vec<u8>, bytes: &[u8]) -> Result<(), AllocError>
    ensures ok { OnOk result (text.new.items ≡ bytes.now) }
    ensures short { (m : ℕ) → length bytes.now ≤ m → length text.new.items ≤ m }
{
    if bytes.len() == 1 && text.len() == 1 {
        text[0] = bytes[0];
        return Ok(());
    }
    write_long_over(text, bytes)
}

/// Replaces the bytes of a string by a string of any length.
fn write_long_over(text: &mut Vec<u8>, bytes: &[u8]) -> Result<(), AllocError>
    ensures ok { OnOk result (text.new.items ≡ bytes.now) }
    ensures short { (m : ℕ) → length bytes.now ≤ m → length text.new.items ≤ m }
{
    text.clear();
    text.extend_from_slice(bytes)
}
