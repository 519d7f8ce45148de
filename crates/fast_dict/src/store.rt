//! The trait of dictionaries, for the code that reads and writes them.

ghost use Rattle.std.specs.Prelude.{◌≡◌, ◌<◌, length, IsTrue, OnOk, OnErr};
ghost use Rattle.fast_value.specs.meaning.Values.{scalar_data};
ghost use Rattle.fast_dict.specs.meaning.Dictionary.{assigned, empty, fresh, reset, previous_at, write_at};
ghost use Rattle.fast_dict.specs.meaning.Previous.{previous_data};
ghost use Rattle.fast_dict.specs.meaning.Stores.{IsStorable, IsText};

use crate::previous::Previous;
use fast_value::{Kind, Scalar};
use std::alloc::AllocError;

/// A dictionary: a number of entries, each undefined, empty, or assigned a value with the type of the field that assigned it (FAST 1.1,
/// Dictionaries and Previous Values). Entry 0 is the template identifier's.
///
/// The methods that have an entry as an argument require it to be below [`Store::entries`].
pub trait Store {
    ghost use Rattle.std.specs.Prelude.{ℕ, ◌+◌, ◌*◌, ◌≤◌, length};
    ghost use Rattle.fast_dict.specs.meaning.Dictionary.{Dictionary};
    ghost use Rattle.fast_dict.specs.meaning.Stores.{Terms};

    // the contents of each entry
    ghost dictionary: { Self → Dictionary };

    // what the store was made for, which no call changes
    ghost terms: { Self → Terms };

    // the bytes that are held for strings, and the entries
    ghost units: { Self → ℕ };

    /// Returns the number of entries.
    fn entries(&self) -> usize
        ensures { result ≡ length (dictionary self.now) };

    /// Returns the greatest length of a string, in bytes.
    fn max_text(&self) -> usize
        ensures { result ≡ (terms self.now).max_text };

    /// Returns whether the entry can hold a string.
    fn takes_text(&self, entry: usize) -> bool
        requires { entry < length (dictionary self.now) }
        ensures { result ≡ (terms self.now).takes_text entry };

    /// Returns whether a [`Store::set`] of a string can fail to allocate.
    fn can_refuse(&self) -> bool
        ensures { result ≡ (terms self.now).can_refuse };

    /// Returns the contents of the entry. A string is borrowed.
    fn get(&self, entry: usize) -> Previous<'_>
        requires { entry < length (dictionary self.now) }
        ensures { previous_data result ≡ previous_at (Some entry) (dictionary self.now) };

    /// Assigns the value to the entry, as a field of the type does. A string is no longer than [`Store::max_text`], and its entry can hold
    /// one.
    ///
    /// # Errors
    ///
    /// The allocation for a string failed, and nothing has changed: only if [`Store::can_refuse`].
    fn set(&mut self, entry: usize, kind: Kind, scalar: Scalar<'_>) -> Result<(), AllocError>
        requires there { entry < length (dictionary self.old) }
        requires room { IsStorable (terms self.old) entry (scalar_data scalar) }
        ensures ok { OnOk result (dictionary self.new
            ≡ write_at (Some entry) (assigned kind (scalar_data scalar.entry)) (dictionary self.old)) }
        ensures err { OnErr result (self.new ≡ self.old) }
        ensures text { OnErr result (IsText (scalar_data scalar.entry)) }
        ensures refused { OnErr result (IsTrue (terms self.old).can_refuse) }
        ensures same { terms self.new ≡ terms self.old };

    /// Makes the entry empty.
    fn set_empty(&mut self, entry: usize)
        requires { entry < length (dictionary self.old) }
        ensures entry { dictionary self.new ≡ write_at (Some entry) empty (dictionary self.old) }
        ensures same { terms self.new ≡ terms self.old };

    /// Makes all entries but the template identifier's undefined.
    fn reset(&mut self)
        ensures entries { dictionary self.new ≡ reset (dictionary self.old) }
        ensures same { terms self.new ≡ terms self.old };

    /// Makes all entries undefined.
    fn reset_all(&mut self)
        ensures entries { dictionary self.new ≡ fresh (length (dictionary self.old)) }
        ensures same { terms self.new ≡ terms self.old };

    // each string needs up to the greatest length, and each entry one
    ghost bounded: { (s : Self) → units s ≤ length (dictionary s) * (terms s).max_text + length (dictionary s) };
}
