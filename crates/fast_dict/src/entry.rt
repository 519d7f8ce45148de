//! An entry of a block store.

ghost use Rattle.std.specs.Prelude.{◌≡◌, [], length};
ghost use Rattle.fast_value.specs.meaning.Kinds.{text_of, U, I, Dec};
ghost use Rattle.fast_value.specs.meaning.Values.{scalar_data};
ghost use Rattle.fast_dict.specs.meaning.Dictionary.{assigned};
ghost use Rattle.fast_dict.specs.meaning.Entry.{text_length, with_text};

use fast_value::{Kind, Scalar};

/// The contents of an entry, except the bytes of a string, which lie in a slot of their own. A value of the field's own type has a variant
/// for the type, so that one look at the variant distinguishes undefined, empty, another type and the value.
#[derive(Clone, Copy, Debug)]
pub enum Entry {
    /// Nothing has been stored since the entry was reset.
    Undefined,
    /// The field that was stored last was absent.
    Empty,
    /// A number under [`Kind::UInt32`].
    UInt32(u64),
    /// A number under [`Kind::Int32`].
    Int32(i64),
    /// A number under [`Kind::UInt64`].
    UInt64(u64),
    /// A number under [`Kind::Int64`].
    Int64(i64),
    /// A decimal under [`Kind::Decimal`]: exponent and mantissa.
    Decimal(i32, i64),
    /// The length of a string under [`Kind::Ascii`].
    Ascii(usize),
    /// The length of a string under [`Kind::Unicode`].
    Unicode(usize),
    /// The length of a byte vector under [`Kind::Bytes`].
    Bytes(usize),
    /// An unsigned number under a type of other values.
    OtherUnsigned(Kind, u64),
    /// A signed number under a type of other values.
    OtherSigned(Kind, i64),
    /// A decimal under a type of other values.
    OtherDecimal(Kind, i32, i64),
    /// The length of an ASCII string under a type of other values.
    OtherAscii(Kind, usize),
    /// The length of a Unicode string under a type of other values.
    OtherUnicode(Kind, usize),
    /// The length of a byte vector under a type of other values.
    OtherBytes(Kind, usize),
}

impl Entry {
    /// Returns the entry of a value under a type, without the bytes of a string.
    #[inline(always)]
    pub fn of(kind: Kind, scalar: Scalar<'_>) -> Entry
        ensures value { with_text result (text_of (scalar_data scalar.entry))
            ≡ assigned kind (scalar_data scalar.entry) }
        ensures size { text_length result ≡ length (text_of (scalar_data scalar.entry)) }
    {
        match scalar {
            Scalar::U(number) => Entry::of_unsigned(kind, number),
            Scalar::I(number) => Entry::of_signed(kind, number),
            Scalar::Dec { exponent, mantissa } => Entry::of_decimal(kind, exponent, mantissa),
            Scalar::Ascii(text) => match kind {
                Kind::Ascii => Entry::Ascii(text.len()),
                _ => Entry::OtherAscii(kind, text.len()),
            },
            Scalar::Unicode(text) => match kind {
                Kind::Unicode => Entry::Unicode(text.len()),
                _ => Entry::OtherUnicode(kind, text.len()),
            },
            Scalar::Bytes(bytes) => match kind {
                Kind::Bytes => Entry::Bytes(bytes.len()),
                _ => Entry::OtherBytes(kind, bytes.len()),
            },
        }
    }

    /// Changes the entry to another one. If both hold an integer under the same type, only the number is written.
    #[inline(always)]
    pub(crate) fn change(&mut self, to: Entry)
        ensures { self.new ≡ to }
    {
        match (&mut *self, to) {
            (Entry::UInt32(held), Entry::UInt32(number)) => *held = number,
            (Entry::Int32(held), Entry::Int32(number)) => *held = number,
            (Entry::UInt64(held), Entry::UInt64(number)) => *held = number,
            (Entry::Int64(held), Entry::Int64(number)) => *held = number,
            _ => *self = to,
        }
    }

    /// Returns the entry of an unsigned number under a type.
    #[inline(always)]
    pub fn of_unsigned(kind: Kind, number: u64) -> Entry
        ensures value { with_text result [] ≡ assigned kind (U number) }
        ensures size { text_length result ≡ 0 }
    {
        match kind {
            Kind::UInt32 => Entry::UInt32(number),
            Kind::UInt64 => Entry::UInt64(number),
            _ => Entry::OtherUnsigned(kind, number),
        }
    }

    /// Returns the entry of a signed number under a type.
    #[inline(always)]
    pub fn of_signed(kind: Kind, number: i64) -> Entry
        ensures value { with_text result [] ≡ assigned kind (I number) }
        ensures size { text_length result ≡ 0 }
    {
        match kind {
            Kind::Int32 => Entry::Int32(number),
            Kind::Int64 => Entry::Int64(number),
            _ => Entry::OtherSigned(kind, number),
        }
    }

    /// Returns the entry of a decimal under a type.
    #[inline(always)]
    pub fn of_decimal(kind: Kind, exponent: i32, mantissa: i64) -> Entry
        ensures value { with_text result [] ≡ assigned kind (Dec exponent mantissa) }
        ensures size { text_length result ≡ 0 }
    {
        match kind {
            Kind::Decimal => Entry::Decimal(exponent, mantissa),
            _ => Entry::OtherDecimal(kind, exponent, mantissa),
        }
    }
}
