//! The values of fields, borrowed and owned.

use std::alloc::{AllocError, Global};

/// A value of a field, borrowed by a sink for one call.
#[derive(Clone, Copy, Debug, PartialEq, Eq)]
pub enum Scalar<'a> {
    /// An unsigned integer.
    U(u64),
    /// A signed integer.
    I(i64),
    /// A decimal: the mantissa times ten to the exponent.
    Dec {
        /// The exponent, -63 to 63.
        exponent: i32,
        /// The mantissa.
        mantissa: i64,
    },
    /// Characters below U+0080, one byte each.
    Ascii(&'a [u8]),
    /// A string in UTF-8.
    Unicode(&'a [u8]),
    /// A byte vector.
    Bytes(&'a [u8]),
}

/// A value of a field that owns its bytes.
#[derive(Debug, Drop, PartialEq)]
pub enum Value {
    /// An unsigned integer.
    U(u64),
    /// A signed integer.
    I(i64),
    /// A decimal: the mantissa times ten to the exponent.
    Dec {
        /// The exponent, -63 to 63.
        exponent: i32,
        /// The mantissa.
        mantissa: i64,
    },
    /// Characters below U+0080, one byte each.
    Ascii(Vec<u8>),
    /// A string in UTF-8.
    Unicode(Vec<u8>),
    /// A byte vector.
    Bytes(Vec<u8>),
}

impl Value {
    ghost use Rattle.std.specs.Prelude.{◌≡◌, IfOk};
    ghost use Rattle.fast_value.specs.meaning.Values.{scalar_data, value_data};

    /// Copies a borrowed value into memory of its own. Fails only if an allocation fails.
    pub fn copy_of(alloc: Global, scalar: Scalar<'_>) -> Result<Value, AllocError>
        ensures { IfOk result (λ v. value_data v ≡ scalar_data scalar.entry) }
    {
        match scalar {
            Scalar::U(number) => Ok(Value::U(number)),
            Scalar::I(number) => Ok(Value::I(number)),
            Scalar::Dec { exponent, mantissa } => Ok(Value::Dec { exponent, mantissa }),
            Scalar::Ascii(text) => Ok(Value::Ascii(Vec::from_slice(alloc, text)?)),
            Scalar::Unicode(text) => Ok(Value::Unicode(Vec::from_slice(alloc, text)?)),
            Scalar::Bytes(bytes) => Ok(Value::Bytes(Vec::from_slice(alloc, bytes)?)),
        }
    }

    /// Borrows the value.
    pub fn as_scalar(&self) -> Scalar<'_>
        ensures { scalar_data result ≡ value_data self.now }
    {
        match self {
            Value::U(number) => Scalar::U(*number),
            Value::I(number) => Scalar::I(*number),
            Value::Dec { exponent, mantissa } => Scalar::Dec {
                exponent: *exponent,
                mantissa: *mantissa,
            },
            Value::Ascii(text) => Scalar::Ascii(text.as_slice()),
            Value::Unicode(text) => Scalar::Unicode(text.as_slice()),
            Value::Bytes(bytes) => Scalar::Bytes(bytes.as_slice()),
        }
    }
}
