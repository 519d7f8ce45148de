//! An entry of a dictionary that grows.

ghost use Rattle.std.specs.Prelude.{◌≡◌, IfOk, OnErr};
ghost use Rattle.fast_value.specs.meaning.Values.{scalar_data, value_data};
ghost use Rattle.fast_dict.specs.meaning.Held.{held_data};
ghost use Rattle.fast_dict.specs.meaning.Previous.{previous_data};
ghost use Rattle.fast_dict.specs.meaning.Stores.{IsText};

use crate::previous::Previous;
use fast_value::{Kind, Scalar, Value};
use std::alloc::{AllocError, Global};

/// The contents of an entry, which owns the bytes of its string.
#[derive(Debug, Drop)]
pub enum Held {
    /// Nothing has been stored since the entry was reset.
    Undefined,
    /// The field that was stored last was absent.
    Empty,
    /// The value that was stored last, and the type of the field that stored it.
    Assigned(Kind, Value),
}

impl Held {
    /// Borrows the contents of the entry.
    pub fn as_previous(&self) -> Previous<'_>
        ensures { previous_data result ≡ held_data self.now }
    {
        match self {
            Held::Undefined => Previous::Undefined,
            Held::Empty => Previous::Empty,
            Held::Assigned(kind, value) => Previous::Assigned(*kind, value.as_scalar()),
        }
    }

    /// Copies the entry, with its string in memory of its own.
    pub fn copy(&self, alloc: Global) -> Result<Held, AllocError>
        ensures { IfOk result (λ h. held_data h ≡ held_data self.now) }
    {
        match self {
            Held::Undefined => Ok(Held::Undefined),
            Held::Empty => Ok(Held::Empty),
            Held::Assigned(kind, value) => {
                Ok(Held::Assigned(*kind, owned(alloc, value.as_scalar())?))
            }
        }
    }
}

/// Copies a value, with its string in memory of its own. Only a string allocates.
pub fn owned(alloc: Global, scalar: Scalar<'_>) -> Result<Value, AllocError>
    ensures value { IfOk result (λ v. value_data v ≡ scalar_data scalar.entry) }
    ensures text { OnErr result (IsText (scalar_data scalar.entry)) }
{
    match scalar {
        Scalar::U(number) => Ok(Value::U(number)),
        Scalar::I(number) => Ok(Value::I(number)),
        Scalar::Dec { exponent, mantissa } => Ok(Value::Dec { exponent, mantissa }),
        Scalar::Ascii(_) | Scalar::Unicode(_) | Scalar::Bytes(_) => Value::copy_of(alloc, scalar),
    }
}
