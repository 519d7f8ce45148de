//! The field operators, as functions of an instruction, a previous value and the value sent (FAST 1.1, Field Operators).
//!
//! A function returns the value of the field and the next contents of the entry, or the first fault that is decided there. None of them
//! allocates: a string is borrowed from the entry, the instruction or the caller.

pub mod decimals;
pub mod integers;
pub mod table;
pub mod texts;
pub mod unsent;

ghost use Rattle.std.specs.Prelude.{◌≡◌, option_map};
ghost use Rattle.fast_value.specs.meaning.Kinds.{family};
ghost use Rattle.fast_value.specs.meaning.Values.{scalar_data};
ghost use Rattle.fast_dict.specs.meaning.Operators.{keeps, gives, gives_none, delta_base, start_value, zero_in, of_kind};
ghost use Rattle.fast_dict.specs.meaning.Answers.{outcome_data, scalar_answer};
ghost use Rattle.fast_dict.specs.meaning.Previous.{previous_data};
ghost use Rattle.fast_tree.specs.meaning.Nodes.{field_data};

use crate::previous::Previous;
pub use decimals::{exponent_delta, mantissa_delta};
use fast_tree::FieldInstruction;
use fast_value::{Code, Kind, Scalar};
pub use integers::integer_delta;
pub use table::{Sent, checked, decide, needs_join, received, replaced};
pub use texts::{Kept, checked_text, is_utf8, joined, sized, subtract, tail_base, tail_keeps};
pub use unsent::{Left, leave, null_empties};

/// The result of an operator.
#[derive(Clone, Copy, Debug)]
pub struct Outcome<'a> {
    /// The value of the field, `None` if it is absent.
    pub value: Option<Scalar<'a>>,
    /// The next contents of the entry. Without an entry it is unchanged.
    pub next: Previous<'a>,
}

impl<'a> Outcome<'a> {
    /// Returns the value, which the entry then holds.
    #[inline]
    pub fn kept(kind: Kind, value: Scalar<'a>) -> Outcome<'a>
        ensures { Ok (outcome_data result) ≡ keeps kind (scalar_data value.entry) }
    {
        Outcome {
            value: Some(value),
            next: Previous::Assigned(kind, value),
        }
    }

    /// Returns the value, with the entry unchanged.
    #[inline]
    pub fn given(value: Scalar<'a>, previous: Previous<'a>) -> Outcome<'a>
        ensures { Ok (outcome_data result) ≡ gives (scalar_data value.entry) (previous_data previous.entry) }
    {
        Outcome {
            value: Some(value),
            next: previous,
        }
    }

    /// Returns absence, with the next contents of the entry.
    #[inline]
    pub fn absent(next: Previous<'a>) -> Outcome<'a>
        ensures { Ok (outcome_data result) ≡ gives_none (previous_data next.entry) }
    {
        Outcome { value: None, next }
    }
}

/// Borrows the initial value of an instruction.
#[inline]
pub fn initial_value(field: &FieldInstruction) -> Option<Scalar<'_>>
    ensures { option_map scalar_data result ≡ (field_data field.now).initial }
{
    match &field.initial {
        Some(value) => Some(value.as_scalar()),
        None => None,
    }
}

/// Returns the base of a delta: the previous value, or without one the initial value, or else 0 or the empty string.
///
/// # Errors
///
/// D4 if the previous value is of another type, D6 if it is empty.
#[inline]
pub fn delta_base<'a>(
    field: &'a FieldInstruction,
    previous: Previous<'a>,
) -> Result<Scalar<'a>, Code>
    ensures { scalar_answer result ≡ delta_base (field_data field.now) (previous_data previous.entry) }
{
    match previous {
        Previous::Assigned(kind, value) => of_kind(field.kind, kind, value),
        Previous::Undefined => Ok(start_value(field)),
        Previous::Empty => Err(Code::D6),
    }
}

/// Returns the base of a delta or a tail under an undefined entry: the initial value, or else 0 or the empty string.
pub fn start_value(field: &FieldInstruction) -> Scalar<'_>
    ensures { scalar_data result ≡ start_value (field_data field.now) }
{
    match initial_value(field) {
        Some(value) => value,
        None => zero_of(field.kind),
    }
}

/// Returns the value that counts as 0 or empty in a type.
fn zero_of(kind: Kind) -> Scalar<'static>
    ensures { scalar_data result ≡ zero_in kind (family kind) }
{
    match kind {
        Kind::UInt32 | Kind::UInt64 => Scalar::U(0),
        Kind::Int32 | Kind::Int64 => Scalar::I(0),
        Kind::Decimal => Scalar::Dec {
            exponent: 0,
            mantissa: 0,
        },
        Kind::Ascii => Scalar::Ascii(&[]),
        Kind::Unicode => Scalar::Unicode(&[]),
        Kind::Bytes => Scalar::Bytes(&[]),
    }
}

/// Returns the previous value, if it is of the field's type.
#[inline]
fn of_kind<'a>(kind: Kind, found: Kind, value: Scalar<'a>) -> Result<Scalar<'a>, Code>
    ensures { scalar_answer result ≡ of_kind kind found (scalar_data value.entry) }
{
    if kind == found {
        Ok(value)
    } else {
        Err(Code::D4)
    }
}
