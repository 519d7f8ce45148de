//! Fields of which no value is sent.

ghost use Rattle.std.specs.Prelude.{◌≡◌};
ghost use Rattle.fast_value.specs.meaning.Kinds.{value_of_integer, integer_of};
ghost use Rattle.fast_value.specs.meaning.Values.{scalar_data};
ghost use Rattle.fast_tree.specs.meaning.Nodes.{field_data};
ghost use Rattle.fast_dict.specs.meaning.Answers.{outcome_data, left_data, left_answer};
ghost use Rattle.fast_dict.specs.meaning.Dictionary.{PreviousData};
ghost use Rattle.fast_dict.specs.meaning.Operators.{decide, nothing, null, null_empties, unsent, from_initial, incremented, range_of};
ghost use Rattle.fast_dict.specs.meaning.Previous.{previous_data};

use super::integers::{integer_of, integer_value, range_of};
use super::{Outcome, initial_value};
use crate::previous::Previous;
use fast_tree::{FieldInstruction, Operator};
use fast_value::{Code, Kind, Scalar};

/// The result for a field of which no value is sent: where its value comes from, and what its entry holds next. It borrows nothing, so that
/// the entry can be changed by it.
#[derive(Clone, Copy, Debug, PartialEq, Eq)]
pub enum Left {
    /// No value, and the entry unchanged.
    Absent,
    /// No value, and an empty entry.
    Emptied,
    /// The initial value, if there is one, and the entry unchanged.
    Initial,
    /// The initial value, which the entry then holds.
    Started,
    /// The previous value.
    Copied,
    /// One more than the previous value, which the entry then holds; after the greatest of the type comes the least.
    Increased,
}

impl Left {
    /// Returns the outcome, under the previous value by which it was decided.
    pub fn outcome<'a>(self, field: &'a FieldInstruction, previous: Previous<'a>) -> Outcome<'a>
        ensures { outcome_data result ≡ left_data self (field_data field.now) (previous_data previous.entry) }
    {
        match self {
            Left::Absent => Outcome::absent(previous),
            Left::Emptied => Outcome::absent(Previous::Empty),
            Left::Initial => Outcome {
                value: initial_value(field),
                next: previous,
            },
            Left::Started => started(field, previous),
            Left::Copied => Outcome {
                value: previous.value(),
                next: previous,
            },
            Left::Increased => increased(field, previous),
        }
    }
}

/// Returns whether NULL leaves an empty entry, as under the operators that read their value from it if nothing is sent. Under the others it
/// leaves the entry unchanged.
#[inline]
pub fn null_empties(operator: Operator) -> bool
    ensures { result ≡ null_empties operator }
{
    matches!(
        operator,
        Operator::Copy | Operator::Increment | Operator::Tail
    )
}

/// Decodes a field of which no value is sent: if its presence bit is clear, nothing is, and else NULL. Of a constant nothing is sent in any
/// case.
///
/// # Errors
///
/// Under copy, increment and tail, if nothing is sent: D4 if the previous value is of another type; of a mandatory field D5 if there is
/// neither a previous nor an initial value, and D6 if the previous value is empty.
pub fn leave(field: &FieldInstruction, previous: Previous<'_>, bit: bool) -> Result<Left, Code>
    ensures nothing { left_answer result (field_data field.now) (previous_data previous.entry)
        ≡ decide (field_data field.now) (previous_data previous.entry) bit nothing }
    ensures null { left_answer result (field_data field.now) (previous_data previous.entry)
        ≡ decide (field_data field.now) (previous_data previous.entry) bit null }
{
    match field.operator {
        Operator::Constant if bit => Ok(Left::Initial),
        Operator::Default if !bit => Ok(Left::Initial),
        operator if !null_empties(operator) => Ok(Left::Absent),
        _ if bit => Ok(Left::Emptied),
        _ => kept(field, previous),
    }
}

/// Decodes an unsent field under copy, increment or tail from the previous value. Under an undefined entry the initial value replaces it.
fn kept(field: &FieldInstruction, previous: Previous<'_>) -> Result<Left, Code>
    ensures { left_answer result (field_data field.now) (previous_data previous.entry)
        ≡ unsent (field_data field.now) (previous_data previous.entry) }
{
    match previous {
        Previous::Assigned(kind, _) if kind != field.kind => Err(Code::D4),
        Previous::Assigned(..) if field.operator == Operator::Increment => Ok(Left::Increased),
        Previous::Assigned(..) => Ok(Left::Copied),
        Previous::Undefined => match initial_value(field) {
            Some(_) => Ok(Left::Started),
            None => absent(field, Code::D5),
        },
        Previous::Empty => absent(field, Code::D6),
    }
}

/// Returns absence if the field is optional; the entry is then empty. Else returns the fault.
fn absent(field: &FieldInstruction, fault: Code) -> Result<Left, Code>
    ensures { (p : PreviousData) → left_answer result (field_data field.now) p
        ≡ from_initial field.now.kind field.now.optional fault None }
{
    if field.optional {
        Ok(Left::Emptied)
    } else {
        Err(fault)
    }
}

/// Returns the initial value, which the entry then holds.
fn started<'a>(field: &'a FieldInstruction, previous: Previous<'a>) -> Outcome<'a>
    ensures { outcome_data result ≡ left_data Left.Started (field_data field.now) (previous_data previous.entry) }
{
    match initial_value(field) {
        Some(value) => Outcome::kept(field.kind, value),
        None => Outcome::absent(previous),
    }
}

/// Returns one more than the previous value, which the entry then holds.
fn increased<'a>(field: &FieldInstruction, previous: Previous<'a>) -> Outcome<'a>
    ensures { outcome_data result ≡ left_data Left.Increased (field_data field.now) (previous_data previous.entry) }
{
    match previous {
        Previous::Assigned(_, value) => Outcome::kept(field.kind, next_integer(field.kind, value)),
        Previous::Undefined | Previous::Empty => Outcome::absent(previous),
    }
}

/// Returns the value plus one, or the least value of the type if it was the greatest.
#[inline(always)]
pub fn next_integer<'a>(kind: Kind, value: Scalar<'a>) -> Scalar<'a>
    ensures { scalar_data result ≡ value_of_integer kind
        (incremented (range_of kind) (integer_of (scalar_data value.entry))) }
{
    match (kind, value) {
        (Kind::UInt32, Scalar::U(number)) => {
            Scalar::U(if number < u64::from(u32::MAX) {
                number + 1
            } else {
                0
            })
        }
        (Kind::UInt64, Scalar::U(number)) => {
            Scalar::U(if number < u64::MAX { number + 1 } else { 0 })
        }
        (Kind::Int32, Scalar::I(number)) => {
            Scalar::I(if number < i64::from(i32::MAX) {
                number + 1
            } else {
                i64::from(i32::MIN)
            })
        }
        (Kind::Int64, Scalar::I(number)) => {
            Scalar::I(if number < i64::MAX {
                number + 1
            } else {
                i64::MIN
            })
        }
        _ => next_in_range(kind, value),
    }
}

/// Returns one more than the value, for any pair of type and value; after the greatest of the type comes the least.
#[cold]
#[inline(never)]
fn next_in_range(kind: Kind, value: Scalar<'_>) -> Scalar<'static>
    ensures { scalar_data result ≡ value_of_integer kind
        (incremented (range_of kind) (integer_of (scalar_data value.entry))) }
{
    let (low, high) = range_of(kind);
    let number = integer_of(value);
    integer_value(kind, if number < high { number + 1 } else { low })
}
