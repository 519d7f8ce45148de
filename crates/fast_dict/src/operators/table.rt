//! The operators as one table.

ghost use Rattle.std.specs.Prelude.{◌≡◌, ◌↔◌, true, false};
ghost use Rattle.fast_value.specs.meaning.Kinds.{family};
ghost use Rattle.fast_value.specs.meaning.Values.{scalar_data};
ghost use Rattle.fast_tree.specs.meaning.Nodes.{field_data};
ghost use Rattle.fast_dict.specs.meaning.Answers.{outcome_answer, scalar_answer};
ghost use Rattle.fast_dict.specs.meaning.Operators.{decide, sent_plain, sent_kept, sent_delta, checked_in};
ghost use Rattle.fast_dict.specs.meaning.Previous.{previous_data};
ghost use Rattle.fast_dict.specs.meaning.Sending.{sent_data, NeedsNoJoin};

use super::Outcome;
use super::decimals::{exponent_delta, mantissa_delta};
use super::integers::integer_delta;
use super::texts::{checked_text, text_of};
use super::unsent::leave;
use crate::previous::Previous;
use fast_tree::{FieldInstruction, Operator};
use fast_value::{Code, Kind, Scalar};

/// The content of the stream for a field.
#[derive(Clone, Copy, Debug)]
pub enum Sent<'a> {
    /// Nothing, since the presence bit is clear or the value is a constant.
    Nothing,
    /// NULL.
    Null,
    /// A value. For a tail, the tail.
    Value(Scalar<'a>),
    /// The number that is added to an integer.
    IntegerDelta(i128),
    /// The numbers that are added to the exponent and to the mantissa of a decimal.
    DecimalDelta(i128, i128),
    /// The subtraction length of a string, and the part that is joined to the bytes kept of the base.
    TextDelta(i128, &'a [u8]),
}

/// Returns the result of the field's operator under a previous value, a presence bit (true if the instruction uses none) and the content of
/// the stream. A string that is joined from two parts needs a buffer: [`subtract`](super::subtract), [`tail_base`](super::tail_base) and
/// [`joined`](super::joined) decode it in steps.
///
/// # Errors
///
/// The first of D4, D5, D6, D2, R1 and R2 that applies.
pub fn decide<'a>(
    field: &'a FieldInstruction,
    previous: Previous<'a>,
    bit: bool,
    sent: Sent<'a>,
) -> Result<Outcome<'a>, Code>
    requires { NeedsNoJoin field.now.operator bit (sent_data sent) }
    ensures { outcome_answer result
        ≡ decide (field_data field.now) (previous_data previous.entry) bit (sent_data sent.entry) }
{
    match field.operator {
        Operator::None => received(field, previous, sent),
        Operator::Default if bit => received(field, previous, sent),
        Operator::Copy if bit => replaced(field, sent),
        Operator::Increment if bit => replaced(field, sent),
        Operator::Delta => changed(field, previous, sent),
        Operator::Tail if bit => Ok(Outcome::absent(Previous::Empty)),
        Operator::Constant
        | Operator::Default
        | Operator::Copy
        | Operator::Increment
        | Operator::Tail => Ok(leave(field, previous, bit)?.outcome(field, previous)),
    }
}

/// Returns whether the part sent has to be joined to the bytes kept of the previous value, so that [`decide`] cannot decode it.
pub fn needs_join(operator: Operator, bit: bool, sent: Sent<'_>) -> bool
    ensures { result ≡ false ↔ NeedsNoJoin operator bit (sent_data sent.entry) }
{
    match (operator, sent) {
        (Operator::Delta, Sent::TextDelta(..)) => true,
        (Operator::Tail, Sent::Value(_)) => bit,
        _ => false,
    }
}

/// Decodes a field without an operator or under default: the value, or NULL for absence.
pub fn received<'a>(
    field: &'a FieldInstruction,
    previous: Previous<'a>,
    sent: Sent<'a>,
) -> Result<Outcome<'a>, Code>
    ensures { outcome_answer result
        ≡ sent_plain (field_data field.now) (previous_data previous.entry) (sent_data sent.entry) }
{
    match sent {
        Sent::Value(value) => Ok(Outcome::given(checked(field.kind, value)?, previous)),
        _ => Ok(Outcome::absent(previous)),
    }
}

/// Decodes a field under copy or increment of which something is sent: the value, which the entry then holds, or NULL, which makes it
/// empty.
pub fn replaced<'a>(field: &FieldInstruction, sent: Sent<'a>) -> Result<Outcome<'a>, Code>
    ensures { outcome_answer result ≡ sent_kept (field_data field.now) (sent_data sent.entry) }
{
    match sent {
        Sent::Value(value) => Ok(Outcome::kept(field.kind, checked(field.kind, value)?)),
        _ => Ok(Outcome::absent(Previous::Empty)),
    }
}

/// Decodes an integer or a decimal under delta: the delta, or NULL, which leaves the entry unchanged.
fn changed<'a>(
    field: &'a FieldInstruction,
    previous: Previous<'a>,
    sent: Sent<'a>,
) -> Result<Outcome<'a>, Code>
    requires { NeedsNoJoin Operator.Delta true (sent_data sent) }
    ensures { outcome_answer result
        ≡ sent_delta (field_data field.now) (previous_data previous.entry) (sent_data sent.entry) }
{
    match sent {
        Sent::IntegerDelta(delta) => integer_delta(field, previous, delta),
        Sent::DecimalDelta(exponent, mantissa) => {
            let exponent = exponent_delta(field, previous, exponent)?;
            mantissa_delta(field, previous, exponent, mantissa)
        }
        Sent::Nothing | Sent::Null | Sent::Value(_) | Sent::TextDelta(..) => {
            Ok(Outcome::absent(previous))
        }
    }
}

/// Returns a value that is sent as a value of the type.
///
/// # Errors
///
/// R2 if the type is unicode and the string is not UTF-8.
#[inline]
pub fn checked(kind: Kind, value: Scalar<'_>) -> Result<Scalar<'_>, Code>
    ensures { scalar_answer result ≡ checked_in (family kind) kind (scalar_data value.entry) }
{
    match kind {
        Kind::Ascii | Kind::Unicode | Kind::Bytes => checked_text(kind, text_of(value)),
        Kind::UInt32 | Kind::Int32 | Kind::UInt64 | Kind::Int64 | Kind::Decimal => Ok(value),
    }
}
