//! Decimals under a delta.

ghost use Rattle.std.specs.Prelude.{◌≡◌, ◌^◌, pos, neg_ℤ, ◌≤ℤ◌, ◌<ℤ◌};
ghost use Rattle.fast_value.specs.meaning.Kinds.{Dec, exponent_of, mantissa_of, signed_range};
ghost use Rattle.fast_value.specs.meaning.Values.{scalar_data};
ghost use Rattle.fast_tree.specs.meaning.Nodes.{field_data};
ghost use Rattle.fast_dict.specs.meaning.Answers.{outcome_answer};
ghost use Rattle.fast_dict.specs.meaning.Operators.{exponent_step, mantissa_step};
ghost use Rattle.fast_dict.specs.meaning.Previous.{previous_data};

use super::integers::{range_of, sum_in};
use super::{Outcome, delta_base};
use crate::previous::Previous;
use fast_tree::FieldInstruction;
use fast_value::{Code, Kind, Scalar};

/// Returns the exponent of a decimal after its delta.
///
/// # Errors
///
/// D4 if the previous value is of another type, D6 if it is empty, R1 if the exponent lies outside -63 to 63.
#[inline]
pub fn exponent_delta(
    field: &FieldInstruction,
    previous: Previous<'_>,
    delta: i128,
) -> Result<i32, Code>
    ensures { result ≡ exponent_step (field_data field.now) (previous_data previous.entry) delta }
{
    let base = delta_base(field, previous)?;
    let sum = sum_in(-63, 63, Code::R1, exponent_of(base), delta)?;
    Ok(exponent_value(sum))
}

/// Returns the decimal of an exponent and of the mantissa after its delta, which the entry then holds.
///
/// # Errors
///
/// D4 if the previous value is of another type, D6 if it is empty, R1 if the mantissa is no int64.
#[inline]
pub fn mantissa_delta<'a>(
    field: &'a FieldInstruction,
    previous: Previous<'a>,
    exponent: i32,
    delta: i128,
) -> Result<Outcome<'a>, Code>
    ensures { outcome_answer result ≡ mantissa_step (field_data field.now) (previous_data previous.entry) exponent
        delta }
{
    let base = delta_base(field, previous)?;
    let (low, high) = range_of(Kind::Int64);
    let sum = sum_in(low, high, Code::R1, mantissa_of(base), delta)?;
    Ok(Outcome::kept(field.kind, decimal_value(exponent, sum)))
}

/// Returns an exponent that lies in range.
#[inline]
fn exponent_value(exponent: i128) -> i32
    requires low { neg_ℤ (pos 63) ≤ℤ exponent }
    requires high { exponent ≤ℤ pos 63 }
    ensures { result ≡ exponent }
{
    exponent as i32
}

/// Returns the decimal of an exponent and a mantissa in range.
#[inline]
fn decimal_value(exponent: i32, mantissa: i128) -> Scalar<'static>
    requires low { (signed_range 63).low ≤ℤ mantissa }
    requires high { mantissa ≤ℤ (signed_range 63).high }
    ensures { scalar_data result ≡ Dec exponent mantissa }
{
    Scalar::Dec {
        exponent,
        mantissa: mantissa as i64,
    }
}

/// Returns the exponent of a value, 0 if it has none.
#[inline]
pub fn exponent_of(value: Scalar<'_>) -> i128
    ensures value { result ≡ exponent_of (scalar_data value.entry) }
    ensures low { neg_ℤ (pos (2 ^ 31)) ≤ℤ result }
    ensures high { result <ℤ pos (2 ^ 31) }
{
    match value {
        Scalar::Dec { exponent, .. } => i128::from(exponent),
        _ => 0,
    }
}

/// Returns the mantissa of a value, 0 if it has none.
#[inline]
pub fn mantissa_of(value: Scalar<'_>) -> i128
    ensures value { result ≡ mantissa_of (scalar_data value.entry) }
    ensures low { neg_ℤ (pos (2 ^ 63)) ≤ℤ result }
    ensures high { result <ℤ pos (2 ^ 63) }
{
    match value {
        Scalar::Dec { mantissa, .. } => i128::from(mantissa),
        _ => 0,
    }
}
