//! Integers under the operators.

ghost use Rattle.std.specs.Prelude.{◌≡◌, ◌^◌, ◌<◌, pos, neg_ℤ, true, ◌+ℤ◌, ◌≤ℤ◌, ◌<ℤ◌, IfOk};
ghost use Rattle.fast_value.specs.meaning.Kinds.{value_of_integer, integer_of};
ghost use Rattle.fast_value.specs.meaning.Values.{scalar_data};
ghost use Rattle.fast_tree.specs.meaning.Nodes.{field_data};
ghost use Rattle.fast_dict.specs.meaning.Answers.{outcome_answer};
ghost use Rattle.fast_dict.specs.meaning.Operators.{integer_step, range_of, ranged};
ghost use Rattle.fast_dict.specs.meaning.Previous.{previous_data};

use super::{Outcome, delta_base};
use crate::previous::Previous;
use fast_tree::FieldInstruction;
use fast_value::{Code, Kind, Scalar};

/// Adds a delta to the base of an integer field. The entry then holds the sum.
///
/// # Errors
///
/// D4 if the previous value is of another type, D6 if it is empty, D2 if the sum lies outside the field's type.
#[inline]
pub fn integer_delta<'a>(
    field: &'a FieldInstruction,
    previous: Previous<'a>,
    delta: i128,
) -> Result<Outcome<'a>, Code>
    ensures { outcome_answer result ≡ integer_step (field_data field.now) (previous_data previous.entry) delta }
{
    let base = delta_base(field, previous)?;
    let (low, high) = range_of(field.kind);
    let sum = sum_in(low, high, Code::D2, integer_of(base), delta)?;
    Ok(Outcome::kept(field.kind, integer_value(field.kind, sum)))
}

/// Returns the sum if it lies between the two bounds, else the fault.
#[inline]
pub fn sum_in(low: i128, high: i128, fault: Code, base: i128, delta: i128) -> Result<i128, Code>
    ensures sum { result ≡ ranged (record { is_signed = true; low = low; high = high }) fault (base +ℤ delta) }
    ensures inside { IfOk result (λ s. (low ≤ℤ s) × (s ≤ℤ high)) }
{
    let Some(sum) = base.checked_add(delta) else {
        return Err(fault);
    };
    if sum < low || high < sum {
        return Err(fault);
    }
    Ok(sum)
}

/// Returns the least and the greatest integer of a type: the range of exponents for a type of other values.
#[inline]
pub fn range_of(kind: Kind) -> (i128, i128)
    ensures low { result.0 ≡ (range_of kind).low }
    ensures high { result.1 ≡ (range_of kind).high }
    ensures wide { neg_ℤ (pos (2 ^ 63)) ≤ℤ result.0 }
{
    match kind {
        Kind::UInt32 => (0, 0xFFFF_FFFF),
        Kind::Int32 => (-0x8000_0000, 0x7FFF_FFFF),
        Kind::UInt64 => (0, 0xFFFF_FFFF_FFFF_FFFF),
        Kind::Int64 => (-0x8000_0000_0000_0000, 0x7FFF_FFFF_FFFF_FFFF),
        Kind::Decimal | Kind::Ascii | Kind::Unicode | Kind::Bytes => (-63, 63),
    }
}

/// Returns the integer of a value, 0 if it has none.
#[inline]
pub fn integer_of(value: Scalar<'_>) -> i128
    ensures value { result ≡ integer_of (scalar_data value.entry) }
    ensures low { neg_ℤ (pos (2 ^ 63)) ≤ℤ result }
    ensures high { result <ℤ pos (2 ^ 64) }
{
    match value {
        Scalar::U(number) => i128::from(number),
        Scalar::I(number) => i128::from(number),
        Scalar::Dec { .. } | Scalar::Ascii(_) | Scalar::Unicode(_) | Scalar::Bytes(_) => 0,
    }
}

/// Returns an integer as a value of a type.
#[inline]
pub fn integer_value(kind: Kind, number: i128) -> Scalar<'static>
    requires low { neg_ℤ (pos (2 ^ 63)) ≤ℤ number }
    requires high { number ≤ℤ (range_of kind).high }
    ensures { scalar_data result ≡ value_of_integer kind number }
{
    match kind {
        Kind::UInt32 | Kind::UInt64 if number >= 0 => Scalar::U(number as u64),
        _ => Scalar::I(number as i64),
    }
}
