//! Values of a type, within the limit on the length of a string.

ghost use Rattle.std.specs.Prelude.{[], IfSome, IsSome, ◌≡◌, ◌≤◌, length, IsTrue};
ghost use Rattle.fast_spelling.specs.meaning.Suiting.{IsRight};
ghost use Rattle.fast_value.specs.meaning.Kinds.{text_of};
ghost use Rattle.fast_value.specs.declared.kinds.Kind.TheVariants.{Decimal};
ghost use Rattle.fast_value.specs.meaning.Values.{value_data, scalar_data};

use crate::measuring::text_len;
use crate::suiting::{is_decimal, is_right, is_signed, is_unsigned};
use fast_value::{Kind, Limits, Scalar, Value};

/// Returns the value if it is one of the type (`kind`), and within `max_text`; else `None`. If the type is known at compile time, so is the
/// variant of the result.
#[inline(always)]
pub fn right_value<'a>(limits: Limits, kind: Kind, value: &'a Value) -> Option<Scalar<'a>>
    ensures { IfSome result (λ v. (scalar_data v ≡ value_data value.now) × IsRight kind (value_data value.now)
        × (length (text_of (value_data value.now)) ≤ limits.max_text)) }
{
    match kind {
        Kind::UInt32 | Kind::UInt64 => right_unsigned(kind, value),
        Kind::Int32 | Kind::Int64 => right_signed(kind, value),
        Kind::Decimal => right_decimal(value),
        Kind::Ascii | Kind::Unicode | Kind::Bytes => right_text(limits, kind, value),
    }
}

/// Returns the value if it is one of an integer type; else `None`.
#[inline(always)]
pub fn right_number(kind: Kind, value: &Value) -> Option<Scalar<'static>>
    ensures { IfSome result (λ v. (scalar_data v ≡ value_data value.now) × IsRight kind (value_data value.now)
        × (text_of (value_data value.now) ≡ [])) }
{
    match kind {
        Kind::Int32 | Kind::Int64 => right_signed(kind, value),
        _ => right_unsigned(kind, value),
    }
}

/// Returns the value if it is one of an unsigned integer type; else `None`.
#[inline(always)]
pub fn right_unsigned(kind: Kind, value: &Value) -> Option<Scalar<'static>>
    ensures value { IfSome result (λ v. scalar_data v ≡ value_data value.now) }
    ensures right { IsSome result → IsRight kind (value_data value.now) }
    ensures short { IsSome result → text_of (value_data value.now) ≡ [] }
{
    match value {
        Value::U(number) if is_unsigned(kind, *number) => Some(Scalar::U(*number)),
        _ => None,
    }
}

/// Returns the value if it is one of a signed integer type; else `None`.
#[inline(always)]
fn right_signed(kind: Kind, value: &Value) -> Option<Scalar<'static>>
    ensures value { IfSome result (λ v. scalar_data v ≡ value_data value.now) }
    ensures right { IsSome result → IsRight kind (value_data value.now) }
    ensures short { IsSome result → text_of (value_data value.now) ≡ [] }
{
    match value {
        Value::I(number) if is_signed(kind, *number) => Some(Scalar::I(*number)),
        _ => None,
    }
}

/// Returns the value if it is a decimal; else `None`.
#[inline(always)]
pub fn right_decimal(value: &Value) -> Option<Scalar<'static>>
    ensures value { IfSome result (λ v. scalar_data v ≡ value_data value.now) }
    ensures right { IsSome result → IsRight Decimal (value_data value.now) }
    ensures short { IsSome result → text_of (value_data value.now) ≡ [] }
{
    match value {
        Value::Dec { exponent, mantissa } if is_decimal(Kind::Decimal, *exponent, *mantissa) => {
            Some(Scalar::Dec {
                exponent: *exponent,
                mantissa: *mantissa,
            })
        }
        _ => None,
    }
}

/// Returns the value if it is one of a string or byte vector type, and within `max_text`; else `None`.
#[inline(always)]
fn right_text<'a>(limits: Limits, kind: Kind, value: &'a Value) -> Option<Scalar<'a>>
    ensures { IfSome result (λ v. (scalar_data v ≡ value_data value.now) × IsRight kind (value_data value.now)
        × (length (text_of (value_data value.now)) ≤ limits.max_text)) }
{
    if !may_be(limits, kind, value) {
        return None;
    }
    match value {
        Value::Ascii(text) => Some(Scalar::Ascii(text)),
        Value::Unicode(text) => Some(Scalar::Unicode(text)),
        Value::Bytes(text) => Some(Scalar::Bytes(text)),
        _ => None,
    }
}

/// Returns whether the value is one of the type, and within `max_text`.
#[inline(always)]
pub fn may_be(limits: Limits, kind: Kind, value: &Value) -> bool
    ensures { IsTrue result → IsRight kind (value_data value.now)
        × (length (text_of (value_data value.now)) ≤ limits.max_text) }
{
    is_right(kind, value) && text_len(value) <= limits.max_text
}
