//! The values of fields, as lines have them.

ghost use Rattle.std.specs.Prelude.{◌≡◌, ◌≢◌, ◌↔◌, ℤ, ◌∷◌, ◌++◌, IsTrue, IfSome, IfNone, IfOk};
ghost use Rattle.std.specs.Fmt.{signed_decimal};
ghost use Rattle.fast_value.specs.meaning.Kinds.{ScalarData, IsWithin, signed_range};
ghost use Rattle.fast_value.specs.meaning.Values.{value_data};
ghost use Rattle.fast_lines.specs.meaning.Lines.{written};
ghost use Rattle.fast_lines.specs.meaning.Numbers.{IsDecimalDigits, IsNumberOf, IsNumberText};
ghost use Rattle.fast_lines.specs.meaning.Values.{IsHeld, Lacks};

use crate::bytes::parse_bytes;
use crate::numbers::{is_digits, is_signed_digits, parse_exponent, parse_signed, parse_unsigned};
use crate::texts::unquote;
use fast_value::Value;
use std::alloc::{AllocError, Global};

/// Splits at the first such byte: returns what precedes it and what follows it.
pub fn split_at_byte(text: &[u8], byte: u8) -> Option<(&[u8], &[u8])>
    ensures parts { IfSome result (λ r. text.now ≡ r.0.now ++ byte ∷ r.1.now) }
    ensures first { IfSome result (λ r. Lacks byte r.0.now) }
    ensures none { IfNone result (Lacks byte text.now) }
{
    match text.iter().position(|other| *other == byte) {
        Some(at) => Some((&text[..at], &text[at + 1..])),
        None => None,
    }
}

/// Parses a decimal: the mantissa, `e` and the exponent.
fn parse_decimal(text: &[u8]) -> Option<(i32, i64)>
    ensures decimal { IfSome result (λ d. text.now ≡ signed_decimal d.1 ++ 0x65 ∷ signed_decimal d.0) }
    ensures none { IfNone result
        ((e m : ℤ) → IsWithin (signed_range 31) e → IsWithin (signed_range 63) m
        → text.now ≢ signed_decimal m ++ 0x65 ∷ signed_decimal e) }
{
    let Some((mantissa, exponent)) = split_at_byte(text, b'e') else {
        return None;
    };
    match (parse_exponent(exponent), parse_signed(mantissa)) {
        (Some(exponent), Some(mantissa)) => Some((exponent, mantissa)),
        _ => None,
    }
}

/// Returns whether the input is a mantissa, `e` and an exponent, of any size.
fn is_decimal_digits(text: &[u8]) -> bool
    ensures { IsTrue result ↔ IsDecimalDigits text.now }
{
    match split_at_byte(text, b'e') {
        Some((mantissa, exponent)) => is_signed_digits(mantissa) & is_signed_digits(exponent),
        None => false,
    }
}

/// Returns whether these are the digits of a number with this letter, of any size.
fn is_number_of(letter: u8, digits: &[u8]) -> bool
    ensures { IsTrue result ↔ IsNumberOf letter digits.now }
{
    match letter {
        b'u' => is_digits(digits),
        b'i' => is_signed_digits(digits),
        b'd' => is_decimal_digits(digits),
        _ => false,
    }
}

/// Returns whether the input is a letter and a number of its type, of any size.
pub fn is_number(text: &[u8]) -> bool
    ensures { IsTrue result ↔ IsNumberText text.now }
{
    match text {
        [letter, b' ', digits @ ..] => is_number_of(*letter, digits),
        _ => false,
    }
}

/// Parses the value of a field; `None` if the input is none, or out of the range of the types of values.
pub fn parse_value(alloc: Global, text: &[u8]) -> Result<Option<Value>, AllocError>
    ensures value { IfOk result (λ o. IfSome o (λ v. text.now ≡ written (value_data v))) }
    ensures none { IfOk result (λ o. IfNone o ((v : ScalarData) → IsHeld v → text.now ≢ written v)) }
{
    let [letter, b' ', rest @ ..] = text else {
        return Ok(None);
    };
    match letter {
        b'u' => Ok(parse_unsigned(rest).map(Value::U)),
        b'i' => Ok(parse_signed(rest).map(Value::I)),
        b'd' => Ok(parse_decimal(rest).map(|(exponent, mantissa)| Value::Dec {
            exponent,
            mantissa,
        })),
        b'a' => Ok(unquote(alloc, rest)?.map(Value::Ascii)),
        b's' => Ok(unquote(alloc, rest)?.map(Value::Unicode)),
        b'b' => Ok(parse_bytes(alloc, rest)?.map(Value::Bytes)),
        _ => Ok(None),
    }
}
