//! Initial values, as they are written in a template file.

ghost use Rattle.std.specs.Prelude.{◌≡◌, ◌≢◌, ◌<◌, ◌^◌, ℤ, pos, List, ℕ, length, slice_index, IfSome, IfNone, IfOk, Err};
ghost use Rattle.fast_value.specs.meaning.Initial.{IsNumeral, IsInteger, digits_value, IsDecimal, IsInitial, IsHex};
ghost use Rattle.fast_value.specs.meaning.Kinds.{ScalarData, U, I, signed_range, exponent_range};
ghost use Rattle.fast_value.specs.device.Numerals.{IsSigned, range_between};
ghost use Rattle.fast_value.specs.meaning.Values.{value_data};

use crate::kinds::Kind;
use crate::values::Value;
use hex::FromHexError;
use std::alloc::{AllocError, Global};
use std::error::Error;
use std::fmt;

/// The reason why a string is no initial value.
#[derive(Clone, Copy, Debug, PartialEq, Eq)]
pub enum InitialFault {
    /// The string is no value of the type.
    S3,
    /// An allocation failed.
    Memory,
}

impl fmt::Display for InitialFault {
    fn fmt<W: fmt::Write>(&self, f: &mut fmt::Formatter<W>) -> fmt::Result {
        f.write_str(match self {
            InitialFault::S3 => "the text is no value of the kind",
            InitialFault::Memory => "there is no memory left",
        })
    }
}

impl Error for InitialFault {}

impl From<AllocError> for InitialFault {
    ghost use Rattle.std.specs.Prelude.{◌≡◌};
    ghost use Rattle.fast_value.specs.declared.initial.InitialFault.TheVariants.{Memory};

    ghost from_gives = { λ _ fault. fault ≡ Memory };

    fn from(_error: AllocError) -> InitialFault {
        InitialFault::Memory
    }
}

/// Returns the number that 1 to 20 decimal digits stand for.
fn parse_digits(digits: &[u8]) -> Option<u128>
    ensures number { IfSome result (λ n. IsNumeral digits.now × (n ≡ digits_value digits.now)) }
    ensures small { IfSome result (λ n. n < 10 ^ 20) }
    ensures none { IfNone result (¬ (IsNumeral digits.now)) }
{
    if digits.is_empty() || digits.len() > 20 {
        return None;
    }
    let mut number: u128 = 0;
    for digit in digits {
        if !digit.is_ascii_digit() {
            return None;
        }
        number = number * 10 + u128::from(*digit - b'0');
    }
    Some(number)
}

/// Returns the integer that 1 to 20 decimal digits stand for, with an optional minus in front.
fn parse_signed(text: &[u8]) -> Option<i128>
    ensures integer { IfSome result (λ x. IsSigned text.now x) }
    ensures none { IfNone result ((x : ℤ) → ¬ (IsSigned text.now x)) }
{
    if !text.is_empty() && text[0] == b'-' {
        match parse_digits(&text[1..]) {
            Some(number) => Some(-(number as i128)),
            None => None,
        }
    } else {
        match parse_digits(text) {
            Some(number) => Some(number as i128),
            None => None,
        }
    }
}

/// Returns the integer if it lies within the bounds.
fn parse_within(text: &[u8], low: i128, high: i128) -> Option<i128>
    ensures integer { IfSome result (λ x. IsInteger (range_between low high) text.now x) }
    ensures none { IfNone result ((x : ℤ) → ¬ (IsInteger (range_between low high) text.now x)) }
{
    match parse_signed(text) {
        Some(integer) if low <= integer && integer <= high => Some(integer),
        _ => None,
    }
}

/// Returns a signed integer of 64 bits.
fn parse_int64(text: &[u8]) -> Option<i64>
    ensures integer { IfSome result (λ x. IsInteger (signed_range 63) text.now x) }
    ensures none { IfNone result ((x : ℤ) → ¬ (IsInteger (signed_range 63) text.now x)) }
{
    match parse_within(text, i64::MIN as i128, i64::MAX as i128) {
        Some(integer) => Some(integer as i64),
        None => None,
    }
}

/// Returns an exponent of ten, -63 to 63.
fn parse_exponent(text: &[u8]) -> Option<i32>
    ensures integer { IfSome result (λ x. IsInteger exponent_range text.now x) }
    ensures none { IfNone result ((x : ℤ) → ¬ (IsInteger exponent_range text.now x)) }
{
    match parse_within(text, -63, 63) {
        Some(integer) => Some(integer as i32),
        None => None,
    }
}

/// Returns the offset of the first `e`.
fn find_e(text: &[u8]) -> Option<usize>
    ensures found { IfSome result (λ k. (k < length text.now) × (slice_index text.now k ≡ 0x65)) }
    ensures before { IfSome result (λ k. (j : ℕ) → j < k → slice_index text.now j ≢ 0x65) }
    ensures none { IfNone result ((j : ℕ) → j < length text.now → slice_index text.now j ≢ 0x65) }
{
    text.iter().position(|b| *b == b'e')
}

/// Returns the exponent and the mantissa of a decimal: a mantissa alone, or followed by `e` and an exponent.
fn parse_decimal(text: &[u8]) -> Option<(i32, i64)>
    ensures decimal { IfSome result (λ d. IsDecimal text.now d.0 d.1) }
    ensures none { IfNone result ((e m : ℤ) → ¬ (IsDecimal text.now e m)) }
{
    let Some(at) = find_e(text) else {
        return match parse_int64(text) {
            Some(mantissa) => Some((0, mantissa)),
            None => None,
        };
    };
    let Some(mantissa) = parse_int64(&text[..at]) else {
        return None;
    };
    match parse_exponent(&text[at + 1..]) {
        Some(exponent) => Some((exponent, mantissa)),
        None => None,
    }
}

/// Decodes bytes from pairs of hexadecimal digits.
fn parse_bytes(alloc: Global, text: &[u8]) -> Result<Vec<u8>, InitialFault>
    ensures bytes { IfOk result (λ v. IsHex text.now v.items) }
    ensures none { result ≡ Err InitialFault.S3 → (w : List ℕ) → ¬ (IsHex text.now w) }
{
    match hex::decode(alloc, text) {
        Ok(bytes) => Ok(bytes),
        Err(error) => match error {
            FromHexError::OutOfMemory => Err(InitialFault::Memory),
            _ => Err(InitialFault::S3),
        },
    }
}

/// Returns the integer of an unsigned type whose greatest value is `high`. It is S3 if there is none.
fn parse_unsigned(text: &[u8], high: u64) -> Result<Value, InitialFault>
    ensures value { IfOk result (λ v. (n : ℕ) × IsInteger (range_between (pos 0) (pos high)) text.now (pos n)
        × (value_data v ≡ U n)) }
    ensures none { result ≡ Err InitialFault.S3 → (x : ℤ)
        → ¬ (IsInteger (range_between (pos 0) (pos high)) text.now x) }
{
    match parse_within(text, 0, i128::from(high)) {
        Some(integer) => Ok(Value::U(integer as u64)),
        None => Err(InitialFault::S3),
    }
}

/// Returns the integer of a signed type with values from `low` to `high`. It is S3 if there is none.
fn parse_integer(text: &[u8], low: i64, high: i64) -> Result<Value, InitialFault>
    ensures value { IfOk result (λ v. (x : ℤ) × IsInteger (range_between low high) text.now x × (value_data v ≡ I x)) }
    ensures none { result ≡ Err InitialFault.S3 → (x : ℤ) → ¬ (IsInteger (range_between low high) text.now x) }
{
    match parse_within(text, i128::from(low), i128::from(high)) {
        Some(integer) => Ok(Value::I(integer as i64)),
        None => Err(InitialFault::S3),
    }
}

/// Returns the value that a string gives as the initial value of a field of this type: 1 to 20 digits, with an optional minus in front, for
/// an integer; such an integer, optionally followed by `e` and an exponent of -63 to 63, for a decimal; the string itself for a string, of
/// characters below U+0080 for ASCII; pairs of hexadecimal digits for a byte vector. It is S3 if there is none.
pub fn parse_initial(alloc: Global, kind: Kind, text: &str) -> Result<Value, InitialFault>
    ensures value { IfOk result (λ v. IsInitial kind text.now (value_data v)) }
    ensures none { result ≡ Err InitialFault.S3 → (v : ScalarData) → ¬ (IsInitial kind text.now v) }
{
    match kind {
        Kind::UInt32 => parse_unsigned(text.as_bytes(), u32::MAX as u64),
        Kind::Int32 => parse_integer(text.as_bytes(), i32::MIN as i64, i32::MAX as i64),
        Kind::UInt64 => parse_unsigned(text.as_bytes(), u64::MAX),
        Kind::Int64 => parse_integer(text.as_bytes(), i64::MIN, i64::MAX),
        Kind::Decimal => match parse_decimal(text.as_bytes()) {
            Some((exponent, mantissa)) => Ok(Value::Dec { exponent, mantissa }),
            None => Err(InitialFault::S3),
        },
        Kind::Ascii => {
            if !text.is_ascii() {
                return Err(InitialFault::S3);
            }
            Ok(Value::Ascii(Vec::from_slice(alloc, text.as_bytes())?))
        }
        Kind::Unicode => Ok(Value::Unicode(Vec::from_slice(alloc, text.as_bytes())?)),
        Kind::Bytes => Ok(Value::Bytes(parse_bytes(alloc, text.as_bytes())?)),
    }
}
