//! Integers in decimal digits, as lines have them.

ghost use Rattle.std.specs.Prelude.{◌≡◌, ◌≢◌, ◌↔◌, ℕ, ◌<◌, ◌^◌, ℤ, ◌∷◌, decimal, IsTrue, IfSome, IfNone};
ghost use Rattle.std.specs.Fmt.{signed_decimal};
ghost use Rattle.fast_value.specs.meaning.Kinds.{IsWithin, signed_range};
ghost use Rattle.fast_lines.specs.meaning.Numbers.{IsDigits, IsSignedDigits};

use itoa::Buffer;
use std::str;

/// The greatest number to which one more digit can be appended without a check: the result still fits in 64 bits.
const GREATEST: u64 = 1_000_000_000_000_000_000;

/// Parses a non-zero digit and the digits after it, if the integer is small enough for the fast path; `None` says nothing about the digits.
fn more_digits(first: u8, others: &[u8]) -> Option<u64>
    ensures { IfSome result (λ n. first ∷ others.now ≡ decimal n) }
{
    if first < b'1' || first > b'9' {
        return None;
    }
    let mut number = u64::from(first - b'0');
    let mut rest = others;
    while !rest.is_empty() {
        let Some((digit, behind)) = rest.split_first() else {
            return None;
        };
        if *digit < b'0' || *digit > b'9' || number > GREATEST {
            return None;
        }
        number = 10 * number + u64::from(*digit - b'0');
        rest = behind;
    }
    Some(number)
}

/// Parses decimal digits without leading zeros, if the integer is small enough for the fast path; `None` says nothing about the input.
fn short_unsigned(text: &[u8]) -> Option<u64>
    ensures { IfSome result (λ n. text.now ≡ decimal n) }
{
    let Some((first, others)) = text.split_first() else {
        return None;
    };
    if *first == b'0' && others.is_empty() {
        return Some(0);
    }
    more_digits(*first, others)
}

/// Parses decimal digits without leading zeros, after a minus if the integer is negative, if it is small enough for the fast path; `None`
/// says nothing about the input.
fn short_signed(text: &[u8]) -> Option<i64>
    ensures { IfSome result (λ x. text.now ≡ signed_decimal x) }
{
    match text {
        [b'-', digits @ ..] => match short_unsigned(digits) {
            Some(number) if number > 0 && number <= i64::MAX as u64 => Some(-(number as i64)),
            _ => None,
        },
        _ => match short_unsigned(text) {
            Some(number) if number <= i64::MAX as u64 => Some(number as i64),
            _ => None,
        },
    }
}

/// Parses decimal digits without leading zeros; `None` if the input is not such digits, or the integer has more than 64 bits.
pub fn parse_unsigned(text: &[u8]) -> Option<u64>
    ensures number { IfSome result (λ n. text.now ≡ decimal n) }
    ensures none { IfNone result ((n : ℕ) → n < 2 ^ 64 → text.now ≢ decimal n) }
{
    match short_unsigned(text) {
        Some(number) => Some(number),
        None => long_unsigned(text),
    }
}

/// Parses decimal digits without leading zeros, of any length. It is the slow path of [`parse_unsigned`].
fn long_unsigned(text: &[u8]) -> Option<u64>
    ensures number { IfSome result (λ n. text.now ≡ decimal n) }
    ensures none { IfNone result ((n : ℕ) → n < 2 ^ 64 → text.now ≢ decimal n) }
{
    let Ok(digits) = str::from_utf8(text) else {
        return None;
    };
    match digits.parse::<u64>() {
        Ok(number) if Buffer::new().format(number).as_bytes() == text => Some(number),
        _ => None,
    }
}

/// Parses decimal digits without leading zeros, after a minus if the integer is negative; `None` if the input is not such digits, or the
/// integer does not fit in 64 bits.
pub fn parse_signed(text: &[u8]) -> Option<i64>
    ensures number { IfSome result (λ x. text.now ≡ signed_decimal x) }
    ensures none { IfNone result ((x : ℤ) → IsWithin (signed_range 63) x → text.now ≢ signed_decimal x) }
{
    match short_signed(text) {
        Some(number) => Some(number),
        None => long_signed(text),
    }
}

/// Parses decimal digits of any length, after a minus if the integer is negative. It is the slow path of [`parse_signed`].
fn long_signed(text: &[u8]) -> Option<i64>
    ensures number { IfSome result (λ x. text.now ≡ signed_decimal x) }
    ensures none { IfNone result ((x : ℤ) → IsWithin (signed_range 63) x → text.now ≢ signed_decimal x) }
{
    let Ok(digits) = str::from_utf8(text) else {
        return None;
    };
    match digits.parse::<i64>() {
        Ok(number) if Buffer::new().format(number).as_bytes() == text => Some(number),
        _ => None,
    }
}

/// Parses decimal digits without leading zeros, after a minus if the integer is negative; `None` if it does not fit in 32 bits.
pub fn parse_exponent(text: &[u8]) -> Option<i32>
    ensures number { IfSome result (λ x. text.now ≡ signed_decimal x) }
    ensures none { IfNone result ((x : ℤ) → IsWithin (signed_range 31) x → text.now ≢ signed_decimal x) }
{
    match parse_signed(text) {
        Some(number) if i32::MIN as i64 <= number && number <= i32::MAX as i64 => Some(
            number as i32,
        ),
        _ => None,
    }
}

/// Parses the number of a node, or a number of elements.
pub fn parse_number(text: &[u8]) -> Option<u32>
    ensures number { IfSome result (λ n. text.now ≡ decimal n) }
    ensures none { IfNone result ((n : ℕ) → n < 2 ^ 32 → text.now ≢ decimal n) }
{
    match parse_unsigned(text) {
        Some(number) if number <= u32::MAX as u64 => Some(number as u32),
        _ => None,
    }
}

/// Returns whether the input is decimal digits without leading zeros, of any length.
pub fn is_digits(text: &[u8]) -> bool
    ensures { IsTrue result ↔ IsDigits text.now }
{
    match text {
        [] | [b'0', _, ..] => false,
        _ => text.iter().all(|digit| digit.is_ascii_digit()),
    }
}

/// Returns whether the input is decimal digits without leading zeros, of any length, after an optional minus.
pub fn is_signed_digits(text: &[u8]) -> bool
    ensures { IsTrue result ↔ IsSignedDigits text.now }
{
    match text {
        [b'-', digits @ ..] => is_digits(digits) & (digits != b"0".as_slice()),
        _ => is_digits(text),
    }
}
