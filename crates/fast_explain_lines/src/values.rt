//! Values of lines that have not the form of their letter, or are none of their field.

use crate::misfits::{Found, Misfit, found_at, part, rest};
use crate::strings::{bytes_misfit, string_misfit};
use fast_lines::numbers::{parse_exponent, parse_signed};
use fast_value::Kind;

/// Returns the error in the digits of a number, which are those between two offsets of a line.
fn digits_misfit<'a>(
    line: &'a [u8],
    from: usize,
    to: usize,
    right: &'static str,
) -> Option<Misfit<'a>> {
    let digits = part(line, from, to);
    let other = digits.iter().position(|byte| !byte.is_ascii_digit());
    match (digits, other) {
        (_, Some(k)) => {
            let at = from.saturating_add(k);
            let found = found_at(line, at);
            Some(Misfit { at, found, right })
        }
        ([], None) => Some(Misfit {
            at: from,
            found: found_at(line, from),
            right,
        }),
        ([b'0', _, ..], None) => Some(Misfit {
            at: from,
            found: Found::Part(digits),
            right: "expected a number without leading zeros",
        }),
        (_, None) => None,
    }
}

/// Returns the error in a number that may be negative, between two offsets of a line.
fn signed_misfit(line: &[u8], from: usize, to: usize) -> Option<Misfit<'_>> {
    let after = from.saturating_add(1);
    match part(line, from, to) {
        [b'-', b'0'] => Some(Misfit {
            at: from,
            found: Found::Part(part(line, from, to)),
            right: "expected 0",
        }),
        [b'-', ..] => digits_misfit(line, after, to, "expected digits alone after the -"),
        _ => digits_misfit(line, from, to, SIGNED),
    }
}

/// The form of a number that may be negative.
const SIGNED: &str = "expected digits alone, after a - if the number is negative";

/// Returns the error in a decimal, which begins at an offset of a line.
fn decimal_misfit(line: &[u8], from: usize) -> Option<Misfit<'_>> {
    let text = rest(line, from);
    if let Some(k) = text.iter().position(|byte| *byte == b'e') {
        let middle = from.saturating_add(k);
        return match signed_misfit(line, from, middle) {
            None => signed_misfit(line, middle.saturating_add(1), line.len()),
            misfit => misfit,
        };
    }
    Some(Misfit {
        at: from,
        found: if text.is_empty() {
            found_at(line, from)
        } else {
            Found::Part(text)
        },
        right: "expected a mantissa, e and an exponent, as 125e-1 for 12.5",
    })
}

/// Returns the error in the form of a field's value, which begins at an offset of a line.
pub(crate) fn value_misfit(line: &[u8], at: usize) -> Option<Misfit<'_>> {
    let begin = at.saturating_add(2);
    let value = rest(line, at);
    match value {
        [b' ', ..] | [_, b' ', b' ', ..] => Some(Misfit {
            at: if value.first().copied() == Some(b' ') {
                at
            } else {
                begin
            },
            found: Found::Said("a second blank"),
            right: "expected one blank",
        }),
        [b'u', b' ', ..] => digits_misfit(line, begin, line.len(), "expected digits alone"),
        [b'i', b' ', ..] => signed_misfit(line, begin, line.len()),
        [b'd', b' ', ..] => decimal_misfit(line, begin),
        [b'a' | b's', b' ', text @ ..] => string_misfit(text, begin),
        [b'b', b' ', digits @ ..] => bytes_misfit(digits, begin),
        [b'u' | b'i' | b'd' | b'a' | b's' | b'b'] => Some(Misfit {
            at: at.saturating_add(1),
            found: Found::Said("the end of the line"),
            right: "expected a blank and the value",
        }),
        [_, b' ', ..] => Some(Misfit {
            at,
            found: found_at(line, at),
            right: "expected the letter of a type: u, i, d, a, s or b",
        }),
        _ => Some(Misfit {
            at,
            found: Found::Part(value),
            right: "expected a letter (u, i, d, a, s or b), a blank and the value",
        }),
    }
}

/// Returns the letter of a type, and what is expected instead of another one.
fn letter_of(kind: Kind) -> (u8, &'static str) {
    match kind {
        Kind::UInt32 | Kind::UInt64 => (b'u', "expected the letter u"),
        Kind::Int32 | Kind::Int64 => (b'i', "expected the letter i"),
        Kind::Decimal => (b'd', "expected the letter d"),
        Kind::Ascii => (b'a', "expected the letter a"),
        Kind::Unicode => (b's', "expected the letter s"),
        Kind::Bytes => (b'b', "expected the letter b"),
    }
}

/// Returns the error in a value that has the form of its letter, and is none of a field of this type. Its offset in the line is `at`.
pub(crate) fn range_misfit(kind: Kind, value: &[u8], at: usize) -> Option<Misfit<'_>> {
    let [letter, b' ', text @ ..] = value else {
        return None;
    };
    let (right_letter, right) = letter_of(kind);
    if *letter != right_letter {
        return Some(Misfit {
            at,
            found: Found::Part(part(value, 0, 1)),
            right,
        });
    }
    let at = at.saturating_add(2);
    let right = match kind {
        Kind::UInt32 => "expected a number from 0 to 4294967295",
        Kind::Int32 => "expected a number from -2147483648 to 2147483647",
        Kind::UInt64 => "expected a number from 0 to 18446744073709551615",
        Kind::Int64 => MANTISSA,
        Kind::Decimal => return parts_misfit(text, at),
        Kind::Ascii => return ascii_misfit(text, at),
        Kind::Unicode | Kind::Bytes => return None,
    };
    Some(Misfit {
        at,
        found: Found::Part(text),
        right,
    })
}

/// The range of an int64.
const MANTISSA: &str = "expected a number from -9223372036854775808 to 9223372036854775807";

/// Returns the error in a decimal whose exponent or mantissa is out of range. Its offset in the line is `at`.
fn parts_misfit(text: &[u8], at: usize) -> Option<Misfit<'_>> {
    let k = text.iter().position(|byte| *byte == b'e')?;
    let after = k.saturating_add(1);
    if parse_signed(part(text, 0, k)).is_none() {
        return Some(Misfit {
            at,
            found: Found::Part(part(text, 0, k)),
            right: MANTISSA,
        });
    }
    match parse_exponent(rest(text, after)) {
        Some(exponent) if -63 <= exponent && exponent <= 63 => None,
        _ => Some(Misfit {
            at: at.saturating_add(after),
            found: Found::Part(rest(text, after)),
            right: "expected an exponent from -63 to 63",
        }),
    }
}

/// Returns the first character of an ASCII string that is not ASCII. The string's offset in the line is `at`.
fn ascii_misfit(text: &[u8], at: usize) -> Option<Misfit<'_>> {
    let k = text.iter().position(|byte| *byte >= 0x80)?;
    Some(Misfit {
        at: at.saturating_add(k),
        found: found_at(text, k),
        right: "expected a character below U+0080",
    })
}
