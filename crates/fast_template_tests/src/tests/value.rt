//! Strings of initial values, a value that is borrowed and copied, and the name and description of a code.

use super::expect;
use fast_value::{Code, InitialFault, Kind, Limits, Scalar, Value, parse_initial};
use std::alloc::{AllocError, Global};
use std::process::Abort;
use std::test::Fail;

/// Returns the value of a string. Without a contract, so that a call is cheap to prove.
fn parsed(alloc: Global, kind: Kind, text: &str) -> Result<Value, InitialFault> {
    parse_initial(alloc, kind, text)
}

/// Checks that a string is refused.
fn expect_refused(rt: &impl Abort, alloc: Global, kind: Kind, text: &str) {
    let is_refused = matches!(parsed(alloc, kind, text), Err(InitialFault::S3));
    expect(rt, is_refused, text, text.len());
}

/// Checks that a string has this value.
fn expect_value(rt: &impl Abort, alloc: Global, kind: Kind, text: &str, value: Value) {
    let is_right = parsed(alloc, kind, text) == Ok(value);
    expect(rt, is_right, text, text.len());
}

const UNSIGNED: &[(Kind, &str, u64)] = &[
    (Kind::UInt32, "0", 0),
    (Kind::UInt32, "-0", 0),
    (Kind::UInt32, "00000000000000000007", 7),
    (Kind::UInt32, "4294967295", 4294967295),
    (Kind::UInt64, "18446744073709551615", u64::MAX),
];

const SIGNED: &[(Kind, &str, i64)] = &[
    (Kind::Int32, "-2147483648", -2147483648),
    (Kind::Int32, "2147483647", 2147483647),
    (Kind::Int64, "-9223372036854775808", i64::MIN),
    (Kind::Int64, "9223372036854775807", i64::MAX),
];

#[test]
fn integers_are_read_up_to_their_bounds(rt: HostRuntime) {
    for (kind, text, number) in UNSIGNED {
        expect_value(&rt, rt.alloc(), *kind, text, Value::U(*number));
    }
    for (kind, text, number) in SIGNED {
        expect_value(&rt, rt.alloc(), *kind, text, Value::I(*number));
    }
}

/// Integers, decimals, strings and bytes.
const REFUSED: &[(Kind, &str)] = &[
    (Kind::UInt32, "4294967296"),
    (Kind::UInt32, "-1"),
    (Kind::UInt64, "18446744073709551616"),
    (Kind::Int32, "2147483648"),
    (Kind::Int32, "-2147483649"),
    (Kind::Int64, "9223372036854775808"),
    (Kind::Int64, "-9223372036854775809"),
    (Kind::UInt32, "000000000000000000000"),
    (Kind::UInt32, ""),
    (Kind::UInt32, "-"),
    (Kind::UInt32, "+5"),
    (Kind::UInt32, " 5"),
    (Kind::UInt32, "5a"),
    (Kind::Decimal, "1.5"),
    (Kind::Decimal, "1e64"),
    (Kind::Decimal, "1e-64"),
    (Kind::Decimal, ""),
    (Kind::Decimal, "e5"),
    (Kind::Decimal, "5e"),
    (Kind::Decimal, "1e2e3"),
    (Kind::Decimal, "9223372036854775808"),
    (Kind::Ascii, "\u{e9}"),
    (Kind::Bytes, "abc"),
    (Kind::Bytes, "0g"),
];

#[test]
fn other_texts_are_refused(rt: HostRuntime) {
    for (kind, text) in REFUSED {
        expect_refused(&rt, rt.alloc(), *kind, text);
    }
}

const DECIMALS: &[(&str, i32, i64)] = &[
    ("15e-1", -1, 15),
    ("15", 0, 15),
    ("-1e63", 63, -1),
    ("0e-63", -63, 0),
];

#[test]
fn decimals_keep_their_exponent(rt: HostRuntime) {
    for (text, exponent, mantissa) in DECIMALS {
        let value = Value::Dec {
            exponent: *exponent,
            mantissa: *mantissa,
        };
        expect_value(&rt, rt.alloc(), Kind::Decimal, text, value);
    }
}

/// Strings, and the bytes of their values.
const TEXTS: &[(Kind, &str, &[u8])] = &[
    (Kind::Ascii, "AB c", &[0x41, 0x42, 0x20, 0x63]),
    (Kind::Unicode, "\u{e9}", &[0xC3, 0xA9]),
    (Kind::Bytes, "01fFAb", &[1, 0xFF, 0xAB]),
];

/// Returns the value of a string type with these bytes.
fn text_of(alloc: Global, kind: Kind, bytes: &[u8]) -> Result<Value, AllocError> {
    let bytes = Vec::from_slice(alloc, bytes)?;
    Ok(match kind {
        Kind::Ascii => Value::Ascii(bytes),
        Kind::Unicode => Value::Unicode(bytes),
        _ => Value::Bytes(bytes),
    })
}

#[test]
fn texts_and_bytes(rt: HostRuntime) -> Result<(), Fail> {
    for (kind, text, bytes) in TEXTS {
        let value = text_of(rt.alloc(), *kind, bytes)?;
        expect_value(&rt, rt.alloc(), *kind, text, value);
    }
    Ok(())
}

/// Returns a copy of this ASCII string.
fn copy_of(alloc: Global, text: &[u8]) -> Result<Value, AllocError> {
    Value::copy_of(alloc, Scalar::Ascii(text))
}

#[test]
fn a_copy_is_the_same_value(rt: HostRuntime) -> Result<(), Fail> {
    let text = b"GEH6".as_slice();
    let copy = copy_of(rt.alloc(), text)?;
    let same = text_of(rt.alloc(), Kind::Ascii, text)?;
    let lent = matches!(copy.as_scalar(), Scalar::Ascii(lent) if lent == text);
    expect(&rt, copy == same && lent, "a copy", text.len());
    Ok(())
}

#[rattlefmt::skip]
const CODES: &[(Code, u8, &str)] = &[
    (Code::D2, 1, "D2: an integer lies outside its type, or has ten bytes and no stop bit"),
    (Code::D9, 6, "D9: no template has the identifier"),
    (Code::L3, 15, "L3: a presence map has 146 bytes and no stop bit"),
];

/// Returns a code with its name and its description.
fn line_of(alloc: Global, code: Code) -> Result<String, AllocError> {
    let name = code.name();
    format!(in alloc; "{name}: {code}")
}

#[test]
fn a_code_has_a_number_a_name_and_a_sentence(rt: HostRuntime) -> Result<(), Fail> {
    for (code, number, line) in CODES {
        let found = line_of(rt.alloc(), *code)?;
        let is_right = found.as_str() == *line && code.number() == *number;
        expect(&rt, is_right, line, usize::from(*number));
    }
    Ok(())
}

#[test]
fn limits_have_a_default(rt: HostRuntime) {
    let limits = Limits {
        strict: false,
        max_text: 1024,
        max_elements: 1000,
        max_total: 1000,
    };
    expect(&rt, Limits::default() == limits, "limits", 0);
}
