//! Values as JSON.

ghost use Rattle.std.specs.Prelude.{◌≡◌, ◌≤◌, [], ◌∷◌, ◌++◌, IsTrue, All, length, take, codes, flat_map};
ghost use Rattle.std.specs.Fmt.{signed_decimal};
ghost use Rattle.fast_value.specs.meaning.Kinds.{Dec, ByteVector};
ghost use Rattle.fast_value.specs.meaning.Values.{scalar_data};
ghost use Rattle.fast_text.specs.meaning.LineWriter.{Writes};
ghost use Rattle.fast_json.specs.meaning.Json.{json_escaped, json_string, json_value};

use fast_text::{LineWriter, Target};
use fast_value::Scalar;

/// Returns whether a byte of a string is written unescaped.
fn is_plain(byte: u8) -> bool
    ensures { IsTrue result → json_escaped byte ≡ byte ∷ [] }
{
    byte != b'"' && byte != b'\\' && byte >= 0x20 && byte != 0x7f
}

/// Returns the number of bytes at the start of a string that are written unescaped.
fn plain_len(text: &[u8]) -> usize
    ensures within { result ≤ length text.now }
    ensures plain { All (λ c. json_escaped c ≡ c ∷ []) (take result text.now) }
{
    text.iter()
        .position(|byte| !is_plain(*byte))
        .unwrap_or(text.len())
}

/// Writes a byte of a string that is no plain one.
fn put_escaped<T: Target>(line: &mut LineWriter<'_, T>, byte: u8)
    ensures { Writes T.written T.has_failed line.old (json_escaped byte) line.new }
{
    if byte == b'"' || byte == b'\\' {
        line.put(&[b'\\', byte]);
    } else if byte < 0x20 || byte == 0x7f {
        line.put(b"\\u00");
        line.put_hex(&[byte]);
    } else {
        line.put(&[byte]);
    }
}

/// Writes a string in quotes, with the escapes of JSON. Quotes and backslashes have a backslash before them, and control characters are
/// written as `\u00` and two hexadecimal digits.
pub fn put_string<T: Target>(line: &mut LineWriter<'_, T>, text: &[u8])
    ensures { Writes T.written T.has_failed line.old (json_string text.now) line.new }
{
    line.put(b"\"");
    let mut rest = text;
    while !rest.is_empty() {
        let (plain, others) = rest.split_at(plain_len(rest));
        line.put(plain);
        rest = others;
        if let Some((byte, others)) = rest.split_first() {
            put_escaped(line, *byte);
            rest = others;
        }
    }
    line.put(b"\"");
}

/// Writes a decimal, as a string, so that no reader rounds it.
fn put_decimal<T: Target>(line: &mut LineWriter<'_, T>, exponent: i32, mantissa: i64)
    ensures { Writes T.written T.has_failed line.old (json_value (Dec exponent mantissa)) line.new }
{
    line.put(b"\"");
    line.put_signed(mantissa);
    line.put(b"e");
    line.put_signed(i64::from(exponent));
    line.put(b"\"");
}

/// Writes a byte vector, as a string of lower case hexadecimal digits.
fn put_bytes<T: Target>(line: &mut LineWriter<'_, T>, bytes: &[u8])
    ensures { Writes T.written T.has_failed line.old (json_value (ByteVector bytes.now)) line.new }
{
    line.put(b"\"");
    line.put_hex(bytes);
    line.put(b"\"");
}

/// Writes a value: an integer as a number, any other value as a string.
pub fn put_value<T: Target>(line: &mut LineWriter<'_, T>, value: Scalar<'_>)
    ensures { Writes T.written T.has_failed line.old (json_value (scalar_data value.entry)) line.new }
{
    match value {
        Scalar::U(number) => line.put_unsigned(number),
        Scalar::I(number) => line.put_signed(number),
        Scalar::Dec { exponent, mantissa } => put_decimal(line, exponent, mantissa),
        Scalar::Ascii(text) => put_string(line, text),
        Scalar::Unicode(text) => put_string(line, text),
        Scalar::Bytes(bytes) => put_bytes(line, bytes),
    }
}
