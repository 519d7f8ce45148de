//! Strings in quotes, as lines have them.

ghost use Rattle.std.specs.Prelude.{◌≡◌, ◌≢◌, ◌↔◌, ℕ, ◌<◌, List, [], ◌∷◌, ◌++◌, IsTrue, All, IfSome, IfNone, IfOk, flat_map};
ghost use Rattle.fast_lines.specs.meaning.Lines.{hex_digit, hex_byte, escaped, quoted};
ghost use Rattle.fast_lines.specs.meaning.Texts.{IsMarked, IsControl, IsPlain};

use std::alloc::{AllocError, Global};

/// Returns whether a byte of a string is written after a backslash.
fn is_marked(byte: u8) -> bool
    ensures { IsTrue result ↔ IsMarked byte }
{
    byte == b'"' || byte == b'\\'
}

/// Returns whether a byte of a string is written in hexadecimal.
fn is_control(byte: u8) -> bool
    ensures { IsTrue result ↔ IsControl byte }
{
    byte < 0x20 || byte == 0x7f
}

/// Returns whether a byte of a string is written unescaped.
fn is_plain(byte: u8) -> bool
    ensures { IsTrue result ↔ IsPlain byte }
{
    byte >= 0x20 && byte != 0x7f && byte != b'"' && byte != b'\\'
}

/// Returns whether all bytes of a string are written unescaped.
fn are_plain(text: &[u8]) -> bool
    ensures { IsTrue result ↔ All IsPlain text.now }
{
    text.iter().all(|byte| is_plain(*byte))
}

/// Returns whether a string is written between its quotes as it is.
fn stands_alike(text: &[u8]) -> bool
    ensures { IsTrue result → flat_map escaped text.now ≡ text.now }
{
    are_plain(text)
}

/// Returns the value of a lower case hexadecimal digit.
fn digit_value(digit: u8) -> Option<u8>
    ensures value { IfSome result (λ n. (n < 16) × (digit ≡ hex_digit n)) }
    ensures none { IfNone result ((n : ℕ) → n < 16 → digit ≢ hex_digit n) }
{
    match digit {
        b'0'..=b'9' => Some(digit - b'0'),
        b'a'..=b'f' => Some(digit - b'a' + 10),
        _ => None,
    }
}

/// Returns the byte of two lower case hexadecimal digits.
fn pair_value(high: u8, low: u8) -> Option<u8>
    ensures value { IfSome result (λ c. high ∷ low ∷ [] ≡ hex_byte c) }
    ensures none { IfNone result ((c : ℕ) → c < 256 → high ∷ low ∷ [] ≢ hex_byte c) }
{
    match (digit_value(high), digit_value(low)) {
        (Some(high), Some(low)) => Some(16 * high + low),
        _ => None,
    }
}

/// Parses the digits after `\x`. Returns the byte and what follows it.
fn first_control(text: &[u8]) -> Option<(u8, &[u8])>
    ensures first { IfSome result (λ r. 0x5C ∷ 0x78 ∷ text.now ≡ escaped r.0 ++ r.1.now) }
    ensures none { IfNone result ((c : ℕ) (t : List ℕ) → 0x5C ∷ 0x78 ∷ text.now ≢ escaped c ++ t) }
{
    let [high, low, rest @ ..] = text else {
        return None;
    };
    match pair_value(*high, *low) {
        Some(byte) if is_control(byte) => Some((byte, rest)),
        _ => None,
    }
}

/// Parses an escape after its backslash. Returns the byte and what follows it.
fn first_escape(text: &[u8]) -> Option<(u8, &[u8])>
    ensures first { IfSome result (λ r. 0x5C ∷ text.now ≡ escaped r.0 ++ r.1.now) }
    ensures none { IfNone result ((c : ℕ) (t : List ℕ) → 0x5C ∷ text.now ≢ escaped c ++ t) }
{
    let [first, rest @ ..] = text else {
        return None;
    };
    if is_marked(*first) {
        Some((*first, rest))
    } else if *first == b'x' {
        first_control(rest)
    } else {
        None
    }
}

/// Parses the first byte of a string's content. Returns the byte and what follows it.
fn first_byte(text: &[u8]) -> Option<(u8, &[u8])>
    ensures first { IfSome result (λ r. text.now ≡ escaped r.0 ++ r.1.now) }
    ensures none { IfNone result ((c : ℕ) (t : List ℕ) → text.now ≢ escaped c ++ t) }
{
    let [first, rest @ ..] = text else {
        return None;
    };
    if is_plain(*first) {
        Some((*first, rest))
    } else if *first == b'\\' {
        first_escape(rest)
    } else {
        None
    }
}

/// Returns the bytes of a string's content without its quotes; `None` if the content is invalid.
fn unescape(alloc: Global, text: &[u8]) -> Result<Option<Vec<u8>>, AllocError>
    ensures value { IfOk result (λ o. IfSome o (λ v. text.now ≡ flat_map escaped v.items)) }
    ensures none { IfOk result (λ o. IfNone o ((v : List ℕ) → text.now ≢ flat_map escaped v)) }
{
    let mut bytes = Vec::new(alloc);
    let mut rest = text;
    while !rest.is_empty() {
        let Some((byte, others)) = first_byte(rest) else {
            return Ok(None);
        };
        bytes.push(byte)?;
        rest = others;
    }
    Ok(Some(bytes))
}

/// Returns the bytes of a string in quotes; `None` if the input is none.
pub fn unquote(alloc: Global, text: &[u8]) -> Result<Option<Vec<u8>>, AllocError>
    ensures value { IfOk result (λ o. IfSome o (λ v. text.now ≡ quoted v.items)) }
    ensures none { IfOk result (λ o. IfNone o ((v : List ℕ) → text.now ≢ quoted v)) }
{
    let [b'"', inner @ .., b'"'] = text else {
        return Ok(None);
    };
    if stands_alike(inner) {
        Ok(Some(Vec::from_slice(alloc, inner)?))
    } else {
        unescape(alloc, inner)
    }
}
