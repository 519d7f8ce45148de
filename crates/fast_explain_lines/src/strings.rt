//! Strings and byte vectors of lines that have not their form.

use crate::misfits::{Found, Misfit, found_at, part, rest};

/// Returns whether a byte is a lower case hexadecimal digit.
fn is_digit(byte: Option<u8>) -> bool {
    matches!(byte, Some(b'0'..=b'9' | b'a'..=b'f'))
}

/// Returns whether two lower case hexadecimal digits are those of a control character.
fn is_control(high: Option<u8>, low: Option<u8>) -> bool {
    matches!(
        (high, low),
        (Some(b'0' | b'1'), _) | (Some(b'7'), Some(b'f'))
    )
}

/// Returns the length of the escape at the start of `text`, which begins with a backslash, or what is expected in its place.
fn escape_length(text: &[u8]) -> Result<usize, &'static str> {
    match text.get(1).copied() {
        Some(b'"' | b'\\') => Ok(2),
        Some(b'x') => {
            let (high, low) = (text.get(2).copied(), text.get(3).copied());
            if !is_digit(high) || !is_digit(low) {
                Err("expected two lower case hexadecimal digits after \\x")
            } else if is_control(high, low) {
                Ok(4)
            } else {
                Err("expected the character itself, since \\x is for control characters")
            }
        }
        _ => Err("expected \\\", \\\\ or \\x and two digits"),
    }
}

/// Returns the error at the quote at offset `k` of a string, if it is not the last character.
fn quote_misfit(text: &[u8], k: usize, at: usize) -> Option<Misfit<'_>> {
    let after = k.saturating_add(1);
    if after >= text.len() {
        return None;
    }
    Some(Misfit {
        at: at.saturating_add(after),
        found: found_at(text, after),
        right: "expected the end of the line; a quote in a string is written \\\"",
    })
}

/// Returns the offset after the character at offset `k` of a string, or the error there, if there is one: the string may also end.
fn character_end(text: &[u8], k: usize, at: usize) -> Result<usize, Option<Misfit<'_>>> {
    let place = at.saturating_add(k);
    match text.get(k).copied() {
        None => Err(Some(Misfit {
            at: place,
            found: Found::Said("the end of the line"),
            right: "expected a double quote",
        })),
        Some(b'"') => Err(quote_misfit(text, k, at)),
        Some(b'\\') => match escape_length(rest(text, k)) {
            Ok(length) => Ok(k.saturating_add(length)),
            Err(right) => Err(Some(Misfit {
                at: place,
                found: Found::Part(escape_of(text, k)),
                right,
            })),
        },
        Some(byte) if byte < 0x20 || byte == 0x7f => Err(Some(Misfit {
            at: place,
            found: found_at(text, k),
            right: "expected \\x and two digits, as \\x09 for a tab",
        })),
        Some(_) => Ok(k.saturating_add(1)),
    }
}

/// Returns the error in a string in quotes, whose offset in the line is `at`.
pub(crate) fn string_misfit(text: &[u8], at: usize) -> Option<Misfit<'_>> {
    if text.first().copied() != Some(b'"') {
        return Some(Misfit {
            at,
            found: if text.is_empty() {
                found_at(text, 0)
            } else {
                Found::Part(text)
            },
            right: "expected a string in double quotes",
        });
    }
    let mut k: usize = 1;
    for _byte in 0..text.len() {
        match character_end(text, k, at) {
            Ok(end) => k = end,
            Err(misfit) => return misfit,
        }
    }
    None
}

/// Returns the backslash at offset `k` with the character after it.
fn escape_of(text: &[u8], k: usize) -> &[u8] {
    let after = k.saturating_add(1);
    match found_at(text, after) {
        Found::Part(bytes) => part(text, k, after.saturating_add(bytes.len())),
        Found::Said(_) => part(text, k, after),
    }
}

/// Returns the error in the digits of a byte vector, whose offset in the line is `at`.
pub(crate) fn bytes_misfit(text: &[u8], at: usize) -> Option<Misfit<'_>> {
    for (k, byte) in text.iter().enumerate() {
        if !is_digit(Some(*byte)) {
            return Some(Misfit {
                at: at.saturating_add(k),
                found: found_at(text, k),
                right: "expected lower case hexadecimal digits alone",
            });
        }
    }
    if text.len() % 2 == 0 {
        return None;
    }
    Some(Misfit {
        at: at.saturating_add(text.len()),
        found: Found::Said("the end of the line"),
        right: "expected a second digit, since a byte has two",
    })
}
