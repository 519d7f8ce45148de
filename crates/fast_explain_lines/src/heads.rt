//! The words of a line up to its value that have not their form.

use crate::misfits::{Found, Misfit, control_misfit, found_at, part, rest, word_end};
use crate::values::value_misfit;
use fast_lines::numbers::{is_digits, parse_number};

/// The greatest length of a name.
const LONGEST_NAME: usize = 64;

/// The form of a name.
const NAME: &str = "expected a name of 1 to 64 letters, digits, _, - and points";

/// Returns the error at the end of a word, after which a blank and one more word have to come.
fn gap_misfit<'a>(line: &'a [u8], at: usize, right: &'static str) -> Option<Misfit<'a>> {
    let after = at.saturating_add(1);
    if after >= line.len() {
        return Some(Misfit {
            at: line.len(),
            found: Found::Said("the end of the line"),
            right,
        });
    }
    if line.get(after).copied() == Some(b' ') {
        return Some(Misfit {
            at: after,
            found: Found::Said("a second blank"),
            right: "expected one blank",
        });
    }
    None
}

/// Returns the error after the last word of a line.
fn end_misfit(line: &[u8], at: usize) -> Option<Misfit<'_>> {
    if at >= line.len() {
        return None;
    }
    let after = at.saturating_add(1);
    if rest(line, at).iter().all(|byte| *byte == b' ') {
        return Some(Misfit {
            at,
            found: Found::Said("a blank"),
            right: "expected the end of the line",
        });
    }
    Some(Misfit {
        at: after,
        found: Found::Part(rest(line, after)),
        right: "expected the end of the line",
    })
}

/// Returns the error in a number between two offsets.
fn number_misfit<'a>(
    line: &'a [u8],
    from: usize,
    to: usize,
    right: &'static str,
) -> Option<Misfit<'a>> {
    let word = part(line, from, to);
    if parse_number(word).is_some() {
        return None;
    }
    if let Some(misfit) = control_misfit(line, from, to) {
        return Some(misfit);
    }
    let right = if is_digits(word) {
        "expected a number from 0 to 4294967295"
    } else if word.iter().all(|byte| byte.is_ascii_digit()) {
        "expected a number without leading zeros"
    } else {
        right
    };
    Some(Misfit {
        at: from,
        found: Found::Part(word),
        right,
    })
}

/// Returns whether a name can contain the character.
fn is_name_byte(byte: u8) -> bool {
    byte.is_ascii_alphanumeric() || byte == b'_' || byte == b'-' || byte == b'.'
}

/// Returns the error in a name between two offsets.
fn name_misfit(line: &[u8], from: usize, to: usize) -> Option<Misfit<'_>> {
    let word = part(line, from, to);
    if let Some(k) = word.iter().position(|byte| !is_name_byte(*byte)) {
        return Some(Misfit {
            at: from.saturating_add(k),
            found: found_at(word, k),
            right: NAME,
        });
    }
    if word.len() <= LONGEST_NAME {
        return None;
    }
    Some(Misfit {
        at: from,
        found: Found::Part(word),
        right: NAME,
    })
}

/// Returns the error in a line `message NAME`, after its first word.
pub(crate) fn message_misfit(line: &[u8], at: usize) -> Option<Misfit<'_>> {
    let from = at.saturating_add(1);
    let to = word_end(line, from);
    gap_misfit(line, at, "expected a blank and the name of a template")
        .or_else(|| name_misfit(line, from, to))
        .or_else(|| end_misfit(line, to))
}

/// Returns the error in the number and the name of a node, after the first word of a line, or the offset after them.
fn node_misfit(line: &[u8], at: usize) -> Result<usize, Misfit<'_>> {
    let from = at.saturating_add(1);
    let to = word_end(line, from);
    let name = to.saturating_add(1);
    let end = word_end(line, name);
    let misfit = gap_misfit(line, at, "expected a blank and the number of a node")
        .or_else(|| number_misfit(line, from, to, "expected the number of a node"))
        .or_else(|| gap_misfit(line, to, "expected a blank and the name of the node"))
        .or_else(|| name_misfit(line, name, end));
    match misfit {
        Some(misfit) => Err(misfit),
        None => Ok(end),
    }
}

/// Returns the error in a line `group NODE NAME`, after its first word.
pub(crate) fn group_misfit(line: &[u8], at: usize) -> Option<Misfit<'_>> {
    match node_misfit(line, at) {
        Ok(end) => end_misfit(line, end),
        Err(misfit) => Some(misfit),
    }
}

/// Returns the error in a line `sequence NODE NAME COUNT`, after its first word.
pub(crate) fn sequence_misfit(line: &[u8], at: usize) -> Option<Misfit<'_>> {
    match node_misfit(line, at) {
        Ok(end) => {
            let from = end.saturating_add(1);
            let to = word_end(line, from);
            gap_misfit(line, end, "expected a blank and the number of elements")
                .or_else(|| number_misfit(line, from, to, "expected the number of elements"))
                .or_else(|| end_misfit(line, to))
        }
        Err(misfit) => Some(misfit),
    }
}

/// Returns the error in a line `field NODE NAME LETTER VALUE`, after its first word.
pub(crate) fn field_misfit(line: &[u8], at: usize) -> Option<Misfit<'_>> {
    match node_misfit(line, at) {
        Ok(end) => {
            let from = end.saturating_add(1);
            gap_misfit(
                line,
                end,
                "expected a blank, a letter (u, i, d, a, s or b), a blank and the value",
            )
            .or_else(|| value_misfit(line, from))
        }
        Err(misfit) => Some(misfit),
    }
}

/// Returns the error in a line that begins with `end`, after that word.
pub(crate) fn ending_misfit(line: &[u8], at: usize) -> Option<Misfit<'_>> {
    let from = at.saturating_add(1);
    let to = word_end(line, from);
    if let Some(misfit) = gap_misfit(
        line,
        at,
        "expected a blank and group, element, sequence or message",
    ) {
        return Some(misfit);
    }
    let word = part(line, from, to);
    if word == b"group".as_slice()
        || word == b"element".as_slice()
        || word == b"sequence".as_slice()
        || word == b"message".as_slice()
    {
        return end_misfit(line, to);
    }
    Some(Misfit {
        at: from,
        found: Found::Part(word),
        right: "expected group, element, sequence or message",
    })
}

/// Returns the error in a line that begins with `element`, after that word.
pub(crate) fn element_misfit(line: &[u8], at: usize) -> Option<Misfit<'_>> {
    end_misfit(line, at)
}
