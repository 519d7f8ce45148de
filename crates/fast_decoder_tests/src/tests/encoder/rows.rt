//! Rows that are read from their lines.

use super::super::put;
use super::super::rows::limits_of;
use fast_encoder::EncodeFault;
use fast_value::Limits;
use std::alloc::{AllocError, Global};
use std::test::Fail;

/// A row, whose first line says what it shows and the limits, and whose other lines are steps.
#[derive(Clone, Copy)]
pub struct Row<'t> {
    pub name: &'t str,
    pub limits: Limits,
    pub steps: &'t str,
}

impl Row<'_> {
    pub fn of(text: &str) -> Result<Row<'_>, Fail> {
        let (head, steps) = text.split_once('\n').unwrap_or((text, ""));
        let (name, words) = head.split_once('|').unwrap_or((head, "none"));
        match limits_of(words) {
            Some(limits) => Ok(Row {
                name,
                limits,
                steps,
            }),
            None => Err(Fail::new("no limits")),
        }
    }
}

/// A message, or `reset`, and the expected bytes or fault.
#[derive(Clone, Copy)]
pub struct Step<'t> {
    pub words: &'t str,
    pub due: &'t str,
}

impl Step<'_> {
    pub fn of(line: &str) -> Step<'_> {
        let (words, due) = line.split_once('>').unwrap_or((line, ""));
        Step {
            words: words.trim(),
            due: due.trim(),
        }
    }

    pub fn is_reset(&self) -> bool {
        self.words == "reset"
    }

    /// Returns whether a fault is expected.
    pub fn is_refused(&self) -> bool {
        is_fault(self.due)
    }
}

fn is_fault(due: &str) -> bool {
    matches!(due, "E1" | "E2" | "E3" | "E4" | "R9")
}

fn name_of(fault: EncodeFault) -> &'static str {
    match fault {
        EncodeFault::E1 => "E1",
        EncodeFault::E2 => "E2",
        EncodeFault::E3 => "E3",
        EncodeFault::E4 => "E4",
        EncodeFault::R9 => "R9",
        EncodeFault::Memory => "Memory",
    }
}

/// Returns the byte of a token such as `C0`, and 146 for `00*146`.
fn byte_of(word: &str) -> Option<(u8, u32)> {
    let (digits, times) = word.split_once('*').unwrap_or((word, "1"));
    Some((u8::from_str_radix(digits, 16).ok()?, times.parse().ok()?))
}

/// Removes a byte this many times from the front of the others. Returns whether it was there that often.
fn is_taken(rest: &mut &[u8], byte: u8, times: u32) -> bool {
    for _ in 0..times {
        match rest.strip_prefix(&[byte]) {
            Some(behind) => *rest = behind,
            None => return false,
        }
    }
    true
}

/// Returns whether the bytes are those of the tokens.
pub fn is_hex(bytes: &[u8], words: &str) -> bool {
    let mut rest = bytes;
    for word in words.split_whitespace() {
        match byte_of(word) {
            Some((byte, times)) => {
                if !is_taken(&mut rest, byte, times) {
                    return false;
                }
            }
            None => return false,
        }
    }
    rest.is_empty()
}

/// Returns whether this is the expected result, with the bytes that were appended.
pub fn is_answer(answer: Result<(), EncodeFault>, bytes: &[u8], due: &str) -> bool {
    match answer {
        Ok(()) => is_hex(bytes, due),
        Err(fault) => name_of(fault) == due && bytes.is_empty(),
    }
}

fn push_times(bytes: &mut Vec<u8>, byte: u8, times: u32) -> Result<(), AllocError> {
    for _ in 0..times {
        bytes.push(byte)?;
    }
    Ok(())
}

/// Returns the bytes of tokens.
pub fn bytes_of(alloc: Global, words: &str) -> Result<Vec<u8>, AllocError> {
    let mut bytes = Vec::new(alloc);
    for word in words.split_whitespace() {
        let (byte, times) = byte_of(word).unwrap_or((0, 0));
        push_times(&mut bytes, byte, times)?;
    }
    Ok(bytes)
}

fn push_word(text: &mut String, word: &str) -> Result<(), AllocError> {
    put(text, &[word, " "])
}

/// Adds the events of this number of elements of one field.
fn push_elements(text: &mut String, count: u32, field: &str) -> Result<(), AllocError> {
    for _ in 0..count {
        put(text, &["e ", field, " /e "])?;
    }
    Ok(())
}

/// Adds the events of a token of a message; an absent one has none.
fn push_events(text: &mut String, word: &str) -> Result<(), AllocError> {
    match word.split_once('*') {
        Some(("-", _)) => Ok(()),
        Some((front, field)) => match front.parse::<u32>() {
            Ok(count) => push_elements(text, count, field),
            Err(_) => push_word(text, word),
        },
        None if word == "-" => Ok(()),
        None => push_word(text, word),
    }
}

/// Returns the events of a message, each followed by a space.
pub fn events_of(alloc: Global, words: &str) -> Result<String, AllocError> {
    let mut text = String::new(alloc);
    for word in words.split_whitespace() {
        push_events(&mut text, word)?;
    }
    Ok(text)
}
