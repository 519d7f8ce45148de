//! Explanations of messages that the encoder refuses.

ghost use Rattle.std.specs.Prelude.{◌≤◌, length};

use crate::misfits::{Found, put_found, put_place, rest, text_of};
use crate::nodes::end_with_node;
use crate::places::offset_after;
use crate::walks::Lines;
use fast_lines::forms::{Line, parse_line};
use fast_lines::values::parse_value;
use fast_notes::{NOTE_ROOM, Note, put, put_number, put_quoted};
use fast_spelling::EncodeFault;
use fast_template::Templates;
use fast_tree::{FieldInstruction, Operator, Shape};
use fast_value::{Limits, Value};
use std::alloc::Global;
use std::fmt::Write;

/// The data that a refused message is checked against.
#[derive(Clone, Copy)]
struct Check<'a> {
    alloc: Global,
    templates: &'a Templates,
    limits: Limits,
    fault: EncodeFault,
}

/// The reason for which a field, or the count of a sequence, is refused.
#[derive(Clone, Copy)]
enum Reason<'a> {
    /// It, or this part of it, is a constant with another value.
    Constant(&'static str, &'a Value),
    /// It is longer than this many bytes.
    Text(usize),
    /// It is greater than this number of elements.
    Elements(u32),
    /// It makes the elements of the message more than this number.
    Total(u32),
    /// It has a zero character.
    Zero,
}

/// Writes bytes in hexadecimal digits. Returns whether they had room.
fn put_digits(note: &mut Note, bytes: &[u8]) -> bool {
    for byte in bytes {
        if write!(note, "{byte:02x}").is_err() {
            return false;
        }
    }
    true
}

/// Writes a value of a template. Returns whether it had room.
fn put_value(note: &mut Note, value: &Value) -> bool {
    match value {
        Value::U(number) => put_number(note, *number),
        Value::I(number) => write!(note, "{number}").is_ok(),
        Value::Dec { exponent, mantissa } => write!(note, "{mantissa}e{exponent}").is_ok(),
        Value::Ascii(text) | Value::Unicode(text) => { put_quoted(note, text_of(text.as_slice())) }
        Value::Bytes(bytes) => put_digits(note, bytes.as_slice()),
    }
}

/// Writes a reason. Returns whether it had room.
fn put_reason(note: &mut Note, reason: Reason<'_>) -> bool {
    match reason {
        Reason::Constant(part, value) => {
            put(note, &["expected ", part])
                && put_value(note, value)
                && put(note, &[", a constant"])
        }
        Reason::Text(limit) => {
            put(note, &["expected at most "])
                && put_number(note, limit as u64)
                && put(note, &[" bytes (--max-text)"])
        }
        Reason::Elements(limit) => {
            put(note, &["expected at most "])
                && put_number(note, u64::from(limit))
                && put(note, &[" elements (--max-elements)"])
        }
        Reason::Total(limit) => {
            put(note, &["expected at most "])
                && put_number(note, u64::from(limit))
                && put(
                    note,
                    &[" elements in all sequences of the message (--max-total)"],
                )
        }
        Reason::Zero => put(note, &["expected an ASCII string without \\x00"]),
    }
}

/// Returns the value of a constant, if this is one.
fn constant_of(field: &FieldInstruction) -> Option<&Value> {
    match field.operator {
        Operator::Constant => field.initial.as_ref(),
        _ => None,
    }
}

/// Returns whether an integer is another one than this value.
fn differs(number: i64, value: &Value) -> bool {
    match value {
        Value::I(other) => *other != number,
        _ => false,
    }
}

/// Returns the constant of a field's node that differs from a value, after a word for its part.
fn other_constant<'a>(shape: &'a Shape, value: &Value) -> Option<(&'static str, &'a Value)> {
    match (shape, value) {
        (Shape::Field(field), _) => match constant_of(field) {
            Some(constant) if *constant != *value => Some(("", constant)),
            _ => None,
        },
        (
            Shape::Decimal {
                exponent: e,
                mantissa: m,
            },
            Value::Dec { exponent, mantissa },
        ) => {
            match (constant_of(e), constant_of(m)) {
                (Some(constant), _) if differs(i64::from(*exponent), constant) => {
                    Some(("the exponent ", constant))
                }
                (_, Some(constant)) if differs(*mantissa, constant) => {
                    Some(("the mantissa ", constant))
                }
                _ => None,
            }
        }
        _ => None,
    }
}

/// Returns whether the value of a line is an ASCII string with a zero character.
fn has_zero(value: &[u8]) -> bool {
    value.starts_with(b"a ".as_slice()) && value.windows(4).any(|four| four == b"\\x00".as_slice())
}

/// Returns the length of a value that is a string or a byte vector.
fn length_of(value: &Value) -> usize {
    match value {
        Value::Ascii(text) | Value::Unicode(text) => text.len(),
        Value::Bytes(bytes) => bytes.len(),
        Value::U(_) | Value::I(_) | Value::Dec { .. } => 0,
    }
}

impl<'a> Check<'a> {
    /// Returns the reason for which a field has the fault, if it has one.
    fn field_reason(&self, node: u32, text: &[u8]) -> Option<Reason<'a>> {
        let templates = self.templates;
        if node >= templates.nodes() {
            return None;
        }
        let Ok(Some(value)) = parse_value(self.alloc, text) else {
            return None;
        };
        match self.fault {
            EncodeFault::E3 => {
                let (part, constant) = other_constant(&templates.node(node).shape, &value)?;
                Some(Reason::Constant(part, constant))
            }
            EncodeFault::E4 if length_of(&value) > self.limits.max_text => {
                Some(Reason::Text(self.limits.max_text))
            }
            _ => None,
        }
    }

    /// Returns the reason for which a sequence of `count` elements has the fault, after `total` elements in all, if it has one.
    fn count_reason(&self, node: u32, count: u32, total: u64) -> Option<Reason<'a>> {
        match self.fault {
            EncodeFault::E4 if count > self.limits.max_elements => {
                Some(Reason::Elements(self.limits.max_elements))
            }
            EncodeFault::E4 if total > u64::from(self.limits.max_total) => {
                Some(Reason::Total(self.limits.max_total))
            }
            EncodeFault::E3 => self.length_reason(node, count),
            _ => None,
        }
    }

    /// Returns the constant length of a sequence that differs from `count`.
    fn length_reason(&self, node: u32, count: u32) -> Option<Reason<'a>> {
        let templates = self.templates;
        if node >= templates.nodes() {
            return None;
        }
        match &templates.node(node).shape {
            Shape::Sequence { length, .. } => match constant_of(length)? {
                Value::U(number) if *number == u64::from(count) => None,
                constant => Some(Reason::Constant("", constant)),
            },
            _ => None,
        }
    }

    /// Writes the first field or sequence of a message that has the fault. The lines are those after its first one, which has this number.
    fn tell_lines(&self, note: &mut Note, mut lines: Lines<'_>, first: u64) {
        let mut total: u64 = 0;
        for before in first..u64::MAX {
            let Some(line) = lines.next() else {
                return;
            };
            let (node, at, reason) = match parse_line(line) {
                Some(Line::Field { node, value, .. }) => {
                    let at = line.len().saturating_sub(value.len()).saturating_add(2);
                    (node, at, self.field_reason(node, value))
                }
                Some(Line::Sequence { node, count, .. }) => {
                    total = total.saturating_add(u64::from(count));
                    (
                        node,
                        offset_after(line, 3),
                        self.count_reason(node, count, total),
                    )
                }
                Some(Line::MessageEnd) | None => return,
                Some(_) => continue,
            };
            if let Some(reason) = reason {
                return self.tell(note, before.saturating_add(1), line, at, node, reason);
            }
        }
    }

    /// Writes the only ASCII string of a message that has a zero character, if only one has. The lines are those after its first one, which
    /// has this number.
    fn tell_zero(&self, note: &mut Note, mut lines: Lines<'_>, first: u64) {
        let mut only = None;
        for before in first..u64::MAX {
            let Some(line) = lines.next() else {
                return;
            };
            match parse_line(line) {
                Some(Line::Field { node, value, .. }) if has_zero(value) => {
                    if only.is_some() {
                        return;
                    }
                    only = Some((before.saturating_add(1), line, node, value));
                }
                Some(Line::MessageEnd) | None => break,
                Some(_) => {}
            }
        }
        if let Some((number, line, node, value)) = only {
            let at = line.len().saturating_sub(value.len()).saturating_add(2);
            self.tell(note, number, line, at, node, Reason::Zero);
        }
    }

    /// Writes the reason for which a line has the fault.
    fn tell(
        &self,
        note: &mut Note,
        number: u64,
        line: &[u8],
        at: usize,
        node: u32,
        reason: Reason<'_>,
    ) {
        let _ = put_place(note, number, line, at)
            && put_found(note, Found::Part(rest(line, at)))
            && put(note, &[": "])
            && put_reason(note, reason)
            && end_with_node(note, self.templates, node);
    }
}

/// Writes the line of a message, which has this name, and why it is refused.
fn tell_message(note: &mut Note, check: &Check<'_>, lines: Lines<'_>, number: u64, line: &[u8]) {
    let at = offset_after(line, 1);
    let _ = put(note, &["  the message begins in line "])
        && put_number(note, number)
        && put(note, &[", template "])
        && put_found(note, Found::Part(rest(line, at)))
        && match check.fault {
            EncodeFault::E1 => put(note, &[", which has no id"]),
            _ => true,
        }
        && put(note, &["\n"]);
    match check.fault {
        EncodeFault::R9 => check.tell_zero(note, lines, number),
        _ => check.tell_lines(note, lines, number),
    }
}

/// Explains why the encoder refuses a message: the sentence of the code, the line at which the message begins, and the field, if this
/// message alone decides it. `text` must be the lines of all messages, and `message` the number of the message, from 0; if there is no text,
/// only the sentence is written.
pub fn explain_message(
    alloc: Global,
    templates: &Templates,
    limits: Limits,
    text: Option<&[u8]>,
    message: u64,
    fault: EncodeFault,
) -> Note
    ensures { length result.bytes ≤ NOTE_ROOM }
{
    let mut note = Note::new();
    let _ = writeln!(note, "  {fault}");
    let check = Check {
        alloc,
        templates,
        limits,
        fault,
    };
    if let Some(text) = text {
        find_message(&mut note, &check, text, message);
    }
    prove!(note.len() <= NOTE_ROOM);
    note
}

/// Finds the message of a number, and writes why it is refused.
fn find_message(note: &mut Note, check: &Check<'_>, text: &[u8], message: u64) {
    let mut lines = Lines::new(text);
    let mut begun: u64 = 0;
    for before in 0..u64::MAX {
        let Some(line) = lines.next() else {
            return;
        };
        if line.starts_with(b"message ".as_slice()) {
            if begun == message {
                return tell_message(note, check, lines, before.saturating_add(1), line);
            }
            begun = begun.saturating_add(1);
        }
    }
}
