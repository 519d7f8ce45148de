//! Dictionaries and field operators.

mod examples;
mod rows;
mod sending;
mod stores;
mod table;

use fast_dict::operators::texts::text_of;
use fast_dict::operators::{
    Kept, Outcome, Sent, decide, joined, needs_join, subtract, tail_base, tail_keeps,
};
use fast_dict::previous::Previous;
use fast_dict::rule::common::{is_same, is_same_value};
use fast_tree::{FieldInstruction, Operator};
use fast_value::{Code, Scalar, Value};
use std::alloc::{AllocError, Global};

/// A fault of an operator, or a failed allocation for a joined string.
#[derive(Clone, Copy, PartialEq)]
enum Failed {
    Fault(Code),
    Memory,
}

impl From<Code> for Failed {
    fn from(code: Code) -> Failed {
        Failed::Fault(code)
    }
}

impl From<AllocError> for Failed {
    fn from(error: AllocError) -> Failed {
        let _ = error;
        Failed::Memory
    }
}

/// Returns an instruction.
fn instruction(
    alloc: Global,
    operator: Operator,
    kind: fast_value::Kind,
    optional: bool,
    initial: Option<Scalar<'_>>,
) -> Result<FieldInstruction, AllocError> {
    let initial = match initial {
        Some(value) => Some(Value::copy_of(alloc, value)?),
        None => None,
    };
    Ok(FieldInstruction {
        kind,
        optional,
        operator,
        initial,
        entry: None,
    })
}

/// Joins two strings in the buffer. Without a contract, so that a call is cheap to prove.
fn join(buffer: &mut Vec<u8>, front: &[u8], rest: &[u8]) -> Result<(), AllocError> {
    buffer.extend_from_slice(front)?;
    buffer.extend_from_slice(rest)
}

/// Joins a delta's part to the bytes kept of its base.
fn join_delta(
    field: &FieldInstruction,
    previous: Previous<'_>,
    length: i128,
    part: &[u8],
    buffer: &mut Vec<u8>,
) -> Result<(), Failed> {
    match subtract(field, previous, length)? {
        Kept::AppendTo(kept) => join(buffer, kept, part)?,
        Kept::PrependTo(kept) => join(buffer, part, kept)?,
    }
    Ok(())
}

/// Joins a tail to the bytes kept of its base.
fn join_tail(
    field: &FieldInstruction,
    previous: Previous<'_>,
    value: Scalar<'_>,
    buffer: &mut Vec<u8>,
) -> Result<(), Failed> {
    let part = text_of(value);
    let base = text_of(tail_base(field, previous)?);
    join(buffer, tail_keeps(base, part.len()), part)?;
    Ok(())
}

/// Joins the part that was sent to the bytes kept of its base.
fn join_sent(
    field: &FieldInstruction,
    previous: Previous<'_>,
    sent: Sent<'_>,
    buffer: &mut Vec<u8>,
) -> Result<(), Failed> {
    match sent {
        Sent::TextDelta(length, part) => join_delta(field, previous, length, part, buffer),
        Sent::Value(value) => join_tail(field, previous, value, buffer),
        _ => Ok(()),
    }
}

/// Returns the result of an operator, with a string joined in the buffer.
fn answer<'a>(
    field: &'a FieldInstruction,
    previous: Previous<'a>,
    bit: bool,
    sent: Sent<'a>,
    buffer: &'a mut Vec<u8>,
) -> Result<Outcome<'a>, Failed> {
    if !needs_join(field.operator, bit, sent) {
        return Ok(decide(field, previous, bit, sent)?);
    }
    join_sent(field, previous, sent, buffer)?;
    Ok(joined(field.kind, buffer)?)
}

/// Returns whether two previous values are the same.
fn is_same_previous(previous: Previous<'_>, wanted: Previous<'_>) -> bool {
    match (previous, wanted) {
        (Previous::Undefined, Previous::Undefined) => true,
        (Previous::Empty, Previous::Empty) => true,
        (Previous::Assigned(kind, value), Previous::Assigned(wanted_kind, wanted_value)) => {
            kind == wanted_kind && is_same(value, wanted_value)
        }
        _ => false,
    }
}

/// Returns whether two results are the same.
fn is_same_answer(
    answer: Result<Outcome<'_>, Failed>,
    wanted: Result<Outcome<'_>, Failed>,
) -> bool {
    match (answer, wanted) {
        (Ok(outcome), Ok(wanted)) => {
            is_same_value(outcome.value, wanted.value)
                && is_same_previous(outcome.next, wanted.next)
        }
        (Err(failed), Err(wanted)) => failed == wanted,
        _ => false,
    }
}
