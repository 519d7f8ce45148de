//! Messages, with their bytes or their fault, and the events that decoders read from the bytes.
//!
//! A row is a string, which costs the prover nothing. Its first line says what it shows and the limits, as `what | lenient` followed by
//! each limit that is not the usual one: `text=16`, `elements=2` or `total=2`. Each further line is a step of a new encoder:
//!
//!     m0 u0=942755 /m > C0 81 39 45 A3
//!     m0 - /m > E2
//!     reset
//!
//! A message is written by its events, as `Script` writes them. `-` is an absent one, and gives none; `-*299` are 299 of them, and
//! `1000*u2=7` are 1000 elements, each with this field. A string is in quotes, or is digits after an `x` if it is not UTF-8. The result of
//! a message is its bytes, `00*146` for 146 of them, or a fault.

mod back;
mod growths;
mod lengths;
mod limits;
mod messages;
mod operators;
mod rows;
mod values;
mod worked;
mod zeros;

use super::{Case, LENIENT, Script, expect_of, feed, set_of};
pub use back::{expect_ends, expect_row_back};
use fast_decoder::{Decoder, MakeError};
use fast_encoder::{EncodeFault, Encoder};
use fast_template::Templates;
use fast_value::{Limits, Message};
use messages::message_of;
use rows::{Row, Step, bytes_of, events_of, is_answer};
use std::alloc::{AllocError, Global};
use std::process::Abort;
use std::test::Fail;

/// The bytes before those of a message, which have to stay there.
const BEFORE: &[u8] = &[0x5A, 0xA5];

/// Encodes a message. Without a contract, so that a call is cheap to prove, as those of the next functions.
fn encode(
    encoder: &mut Encoder<'_>,
    message: &Message,
    out: &mut Vec<u8>,
) -> Result<(), EncodeFault> {
    encoder.encode(message, out)
}

fn reset(encoder: &mut Encoder<'_>) {
    encoder.reset();
}

fn encoder_of(alloc: Global, set: &Templates, limits: Limits) -> Result<Encoder<'_>, MakeError> {
    Encoder::new(alloc, set, limits)
}

/// Makes one comparison, under the name that a test gives it.
fn expect(rt: &impl Abort, is_right: bool, of: &str, line: &str) {
    assert!(rt; is_right, "{of}: {line}");
}

/// Returns whether the encoder gives the expected result for a message, after the bytes that are there before.
fn is_encoded(
    encoder: &mut Encoder<'_>,
    message: &Message,
    out: &mut Vec<u8>,
    due: &str,
) -> Result<bool, AllocError> {
    out.extend_from_slice(BEFORE)?;
    let answer = encode(encoder, message, out);
    Ok(match out.strip_prefix(BEFORE) {
        Some(bytes) => is_answer(answer, bytes, due),
        None => false,
    })
}

/// Returns whether the encoder gives the expected result for a message, in a new buffer.
fn is_made(
    alloc: Global,
    encoder: &mut Encoder<'_>,
    message: &Message,
    due: &str,
) -> Result<bool, AllocError> {
    let mut out = Vec::new(alloc);
    is_encoded(encoder, message, &mut out, due)
}

/// Returns whether the encoder gives the expected result for the message of this line.
fn is_message(
    alloc: Global,
    encoder: &mut Encoder<'_>,
    words: &str,
    due: &str,
) -> Result<bool, AllocError> {
    match message_of(alloc, words)? {
        Some(message) => is_made(alloc, encoder, &message, due),
        None => Ok(false),
    }
}

/// Returns whether the encoder gives the expected result for a step.
fn is_taken(alloc: Global, encoder: &mut Encoder<'_>, step: &Step<'_>) -> Result<bool, AllocError> {
    if step.is_reset() {
        reset(encoder);
        return Ok(true);
    }
    is_message(alloc, encoder, step.words, step.due)
}

/// Checks the steps with an encoder, with or without the messages that are refused.
fn expect_taken(
    rt: &impl Abort,
    alloc: Global,
    encoder: &mut Encoder<'_>,
    row: &Row<'_>,
    with_refused: bool,
) -> Result<(), Fail> {
    for line in row.steps.lines() {
        let step = Step::of(line);
        if with_refused || !step.is_refused() {
            let is_taken = is_taken(alloc, encoder, &step)?;
            expect(rt, is_taken, row.name, line);
        }
    }
    Ok(())
}

/// Checks the steps with a new encoder.
fn expect_encoded(
    rt: &impl Abort,
    alloc: Global,
    set: &Templates,
    row: &Row<'_>,
    with_refused: bool,
) -> Result<(), Fail> {
    let mut encoder = encoder_of(alloc, set, row.limits)?;
    expect_taken(rt, alloc, &mut encoder, row, with_refused)
}

/// Returns whether the bytes are a message with these events.
fn is_played(decoder: &mut Decoder<'_>, bytes: &[u8], events: &str) -> bool {
    let mut script = Script::of(events);
    feed(decoder, bytes, &mut script).is_ok() && decoder.between() && script.is_played()
}

/// Returns whether the bytes of this line are a message with these events.
fn is_heard(
    alloc: Global,
    decoder: &mut Decoder<'_>,
    words: &str,
    events: &str,
) -> Result<bool, AllocError> {
    let bytes = bytes_of(alloc, words)?;
    Ok(is_played(decoder, &bytes, events))
}

/// Returns whether the decoder reads a step back.
fn is_read(alloc: Global, decoder: &mut Decoder<'_>, step: &Step<'_>) -> Result<bool, AllocError> {
    if step.is_reset() {
        super::reset(decoder);
        return Ok(true);
    }
    let events = events_of(alloc, step.words)?;
    is_heard(alloc, decoder, step.due, events.as_str().trim())
}

/// Checks that the steps of this name that are not refused are read back.
pub fn expect_heard(
    rt: &impl Abort,
    alloc: Global,
    decoder: &mut Decoder<'_>,
    name: &str,
    steps: &str,
) -> Result<(), Fail> {
    for line in steps.lines() {
        let step = Step::of(line);
        if !step.is_refused() {
            let is_read = is_read(alloc, decoder, &step)?;
            expect(rt, is_read, name, line);
        }
    }
    Ok(())
}

/// Checks that the steps that are not refused are read back by a new decoder.
fn expect_read(
    rt: &impl Abort,
    alloc: Global,
    set: &Templates,
    row: &Row<'_>,
    strict: bool,
) -> Result<(), Fail> {
    let limits = Limits {
        strict,
        ..row.limits
    };
    let case = Case::ReadsBack(row.name, row.steps);
    expect_of(rt, alloc, set, limits, case)
}

/// Checks a row under the set, with or without the messages that are refused, and that it is read back in strict mode or in lenient.
fn expect_so(
    rt: &impl Abort,
    alloc: Global,
    set: &Templates,
    row: &Row<'_>,
    is_so: bool,
) -> Result<(), Fail> {
    expect_encoded(rt, alloc, set, row, is_so)?;
    expect_read(rt, alloc, set, row, is_so)
}

/// Checks that a row is read back as it is encoded, message by message and as a list, by a decoder in strict mode.
fn expect_back(
    rt: &impl Abort,
    alloc: Global,
    set: &Templates,
    row: &Row<'_>,
    text: &str,
) -> Result<(), Fail> {
    let limits = Limits {
        strict: true,
        ..row.limits
    };
    expect_of(rt, alloc, set, limits, Case::ComesBack(set, text))
}

/// Checks a row under the set, also if the messages that are refused are left out, and that it is read back in both modes, and as it is
/// encoded.
fn expect_row(rt: &impl Abort, alloc: Global, set: &Templates, text: &str) -> Result<(), Fail> {
    let row = Row::of(text)?;
    expect_so(rt, alloc, set, &row, true)?;
    expect_so(rt, alloc, set, &row, false)?;
    expect_back(rt, alloc, set, &row, text)
}

/// Checks each row under the template set of this file.
fn expect_rows(rt: &impl Abort, alloc: Global, text: &str, rows: &[&str]) -> Result<(), Fail> {
    let set = set_of(alloc, text)?;
    for row in rows {
        expect_row(rt, alloc, &set, row)?;
    }
    Ok(())
}
