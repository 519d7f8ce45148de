//! Messages that are encoded, and read at once by a decoder in step with the encoder.

use super::super::sinks::are_due;
use super::super::{Case, LENIENT, Script, expect_of, put, set_of};
use super::messages::message_of;
use super::rows::{Row, Step, events_of, is_answer, is_hex};
use super::{BEFORE, encoder_of, expect, reset};
use fast_decoder::{Decoder, Fault, FaultCode, Recorder};
use fast_encoder::{
    EncodeFault, Encoder, RoundTripFault, RoundTripStop, round_trip, round_trip_all,
};
use fast_template::{Templates, VECTORS};
use fast_value::Message;
use std::alloc::{AllocError, Global};
use std::process::Abort;
use std::test::Fail;

/// Encodes a message and reads it. Without a contract, so that a call is cheap to prove, as those of the next functions.
fn take(
    encoder: &mut Encoder<'_>,
    decoder: &mut Decoder<'_>,
    message: &Message,
    out: &mut Vec<u8>,
    sink: &mut Script<'_>,
) -> Result<(), RoundTripFault> {
    round_trip(encoder, decoder, message, out, sink)
}

fn take_all(
    encoder: &mut Encoder<'_>,
    decoder: &mut Decoder<'_>,
    messages: &[Message],
    out: &mut Vec<u8>,
    sink: &mut Script<'_>,
) -> Result<(), RoundTripStop> {
    round_trip_all(encoder, decoder, messages, out, sink)
}

fn record_all(
    encoder: &mut Encoder<'_>,
    decoder: &mut Decoder<'_>,
    messages: &[Message],
    out: &mut Vec<u8>,
    recorder: &mut Recorder,
) -> Result<(), RoundTripStop> {
    round_trip_all(encoder, decoder, messages, out, recorder)
}

/// Resets both.
fn reset_both(encoder: &mut Encoder<'_>, decoder: &mut Decoder<'_>) {
    reset(encoder);
    super::super::reset(decoder);
}

/// Returns whether the expected bytes of a message are appended to those of `out`, and are read back as these events; or it is refused, and
/// nothing is appended.
fn is_back(
    encoder: &mut Encoder<'_>,
    decoder: &mut Decoder<'_>,
    message: &Message,
    out: &mut Vec<u8>,
    events: &str,
    due: &str,
) -> bool {
    let mut script = Script::of(events);
    let (answer, is_heard) = match take(encoder, decoder, message, out, &mut script) {
        Ok(()) => (Ok(()), script.is_played()),
        Err(RoundTripFault::Encode(fault)) => (Err(fault), script.taken == 0),
        Err(RoundTripFault::Decode(_)) => return false,
    };
    match out.strip_prefix(BEFORE) {
        Some(bytes) => is_heard && is_answer(answer, bytes, due),
        None => false,
    }
}

/// Returns whether a step is read back, if `out` has other bytes already.
fn is_step_back(
    alloc: Global,
    encoder: &mut Encoder<'_>,
    decoder: &mut Decoder<'_>,
    step: &Step<'_>,
) -> Result<bool, AllocError> {
    let events = events_of(alloc, step.words)?;
    let mut out = Vec::from_slice(alloc, BEFORE)?;
    Ok(match message_of(alloc, step.words)? {
        Some(message) => is_back(
            encoder,
            decoder,
            &message,
            &mut out,
            events.as_str().trim(),
            step.due,
        ),
        None => false,
    })
}

/// Checks that each step is read back, one after the other: a message that is refused leaves both in step.
fn expect_each(
    rt: &impl Abort,
    alloc: Global,
    encoder: &mut Encoder<'_>,
    decoder: &mut Decoder<'_>,
    row: &Row<'_>,
) -> Result<(), Fail> {
    for line in row.steps.lines() {
        let step = Step::of(line);
        if step.is_reset() {
            reset_both(encoder, decoder);
        } else {
            let is_back = is_step_back(alloc, encoder, decoder, &step)?;
            expect(rt, is_back, row.name, line);
        }
    }
    Ok(())
}

/// Adds the message of a step that is not refused, and its events.
fn add_step(
    alloc: Global,
    line: &str,
    messages: &mut Vec<Message>,
    events: &mut String,
) -> Result<(), AllocError> {
    let step = Step::of(line);
    if let (false, Some(message)) = (step.is_refused(), message_of(alloc, step.words)?) {
        let words = events_of(alloc, step.words)?;
        put(events, &[words.as_str()])?;
        messages.push(message)?;
    }
    Ok(())
}

/// Returns whether a recorder keeps these events of the messages.
fn are_kept(
    alloc: Global,
    encoder: &mut Encoder<'_>,
    decoder: &mut Decoder<'_>,
    messages: &[Message],
    events: &str,
) -> bool {
    let mut out = Vec::new(alloc);
    let mut recorder = Recorder::new(alloc);
    let answer = record_all(encoder, decoder, messages, &mut out, &mut recorder);
    answer.is_ok() && decoder.between() && are_due(events, recorder.events())
}

/// Returns whether the steps that are not refused are read back as one list.
fn are_steps_back(
    alloc: Global,
    encoder: &mut Encoder<'_>,
    decoder: &mut Decoder<'_>,
    steps: &str,
) -> Result<bool, AllocError> {
    let mut messages = Vec::new(alloc);
    let mut events = String::new(alloc);
    for line in steps.lines() {
        add_step(alloc, line, &mut messages, &mut events)?;
    }
    Ok(are_kept(alloc, encoder, decoder, &messages, events.as_str().trim()))
}

/// Checks that the messages before a reset, and those after it, are read back as one list.
fn expect_lists(
    rt: &impl Abort,
    alloc: Global,
    encoder: &mut Encoder<'_>,
    decoder: &mut Decoder<'_>,
    row: &Row<'_>,
) -> Result<(), Fail> {
    for steps in row.steps.split("reset") {
        reset_both(encoder, decoder);
        let are_back = are_steps_back(alloc, encoder, decoder, steps)?;
        expect(rt, are_back, row.name, steps);
    }
    Ok(())
}

/// Checks that the steps of a row are read back, one by one and as lists, from an encoder and a decoder that are new.
pub fn expect_row_back(
    rt: &impl Abort,
    alloc: Global,
    decoder: &mut Decoder<'_>,
    set: &Templates,
    text: &str,
) -> Result<(), Fail> {
    let row = Row::of(text)?;
    let mut encoder = encoder_of(alloc, set, row.limits)?;
    expect_each(rt, alloc, &mut encoder, decoder, &row)?;
    expect_lists(rt, alloc, &mut encoder, decoder, &row)
}

/// Three messages, of which the second is refused.
const THREE: &str = "m0 u0=942755 /m\nm0 - /m\nm0 u0=0 /m";

/// The first of them and the third.
const TWO: &str = "m0 u0=942755 /m\nm0 u0=0 /m";

/// The second message is refused.
const REFUSED: RoundTripStop = RoundTripStop {
    index: 1,
    fault: RoundTripFault::Encode(EncodeFault::E2),
};

/// The stop of a sink of four events, which accepts the first message and the start of the second.
const STOPPED: RoundTripStop = RoundTripStop {
    index: 1,
    fault: RoundTripFault::Decode(SHORT),
};

const SHORT: Fault = Fault {
    code: FaultCode::SinkStopped,
    place: 7,
};

/// Returns the messages on these lines.
fn messages_of(alloc: Global, lines: &str) -> Result<Vec<Message>, AllocError> {
    let mut messages = Vec::new(alloc);
    for line in lines.lines() {
        if let Some(message) = message_of(alloc, line)? {
            messages.push(message)?;
        }
    }
    Ok(messages)
}

/// Returns whether a list comes to this end, with these bytes.
fn ends_so(
    alloc: Global,
    encoder: &mut Encoder<'_>,
    decoder: &mut Decoder<'_>,
    messages: &[Message],
    sink: &mut Script<'_>,
    due: (Result<(), RoundTripStop>, &str),
) -> bool {
    let mut out = Vec::new(alloc);
    let answer = take_all(encoder, decoder, messages, &mut out, sink);
    answer == due.0 && is_hex(&out, due.1)
}

/// Checks that a list ends at a message that is refused, and both are still in step: the messages after it are read back.
fn expect_refused(
    rt: &impl Abort,
    alloc: Global,
    encoder: &mut Encoder<'_>,
    decoder: &mut Decoder<'_>,
) -> Result<(), Fail> {
    let messages = messages_of(alloc, THREE)?;
    let mut sink = Script::of("m0 u0=942755 /m");
    let due = (Err(REFUSED), "C0 81 39 45 A3");
    let is_refused = ends_so(alloc, encoder, decoder, &messages, &mut sink, due);
    expect(
        rt,
        is_refused && sink.is_played(),
        "a list",
        "up to a refusal",
    );
    let mut sink = Script::of("m0 u0=0 /m");
    let rest = messages.get(2..).unwrap_or(&[]);
    let is_back = ends_so(alloc, encoder, decoder, rest, &mut sink, (Ok(()), "80 80"));
    expect(rt, is_back && sink.is_played(), "a list", "after a refusal");
    Ok(())
}

/// Checks that a list ends at the sink's stop: the message is encoded, and the decoder returns the same for the next one, until both are
/// reset.
fn expect_stopped(
    rt: &impl Abort,
    alloc: Global,
    encoder: &mut Encoder<'_>,
    decoder: &mut Decoder<'_>,
) -> Result<(), Fail> {
    let messages = messages_of(alloc, TWO)?;
    let mut sink = Script::stopping(4);
    let due = (Err(STOPPED), "C0 81 39 45 A3 80 80");
    let is_stopped = ends_so(alloc, encoder, decoder, &messages, &mut sink, due);
    expect(rt, is_stopped && sink.taken == 4, "a list", "up to a stop");
    expect(
        rt,
        decoder.fault() == Some(SHORT),
        "a list",
        "with its fault",
    );
    Ok(())
}

/// Checks that lists end at messages that are not read back.
pub fn expect_ends(
    rt: &impl Abort,
    alloc: Global,
    decoder: &mut Decoder<'_>,
    set: &Templates,
) -> Result<(), Fail> {
    let mut encoder = encoder_of(alloc, set, LENIENT)?;
    expect_refused(rt, alloc, &mut encoder, decoder)?;
    reset_both(&mut encoder, decoder);
    expect_stopped(rt, alloc, &mut encoder, decoder)?;
    reset_both(&mut encoder, decoder);
    expect_refused(rt, alloc, &mut encoder, decoder)
}

#[test]
fn a_list_ends_at_what_does_not_come_back(rt: HostRuntime) -> Result<(), Fail> {
    let set = set_of(rt.alloc(), VECTORS)?;
    expect_of(&rt, rt.alloc(), &set, LENIENT, Case::EndsInList(&set))
}

#[rattlefmt::skip]
const SENTENCES: &[(RoundTripStop, &str)] = &[
    (REFUSED, "message 1: encoder: the message does not suit its template"),
    (STOPPED, "message 1: decoder: SinkStopped at 7: the sink stopped"),
];

#[test]
fn what_does_not_come_back_has_a_sentence(rt: HostRuntime) -> Result<(), Fail> {
    for (stop, sentence) in SENTENCES {
        let found = format!(in rt.alloc(); "{stop}")?;
        expect(&rt, found.as_str() == *sentence, "a sentence", sentence);
    }
    Ok(())
}
