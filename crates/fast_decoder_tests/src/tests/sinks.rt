//! Sinks that keep, stop or count, and the account of a decoder when it stops.

use super::limits::{CONSTANTS, THOUSAND, thousand_events};
use super::rows::{Columns, row_of};
use super::worked::{LONG, LONG_EVENTS};
use super::{
    Case, LENIENT, STRICT, Script, account_of, decoder_of, expect, expect_case, expect_line,
    expect_row, feed, feed_each, push, read, reset, stopped_at,
};
use fast_decoder::{Decoder, Event, Fault, FaultCode, Recorded, Sink};
use fast_template::{Templates, VECTORS};
use fast_value::Code;
use std::alloc::{AllocError, Global};
use std::process::Abort;
use std::test::Fail;

/// The number of bytes of `LONG` that are consumed if the sink accepts a number of events: none, one, two and so on.
const PLACES: &[u64] = &[2, 3, 3, 6, 6, 7, 7, 10, 12, 12, 12, 13, 14, 14, 14, 14];

/// Returns whether the decoder has stopped with this fault, after the bytes up to its offset.
fn has_stopped(decoder: &Decoder<'_>, answer: Result<(), Fault>, fault: Fault) -> bool {
    account_of(decoder, answer) == stopped_at(fault)
}

/// Returns whether a decoder that has stopped with this fault stays so, for all bytes that it is fed.
fn stays_stopped(decoder: &mut Decoder<'_>, sink: &mut Script<'_>, fault: Fault) -> bool {
    for _ in 0..3 {
        for piece in [LONG, &[]] {
            let answer = feed(decoder, piece, sink);
            if !has_stopped(decoder, answer, fault) {
                return false;
            }
        }
        let answer = push(decoder, 0xC0, sink);
        if !has_stopped(decoder, answer, fault) {
            return false;
        }
    }
    true
}

/// Returns whether a sink of `most` events stops the decoder at the offset, and is not called again though it would accept more.
fn is_stopped(decoder: &mut Decoder<'_>, most: usize, place: u64) -> bool {
    let fault = Fault {
        code: FaultCode::SinkStopped,
        place,
    };
    reset(decoder);
    let mut sink = Script::stopping(most);
    let answer = feed(decoder, LONG, &mut sink);
    let stops = has_stopped(decoder, answer, fault) && sink.taken == most;
    sink.most = 100;
    stops && stays_stopped(decoder, &mut sink, fault) && sink.taken == most
}

/// Checks that a sink of each number of events stops the decoder.
pub fn expect_stops(rt: &impl Abort, decoder: &mut Decoder<'_>) {
    for (most, place) in PLACES.iter().enumerate() {
        let is_stopped = is_stopped(decoder, most, *place);
        expect(rt, is_stopped, "behind so many events", most);
    }
}

#[test]
fn a_sink_stops_the_decoder(rt: HostRuntime) -> Result<(), Fail> {
    expect_case(&rt, rt.alloc(), VECTORS, LENIENT, Case::StopsBySink)
}

/// Returns the event that was kept.
fn event_of(kept: &Recorded) -> Event<'_> {
    match kept {
        Recorded::MessageStart { template } => Event::MessageStart {
            template: *template,
        },
        Recorded::Field { node, value } => Event::Field {
            node: *node,
            value: value.as_scalar(),
        },
        Recorded::GroupStart { node } => Event::GroupStart { node: *node },
        Recorded::GroupEnd => Event::GroupEnd,
        Recorded::SequenceStart { node, count } => Event::SequenceStart {
            node: *node,
            count: *count,
        },
        Recorded::ElementStart => Event::ElementStart,
        Recorded::ElementEnd => Event::ElementEnd,
        Recorded::SequenceEnd => Event::SequenceEnd,
        Recorded::MessageEnd => Event::MessageEnd,
    }
}

/// Returns whether the kept events are the expected ones.
pub fn are_due(events: &str, kept: &[Recorded]) -> bool {
    let mut script = Script::of(events);
    for event in kept {
        if script.take(event_of(event)).is_err() {
            return false;
        }
    }
    script.is_played()
}

/// Checks that a recorder keeps the events of a message.
pub fn expect_kept(
    rt: &impl Abort,
    alloc: Global,
    decoder: &mut Decoder<'_>,
    bytes: &[u8],
    events: &str,
) {
    let mut script = Script::keeping(alloc);
    let answer = feed(decoder, bytes, &mut script);
    let is_kept = answer.is_ok() && are_due(events, script.kept());
    expect(rt, is_kept, "kept", script.kept().len());
}

#[test]
fn a_recorder_keeps_each_event(rt: HostRuntime) -> Result<(), Fail> {
    let alloc = rt.alloc();
    let case = Case::Keeps(LONG, LONG_EVENTS);
    expect_case(&rt, alloc, VECTORS, STRICT, case)?;
    let events = thousand_events(alloc)?;
    let case = Case::Keeps(THOUSAND, &events);
    expect_case(&rt, alloc, CONSTANTS, STRICT, case)
}

const CLAIM: &[u8] = &[0xC0, 0x82, 0x0F, 0x7F, 0x7F, 0x7F, 0xFF];

const TOO_MANY: Fault = Fault {
    code: FaultCode::Stream(Code::L2),
    place: 7,
};

/// Returns whether a claim of too many elements stops the decoder.
fn is_stopped_by_a_claim(decoder: &mut Decoder<'_>) -> bool {
    let mut script = Script::of("m1");
    let answer = feed(decoder, CLAIM, &mut script);
    has_stopped(decoder, answer, TOO_MANY)
        && stays_stopped(decoder, &mut script, TOO_MANY)
        && script.is_played()
}

const A_FIRST_MESSAGE: &str =
    "a message as of a new decoder | lenient | C0 81 39 45 A3 | m0 u0=942755 /m | between";

/// A decoder that has stopped, as `Debug` writes it.
const STOPPED: &str = "Decoder { \
    limits: Limits { strict: false, max_text: 1024, max_elements: 1000, max_total: 1000 }, \
    consumed: 7, fault: Some(Fault { code: Stream(L2), place: 7 }), .. }";

/// Returns the decoder as `Debug` writes it.
fn debug_of(alloc: Global, decoder: &Decoder<'_>) -> Result<String, AllocError> {
    format!(in alloc; "{decoder:?}")
}

/// Checks that a claim of too many elements stops the decoder, until it is reset.
pub fn expect_stays(rt: &impl Abort, alloc: Global, decoder: &mut Decoder<'_>) -> Result<(), Fail> {
    let is_stopped = is_stopped_by_a_claim(decoder);
    expect(rt, is_stopped, "a claim", 0);
    let text = debug_of(alloc, decoder)?;
    expect(
        rt,
        text.as_str() == STOPPED,
        "as Debug writes it",
        text.len(),
    );
    expect_line(rt, alloc, decoder, A_FIRST_MESSAGE)
}

#[test]
fn a_fault_stays_until_reset(rt: HostRuntime) -> Result<(), Fail> {
    expect_case(&rt, rt.alloc(), VECTORS, LENIENT, Case::StaysStopped)
}

/// Messages that are truncated: within an integer after the identifier, twice within the first field, and in an element.
const CUTS: &[&[u8]] = &[
    &[0xC0, 0x81, 0x81, 0x00],
    &[0xC0, 0x81, 0x39],
    &[0xC0, 0x93, 0x41],
    &[0xE0, 0x8F, 0x85, 0x82, 0x01, 0xFF, 0x83, 0xC0, 0x41],
];

const NO_IDENTIFIER: &str = "no identifier to copy | lenient | 80 | | D5@1";

const NOTHING_TO_COPY: &str = "nothing to copy | lenient | C0 8A | m9 | D5@2";

/// Returns whether the bytes are a truncated message.
fn is_cut(decoder: &mut Decoder<'_>, bytes: &[u8]) -> bool {
    let mut sink = Script::stopping(100);
    feed(decoder, bytes, &mut sink).is_ok() && !decoder.between()
}

/// Checks that a decoder that is reset after a truncated message has discarded all that the row would need.
fn expect_forgotten(
    rt: &impl Abort,
    alloc: Global,
    decoder: &mut Decoder<'_>,
    bytes: &[u8],
    line: &str,
) -> Result<(), Fail> {
    reset(decoder);
    let is_cut = is_cut(decoder, bytes);
    expect(rt, is_cut, "cut", bytes.len());
    expect_line(rt, alloc, decoder, line)
}

/// Checks that a reset discards the identifier, the previous values, and the bytes of a unit that was split.
pub fn expect_forgets(
    rt: &impl Abort,
    alloc: Global,
    decoder: &mut Decoder<'_>,
) -> Result<(), Fail> {
    for bytes in CUTS {
        expect_forgotten(rt, alloc, decoder, bytes, NO_IDENTIFIER)?;
        expect_forgotten(rt, alloc, decoder, bytes, NOTHING_TO_COPY)?;
    }
    Ok(())
}

#[test]
fn a_reset_forgets(rt: HostRuntime) -> Result<(), Fail> {
    expect_case(&rt, rt.alloc(), VECTORS, LENIENT, Case::Forgets)
}

/// Strings that are truncated and joined.
const JOINED: &[u8] = &[
    0xC0, 0x84, 0x80, 0x47, 0x45, 0x48, 0xB6, 0x80, 0x82, 0x4D, 0xB6,
];

/// Checks that a decoder reads the row with these bytes and events, and ends between two messages.
fn expect_events(
    rt: &impl Abort,
    decoder: &mut Decoder<'_>,
    bytes: &[u8],
    events: &str,
) -> Result<(), Fail> {
    let columns = Columns {
        events,
        ..Columns::of("no memory | lenient | | | between")
    };
    let row = row_of(columns, bytes)?;
    expect_row(rt, decoder, &row);
    Ok(())
}

/// A decoder allocates memory only when it is made: if an allocation fails, it is one of the set or of `new`, and rows that are only
/// compared give the same result.
#[test]
fn feeds_take_no_memory(rt: HostRuntime) -> Result<(), Fail> {
    match read(rt.alloc(), VECTORS) {
        Ok(set) => expect_no_memory(&rt, rt.alloc(), &set),
        Err(_) => Ok(()),
    }
}

fn expect_no_memory(rt: &impl Abort, alloc: Global, set: &Templates) -> Result<(), Fail> {
    match decoder_of(alloc, set, LENIENT) {
        Ok(mut decoder) => expect_both(rt, &mut decoder),
        Err(_) => Ok(()),
    }
}

/// Checks the events of two streams of the built-in set.
fn expect_both(rt: &impl Abort, decoder: &mut Decoder<'_>) -> Result<(), Fail> {
    expect_events(rt, decoder, LONG, LONG_EVENTS)?;
    expect_events(rt, decoder, JOINED, "m3 a4='GEH6' /m m3 a4='GEM6' /m")
}

/// Returns whether two bytes, and two more integers, may end so.
fn may_end(answer: Result<(), Fault>) -> bool {
    match answer {
        Ok(()) => true,
        Err(fault) => matches!(
            fault.code,
            FaultCode::Stream(Code::D2 | Code::D5 | Code::D9 | Code::R6 | Code::R7 | Code::R8)
        ),
    }
}

/// Returns whether two bytes, and two more integers, end in events or in a fault that they can have.
fn ends_as_it_may(decoder: &mut Decoder<'_>, first: u8, second: u8) -> bool {
    reset(decoder);
    let mut sink = Script::stopping(1000);
    let heard = feed_each(decoder, &[&[first, second, 0x81], &[0x81]], &mut sink);
    may_end(heard.answer) && heard == account_of(decoder, heard.answer)
}

/// Checks that two bytes of which the first is this end in events or a fault.
fn expect_ends(rt: &impl Abort, decoder: &mut Decoder<'_>, first: u8) {
    for second in 0..=255u8 {
        let ends = ends_as_it_may(decoder, first, second);
        let both = u16::from_be_bytes([first, second]);
        expect(rt, ends, "two bytes", usize::from(both));
    }
}

/// Checks that any two bytes end in events or a fault.
pub fn expect_all_ends(rt: &impl Abort, decoder: &mut Decoder<'_>) {
    for first in 0..=255u8 {
        expect_ends(rt, decoder, first);
    }
}

/// A template with a field.
const PLAIN: &str = "[[template]]\nname = 'T'\nid = 1\nfields = [{kind='uInt32', name='x'}]";

#[test]
fn any_two_bytes_end_in_events_or_a_fault(rt: HostRuntime) -> Result<(), Fail> {
    expect_case(&rt, rt.alloc(), PLAIN, STRICT, Case::Ends)
}
