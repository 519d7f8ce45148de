//! Tests of the line of each event.

use super::super::{expect, set_of};
use Event::{
    ElementEnd, ElementStart, Field, GroupEnd, GroupStart, MessageEnd, MessageStart, SequenceEnd,
    SequenceStart,
};
use Scalar::{Ascii, Bytes, Dec, I, U, Unicode};
use fast_decoder::{Event, Sink, Stop};
use fast_template::Templates;
use fast_text::{LineSink, Target, ToBytes};
use fast_value::Scalar;
use std::alloc::Global;
use std::process::Abort;

/// Reads a template with a field of each type.
fn set(rt: &impl Abort, alloc: Global) -> Templates {
    let text = r#"
[[template]]
name = "T15"
id = 15
fields = [
{kind="uInt32", name="x"},
{kind="group", name="g", fields=[{kind="bytes", name="b"}]},
{kind="sequence", name="legs", fields=[{kind="ascii", name="sym"}, {kind="int32", name="px"}]},
]
"#;
    set_of(rt, alloc, text)
}

#[rattlefmt::skip]
const EVENTS: &[Event<'static>] = &[
    MessageStart { template: 0 },
    Field { node: 0, value: U(5) },
    GroupStart { node: 1 },
    Field { node: 2, value: Bytes(&[0x01, 0xff]) },
    GroupEnd,
    SequenceStart { node: 3, count: 1 },
    ElementStart,
    Field { node: 4, value: Ascii(b"AB") },
    Field { node: 5, value: I(-98) },
    ElementEnd,
    SequenceEnd,
    MessageEnd,
];

#[rattlefmt::skip]
const VALUES: &[Event<'static>] = &[
    Field { node: 0, value: U(u64::MAX) },
    Field { node: 0, value: I(i64::MAX) },
    Field { node: 0, value: Dec { exponent: -1, mantissa: -15 } },
    Field { node: 0, value: Dec { exponent: 63, mantissa: i64::MIN } },
    Field { node: 0, value: Bytes(&[]) },
    Field { node: 0, value: Ascii(b"") },
    Field { node: 0, value: Unicode(b"\"\\\x00\x1f\x7f\xc3\xa9 a") },
];

/// A byte vector that is written in more than one piece.
const LONG: &[Event<'static>] = &[Field {
    node: 2,
    value: Bytes(&[0xa5; 65]),
}];

/// Numbers that the set does not have, and which have no name.
const UNKNOWN: &[Event<'static>] = &[MessageStart { template: 1 }, GroupStart { node: 6 }];

/// A description, events, and their lines.
const ROWS: &[(&str, &[Event<'static>], &str)] = &[
    (
        "events",
        EVENTS,
        "message T15\nfield 0 x u 5\ngroup 1 g\nfield 2 b b 01ff\nend group\nsequence 3 legs 1\nelement\nfield 4 sym a \"AB\"\nfield 5 px i -98\nend element\nend sequence\nend message\n",
    ),
    (
        "values",
        VALUES,
        "field 0 x u 18446744073709551615\nfield 0 x i 9223372036854775807\nfield 0 x d -15e-1\nfield 0 x d -9223372036854775808e63\nfield 0 x b \nfield 0 x a \"\"\nfield 0 x s \"\\\"\\\\\\x00\\x1f\\x7fé a\"\n",
    ),
    (
        "a long value",
        LONG,
        "field 2 b b a5a5a5a5a5a5a5a5a5a5a5a5a5a5a5a5a5a5a5a5a5a5a5a5a5a5a5a5a5a5a5a5a5a5a5a5a5a5a5a5a5a5a5a5a5a5a5a5a5a5a5a5a5a5a5a5a5a5a5a5a5a5a5a5a5\n",
    ),
    ("unknown numbers", UNKNOWN, "message \ngroup 6 \n"),
];

/// Returns whether a sink over the cells writes these bytes for the events, and whether it stops as expected.
fn is_written(
    set: &Templates,
    cells: &mut [u8],
    events: &[Event<'_>],
    answer: Result<(), Stop>,
    bytes: &[u8],
) -> bool {
    let mut target = ToBytes::new(cells);
    let mut sink = LineSink::new(set, &mut target);
    let mut taken = Ok(());
    for event in events {
        if taken.is_ok() {
            taken = sink.take(*event);
        }
    }
    taken == answer && target.failed() == answer.is_err() && target.bytes() == bytes
}

#[test]
fn each_event_is_its_line(rt: HostRuntime) {
    let set = set(&rt, rt.alloc());
    for (name, events, lines) in ROWS {
        let is_written = is_written(&set, &mut [0; 512], events, Ok(()), lines.as_bytes());
        expect(&rt, is_written, name, events.len());
    }
    for room in 0..12 {
        let mut cells = [0; 12];
        let front = &b"message T15\n"[..room];
        let stops = is_written(&set, &mut cells[..room], &EVENTS[..1], Err(Stop), front);
        expect(&rt, stops, "a full target", room);
    }
}

/// Returns the ASCII string in a line.
fn text_in(line: &[u8]) -> &[u8] {
    match line {
        [
            b'f',
            b'i',
            b'e',
            b'l',
            b'd',
            b' ',
            b'4',
            b' ',
            b's',
            b'y',
            b'm',
            b' ',
            b'a',
            b' ',
            b'"',
            text @ ..,
            b'"',
            b'\n',
        ] => text,
        _ => b"",
    }
}

/// A string that does not fit in the buffer is written to the target directly, and the rest of the line follows.
#[test]
fn a_long_text_stands_in_its_line(rt: HostRuntime) {
    let set = set(&rt, rt.alloc());
    let text = [b'A'; 600];
    let mut cells = [0; 1024];
    let mut target = ToBytes::new(&mut cells);
    let event = Field {
        node: 4,
        value: Ascii(&text),
    };
    let taken = LineSink::new(&set, &mut target).take(event);
    expect(&rt, taken.is_ok(), "a long text is taken", 600);
    let stands = text_in(target.bytes()) == text.as_slice();
    expect(&rt, stands, "a long text stands", 600);
}
