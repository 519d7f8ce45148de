//! The sink of all tests.

use fast_decoder::{Event, Recorded, Recorder, Sink, Stop};
use fast_value::Scalar;
use itoa::{Buffer, Integer};
use std::alloc::Global;

/// A sink that writes each event, and compares the result with the string that is expected. It does not allocate. All tests that stop a
/// decoder or keep events have it too, since the compiler makes the decoder's loop once more for each sink.
///
/// An event is `m` and the number of a template, or a letter and the number of a node: `g` for a group, `s` for a sequence, followed by `*`
/// and the count, and for a field `u`, `i` or `d` with a number, `a` or `t` (Unicode) with a string, or `b` with bytes. `e` is an element,
/// and `/m`, `/g`, `/s` and `/e` are ends.
#[derive(Drop)]
pub struct Script<'t> {
    /// The rest of the string that is expected.
    pub due: &'t [u8],
    pub taken: usize,
    /// The number of events that it accepts: it stops at the next.
    pub most: usize,
    same: bool,
    /// A recorder that receives each event first, if there is one.
    recorder: Option<Recorder>,
}

impl Script<'_> {
    pub fn of(events: &str) -> Script<'_> {
        Script {
            due: events.as_bytes(),
            taken: 0,
            most: usize::MAX,
            same: true,
            recorder: None,
        }
    }

    /// Makes a sink that accepts this number of events, of any type, and stops at the next.
    pub fn stopping(most: usize) -> Script<'static> {
        Script {
            due: &[],
            taken: 0,
            most,
            same: true,
            recorder: None,
        }
    }

    /// Makes a sink that passes all events to a recorder.
    pub fn keeping(alloc: Global) -> Script<'static> {
        Script {
            recorder: Some(Recorder::new(alloc)),
            ..Script::stopping(usize::MAX)
        }
    }

    /// Returns the events that were kept.
    pub fn kept(&self) -> &[Recorded] {
        match &self.recorder {
            Some(recorder) => recorder.events(),
            None => &[],
        }
    }

    /// Returns whether all expected events were received, and no others.
    pub fn is_played(&self) -> bool {
        self.same && self.due.is_empty()
    }

    pub fn write(&mut self, piece: &[u8]) {
        match self.due.strip_prefix(piece) {
            Some(rest) => self.due = rest,
            None => self.same = false,
        }
    }

    /// Writes a number after a prefix.
    pub fn write_number<I: Integer>(&mut self, word: &[u8], number: I) {
        self.write(word);
        self.write(Buffer::new().format(number).as_bytes());
    }

    fn write_quoted(&mut self, text: &[u8]) {
        self.write(b"='");
        self.write(text);
        self.write(b"'");
    }

    fn write_bytes(&mut self, bytes: &[u8]) {
        self.write(b"=");
        for byte in bytes {
            self.write(&[digit_of(*byte / 16), digit_of(*byte % 16)]);
        }
    }

    fn write_field(&mut self, node: u32, value: Scalar<'_>) {
        self.write_number(letter_of(value), node);
        self.write_value(value);
    }

    fn write_value(&mut self, value: Scalar<'_>) {
        match value {
            Scalar::U(number) => self.write_number(b"=", number),
            Scalar::I(number) => self.write_number(b"=", number),
            Scalar::Dec { exponent, mantissa } => self.write_decimal(exponent, mantissa),
            Scalar::Ascii(text) | Scalar::Unicode(text) => self.write_quoted(text),
            Scalar::Bytes(bytes) => self.write_bytes(bytes),
        }
    }

    fn write_decimal(&mut self, exponent: i32, mantissa: i64) {
        self.write_number(b"=", mantissa);
        self.write_number(b"e", exponent);
    }

    fn write_event(&mut self, event: Event<'_>) {
        let word: &[u8] = match event {
            Event::MessageStart { template } => return self.write_number(b"m", template),
            Event::Field { node, value } => return self.write_field(node, value),
            Event::GroupStart { node } => return self.write_number(b"g", node),
            Event::SequenceStart { node, count } => return self.write_start(node, count),
            Event::GroupEnd => b"/g",
            Event::ElementStart => b"e",
            Event::ElementEnd => b"/e",
            Event::SequenceEnd => b"/s",
            Event::MessageEnd => b"/m",
        };
        self.write(word);
    }

    fn write_start(&mut self, node: u32, count: u32) {
        self.write_number(b"s", node);
        self.write_number(b"*", count);
    }
}

/// Returns a digit of a byte.
fn digit_of(half: u8) -> u8 {
    b"0123456789ABCDEF"
        .get(usize::from(half))
        .copied()
        .unwrap_or(b'?')
}

/// Returns the letter of a field with this value.
fn letter_of(value: Scalar<'_>) -> &'static [u8] {
    match value {
        Scalar::U(_) => b"u",
        Scalar::I(_) => b"i",
        Scalar::Dec { .. } => b"d",
        Scalar::Ascii(_) => b"a",
        Scalar::Unicode(_) => b"t",
        Scalar::Bytes(_) => b"b",
    }
}

impl Sink for Script<'_> {
    ghost takes = { λ _ _ _. Unit {0} };

    ghost stops = { λ _ _ _. Unit {0} };

    fn take(&mut self, event: Event<'_>) -> Result<(), Stop> {
        if self.taken >= self.most {
            return Err(Stop);
        }
        if let Some(recorder) = &mut self.recorder {
            recorder.take(event)?;
        }
        if self.taken > 0 {
            self.write(b" ");
        }
        self.write_event(event);
        self.taken = self.taken.saturating_add(1);
        Ok(())
    }
}
