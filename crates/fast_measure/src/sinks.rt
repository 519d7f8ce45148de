//! Two sinks that use every value, so that the compiler cannot remove any decoding.

use fast_decoder::{Event, Sink, Stop};
use fast_value::Scalar;

/// The result of a sink.
#[derive(Clone, Copy)]
pub struct Tally {
    /// The number of events, modulo 2^64.
    pub events: u64,
    /// The checksum of the events and their values.
    pub sum: u64,
}

/// A sink with a tally.
pub trait Tallied: Sink + Drop {
    /// Returns the tally of the events received.
    fn tally(&self) -> Tally;
}

/// The cheapest sink that uses every value: it counts events, and combines numbers and lengths by exclusive or.
#[derive(Drop)]
pub struct Count {
    tally: Tally,
}

impl Count {
    /// Makes a sink that has received nothing.
    pub fn new() -> Count {
        Count {
            tally: Tally { events: 0, sum: 0 },
        }
    }

    /// Returns the number by which a value is combined.
    #[inline(always)]
    fn folded(value: Scalar<'_>) -> u64 {
        match value {
            Scalar::U(number) => number,
            Scalar::I(number) => number.cast_unsigned(),
            Scalar::Dec { exponent, mantissa } => {
                mantissa
                    .cast_unsigned()
                    .wrapping_add((exponent as i64).cast_unsigned())
            }
            Scalar::Ascii(text) => text.len() as u64,
            Scalar::Unicode(text) => text.len() as u64,
            Scalar::Bytes(bytes) => bytes.len() as u64,
        }
    }
}

impl Tallied for Count {
    fn tally(&self) -> Tally {
        self.tally
    }
}

impl Sink for Count {
    ghost use Rattle.std.specs.Prelude.{◌≡◌, ◌+◌, ◌%◌, ◌^◌};

    ghost takes = { λ old _ new. new.tally.events ≡ (old.tally.events + 1) % 2 ^ 64 };

    ghost stops = { λ _ _ _. ⊥ };

    #[inline(always)]
    fn take(&mut self, event: Event<'_>) -> Result<(), Stop> {
        self.tally.events = self.tally.events.wrapping_add(1);
        if let Event::Field { node: _, value } = event {
            self.tally.sum ^= Count::folded(value);
        }
        Ok(())
    }
}

/// The start of the checksum (FNV-1a, 64 bits).
const BASIS: u64 = 0xcbf2_9ce4_8422_2325;

/// The factor of the checksum.
const PRIME: u64 = 0x0000_0100_0000_01b3;

/// The factor that spreads event types and node numbers over 64 bits.
const SPREAD: u64 = 0x9e37_79b9_7f4a_7c15;

/// Returns the number for an event type and a node.
#[inline(always)]
fn key(kind: u64, node: u32) -> u64 {
    (node as u64)
        .wrapping_mul(16)
        .wrapping_add(kind)
        .wrapping_mul(SPREAD)
}

/// Returns at most eight bytes as a 64-bit number, the first byte least significant.
#[inline(always)]
fn word_of(bytes: &[u8]) -> u64 {
    if let Some(word) = bytes.first_chunk::<8>() {
        return u64::from_le_bytes(*word);
    }
    let mut word: u64 = 0;
    for byte in bytes.iter().rev() {
        word = (word << 8) | (*byte as u64);
    }
    word
}

/// A sink that computes a checksum (FNV-1a over words of 64 bits) of events and values.
#[derive(Drop)]
pub struct Check {
    tally: Tally,
}

impl Check {
    /// Makes a sink that has received nothing.
    pub fn new() -> Check {
        Check {
            tally: Tally {
                events: 0,
                sum: BASIS,
            },
        }
    }
}

/// Returns the checksum with one more word.
#[inline(always)]
fn with_word(sum: u64, word: u64) -> u64 {
    (sum ^ word).wrapping_mul(PRIME)
}

/// Returns the checksum with these bytes, eight to a word, the last word filled with zeros.
#[inline(never)]
fn with_words(sum: u64, bytes: &[u8]) -> u64 {
    let mut sum = sum;
    for bytes in bytes.chunks(8) {
        sum = with_word(sum, word_of(bytes));
    }
    sum
}

/// Returns the checksum of bytes alone, as that of one byte vector at node 0.
pub fn with_bytes(bytes: &[u8]) -> u64 {
    with_words(
        with_word(BASIS, key(7, 0).wrapping_add(bytes.len() as u64)),
        bytes,
    )
}

/// Returns the type of a value and its number; the number of a string is its length.
#[inline(always)]
fn value_told(value: Scalar<'_>) -> (u64, u64) {
    match value {
        Scalar::U(number) => (2, number),
        Scalar::I(number) => (3, number.cast_unsigned()),
        Scalar::Dec {
            exponent: _,
            mantissa,
        } => (4, mantissa.cast_unsigned()),
        Scalar::Ascii(text) => (5, text.len() as u64),
        Scalar::Unicode(text) => (6, text.len() as u64),
        Scalar::Bytes(bytes) => (7, bytes.len() as u64),
    }
}

/// Returns the type of an event, its node or template, and its number.
#[inline(always)]
fn told(event: Event<'_>) -> (u64, u32, u64) {
    match event {
        Event::MessageStart { template } => (1, template, 0),
        Event::Field { node, value } => {
            let (kind, number) = value_told(value);
            (kind, node, number)
        }
        Event::GroupStart { node } => (8, node, 0),
        Event::GroupEnd => (9, 0, 0),
        Event::SequenceStart { node, count } => (10, node, count as u64),
        Event::ElementStart => (11, 0, 0),
        Event::ElementEnd => (12, 0, 0),
        Event::SequenceEnd => (13, 0, 0),
        Event::MessageEnd => (14, 0, 0),
    }
}

/// Returns the checksum with the part of a value that is not in its first word: an exponent, or the bytes of a string.
#[inline(always)]
fn with_rest(sum: u64, value: Scalar<'_>) -> u64 {
    match value {
        Scalar::U(_) | Scalar::I(_) => sum,
        Scalar::Dec {
            exponent,
            mantissa: _,
        } => with_word(sum, (exponent as i64).cast_unsigned()),
        Scalar::Ascii(text) => with_words(sum, text),
        Scalar::Unicode(text) => with_words(sum, text),
        Scalar::Bytes(bytes) => with_words(sum, bytes),
    }
}

impl Tallied for Check {
    fn tally(&self) -> Tally {
        self.tally
    }
}

impl Sink for Check {
    ghost use Rattle.std.specs.Prelude.{◌≡◌, ◌+◌, ◌%◌, ◌^◌};

    ghost takes = { λ old _ new. new.tally.events ≡ (old.tally.events + 1) % 2 ^ 64 };

    ghost stops = { λ _ _ _. ⊥ };

    #[inline(always)]
    fn take(&mut self, event: Event<'_>) -> Result<(), Stop> {
        self.tally.events = self.tally.events.wrapping_add(1);
        let (kind, node, number) = told(event);
        let word = key(kind, node).wrapping_add(number);
        self.tally.sum = with_word(self.tally.sum, word);
        if let Event::Field { node: _, value } = event {
            self.tally.sum = with_rest(self.tally.sum, value);
        }
        Ok(())
    }
}
