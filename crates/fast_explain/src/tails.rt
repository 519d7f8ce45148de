//! A reader that keeps the last bytes of its input, and decodes all of them a second time.

ghost use Rattle.std.specs.Prelude.{◌≡◌};

use crate::notes::{Note, put};
use crate::sights::Shadow;
use fast_stream::FaultCode;
use fast_template::Templates;
use fast_text::{Failed, Source};
use fast_value::Limits;
use std::alloc::Global;
use std::fmt::Write;

/// The number of bytes that are kept: more than two reads return.
const KEPT: usize = 8192;

/// The number of bytes of the stream that are printed before the byte in question, and after it.
const AROUND: u64 = 8;

/// The hint for a fault in the first message of a stream.
const HINT: &str = "  hint: many feeds put a preamble or a packet header before the messages;
  tools/packets/run --skip N removes it from the packets of a capture
";

/// The hexadecimal digits.
const DIGITS: &[u8; 16] = b"0123456789ABCDEF";

/// The last bytes of an input.
#[derive(Drop)]
struct Tail {
    cells: [u8; KEPT],
    /// The number of bytes read.
    count: u64,
    /// The number of digits that were dropped, if the input is hexadecimal.
    dropped: u64,
    is_hex: bool,
}

/// A reader whose last bytes are kept, and decoded a second time. It returns the bytes of the inner reader.
#[derive(Drop)]
pub struct Kept<'t, S> {
    inner: S,
    tail: Tail,
    /// The second decoder, if it could be allocated.
    shadow: Option<Shadow<'t>>,
}

/// Returns whether a character is a hexadecimal digit.
pub(crate) fn is_digit(character: u8) -> bool {
    matches!(character, b'0'..=b'9' | b'a'..=b'f' | b'A'..=b'F')
}

impl Tail {
    /// Adds a byte.
    fn push(&mut self, byte: u8) {
        let at = (self.count % KEPT as u64) as usize;
        if let Some(cell) = self.cells.get_mut(at) {
            if self.count >= KEPT as u64 && is_digit(*cell) {
                self.dropped = self.dropped.saturating_add(1);
            }
            *cell = byte;
        }
        self.count = self.count.saturating_add(1);
    }

    /// Adds a piece.
    fn take(&mut self, piece: &[u8]) {
        for byte in piece {
            self.push(*byte);
        }
    }

    /// Returns the kept byte of a number.
    fn byte(&self, number: u64) -> u8 {
        let at = (number % KEPT as u64) as usize;
        self.cells.get(at).copied().unwrap_or(0)
    }

    /// Writes the offset of a byte of the stream, and the bytes around it.
    fn tell(&self, place: u64, note: &mut Note) {
        let _ = write!(note, "  offset 0x{place:x}:");
        let mut digits = self.dropped;
        for number in self.count.saturating_sub(KEPT as u64)..self.count {
            let byte = self.byte(number);
            if !self.is_hex {
                tell_digit(note, number, place, false, byte >> 4);
                tell_digit(note, number, place, true, byte & 15);
            } else if is_digit(byte) {
                tell_digit(note, digits / 2, place, digits % 2 == 1, value_of(byte));
                digits = digits.saturating_add(1);
            }
        }
        let _ = put(note, &["\n"]);
    }
}

/// Returns the value of a hexadecimal digit.
pub(crate) fn value_of(character: u8) -> u8 {
    match character {
        b'0'..=b'9' => character - b'0',
        b'a'..=b'f' => character - b'a' + 10,
        b'A'..=b'F' => character - b'A' + 10,
        _ => 0,
    }
}

/// Writes a digit of a byte, if that byte is near the byte in question, which is written in brackets.
fn tell_digit(note: &mut Note, number: u64, place: u64, is_last: bool, digit: u8) {
    if number.saturating_add(AROUND) < place || place.saturating_add(AROUND) < number {
        return;
    }
    let is_it = number == place;
    if !is_last {
        let _ = put(note, &[if is_it { " [" } else { " " }]);
    }
    if let Some(character) = DIGITS.get(digit as usize) {
        let _ = note.write_char(char::from(*character));
    }
    if is_last && is_it {
        let _ = put(note, &["]"]);
    }
}

impl<'t, S> Kept<'t, S> {
    ghost use Rattle.fast_explain.specs.meaning.Listening.{reader_of};

    /// Makes a reader of a stream under these templates, or of its hexadecimal digits.
    pub fn new(
        alloc: Global,
        inner: S,
        templates: &'t Templates,
        limits: Limits,
        is_hex: bool,
    ) -> Kept<'t, S>
        ensures { reader_of result ≡ inner }
    {
        Kept {
            inner,
            tail: Tail {
                cells: [0; KEPT],
                count: 0,
                dropped: 0,
                is_hex,
            },
            shadow: Shadow::new(alloc, templates, limits),
        }
    }

    /// Keeps and decodes a piece.
    fn note(&mut self, piece: &[u8])
        ensures { reader_of self.new ≡ reader_of self.old }
    {
        self.tail.take(piece);
        if let Some(shadow) = &mut self.shadow {
            shadow.take_in(piece, self.tail.is_hex);
        }
    }

    /// Writes the field at which the stream is at fault with a code, or truncated.
    pub fn tell_place(&self, code: Option<FaultCode>, note: &mut Note) {
        if let Some(shadow) = &self.shadow {
            shadow.tell_place(code, note);
        }
    }

    /// Writes a hint about a fault in the first message of a stream.
    pub fn tell_hint(&self, note: &mut Note) {
        if let Some(shadow) = &self.shadow {
            if shadow.is_in_first() {
                let _ = put(note, &[HINT]);
            }
        }
    }

    /// Writes the offset of the last of `consumed` bytes of the stream, and the bytes around it.
    pub fn tell_bytes(&self, consumed: u64, note: &mut Note) {
        if let Some(place) = consumed.checked_sub(1) {
            self.tail.tell(place, note);
        }
    }
}

impl<S: Source> Source for Kept<'_, S> {
    ghost use Rattle.fast_explain.specs.meaning.Listening.{reader_of};

    ghost left = { λ s. S.left (reader_of s) };

    ghost has_failed = { λ s. S.has_failed (reader_of s) };

    fn read(&mut self, buf: &mut [u8]) -> Result<usize, Failed> {
        match self.inner.read(buf) {
            Ok(count) => {
                self.note(&buf[..count]);
                Ok(count)
            }
            Err(failed) => Err(failed),
        }
    }

    fn failed(&self) -> bool {
        self.inner.failed()
    }
}
