//! Writes lines in parts.

ghost use Rattle.std.specs.Prelude.{◌≡◌, ◌≤◌, [], ◌∷◌, ◌++◌, false, Ok, IsTrue, All, length, take, codes, decimal, flat_map};
ghost use Rattle.std.specs.Fmt.{signed_decimal};
ghost use Rattle.fast_value.specs.meaning.Values.{scalar_data};
ghost use Rattle.fast_lines.specs.meaning.Lines.{escaped, quoted, hex_byte, written as value_text};
ghost use Rattle.fast_text.specs.meaning.Room.{kept_in};

use crate::room::Room;
use crate::streams::{Failed, Target};
use fast_value::Scalar;
use itoa::write_digits;
use std::fmt;

/// Writes strings to a target one after the other, in few large pieces, by a buffer. It keeps the first failure, and writes nothing after
/// it. [`LineWriter::finish`] writes what the buffer holds at the end.
#[derive(Drop)]
pub struct LineWriter<'a, T> {
    target: &'a mut T,
    /// The bytes that are not written yet.
    kept: &'a mut Room,
    outcome: Result<(), Failed>,
    /// True if the buffer is empty and nothing has failed, so that bytes may go directly into the target's own buffer.
    is_free: bool,
    ghost free: { IsTrue is_free → (kept_in kept.now ≡ []) × (outcome ≡ Ok tt) },
}

impl<T: Target> fmt::Write for LineWriter<'_, T> {
    ghost use Rattle.fast_text.specs.meaning.LineWriter.{Writes};

    ghost write_str_gives = { Writes T.written T.has_failed };

    fn write_str(&mut self, text: &str) -> fmt::Result {
        self.put(text.as_bytes());
        Ok(())
    }
}

/// The greatest number of digits of a number.
const DIGITS: usize = 20;

/// The length of the letter of a value, with the space after it.
const LETTER: usize = 2;

/// The number of bytes that are copied for an unsigned value: its letter, all digits and the LF, in whole machine words.
const VALUE: usize = 24;

/// The number of bytes that are converted to hexadecimal digits at a time.
const HEX_CHUNK: usize = 32;

/// Returns whether a byte of a string is written unescaped.
fn is_plain(byte: u8) -> bool
    ensures { IsTrue result → escaped byte ≡ byte ∷ [] }
{
    byte != b'"' && byte != b'\\' && byte >= 0x20 && byte != 0x7f
}

/// Returns the number of bytes at the start of a string that are written unescaped.
fn plain_len(text: &[u8]) -> usize
    ensures within { result ≤ length text.now }
    ensures plain { All (λ c. escaped c ≡ c ∷ []) (take result text.now) }
{
    text.iter()
        .position(|byte| !is_plain(*byte))
        .unwrap_or(text.len())
}

impl<'a, T: Target> LineWriter<'a, T> {
    ghost use Rattle.fast_text.specs.meaning.LineWriter.{Begins, Finishes, Writes};

    /// Makes a writer that has written nothing, and empties the buffer `kept`.
    pub fn new(target: &'a mut T, kept: &'a mut Room) -> LineWriter<'a, T>
        ensures { Begins target.entry kept.entry result }
    {
        kept.clear();
        LineWriter {
            target,
            kept,
            outcome: Ok(()),
            is_free: true,
        }
    }

    /// Writes the buffered bytes to the target.
    fn write_on(&mut self)
        ensures written { Writes T.written T.has_failed self.old [] self.new }
        ensures empty { kept_in self.new.kept.now ≡ [] }
    {
        self.is_free = false;
        if self.outcome.is_ok() {
            self.outcome = self.target.write_all(self.kept.bytes());
        }
        self.kept.clear();
    }

    /// Writes a string to the target; the buffer must be empty.
    fn write_directly(&mut self, text: &[u8])
        requires { kept_in self.old.kept.now ≡ [] }
        ensures { Writes T.written T.has_failed self.old text.now self.new }
    {
        self.is_free = false;
        if self.outcome.is_ok() {
            self.outcome = self.target.write_all(text);
        }
    }

    /// Writes a string for which the buffer has no room.
    fn put_past(&mut self, text: &[u8])
        ensures { Writes T.written T.has_failed self.old text.now self.new }
    {
        self.write_on();
        self.write_directly(text);
    }

    /// Writes a string. It is inlined, so that strings of a known length are stored without a call.
    #[inline(always)]
    pub fn put(&mut self, text: &[u8])
        ensures { Writes T.written T.has_failed self.old text.now self.new }
    {
        self.put_front(text, text.len());
    }

    /// Writes the first `count` bytes of a block.
    #[inline(always)]
    pub(crate) fn put_front(&mut self, block: &[u8], count: usize)
        requires { count ≤ length block.now }
        ensures { Writes T.written T.has_failed self.old (take count block.now) self.new }
    {
        if self.put_at_once(block, count) {
            return;
        }
        self.put_behind(block, count);
    }

    /// Writes the first `count` bytes of a block into the target's own buffer. Returns false, with nothing written, if bytes are buffered,
    /// a write has failed, or the target has no such room.
    #[inline(always)]
    fn put_at_once(&mut self, block: &[u8], count: usize) -> bool
        requires { count ≤ length block.now }
        ensures put { IsTrue result → Writes T.written T.has_failed self.old (take count block.now) self.new }
        ensures not { result ≡ false → Writes T.written T.has_failed self.old [] self.new }
    {
        if self.is_free {
            self.target.keep(block, count)
        } else {
            false
        }
    }

    /// Appends the first `count` bytes of a block to the buffer.
    #[inline(never)]
    fn put_behind(&mut self, block: &[u8], count: usize)
        requires { count ≤ length block.now }
        ensures { Writes T.written T.has_failed self.old (take count block.now) self.new }
    {
        self.is_free = false;
        if self.kept.has_room(block.len()) {
            self.kept.keep(block, count);
        } else {
            self.put_past(&block[..count]);
        }
    }

    /// Writes an unsigned integer in decimal digits.
    #[inline(always)]
    pub fn put_unsigned(&mut self, number: u64)
        ensures { Writes T.written T.has_failed self.old (decimal number) self.new }
    {
        let mut cells = [0; 2 * DIGITS];
        let start = write_digits(number, &mut cells, DIGITS);
        self.put_front(&cells[start..start + DIGITS], DIGITS - start);
    }

    /// Writes a signed integer in decimal digits.
    pub fn put_signed(&mut self, integer: i64)
        ensures { Writes T.written T.has_failed self.old (signed_decimal integer) self.new }
    {
        if integer < 0 {
            self.put(b"-");
            self.put_unsigned(integer.unsigned_abs());
        } else {
            self.put_unsigned(integer.unsigned_abs());
        }
    }

    /// Writes a byte of a string, escaped if necessary.
    fn put_escaped(&mut self, byte: u8)
        ensures { Writes T.written T.has_failed self.old (escaped byte) self.new }
    {
        if byte == b'"' || byte == b'\\' {
            self.put(&[b'\\', byte]);
        } else if byte < 0x20 || byte == 0x7f {
            self.put(b"\\x");
            self.put_hex(&[byte]);
        } else {
            self.put(&[byte]);
        }
    }

    /// Writes a string in quotes, with escapes.
    pub fn put_quoted(&mut self, text: &[u8])
        ensures { Writes T.written T.has_failed self.old (quoted text.now) self.new }
    {
        self.put(b"\"");
        let mut rest = text;
        while !rest.is_empty() {
            let (plain, others) = rest.split_at(plain_len(rest));
            self.put(plain);
            rest = others;
            if let Some((byte, others)) = rest.split_first() {
                self.put_escaped(*byte);
                rest = others;
            }
        }
        self.put(b"\"");
    }

    /// Writes at most 32 bytes as lower case hexadecimal digits.
    fn put_hex_chunk(&mut self, bytes: &[u8])
        requires { length bytes.now ≤ HEX_CHUNK }
        ensures { Writes T.written T.has_failed self.old (flat_map hex_byte bytes.now) self.new }
    {
        let mut cells = [0; 2 * HEX_CHUNK];
        let digits = &mut cells[..2 * bytes.len()];
        let _ = hex::encode_to_slice(bytes, digits);
        self.put(digits);
    }

    /// Writes bytes as lower case hexadecimal digits.
    pub fn put_hex(&mut self, bytes: &[u8])
        ensures { Writes T.written T.has_failed self.old (flat_map hex_byte bytes.now) self.new }
    {
        let mut rest = bytes;
        while !rest.is_empty() {
            let (chunk, others) = rest.split_at(rest.len().min(HEX_CHUNK));
            self.put_hex_chunk(chunk);
            rest = others;
        }
    }

    /// Writes the letter of a string type, the space after it, and a string in quotes.
    #[inline(always)]
    fn put_text(&mut self, letter: &[u8], text: &[u8])
        ensures { Writes T.written T.has_failed self.old (letter.now ++ quoted text.now) self.new }
    {
        self.put(letter);
        self.put_quoted(text);
    }

    /// Writes the letter of a value's type, a space, and the value.
    pub fn put_value(&mut self, value: Scalar<'_>)
        ensures { Writes T.written T.has_failed self.old (value_text (scalar_data value.entry)) self.new }
    {
        match value {
            Scalar::U(number) => {
                self.put(b"u ");
                self.put_unsigned(number);
            }
            Scalar::I(number) => {
                self.put(b"i ");
                self.put_signed(number);
            }
            Scalar::Dec { exponent, mantissa } => {
                self.put(b"d ");
                self.put_signed(mantissa);
                self.put(b"e");
                self.put_signed(i64::from(exponent));
            }
            Scalar::Ascii(text) => self.put_text(b"a ", text),
            Scalar::Unicode(text) => self.put_text(b"s ", text),
            Scalar::Bytes(bytes) => {
                self.put(b"b ");
                self.put_hex(bytes);
            }
        }
    }

    /// Writes an unsigned value and the LF after it, in one piece.
    #[inline(always)]
    fn put_unsigned_line(&mut self, number: u64)
        ensures { Writes T.written T.has_failed self.old (codes "u " ++ decimal number ++ 0x0A ∷ []) self.new }
    {
        let mut cells = [b'\n'; LETTER + DIGITS + VALUE];
        let start = write_digits(number, &mut cells, LETTER + DIGITS);
        let at = start - LETTER;
        cells[at] = b'u';
        cells[at + 1] = b' ';
        self.put_front(&cells[at..at + VALUE], LETTER + DIGITS + 1 - at);
    }

    /// Writes a value as [`LineWriter::put_value`] does, and the LF after it.
    #[inline(always)]
    pub fn put_value_line(&mut self, value: Scalar<'_>)
        ensures { Writes T.written T.has_failed self.old (value_text (scalar_data value.entry) ++ 0x0A ∷ []) self.new }
    {
        match value {
            Scalar::U(number) => self.put_unsigned_line(number),
            _ => {
                self.put_value(value);
                self.put(b"\n");
            }
        }
    }

    /// Writes what the buffer holds. Returns the first failure, if there was one.
    pub fn finish(&mut self) -> Result<(), Failed>
        ensures { Finishes T.written T.has_failed self.old self.new result }
    {
        if self.is_free {
            return Ok(());
        }
        self.write_on();
        self.outcome
    }
}
