//! The columns before each text: the offset, and at most eight bytes.

ghost use Rattle.std.specs.Prelude.{◌≡◌, ◌+◌, ◌≤◌, ◌<◌, length, flat_map};
ghost use Rattle.fast_lines.specs.meaning.Lines.{hex_digit};
ghost use Rattle.fast_rows.specs.meaning.Columns.{mark, digit_at, four, last_four, offset, spaced, cells, columns};
ghost use Rattle.fast_text.specs.meaning.LineWriter.{Writes};

use fast_text::{LineWriter, Target};

/// The greatest number of bytes of a row.
pub const ROW: usize = 8;

/// The spaces in place of eight bytes, and after them.
const SPACES: &[u8; 26] = b"                          ";

/// Returns the lower case hexadecimal digit of a number below 16.
fn digit_of(number: u8) -> u8
    requires { number < 16 }
    ensures { result ≡ hex_digit number }
{
    if number < 10 {
        b'0' + number
    } else {
        b'a' + (number - 10)
    }
}

/// Returns a hexadecimal digit, or a space in its place.
fn mark_of(is_shown: bool, digit: u8) -> u8
    requires { digit < 16 }
    ensures { result ≡ mark is_shown digit }
{
    if is_shown { digit_of(digit) } else { b' ' }
}

/// Writes the digit of an offset at a shift, or a space in its place; nothing before the first digit that is not 0.
fn put_digit<T: Target>(line: &mut LineWriter<'_, T>, is_shown: bool, at: u64, shift: u32)
    requires { shift < 64 }
    ensures { Writes T.written T.has_failed line.old (digit_at is_shown at shift) line.new }
{
    let rest = at >> shift;
    if 0 < rest {
        line.put(&[mark_of(is_shown, (rest % 16) as u8)]);
    }
}

/// Writes the four digits of an offset from a shift on, if the offset has them.
fn put_four<T: Target>(line: &mut LineWriter<'_, T>, is_shown: bool, at: u64, shift: u32)
    requires { shift + 12 < 64 }
    ensures { Writes T.written T.has_failed line.old (four is_shown at shift) line.new }
{
    put_digit(line, is_shown, at, shift + 12);
    put_digit(line, is_shown, at, shift + 8);
    put_digit(line, is_shown, at, shift + 4);
    put_digit(line, is_shown, at, shift);
}

/// Writes the last four digits of an offset, or spaces.
fn put_last_four<T: Target>(line: &mut LineWriter<'_, T>, is_shown: bool, at: u64)
    ensures { Writes T.written T.has_failed line.old (last_four is_shown at) line.new }
{
    line.put(&[
        mark_of(is_shown, ((at >> 12) % 16) as u8),
        mark_of(is_shown, ((at >> 8) % 16) as u8),
        mark_of(is_shown, ((at >> 4) % 16) as u8),
        mark_of(is_shown, (at % 16) as u8),
    ]);
}

/// Writes an offset in hexadecimal digits, at least four; or a space for each of them.
fn put_offset<T: Target>(line: &mut LineWriter<'_, T>, is_shown: bool, at: u64)
    ensures { Writes T.written T.has_failed line.old (offset is_shown at) line.new }
{
    put_four(line, is_shown, at, 48);
    put_four(line, is_shown, at, 32);
    put_four(line, is_shown, at, 16);
    put_last_four(line, is_shown, at);
}

/// Writes a byte in hexadecimal digits, after a space.
fn put_byte<T: Target>(line: &mut LineWriter<'_, T>, byte: u8)
    ensures { Writes T.written T.has_failed line.old (spaced byte) line.new }
{
    line.put(&[b' ', digit_of(byte / 16), digit_of(byte % 16)]);
}

/// Writes bytes in hexadecimal digits, each after a space.
fn put_bytes<T: Target>(line: &mut LineWriter<'_, T>, bytes: &[u8])
    ensures { Writes T.written T.has_failed line.old (flat_map spaced bytes.now) line.new }
{
    for byte in bytes {
        put_byte(line, *byte);
    }
}

/// Writes an offset, and the bytes there.
pub fn put_cells<T: Target>(line: &mut LineWriter<'_, T>, at: u64, bytes: &[u8])
    ensures { Writes T.written T.has_failed line.old (cells at bytes.now) line.new }
{
    put_offset(line, true, at);
    line.put(b" ");
    put_bytes(line, bytes);
}

/// Writes the columns before a text: an offset, and at most eight bytes, or spaces if there are no bytes.
pub fn put_columns<T: Target>(line: &mut LineWriter<'_, T>, at: u64, bytes: &[u8])
    requires { length bytes.now ≤ ROW }
    ensures { Writes T.written T.has_failed line.old (columns at bytes.now) line.new }
{
    if bytes.is_empty() {
        put_offset(line, false, at);
        line.put(b"                           ");
    } else {
        put_cells(line, at, bytes);
        line.put(&SPACES[..3 * (ROW - bytes.len()) + 2]);
    }
}
