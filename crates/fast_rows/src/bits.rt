//! The bits of a presence map.

ghost use Rattle.std.specs.Prelude.{◌≡◌, ◌<◌, flat_map};
ghost use Rattle.fast_rows.specs.meaning.Notes.{bit, bits};
ghost use Rattle.fast_text.specs.meaning.LineWriter.{Writes};

use fast_text::{LineWriter, Target};

/// Returns the digit of the bit with this weight.
fn bit_of(byte: u8, weight: u8) -> u8
    requires { 0 < weight }
    ensures { result ≡ bit byte weight }
{
    b'0' + byte / weight % 2
}

/// Writes the seven bits of a byte of a presence map, after a space.
fn put_byte<T: Target>(line: &mut LineWriter<'_, T>, byte: u8)
    ensures { Writes T.written T.has_failed line.old (bits byte) line.new }
{
    line.put(&[
        b' ',
        bit_of(byte, 64),
        bit_of(byte, 32),
        bit_of(byte, 16),
        bit_of(byte, 8),
        bit_of(byte, 4),
        bit_of(byte, 2),
        bit_of(byte, 1),
    ]);
}

/// Writes the bits of the bytes of a presence map.
pub fn put_bits<T: Target>(line: &mut LineWriter<'_, T>, bytes: &[u8])
    ensures { Writes T.written T.has_failed line.old (flat_map bits bytes.now) line.new }
{
    for byte in bytes {
        put_byte(line, *byte);
    }
}
