//! The bytes that are left of a piece.

ghost use Rattle.std.specs.Prelude.{◌≡◌, ◌<◌, ◌≤◌, All, drop, length};
ghost use Rattle.fast_fronts.specs.device.Fronts.{IsLoaded, IsTail};

use crate::words::last_word;

/// The bytes that are left of a piece. The piece's last seven bytes are at hand as a word, so that an integer in front is read as one word
/// wherever it is: where fewer than eight bytes are left, a shift makes the word of them.
#[derive(Clone, Copy)]
pub struct Rest<'p> {
    /// The bytes.
    pub bytes: &'p [u8],
    /// The piece's last seven bytes, the first one the lowest, after zeros for those that are missing.
    tail: u64,
    ghost numbers: { All (λ byte. byte < 256) bytes.now },
    ghost last: { IsTail tail bytes.now },
}

impl<'p> Rest<'p> {
    /// Returns the whole piece.
    #[inline(always)]
    pub fn new(piece: &'p [u8]) -> Rest<'p>
        ensures { result.bytes.now ≡ piece.now }
    {
        Rest {
            bytes: piece,
            tail: tail_of(piece),
        }
    }

    /// Returns what is left after `count` bytes.
    #[inline(always)]
    pub fn skip(self, count: usize) -> Rest<'p>
        requires { count ≤ length self.bytes.now }
        ensures { result.bytes.now ≡ drop count self.entry.bytes.now }
    {
        Rest {
            bytes: &self.bytes[count..],
            tail: self.tail,
        }
    }

    /// Returns the first eight bytes as one word, the first one the lowest, with zeros for those that are missing.
    #[inline(always)]
    pub(crate) fn word(self) -> u64
        ensures { IsLoaded result self.entry.bytes.now }
    {
        match self.bytes.first_chunk::<8>() {
            Some(chunk) => u64::from_le_bytes(*chunk),
            None => self.tail >> (56 - 8 * self.bytes.len()),
        }
    }
}

/// Returns the last seven bytes of a piece, the first one the lowest, after zeros for those that are missing.
#[inline(always)]
fn tail_of(piece: &[u8]) -> u64
    ensures { IsTail result piece.now }
{
    match piece.last_chunk::<8>() {
        Some(chunk) => u64::from_le_bytes(*chunk) >> 8,
        None => last_word(piece) << (56 - 8 * piece.len()),
    }
}
