//! Byte vectors in lower case hexadecimal digits.

ghost use Rattle.std.specs.Prelude.{◌≡◌, ◌≢◌, ◌↔◌, ℕ, ◌<◌, List, IsTrue, All, IfSome, IfNone, IfOk, flat_map};
ghost use Rattle.fast_lines.specs.meaning.Lines.{hex_byte};
ghost use Rattle.fast_lines.specs.device.Bytes.{IsNotUpper};

use hex::FromHexError;
use std::alloc::{AllocError, Global};

/// Returns whether none of the characters is an upper case letter.
fn is_lower(text: &[u8]) -> bool
    ensures { IsTrue result ↔ All IsNotUpper text.now }
{
    text.iter().all(|digit| *digit < b'A' || *digit > b'Z')
}

/// Returns the bytes of pairs of lower case hexadecimal digits; `None` if the input is not such pairs.
pub fn parse_bytes(alloc: Global, text: &[u8]) -> Result<Option<Vec<u8>>, AllocError>
    ensures value { IfOk result (λ o. IfSome o (λ v. text.now ≡ flat_map hex_byte v.items)) }
    ensures none { IfOk result (λ o. IfNone o ((v : List ℕ) → All (λ c. c < 256) v → text.now ≢ flat_map hex_byte v)) }
{
    if !is_lower(text) {
        return Ok(None);
    }
    match hex::decode(alloc, text) {
        Ok(bytes) => Ok(Some(bytes)),
        Err(error) => match error {
            FromHexError::OutOfMemory => Err(AllocError),
            _ => Ok(None),
        },
    }
}
