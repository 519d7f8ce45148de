//! An input of bytes, or of hexadecimal digits that stand for them.

ghost use Rattle.std.specs.Prelude.{◌≡◌, ℕ, ◌≤◌, List, [], ◌++◌, All, IsTrue, IfSome, IfNone, is_some, length};
ghost use Rattle.fast_lines.specs.meaning.Hex.{IsHexOrBlank};
ghost use Rattle.fast_command.specs.meaning.Showing.{StandsFor};
ghost use Rattle.fast_command.specs.device.Progress.{HasRoom, IsTaken, IsBadPlace};

use fast_command::unhexer::Unhexer;

/// Returns the converter of a hexadecimal input, or `None` for a binary one.
pub fn unhexer_of(hex: bool) -> Option<Unhexer>
    ensures there { is_some result ≡ hex }
    ensures taken { IsTaken result [] [] }
{
    if hex { Some(Unhexer::new()) } else { None }
}

/// Returns the bytes of a piece of the input: those of its digits, or the piece itself if the input is not hexadecimal.
pub fn bytes_of<'b>(unhexer: &mut Option<Unhexer>, piece: &'b [u8], room: &'b mut [u8]) -> &'b [u8]
    requires counted { HasRoom unhexer.old (length piece.now) }
    requires room { length piece.now ≤ length room.old }
    ensures taken { (text b : List ℕ) → IsTaken unhexer.old text b
        → IsTaken unhexer.new (text ++ piece.now) (b ++ result.now) }
    ensures same { is_some unhexer.new ≡ is_some unhexer.old }
    ensures few { length result.now ≤ length piece.now }
{
    match unhexer {
        None => piece,
        Some(unhexer) => {
            let count = unhexer.take(piece, room);
            &room[..count]
        }
    }
}

/// Returns the offset of the first invalid character of a hexadecimal input, if there was one.
pub fn bad_character(unhexer: &Option<Unhexer>) -> Option<u64>
    ensures found { IfSome result (IsBadPlace unhexer.now) }
    ensures none { IfNone result
        ((text b : List ℕ) → IsTrue (is_some unhexer.now) → IsTaken unhexer.now text b → All IsHexOrBlank text) }
{
    match unhexer {
        None => None,
        Some(unhexer) => unhexer.bad_character(),
    }
}

/// Returns the first invalid offset of a hexadecimal input that ends here, if there is one.
pub fn bad_end(unhexer: &Option<Unhexer>) -> Option<u64>
    ensures { (text b : List ℕ) → IsTaken unhexer.now text b → StandsFor (is_some unhexer.now) text b result }
{
    match unhexer {
        None => None,
        Some(unhexer) => unhexer.bad_end(),
    }
}
