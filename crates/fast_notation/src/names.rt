//! Names of templates, fields, keys and dictionaries.

ghost use Rattle.fast_notation.specs.device.Reading.{is_name};
ghost use Rattle.std.specs.Prelude.{◌≡◌, ◌↔◌, IsTrue};
ghost use Rattle.fast_tree.specs.meaning.AsWritten.{IsName, IsNameByte};

/// Returns whether the byte may occur in a name.
fn is_name_byte(b: u8) -> bool
    ensures { IsTrue result ↔ IsNameByte b }
{
    matches!(b, b'A'..=b'Z' | b'a'..=b'z' | b'0'..=b'9' | b'_' | b'-' | b'.')
}

/// Returns whether the string is a name: 1 to 64 letters, digits, underscores, hyphens and points.
pub(crate) fn is_name(name: &str) -> bool
    ensures name { IsTrue result ↔ IsName name.now }
    ensures test { result ≡ is_name name.now }
{
    for b in name.as_bytes() {
        if !is_name_byte(*b) {
            return false;
        }
    }
    !name.is_empty() && name.len() <= 64
}
