//! Hexadecimal digits that come in pieces, converted to bytes.

ghost use Rattle.std.specs.Prelude.{◌≡◌, ℕ, ◌+◌, ◌*◌, ◌<◌, ◌≤◌, ◌^◌, List, [], ◌∷◌, ◌++◌, length, take, All, Some, IfSome, IfNone};
ghost use Rattle.std.specs.Option.{option_to_list};
ghost use Rattle.fast_value.specs.meaning.Initial.{IsHexDigit};
ghost use Rattle.fast_lines.specs.meaning.Hex.{IsHexOrBlank, Unhexed};
ghost use Rattle.fast_command.specs.meaning.Unhexing.{IsOfClass, StandsAt, Unhexes, pending};

/// The class of a character of a hexadecimal input.
#[derive(Clone, Copy, Debug, PartialEq, Eq)]
enum Class {
    /// A space, a tab, CR or LF, which is skipped.
    Blank,
    /// A digit, in either case.
    Digit,
    /// Any other character.
    Other,
}

/// The position in a hexadecimal input.
#[derive(Clone, Copy, Debug, PartialEq, Eq)]
pub enum Place {
    /// After complete pairs of digits.
    Between,
    /// After the first digit of a pair.
    InPair(u8),
    /// After a character that is neither a digit nor a blank, with its offset.
    Bad(u64),
}

/// Converts a hexadecimal input, which comes in pieces split anywhere, to bytes. Blanks may come between any two digits. From an invalid
/// character on, nothing is converted.
#[derive(Debug, Drop)]
pub struct Unhexer {
    len: u64,
    place: Place,
}

/// Returns the class of the character.
fn class_of(character: u8) -> Class
    ensures { IsOfClass character result }
{
    match character {
        b' ' | b'\t' | b'\r' | b'\n' => Class::Blank,
        b'0'..=b'9' | b'a'..=b'f' | b'A'..=b'F' => Class::Digit,
        _ => Class::Other,
    }
}

/// Returns the byte of a pair of digits.
fn byte_of(high: u8, low: u8) -> u8
    ensures { (m n : ℕ) → IsHexDigit high m → IsHexDigit low n → result ≡ 16 * m + n }
{
    let mut byte = [0];
    let _ = hex::decode_to_slice(&[high, low], &mut byte);
    byte[0]
}

impl Unhexer {
    /// Makes a converter at the start of an input.
    pub fn new() -> Unhexer
        ensures { Unhexes result [] [] }
    {
        Unhexer {
            len: 0,
            place: Place::Between,
        }
    }

    /// Reads a digit, and returns the byte that it completes.
    fn push_digit(&mut self, digit: u8) -> Option<u8>
        requires { (n : ℕ) × IsHexDigit digit n }
        ensures at { (t v : List ℕ) → StandsAt self.old.place t v
            → StandsAt self.new.place (t ++ digit ∷ []) (v ++ option_to_list result) }
        ensures len { self.new.len ≡ self.old.len }
        ensures pairs { 2 * length (option_to_list result) + pending self.new ≤ pending self.old + 1 }
    {
        match self.place {
            Place::Between => {
                self.place = Place::InPair(digit);
                None
            }
            Place::InPair(high) => {
                self.place = Place::Between;
                Some(byte_of(high, digit))
            }
            Place::Bad(_) => None,
        }
    }

    /// Reads an invalid character.
    fn push_other(&mut self, other: u8)
        requires { ¬ (IsHexOrBlank other) }
        ensures at { (t v : List ℕ) → self.old.len ≡ length t → StandsAt self.old.place t v
            → StandsAt self.new.place (t ++ other ∷ []) (v ++ []) }
        ensures len { self.new.len ≡ self.old.len }
        ensures pairs { pending self.new ≤ pending self.old }
    {
        let _ = other;
        match self.place {
            Place::Between => self.place = Place::Bad(self.len),
            Place::InPair(_) => self.place = Place::Bad(self.len),
            Place::Bad(_) => {}
        }
    }

    /// Reads a character, and returns the byte that it completes.
    fn push(&mut self, character: u8) -> Option<u8>
        requires { self.old.len + 1 < 2 ^ 64 }
        ensures unhexes { (t v : List ℕ) → Unhexes self.old t v
            → Unhexes self.new (t ++ character ∷ []) (v ++ option_to_list result) }
        ensures len { self.new.len ≡ self.old.len + 1 }
        ensures pairs { 2 * length (option_to_list result) + pending self.new ≤ pending self.old + 1 }
    {
        let byte = match class_of(character) {
            Class::Blank => None,
            Class::Digit => self.push_digit(character),
            Class::Other => {
                self.push_other(character);
                None
            }
        };
        self.len += 1;
        byte
    }

    /// Reads a piece of the input, writes its bytes to the start of a buffer, and returns their number. The buffer needs half as many bytes
    /// as the piece has characters.
    pub fn take(&mut self, piece: &[u8], bytes: &mut [u8]) -> usize
        requires room { length piece.now ≤ 2 * length bytes.old }
        requires few { self.old.len + length piece.now < 2 ^ 64 }
        ensures unhexes { (t v : List ℕ) → Unhexes self.old t v
            → Unhexes self.new (t ++ piece.now) (v ++ take result bytes.new) }
        ensures len { self.new.len ≡ self.old.len + length piece.now }
        ensures within { result ≤ length bytes.new }
        ensures fewer { result ≤ length piece.now }
    {
        let mut count = 0;
        for character in piece {
            if let Some(byte) = self.push(*character) {
                bytes[count] = byte;
                count += 1;
            }
        }
        count
    }

    /// Returns the offset of the first invalid character, if one was read.
    pub fn bad_character(&self) -> Option<u64>
        ensures found { IfSome result
            (λ place. (t v : List ℕ) → Unhexes self.now t v → Unhexed t v (Some place) × (place < length t)) }
        ensures none { IfNone result ((t v : List ℕ) → Unhexes self.now t v → All IsHexOrBlank t) }
    {
        match self.place {
            Place::Bad(place) => Some(place),
            Place::Between => None,
            Place::InPair(_) => None,
        }
    }

    /// Returns the first invalid offset of the input if it ends here: an invalid character, or the end, if a digit has no second one.
    pub fn bad_end(&self) -> Option<u64>
        ensures { (t v : List ℕ) → Unhexes self.now t v → Unhexed t v result }
    {
        match self.place {
            Place::Between => None,
            Place::InPair(_) => Some(self.len),
            Place::Bad(place) => Some(place),
        }
    }
}
