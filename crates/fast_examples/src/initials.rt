//! Initial values: their written form, in a set, and in messages.

ghost use Rattle.fast_examples.specs.meaning.Initials.{InitialTexts, InitialsRead, InitialsInStreams, InitialsEncoded};

/// Initial values: numbers, a decimal with its exponent, a string, and a byte vector as hexadecimal digits.
pub fn initial_texts()
    ensures { InitialTexts }
{}

/// A template file with an optional constant of 7, a default of -3 and an optional default without initial value.
pub fn initials_read()
    ensures { InitialsRead }
{}

/// Under the set of [`initials_read`], `E0 81` is 7, -3 and an absent field: the bit of the constant is set, the others are clear. `98 82
/// 80` is an absent constant, a 2, and NULL.
pub fn initials_in_streams()
    ensures { InitialsInStreams }
{}

/// The encoder writes `E0 81` for the first message, and `90 82` for the second, since a field that is absent by default needs no NULL.
pub fn initials_encoded()
    ensures { InitialsEncoded }
{}
