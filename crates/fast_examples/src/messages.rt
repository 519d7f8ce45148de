//! Whole messages.

ghost use Rattle.fast_examples.specs.meaning.Messages.{OneInteger, CopiedIdentifier, SignedIntegers, NullableIntegers, GreatestInteger, ConstantElements, OneUnicodeText, Decimals, OptionalTexts, NestedMessage};

/// `C0 81 39 45 A3`: a presence map whose first bit says that a template identifier follows, identifier 1, and 942755 in three bytes.
pub fn one_integer()
    ensures { OneInteger }
{}

/// After such a message, `80 80` is another one of the same template: the map has no bit set, so the identifier is copied, and the integer
/// is 0.
pub fn copied_identifier()
    ensures { CopiedIdentifier }
{}

/// `46 3A DD` is -942755, `00 40 81` is 8193 and `7F 3F FF` is -8193. The first byte of the last two holds only the sign; strict mode
/// accepts them, since they mean another number without it.
pub fn signed_integers()
    ensures { SignedIntegers }
{}

/// An optional `uInt32` is sent as the number plus one: `10 00 00 00 80` is 4294967295, `81` is 0, `80` is absent. So is `00 80`, which
/// strict mode refuses as overlong at its last byte, the 14th of the stream.
pub fn nullable_integers()
    ensures { NullableIntegers }
{}

/// The greatest `int64`, which is sent plus one, has ten bytes.
pub fn greatest_integer()
    ensures { GreatestInteger }
{}

/// `83` is a length of three. Each element holds only a constant and has no bytes, so all events are emitted at the length.
pub fn constant_elements()
    ensures { ConstantElements }
{}

/// `82 C3 A9` is a Unicode string of two bytes.
pub fn one_unicode_text()
    ensures { OneUnicodeText }
{}

/// `FF 8F` is 15e-1, and the `80` after it an absent decimal; `BF 81` is 1e63 and `81 85` is 5e0, whose exponent is sent plus one; `00 C0`
/// is an exponent of 64, which is out of range, a fault at the 13th byte.
pub fn decimals()
    ensures { Decimals }
{}

/// An optional ASCII string: `80` is absent, `00 80` is empty, and `00 C1` begins with a zero character, a fault at the 9th byte.
pub fn optional_texts()
    ensures { OptionalTexts }
{}

/// The map `E0` has the bits of the identifier and of an optional group; `85` is a field of 5, `82 01 FF` the byte vector in the group,
/// `83` a length of two, sent plus one. Each element has its own map: under `C0` the string `AB` is sent, under `80` it is copied; the
/// deltas after the strings are 100 and -2.
pub fn nested_message()
    ensures { NestedMessage }
{}
