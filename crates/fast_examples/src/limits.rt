//! The limits on streams, and the costs of a template set.

ghost use Rattle.fast_examples.specs.meaning.Limits.{ElementLimit, TotalLimit, TextLimit, MapLimit, Sizes};

/// A length of 4294967295 is refused at its last byte, and no event of the sequence is emitted; the same holds for 1000 if 999 are allowed.
/// The limit on a sequence is checked before that on a message.
pub fn element_limit()
    ensures { ElementLimit }
{}

/// If a message may have five elements, two that contain one each are allowed. If they contain two each, the two in the second would be the
/// fifth and the sixth: a fault at their length. The limit applies to a single sequence too.
pub fn total_limit()
    ensures { TotalLimit }
{}

/// A string with a length above the limit is refused at the last byte of the length. An ASCII string has no length: as many characters as
/// the limit allows are read, and the next one is refused.
pub fn text_limit()
    ensures { TextLimit }
{}

/// A presence map has at most 146 bytes. 145 bytes without a stop bit and one with it are a map without a set bit, so the identifier is
/// copied, and there is none; 146 bytes without a stop bit are a fault themselves.
pub fn map_limit()
    ensures { MapLimit }
{}

/// The depth, the greatest number of events and of turns of a message, and the greatest amount that a decoder stores, of the built-in set,
/// of its second template alone, and of a sequence of sequences.
pub fn sizes()
    ensures { Sizes }
{}
