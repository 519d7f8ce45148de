//! Field operators and previous values.

ghost use Rattle.fast_examples.specs.meaning.Operators.{TextTails, TextDeltas, UnicodeDeltas, OptionalDelta, Increments, OptionalCopy, AbsentDecimalTakesNoMantissaBit, ResetForgets};

/// `ABCDE` is sent whole; the tail `XY` replaces its last two characters; then nothing is sent, and the string is copied.
pub fn text_tails()
    ensures { TextTails }
{}

/// `GEH6` is appended to the empty string; `82` removes two characters at the end and `M6` is appended; `FF` removes none at the start and
/// `ZZ` is prepended; `87` removes seven of six characters, a fault at the 17th byte.
pub fn text_deltas()
    ensures { TextDeltas }
{}

/// The subtraction length counts bytes: without its last byte a character of two bytes is not UTF-8, a fault at the 9th byte.
pub fn unicode_deltas()
    ensures { UnicodeDeltas }
{}

/// `86` is a delta of 5 from 0; `80` is NULL, which means absent and leaves the entry unchanged; so `82`, a delta of 1, yields 6.
pub fn optional_delta()
    ensures { OptionalDelta }
{}

/// The greatest `uInt32` is sent, and then nothing twice: the value after the greatest is the least, 0, and then 1 follows.
pub fn increments()
    ensures { Increments }
{}

/// `81` is 0; `80` with the field's bit set is NULL, which means absent and makes the entry empty; so the field is absent again if nothing
/// is sent.
pub fn optional_copy()
    ensures { OptionalCopy }
{}

/// The exponent of an optional decimal is NULL: then the mantissa has no presence bit, and the third bit of the map `F0` is that of the
/// field after the decimal, 5.
pub fn absent_decimal_takes_no_mantissa_bit()
    ensures { AbsentDecimalTakesNoMantissaBit }
{}

/// An optional field is 0; then a template that resets is sent twice, the second time by the copied identifier; then the field has nothing
/// to copy, and is absent.
pub fn reset_forgets()
    ensures { ResetForgets }
{}
