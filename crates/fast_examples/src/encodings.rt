//! Encodings of messages.

ghost use Rattle.fast_examples.specs.meaning.Encodings.{OptionalDeltaEncoded, DecimalPartsEncoded, ResetEncoded, TailsEncoded, NestedEncoded};
ghost use Rattle.fast_examples.specs.meaning.Wide.{WideEncoded};

/// 5 as a delta from 0 is `86`; absence is NULL, `80`, and leaves the entry unchanged; so 6 is a delta of 1, `82`.
pub fn optional_delta_encoded()
    ensures { OptionalDeltaEncoded }
{}

/// An absent decimal without a previous value has no bytes: the bit of its exponent is clear, its mantissa has no bit, and the third bit of
/// the map `D0` is that of the 5 after it. Under `F8`, exponent, mantissa and the 5 are all sent.
pub fn decimal_parts_encoded()
    ensures { DecimalPartsEncoded }
{}

/// An optional field is 0; then a template that resets is sent twice, the second time with its identifier copied, in one byte; then the
/// field is absent, and since it has no previous value, its bit is clear.
pub fn reset_encoded()
    ensures { ResetEncoded }
{}

/// `ABCDE` is sent whole, `ABCXY` as the tail `XY`, and the same string again as nothing. `AB` is shorter than the previous value, so that
/// no tail yields it: E3.
pub fn tails_encoded()
    ensures { TailsEncoded }
{}

/// A field, a group that is present and a sequence of two elements, each with its own presence map: the first element sends its string, the
/// second copies it, and both send deltas.
pub fn nested_encoded()
    ensures { NestedEncoded }
{}

/// The last of 300 optional fields under copy is 5, and all others are absent: the presence map has 43 bytes, of which the first and the
/// last have a bit set, before the identifier and the 5.
pub fn wide_encoded()
    ensures { WideEncoded }
{}
