//! Faults and their offsets.

ghost use Rattle.fast_examples.specs.meaning.Faults.{IdentifierFaults, PreviousValueFaults, IntegerFaults, TextFaults, SubtractionFaults, OverlongInteger, OverlongMaps};

/// `80` copies a template identifier that was never sent: a fault at the map, since the identifier has no byte. `D5` is an identifier that
/// no template has, and ten bytes without a stop bit are no identifier. No event is emitted.
pub fn identifier_faults()
    ensures { IdentifierFaults }
{}

/// A mandatory field is not sent, and its previous value is undefined, or of another type: both are faults at the identifier, which is the
/// last byte, after the start of the message.
pub fn previous_value_faults()
    ensures { PreviousValueFaults }
{}

/// `10 00 00 00 80` is 2^32, too great by one for a `uInt32`, a fault at its last byte; ten bytes without a stop bit are a fault at the
/// tenth; a delta may have ten bytes, but the sum must be an `int32`.
pub fn integer_faults()
    ensures { IntegerFaults }
{}

/// `C3 28` is not UTF-8, a fault at its last byte; a length of 2^32 is not a `uInt32`; and a mandatory ASCII string that begins with a zero
/// character is a fault at that byte.
pub fn text_faults()
    ensures { TextFaults }
{}

/// The subtraction length of a string's delta is 2^31, which is not an `int32`, or -2^31, which is more than the empty string has.
pub fn subtraction_faults()
    ensures { SubtractionFaults }
{}

/// `00 81` is 1 in lenient mode; in strict mode it is overlong, a fault at its last byte.
pub fn overlong_integer()
    ensures { OverlongInteger }
{}

/// The presence maps `40 80` and `40 81` mean the same as `C0`, and lenient mode accepts them. In strict mode the first is a fault at its
/// last byte, of which no bit is set; the second has more bits than template 1 can use, which is known only at the identifier.
pub fn overlong_maps()
    ensures { OverlongMaps }
{}
