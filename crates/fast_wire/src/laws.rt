//! Laws over the definitions, for the layers above: each function's contract is one, and it does nothing.

ghost use Rattle.fast_wire.specs.meaning.Laws.{NoProperFront, NoStopNoEntity, OneReading, OneOutcome, StrictIsLenient, StrictIsShortest, ShortestIsStrict, OneSpelling, ReadBack, MapIsShortest, MapIsNarrow};

/// An entity is no proper prefix of an entity.
pub fn no_proper_front()
    ensures { NoProperFront }
{}

/// An entity is no prefix of bytes without a stop bit.
pub fn no_stop_no_entity()
    ensures { NoStopNoEntity }
{}

/// Bytes encode at most one integer.
pub fn one_reading()
    ensures { OneReading }
{}

/// Bytes that encode an integer decide no fault.
pub fn one_outcome()
    ensures { OneOutcome }
{}

/// Bytes that encode a value in strict mode encode it in both modes.
pub fn strict_is_lenient()
    ensures { StrictIsLenient }
{}

/// An encoding in strict mode is no longer than any other of the same integer.
pub fn strict_is_shortest()
    ensures { StrictIsShortest }
{}

/// The shortest encoding of an integer is not overlong.
pub fn shortest_is_strict()
    ensures { ShortestIsStrict }
{}

/// An integer has one encoding in strict mode.
pub fn one_spelling()
    ensures { OneSpelling }
{}

/// The bytes written for an integer encode it in both modes, and nothing else.
pub fn read_back()
    ensures { ReadBack }
{}

/// A map in strict mode is no longer than any other of the same bits.
pub fn map_is_shortest()
    ensures { MapIsShortest }
{}

/// A map in strict mode has no more bytes than its last set bit needs.
pub fn map_is_narrow()
    ensures { MapIsNarrow }
{}
