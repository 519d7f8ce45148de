//! The types of fields.

/// The primitive types of FAST 1.1 (Template Definition, Primitive Field Types).
#[derive(Clone, Copy, Debug, PartialEq, Eq)]
pub enum Kind {
    /// Integers of 0 to 2^32 - 1.
    UInt32,
    /// Integers of -2^31 to 2^31 - 1.
    Int32,
    /// Integers of 0 to 2^64 - 1.
    UInt64,
    /// Integers of -2^63 to 2^63 - 1.
    Int64,
    /// A mantissa times ten to an exponent of -63 to 63.
    Decimal,
    /// A string of characters below U+0080.
    Ascii,
    /// A string in UTF-8.
    Unicode,
    /// A byte vector.
    Bytes,
}
