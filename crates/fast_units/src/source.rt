//! The source of a field's value once the field is complete.

/// The source of a value. A number is in the source itself; a string is borrowed from where it was read or is kept.
#[derive(Clone, Copy)]
pub enum ValueSource {
    /// There is no value.
    Absent,
    /// An unsigned number.
    Unsigned(u64),
    /// A signed number.
    Signed(i64),
    /// A decimal.
    Decimal {
        /// The exponent.
        exponent: i32,
        /// The mantissa.
        mantissa: i64,
    },
    /// The value that the field's dictionary entry holds.
    Entry,
    /// The initial value of the field.
    Initial,
    /// The string in the scratch.
    Scratch,
    /// The bytes that were read last, all of which are in the piece.
    Piece,
}
