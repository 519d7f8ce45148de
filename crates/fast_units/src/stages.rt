//! Fields that have more than one unit, and the unit that comes next.

use crate::source::ValueSource;

/// The unit of a field that comes next, after its first one, with the values of the units before it.
#[derive(Clone, Copy, Debug, PartialEq, Eq)]
pub enum Stage {
    /// The mantissa of a decimal, after this exponent.
    Mantissa(i32),
    /// The mantissa delta of a decimal, after its exponent delta, which gave this exponent.
    MantissaDelta(i32),
    /// The bytes of a vector, after this size.
    Vector(usize),
    /// The part of a string delta, after this subtraction length: an ASCII string, or the size of a vector.
    Part(i32),
    /// The bytes of a string delta's part, after this subtraction length and this size.
    PartVector(i32, usize),
}

/// The result of a unit.
#[derive(Clone, Copy)]
pub enum FieldStep {
    /// The field is complete, and its value has this source.
    Settled(ValueSource),
    /// Another unit follows.
    Next(Stage),
}
