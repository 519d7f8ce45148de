//! Fields that are read from the piece at once, with all their units, and strings that begin in it and do not end there.

use fast_units::fields::Number;
use fast_units::source::ValueSource;
use fast_units::stages::Stage;

/// A number that is in the piece completely, or NULL, with its number of bytes.
#[derive(Clone, Copy)]
pub struct TakenItem {
    /// The number, or `None` for NULL.
    pub item: Option<Number>,
    /// The number of bytes of the field.
    pub bytes: usize,
}

/// A string that is in the piece completely, or NULL, with the number of bytes of the field.
#[derive(Clone, Copy)]
pub struct TakenText {
    /// The source of the value.
    pub source: ValueSource,
    /// The offset of the string in the bytes of the field, if it is borrowed from them.
    pub from: usize,
    /// The number of bytes of the field.
    pub bytes: usize,
}

/// A string that begins in the piece and goes on after it: its units before the last are complete, and the last is split.
#[derive(Clone, Copy)]
pub struct BegunText {
    /// The last unit.
    pub stage: Stage,
    /// The offset of the last unit in the bytes of the field. All bytes from here on belong to it.
    pub from: usize,
}
