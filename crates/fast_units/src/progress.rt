//! The progress of a unit after the bytes that it begins with.

ghost use Rattle.std.specs.Prelude.{◌≡◌};
ghost use Rattle.fast_units.specs.device.Deciding.{answered};

use fast_value::Code;

/// The result of reading a unit from the bytes that it begins with.
#[derive(Clone, Copy)]
pub enum Progress<T> {
    /// The unit is complete: its value, and the number of bytes that belong to it.
    Whole(T, usize),
    /// A fault, and the number of bytes that decide it.
    Wrong(Code, usize),
    /// The unit goes on after all bytes.
    Cut,
}

/// Returns the result that is decided by this number of bytes.
#[inline(always)]
pub(crate) fn answered<T>(answer: Result<T, Code>, bytes: usize) -> Progress<T>
    ensures { result ≡ answered answer bytes }
{
    match answer {
        Ok(value) => Progress::Whole(value, bytes),
        Err(code) => Progress::Wrong(code, bytes),
    }
}
