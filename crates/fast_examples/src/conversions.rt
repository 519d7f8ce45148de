//! Lines that are converted to a stream.

ghost use Rattle.fast_examples.specs.meaning.Conversions.{LinesConverted};

/// Runs of `convert` with hexadecimal output, under a set equal to the built-in one. It writes `c0813945a3` for the lines of a message of
/// T1; for those of a T3 with `ABCDE` and a T3 with `AB` it writes the first message, and ends with E3 at message 1, counted from 0.
pub fn lines_converted()
    ensures { LinesConverted }
{}
