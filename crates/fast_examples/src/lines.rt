//! Events and messages as lines.

ghost use Rattle.fast_examples.specs.meaning.Lines.{NestedLines, LinesSaid};

/// The lines of the nested message: one for each event, with the number and the name of its node.
pub fn nested_lines()
    ensures { NestedLines }
{}

/// These lines are those of the message, with and without the last LF.
pub fn lines_said()
    ensures { LinesSaid }
{}
