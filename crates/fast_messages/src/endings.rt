//! Lines without names that open and close the parts of a message.

ghost use Rattle.std.specs.Prelude.{◌≡◌, ◌↔◌, Some, IsTrue, option_map};
ghost use Rattle.fast_lines.specs.meaning.Forms.{line_data, element, sequence_end};
ghost use Rattle.fast_messages.specs.device.Naming.{end_line};

use fast_lines::forms::Line;

/// The line that ends the slots of a body.
#[derive(Clone, Copy, Debug)]
pub enum Ending {
    /// `end message`
    Message,
    /// `end group`
    Group,
    /// `end element`
    Element,
}

/// Returns whether the line is this ending.
pub fn is_ending(ending: Ending, line: Option<Line<'_>>) -> bool
    ensures { IsTrue result ↔ option_map line_data line.entry ≡ Some (end_line ending) }
{
    match ending {
        Ending::Message => matches!(line, Some(Line::MessageEnd)),
        Ending::Group => matches!(line, Some(Line::GroupEnd)),
        Ending::Element => matches!(line, Some(Line::ElementEnd)),
    }
}

/// Returns whether the line is the start of an element.
pub fn is_element(line: Option<Line<'_>>) -> bool
    ensures { IsTrue result ↔ option_map line_data line.entry ≡ Some element }
{
    matches!(line, Some(Line::Element))
}

/// Returns whether the line is the end of a sequence.
pub fn is_sequence_end(line: Option<Line<'_>>) -> bool
    ensures { IsTrue result ↔ option_map line_data line.entry ≡ Some sequence_end }
{
    matches!(line, Some(Line::SequenceEnd))
}
