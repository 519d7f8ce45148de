//! The plan of a call of fastcat.

ghost use Rattle.std.specs.Prelude.{◌≡◌, ◌↔◌, IsTrue};
ghost use Rattle.fast_words.specs.meaning.Plans.{limits_of};

use fast_value::Limits;

/// The argument for the built-in template set, in place of a path.
pub const BUILT_IN: &str = "@vectors";

/// A subcommand.
#[derive(Clone, Copy, Debug, PartialEq, Eq)]
pub enum Task {
    /// Checks a template file.
    Check,
    /// Shows a stream.
    Show,
    /// Converts lines to a stream.
    Convert,
    /// Lists the codes of faults and refusals. The rest of the plan has no meaning.
    Codes,
}

/// The plan of a call: its subcommand, paths and options.
#[derive(Clone, Copy, Debug, PartialEq, Eq)]
pub struct Plan<'a> {
    /// The subcommand.
    pub task: Task,
    /// The path of a template file, or `BUILT_IN`.
    pub templates: &'a str,
    /// The path of the input; `None` for standard input.
    pub input: Option<&'a str>,
    /// True if the stream that is read or written is hexadecimal digits.
    pub hex: bool,
    /// True if an encoding that is longer than it needs to be is a fault (strict mode).
    pub strict: bool,
    /// True if `check` lists the templates and nodes of the set.
    pub list: bool,
    /// True if `show` shows the offset and the bytes before each line.
    pub bytes: bool,
    /// True if `show` shows each message as a line of JSON.
    pub json: bool,
    /// The number of the first message that `show` shows; messages are counted from 0.
    pub from: u32,
    /// The greatest number of messages that `show` shows; `None` for all.
    pub limit: Option<u32>,
    /// The templates whose messages `show` shows, by name or identifier, separated by commas; `None` for all.
    pub only: Option<&'a str>,
    /// When `show` colors its lines, as given; `None` if not given.
    pub color: Option<&'a str>,
    /// True if a failure is explained.
    pub explain: bool,
    /// True if no failure is explained.
    pub no_explain: bool,
    /// The greatest length of a string in bytes.
    pub max_text: u32,
    /// The greatest number of elements of a sequence.
    pub max_elements: u32,
    /// The greatest number of elements of all sequences of a message.
    pub max_total: u32,
}

impl Plan<'_> {
    /// Returns whether the templates are those of the built-in set.
    pub fn has_built_in(&self) -> bool
        ensures { IsTrue result ↔ (self.now.templates.now ≡ BUILT_IN.now) }
    {
        self.templates == BUILT_IN
    }

    /// Returns the mode and the limits.
    pub fn limits(&self) -> Limits
        ensures { result ≡ limits_of self.now }
    {
        Limits {
            strict: self.strict,
            max_text: self.max_text as usize,
            max_elements: self.max_elements,
            max_total: self.max_total,
        }
    }
}
