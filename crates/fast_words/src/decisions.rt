//! Consequences of a plan: where its texts are read, which of its options conflict, and whether a failure is explained.

ghost use Rattle.std.specs.Prelude.{◌≡◌, option_map};
ghost use Rattle.fast_words.specs.meaning.Decisions.{AreAt, IsAt, conflict_of, form_conflict_of, is_always, is_explained};

use crate::plans::{BUILT_IN, Plan, Task};

/// The argument for standard input, in place of a path.
pub const STANDARD_INPUT: &str = "-";

/// Where a text or a stream is read.
#[derive(Clone, Copy, Debug, PartialEq, Eq)]
pub enum Origin<'a> {
    /// It is the built-in template set, and nothing is read.
    BuiltIn,
    /// Standard input.
    StandardInput,
    /// The file at a path.
    File(&'a str),
}

/// A command line whose arguments do not go together.
#[derive(Clone, Copy, Debug, PartialEq, Eq)]
pub enum Conflict {
    /// A failure is to be explained, and not to be explained.
    Explanation,
    /// The templates and the input are both standard input.
    StandardInput,
    /// Lines with their bytes are to be JSON.
    BytesAndJson,
    /// Only some templates are to be shown with their bytes.
    BytesAndOnly,
    /// Messages are to be skipped, and all bytes shown.
    BytesAndFrom,
    /// Only some messages are to be shown with their bytes.
    BytesAndLimit,
    /// Lines with their bytes are to be colored.
    BytesAndColor,
    /// JSON is to be colored.
    JsonAndColor,
}

impl Conflict {
    /// Returns the message for a conflict.
    pub fn message(self) -> &'static str {
        match self {
            Conflict::Explanation => "the argument '--explain' cannot be used with '--no-explain'",
            Conflict::StandardInput => "T and F cannot both be standard input",
            Conflict::BytesAndJson => "the argument '--bytes' cannot be used with '--json'",
            Conflict::BytesAndOnly => "the argument '--bytes' cannot be used with '--only'",
            Conflict::BytesAndFrom => "the argument '--bytes' cannot be used with '--from'",
            Conflict::BytesAndLimit => "the argument '--bytes' cannot be used with '--limit'",
            Conflict::BytesAndColor =>
                "the argument '--bytes' cannot be used with '--color always'",
            Conflict::JsonAndColor => "the argument '--json' cannot be used with '--color always'",
        }
    }
}

/// Returns whether colors are asked for wherever the lines go.
fn is_always(color: Option<&str>) -> bool
    ensures { result ≡ is_always (option_map (λ s. s.now) color.entry) }
{
    match color {
        None => false,
        Some(word) => word == "always",
    }
}

impl<'a> Plan<'a> {
    /// Returns where the templates are read: [`BUILT_IN`] is the built-in set, [`STANDARD_INPUT`] is standard input.
    pub fn templates_origin(&self) -> Origin<'a>
        ensures { AreAt self.now.templates.now result }
    {
        if self.templates == BUILT_IN {
            Origin::BuiltIn
        } else if self.templates == STANDARD_INPUT {
            Origin::StandardInput
        } else {
            Origin::File(self.templates)
        }
    }

    /// Returns where the input is read: standard input without a path, or for [`STANDARD_INPUT`].
    pub fn input_origin(&self) -> Origin<'a>
        ensures { IsAt (option_map (λ s. s.now) self.now.input) result }
    {
        match self.input {
            Some(path) if path != STANDARD_INPUT => Origin::File(path),
            _ => Origin::StandardInput,
        }
    }

    /// Returns the conflict of a command line, if its arguments do not go together.
    pub fn conflict(&self) -> Option<Conflict>
        ensures { result ≡ conflict_of self.now }
    {
        if self.explain && self.no_explain {
            return Some(Conflict::Explanation);
        }
        let is_read = matches!(self.task, Task::Show | Task::Convert);
        match (self.templates_origin(), self.input_origin()) {
            (Origin::StandardInput, Origin::StandardInput) if is_read => Some(
                Conflict::StandardInput,
            ),
            _ => None,
        }
    }

    /// Returns the conflict of the options for the form of what is shown, if they do not go together.
    pub fn form_conflict(&self) -> Option<Conflict>
        ensures { result ≡ form_conflict_of self.now }
    {
        let is_colored = is_always(self.color);
        if !self.bytes {
            return if self.json && is_colored {
                Some(Conflict::JsonAndColor)
            } else {
                None
            };
        }
        if self.json {
            Some(Conflict::BytesAndJson)
        } else if self.only.is_some() {
            Some(Conflict::BytesAndOnly)
        } else if self.from > 0 {
            Some(Conflict::BytesAndFrom)
        } else if self.limit.is_some() {
            Some(Conflict::BytesAndLimit)
        } else if is_colored {
            Some(Conflict::BytesAndColor)
        } else {
            None
        }
    }

    /// Returns whether a failure is explained: as `--explain` and `--no-explain` say; without them, if standard error is a terminal.
    pub fn explains(&self, is_terminal: bool) -> bool
        ensures { result ≡ is_explained self.now is_terminal }
    {
        self.explain || is_terminal && !self.no_explain
    }
}
