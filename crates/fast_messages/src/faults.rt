//! The faults of a file of lines.

use std::alloc::AllocError;
use std::error::Error;
use std::fmt;

/// The error of reading lines.
#[derive(Clone, Copy, Debug, PartialEq, Eq)]
pub enum TextFault {
    /// A line is invalid, or the input ends where a line is due.
    BadLine {
        /// The number of the first such line, from 1.
        line: u64,
        /// The fault of the line: the first of the faults, in their order, that applies.
        kind: LineFault,
    },
    /// An allocation failed.
    Memory,
}

/// The fault of a line.
#[derive(Clone, Copy, Debug, PartialEq, Eq)]
pub enum LineFault {
    /// It is not UTF-8, or has not the form of any line.
    Form,
    /// No template has this name.
    UnknownTemplate,
    /// Nothing of its name can come next, whatever is optional and however many elements there are.
    OutOfPlace,
    /// Its value is not one of the field.
    WrongValue,
    /// Something mandatory before it is missing.
    PassedOver,
    /// The sequence has not as many elements as its line says.
    WrongCount,
    /// The input ends where a line is due.
    Missing,
}

impl LineFault {
    ghost use Rattle.std.specs.Prelude.{◌≡◌};
    ghost use Rattle.fast_messages.specs.meaning.Codes.{line_number};

    /// Returns the number of the fault, for callers that cannot receive an enum. No number is ever given to another fault; if several
    /// faults apply to a line, the one with the least number is reported.
    pub fn number(self) -> u8
        ensures { result ≡ line_number self }
    {
        match self {
            LineFault::Form => 1,
            LineFault::UnknownTemplate => 2,
            LineFault::OutOfPlace => 3,
            LineFault::WrongValue => 4,
            LineFault::PassedOver => 5,
            LineFault::WrongCount => 6,
            LineFault::Missing => 7,
        }
    }
}

impl fmt::Display for LineFault {
    fn fmt<W: fmt::Write>(&self, f: &mut fmt::Formatter<W>) -> fmt::Result {
        f.write_str(match self {
            LineFault::Form => "it is not UTF-8, or not of the form of any line",
            LineFault::UnknownTemplate => "no template has its name",
            LineFault::OutOfPlace => "nothing of its name can stand there",
            LineFault::WrongValue => "its value is none that the field can have",
            LineFault::PassedOver => "something mandatory is left out before it",
            LineFault::WrongCount => "the sequence has not as many elements as its line says",
            LineFault::Missing => "the text ends where the line had to stand",
        })
    }
}

impl Error for LineFault {}

impl fmt::Display for TextFault {
    fn fmt<W: fmt::Write>(&self, f: &mut fmt::Formatter<W>) -> fmt::Result {
        match self {
            TextFault::BadLine { line, kind } => {
                write!(
                    f,
                    "line {line} kind {number}: {kind}",
                    number = kind.number()
                )
            }
            TextFault::Memory => f.write_str("there is no memory left"),
        }
    }
}

impl Error for TextFault {}

impl From<AllocError> for TextFault {
    ghost use Rattle.std.specs.Prelude.{◌≡◌};
    ghost use Rattle.fast_messages.specs.declared.faults.TextFault.TheVariants.{Memory};

    ghost from_gives = { λ _ fault. fault ≡ Memory };

    fn from(_error: AllocError) -> TextFault {
        TextFault::Memory
    }
}
