//! The error codes of a template set.

use std::error::Error;
use std::fmt;

/// The error of a template file. The codes that begin with S or D are named after errors of the FAST Specification Version 1.1; those that
/// begin with C are this reader's own.
#[derive(Clone, Copy, Debug, PartialEq, Eq)]
pub enum StaticCode {
    /// The file is not TOML, or not of the stated shape.
    S1,
    /// The operator does not suit the type.
    S2,
    /// The initial value is no value of the type.
    S3,
    /// A constant has no initial value.
    S4,
    /// A mandatory default has no initial value.
    S5,
    /// A reference names no template.
    D8,
    /// An earlier template has the name.
    C1,
    /// An earlier template has the identifier.
    C2,
    /// The template refers to itself, directly or through others.
    C3,
    /// More than 64 references lead from one template to the next, or more than 64 groups and sequences nest.
    C4,
    /// A segment can use more than 1,022 bits of its presence map.
    C5,
    /// The set has more than 65,536 nodes.
    C6,
    /// An allocation failed.
    Memory,
}

impl StaticCode {
    ghost use Rattle.std.specs.Prelude.{◌≡◌};
    ghost use Rattle.fast_notation.specs.meaning.Codes.{static_code_text};

    /// Returns the name of the code, such as `S1`; `Display` writes a description.
    pub fn name(self) -> &'static str
        ensures { result.now ≡ static_code_text self }
    {
        match self {
            StaticCode::S1 => "S1",
            StaticCode::S2 => "S2",
            StaticCode::S3 => "S3",
            StaticCode::S4 => "S4",
            StaticCode::S5 => "S5",
            StaticCode::D8 => "D8",
            StaticCode::C1 => "C1",
            StaticCode::C2 => "C2",
            StaticCode::C3 => "C3",
            StaticCode::C4 => "C4",
            StaticCode::C5 => "C5",
            StaticCode::C6 => "C6",
            StaticCode::Memory => "Memory",
        }
    }
}

impl fmt::Display for StaticCode {
    fn fmt<W: fmt::Write>(&self, f: &mut fmt::Formatter<W>) -> fmt::Result {
        f.write_str(match self {
            StaticCode::S1 => "the text is not TOML, or not of the form of a template set",
            StaticCode::S2 => "the operator does not suit the type",
            StaticCode::S3 => "the initial value is no value of the type",
            StaticCode::S4 => "a constant has no initial value",
            StaticCode::S5 => "a mandatory default has no initial value",
            StaticCode::D8 => "a reference names no template",
            StaticCode::C1 => "an earlier template has the name",
            StaticCode::C2 => "an earlier template has the identifier",
            StaticCode::C3 => "the template refers to itself, by way of others or not",
            StaticCode::C4 =>
                "more than 64 references lead from one template to the next, or more than 64 groups and sequences nest",
            StaticCode::C5 => "a segment can use more than 1,022 bits of its presence map",
            StaticCode::C6 => "the set has more than 65,536 nodes",
            StaticCode::Memory => "there is no memory left",
        })
    }
}

impl Error for StaticCode {}

/// The error of a template set, and the template at which it is.
#[derive(Clone, Copy, Debug, PartialEq, Eq)]
pub struct StaticFault {
    /// The error.
    pub code: StaticCode,
    /// The number of the template at which the error is, if it is at one.
    pub template: Option<u32>,
}

impl fmt::Display for StaticFault {
    fn fmt<W: fmt::Write>(&self, f: &mut fmt::Formatter<W>) -> fmt::Result {
        let code = self.code;
        match self.template {
            Some(template) => write!(f, "{} in template {template}: {code}", code.name()),
            None => write!(f, "{}: {code}", code.name()),
        }
    }
}

impl Error for StaticFault {}
