//! The error codes of a stream.

use std::error::Error;
use std::fmt;

/// The error of a stream. Codes that begin with D or R are those that the FAST Specification Version 1.1 lists as dynamic and reportable
/// errors; codes that begin with L are limits of this decoder.
#[derive(Clone, Copy, Debug, PartialEq, Eq)]
pub enum Code {
    /// An integer lies outside its type, or has ten bytes and no stop bit.
    D2,
    /// The previous value is of another type than the field.
    D4,
    /// A mandatory field is not sent, its previous value is undefined, and there is no initial value.
    D5,
    /// A mandatory field is not sent, or a delta is, and the previous value is empty.
    D6,
    /// A subtraction length is greater than the base, or is no int32.
    D7,
    /// No template has the identifier.
    D9,
    /// The exponent or the mantissa of a decimal is out of range.
    R1,
    /// A Unicode string is not UTF-8.
    R2,
    /// An integer has more bytes than it needs (strict mode).
    R6,
    /// A presence map has more bytes than it needs (strict mode).
    R7,
    /// A presence map has more bits than its segment can use (strict mode).
    R8,
    /// An ASCII string begins with a zero character.
    R9,
    /// A string or byte vector is longer than `max_text`.
    L1,
    /// A sequence has more elements than `max_elements`.
    L2,
    /// A presence map has 146 bytes and no stop bit.
    L3,
    /// The sequences of one message have more elements than `max_total`.
    L5,
}

impl Code {
    ghost use Rattle.std.specs.Prelude.{◌≡◌};
    ghost use Rattle.fast_value.specs.meaning.Codes.{stream_code_number, stream_code_text};

    /// Returns the number of the code, for callers that cannot be passed an enum. A number is never reused for another code.
    pub fn number(self) -> u8
        ensures { result ≡ stream_code_number self }
    {
        match self {
            Code::D2 => 1,
            Code::D4 => 2,
            Code::D5 => 3,
            Code::D6 => 4,
            Code::D7 => 5,
            Code::D9 => 6,
            Code::R1 => 7,
            Code::R2 => 8,
            Code::R6 => 9,
            Code::R7 => 10,
            Code::R8 => 11,
            Code::R9 => 12,
            Code::L1 => 13,
            Code::L2 => 14,
            Code::L3 => 15,
            Code::L5 => 19,
        }
    }

    /// Returns the name of the code, such as `D2`; `Display` writes a description.
    pub fn name(self) -> &'static str
        ensures { result.now ≡ stream_code_text self }
    {
        match self {
            Code::D2 => "D2",
            Code::D4 => "D4",
            Code::D5 => "D5",
            Code::D6 => "D6",
            Code::D7 => "D7",
            Code::D9 => "D9",
            Code::R1 => "R1",
            Code::R2 => "R2",
            Code::R6 => "R6",
            Code::R7 => "R7",
            Code::R8 => "R8",
            Code::R9 => "R9",
            Code::L1 => "L1",
            Code::L2 => "L2",
            Code::L3 => "L3",
            Code::L5 => "L5",
        }
    }
}

impl fmt::Display for Code {
    fn fmt<W: fmt::Write>(&self, f: &mut fmt::Formatter<W>) -> fmt::Result {
        f.write_str(match self {
            Code::D2 => "an integer lies outside its type, or has ten bytes and no stop bit",
            Code::D4 => "the previous value is of another type than the field",
            Code::D5 =>
                "a mandatory field is not sent, its previous value is undefined, and there is no initial value",
            Code::D6 =>
                "a mandatory field is not sent, or a delta is, and the previous value is empty",
            Code::D7 => "a subtraction length is greater than the base, or is no int32",
            Code::D9 => "no template has the identifier",
            Code::R1 => "the exponent or the mantissa of a decimal is out of range",
            Code::R2 => "a Unicode string is not UTF-8",
            Code::R6 => "an integer has more bytes than it needs",
            Code::R7 => "a presence map has more bytes than it needs",
            Code::R8 => "a presence map has more bits than its segment can use",
            Code::R9 => "an ASCII string begins with a zero character",
            Code::L1 => "a text is longer than the limit on texts",
            Code::L2 => "a sequence has more elements than the limit on sequences",
            Code::L3 => "a presence map has 146 bytes and no stop bit",
            Code::L5 => "the sequences of a message have more elements than the limit on messages",
        })
    }
}

impl Error for Code {}
