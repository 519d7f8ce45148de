//! The reasons why a decoder stops, and why none is made.

use fast_value::Code;
use std::error::Error;
use std::fmt;

/// The reason why a decoder stopped.
#[derive(Clone, Copy, Debug, PartialEq, Eq)]
pub enum FaultCode {
    /// The stream is at fault.
    Stream(Code),
    /// The bytes of a stream exceed the counter: the bytes consumed and the piece together pass 2^64 - 1. Nothing of the piece is read.
    L4,
    /// The sink stopped.
    SinkStopped,
}

impl FaultCode {
    ghost use Rattle.std.specs.Prelude.{◌≡◌};
    ghost use Rattle.fast_stream.specs.meaning.FaultCodes.{code_number, code_text};

    /// Returns the number of the code, for callers that cannot be passed an enum. A number is never reused for another code.
    pub fn number(self) -> u8
        ensures { result ≡ code_number self }
    {
        match self {
            FaultCode::Stream(code) => code.number(),
            FaultCode::L4 => 16,
            FaultCode::SinkStopped => 17,
        }
    }

    /// Returns the name of the code, such as `D2`; `Display` writes a description.
    pub fn name(self) -> &'static str
        ensures { result.now ≡ code_text self }
    {
        match self {
            FaultCode::Stream(code) => code.name(),
            FaultCode::L4 => "L4",
            FaultCode::SinkStopped => "SinkStopped",
        }
    }
}

impl fmt::Display for FaultCode {
    fn fmt<W: fmt::Write>(&self, f: &mut fmt::Formatter<W>) -> fmt::Result {
        match self {
            FaultCode::Stream(code) => write!(f, "{code}"),
            FaultCode::L4 => f.write_str("the bytes of the stream are more than can be counted"),
            FaultCode::SinkStopped => f.write_str("the sink stopped"),
        }
    }
}

impl Error for FaultCode {}

/// A fault of a stream: why and where a decoder stopped.
#[derive(Clone, Copy, Debug, PartialEq, Eq)]
pub struct Fault {
    /// The reason.
    pub code: FaultCode,
    /// The byte offset: the number of bytes of the stream that were consumed when the fault was decided.
    pub place: u64,
}

impl fmt::Display for Fault {
    fn fmt<W: fmt::Write>(&self, f: &mut fmt::Formatter<W>) -> fmt::Result {
        let Fault { code, place } = *self;
        write!(f, "{} at {place}: {code}", code.name())
    }
}

impl Error for Fault {}

/// The reason why no decoder is made.
#[derive(Clone, Copy, Debug, PartialEq, Eq)]
pub enum MakeError {
    /// `max_text` is not one of 16 to 1,048,576.
    BadLimits,
    /// A field has an initial value, a string or byte vector, that is longer than `max_text`.
    InitialTooLong,
    /// An allocation failed.
    Memory,
}

impl MakeError {
    ghost use Rattle.std.specs.Prelude.{◌≡◌};
    ghost use Rattle.fast_stream.specs.meaning.FaultCodes.{cause_number};

    /// Returns the number of the cause, for callers that cannot be passed an enum. A number is never reused for another cause.
    pub fn number(self) -> u8
        ensures { result ≡ cause_number self }
    {
        match self {
            MakeError::BadLimits => 1,
            MakeError::InitialTooLong => 2,
            MakeError::Memory => 4,
        }
    }
}

impl fmt::Display for MakeError {
    fn fmt<W: fmt::Write>(&self, f: &mut fmt::Formatter<W>) -> fmt::Result {
        f.write_str(match self {
            MakeError::BadLimits => "the limit on texts is not one of 16 to 1,048,576",
            MakeError::InitialTooLong =>
                "an initial value is a text longer than the limit on texts",
            MakeError::Memory => "there is no memory left",
        })
    }
}

impl Error for MakeError {}
