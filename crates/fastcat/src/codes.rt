//! The list of all codes, each with its sentence.

use fast_explain::Note;
use fast_notation::StaticCode;
use fast_reading::LineFault;
use fast_spelling::EncodeFault;
use fast_stream::FaultCode;
use fast_value::Code;
use std::fmt::Write;

/// The codes of template files, in the order in which they are checked.
static OF_TEMPLATES: [StaticCode; 12] = [
    StaticCode::S1,
    StaticCode::C1,
    StaticCode::C2,
    StaticCode::S2,
    StaticCode::S3,
    StaticCode::S4,
    StaticCode::S5,
    StaticCode::D8,
    StaticCode::C3,
    StaticCode::C4,
    StaticCode::C6,
    StaticCode::C5,
];

/// The codes of streams.
static OF_STREAMS: [FaultCode; 17] = [
    FaultCode::Stream(Code::D2),
    FaultCode::Stream(Code::D4),
    FaultCode::Stream(Code::D5),
    FaultCode::Stream(Code::D6),
    FaultCode::Stream(Code::D7),
    FaultCode::Stream(Code::D9),
    FaultCode::Stream(Code::R1),
    FaultCode::Stream(Code::R2),
    FaultCode::Stream(Code::R6),
    FaultCode::Stream(Code::R7),
    FaultCode::Stream(Code::R8),
    FaultCode::Stream(Code::R9),
    FaultCode::Stream(Code::L1),
    FaultCode::Stream(Code::L2),
    FaultCode::Stream(Code::L3),
    FaultCode::L4,
    FaultCode::Stream(Code::L5),
];

/// The faults of lines.
static OF_LINES: [LineFault; 7] = [
    LineFault::Form,
    LineFault::UnknownTemplate,
    LineFault::OutOfPlace,
    LineFault::WrongValue,
    LineFault::PassedOver,
    LineFault::WrongCount,
    LineFault::Missing,
];

/// The codes of messages that are not encoded.
static OF_MESSAGES: [EncodeFault; 5] = [
    EncodeFault::E1,
    EncodeFault::E2,
    EncodeFault::E3,
    EncodeFault::E4,
    EncodeFault::R9,
];

/// Returns the list of all codes, a line for each, with its sentence.
pub(crate) fn all_codes() -> Note {
    let mut note = Note::new();
    let _ = writeln!(note, "Codes of template texts:");
    for code in &OF_TEMPLATES {
        let _ = writeln!(note, "  {}  {code}", code.name());
    }
    let _ = writeln!(note, "\nCodes of streams:");
    for code in &OF_STREAMS {
        let _ = writeln!(note, "  {}  {code}", code.name());
    }
    let _ = writeln!(note, "\nKinds of lines at fault:");
    for kind in &OF_LINES {
        let _ = writeln!(note, "  {}   {kind}", kind.number());
    }
    let _ = writeln!(note, "\nCodes of messages that are not encoded:");
    for code in &OF_MESSAGES {
        let _ = writeln!(note, "  {}  {code}", code.name());
    }
    note
}
