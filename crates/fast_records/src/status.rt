//! The statuses of calls from other languages, as numbers and as sentences.

ghost use Rattle.std.specs.Prelude.{◌≡◌, IfSome};
ghost use Rattle.fast_records.specs.meaning.Status.{status_number, static_number, ended};

use crate::encoding::PutRefusal;
use crate::feeding::Outcome;
use crate::putting::PutFault;
use fast_decoder::{FaultCode, MakeError};
use fast_spelling::EncodeFault;
use fast_template::StaticCode;
use fast_value::Code;
use std::fmt;

/// The result of a call from another language.
#[derive(Clone, Copy, Debug, PartialEq, Eq)]
pub enum Status {
    /// The call did all that it was asked for.
    Done,
    /// Records wait, or bytes are left: call again.
    More,
    /// A buffer is too small for the next record or its string.
    NoRoom,
    /// The template file is not UTF-8.
    NotText,
    /// The set, decoder or encoder is closed, or was never made. The code that holds the pointers returns it, not this crate.
    Closed,
    /// The records are not those of one whole message of the set.
    Misplaced,
    /// The bytes of a packet end inside a message. The code that knows where packets end returns it, not this crate.
    Truncated,
    /// The stream has a fault.
    Stream(FaultCode),
    /// No decoder or encoder was made.
    Make(MakeError),
    /// The template file is refused.
    Set(StaticCode),
    /// The message is refused.
    Message(EncodeFault),
}

impl From<Outcome> for Status {
    ghost use Rattle.std.specs.Prelude.{◌≡◌};
    ghost use Rattle.fast_records.specs.meaning.Status.{ended};

    ghost from_gives = { λ outcome status. status ≡ ended outcome };

    fn from(outcome: Outcome) -> Status {
        match outcome {
            Outcome::Done => Status::Done,
            Outcome::More => Status::More,
            Outcome::NoRoom => Status::NoRoom,
            Outcome::Fault(code) => Status::Stream(code),
        }
    }
}

impl From<PutRefusal> for Status {
    ghost use Rattle.std.specs.Prelude.{◌≡◌};
    ghost use Rattle.fast_records.specs.meaning.Status.{refused};

    ghost from_gives = { λ refusal status. status ≡ refused refusal };

    fn from(refusal: PutRefusal) -> Status {
        match refusal {
            PutRefusal::Records(PutFault::Misplaced { .. }) => Status::Misplaced,
            PutRefusal::Records(PutFault::Memory) => Status::Message(EncodeFault::Memory),
            PutRefusal::Message(fault) => Status::Message(fault),
        }
    }
}

/// Returns the number, from 1, of a fault of a template file.
fn static_number(code: StaticCode) -> u32
    ensures { result ≡ static_number code }
{
    match code {
        StaticCode::S1 => 1,
        StaticCode::S2 => 2,
        StaticCode::S3 => 3,
        StaticCode::S4 => 4,
        StaticCode::S5 => 5,
        StaticCode::D8 => 6,
        StaticCode::C1 => 7,
        StaticCode::C2 => 8,
        StaticCode::C3 => 9,
        StaticCode::C4 => 10,
        StaticCode::C5 => 11,
        StaticCode::C6 => 12,
        StaticCode::Memory => 13,
    }
}

/// All statuses, for the lookup by number.
const ALL: [Status; 47] = [
    Status::Done,
    Status::More,
    Status::NoRoom,
    Status::NotText,
    Status::Closed,
    Status::Misplaced,
    Status::Truncated,
    Status::Stream(FaultCode::Stream(Code::D2)),
    Status::Stream(FaultCode::Stream(Code::D4)),
    Status::Stream(FaultCode::Stream(Code::D5)),
    Status::Stream(FaultCode::Stream(Code::D6)),
    Status::Stream(FaultCode::Stream(Code::D7)),
    Status::Stream(FaultCode::Stream(Code::D9)),
    Status::Stream(FaultCode::Stream(Code::R1)),
    Status::Stream(FaultCode::Stream(Code::R2)),
    Status::Stream(FaultCode::Stream(Code::R6)),
    Status::Stream(FaultCode::Stream(Code::R7)),
    Status::Stream(FaultCode::Stream(Code::R8)),
    Status::Stream(FaultCode::Stream(Code::R9)),
    Status::Stream(FaultCode::Stream(Code::L1)),
    Status::Stream(FaultCode::Stream(Code::L2)),
    Status::Stream(FaultCode::Stream(Code::L3)),
    Status::Stream(FaultCode::Stream(Code::L5)),
    Status::Stream(FaultCode::L4),
    Status::Stream(FaultCode::SinkStopped),
    Status::Make(MakeError::BadLimits),
    Status::Make(MakeError::InitialTooLong),
    Status::Make(MakeError::Memory),
    Status::Set(StaticCode::S1),
    Status::Set(StaticCode::S2),
    Status::Set(StaticCode::S3),
    Status::Set(StaticCode::S4),
    Status::Set(StaticCode::S5),
    Status::Set(StaticCode::D8),
    Status::Set(StaticCode::C1),
    Status::Set(StaticCode::C2),
    Status::Set(StaticCode::C3),
    Status::Set(StaticCode::C4),
    Status::Set(StaticCode::C5),
    Status::Set(StaticCode::C6),
    Status::Set(StaticCode::Memory),
    Status::Message(EncodeFault::E1),
    Status::Message(EncodeFault::E2),
    Status::Message(EncodeFault::E3),
    Status::Message(EncodeFault::E4),
    Status::Message(EncodeFault::R9),
    Status::Message(EncodeFault::Memory),
];

impl Status {
    /// Returns the number of the status: below 100 for the end of a call, from 100 for a fault of a stream, from 200 if no decoder or
    /// encoder was made, from 300 for a fault of a template file, from 400 for a fault of a message.
    pub fn number(self) -> u32
        ensures { result ≡ status_number self }
    {
        match self {
            Status::Done => 0,
            Status::More => 1,
            Status::NoRoom => 2,
            Status::NotText => 3,
            Status::Closed => 4,
            Status::Misplaced => 5,
            Status::Truncated => 6,
            Status::Stream(code) => 100 + u32::from(code.number()),
            Status::Make(error) => 200 + u32::from(error.number()),
            Status::Set(code) => 300 + static_number(code),
            Status::Message(fault) => 400 + u32::from(fault.number()),
        }
    }

    /// Returns the status that has this number, if there is one.
    pub fn of_number(number: u32) -> Option<Status>
        ensures { IfSome result (λ status. status_number status ≡ number) }
    {
        for status in ALL {
            if status.number() == number {
                return Some(status);
            }
        }
        None
    }
}

impl fmt::Display for Status {
    fn fmt<W: fmt::Write>(&self, f: &mut fmt::Formatter<W>) -> fmt::Result {
        match self {
            Status::Done => f.write_str("all was done"),
            Status::More => f.write_str("records wait, or bytes are left"),
            Status::NoRoom => f.write_str("a buffer has too little room"),
            Status::NotText => f.write_str("the template text is not UTF-8"),
            Status::Misplaced => f.write_str("the records are not those of one whole message"),
            Status::Truncated => f.write_str("the packet ends inside a message"),
            Status::Closed => f.write_str("it is closed, or was never made"),
            Status::Stream(FaultCode::SinkStopped) => f.write_str(
                "there is no memory left for records that wait",
            ),
            Status::Stream(code) => write!(f, "{}: {code}", code.name()),
            Status::Make(error) => write!(f, "{error}"),
            Status::Set(StaticCode::Memory) => f.write_str("there is no memory left"),
            Status::Set(code) => write!(f, "{}: {code}", code.name()),
            Status::Message(EncodeFault::Memory) => f.write_str("there is no memory left"),
            Status::Message(fault) => write!(f, "{}: {fault}", fault.name()),
        }
    }
}
