//! The end of a run.

ghost use Rattle.std.specs.Prelude.{◌≡◌};
ghost use Rattle.fast_command.specs.meaning.Report.{status_of};

use fast_decoder::{Fault, MakeError};
use fast_reading::LineFault;
use fast_spelling::EncodeFault;
use fast_template::{StaticCode, StaticFault};
use fast_text::{LineWriter, Room, Target};
use std::fmt;
use std::fmt::{Display, Formatter, Write};
use thiserror::Error;

/// The end of a run that has shown the stream.
#[derive(Clone, Copy, Debug, PartialEq, Eq)]
pub enum ShowEnd {
    /// The stream ends between two messages.
    Good,
    /// The stream has a fault.
    Faulted(Fault),
    /// The stream ends inside a message, after this many bytes.
    Truncated(u64),
}

/// The fault of a template file, and the number of its template, if it has one.
#[derive(Drop)]
struct Wrong<'a>(&'a StaticFault);

impl Display for Wrong<'_> {
    fn fmt<W: Write>(&self, f: &mut Formatter<W>) -> fmt::Result {
        let fault = self.0;
        match fault.template {
            Some(template) => write!(f, "{} in template {template}", fault.code.name()),
            None => write!(f, "{}", fault.code.name()),
        }
    }
}

/// The error of a run.
#[derive(Clone, Copy, Debug, PartialEq, Eq, Error)]
pub enum RunFault {
    /// The reader failed, or returned bytes more often than the run may read.
    #[error("reading failed")]
    Read,
    /// The writer failed.
    #[error("writing failed")]
    Write,
    /// The hexadecimal input has a character that is neither a digit nor a blank, or ends after the first digit of a pair. The number is
    /// the offset of the character, or the length of the input.
    #[error("hex at {0}")]
    BadHex(u64),
    /// The template file is refused, for a reason other than memory.
    #[error("templates {wrong}", wrong = Wrong(.0))]
    Templates(StaticFault),
    /// No decoder or encoder can be made with these limits, for a reason other than memory.
    #[error("limits {number}", number = .0.number())]
    Make(MakeError),
    /// The input is not the lines of messages.
    #[error("line {line} kind {number}", number = .kind.number())]
    Text {
        /// The number of the first invalid line, from 1.
        line: u64,
        /// The fault of that line.
        kind: LineFault,
    },
    /// A message is not encoded, for a reason other than memory.
    #[error("message {message} {name}", name = .fault.name())]
    Encode {
        /// The number of the message, from 0.
        message: u64,
        /// The fault of that message.
        fault: EncodeFault,
    },
    /// An allocation failed.
    #[error("no memory")]
    Memory,
}

impl From<StaticFault> for RunFault {
    ghost use Rattle.std.specs.Prelude.{◌≡◌};
    ghost use Rattle.fast_command.specs.meaning.Report.{refused};

    ghost from_gives = { λ fault answer. answer ≡ refused fault };

    fn from(fault: StaticFault) -> RunFault {
        match fault.code {
            StaticCode::Memory => RunFault::Memory,
            _ => RunFault::Templates(fault),
        }
    }
}

/// Writes the error or the end of a run, if there is anything to say. Returns the exit status of the program, even if that write fails.
pub fn report<T: Target>(ending: &Result<ShowEnd, RunFault>, target: &mut T) -> u8
    ensures { result ≡ status_of ending.now }
{
    match ending {
        Ok(ShowEnd::Good) => 0,
        Ok(ShowEnd::Faulted(_) | ShowEnd::Truncated(_)) => 1,
        Err(fault) => {
            let mut room = Room::new();
            let mut line = LineWriter::new(target, &mut room);
            let _ = writeln!(line, "fastcat: {fault}");
            let _ = line.finish();
            match fault {
                RunFault::Text { .. } | RunFault::Encode { .. } => 1,
                RunFault::Templates(_) | RunFault::Make(_) => 2,
                RunFault::Read | RunFault::Write | RunFault::BadHex(_) | RunFault::Memory => 3,
            }
        }
    }
}
