//! Runs in memory of the conversions between streams and lines, for tests with a heap that refuses allocations and with damaged lines.
//! Their results are numbers; their contracts promise only that they return.
#![tactic(auto)]

use fast_command::{RunFault, ShowEnd, run_show};
use fast_convert::run_convert;
use fast_reading::{TextFault, read_lines};
use fast_template::{StaticCode, Templates};
use fast_text::{FromBytes, ToBytes};
use fast_value::Limits;
use std::alloc::Global;

/// The greatest number of reads of a stream.
const MAX_READS: u64 = 1 << 40;

/// The result of a run.
#[derive(Clone, Copy)]
pub struct Answer {
    /// 0 at a good end; 1 inside a message, 2 at a fault of the stream; 256 if no set was read; 300 if reading failed, 301 if writing did,
    /// 302 at an invalid digit, 304 if the limits are refused; from 401 an invalid line, by the number of its fault; from 513 a message
    /// that is refused (E1, E2, E3, E4, R9); 518 if an allocation failed.
    pub status: u64,
    /// The offset, the line or the message of a fault.
    pub place: u64,
    /// The number of bytes written, or of messages read.
    pub len: u64,
}

impl Answer {
    /// The result if no template set was read.
    pub const NOT_MADE: Answer = Answer {
        status: 256,
        place: 0,
        len: 0,
    };

    /// Returns the result of a run that ended with this status and offset, and had written `len` bytes.
    fn new((status, place): (u64, u64), len: usize) -> Answer {
        Answer {
            status,
            place,
            len: len as u64,
        }
    }

    /// Writes the three numbers, each as eight bytes, the least significant first.
    pub fn write_to(&self, out: &mut [u8; 24]) {
        out[..8].copy_from_slice(&self.status.to_le_bytes());
        out[8..16].copy_from_slice(&self.place.to_le_bytes());
        out[16..].copy_from_slice(&self.len.to_le_bytes());
    }
}

/// Returns the status and the line of lines that are refused.
fn status_of_text(fault: TextFault) -> (u64, u64) {
    match fault {
        TextFault::BadLine { line, kind } => (400 + kind.number() as u64, line),
        TextFault::Memory => (518, 0),
    }
}

/// Returns the status and the offset of a run that failed.
fn status_of_run(fault: RunFault) -> (u64, u64) {
    match fault {
        RunFault::Read => (300, 0),
        RunFault::Write => (301, 0),
        RunFault::BadHex(place) => (302, place),
        RunFault::Templates(_) => (303, 0),
        RunFault::Make(error) => (304, error.number() as u64),
        RunFault::Text { line, kind } => (400 + kind.number() as u64, line),
        RunFault::Encode { message, fault } => (512 + fault.number() as u64, message),
        RunFault::Memory => (518, 0),
    }
}

/// Returns the status and the offset of a stream that was shown.
fn status_of_show(end: ShowEnd) -> (u64, u64) {
    match end {
        ShowEnd::Good => (0, 0),
        ShowEnd::Truncated(place) => (1, place),
        ShowEnd::Faulted(fault) => (2, fault.place),
    }
}

/// Reads a template set. The error is the result of a run without one.
fn read_set(alloc: Global, text: &[u8]) -> Result<Templates, Answer> {
    let Ok(text) = std::str::from_utf8(text) else {
        return Err(Answer::NOT_MADE);
    };
    match Templates::read(alloc, text) {
        Ok(set) => Ok(set),
        Err(fault) if fault.code == StaticCode::Memory => Err(Answer::new((518, 0), 0)),
        Err(_) => Err(Answer::NOT_MADE),
    }
}

/// Shows a stream, and writes the lines to `out`, as many bytes as have room.
pub fn show(
    alloc: Global,
    templates: &[u8],
    limits: Limits,
    stream: &[u8],
    out: &mut [u8],
) -> Answer {
    let set = match read_set(alloc, templates) {
        Ok(set) => set,
        Err(answer) => return answer,
    };
    let mut source = FromBytes::new(stream);
    let mut target = ToBytes::new(out);
    let end = run_show(
        alloc,
        &set,
        limits,
        false,
        MAX_READS,
        &mut source,
        &mut target,
    );
    let status = match end {
        Ok(end) => status_of_show(end),
        Err(fault) => status_of_run(fault),
    };
    Answer::new(status, target.bytes().len())
}

/// Converts lines to their stream, and writes it to `out`, as many bytes as have room.
pub fn convert(
    alloc: Global,
    templates: &[u8],
    limits: Limits,
    lines: &[u8],
    out: &mut [u8],
) -> Answer {
    let set = match read_set(alloc, templates) {
        Ok(set) => set,
        Err(answer) => return answer,
    };
    let mut source = FromBytes::new(lines);
    let mut target = ToBytes::new(out);
    let status = match run_convert(alloc, &set, limits, false, &mut source, &mut target) {
        Ok(()) => (0, 0),
        Err(fault) => status_of_run(fault),
    };
    Answer::new(status, target.bytes().len())
}

/// Reads lines, and counts their messages.
pub fn read(alloc: Global, templates: &[u8], lines: &[u8]) -> Answer {
    let set = match read_set(alloc, templates) {
        Ok(set) => set,
        Err(answer) => return answer,
    };
    match read_lines(alloc, &set, lines) {
        Ok(messages) => Answer::new((0, 0), messages.len()),
        Err(fault) => Answer::new(status_of_text(fault), 0),
    }
}
