//! Runs of the decoder over a stream in memory.

ghost use Rattle.std.specs.Prelude.{◌<◌};

use crate::sinks::{Check, Count, Tallied};
use fast_decoder::{Decoder, FaultCode, MakeError, Sink};
use fast_template::{StaticCode, Templates};
use fast_value::{Code, Limits};
use std::alloc::Global;

/// The status of a run that ended between two messages.
pub const BETWEEN: u64 = 0;

/// The status of a run that ended inside a message.
pub const INSIDE: u64 = 1;

/// The status of a run for which no decoder was made.
pub const NOT_MADE: u64 = 256;

/// The status of a run in which an allocation failed.
pub const NO_MEMORY: u64 = 518;

/// The result of a run.
#[derive(Clone, Copy, PartialEq, Eq)]
pub struct Answer {
    /// 0 between two messages, 1 inside a message, 2 to 19 at a fault; 256 if no decoder was made, 518 if an allocation for it failed.
    pub status: u64,
    /// The number of bytes consumed.
    pub consumed: u64,
    /// The number of events.
    pub events: u64,
    /// The checksum of the events and their values.
    pub sum: u64,
}

impl Answer {
    /// Returns the result of a run that decodes nothing.
    pub fn ended(status: u64) -> Answer {
        Answer {
            status,
            consumed: 0,
            events: 0,
            sum: 0,
        }
    }

    /// Returns the result of a run, or that of one that decodes nothing.
    pub fn of(run: Result<Answer, u64>) -> Answer {
        match run {
            Ok(answer) => answer,
            Err(status) => Answer::ended(status),
        }
    }

    /// Writes the four numbers, each as eight bytes, the least significant first.
    pub fn write_to(&self, out: &mut [u8; 32]) {
        out[..8].copy_from_slice(&self.status.to_le_bytes());
        out[8..16].copy_from_slice(&self.consumed.to_le_bytes());
        out[16..24].copy_from_slice(&self.events.to_le_bytes());
        out[24..].copy_from_slice(&self.sum.to_le_bytes());
    }
}

/// Returns the status of a stream at fault, from 2.
pub fn status_of(code: FaultCode) -> u64 {
    match code {
        FaultCode::Stream(code) => match code {
            Code::D2 => 2,
            Code::D4 => 3,
            Code::D5 => 4,
            Code::D6 => 5,
            Code::D7 => 6,
            Code::D9 => 7,
            Code::R1 => 8,
            Code::R2 => 9,
            Code::R6 => 10,
            Code::R7 => 11,
            Code::R8 => 12,
            Code::R9 => 13,
            Code::L1 => 14,
            Code::L2 => 15,
            Code::L3 => 16,
            Code::L5 => 17,
        },
        FaultCode::L4 => 18,
        FaultCode::SinkStopped => 19,
    }
}

/// Reads a template set. The error is the status of a run without one.
pub fn read_set(alloc: Global, text: &[u8]) -> Result<Templates, u64> {
    let Ok(text) = std::str::from_utf8(text) else {
        return Err(NOT_MADE);
    };
    match Templates::read(alloc, text) {
        Ok(set) => Ok(set),
        Err(fault) if fault.code == StaticCode::Memory => Err(NO_MEMORY),
        Err(_) => Err(NOT_MADE),
    }
}

/// Returns the status of a run for which no decoder or encoder is made.
pub fn status_of_make(error: MakeError) -> u64 {
    match error {
        MakeError::Memory => NO_MEMORY,
        _ => NOT_MADE,
    }
}

/// Makes a decoder. The error is the status of a run without one.
pub fn decoder_of<'t>(
    alloc: Global,
    set: &'t Templates,
    limits: Limits,
) -> Result<Decoder<'t>, u64> {
    match Decoder::new(alloc, set, limits) {
        Ok(decoder) => Ok(decoder),
        Err(error) => Err(status_of_make(error)),
    }
}

/// Feeds a stream to a decoder, in pieces of `piece` bytes.
pub fn feed_all<S: Sink>(
    decoder: &mut Decoder<'_>,
    stream: &[u8],
    piece: usize,
    sink: &mut S,
) -> u64
    requires { 0 < piece }
{
    for bytes in stream.chunks(piece) {
        if let Err(fault) = decoder.feed(bytes, sink) {
            return status_of(fault.code);
        }
    }
    if decoder.between() { BETWEEN } else { INSIDE }
}

/// Feeds a stream to a decoder that is between two messages, and returns the result.
pub fn answer_of<S: Tallied>(
    decoder: &mut Decoder<'_>,
    stream: &[u8],
    piece: usize,
    mut sink: S,
) -> Answer
    requires { 0 < piece }
{
    let status = feed_all(decoder, stream, piece, &mut sink);
    let tally = sink.tally();
    Answer {
        status,
        consumed: decoder.consumed(),
        events: tally.events,
        sum: tally.sum,
    }
}

/// Runs a new decoder over a stream.
fn run<S: Tallied>(
    alloc: Global,
    templates: &[u8],
    limits: Limits,
    stream: &[u8],
    piece: usize,
    sink: S,
) -> Result<Answer, u64>
    requires { 0 < piece }
{
    let set = read_set(alloc, templates)?;
    let mut decoder = decoder_of(alloc, &set, limits)?;
    Ok(answer_of(&mut decoder, stream, piece, sink))
}

/// Decodes a stream under a template set, in pieces of `piece` bytes, or in one if `piece` is 0. It counts the events, or computes their
/// checksum.
pub fn decode(
    alloc: Global,
    templates: &[u8],
    limits: Limits,
    stream: &[u8],
    piece: usize,
    is_counted: bool,
) -> Answer {
    let piece = bytes_of(piece);
    let run = if is_counted {
        run(alloc, templates, limits, stream, piece, Count::new())
    } else {
        run(alloc, templates, limits, stream, piece, Check::new())
    };
    Answer::of(run)
}

/// Returns the number of bytes of a piece: for 0 the greatest number, thus all.
pub fn bytes_of(piece: usize) -> usize
    ensures { 0 < result }
{
    if piece == 0 { usize::MAX } else { piece }
}
