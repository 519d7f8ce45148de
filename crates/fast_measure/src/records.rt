//! Runs of the decoder over a stream in memory that write records into buffers.

ghost use Rattle.std.specs.Prelude.{◌<◌};

use crate::decoding::{
    Answer, BETWEEN, INSIDE, NO_MEMORY, bytes_of, decoder_of, read_set, status_of,
};
use fast_decoder::Decoder;
use fast_records::{Outcome, Record, Waiting, feed_records};
use fast_value::Limits;
use std::alloc::{AllocError, Global};

/// The size of the buffer of records.
const RECORDS: usize = 4096;

/// The size of the buffer of strings, in bytes.
const TEXTS: usize = 65_536;

/// The status of a run whose next record has no room.
const NO_ROOM: u64 = 257;

/// An empty record.
const BLANK: Record = Record {
    kind: 0,
    node: 0,
    value: 0,
    length: 0,
    exponent: 0,
};

/// The buffers of a caller, and the events that wait for room in them.
#[derive(Drop)]
struct Buffers {
    records: Vec<Record>,
    texts: Vec<u8>,
    waiting: Waiting,
    /// The number of records written.
    written: u64,
}

/// Feeds one piece, in as many calls as its records fill the buffers. Returns the status of a run that ends there.
fn feed_piece(decoder: &mut Decoder<'_>, buffers: &mut Buffers, piece: &[u8]) -> Option<u64> {
    let mut rest = piece;
    for _ in 0..u64::MAX {
        let fed = feed_records(
            decoder,
            &mut buffers.waiting,
            rest,
            &mut buffers.records,
            &mut buffers.texts,
        );
        buffers.written = buffers.written.wrapping_add(fed.records as u64);
        rest = &rest[fed.taken..];
        match fed.outcome {
            Outcome::More => {}
            Outcome::Done => return None,
            Outcome::NoRoom => return Some(NO_ROOM),
            Outcome::Fault(code) => return Some(status_of(code)),
        }
    }
    Some(NO_ROOM)
}

/// Feeds a stream in pieces of `piece` bytes, and returns the status at its end.
fn feed_pieces(decoder: &mut Decoder<'_>, buffers: &mut Buffers, stream: &[u8], piece: usize) -> u64
    requires { 0 < piece }
{
    for bytes in stream.chunks(piece) {
        if let Some(status) = feed_piece(decoder, buffers, bytes) {
            return status;
        }
    }
    if decoder.between() { BETWEEN } else { INSIDE }
}

/// Decodes a stream under a template set to records, in pieces of `piece` bytes, or in one if `piece` is 0. The checksum of the result is
/// 0.
pub fn decode_records(
    alloc: Global,
    templates: &[u8],
    limits: Limits,
    stream: &[u8],
    piece: usize,
) -> Answer {
    Answer::of(run(alloc, templates, limits, stream, bytes_of(piece)))
}

/// Runs a new decoder over a stream.
fn run(
    alloc: Global,
    templates: &[u8],
    limits: Limits,
    stream: &[u8],
    piece: usize,
) -> Result<Answer, u64>
    requires { 0 < piece }
{
    let set = read_set(alloc, templates)?;
    let mut decoder = decoder_of(alloc, &set, limits)?;
    let mut buffers = buffers_of(alloc).map_err(|_| NO_MEMORY)?;
    let status = feed_pieces(&mut decoder, &mut buffers, stream, piece);
    Ok(Answer {
        status,
        consumed: decoder.consumed(),
        events: buffers.written,
        sum: 0,
    })
}

/// Makes empty buffers.
fn buffers_of(alloc: Global) -> Result<Buffers, AllocError> {
    Ok(Buffers {
        records: vec![in alloc; BLANK; RECORDS]?,
        texts: vec![in alloc; 0; TEXTS]?,
        waiting: Waiting::new(alloc),
        written: 0,
    })
}
