//! Streams that are decoded whole, in pieces, again after re-encoding, and on the general path, for tests.

ghost use Rattle.std.specs.Prelude.{◌<◌};

use crate::decoding::{Answer, BETWEEN, answer_of, bytes_of, decoder_of, feed_all, read_set};
use crate::encoding::{encode_all, encoder_of, status_of};
use crate::sinks::Check;
use crate::trees::Trees;
use fast_template::Templates;
use fast_value::{Limits, Message};
use std::alloc::Global;

/// Decodes a stream leniently to messages, encodes them, and decodes the result in strict mode. The error is the status of the first step
/// that failed.
fn run_again(alloc: Global, set: &Templates, limits: Limits, stream: &[u8]) -> Result<Answer, u64> {
    let lenient = Limits {
        strict: false,
        ..limits
    };
    let strict = Limits {
        strict: true,
        ..limits
    };
    let mut trees = Trees::new(alloc, set);
    hold_all(alloc, set, lenient, stream, &mut trees)?;
    let mut list = Vec::new(alloc);
    encode_held(alloc, set, limits, &trees.messages, &mut list)?;
    run_once(alloc, set, strict, &list, usize::MAX)
}

/// Decodes a stream to messages. The error is a status.
fn hold_all(
    alloc: Global,
    set: &Templates,
    limits: Limits,
    stream: &[u8],
    trees: &mut Trees<'_>,
) -> Result<(), u64> {
    let mut decoder = decoder_of(alloc, set, limits)?;
    match feed_all(&mut decoder, stream, usize::MAX, trees) {
        BETWEEN => Ok(()),
        status => Err(status),
    }
}

/// Encodes messages into a vector. The error is a status.
fn encode_held(
    alloc: Global,
    set: &Templates,
    limits: Limits,
    messages: &[Message],
    list: &mut Vec<u8>,
) -> Result<(), u64> {
    let mut encoder = encoder_of(alloc, set, limits)?;
    match encode_all(&mut encoder, messages, list) {
        Ok(()) => Ok(()),
        Err(fault) => Err(status_of(fault)),
    }
}

/// Decodes a stream whole, or in pieces of `piece` bytes.
fn run_once(
    alloc: Global,
    set: &Templates,
    limits: Limits,
    stream: &[u8],
    piece: usize,
) -> Result<Answer, u64>
    requires { 0 < piece }
{
    let mut decoder = decoder_of(alloc, set, limits)?;
    Ok(answer_of(&mut decoder, stream, piece, Check::new()))
}

/// The results of decoding a stream in all ways.
#[derive(Clone, Copy)]
pub struct AllWays {
    /// Whole.
    pub whole: Answer,
    /// In pieces.
    pub pieces: Answer,
    /// After re-encoding.
    pub again: Answer,
    /// Whole, without specialized opcodes.
    pub general: Answer,
    /// In pieces, without specialized opcodes.
    pub general_pieces: Answer,
}

impl AllWays {
    /// Returns equal results, for a run without a template set.
    fn ended(status: u64) -> AllWays {
        let answer = Answer::ended(status);
        AllWays {
            whole: answer,
            pieces: answer,
            again: answer,
            general: answer,
            general_pieces: answer,
        }
    }
}

/// Decodes a stream in all ways, each with a checksum: whole; in pieces of `piece` bytes, or in one if `piece` is 0; leniently to messages
/// (whatever `limits.strict`), which are encoded, and the result is decoded in strict mode; and whole and in pieces under the same set
/// without specialized opcodes, so that each field is read on the general path.
///
/// If the stream does not end between two messages, or a message is refused, the third result has only that status, as `encode` returns it.
pub fn all_ways(
    alloc: Global,
    templates: &[u8],
    limits: Limits,
    stream: &[u8],
    piece: usize,
) -> AllWays {
    let set = match read_set(alloc, templates) {
        Ok(set) => set,
        Err(status) => return AllWays::ended(status),
    };
    let piece = bytes_of(piece);
    let whole = Answer::of(run_once(alloc, &set, limits, stream, usize::MAX));
    let pieces = Answer::of(run_once(alloc, &set, limits, stream, piece));
    let again = Answer::of(run_again(alloc, &set, limits, stream));
    let set = set.on_general_path();
    AllWays {
        whole,
        pieces,
        again,
        general: Answer::of(run_once(alloc, &set, limits, stream, usize::MAX)),
        general_pieces: Answer::of(run_once(alloc, &set, limits, stream, piece)),
    }
}
