//! Streams that are truncated after each of their bytes, for tests.

ghost use Rattle.std.specs.Prelude.{◌<◌};

use crate::decoding::{Answer, answer_of, decoder_of, read_set};
use crate::sinks::Check;
use fast_decoder::Decoder;
use fast_value::Limits;
use std::alloc::Global;

/// The results for a stream and its prefixes.
#[derive(Clone, Copy)]
pub struct Cuts {
    /// The result for the whole stream.
    pub whole: Answer,
    /// The number of prefixes that were decoded.
    pub fronts: u64,
    /// The number of prefixes with a wrong result.
    pub wrong: u64,
}

impl Cuts {
    /// Returns the result if nothing is decoded.
    fn ended(status: u64) -> Cuts {
        Cuts {
            whole: Answer::ended(status),
            fronts: 0,
            wrong: 0,
        }
    }
}

/// Decodes a stream after a reset, in pieces of `piece` bytes.
fn decode_again(decoder: &mut Decoder<'_>, stream: &[u8], piece: usize) -> Answer
    requires { 0 < piece }
{
    decoder.reset();
    answer_of(decoder, stream, piece, Check::new())
}

/// Returns whether a prefix has the same result whole and in pieces of one, two and three bytes; and, if it ends before the last byte that
/// the whole stream consumed, no fault and no more events, else the result of the whole stream.
fn is_right(decoder: &mut Decoder<'_>, front: &[u8], due: Answer) -> bool {
    let is = decode_again(decoder, front, usize::MAX);
    let is_alike = decode_again(decoder, front, 1) == is
        && decode_again(decoder, front, 2) == is
        && decode_again(decoder, front, 3) == is;
    let length = front.len() as u64;
    is_alike
        && if length < due.consumed {
            is.status <= 1 && is.consumed == length && is.events <= due.events
        } else {
            is == due
        }
}

/// Does the work of [`cut_everywhere`]. The error is the status if nothing is decoded.
fn cut(alloc: Global, templates: &[u8], limits: Limits, stream: &[u8]) -> Result<Cuts, u64> {
    let set = read_set(alloc, templates)?;
    let mut decoder = decoder_of(alloc, &set, limits)?;
    let whole = decode_again(&mut decoder, stream, usize::MAX);
    let mut wrong: u64 = 0;
    for length in 0..stream.len() {
        let (front, _) = stream.split_at(length);
        if !is_right(&mut decoder, front, whole) {
            wrong = wrong.saturating_add(1);
        }
    }
    if !is_right(&mut decoder, stream, whole) {
        wrong = wrong.saturating_add(1);
    }
    Ok(Cuts {
        whole,
        fronts: stream.len() as u64,
        wrong,
    })
}

/// Decodes a stream, and each of its prefixes whole and in pieces, all with checksums.
pub fn cut_everywhere(alloc: Global, templates: &[u8], limits: Limits, stream: &[u8]) -> Cuts {
    match cut(alloc, templates, limits, stream) {
        Ok(cuts) => cuts,
        Err(status) => Cuts::ended(status),
    }
}
