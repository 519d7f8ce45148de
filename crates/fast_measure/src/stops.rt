//! Runs of the decoder with a sink that stops, and after a reset.

use crate::decoding::{Answer, answer_of, bytes_of, decoder_of, read_set};
use crate::sinks::{Check, Tallied, Tally};
use fast_decoder::{Event, Sink, Stop};
use fast_value::Limits;
use std::alloc::Global;

/// A sink that receives a given number of events, with their checksum, and stops at the next.
#[derive(Drop)]
struct Stopping {
    check: Check,
    left: u64,
}

impl Sink for Stopping {
    ghost use Rattle.std.specs.Prelude.{◌≡◌, ◌+◌};

    ghost takes = { λ old _ new. old.left ≡ new.left + 1 };

    ghost stops = { λ old _ _. old.left ≡ 0 };

    fn take(&mut self, event: Event<'_>) -> Result<(), Stop> {
        if self.left == 0 {
            return Err(Stop);
        }
        self.left -= 1;
        self.check.take(event)
    }
}

impl Tallied for Stopping {
    fn tally(&self) -> Tally {
        self.check.tally()
    }
}

/// The results of a run whose sink stopped, and of a run over the same stream after a reset, whose sink does not.
#[derive(Clone, Copy)]
pub struct Runs {
    /// The run with the sink that stops.
    pub stopped: Answer,
    /// The run after the reset.
    pub again: Answer,
}

impl Runs {
    /// Returns the results if nothing is decoded.
    fn ended(status: u64) -> Runs {
        Runs {
            stopped: Answer::ended(status),
            again: Answer::ended(status),
        }
    }
}

/// Does the work of [`stop_and_decode`]. The error is the status if nothing is decoded.
fn run_twice(
    alloc: Global,
    templates: &[u8],
    limits: Limits,
    stream: &[u8],
    piece: usize,
    most: u64,
) -> Result<Runs, u64> {
    let set = read_set(alloc, templates)?;
    let mut decoder = decoder_of(alloc, &set, limits)?;
    let piece = bytes_of(piece);
    let stopping = Stopping {
        check: Check::new(),
        left: most,
    };
    let stopped = answer_of(&mut decoder, stream, piece, stopping);
    decoder.reset();
    Ok(Runs {
        stopped,
        again: answer_of(&mut decoder, stream, piece, Check::new()),
    })
}

/// Decodes a stream twice, in pieces of `piece` bytes, or in one if `piece` is 0: first with a sink that receives `most` events and stops
/// at the next, and then, after a reset, with one that does not stop. Both compute checksums.
pub fn stop_and_decode(
    alloc: Global,
    templates: &[u8],
    limits: Limits,
    stream: &[u8],
    piece: usize,
    most: u64,
) -> Runs {
    match run_twice(alloc, templates, limits, stream, piece, most) {
        Ok(runs) => runs,
        Err(status) => Runs::ended(status),
    }
}
