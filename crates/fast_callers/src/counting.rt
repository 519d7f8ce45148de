//! An example: the number of messages of a stream.

ghost use Rattle.std.specs.Prelude.{◌≡◌, ◌↔◌, Err, IfOk, IfErr};
ghost use Rattle.fast_template.specs.meaning.Flat.{tree_of};
ghost use Rattle.fast_decoder.specs.meaning.Decoding.{AreBadLimits};
ghost use Rattle.fast_decoder.specs.meaning.Feeding.{all_bytes};
ghost use Rattle.fast_callers.specs.meaning.Callers.{HasLongValue, HasMessages, IsRefused};

use fast_decoder::{Decoder, Event, Fault, MakeError, Sink, Stop};
use fast_template::Templates;
use fast_value::Limits;
use std::alloc::Global;
use thiserror::Error;

/// The error of these examples.
#[derive(Clone, Copy, Debug, Error)]
pub enum Refusal {
    /// No decoder was made.
    #[error("decoder: {0}")]
    Make(MakeError),
    /// The stream has a fault.
    #[error("stream: {0}")]
    Stream(Fault),
}

impl From<MakeError> for Refusal {
    ghost use Rattle.std.specs.Prelude.{◌≡◌};
    ghost use Rattle.fast_callers.specs.declared.counting.Refusal.TheVariants.{Make};

    ghost from_gives = { λ cause refusal. refusal ≡ Make cause };

    fn from(cause: MakeError) -> Refusal {
        Refusal::Make(cause)
    }
}

impl From<Fault> for Refusal {
    ghost use Rattle.std.specs.Prelude.{◌≡◌};
    ghost use Rattle.fast_callers.specs.declared.counting.Refusal.TheVariants.{Stream};

    ghost from_gives = { λ fault refusal. refusal ≡ Stream fault };

    fn from(fault: Fault) -> Refusal {
        Refusal::Stream(fault)
    }
}

/// A sink that counts messages, at their ends.
#[derive(Drop)]
pub(crate) struct Counter {
    pub(crate) messages: u64,
}

impl Sink for Counter {
    ghost use Rattle.fast_callers.specs.meaning.Callers.{Counts, CountsNoMore};

    ghost takes = { Counts };

    ghost stops = { CountsNoMore };

    fn take(&mut self, event: Event<'_>) -> Result<(), Stop> {
        if let Event::MessageEnd = event {
            self.messages = self.messages.checked_add(1).ok_or(Stop)?;
        }
        Ok(())
    }
}

/// Returns the number of whole messages of a stream, which comes in pieces.
///
/// # Errors
///
/// `Make` if no decoder was made; else `Stream` with the first fault of the stream, or with `L4` if it has 2^64 bytes or more.
pub fn messages_in(
    alloc: Global,
    templates: &Templates,
    limits: Limits,
    pieces: &[&[u8]],
) -> Result<u64, Refusal>
    ensures counted { IfOk result (HasMessages (tree_of templates.now) limits (all_bytes pieces.now)) }
    ensures refused { IfErr result (IsRefused (tree_of templates.now) limits (all_bytes pieces.now)) }
    ensures bad_limits { (result ≡ Err (Refusal.Make MakeError.BadLimits)) ↔ (AreBadLimits limits) }
    ensures long_value { (result ≡ Err (Refusal.Make MakeError.InitialTooLong)) ↔ (HasLongValue templates.now limits) }
{
    let mut decoder = Decoder::new(alloc, templates, limits)?;
    let mut counter = Counter { messages: 0 };
    decoder.feed_all(pieces, &mut counter)?;
    Ok(counter.messages)
}
