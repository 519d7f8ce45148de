//! An example: a stream that is read up to its first fault.

ghost use Rattle.std.specs.Prelude.{◌≡◌, ◌↔◌, Err, IfOk};
ghost use Rattle.fast_template.specs.meaning.Flat.{tree_of};
ghost use Rattle.fast_decoder.specs.meaning.Decoding.{AreBadLimits};
ghost use Rattle.fast_callers.specs.meaning.Callers.{HasLongValue, HasStopped};

use crate::counting::Counter;
use fast_decoder::{Decoder, Fault, MakeError};
use fast_template::Templates;
use fast_value::Limits;
use std::alloc::Global;

/// The result of [`up_to_fault`].
#[derive(Clone, Copy, Debug, PartialEq, Eq)]
pub struct Stopped {
    /// The number of whole messages.
    pub messages: u64,
    /// The number of bytes consumed, up to the fault if there is one.
    pub bytes: u64,
    /// The fault and its offset, if there is one.
    pub fault: Option<Fault>,
    /// True if there is no fault, and no message is incomplete.
    pub is_between: bool,
}

/// Reads a stream up to its first fault, or to its end. A feed handler would report the fault, reset the decoder, and go on where the next
/// message is known to begin, for example at the next packet.
///
/// # Errors
///
/// No decoder was made.
pub fn up_to_fault(
    alloc: Global,
    templates: &Templates,
    limits: Limits,
    stream: &[u8],
) -> Result<Stopped, MakeError>
    ensures stopped { IfOk result (HasStopped (tree_of templates.now) limits stream.now) }
    ensures bad_limits { (result ≡ Err MakeError.BadLimits) ↔ (AreBadLimits limits) }
    ensures long_value { (result ≡ Err MakeError.InitialTooLong) ↔ (HasLongValue templates.now limits) }
{
    let mut decoder = Decoder::new(alloc, templates, limits)?;
    let mut counter = Counter { messages: 0 };
    // The error is ignored here: `decoder.fault()` returns it below.
    let _ = decoder.feed(stream, &mut counter);
    Ok(Stopped {
        messages: counter.messages,
        bytes: decoder.consumed(),
        fault: decoder.fault(),
        is_between: decoder.between(),
    })
}
