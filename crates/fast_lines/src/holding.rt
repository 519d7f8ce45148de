//! Proofs that the elements of byte vectors are below 256, in all events and values.

ghost use Rattle.std.specs.Prelude.{◌<◌, All};
ghost use Rattle.fast_value.specs.meaning.Values.{scalar_data};
ghost use Rattle.fast_stream.specs.meaning.Handed.{event_data};
ghost use Rattle.fast_lines.specs.meaning.Values.{HasBytes, HoldsBytes};

use fast_stream::Event;
use fast_value::Scalar;

/// Proves that the elements of a slice of bytes are below 256.
#[inline(always)]
fn elements_are_bytes(bytes: &[u8])
    ensures { All (λ c. c < 256) bytes.now }
{
    let _ = bytes.len();
}

/// Proves that the elements of a value's byte vector are below 256.
#[inline(always)]
fn value_has_bytes(value: Scalar<'_>)
    ensures { HasBytes (scalar_data value.entry) }
{
    match value {
        Scalar::Bytes(bytes) => elements_are_bytes(bytes),
        Scalar::U(_) | Scalar::I(_) | Scalar::Dec { .. } | Scalar::Ascii(_) | Scalar::Unicode(_) =>
            {}
    }
}

/// Proves that the elements of an event's byte vector are below 256. It has no effect and no cost: a sink calls it if its own contract says
/// so of the events that it receives.
#[inline(always)]
pub fn event_holds_bytes(event: Event<'_>)
    ensures { HoldsBytes (event_data event.entry) }
{
    match event {
        Event::Field { value, .. } => value_has_bytes(value),
        Event::MessageStart { .. }
        | Event::GroupStart { .. }
        | Event::GroupEnd
        | Event::SequenceStart { .. }
        | Event::ElementStart
        | Event::ElementEnd
        | Event::SequenceEnd
        | Event::MessageEnd => {}
    }
}
