//! Round trips: messages that are encoded and at once decoded again.

ghost use Rattle.std.specs.Prelude.{◌≡◌, ℕ, List, map};
ghost use Rattle.fast_value.specs.meaning.Views.{message_data};
ghost use Rattle.fast_stream.specs.meaning.Events.{EventData};
ghost use Rattle.fast_decoder.specs.meaning.Decoding.{tree as decoded_tree};
ghost use Rattle.fast_encoder.specs.meaning.ReadBack.{AreLevel};
ghost use Rattle.fast_encoder.specs.meaning.RoundTrips.{ComesBack, AllComeBack};

use crate::encoder::Encoder;
use fast_decoder::{Decoder, Fault, Sink};
use fast_spelling::EncodeFault;
use fast_value::Message;
use std::error::Error;
use std::fmt;

/// The error of [`round_trip`]: why a message was not decoded again.
#[derive(Clone, Copy, Debug, PartialEq, Eq)]
pub enum RoundTripFault {
    /// The encoder refused the message. Nothing has changed.
    Encode(EncodeFault),
    /// The message was encoded, but the decoder stopped in its bytes.
    Decode(Fault),
}

impl fmt::Display for RoundTripFault {
    fn fmt<W: fmt::Write>(&self, f: &mut fmt::Formatter<W>) -> fmt::Result {
        match self {
            RoundTripFault::Encode(fault) => write!(f, "encoder: {fault}"),
            RoundTripFault::Decode(fault) => write!(f, "decoder: {fault}"),
        }
    }
}

impl Error for RoundTripFault {}

/// The error of [`round_trip_all`]: the first message that was not decoded again, and why.
#[derive(Clone, Copy, Debug, PartialEq, Eq)]
pub struct RoundTripStop {
    /// The index of the message in the list. All messages before it were decoded.
    pub index: usize,
    /// The error of that message.
    pub fault: RoundTripFault,
}

impl fmt::Display for RoundTripStop {
    fn fmt<W: fmt::Write>(&self, f: &mut fmt::Formatter<W>) -> fmt::Result {
        let RoundTripStop { index, fault } = *self;
        write!(f, "message {index}: {fault}")
    }
}

impl Error for RoundTripStop {}

/// Encodes `message`, appends its bytes to `out`, and feeds them to a decoder that is level with the encoder: both have one template set
/// and equal limits (`strict` may differ), were made or reset together, and have processed the same messages since. The sink receives
/// exactly the events of the message, and the two are level again.
///
/// The bytes stay in `out`, for the caller to send or to keep. If `out` is cleared and reused, no memory is allocated for it once its
/// capacity is enough.
///
/// # Errors
///
/// - `Encode` if the encoder refuses the message, as [`Encoder::encode`] does: nothing has changed, and the two are still level.
/// - `Decode` with `SinkStopped` if the sink stopped at one of the message's events, or with L4 if the decoder's count of consumed bytes
///   would pass 2^64 - 1 (it then reads none of the message). In both cases only the encoder is past the message: reset both.
///
/// There are no other errors.
pub fn round_trip<S: Sink>(
    encoder: &mut Encoder<'_>,
    decoder: &mut Decoder<'_>,
    message: &Message,
    out: &mut Vec<u8>,
    sink: &mut S,
) -> Result<(), RoundTripFault>
    ensures back { (w : List ℕ) (es : List EventData) → AreLevel encoder.old decoder.old w es
        → ComesBack S.takes S.stops encoder.old decoder.old (message_data message.now) out.old.items w es sink.old
        result encoder.new decoder.new out.new.items sink.new }
    ensures same_encoder { (encoder.new.set ≡ encoder.old.set) × (encoder.new.limits ≡ encoder.old.limits) }
    ensures same_decoder { (decoded_tree decoder.new ≡ decoded_tree decoder.old)
        × (decoder.new.limits ≡ decoder.old.limits) }
{
    let before = out.len();
    if let Err(fault) = encoder.encode(message, out) {
        return Err(RoundTripFault::Encode(fault));
    }
    match decoder.feed(&out[before..], sink) {
        Ok(()) => Ok(()),
        Err(fault) => Err(RoundTripFault::Decode(fault)),
    }
}

/// Encodes messages in order, and decodes each before the next one is encoded. The sink receives exactly their events, in order, and
/// encoder and decoder are level again.
///
/// # Errors
///
/// Those of [`round_trip`], for the first message that fails, with its index. All messages before it were decoded.
pub fn round_trip_all<S: Sink>(
    encoder: &mut Encoder<'_>,
    decoder: &mut Decoder<'_>,
    messages: &[Message],
    out: &mut Vec<u8>,
    sink: &mut S,
) -> Result<(), RoundTripStop>
    ensures back { (w : List ℕ) (es : List EventData) → AreLevel encoder.old decoder.old w es
        → AllComeBack S.takes S.stops encoder.old (map message_data messages.now) out.old.items w es sink.old
        result encoder.new decoder.new out.new.items sink.new }
    ensures same_encoder { (encoder.new.set ≡ encoder.old.set) × (encoder.new.limits ≡ encoder.old.limits) }
    ensures same_decoder { (decoded_tree decoder.new ≡ decoded_tree decoder.old)
        × (decoder.new.limits ≡ decoder.old.limits) }
{
    for (index, message) in messages.iter().enumerate() {
        if let Err(fault) = round_trip(encoder, decoder, message, out, sink) {
            return Err(RoundTripStop { index, fault });
        }
    }
    Ok(())
}
