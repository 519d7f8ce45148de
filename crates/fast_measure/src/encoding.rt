//! Runs of the encoder over the messages of a stream in memory.

use crate::decoding::{BETWEEN, decoder_of, feed_all, read_set, status_of_make};
use crate::sinks::with_bytes;
use crate::trees::Trees;
use fast_decoder::Decoder;
use fast_encoder::{EncodeFault, Encoder};
use fast_template::Templates;
use fast_value::{Limits, Message};
use std::alloc::Global;

/// The result of a run.
#[derive(Clone, Copy)]
pub struct Encoded {
    /// The status at the end of the stream, as that of an [`Answer`](crate::decoding::Answer); from 513 if a message was refused: E1, E2,
    /// E3, E4, R9; 518 if an allocation failed, for a message, a set, a decoder or an encoder.
    pub status: u64,
    /// The number of messages.
    pub messages: u64,
    /// The number of bytes, over all rounds.
    pub bytes: u64,
    /// The checksum of the bytes of the last round.
    pub sum: u64,
}

impl Encoded {
    /// Returns the result if nothing, or not all, is encoded.
    fn failed(status: u64) -> Encoded {
        Encoded {
            status,
            messages: 0,
            bytes: 0,
            sum: 0,
        }
    }

    /// Writes the four numbers, each as eight bytes, the least significant first.
    pub fn write_to(&self, out: &mut [u8; 32]) {
        out[..8].copy_from_slice(&self.status.to_le_bytes());
        out[8..16].copy_from_slice(&self.messages.to_le_bytes());
        out[16..24].copy_from_slice(&self.bytes.to_le_bytes());
        out[24..].copy_from_slice(&self.sum.to_le_bytes());
    }
}

/// Returns the status of a run in which a message was refused, from 513.
pub fn status_of(fault: EncodeFault) -> u64 {
    match fault {
        EncodeFault::E1 => 513,
        EncodeFault::E2 => 514,
        EncodeFault::E3 => 515,
        EncodeFault::E4 => 516,
        EncodeFault::R9 => 517,
        EncodeFault::Memory => 518,
    }
}

/// Makes an encoder. The error is the status of a run without one.
pub fn encoder_of<'t>(
    alloc: Global,
    set: &'t Templates,
    limits: Limits,
) -> Result<Encoder<'t>, u64> {
    match Encoder::new(alloc, set, limits) {
        Ok(encoder) => Ok(encoder),
        Err(error) => Err(status_of_make(error)),
    }
}

/// Encodes messages in order into a vector, which it clears first.
pub fn encode_all(
    encoder: &mut Encoder<'_>,
    messages: &[Message],
    list: &mut Vec<u8>,
) -> Result<(), EncodeFault> {
    encoder.reset();
    list.clear();
    for message in messages {
        encoder.encode(message, list)?;
    }
    Ok(())
}

/// Encodes a message, and tries again if an allocation failed.
fn encode_again(
    encoder: &mut Encoder<'_>,
    message: &Message,
    list: &mut Vec<u8>,
) -> Result<(), EncodeFault> {
    match encoder.encode(message, list) {
        Err(EncodeFault::Memory) => encoder.encode(message, list),
        answer => answer,
    }
}

/// Encodes messages in order, and tries each again if an allocation failed.
fn encode_patiently(
    alloc: Global,
    encoder: &mut Encoder<'_>,
    messages: &[Message],
) -> Result<Encoded, EncodeFault> {
    let mut list = Vec::new(alloc);
    for message in messages {
        encode_again(encoder, message, &mut list)?;
    }
    Ok(Encoded {
        status: BETWEEN,
        messages: messages.len() as u64,
        bytes: list.len() as u64,
        sum: with_bytes(&list),
    })
}

/// Encodes messages `rounds` times, each time from a reset encoder.
fn encode_rounds(
    alloc: Global,
    encoder: &mut Encoder<'_>,
    messages: &[Message],
    rounds: u32,
) -> Result<Encoded, EncodeFault> {
    let mut list = Vec::new(alloc);
    let mut bytes: u64 = 0;
    for _ in 0..rounds {
        encode_all(encoder, messages, &mut list)?;
        bytes = bytes.wrapping_add(list.len() as u64);
    }
    Ok(Encoded {
        status: BETWEEN,
        messages: messages.len() as u64,
        bytes,
        sum: with_bytes(&list),
    })
}

/// Does the work of [`encode`]. The error is the status if nothing is encoded. Decoder and encoder are made before the first byte is
/// decoded: `tools/growths` depends on the order of the allocations.
fn run(
    alloc: Global,
    templates: &[u8],
    limits: Limits,
    stream: &[u8],
    rounds: Option<u32>,
) -> Result<Encoded, u64> {
    let set = read_set(alloc, templates)?;
    let mut decoder = decoder_of(alloc, &set, limits)?;
    run_behind(alloc, &set, limits, stream, rounds, &mut decoder)
}

/// Does the work of [`encode`] with a decoder that is made already.
fn run_behind(
    alloc: Global,
    set: &Templates,
    limits: Limits,
    stream: &[u8],
    rounds: Option<u32>,
    decoder: &mut Decoder<'_>,
) -> Result<Encoded, u64> {
    let mut encoder = encoder_of(alloc, set, limits)?;
    let mut trees = Trees::new(alloc, set);
    match feed_all(decoder, stream, usize::MAX, &mut trees) {
        BETWEEN => run_over(alloc, &mut encoder, &trees.messages, rounds),
        status => Err(status),
    }
}

/// Does the work of [`encode`] for messages that are decoded already.
fn run_over(
    alloc: Global,
    encoder: &mut Encoder<'_>,
    messages: &[Message],
    rounds: Option<u32>,
) -> Result<Encoded, u64> {
    let encoded = match rounds {
        Some(rounds) => encode_rounds(alloc, encoder, messages, rounds),
        None => encode_patiently(alloc, encoder, messages),
    };
    match encoded {
        Ok(encoded) => Ok(encoded),
        Err(fault) => Err(status_of(fault)),
    }
}

/// Decodes a stream under a template set to messages, once, and encodes these `rounds` times, each time from a reset encoder. If `rounds`
/// is `None`, it encodes each message once, and once more if an allocation failed.
pub fn encode(
    alloc: Global,
    templates: &[u8],
    limits: Limits,
    stream: &[u8],
    rounds: Option<u32>,
) -> Encoded {
    match run(alloc, templates, limits, stream, rounds) {
        Ok(encoded) => encoded,
        Err(status) => Encoded::failed(status),
    }
}
