//! Decoders for callers from C: bytes in, records out.

ghost use Rattle.std.specs.Prelude.{◌≡◌, not, ◌==◌, IfOk, IfErr};
ghost use Rattle.fast_decoder.specs.device.InHand.{in_hand};
ghost use Rattle.fast_c.specs.declared.decoding.Decoding.{Decoding};
ghost use Rattle.fast_c.specs.meaning.Opening.{limits_of, IsNotMade, Opens};
ghost use Rattle.fast_c.specs.meaning.Decoders.{IsMade, IsReset, Starts, Feeds, FeedsPacket, cut_fed, due_info, ends_inside};

use crate::sets::SetHandle;
use crate::{boxed, limits_of};
use fast_decoder::{Decoder, Due};
use fast_records::{Record, Status, Waiting, feed_records};
use fast_value::Limits;
use std::alloc::Global;
use std::marker::Model;

/// A decoder, the events that wait for room, and whether a packet has ended inside a message.
#[derive(Drop)]
pub struct Decoding {
    decoder: Decoder<'static>,
    waiting: Waiting,
    is_cut: bool,
}

/// The type that a C caller's pointer to a decoder has.
#[repr(C)]
#[derive(Drop)]
pub struct FastDecoder {
    unseen: u8,
}

/// A pointer to a decoder, passed by value. The handle of the allocator is zero-sized.
#[repr(C)]
pub struct DecoderHandle {
    at: *mut FastDecoder,
    alloc: Global,
    ghost value: { Decoding },
}

impl Model for DecoderHandle {
    ghost use Rattle.std.specs.Box.Ownership.{box_owns};
    ghost use Rattle.std.specs.contracts.impls.GlobalAllocator.TheImpl.{ghosts};
    ghost use Rattle.fast_c.specs.contracts.decoding.Decoding.{the_row};

    // The value at the pointer, and the right to free its block.
    ghost also_owns = { λ h. box_owns (ghosts.dealloc_token h.alloc) the_row h.at h.value };
}

// A decoder is `Send`, and any thread may free its block.
unsafe impl Send for DecoderHandle {}

impl DecoderHandle {
    ghost use Rattle.std.specs.Prelude.{◌≡◌};

    /// Returns the box of the decoder.
    fn into_box(self) -> Box<Decoding, Global>
        ensures { result.value ≡ self.value }
    {
        let DecoderHandle { at, alloc } = self;
        unsafe { Box::from_raw(alloc, at as *mut Decoding) }
    }

    /// Borrows the decoder.
    fn lent(self) -> &'static Decoding
        ensures { result.now ≡ self.value }
    {
        Box::leak(self.into_box())
    }
}

/// The result of a feed (`fast_fed` of the header).
#[repr(C)]
#[derive(Clone, Copy)]
pub struct FastFed {
    /// The number of bytes of the piece that were consumed.
    taken: u64,
    /// The number of records written.
    records: u64,
    /// The number of bytes written to the buffer of strings.
    texts: u64,
    /// The number of bytes of the stream that were consumed since the decoder was made or reset.
    consumed: u64,
    /// 1 if the decoder is between two messages and has no fault, else 0.
    between: u32,
    /// The number of the status.
    status: u32,
}

/// The part of a stream that a decoder waits for, or at which it has stopped.
#[repr(C)]
#[derive(Clone, Copy)]
pub struct FastDue {
    /// 0: the start of a message, or the end of a segment; 1: the presence map of a group or an element; 2: the instruction of `node`.
    what: u32,
    /// The node of the instruction, else 0.
    node: u32,
}

/// Makes a decoder in a box.
fn made(alloc: Global, set: SetHandle, limits: Limits) -> Result<Box<Decoding, Global>, Status>
    ensures ok { IfOk result (λ decoding. IsMade set.value limits decoding.value) }
    ensures err { IfErr result (IsNotMade set.value limits) }
{
    match Decoder::new(alloc, set.lent(), limits) {
        Ok(decoder) => {
            let waiting = Waiting::new(alloc);
            let decoding = Decoding {
                decoder,
                waiting,
                is_cut: false,
            };
            boxed(alloc, decoding)
        }
        Err(error) => Err(Status::Make(error)),
    }
}

/// Makes a decoder of streams under a set, and stores a pointer to it in `out`. Returns 0, or the status that says why there is none.
#[unsafe(no_mangle)]
pub extern "C" fn fast_decoder_open(
    alloc: Global,
    set: SetHandle,
    strict: u32,
    max_text: u32,
    max_elements: u32,
    max_total: u32,
    out: &mut *mut FastDecoder,
) -> u32
    ensures { Opens (IsMade set.value (limits_of strict max_text max_elements max_total))
        (IsNotMade set.value (limits_of strict max_text max_elements max_total)) out.old out.new result }
{
    let limits = limits_of(strict, max_text, max_elements, max_total);
    match made(alloc, set, limits) {
        Ok(decoding) => {
            *out = Box::into_raw(decoding) as *mut FastDecoder;
            0
        }
        Err(status) => status.number(),
    }
}

/// Returns the result of a feed after a packet that has ended inside a message.
#[cold]
fn cut_fed(consumed: u64) -> FastFed
    ensures { result ≡ cut_fed consumed }
{
    FastFed {
        taken: 0,
        records: 0,
        texts: 0,
        consumed,
        between: 0,
        status: Status::Truncated.number(),
    }
}

/// Feeds a piece, as far as its events have room. Inlined, since callers may call it for each packet of a few bytes.
#[inline(always)]
fn feed(decoding: &mut Decoding, piece: &[u8], records: &mut [Record], texts: &mut [u8]) -> FastFed
    ensures { Feeds decoding.old piece.now records.new texts.new result decoding.new }
{
    if decoding.is_cut {
        return cut_fed(decoding.decoder.consumed());
    }
    let Decoding {
        decoder,
        waiting,
        ..
    } = decoding;
    let fed = feed_records(decoder, waiting, piece, records, texts);
    let status = Status::from(fed.outcome).number();
    FastFed {
        taken: fed.taken as u64,
        records: fed.records as u64,
        texts: fed.texts as u64,
        consumed: decoder.consumed(),
        between: u32::from(decoder.between()),
        status,
    }
}

/// Feeds a piece to a decoder, as far as its events have room, and writes their records and strings.
#[unsafe(no_mangle)]
pub extern "C" fn fast_decoder_feed(
    decoder: DecoderHandle,
    back: &mut *mut FastDecoder,
    piece: &[u8],
    records: &mut [Record],
    texts: &mut [u8],
    fed: &mut FastFed,
)
    ensures { (new : Decoding) × Feeds decoder.value piece.now records.new texts.new fed.new new }
{
    let mut decoding = decoder.into_box();
    *fed = feed(&mut decoding, piece, records, texts);
    *back = Box::into_raw(decoding) as *mut FastDecoder;
}

/// Returns whether all bytes were consumed and no event waits, but a message is incomplete.
fn ends_inside(fed: FastFed) -> bool
    ensures { result ≡ ends_inside fed }
{
    fed.status == Status::Done.number() && fed.between == 0
}

/// Resets a decoder if `is_reset`.
fn start(decoding: &mut Decoding, is_reset: bool)
    ensures { Starts is_reset decoding.old decoding.new }
{
    if is_reset {
        reset(decoding);
    }
}

/// Feeds the rest of a packet to a decoder, which is reset first if asked for.
#[inline(always)]
fn feed_packet(
    decoding: &mut Decoding,
    is_reset: bool,
    packet: &[u8],
    records: &mut [Record],
    texts: &mut [u8],
) -> FastFed
    ensures { FeedsPacket is_reset decoding.old packet.now records.new texts.new result decoding.new }
{
    start(decoding, is_reset);
    let fed = feed(decoding, packet, records, texts);
    if ends_inside(fed) {
        decoding.is_cut = true;
        return FastFed {
            status: Status::Truncated.number(),
            ..fed
        };
    }
    fed
}

/// Feeds the rest of a packet to a decoder, which is reset first if `start` is not 0. If the bytes end inside a message, the packet is
/// truncated: the status says so, and stays until a reset.
#[unsafe(no_mangle)]
pub extern "C" fn fast_decoder_packet(
    decoder: DecoderHandle,
    back: &mut *mut FastDecoder,
    start: u32,
    packet: &[u8],
    records: &mut [Record],
    texts: &mut [u8],
    fed: &mut FastFed,
)
    ensures { (new : Decoding)
        × FeedsPacket (not (start == 0)) decoder.value packet.now records.new texts.new fed.new new }
{
    let mut decoding = decoder.into_box();
    *fed = feed_packet(&mut decoding, start != 0, packet, records, texts);
    *back = Box::into_raw(decoding) as *mut FastDecoder;
}

/// Resets a decoder to the state in which it was made.
fn reset(decoding: &mut Decoding)
    ensures { IsReset decoding.old decoding.new }
{
    decoding.decoder.reset();
    decoding.waiting.clear();
    decoding.is_cut = false;
}

/// Resets a decoder to the state in which it was made, before the first byte.
#[unsafe(no_mangle)]
pub extern "C" fn fast_decoder_reset(decoder: DecoderHandle, back: &mut *mut FastDecoder)
    ensures { (new : Decoding) × IsReset decoder.value new }
{
    let mut decoding = decoder.into_box();
    reset(&mut decoding);
    *back = Box::into_raw(decoding) as *mut FastDecoder;
}

/// Returns the part of a stream as a struct of C's.
fn due_info(due: Due) -> FastDue
    ensures { result ≡ due_info due }
{
    match due {
        Due::Nothing => FastDue { what: 0, node: 0 },
        Due::SegmentMap => FastDue { what: 1, node: 0 },
        Due::Instruction(node) => FastDue { what: 2, node },
    }
}

/// Writes what a decoder waits for; at a fault, the instruction at which it has stopped. The decoder stays as it is.
#[unsafe(no_mangle)]
pub extern "C" fn fast_decoder_due(decoder: DecoderHandle, due: &mut FastDue)
    ensures { due.new ≡ due_info (in_hand decoder.value.decoder) }
{
    *due = due_info(decoder.lent().decoder.in_hand());
}

/// Frees a decoder's memory. Its set stays open.
#[unsafe(no_mangle)]
pub extern "C" fn fast_decoder_close(decoder: DecoderHandle) {
    drop(decoder.into_box());
}
