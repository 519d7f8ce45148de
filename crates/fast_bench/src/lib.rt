//! Runs of the decoder and the encoder over streams in memory, and of the conversions between streams and lines, for C programs that
//! measure or test them.
#![tactic(auto)]

use fast_measure::{
    all_ways, call_all, cut_everywhere, decode, decode_records, encode, stop_and_decode,
};
use fast_measure_lines::{convert, read, show};
use fast_value::Limits;
use std::alloc::Global;

/// Returns the limits from the arguments of a call.
fn limits_of(strict: u32, max_text: u32, max_elements: u32, max_total: u32) -> Limits {
    Limits {
        strict: strict != 0,
        max_text: max_text as usize,
        max_elements,
        max_total,
    }
}

/// Decodes a stream under a template set, in pieces of `piece` bytes, or in one if `piece` is 0.
///
/// Sink 0 counts events; sink 2 writes records, as for callers from C, without a checksum; every other sink computes the checksum. Writes
/// four numbers to `out`, each as eight bytes, the least significant first: the status (0 between two messages, 1 inside a message, 2 to 19
/// at a fault; 256 if no decoder was made, 518 if an allocation for it failed), the number of bytes consumed, the number of events, and the
/// checksum.
#[unsafe(no_mangle)]
pub extern "C" fn fast_bench_run(
    alloc: Global,
    templates: &[u8],
    stream: &[u8],
    piece: usize,
    sink: u32,
    strict: u32,
    max_text: u32,
    max_elements: u32,
    max_total: u32,
    out: &mut [u8; 32],
) {
    let limits = limits_of(strict, max_text, max_elements, max_total);
    if sink == 2 {
        decode_records(alloc, templates, limits, stream, piece).write_to(out);
    } else {
        decode(alloc, templates, limits, stream, piece, sink == 0).write_to(out);
    }
}

/// Decodes a stream twice, in pieces of `piece` bytes, or in one if `piece` is 0: first with a sink that receives `most` events and stops
/// at the next, and then, after a reset, with one that does not stop. Writes both results, with checksums, in the form of `fast_bench_run`.
#[unsafe(no_mangle)]
pub extern "C" fn fast_bench_stop(
    alloc: Global,
    templates: &[u8],
    stream: &[u8],
    piece: usize,
    strict: u32,
    max_text: u32,
    max_elements: u32,
    max_total: u32,
    most: u64,
    stopped: &mut [u8; 32],
    again: &mut [u8; 32],
) {
    let limits = limits_of(strict, max_text, max_elements, max_total);
    let runs = stop_and_decode(alloc, templates, limits, stream, piece, most);
    runs.stopped.write_to(stopped);
    runs.again.write_to(again);
}

/// Decodes a stream and each of its prefixes, whole and in pieces of one, two and three bytes.
///
/// Writes the result for the whole stream to `whole`, in the form of `fast_bench_run`, with its checksum; and to `counts`, each as eight
/// bytes, the number of prefixes, and the number of prefixes whose result differs in pieces, or contradicts that of the whole stream.
#[unsafe(no_mangle)]
pub extern "C" fn fast_bench_cut(
    alloc: Global,
    templates: &[u8],
    stream: &[u8],
    strict: u32,
    max_text: u32,
    max_elements: u32,
    max_total: u32,
    whole: &mut [u8; 32],
    counts: &mut [u8; 16],
) {
    let limits = limits_of(strict, max_text, max_elements, max_total);
    let cuts = cut_everywhere(alloc, templates, limits, stream);
    cuts.whole.write_to(whole);
    counts[..8].copy_from_slice(&cuts.fronts.to_le_bytes());
    counts[8..].copy_from_slice(&cuts.wrong.to_le_bytes());
}

/// Decodes a stream in all ways: whole; in pieces of `piece` bytes, or in one if `piece` is 0; leniently to messages (whatever `strict`),
/// which are encoded, and the result is decoded in strict mode; and whole and in pieces under the same set without specialized opcodes, so
/// that each field is read on the general path.
///
/// Writes the five results, with checksums, in the form of `fast_bench_run`; the third is that of the last decoding. If the stream does
/// not end between two messages, or a message is refused, the third has only that status (as `fast_bench_encode` returns it).
#[unsafe(no_mangle)]
pub extern "C" fn fast_bench_all_ways(
    alloc: Global,
    templates: &[u8],
    stream: &[u8],
    piece: usize,
    strict: u32,
    max_text: u32,
    max_elements: u32,
    max_total: u32,
    whole: &mut [u8; 32],
    pieces: &mut [u8; 32],
    again: &mut [u8; 32],
    general: &mut [u8; 32],
    general_pieces: &mut [u8; 32],
) {
    let limits = limits_of(strict, max_text, max_elements, max_total);
    let ways = all_ways(alloc, templates, limits, stream, piece);
    ways.whole.write_to(whole);
    ways.pieces.write_to(pieces);
    ways.again.write_to(again);
    ways.general.write_to(general);
    ways.general_pieces.write_to(general_pieces);
}

/// Decodes a stream under a template set to messages, once, and encodes these `rounds` times, each time from a reset encoder.
///
/// Writes four numbers to `out`, each as eight bytes, the least significant first: the status (0 to 19 for the end of the stream, as that
/// of `fast_bench_run`; 256 if a set, a decoder or an encoder was not made; from 513 if a message was refused: E1, E2, E3, E4, R9; 518 if
/// an allocation failed), the number of messages, the number of bytes over all rounds, and the checksum of the last round's bytes.
#[unsafe(no_mangle)]
pub extern "C" fn fast_bench_encode(
    alloc: Global,
    templates: &[u8],
    stream: &[u8],
    rounds: u32,
    max_text: u32,
    max_elements: u32,
    max_total: u32,
    out: &mut [u8; 32],
) {
    let limits = limits_of(0, max_text, max_elements, max_total);
    encode(alloc, templates, limits, stream, Some(rounds)).write_to(out);
}

/// Decodes a stream under a template set to messages, and encodes each, a second time if an allocation failed. Writes the result of
/// `fast_bench_encode` with one round.
#[unsafe(no_mangle)]
pub extern "C" fn fast_bench_encode_patiently(
    alloc: Global,
    templates: &[u8],
    stream: &[u8],
    max_text: u32,
    max_elements: u32,
    max_total: u32,
    out: &mut [u8; 32],
) {
    let limits = limits_of(0, max_text, max_elements, max_total);
    encode(alloc, templates, limits, stream, None).write_to(out);
}

/// Calls each caller of fast_callers over a stream, with the default limits: the first gets it in two pieces, and the second searches for
/// the price of a symbol.
///
/// Writes eight numbers to `out`, each as eight bytes, the least significant first: the number of messages; whether there is a price, its
/// exponent and its mantissa; and the number of messages up to a fault, that of bytes, the status as that of `fast_bench_run`, and the
/// offset of the fault. If a caller refuses the stream, its first number is 2^64 - 1.
#[unsafe(no_mangle)]
pub extern "C" fn fast_bench_call(
    alloc: Global,
    templates: &[u8],
    stream: &[u8],
    cut: usize,
    symbol: &[u8],
    out: &mut [u8; 64],
) {
    call_all(alloc, templates, stream, cut, symbol).write_to(out);
}

/// Shows a stream, and writes the lines to `out`, as many bytes as have room.
///
/// Writes three numbers to `answer`, each as eight bytes, the least significant first: the status, its offset, and the number of bytes
/// written. The status is 0 between two messages, 1 inside a message, 2 at a fault; 256 if no set was read; 300 if reading failed, 301 if
/// writing did, 304 if the limits are refused; 518 if an allocation failed.
#[unsafe(no_mangle)]
pub extern "C" fn fast_bench_show(
    alloc: Global,
    templates: &[u8],
    stream: &[u8],
    strict: u32,
    max_text: u32,
    max_elements: u32,
    max_total: u32,
    out: &mut [u8],
    answer: &mut [u8; 24],
) {
    let limits = limits_of(strict, max_text, max_elements, max_total);
    show(alloc, templates, limits, stream, out).write_to(answer);
}

/// Converts lines to their stream, and writes it to `out`, as many bytes as have room.
///
/// Writes the numbers of `fast_bench_show` to `answer`; the status is from 401 for an invalid line, by the number of its fault, and from
/// 513 for a message that is refused: E1, E2, E3, E4, R9.
#[unsafe(no_mangle)]
pub extern "C" fn fast_bench_convert(
    alloc: Global,
    templates: &[u8],
    lines: &[u8],
    max_text: u32,
    max_elements: u32,
    max_total: u32,
    out: &mut [u8],
    answer: &mut [u8; 24],
) {
    let limits = limits_of(0, max_text, max_elements, max_total);
    convert(alloc, templates, limits, lines, out).write_to(answer);
}

/// Reads lines. Writes the numbers of `fast_bench_convert` to `answer`, with the number of messages in place of that of bytes.
#[unsafe(no_mangle)]
pub extern "C" fn fast_bench_read_lines(
    alloc: Global,
    templates: &[u8],
    lines: &[u8],
    answer: &mut [u8; 24],
) {
    read(alloc, templates, lines).write_to(answer);
}
