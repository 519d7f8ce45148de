//! An encoder of which an allocation fails. The tests hold for each allocation that fails, and for none.

use super::super::read;
use super::messages::message_of;
use super::rows::is_hex;
use super::{LENIENT, encode, encoder_of, expect};
use fast_decoder::MakeError;
use fast_encoder::{EncodeFault, Encoder};
use fast_template::{Templates, VECTORS};
use fast_value::Message;
use std::alloc::Global;
use std::process::Abort;
use std::test::Fail;

/// Makes an encoder of the set, at the second try if an allocation failed at the first.
fn made<'t>(alloc: Global, set: &'t Templates) -> Result<Encoder<'t>, MakeError> {
    match encoder_of(alloc, set, LENIENT) {
        Err(MakeError::Memory) => encoder_of(alloc, set, LENIENT),
        answer => answer,
    }
}

/// Returns whether the message is encoded after the bytes of `out`, at the second try if an allocation failed at the first and left `out`
/// unchanged.
fn is_encoded(
    encoder: &mut Encoder<'_>,
    message: &Message,
    before: &str,
    out: &mut Vec<u8>,
    after: &str,
) -> bool {
    let mut answer = encode(encoder, message, out);
    if answer == Err(EncodeFault::Memory) && is_hex(out, before) {
        answer = encode(encoder, message, out);
    }
    answer == Ok(()) && is_hex(out, after)
}

/// Messages, and the bytes of all so far: a string that is kept, one with a group and elements, and one that changes a string.
const ENCODED: &[(&str, &str)] = &[
    ("m2 a3='ABCDE' /m", "E0 83 41 42 43 44 C5"),
    (
        "m14 u15=5 g16 b17=01FF /g s18*2 e a19='AB' i20=100 /e e a19='AB' i20=98 /e /s /m",
        "E0 83 41 42 43 44 C5 E0 8F 85 82 01 FF 83 C0 41 C2 00 E4 80 FE",
    ),
    (
        "m3 a4='GEH6' /m",
        "E0 83 41 42 43 44 C5 E0 8F 85 82 01 FF 83 C0 41 C2 00 E4 80 FE C0 84 80 47 45 48 B6",
    ),
    (
        "m2 a3='ABCXY' /m",
        "E0 83 41 42 43 44 C5 E0 8F 85 82 01 FF 83 C0 41 C2 00 E4 80 FE C0 84 80 47 45 48 B6 E0 83 58 D9",
    ),
];

/// Returns whether the message of this line is encoded.
fn are_encoded(
    encoder: &mut Encoder<'_>,
    message: Option<Message>,
    before: &str,
    out: &mut Vec<u8>,
    after: &str,
) -> bool {
    match message {
        Some(message) => is_encoded(encoder, &message, before, out, after),
        None => false,
    }
}

#[test]
fn a_refused_growth_changes_nothing(rt: HostRuntime) -> Result<(), Fail> {
    let alloc = rt.alloc();
    let Ok(set) = read(alloc, VECTORS) else {
        return Ok(());
    };
    let mut encoder = made(alloc, &set)?;
    expect_growth(&rt, alloc, &mut encoder);
    Ok(())
}

/// Checks that each message appends its bytes to those of the one before, up to one for which an allocation fails.
fn expect_growth(rt: &impl Abort, alloc: Global, encoder: &mut Encoder<'_>) {
    let mut out = Vec::new(alloc);
    let mut before = "";
    for (words, after) in ENCODED {
        let Ok(message) = message_of(alloc, words) else {
            return;
        };
        let are_encoded = are_encoded(encoder, message, before, &mut out, after);
        expect(rt, are_encoded, "encoded", after);
        before = after;
    }
}
