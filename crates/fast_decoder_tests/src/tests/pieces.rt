//! Streams that are fed as a list of pieces.

use super::{
    Account, Case, LENIENT, Script, account_of, expect, expect_case, feed, reset, stopped_at,
};
use fast_decoder::{Decoder, Fault, FaultCode};
use fast_template::VECTORS;
use fast_value::Code;
use std::process::Abort;
use std::test::Fail;

/// Two messages, in pieces that split the first.
const PIECES: &[&[u8]] = &[&[0xC0, 0x81, 0x39], &[0x45, 0xA3, 0x80], &[0x80]];

const WHOLE: &[u8] = &[0xC0, 0x81, 0x39, 0x45, 0xA3, 0x80, 0x80];

const EVENTS: &str = "m0 u0=942755 /m m0 u0=0 /m";

/// A message, and then a copy of an undefined value, in the middle of a piece.
const WRONG: &[&[u8]] = &[
    &[0xC0, 0x81, 0x39],
    &[0x45, 0xA3, 0xC0, 0x8A, 0x11],
    &[0xC0, 0x81, 0x81],
];

/// Feeds the pieces in one call. Without a contract, so that a call is cheap to prove.
fn feed_all(decoder: &mut Decoder<'_>, pieces: &[&[u8]], sink: &mut Script<'_>) -> Account {
    let answer = decoder.feed_all(pieces, sink);
    account_of(decoder, answer)
}

/// Returns the account after the bytes as one piece, if they emit the expected events.
fn heard_as_one(decoder: &mut Decoder<'_>) -> Option<Account> {
    let mut script = Script::of(EVENTS);
    let answer = feed(decoder, WHOLE, &mut script);
    if script.is_played() {
        Some(account_of(decoder, answer))
    } else {
        None
    }
}

/// Returns the account after the pieces, if they emit these events.
fn heard(decoder: &mut Decoder<'_>, pieces: &[&[u8]], events: &str) -> Option<Account> {
    let mut script = Script::of(events);
    let account = feed_all(decoder, pieces, &mut script);
    if script.is_played() {
        Some(account)
    } else {
        None
    }
}

/// Checks that the pieces give the same result as one piece.
pub fn expect_as_one(rt: &impl Abort, decoder: &mut Decoder<'_>) {
    let as_one = heard_as_one(decoder);
    let is_between = matches!(as_one, Some(account) if account.between);
    expect(rt, is_between, "as one", 7);
    reset(decoder);
    let in_pieces = heard(decoder, PIECES, EVENTS);
    expect(rt, in_pieces == as_one, "in pieces", 3);
}

#[test]
fn pieces_are_fed_as_one(rt: HostRuntime) -> Result<(), Fail> {
    expect_case(&rt, rt.alloc(), VECTORS, LENIENT, Case::AsOne)
}

/// Checks that the pieces are read up to a fault, and no piece after it.
pub fn expect_up_to_fault(rt: &impl Abort, decoder: &mut Decoder<'_>) {
    let due = stopped_at(Fault {
        code: FaultCode::Stream(Code::D5),
        place: 7,
    });
    let found = heard(decoder, WRONG, "m0 u0=942755 /m m9");
    expect(rt, found == Some(due), "a fault", 3);
    let again = heard(decoder, &[], "");
    expect(rt, again == Some(due), "no piece behind it", 0);
}

#[test]
fn pieces_are_fed_up_to_a_fault(rt: HostRuntime) -> Result<(), Fail> {
    expect_case(&rt, rt.alloc(), VECTORS, LENIENT, Case::UpToFault)
}
