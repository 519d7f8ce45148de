//! Records in buffers with little room, of a decoder that has stopped too; and the descriptions of refused records.

use super::{Case, LENIENT, expect, expect_case};
use fast_decoder::{Decoder, FaultCode};
use fast_encoder::EncodeFault;
use fast_records::{Fed, Outcome, PutFault, PutRefusal, Record, Waiting, feed_records};
use fast_value::Code;
use std::alloc::Global;
use std::process::Abort;
use std::test::Fail;

/// A string; and four events and a fault at the byte of the identifier.
const SET: &str = r#"
[[template]]
name = "text"
id = 1
fields = [{kind="ascii", name="a"}]
[[template]]
name = "nothing"
id = 2
fields = [{kind="group", name="g", fields=[{kind="uInt32", name="c", op="constant", value="7"}]}, {kind="uInt32", name="d", op="copy"}]
"#;

/// One call after the other: the bytes, the room for records and for bytes of strings; the numbers of those read, given and used; and the
/// outcome.
#[rattlefmt::skip]
const CALLS: &[(&[u8], usize, usize, usize, usize, usize, Outcome)] = &[
    (&[0xC0, 0x81, 0x41, 0xC2], 0, 4, 0, 0, 0, Outcome::NoRoom),
    (&[0xC0, 0x81, 0x41, 0xC2], 4, 1, 2, 1, 0, Outcome::More),
    (&[0x41, 0xC2], 3, 1, 2, 0, 0, Outcome::More),
    (&[], 4, 1, 0, 0, 0, Outcome::NoRoom),
    (&[], 1, 2, 0, 1, 2, Outcome::More),
    (&[], 1, 0, 0, 1, 0, Outcome::Done),
    (&[0xC0, 0x82, 0x81], 1, 4, 1, 0, 0, Outcome::More),
    (&[0x82, 0x81], 1, 4, 1, 1, 0, Outcome::More),
    (&[0x81], 0, 4, 0, 0, 0, Outcome::NoRoom),
    (&[0x81], 2, 4, 0, 2, 0, Outcome::More),
    (&[0x81], 1, 4, 0, 1, 0, Outcome::Fault(FaultCode::Stream(Code::D5))),
    (&[0x81], 4, 4, 0, 0, 0, Outcome::Fault(FaultCode::Stream(Code::D5))),
];

const BLANK: Record = Record {
    kind: 0,
    node: 0,
    value: 0,
    length: 0,
    exponent: 0,
};

/// Returns the result of a call with this much room.
fn fed(
    decoder: &mut Decoder<'_>,
    waiting: &mut Waiting,
    piece: &[u8],
    records: usize,
    texts: usize,
) -> Fed {
    let mut record_room = [BLANK; 4];
    let mut text_room = [0; 4];
    feed_records(
        decoder,
        waiting,
        piece,
        &mut record_room[..records.min(4)],
        &mut text_room[..texts.min(4)],
    )
}

/// Checks the results of the calls, one after the other.
pub fn expect_calls(rt: &impl Abort, alloc: Global, decoder: &mut Decoder<'_>) {
    let mut waiting = Waiting::new(alloc);
    for (at, call) in CALLS.iter().enumerate() {
        let (piece, records, texts, taken, given, used, outcome) = *call;
        let due = Fed {
            taken,
            records: given,
            texts: used,
            outcome,
        };
        expect(
            rt,
            fed(decoder, &mut waiting, piece, records, texts) == due,
            "a call",
            at,
        );
    }
}

#[test]
fn records_wait_for_room_and_a_fault_for_them(rt: HostRuntime) -> Result<(), Fail> {
    expect_case(&rt, rt.alloc(), SET, LENIENT, Case::GivesRecords)
}

#[rattlefmt::skip]
const REFUSALS: &[(PutRefusal, &str)] = &[
    (PutRefusal::Records(PutFault::Misplaced { record: 7 }), "record 7 is missing or out of place"),
    (PutRefusal::Records(PutFault::Memory), "there is no memory left"),
    (PutRefusal::Message(EncodeFault::E2), "the message does not suit its template"),
];

#[test]
fn a_refusal_has_a_sentence(rt: HostRuntime) -> Result<(), Fail> {
    for (at, (refusal, sentence)) in REFUSALS.iter().enumerate() {
        let found = format!(in rt.alloc(); "{refusal}")?;
        expect(&rt, found.as_str() == *sentence, sentence, at);
    }
    Ok(())
}
