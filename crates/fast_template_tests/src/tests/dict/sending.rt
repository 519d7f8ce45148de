//! The content that an encoder sends.

use super::super::expect;
use super::instruction;
use Previous::{Assigned, Empty, Undefined};
use Scalar::{Ascii, I, U, Unicode};
use Sent::TextDelta;
use fast_dict::operators::Sent;
use fast_dict::previous::Previous;
use fast_dict::rule::choose;
use fast_dict::rule::common::is_same;
use fast_tree::{FieldInstruction, Operator};
use fast_value::{Kind, Scalar};
use std::alloc::{AllocError, Global};
use std::test::Fail;

/// Returns whether two items are the same.
fn is_same_item(item: Sent<'_>, wanted: Sent<'_>) -> bool {
    match (item, wanted) {
        (Sent::Nothing, Sent::Nothing) | (Sent::Null, Sent::Null) => true,
        (Sent::Value(a), Sent::Value(b)) => is_same(a, b),
        (Sent::IntegerDelta(a), Sent::IntegerDelta(b)) => a == b,
        (Sent::DecimalDelta(a, b), Sent::DecimalDelta(c, d)) => a == c && b == d,
        (Sent::TextDelta(a, part), Sent::TextDelta(b, wanted_part)) => {
            a == b && part == wanted_part
        }
        _ => false,
    }
}

/// A field of the tests: the operator, the type, whether it is optional, and the initial value.
type Field = (Operator, Kind, bool, Option<Scalar<'static>>);

/// A field, a previous value, a value, and the bit and the item that are sent for it, if it can be sent.
type Case = (
    Field,
    Previous<'static>,
    Option<Scalar<'static>>,
    Option<(bool, Sent<'static>)>,
);

/// Returns the bit and the item for a value. Without a contract, so that a call is cheap to prove.
fn chosen<'a>(
    field: &'a FieldInstruction,
    previous: Previous<'a>,
    value: Option<Scalar<'a>>,
) -> Option<(bool, Sent<'a>)> {
    let choice = choose(field, previous, value)?;
    Some((choice.bit, choice.item))
}

/// Returns whether two bits and items are the same.
fn is_same_choice(chosen: Option<(bool, Sent<'_>)>, wanted: Option<(bool, Sent<'_>)>) -> bool {
    match (chosen, wanted) {
        (Some((bit, item)), Some((wanted_bit, wanted_item))) => {
            bit == wanted_bit && is_same_item(item, wanted_item)
        }
        (None, None) => true,
        _ => false,
    }
}

/// Returns whether bit and item for a value under a previous value are the expected ones.
fn is_sent(alloc: Global, case: &Case) -> Result<bool, AllocError> {
    let ((operator, kind, optional, initial), previous, value, wanted) = *case;
    let field = instruction(alloc, operator, kind, optional, initial)?;
    Ok(is_same_choice(chosen(&field, previous, value), wanted))
}

const UNSENT: Option<(bool, Sent<'static>)> = Some((false, Sent::Nothing));

const SET: Option<(bool, Sent<'static>)> = Some((true, Sent::Nothing));

const NULL: Option<(bool, Sent<'static>)> = Some((true, Sent::Null));

const SEVEN: Option<Scalar<'static>> = Some(U(7));

const OTHER: Previous<'static> = Assigned(Kind::Bytes, Scalar::Bytes(b"ABC"));

const GREATEST_32: Previous<'static> = Assigned(Kind::UInt32, U(4_294_967_295));

const HUNDRED: Previous<'static> = Assigned(Kind::Int32, I(100));

/// Fields, and the content sent for them. They are one flat list, since lists within a list are slow to prove if they hold bytes.
#[rattlefmt::skip]
const CASES: &[Case] = &[
    ((Operator::Tail, Kind::Ascii, false, None), Undefined, Some(Ascii(b"ABCDE")), Some((true, Sent::Value(Ascii(b"ABCDE"))))),
    ((Operator::Tail, Kind::Ascii, false, None), Assigned(Kind::Ascii, Ascii(b"ABCDE")), Some(Ascii(b"ABCXY")), Some((true, Sent::Value(Ascii(b"XY"))))),
    ((Operator::Tail, Kind::Ascii, false, None), Assigned(Kind::Ascii, Ascii(b"ABCXY")), Some(Ascii(b"ABCXY")), UNSENT),
    ((Operator::Tail, Kind::Ascii, false, None), Assigned(Kind::Ascii, Ascii(b"ABCXY")), Some(Ascii(b"AB")), None),
    ((Operator::Tail, Kind::Ascii, false, None), Assigned(Kind::Ascii, Ascii(b"ABC")), Some(Ascii(b"ABCD")), Some((true, Sent::Value(Ascii(b"ABCD"))))),
    ((Operator::Tail, Kind::Ascii, false, None), OTHER, Some(Ascii(b"ABC")), None),
    ((Operator::Tail, Kind::Ascii, true, Some(Ascii(b"ABC"))), Empty, Some(Ascii(b"ABC")), Some((true, Sent::Value(Ascii(b""))))),
    ((Operator::Tail, Kind::Ascii, true, Some(Ascii(b"ABC"))), OTHER, None, NULL),
    ((Operator::Delta, Kind::Ascii, false, None), Undefined, Some(Ascii(b"GEH6")), Some((true, TextDelta(0, b"GEH6")))),
    ((Operator::Delta, Kind::Ascii, false, None), Assigned(Kind::Ascii, Ascii(b"GEH6")), Some(Ascii(b"GEM6")), Some((true, TextDelta(2, b"M6")))),
    ((Operator::Delta, Kind::Ascii, false, None), Assigned(Kind::Ascii, Ascii(b"GEM6")), Some(Ascii(b"ZZGEM6")), Some((true, TextDelta(-1, b"ZZ")))),
    ((Operator::Delta, Kind::Ascii, false, None), Assigned(Kind::Ascii, Ascii(b"XAB")), Some(Ascii(b"AB")), Some((true, TextDelta(-2, b"")))),
    ((Operator::Delta, Kind::Ascii, false, None), Assigned(Kind::Ascii, Ascii(b"AA")), Some(Ascii(b"A")), Some((true, TextDelta(1, b"")))),
    ((Operator::Delta, Kind::Ascii, false, None), Empty, Some(Ascii(b"A")), None),
    ((Operator::Delta, Kind::Unicode, false, None), Assigned(Kind::Unicode, Unicode(b"\xC3\xA9")), Some(Unicode(b"\xC3\xA8")), Some((true, TextDelta(1, b"\xA8")))),
    ((Operator::Increment, Kind::UInt32, false, None), GREATEST_32, Some(U(0)), UNSENT),
    ((Operator::Increment, Kind::UInt32, false, None), GREATEST_32, Some(U(1)), Some((true, Sent::Value(U(1))))),
    ((Operator::Delta, Kind::Int32, true, None), HUNDRED, Some(I(98)), Some((true, Sent::IntegerDelta(-2)))),
    ((Operator::Delta, Kind::Int32, true, None), HUNDRED, None, NULL),
    ((Operator::Delta, Kind::Decimal, false, None), Undefined, Some(Scalar::Dec { exponent: -1, mantissa: 15 }), Some((true, Sent::DecimalDelta(-1, 15)))),
    ((Operator::Constant, Kind::UInt32, false, SEVEN), Undefined, SEVEN, SET),
    ((Operator::Constant, Kind::UInt32, false, SEVEN), Undefined, Some(U(8)), None),
    ((Operator::Constant, Kind::UInt32, true, SEVEN), Undefined, SEVEN, SET),
    ((Operator::Constant, Kind::UInt32, true, SEVEN), Undefined, None, UNSENT),
    ((Operator::Default, Kind::UInt32, true, SEVEN), Undefined, SEVEN, UNSENT),
    ((Operator::Default, Kind::UInt32, true, SEVEN), Undefined, None, NULL),
    ((Operator::Copy, Kind::Int32, true, None), Undefined, None, UNSENT),
    ((Operator::None, Kind::UInt32, true, None), Undefined, None, NULL),
    ((Operator::None, Kind::UInt32, true, None), Undefined, SEVEN, Some((true, Sent::Value(U(7))))),
];

#[test]
fn items_for_values(rt: HostRuntime) -> Result<(), Fail> {
    for (k, case) in CASES.iter().enumerate() {
        let is_sent = is_sent(rt.alloc(), case)?;
        expect(&rt, is_sent, "case", k);
    }
    Ok(())
}
