//! Fields one after the other, each with the entry that the one before left.

use super::super::expect;
use super::{Failed, answer, instruction, is_same_answer};
use fast_dict::operators::{Outcome, Sent, sized};
use fast_dict::previous::Previous;
use fast_tree::Operator;
use fast_value::{Code, Kind, Scalar};
use std::alloc::{AllocError, Global};
use std::test::Fail;

/// The operator, the type and whether the field is optional, of a field without an initial value, then the contents of the entry, the
/// presence bit, the content of the stream, and the result.
type Example = (
    (Operator, Kind, bool),
    Previous<'static>,
    bool,
    Sent<'static>,
    Given,
);

/// The expected result of a field.
#[derive(Clone, Copy)]
enum Given {
    /// The value, which the entry then holds.
    Kept(Scalar<'static>),
    /// The value, and the entry is unchanged.
    Passed(Scalar<'static>),
    /// Absent, and the next contents of the entry.
    Absent(Previous<'static>),
    /// A fault.
    Fault(Code),
}

use Given::{Absent, Fault, Kept, Passed};
use Previous::{Assigned, Empty, Undefined};
use Scalar::{Ascii, Dec, I, U, Unicode};
use Sent::{DecimalDelta, IntegerDelta, Nothing, Null, TextDelta};

/// Returns the expected result of a field of this type.
fn wanted(
    kind: Kind,
    previous: Previous<'static>,
    given: Given,
) -> Result<Outcome<'static>, Failed> {
    match given {
        Kept(value) => Ok(Outcome {
            value: Some(value),
            next: Assigned(kind, value),
        }),
        Passed(value) => Ok(Outcome {
            value: Some(value),
            next: previous,
        }),
        Absent(next) => Ok(Outcome { value: None, next }),
        Fault(code) => Err(Failed::Fault(code)),
    }
}

const GREATEST_32: Scalar<'static> = U(4_294_967_295);

const HIGH: Scalar<'static> = Dec {
    exponent: 63,
    mantissa: 1,
};

const LAST: Scalar<'static> = Dec {
    exponent: 62,
    mantissa: 9_223_372_036_854_775_807,
};

const E_ACUTE: Scalar<'static> = Unicode(b"\xC3\xA9");

const HELD_E_ACUTE: Previous<'static> = Assigned(Kind::Unicode, E_ACUTE);

const HELD_ZZGEM6: Previous<'static> = Assigned(Kind::Ascii, Ascii(b"ZZGEM6"));

const HELD_FIVE: Previous<'static> = Assigned(Kind::Int32, I(5));

const HELD_HIGH: Previous<'static> = Assigned(Kind::Decimal, HIGH);

/// Fields, with the contents of the entry, the presence bit, the content of the stream, and the result. They are one flat list, since lists
/// within a list are slow to prove if they hold bytes.
#[rattlefmt::skip]
const EXAMPLES: &[Example] = &[
    ((Operator::Tail, Kind::Ascii, false), Undefined, true, Sent::Value(Ascii(b"ABCDE")), Kept(Ascii(b"ABCDE"))),
    ((Operator::Tail, Kind::Ascii, false), Assigned(Kind::Ascii, Ascii(b"ABCDE")), true, Sent::Value(Ascii(b"XY")), Kept(Ascii(b"ABCXY"))),
    ((Operator::Tail, Kind::Ascii, false), Assigned(Kind::Ascii, Ascii(b"ABCXY")), false, Nothing, Kept(Ascii(b"ABCXY"))),
    ((Operator::Delta, Kind::Ascii, false), Undefined, true, TextDelta(0, b"GEH6"), Kept(Ascii(b"GEH6"))),
    ((Operator::Delta, Kind::Ascii, false), Assigned(Kind::Ascii, Ascii(b"GEH6")), true, TextDelta(2, b"M6"), Kept(Ascii(b"GEM6"))),
    ((Operator::Delta, Kind::Ascii, false), Assigned(Kind::Ascii, Ascii(b"GEM6")), true, TextDelta(-1, b"ZZ"), Kept(Ascii(b"ZZGEM6"))),
    ((Operator::Delta, Kind::Ascii, false), HELD_ZZGEM6, true, TextDelta(7, b""), Fault(Code::D7)),
    ((Operator::Delta, Kind::Ascii, false), HELD_ZZGEM6, true, TextDelta(-8, b""), Fault(Code::D7)),
    ((Operator::Delta, Kind::Ascii, false), HELD_ZZGEM6, true, TextDelta(-7, b"A"), Kept(Ascii(b"A"))),
    ((Operator::Delta, Kind::Ascii, false), Undefined, true, TextDelta(2_147_483_647, b""), Fault(Code::D7)),
    ((Operator::Delta, Kind::Ascii, false), Undefined, true, TextDelta(-2_147_483_648, b""), Fault(Code::D7)),
    ((Operator::Increment, Kind::UInt32, false), Undefined, true, Sent::Value(GREATEST_32), Kept(GREATEST_32)),
    ((Operator::Increment, Kind::UInt32, false), Assigned(Kind::UInt32, GREATEST_32), false, Nothing, Kept(U(0))),
    ((Operator::Increment, Kind::UInt32, false), Assigned(Kind::UInt32, U(0)), false, Nothing, Kept(U(1))),
    ((Operator::Increment, Kind::UInt64, false), Assigned(Kind::UInt64, U(18_446_744_073_709_551_615)), false, Nothing, Kept(U(0))),
    ((Operator::Increment, Kind::Int32, false), Assigned(Kind::Int32, I(2_147_483_647)), false, Nothing, Kept(I(-2_147_483_648))),
    ((Operator::Increment, Kind::Int32, false), Assigned(Kind::Int32, I(63)), false, Nothing, Kept(I(64))),
    ((Operator::Copy, Kind::UInt32, true), Undefined, true, Sent::Value(U(0)), Kept(U(0))),
    ((Operator::Copy, Kind::UInt32, true), Assigned(Kind::UInt32, U(0)), true, Null, Absent(Empty)),
    ((Operator::Copy, Kind::UInt32, true), Empty, false, Nothing, Absent(Empty)),
    ((Operator::Copy, Kind::UInt32, true), Undefined, false, Nothing, Absent(Empty)),
    ((Operator::Copy, Kind::UInt32, false), Undefined, false, Nothing, Fault(Code::D5)),
    ((Operator::Copy, Kind::Ascii, false), Assigned(Kind::UInt32, U(0)), false, Nothing, Fault(Code::D4)),
    ((Operator::Delta, Kind::Int32, true), Undefined, true, IntegerDelta(5), Kept(I(5))),
    ((Operator::Delta, Kind::Int32, true), HELD_FIVE, true, Null, Absent(HELD_FIVE)),
    ((Operator::Delta, Kind::Int32, true), HELD_FIVE, true, IntegerDelta(1), Kept(I(6))),
    ((Operator::Delta, Kind::Int32, true), Undefined, true, IntegerDelta(590_295_810_358_705_651_710), Fault(Code::D2)),
    ((Operator::Delta, Kind::Int32, true), HELD_FIVE, true, IntegerDelta(2_147_483_643), Fault(Code::D2)),
    ((Operator::Delta, Kind::Int32, true), HELD_FIVE, true, IntegerDelta(2_147_483_642), Kept(I(2_147_483_647))),
    ((Operator::Delta, Kind::Int32, true), Empty, true, Null, Absent(Empty)),
    ((Operator::None, Kind::Unicode, false), Undefined, true, Sent::Value(E_ACUTE), Passed(E_ACUTE)),
    ((Operator::None, Kind::Unicode, false), Undefined, true, Sent::Value(Unicode(b"\xC3\x28")), Fault(Code::R2)),
    ((Operator::Delta, Kind::Unicode, false), Undefined, true, TextDelta(0, b"\xC3\xA9"), Kept(E_ACUTE)),
    ((Operator::Delta, Kind::Unicode, false), HELD_E_ACUTE, true, TextDelta(1, b""), Fault(Code::R2)),
    ((Operator::Delta, Kind::Unicode, false), HELD_E_ACUTE, true, TextDelta(1, b"\xA8"), Kept(Unicode(b"\xC3\xA8"))),
    ((Operator::Delta, Kind::Decimal, false), Undefined, true, DecimalDelta(63, 1), Kept(HIGH)),
    ((Operator::Delta, Kind::Decimal, false), Undefined, true, DecimalDelta(64, 1), Fault(Code::R1)),
    ((Operator::Delta, Kind::Decimal, false), HELD_HIGH, true, DecimalDelta(-1, 9_223_372_036_854_775_806), Kept(LAST)),
    ((Operator::Delta, Kind::Decimal, false), HELD_HIGH, true, DecimalDelta(0, 9_223_372_036_854_775_807), Fault(Code::R1)),
    ((Operator::Delta, Kind::Decimal, false), HELD_HIGH, true, DecimalDelta(-127, 0), Fault(Code::R1)),
];

/// Returns whether the field gives the expected result.
fn is_given(alloc: Global, example: &Example) -> Result<bool, AllocError> {
    let ((operator, kind, optional), previous, bit, sent, given) = *example;
    let field = instruction(alloc, operator, kind, optional, None)?;
    let mut buffer = Vec::new(alloc);
    let answer = answer(&field, previous, bit, sent, &mut buffer);
    Ok(is_same_answer(answer, wanted(kind, previous, given)))
}

#[test]
fn fields_give_what_is_wanted(rt: HostRuntime) -> Result<(), Fail> {
    for (k, example) in EXAMPLES.iter().enumerate() {
        let is_given = is_given(rt.alloc(), example)?;
        expect(&rt, is_given, "example", k);
    }
    Ok(())
}

#[test]
fn texts_are_within_the_limit(rt: HostRuntime) {
    let is_right = sized(16, 16) == Ok(16) && sized(17, 16) == Err(Code::L1);
    expect(&rt, is_right, "sizes", 16);
}
