//! The table of the operators, for each type.

use super::super::expect;
use super::rows::{Presence, ROWS, Row, Sample, Start, Then, Way};
use super::{Failed, answer, instruction, is_same_answer};
use fast_dict::operators::{Outcome, Sent};
use fast_dict::previous::Previous;
use fast_tree::{FieldInstruction, Operator};
use fast_value::{Kind, Scalar};
use std::alloc::{AllocError, Global};
use std::process::Abort;
use std::test::Fail;

/// The values of one type for those of the rows.
#[derive(Clone, Copy)]
struct Samples {
    kind: Kind,
    /// A previous value of another type.
    other: Previous<'static>,
    initial: Scalar<'static>,
    previous: Scalar<'static>,
    sent: Scalar<'static>,
    raised: Scalar<'static>,
    delta: Sent<'static>,
    /// The delta on the previous value, on the initial value, on 0 or the empty string.
    changed: [Scalar<'static>; 3],
    /// The sent value as a tail, in the same order.
    replaced: [Scalar<'static>; 3],
}

/// Returns whether an operator suits a type.
fn suits(operator: Operator, kind: Kind) -> bool {
    match kind {
        Kind::UInt32 | Kind::Int32 | Kind::UInt64 | Kind::Int64 => operator != Operator::Tail,
        Kind::Decimal => operator != Operator::Tail && operator != Operator::Increment,
        Kind::Ascii | Kind::Unicode | Kind::Bytes => operator != Operator::Increment,
    }
}

/// Returns a value of the samples, under an operator.
fn sample(samples: &Samples, operator: Operator, which: Sample) -> Scalar<'static> {
    let [on_previous, on_initial, on_nothing] = if operator == Operator::Tail {
        samples.replaced
    } else {
        samples.changed
    };
    match which {
        Sample::Sent => samples.sent,
        Sample::Initial => samples.initial,
        Sample::Previous => samples.previous,
        Sample::Raised => samples.raised,
        Sample::OnPrevious => on_previous,
        Sample::OnInitial => on_initial,
        Sample::OnNothing => on_nothing,
    }
}

/// Returns the expected result of a row.
fn wanted(
    samples: &Samples,
    operator: Operator,
    previous: Previous<'static>,
    then: Then,
) -> Result<Outcome<'static>, Failed> {
    match then {
        Then::Kept(which) => {
            let value = sample(samples, operator, which);
            Ok(Outcome {
                value: Some(value),
                next: Previous::Assigned(samples.kind, value),
            })
        }
        Then::Given(which) => Ok(Outcome {
            value: Some(sample(samples, operator, which)),
            next: previous,
        }),
        Then::AsItWas => Ok(Outcome {
            value: None,
            next: previous,
        }),
        Then::Emptied => Ok(Outcome {
            value: None,
            next: Previous::Empty,
        }),
        Then::Fault(code) => Err(Failed::Fault(code)),
    }
}

/// Returns whether a row holds for a type, for all contents of the entry.
fn stands(alloc: Global, samples: &Samples, row: Row) -> Result<bool, AllocError> {
    let (operator, presence, start, way, (undefined, empty, same, other)) = row;
    let initial = match start {
        Start::With => Some(samples.initial),
        Start::Without => None,
    };
    let optional = presence == Presence::Optional;
    let field = instruction(alloc, operator, samples.kind, optional, initial)?;
    let entries = [
        (Previous::Undefined, undefined),
        (Previous::Empty, empty),
        (Previous::Assigned(samples.kind, samples.previous), same),
        (samples.other, other),
    ];
    Ok(all_give(alloc, samples, &field, way, &entries))
}

/// Returns whether the field gives the expected result under each of these previous values.
fn all_give(
    alloc: Global,
    samples: &Samples,
    field: &FieldInstruction,
    way: Way,
    entries: &[(Previous<'static>, Then)],
) -> bool {
    for (previous, then) in entries {
        if !gives(alloc, samples, field, way, *previous, *then) {
            return false;
        }
    }
    true
}

/// Returns whether the field gives the expected result under a previous value.
fn gives(
    alloc: Global,
    samples: &Samples,
    field: &FieldInstruction,
    way: Way,
    previous: Previous<'static>,
    then: Then,
) -> bool {
    let sent = match way {
        Way::Unsent | Way::Set => Sent::Nothing,
        Way::Null => Sent::Null,
        Way::Item if field.operator == Operator::Delta => samples.delta,
        Way::Item => Sent::Value(samples.sent),
    };
    let mut buffer = Vec::new(alloc);
    let given = answer(field, previous, way != Way::Unsent, sent, &mut buffer);
    is_same_answer(given, wanted(samples, field.operator, previous, then))
}

/// Returns whether each row that suits the type holds.
fn all_stand(alloc: Global, samples: &Samples) -> Result<bool, AllocError> {
    for row in &ROWS {
        let (operator, ..) = *row;
        if suits(operator, samples.kind) && !stands(alloc, samples, *row)? {
            return Ok(false);
        }
    }
    Ok(true)
}

/// Returns the samples of an unsigned type.
fn unsigned(kind: Kind) -> Samples {
    let changed = [Scalar::U(8), Scalar::U(10), Scalar::U(3)];
    Samples {
        kind,
        other: Previous::Assigned(Kind::Int32, Scalar::I(5)),
        initial: Scalar::U(7),
        previous: Scalar::U(5),
        sent: Scalar::U(9),
        raised: Scalar::U(6),
        delta: Sent::IntegerDelta(3),
        changed,
        replaced: changed,
    }
}

/// Returns the samples of a signed type.
fn signed(kind: Kind) -> Samples {
    let changed = [Scalar::I(-8), Scalar::I(4), Scalar::I(-3)];
    Samples {
        kind,
        other: Previous::Assigned(Kind::UInt32, Scalar::U(5)),
        initial: Scalar::I(7),
        previous: Scalar::I(-5),
        sent: Scalar::I(-9),
        raised: Scalar::I(-4),
        delta: Sent::IntegerDelta(-3),
        changed,
        replaced: changed,
    }
}

/// Returns a decimal.
fn decimal(exponent: i32, mantissa: i64) -> Scalar<'static> {
    Scalar::Dec { exponent, mantissa }
}

/// Returns the samples of decimals.
fn decimals() -> Samples {
    let changed = [decimal(1, 12), decimal(3, 4), decimal(2, -3)];
    Samples {
        kind: Kind::Decimal,
        other: Previous::Assigned(Kind::Int64, Scalar::I(5)),
        initial: decimal(1, 7),
        previous: decimal(-1, 15),
        sent: decimal(0, -942),
        raised: decimal(0, 0),
        delta: Sent::DecimalDelta(2, -3),
        changed,
        replaced: changed,
    }
}

/// Returns a string of a type.
fn text(kind: Kind, bytes: &'static [u8]) -> Scalar<'static> {
    match kind {
        Kind::Unicode => Scalar::Unicode(bytes),
        Kind::Bytes => Scalar::Bytes(bytes),
        _ => Scalar::Ascii(bytes),
    }
}

/// Returns the samples of a string type.
fn texts(kind: Kind, other: Kind) -> Samples {
    Samples {
        kind,
        other: Previous::Assigned(other, text(other, b"ABCDE")),
        initial: text(kind, b"ABC"),
        previous: text(kind, b"ABCDE"),
        sent: text(kind, b"XY"),
        raised: text(kind, b""),
        delta: Sent::TextDelta(-1, b"XY"),
        changed: [
            text(kind, b"XYABCDE"),
            text(kind, b"XYABC"),
            text(kind, b"XY"),
        ],
        replaced: [text(kind, b"ABCXY"), text(kind, b"AXY"), text(kind, b"XY")],
    }
}

/// Checks that each row that suits the type holds.
fn expect_all(rt: &impl Abort, alloc: Global, samples: &Samples) -> Result<(), Fail> {
    let all_stand = all_stand(alloc, samples)?;
    expect(rt, all_stand, "the kind", samples.kind as usize);
    Ok(())
}

#[test]
fn each_row_stands_at_each_kind(rt: HostRuntime) -> Result<(), Fail> {
    for samples in &[
        unsigned(Kind::UInt32),
        unsigned(Kind::UInt64),
        signed(Kind::Int32),
        signed(Kind::Int64),
        decimals(),
        texts(Kind::Ascii, Kind::Unicode),
        texts(Kind::Unicode, Kind::Bytes),
        texts(Kind::Bytes, Kind::Ascii),
    ] {
        expect_all(&rt, rt.alloc(), samples)?;
    }
    Ok(())
}
