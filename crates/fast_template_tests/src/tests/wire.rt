//! Rows of bytes, worked out by hand.

mod maps;
mod writing;

ghost use Rattle.std.specs.Prelude.{◌≤◌, IfSome, length};
ghost use Rattle.fast_wire.specs.meaning.Entities.{IsEntity};

use WireFault::{D2, R6};
use arrayvec::ArrayVec;
use fast_fronts::{
    First, Rest, first_nullable_signed, first_nullable_unsigned, first_signed, first_unsigned,
    one_byte_delta, short_entity, whole_delta, whole_signed, whole_unsigned,
};
use fast_wire::{
    Entity, Step, WireFault, read_nullable_signed, read_nullable_unsigned, read_signed,
    read_unsigned,
};
use std::process::Abort;

const I64_LOW: i128 = -0x8000_0000_0000_0000;

const I64_TOP: i128 = 0x7fff_ffff_ffff_ffff;

const U32_TOP: u64 = 0xffff_ffff;

/// Returns the entity of these bytes, if they are one.
fn entity(bytes: &[u8]) -> Option<Entity>
    ensures { IfSome result (λ e. IsEntity e × (length e ≤ 10)) }
{
    let mut entity = Entity::new();
    for byte in bytes {
        match entity.push(*byte) {
            Step::More => {}
            Step::Whole => return Some(entity),
            Step::TooLong => return None,
        }
    }
    None
}

/// Returns the bytes with eight more after them, so that a short entity is read as a word.
fn followed(bytes: &[u8]) -> ArrayVec<u8, 24> {
    let mut all = ArrayVec::new();
    for byte in bytes.iter().chain(&[0x80; 8]) {
        let _ = all.try_push(*byte);
    }
    all
}

/// Returns the result for an integer that may be NULL, by that for a mandatory one.
fn or_null<T: Copy>(want: Result<T, WireFault>) -> Result<Option<T>, WireFault> {
    match want {
        Ok(number) => Ok(Some(number)),
        Err(fault) => Err(fault),
    }
}

/// Returns the result of reading these bytes at once: the integer and its length, if it is one and short. An unsigned one with a zero in
/// front is not read so.
fn at_once<T: Copy>(
    want: Result<Option<T>, WireFault>,
    bytes: &[u8],
    signed: bool,
) -> Option<(Option<T>, usize)> {
    let has_zero_front = !signed && bytes.first() == Some(&0);
    match want {
        Ok(number) if bytes.len() <= 8 && !has_zero_front => Some((number, bytes.len())),
        _ => None,
    }
}

/// Returns the result of reading a signed integer at once in 128 bits.
fn widened(answer: Option<(Option<i64>, usize)>) -> Option<(Option<i128>, usize)> {
    let (number, len) = answer?;
    match number {
        Some(number) => Some((Some(i128::from(number)), len)),
        None => Some((None, len)),
    }
}

/// Returns whether the integer in front is read at once as it should be, whether entities are mostly short or not.
fn unsigned_at_once(
    all: &[u8],
    nullable: bool,
    strict: bool,
    top: u64,
    want: Option<(Option<u64>, usize)>,
) -> bool {
    if top < 268_435_455 {
        return false;
    }
    let rest = Rest::new(all);
    whole_unsigned(rest, nullable, strict, top, true) == want
        && whole_unsigned(rest, nullable, strict, top, false) == want
}

/// Returns the same of a signed integer of 64 bits.
fn signed_at_once(
    all: &[u8],
    nullable: bool,
    strict: bool,
    want: Option<(Option<i128>, usize)>,
) -> bool {
    let rest = Rest::new(all);
    widened(whole_signed(rest, nullable, strict, i64::MIN, i64::MAX, true)) == want
        && widened(whole_signed(rest, nullable, strict, i64::MIN, i64::MAX, false)) == want
}

/// Returns the result of reading an integer at the front of a slice, after which further bytes change nothing.
fn first_answer<T: Copy>(want: Result<T, WireFault>, len: usize) -> First<T> {
    match want {
        Ok(number) => First::Whole(number, len),
        Err(fault) => First::Wrong(fault, len),
    }
}

/// Makes one comparison of a row, which one call of a small function makes cheap to prove.
fn expect(rt: &impl Abort, is_right: bool, how: &str, bytes: &[u8]) {
    assert!(rt; is_right, "{how} {bytes:?}");
}

/// Makes several comparisons. A failure reports the number of the one that failed.
fn expect_each(rt: &impl Abort, are_right: &[bool], bytes: &[u8]) {
    for (k, is_right) in are_right.iter().enumerate() {
        assert!(rt; *is_right, "answer {k} of {bytes:?}");
    }
}

/// Checks the results of a row: of the bytes alone, of the bytes with others after them, of those that are read at once there, and of
/// the entity, if they are one.
fn unsigned_row(
    rt: &impl Abort,
    bytes: &[u8],
    strict: bool,
    top: u64,
    want: Result<u64, WireFault>,
) {
    let len = bytes.len();
    let all = followed(bytes);
    let all = all.as_slice();
    let first = first_answer(want, len);
    let is_read = match entity(bytes) {
        Some(entity) => read_unsigned(entity.as_slice(), strict, top) == want,
        None => true,
    };
    let are_right = [
        first_unsigned(bytes, strict, top) == first,
        first_unsigned(all, strict, top) == first,
        unsigned_at_once(
            all,
            false,
            strict,
            top,
            at_once(or_null(want), bytes, false),
        ),
        is_read,
    ];
    expect_each(rt, &are_right, bytes);
}

fn nullable_unsigned_row(
    rt: &impl Abort,
    bytes: &[u8],
    strict: bool,
    top: u64,
    want: Result<Option<u64>, WireFault>,
) {
    let len = bytes.len();
    let all = followed(bytes);
    let all = all.as_slice();
    let first = first_answer(want, len);
    let is_read = match entity(bytes) {
        Some(entity) => read_nullable_unsigned(entity.as_slice(), strict, top) == want,
        None => true,
    };
    let are_right = [
        first_nullable_unsigned(bytes, strict, top) == first,
        first_nullable_unsigned(all, strict, top) == first,
        unsigned_at_once(all, true, strict, top, at_once(want, bytes, false)),
        is_read,
    ];
    expect_each(rt, &are_right, bytes);
}

fn signed_row(rt: &impl Abort, bytes: &[u8], strict: bool, want: Result<i128, WireFault>) {
    let len = bytes.len();
    let all = followed(bytes);
    let all = all.as_slice();
    let first = first_answer(want, len);
    let is_read = match entity(bytes) {
        Some(entity) => read_signed(entity.as_slice(), strict, I64_LOW, I64_TOP) == want,
        None => true,
    };
    let are_right = [
        first_signed(bytes, strict, I64_LOW, I64_TOP) == first,
        first_signed(all, strict, I64_LOW, I64_TOP) == first,
        signed_at_once(all, false, strict, at_once(or_null(want), bytes, true)),
        is_read,
    ];
    expect_each(rt, &are_right, bytes);
}

fn nullable_signed_row(
    rt: &impl Abort,
    bytes: &[u8],
    strict: bool,
    want: Result<Option<i128>, WireFault>,
) {
    let len = bytes.len();
    let all = followed(bytes);
    let all = all.as_slice();
    let first = first_answer(want, len);
    let is_read = match entity(bytes) {
        Some(entity) => read_nullable_signed(entity.as_slice(), strict, I64_LOW, I64_TOP) == want,
        None => true,
    };
    let are_right = [
        first_nullable_signed(bytes, strict, I64_LOW, I64_TOP) == first,
        first_nullable_signed(all, strict, I64_LOW, I64_TOP) == first,
        signed_at_once(all, true, strict, at_once(want, bytes, true)),
        is_read,
    ];
    expect_each(rt, &are_right, bytes);
}

/// Bytes, the greatest integer, and the results in lenient mode and in strict.
type UnsignedRow<T> = (
    &'static [u8],
    u64,
    Result<T, WireFault>,
    Result<T, WireFault>,
);

#[rattlefmt::skip]
const UNSIGNED_ROWS: &[UnsignedRow<u64>] = &[
    (&[0x81], U32_TOP, Ok(1), Ok(1)),
    (&[0x80], U32_TOP, Ok(0), Ok(0)),
    (&[0x39, 0x45, 0xa3], U32_TOP, Ok(942_755), Ok(942_755)),
    (&[0x0f, 0x7f, 0x7f, 0x7f, 0xff], U32_TOP, Ok(U32_TOP), Ok(U32_TOP)),
    (&[0x10, 0, 0, 0, 0x80], U32_TOP, Err(D2), Err(D2)),
    (&[1; 10], U32_TOP, Err(D2), Err(D2)),
    (&[0x00, 0x81], U32_TOP, Ok(1), Err(R6)),
    (&[0x01, 0x7f, 0x7f, 0x7f, 0x7f, 0x7f, 0x7f, 0x7f, 0x7f, 0xff], u64::MAX, Ok(u64::MAX), Ok(u64::MAX)),
    (&[0x02, 0, 0, 0, 0, 0, 0, 0, 0, 0x80], u64::MAX, Err(D2), Err(D2)),
    (&[0x7f, 0x7f, 0x7f, 0x7f, 0x7f, 0x7f, 0x7f, 0x7f, 0xff], u64::MAX, Ok(0x7fff_ffff_ffff_ffff), Ok(0x7fff_ffff_ffff_ffff)),
];

#[rattlefmt::skip]
const NULLABLE_UNSIGNED_ROWS: &[UnsignedRow<Option<u64>>] = &[
    (&[0x80], U32_TOP, Ok(None), Ok(None)),
    (&[0x81], U32_TOP, Ok(Some(0)), Ok(Some(0))),
    (&[0x10, 0, 0, 0, 0x80], U32_TOP, Ok(Some(U32_TOP)), Ok(Some(U32_TOP))),
    (&[0x10, 0, 0, 0, 0x81], U32_TOP, Err(D2), Err(D2)),
    (&[1; 10], u64::MAX, Err(D2), Err(D2)),
    (&[0x00, 0x80], U32_TOP, Ok(None), Err(R6)),
    (&[0x02, 0, 0, 0, 0, 0, 0, 0, 0, 0x80], u64::MAX, Ok(Some(u64::MAX)), Ok(Some(u64::MAX))),
    (&[0x7f, 0x7f, 0x7f, 0x7f, 0x7f, 0x7f, 0x7f, 0x7f, 0xff], u64::MAX, Ok(Some(0x7fff_ffff_ffff_fffe)), Ok(Some(0x7fff_ffff_ffff_fffe))),
];

/// Bytes, and the results in lenient mode and in strict, for all signed integers of 64 bits.
type SignedRow<T> = (&'static [u8], Result<T, WireFault>, Result<T, WireFault>);

#[rattlefmt::skip]
const SIGNED_ROWS: &[SignedRow<i128>] = &[
    (&[0x46, 0x3a, 0xdd], Ok(-942_755), Ok(-942_755)),
    (&[0x00, 0x40, 0x81], Ok(8193), Ok(8193)),
    (&[0x7f, 0x3f, 0xff], Ok(-8193), Ok(-8193)),
    (&[0xff], Ok(-1), Ok(-1)),
    (&[0xbf], Ok(63), Ok(63)),
    (&[0xc0], Ok(-64), Ok(-64)),
    (&[1; 10], Err(D2), Err(D2)),
    (&[0x00, 0xbf], Ok(63), Err(R6)),
    (&[0x7f, 0xc0], Ok(-64), Err(R6)),
    (&[0x00, 0x7f, 0x7f, 0x7f, 0x7f, 0x7f, 0x7f, 0x7f, 0x7f, 0xff], Ok(I64_TOP), Ok(I64_TOP)),
    (&[0x01, 0, 0, 0, 0, 0, 0, 0, 0, 0x80], Err(D2), Err(D2)),
    (&[0x7f, 0, 0, 0, 0, 0, 0, 0, 0, 0x80], Ok(I64_LOW), Ok(I64_LOW)),
    (&[0x40, 0, 0, 0, 0, 0, 0, 0, 0x80], Ok(I64_LOW / 2), Ok(I64_LOW / 2)),
];

#[rattlefmt::skip]
const NULLABLE_SIGNED_ROWS: &[SignedRow<Option<i128>>] = &[
    (&[0x80], Ok(None), Ok(None)),
    (&[0x81], Ok(Some(0)), Ok(Some(0))),
    (&[0xff], Ok(Some(-1)), Ok(Some(-1))),
    (&[0x00, 0x80], Ok(None), Err(R6)),
    (&[0x01, 0, 0, 0, 0, 0, 0, 0, 0, 0x80], Ok(Some(I64_TOP)), Ok(Some(I64_TOP))),
    (&[0x7f, 0, 0, 0, 0, 0, 0, 0, 0, 0x80], Ok(Some(I64_LOW)), Ok(Some(I64_LOW))),
];

/// Checks a row in both modes.
fn unsigned_in_both(rt: &impl Abort, row: &UnsignedRow<u64>) {
    let (bytes, top, lenient, strict) = row;
    unsigned_row(rt, bytes, false, *top, *lenient);
    unsigned_row(rt, bytes, true, *top, *strict);
}

fn nullable_unsigned_in_both(rt: &impl Abort, row: &UnsignedRow<Option<u64>>) {
    let (bytes, top, lenient, strict) = row;
    nullable_unsigned_row(rt, bytes, false, *top, *lenient);
    nullable_unsigned_row(rt, bytes, true, *top, *strict);
}

fn signed_in_both(rt: &impl Abort, row: &SignedRow<i128>) {
    let (bytes, lenient, strict) = row;
    signed_row(rt, bytes, false, *lenient);
    signed_row(rt, bytes, true, *strict);
}

fn nullable_signed_in_both(rt: &impl Abort, row: &SignedRow<Option<i128>>) {
    let (bytes, lenient, strict) = row;
    nullable_signed_row(rt, bytes, false, *lenient);
    nullable_signed_row(rt, bytes, true, *strict);
}

#[test]
fn unsigned_integers(rt: HostRuntime) {
    for row in UNSIGNED_ROWS {
        unsigned_in_both(&rt, row);
    }
    for row in NULLABLE_UNSIGNED_ROWS {
        nullable_unsigned_in_both(&rt, row);
    }
}

#[test]
fn signed_integers(rt: HostRuntime) {
    for row in SIGNED_ROWS {
        signed_in_both(&rt, row);
    }
    for row in NULLABLE_SIGNED_ROWS {
        nullable_signed_in_both(&rt, row);
    }
}

#[test]
fn cut_integers(rt: HostRuntime) {
    let are_right = [
        first_unsigned(&[], true, 5) == First::Cut,
        first_nullable_unsigned(&[0], true, 5) == First::Cut,
        first_nullable_signed(&[0x7f; 9], true, -5, 5) == First::Cut,
        first_signed(&[0x7f; 8], true, -5, 5) == First::Cut,
        first_signed(&[0x7f; 10], true, -5, 5) == First::Wrong(D2, 10),
    ];
    expect_each(&rt, &are_right, &[]);
}

/// Returns whether the bytes, with none after them, are read as an entity of this number.
fn ends_as(bytes: &[u8], number: u64) -> bool {
    match short_entity(bytes) {
        Some(short) => short.number == number && short.len == bytes.len(),
        None => false,
    }
}

#[test]
fn entities_that_end_a_piece(rt: HostRuntime) {
    let are_right = [
        ends_as(&[0x81], 1),
        ends_as(&[1, 0x81], 0x81),
        ends_as(&[1, 0, 0x81], 0x4001),
        ends_as(&[1, 0, 0, 0x81], 0x20_0001),
        ends_as(&[1, 0, 0, 0, 0x81], 0x1000_0001),
        ends_as(&[1, 0, 0, 0, 0, 0x81], 0x8_0000_0001),
        ends_as(&[1, 0, 0, 0, 0, 0, 0x81], 0x400_0000_0001),
        ends_as(&[1, 0, 0, 0, 0, 0, 0, 0x81], 0x2_0000_0000_0001),
        short_entity(&[1, 0, 0, 0, 0, 1]).is_none(),
    ];
    expect_each(&rt, &are_right, &[]);
}

/// Reads the integers of a piece, each from what is left of it. Returns their sum, and the number of bytes that are left after the last.
fn summed(piece: &[u8]) -> (u64, usize) {
    let mut rest = Rest::new(piece);
    let mut sum: u64 = 0;
    for _ in piece {
        let Some((Some(number), len)) = whole_unsigned(rest, false, true, U32_TOP, true) else {
            break;
        };
        sum = sum.wrapping_add(number);
        rest = rest.skip(len);
    }
    (sum, rest.bytes.len())
}

#[test]
fn integers_that_are_left(rt: HostRuntime) {
    let are_right = [
        summed(&[]) == (0, 0),
        summed(&[0x81]) == (1, 0),
        summed(&[1, 0, 0x81, 0x82, 3]) == (0x4003, 1),
        summed(&[1, 0x80, 1, 0, 0x80, 0x83, 4, 0x80]) == (0x4283, 0),
        summed(&[
            1, 0, 0x80, 1, 0x80, 1, 0, 0, 0x80, 1, 0, 0x80, 1, 0x80, 0x85,
        ]) == (0x20_8105, 0),
        whole_signed(
            Rest::new(&[0x7f, 0x80]),
            false,
            false,
            i64::MIN,
            i64::MAX,
            true,
        ) == Some((Some(-128), 2)),
        whole_delta(Rest::new(&[0x80, 0x81]).skip(1), true, false) == Some((Some(0), 1)),
        whole_delta(Rest::new(&[0x80]), true, false) == Some((None, 1)),
        one_byte_delta(&[0xff], false) == Some(Some(-1)),
    ];
    expect_each(&rt, &are_right, &[]);
}

#[test]
fn entities_byte_by_byte(rt: HostRuntime) {
    let mut w = Entity::new();
    expect(&rt, w.is_empty(), "empty", &[]);
    for len in 0..9 {
        // the loop's invariant needs what is asserted here
        assert!(rt; w.len() == len);
        assert!(rt; w.push(1) == Step::More);
    }
    let is_too_long = w.push(1) == Step::TooLong;
    expect(&rt, is_too_long, "too long", w.as_slice());
    let begins_anew = begins_anew(&mut w);
    expect(&rt, begins_anew, "whole", w.as_slice());
}

/// Returns whether an entity that is cleared is complete after two bytes, and holds them.
fn begins_anew(w: &mut Entity) -> bool {
    w.clear();
    let is_whole = w.push(0x7f) == Step::More && w.push(0x80) == Step::Whole;
    is_whole && w.as_slice() == [0x7f, 0x80].as_slice()
}
