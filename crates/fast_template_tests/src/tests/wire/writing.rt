//! Integers as they are written.

ghost use Rattle.std.specs.Prelude.{◌≤◌, ◌^◌, IfSome, unsigned_abs};

use super::expect;
use Number::{NullableSigned, NullableUnsigned, Signed, Unsigned};
use fast_wire::{
    Entity, write_nullable_signed, write_nullable_unsigned, write_signed, write_unsigned,
};

/// An integer, and the function that writes it.
#[derive(Clone, Copy)]
enum Number {
    Unsigned(u64),
    NullableUnsigned(Option<u64>),
    Signed(i64),
    NullableSigned(Option<i64>),
}

/// Returns the integer in 128 bits.
fn nullable(number: Option<i64>) -> Option<i128>
    ensures { IfSome result (λ n. unsigned_abs n ≤ 2 ^ 63) }
{
    Some(i128::from(number?))
}

/// Returns the entity that is written for it.
fn written(number: Number) -> Entity {
    match number {
        Unsigned(number) => write_unsigned(number),
        NullableUnsigned(number) => write_nullable_unsigned(number),
        Signed(number) => write_signed(i128::from(number)),
        NullableSigned(number) => write_nullable_signed(nullable(number)),
    }
}

#[rattlefmt::skip]
const WRITTEN: &[(Number, &[u8])] = &[
    (Unsigned(942_755), &[0x39, 0x45, 0xa3]),
    (Unsigned(0), &[0x80]),
    (NullableUnsigned(None), &[0x80]),
    (NullableUnsigned(Some(0xffff_ffff)), &[0x10, 0, 0, 0, 0x80]),
    (Signed(-942_755), &[0x46, 0x3a, 0xdd]),
    (Signed(8193), &[0x00, 0x40, 0x81]),
    (Signed(-8193), &[0x7f, 0x3f, 0xff]),
    (NullableSigned(None), &[0x80]),
    (NullableSigned(Some(i64::MAX)), &[0x01, 0, 0, 0, 0, 0, 0, 0, 0, 0x80]),
    (NullableSigned(Some(i64::MIN)), &[0x7f, 0, 0, 0, 0, 0, 0, 0, 0, 0x80]),
];

#[test]
fn written_integers(rt: HostRuntime) {
    for (number, bytes) in WRITTEN {
        let is_right = written(*number).as_slice() == *bytes;
        expect(&rt, is_right, "written", bytes);
    }
}
