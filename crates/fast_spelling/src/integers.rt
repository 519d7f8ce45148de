//! Integers in their shortest encoding. Up to five bytes, and up to eight of unsigned integers, are written directly, longer ones through an
//! array.

mod long;

ghost use Rattle.std.specs.Prelude.{◌++◌, ◌∷◌, [], ◌≡◌, ◌<◌, ◌≤◌, ◌+◌, ◌-◌, ◌*◌, ◌^◌, ◌<ℤ◌, ◌≤ℤ◌, ◌-ℤ◌, Some, pos, negsuc, true, false, vec_len, vec_capacity, OnOk};
ghost use Rattle.fast_wire.specs.meaning.Integers.{signed_range, IsWithin, Means};
ghost use Rattle.fast_wire.specs.meaning.Shortest.{IsShortest};
ghost use Rattle.fast_spelling.specs.device.Drafts.{Adds};
ghost use Rattle.fast_spelling.specs.device.Groups.{IsGroups, IsLeast};

use long::{long_groups, push_long_groups, write_huge_unsigned, write_long_signed};
use std::alloc::AllocError;

/// The spare capacity, in bytes, that is enough to append such an integer.
const ROOM: usize = 5;

/// The least unsigned integer, and the least non-negative signed one, whose nullable form has more than five bytes.
const LONG_UNSIGNED: u64 = (1 << 35) - 1;

const LONG_NUMBER: u64 = (1 << 34) - 1;

/// The least number of more than five groups of seven bits.
const LONG_SUM: u64 = 1 << 35;

/// The least unsigned integer whose nullable form has more than eight bytes.
const HUGE_UNSIGNED: u64 = (1 << 56) - 1;

/// The least complement (`-1 - number`) of a negative integer that has more than five bytes.
const LONG_COMPLEMENT: u64 = 1 << 34;

/// Writes an unsigned integer. The code for a single byte is inlined.
#[inline(always)]
pub fn write_unsigned_as(bytes: &mut Vec<u8>, nullable: bool, number: u64) -> Result<(), AllocError>
    ensures { OnOk result (Adds (IsShortest false nullable (Some (pos number))) bytes.old.items bytes.new.items) }
{
    if number < 0x7f {
        return push_one(bytes, raised(nullable, number));
    }
    write_wide_unsigned(bytes, nullable, number)
}

/// Writes an unsigned integer of any length.
fn write_wide_unsigned(bytes: &mut Vec<u8>, nullable: bool, number: u64) -> Result<(), AllocError>
    ensures { OnOk result (Adds (IsShortest false nullable (Some (pos number))) bytes.old.items bytes.new.items) }
{
    if number >= LONG_UNSIGNED || bytes.capacity() - bytes.len() < ROOM {
        return write_long_unsigned(bytes, nullable, number);
    }
    let sent = raised(nullable, number);
    push_groups(bytes, sent, groups(sent));
    Ok(())
}

/// Writes a signed integer of 64 bits. The code for a single byte is inlined.
#[inline(always)]
pub fn write_narrow_as(bytes: &mut Vec<u8>, nullable: bool, number: i64) -> Result<(), AllocError>
    ensures { OnOk result (Adds (IsShortest true nullable (Some number)) bytes.old.items bytes.new.items) }
{
    if number < 0 {
        return write_negative(bytes, nullable, complement_in(number));
    }
    write_natural(bytes, nullable, natural_in(number))
}

/// Writes the signed integer `-1 - complement`. The code for a single byte is inlined.
#[inline(always)]
fn write_negative(bytes: &mut Vec<u8>, nullable: bool, complement: u64) -> Result<(), AllocError>
    ensures { OnOk result (Adds (IsShortest true nullable (Some (negsuc complement))) bytes.old.items bytes.new.items) }
{
    if complement < 0x40 {
        return push_one(bytes, 0x7f - complement);
    }
    write_wide_negative(bytes, nullable, complement)
}

/// Writes the signed integer `-1 - complement`, of any length.
fn write_wide_negative(
    bytes: &mut Vec<u8>,
    nullable: bool,
    complement: u64,
) -> Result<(), AllocError>
    ensures { OnOk result (Adds (IsShortest true nullable (Some (negsuc complement))) bytes.old.items bytes.new.items) }
{
    if complement >= LONG_COMPLEMENT || bytes.capacity() - bytes.len() < ROOM {
        return write_long_signed(bytes, nullable, negative_of(complement));
    }
    push_negative(bytes, complement);
    Ok(())
}

/// Returns the negative integer `-1 - complement`.
#[inline(always)]
fn negative_of(complement: u64) -> i128
    ensures value { result ≡ negsuc complement }
{
    -1 - i128::from(complement)
}

/// Writes a non-negative integer as a signed integer. The code for a single byte is inlined.
#[inline(always)]
fn write_natural(bytes: &mut Vec<u8>, nullable: bool, number: u64) -> Result<(), AllocError>
    ensures { OnOk result (Adds (IsShortest true nullable (Some (pos number))) bytes.old.items bytes.new.items) }
{
    if number < 0x3f {
        return push_one(bytes, raised(nullable, number));
    }
    write_wide_natural(bytes, nullable, number)
}

/// Writes a non-negative integer of any length as a signed integer.
fn write_wide_natural(bytes: &mut Vec<u8>, nullable: bool, number: u64) -> Result<(), AllocError>
    ensures { OnOk result (Adds (IsShortest true nullable (Some (pos number))) bytes.old.items bytes.new.items) }
{
    if number >= LONG_NUMBER || bytes.capacity() - bytes.len() < ROOM {
        return write_long_signed(bytes, nullable, i128::from(number));
    }
    push_natural(bytes, raised(nullable, number));
    Ok(())
}

/// Returns a non-negative integer of 64 bits as unsigned.
#[inline(always)]
fn natural_in(number: i64) -> u64
    requires { pos 0 ≤ℤ number }
    ensures { number ≡ pos result }
{
    number as u64
}

/// Returns the complement, `-1 - number`, of a negative integer of 64 bits.
#[inline(always)]
fn complement_in(number: i64) -> u64
    requires { number <ℤ pos 0 }
    ensures { number ≡ negsuc result }
{
    (-1 - number) as u64
}

/// Writes the difference of two unsigned integers, `a` minus `b`.
#[inline(always)]
pub fn write_unsigned_apart(
    bytes: &mut Vec<u8>,
    nullable: bool,
    a: u64,
    b: u64,
) -> Result<(), AllocError>
    ensures { OnOk result
        (Adds (IsShortest true nullable (Some (pos a -ℤ pos b))) bytes.old.items bytes.new.items) }
{
    if a >= b {
        return write_natural(bytes, nullable, a - b);
    }
    write_negative(bytes, nullable, b - a - 1)
}

/// Writes the difference of two signed integers, `a` minus `b`.
#[inline(always)]
pub fn write_signed_apart(
    bytes: &mut Vec<u8>,
    nullable: bool,
    a: i64,
    b: i64,
) -> Result<(), AllocError>
    ensures { OnOk result (Adds (IsShortest true nullable (Some (a -ℤ b))) bytes.old.items bytes.new.items) }
{
    if a >= b {
        return write_natural(bytes, nullable, distance(b, a));
    }
    write_negative(bytes, nullable, distance(a, b) - 1)
}

/// Returns the distance between two integers, `high` minus `low`.
#[inline(always)]
fn distance(low: i64, high: i64) -> u64
    requires { low ≤ℤ high }
    ensures { high -ℤ low ≡ pos result }
{
    (i128::from(high) - i128::from(low)) as u64
}

/// Writes a difference of two integers, which usually fits in 64 bits.
pub fn write_delta_as(bytes: &mut Vec<u8>, nullable: bool, number: i128) -> Result<(), AllocError>
    requires { IsWithin (signed_range 68) number }
    ensures { OnOk result (Adds (IsShortest true nullable (Some number)) bytes.old.items bytes.new.items) }
{
    match i64::try_from(number) {
        Ok(narrow) => write_narrow_as(bytes, nullable, narrow),
        Err(_) => write_long_signed(bytes, nullable, number),
    }
}

/// Returns the number that the stream has for a non-negative integer: one more if the field is nullable.
#[inline(always)]
fn raised(nullable: bool, number: u64) -> u64
    requires { number < 2 ^ 56 }
    ensures meaning { Means nullable (pos result) (Some (pos number)) }
    ensures small { result ≤ number + 1 }
{
    if nullable {
        return number + 1;
    }
    number
}

/// Appends the shortest encoding of a non-negative integer, in two's complement. There is room for it.
#[inline(always)]
fn push_natural(bytes: &mut Vec<u8>, sum: u64)
    requires fits { sum < 2 ^ 34 }
    requires room { vec_len bytes.old + 5 ≤ vec_capacity bytes.old }
    ensures { Adds (IsLeast (pos sum)) bytes.old.items bytes.new.items }
{
    push_groups(bytes, sum, groups(sum * 2));
}

/// Appends the shortest encoding of `-1 - complement`, in two's complement. There is room for it.
#[inline(always)]
fn push_negative(bytes: &mut Vec<u8>, complement: u64)
    requires fits { complement < 2 ^ 34 }
    requires room { vec_len bytes.old + 5 ≤ vec_capacity bytes.old }
    ensures { Adds (IsLeast (negsuc complement)) bytes.old.items bytes.new.items }
{
    let len = groups(complement * 2);
    push_groups(bytes, reach(len) - 1 - complement, len);
}

/// Returns the number of groups of seven bits, one to five, that the number needs.
#[inline(always)]
fn groups(number: u64) -> usize
    requires { number < 2 ^ 35 }
    ensures some { 1 ≤ result }
    ensures few { result ≤ 5 }
    ensures enough { number < 2 ^ (7 * result) }
    ensures no_more { 1 < result → 2 ^ (7 * (result - 1)) ≤ number }
{
    if number < 0x4000 {
        if number < 0x80 { 1 } else { 2 }
    } else if number < 0x20_0000 {
        3
    } else if number < 0x1000_0000 {
        4
    } else {
        5
    }
}

/// Returns 2^(7 * len): how many numbers `len` groups of seven bits hold.
#[inline(always)]
fn reach(len: usize) -> u64
    requires some { 1 ≤ len }
    requires few { len ≤ 5 }
    ensures { result ≡ 2 ^ (7 * len) }
{
    match len {
        1 => 0x80,
        2 => 0x4000,
        3 => 0x20_0000,
        4 => 0x1000_0000,
        _ => 0x8_0000_0000,
    }
}

/// Appends the number in `len` bytes of seven bits each, with the stop bit on the last. There is room for them.
#[inline(always)]
fn push_groups(bytes: &mut Vec<u8>, number: u64, len: usize)
    requires some { 1 ≤ len }
    requires few { len ≤ 5 }
    requires fits { number < 2 ^ (7 * len) }
    requires room { vec_len bytes.old + 5 ≤ vec_capacity bytes.old }
    ensures { Adds (IsGroups number len) bytes.old.items bytes.new.items }
{
    match len {
        1 => push_last(bytes, number),
        2 => push_two(bytes, number),
        3 => push_three(bytes, number),
        4 => push_four(bytes, number),
        _ => push_five(bytes, number),
    }
}

/// Appends the number in one byte, with the stop bit.
#[inline(always)]
fn push_one(bytes: &mut Vec<u8>, number: u64) -> Result<(), AllocError>
    requires { number < 2 ^ 7 }
    ensures { OnOk result (Adds (IsGroups number 1) bytes.old.items bytes.new.items) }
{
    push_byte(bytes, (number % 0x80) as u8 + 0x80)
}

/// Appends a byte.
#[inline(always)]
pub fn push_byte(bytes: &mut Vec<u8>, byte: u8) -> Result<(), AllocError>
    ensures { OnOk result (bytes.new.items ≡ bytes.old.items ++ byte ∷ []) }
{
    if bytes.len() < bytes.capacity() {
        bytes.push_reserved(byte);
        return Ok(());
    }
    push_and_grow(bytes, byte)
}

/// Appends a byte where the vector has no spare capacity.
#[cold]
fn push_and_grow(bytes: &mut Vec<u8>, byte: u8) -> Result<(), AllocError>
    ensures { OnOk result (bytes.new.items ≡ bytes.old.items ++ byte ∷ []) }
{
    bytes.push(byte)?;
    Ok(())
}

/// Appends the number in one byte, with the stop bit. There is room for it.
#[inline(always)]
fn push_last(bytes: &mut Vec<u8>, number: u64)
    requires fits { number < 2 ^ 7 }
    requires room { vec_len bytes.old + 1 ≤ vec_capacity bytes.old }
    ensures { Adds (IsGroups number 1) bytes.old.items bytes.new.items }
{
    bytes.push_reserved((number % 0x80) as u8 + 0x80);
}

/// Appends the number in two bytes, with the stop bit on the last. There is room for them.
#[inline(always)]
fn push_two(bytes: &mut Vec<u8>, number: u64)
    requires fits { number < 2 ^ 14 }
    requires room { vec_len bytes.old + 2 ≤ vec_capacity bytes.old }
    ensures { Adds (IsGroups number 2) bytes.old.items bytes.new.items }
{
    bytes.push_reserved((number / 0x80 % 0x80) as u8);
    bytes.push_reserved((number % 0x80) as u8 + 0x80);
}

/// Appends the number in three bytes, with the stop bit on the last. There is room for them.
#[inline(always)]
fn push_three(bytes: &mut Vec<u8>, number: u64)
    requires fits { number < 2 ^ 21 }
    requires room { vec_len bytes.old + 3 ≤ vec_capacity bytes.old }
    ensures { Adds (IsGroups number 3) bytes.old.items bytes.new.items }
{
    bytes.push_reserved((number / 0x4000 % 0x80) as u8);
    bytes.push_reserved((number / 0x80 % 0x80) as u8);
    bytes.push_reserved((number % 0x80) as u8 + 0x80);
}

/// Appends the number in four bytes, with the stop bit on the last. There is room for them.
#[inline(always)]
fn push_four(bytes: &mut Vec<u8>, number: u64)
    requires fits { number < 2 ^ 28 }
    requires room { vec_len bytes.old + 4 ≤ vec_capacity bytes.old }
    ensures { Adds (IsGroups number 4) bytes.old.items bytes.new.items }
{
    bytes.push_reserved((number / 0x200000 % 0x80) as u8);
    bytes.push_reserved((number / 0x4000 % 0x80) as u8);
    bytes.push_reserved((number / 0x80 % 0x80) as u8);
    bytes.push_reserved((number % 0x80) as u8 + 0x80);
}

/// Appends the number in five bytes, with the stop bit on the last. There is room for them.
#[inline(always)]
fn push_five(bytes: &mut Vec<u8>, number: u64)
    requires fits { number < 2 ^ 35 }
    requires room { vec_len bytes.old + 5 ≤ vec_capacity bytes.old }
    ensures { Adds (IsGroups number 5) bytes.old.items bytes.new.items }
{
    bytes.push_reserved((number / 0x10000000 % 0x80) as u8);
    bytes.push_reserved((number / 0x200000 % 0x80) as u8);
    bytes.push_reserved((number / 0x4000 % 0x80) as u8);
    bytes.push_reserved((number / 0x80 % 0x80) as u8);
    bytes.push_reserved((number % 0x80) as u8 + 0x80);
}

/// Writes an unsigned integer of more than five bytes, or one for which the vector may have to grow.
#[inline(never)]
fn write_long_unsigned(bytes: &mut Vec<u8>, nullable: bool, number: u64) -> Result<(), AllocError>
    ensures { OnOk result (Adds (IsShortest false nullable (Some (pos number))) bytes.old.items bytes.new.items) }
{
    if number >= HUGE_UNSIGNED {
        return write_huge_unsigned(bytes, nullable, number);
    }
    let sent = raised(nullable, number);
    if sent < LONG_SUM {
        bytes.reserve(ROOM)?;
        push_groups(bytes, sent, groups(sent));
        return Ok(());
    }
    push_long_groups(bytes, sent, long_groups(sent))
}
