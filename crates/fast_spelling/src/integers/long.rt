//! Integers of more than five bytes.

ghost use Rattle.std.specs.Prelude.{◌<◌, ◌≤◌, ◌-◌, ◌*◌, ◌^◌, Some, pos, true, false, OnOk};
ghost use Rattle.fast_wire.specs.meaning.Integers.{signed_range, IsWithin};
ghost use Rattle.fast_wire.specs.meaning.Shortest.{IsShortest};
ghost use Rattle.fast_spelling.specs.device.Drafts.{Adds};
ghost use Rattle.fast_spelling.specs.device.Groups.{IsGroups};

use fast_wire::{write_nullable_signed, write_nullable_unsigned, write_signed, write_unsigned};
use std::alloc::AllocError;

/// Returns the number of groups of seven bits, six to eight, that the number needs.
#[inline(always)]
pub fn long_groups(number: u64) -> usize
    requires long { 2 ^ 35 ≤ number }
    requires fits { number < 2 ^ 56 }
    ensures some { 6 ≤ result }
    ensures few { result ≤ 8 }
    ensures enough { number < 2 ^ (7 * result) }
    ensures no_more { 2 ^ (7 * (result - 1)) ≤ number }
{
    if number < 0x400_0000_0000 {
        6
    } else if number < 0x2_0000_0000_0000 {
        7
    } else {
        8
    }
}

/// Appends the number in `len` bytes of seven bits each, with the stop bit on the last.
#[inline(always)]
pub fn push_long_groups(bytes: &mut Vec<u8>, number: u64, len: usize) -> Result<(), AllocError>
    requires some { 6 ≤ len }
    requires few { len ≤ 8 }
    requires fits { number < 2 ^ (7 * len) }
    ensures { OnOk result (Adds (IsGroups number len) bytes.old.items bytes.new.items) }
{
    match len {
        6 => push_six(bytes, number),
        7 => push_seven(bytes, number),
        _ => push_eight(bytes, number),
    }
}

/// Appends the number in six bytes, with the stop bit on the last.
#[inline(always)]
fn push_six(bytes: &mut Vec<u8>, number: u64) -> Result<(), AllocError>
    requires { number < 2 ^ 42 }
    ensures { OnOk result (Adds (IsGroups number 6) bytes.old.items bytes.new.items) }
{
    bytes.extend_from_slice(&[
        (number / 0x800000000 % 0x80) as u8,
        (number / 0x10000000 % 0x80) as u8,
        (number / 0x200000 % 0x80) as u8,
        (number / 0x4000 % 0x80) as u8,
        (number / 0x80 % 0x80) as u8,
        (number % 0x80) as u8 + 0x80,
    ])?;
    Ok(())
}

/// Appends the number in seven bytes, with the stop bit on the last.
#[inline(always)]
fn push_seven(bytes: &mut Vec<u8>, number: u64) -> Result<(), AllocError>
    requires { number < 2 ^ 49 }
    ensures { OnOk result (Adds (IsGroups number 7) bytes.old.items bytes.new.items) }
{
    bytes.extend_from_slice(&[
        (number / 0x40000000000 % 0x80) as u8,
        (number / 0x800000000 % 0x80) as u8,
        (number / 0x10000000 % 0x80) as u8,
        (number / 0x200000 % 0x80) as u8,
        (number / 0x4000 % 0x80) as u8,
        (number / 0x80 % 0x80) as u8,
        (number % 0x80) as u8 + 0x80,
    ])?;
    Ok(())
}

/// Appends the number in eight bytes, with the stop bit on the last.
#[inline(always)]
fn push_eight(bytes: &mut Vec<u8>, number: u64) -> Result<(), AllocError>
    requires { number < 2 ^ 56 }
    ensures { OnOk result (Adds (IsGroups number 8) bytes.old.items bytes.new.items) }
{
    bytes.extend_from_slice(&[
        (number / 0x2000000000000 % 0x80) as u8,
        (number / 0x40000000000 % 0x80) as u8,
        (number / 0x800000000 % 0x80) as u8,
        (number / 0x10000000 % 0x80) as u8,
        (number / 0x200000 % 0x80) as u8,
        (number / 0x4000 % 0x80) as u8,
        (number / 0x80 % 0x80) as u8,
        (number % 0x80) as u8 + 0x80,
    ])?;
    Ok(())
}

/// Writes an unsigned integer of any length, through an array.
#[cold]
pub fn write_huge_unsigned(
    bytes: &mut Vec<u8>,
    nullable: bool,
    number: u64,
) -> Result<(), AllocError>
    ensures { OnOk result (Adds (IsShortest false nullable (Some (pos number))) bytes.old.items bytes.new.items) }
{
    let entity = if nullable {
        write_nullable_unsigned(Some(number))
    } else {
        write_unsigned(number)
    };
    bytes.extend_from_slice(entity.as_slice())
}

/// Writes a signed integer of any length.
#[cold]
pub fn write_long_signed(
    bytes: &mut Vec<u8>,
    nullable: bool,
    number: i128,
) -> Result<(), AllocError>
    requires { IsWithin (signed_range 68) number }
    ensures { OnOk result (Adds (IsShortest true nullable (Some number)) bytes.old.items bytes.new.items) }
{
    let entity = if nullable {
        write_nullable_signed(Some(number))
    } else {
        write_signed(number)
    };
    bytes.extend_from_slice(entity.as_slice())
}
