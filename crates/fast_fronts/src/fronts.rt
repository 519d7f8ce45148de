//! The first entity of a slice as an integer.
//!
//! An entity that ends within eight bytes is read as one word. All others are read byte by byte, out of line.

ghost use Rattle.std.specs.Prelude.{◌≡◌, ◌<◌, ◌≤◌, true, false, if◌then◌else◌, nat_lt, Option, IfSome, IfNone, Some, pos, option_map, length, take};
ghost use Rattle.fast_wire.specs.meaning.Entities.{HaveNoStop, IsEntity};
ghost use Rattle.fast_wire.specs.meaning.Integers.{unsigned_up_to, signed_between};
ghost use Rattle.fast_wire.specs.device.Words.{IsShortEntity};
ghost use Rattle.fast_fronts.specs.device.Fronts.{IsFirstInt, first_of};

use crate::words::{ShortEntity, short_entity, short_lowered, short_signed, short_signed_lowered};
use fast_wire::{
    WireFault, judge_nullable_signed, judge_nullable_unsigned, judge_signed, judge_unsigned,
    read_nullable_signed, read_nullable_unsigned, read_signed, read_unsigned,
};

/// The result of reading the entity at the front of a slice.
#[derive(Clone, Copy, Debug, PartialEq, Eq)]
pub enum First<T> {
    /// An entity with this value, and its length in bytes.
    Whole(T, usize),
    /// A fault, and the number of bytes that decide it: no fewer would.
    Wrong(WireFault, usize),
    /// The slice ends inside an entity, or is empty.
    Cut,
}

/// Reads the first entity as a mandatory integer from 0 to `top`.
#[inline(always)]
pub fn first_unsigned(bytes: &[u8], strict: bool, top: u64) -> First<u64>
    ensures { IsFirstInt (λ x. Some (pos x)) strict (unsigned_up_to top) false result bytes.now }
{
    match short_entity(bytes) {
        Some(ShortEntity { number: sum, len }) => front_unsigned(bytes, sum, len, strict, top),
        None => long_unsigned(bytes, strict, top),
    }
}

/// Reads the first entity as a nullable integer from 0 to `top`: `None` is NULL.
#[inline(always)]
pub fn first_nullable_unsigned(bytes: &[u8], strict: bool, top: u64) -> First<Option<u64>>
    ensures { IsFirstInt (λ x. option_map pos x) strict (unsigned_up_to top) true result bytes.now }
{
    match short_entity(bytes) {
        Some(ShortEntity { number: sum, len }) => front_nullable_unsigned(
            bytes, sum, len, strict, top,
        ),
        None => long_nullable_unsigned(bytes, strict, top),
    }
}

/// Reads the first entity as a mandatory integer in two's complement, from `low` to `top`.
#[inline(always)]
pub fn first_signed(bytes: &[u8], strict: bool, low: i128, top: i128) -> First<i128>
    ensures { IsFirstInt (λ x. Some x) strict (signed_between low top) false result bytes.now }
{
    match short_entity(bytes) {
        Some(ShortEntity { number: sum, len }) => front_signed(bytes, sum, len, strict, low, top),
        None => long_signed(bytes, strict, low, top),
    }
}

/// Reads the first entity as a nullable integer in two's complement, from `low` to `top`: `None` is NULL.
#[inline(always)]
pub fn first_nullable_signed(
    bytes: &[u8],
    strict: bool,
    low: i128,
    top: i128,
) -> First<Option<i128>>
    ensures { IsFirstInt (λ x. x) strict (signed_between low top) true result bytes.now }
{
    match short_entity(bytes) {
        Some(ShortEntity { number: sum, len }) => front_nullable_signed(
            bytes, sum, len, strict, low, top,
        ),
        None => long_nullable_signed(bytes, strict, low, top),
    }
}

/// Returns the result of `first_unsigned` for a short entity with this number and length.
#[inline(always)]
fn front_unsigned(bytes: &[u8], sum: u64, len: usize, strict: bool, top: u64) -> First<u64>
    requires { IsShortEntity sum len bytes.now }
    ensures { IsFirstInt (λ x. Some (pos x)) strict (unsigned_up_to top) false result bytes.now }
{
    let w = &bytes[..len];
    decided(judge_unsigned(w, u128::from(sum), strict, top), len)
}

/// Returns the result of `first_nullable_unsigned` for a short entity with this number and length.
#[inline(always)]
fn front_nullable_unsigned(
    bytes: &[u8],
    sum: u64,
    len: usize,
    strict: bool,
    top: u64,
) -> First<Option<u64>>
    requires { IsShortEntity sum len bytes.now }
    ensures { IsFirstInt (λ x. option_map pos x) strict (unsigned_up_to top) true result bytes.now }
{
    let w = &bytes[..len];
    decided(
        judge_nullable_unsigned(w, short_lowered(sum), strict, top),
        len,
    )
}

/// Returns the result of `first_signed` for a short entity with this number and length.
#[inline(always)]
fn front_signed(
    bytes: &[u8],
    sum: u64,
    len: usize,
    strict: bool,
    low: i128,
    top: i128,
) -> First<i128>
    requires { IsShortEntity sum len bytes.now }
    ensures { IsFirstInt (λ x. Some x) strict (signed_between low top) false result bytes.now }
{
    let w = &bytes[..len];
    decided(
        judge_signed(w, i128::from(short_signed(w, sum)), strict, low, top),
        len,
    )
}

/// Returns the result of `first_nullable_signed` for a short entity with this number and length.
#[inline(always)]
fn front_nullable_signed(
    bytes: &[u8],
    sum: u64,
    len: usize,
    strict: bool,
    low: i128,
    top: i128,
) -> First<Option<i128>>
    requires { IsShortEntity sum len bytes.now }
    ensures { IsFirstInt (λ x. x) strict (signed_between low top) true result bytes.now }
{
    let w = &bytes[..len];
    decided(
        judge_nullable_signed(
            w,
            short_signed_lowered(short_signed(w, sum)),
            strict,
            low,
            top,
        ),
        len,
    )
}

/// Reads as `first_unsigned` does, byte by byte.
#[inline(never)]
fn long_unsigned(bytes: &[u8], strict: bool, top: u64) -> First<u64>
    ensures { IsFirstInt (λ x. Some (pos x)) strict (unsigned_up_to top) false result bytes.now }
{
    match entity_len(bytes) {
        Some(len) => decided(read_unsigned(&bytes[..len], strict, top), len),
        None => endless(bytes.len()),
    }
}

/// Reads as `first_nullable_unsigned` does, byte by byte.
#[inline(never)]
fn long_nullable_unsigned(bytes: &[u8], strict: bool, top: u64) -> First<Option<u64>>
    ensures { IsFirstInt (λ x. option_map pos x) strict (unsigned_up_to top) true result bytes.now }
{
    match entity_len(bytes) {
        Some(len) => decided(read_nullable_unsigned(&bytes[..len], strict, top), len),
        None => endless(bytes.len()),
    }
}

/// Reads as `first_signed` does, byte by byte.
#[inline(never)]
fn long_signed(bytes: &[u8], strict: bool, low: i128, top: i128) -> First<i128>
    ensures { IsFirstInt (λ x. Some x) strict (signed_between low top) false result bytes.now }
{
    match entity_len(bytes) {
        Some(len) => decided(read_signed(&bytes[..len], strict, low, top), len),
        None => endless(bytes.len()),
    }
}

/// Reads as `first_nullable_signed` does, byte by byte.
#[inline(never)]
fn long_nullable_signed(bytes: &[u8], strict: bool, low: i128, top: i128) -> First<Option<i128>>
    ensures { IsFirstInt (λ x. x) strict (signed_between low top) true result bytes.now }
{
    match entity_len(bytes) {
        Some(len) => decided(read_nullable_signed(&bytes[..len], strict, low, top), len),
        None => endless(bytes.len()),
    }
}

/// Returns the length of the first entity, if it ends within ten bytes.
fn entity_len(bytes: &[u8]) -> Option<usize>
    ensures some { IfSome result (λ len. (len ≤ 10) × (len ≤ length bytes.now) × IsEntity (take len bytes.now)) }
    ensures none { IfNone result (HaveNoStop (take 10 bytes.now)) }
{
    for (i, byte) in bytes.iter().enumerate() {
        if i == 10 {
            return None;
        }
        if *byte >= 0x80 {
            return Some(i + 1);
        }
    }
    None
}

/// Returns the result of reading an entity of this length.
#[inline]
fn decided<T>(read: Result<T, WireFault>, len: usize) -> First<T>
    ensures { result ≡ first_of read len }
{
    match read {
        Ok(x) => First::Whole(x, len),
        Err(fault) => First::Wrong(fault, len),
    }
}

/// Returns the result for a slice of this length that has no stop bit within ten bytes.
#[inline]
fn endless<T>(len: usize) -> First<T>
    ensures { result ≡ (if nat_lt len 10 then First.Cut else First.Wrong WireFault.D2 10) }
{
    if len < 10 {
        First::Cut
    } else {
        First::Wrong(WireFault::D2, 10)
    }
}
