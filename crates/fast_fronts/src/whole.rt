//! Integers of which all bytes are there, read at once. Nearly all integers of a stream are such.
//!
//! The functions return `None` for the others, which [`first_unsigned`](crate::first_unsigned) and its variants then read. At most calls
//! all arguments but the bytes are constants, by which the results fold, and nothing here calls out of line.

ghost use Rattle.std.specs.Prelude.{◌≡◌, ◌≤◌, ◌≤ℤ◌, ◌↔◌, ◌∷◌, [], ℕ, Bool, List, length, true, false, IsTrue, if◌then◌else◌, pos, neg_ℤ, option_map, IfSome};
ghost use Rattle.fast_wire.specs.meaning.Entities.{number, has_sign, signed};
ghost use Rattle.fast_wire.specs.meaning.Integers.{Means, IsWithin, unsigned_up_to, signed_between, delta_range};
ghost use Rattle.fast_wire.specs.meaning.Faulty.{NoneIsOverlong};
ghost use Rattle.fast_fronts.specs.device.Fronts.{IsFirstInt, IsLoaded};
ghost use Rattle.fast_fronts.specs.declared.fronts.First.TheVariants.{Whole};

use crate::rest::Rest;
use crate::words::{
    byte_in, eight_in, extended, first_in, four_in, four_signed_in, lowered, one_byte, second_in,
};

/// Reads the first entity, of up to eight bytes, as an integer from 0 to `top`, or NULL if `nullable`, and returns it with its length. An
/// entity of up to four bytes is within any `top`. An entity with a byte too many is not read.
///
/// If entities are `mostly_short`, there are branches for one byte and for up to four, which take fewer steps. Else all lengths take the
/// same steps: where no length is usual, a processor cannot foresee a branch on it, and the branches take longer than all these steps.
#[inline(always)]
pub fn whole_unsigned(
    rest: Rest<'_>,
    nullable: bool,
    strict: bool,
    top: u64,
    mostly_short: bool,
) -> Option<(Option<u64>, usize)>
    requires top { 268435455 ≤ top }
    ensures { IfSome result (λ r. IsFirstInt (λ y. option_map pos y) strict (unsigned_up_to top) nullable
        (Whole r.0 r.1) rest.entry.bytes.now) }
{
    let (word, bytes) = (rest.word(), rest.bytes);
    if mostly_short {
        if !goes_on(word, bytes) {
            let sum = byte_in(word, bytes)?;
            return Some((meant(sum, nullable), 1));
        }
        if let Some((sum, len)) = four_in(word, bytes) {
            return Some((meant(sum, nullable), len));
        }
    }
    if begins_with_zero(word, bytes) {
        return None;
    }
    eight_unsigned(word, bytes, nullable, strict, top)
}

/// Reads the first entity, of up to eight bytes, as an integer in two's complement, from `low` to `top`, or NULL if `nullable`, and returns
/// it with its length. An entity of up to four bytes is within any such range.
#[inline(always)]
pub fn whole_signed(
    rest: Rest<'_>,
    nullable: bool,
    strict: bool,
    low: i64,
    top: i64,
    mostly_short: bool,
) -> Option<(Option<i64>, usize)>
    requires low { low ≤ℤ neg_ℤ (pos 134217728) }
    requires top { pos 134217727 ≤ℤ top }
    ensures { IfSome result (λ r. IsFirstInt (λ y. y) strict (signed_between low top) nullable
        (Whole r.0 r.1) rest.entry.bytes.now) }
{
    let (word, bytes) = (rest.word(), rest.bytes);
    if mostly_short {
        if let Some(sum) = byte_in(word, bytes) {
            return Some((meant_signed(sum, 1, nullable), 1));
        }
    }
    if is_refused_signed_front(word, bytes, strict) {
        return None;
    }
    if mostly_short {
        if let Some((number, len)) = four_signed_in(word, bytes) {
            return Some((meant_integer(number, nullable), len));
        }
    }
    eight_signed(word, bytes, nullable, strict, low, top)
}

/// Reads the first entity, of up to eight bytes, as a delta, or NULL if `nullable`, and returns it with its length. All of these are within
/// its range.
#[inline(always)]
pub fn whole_delta(rest: Rest<'_>, nullable: bool, strict: bool) -> Option<(Option<i64>, usize)>
    ensures { IfSome result (λ r. IsFirstInt (λ y. y) strict delta_range nullable (Whole r.0 r.1) rest.entry.bytes.now) }
{
    whole_signed(rest, nullable, strict, i64::MIN, i64::MAX, true)
}

/// Reads the first entity as a delta, or NULL if `nullable`, if it is one byte.
#[inline(always)]
pub fn one_byte_delta(bytes: &[u8], nullable: bool) -> Option<Option<i64>>
    ensures { IfSome result (λ r. (strict : Bool)
        → IsFirstInt (λ y. y) strict delta_range nullable (Whole r 1) bytes.now) }
{
    let sum = one_byte(bytes)?;
    Some(meant_signed(sum, 1, nullable))
}

/// Reads the first entity, of up to eight bytes, without a byte too many, as an integer from 0 to `top`.
#[inline(always)]
fn eight_unsigned(
    word: u64,
    bytes: &[u8],
    nullable: bool,
    strict: bool,
    top: u64,
) -> Option<(Option<u64>, usize)>
    requires front { IsLoaded word bytes.now }
    requires none { IsTrue strict → NoneIsOverlong (λ v. pos (number v)) bytes.now }
    ensures { IfSome result (λ r. IsFirstInt (λ y. option_map pos y) strict (unsigned_up_to top) nullable
        (Whole r.0 r.1) bytes.now) }
{
    let _ = strict;
    let (sum, len) = eight_in(word, bytes)?;
    let number = meant(sum, nullable);
    if !is_up_to(number, top) {
        return None;
    }
    Some((number, len))
}

/// Reads the first entity, of up to eight bytes, without a byte too many, as an integer in two's complement from `low` to `top`.
#[inline(always)]
fn eight_signed(
    word: u64,
    bytes: &[u8],
    nullable: bool,
    strict: bool,
    low: i64,
    top: i64,
) -> Option<(Option<i64>, usize)>
    requires front { IsLoaded word bytes.now }
    requires none { IsTrue strict → NoneIsOverlong signed bytes.now }
    ensures { IfSome result (λ r. IsFirstInt (λ y. y) strict (signed_between low top) nullable
        (Whole r.0 r.1) bytes.now) }
{
    let _ = strict;
    let (sum, len) = eight_in(word, bytes)?;
    let number = meant_signed(sum, len, nullable);
    if !is_between(number, low, top) {
        return None;
    }
    Some((number, len))
}

/// Returns the integer that is sent as `n`: `None` is NULL, if `nullable`.
#[inline(always)]
fn meant(n: u64, nullable: bool) -> Option<u64>
    ensures { Means nullable (pos n) (option_map pos result) }
{
    if !nullable {
        return Some(n);
    }
    if n == 0 {
        return None;
    }
    Some(n - 1)
}

/// Returns the integer of an entity of `len` bytes in two's complement: `None` is NULL, if `nullable`.
#[inline(always)]
fn meant_signed(sum: u64, len: usize, nullable: bool) -> Option<i64>
    requires some { 1 ≤ len }
    requires short { len ≤ 8 }
    ensures { (w : List ℕ) → length w ≡ len → sum ≡ number w → Means nullable (signed w) result }
{
    meant_integer(extended(sum, len), nullable)
}

/// Returns the signed integer that is sent as `n`: `None` is NULL, if `nullable`.
#[inline(always)]
fn meant_integer(n: i64, nullable: bool) -> Option<i64>
    ensures { Means nullable n result }
{
    if !nullable {
        return Some(n);
    }
    lowered(n)
}

/// Returns whether the first byte has no stop bit, and is not zero, which in front would be a byte too many. Few senders write such a byte,
/// so it is read here in neither mode: that spares all others a look at the mode. Both are one test of the byte's sign.
#[inline(always)]
fn goes_on(word: u64, bytes: &[u8]) -> bool
    requires front { IsLoaded word bytes.now }
    ensures { result ≡ true → NoneIsOverlong (λ v. pos (number v)) bytes.now }
{
    let first = first_in(word, bytes);
    first != 0 && first < 0x80
}

/// Returns whether the first byte is zero, which in front of an unsigned integer is a byte too many.
#[inline(always)]
fn begins_with_zero(word: u64, bytes: &[u8]) -> bool
    requires front { IsLoaded word bytes.now }
    ensures { result ≡ false → NoneIsOverlong (λ v. pos (number v)) bytes.now }
{
    first_in(word, bytes) == 0
}

/// Returns whether a signed integer in front, of two or more bytes, has a byte too many, in strict mode: seven bits in front that repeat
/// the sign of the next byte.
#[inline(always)]
fn is_refused_signed_front(word: u64, bytes: &[u8], strict: bool) -> bool
    requires front { IsLoaded word bytes.now }
    ensures { result ≡ false → IsTrue strict → NoneIsOverlong signed bytes.now }
{
    strict && repeats_sign(first_in(word, bytes), second_in(word, bytes))
}

/// Returns whether the seven bits of a byte are all like the sign of the next byte.
#[inline(always)]
fn repeats_sign(first: u8, second: u8) -> bool
    ensures { IsTrue result ↔ (first ≡ (if has_sign (second ∷ []) then 127 else 0)) }
{
    match first {
        0x00 => second & 0x40 == 0,
        0x7f => second & 0x40 != 0,
        _ => false,
    }
}

/// Returns whether an integer is at most `top`. NULL has no range.
#[inline(always)]
fn is_up_to(number: Option<u64>, top: u64) -> bool
    ensures { IsTrue result → IfSome number (λ n. n ≤ top) }
{
    match number {
        Some(n) => n <= top,
        None => true,
    }
}

/// Returns whether an integer lies in a range. NULL has none.
#[inline(always)]
fn is_between(number: Option<i64>, low: i64, top: i64) -> bool
    ensures { IsTrue result → IfSome number (IsWithin (signed_between low top)) }
{
    match number {
        Some(n) => low <= n && n <= top,
        None => true,
    }
}
