//! Integers of complete entities: FAST 1.1, Transfer Encoding.
//!
//! A read has one of three results, of which exactly one applies: the integer, or NULL if the type is nullable; `R6` if the entity is
//! overlong in strict mode; else `D2`, if the integer lies outside its range. In lenient mode an overlong entity encodes its integer, and
//! an overlong zero NULL in a nullable type.

ghost use Rattle.std.specs.Prelude.{◌≡◌, ◌<◌, ◌≤◌, ◌^◌, ◌*◌, ◌↔◌, ◌∷◌, [], true, false, IsTrue, if◌then◌else◌, IfOk, Some, Err, pos, option_map, length};
ghost use Rattle.fast_wire.specs.meaning.Entities.{IsEntity, number, has_sign, signed, IsOverlong};
ghost use Rattle.fast_wire.specs.meaning.Integers.{value, Means, IsWithin, IsInteger, SpellsInt, IsOutside, unsigned_up_to, signed_between};

use std::error::Error;
use std::fmt;

/// The reason why an entity is no integer of its type.
#[derive(Clone, Copy, Debug, PartialEq, Eq)]
pub enum WireFault {
    /// Overlong: without its first byte it would encode the same integer. Strict mode alone.
    R6,
    /// The integer lies outside its type, or ten bytes have no stop bit.
    D2,
}

impl fmt::Display for WireFault {
    fn fmt<W: fmt::Write>(&self, f: &mut fmt::Formatter<W>) -> fmt::Result {
        f.write_str(match self {
            WireFault::R6 => "the integer has more bytes than it needs",
            WireFault::D2 => "the integer lies outside its type, or ten bytes have no stop bit",
        })
    }
}

impl Error for WireFault {}

/// Reads the mandatory integer of an entity of at most ten bytes, from 0 to `top`.
///
/// `R6` if the entity is overlong and the mode strict, else `D2` if the integer is over `top`.
pub fn read_unsigned(w: &[u8], strict: bool, top: u64) -> Result<u64, WireFault>
    requires entity { IsEntity w.now }
    requires short { length w.now ≤ 10 }
    ensures value { IfOk result (λ n. SpellsInt strict (unsigned_up_to top) false (Some (pos n)) w.now) }
    ensures overlong { (result ≡ Err WireFault.R6) ↔ (IsTrue strict × IsOverlong (value (unsigned_up_to top)) w.now) }
    ensures outside { result ≡ Err WireFault.D2 → IsInteger strict (unsigned_up_to top) w.now × (top < number w.now) }
{
    judge_unsigned(w, number_of(w), strict, top)
}

/// Reads the nullable integer of an entity of at most ten bytes, from 0 to `top`: `None` is NULL.
///
/// `R6` if the entity is overlong and the mode strict, else `D2` if the integer is over `top`.
pub fn read_nullable_unsigned(w: &[u8], strict: bool, top: u64) -> Result<Option<u64>, WireFault>
    requires entity { IsEntity w.now }
    requires short { length w.now ≤ 10 }
    ensures value { IfOk result (λ x. SpellsInt strict (unsigned_up_to top) true (option_map pos x) w.now) }
    ensures overlong { (result ≡ Err WireFault.R6) ↔ (IsTrue strict × IsOverlong (value (unsigned_up_to top)) w.now) }
    ensures outside { result ≡ Err WireFault.D2 → IsOutside strict (unsigned_up_to top) true w.now }
{
    judge_nullable_unsigned(w, number_of(w).checked_sub(1), strict, top)
}

/// Reads the mandatory integer of an entity of at most ten bytes in two's complement, from `low` to `top`.
///
/// `R6` if the entity is overlong and the mode strict, else `D2` if the integer is outside.
pub fn read_signed(w: &[u8], strict: bool, low: i128, top: i128) -> Result<i128, WireFault>
    requires entity { IsEntity w.now }
    requires short { length w.now ≤ 10 }
    ensures value { IfOk result (λ x. SpellsInt strict (signed_between low top) false (Some x) w.now) }
    ensures overlong { (result ≡ Err WireFault.R6)
        ↔ (IsTrue strict × IsOverlong (value (signed_between low top)) w.now) }
    ensures outside { result ≡ Err WireFault.D2 → IsOutside strict (signed_between low top) false w.now }
{
    judge_signed(w, signed_of(w), strict, low, top)
}

/// Reads the nullable integer of an entity of at most ten bytes in two's complement, from `low` to `top`: `None` is NULL.
///
/// `R6` if the entity is overlong and the mode strict, else `D2` if the integer is outside.
pub fn read_nullable_signed(
    w: &[u8],
    strict: bool,
    low: i128,
    top: i128,
) -> Result<Option<i128>, WireFault>
    requires entity { IsEntity w.now }
    requires short { length w.now ≤ 10 }
    ensures value { IfOk result (λ x. SpellsInt strict (signed_between low top) true x w.now) }
    ensures overlong { (result ≡ Err WireFault.R6)
        ↔ (IsTrue strict × IsOverlong (value (signed_between low top)) w.now) }
    ensures outside { result ≡ Err WireFault.D2 → IsOutside strict (signed_between low top) true w.now }
{
    judge_nullable_signed(w, lowered(signed_of(w)), strict, low, top)
}

/// Returns the mandatory unsigned integer of an entity whose bits are the number `n`, from 0 to `top`.
///
/// `R6` if the entity is overlong and the mode strict, else `D2` if the integer is over `top`.
#[inline]
pub fn judge_unsigned(w: &[u8], n: u128, strict: bool, top: u64) -> Result<u64, WireFault>
    requires entity { IsEntity w.now }
    requires short { length w.now ≤ 10 }
    requires number { n ≡ number w.now }
    ensures value { IfOk result (λ x. SpellsInt strict (unsigned_up_to top) false (Some (pos x)) w.now) }
    ensures overlong { (result ≡ Err WireFault.R6) ↔ (IsTrue strict × IsOverlong (value (unsigned_up_to top)) w.now) }
    ensures outside { result ≡ Err WireFault.D2 → IsInteger strict (unsigned_up_to top) w.now × (top < number w.now) }
{
    if is_refused_unsigned(w, strict) {
        return Err(WireFault::R6);
    }
    if n > u128::from(top) {
        return Err(WireFault::D2);
    }
    Ok(n as u64)
}

/// Returns the nullable unsigned integer `x` of an entity if it lies in range: `None` is NULL.
///
/// `R6` if the entity is overlong and the mode strict, else `D2` if the integer is over `top`.
#[inline(always)]
pub fn judge_nullable_unsigned(
    w: &[u8],
    x: Option<u128>,
    strict: bool,
    top: u64,
) -> Result<Option<u64>, WireFault>
    requires entity { IsEntity w.now }
    requires short { length w.now ≤ 10 }
    requires meaning { Means true (pos (number w.now)) (option_map pos x) }
    ensures value { IfOk result (λ x. SpellsInt strict (unsigned_up_to top) true (option_map pos x) w.now) }
    ensures overlong { (result ≡ Err WireFault.R6) ↔ (IsTrue strict × IsOverlong (value (unsigned_up_to top)) w.now) }
    ensures outside { result ≡ Err WireFault.D2 → IsOutside strict (unsigned_up_to top) true w.now }
{
    if is_refused_unsigned(w, strict) {
        return Err(WireFault::R6);
    }
    let Some(x) = x else {
        return Ok(None);
    };
    if x > u128::from(top) {
        return Err(WireFault::D2);
    }
    Ok(Some(x as u64))
}

/// Returns the mandatory signed integer of an entity whose bits are the number `n`, from `low` to `top`.
///
/// `R6` if the entity is overlong and the mode strict, else `D2` if the integer is outside.
#[inline(always)]
pub fn judge_signed(
    w: &[u8],
    n: i128,
    strict: bool,
    low: i128,
    top: i128,
) -> Result<i128, WireFault>
    requires entity { IsEntity w.now }
    requires short { length w.now ≤ 10 }
    requires number { n ≡ signed w.now }
    ensures value { IfOk result (λ x. SpellsInt strict (signed_between low top) false (Some x) w.now) }
    ensures overlong { (result ≡ Err WireFault.R6)
        ↔ (IsTrue strict × IsOverlong (value (signed_between low top)) w.now) }
    ensures outside { result ≡ Err WireFault.D2 → IsOutside strict (signed_between low top) false w.now }
    ensures same { IfOk result (λ x. x ≡ n) }
{
    if is_refused_signed(w, strict) {
        return Err(WireFault::R6);
    }
    if !is_within(n, low, top) {
        return Err(WireFault::D2);
    }
    Ok(n)
}

/// Returns the nullable signed integer `x` of an entity if it lies in range: `None` is NULL.
///
/// `R6` if the entity is overlong and the mode strict, else `D2` if the integer is outside.
#[inline(always)]
pub fn judge_nullable_signed(
    w: &[u8],
    x: Option<i128>,
    strict: bool,
    low: i128,
    top: i128,
) -> Result<Option<i128>, WireFault>
    requires entity { IsEntity w.now }
    requires short { length w.now ≤ 10 }
    requires meaning { Means true (signed w.now) x }
    ensures value { IfOk result (λ x. SpellsInt strict (signed_between low top) true x w.now) }
    ensures overlong { (result ≡ Err WireFault.R6)
        ↔ (IsTrue strict × IsOverlong (value (signed_between low top)) w.now) }
    ensures outside { result ≡ Err WireFault.D2 → IsOutside strict (signed_between low top) true w.now }
    ensures same { IfOk result (λ y. y ≡ x) }
{
    if is_refused_signed(w, strict) {
        return Err(WireFault::R6);
    }
    let Some(x) = x else {
        return Ok(None);
    };
    if !is_within(x, low, top) {
        return Err(WireFault::D2);
    }
    Ok(Some(x))
}

/// Returns the lower seven bits of each byte as one number.
fn number_of(w: &[u8]) -> u128
    requires { length w.now ≤ 10 }
    ensures value { result ≡ number w.now }
    ensures small { result < 2 ^ (7 * length w.now) }
{
    let mut sum: u128 = 0;
    for byte in w {
        sum = sum << 7 | u128::from(*byte & 0x7f);
    }
    sum
}

/// Returns the lower seven bits of each byte as one number in two's complement.
fn signed_of(w: &[u8]) -> i128
    requires entity { IsEntity w.now }
    requires short { length w.now ≤ 10 }
    ensures { result ≡ signed w.now }
{
    let sum = number_of(w) as i128;
    if w[0] & 0x40 != 0 {
        sum - (1i128 << (7 * w.len()))
    } else {
        sum
    }
}

/// Returns whether an unsigned integer has a byte too many, in strict mode: a zero in front.
#[inline(always)]
fn is_refused_unsigned(w: &[u8], strict: bool) -> bool
    requires { IsEntity w.now }
    ensures { IsTrue result ↔ (IsTrue strict × IsOverlong (λ v. pos (number v)) w.now) }
{
    w[0] == 0 && strict
}

/// Returns whether a signed integer has a byte too many, in strict mode: seven bits in front that repeat the sign of the next byte.
#[inline(always)]
fn is_refused_signed(w: &[u8], strict: bool) -> bool
    requires { IsEntity w.now }
    ensures { IsTrue result ↔ (IsTrue strict × IsOverlong signed w.now) }
{
    if !strict {
        return false;
    }
    w.len() > 1 && w[0] == sign_byte(w[1])
}

/// Returns seven bits like the sign bit of `byte`.
#[inline(always)]
fn sign_byte(byte: u8) -> u8
    ensures { result ≡ (if has_sign (byte ∷ []) then 127 else 0) }
{
    if byte & 0x40 == 0 { 0x00 } else { 0x7f }
}

/// Returns the integer that the nullable form sends as `n`: `None` is NULL.
#[inline(always)]
fn lowered(n: i128) -> Option<i128>
    ensures { Means true n result }
{
    match n {
        0 => None,
        1.. => Some(n - 1),
        _ => Some(n),
    }
}

/// Returns whether an integer lies in a range.
#[inline(always)]
fn is_within(x: i128, low: i128, top: i128) -> bool
    ensures { IsTrue result ↔ IsWithin (signed_between low top) x }
{
    low <= x && x <= top
}
