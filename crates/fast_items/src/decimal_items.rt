//! Decimals of one field, both of whose units are in the piece completely: an exponent of one byte, or its delta, followed by the mantissa.
//!
//! They are inlined at their calls, with numbers and slices alone. Presence is an argument: a constant there, by which they fold.
//!
//! `None` stands for all others, faults included: nothing has changed then, and the general path decodes them.

ghost use Rattle.std.specs.Prelude.{◌≡◌, ◌<◌, ◌+ℤ◌, ◌≤ℤ◌, Bool, false, ℤ, pos, neg_ℤ, Some, Ok, IfSome, IfNone, length};
ghost use Rattle.fast_fronts.specs.device.Fronts.{IsFirstInt};
ghost use Rattle.fast_wire.specs.meaning.Integers.{signed_range, delta_range, exponent_range};
ghost use Rattle.fast_fronts.specs.declared.fronts.First.TheVariants.{Whole};
ghost use Rattle.fast_value.specs.meaning.Kinds.{Dec};
ghost use Rattle.fast_dict.specs.meaning.Dictionary.{assigned, previous_at};
ghost use Rattle.fast_dict.specs.meaning.Operators.{ranged};
ghost use Rattle.fast_dict.specs.meaning.Slots.{slots_dictionary, slots_terms};
ghost use Rattle.fast_stream.specs.meaning.Grammar.{integer};
ghost use Rattle.fast_stream.specs.meaning.Fields.{decimal_from};
ghost use Rattle.fast_stream.specs.device.GrammarReaders.{reader_of};
ghost use Rattle.fast_units.specs.device.Taking.{IsUnit};
ghost use Rattle.fast_units.specs.device.Deciding.{sent_number};
ghost use Rattle.fast_items.specs.device.FieldsAs.{IsSentItem};

use crate::integer_items::keep_at;
use crate::taken::TakenItem;
use fast_dict::{Entry, Slots, Store};
use fast_fronts::{Rest, one_byte_delta, whole_delta, whole_signed};
use fast_tree::Operator;
use fast_units::fields::Number;
use fast_units::progress::Progress;
use fast_value::{Code, Kind};

/// Returns an exponent that lies in range.
#[inline(always)]
pub(crate) fn exponent_in(exponent: i64) -> i32
    requires low { neg_ℤ (pos 63) ≤ℤ exponent }
    requires high { exponent ≤ℤ pos 63 }
    ensures { result ≡ exponent }
{
    exponent as i32
}

/// Reads an exponent of one byte, or NULL if `optional`.
#[inline(always)]
pub(crate) fn short_exponent(rest: Rest<'_>, optional: bool) -> Option<Option<i32>>
    ensures { IfSome result (λ r. (strict : Bool)
        → IsFirstInt (λ y. y) strict exponent_range optional (Whole r 1) rest.entry.bytes.now) }
{
    let item = one_byte_delta(rest.bytes, optional)?;
    match item {
        Some(exponent) => {
            if exponent < -63 || exponent > 63 {
                return None;
            }
            Some(Some(exponent_in(exponent)))
        }
        None => Some(None),
    }
}

/// Reads a mantissa, and returns it with its length.
#[inline(always)]
pub(crate) fn whole_mantissa(rest: Rest<'_>, strict: bool) -> Option<(i64, usize)>
    ensures { IfSome result (λ r. IsFirstInt (λ y. Some y) strict (signed_range 63) false (Whole r.0 r.1) rest.entry.bytes.now) }
{
    match whole_signed(rest, false, strict, i64::MIN, i64::MAX, true)? {
        (Some(mantissa), bytes) => Some((mantissa, bytes)),
        (None, _) => None,
    }
}

/// Reads a decimal that is not a delta, or NULL if `optional`.
#[inline(always)]
fn whole_decimal(rest: Rest<'_>, optional: bool, strict: bool) -> Option<TakenItem>
    ensures { IfSome result (λ r. IsUnit (reader_of strict (integer exponent_range optional Code.R1 decimal_from))
        sent_number rest.entry.bytes.now (Progress.Whole r.item r.bytes)) }
{
    let item = short_exponent(rest, optional)?;
    match item {
        Some(exponent) => {
            let (mantissa, bytes) = whole_mantissa(rest.skip(1), strict)?;
            Some(TakenItem {
                item: Some(Number::Decimal { exponent, mantissa }),
                bytes: 1 + bytes,
            })
        }
        None => Some(TakenItem {
            item: None,
            bytes: 1,
        }),
    }
}

/// Returns the decimal that the entry holds, if its type is `Decimal`.
#[inline(always)]
fn held_decimal(slots: &Slots, entry: u32) -> Option<(i32, i64)>
    requires within { entry < length (slots_dictionary slots.now) }
    ensures { IfSome result (λ d. previous_at (Some entry) (slots_dictionary slots.now)
        ≡ assigned Kind.Decimal (Dec d.0 d.1)) }
{
    match slots.held(entry as usize) {
        Entry::Decimal(exponent, mantissa) => Some((exponent, mantissa)),
        _ => None,
    }
}

/// Reads a decimal under copy, which the entry then holds, or NULL, which makes it empty.
#[inline(always)]
pub fn copied_decimal(
    slots: &mut Slots,
    entry: u32,
    optional: bool,
    rest: Rest<'_>,
    strict: bool,
) -> Option<TakenItem>
    requires within { entry < length (slots_dictionary slots.old) }
    ensures unit { IfSome result (IsSentItem Kind.Decimal optional Operator.Copy entry strict rest.entry.bytes.now slots.old
        slots.new) }
    ensures none { IfNone result (slots.new ≡ slots.old) }
    ensures terms { slots_terms slots.new ≡ slots_terms slots.old }
{
    let taken = whole_decimal(rest, optional, strict)?;
    match taken.item {
        Some(number) => keep_at(slots, entry, Kind::Decimal, number),
        None => slots.set_empty(entry as usize),
    }
    Some(taken)
}

/// Returns the exponent after its delta.
#[inline(always)]
fn changed_exponent(exponent: i32, delta: i64) -> Option<i32>
    ensures { IfSome result (λ e. ranged exponent_range Code.R1 (exponent +ℤ delta) ≡ Ok e) }
{
    let least = -63 - i64::from(exponent);
    if delta < least || delta > least + 126 {
        return None;
    }
    Some(exponent_in(i64::from(exponent) + delta))
}

/// Returns the mantissa after its delta, and the length of the delta.
#[inline(always)]
fn changed_mantissa(mantissa: i64, rest: Rest<'_>, strict: bool) -> Option<(i64, usize)>
    ensures { IfSome result (λ r. (j : ℤ) × IsFirstInt (λ y. y) strict delta_range false (Whole (Some j) r.1) rest.entry.bytes.now
        × (ranged (signed_range 63) Code.R1 (mantissa +ℤ j) ≡ Ok r.0)) }
{
    match whole_delta(rest, false, strict)? {
        (Some(delta), bytes) => {
            let sum = mantissa.checked_add(delta)?;
            Some((sum, bytes))
        }
        (None, _) => None,
    }
}

/// Reads a decimal under delta, which then replaces the one at the entry, or NULL, which leaves the entry unchanged.
#[inline(always)]
pub fn changed_decimal(
    slots: &mut Slots,
    entry: u32,
    optional: bool,
    rest: Rest<'_>,
    strict: bool,
) -> Option<TakenItem>
    requires within { entry < length (slots_dictionary slots.old) }
    ensures unit { IfSome result (IsSentItem Kind.Decimal optional Operator.Delta entry strict rest.entry.bytes.now slots.old
        slots.new) }
    ensures none { IfNone result (slots.new ≡ slots.old) }
    ensures terms { slots_terms slots.new ≡ slots_terms slots.old }
{
    let item = one_byte_delta(rest.bytes, optional)?;
    match item {
        Some(delta) => {
            let (exponent, mantissa) = held_decimal(slots, entry)?;
            let exponent = changed_exponent(exponent, delta)?;
            let (mantissa, bytes) = changed_mantissa(mantissa, rest.skip(1), strict)?;
            let number = Number::Decimal { exponent, mantissa };
            keep_at(slots, entry, Kind::Decimal, number);
            Some(TakenItem {
                item: Some(number),
                bytes: 1 + bytes,
            })
        }
        None => Some(TakenItem {
            item: None,
            bytes: 1,
        }),
    }
}

/// Reads a decimal without an operator, or NULL.
#[inline(always)]
pub fn plain_decimal(
    slots: &Slots,
    entry: u32,
    optional: bool,
    rest: Rest<'_>,
    strict: bool,
) -> Option<TakenItem>
    ensures { IfSome result (IsSentItem Kind.Decimal optional Operator.None entry strict rest.entry.bytes.now slots.now slots.now) }
{
    let _ = slots;
    let _ = entry;
    whole_decimal(rest, optional, strict)
}
