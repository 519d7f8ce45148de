//! Integer fields that are in the piece completely. Entry, type, operator and presence are arguments: constants at the calls, which fold by
//! them.
//!
//! `None` stands for all others, faults included: nothing has changed then, and the general path decodes them.

ghost use Rattle.std.specs.Prelude.{◌≡◌, ◌≢◌, ◌<◌, ◌^◌, IsTrue, ℕ, length, ℤ, pos, ◌+ℤ◌, Some, Ok, IfSome, IfNone, option_map};
ghost use Rattle.fast_wire.specs.meaning.Integers.{IsWithin, signed_range, unsigned_up_to, signed_between};
ghost use Rattle.fast_value.specs.meaning.Kinds.{U, I, family, integers, integer_of, value_of_integer};
ghost use Rattle.fast_dict.specs.meaning.Dictionary.{assigned, write_at};
ghost use Rattle.fast_dict.specs.meaning.Operators.{range_of, ranged};
ghost use Rattle.fast_dict.specs.meaning.Slots.{slots_dictionary, slots_terms};
ghost use Rattle.fast_stream.specs.meaning.Fields.{sent_integer};
ghost use Rattle.fast_units.specs.device.Deciding.{number_data, sent_number};
ghost use Rattle.fast_items.specs.device.FieldsAs.{IsEntryFor, IsSentItem};
ghost use Rattle.fast_items.specs.device.IntegerItems.{KeepsItem, IsBehindDelta};

use crate::taken::TakenItem;
use fast_dict::{Slots, Store};
use fast_fronts::{Rest, whole_delta, whole_signed, whole_unsigned};
use fast_tree::Operator;
use fast_units::fields::{Number, number_under};
use fast_value::{Code, Kind};

/// Stores a number at the entry, under the type.
#[inline(always)]
pub fn keep_at(slots: &mut Slots, entry: u32, kind: Kind, number: Number)
    requires within { entry < length (slots_dictionary slots.old) }
    ensures entry { slots_dictionary slots.new
        ≡ write_at (Some entry) (assigned kind (number_data number)) (slots_dictionary slots.old) }
    ensures terms { slots_terms slots.new ≡ slots_terms slots.old }
{
    slots.set_number(entry as usize, number.held_under(kind));
}

/// Stores a number as [`keep_at`] does, at an entry that holds an integer under the type: only the number is written.
#[inline(always)]
pub fn keep_changed_at(slots: &mut Slots, entry: u32, kind: Kind, number: Number)
    requires within { entry < length (slots_dictionary slots.old) }
    ensures entry { slots_dictionary slots.new
        ≡ write_at (Some entry) (assigned kind (number_data number)) (slots_dictionary slots.old) }
    ensures terms { slots_terms slots.new ≡ slots_terms slots.old }
{
    slots.change_number(entry as usize, number.held_under(kind));
}

/// Stores a number that is sent at the entry, or empties it after NULL, if the operator keeps a value.
#[inline(always)]
fn keep_item_at(slots: &mut Slots, entry: u32, kind: Kind, operator: Operator, item: Option<Number>)
    requires within { IsEntryFor slots.old operator entry }
    ensures entry { KeepsItem kind operator entry slots.old slots.new item }
    ensures terms { slots_terms slots.new ≡ slots_terms slots.old }
{
    match operator {
        Operator::None | Operator::Constant | Operator::Default => {}
        Operator::Copy | Operator::Increment | Operator::Delta | Operator::Tail => match item {
            Some(number) => keep_at(slots, entry, kind, number),
            None => slots.set_empty(entry as usize),
        },
    }
}

/// Returns an unsigned integer, or NULL, as an item.
#[inline(always)]
fn unsigned_number(number: Option<u64>) -> Option<Number>
    ensures { (kind : Kind) → ((n : ℕ) → value_of_integer kind (pos n) ≡ U n)
        → sent_number result ≡ sent_integer kind (option_map pos number) }
{
    match number {
        Some(number) => Some(Number::Unsigned(number)),
        None => None,
    }
}

/// Returns a signed integer, or NULL, as an item.
#[inline(always)]
fn signed_number(number: Option<i64>) -> Option<Number>
    ensures { (kind : Kind) → ((x : ℤ) → value_of_integer kind x ≡ I x)
        → sent_number result ≡ sent_integer kind number }
{
    match number {
        Some(number) => Some(Number::Signed(number)),
        None => None,
    }
}

/// Reads an unsigned integer, or NULL, under an operator other than delta: copy and increment store it.
#[inline(always)]
pub fn sent_unsigned(
    slots: &mut Slots,
    entry: u32,
    kind: Kind,
    optional: bool,
    operator: Operator,
    rest: Rest<'_>,
    strict: bool,
    top: u64,
) -> Option<TakenItem>
    requires range { unsigned_up_to top ≡ range_of kind }
    requires unsigned { (n : ℕ) → value_of_integer kind (pos n) ≡ U n }
    requires integers { family kind ≡ integers (range_of kind) }
    requires no_delta { operator ≢ Operator.Delta }
    requires no_constant { operator ≢ Operator.Constant }
    requires within { IsEntryFor slots.old operator entry }
    ensures unit { IfSome result (IsSentItem kind optional operator entry strict rest.entry.bytes.now slots.old slots.new) }
    ensures none { IfNone result (slots.new ≡ slots.old) }
    ensures terms { slots_terms slots.new ≡ slots_terms slots.old }
{
    // those without operator have no usual length
    let mostly_short = operator != Operator::None;
    let (number, bytes) = whole_unsigned(rest, optional, strict, top, mostly_short)?;
    let item = unsigned_number(number);
    keep_item_at(slots, entry, kind, operator, item);
    Some(TakenItem { item, bytes })
}

/// Reads a signed integer, or NULL, under an operator other than delta: copy and increment store it.
#[inline(always)]
pub fn sent_signed(
    slots: &mut Slots,
    entry: u32,
    kind: Kind,
    optional: bool,
    operator: Operator,
    rest: Rest<'_>,
    strict: bool,
    low: i64,
    top: i64,
) -> Option<TakenItem>
    requires range { signed_between low top ≡ range_of kind }
    requires signed { (x : ℤ) → value_of_integer kind x ≡ I x }
    requires integers { family kind ≡ integers (range_of kind) }
    requires no_delta { operator ≢ Operator.Delta }
    requires no_constant { operator ≢ Operator.Constant }
    requires within { IsEntryFor slots.old operator entry }
    ensures unit { IfSome result (IsSentItem kind optional operator entry strict rest.entry.bytes.now slots.old slots.new) }
    ensures none { IfNone result (slots.new ≡ slots.old) }
    ensures terms { slots_terms slots.new ≡ slots_terms slots.old }
{
    let mostly_short = operator != Operator::None;
    let (number, bytes) = whole_signed(rest, optional, strict, low, top, mostly_short)?;
    let item = signed_number(number);
    keep_item_at(slots, entry, kind, operator, item);
    Some(TakenItem { item, bytes })
}

/// Adds a delta to an unsigned integer of 32 bits, if the sum is one too. If both have 32 bits, nothing has wrapped.
#[inline(always)]
fn unsigned_sum_32(base: u64, delta: i64) -> Option<u64>
    ensures sum { IfSome result (λ n. pos n ≡ pos base +ℤ delta) }
    ensures small { IfSome result (λ n. n < 2 ^ 32) }
{
    let sum = base.wrapping_add_signed(delta);
    if base > 4_294_967_295 || sum > 4_294_967_295 {
        return None;
    }
    Some(sum)
}

/// Adds a delta to an unsigned integer of 64 bits, if the sum is one too. If nothing wraps, the sum is less exactly for a delta below zero.
#[inline(always)]
fn unsigned_sum_64(base: u64, delta: i64) -> Option<u64>
    ensures { IfSome result (λ n. pos n ≡ pos base +ℤ delta) }
{
    let sum = base.wrapping_add_signed(delta);
    if (sum < base) == (delta < 0) {
        Some(sum)
    } else {
        None
    }
}

/// Adds a delta to a signed integer of 32 bits, if the sum is one too.
#[inline(always)]
fn signed_sum_32(base: i64, delta: i64) -> Option<i64>
    ensures sum { IfSome result (λ x. x ≡ base +ℤ delta) }
    ensures within { IfSome result (λ x. IsWithin (signed_range 31) x) }
{
    let sum = base.wrapping_add(delta);
    if !is_32_bits(base) || !is_32_bits(sum) {
        return None;
    }
    Some(sum)
}

/// Returns whether a number has 32 bits.
#[inline(always)]
fn is_32_bits(number: i64) -> bool
    ensures { IsTrue result → IsWithin (signed_range 31) number }
{
    -2_147_483_648 <= number && number <= 2_147_483_647
}

/// Adds a delta to an integer, if it is one of the type, and so is the sum.
#[inline(always)]
fn sum_of(kind: Kind, number: Number, delta: i64) -> Option<Number>
    ensures { IfSome result (λ n. (x : ℤ)
        × (ranged (range_of kind) Code.D2 (integer_of (number_data number) +ℤ delta) ≡ Ok x)
        × (number_data n ≡ value_of_integer kind x)) }
{
    match (kind, number) {
        (Kind::UInt32, Number::Unsigned(base)) => {
            let sum = unsigned_sum_32(base, delta)?;
            Some(Number::Unsigned(sum))
        }
        (Kind::UInt64, Number::Unsigned(base)) => {
            let sum = unsigned_sum_64(base, delta)?;
            Some(Number::Unsigned(sum))
        }
        (Kind::Int32, Number::Signed(base)) => {
            let sum = signed_sum_32(base, delta)?;
            Some(Number::Signed(sum))
        }
        (Kind::Int64, Number::Signed(base)) => {
            let sum = base.checked_add(delta)?;
            Some(Number::Signed(sum))
        }
        _ => None,
    }
}

/// Adds a delta to the entry's number, and stores the sum there: if the entry holds a number of the type, and the sum is one.
#[inline(always)]
fn change_at(slots: &mut Slots, entry: u32, kind: Kind, delta: i64) -> Option<Number>
    requires within { entry < length (slots_dictionary slots.old) }
    ensures decided { IfSome result (IsBehindDelta kind entry delta slots.old slots.new) }
    ensures none { IfNone result (slots.new ≡ slots.old) }
    ensures terms { slots_terms slots.new ≡ slots_terms slots.old }
{
    let number = number_under(kind, slots.held(entry as usize))?;
    let sum = sum_of(kind, number, delta)?;
    keep_changed_at(slots, entry, kind, sum);
    Some(sum)
}

/// Reads an integer under delta, or NULL, which changes nothing.
#[inline(always)]
pub fn sent_delta(
    slots: &mut Slots,
    entry: u32,
    kind: Kind,
    optional: bool,
    rest: Rest<'_>,
    strict: bool,
) -> Option<TakenItem>
    requires integers { family kind ≡ integers (range_of kind) }
    requires within { IsEntryFor slots.old Operator.Delta entry }
    ensures unit { IfSome result (IsSentItem kind optional Operator.Delta entry strict rest.entry.bytes.now slots.old slots.new) }
    ensures none { IfNone result (slots.new ≡ slots.old) }
    ensures terms { slots_terms slots.new ≡ slots_terms slots.old }
{
    let (change, bytes) = whole_delta(rest, optional, strict)?;
    match change {
        Some(delta) => {
            let number = change_at(slots, entry, kind, delta)?;
            Some(TakenItem {
                item: Some(number),
                bytes,
            })
        }
        None => Some(TakenItem { item: None, bytes }),
    }
}
