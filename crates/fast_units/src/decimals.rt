//! Decimals: their two units, exponent and mantissa, and their effect on the dictionary.

ghost use Rattle.std.specs.Prelude.{false, Some, ◌≡◌, ◌≢◌, ℕ, List, ℤ, pos, neg_ℤ, ◌≤ℤ◌, Ok};
ghost use Rattle.fast_value.specs.meaning.Kinds.{Dec, decimals, family, signed_range};
ghost use Rattle.fast_value.specs.meaning.Limits.{bounds};
ghost use Rattle.fast_tree.specs.meaning.Nodes.{field_data};
ghost use Rattle.fast_dict.specs.meaning.Operators.{mantissa_step, range_of};
ghost use Rattle.fast_dict.specs.meaning.Slots.{slots_terms};
ghost use Rattle.fast_stream.specs.device.GrammarReaders.{reader_of};
ghost use Rattle.fast_units.specs.device.NextUnits.{IsShort};
ghost use Rattle.fast_units.specs.device.Stages.{term_behind, IsStageOf};
ghost use Rattle.fast_units.specs.device.Deciding.{number_data};
ghost use Rattle.fast_units.specs.device.Words.{ServesField, previous_of, sent_reader, IsLastUnitOf, IsUnitOf, IsDecidedIn};

use crate::fields::{Number, keep, previous};
use crate::numbers::{DELTA, MANTISSA, range_on_wire, received};
use crate::progress::{Progress, answered};
use crate::source::ValueSource;
use crate::stages::{FieldStep, Stage};
use crate::units::next_integer;
use fast_dict::Slots;
use fast_dict::operators::decimals::{exponent_delta, mantissa_of};
use fast_dict::operators::delta_base;
use fast_dict::operators::integers::{range_of, sum_in};
use fast_tree::{FieldInstruction, Operator};
use fast_value::{Code, Kind, Limits};

/// Reads the first unit of a decimal in the stream: its exponent, or the delta of its exponent. If that is NULL, the decimal is absent.
#[inline(always)]
pub fn take_exponent(
    slots: &mut Slots,
    field: &FieldInstruction,
    rest: &[u8],
    limits: Limits,
) -> Progress<FieldStep>
    requires serves { ServesField slots.old field.now }
    requires decimals { family field.now.kind ≡ decimals }
    requires sent { field.now.operator ≢ Operator.Constant }
    ensures unit { (scratch : List ℕ) → IsUnitOf limits (sent_reader limits.strict (bounds limits) slots.old field.now)
        field.now rest.now slots.old slots.new scratch result }
    ensures short { IsShort rest.now result }
    ensures terms { slots_terms slots.new ≡ slots_terms slots.old }
{
    match field.operator {
        Operator::Delta => take_exponent_delta(slots, field, rest, limits),
        _ => take_exponent_item(slots, field, rest, limits),
    }
}

/// Reads the exponent of a decimal, or NULL, under an operator other than delta.
fn take_exponent_item(
    slots: &mut Slots,
    field: &FieldInstruction,
    rest: &[u8],
    limits: Limits,
) -> Progress<FieldStep>
    requires serves { ServesField slots.old field.now }
    requires decimals { family field.now.kind ≡ decimals }
    requires no_delta { field.now.operator ≢ Operator.Delta }
    requires no_constant { field.now.operator ≢ Operator.Constant }
    ensures unit { (scratch : List ℕ) → IsUnitOf limits (sent_reader limits.strict (bounds limits) slots.old field.now)
        field.now rest.now slots.old slots.new scratch result }
    ensures short { IsShort rest.now result }
    ensures terms { slots_terms slots.new ≡ slots_terms slots.old }
{
    let range = range_on_wire(field.kind);
    match next_integer(rest, limits.strict, range, field.optional, Code::R1) {
        Progress::Whole(Some(integer), bytes) => {
            Progress::Whole(FieldStep::Next(Stage::Mantissa(exponent(integer))), bytes)
        }
        Progress::Whole(None, bytes) => {
            Progress::Whole(FieldStep::Settled(received(slots, field, None)), bytes)
        }
        Progress::Wrong(code, bytes) => Progress::Wrong(code, bytes),
        Progress::Cut => Progress::Cut,
    }
}

/// Returns an exponent that lies in range.
#[inline]
fn exponent(exponent: i128) -> i32
    requires low { neg_ℤ (pos 63) ≤ℤ exponent }
    requires high { exponent ≤ℤ pos 63 }
    ensures { result ≡ exponent }
{
    exponent as i32
}

/// Reads the delta of a decimal's exponent, or NULL, which leaves the entry unchanged and does not look at it.
fn take_exponent_delta(
    slots: &mut Slots,
    field: &FieldInstruction,
    rest: &[u8],
    limits: Limits,
) -> Progress<FieldStep>
    requires serves { ServesField slots.old field.now }
    requires decimals { family field.now.kind ≡ decimals }
    requires delta { field.now.operator ≡ Operator.Delta }
    ensures unit { (scratch : List ℕ) → IsUnitOf limits (sent_reader limits.strict (bounds limits) slots.old field.now)
        field.now rest.now slots.old slots.new scratch result }
    ensures short { IsShort rest.now result }
    ensures terms { slots_terms slots.new ≡ slots_terms slots.old }
{
    match next_integer(rest, limits.strict, DELTA, field.optional, Code::D2) {
        Progress::Whole(Some(delta), bytes) => {
            match exponent_delta(field, previous(slots, field), delta) {
                Ok(exponent) => Progress::Whole(
                    FieldStep::Next(Stage::MantissaDelta(exponent)),
                    bytes,
                ),
                Err(code) => Progress::Wrong(code, bytes),
            }
        }
        Progress::Whole(None, bytes) => Progress::Whole(
            FieldStep::Settled(ValueSource::Absent),
            bytes,
        ),
        Progress::Wrong(code, bytes) => Progress::Wrong(code, bytes),
        Progress::Cut => Progress::Cut,
    }
}

/// Reads the second unit of a decimal, after its exponent: the mantissa.
pub fn take_mantissa(
    slots: &mut Slots,
    field: &FieldInstruction,
    exponent: i32,
    rest: &[u8],
    limits: Limits,
) -> Progress<ValueSource>
    requires serves { ServesField slots.old field.now }
    requires stage { IsStageOf (bounds limits) (field_data field.now) (previous_of slots.old field.now)
        (Stage.Mantissa exponent) }
    ensures unit { (scratch : List ℕ) → IsLastUnitOf (reader_of limits.strict
        (term_behind (bounds limits) (field_data field.now) (previous_of slots.old field.now)
        (Stage.Mantissa exponent))) field.now rest.now slots.old slots.new scratch result }
    ensures short { IsShort rest.now result }
    ensures terms { slots_terms slots.new ≡ slots_terms slots.old }
{
    match next_integer(rest, limits.strict, MANTISSA, false, Code::R1) {
        Progress::Whole(Some(mantissa), bytes) => {
            let number = decimal(exponent, mantissa);
            Progress::Whole(received(slots, field, Some(number)), bytes)
        }
        Progress::Whole(None, bytes) => Progress::Whole(received(slots, field, None), bytes),
        Progress::Wrong(code, bytes) => Progress::Wrong(code, bytes),
        Progress::Cut => Progress::Cut,
    }
}

/// Returns the decimal of an exponent and a mantissa in range.
#[inline]
pub fn decimal(exponent: i32, mantissa: i128) -> Number
    requires low { (signed_range 63).low ≤ℤ mantissa }
    requires high { mantissa ≤ℤ (signed_range 63).high }
    ensures { number_data result ≡ Dec exponent mantissa }
{
    Number::Decimal {
        exponent,
        mantissa: mantissa as i64,
    }
}

/// Reads the second unit of a decimal under delta, after its exponent: the delta of the mantissa.
pub fn take_mantissa_delta(
    slots: &mut Slots,
    field: &FieldInstruction,
    exponent: i32,
    rest: &[u8],
    limits: Limits,
) -> Progress<ValueSource>
    requires serves { ServesField slots.old field.now }
    requires stage { IsStageOf (bounds limits) (field_data field.now) (previous_of slots.old field.now)
        (Stage.MantissaDelta exponent) }
    ensures unit { (scratch : List ℕ) → IsLastUnitOf (reader_of limits.strict
        (term_behind (bounds limits) (field_data field.now) (previous_of slots.old field.now)
        (Stage.MantissaDelta exponent))) field.now rest.now slots.old slots.new scratch result }
    ensures short { IsShort rest.now result }
    ensures terms { slots_terms slots.new ≡ slots_terms slots.old }
{
    match next_integer(rest, limits.strict, DELTA, false, Code::D2) {
        Progress::Whole(Some(delta), bytes) => {
            answered(change_mantissa(slots, field, exponent, delta), bytes)
        }
        Progress::Whole(None, bytes) => Progress::Whole(ValueSource::Absent, bytes),
        Progress::Wrong(code, bytes) => Progress::Wrong(code, bytes),
        Progress::Cut => Progress::Cut,
    }
}

/// Returns the decimal after the delta of its mantissa, which the entry then holds.
#[inline]
fn change_mantissa(
    slots: &mut Slots,
    field: &FieldInstruction,
    exponent: i32,
    delta: i128,
) -> Result<ValueSource, Code>
    requires serves { ServesField slots.old field.now }
    ensures decided { IsDecidedIn (mantissa_step (field_data field.now) (previous_of slots.old field.now) exponent
        delta) field.now slots.old slots.new result }
    ensures terms { slots_terms slots.new ≡ slots_terms slots.old }
{
    let base = mantissa_of(delta_base(field, previous(slots, field))?);
    let (low, high) = range_of(Kind::Int64);
    let sum = sum_in(low, high, Code::R1, base, delta)?;
    Ok(keep(slots, field, decimal(exponent, sum)))
}
