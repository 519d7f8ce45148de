//! Fields of integers: the values of their units, and their effect on the dictionary; and the code that decimals share with them.

ghost use Rattle.std.specs.Prelude.{IfErr, IfSome, Some, ◌≡◌, ◌≢◌, ℕ, true, List, Ok};
ghost use Rattle.fast_value.specs.meaning.Kinds.{integers, texts, family};
ghost use Rattle.fast_value.specs.meaning.Limits.{Bounds};
ghost use Rattle.fast_tree.specs.meaning.Nodes.{field_data};
ghost use Rattle.fast_dict.specs.meaning.Operators.{decide, integer_step, range_of};
ghost use Rattle.fast_dict.specs.meaning.Slots.{slots_terms};
ghost use Rattle.fast_units.specs.device.NextUnits.{range_data, IsShort};
ghost use Rattle.fast_units.specs.device.Deciding.{sent_number, base_integer};
ghost use Rattle.fast_units.specs.device.Words.{ServesField, HasEntryOf, previous_of, sent_reader, IsLastUnitOf, IsDecidedIn};

use crate::fields::{Number, assign_empty, keep, number_under, previous};
use crate::progress::{Progress, answered};
use crate::source::ValueSource;
use crate::units::{IntegerRange, next_integer};
use fast_dict::Slots;
use fast_dict::operators::delta_base;
use fast_dict::operators::integers::{integer_of, range_of, sum_in};
use fast_tree::{FieldInstruction, Operator};
use fast_value::{Code, Kind};

/// All integers that an entity of ten bytes holds, also after the nullable form has subtracted its one.
pub(crate) const DELTA: IntegerRange = IntegerRange::Signed(
    -590_295_810_358_705_651_712,
    590_295_810_358_705_651_711,
);

/// The mantissas of decimals.
pub(crate) const MANTISSA: IntegerRange = IntegerRange::Signed(
    -9_223_372_036_854_775_808,
    9_223_372_036_854_775_807,
);

/// Returns the integers of an integer type, or the exponents of decimals.
#[inline]
pub(crate) fn range_on_wire(kind: Kind) -> IntegerRange
    ensures { range_data result ≡ range_of kind }
{
    match kind {
        Kind::UInt32 => IntegerRange::Unsigned(4_294_967_295),
        Kind::UInt64 => IntegerRange::Unsigned(18_446_744_073_709_551_615),
        Kind::Int32 => IntegerRange::Signed(-2_147_483_648, 2_147_483_647),
        Kind::Int64 => MANTISSA,
        Kind::Decimal | Kind::Ascii | Kind::Unicode | Kind::Bytes => IntegerRange::Signed(-63, 63),
    }
}

/// Decodes a number that is sent, or NULL, without an operator and under default, copy and increment: copy and increment store it at the
/// field's entry, the others have none.
#[inline(always)]
pub(crate) fn received(
    slots: &mut Slots,
    field: &FieldInstruction,
    item: Option<Number>,
) -> ValueSource
    requires serves { ServesField slots.old field.now }
    requires numbers { family field.now.kind ≢ texts }
    requires no_delta { field.now.operator ≢ Operator.Delta }
    requires no_constant { field.now.operator ≢ Operator.Constant }
    ensures decided { IsDecidedIn (decide (field_data field.now) (previous_of slots.old field.now) true
        (sent_number item)) field.now slots.old slots.new (Ok result) }
    ensures terms { slots_terms slots.new ≡ slots_terms slots.old }
{
    match item {
        Some(number) => keep(slots, field, number),
        None => {
            assign_empty(slots, field);
            ValueSource::Absent
        }
    }
}

/// Returns the integer that the field's entry holds under the field's type, to which a delta is added.
#[inline(always)]
fn held_integer(slots: &Slots, field: &FieldInstruction) -> Option<i128>
    requires within { HasEntryOf slots.now field.now }
    ensures { IfSome result (λ base. base_integer (field_data field.now) (previous_of slots.now field.now) ≡ Ok base) }
{
    let number = number_under(field.kind, slots.held(field.entry? as usize))?;
    Some(integer_of(number.as_scalar()))
}

/// Returns the integer that a delta is added to. That the entry holds one is by far the most common.
#[inline(always)]
pub(crate) fn base_integer(slots: &Slots, field: &FieldInstruction) -> Result<i128, Code>
    requires within { HasEntryOf slots.now field.now }
    ensures { result ≡ base_integer (field_data field.now) (previous_of slots.now field.now) }
{
    match held_integer(slots, field) {
        Some(base) => Ok(base),
        None => other_integer(slots, field),
    }
}

/// Returns the integer that a delta is added to, whatever the entry holds.
#[cold]
#[inline(never)]
fn other_integer(slots: &Slots, field: &FieldInstruction) -> Result<i128, Code>
    requires within { HasEntryOf slots.now field.now }
    ensures { result ≡ base_integer (field_data field.now) (previous_of slots.now field.now) }
{
    Ok(integer_of(delta_base(field, previous(slots, field))?))
}

/// Adds a delta to the base of an integer field. The entry then holds the sum.
#[inline(always)]
pub fn change_integer(
    slots: &mut Slots,
    field: &FieldInstruction,
    delta: i128,
) -> Result<ValueSource, Code>
    requires serves { ServesField slots.old field.now }
    ensures decided { IsDecidedIn (integer_step (field_data field.now) (previous_of slots.old field.now) delta)
        field.now slots.old slots.new result }
    ensures same { IfErr result (λ _. slots.new ≡ slots.old) }
    ensures terms { slots_terms slots.new ≡ slots_terms slots.old }
{
    let base = base_integer(slots, field)?;
    let (low, high) = range_of(field.kind);
    let sum = sum_in(low, high, Code::D2, base, delta)?;
    Ok(keep(slots, field, Number::of_integer(field.kind, sum)))
}

/// Reads the one unit of an integer field that is in the stream. Nothing changes before it is complete.
#[inline(always)]
pub fn take_integer(
    slots: &mut Slots,
    field: &FieldInstruction,
    rest: &[u8],
    strict: bool,
) -> Progress<ValueSource>
    requires serves { ServesField slots.old field.now }
    requires integers { family field.now.kind ≡ integers (range_of field.now.kind) }
    requires sent { field.now.operator ≢ Operator.Constant }
    ensures unit { (l : Bounds) (scratch : List ℕ) → IsLastUnitOf (sent_reader strict l slots.old field.now) field.now
        rest.now slots.old slots.new scratch result }
    ensures short { IsShort rest.now result }
    ensures terms { slots_terms slots.new ≡ slots_terms slots.old }
{
    match field.operator {
        Operator::Delta => take_integer_delta(slots, field, rest, strict),
        _ => take_integer_item(slots, field, rest, strict),
    }
}

/// Reads an integer, or NULL, under an operator other than delta.
#[inline(always)]
fn take_integer_item(
    slots: &mut Slots,
    field: &FieldInstruction,
    rest: &[u8],
    strict: bool,
) -> Progress<ValueSource>
    requires serves { ServesField slots.old field.now }
    requires integers { family field.now.kind ≡ integers (range_of field.now.kind) }
    requires no_delta { field.now.operator ≢ Operator.Delta }
    requires no_constant { field.now.operator ≢ Operator.Constant }
    ensures unit { (l : Bounds) (scratch : List ℕ) → IsLastUnitOf (sent_reader strict l slots.old field.now) field.now
        rest.now slots.old slots.new scratch result }
    ensures short { IsShort rest.now result }
    ensures terms { slots_terms slots.new ≡ slots_terms slots.old }
{
    let range = range_on_wire(field.kind);
    match next_integer(rest, strict, range, field.optional, Code::D2) {
        Progress::Whole(Some(integer), bytes) => {
            let number = Number::of_integer(field.kind, integer);
            Progress::Whole(received(slots, field, Some(number)), bytes)
        }
        Progress::Whole(None, bytes) => Progress::Whole(received(slots, field, None), bytes),
        Progress::Wrong(code, bytes) => Progress::Wrong(code, bytes),
        Progress::Cut => Progress::Cut,
    }
}

/// Reads the delta of an integer, or NULL, which leaves the entry unchanged and does not look at it.
#[inline(always)]
fn take_integer_delta(
    slots: &mut Slots,
    field: &FieldInstruction,
    rest: &[u8],
    strict: bool,
) -> Progress<ValueSource>
    requires serves { ServesField slots.old field.now }
    requires integers { family field.now.kind ≡ integers (range_of field.now.kind) }
    requires delta { field.now.operator ≡ Operator.Delta }
    ensures unit { (l : Bounds) (scratch : List ℕ) → IsLastUnitOf (sent_reader strict l slots.old field.now) field.now
        rest.now slots.old slots.new scratch result }
    ensures short { IsShort rest.now result }
    ensures terms { slots_terms slots.new ≡ slots_terms slots.old }
{
    match next_integer(rest, strict, DELTA, field.optional, Code::D2) {
        Progress::Whole(Some(delta), bytes) => answered(change_integer(slots, field, delta), bytes),
        Progress::Whole(None, bytes) => Progress::Whole(ValueSource::Absent, bytes),
        Progress::Wrong(code, bytes) => Progress::Wrong(code, bytes),
        Progress::Cut => Progress::Cut,
    }
}
