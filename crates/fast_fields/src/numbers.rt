//! Numbers that are complete in the bytes that they begin with, read by the functions of the decoder's arms: integers of up to eight bytes,
//! and decimals.
//!
//! `None` stands for all other fields, and for numbers with a fault: nothing has changed then, and they are read unit after unit.

ghost use Rattle.std.specs.Prelude.{◌≡◌, ◌≢◌, ℕ, List, ℤ, pos, IfSome, IfNone};
ghost use Rattle.fast_wire.specs.meaning.Integers.{unsigned_up_to, signed_between};
ghost use Rattle.fast_value.specs.meaning.Kinds.{U, I, family, integers, value_of_integer};
ghost use Rattle.fast_value.specs.meaning.Limits.{Bounds};
ghost use Rattle.fast_tree.specs.meaning.Nodes.{field_data};
ghost use Rattle.fast_dict.specs.meaning.Operators.{range_of};
ghost use Rattle.fast_dict.specs.meaning.Slots.{slots_dictionary, slots_terms};
ghost use Rattle.fast_units.specs.device.Deciding.{source_of};
ghost use Rattle.fast_units.specs.device.TextDecisions.{first_reader};
ghost use Rattle.fast_units.specs.device.Words.{ServesField, sent_reader, IsLastUnitOf};
ghost use Rattle.fast_fields.specs.device.Readings.{IsFieldReading};

use crate::reading::{Reading, WholeField};
use fast_dict::Slots;
use fast_fronts::{Rest, whole_delta};
use fast_items::decimal_items::{changed_decimal, copied_decimal, plain_decimal};
use fast_items::integer_items::{sent_signed, sent_unsigned};
use fast_items::taken::TakenItem;
use fast_tree::{FieldInstruction, Operator};
use fast_units::fields::source_of;
use fast_units::numbers::change_integer;
use fast_units::progress::Progress;
use fast_units::source::ValueSource;
use fast_value::{Kind, Limits};

/// Returns the greatest integer of an unsigned type.
#[inline(always)]
fn unsigned_top(kind: Kind) -> Option<u64>
    ensures range { IfSome result (λ top. unsigned_up_to top ≡ range_of kind) }
    ensures unsigned { IfSome result (λ _. (n : ℕ) → value_of_integer kind (pos n) ≡ U n) }
    ensures integers { IfSome result (λ _. family kind ≡ integers (range_of kind)) }
{
    match kind {
        Kind::UInt32 => Some(4_294_967_295),
        Kind::UInt64 => Some(18_446_744_073_709_551_615),
        _ => None,
    }
}

/// Returns the least and the greatest integer of a signed type.
#[inline(always)]
fn signed_bounds(kind: Kind) -> Option<(i64, i64)>
    ensures range { IfSome result (λ r. signed_between r.0 r.1 ≡ range_of kind) }
    ensures signed { IfSome result (λ _. (x : ℤ) → value_of_integer kind x ≡ I x) }
    ensures integers { IfSome result (λ _. family kind ≡ integers (range_of kind)) }
{
    match kind {
        Kind::Int32 => Some((-2_147_483_648, 2_147_483_647)),
        Kind::Int64 => Some((i64::MIN, i64::MAX)),
        _ => None,
    }
}

/// Reads an integer under an operator other than delta, if it has at most eight bytes.
#[inline(always)]
fn sent_integer(
    slots: &mut Slots,
    field: &FieldInstruction,
    rest: Rest<'_>,
    strict: bool,
) -> Option<TakenItem>
    requires serves { ServesField slots.old field.now }
    requires varies { field.now.operator ≢ Operator.Constant }
    requires no_delta { field.now.operator ≢ Operator.Delta }
    ensures unit { IfSome result (λ r. (l : Bounds) (scratch : List ℕ)
        → IsLastUnitOf (sent_reader strict l slots.old field.now) field.now rest.entry.bytes.now slots.old slots.new
        scratch (Progress.Whole (source_of r.item) r.bytes)) }
    ensures none { IfNone result (slots.new ≡ slots.old) }
    ensures terms { slots_terms slots.new ≡ slots_terms slots.old }
{
    // an operator that keeps no value has no entry, and needs none
    let entry = field.entry.unwrap_or(0);
    let (kind, optional, operator) = (field.kind, field.optional, field.operator);
    if let Some(top) = unsigned_top(kind) {
        return sent_unsigned(slots, entry, kind, optional, operator, rest, strict, top);
    }
    let (low, top) = signed_bounds(kind)?;
    sent_signed(
        slots, entry, kind, optional, operator, rest, strict, low, top,
    )
}

/// Reads an integer under delta, if the delta has at most eight bytes.
#[inline(never)]
fn changed_integer(
    slots: &mut Slots,
    field: &FieldInstruction,
    rest: Rest<'_>,
    strict: bool,
) -> Option<(ValueSource, usize)>
    requires serves { ServesField slots.old field.now }
    requires integers { family field.now.kind ≡ integers (range_of field.now.kind) }
    requires delta { field.now.operator ≡ Operator.Delta }
    ensures unit { IfSome result (λ r. (l : Bounds) (scratch : List ℕ)
        → IsLastUnitOf (sent_reader strict l slots.old field.now) field.now rest.entry.bytes.now slots.old slots.new
        scratch (Progress.Whole r.0 r.1)) }
    ensures none { IfNone result (slots.new ≡ slots.old) }
    ensures terms { slots_terms slots.new ≡ slots_terms slots.old }
{
    let (change, bytes) = whole_delta(rest, field.optional, strict)?;
    match change {
        Some(delta) => match change_integer(slots, field, i128::from(delta)) {
            Ok(source) => Some((source, bytes)),
            Err(_) => None,
        },
        None => Some((ValueSource::Absent, bytes)),
    }
}

/// Returns the field that an item is.
#[inline(always)]
fn item_field(taken: TakenItem) -> WholeField
    ensures { result ≡ record { source = source_of taken.item; from = 0; bytes = taken.bytes } }
{
    WholeField {
        source: source_of(taken.item),
        from: 0,
        bytes: taken.bytes,
    }
}

/// Reads an integer, if it has at most eight bytes.
#[inline(always)]
fn whole_integer(
    slots: &mut Slots,
    field: &FieldInstruction,
    bytes: &[u8],
    limits: &Limits,
) -> Option<WholeField>
    requires serves { ServesField slots.old field.now }
    requires integers { family field.now.kind ≡ integers (range_of field.now.kind) }
    requires varies { field.now.operator ≢ Operator.Constant }
    ensures whole { IfSome result (λ found. (scratch : List ℕ) → IsFieldReading (first_reader limits.now
        (field_data field.now) (slots_dictionary slots.old)) (field_data field.now) bytes.now
        (slots_dictionary slots.old) (slots_dictionary slots.new) scratch (Reading.Whole found)) }
    ensures none { IfNone result (slots.new ≡ slots.old) }
    ensures terms { slots_terms slots.new ≡ slots_terms slots.old }
{
    let rest = Rest::new(bytes);
    if field.operator == Operator::Delta {
        let (source, bytes) = changed_integer(slots, field, rest, limits.strict)?;
        return Some(WholeField {
            source,
            from: 0,
            bytes,
        });
    }
    let taken = sent_integer(slots, field, rest, limits.strict)?;
    Some(item_field(taken))
}

/// Reads a decimal as the arms do: its exponent is one byte, and its mantissa has at most eight.
#[inline(always)]
fn sent_decimal(
    slots: &mut Slots,
    field: &FieldInstruction,
    rest: Rest<'_>,
    strict: bool,
) -> Option<TakenItem>
    requires serves { ServesField slots.old field.now }
    requires kind { field.now.kind ≡ Kind.Decimal }
    ensures unit { IfSome result (λ r. (l : Bounds) (scratch : List ℕ)
        → IsLastUnitOf (sent_reader strict l slots.old field.now) field.now rest.entry.bytes.now slots.old slots.new
        scratch (Progress.Whole (source_of r.item) r.bytes)) }
    ensures none { IfNone result (slots.new ≡ slots.old) }
    ensures terms { slots_terms slots.new ≡ slots_terms slots.old }
{
    match field.operator {
        Operator::None => plain_decimal(slots, 0, field.optional, rest, strict),
        Operator::Copy => copied_decimal(slots, field.entry?, field.optional, rest, strict),
        Operator::Delta => changed_decimal(slots, field.entry?, field.optional, rest, strict),
        _ => None,
    }
}

/// Reads a decimal.
#[inline(never)]
fn whole_decimal(
    slots: &mut Slots,
    field: &FieldInstruction,
    bytes: &[u8],
    limits: &Limits,
) -> Option<WholeField>
    requires serves { ServesField slots.old field.now }
    requires kind { field.now.kind ≡ Kind.Decimal }
    ensures whole { IfSome result (λ found. (scratch : List ℕ) → IsFieldReading (first_reader limits.now
        (field_data field.now) (slots_dictionary slots.old)) (field_data field.now) bytes.now
        (slots_dictionary slots.old) (slots_dictionary slots.new) scratch (Reading.Whole found)) }
    ensures none { IfNone result (slots.new ≡ slots.old) }
    ensures terms { slots_terms slots.new ≡ slots_terms slots.old }
{
    let taken = sent_decimal(slots, field, Rest::new(bytes), limits.strict)?;
    Some(item_field(taken))
}

/// Reads a number field that is in the stream, if it is complete and one of those that are read at once.
#[inline(always)]
pub(crate) fn whole_number(
    slots: &mut Slots,
    field: &FieldInstruction,
    bytes: &[u8],
    limits: &Limits,
) -> Option<WholeField>
    requires serves { ServesField slots.old field.now }
    requires varies { field.now.operator ≢ Operator.Constant }
    ensures whole { IfSome result (λ found. (scratch : List ℕ) → IsFieldReading (first_reader limits.now
        (field_data field.now) (slots_dictionary slots.old)) (field_data field.now) bytes.now
        (slots_dictionary slots.old) (slots_dictionary slots.new) scratch (Reading.Whole found)) }
    ensures none { IfNone result (slots.new ≡ slots.old) }
    ensures terms { slots_terms slots.new ≡ slots_terms slots.old }
{
    match field.kind {
        Kind::UInt32 | Kind::Int32 | Kind::UInt64 | Kind::Int64 => {
            whole_integer(slots, field, bytes, limits)
        }
        Kind::Decimal => {
            let found = whole_decimal(slots, field, bytes, limits)?;
            Some(found)
        }
        Kind::Ascii | Kind::Unicode | Kind::Bytes => None,
    }
}
