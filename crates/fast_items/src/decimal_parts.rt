//! Exponents and mantissas of decimals by parts, which are in the piece completely, or of which nothing is sent. They are read first and
//! stored later: if the mantissa is not read, the exponent's entry is unchanged.
//!
//! `None` stands for all others, faults included: the general path decodes them. `Some(None)` is absent.

ghost use Rattle.std.specs.Prelude.{◌≡◌, ◌≢◌, ◌<◌, Bool, true, false, [], length, Some, IfSome, option_map};
ghost use Rattle.fast_value.specs.meaning.Kinds.{I, IsWithin, exponent_range};
ghost use Rattle.fast_tree.specs.declared.instructions.FieldInstruction.{FieldInstruction};
ghost use Rattle.fast_tree.specs.meaning.Nodes.{field_data};
ghost use Rattle.fast_dict.specs.meaning.Dictionary.{Dictionary, PreviousData, previous_at, write_at};
ghost use Rattle.fast_dict.specs.meaning.Entry.{text_length, with_text};
ghost use Rattle.fast_dict.specs.meaning.Slots.{slots_dictionary, slots_terms};
ghost use Rattle.fast_units.specs.device.Deciding.{needs_bytes, number_data};
ghost use Rattle.fast_items.specs.device.DecimalParts.{part_item, KeepsPart, IsPart, IsPartBy, IsPartKnown, IsUsualExponent, IsDeltaMantissa};
ghost use Rattle.fast_items.specs.device.IntegerItems.{item_held};
ghost use Rattle.fast_units.specs.device.Words.{HasEntryOf, previous_of};

use crate::decimal_items::{exponent_in, short_exponent, whole_mantissa};
use fast_dict::{Entry, Slots};
use fast_fronts::Rest;
use fast_tree::{FieldInstruction, Operator};
use fast_units::fields::{Number, assign_empty, keep_number, needs_bytes, number_under};
use fast_value::{Kind, Value};

/// Returns the contents of the field's entry, if that is a signed integer of the type, or empty.
#[inline(always)]
fn held_part(slots: &Slots, field: &FieldInstruction, kind: Kind) -> Option<Option<i64>>
    requires within { HasEntryOf slots.now field.now }
    ensures { IfSome result (λ r. previous_of slots.now field.now ≡ item_held kind (part_item r)) }
{
    let entry = field.entry?;
    match (kind, slots.held(entry as usize)) {
        (Kind::Int32, Entry::Int32(number)) => Some(Some(number)),
        (Kind::Int64, Entry::Int64(number)) => Some(Some(number)),
        (_, Entry::Empty) => Some(None),
        _ => None,
    }
}

/// Returns the initial value, if that is a signed integer, or none.
#[inline(always)]
fn initial_part(field: &FieldInstruction) -> Option<Option<i64>>
    ensures { IfSome result (λ r. (field_data field.now).initial ≡ option_map number_data (part_item r)) }
{
    match &field.initial {
        Some(Value::I(number)) => Some(Some(*number)),
        None => Some(None),
        _ => None,
    }
}

/// Decodes a part of which nothing is sent: a constant, under default the initial value, under copy the value of the entry.
#[inline(always)]
fn known_part(slots: &Slots, field: &FieldInstruction, kind: Kind, bit: bool) -> Option<Option<i64>>
    requires no_bytes { needs_bytes field.now.operator bit ≡ false }
    requires kind { field.now.kind ≡ kind }
    requires within { HasEntryOf slots.now field.now }
    ensures { IfSome result (IsPartKnown field.now bit slots.now) }
{
    match field.operator {
        Operator::Constant if !bit => Some(None),
        Operator::Constant => initial_part(field),
        Operator::Default => initial_part(field),
        Operator::Copy => match held_part(slots, field, kind)? {
            Some(number) => Some(Some(number)),
            None if field.optional => Some(None),
            None => None,
        },
        _ => None,
    }
}

/// Reads an exponent of one byte that is sent, or NULL.
#[inline(always)]
fn sent_exponent(slots: &Slots, field: &FieldInstruction, rest: Rest<'_>) -> Option<Option<i32>>
    requires kind { field.now.kind ≡ Kind.Int32 }
    requires no_constant { field.now.operator ≢ Operator.Constant }
    ensures part { IfSome result (λ x. (strict : Bool)
        → IsPartBy true field.now true strict rest.entry.bytes.now slots.now x 1) }
    ensures within { IfSome result (λ x. IfSome x (IsWithin exponent_range)) }
{
    let _ = slots;
    match field.operator {
        Operator::Delta => None,
        _ => short_exponent(rest, field.optional),
    }
}

/// Decodes an exponent of which nothing is sent.
#[inline(always)]
fn known_exponent(slots: &Slots, field: &FieldInstruction, bit: bool) -> Option<Option<i32>>
    requires no_bytes { needs_bytes field.now.operator bit ≡ false }
    requires kind { field.now.kind ≡ Kind.Int32 }
    requires within { HasEntryOf slots.now field.now }
    ensures known { IfSome result (IsPartKnown field.now bit slots.now) }
    ensures within { IfSome result (λ r. IfSome r (IsWithin exponent_range)) }
{
    match known_part(slots, field, Kind::Int32, bit)? {
        Some(exponent) => {
            if exponent < -63 || exponent > 63 {
                return None;
            }
            Some(Some(exponent_in(exponent)))
        }
        None => Some(None),
    }
}

/// Decodes an exponent, in its range or absent, and returns it with its number of bytes, one or none. The bit is its presence bit, set if
/// it has none.
#[inline(always)]
pub fn exponent_part(
    slots: &Slots,
    field: &FieldInstruction,
    bit: bool,
    rest: Rest<'_>,
) -> Option<(Option<i32>, usize)>
    requires kind { field.now.kind ≡ Kind.Int32 }
    requires within { HasEntryOf slots.now field.now }
    ensures part { IfSome result (λ r. (strict : Bool) → IsPart field.now bit strict rest.entry.bytes.now slots.now r.0 r.1) }
    ensures within { IfSome result (λ r. IfSome r.0 (IsWithin exponent_range)) }
{
    if needs_bytes(field, bit) {
        let sent = sent_exponent(slots, field, rest)?;
        return Some((sent, 1));
    }
    let known = known_exponent(slots, field, bit)?;
    Some((known, 0))
}

/// Returns the contents of an exponent's entry, if that is a number of its type, or empty if the exponent is optional. The number is looked
/// for first, which is one test of the tag.
#[inline(always)]
fn held_exponent(slots: &Slots, field: &FieldInstruction, optional: bool) -> Option<Option<i64>>
    requires within { HasEntryOf slots.now field.now }
    ensures held { IfSome result (λ r. previous_of slots.now field.now ≡ item_held Kind.Int32 (part_item r)) }
    ensures absent { result ≡ Some None → optional ≡ true }
{
    let held = slots.held(field.entry? as usize);
    if let Some(number) = number_under(Kind::Int32, held) {
        return match number {
            Number::Signed(number) => Some(Some(number)),
            _ => None,
        };
    }
    match held {
        Entry::Empty if optional => Some(None),
        _ => None,
    }
}

/// Decodes an exponent under default or copy of which nothing is sent.
#[inline(always)]
fn unsent_exponent(
    slots: &Slots,
    field: &FieldInstruction,
    operator: Operator,
    optional: bool,
) -> Option<Option<i32>>
    requires usual { IsUsualExponent field.now }
    requires kind { field.now.kind ≡ Kind.Int32 }
    requires operator { field.now.operator ≡ operator }
    requires optional { field.now.optional ≡ optional }
    requires within { HasEntryOf slots.now field.now }
    ensures known { IfSome result (IsPartKnown field.now false slots.now) }
    ensures within { IfSome result (λ r. IfSome r (IsWithin exponent_range)) }
{
    let known = match operator {
        Operator::Default => initial_part(field),
        _ => held_exponent(slots, field, optional),
    };
    match known? {
        Some(exponent) => {
            if exponent < -63 || exponent > 63 {
                return None;
            }
            Some(Some(exponent_in(exponent)))
        }
        None => Some(None),
    }
}

/// Decodes an exponent under default or copy, and returns it with its number of bytes, as [`exponent_part`] does. Operator and presence are
/// arguments: constants at the calls.
#[inline(always)]
pub fn usual_exponent(
    slots: &Slots,
    field: &FieldInstruction,
    operator: Operator,
    optional: bool,
    bit: bool,
    rest: Rest<'_>,
) -> Option<(Option<i32>, usize)>
    requires usual { IsUsualExponent field.now }
    requires kind { field.now.kind ≡ Kind.Int32 }
    requires operator { field.now.operator ≡ operator }
    requires optional { field.now.optional ≡ optional }
    requires within { HasEntryOf slots.now field.now }
    ensures part { IfSome result (λ r. (strict : Bool) → IsPart field.now bit strict rest.entry.bytes.now slots.now r.0 r.1) }
    ensures within { IfSome result (λ r. IfSome r.0 (IsWithin exponent_range)) }
{
    if bit {
        let exponent = short_exponent(rest, optional)?;
        return Some((exponent, 1));
    }
    let known = unsent_exponent(slots, field, operator, optional)?;
    Some((known, 0))
}

/// Reads a mandatory mantissa that is sent, and returns it with its number of bytes. Under delta the entry has to hold one.
#[inline(always)]
fn sent_mantissa(
    slots: &Slots,
    field: &FieldInstruction,
    rest: Rest<'_>,
    strict: bool,
) -> Option<(i64, usize)>
    requires kind { field.now.kind ≡ Kind.Int64 }
    requires no_constant { field.now.operator ≢ Operator.Constant }
    requires within { HasEntryOf slots.now field.now }
    ensures { IfSome result (λ r. IsPartBy true field.now true strict rest.entry.bytes.now slots.now (Some r.0) r.1) }
{
    if field.optional {
        return None;
    }
    let (number, bytes) = whole_mantissa(rest, strict)?;
    match field.operator {
        Operator::Delta => match held_part(slots, field, Kind::Int64)? {
            Some(base) => {
                let sum = base.checked_add(number)?;
                Some((sum, bytes))
            }
            None => None,
        },
        _ => Some((number, bytes)),
    }
}

/// Decodes a mandatory mantissa, and returns it with its number of bytes. The bit is its presence bit, set if it has none. It is called out
/// of line: its body is longer than the build inlines.
#[cold]
#[inline(never)]
pub fn mantissa_part(
    slots: &Slots,
    field: &FieldInstruction,
    bit: bool,
    rest: Rest<'_>,
    strict: bool,
) -> Option<(i64, usize)>
    requires kind { field.now.kind ≡ Kind.Int64 }
    requires within { HasEntryOf slots.now field.now }
    ensures { IfSome result (λ r. IsPart field.now bit strict rest.entry.bytes.now slots.now (Some r.0) r.1) }
{
    if needs_bytes(field, bit) {
        let (number, bytes) = sent_mantissa(slots, field, rest, strict)?;
        return Some((number, bytes));
    }
    match known_part(slots, field, Kind::Int64, bit)? {
        Some(number) => Some((number, 0)),
        None => None,
    }
}

/// Returns whether storing an exponent of this number of bytes, if any, leaves the mantissa's entry unchanged.
#[inline(always)]
pub fn leaves_mantissa(
    exponent: &FieldInstruction,
    mantissa: &FieldInstruction,
    bytes: usize,
) -> bool
    ensures { result ≡ true → 0 < bytes → (p : PreviousData) (d : Dictionary)
        → previous_at (field_data mantissa.now).entry (write_at (field_data exponent.now).entry p d)
        ≡ previous_at (field_data mantissa.now).entry d }
{
    if bytes == 0 {
        return true;
    }
    match (exponent.entry, mantissa.entry) {
        (Some(first), Some(second)) => first != second,
        _ => true,
    }
}

/// Stores a part of this number of bytes, or NULL. If nothing is sent, the entry is unchanged.
#[inline(always)]
pub fn keep_part(
    slots: &mut Slots,
    field: &FieldInstruction,
    kind: Kind,
    number: Option<i64>,
    bytes: usize,
)
    requires kind { kind ≡ field.now.kind }
    requires within { HasEntryOf slots.old field.now }
    ensures kept { 0 < bytes → KeepsPart field.now slots.old slots.new number }
    ensures same { bytes ≡ 0 → slots.new ≡ slots.old }
    ensures terms { slots_terms slots.new ≡ slots_terms slots.old }
{
    if bytes == 0 {
        return;
    }
    match number {
        Some(number) => keep_number(slots, field, kind, Number::Signed(number)),
        None => assign_empty(slots, field),
    }
}

/// Stores an exponent of this number of bytes, or NULL. If nothing is sent, the entry is unchanged.
#[inline(always)]
pub fn keep_exponent(slots: &mut Slots, field: &FieldInstruction, number: Option<i32>, bytes: usize)
    requires kind { field.now.kind ≡ Kind.Int32 }
    requires within { HasEntryOf slots.old field.now }
    ensures kept { 0 < bytes → KeepsPart field.now slots.old slots.new number }
    ensures same { bytes ≡ 0 → slots.new ≡ slots.old }
    ensures terms { slots_terms slots.new ≡ slots_terms slots.old }
{
    if bytes == 0 {
        return;
    }
    if let Some(entry) = field.entry {
        slots.set_number(entry as usize, exponent_held(number));
    }
}

/// Returns the entry after an exponent, or NULL.
#[inline(always)]
fn exponent_held(number: Option<i32>) -> Entry
    ensures held { with_text result [] ≡ item_held Kind.Int32 (part_item number) }
    ensures number { text_length result ≡ 0 }
{
    match number {
        Some(number) => Entry::Int32(i64::from(number)),
        None => Entry::Empty,
    }
}

/// Reads the delta of a mandatory mantissa, and returns the mantissa after it with its number of bytes. The entry has to hold one.
#[inline(always)]
pub fn changed_part(slots: &Slots, entry: u32, rest: Rest<'_>, strict: bool) -> Option<(i64, usize)>
    requires within { entry < length (slots_dictionary slots.now) }
    ensures { IfSome result (λ r. (field : FieldInstruction) → IsDeltaMantissa field entry
        → IsPartBy true field true strict rest.entry.bytes.now slots.now (Some r.0) r.1) }
{
    let (delta, bytes) = whole_mantissa(rest, strict)?;
    match slots.held(entry as usize) {
        Entry::Int64(base) => {
            let sum = base.checked_add(delta)?;
            Some((sum, bytes))
        }
        _ => None,
    }
}

/// Stores a mantissa at its entry.
#[inline(always)]
pub fn keep_mantissa(slots: &mut Slots, entry: u32, number: i64)
    requires within { entry < length (slots_dictionary slots.old) }
    ensures kept { (field : FieldInstruction) → IsDeltaMantissa field entry
        → KeepsPart field slots.old slots.new (Some number) }
    ensures terms { slots_terms slots.new ≡ slots_terms slots.old }
{
    slots.change_number(entry as usize, Entry::Int64(number));
}
