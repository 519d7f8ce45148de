//! Integer fields of which nothing is sent. Entry, type, operator and presence are arguments: constants at the calls, which fold by them.
//!
//! `None` stands for all others, faults included: nothing has changed then, and the general path decodes them. `Some(None)` is absent.

ghost use Rattle.std.specs.Prelude.{◌≡◌, ◌⊎◌, ◌<◌, true, ℕ, List, length, Some, None, IfSome, IfNone};
ghost use Rattle.fast_value.specs.meaning.Kinds.{integer_of, value_of_integer};
ghost use Rattle.fast_dict.specs.meaning.Entry.{with_text};
ghost use Rattle.fast_dict.specs.meaning.Operators.{incremented, range_of};
ghost use Rattle.fast_dict.specs.meaning.Slots.{slots_dictionary, slots_terms};
ghost use Rattle.fast_tree.specs.meaning.Nodes.{field_data};
ghost use Rattle.fast_units.specs.device.Deciding.{number_data};
ghost use Rattle.fast_items.specs.device.FieldsAs.{IsEntryFor, IsUnsentItem};
ghost use Rattle.fast_items.specs.device.IntegerItems.{item_held, IsDefaultItem};

use crate::integer_items::keep_changed_at;
use fast_dict::{Entry, Slots};
use fast_tree::{FieldInstruction, Operator};
use fast_units::fields::{Number, number_under};
use fast_value::{Kind, Value};

/// Returns the number that an entry holds, if it is one of the type; or absent, if the field is optional and the entry is empty.
#[inline(always)]
fn held_item(kind: Kind, optional: bool, entry: Entry) -> Option<Option<Number>>
    ensures held { IfSome result (λ r. (text : List ℕ) → with_text entry text ≡ item_held kind r) }
    ensures absent { result ≡ Some None → optional ≡ true }
{
    if let Some(number) = number_under(kind, entry) {
        return Some(Some(number));
    }
    match entry {
        Entry::Empty if optional => Some(None),
        _ => None,
    }
}

/// Decodes an unsent field under copy: the contents of the entry, decimals included.
#[inline(always)]
pub fn copied_at(slots: &Slots, entry: u32, kind: Kind, optional: bool) -> Option<Option<Number>>
    requires within { entry < length (slots_dictionary slots.now) }
    ensures { IfSome result (IsUnsentItem kind optional Operator.Copy entry slots.now slots.now) }
{
    held_item(kind, optional, slots.held(entry as usize))
}

/// Returns one more than a number, if that is not the greatest of its type: the general path returns the least after it.
#[inline(always)]
fn next_number(kind: Kind, number: Number) -> Option<Number>
    ensures { IfSome result (λ n. number_data n
        ≡ value_of_integer kind (incremented (range_of kind) (integer_of (number_data number)))) }
{
    match (kind, number) {
        (Kind::UInt32, Number::Unsigned(n)) if n < 4_294_967_295 => Some(Number::Unsigned(n + 1)),
        (Kind::UInt64, Number::Unsigned(n)) if n < u64::MAX => Some(Number::Unsigned(n + 1)),
        (Kind::Int32, Number::Signed(n)) if n < 2_147_483_647 => Some(Number::Signed(n + 1)),
        (Kind::Int64, Number::Signed(n)) if n < i64::MAX => Some(Number::Signed(n + 1)),
        _ => None,
    }
}

/// Decodes an unsent field under copy or increment: if its entry holds a number of its type, that number or one more, which the entry then
/// holds; absent if the entry is empty and the field optional.
#[inline(always)]
fn kept_item(
    slots: &mut Slots,
    entry: u32,
    kind: Kind,
    optional: bool,
    operator: Operator,
) -> Option<Option<Number>>
    requires within { entry < length (slots_dictionary slots.old) }
    requires operator { (operator ≡ Operator.Copy) ⊎ (operator ≡ Operator.Increment) }
    ensures decided { IfSome result (IsUnsentItem kind optional operator entry slots.old slots.new) }
    ensures none { IfNone result (slots.new ≡ slots.old) }
    ensures terms { slots_terms slots.new ≡ slots_terms slots.old }
{
    let item = held_item(kind, optional, slots.held(entry as usize))?;
    match operator {
        Operator::Increment => match item {
            Some(number) => {
                let next = next_number(kind, number)?;
                keep_changed_at(slots, entry, kind, next);
                Some(Some(next))
            }
            None => Some(None),
        },
        _ => Some(item),
    }
}

/// Decodes an unsent field under copy or increment. Returns `None` under other operators.
#[inline(always)]
pub fn unsent_integer(
    slots: &mut Slots,
    entry: u32,
    kind: Kind,
    optional: bool,
    operator: Operator,
) -> Option<Option<Number>>
    requires within { IsEntryFor slots.old operator entry }
    ensures decided { IfSome result (IsUnsentItem kind optional operator entry slots.old slots.new) }
    ensures none { IfNone result (slots.new ≡ slots.old) }
    ensures terms { slots_terms slots.new ≡ slots_terms slots.old }
{
    match operator {
        Operator::Copy | Operator::Increment => kept_item(slots, entry, kind, optional, operator),
        _ => None,
    }
}

/// Decodes an unsent field under default: its initial value, if it is an integer of the type's form; absent without one, if the field is
/// optional.
#[inline(always)]
pub fn defaulted_integer(
    field: &FieldInstruction,
    kind: Kind,
    optional: bool,
) -> Option<Option<Number>>
    ensures { IfSome result (IsDefaultItem (field_data field.now)) }
{
    match (kind, &field.initial) {
        (Kind::UInt32 | Kind::UInt64, Some(Value::U(number))) => {
            Some(Some(Number::Unsigned(*number)))
        }
        (Kind::Int32 | Kind::Int64, Some(Value::I(number))) => Some(Some(Number::Signed(*number))),
        (_, None) if optional => Some(None),
        _ => None,
    }
}
