//! The check of a message against its template.

ghost use Rattle.std.specs.Prelude.{◌≡◌, ◌↔◌, ◌<◌, ◌^◌, All, length, IsTrue, IsUtf8, Some, None, option_map};
ghost use Rattle.fast_value.specs.meaning.Kinds.{U, I, Dec};
ghost use Rattle.fast_value.specs.meaning.Messages.{count};
ghost use Rattle.fast_value.specs.meaning.Values.{value_data};
ghost use Rattle.fast_value.specs.meaning.Views.{item_data, slots_data, elements_data};
ghost use Rattle.fast_template.specs.meaning.Flat.{nodes_of};
ghost use Rattle.fast_tree.specs.meaning.Numbers.{AreBelow};
ghost use Rattle.fast_tree.specs.meaning.Nodes.{body_among};
ghost use Rattle.fast_spelling.specs.device.Nodes.{instruction_in};
ghost use Rattle.fast_spelling.specs.meaning.Suiting.{IsRight, AreRight, Suits, SuitsBody};

use fast_dict::operators;
use fast_template::{Shape, Templates};
use fast_value::{Item, Kind, Value};

/// Returns whether there is exactly one slot for each of these nodes.
#[inline(always)]
pub(crate) fn has_slot_for_each(body: &[u32], slots: &[Option<Item>]) -> bool
    ensures { IsTrue result ↔ length body.now ≡ length slots.now }
{
    body.len() == slots.len()
}

/// Returns whether the slots suit the instructions of these nodes.
#[cycle(suits)]
pub fn suits_body(templates: &Templates, body: &[u32], slots: &[Option<Item>]) -> bool
    requires { AreBelow (length (nodes_of templates.now)) body.now }
    ensures { IsTrue result ↔ SuitsBody (body_among (nodes_of templates.now) body.now) (slots_data slots.now) }
{
    if !has_slot_for_each(body, slots) {
        return false;
    }
    for (i, slot) in slots.iter().enumerate() {
        if !suits_slot(templates, body[i], slot) {
            return false;
        }
    }
    true
}

/// Returns whether the slot suits the instruction of a node.
#[cycle(suits)]
#[inline(always)]
fn suits_slot(templates: &Templates, node: u32, slot: &Option<Item>) -> bool
    requires { node < length (nodes_of templates.now) }
    ensures { IsTrue result ↔ Suits (instruction_in (nodes_of templates.now) node) (option_map item_data slot.now) }
{
    match slot {
        None => may_be_absent(templates, node),
        Some(item) => suits_item(templates, node, item),
    }
}

/// Returns whether the item suits the instruction of a node.
#[cycle(suits)]
#[inline(always)]
pub fn suits_item(templates: &Templates, node: u32, item: &Item) -> bool
    requires { node < length (nodes_of templates.now) }
    ensures { IsTrue result ↔ Suits (instruction_in (nodes_of templates.now) node) (Some (item_data item.now)) }
{
    match (&templates.node(node).shape, item) {
        (Shape::Field(field), Item::One(value)) => is_right(field.kind, value),
        (Shape::Decimal { .. }, Item::One(value)) => is_right(Kind::Decimal, value),
        (Shape::Group { body, .. }, Item::Group(slots)) => suits_body(templates, body, slots),
        (Shape::Sequence { body, .. }, Item::Sequence(rows)) => suits_rows(templates, body, rows),
        (Shape::Field(_) | Shape::Decimal { .. }, Item::Group(_) | Item::Sequence(_))
        | (Shape::Group { .. }, Item::One(_) | Item::Sequence(_))
        | (Shape::Sequence { .. }, Item::One(_) | Item::Group(_)) => false,
    }
}

/// Returns whether the elements suit the instructions of these nodes, and their number fits in 32 bits.
#[cycle(suits)]
#[inline(always)]
fn suits_rows(templates: &Templates, body: &[u32], rows: &[Vec<Option<Item>>]) -> bool
    requires { AreBelow (length (nodes_of templates.now)) body.now }
    ensures { IsTrue result ↔ (AreRight (SuitsBody (body_among (nodes_of templates.now) body.now))
        (elements_data rows.now)
        × (count (elements_data rows.now) < 2 ^ 32)) }
{
    if rows.len() > u32::MAX as usize {
        return false;
    }
    for row in rows {
        if !suits_body(templates, body, row) {
            return false;
        }
    }
    true
}

/// Returns whether the field, group or sequence of a node may be absent.
#[inline(always)]
pub fn may_be_absent(templates: &Templates, node: u32) -> bool
    requires { node < length (nodes_of templates.now) }
    ensures { IsTrue result ↔ Suits (instruction_in (nodes_of templates.now) node) None }
{
    match &templates.node(node).shape {
        Shape::Field(field) => field.optional,
        Shape::Decimal { exponent, .. } => exponent.optional,
        Shape::Group { optional, .. } => *optional,
        Shape::Sequence { length, .. } => length.optional,
    }
}

/// Returns whether the value is one of the type (`kind`).
#[inline(always)]
pub fn is_right(kind: Kind, value: &Value) -> bool
    ensures { IsTrue result ↔ IsRight kind (value_data value.now) }
{
    match value {
        Value::U(number) => is_unsigned(kind, *number),
        Value::I(number) => is_signed(kind, *number),
        Value::Dec { exponent, mantissa } => is_decimal(kind, *exponent, *mantissa),
        Value::Ascii(text) => matches!(kind, Kind::Ascii) && is_ascii(text),
        Value::Unicode(text) => matches!(kind, Kind::Unicode) && is_utf8(text),
        Value::Bytes(_) => matches!(kind, Kind::Bytes),
    }
}

/// Returns whether an unsigned integer is one of the type (`kind`).
#[inline(always)]
pub fn is_unsigned(kind: Kind, number: u64) -> bool
    ensures { IsTrue result ↔ IsRight kind (U number) }
{
    if kind == Kind::UInt32 {
        return number <= u64::from(u32::MAX);
    }
    kind == Kind::UInt64
}

/// Returns whether a signed integer is one of the type (`kind`).
#[inline(always)]
pub fn is_signed(kind: Kind, number: i64) -> bool
    ensures { IsTrue result ↔ IsRight kind (I number) }
{
    if kind == Kind::Int32 {
        return i64::from(i32::MIN) <= number && number <= i64::from(i32::MAX);
    }
    kind == Kind::Int64
}

/// Returns whether a decimal is one of the type (`kind`).
#[inline(always)]
pub fn is_decimal(kind: Kind, exponent: i32, mantissa: i64) -> bool
    ensures { IsTrue result ↔ IsRight kind (Dec exponent mantissa) }
{
    matches!(kind, Kind::Decimal) && -63 <= exponent && exponent <= 63
}

/// Returns whether a string has only characters below U+0080. A single character, the most frequent case, is checked directly.
#[inline(always)]
fn is_ascii(text: &[u8]) -> bool
    ensures { IsTrue result ↔ All (λ c. c < 128) text.now }
{
    if text.len() == 1 {
        return text[0] < 128;
    }
    is_long_ascii(text)
}

/// Returns whether a string of any length has only characters below U+0080.
fn is_long_ascii(text: &[u8]) -> bool
    ensures { IsTrue result ↔ All (λ c. c < 128) text.now }
{
    text.is_ascii()
}

/// Returns whether a string is valid UTF-8, by the check that the decoder uses.
fn is_utf8(text: &[u8]) -> bool
    ensures { IsTrue result ↔ IsUtf8 text.now }
{
    operators::is_utf8(text)
}
