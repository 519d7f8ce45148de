//! The check of a message against the limits.

ghost use Rattle.std.specs.Prelude.{◌≡◌, ◌+◌, ◌<◌, ◌≤◌, ◌↔◌, IsTrue, IfSome, IfNone, length};
ghost use Rattle.fast_value.specs.meaning.Kinds.{text_of};
ghost use Rattle.fast_value.specs.meaning.Messages.{sequence, item_total, total};
ghost use Rattle.fast_value.specs.meaning.Values.{value_data};
ghost use Rattle.fast_value.specs.meaning.Views.{item_data, slots_data, elements_data};
ghost use Rattle.fast_spelling.specs.meaning.Suiting.{IsWithinLimits, AreWithinLimits, FitsLimits};

use fast_value::{Item, Limits, Value};

/// Returns whether every string, every number of elements and their sum are within the limits.
pub fn fits_limits(limits: Limits, slots: &[Option<Item>]) -> bool
    ensures { IsTrue result ↔ FitsLimits limits (slots_data slots.now) }
{
    room_after_slots(limits, slots, limits.max_total).is_some()
}

/// Returns how many elements of `room` are left after all sequences in the slots; `None` if a string or a number of elements is over its
/// limit, or `room` is too small.
#[cycle(room)]
fn room_after_slots(limits: Limits, slots: &[Option<Item>], room: u32) -> Option<u32>
    ensures some { IfSome result
        (λ left. AreWithinLimits limits (slots_data slots.now) × (left + total (slots_data slots.now) ≡ room)) }
    ensures none { IfNone result
        (¬ (AreWithinLimits limits (slots_data slots.now) × (total (slots_data slots.now) ≤ room))) }
{
    let mut left = room;
    for slot in slots {
        if let Some(item) = slot {
            left = room_after_item(limits, item, left)?;
        }
    }
    Some(left)
}

/// Returns how many elements of `room` are left after all sequences in the item; `None` if a limit is passed.
#[cycle(room)]
#[inline(always)]
fn room_after_item(limits: Limits, item: &Item, room: u32) -> Option<u32>
    ensures some { IfSome result
        (λ left. IsWithinLimits limits (item_data item.now) × (left + item_total (item_data item.now) ≡ room)) }
    ensures none { IfNone result
        (¬ (IsWithinLimits limits (item_data item.now) × (item_total (item_data item.now) ≤ room))) }
{
    match item {
        Item::One(value) => {
            if text_len(value) > limits.max_text {
                return None;
            }
            Some(room)
        }
        Item::Group(slots) => room_after_slots(limits, slots, room),
        Item::Sequence(rows) => room_after_sequence(limits, rows, room),
    }
}

/// Returns whether `count` elements are more than a sequence may have.
#[inline(always)]
fn has_too_many(limits: Limits, count: usize) -> bool
    ensures { IsTrue result ↔ limits.max_elements < count }
{
    count > limits.max_elements as usize
}

/// Returns how many elements of `room` are left after those of a sequence and of all sequences within them; `None` if a limit is passed.
#[cycle(room)]
#[inline(always)]
fn room_after_sequence(limits: Limits, rows: &[Vec<Option<Item>>], room: u32) -> Option<u32>
    ensures some { IfSome result
        (λ left. IsWithinLimits limits (sequence (elements_data rows.now))
        × (left + item_total (sequence (elements_data rows.now)) ≡ room)) }
    ensures none { IfNone result
        (¬ (IsWithinLimits limits (sequence (elements_data rows.now))
        × (item_total (sequence (elements_data rows.now)) ≤ room))) }
{
    if has_too_many(limits, rows.len()) {
        return None;
    }
    let mut left = room.checked_sub(rows.len() as u32)?;
    for row in rows {
        left = room_after_slots(limits, row, left)?;
    }
    Some(left)
}

/// Returns the length of a string or byte vector in bytes, 0 for a number.
#[inline(always)]
pub fn text_len(value: &Value) -> usize
    ensures { result ≡ length (text_of (value_data value.now)) }
{
    match value {
        Value::U(_) | Value::I(_) | Value::Dec { .. } => 0,
        Value::Ascii(text) | Value::Unicode(text) | Value::Bytes(text) => text.len(),
    }
}
