//! Strings that are complete in the bytes that they begin with, read as the arms of the decoder's loop read them: all their units at once.
//!
//! `None` stands for all other fields, and for strings with a fault: nothing has changed then, and they are read unit after unit.

ghost use Rattle.std.specs.Prelude.{◌≡◌, ◌≢◌, ℕ, List, IfSome, IfNone};
ghost use Rattle.fast_value.specs.meaning.Kinds.{family, texts};
ghost use Rattle.fast_tree.specs.meaning.Nodes.{field_data};
ghost use Rattle.fast_dict.specs.meaning.Slots.{slots_dictionary, slots_terms};
ghost use Rattle.fast_units.specs.device.TextDecisions.{first_reader};
ghost use Rattle.fast_units.specs.device.Words.{HasTextLimit, HasRoomFor, ServesField};
ghost use Rattle.fast_fields.specs.device.Readings.{IsFieldReading};

use crate::begun::is_string;
use crate::reading::{Reading, WholeField};
use fast_dict::Slots;
use fast_fronts::Rest;
use fast_items::ascii_items::text_taken;
use fast_items::long_ascii::sent_long;
use fast_items::part_items::sent_delta;
use fast_items::taken::TakenText;
use fast_items::vector_items::{sent_tail, sent_vector};
use fast_tree::{FieldInstruction, Operator};
use fast_units::scratch::Scratch;
use fast_value::{Kind, Limits};

/// Returns the field that the string is.
#[inline]
fn whole_field(taken: TakenText) -> WholeField
    ensures { result ≡ record { source = taken.source; from = taken.from; bytes = taken.bytes } }
{
    WholeField {
        source: taken.source,
        from: taken.from,
        bytes: taken.bytes,
    }
}

/// Reads a delta.
#[inline]
fn whole_delta(
    slots: &mut Slots,
    scratch: &mut Scratch,
    field: &FieldInstruction,
    bytes: &[u8],
    limits: &Limits,
) -> Option<WholeField>
    requires serves { ServesField slots.old field.now }
    requires limit { HasTextLimit slots.old limits.now }
    requires room { HasRoomFor slots.old scratch.old }
    requires text { family field.now.kind ≡ texts }
    requires delta { field.now.operator ≡ Operator.Delta }
    ensures whole { IfSome result (λ found. IsFieldReading (first_reader limits.now (field_data field.now)
        (slots_dictionary slots.old)) (field_data field.now) bytes.now (slots_dictionary slots.old)
        (slots_dictionary slots.new) scratch.new.text (Reading.Whole found)) }
    ensures none { IfNone result ((slots.new ≡ slots.old) × (scratch.new ≡ scratch.old)) }
    ensures terms { slots_terms slots.new ≡ slots_terms slots.old }
    ensures capacity { scratch.new.capacity ≡ scratch.old.capacity }
{
    let (kind, optional, strict) = (field.kind, field.optional, limits.strict);
    let (entry, rest) = (field.entry?, Rest::new(bytes));
    let taken = sent_delta(slots, scratch, entry, kind, optional, rest, strict, *limits)?;
    Some(whole_field(taken))
}

/// Reads an ASCII string that is no delta.
#[inline]
fn whole_ascii(
    slots: &mut Slots,
    scratch: &mut Scratch,
    field: &FieldInstruction,
    bytes: &[u8],
    limits: &Limits,
) -> Option<WholeField>
    requires serves { ServesField slots.old field.now }
    requires limit { HasTextLimit slots.old limits.now }
    requires room { HasRoomFor slots.old scratch.old }
    requires ascii { field.now.kind ≡ Kind.Ascii }
    ensures whole { IfSome result (λ found. IsFieldReading (first_reader limits.now (field_data field.now)
        (slots_dictionary slots.old)) (field_data field.now) bytes.now (slots_dictionary slots.old)
        (slots_dictionary slots.new) scratch.new.text (Reading.Whole found)) }
    ensures none { IfNone result ((slots.new ≡ slots.old) × (scratch.new ≡ scratch.old)) }
    ensures terms { slots_terms slots.new ≡ slots_terms slots.old }
    ensures capacity { scratch.new.capacity ≡ scratch.old.capacity }
{
    // an operator that keeps no value has no entry, and needs none
    let entry = field.entry.unwrap_or(0);
    let (optional, operator, room) = (field.optional, field.operator, limits.max_text);
    let count = sent_long(slots, scratch, entry, optional, operator, bytes, room)?;
    Some(whole_field(text_taken(operator, count)))
}

/// Reads a Unicode string or a byte vector that is no delta.
#[inline]
fn whole_vector(
    slots: &mut Slots,
    field: &FieldInstruction,
    bytes: &[u8],
    limits: &Limits,
) -> Option<WholeField>
    requires serves { ServesField slots.old field.now }
    requires limit { HasTextLimit slots.old limits.now }
    requires text { family field.now.kind ≡ texts }
    requires vector { field.now.kind ≢ Kind.Ascii }
    ensures whole { IfSome result (λ found. (scratch : List ℕ) → IsFieldReading (first_reader limits.now
        (field_data field.now) (slots_dictionary slots.old)) (field_data field.now) bytes.now
        (slots_dictionary slots.old) (slots_dictionary slots.new) scratch (Reading.Whole found)) }
    ensures none { IfNone result (slots.new ≡ slots.old) }
    ensures terms { slots_terms slots.new ≡ slots_terms slots.old }
{
    let (kind, optional, strict) = (field.kind, field.optional, limits.strict);
    let rest = Rest::new(bytes);
    match field.operator {
        Operator::None | Operator::Default => {
            let taken = sent_vector(kind, optional, field.operator, rest, strict, *limits)?;
            Some(whole_field(taken))
        }
        Operator::Tail => {
            let taken = sent_tail(slots, field.entry?, kind, optional, rest, strict, *limits)?;
            Some(whole_field(taken))
        }
        _ => None,
    }
}

/// Reads a string field that is in the stream, if it is complete and one of those that are read at once.
#[inline(never)]
pub(crate) fn whole_string(
    slots: &mut Slots,
    scratch: &mut Scratch,
    field: &FieldInstruction,
    bytes: &[u8],
    limits: &Limits,
) -> Option<WholeField>
    requires serves { ServesField slots.old field.now }
    requires limit { HasTextLimit slots.old limits.now }
    requires room { HasRoomFor slots.old scratch.old }
    ensures whole { IfSome result (λ found. IsFieldReading (first_reader limits.now (field_data field.now)
        (slots_dictionary slots.old)) (field_data field.now) bytes.now (slots_dictionary slots.old)
        (slots_dictionary slots.new) scratch.new.text (Reading.Whole found)) }
    ensures none { IfNone result ((slots.new ≡ slots.old) × (scratch.new ≡ scratch.old)) }
    ensures terms { slots_terms slots.new ≡ slots_terms slots.old }
    ensures capacity { scratch.new.capacity ≡ scratch.old.capacity }
{
    if !is_string(field.kind) {
        return None;
    }
    if field.operator == Operator::Delta {
        return whole_delta(slots, scratch, field, bytes, limits);
    }
    if field.kind == Kind::Ascii {
        return whole_ascii(slots, scratch, field, bytes, limits);
    }
    whole_vector(slots, field, bytes, limits)
}
