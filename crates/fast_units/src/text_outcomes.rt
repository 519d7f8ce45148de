//! The result of a string field once its string or NULL is complete: its value, and the entry that may keep it.
//!
//! A string of two parts is joined in the scratch, which holds the part that was sent: the bytes kept of the base are copied to its front,
//! or to its end. The entry then takes the whole.

ghost use Rattle.std.specs.Prelude.{◌≡◌, ◌≢◌, ◌+◌, ◌-◌, ◌≤◌, ℕ, List, length, true, Ok, Err, Some, MatchResult};
ghost use Rattle.fast_value.specs.meaning.Kinds.{ScalarData, texts, family, text_of, value_of_text};
ghost use Rattle.fast_value.specs.declared.kinds.Kind.{Kind};
ghost use Rattle.fast_tree.specs.meaning.Nodes.{field_data};
ghost use Rattle.fast_tree.specs.meaning.Entries.{keeps_value};
ghost use Rattle.fast_dict.specs.meaning.Answers.{kept_answer, kept_data, kept_text};
ghost use Rattle.fast_dict.specs.meaning.Operators.{Kept as KeptData, null, decide, tail_base, with_tail, subtraction_step, kept_length, joined as joined_text, text_step};
ghost use Rattle.fast_dict.specs.meaning.Slots.{slots_dictionary, slots_terms};
ghost use Rattle.fast_stream.specs.meaning.Fields.{sent_text};
ghost use Rattle.fast_units.specs.device.Settling.{value_at};
ghost use Rattle.fast_units.specs.device.TextDecisions.{IsTextDecided};
ghost use Rattle.fast_units.specs.device.Words.{HasRoomFor, ServesField, previous_of};

use crate::fields::{assign, assign_empty, previous};
use crate::scratch::Scratch;
use crate::source::ValueSource;
use fast_dict::Slots;
use fast_dict::operators::texts::text_of;
use fast_dict::operators::{Kept, checked_text, null_empties, subtract, tail_base, tail_keeps};
use fast_tree::{FieldInstruction, Operator};
use fast_value::{Code, Scalar};

/// Decodes NULL: the field is absent.
pub fn finish_absent(slots: &mut Slots, field: &FieldInstruction) -> ValueSource
    requires serves { ServesField slots.old field.now }
    requires sent { field.now.operator ≢ Operator.Constant }
    ensures field { (scratch piece : List ℕ) → IsTextDecided
        (decide (field_data field.now) (previous_of slots.old field.now) true null) (field_data field.now)
        (slots_dictionary slots.old) (slots_dictionary slots.new) scratch piece (Ok result) }
    ensures terms { slots_terms slots.new ≡ slots_terms slots.old }
{
    if null_empties(field.operator) {
        assign_empty(slots, field);
    }
    ValueSource::Absent
}

/// Decodes a string that is the field's value, which its entry then holds.
#[inline(always)]
fn keep(slots: &mut Slots, field: &FieldInstruction, text: &[u8]) -> Result<ValueSource, Code>
    requires serves { ServesField slots.old field.now }
    requires text { family field.now.kind ≡ texts }
    requires keeps { keeps_value field.now.operator ≡ true }
    requires fits { length text.now ≤ (slots_terms slots.old).max_text }
    ensures field { (scratch piece : List ℕ) → IsTextDecided (kept_text field.now.kind text.now)
        (field_data field.now) (slots_dictionary slots.old) (slots_dictionary slots.new) scratch piece result }
    ensures terms { slots_terms slots.new ≡ slots_terms slots.old }
{
    let value = checked_text(field.kind, text)?;
    assign(slots, field, value);
    Ok(ValueSource::Entry)
}

/// Joins the tail in the scratch to the bytes that it keeps of its base.
fn join_tail(slots: &Slots, scratch: &mut Scratch, field: &FieldInstruction) -> Result<(), Code>
    requires serves { ServesField slots.now field.now }
    requires text { family field.now.kind ≡ texts }
    requires keeps { keeps_value field.now.operator ≡ true }
    requires fits { length scratch.old.text ≤ (slots_terms slots.now).max_text }
    requires room { HasRoomFor slots.now scratch.old }
    ensures joined { MatchResult result (λ _. (base : ScalarData)
        × (tail_base (field_data field.now) (previous_of slots.now field.now) ≡ Ok base)
        × (scratch.new.text ≡ with_tail (text_of base) scratch.old.text))
        (λ code. tail_base (field_data field.now) (previous_of slots.now field.now) ≡ Err code) }
    ensures fits { result ≡ Ok tt → length scratch.new.text ≤ (slots_terms slots.now).max_text }
    ensures capacity { scratch.new.capacity ≡ scratch.old.capacity }
{
    let base = text_of(tail_base(field, previous(slots, field))?);
    let kept = tail_keeps(base, scratch.len());
    scratch.prepend(kept);
    Ok(())
}

/// Returns the bytes of the field's base that a subtraction length keeps.
pub fn kept<'a>(
    slots: &'a Slots,
    field: &'a FieldInstruction,
    subtraction: i32,
) -> Result<Kept<'a>, Code>
    requires { ServesField slots.now field.now }
    ensures { kept_answer result ≡ subtraction_step (field_data field.now) (previous_of slots.now field.now)
        subtraction }
{
    subtract(field, previous(slots, field), i128::from(subtraction))
}

/// Joins the part of a delta, which is in the scratch, to the bytes that its subtraction length keeps.
fn join_part(
    slots: &Slots,
    scratch: &mut Scratch,
    field: &FieldInstruction,
    subtraction: i32,
) -> Result<(), Code>
    requires serves { ServesField slots.now field.now }
    requires text { family field.now.kind ≡ texts }
    requires keeps { keeps_value field.now.operator ≡ true }
    requires fits { (kept : KeptData) → subtraction_step (field_data field.now) (previous_of slots.now field.now)
        subtraction ≡ Ok kept → length scratch.old.text ≤ (slots_terms slots.now).max_text - kept_length kept }
    requires room { HasRoomFor slots.now scratch.old }
    ensures joined { MatchResult result (λ _. (kept : KeptData)
        × (subtraction_step (field_data field.now) (previous_of slots.now field.now) subtraction ≡ Ok kept)
        × (scratch.new.text ≡ joined_text kept scratch.old.text))
        (λ code. subtraction_step (field_data field.now) (previous_of slots.now field.now) subtraction ≡ Err code) }
    ensures fits { result ≡ Ok tt → length scratch.new.text ≤ (slots_terms slots.now).max_text }
    ensures capacity { scratch.new.capacity ≡ scratch.old.capacity }
{
    let kept = kept(slots, field, subtraction)?;
    join_kept(scratch, kept);
    Ok(())
}

/// Joins the bytes in the scratch to the bytes kept, before or after which they go.
fn join_kept(scratch: &mut Scratch, kept: Kept<'_>)
    requires { kept_length (kept_data kept) + length scratch.old.text ≤ scratch.old.capacity }
    ensures text { scratch.new.text ≡ joined_text (kept_data kept.entry) scratch.old.text }
    ensures size { length scratch.new.text ≡ kept_length (kept_data kept.entry) + length scratch.old.text }
    ensures capacity { scratch.new.capacity ≡ scratch.old.capacity }
{
    match kept {
        Kept::AppendTo(kept) => scratch.prepend(kept),
        Kept::PrependTo(kept) => scratch.append(kept),
    }
}

/// Decodes the tail in the scratch: the joined string is the field's value, which its entry then holds.
#[inline(never)]
fn finish_tail(
    slots: &mut Slots,
    scratch: &mut Scratch,
    field: &FieldInstruction,
) -> Result<ValueSource, Code>
    requires serves { ServesField slots.old field.now }
    requires text { family field.now.kind ≡ texts }
    requires tail { field.now.operator ≡ Operator.Tail }
    requires fits { length scratch.old.text ≤ (slots_terms slots.old).max_text }
    requires room { HasRoomFor slots.old scratch.old }
    ensures field { (text piece : List ℕ) → IsTextDecided
        (decide (field_data field.now) (previous_of slots.old field.now) true
        (sent_text field.now.kind (Some scratch.old.text))) (field_data field.now) (slots_dictionary slots.old)
        (slots_dictionary slots.new) text piece result }
    ensures terms { slots_terms slots.new ≡ slots_terms slots.old }
    ensures capacity { scratch.new.capacity ≡ scratch.old.capacity }
{
    join_tail(slots, scratch, field)?;
    keep(slots, field, scratch.as_slice())
}

/// Decodes a vector that is no tail, whose value has the source `place` unless the entry keeps it.
fn finish_text(
    slots: &mut Slots,
    field: &FieldInstruction,
    text: &[u8],
    place: ValueSource,
) -> Result<ValueSource, Code>
    requires serves { ServesField slots.old field.now }
    requires text { family field.now.kind ≡ texts }
    requires sent { field.now.operator ≢ Operator.Constant }
    requires whole { field.now.operator ≢ Operator.Delta }
    requires no_tail { field.now.operator ≢ Operator.Tail }
    requires fits { length text.now ≤ (slots_terms slots.old).max_text }
    ensures field { (scratch piece : List ℕ) → value_at place (field_data field.now) (slots_dictionary slots.new)
        scratch piece ≡ Some (value_of_text field.now.kind text.now)
        → IsTextDecided (decide (field_data field.now) (previous_of slots.old field.now) true
        (sent_text field.now.kind (Some text.now))) (field_data field.now) (slots_dictionary slots.old)
        (slots_dictionary slots.new) scratch piece result }
    ensures terms { slots_terms slots.new ≡ slots_terms slots.old }
{
    match field.operator {
        Operator::Copy | Operator::Increment => keep(slots, field, text),
        _ => {
            checked_text(field.kind, text)?;
            Ok(place)
        }
    }
}

/// Decodes a vector that is in the scratch.
pub fn finish_held(
    slots: &mut Slots,
    scratch: &mut Scratch,
    field: &FieldInstruction,
) -> Result<ValueSource, Code>
    requires serves { ServesField slots.old field.now }
    requires text { family field.now.kind ≡ texts }
    requires sent { field.now.operator ≢ Operator.Constant }
    requires whole { field.now.operator ≢ Operator.Delta }
    requires fits { length scratch.old.text ≤ (slots_terms slots.old).max_text }
    requires room { HasRoomFor slots.old scratch.old }
    ensures field { (piece : List ℕ) → IsTextDecided
        (decide (field_data field.now) (previous_of slots.old field.now) true
        (sent_text field.now.kind (Some scratch.old.text))) (field_data field.now) (slots_dictionary slots.old)
        (slots_dictionary slots.new) scratch.new.text piece result }
    ensures terms { slots_terms slots.new ≡ slots_terms slots.old }
    ensures capacity { scratch.new.capacity ≡ scratch.old.capacity }
{
    match field.operator {
        Operator::Tail => finish_tail(slots, scratch, field),
        _ => finish_text(slots, field, scratch.as_slice(), ValueSource::Scratch),
    }
}

/// Decodes a vector that is in the piece. A tail is joined in the scratch.
pub fn finish_here(
    slots: &mut Slots,
    scratch: &mut Scratch,
    field: &FieldInstruction,
    text: &[u8],
) -> Result<ValueSource, Code>
    requires serves { ServesField slots.old field.now }
    requires text { family field.now.kind ≡ texts }
    requires sent { field.now.operator ≢ Operator.Constant }
    requires whole { field.now.operator ≢ Operator.Delta }
    requires fits { length text.now ≤ (slots_terms slots.old).max_text }
    requires room { HasRoomFor slots.old scratch.old }
    ensures field { (held : List ℕ) → IsTextDecided
        (decide (field_data field.now) (previous_of slots.old field.now) true
        (sent_text field.now.kind (Some text.now))) (field_data field.now) (slots_dictionary slots.old)
        (slots_dictionary slots.new) held text.now result }
    ensures terms { slots_terms slots.new ≡ slots_terms slots.old }
    ensures capacity { scratch.new.capacity ≡ scratch.old.capacity }
{
    match field.operator {
        Operator::Tail => {
            scratch.set(text);
            finish_tail(slots, scratch, field)
        }
        _ => finish_text(slots, field, text, ValueSource::Piece),
    }
}

/// Decodes the ASCII string in the scratch, where its value then is unless it is a tail. Nothing has to be checked, and a string that the
/// entry keeps need not be read from it.
#[inline(always)]
pub fn finish_ascii(
    slots: &mut Slots,
    scratch: &mut Scratch,
    field: &FieldInstruction,
) -> Result<ValueSource, Code>
    requires serves { ServesField slots.old field.now }
    requires kind { field.now.kind ≡ Kind.Ascii }
    requires sent { field.now.operator ≢ Operator.Constant }
    requires whole { field.now.operator ≢ Operator.Delta }
    requires fits { length scratch.old.text ≤ (slots_terms slots.old).max_text }
    requires room { HasRoomFor slots.old scratch.old }
    ensures field { (piece : List ℕ) → IsTextDecided
        (decide (field_data field.now) (previous_of slots.old field.now) true
        (sent_text field.now.kind (Some scratch.old.text))) (field_data field.now) (slots_dictionary slots.old)
        (slots_dictionary slots.new) scratch.new.text piece result }
    ensures terms { slots_terms slots.new ≡ slots_terms slots.old }
    ensures capacity { scratch.new.capacity ≡ scratch.old.capacity }
{
    match field.operator {
        Operator::Copy | Operator::Increment => {
            assign(slots, field, Scalar::Ascii(scratch.as_slice()));
            Ok(ValueSource::Scratch)
        }
        Operator::Tail => finish_tail(slots, scratch, field),
        _ => Ok(ValueSource::Scratch),
    }
}

/// Decodes the part of a delta, which is in the scratch.
pub fn finish_part(
    slots: &mut Slots,
    scratch: &mut Scratch,
    field: &FieldInstruction,
    subtraction: i32,
) -> Result<ValueSource, Code>
    requires serves { ServesField slots.old field.now }
    requires text { family field.now.kind ≡ texts }
    requires delta { field.now.operator ≡ Operator.Delta }
    requires fits { (kept : KeptData) → subtraction_step (field_data field.now) (previous_of slots.old field.now)
        subtraction ≡ Ok kept → length scratch.old.text ≤ (slots_terms slots.old).max_text - kept_length kept }
    requires room { HasRoomFor slots.old scratch.old }
    ensures field { (kept : KeptData) → subtraction_step (field_data field.now) (previous_of slots.old field.now)
        subtraction ≡ Ok kept → (text piece : List ℕ)
        → IsTextDecided (text_step (field_data field.now) kept scratch.old.text) (field_data field.now)
        (slots_dictionary slots.old) (slots_dictionary slots.new) text piece result }
    ensures terms { slots_terms slots.new ≡ slots_terms slots.old }
    ensures capacity { scratch.new.capacity ≡ scratch.old.capacity }
{
    join_part(slots, scratch, field, subtraction)?;
    keep(slots, field, scratch.as_slice())
}

/// Returns the most bytes that the part of a delta may have.
pub fn part_room(
    slots: &Slots,
    field: &FieldInstruction,
    subtraction: i32,
    max_text: usize,
) -> usize
    requires { ServesField slots.now field.now }
    ensures room { (kept : KeptData) → subtraction_step (field_data field.now) (previous_of slots.now field.now)
        subtraction ≡ Ok kept → result ≡ max_text - kept_length kept }
    ensures most { result ≤ max_text }
{
    // the same subtraction succeeded when its length was read
    match kept(slots, field, subtraction) {
        Ok(kept) => kept.room(max_text),
        Err(_) => 0,
    }
}
