//! Fields: the presence bit, the item, and the entry of the dictionary.

ghost use Rattle.std.specs.Prelude.{◌≡◌, Option, false, ◌≤◌, length, option_map, Some, OnOk, IfErr, Ok};
ghost use Rattle.std.specs.Bool.{IsFalse};
ghost use Rattle.fast_value.specs.declared.kinds.Kind.{Kind};
ghost use Rattle.fast_value.specs.declared.settings.Limits.{Limits};
ghost use Rattle.fast_value.specs.meaning.Kinds.{ScalarData};
ghost use Rattle.fast_value.specs.meaning.Values.{scalar_data};
ghost use Rattle.fast_tree.specs.meaning.Entries.{keeps_value};
ghost use Rattle.fast_tree.specs.meaning.Tree.{uses_bit};
ghost use Rattle.fast_tree.specs.meaning.Nodes.{field_data};
ghost use Rattle.fast_dict.specs.meaning.Dictionary.{PreviousData, previous_at, write_at};
ghost use Rattle.fast_dict.specs.meaning.Held.{text_size};
ghost use Rattle.fast_dict.specs.meaning.Operators.{delta_base, nothing};
ghost use Rattle.fast_dict.specs.meaning.Previous.{previous_data};
ghost use Rattle.fast_dict.specs.meaning.Rule.{Rule};
ghost use Rattle.fast_dict.specs.meaning.Sending.{sent_data};
ghost use Rattle.fast_spelling.specs.device.Places.{field_there};
ghost use Rattle.fast_spelling.specs.meaning.Encoding.{EncodesField};
ghost use Rattle.fast_spelling.specs.device.Drafts.{IsSendable, IsTold};
ghost use Rattle.fast_spelling.specs.device.Fields.{IsServed, IsSuited, IsNarrow, Wrote, next_by, next_of};
ghost use Rattle.fast_spelling.specs.device.Nodes.{Keeps};
ghost use Rattle.fast_spelling.specs.meaning.Refusals.{RefusesField};

use crate::draft::Draft;
use crate::faults::EncodeFault;
use crate::items::write_item;
use crate::known::Known;
use crate::ledger::Ledger;
use crate::quick::{
    write_ascii, write_bytes, write_signed, write_unicode, write_unsigned, write_whole_decimal,
};
use fast_dict::operators::delta_base;
use fast_dict::{Previous, Sent, choose};
use fast_template::{FieldInstruction, Operator};
use fast_value::Scalar;
use std::alloc::AllocError;

/// Writes a field that has this value, or is absent.
///
/// # Errors
///
/// E3, R9, or `Memory` if an allocation failed. The draft is then unusable.
#[inline(always)]
pub fn write_field(
    draft: &mut Draft,
    ledger: &mut Ledger,
    field: &FieldInstruction,
    value: Option<Scalar<'_>>,
) -> Result<(), EncodeFault>
    requires served { IsServed ledger.old (field_data field.now) }
    requires suited { IsSuited ledger.old.max_text (field_data field.now) (option_map scalar_data value) }
    ensures ok { OnOk result ((l : Limits) → l.max_text ≡ ledger.old.max_text
        → Wrote (EncodesField l (field_data field.now) ledger.old.now (option_map scalar_data value.entry))
        draft.old draft.new ledger.new.now) }
    ensures err { IfErr result
        (IsTold (RefusesField (field_data field.now) ledger.old.now (option_map scalar_data value.entry))) }
    ensures before { ledger.new.before ≡ ledger.old.before }
    ensures max_text { ledger.new.max_text ≡ ledger.old.max_text }
    ensures length { length ledger.new.now ≡ length ledger.old.now }
{
    match value {
        Some(present) => write_present(draft, ledger, field, present),
        None => write_chosen(draft, ledger, field, None),
    }
}

/// Writes a field that has the value.
#[inline(always)]
fn write_present(
    draft: &mut Draft,
    ledger: &mut Ledger,
    field: &FieldInstruction,
    value: Scalar<'_>,
) -> Result<(), EncodeFault>
    requires served { IsServed ledger.old (field_data field.now) }
    requires suited { IsSuited ledger.old.max_text (field_data field.now) (Some (scalar_data value)) }
    ensures ok { OnOk result ((l : Limits) → l.max_text ≡ ledger.old.max_text
        → Wrote (EncodesField l (field_data field.now) ledger.old.now (Some (scalar_data value.entry)))
        draft.old draft.new ledger.new.now) }
    ensures err { IfErr result
        (IsTold (RefusesField (field_data field.now) ledger.old.now (Some (scalar_data value.entry)))) }
    ensures keeps { Keeps ledger.old ledger.new }
{
    match value {
        Scalar::U(number) => write_unsigned(draft, ledger, field, number),
        Scalar::I(number) => write_signed(draft, ledger, field, number),
        Scalar::Dec { exponent, mantissa } => {
            write_whole_decimal(draft, ledger, field, exponent, mantissa)
        }
        Scalar::Ascii(text) => write_ascii(draft, ledger, field, text),
        Scalar::Unicode(text) => write_unicode(draft, ledger, field, text),
        Scalar::Bytes(text) => write_bytes(draft, ledger, field, text),
    }
}

/// Writes a field that has any value, or is absent, by the rule that chooses what is sent.
///
/// # Errors
///
/// E3, R9, or `Memory` if an allocation failed. The draft is then unusable.
pub fn write_chosen(
    draft: &mut Draft,
    ledger: &mut Ledger,
    field: &FieldInstruction,
    value: Option<Scalar<'_>>,
) -> Result<(), EncodeFault>
    requires served { IsServed ledger.old (field_data field.now) }
    requires suited { IsSuited ledger.old.max_text (field_data field.now) (option_map scalar_data value) }
    ensures ok { OnOk result ((l : Limits) → l.max_text ≡ ledger.old.max_text
        → Wrote (EncodesField l (field_data field.now) ledger.old.now (option_map scalar_data value.entry))
        draft.old draft.new ledger.new.now) }
    ensures err { IfErr result
        (IsTold (RefusesField (field_data field.now) ledger.old.now (option_map scalar_data value.entry))) }
    ensures before { ledger.new.before ≡ ledger.old.before }
    ensures max_text { ledger.new.max_text ≡ ledger.old.max_text }
    ensures length { length ledger.new.now ≡ length ledger.old.now }
{
    let at = Known::of(field);
    let previous = previous_of(ledger, at);
    note_base(field, previous);
    let Some(choice) = choose(field, previous, value) else {
        return Err(EncodeFault::E3);
    };
    send(
        draft,
        ledger,
        at,
        field.operator,
        value,
        choice.bit,
        choice.item,
    )
}

/// Writes what the rule sends for the field's value or absence, and keeps the value in the dictionary.
///
/// # Errors
///
/// R9, or `Memory` if an allocation failed. The draft is then unusable.
#[inline(always)]
pub fn send(
    draft: &mut Draft,
    ledger: &mut Ledger,
    at: Known<'_>,
    operator: Operator,
    value: Option<Scalar<'_>>,
    bit: bool,
    item: Sent<'_>,
) -> Result<(), EncodeFault>
    requires operator { (field_there at.place).operator ≡ operator }
    requires served { IsServed ledger.old (field_data (field_there at.place)) }
    requires suited { IsSuited ledger.old.max_text (field_data (field_there at.place)) (option_map scalar_data value) }
    requires ruled { Rule (field_data (field_there at.place)) (previous_at (field_data (field_there at.place)).entry ledger.old.now)
        (option_map scalar_data value) bit (sent_data item) }
    requires sendable { IsSendable (field_data (field_there at.place)) (sent_data item) }
    ensures ok { OnOk result ((l : Limits) → l.max_text ≡ ledger.old.max_text
        → Wrote (EncodesField l (field_data (field_there at.entry.place)) ledger.old.now (option_map scalar_data value.entry))
        draft.old draft.new ledger.new.now) }
    ensures err { IfErr result
        (IsTold (RefusesField (field_data (field_there at.entry.place)) ledger.old.now (option_map scalar_data value.entry))) }
    ensures before { ledger.new.before ≡ ledger.old.before }
    ensures max_text { ledger.new.max_text ≡ ledger.old.max_text }
    ensures length { length ledger.new.now ≡ length ledger.old.now }
{
    if uses_bit(at, operator) {
        draft.push_bit(bit)?;
    }
    write_item(&mut draft.bytes, at, item)?;
    keep(ledger, at, operator, value)?;
    Ok(())
}

/// Writes a clear presence bit, for a value that the operator implies, and keeps the value in the dictionary.
///
/// # Errors
///
/// `Memory` if an allocation failed. The draft is then unusable.
#[inline(always)]
pub fn leave_out(
    draft: &mut Draft,
    ledger: &mut Ledger,
    at: Known<'_>,
    operator: Operator,
    value: Scalar<'_>,
) -> Result<(), EncodeFault>
    requires operator { (field_there at.place).operator ≡ operator }
    requires served { IsServed ledger.old (field_data (field_there at.place)) }
    requires suited { IsSuited ledger.old.max_text (field_data (field_there at.place)) (Some (scalar_data value)) }
    requires ruled { Rule (field_data (field_there at.place)) (previous_at (field_data (field_there at.place)).entry ledger.old.now)
        (Some (scalar_data value)) false nothing }
    ensures ok { OnOk result ((l : Limits) → l.max_text ≡ ledger.old.max_text
        → Wrote (EncodesField l (field_data (field_there at.entry.place)) ledger.old.now (Some (scalar_data value.entry)))
        draft.old draft.new ledger.new.now) }
    ensures err { IfErr result
        (IsTold (RefusesField (field_data (field_there at.entry.place)) ledger.old.now (Some (scalar_data value.entry)))) }
    ensures before { ledger.new.before ≡ ledger.old.before }
    ensures max_text { ledger.new.max_text ≡ ledger.old.max_text }
    ensures length { length ledger.new.now ≡ length ledger.old.now }
{
    draft.push_bit(false)?;
    keep(ledger, at, operator, Some(value))?;
    Ok(())
}

/// Returns whether a field with this operator has a presence bit.
#[inline(always)]
fn uses_bit(at: Known<'_>, operator: Operator) -> bool
    requires { (field_there at.place).operator ≡ operator }
    ensures { result ≡ uses_bit (field_data (field_there at.entry.place)) }
{
    match operator {
        Operator::None | Operator::Delta => false,
        Operator::Constant => at.nullable,
        Operator::Default | Operator::Copy | Operator::Increment | Operator::Tail => true,
    }
}

/// Returns whether the operator keeps the value as the previous value of the next message.
#[inline(always)]
pub fn keeps(operator: Operator) -> bool
    ensures value { result ≡ keeps_value operator }
    ensures same { IsFalse result
        → (kind : Kind) (p : PreviousData) (v : Option ScalarData) → next_by operator kind p v ≡ p }
{
    match operator {
        Operator::None | Operator::Constant | Operator::Default => false,
        Operator::Copy | Operator::Increment | Operator::Delta | Operator::Tail => true,
    }
}

/// Returns the previous value that the field's operator reads.
#[inline(always)]
pub fn previous_of<'a>(ledger: &'a Ledger, at: Known<'_>) -> Previous<'a>
    requires { IsServed ledger.now (field_data (field_there at.place)) }
    ensures value { previous_data result ≡ previous_at (field_data (field_there at.entry.place)).entry ledger.now.now }
    ensures short { text_size (previous_data result) ≤ ledger.now.max_text }
{
    match at.entry {
        Some(entry) => ledger.get(entry as usize),
        None => Previous::Undefined,
    }
}

/// Notes, for the proof alone, that the numbers of a delta's base lie in the range of a Rust type. Has no other effect.
fn note_base(field: &FieldInstruction, previous: Previous<'_>)
    ensures { (base : ScalarData) → delta_base (field_data field.now) (previous_data previous.entry) ≡ Ok base
        → IsNarrow base }
{
    if let Ok(base) = delta_base(field, previous) {
        note_range(base);
    }
}

/// Notes, for the proof alone, that the numbers of a value lie in the range of a Rust type. Has no other effect.
pub fn note_range(value: Scalar<'_>)
    ensures { IsNarrow (scalar_data value.entry) }
{
    match value {
        Scalar::U(number) => {
            let _ = number;
        }
        Scalar::I(number) => {
            let _ = number;
        }
        Scalar::Dec { exponent, mantissa } => {
            let _ = (exponent, mantissa);
        }
        Scalar::Ascii(_) | Scalar::Unicode(_) | Scalar::Bytes(_) => {}
    }
}

/// Keeps the value or the absence in the entry that the field's operator writes.
#[inline(always)]
pub fn keep(
    ledger: &mut Ledger,
    at: Known<'_>,
    operator: Operator,
    value: Option<Scalar<'_>>,
) -> Result<(), AllocError>
    requires operator { (field_there at.place).operator ≡ operator }
    requires served { IsServed ledger.old (field_data (field_there at.place)) }
    requires suited { IsSuited ledger.old.max_text (field_data (field_there at.place)) (option_map scalar_data value) }
    ensures now { OnOk result (ledger.new.now ≡ write_at (field_data (field_there at.entry.place)).entry
        (next_of (field_data (field_there at.entry.place)) (previous_at (field_data (field_there at.entry.place)).entry ledger.old.now)
        (option_map scalar_data value.entry)) ledger.old.now) }
    ensures before { ledger.new.before ≡ ledger.old.before }
    ensures max_text { ledger.new.max_text ≡ ledger.old.max_text }
    ensures length { length ledger.new.now ≡ length ledger.old.now }
{
    if !keeps(operator) {
        return Ok(());
    }
    let Some(entry) = at.entry else {
        return Ok(());
    };
    match (value, operator) {
        (Some(value), _) => ledger.set(entry as usize, at.kind, value),
        (None, Operator::Delta) => Ok(()),
        (None, _) => {
            ledger.set_empty(entry as usize);
            Ok(())
        }
    }
}
