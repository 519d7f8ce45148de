//! Values for which more than one comparison decides what is sent.

ghost use Rattle.std.specs.Prelude.{◌≡◌, Some, OnOk, IfErr};
ghost use Rattle.fast_value.specs.declared.settings.Limits.{Limits};
ghost use Rattle.fast_value.specs.meaning.Kinds.{U, I, Dec, AsciiText, UnicodeText, ByteVector};
ghost use Rattle.fast_value.specs.meaning.Values.{scalar_data};
ghost use Rattle.fast_tree.specs.meaning.Nodes.{field_data};
ghost use Rattle.fast_spelling.specs.meaning.Encoding.{EncodesField};
ghost use Rattle.fast_spelling.specs.device.Drafts.{IsTold};
ghost use Rattle.fast_spelling.specs.device.Places.{field_there};
ghost use Rattle.fast_spelling.specs.device.Fields.{IsServed, IsSuited, Wrote};
ghost use Rattle.fast_spelling.specs.device.Nodes.{Keeps};
ghost use Rattle.fast_spelling.specs.meaning.Refusals.{RefusesField};

use super::deltas::{write_decimal_delta, write_tail, write_text_delta};
use crate::draft::Draft;
use crate::faults::EncodeFault;
use crate::fields::write_chosen;
use crate::known::Known;
use crate::ledger::Ledger;
use fast_template::{FieldInstruction, Operator};
use fast_value::Scalar;

/// Writes a field that has a value, by the rule that chooses what is sent. It passes on the parts of the value, so that the value is not
/// stored in memory.
#[inline(always)]
pub fn choose_value(
    draft: &mut Draft,
    ledger: &mut Ledger,
    field: &FieldInstruction,
    value: Scalar<'_>,
) -> Result<(), EncodeFault>
    requires served { IsServed ledger.old (field_data field.now) }
    requires suited { IsSuited ledger.old.max_text (field_data field.now) (Some (scalar_data value)) }
    ensures ok { OnOk result ((l : Limits) → l.max_text ≡ ledger.old.max_text
        → Wrote (EncodesField l (field_data field.now) ledger.old.now (Some (scalar_data value.entry)))
        draft.old draft.new ledger.new.now) }
    ensures err { IfErr result
        (IsTold (RefusesField (field_data field.now) ledger.old.now (Some (scalar_data value.entry)))) }
    ensures keeps { Keeps ledger.old ledger.new }
{
    match value {
        Scalar::U(number) => choose_unsigned(draft, ledger, field, number),
        Scalar::I(number) => choose_signed(draft, ledger, field, number),
        Scalar::Dec { exponent, mantissa } => {
            choose_decimal(draft, ledger, field, exponent, mantissa)
        }
        Scalar::Ascii(text) => choose_ascii(draft, ledger, field, text),
        Scalar::Unicode(text) => choose_unicode(draft, ledger, field, text),
        Scalar::Bytes(text) => choose_bytes(draft, ledger, field, text),
    }
}

/// Writes a field as [`choose_value`] does: here the field itself is read.
#[inline(always)]
pub fn choose_known(
    draft: &mut Draft,
    ledger: &mut Ledger,
    at: Known<'_>,
    value: Scalar<'_>,
) -> Result<(), EncodeFault>
    requires served { IsServed ledger.old (field_data (field_there at.place)) }
    requires suited { IsSuited ledger.old.max_text (field_data (field_there at.place)) (Some (scalar_data value)) }
    ensures ok { OnOk result ((l : Limits) → l.max_text ≡ ledger.old.max_text
        → Wrote (EncodesField l (field_data (field_there at.entry.place)) ledger.old.now (Some (scalar_data value.entry)))
        draft.old draft.new ledger.new.now) }
    ensures err { IfErr result
        (IsTold (RefusesField (field_data (field_there at.entry.place)) ledger.old.now (Some (scalar_data value.entry)))) }
    ensures keeps { Keeps ledger.old ledger.new }
{
    choose_value(draft, ledger, at.field(), value)
}

/// Writes a field that has an unsigned integer, by the rule that chooses what is sent.
#[cold]
fn choose_unsigned(
    draft: &mut Draft,
    ledger: &mut Ledger,
    field: &FieldInstruction,
    number: u64,
) -> Result<(), EncodeFault>
    requires served { IsServed ledger.old (field_data field.now) }
    requires suited { IsSuited ledger.old.max_text (field_data field.now) (Some (U number)) }
    ensures ok { OnOk result ((l : Limits) → l.max_text ≡ ledger.old.max_text
        → Wrote (EncodesField l (field_data field.now) ledger.old.now (Some (U number))) draft.old draft.new
        ledger.new.now) }
    ensures err { IfErr result (IsTold (RefusesField (field_data field.now) ledger.old.now (Some (U number)))) }
    ensures keeps { Keeps ledger.old ledger.new }
{
    write_chosen(draft, ledger, field, Some(Scalar::U(number)))
}

/// Writes a field that has a signed integer, by the rule that chooses what is sent.
#[cold]
fn choose_signed(
    draft: &mut Draft,
    ledger: &mut Ledger,
    field: &FieldInstruction,
    number: i64,
) -> Result<(), EncodeFault>
    requires served { IsServed ledger.old (field_data field.now) }
    requires suited { IsSuited ledger.old.max_text (field_data field.now) (Some (I number)) }
    ensures ok { OnOk result ((l : Limits) → l.max_text ≡ ledger.old.max_text
        → Wrote (EncodesField l (field_data field.now) ledger.old.now (Some (I number))) draft.old draft.new
        ledger.new.now) }
    ensures err { IfErr result (IsTold (RefusesField (field_data field.now) ledger.old.now (Some (I number)))) }
    ensures keeps { Keeps ledger.old ledger.new }
{
    write_chosen(draft, ledger, field, Some(Scalar::I(number)))
}

/// Writes a field that has a decimal, by the rule that chooses what is sent. Decimals under delta have dedicated code.
fn choose_decimal(
    draft: &mut Draft,
    ledger: &mut Ledger,
    field: &FieldInstruction,
    exponent: i32,
    mantissa: i64,
) -> Result<(), EncodeFault>
    requires served { IsServed ledger.old (field_data field.now) }
    requires suited { IsSuited ledger.old.max_text (field_data field.now) (Some (Dec exponent mantissa)) }
    ensures ok { OnOk result ((l : Limits) → l.max_text ≡ ledger.old.max_text
        → Wrote (EncodesField l (field_data field.now) ledger.old.now (Some (Dec exponent mantissa))) draft.old
        draft.new ledger.new.now) }
    ensures err { IfErr result
        (IsTold (RefusesField (field_data field.now) ledger.old.now (Some (Dec exponent mantissa)))) }
    ensures keeps { Keeps ledger.old ledger.new }
{
    let value = Scalar::Dec { exponent, mantissa };
    if field.operator == Operator::Delta {
        return write_decimal_delta(draft, ledger, Known::of(field), value);
    }
    write_chosen(draft, ledger, field, Some(value))
}

/// Writes a field that has an ASCII string, by the rule that chooses what is sent.
fn choose_ascii(
    draft: &mut Draft,
    ledger: &mut Ledger,
    field: &FieldInstruction,
    text: &[u8],
) -> Result<(), EncodeFault>
    requires served { IsServed ledger.old (field_data field.now) }
    requires suited { IsSuited ledger.old.max_text (field_data field.now) (Some (AsciiText text.now)) }
    ensures ok { OnOk result ((l : Limits) → l.max_text ≡ ledger.old.max_text
        → Wrote (EncodesField l (field_data field.now) ledger.old.now (Some (AsciiText text.now))) draft.old draft.new
        ledger.new.now) }
    ensures err { IfErr result
        (IsTold (RefusesField (field_data field.now) ledger.old.now (Some (AsciiText text.now)))) }
    ensures keeps { Keeps ledger.old ledger.new }
{
    match field.operator {
        Operator::Tail => write_tail(draft, ledger, Known::of(field), Scalar::Ascii(text)),
        Operator::Delta => write_text_delta(draft, ledger, Known::of(field), Scalar::Ascii(text)),
        _ => write_chosen(draft, ledger, field, Some(Scalar::Ascii(text))),
    }
}

/// Writes a field that has a Unicode string, by the rule that chooses what is sent.
fn choose_unicode(
    draft: &mut Draft,
    ledger: &mut Ledger,
    field: &FieldInstruction,
    text: &[u8],
) -> Result<(), EncodeFault>
    requires served { IsServed ledger.old (field_data field.now) }
    requires suited { IsSuited ledger.old.max_text (field_data field.now) (Some (UnicodeText text.now)) }
    ensures ok { OnOk result ((l : Limits) → l.max_text ≡ ledger.old.max_text
        → Wrote (EncodesField l (field_data field.now) ledger.old.now (Some (UnicodeText text.now))) draft.old draft.new
        ledger.new.now) }
    ensures err { IfErr result
        (IsTold (RefusesField (field_data field.now) ledger.old.now (Some (UnicodeText text.now)))) }
    ensures keeps { Keeps ledger.old ledger.new }
{
    match field.operator {
        Operator::Tail => write_tail(draft, ledger, Known::of(field), Scalar::Unicode(text)),
        Operator::Delta => write_text_delta(draft, ledger, Known::of(field), Scalar::Unicode(text)),
        _ => write_chosen(draft, ledger, field, Some(Scalar::Unicode(text))),
    }
}

/// Writes a field that has a byte vector, by the rule that chooses what is sent.
fn choose_bytes(
    draft: &mut Draft,
    ledger: &mut Ledger,
    field: &FieldInstruction,
    text: &[u8],
) -> Result<(), EncodeFault>
    requires served { IsServed ledger.old (field_data field.now) }
    requires suited { IsSuited ledger.old.max_text (field_data field.now) (Some (ByteVector text.now)) }
    ensures ok { OnOk result ((l : Limits) → l.max_text ≡ ledger.old.max_text
        → Wrote (EncodesField l (field_data field.now) ledger.old.now (Some (ByteVector text.now))) draft.old draft.new
        ledger.new.now) }
    ensures err { IfErr result
        (IsTold (RefusesField (field_data field.now) ledger.old.now (Some (ByteVector text.now)))) }
    ensures keeps { Keeps ledger.old ledger.new }
{
    match field.operator {
        Operator::Tail => write_tail(draft, ledger, Known::of(field), Scalar::Bytes(text)),
        Operator::Delta => write_text_delta(draft, ledger, Known::of(field), Scalar::Bytes(text)),
        _ => write_chosen(draft, ledger, field, Some(Scalar::Bytes(text))),
    }
}
