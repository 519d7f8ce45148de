//! Fields under the usual operators and previous values, for which one comparison decides the case of the rule. This module selects by the
//! type of the value, `operators` by the operator.

mod choices;
mod deltas;
mod held;
mod operators;

ghost use Rattle.std.specs.Prelude.{◌≡◌, Some, OnOk, IfErr};
ghost use Rattle.fast_value.specs.declared.settings.Limits.{Limits};
ghost use Rattle.fast_value.specs.meaning.Kinds.{U, I, Dec, AsciiText, UnicodeText, ByteVector};
ghost use Rattle.fast_value.specs.meaning.Values.{scalar_data};
ghost use Rattle.fast_tree.specs.meaning.Nodes.{field_data};
ghost use Rattle.fast_spelling.specs.meaning.Encoding.{EncodesField};
ghost use Rattle.fast_spelling.specs.device.Drafts.{IsTold};
ghost use Rattle.fast_spelling.specs.device.Fields.{IsServed, IsSuited, Wrote};
ghost use Rattle.fast_spelling.specs.device.Nodes.{Keeps};
ghost use Rattle.fast_spelling.specs.meaning.Refusals.{RefusesField};

use crate::draft::Draft;
use crate::faults::EncodeFault;
use crate::known::Known;
use crate::ledger::Ledger;
pub use choices::choose_value;
use fast_template::{FieldInstruction, Operator};
use fast_value::Scalar;
pub use held::{is_held, is_initial};
pub use operators::{
    write_constant, write_copied, write_copied_other, write_default, write_difference, write_next,
    write_plain,
};

/// Writes a field that has an unsigned integer.
///
/// # Errors
///
/// E3, or `Memory` if an allocation failed. The draft is then unusable.
#[tactic(auto, using(crate::proofs::rules::Usual::plain_ruled, crate::proofs::rules::Usual::number_sendable))]
#[inline(always)]
pub fn write_unsigned(
    draft: &mut Draft,
    ledger: &mut Ledger,
    field: &FieldInstruction,
    number: u64,
) -> Result<(), EncodeFault>
    requires served { IsServed ledger.old (field_data field.now) }
    requires suited { IsSuited ledger.old.max_text (field_data field.now) (Some (U number)) }
    ensures ok { OnOk result ((l : Limits) → l.max_text ≡ ledger.old.max_text
        → Wrote (EncodesField l (field_data field.now) ledger.old.now (Some (U number))) draft.old draft.new
        ledger.new.now) }
    ensures err { IfErr result (IsTold (RefusesField (field_data field.now) ledger.old.now (Some (U number)))) }
    ensures keeps { Keeps ledger.old ledger.new }
{
    if field.operator == Operator::None {
        return write_plain(draft, ledger, Known::of(field), Scalar::U(number));
    }
    write_kept_unsigned(draft, ledger, field, number)
}

/// Writes a field that has an unsigned integer, for any operator.
fn write_kept_unsigned(
    draft: &mut Draft,
    ledger: &mut Ledger,
    field: &FieldInstruction,
    number: u64,
) -> Result<(), EncodeFault>
    requires served { IsServed ledger.old (field_data field.now) }
    requires suited { IsSuited ledger.old.max_text (field_data field.now) (Some (U number)) }
    ensures ok { OnOk result ((l : Limits) → l.max_text ≡ ledger.old.max_text
        → Wrote (EncodesField l (field_data field.now) ledger.old.now (Some (U number))) draft.old draft.new
        ledger.new.now) }
    ensures err { IfErr result (IsTold (RefusesField (field_data field.now) ledger.old.now (Some (U number)))) }
    ensures keeps { Keeps ledger.old ledger.new }
{
    match field.operator {
        Operator::None => write_plain(draft, ledger, Known::of(field), Scalar::U(number)),
        Operator::Copy => write_copied(draft, ledger, Known::of(field), Scalar::U(number)),
        Operator::Increment => write_next(draft, ledger, Known::of(field), Scalar::U(number)),
        Operator::Delta => write_difference(draft, ledger, Known::of(field), Scalar::U(number)),
        Operator::Default => write_default(draft, ledger, Known::of(field), Scalar::U(number)),
        Operator::Constant => write_constant(draft, ledger, Known::of(field), Scalar::U(number)),
        Operator::Tail => choose_value(draft, ledger, field, Scalar::U(number)),
    }
}

/// Writes a field that has a signed integer.
///
/// # Errors
///
/// E3, or `Memory` if an allocation failed. The draft is then unusable.
pub fn write_signed(
    draft: &mut Draft,
    ledger: &mut Ledger,
    field: &FieldInstruction,
    number: i64,
) -> Result<(), EncodeFault>
    requires served { IsServed ledger.old (field_data field.now) }
    requires suited { IsSuited ledger.old.max_text (field_data field.now) (Some (I number)) }
    ensures ok { OnOk result ((l : Limits) → l.max_text ≡ ledger.old.max_text
        → Wrote (EncodesField l (field_data field.now) ledger.old.now (Some (I number))) draft.old draft.new
        ledger.new.now) }
    ensures err { IfErr result (IsTold (RefusesField (field_data field.now) ledger.old.now (Some (I number)))) }
    ensures keeps { Keeps ledger.old ledger.new }
{
    match field.operator {
        Operator::None => write_plain(draft, ledger, Known::of(field), Scalar::I(number)),
        Operator::Copy => write_copied(draft, ledger, Known::of(field), Scalar::I(number)),
        Operator::Increment => write_next(draft, ledger, Known::of(field), Scalar::I(number)),
        Operator::Delta => write_difference(draft, ledger, Known::of(field), Scalar::I(number)),
        Operator::Default => write_default(draft, ledger, Known::of(field), Scalar::I(number)),
        Operator::Constant => write_constant(draft, ledger, Known::of(field), Scalar::I(number)),
        Operator::Tail => choose_value(draft, ledger, field, Scalar::I(number)),
    }
}

/// Writes a field that has an ASCII string.
///
/// # Errors
///
/// E3, R9, or `Memory` if an allocation failed. The draft is then unusable.
pub fn write_ascii(
    draft: &mut Draft,
    ledger: &mut Ledger,
    field: &FieldInstruction,
    text: &[u8],
) -> Result<(), EncodeFault>
    requires served { IsServed ledger.old (field_data field.now) }
    requires suited { IsSuited ledger.old.max_text (field_data field.now) (Some (AsciiText text.now)) }
    ensures ok { OnOk result ((l : Limits) → l.max_text ≡ ledger.old.max_text
        → Wrote (EncodesField l (field_data field.now) ledger.old.now (Some (AsciiText text.now))) draft.old draft.new
        ledger.new.now) }
    ensures err { IfErr result
        (IsTold (RefusesField (field_data field.now) ledger.old.now (Some (AsciiText text.now)))) }
    ensures keeps { Keeps ledger.old ledger.new }
{
    write_other(draft, ledger, field, Scalar::Ascii(text))
}

/// Writes a field that has a Unicode string.
pub fn write_unicode(
    draft: &mut Draft,
    ledger: &mut Ledger,
    field: &FieldInstruction,
    text: &[u8],
) -> Result<(), EncodeFault>
    requires served { IsServed ledger.old (field_data field.now) }
    requires suited { IsSuited ledger.old.max_text (field_data field.now) (Some (UnicodeText text.now)) }
    ensures ok { OnOk result ((l : Limits) → l.max_text ≡ ledger.old.max_text
        → Wrote (EncodesField l (field_data field.now) ledger.old.now (Some (UnicodeText text.now))) draft.old draft.new
        ledger.new.now) }
    ensures err { IfErr result
        (IsTold (RefusesField (field_data field.now) ledger.old.now (Some (UnicodeText text.now)))) }
    ensures keeps { Keeps ledger.old ledger.new }
{
    write_other(draft, ledger, field, Scalar::Unicode(text))
}

/// Writes a field that has a byte vector.
pub fn write_bytes(
    draft: &mut Draft,
    ledger: &mut Ledger,
    field: &FieldInstruction,
    text: &[u8],
) -> Result<(), EncodeFault>
    requires served { IsServed ledger.old (field_data field.now) }
    requires suited { IsSuited ledger.old.max_text (field_data field.now) (Some (ByteVector text.now)) }
    ensures ok { OnOk result ((l : Limits) → l.max_text ≡ ledger.old.max_text
        → Wrote (EncodesField l (field_data field.now) ledger.old.now (Some (ByteVector text.now))) draft.old draft.new
        ledger.new.now) }
    ensures err { IfErr result
        (IsTold (RefusesField (field_data field.now) ledger.old.now (Some (ByteVector text.now)))) }
    ensures keeps { Keeps ledger.old ledger.new }
{
    write_other(draft, ledger, field, Scalar::Bytes(text))
}

/// Writes a field that has a decimal.
///
/// # Errors
///
/// E3, or `Memory` if an allocation failed. The draft is then unusable.
pub fn write_whole_decimal(
    draft: &mut Draft,
    ledger: &mut Ledger,
    field: &FieldInstruction,
    exponent: i32,
    mantissa: i64,
) -> Result<(), EncodeFault>
    requires served { IsServed ledger.old (field_data field.now) }
    requires suited { IsSuited ledger.old.max_text (field_data field.now) (Some (Dec exponent mantissa)) }
    ensures ok { OnOk result ((l : Limits) → l.max_text ≡ ledger.old.max_text
        → Wrote (EncodesField l (field_data field.now) ledger.old.now (Some (Dec exponent mantissa))) draft.old
        draft.new ledger.new.now) }
    ensures err { IfErr result
        (IsTold (RefusesField (field_data field.now) ledger.old.now (Some (Dec exponent mantissa)))) }
    ensures keeps { Keeps ledger.old ledger.new }
{
    write_other(draft, ledger, field, Scalar::Dec { exponent, mantissa })
}

/// Writes a field that has a string, a byte vector or a decimal.
///
/// # Errors
///
/// E3, R9, or `Memory` if an allocation failed. The draft is then unusable.
#[inline(always)]
fn write_other(
    draft: &mut Draft,
    ledger: &mut Ledger,
    field: &FieldInstruction,
    value: Scalar<'_>,
) -> Result<(), EncodeFault>
    requires served { IsServed ledger.old (field_data field.now) }
    requires suited { IsSuited ledger.old.max_text (field_data field.now) (Some (scalar_data value)) }
    ensures ok { OnOk result ((l : Limits) → l.max_text ≡ ledger.old.max_text
        → Wrote (EncodesField l (field_data field.now) ledger.old.now (Some (scalar_data value.entry)))
        draft.old draft.new ledger.new.now) }
    ensures err { IfErr result
        (IsTold (RefusesField (field_data field.now) ledger.old.now (Some (scalar_data value.entry)))) }
    ensures keeps { Keeps ledger.old ledger.new }
{
    match field.operator {
        Operator::None => write_plain(draft, ledger, Known::of(field), value),
        Operator::Copy => write_copied_other(draft, ledger, Known::of(field), value),
        Operator::Default => write_default(draft, ledger, Known::of(field), value),
        Operator::Constant => write_constant(draft, ledger, Known::of(field), value),
        Operator::Increment | Operator::Delta | Operator::Tail => {
            choose_value(draft, ledger, field, value)
        }
    }
}
