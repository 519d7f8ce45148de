//! Instructions without slots of their own: absent ones, and decimals by parts.

ghost use Rattle.std.specs.Prelude.{◌≡◌, ◌<◌, ℕ, length, Some, None, option_map, OnOk, IfErr, IfSome};
ghost use Rattle.fast_value.specs.meaning.Kinds.{I};
ghost use Rattle.fast_value.specs.meaning.Messages.{one};
ghost use Rattle.fast_value.specs.meaning.Values.{value_data};
ghost use Rattle.fast_value.specs.declared.settings.Limits.{Limits};
ghost use Rattle.fast_value.specs.declared.kinds.Kind.TheVariants.{Int32, Int64};
ghost use Rattle.fast_template.specs.meaning.Flat.{nodes_of, tree_of, field_data};
ghost use Rattle.fast_tree.specs.meaning.Usable.{IsUsable};
ghost use Rattle.fast_dict.specs.meaning.EntryTexts.{HasLongInitial, IsLongText};
ghost use Rattle.fast_spelling.specs.device.Drafts.{IsTold};
ghost use Rattle.fast_spelling.specs.meaning.Encoding.{Encodes, EncodesDecimal, EncodesField};
ghost use Rattle.fast_spelling.specs.device.Fields.{Wrote, IsServed, IsSuited};
ghost use Rattle.fast_spelling.specs.device.Nodes.{instruction_in, head_in, IsReady, Keeps};
ghost use Rattle.fast_spelling.specs.meaning.Refusals.{Refuses, RefusesDecimal, RefusesField};
ghost use Rattle.fast_spelling.specs.meaning.Suiting.{Suits, IsRightDecimal};

use crate::draft::Draft;
use crate::faults::EncodeFault;
use crate::fields::write_field;
use crate::known::Known;
use crate::ledger::Ledger;
use crate::quick::{is_held, is_initial, write_difference, write_signed};
use fast_template::{FieldInstruction, Operator, Shape, Templates};
use fast_value::{Limits, Scalar, Value};

/// Writes a decimal by parts: its exponent, and then its mantissa. Their operators may be known at compile time.
#[inline(always)]
pub fn write_decimal(
    exponent: &FieldInstruction,
    mantissa: &FieldInstruction,
    operators: (Operator, Operator),
    value: &Value,
    draft: &mut Draft,
    ledger: &mut Ledger,
) -> Result<(), EncodeFault>
    requires operators { (exponent.now.operator ≡ operators.0) × (mantissa.now.operator ≡ operators.1) }
    requires exponent { IsServed ledger.old (field_data exponent.now) }
    requires mantissa { IsServed ledger.old (field_data mantissa.now) }
    requires kinds { (exponent.now.kind ≡ Int32) × (mantissa.now.kind ≡ Int64) }
    requires right { IsRightDecimal (field_data exponent.now) (Some (one (value_data value.now))) }
    ensures ok { OnOk result ((l : Limits) → l.max_text ≡ ledger.old.max_text
        → Wrote (EncodesDecimal l (field_data exponent.now) (field_data mantissa.now) ledger.old.now
        (Some (one (value_data value.now)))) draft.old draft.new ledger.new.now) }
    ensures err { IfErr result (IsTold (λ c. (l : Limits) → l.max_text ≡ ledger.old.max_text
        → RefusesDecimal l (field_data exponent.now) (field_data mantissa.now) ledger.old.now
        (Some (one (value_data value.now))) c)) }
    ensures keeps { Keeps ledger.old ledger.new }
{
    match value {
        Value::Dec {
            exponent: e,
            mantissa: m,
        } => {
            write_exponent(draft, ledger, exponent, operators.0, i64::from(*e))?;
            write_mantissa(draft, ledger, mantissa, operators.1, *m)
        }
        _ => Err(EncodeFault::E3),
    }
}

/// Writes the exponent of a decimal by parts. It seldom changes: the code for one that default or copy implies is inlined.
#[inline(always)]
fn write_exponent(
    draft: &mut Draft,
    ledger: &mut Ledger,
    field: &FieldInstruction,
    operator: Operator,
    number: i64,
) -> Result<(), EncodeFault>
    requires operator { field.now.operator ≡ operator }
    requires served { IsServed ledger.old (field_data field.now) }
    requires suited { IsSuited ledger.old.max_text (field_data field.now) (Some (I number)) }
    ensures ok { OnOk result ((l : Limits) → l.max_text ≡ ledger.old.max_text
        → Wrote (EncodesField l (field_data field.now) ledger.old.now (Some (I number))) draft.old draft.new
        ledger.new.now) }
    ensures err { IfErr result (IsTold (RefusesField (field_data field.now) ledger.old.now (Some (I number)))) }
    ensures keeps { Keeps ledger.old ledger.new }
{
    let at = Known::of(field);
    match operator {
        Operator::Default if is_initial(at, Scalar::I(number)) => Ok(draft.push_bit(false)?),
        Operator::Copy if is_held(ledger, at, Scalar::I(number)) => Ok(draft.push_bit(false)?),
        _ => write_signed(draft, ledger, field, number),
    }
}

/// Writes the mantissa of a decimal by parts. The code for delta, the usual operator, is inlined.
#[inline(always)]
fn write_mantissa(
    draft: &mut Draft,
    ledger: &mut Ledger,
    field: &FieldInstruction,
    operator: Operator,
    number: i64,
) -> Result<(), EncodeFault>
    requires operator { field.now.operator ≡ operator }
    requires served { IsServed ledger.old (field_data field.now) }
    requires suited { IsSuited ledger.old.max_text (field_data field.now) (Some (I number)) }
    ensures ok { OnOk result ((l : Limits) → l.max_text ≡ ledger.old.max_text
        → Wrote (EncodesField l (field_data field.now) ledger.old.now (Some (I number))) draft.old draft.new
        ledger.new.now) }
    ensures err { IfErr result (IsTold (RefusesField (field_data field.now) ledger.old.now (Some (I number)))) }
    ensures keeps { Keeps ledger.old ledger.new }
{
    match operator {
        Operator::Delta => write_difference(draft, ledger, Known::of(field), Scalar::I(number)),
        _ => write_signed(draft, ledger, field, number),
    }
}

/// Writes the absence of a node's field, group or sequence.
#[inline(always)]
pub fn write_absent(
    templates: &Templates,
    limits: Limits,
    node: u32,
    draft: &mut Draft,
    ledger: &mut Ledger,
) -> Result<(), EncodeFault>
    requires node { node < length (nodes_of templates.now) }
    requires ready { IsReady templates.now limits ledger.old }
    requires suits { Suits (instruction_in (nodes_of templates.now) node) None }
    ensures ok { OnOk result
        (Wrote (Encodes limits (instruction_in (nodes_of templates.now) node) ledger.old.now None) draft.old draft.new
        ledger.new.now) }
    ensures err { IfErr result
        (IsTold (Refuses limits (instruction_in (nodes_of templates.now) node) ledger.old.now None)) }
    ensures keeps { Keeps ledger.old ledger.new }
{
    match head_of(templates, node) {
        Some(field) => write_field(draft, ledger, field, None),
        None => {
            draft.push_bit(false)?;
            Ok(())
        }
    }
}

/// Returns the field whose absence is that of the whole instruction: the field itself, an exponent or a length; `None` for a group.
#[inline(always)]
fn head_of(templates: &Templates, node: u32) -> Option<&FieldInstruction>
    requires { node < length (nodes_of templates.now) }
    ensures head { option_map (λ f. field_data f.now) result ≡ head_in (instruction_in (nodes_of templates.now) node) }
    ensures usable { IfSome result (λ f. IsUsable (tree_of templates.now).entries (field_data f.now)) }
    ensures initial { IfSome result
        (λ f. (m : ℕ) → ¬ (HasLongInitial m (nodes_of templates.now)) → ¬ (IsLongText m (field_data f.now).initial)) }
{
    match &templates.node(node).shape {
        Shape::Field(field) => Some(field),
        Shape::Decimal { exponent, .. } => Some(exponent),
        Shape::Sequence { length, .. } => Some(length),
        Shape::Group { .. } => None,
    }
}
