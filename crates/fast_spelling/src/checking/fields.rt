//! Present fields, by operator, checked as they are written.

ghost use Rattle.std.specs.Prelude.{◌≡◌, ◌≤◌, length, Some, OnOk};
ghost use Rattle.fast_value.specs.meaning.Messages.{one};
ghost use Rattle.fast_template.specs.meaning.Flat.{nodes_of};
ghost use Rattle.fast_spelling.specs.meaning.Encoding.{Encodes};
ghost use Rattle.fast_spelling.specs.device.Fields.{Wrote};
ghost use Rattle.fast_spelling.specs.device.Forms.{IsFieldAt, IsPartsAt, IsIn};
ghost use Rattle.fast_spelling.specs.device.Usual.{IsOfNumbers};
ghost use Rattle.fast_spelling.specs.device.Nodes.{instruction_in, IsReady, Keeps};
ghost use Rattle.fast_spelling.specs.meaning.Suiting.{Suits};
ghost use Rattle.fast_tree.specs.declared.operators.Operator.TheVariants.{None as no_operator, Constant, Default, Copy, Increment, Delta};
ghost use Rattle.fast_value.specs.meaning.Kinds.{text_of};
ghost use Rattle.fast_value.specs.meaning.Values.{value_data};

use super::nodes::{field_at, known_at};
use super::values::{may_be, right_decimal, right_number, right_unsigned, right_value};
use crate::faults::EncodeFault;
use crate::fields::write_field;
use crate::forms::BodyStep;
use crate::integers::write_unsigned_as;
use crate::parts::write_decimal;
use crate::plan::{Plan, Work};
use crate::quick::{
    choose_value, write_constant, write_copied, write_copied_other, write_default,
    write_difference, write_next, write_plain,
};
use fast_template::{Operator, Shape};
use fast_value::{Kind, Scalar, Value};

/// Writes an unsigned integer of a field without operator, without a look at the field itself.
#[inline(always)]
pub fn try_plain_unsigned(
    plan: &Plan<'_>,
    here: &BodyStep,
    kind: Kind,
    value: &Value,
    work: &mut Work,
) -> Result<(), EncodeFault>
    requires node { IsIn (nodes_of plan.now.templates.now) here.now }
    requires form { IsFieldAt (nodes_of plan.now.templates.now) here.now.node kind no_operator }
    requires ready { IsReady plan.now.templates.now plan.now.limits work.old.ledger }
    ensures suits { OnOk result
        (Suits (instruction_in (nodes_of plan.now.templates.now) here.now.node) (Some (one (value_data value.now)))) }
    ensures fits { OnOk result (length (text_of (value_data value.now)) ≤ plan.now.limits.max_text) }
    ensures ok { OnOk result
        (Wrote (Encodes plan.now.limits (instruction_in (nodes_of plan.now.templates.now) here.now.node) work.old.ledger.now
        (Some (one (value_data value.now)))) work.old.draft work.new.draft work.new.ledger.now) }
    ensures keeps { Keeps work.old.ledger work.new.ledger }
    ensures room { work.new.room ≡ work.old.room }
{
    let Some(Scalar::U(number)) = right_unsigned(kind, value) else {
        return Err(EncodeFault::E2);
    };
    write_unsigned_as(&mut work.draft.bytes, here.step.nullable, number)?;
    Ok(())
}

/// Writes a value of a field without operator.
#[inline(always)]
pub fn try_plain(
    plan: &Plan<'_>,
    here: &BodyStep,
    kind: Kind,
    value: &Value,
    work: &mut Work,
) -> Result<(), EncodeFault>
    requires node { IsIn (nodes_of plan.now.templates.now) here.now }
    requires form { IsFieldAt (nodes_of plan.now.templates.now) here.now.node kind no_operator }
    requires ready { IsReady plan.now.templates.now plan.now.limits work.old.ledger }
    ensures suits { OnOk result
        (Suits (instruction_in (nodes_of plan.now.templates.now) here.now.node) (Some (one (value_data value.now)))) }
    ensures fits { OnOk result (length (text_of (value_data value.now)) ≤ plan.now.limits.max_text) }
    ensures ok { OnOk result
        (Wrote (Encodes plan.now.limits (instruction_in (nodes_of plan.now.templates.now) here.now.node) work.old.ledger.now
        (Some (one (value_data value.now)))) work.old.draft work.new.draft work.new.ledger.now) }
    ensures keeps { Keeps work.old.ledger work.new.ledger }
    ensures room { work.new.room ≡ work.old.room }
{
    let at = known_at(plan, here, kind, Operator::None);
    let Some(scalar) = right_value(plan.limits, kind, value) else {
        return Err(EncodeFault::E2);
    };
    write_plain(&mut work.draft, &mut work.ledger, at, scalar)
}

/// Writes a value of a field under constant.
#[inline(always)]
pub fn try_constant(
    plan: &Plan<'_>,
    here: &BodyStep,
    kind: Kind,
    value: &Value,
    work: &mut Work,
) -> Result<(), EncodeFault>
    requires node { IsIn (nodes_of plan.now.templates.now) here.now }
    requires form { IsFieldAt (nodes_of plan.now.templates.now) here.now.node kind Constant }
    requires ready { IsReady plan.now.templates.now plan.now.limits work.old.ledger }
    ensures suits { OnOk result
        (Suits (instruction_in (nodes_of plan.now.templates.now) here.now.node) (Some (one (value_data value.now)))) }
    ensures fits { OnOk result (length (text_of (value_data value.now)) ≤ plan.now.limits.max_text) }
    ensures ok { OnOk result
        (Wrote (Encodes plan.now.limits (instruction_in (nodes_of plan.now.templates.now) here.now.node) work.old.ledger.now
        (Some (one (value_data value.now)))) work.old.draft work.new.draft work.new.ledger.now) }
    ensures keeps { Keeps work.old.ledger work.new.ledger }
    ensures room { work.new.room ≡ work.old.room }
{
    let at = known_at(plan, here, kind, Operator::Constant);
    let Some(scalar) = right_value(plan.limits, kind, value) else {
        return Err(EncodeFault::E2);
    };
    write_constant(&mut work.draft, &mut work.ledger, at, scalar)
}

/// Writes a value of a field under default.
#[inline(always)]
pub fn try_default(
    plan: &Plan<'_>,
    here: &BodyStep,
    kind: Kind,
    value: &Value,
    work: &mut Work,
) -> Result<(), EncodeFault>
    requires node { IsIn (nodes_of plan.now.templates.now) here.now }
    requires form { IsFieldAt (nodes_of plan.now.templates.now) here.now.node kind Default }
    requires ready { IsReady plan.now.templates.now plan.now.limits work.old.ledger }
    ensures suits { OnOk result
        (Suits (instruction_in (nodes_of plan.now.templates.now) here.now.node) (Some (one (value_data value.now)))) }
    ensures fits { OnOk result (length (text_of (value_data value.now)) ≤ plan.now.limits.max_text) }
    ensures ok { OnOk result
        (Wrote (Encodes plan.now.limits (instruction_in (nodes_of plan.now.templates.now) here.now.node) work.old.ledger.now
        (Some (one (value_data value.now)))) work.old.draft work.new.draft work.new.ledger.now) }
    ensures keeps { Keeps work.old.ledger work.new.ledger }
    ensures room { work.new.room ≡ work.old.room }
{
    let at = known_at(plan, here, kind, Operator::Default);
    let Some(scalar) = right_value(plan.limits, kind, value) else {
        return Err(EncodeFault::E2);
    };
    write_default(&mut work.draft, &mut work.ledger, at, scalar)
}

/// Writes an integer under copy.
#[inline(always)]
pub fn try_copied(
    plan: &Plan<'_>,
    here: &BodyStep,
    kind: Kind,
    value: &Value,
    work: &mut Work,
) -> Result<(), EncodeFault>
    requires node { IsIn (nodes_of plan.now.templates.now) here.now }
    requires form { IsFieldAt (nodes_of plan.now.templates.now) here.now.node kind Copy }
    requires ready { IsReady plan.now.templates.now plan.now.limits work.old.ledger }
    requires numbers { IsOfNumbers kind }
    ensures suits { OnOk result
        (Suits (instruction_in (nodes_of plan.now.templates.now) here.now.node) (Some (one (value_data value.now)))) }
    ensures fits { OnOk result (length (text_of (value_data value.now)) ≤ plan.now.limits.max_text) }
    ensures ok { OnOk result
        (Wrote (Encodes plan.now.limits (instruction_in (nodes_of plan.now.templates.now) here.now.node) work.old.ledger.now
        (Some (one (value_data value.now)))) work.old.draft work.new.draft work.new.ledger.now) }
    ensures keeps { Keeps work.old.ledger work.new.ledger }
    ensures room { work.new.room ≡ work.old.room }
{
    let at = known_at(plan, here, kind, Operator::Copy);
    let Some(scalar) = right_value(plan.limits, kind, value) else {
        return Err(EncodeFault::E2);
    };
    write_copied(&mut work.draft, &mut work.ledger, at, scalar)
}

/// Writes a string, byte vector or decimal under copy.
#[inline(always)]
pub fn try_copied_other(
    plan: &Plan<'_>,
    here: &BodyStep,
    kind: Kind,
    value: &Value,
    work: &mut Work,
) -> Result<(), EncodeFault>
    requires node { IsIn (nodes_of plan.now.templates.now) here.now }
    requires form { IsFieldAt (nodes_of plan.now.templates.now) here.now.node kind Copy }
    requires ready { IsReady plan.now.templates.now plan.now.limits work.old.ledger }
    ensures suits { OnOk result
        (Suits (instruction_in (nodes_of plan.now.templates.now) here.now.node) (Some (one (value_data value.now)))) }
    ensures fits { OnOk result (length (text_of (value_data value.now)) ≤ plan.now.limits.max_text) }
    ensures ok { OnOk result
        (Wrote (Encodes plan.now.limits (instruction_in (nodes_of plan.now.templates.now) here.now.node) work.old.ledger.now
        (Some (one (value_data value.now)))) work.old.draft work.new.draft work.new.ledger.now) }
    ensures keeps { Keeps work.old.ledger work.new.ledger }
    ensures room { work.new.room ≡ work.old.room }
{
    let at = known_at(plan, here, kind, Operator::Copy);
    let Some(scalar) = right_value(plan.limits, kind, value) else {
        return Err(EncodeFault::E2);
    };
    write_copied_other(&mut work.draft, &mut work.ledger, at, scalar)
}

/// Writes an integer under increment.
#[inline(always)]
pub fn try_next(
    plan: &Plan<'_>,
    here: &BodyStep,
    kind: Kind,
    value: &Value,
    work: &mut Work,
) -> Result<(), EncodeFault>
    requires node { IsIn (nodes_of plan.now.templates.now) here.now }
    requires form { IsFieldAt (nodes_of plan.now.templates.now) here.now.node kind Increment }
    requires ready { IsReady plan.now.templates.now plan.now.limits work.old.ledger }
    requires numbers { IsOfNumbers kind }
    ensures suits { OnOk result
        (Suits (instruction_in (nodes_of plan.now.templates.now) here.now.node) (Some (one (value_data value.now)))) }
    ensures fits { OnOk result (length (text_of (value_data value.now)) ≤ plan.now.limits.max_text) }
    ensures ok { OnOk result
        (Wrote (Encodes plan.now.limits (instruction_in (nodes_of plan.now.templates.now) here.now.node) work.old.ledger.now
        (Some (one (value_data value.now)))) work.old.draft work.new.draft work.new.ledger.now) }
    ensures keeps { Keeps work.old.ledger work.new.ledger }
    ensures room { work.new.room ≡ work.old.room }
{
    let at = known_at(plan, here, kind, Operator::Increment);
    let Some(scalar) = right_number(kind, value) else {
        return Err(EncodeFault::E2);
    };
    write_next(&mut work.draft, &mut work.ledger, at, scalar)
}

/// Writes an integer under delta.
#[inline(always)]
pub fn try_difference(
    plan: &Plan<'_>,
    here: &BodyStep,
    kind: Kind,
    value: &Value,
    work: &mut Work,
) -> Result<(), EncodeFault>
    requires node { IsIn (nodes_of plan.now.templates.now) here.now }
    requires form { IsFieldAt (nodes_of plan.now.templates.now) here.now.node kind Delta }
    requires ready { IsReady plan.now.templates.now plan.now.limits work.old.ledger }
    requires numbers { IsOfNumbers kind }
    ensures suits { OnOk result
        (Suits (instruction_in (nodes_of plan.now.templates.now) here.now.node) (Some (one (value_data value.now)))) }
    ensures fits { OnOk result (length (text_of (value_data value.now)) ≤ plan.now.limits.max_text) }
    ensures ok { OnOk result
        (Wrote (Encodes plan.now.limits (instruction_in (nodes_of plan.now.templates.now) here.now.node) work.old.ledger.now
        (Some (one (value_data value.now)))) work.old.draft work.new.draft work.new.ledger.now) }
    ensures keeps { Keeps work.old.ledger work.new.ledger }
    ensures room { work.new.room ≡ work.old.room }
{
    let at = known_at(plan, here, kind, Operator::Delta);
    let Some(scalar) = right_number(kind, value) else {
        return Err(EncodeFault::E2);
    };
    write_difference(&mut work.draft, &mut work.ledger, at, scalar)
}

/// Writes a value of a field under any operator, by the rule that chooses what is sent.
#[inline(always)]
pub fn try_chosen(
    plan: &Plan<'_>,
    here: &BodyStep,
    kind: Kind,
    operator: Operator,
    value: &Value,
    work: &mut Work,
) -> Result<(), EncodeFault>
    requires node { IsIn (nodes_of plan.now.templates.now) here.now }
    requires form { IsFieldAt (nodes_of plan.now.templates.now) here.now.node kind operator }
    requires ready { IsReady plan.now.templates.now plan.now.limits work.old.ledger }
    ensures suits { OnOk result
        (Suits (instruction_in (nodes_of plan.now.templates.now) here.now.node) (Some (one (value_data value.now)))) }
    ensures fits { OnOk result (length (text_of (value_data value.now)) ≤ plan.now.limits.max_text) }
    ensures ok { OnOk result
        (Wrote (Encodes plan.now.limits (instruction_in (nodes_of plan.now.templates.now) here.now.node) work.old.ledger.now
        (Some (one (value_data value.now)))) work.old.draft work.new.draft work.new.ledger.now) }
    ensures keeps { Keeps work.old.ledger work.new.ledger }
    ensures room { work.new.room ≡ work.old.room }
{
    let field = field_at(plan, here, kind, operator);
    let Some(scalar) = right_value(plan.limits, kind, value) else {
        return Err(EncodeFault::E2);
    };
    choose_value(&mut work.draft, &mut work.ledger, field, scalar)
}

/// Writes a decimal by parts: an exponent under default or copy, and a mantissa under delta.
#[inline(always)]
pub fn try_parts(
    plan: &Plan<'_>,
    here: &BodyStep,
    operator: Operator,
    value: &Value,
    work: &mut Work,
) -> Result<(), EncodeFault>
    requires node { IsIn (nodes_of plan.now.templates.now) here.now }
    requires form { IsPartsAt (nodes_of plan.now.templates.now) here.now.node operator }
    requires ready { IsReady plan.now.templates.now plan.now.limits work.old.ledger }
    ensures suits { OnOk result
        (Suits (instruction_in (nodes_of plan.now.templates.now) here.now.node) (Some (one (value_data value.now)))) }
    ensures fits { OnOk result (length (text_of (value_data value.now)) ≤ plan.now.limits.max_text) }
    ensures ok { OnOk result
        (Wrote (Encodes plan.now.limits (instruction_in (nodes_of plan.now.templates.now) here.now.node) work.old.ledger.now
        (Some (one (value_data value.now)))) work.old.draft work.new.draft work.new.ledger.now) }
    ensures keeps { Keeps work.old.ledger work.new.ledger }
    ensures room { work.new.room ≡ work.old.room }
{
    let Some(_) = right_decimal(value) else {
        return Err(EncodeFault::E2);
    };
    match &plan.templates.node(here.node).shape {
        Shape::Decimal { exponent, mantissa } => write_decimal(
            exponent,
            mantissa,
            (operator, Operator::Delta),
            value,
            &mut work.draft,
            &mut work.ledger,
        ),
        Shape::Field(_) | Shape::Group { .. } | Shape::Sequence { .. } => unreachable!(),
    }
}

/// Writes a value of any other node.
#[inline(never)]
pub fn try_other(
    plan: &Plan<'_>,
    here: &BodyStep,
    value: &Value,
    work: &mut Work,
) -> Result<(), EncodeFault>
    requires node { IsIn (nodes_of plan.now.templates.now) here.now }
    requires ready { IsReady plan.now.templates.now plan.now.limits work.old.ledger }
    ensures suits { OnOk result
        (Suits (instruction_in (nodes_of plan.now.templates.now) here.now.node) (Some (one (value_data value.now)))) }
    ensures fits { OnOk result (length (text_of (value_data value.now)) ≤ plan.now.limits.max_text) }
    ensures ok { OnOk result
        (Wrote (Encodes plan.now.limits (instruction_in (nodes_of plan.now.templates.now) here.now.node) work.old.ledger.now
        (Some (one (value_data value.now)))) work.old.draft work.new.draft work.new.ledger.now) }
    ensures keeps { Keeps work.old.ledger work.new.ledger }
    ensures room { work.new.room ≡ work.old.room }
{
    match &plan.templates.node(here.node).shape {
        Shape::Field(field) => {
            if !may_be(plan.limits, field.kind, value) {
                return Err(EncodeFault::E2);
            }
            let value = Some(value.as_scalar());
            write_field(&mut work.draft, &mut work.ledger, field, value)?;
            Ok(())
        }
        Shape::Decimal { exponent, mantissa } => {
            if !may_be(plan.limits, Kind::Decimal, value) {
                return Err(EncodeFault::E2);
            }
            let operators = (exponent.operator, mantissa.operator);
            write_decimal(
                exponent,
                mantissa,
                operators,
                value,
                &mut work.draft,
                &mut work.ledger,
            )?;
            Ok(())
        }
        Shape::Group { .. } | Shape::Sequence { .. } => Err(EncodeFault::E2),
    }
}
