//! Present fields, by operator.

ghost use Rattle.std.specs.Prelude.{◌≡◌, Some, OnOk, IfErr};
ghost use Rattle.fast_value.specs.declared.settings.Limits.{Limits};
ghost use Rattle.fast_value.specs.meaning.Values.{scalar_data};
ghost use Rattle.fast_tree.specs.declared.operators.Operator.TheVariants.{None as no_operator, Constant, Default, Copy, Increment, Delta};
ghost use Rattle.fast_tree.specs.meaning.Nodes.{field_data};
ghost use Rattle.fast_spelling.specs.device.Places.{field_there};
ghost use Rattle.fast_spelling.specs.meaning.Encoding.{EncodesField};
ghost use Rattle.fast_spelling.specs.device.Drafts.{IsTold};
ghost use Rattle.fast_spelling.specs.device.Fields.{IsServed, IsSuited, Wrote};
ghost use Rattle.fast_spelling.specs.device.Nodes.{Keeps};
ghost use Rattle.fast_spelling.specs.meaning.Refusals.{RefusesField};
ghost use Rattle.fast_spelling.specs.device.Usual.{IsNumber};

use super::choices::choose_known;
use super::held::{held_in, held_number_in, is_initial, is_next, is_same};
use crate::draft::Draft;
use crate::faults::EncodeFault;
use crate::fields::{keep, leave_out, note_range, send};
use crate::items::write_apart;
use crate::known::Known;
use crate::ledger::Ledger;
use fast_dict::Sent;
use fast_template::Operator;
use fast_value::Scalar;

/// Writes a field without operator.
#[tactic(auto, using(crate::proofs::rules::Usual::plain_ruled, crate::proofs::rules::Usual::value_sendable))]
#[inline(always)]
pub fn write_plain(
    draft: &mut Draft,
    ledger: &mut Ledger,
    at: Known<'_>,
    value: Scalar<'_>,
) -> Result<(), EncodeFault>
    requires operator { (field_there at.place).operator ≡ no_operator }
    requires served { IsServed ledger.old (field_data (field_there at.place)) }
    requires suited { IsSuited ledger.old.max_text (field_data (field_there at.place)) (Some (scalar_data value)) }
    ensures ok { OnOk result ((l : Limits) → l.max_text ≡ ledger.old.max_text
        → Wrote (EncodesField l (field_data (field_there at.entry.place)) ledger.old.now (Some (scalar_data value.entry)))
        draft.old draft.new ledger.new.now) }
    ensures err { IfErr result
        (IsTold (RefusesField (field_data (field_there at.entry.place)) ledger.old.now (Some (scalar_data value.entry)))) }
    ensures keeps { Keeps ledger.old ledger.new }
{
    send(
        draft,
        ledger,
        at,
        Operator::None,
        Some(value),
        true,
        Sent::Value(value),
    )
}

/// Writes a field under default: nothing is sent for its initial value.
#[tactic(auto, using(crate::proofs::rules::Usual::default_other, crate::proofs::rules::Usual::value_sendable))]
#[inline(always)]
pub fn write_default(
    draft: &mut Draft,
    ledger: &mut Ledger,
    at: Known<'_>,
    value: Scalar<'_>,
) -> Result<(), EncodeFault>
    requires operator { (field_there at.place).operator ≡ Default }
    requires served { IsServed ledger.old (field_data (field_there at.place)) }
    requires suited { IsSuited ledger.old.max_text (field_data (field_there at.place)) (Some (scalar_data value)) }
    ensures ok { OnOk result ((l : Limits) → l.max_text ≡ ledger.old.max_text
        → Wrote (EncodesField l (field_data (field_there at.entry.place)) ledger.old.now (Some (scalar_data value.entry)))
        draft.old draft.new ledger.new.now) }
    ensures err { IfErr result
        (IsTold (RefusesField (field_data (field_there at.entry.place)) ledger.old.now (Some (scalar_data value.entry)))) }
    ensures keeps { Keeps ledger.old ledger.new }
{
    if is_initial(at, value) {
        return Ok(draft.push_bit(false)?);
    }
    send(
        draft,
        ledger,
        at,
        Operator::Default,
        Some(value),
        true,
        Sent::Value(value),
    )
}

/// Writes a field under constant: only its initial value can be written.
#[tactic(auto, using(crate::proofs::rules::Usual::constant_ruled, crate::proofs::rules::Usual::value_sendable))]
#[inline(always)]
pub fn write_constant(
    draft: &mut Draft,
    ledger: &mut Ledger,
    at: Known<'_>,
    value: Scalar<'_>,
) -> Result<(), EncodeFault>
    requires operator { (field_there at.place).operator ≡ Constant }
    requires served { IsServed ledger.old (field_data (field_there at.place)) }
    requires suited { IsSuited ledger.old.max_text (field_data (field_there at.place)) (Some (scalar_data value)) }
    ensures ok { OnOk result ((l : Limits) → l.max_text ≡ ledger.old.max_text
        → Wrote (EncodesField l (field_data (field_there at.entry.place)) ledger.old.now (Some (scalar_data value.entry)))
        draft.old draft.new ledger.new.now) }
    ensures err { IfErr result
        (IsTold (RefusesField (field_data (field_there at.entry.place)) ledger.old.now (Some (scalar_data value.entry)))) }
    ensures keeps { Keeps ledger.old ledger.new }
{
    if is_initial(at, value) {
        return send(
            draft,
            ledger,
            at,
            Operator::Constant,
            Some(value),
            true,
            Sent::Nothing,
        );
    }
    choose_known(draft, ledger, at, value)
}

/// Writes an integer under copy: nothing is sent if it equals the previous value.
#[tactic(auto, using(crate::proofs::rules::Usual::copy_other, crate::proofs::rules::Usual::number_sendable))]
#[inline(always)]
pub fn write_copied(
    draft: &mut Draft,
    ledger: &mut Ledger,
    at: Known<'_>,
    value: Scalar<'_>,
) -> Result<(), EncodeFault>
    requires operator { (field_there at.place).operator ≡ Copy }
    requires served { IsServed ledger.old (field_data (field_there at.place)) }
    requires suited { IsSuited ledger.old.max_text (field_data (field_there at.place)) (Some (scalar_data value)) }
    requires number { IsNumber (scalar_data value) }
    ensures ok { OnOk result ((l : Limits) → l.max_text ≡ ledger.old.max_text
        → Wrote (EncodesField l (field_data (field_there at.entry.place)) ledger.old.now (Some (scalar_data value.entry)))
        draft.old draft.new ledger.new.now) }
    ensures err { IfErr result
        (IsTold (RefusesField (field_data (field_there at.entry.place)) ledger.old.now (Some (scalar_data value.entry)))) }
    ensures keeps { Keeps ledger.old ledger.new }
{
    match held_in(ledger, at, value) {
        None => choose_known(draft, ledger, at, value),
        Some(held) if is_same(held, value) => Ok(draft.push_bit(false)?),
        Some(_) => send(
            draft,
            ledger,
            at,
            Operator::Copy,
            Some(value),
            true,
            Sent::Value(value),
        ),
    }
}

/// Writes an integer under increment: nothing is sent if it is the previous value plus one.
#[tactic(auto, using(crate::proofs::rules::Usual::step_other, crate::proofs::rules::Usual::number_sendable))]
#[inline(always)]
pub fn write_next(
    draft: &mut Draft,
    ledger: &mut Ledger,
    at: Known<'_>,
    value: Scalar<'_>,
) -> Result<(), EncodeFault>
    requires operator { (field_there at.place).operator ≡ Increment }
    requires served { IsServed ledger.old (field_data (field_there at.place)) }
    requires suited { IsSuited ledger.old.max_text (field_data (field_there at.place)) (Some (scalar_data value)) }
    requires number { IsNumber (scalar_data value) }
    ensures ok { OnOk result ((l : Limits) → l.max_text ≡ ledger.old.max_text
        → Wrote (EncodesField l (field_data (field_there at.entry.place)) ledger.old.now (Some (scalar_data value.entry)))
        draft.old draft.new ledger.new.now) }
    ensures err { IfErr result
        (IsTold (RefusesField (field_data (field_there at.entry.place)) ledger.old.now (Some (scalar_data value.entry)))) }
    ensures keeps { Keeps ledger.old ledger.new }
{
    match held_number_in(ledger, at, value) {
        None => choose_known(draft, ledger, at, value),
        Some(held) if is_next(at.kind, held, value) => {
            leave_out(draft, ledger, at, Operator::Increment, value)
        }
        Some(_) => send(
            draft,
            ledger,
            at,
            Operator::Increment,
            Some(value),
            true,
            Sent::Value(value),
        ),
    }
}

/// Writes an integer under delta: its difference from the previous value.
#[inline(always)]
pub fn write_difference(
    draft: &mut Draft,
    ledger: &mut Ledger,
    at: Known<'_>,
    value: Scalar<'_>,
) -> Result<(), EncodeFault>
    requires operator { (field_there at.place).operator ≡ Delta }
    requires served { IsServed ledger.old (field_data (field_there at.place)) }
    requires suited { IsSuited ledger.old.max_text (field_data (field_there at.place)) (Some (scalar_data value)) }
    requires number { IsNumber (scalar_data value) }
    ensures ok { OnOk result ((l : Limits) → l.max_text ≡ ledger.old.max_text
        → Wrote (EncodesField l (field_data (field_there at.entry.place)) ledger.old.now (Some (scalar_data value.entry)))
        draft.old draft.new ledger.new.now) }
    ensures err { IfErr result
        (IsTold (RefusesField (field_data (field_there at.entry.place)) ledger.old.now (Some (scalar_data value.entry)))) }
    ensures keeps { Keeps ledger.old ledger.new }
{
    match held_number_in(ledger, at, value) {
        None => choose_known(draft, ledger, at, value),
        Some(held) => {
            note_range(held);
            write_apart(&mut draft.bytes, at.nullable, value, held)?;
            keep(ledger, at, Operator::Delta, Some(value))?;
            Ok(())
        }
    }
}

/// Writes a string, a byte vector or a decimal under copy.
#[tactic(auto, using(crate::proofs::rules::Usual::copy_other, crate::proofs::rules::Usual::value_sendable))]
#[inline(always)]
pub fn write_copied_other(
    draft: &mut Draft,
    ledger: &mut Ledger,
    at: Known<'_>,
    value: Scalar<'_>,
) -> Result<(), EncodeFault>
    requires operator { (field_there at.place).operator ≡ Copy }
    requires served { IsServed ledger.old (field_data (field_there at.place)) }
    requires suited { IsSuited ledger.old.max_text (field_data (field_there at.place)) (Some (scalar_data value)) }
    ensures ok { OnOk result ((l : Limits) → l.max_text ≡ ledger.old.max_text
        → Wrote (EncodesField l (field_data (field_there at.entry.place)) ledger.old.now (Some (scalar_data value.entry)))
        draft.old draft.new ledger.new.now) }
    ensures err { IfErr result
        (IsTold (RefusesField (field_data (field_there at.entry.place)) ledger.old.now (Some (scalar_data value.entry)))) }
    ensures keeps { Keeps ledger.old ledger.new }
{
    match held_in(ledger, at, value) {
        None => choose_known(draft, ledger, at, value),
        Some(held) if is_same(held, value) => Ok(draft.push_bit(false)?),
        Some(_) => send(
            draft,
            ledger,
            at,
            Operator::Copy,
            Some(value),
            true,
            Sent::Value(value),
        ),
    }
}
