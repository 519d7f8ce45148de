//! The arms of integer fields: type, operator and presence are known in each arm, and the op names the entry.

ghost use Rattle.std.specs.Prelude.{◌≡◌, ◌≢◌, ◌≤ℤ◌, ℕ, ℤ, true, false, pos, neg_ℤ, option_map, IfSome, IfNone};
ghost use Rattle.fast_wire.specs.meaning.Integers.{unsigned_up_to, signed_between};
ghost use Rattle.fast_value.specs.meaning.Kinds.{U, I, family, integers, value_of_integer};
ghost use Rattle.fast_value.specs.meaning.Values.{scalar_data};
ghost use Rattle.fast_wire.specs.meaning.Maps.{first_bit};
ghost use Rattle.fast_tree.specs.meaning.Tree.{FieldData, operator_uses_bit, uses_bit};
ghost use Rattle.fast_cursor.specs.device.Cursors.{bits_left};
ghost use Rattle.fast_cursor.specs.device.Places.{at_place, HasBits};
ghost use Rattle.fast_dict.specs.meaning.Operators.{range_of};
ghost use Rattle.fast_units.specs.device.Deciding.{number_data};
ghost use Rattle.fast_program.specs.device.Codes.{field_of};
ghost use Rattle.fast_loop.specs.device.Arms.{IsAtSpot, IsArmOp, IsFieldUnsent, HasWent};
ghost use Rattle.fast_machine.specs.device.Positions.{set_of};

use crate::spot::{Spot, Standing, Went, hand_taken, hand_unsent, stands};
use crate::text_arms::field_at;
use fast_cursor::place::Place;
use fast_items::integer_items::{sent_delta, sent_signed, sent_unsigned};
use fast_items::unsent_items::{defaulted_integer, unsent_integer};
use fast_machine::machine::Machine;
use fast_program::Op;
use fast_stream::Sink;
use fast_template::{Operator, Templates};
use fast_units::fields::Number;
use fast_value::{Kind, Limits, Scalar};

/// Returns a number as a borrowed value.
#[inline(always)]
pub fn scalar_of(item: Option<Number>) -> Option<Scalar<'static>>
    ensures { option_map scalar_data result ≡ option_map number_data item }
{
    match item {
        Some(number) => Some(number.as_scalar()),
        None => None,
    }
}

/// Decodes a field of unsigned integers under an operator other than delta.
#[inline(always)]
pub fn unsigned_arm<'t, S: Sink>(
    machine: &mut Machine<'t>,
    templates: &'t Templates,
    limits: Limits,
    spot: &mut Spot<'t, '_>,
    op: &Op,
    kind: Kind,
    top: u64,
    operator: Operator,
    optional: bool,
    sink: &mut S,
) -> Went
    requires range { unsigned_up_to top ≡ range_of kind }
    requires unsigned { (n : ℕ) → value_of_integer kind (pos n) ≡ U n }
    requires integers { family kind ≡ integers (range_of kind) }
    requires no_delta { operator ≢ Operator.Delta }
    requires no_constant { operator ≢ Operator.Constant }
    requires spot { IsAtSpot (set_of templates.now) limits machine.old spot.old.place }
    requires op { IsArmOp (set_of templates.now) spot.old.place op.now (field_of kind operator optional) }
    ensures went { HasWent S.takes S.stops (set_of templates.now) limits machine.old spot.old sink.old result sink.new
        machine.new spot.new }
{
    let has_bit = operator.uses_bit(optional);
    match stands(&spot.place, has_bit) {
        Standing::Spent => Went::Declined,
        Standing::Unsent => {
            unsent_integer_arm(
                machine, templates, limits, spot, op, kind, operator, optional, sink,
            )
        }
        Standing::Sent => {
            match sent_unsigned(
                &mut machine.slots,
                op.entry,
                kind,
                optional,
                operator,
                spot.rest,
                limits.strict,
                top,
            ) {
                Some(taken) => hand_taken(
                    &mut machine.turns,
                    spot,
                    op.node,
                    has_bit,
                    scalar_of(taken.item),
                    taken.bytes,
                    sink,
                ),
                None => Went::Declined,
            }
        }
    }
}

/// Decodes a field of signed integers under an operator other than delta.
#[inline(always)]
pub fn signed_arm<'t, S: Sink>(
    machine: &mut Machine<'t>,
    templates: &'t Templates,
    limits: Limits,
    spot: &mut Spot<'t, '_>,
    op: &Op,
    kind: Kind,
    low: i64,
    top: i64,
    operator: Operator,
    optional: bool,
    sink: &mut S,
) -> Went
    requires range { signed_between low top ≡ range_of kind }
    requires signed { (x : ℤ) → value_of_integer kind x ≡ I x }
    requires least { low ≤ℤ neg_ℤ (pos 134217728) }
    requires greatest { pos 134217727 ≤ℤ top }
    requires integers { family kind ≡ integers (range_of kind) }
    requires no_delta { operator ≢ Operator.Delta }
    requires no_constant { operator ≢ Operator.Constant }
    requires spot { IsAtSpot (set_of templates.now) limits machine.old spot.old.place }
    requires op { IsArmOp (set_of templates.now) spot.old.place op.now (field_of kind operator optional) }
    ensures went { HasWent S.takes S.stops (set_of templates.now) limits machine.old spot.old sink.old result sink.new
        machine.new spot.new }
{
    let has_bit = operator.uses_bit(optional);
    match stands(&spot.place, has_bit) {
        Standing::Spent => Went::Declined,
        Standing::Unsent => {
            unsent_integer_arm(
                machine, templates, limits, spot, op, kind, operator, optional, sink,
            )
        }
        Standing::Sent => {
            match sent_signed(
                &mut machine.slots,
                op.entry,
                kind,
                optional,
                operator,
                spot.rest,
                limits.strict,
                low,
                top,
            ) {
                Some(taken) => hand_taken(
                    &mut machine.turns,
                    spot,
                    op.node,
                    has_bit,
                    scalar_of(taken.item),
                    taken.bytes,
                    sink,
                ),
                None => Went::Declined,
            }
        }
    }
}

/// Decodes an integer field under delta.
#[inline(always)]
pub fn delta_arm<'t, S: Sink>(
    machine: &mut Machine<'t>,
    templates: &'t Templates,
    limits: Limits,
    spot: &mut Spot<'t, '_>,
    op: &Op,
    kind: Kind,
    optional: bool,
    sink: &mut S,
) -> Went
    requires integers { family kind ≡ integers (range_of kind) }
    requires spot { IsAtSpot (set_of templates.now) limits machine.old spot.old.place }
    requires op { IsArmOp (set_of templates.now) spot.old.place op.now (field_of kind Operator.Delta optional) }
    ensures went { HasWent S.takes S.stops (set_of templates.now) limits machine.old spot.old sink.old result sink.new
        machine.new spot.new }
{
    let _ = templates;
    let strict = limits.strict;
    match sent_delta(
        &mut machine.slots,
        op.entry,
        kind,
        optional,
        spot.rest,
        strict,
    ) {
        Some(taken) => {
            let value = scalar_of(taken.item);
            hand_taken(
                &mut machine.turns,
                spot,
                op.node,
                false,
                value,
                taken.bytes,
                sink,
            )
        }
        None => Went::Declined,
    }
}

/// Decodes an integer field that uses a presence bit, which is clear.
#[inline(always)]
pub fn unsent_integer_arm<'t, S: Sink>(
    machine: &mut Machine<'t>,
    templates: &'t Templates,
    limits: Limits,
    spot: &mut Spot<'t, '_>,
    op: &Op,
    kind: Kind,
    operator: Operator,
    optional: bool,
    sink: &mut S,
) -> Went
    requires uses { operator_uses_bit operator optional ≡ true }
    requires more { HasBits spot.old.place }
    requires clear { first_bit (bits_left (at_place machine.old.cursor spot.old.place)) ≡ false }
    requires no_constant { operator ≢ Operator.Constant }
    requires spot { IsAtSpot (set_of templates.now) limits machine.old spot.old.place }
    requires op { IsArmOp (set_of templates.now) spot.old.place op.now (field_of kind operator optional) }
    ensures went { HasWent S.takes S.stops (set_of templates.now) limits machine.old spot.old sink.old result sink.new
        machine.new spot.new }
{
    match unsent_item(
        machine,
        templates,
        limits,
        &spot.place,
        op,
        kind,
        operator,
        optional,
    ) {
        Some(item) => {
            let value = scalar_of(item);
            hand_unsent(&mut machine.turns, spot, op.node, true, value, sink)
        }
        None => Went::Declined,
    }
}

/// Returns the value of an integer field of which nothing is sent: its initial value under default, the value of its entry under copy, and
/// one more than that under increment, which the entry then holds.
#[inline(always)]
fn unsent_item<'t>(
    machine: &mut Machine<'t>,
    templates: &'t Templates,
    limits: Limits,
    place: &Place<'t>,
    op: &Op,
    kind: Kind,
    operator: Operator,
    optional: bool,
) -> Option<Option<Number>>
    requires uses { operator_uses_bit operator optional ≡ true }
    requires clear { first_bit (bits_left (at_place machine.old.cursor place.now)) ≡ false }
    requires no_constant { operator ≢ Operator.Constant }
    requires spot { IsAtSpot (set_of templates.now) limits machine.old place.now }
    requires op { IsArmOp (set_of templates.now) place.now op.now (field_of kind operator optional) }
    ensures unsent { IfSome result (λ item. (f : FieldData) × (true ≡ uses_bit f)
        × IsFieldUnsent (set_of templates.now) limits machine.old machine.new place.now op.now.node f false
        (option_map number_data item)) }
    ensures same { machine.new ≡ record machine.old { slots = machine.new.slots } }
    ensures none { IfNone result (machine.new ≡ machine.old) }
{
    let _ = limits;
    let _ = place;
    match operator {
        Operator::Default => {
            let field = field_at(templates, op)?;
            defaulted_integer(field, kind, optional)
        }
        _ => unsent_integer(&mut machine.slots, op.entry, kind, optional, operator),
    }
}
