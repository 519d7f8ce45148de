//! The arms of decimals of one field.

ghost use Rattle.std.specs.Prelude.{None, ◌<◌, true, false, Some};
ghost use Rattle.fast_value.specs.declared.settings.Limits.{Limits};
ghost use Rattle.fast_machine.specs.declared.machine.Machine.{Machine};
ghost use Rattle.fast_loop.specs.declared.spot.Spot.{Spot};
ghost use Rattle.fast_program.specs.device.Codes.{field_of};
ghost use Rattle.fast_loop.specs.device.Arms.{IsAtSpot, IsArmOp, HasWent};
ghost use Rattle.fast_machine.specs.device.Positions.{set_of};

use crate::integer_arms::scalar_of;
use crate::spot::{Spot, Standing, Went, hand_taken, hand_unsent, stands};
use fast_items::decimal_items::{changed_decimal, copied_decimal, plain_decimal};
use fast_items::unsent_items::copied_at;
use fast_machine::machine::Machine;
use fast_program::Op;
use fast_stream::Sink;
use fast_template::{Operator, Templates};
use fast_value::{Kind, Limits};

/// Decodes a decimal without an operator.
#[inline(always)]
pub fn plain_decimal_arm<'t, S: Sink>(
    machine: &mut Machine<'t>,
    templates: &'t Templates,
    limits: Limits,
    spot: &mut Spot<'t, '_>,
    op: &Op,
    optional: bool,
    sink: &mut S,
) -> Went
    requires spot { IsAtSpot (set_of templates.now) limits machine.old spot.old.place }
    requires op { IsArmOp (set_of templates.now) spot.old.place op.now (field_of Kind.Decimal Operator.None optional) }
    ensures went { HasWent S.takes S.stops (set_of templates.now) limits machine.old spot.old sink.old result sink.new
        machine.new spot.new }
{
    let _ = templates;
    match plain_decimal(&machine.slots, op.entry, optional, spot.rest, limits.strict) {
        Some(taken) => hand_taken(
            &mut machine.turns,
            spot,
            op.node,
            false,
            scalar_of(taken.item),
            taken.bytes,
            sink,
        ),
        None => Went::Declined,
    }
}

/// Decodes a decimal under copy.
#[inline(always)]
pub fn copied_decimal_arm<'t, S: Sink>(
    machine: &mut Machine<'t>,
    templates: &'t Templates,
    limits: Limits,
    spot: &mut Spot<'t, '_>,
    op: &Op,
    optional: bool,
    sink: &mut S,
) -> Went
    requires spot { IsAtSpot (set_of templates.now) limits machine.old spot.old.place }
    requires op { IsArmOp (set_of templates.now) spot.old.place op.now (field_of Kind.Decimal Operator.Copy optional) }
    ensures went { HasWent S.takes S.stops (set_of templates.now) limits machine.old spot.old sink.old result sink.new
        machine.new spot.new }
{
    match stands(&spot.place, true) {
        Standing::Spent => Went::Declined,
        Standing::Unsent => match copied_at(&machine.slots, op.entry, Kind::Decimal, optional) {
            Some(item) => {
                let value = scalar_of(item);
                hand_unsent(&mut machine.turns, spot, op.node, true, value, sink)
            }
            None => Went::Declined,
        },
        Standing::Sent => match copied_decimal(
            &mut machine.slots,
            op.entry,
            optional,
            spot.rest,
            limits.strict,
        ) {
            Some(taken) => hand_taken(
                &mut machine.turns,
                spot,
                op.node,
                true,
                scalar_of(taken.item),
                taken.bytes,
                sink,
            ),
            None => Went::Declined,
        },
    }
}

/// Decodes a decimal under delta.
#[inline(always)]
pub fn changed_decimal_arm<'t, S: Sink>(
    machine: &mut Machine<'t>,
    templates: &'t Templates,
    limits: Limits,
    spot: &mut Spot<'t, '_>,
    op: &Op,
    optional: bool,
    sink: &mut S,
) -> Went
    requires spot { IsAtSpot (set_of templates.now) limits machine.old spot.old.place }
    requires op { IsArmOp (set_of templates.now) spot.old.place op.now (field_of Kind.Decimal Operator.Delta optional) }
    ensures went { HasWent S.takes S.stops (set_of templates.now) limits machine.old spot.old sink.old result sink.new
        machine.new spot.new }
{
    let _ = templates;
    match changed_decimal(
        &mut machine.slots,
        op.entry,
        optional,
        spot.rest,
        limits.strict,
    ) {
        Some(taken) => hand_taken(
            &mut machine.turns,
            spot,
            op.node,
            false,
            scalar_of(taken.item),
            taken.bytes,
            sink,
        ),
        None => Went::Declined,
    }
}
