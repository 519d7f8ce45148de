//! The arms of integer fields under operators other than delta, by their types: the range of each.

ghost use Rattle.std.specs.Prelude.{◌≢◌};
ghost use Rattle.fast_program.specs.device.Codes.{field_of};
ghost use Rattle.fast_loop.specs.device.Arms.{IsAtSpot, IsArmOp, HasWent};
ghost use Rattle.fast_machine.specs.device.Positions.{set_of};

use crate::integer_arms::{signed_arm, unsigned_arm};
use crate::spot::{Spot, Went};
use fast_machine::machine::Machine;
use fast_program::Op;
use fast_stream::Sink;
use fast_template::{Operator, Templates};
use fast_value::{Kind, Limits};

/// Decodes a field of type `UInt32` under an operator other than delta.
#[inline(always)]
pub fn uint32_arm<'t, S: Sink>(
    machine: &mut Machine<'t>,
    templates: &'t Templates,
    limits: Limits,
    spot: &mut Spot<'t, '_>,
    op: &Op,
    operator: Operator,
    optional: bool,
    sink: &mut S,
) -> Went
    requires no_delta { operator ≢ Operator.Delta }
    requires no_constant { operator ≢ Operator.Constant }
    requires spot { IsAtSpot (set_of templates.now) limits machine.old spot.old.place }
    requires op { IsArmOp (set_of templates.now) spot.old.place op.now (field_of Kind.UInt32 operator optional) }
    ensures went { HasWent S.takes S.stops (set_of templates.now) limits machine.old spot.old sink.old result sink.new
        machine.new spot.new }
{
    unsigned_arm(
        machine,
        templates,
        limits,
        spot,
        op,
        Kind::UInt32,
        4_294_967_295,
        operator,
        optional,
        sink,
    )
}

/// Decodes a field of type `UInt64` under an operator other than delta.
#[inline(always)]
pub fn uint64_arm<'t, S: Sink>(
    machine: &mut Machine<'t>,
    templates: &'t Templates,
    limits: Limits,
    spot: &mut Spot<'t, '_>,
    op: &Op,
    operator: Operator,
    optional: bool,
    sink: &mut S,
) -> Went
    requires no_delta { operator ≢ Operator.Delta }
    requires no_constant { operator ≢ Operator.Constant }
    requires spot { IsAtSpot (set_of templates.now) limits machine.old spot.old.place }
    requires op { IsArmOp (set_of templates.now) spot.old.place op.now (field_of Kind.UInt64 operator optional) }
    ensures went { HasWent S.takes S.stops (set_of templates.now) limits machine.old spot.old sink.old result sink.new
        machine.new spot.new }
{
    unsigned_arm(
        machine,
        templates,
        limits,
        spot,
        op,
        Kind::UInt64,
        18_446_744_073_709_551_615,
        operator,
        optional,
        sink,
    )
}

/// Decodes a field of type `Int32` under an operator other than delta.
#[inline(always)]
pub fn int32_arm<'t, S: Sink>(
    machine: &mut Machine<'t>,
    templates: &'t Templates,
    limits: Limits,
    spot: &mut Spot<'t, '_>,
    op: &Op,
    operator: Operator,
    optional: bool,
    sink: &mut S,
) -> Went
    requires no_delta { operator ≢ Operator.Delta }
    requires no_constant { operator ≢ Operator.Constant }
    requires spot { IsAtSpot (set_of templates.now) limits machine.old spot.old.place }
    requires op { IsArmOp (set_of templates.now) spot.old.place op.now (field_of Kind.Int32 operator optional) }
    ensures went { HasWent S.takes S.stops (set_of templates.now) limits machine.old spot.old sink.old result sink.new
        machine.new spot.new }
{
    signed_arm(
        machine,
        templates,
        limits,
        spot,
        op,
        Kind::Int32,
        -2_147_483_648,
        2_147_483_647,
        operator,
        optional,
        sink,
    )
}

/// Decodes a field of type `Int64` under an operator other than delta.
#[inline(always)]
pub fn int64_arm<'t, S: Sink>(
    machine: &mut Machine<'t>,
    templates: &'t Templates,
    limits: Limits,
    spot: &mut Spot<'t, '_>,
    op: &Op,
    operator: Operator,
    optional: bool,
    sink: &mut S,
) -> Went
    requires no_delta { operator ≢ Operator.Delta }
    requires no_constant { operator ≢ Operator.Constant }
    requires spot { IsAtSpot (set_of templates.now) limits machine.old spot.old.place }
    requires op { IsArmOp (set_of templates.now) spot.old.place op.now (field_of Kind.Int64 operator optional) }
    ensures went { HasWent S.takes S.stops (set_of templates.now) limits machine.old spot.old sink.old result sink.new
        machine.new spot.new }
{
    signed_arm(
        machine,
        templates,
        limits,
        spot,
        op,
        Kind::Int64,
        -9_223_372_036_854_775_808,
        9_223_372_036_854_775_807,
        operator,
        optional,
        sink,
    )
}
