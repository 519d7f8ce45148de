//! The arms of decimals by parts: an exponent and a mantissa, each with an operator of its own.

ghost use Rattle.std.specs.Prelude.{◌≡◌, ◌+◌, ◌⊎◌, ℕ, None, ◌<◌, ◌≤◌, true, false, length, Some, option_map};
ghost use Rattle.fast_wire.specs.meaning.Integers.{IsWithin, exponent_range};
ghost use Rattle.fast_value.specs.declared.settings.Limits.{Limits};
ghost use Rattle.fast_value.specs.meaning.Values.{scalar_data};
ghost use Rattle.fast_tree.specs.meaning.Tree.{FieldData, uses_bit};
ghost use Rattle.fast_tree.specs.meaning.Nodes.{field_data};
ghost use Rattle.fast_cursor.specs.device.Places.{place_left, HasBits};
ghost use Rattle.fast_items.specs.device.DecimalParts.{IsPart, IsUsualExponent};
ghost use Rattle.fast_machine.specs.declared.machine.Machine.{Machine};
ghost use Rattle.fast_loop.specs.declared.spot.Spot.{Spot};
ghost use Rattle.fast_program.specs.device.Codes.{decimal_parts, changed_parts};
ghost use Rattle.fast_loop.specs.device.Arms.{IsAtSpot, IsArmOp, HasWent};
ghost use Rattle.fast_loop.specs.device.Parts.{IsAtDecimal, IsLedTo, bit_at_place};
ghost use Rattle.fast_machine.specs.device.Positions.{Set, set_of};

use crate::bits::{behind_bit, bit_at};
use crate::spot::{Spot, Went, pass_value};
use fast_items::decimal_parts::{
    changed_part, exponent_part, keep_exponent, keep_mantissa, keep_part, leaves_mantissa,
    mantissa_part, usual_exponent,
};
use fast_machine::machine::{Machine, Turn};
use fast_machine::settling::hand;
use fast_machine::turns::Turns;
use fast_program::Op;
use fast_stream::{Event, Sink};
use fast_template::{FieldInstruction, Operator, Shape, Templates};
use fast_value::{Kind, Limits, Scalar};

/// Moves past an instruction of this number of bytes, if any, and emits its value, if it has one. The spot is after it then.
#[inline(always)]
fn hand_behind<S: Sink>(
    turns: &mut Turns,
    spot: &mut Spot<'_, '_>,
    node: u16,
    has_bit: bool,
    value: Option<Scalar<'_>>,
    bytes: usize,
    sink: &mut S,
) -> Went
    requires left { 0 < length (place_left spot.old.place) }
    requires bit { has_bit ≡ true → HasBits spot.old.place }
    requires within { bytes ≤ length spot.old.rest.bytes.now }
    ensures went { (set : Set) (l : Limits) (m m1 : Machine) (from : Spot) (f : FieldData) → has_bit ≡ uses_bit f
        → turns.old ≡ m.turns → from.rest.bytes.now ≡ spot.old.rest.bytes.now
        → IsLedTo set l m m1 from spot.old.place node f (option_map scalar_data value.entry) bytes
        → HasWent S.takes S.stops set l m from sink.old result sink.new (record m1 { turns = turns.new }) spot.new }
{
    *turns = Turns::after(turns);
    spot.rest = spot.rest.skip(bytes);
    match pass_value(&mut spot.place, u32::from(node), has_bit, value, sink) {
        Ok(turn) => {
            if bytes > 0 {
                return Went::Took;
            }
            match turn {
                Turn::Handed => Went::Handed,
                _ => Went::Silent,
            }
        }
        Err(_) => Went::Stopped,
    }
}

/// Moves past an absent decimal of this number of bytes, if any, whose exponent has a bit. Nothing is emitted; the sink is an argument for
/// the clause.
#[inline(always)]
fn pass_absent<S: Sink>(
    turns: &mut Turns,
    spot: &mut Spot<'_, '_>,
    bytes: usize,
    sink: &mut S,
) -> Went
    requires left { 0 < length (place_left spot.old.place) }
    requires bit { HasBits spot.old.place }
    requires within { bytes ≤ length spot.old.rest.bytes.now }
    ensures went { (set : Set) (l : Limits) (m m1 : Machine) (from : Spot) (node : ℕ) (f : FieldData) → true ≡ uses_bit f
        → turns.old ≡ m.turns → from.rest.bytes.now ≡ spot.old.rest.bytes.now
        → IsLedTo set l m m1 from spot.old.place node f None bytes
        → HasWent S.takes S.stops set l m from sink.old result sink.new (record m1 { turns = turns.new }) spot.new }
{
    let _ = sink;
    *turns = Turns::after(turns);
    spot.rest = spot.rest.skip(bytes);
    spot.place.pass(true);
    if bytes > 0 {
        return Went::Took;
    }
    Went::Silent
}

/// Moves past an instruction of this number of bytes, at least one, and emits its value, if it has one.
#[inline(always)]
fn hand_sent<S: Sink>(
    turns: &mut Turns,
    spot: &mut Spot<'_, '_>,
    node: u16,
    has_bit: bool,
    value: Option<Scalar<'_>>,
    bytes: usize,
    sink: &mut S,
) -> Went
    requires left { 0 < length (place_left spot.old.place) }
    requires bit { has_bit ≡ true → HasBits spot.old.place }
    requires some { 0 < bytes }
    requires within { bytes ≤ length spot.old.rest.bytes.now }
    ensures went { (set : Set) (l : Limits) (m m1 : Machine) (from : Spot) (f : FieldData) → has_bit ≡ uses_bit f
        → turns.old ≡ m.turns → from.rest.bytes.now ≡ spot.old.rest.bytes.now
        → IsLedTo set l m m1 from spot.old.place node f (option_map scalar_data value.entry) bytes
        → HasWent S.takes S.stops set l m from sink.old result sink.new (record m1 { turns = turns.new }) spot.new }
{
    *turns = Turns::after(turns);
    spot.rest = spot.rest.skip(bytes);
    let node = u32::from(node);
    match value {
        Some(value) => {
            if let Err(_) = hand(sink, Event::Field { node, value }) {
                return Went::Stopped;
            }
            spot.place.pass(has_bit);
            Went::Took
        }
        None => {
            spot.place.pass(has_bit);
            Went::Took
        }
    }
}

/// Decodes a decimal by parts: both parts at once, or nothing of it.
#[inline(always)]
pub fn parts_arm<'t, S: Sink>(
    machine: &mut Machine<'t>,
    templates: &'t Templates,
    limits: Limits,
    spot: &mut Spot<'t, '_>,
    op: &Op,
    sink: &mut S,
) -> Went
    requires spot { IsAtSpot (set_of templates.now) limits machine.old spot.old.place }
    requires op { IsArmOp (set_of templates.now) spot.old.place op.now decimal_parts }
    ensures went { HasWent S.takes S.stops (set_of templates.now) limits machine.old spot.old sink.old result sink.new
        machine.new spot.new }
{
    let Shape::Decimal { exponent, mantissa } = &templates.node(u32::from(op.node)).shape else {
        return Went::Declined;
    };
    other_parts_arm(
        machine, templates, limits, spot, op.node, exponent, mantissa, sink,
    )
}

/// Decodes a decimal whose exponent is under default or copy, and whose mantissa is mandatory and under delta.
#[inline(always)]
pub fn changed_parts_arm<'t, S: Sink>(
    machine: &mut Machine<'t>,
    templates: &'t Templates,
    limits: Limits,
    spot: &mut Spot<'t, '_>,
    op: &Op,
    operator: Operator,
    optional: bool,
    sink: &mut S,
) -> Went
    requires usual { (operator ≡ Operator.Default) ⊎ (operator ≡ Operator.Copy) }
    requires spot { IsAtSpot (set_of templates.now) limits machine.old spot.old.place }
    requires op { IsArmOp (set_of templates.now) spot.old.place op.now (changed_parts operator optional) }
    ensures went { HasWent S.takes S.stops (set_of templates.now) limits machine.old spot.old sink.old result sink.new
        machine.new spot.new }
{
    let Shape::Decimal { exponent, mantissa } = &templates.node(u32::from(op.node)).shape else {
        return Went::Declined;
    };
    usual_parts_arm(
        machine, templates, limits, spot, op.node, op.entry, operator, optional, exponent,
        mantissa, sink,
    )
}

/// Decodes an exponent under default or copy, and a mandatory mantissa under delta, which has this entry.
#[inline(always)]
fn usual_parts_arm<'t, S: Sink>(
    machine: &mut Machine<'t>,
    templates: &'t Templates,
    limits: Limits,
    spot: &mut Spot<'t, '_>,
    node: u16,
    entry: u32,
    operator: Operator,
    optional: bool,
    exponent: &FieldInstruction,
    mantissa: &FieldInstruction,
    sink: &mut S,
) -> Went
    requires decimal { IsAtDecimal (set_of templates.now) limits machine.old spot.old.place node exponent.now
        mantissa.now }
    requires usual { IsUsualExponent exponent.now }
    requires operator { exponent.now.operator ≡ operator }
    requires optional { exponent.now.optional ≡ optional }
    requires delta { mantissa.now.operator ≡ Operator.Delta }
    requires mandatory { mantissa.now.optional ≡ false }
    requires entry { mantissa.now.entry ≡ Some entry }
    ensures went { HasWent S.takes S.stops (set_of templates.now) limits machine.old spot.old sink.old result sink.new
        machine.new spot.new }
{
    let Some(bit) = bit_at(&spot.place, true) else {
        return Went::Declined;
    };
    let read = usual_exponent(&machine.slots, exponent, operator, optional, bit, spot.rest);
    let Some((part, used)) = read else {
        return Went::Declined;
    };
    match part {
        Some(number) => changed_mantissa_arm(
            machine, templates, limits, spot, node, entry, exponent, mantissa, bit, number, used,
            sink,
        ),
        None => {
            keep_exponent(&mut machine.slots, exponent, None, used);
            pass_absent(&mut machine.turns, spot, used, sink)
        }
    }
}

/// Returns the number of bytes of both parts of a decimal, which are in front.
#[inline(always)]
fn both_len(used: usize, bytes: usize, rest: &[u8]) -> usize
    requires within { used + bytes ≤ length rest.now }
    ensures { result ≡ used + bytes }
{
    let _ = rest;
    used + bytes
}

/// Decodes the mandatory mantissa under delta after an exponent under default or copy of this number of bytes, if any.
#[inline(always)]
fn changed_mantissa_arm<'t, S: Sink>(
    machine: &mut Machine<'t>,
    templates: &'t Templates,
    limits: Limits,
    spot: &mut Spot<'t, '_>,
    node: u16,
    entry: u32,
    exponent: &FieldInstruction,
    mantissa: &FieldInstruction,
    bit: bool,
    number: i32,
    used: usize,
    sink: &mut S,
) -> Went
    requires decimal { IsAtDecimal (set_of templates.now) limits machine.old spot.old.place node exponent.now
        mantissa.now }
    requires usual { IsUsualExponent exponent.now }
    requires delta { mantissa.now.operator ≡ Operator.Delta }
    requires mandatory { mantissa.now.optional ≡ false }
    requires entry { mantissa.now.entry ≡ Some entry }
    requires more { HasBits spot.old.place }
    requires bit { bit ≡ bit_at_place machine.old.cursor spot.old.place (field_data exponent.now) }
    requires part { IsPart exponent.now bit limits.strict spot.old.rest.bytes.now machine.old.slots (Some number) used }
    requires within { IsWithin exponent_range number }
    ensures went { HasWent S.takes S.stops (set_of templates.now) limits machine.old spot.old sink.old result sink.new
        machine.new spot.new }
{
    let behind = spot.rest.skip(used);
    let Some((value, bytes)) = changed_part(&machine.slots, entry, behind, limits.strict) else {
        return Went::Declined;
    };
    if !leaves_mantissa(exponent, mantissa, used) {
        return Went::Declined;
    }
    let len = both_len(used, bytes, spot.rest.bytes);
    keep_exponent(&mut machine.slots, exponent, Some(number), used);
    keep_mantissa(&mut machine.slots, entry, value);
    spot.place.use_bit();
    let decimal = Scalar::Dec {
        exponent: number,
        mantissa: value,
    };
    hand_sent(
        &mut machine.turns,
        spot,
        node,
        false,
        Some(decimal),
        len,
        sink,
    )
}

/// Decodes a decimal of any parts.
#[inline(always)]
fn other_parts_arm<'t, S: Sink>(
    machine: &mut Machine<'t>,
    templates: &'t Templates,
    limits: Limits,
    spot: &mut Spot<'t, '_>,
    node: u16,
    exponent: &FieldInstruction,
    mantissa: &FieldInstruction,
    sink: &mut S,
) -> Went
    requires decimal { IsAtDecimal (set_of templates.now) limits machine.old spot.old.place node exponent.now
        mantissa.now }
    ensures went { HasWent S.takes S.stops (set_of templates.now) limits machine.old spot.old sink.old result sink.new
        machine.new spot.new }
{
    let has_bit = exponent.uses_bit();
    let Some(bit) = bit_at(&spot.place, has_bit) else {
        return Went::Declined;
    };
    let Some((part, used)) = exponent_part(&machine.slots, exponent, bit, spot.rest) else {
        return Went::Declined;
    };
    match part {
        Some(number) => mantissa_arm(
            machine, templates, limits, spot, node, exponent, mantissa, bit, number, used, sink,
        ),
        None => {
            keep_part(&mut machine.slots, exponent, Kind::Int32, None, used);
            hand_behind(&mut machine.turns, spot, node, has_bit, None, used, sink)
        }
    }
}

/// Decodes the mantissa after an exponent of this number of bytes, if any.
#[inline(always)]
fn mantissa_arm<'t, S: Sink>(
    machine: &mut Machine<'t>,
    templates: &'t Templates,
    limits: Limits,
    spot: &mut Spot<'t, '_>,
    node: u16,
    exponent: &FieldInstruction,
    mantissa: &FieldInstruction,
    bit: bool,
    number: i32,
    used: usize,
    sink: &mut S,
) -> Went
    requires decimal { IsAtDecimal (set_of templates.now) limits machine.old spot.old.place node exponent.now
        mantissa.now }
    requires more { uses_bit (field_data exponent.now) ≡ true → HasBits spot.old.place }
    requires bit { bit ≡ bit_at_place machine.old.cursor spot.old.place (field_data exponent.now) }
    requires part { IsPart exponent.now bit limits.strict spot.old.rest.bytes.now machine.old.slots (Some number) used }
    requires within { IsWithin exponent_range number }
    ensures went { HasWent S.takes S.stops (set_of templates.now) limits machine.old spot.old sink.old result sink.new
        machine.new spot.new }
{
    let place = behind_bit(spot.place, exponent.uses_bit());
    let has_bit = mantissa.uses_bit();
    let Some(set) = bit_at(&place, has_bit) else {
        return Went::Declined;
    };
    let behind = spot.rest.skip(used);
    let Some((value, bytes)) = mantissa_part(&machine.slots, mantissa, set, behind, limits.strict)
    else {
        return Went::Declined;
    };
    if !leaves_mantissa(exponent, mantissa, used) {
        return Went::Declined;
    }
    let len = both_len(used, bytes, spot.rest.bytes);
    keep_part(
        &mut machine.slots,
        exponent,
        Kind::Int32,
        Some(i64::from(number)),
        used,
    );
    keep_part(
        &mut machine.slots,
        mantissa,
        Kind::Int64,
        Some(value),
        bytes,
    );
    spot.place = place;
    let decimal = Scalar::Dec {
        exponent: number,
        mantissa: value,
    };
    hand_behind(
        &mut machine.turns,
        spot,
        node,
        has_bit,
        Some(decimal),
        len,
        sink,
    )
}
