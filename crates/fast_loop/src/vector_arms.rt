//! The arms of Unicode strings and byte vectors, and of string deltas of all types: type, operator and presence are known in each arm, and
//! the op names the entry.

ghost use Rattle.std.specs.Prelude.{◌≡◌, ◌≢◌, ◌<◌, true, false};
ghost use Rattle.fast_wire.specs.meaning.Maps.{first_bit};
ghost use Rattle.fast_value.specs.meaning.Kinds.{family, texts};
ghost use Rattle.fast_cursor.specs.device.Cursors.{bits_left};
ghost use Rattle.fast_cursor.specs.device.Places.{at_place, HasBits};
ghost use Rattle.fast_program.specs.device.Codes.{field_of};
ghost use Rattle.fast_loop.specs.device.Arms.{IsAtSpot, IsArmOp, HasWent};
ghost use Rattle.fast_machine.specs.device.Positions.{set_of};

use crate::spot::{Spot, Standing, Went, hand_taken, hand_unsent, stands};
use fast_items::lent_texts::{kept_at, lent_at, unsent_text};
use fast_items::part_items::sent_delta;
use fast_items::vector_items::{sent_tail, sent_vector};
use fast_machine::machine::Machine;
use fast_program::Op;
use fast_stream::Sink;
use fast_template::{Operator, Templates};
use fast_value::{Kind, Limits};

/// Decodes a Unicode string or byte vector without operator: borrowed from the piece.
#[inline(always)]
pub fn vector_arm<'t, S: Sink>(
    machine: &mut Machine<'t>,
    templates: &'t Templates,
    limits: Limits,
    spot: &mut Spot<'t, '_>,
    op: &Op,
    kind: Kind,
    optional: bool,
    sink: &mut S,
) -> Went
    requires text { family kind ≡ texts }
    requires vector { kind ≢ Kind.Ascii }
    requires spot { IsAtSpot (set_of templates.now) limits machine.old spot.old.place }
    requires op { IsArmOp (set_of templates.now) spot.old.place op.now (field_of kind Operator.None optional) }
    ensures went { HasWent S.takes S.stops (set_of templates.now) limits machine.old spot.old sink.old result sink.new
        machine.new spot.new }
{
    let rest = spot.rest;
    match sent_vector(kind, optional, Operator::None, rest, limits.strict, limits) {
        Some(taken) => {
            let value = lent_at(kind, &rest.bytes[taken.from..taken.bytes], taken.source);
            hand_taken(
                &mut machine.turns,
                spot,
                op.node,
                false,
                value,
                taken.bytes,
                sink,
            )
        }
        None => Went::Declined,
    }
}

/// Decodes a string delta, which is joined in the slot of its entry.
#[inline(always)]
pub fn part_arm<'t, S: Sink>(
    machine: &mut Machine<'t>,
    templates: &'t Templates,
    limits: Limits,
    spot: &mut Spot<'t, '_>,
    op: &Op,
    kind: Kind,
    optional: bool,
    sink: &mut S,
) -> Went
    requires text { family kind ≡ texts }
    requires spot { IsAtSpot (set_of templates.now) limits machine.old spot.old.place }
    requires op { IsArmOp (set_of templates.now) spot.old.place op.now (field_of kind Operator.Delta optional) }
    ensures went { HasWent S.takes S.stops (set_of templates.now) limits machine.old spot.old sink.old result sink.new
        machine.new spot.new }
{
    match sent_delta(
        &mut machine.slots,
        &mut machine.text,
        op.entry,
        kind,
        optional,
        spot.rest,
        limits.strict,
        limits,
    ) {
        Some(taken) => {
            let value = kept_at(&machine.slots, op.entry, kind, taken.source);
            hand_taken(
                &mut machine.turns,
                spot,
                op.node,
                false,
                value,
                taken.bytes,
                sink,
            )
        }
        None => Went::Declined,
    }
}

/// Decodes a tail of a Unicode string or byte vector, which is joined in the slot of its entry.
#[inline(always)]
pub fn tail_arm<'t, S: Sink>(
    machine: &mut Machine<'t>,
    templates: &'t Templates,
    limits: Limits,
    spot: &mut Spot<'t, '_>,
    op: &Op,
    kind: Kind,
    optional: bool,
    sink: &mut S,
) -> Went
    requires text { family kind ≡ texts }
    requires vector { kind ≢ Kind.Ascii }
    requires spot { IsAtSpot (set_of templates.now) limits machine.old spot.old.place }
    requires op { IsArmOp (set_of templates.now) spot.old.place op.now (field_of kind Operator.Tail optional) }
    ensures went { HasWent S.takes S.stops (set_of templates.now) limits machine.old spot.old sink.old result sink.new
        machine.new spot.new }
{
    match stands(&spot.place, true) {
        Standing::Spent => Went::Declined,
        Standing::Unsent => {
            unsent_tail_arm(machine, templates, limits, spot, op, kind, optional, sink)
        }
        Standing::Sent => {
            match sent_tail(
                &mut machine.slots,
                op.entry,
                kind,
                optional,
                spot.rest,
                limits.strict,
                limits,
            ) {
                Some(taken) => {
                    let value = kept_at(&machine.slots, op.entry, kind, taken.source);
                    hand_taken(
                        &mut machine.turns,
                        spot,
                        op.node,
                        true,
                        value,
                        taken.bytes,
                        sink,
                    )
                }
                None => Went::Declined,
            }
        }
    }
}

/// Decodes a tail of which nothing is sent: the value of the entry.
#[inline(always)]
fn unsent_tail_arm<'t, S: Sink>(
    machine: &mut Machine<'t>,
    templates: &'t Templates,
    limits: Limits,
    spot: &mut Spot<'t, '_>,
    op: &Op,
    kind: Kind,
    optional: bool,
    sink: &mut S,
) -> Went
    requires more { HasBits spot.old.place }
    requires clear { first_bit (bits_left (at_place machine.old.cursor spot.old.place)) ≡ false }
    requires spot { IsAtSpot (set_of templates.now) limits machine.old spot.old.place }
    requires op { IsArmOp (set_of templates.now) spot.old.place op.now (field_of kind Operator.Tail optional) }
    ensures went { HasWent S.takes S.stops (set_of templates.now) limits machine.old spot.old sink.old result sink.new
        machine.new spot.new }
{
    match unsent_text(&machine.slots, op.entry, kind, optional) {
        Some(source) => {
            let value = kept_at(&machine.slots, op.entry, kind, source);
            hand_unsent(&mut machine.turns, spot, op.node, true, value, sink)
        }
        None => Went::Declined,
    }
}
