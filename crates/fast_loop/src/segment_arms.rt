//! The arms of the machine's loop for segments and messages.

ghost use Rattle.std.specs.Prelude.{◌≡◌, ◌+◌, ◌<◌, ◌≤◌, ℕ, Bool, [], drop, length, IfErr, Some, Ok};
ghost use Rattle.fast_value.specs.meaning.Kinds.{U};
ghost use Rattle.fast_value.specs.meaning.Limits.{bounds};
ghost use Rattle.fast_tree.specs.meaning.Numbers.{AreBelow};
ghost use Rattle.fast_tree.specs.meaning.Tree.{FieldData};
ghost use Rattle.fast_program.specs.device.Codes.{group_of, sequence_of};
ghost use Rattle.fast_stream.specs.meaning.Messages.{within_limits};
ghost use Rattle.fast_cursor.specs.device.Places.{place_left, at_place};
ghost use Rattle.fast_cursor.specs.device.Runs.{IsRun};
ghost use Rattle.fast_cursor.specs.device.MapTaking.{IsMapTaken};
ghost use Rattle.fast_cursor.specs.declared.pending.MapFront.{MapFront};
ghost use Rattle.fast_machine.specs.device.FitMaps.{IsFitMap};
ghost use Rattle.fast_stream.specs.declared.faults.FaultCode.{FaultCode};
ghost use Rattle.fast_machine.specs.device.Positions.{placed, set_of, run_in, IsBodyOf, IsAtGroup};
ghost use Rattle.fast_loop.specs.device.Arms.{IsAnswer, IsArmOp, IsAtSpot, IsGroupHere, IsLengthTaken, HasWent};
ghost use Rattle.fast_machine.specs.device.Opening.{opened_result, opened_by};
ghost use Rattle.fast_machine.specs.device.Steps.{IsStep};
ghost use Rattle.fast_machine.specs.declared.machine.Machine.{Machine};
ghost use Rattle.fast_loop.specs.declared.spot.Spot.{Spot};

use crate::spot::{Spot, Went};
use crate::start_arms::message_arm;
use fast_fronts::{short_entity, whole_unsigned};
use fast_machine::heads::{is_overlong, is_too_wide};
use fast_machine::machine::{Machine, Waiting};
use fast_machine::sequence_turns::count_within;
use fast_machine::settling::hand;
use fast_machine::turns::Turns;
use fast_program::Op;
use fast_stream::{Event, FaultCode, Sink};
use fast_template::{Shape, Templates};
use fast_value::Limits;

/// Goes on after the event at which a segment begins, or none does: reads the segment's map, if it has one and the fast path has a case for
/// it. Without a map the result is `went`.
#[inline(always)]
fn segment_arm<'t, S: Sink>(
    machine: &mut Machine<'t>,
    templates: &'t Templates,
    limits: Limits,
    begun: Result<usize, FaultCode>,
    went: Went,
    spot: &mut Spot<'t, '_>,
    sink: &mut S,
) -> Went
    requires waits { machine.old.waiting ≡ Waiting.Field }
    requires stopped { IfErr begun (λ code. code ≡ FaultCode.SinkStopped) }
    ensures went { (m : Machine) (from : Spot) (s : S) (n : ℕ) → spot.old.rest.bytes.now ≡ drop n from.rest.bytes.now
        → IsAnswer went n
        → IsStep S.takes S.stops (set_of templates.now) limits (placed m from.place) from.rest.bytes.now s
        (record { bytes = n; turn = opened_result begun }) sink.old (opened_by begun machine.old)
        → HasWent S.takes S.stops (set_of templates.now) limits m from s result sink.new machine.new spot.new }
{
    let Ok(width) = begun else {
        spot.stand(&machine.cursor, 0);
        return Went::Stopped;
    };
    if width == 0 {
        spot.stand(&machine.cursor, 0);
        return went;
    }
    let bytes = take_open_map(machine, limits, width, spot.rest.bytes);
    if bytes == 0 {
        machine.waiting = Waiting::SegmentMap(width);
        spot.stand(&machine.cursor, 0);
        return Went::Waits;
    }
    machine.turns = Turns::after(&machine.turns);
    spot.stand(&machine.cursor, bytes);
    Went::Took
}

/// Reads the map of a segment whose instructions use `width` bits, if it is in the piece completely, has eight bytes at most and is not
/// refused. Returns its number of bytes, or 0. Most maps are one byte.
#[inline(always)]
fn take_open_map(machine: &mut Machine<'_>, limits: Limits, width: usize, rest: &[u8]) -> usize
    ensures map { 0 < result → IsMapTaken machine.old.cursor.map rest.now machine.new.cursor.map (MapFront.Whole result) }
    ensures fit { 0 < result → IsFitMap limits.strict width machine.new.cursor.map }
    ensures same { machine.new
        ≡ record machine.old { cursor = record machine.old.cursor { map = machine.new.cursor.map } } }
    ensures left { result ≡ 0 → machine.new ≡ machine.old }
{
    if machine.cursor.take_byte(rest) {
        return 1;
    }
    take_short_map(machine, limits, width, rest)
}

/// Reads the map of a segment, of up to eight bytes, with the result of `take_open_map`. It is cold, as are all functions that the loop
/// calls rarely, for the loop's registers.
#[cold]
#[inline(never)]
fn take_short_map(machine: &mut Machine<'_>, limits: Limits, width: usize, rest: &[u8]) -> usize
    ensures map { 0 < result → IsMapTaken machine.old.cursor.map rest.now machine.new.cursor.map (MapFront.Whole result) }
    ensures fit { 0 < result → IsFitMap limits.strict width machine.new.cursor.map }
    ensures same { machine.new
        ≡ record machine.old { cursor = record machine.old.cursor { map = machine.new.cursor.map } } }
    ensures left { result ≡ 0 → machine.new ≡ machine.old }
{
    let Some(entity) = short_entity(rest) else {
        return 0;
    };
    let strict = limits.strict;
    if is_overlong(strict, &rest[..entity.len]) || is_too_wide(strict, entity.len, width) {
        return 0;
    }
    if !machine.cursor.take_short(rest, entity) {
        return 0;
    }
    entity.len
}

/// Ends the innermost segment, which has no instruction left: a group, an element or the message, and begins the next one.
#[inline(always)]
pub fn end_arm<'t, S: Sink>(
    machine: &mut Machine<'t>,
    templates: &'t Templates,
    limits: Limits,
    spot: &mut Spot<'t, '_>,
    sink: &mut S,
) -> Went
    requires spot { IsAtSpot (set_of templates.now) limits machine.old spot.old.place }
    requires end { place_left spot.old.place ≡ [] }
    ensures went { HasWent S.takes S.stops (set_of templates.now) limits machine.old spot.old sink.old result sink.new
        machine.new spot.new }
{
    machine.turns = Turns::after(&machine.turns);
    if machine.cursor.is_outermost() {
        return message_arm(machine, templates, limits, spot, sink);
    }
    let begun = machine.leave_segment(templates, limits, spot.place, sink);
    segment_arm(machine, templates, limits, begun, Went::Handed, spot, sink)
}

/// Decodes the next instruction, a sequence whose length has no operator: its length, and the start of its first element, if it has one. A
/// length beyond the limits is left to the general path.
#[inline(always)]
pub fn sequence_arm<'t, S: Sink>(
    machine: &mut Machine<'t>,
    templates: &'t Templates,
    limits: Limits,
    spot: &mut Spot<'t, '_>,
    op: &Op,
    optional: bool,
    sink: &mut S,
) -> Went
    requires spot { IsAtSpot (set_of templates.now) limits machine.old spot.old.place }
    requires op { IsArmOp (set_of templates.now) spot.old.place op.now (sequence_of optional) }
    ensures went { HasWent S.takes S.stops (set_of templates.now) limits machine.old spot.old sink.old result sink.new
        machine.new spot.new }
{
    let node = u32::from(op.node);
    let Shape::Sequence { .. } = &templates.node(node).shape else {
        unreachable!()
    };
    let start = templates.body_start(node);
    let read = whole_unsigned(spot.rest, optional, limits.strict, 4_294_967_295, true);
    let Some((claimed, bytes)) = read else {
        return Went::Declined;
    };
    let Some(claimed) = claimed else {
        machine.turns = Turns::after(&machine.turns);
        spot.rest = spot.rest.skip(bytes);
        spot.place.advance();
        return Went::Took;
    };
    match count_within(limits, machine.counted, u128::from(claimed)) {
        Err(_) => Went::Declined,
        Ok(count) => {
            elements_arm(
                machine, templates, limits, spot, node, start, count, bytes, sink,
            )
        }
    }
}

/// Goes on after the length of the next instruction, a sequence of this number of elements.
#[inline(always)]
fn elements_arm<'t, S: Sink>(
    machine: &mut Machine<'t>,
    templates: &'t Templates,
    limits: Limits,
    spot: &mut Spot<'t, '_>,
    node: u32,
    start: usize,
    count: u32,
    bytes: usize,
    sink: &mut S,
) -> Went
    requires length { (f : FieldData) × (claimed : ℕ)
        × IsLengthTaken (set_of templates.now) limits machine.old spot.old node f
        (run_in (set_of templates.now) start) (Some (U claimed)) bytes
        × (within_limits (bounds limits) machine.old.counted claimed ≡ Ok count) }
    requires total { machine.old.counted + count ≤ limits.max_total }
    requires node { node < length (set_of templates.now).nodes }
    requires run { IsRun (set_of templates.now).program start }
    requires body { IsBodyOf (set_of templates.now) node start }
    requires below { AreBelow (length (set_of templates.now).nodes) (run_in (set_of templates.now) start) }
    ensures went { HasWent S.takes S.stops (set_of templates.now) limits machine.old spot.old sink.old result sink.new
        machine.new spot.new }
{
    machine.turns = Turns::after(&machine.turns);
    machine.counted += count;
    machine.cursor.set_place(spot.place);
    machine.cursor.advance();
    spot.rest = spot.rest.skip(bytes);
    if let Err(_) = hand(sink, Event::SequenceStart { node, count }) {
        spot.stand(&machine.cursor, 0);
        return Went::Stopped;
    }
    let width = templates.segment_bits(node);
    let begun = machine.begin_element(templates, limits, count, start, width, sink);
    segment_arm(machine, templates, limits, begun, Went::Took, spot, sink)
}

/// Begins the next instruction, a group, and reads its map.
#[inline(always)]
pub fn group_arm<'t, S: Sink>(
    machine: &mut Machine<'t>,
    templates: &'t Templates,
    limits: Limits,
    spot: &mut Spot<'t, '_>,
    op: &Op,
    optional: bool,
    sink: &mut S,
) -> Went
    requires spot { IsAtSpot (set_of templates.now) limits machine.old spot.old.place }
    requires op { IsArmOp (set_of templates.now) spot.old.place op.now (group_of optional) }
    ensures went { HasWent S.takes S.stops (set_of templates.now) limits machine.old spot.old sink.old result sink.new
        machine.new spot.new }
{
    let node = u32::from(op.node);
    let Shape::Group { .. } = &templates.node(node).shape else {
        unreachable!()
    };
    let start = templates.body_start(node);
    if !optional {
        return enter_arm(machine, templates, limits, spot, node, start, sink);
    }
    if !spot.place.bit() {
        machine.turns = Turns::after(&machine.turns);
        spot.place.pass(true);
        return Went::Silent;
    }
    if spot.place.is_spent() {
        return Went::Declined;
    }
    spot.place.use_bit();
    enter_arm(machine, templates, limits, spot, node, start, sink)
}

/// Begins the next instruction, a group that is present, whose bit is used, if it has one.
#[inline(always)]
fn enter_arm<'t, S: Sink>(
    machine: &mut Machine<'t>,
    templates: &'t Templates,
    limits: Limits,
    spot: &mut Spot<'t, '_>,
    node: u32,
    start: usize,
    sink: &mut S,
) -> Went
    requires spot { IsAtSpot (set_of templates.now) limits machine.old spot.old.place }
    requires next { (optional : Bool)
        × IsAtGroup (set_of templates.now) (at_place machine.old.cursor spot.old.place) node optional
        (run_in (set_of templates.now) start) }
    requires node { node < length (set_of templates.now).nodes }
    requires run { IsRun (set_of templates.now).program start }
    requires body { IsBodyOf (set_of templates.now) node start }
    requires below { AreBelow (length (set_of templates.now).nodes) (run_in (set_of templates.now) start) }
    ensures went { (from : Spot)
        → IsGroupHere (set_of templates.now) limits machine.old from spot.old node (run_in (set_of templates.now) start)
        → HasWent S.takes S.stops (set_of templates.now) limits machine.old from sink.old result sink.new machine.new
        spot.new }
{
    machine.turns = Turns::after(&machine.turns);
    machine.cursor.set_place(spot.place);
    let begun = machine.enter_group(templates, limits, node, start, sink);
    segment_arm(machine, templates, limits, begun, Went::Handed, spot, sink)
}
