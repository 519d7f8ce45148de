//! The machine's loop: from op to op, with an arm for each code. The position in the innermost segment, and the rest of the piece, stay in
//! registers, since all arms are inlined.

ghost use Rattle.std.specs.Prelude.{◌≡◌, ◌≢◌, false, [], slice_get, Ok, Some};
ghost use Rattle.fast_program.specs.declared.codes.Code.{Code};
ghost use Rattle.fast_program.specs.device.Codes.{says};
ghost use Rattle.fast_program.specs.device.Runs.{is_end};
ghost use Rattle.fast_cursor.specs.device.Places.{place_left, IsPlaceOf};
ghost use Rattle.fast_machine.specs.declared.machine.Machine.{Machine};
ghost use Rattle.fast_machine.specs.declared.machine.Turn.{Turn};
ghost use Rattle.fast_machine.specs.declared.machine.Waiting.{Waiting};
ghost use Rattle.fast_loop.specs.declared.spot.Spot.{Spot};
ghost use Rattle.fast_loop.specs.declared.spot.Went.{Went};
ghost use Rattle.fast_machine.specs.device.Positions.{set_of, CanTurn};
ghost use Rattle.fast_loop.specs.device.Arms.{IsAtSpot, IsArmOp, HasWent, HasGone, ended};
ghost use Rattle.fast_machine.specs.device.Steps.{IsStep};

use crate::decimal_arms::{changed_decimal_arm, copied_decimal_arm, plain_decimal_arm};
use crate::integer_arms::delta_arm;
use crate::kind_arms::{int32_arm, int64_arm, uint32_arm, uint64_arm};
use crate::part_arms::{changed_parts_arm, parts_arm};
use crate::segment_arms::{end_arm, group_arm, sequence_arm};
use crate::spot::{Gone, Spot, Went};
use crate::text_arms::{ascii_arm, constant_arm};
use crate::vector_arms::{part_arm, tail_arm, vector_arm};
use fast_cursor::place::Place;
use fast_fronts::Rest;
use fast_machine::machine::{Machine, Turn};
use fast_machine::taking::UnitTaken;
use fast_program::{Code, Op};
use fast_stream::{FaultCode, Sink};
use fast_template::{Operator, Templates};
use fast_value::{Kind, Limits};

/// Returns the op at a position: the next instruction's, or the end of the innermost segment.
#[inline(always)]
fn op_at<'t>(
    machine: &Machine<'t>,
    templates: &'t Templates,
    limits: Limits,
    place: &Place<'t>,
) -> &'t Op
    requires spot { IsAtSpot (set_of templates.now) limits machine.now place.now }
    ensures here { slice_get place.now.ahead.now 0 ≡ Some result.now }
    ensures end { result.now.code ≡ Code.End → place_left place.now ≡ [] }
    ensures op { is_end result.now.code ≡ false
        → IsArmOp (set_of templates.now) place.now result.now (says result.now.code) }
{
    let _ = limits;
    let _ = templates.program();
    place.op()
}

/// Makes a step on the general path. A field is by far the most common case, and is tested first. It is marked as cold so that the loop's
/// registers are allocated for the arms.
#[cold]
#[inline(never)]
fn general_step<'t, S: Sink>(
    machine: &mut Machine<'t>,
    templates: &'t Templates,
    limits: &Limits,
    rest: &[u8],
    sink: &mut S,
) -> UnitTaken
    requires turn { CanTurn (set_of templates.now) limits.now machine.old }
    requires waits { machine.old.waiting ≡ Waiting.Field }
    ensures step { IsStep S.takes S.stops (set_of templates.now) limits.now machine.old rest.now sink.old result sink.new
        machine.new }
    ensures waits { (t : Turn) → result.turn ≡ Ok t → t ≢ Turn.Waits → machine.new.waiting ≡ Waiting.Field }
{
    if let Some((node, field)) = machine.next_field(templates, *limits) {
        return machine.step_by_field(templates, limits, node, field, rest, sink);
    }
    machine.step_by_turn(templates, limits, rest, sink)
}

/// Makes a step on the general path from the spot on: of the next instruction, or the end of the innermost segment.
#[inline(always)]
fn general_arm<'t, S: Sink>(
    machine: &mut Machine<'t>,
    templates: &'t Templates,
    limits: &Limits,
    spot: &mut Spot<'t, '_>,
    sink: &mut S,
) -> Gone
    requires spot { IsAtSpot (set_of templates.now) limits.now machine.old spot.old.place }
    ensures gone { HasGone S.takes S.stops (set_of templates.now) limits.now machine.old spot.old sink.old result sink.new
        machine.new spot.new }
{
    machine.cursor.set_place(spot.place);
    let step = general_step(machine, templates, limits, spot.rest.bytes, sink);
    spot.place = machine.cursor.place();
    spot.rest = spot.rest.skip(step.bytes);
    match step.turn {
        Err(code) => Gone::Ended(Err(code)),
        Ok(turn) => match turn {
            Turn::Waits => Gone::Ended(Ok(())),
            Turn::Handed => {
                if step.bytes > 0 {
                    return Gone::Took;
                }
                Gone::Handed
            }
            Turn::Silent => {
                if step.bytes > 0 {
                    return Gone::Took;
                }
                Gone::Silent
            }
        },
    }
}

/// Returns the result of an arm; if it declined, makes the step on the general path.
#[inline(always)]
fn or_general<'t, S: Sink>(
    machine: &mut Machine<'t>,
    templates: &'t Templates,
    limits: &Limits,
    went: Went,
    spot: &mut Spot<'t, '_>,
    sink: &mut S,
) -> Gone
    requires place { IsPlaceOf machine.old.cursor spot.old.place }
    requires spot { went ≡ Went.Declined → IsAtSpot (set_of templates.now) limits.now machine.old spot.old.place }
    ensures gone { (m : Machine) (from : Spot) (s : S)
        → HasWent S.takes S.stops (set_of templates.now) limits.now m from s went sink.old machine.old spot.old
        → HasGone S.takes S.stops (set_of templates.now) limits.now m from s result sink.new machine.new spot.new }
{
    match went {
        Went::Took => Gone::Took,
        Went::Handed => Gone::Handed,
        Went::Silent => Gone::Silent,
        Went::Stopped => {
            machine.cursor.set_place(spot.place);
            Gone::Ended(Err(FaultCode::SinkStopped))
        }
        Went::Waits => {
            machine.cursor.set_place(spot.place);
            Gone::Ended(Ok(()))
        }
        Went::Declined => general_arm(machine, templates, limits, spot, sink),
    }
}

/// Makes steps for as long as an arm has a case for them: the instruction that is left then waits for a byte, on the general path.
#[inline(never)]
pub fn walk<'t, S: Sink>(
    machine: &mut Machine<'t>,
    templates: &'t Templates,
    limits: &Limits,
    piece: Rest<'_>,
    sink: &mut S,
) -> UnitTaken
    requires turn { CanTurn (set_of templates.now) limits.now machine.old }
    ensures step { IsStep S.takes S.stops (set_of templates.now) limits.now machine.old piece.entry.bytes.now sink.old result sink.new
        machine.new }
    ensures ends { (t : Turn) → result.turn ≡ Ok t → t ≡ Turn.Waits }
{
    machine.wait_for_field();
    let bounds = *limits;
    let mut spot = Spot {
        place: machine.cursor.place(),
        rest: piece,
    };
    'units: loop {
        'events: loop {
            // The code at the position. After an absent field it is loaded where that is passed, so that such arms lead straight there.
            let mut code = op_at(machine, templates, bounds, &spot.place).code;
            'silent: loop {
                let op = op_at(machine, templates, bounds, &spot.place);
                // an arm, with the arguments that all of them have and those that are constant for the code
                macro_rules! arm {
                    ($arm:ident, $operator:ident, $optional:literal) => {
                        arm!($arm, Operator::$operator, $optional)
                    };
                    ($arm:ident $(, $constant:expr)*) => {
                        $arm(machine, templates, bounds, &mut spot, op $(, $constant)*, sink)
                    };
                }
                let went = match code {
                    Code::UInt32Plain => arm!(uint32_arm, None, false),
                    Code::UInt32NullablePlain => arm!(uint32_arm, None, true),
                    Code::UInt32Default => arm!(uint32_arm, Default, false),
                    Code::UInt32NullableDefault => arm!(uint32_arm, Default, true),
                    Code::UInt32Copy => arm!(uint32_arm, Copy, false),
                    Code::UInt32NullableCopy => arm!(uint32_arm, Copy, true),
                    Code::UInt32Increment => arm!(uint32_arm, Increment, false),
                    Code::UInt32NullableIncrement => arm!(uint32_arm, Increment, true),
                    Code::UInt32Delta => arm!(delta_arm, Kind::UInt32, false),
                    Code::UInt32NullableDelta => arm!(delta_arm, Kind::UInt32, true),
                    Code::UInt64Plain => arm!(uint64_arm, None, false),
                    Code::UInt64NullablePlain => arm!(uint64_arm, None, true),
                    Code::UInt64Default => arm!(uint64_arm, Default, false),
                    Code::UInt64NullableDefault => arm!(uint64_arm, Default, true),
                    Code::UInt64Copy => arm!(uint64_arm, Copy, false),
                    Code::UInt64NullableCopy => arm!(uint64_arm, Copy, true),
                    Code::UInt64Increment => arm!(uint64_arm, Increment, false),
                    Code::UInt64NullableIncrement => arm!(uint64_arm, Increment, true),
                    Code::UInt64Delta => arm!(delta_arm, Kind::UInt64, false),
                    Code::UInt64NullableDelta => arm!(delta_arm, Kind::UInt64, true),
                    Code::Int32Plain => arm!(int32_arm, None, false),
                    Code::Int32NullablePlain => arm!(int32_arm, None, true),
                    Code::Int32Default => arm!(int32_arm, Default, false),
                    Code::Int32NullableDefault => arm!(int32_arm, Default, true),
                    Code::Int32Copy => arm!(int32_arm, Copy, false),
                    Code::Int32NullableCopy => arm!(int32_arm, Copy, true),
                    Code::Int32Increment => arm!(int32_arm, Increment, false),
                    Code::Int32NullableIncrement => arm!(int32_arm, Increment, true),
                    Code::Int32Delta => arm!(delta_arm, Kind::Int32, false),
                    Code::Int32NullableDelta => arm!(delta_arm, Kind::Int32, true),
                    Code::Int64Plain => arm!(int64_arm, None, false),
                    Code::Int64NullablePlain => arm!(int64_arm, None, true),
                    Code::Int64Default => arm!(int64_arm, Default, false),
                    Code::Int64NullableDefault => arm!(int64_arm, Default, true),
                    Code::Int64Copy => arm!(int64_arm, Copy, false),
                    Code::Int64NullableCopy => arm!(int64_arm, Copy, true),
                    Code::Int64Increment => arm!(int64_arm, Increment, false),
                    Code::Int64NullableIncrement => arm!(int64_arm, Increment, true),
                    Code::Int64Delta => arm!(delta_arm, Kind::Int64, false),
                    Code::Int64NullableDelta => arm!(delta_arm, Kind::Int64, true),
                    Code::Constant => arm!(constant_arm),
                    Code::DecimalPlain => arm!(plain_decimal_arm, false),
                    Code::DecimalNullablePlain => arm!(plain_decimal_arm, true),
                    Code::DecimalCopy => arm!(copied_decimal_arm, false),
                    Code::DecimalNullableCopy => arm!(copied_decimal_arm, true),
                    Code::DecimalDelta => arm!(changed_decimal_arm, false),
                    Code::DecimalNullableDelta => arm!(changed_decimal_arm, true),
                    Code::Parts => arm!(parts_arm),
                    Code::PartsDefault => arm!(changed_parts_arm, Default, false),
                    Code::PartsNullableDefault => arm!(changed_parts_arm, Default, true),
                    Code::PartsCopy => arm!(changed_parts_arm, Copy, false),
                    Code::PartsNullableCopy => arm!(changed_parts_arm, Copy, true),
                    Code::AsciiPlain => arm!(ascii_arm, None, false),
                    Code::AsciiNullablePlain => arm!(ascii_arm, None, true),
                    Code::AsciiDefault => arm!(ascii_arm, Default, false),
                    Code::AsciiNullableDefault => arm!(ascii_arm, Default, true),
                    Code::AsciiCopy => arm!(ascii_arm, Copy, false),
                    Code::AsciiNullableCopy => arm!(ascii_arm, Copy, true),
                    Code::AsciiTail => arm!(ascii_arm, Tail, false),
                    Code::AsciiNullableTail => arm!(ascii_arm, Tail, true),
                    Code::AsciiDelta => arm!(part_arm, Kind::Ascii, false),
                    Code::AsciiNullableDelta => arm!(part_arm, Kind::Ascii, true),
                    Code::UnicodePlain => arm!(vector_arm, Kind::Unicode, false),
                    Code::UnicodeNullablePlain => arm!(vector_arm, Kind::Unicode, true),
                    Code::UnicodeDelta => arm!(part_arm, Kind::Unicode, false),
                    Code::UnicodeNullableDelta => arm!(part_arm, Kind::Unicode, true),
                    Code::BytesPlain => arm!(vector_arm, Kind::Bytes, false),
                    Code::BytesNullablePlain => arm!(vector_arm, Kind::Bytes, true),
                    Code::BytesTail => arm!(tail_arm, Kind::Bytes, false),
                    Code::BytesNullableTail => arm!(tail_arm, Kind::Bytes, true),
                    // These arms have many ends: how the loop goes on is decided here, and not after all arms.
                    Code::Group => match arm!(group_arm, false) {
                        Went::Took => break 'events,
                        Went::Handed => break 'silent,
                        other => other,
                    },
                    Code::OptionalGroup => match arm!(group_arm, true) {
                        Went::Took => break 'events,
                        Went::Handed => break 'silent,
                        other => other,
                    },
                    Code::Sequence => match arm!(sequence_arm, false) {
                        Went::Took => break 'events,
                        Went::Handed => break 'silent,
                        other => other,
                    },
                    Code::OptionalSequence => match arm!(sequence_arm, true) {
                        Went::Took => break 'events,
                        Went::Handed => break 'silent,
                        other => other,
                    },
                    Code::End => match end_arm(machine, templates, bounds, &mut spot, sink) {
                        Went::Took => break 'events,
                        Went::Handed => break 'silent,
                        other => other,
                    },
                    Code::General => Went::Declined,
                };
                match or_general(machine, templates, limits, went, &mut spot, sink) {
                    Gone::Took => break 'events,
                    Gone::Handed => break 'silent,
                    Gone::Silent => code = op_at(machine, templates, bounds, &spot.place).code,
                    Gone::Ended(outcome) => {
                        return UnitTaken {
                            bytes: piece.bytes.len() - spot.rest.bytes.len(),
                            turn: ended(outcome),
                        };
                    }
                }
            }
        }
    }
}

/// Returns the end of the loop: the machine waits, or has stopped at a fault.
#[inline(always)]
fn ended(outcome: Result<(), FaultCode>) -> Result<Turn, FaultCode>
    ensures { result ≡ ended outcome }
{
    match outcome {
        Ok(()) => Ok(Turn::Waits),
        Err(code) => Err(code),
    }
}
