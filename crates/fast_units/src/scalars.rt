//! The units of fields, chosen by the field, and by the units before them.

ghost use Rattle.std.specs.Prelude.{◌≡◌, ◌≢◌, ℕ};
ghost use Rattle.fast_value.specs.meaning.Limits.{bounds};
ghost use Rattle.fast_tree.specs.meaning.Nodes.{field_data};
ghost use Rattle.fast_dict.specs.meaning.Slots.{slots_dictionary, slots_terms};
ghost use Rattle.fast_units.specs.device.NextUnits.{IsShort, IfCut};
ghost use Rattle.fast_units.specs.device.Stages.{IsStageOf};
ghost use Rattle.fast_units.specs.device.TextDecisions.{first_reader, reader_behind};
ghost use Rattle.fast_units.specs.device.UnitFronts.{IsAsciiFirst, IsNumberStage, IsRunStage, IsBytesStage, settled};
ghost use Rattle.fast_units.specs.device.Words.{HasTextLimit, HasRoomFor, ServesField, previous_of, IsLastUnitOf, IsUnitOf};

use crate::decimals::{take_exponent, take_mantissa, take_mantissa_delta};
use crate::numbers::take_integer;
use crate::progress::Progress;
use crate::scratch::Scratch;
use crate::source::ValueSource;
use crate::stages::{FieldStep, Stage};
use crate::text_deltas::{take_part, take_part_size, take_part_vector, take_subtraction};
use crate::texts::{take_size, take_vector};
use fast_dict::Slots;
use fast_tree::{FieldInstruction, Operator};
use fast_value::{Kind, Limits};

/// Reads the first unit of a field that begins with an integer.
#[inline(always)]
pub fn take_first(
    slots: &mut Slots,
    scratch: &mut Scratch,
    field: &FieldInstruction,
    rest: &[u8],
    limits: Limits,
) -> Progress<FieldStep>
    requires serves { ServesField slots.old field.now }
    requires limit { HasTextLimit slots.old limits }
    requires room { HasRoomFor slots.old scratch.old }
    requires number { ¬ (IsAsciiFirst (field_data field.now)) }
    requires varies { field.now.operator ≢ Operator.Constant }
    ensures unit { IsUnitOf limits (first_reader limits (field_data field.now) (slots_dictionary slots.old)) field.now
        rest.now slots.old slots.new scratch.new.text result }
    ensures short { IsShort rest.now result }
    ensures terms { slots_terms slots.new ≡ slots_terms slots.old }
    ensures capacity { scratch.new.capacity ≡ scratch.old.capacity }
{
    match field.kind {
        Kind::UInt32 | Kind::Int32 | Kind::UInt64 | Kind::Int64 => {
            settled(take_integer(slots, field, rest, limits.strict))
        }
        Kind::Decimal => take_exponent(slots, field, rest, limits),
        Kind::Ascii | Kind::Unicode | Kind::Bytes => match field.operator {
            Operator::Delta => take_subtraction(slots, field, rest, limits),
            _ => take_size(slots, scratch, field, rest, limits),
        },
    }
}

/// Reads a later unit, which is an integer.
#[inline(always)]
pub fn take_number(
    slots: &mut Slots,
    scratch: &mut Scratch,
    field: &FieldInstruction,
    stage: Stage,
    rest: &[u8],
    limits: Limits,
) -> Progress<FieldStep>
    requires serves { ServesField slots.old field.now }
    requires limit { HasTextLimit slots.old limits }
    requires room { HasRoomFor slots.old scratch.old }
    requires stage { IsStageOf (bounds limits) (field_data field.now) (previous_of slots.old field.now) stage }
    requires number { IsNumberStage (field_data field.now) stage }
    ensures unit { IsUnitOf limits (reader_behind limits (field_data field.now) (slots_dictionary slots.old) stage)
        field.now rest.now slots.old slots.new scratch.new.text result }
    ensures short { IsShort rest.now result }
    ensures run { (stage : Stage) (n : ℕ) → result ≡ Progress.Whole (FieldStep.Next stage) n
        → IsRunStage (field_data field.now) stage }
    ensures terms { slots_terms slots.new ≡ slots_terms slots.old }
    ensures capacity { scratch.new.capacity ≡ scratch.old.capacity }
{
    match stage {
        Stage::Mantissa(exponent) => {
            settled(take_mantissa(slots, field, exponent, rest, limits))
        }
        Stage::MantissaDelta(exponent) => settled(take_mantissa_delta(
            slots, field, exponent, rest, limits,
        )),
        Stage::Part(subtraction) => {
            take_part_size(slots, scratch, field, subtraction, rest, limits)
        }
        Stage::Vector(_) | Stage::PartVector(..) => Progress::Cut,
    }
}

/// Reads a later unit that is an ASCII string or a run of bytes, the last one of its field.
#[inline(always)]
pub fn take_bytes(
    slots: &mut Slots,
    scratch: &mut Scratch,
    field: &FieldInstruction,
    stage: Stage,
    rest: &[u8],
    limits: Limits,
) -> Progress<ValueSource>
    requires serves { ServesField slots.old field.now }
    requires limit { HasTextLimit slots.old limits }
    requires room { HasRoomFor slots.old scratch.old }
    requires stage { IsStageOf (bounds limits) (field_data field.now) (previous_of slots.old field.now) stage }
    requires run { IsRunStage (field_data field.now) stage }
    ensures unit { IsLastUnitOf (reader_behind limits (field_data field.now) (slots_dictionary slots.old) stage)
        field.now rest.now slots.old slots.new scratch.new.text result }
    ensures cut { IfCut result (IsBytesStage (bounds limits) (field_data field.now) (previous_of slots.old field.now)
        stage rest.now) }
    ensures terms { slots_terms slots.new ≡ slots_terms slots.old }
    ensures capacity { scratch.new.capacity ≡ scratch.old.capacity }
{
    match stage {
        Stage::Vector(size) => take_vector(slots, scratch, field, size, rest, limits),
        Stage::Part(subtraction) => take_part(slots, scratch, field, subtraction, rest, limits),
        Stage::PartVector(subtraction, size) => {
            take_part_vector(slots, scratch, field, subtraction, size, rest, limits)
        }
        Stage::Mantissa(_) | Stage::MantissaDelta(_) => Progress::Cut,
    }
}

/// Returns the step of a unit that was the field's last.
#[inline(always)]
fn settled(progress: Progress<ValueSource>) -> Progress<FieldStep>
    ensures { result ≡ settled progress }
{
    match progress {
        Progress::Whole(source, bytes) => Progress::Whole(FieldStep::Settled(source), bytes),
        Progress::Wrong(code, bytes) => Progress::Wrong(code, bytes),
        Progress::Cut => Progress::Cut,
    }
}
