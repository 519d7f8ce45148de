//! Deltas of strings: the subtraction length, and then the part, an ASCII string or a vector's size and its bytes.

ghost use Rattle.std.specs.Prelude.{◌≡◌, ◌≢◌, ℕ, List, Ok, Some, pos};
ghost use Rattle.fast_wire.specs.meaning.Integers.{IsWithin, signed_range};
ghost use Rattle.fast_value.specs.meaning.Kinds.{texts, family};
ghost use Rattle.fast_value.specs.meaning.Limits.{bounds};
ghost use Rattle.fast_tree.specs.meaning.Nodes.{field_data};
ghost use Rattle.fast_dict.specs.meaning.Operators.{Kept as KeptData, subtraction_step};
ghost use Rattle.fast_dict.specs.meaning.Slots.{slots_dictionary, slots_terms};
ghost use Rattle.fast_stream.specs.meaning.Fields.{text_change};
ghost use Rattle.fast_stream.specs.device.GrammarReaders.{reader_of};
ghost use Rattle.fast_units.specs.device.NextUnits.{IsShort, IfCut};
ghost use Rattle.fast_units.specs.device.Stages.{IsStageOf};
ghost use Rattle.fast_units.specs.device.TextDecisions.{IsStepped, first_reader, reader_behind, behind_part_size, settled};
ghost use Rattle.fast_units.specs.device.UnitFronts.{IsRunStage, IsBytesStage};
ghost use Rattle.fast_units.specs.device.Words.{HasTextLimit, HasRoomFor, ServesField, previous_of, IsLastUnitOf, IsUnitOf};

use crate::progress::{Progress, answered};
use crate::scratch::Scratch;
use crate::source::ValueSource;
use crate::stages::{FieldStep, Stage};
use crate::text_outcomes::{finish_absent, finish_part, kept, part_room};
use crate::texts::{TOP_SIZE, settled, size_of};
use crate::units::{IntegerRange, next_ascii, next_integer, next_unsigned};
use fast_dict::Slots;
use fast_dict::operators::sized;
use fast_tree::{FieldInstruction, Operator};
use fast_value::{Code, Kind, Limits};

/// Reads the subtraction length of a delta: the first unit of its field.
pub fn take_subtraction(
    slots: &mut Slots,
    field: &FieldInstruction,
    rest: &[u8],
    limits: Limits,
) -> Progress<FieldStep>
    requires serves { ServesField slots.old field.now }
    requires limit { HasTextLimit slots.old limits }
    requires text { family field.now.kind ≡ texts }
    requires delta { field.now.operator ≡ Operator.Delta }
    ensures unit { (scratch : List ℕ) → IsUnitOf limits (first_reader limits (field_data field.now)
        (slots_dictionary slots.old)) field.now rest.now slots.old slots.new scratch result }
    ensures short { IsShort rest.now result }
    ensures terms { slots_terms slots.new ≡ slots_terms slots.old }
{
    let range = IntegerRange::Signed(-2_147_483_648, 2_147_483_647);
    match next_integer(rest, limits.strict, range, field.optional, Code::D7) {
        Progress::Whole(Some(length), bytes) => {
            answered(part_next(slots, field, length_of(length)), bytes)
        }
        Progress::Whole(None, bytes) => {
            Progress::Whole(FieldStep::Settled(finish_absent(slots, field)), bytes)
        }
        Progress::Wrong(code, bytes) => Progress::Wrong(code, bytes),
        Progress::Cut => Progress::Cut,
    }
}

/// Returns a subtraction length that is known to be an int32.
#[inline]
fn length_of(integer: i128) -> i32
    requires { IsWithin (signed_range 31) integer }
    ensures { result ≡ integer }
{
    integer as i32
}

/// Returns the step after the subtraction length of a delta.
fn part_next(slots: &Slots, field: &FieldInstruction, subtraction: i32) -> Result<FieldStep, Code>
    requires serves { ServesField slots.now field.now }
    requires text { family field.now.kind ≡ texts }
    requires delta { field.now.operator ≡ Operator.Delta }
    ensures { (limits : Limits) (scratch piece : List ℕ)
        → IsStepped limits (reader_of limits.strict (text_change (bounds limits) (field_data field.now)
        (previous_of slots.now field.now) (Some subtraction))) (field_data field.now) (slots_dictionary slots.now)
        (slots_dictionary slots.now) scratch piece result }
{
    kept(slots, field, subtraction)?;
    Ok(FieldStep::Next(Stage::Part(subtraction)))
}

/// Reads the part of an ASCII delta, after the subtraction length.
pub fn take_part(
    slots: &mut Slots,
    scratch: &mut Scratch,
    field: &FieldInstruction,
    subtraction: i32,
    rest: &[u8],
    limits: Limits,
) -> Progress<ValueSource>
    requires serves { ServesField slots.old field.now }
    requires limit { HasTextLimit slots.old limits }
    requires stage { IsStageOf (bounds limits) (field_data field.now) (previous_of slots.old field.now)
        (Stage.Part subtraction) }
    requires kind { field.now.kind ≡ Kind.Ascii }
    requires scratch { HasRoomFor slots.old scratch.old }
    ensures unit { IsLastUnitOf (reader_behind limits (field_data field.now) (slots_dictionary slots.old)
        (Stage.Part subtraction)) field.now rest.now slots.old slots.new scratch.new.text result }
    ensures cut { IfCut result (IsBytesStage (bounds limits) (field_data field.now) (previous_of slots.old field.now)
        (Stage.Part subtraction) rest.now) }
    ensures terms { slots_terms slots.new ≡ slots_terms slots.old }
    ensures scratch { scratch.new.capacity ≡ scratch.old.capacity }
{
    let room = part_room(slots, field, subtraction, limits.max_text);
    match next_ascii(scratch, rest, room, false) {
        Progress::Whole(true, bytes) => {
            answered(finish_part(slots, scratch, field, subtraction), bytes)
        }
        Progress::Whole(false, bytes) => Progress::Whole(finish_absent(slots, field), bytes),
        Progress::Wrong(code, bytes) => Progress::Wrong(code, bytes),
        Progress::Cut => Progress::Cut,
    }
}

/// Reads the size of a vector delta's part, after the subtraction length. An empty part has no bytes after it: it is joined at once, in
/// the scratch.
pub fn take_part_size(
    slots: &mut Slots,
    scratch: &mut Scratch,
    field: &FieldInstruction,
    subtraction: i32,
    rest: &[u8],
    limits: Limits,
) -> Progress<FieldStep>
    requires serves { ServesField slots.old field.now }
    requires limit { HasTextLimit slots.old limits }
    requires stage { IsStageOf (bounds limits) (field_data field.now) (previous_of slots.old field.now)
        (Stage.Part subtraction) }
    requires kind { field.now.kind ≢ Kind.Ascii }
    requires scratch { HasRoomFor slots.old scratch.old }
    ensures unit { (text : List ℕ) → IsUnitOf limits (reader_behind limits (field_data field.now)
        (slots_dictionary slots.old) (Stage.Part subtraction)) field.now rest.now slots.old slots.new
        text result }
    ensures run { (stage : Stage) (n : ℕ) → result ≡ Progress.Whole (FieldStep.Next stage) n
        → IsRunStage (field_data field.now) stage }
    ensures short { IsShort rest.now result }
    ensures terms { slots_terms slots.new ≡ slots_terms slots.old }
    ensures scratch { scratch.new.capacity ≡ scratch.old.capacity }
{
    match next_unsigned(rest, limits.strict, TOP_SIZE) {
        Progress::Whole(size, bytes) => {
            let size = size_of(i128::from(size));
            answered(
                part_vector_next(slots, scratch, field, subtraction, size, limits),
                bytes,
            )
        }
        Progress::Wrong(code, bytes) => Progress::Wrong(code, bytes),
        Progress::Cut => Progress::Cut,
    }
}

/// Returns the step after the size of a vector delta's part.
fn part_vector_next(
    slots: &mut Slots,
    scratch: &mut Scratch,
    field: &FieldInstruction,
    subtraction: i32,
    size: u32,
    limits: Limits,
) -> Result<FieldStep, Code>
    requires serves { ServesField slots.old field.now }
    requires limit { HasTextLimit slots.old limits }
    requires stage { IsStageOf (bounds limits) (field_data field.now) (previous_of slots.old field.now)
        (Stage.Part subtraction) }
    requires kind { field.now.kind ≢ Kind.Ascii }
    requires scratch { HasRoomFor slots.old scratch.old }
    ensures step { (kept : KeptData) → subtraction_step (field_data field.now) (previous_of slots.old field.now)
        subtraction ≡ Ok kept → (text piece : List ℕ)
        → IsStepped limits (reader_of limits.strict (behind_part_size (bounds limits) (field_data field.now)
        (previous_of slots.old field.now) kept (Some (pos size)))) (field_data field.now) (slots_dictionary slots.old)
        (slots_dictionary slots.new) text piece result }
    ensures run { (stage : Stage) → result ≡ Ok (FieldStep.Next stage)
        → IsRunStage (field_data field.now) stage }
    ensures terms { slots_terms slots.new ≡ slots_terms slots.old }
    ensures scratch { scratch.new.capacity ≡ scratch.old.capacity }
{
    let room = part_room(slots, field, subtraction, limits.max_text);
    let size = sized(size, room)?;
    if size > 0 {
        return Ok(FieldStep::Next(Stage::PartVector(subtraction, size)));
    }
    scratch.clear();
    settled(finish_part(slots, scratch, field, subtraction))
}

/// Reads a vector delta's part, after its size.
pub fn take_part_vector(
    slots: &mut Slots,
    scratch: &mut Scratch,
    field: &FieldInstruction,
    subtraction: i32,
    size: usize,
    rest: &[u8],
    limits: Limits,
) -> Progress<ValueSource>
    requires serves { ServesField slots.old field.now }
    requires limit { HasTextLimit slots.old limits }
    requires stage { IsStageOf (bounds limits) (field_data field.now) (previous_of slots.old field.now)
        (Stage.PartVector subtraction size) }
    requires scratch { HasRoomFor slots.old scratch.old }
    ensures unit { IsLastUnitOf (reader_behind limits (field_data field.now) (slots_dictionary slots.old)
        (Stage.PartVector subtraction size)) field.now rest.now slots.old slots.new scratch.new.text
        result }
    ensures cut { IfCut result (IsBytesStage (bounds limits) (field_data field.now) (previous_of slots.old field.now)
        (Stage.PartVector subtraction size) rest.now) }
    ensures terms { slots_terms slots.new ≡ slots_terms slots.old }
    ensures scratch { scratch.new.capacity ≡ scratch.old.capacity }
{
    if rest.len() < size {
        return Progress::Cut;
    }
    scratch.set(&rest[..size]);
    answered(finish_part(slots, scratch, field, subtraction), size)
}
