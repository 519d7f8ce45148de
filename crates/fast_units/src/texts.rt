//! String fields in the stream: ASCII and Unicode strings and byte vectors, sent complete and as tails.
//!
//! A unit at a time: an ASCII string, or the size of a vector and then its bytes. Nothing changes before a unit is complete.

ghost use Rattle.std.specs.Prelude.{◌≡◌, ◌≢◌, ℕ, List, [], true, Ok, Some, pos};
ghost use Rattle.fast_wire.specs.meaning.Integers.{IsWithin, unsigned_range};
ghost use Rattle.fast_value.specs.meaning.Kinds.{texts, family, value_of_text};
ghost use Rattle.fast_value.specs.meaning.Limits.{bounds};
ghost use Rattle.fast_tree.specs.meaning.Nodes.{field_data};
ghost use Rattle.fast_dict.specs.meaning.Operators.{checked_text};
ghost use Rattle.fast_dict.specs.meaning.Slots.{slots_dictionary, slots_terms};
ghost use Rattle.fast_stream.specs.meaning.Phrases.{cut};
ghost use Rattle.fast_stream.specs.meaning.Units.{ascii_text as ascii_phrase};
ghost use Rattle.fast_stream.specs.device.GrammarReaders.{reader_of};
ghost use Rattle.fast_units.specs.device.NextUnits.{IsShort, IfCut};
ghost use Rattle.fast_units.specs.device.Stages.{IsStageOf};
ghost use Rattle.fast_units.specs.device.TextDecisions.{IsStepped, first_reader, reader_behind, behind_size, settled};
ghost use Rattle.fast_units.specs.device.UnitFronts.{IsBytesStage};
ghost use Rattle.fast_units.specs.device.Words.{HasTextLimit, HasRoomFor, ServesField, previous_of, IsLastUnitOf, IsUnitOf};

use crate::progress::{Progress, answered};
use crate::scratch::Scratch;
use crate::source::ValueSource;
use crate::stages::{FieldStep, Stage};
use crate::text_outcomes::{finish_absent, finish_ascii, finish_held, finish_here};
use crate::units::{IntegerRange, next_ascii, next_integer};
use fast_dict::Slots;
use fast_dict::operators::{is_utf8, sized};
use fast_tree::{FieldInstruction, Operator};
use fast_value::{Code, Kind, Limits};

/// The greatest size of a vector that can be encoded.
pub const TOP_SIZE: u64 = 4_294_967_295;

/// Returns the step of a field's last unit.
#[inline(always)]
pub(crate) fn settled(answer: Result<ValueSource, Code>) -> Result<FieldStep, Code>
    ensures { result ≡ settled answer }
{
    answer.map(FieldStep::Settled)
}

/// Returns a size that is known to be a uInt32.
#[inline]
pub(crate) fn size_of(integer: i128) -> u32
    requires { IsWithin (unsigned_range 32) integer }
    ensures { pos result ≡ integer }
{
    integer as u32
}

/// Returns whether the bytes are a string of the type: a Unicode string is UTF-8.
#[inline(always)]
pub fn is_text_of(kind: Kind, text: &[u8]) -> bool
    ensures { result ≡ true → checked_text kind text.now ≡ Ok (value_of_text kind text.now) }
{
    match kind {
        Kind::Unicode => is_utf8(text),
        _ => true,
    }
}

/// Reads an ASCII string that is not a delta, the only unit of its field.
pub fn take_text(
    slots: &mut Slots,
    scratch: &mut Scratch,
    field: &FieldInstruction,
    rest: &[u8],
    limits: Limits,
) -> Progress<ValueSource>
    requires serves { ServesField slots.old field.now }
    requires limit { HasTextLimit slots.old limits }
    requires kind { field.now.kind ≡ Kind.Ascii }
    requires sent { field.now.operator ≢ Operator.Constant }
    requires whole { field.now.operator ≢ Operator.Delta }
    requires scratch { HasRoomFor slots.old scratch.old }
    ensures unit { IsLastUnitOf (first_reader limits (field_data field.now) (slots_dictionary slots.old)) field.now
        rest.now slots.old slots.new scratch.new.text result }
    ensures cut { IfCut result (ascii_phrase field.now.optional limits.max_text rest.now [] cut) }
    ensures terms { slots_terms slots.new ≡ slots_terms slots.old }
    ensures scratch { scratch.new.capacity ≡ scratch.old.capacity }
{
    match next_ascii(scratch, rest, limits.max_text, field.optional) {
        Progress::Whole(true, bytes) => { answered(finish_ascii(slots, scratch, field), bytes) }
        Progress::Whole(false, bytes) => Progress::Whole(finish_absent(slots, field), bytes),
        Progress::Wrong(code, bytes) => Progress::Wrong(code, bytes),
        Progress::Cut => Progress::Cut,
    }
}

/// Reads the size of a vector that is not a delta: the first unit of its field. An empty vector has no bytes after it.
pub fn take_size(
    slots: &mut Slots,
    scratch: &mut Scratch,
    field: &FieldInstruction,
    rest: &[u8],
    limits: Limits,
) -> Progress<FieldStep>
    requires serves { ServesField slots.old field.now }
    requires limit { HasTextLimit slots.old limits }
    requires text { family field.now.kind ≡ texts }
    requires kind { field.now.kind ≢ Kind.Ascii }
    requires sent { field.now.operator ≢ Operator.Constant }
    requires whole { field.now.operator ≢ Operator.Delta }
    requires scratch { HasRoomFor slots.old scratch.old }
    ensures unit { IsUnitOf limits (first_reader limits (field_data field.now) (slots_dictionary slots.old)) field.now
        rest.now slots.old slots.new scratch.new.text result }
    ensures short { IsShort rest.now result }
    ensures terms { slots_terms slots.new ≡ slots_terms slots.old }
    ensures scratch { scratch.new.capacity ≡ scratch.old.capacity }
{
    let range = IntegerRange::Unsigned(TOP_SIZE);
    match next_integer(rest, limits.strict, range, field.optional, Code::D2) {
        Progress::Whole(Some(size), bytes) => {
            answered(
                vector_next(slots, scratch, field, size_of(size), limits),
                bytes,
            )
        }
        Progress::Whole(None, bytes) => {
            Progress::Whole(FieldStep::Settled(finish_absent(slots, field)), bytes)
        }
        Progress::Wrong(code, bytes) => Progress::Wrong(code, bytes),
        Progress::Cut => Progress::Cut,
    }
}

/// Returns the step after the size of a vector.
fn vector_next(
    slots: &mut Slots,
    scratch: &mut Scratch,
    field: &FieldInstruction,
    size: u32,
    limits: Limits,
) -> Result<FieldStep, Code>
    requires serves { ServesField slots.old field.now }
    requires limit { HasTextLimit slots.old limits }
    requires text { family field.now.kind ≡ texts }
    requires kind { field.now.kind ≢ Kind.Ascii }
    requires sent { field.now.operator ≢ Operator.Constant }
    requires whole { field.now.operator ≢ Operator.Delta }
    requires scratch { HasRoomFor slots.old scratch.old }
    ensures step { (piece : List ℕ) → IsStepped limits (reader_of limits.strict
        (behind_size (bounds limits) (field_data field.now) (previous_of slots.old field.now) (Some (pos size))))
        (field_data field.now) (slots_dictionary slots.old) (slots_dictionary slots.new) scratch.new.text piece result }
    ensures terms { slots_terms slots.new ≡ slots_terms slots.old }
    ensures scratch { scratch.new.capacity ≡ scratch.old.capacity }
{
    let size = sized(size, limits.max_text)?;
    if size > 0 {
        return Ok(FieldStep::Next(Stage::Vector(size)));
    }
    scratch.clear();
    settled(finish_held(slots, scratch, field))
}

/// Reads a vector that is not a delta, after its size.
pub fn take_vector(
    slots: &mut Slots,
    scratch: &mut Scratch,
    field: &FieldInstruction,
    size: usize,
    rest: &[u8],
    limits: Limits,
) -> Progress<ValueSource>
    requires serves { ServesField slots.old field.now }
    requires limit { HasTextLimit slots.old limits }
    requires stage { IsStageOf (bounds limits) (field_data field.now) (previous_of slots.old field.now)
        (Stage.Vector size) }
    requires scratch { HasRoomFor slots.old scratch.old }
    ensures unit { IsLastUnitOf (reader_behind limits (field_data field.now) (slots_dictionary slots.old)
        (Stage.Vector size)) field.now rest.now slots.old slots.new scratch.new.text result }
    ensures cut { IfCut result (IsBytesStage (bounds limits) (field_data field.now) (previous_of slots.old field.now)
        (Stage.Vector size) rest.now) }
    ensures terms { slots_terms slots.new ≡ slots_terms slots.old }
    ensures scratch { scratch.new.capacity ≡ scratch.old.capacity }
{
    if rest.len() < size {
        return Progress::Cut;
    }
    answered(finish_here(slots, scratch, field, &rest[..size]), size)
}
