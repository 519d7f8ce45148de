//! Reads a field from the bytes that it begins with.
//!
//! A field that is in the stream has up to three units: an integer, such as the size of a vector, an ASCII string, or a run of bytes. They
//! are read one after the other. Nothing changes before the last one is complete, so a field that is cut is read again from its first byte
//! once more of it is there.

ghost use Rattle.std.specs.Prelude.{◌≡◌, ◌≢◌, ◌+◌, ◌-◌, ◌≤◌, [], length, true, false, IfSome, IfNone};
ghost use Rattle.fast_value.specs.meaning.Limits.{bounds};
ghost use Rattle.fast_tree.specs.meaning.Nodes.{field_data};
ghost use Rattle.fast_dict.specs.meaning.Slots.{slots_dictionary, slots_terms};
ghost use Rattle.fast_stream.specs.meaning.Phrases.{cut};
ghost use Rattle.fast_stream.specs.meaning.Units.{ascii_text as ascii_phrase};
ghost use Rattle.fast_units.specs.device.NextUnits.{IsOpen};
ghost use Rattle.fast_units.specs.device.TextDecisions.{first_reader, reader_behind};
ghost use Rattle.fast_units.specs.device.Stages.{IsStageOf};
ghost use Rattle.fast_units.specs.device.UnitFronts.{IsAsciiFirst, IsNumberStage, IsRunStage, IsBytesStage};
ghost use Rattle.fast_units.specs.device.Words.{HasTextLimit, HasRoomFor, ServesField, previous_of};
ghost use Rattle.fast_fields.specs.device.Readings.{IsFieldReading, IsBounded, KeepsText, KeepsRun, ReadsWithin, shifted};

use crate::begun::is_string;
use crate::numbers::whole_number;
use crate::whole::whole_string;
use fast_dict::Slots;
use fast_tree::{FieldInstruction, Operator};
use fast_units::progress::Progress;
use fast_units::scalars::{take_bytes, take_first, take_number};
use fast_units::scratch::Scratch;
use fast_units::source::ValueSource;
use fast_units::stages::{FieldStep, Stage};
use fast_units::text_outcomes::part_room;
use fast_units::texts::take_text;
use fast_value::{Code, Kind, Limits};

/// The most bytes of an integer.
const MAX_ENTITY: usize = 10;

/// A field that is complete.
#[derive(Clone, Copy)]
pub struct WholeField {
    /// The source of its value.
    pub source: ValueSource,
    /// The offset at which its value begins, if the source is the piece: it is borrowed from there on.
    pub from: usize,
    /// The number of its bytes.
    pub bytes: usize,
}

/// The bytes that have to follow before anything more is decided of a field.
#[derive(Clone, Copy)]
pub struct Missing {
    /// Their number.
    pub bytes: usize,
    /// Whether a byte with a stop bit among them decides something earlier.
    pub stops: bool,
}

/// The result of reading a field from the bytes that it begins with.
#[derive(Clone, Copy)]
pub enum Reading {
    /// The field is complete.
    Whole(WholeField),
    /// A fault, and the number of bytes that decide it.
    Wrong(Code, usize),
    /// The field goes on.
    More(Missing),
}

/// Returns the result for all `count` bytes, by the result for those after the first `front`, which belong to the field's earlier units.
#[inline]
fn shifted(reading: Reading, front: usize, count: usize) -> Reading
    requires within { front ≤ count }
    requires fits { ReadsWithin (count - front) reading }
    ensures { result ≡ shifted front reading }
{
    let _ = count;
    match reading {
        Reading::Whole(taken) => Reading::Whole(WholeField {
            source: taken.source,
            from: front + taken.from,
            bytes: front + taken.bytes,
        }),
        Reading::Wrong(code, bytes) => Reading::Wrong(code, front + bytes),
        Reading::More(missing) => Reading::More(missing),
    }
}

/// Returns the result for a unit that completes the field, of this number of bytes.
#[inline]
fn whole(source: ValueSource, bytes: usize) -> Reading
    ensures { result ≡ Reading.Whole (record { source = source; from = 0; bytes = bytes }) }
{
    Reading::Whole(WholeField {
        source,
        from: 0,
        bytes,
    })
}

/// Returns after how many bytes more something is decided of an ASCII string of at most `room` characters that begins with these and goes
/// on, if none of them has a stop bit.
#[inline]
pub(crate) fn text_missing(bytes: &[u8], nullable: bool, room: usize) -> usize
    requires open { ascii_phrase nullable room bytes.now [] cut }
    ensures keeps { KeepsText nullable room bytes.now result }
    ensures within { length bytes.now + result ≤ 2 + room }
{
    let _ = nullable;
    match bytes.first() {
        // the byte after a zero decides whether that is the empty string
        None | Some(0x00) => 1,
        Some(_) => room - bytes.len() + 1,
    }
}

/// Returns the bytes that have to follow before anything more is decided of an integer that begins with these and goes on.
#[inline]
fn integer_missing(bytes: &[u8]) -> Missing
    requires { IsOpen bytes.now }
    ensures { result ≡ record { bytes = 10 - length bytes.now; stops = true } }
{
    Missing {
        bytes: MAX_ENTITY - bytes.len(),
        stops: true,
    }
}

/// Returns whether a later unit of a field is an integer.
#[inline]
fn is_number(field: &FieldInstruction, stage: Stage) -> bool
    ensures number { result ≡ true → IsNumberStage (field_data field.now) stage }
    ensures run { result ≡ false → IsRunStage (field_data field.now) stage }
{
    match stage {
        Stage::Mantissa(_) | Stage::MantissaDelta(_) => true,
        Stage::Part(_) => field.kind != Kind::Ascii,
        Stage::Vector(_) | Stage::PartVector(..) => false,
    }
}

/// Returns the bytes that have to follow before anything more is decided of a later unit that begins with these and goes on.
#[inline]
pub(crate) fn run_missing(
    slots: &Slots,
    field: &FieldInstruction,
    stage: Stage,
    bytes: &[u8],
    limits: &Limits,
) -> Missing
    requires serves { ServesField slots.now field.now }
    requires stage { IsStageOf (bounds limits.now) (field_data field.now) (previous_of slots.now field.now) stage }
    requires open { IsBytesStage (bounds limits.now) (field_data field.now) (previous_of slots.now field.now) stage
        bytes.now }
    ensures keeps { KeepsRun (bounds limits.now) (field_data field.now) (previous_of slots.now field.now) stage
        bytes.now result }
    ensures within { length bytes.now + result.bytes ≤ 2 + limits.now.max_text }
{
    match stage {
        Stage::Vector(size) | Stage::PartVector(_, size) => Missing {
            bytes: size - bytes.len(),
            stops: false,
        },
        Stage::Part(subtraction) => {
            let room = part_room(slots, field, subtraction, limits.max_text);
            Missing {
                bytes: text_missing(bytes, false, room),
                stops: true,
            }
        }
        Stage::Mantissa(_) | Stage::MantissaDelta(_) => Missing {
            bytes: 1,
            stops: true,
        },
    }
}

/// Reads a field from a later unit on, which is an ASCII string or a run of bytes, the field's last unit.
fn read_run(
    slots: &mut Slots,
    scratch: &mut Scratch,
    field: &FieldInstruction,
    stage: Stage,
    bytes: &[u8],
    limits: &Limits,
) -> Reading
    requires serves { ServesField slots.old field.now }
    requires limit { HasTextLimit slots.old limits.now }
    requires room { HasRoomFor slots.old scratch.old }
    requires stage { IsStageOf (bounds limits.now) (field_data field.now) (previous_of slots.old field.now) stage }
    requires run { IsRunStage (field_data field.now) stage }
    ensures reading { IsFieldReading (reader_behind limits.now (field_data field.now) (slots_dictionary slots.old)
        stage) (field_data field.now) bytes.now (slots_dictionary slots.old) (slots_dictionary slots.new)
        scratch.new.text
        result }
    ensures bounded { IsBounded (2 + limits.now.max_text) bytes.now result }
    ensures terms { slots_terms slots.new ≡ slots_terms slots.old }
    ensures capacity { scratch.new.capacity ≡ scratch.old.capacity }
{
    match take_bytes(slots, scratch, field, stage, bytes, *limits) {
        Progress::Whole(source, count) => whole(source, count),
        Progress::Wrong(code, count) => Reading::Wrong(code, count),
        Progress::Cut => Reading::More(run_missing(slots, field, stage, bytes, limits)),
    }
}

/// Reads a field from its second unit on.
fn read_later(
    slots: &mut Slots,
    scratch: &mut Scratch,
    field: &FieldInstruction,
    stage: Stage,
    bytes: &[u8],
    limits: &Limits,
) -> Reading
    requires serves { ServesField slots.old field.now }
    requires limit { HasTextLimit slots.old limits.now }
    requires room { HasRoomFor slots.old scratch.old }
    requires stage { IsStageOf (bounds limits.now) (field_data field.now) (previous_of slots.old field.now) stage }
    ensures reading { IsFieldReading (reader_behind limits.now (field_data field.now) (slots_dictionary slots.old)
        stage) (field_data field.now) bytes.now (slots_dictionary slots.old) (slots_dictionary slots.new)
        scratch.new.text
        result }
    ensures bounded { IsBounded (12 + limits.now.max_text) bytes.now result }
    ensures terms { slots_terms slots.new ≡ slots_terms slots.old }
    ensures capacity { scratch.new.capacity ≡ scratch.old.capacity }
{
    if !is_number(field, stage) {
        return read_run(slots, scratch, field, stage, bytes, limits);
    }
    match take_number(slots, scratch, field, stage, bytes, *limits) {
        Progress::Whole(FieldStep::Settled(source), count) => whole(source, count),
        Progress::Whole(FieldStep::Next(next), count) => {
            let reading = read_run(slots, scratch, field, next, &bytes[count..], limits);
            shifted(reading, count, bytes.len())
        }
        Progress::Wrong(code, count) => Reading::Wrong(code, count),
        Progress::Cut => Reading::More(integer_missing(bytes)),
    }
}

/// Reads a field that is an ASCII string and no delta, its only unit.
fn read_text(
    slots: &mut Slots,
    scratch: &mut Scratch,
    field: &FieldInstruction,
    bytes: &[u8],
    limits: &Limits,
) -> Reading
    requires serves { ServesField slots.old field.now }
    requires limit { HasTextLimit slots.old limits.now }
    requires room { HasRoomFor slots.old scratch.old }
    requires text { IsAsciiFirst (field_data field.now) }
    requires varies { field.now.operator ≢ Operator.Constant }
    ensures reading { IsFieldReading (first_reader limits.now (field_data field.now) (slots_dictionary slots.old))
        (field_data field.now) bytes.now (slots_dictionary slots.old) (slots_dictionary slots.new) scratch.new.text
        result }
    ensures bounded { IsBounded (2 + limits.now.max_text) bytes.now result }
    ensures terms { slots_terms slots.new ≡ slots_terms slots.old }
    ensures capacity { scratch.new.capacity ≡ scratch.old.capacity }
{
    match take_text(slots, scratch, field, bytes, *limits) {
        Progress::Whole(source, count) => whole(source, count),
        Progress::Wrong(code, count) => Reading::Wrong(code, count),
        Progress::Cut => Reading::More(Missing {
            bytes: text_missing(bytes, field.optional, limits.max_text),
            stops: true,
        }),
    }
}

/// Reads a field that is in the stream unit after unit.
#[cold]
#[inline(never)]
fn read_units(
    slots: &mut Slots,
    scratch: &mut Scratch,
    field: &FieldInstruction,
    bytes: &[u8],
    limits: &Limits,
) -> Reading
    requires serves { ServesField slots.old field.now }
    requires limit { HasTextLimit slots.old limits.now }
    requires room { HasRoomFor slots.old scratch.old }
    requires varies { field.now.operator ≢ Operator.Constant }
    ensures reading { IsFieldReading (first_reader limits.now (field_data field.now) (slots_dictionary slots.old))
        (field_data field.now) bytes.now (slots_dictionary slots.old) (slots_dictionary slots.new) scratch.new.text
        result }
    ensures bounded { IsBounded (22 + limits.now.max_text) bytes.now result }
    ensures terms { slots_terms slots.new ≡ slots_terms slots.old }
    ensures capacity { scratch.new.capacity ≡ scratch.old.capacity }
{
    if field.kind == Kind::Ascii && field.operator != Operator::Delta {
        return read_text(slots, scratch, field, bytes, limits);
    }
    match take_first(slots, scratch, field, bytes, *limits) {
        Progress::Whole(FieldStep::Settled(source), count) => whole(source, count),
        Progress::Whole(FieldStep::Next(stage), count) => {
            let rest = &bytes[count..];
            let reading = read_later(slots, scratch, field, stage, rest, limits);
            shifted(reading, count, bytes.len())
        }
        Progress::Wrong(code, count) => Reading::Wrong(code, count),
        Progress::Cut => Reading::More(integer_missing(bytes)),
    }
}

/// Reads a field that is in the stream, if it is complete and one of those that are read at once. Else nothing has changed.
#[inline(always)]
fn whole_field(
    slots: &mut Slots,
    scratch: &mut Scratch,
    field: &FieldInstruction,
    bytes: &[u8],
    limits: &Limits,
) -> Option<WholeField>
    requires serves { ServesField slots.old field.now }
    requires limit { HasTextLimit slots.old limits.now }
    requires room { HasRoomFor slots.old scratch.old }
    requires varies { field.now.operator ≢ Operator.Constant }
    ensures whole { IfSome result (λ found. IsFieldReading (first_reader limits.now (field_data field.now)
        (slots_dictionary slots.old)) (field_data field.now) bytes.now (slots_dictionary slots.old)
        (slots_dictionary slots.new) scratch.new.text (Reading.Whole found)) }
    ensures none { IfNone result ((slots.new ≡ slots.old) × (scratch.new ≡ scratch.old)) }
    ensures terms { slots_terms slots.new ≡ slots_terms slots.old }
    ensures capacity { scratch.new.capacity ≡ scratch.old.capacity }
{
    if is_string(field.kind) {
        let found = whole_string(slots, scratch, field, bytes, limits)?;
        return Some(found);
    }
    whole_number(slots, field, bytes, limits)
}

/// Reads a field that is in the stream from the bytes that it begins with, all of which are at hand. A string that is neither in the bytes
/// nor in the field's entry is in `scratch` then.
///
/// Of a field that goes on nothing is kept: it is to be read again from its first byte.
#[inline(always)]
pub fn read_field(
    slots: &mut Slots,
    scratch: &mut Scratch,
    field: &FieldInstruction,
    bytes: &[u8],
    limits: &Limits,
) -> Reading
    requires serves { ServesField slots.old field.now }
    requires limit { HasTextLimit slots.old limits.now }
    requires room { HasRoomFor slots.old scratch.old }
    requires varies { field.now.operator ≢ Operator.Constant }
    ensures reading { IsFieldReading (first_reader limits.now (field_data field.now) (slots_dictionary slots.old))
        (field_data field.now) bytes.now (slots_dictionary slots.old) (slots_dictionary slots.new) scratch.new.text
        result }
    ensures bounded { IsBounded (22 + limits.now.max_text) bytes.now result }
    ensures terms { slots_terms slots.new ≡ slots_terms slots.old }
    ensures capacity { scratch.new.capacity ≡ scratch.old.capacity }
{
    if let Some(found) = whole_field(slots, scratch, field, bytes, limits) {
        return Reading::Whole(found);
    }
    // made anew: a result that a call writes stays in memory, on the path above too
    match read_units(slots, scratch, field, bytes, limits) {
        Reading::Whole(found) => Reading::Whole(found),
        Reading::Wrong(code, bytes) => Reading::Wrong(code, bytes),
        Reading::More(missing) => Reading::More(missing),
    }
}
