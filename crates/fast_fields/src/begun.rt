//! A look at the first bytes of a string: whether it goes on after all bytes that are there, and if so, what is missing of it.
//!
//! `None` stands for everything else, and is always right: then nothing is known.

ghost use Rattle.std.specs.Prelude.{◌≡◌, ◌≢◌, ◌+◌, ◌≤◌, length, true, IfSome};
ghost use Rattle.fast_value.specs.meaning.Kinds.{family, texts};
ghost use Rattle.fast_value.specs.meaning.Limits.{bounds};
ghost use Rattle.fast_tree.specs.meaning.Nodes.{field_data};
ghost use Rattle.fast_dict.specs.meaning.Slots.{slots_dictionary};
ghost use Rattle.fast_units.specs.device.TextDecisions.{first_reader};
ghost use Rattle.fast_units.specs.device.UnitFronts.{IsAsciiFirst};
ghost use Rattle.fast_units.specs.device.Words.{HasTextLimit, ServesField, previous_of};
ghost use Rattle.fast_items.specs.device.TextsAs.{HasBegun};
ghost use Rattle.fast_fields.specs.device.Readings.{IsUndecided};

use crate::reading::{Missing, run_missing, text_missing};
use fast_dict::Slots;
use fast_items::begun_texts::{begun_delta, begun_vector, is_text_front};
use fast_items::taken::BegunText;
use fast_tree::{FieldInstruction, Operator};
use fast_value::{Kind, Limits};

/// The most bytes before the last unit of a string: two integers of ten bytes.
const MAX_BEFORE: usize = 20;

/// Returns whether the values of the type are strings.
#[inline]
pub(crate) fn is_string(kind: Kind) -> bool
    ensures { result ≡ true → family kind ≡ texts }
{
    match kind {
        Kind::Ascii | Kind::Unicode | Kind::Bytes => true,
        Kind::UInt32 | Kind::Int32 | Kind::UInt64 | Kind::Int64 | Kind::Decimal => false,
    }
}

/// Begins a string whose first unit is an integer: its size, or the subtraction length of a delta.
#[inline]
fn begun_string(
    slots: &Slots,
    field: &FieldInstruction,
    rest: &[u8],
    limits: &Limits,
) -> Option<BegunText>
    requires serves { ServesField slots.now field.now }
    requires limit { HasTextLimit slots.now limits.now }
    requires varies { field.now.operator ≢ Operator.Constant }
    requires integer { ¬ (IsAsciiFirst (field_data field.now)) }
    ensures begun { IfSome result (λ r. HasBegun limits.now.strict (bounds limits.now) (field_data field.now)
        (previous_of slots.now field.now) rest.now r.stage r.from) }
    ensures within { IfSome result (λ r. r.from ≤ length rest.now) }
    ensures few { IfSome result (λ r. r.from ≤ 20) }
{
    if !is_string(field.kind) {
        return None;
    }
    let (kind, optional, strict, room) = (
        field.kind,
        field.optional,
        limits.strict,
        limits.max_text,
    );
    let begun = if field.operator == Operator::Delta {
        begun_delta(slots, field.entry?, kind, optional, rest, strict, room)?
    } else {
        begun_vector(kind, optional, field.operator, rest, strict, room)?
    };
    if begun.from > MAX_BEFORE {
        return None;
    }
    Some(begun)
}

/// Returns the bytes that have to follow before anything more is decided of a field that begins with all of these, if it is a string that
/// is known to go on after them.
#[inline]
pub(crate) fn string_missing(
    slots: &Slots,
    field: &FieldInstruction,
    rest: &[u8],
    limits: &Limits,
) -> Option<Missing>
    requires serves { ServesField slots.now field.now }
    requires limit { HasTextLimit slots.now limits.now }
    requires varies { field.now.operator ≢ Operator.Constant }
    ensures undecided { IfSome result (IsUndecided (first_reader limits.now (field_data field.now)
        (slots_dictionary slots.now)) rest.now) }
    ensures bounded { IfSome result (λ m. length rest.now + m.bytes ≤ 22 + limits.now.max_text) }
{
    if field.kind == Kind::Ascii && field.operator != Operator::Delta {
        if !is_text_front(rest, limits.max_text) {
            return None;
        }
        return Some(Missing {
            bytes: text_missing(rest, field.optional, limits.max_text),
            stops: true,
        });
    }
    let begun = begun_string(slots, field, rest, limits)?;
    Some(run_missing(slots, field, begun.stage, &rest[begun.from..], limits))
}
