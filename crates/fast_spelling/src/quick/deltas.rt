//! Tails of strings and byte vectors; deltas of strings, byte vectors and decimals.

ghost use Rattle.std.specs.Prelude.{◌≡◌, Some, OnOk, IfErr};
ghost use Rattle.fast_value.specs.declared.settings.Limits.{Limits};
ghost use Rattle.fast_value.specs.meaning.Values.{scalar_data};
ghost use Rattle.fast_tree.specs.declared.operators.Operator.TheVariants.{Delta, Tail};
ghost use Rattle.fast_tree.specs.meaning.Nodes.{field_data};
ghost use Rattle.fast_spelling.specs.device.Places.{field_there};
ghost use Rattle.fast_spelling.specs.meaning.Encoding.{EncodesField};
ghost use Rattle.fast_spelling.specs.device.Drafts.{IsTold};
ghost use Rattle.fast_spelling.specs.device.Fields.{IsServed, IsSuited, Wrote};
ghost use Rattle.fast_spelling.specs.device.Nodes.{Keeps};
ghost use Rattle.fast_spelling.specs.meaning.Refusals.{RefusesField};
ghost use Rattle.fast_spelling.specs.device.Usual.{IsDecimal, IsText};

use super::held::{held_in, is_same};
use crate::draft::Draft;
use crate::faults::EncodeFault;
use crate::fields::{keep, note_range, send, write_chosen};
use crate::items::write_decimals_apart;
use crate::known::Known;
use crate::ledger::Ledger;
use fast_dict::Sent;
use fast_dict::operators::texts::text_of;
use fast_dict::rule::items::{tail_of, text_delta, text_value};
use fast_template::Operator;
use fast_value::Scalar;

/// Writes a string or byte vector under tail: nothing if it equals the previous value; if it has the same length, only the part that
/// differs.
#[inline(always)]
pub fn write_tail(
    draft: &mut Draft,
    ledger: &mut Ledger,
    at: Known<'_>,
    value: Scalar<'_>,
) -> Result<(), EncodeFault>
    requires operator { (field_there at.place).operator ≡ Tail }
    requires served { IsServed ledger.old (field_data (field_there at.place)) }
    requires suited { IsSuited ledger.old.max_text (field_data (field_there at.place)) (Some (scalar_data value)) }
    ensures ok { OnOk result ((l : Limits) → l.max_text ≡ ledger.old.max_text
        → Wrote (EncodesField l (field_data (field_there at.entry.place)) ledger.old.now (Some (scalar_data value.entry)))
        draft.old draft.new ledger.new.now) }
    ensures err { IfErr result
        (IsTold (RefusesField (field_data (field_there at.entry.place)) ledger.old.now (Some (scalar_data value.entry)))) }
    ensures keeps { Keeps ledger.old ledger.new }
{
    match held_in(ledger, at, value) {
        None => write_chosen(draft, ledger, at.field(), Some(value)),
        Some(held) if is_same(held, value) => Ok(draft.push_bit(false)?),
        Some(held) => {
            note_range(held);
            let Some(part) = tail_of(text_of(held), text_of(value)) else {
                return write_chosen(draft, ledger, at.field(), Some(value));
            };
            let tail = Sent::Value(text_value(at.kind, part));
            send(draft, ledger, at, Operator::Tail, Some(value), true, tail)
        }
    }
}

/// Writes a string or byte vector under delta: the number of bytes to remove from the previous value, and the bytes to add.
#[inline(always)]
pub fn write_text_delta(
    draft: &mut Draft,
    ledger: &mut Ledger,
    at: Known<'_>,
    value: Scalar<'_>,
) -> Result<(), EncodeFault>
    requires operator { (field_there at.place).operator ≡ Delta }
    requires served { IsServed ledger.old (field_data (field_there at.place)) }
    requires suited { IsSuited ledger.old.max_text (field_data (field_there at.place)) (Some (scalar_data value)) }
    requires text { IsText (scalar_data value) }
    ensures ok { OnOk result ((l : Limits) → l.max_text ≡ ledger.old.max_text
        → Wrote (EncodesField l (field_data (field_there at.entry.place)) ledger.old.now (Some (scalar_data value.entry)))
        draft.old draft.new ledger.new.now) }
    ensures err { IfErr result
        (IsTold (RefusesField (field_data (field_there at.entry.place)) ledger.old.now (Some (scalar_data value.entry)))) }
    ensures keeps { Keeps ledger.old ledger.new }
{
    match held_in(ledger, at, value) {
        None => write_chosen(draft, ledger, at.field(), Some(value)),
        Some(held) => {
            note_range(held);
            let delta = text_delta(text_of(held), text_of(value));
            send(draft, ledger, at, Operator::Delta, Some(value), true, delta)
        }
    }
}

/// Writes a decimal under delta: the differences of its exponent and its mantissa from those of the previous value.
#[inline(always)]
pub fn write_decimal_delta(
    draft: &mut Draft,
    ledger: &mut Ledger,
    at: Known<'_>,
    value: Scalar<'_>,
) -> Result<(), EncodeFault>
    requires operator { (field_there at.place).operator ≡ Delta }
    requires served { IsServed ledger.old (field_data (field_there at.place)) }
    requires suited { IsSuited ledger.old.max_text (field_data (field_there at.place)) (Some (scalar_data value)) }
    requires decimal { IsDecimal (scalar_data value) }
    ensures ok { OnOk result ((l : Limits) → l.max_text ≡ ledger.old.max_text
        → Wrote (EncodesField l (field_data (field_there at.entry.place)) ledger.old.now (Some (scalar_data value.entry)))
        draft.old draft.new ledger.new.now) }
    ensures err { IfErr result
        (IsTold (RefusesField (field_data (field_there at.entry.place)) ledger.old.now (Some (scalar_data value.entry)))) }
    ensures keeps { Keeps ledger.old ledger.new }
{
    match held_in(ledger, at, value) {
        None => write_chosen(draft, ledger, at.field(), Some(value)),
        Some(held) => {
            note_range(held);
            write_decimals_apart(&mut draft.bytes, at.nullable, value, held)?;
            keep(ledger, at, Operator::Delta, Some(value))?;
            Ok(())
        }
    }
}
