//! The body of a message: slots, groups and sequences.

ghost use Rattle.std.specs.Prelude.{◌<◌, length, Some, OnOk, IfErr};
ghost use Rattle.fast_value.specs.meaning.Views.{item_data, slots_data};
ghost use Rattle.fast_template.specs.meaning.Flat.{nodes_of};
ghost use Rattle.fast_tree.specs.meaning.Numbers.{AreBelow};
ghost use Rattle.fast_tree.specs.meaning.Nodes.{body_among};
ghost use Rattle.fast_spelling.specs.device.Drafts.{IsTold};
ghost use Rattle.fast_spelling.specs.meaning.Encoding.{Encodes, EncodesBody};
ghost use Rattle.fast_spelling.specs.device.Fields.{Wrote};
ghost use Rattle.fast_spelling.specs.device.Nodes.{instruction_in, IsReady, Keeps};
ghost use Rattle.fast_spelling.specs.meaning.Refusals.{Refuses, RefusesBody};
ghost use Rattle.fast_spelling.specs.meaning.Suiting.{Suits, SuitsBody, IsWithinLimits, AreWithinLimits};

use crate::draft::Draft;
use crate::faults::EncodeFault;
use crate::fields::write_field;
use crate::ledger::Ledger;
use crate::parts::{write_absent, write_decimal};
use fast_template::{Shape, Templates};
use fast_value::{Item, Limits, Scalar};

/// Writes the slots of the instructions of these nodes.
///
/// # Errors
///
/// E3, R9, or `Memory` if an allocation failed. The draft is then unusable.
#[cycle(write)]
pub fn write_body(
    templates: &Templates,
    limits: Limits,
    body: &[u32],
    slots: &[Option<Item>],
    draft: &mut Draft,
    ledger: &mut Ledger,
) -> Result<(), EncodeFault>
    requires nodes { AreBelow (length (nodes_of templates.now)) body.now }
    requires ready { IsReady templates.now limits ledger.old }
    requires suits { SuitsBody (body_among (nodes_of templates.now) body.now) (slots_data slots.now) }
    requires fits { AreWithinLimits limits (slots_data slots.now) }
    ensures ok { OnOk result
        (Wrote (EncodesBody limits (body_among (nodes_of templates.now) body.now) ledger.old.now (slots_data slots.now))
        draft.old draft.new ledger.new.now) }
    ensures err { IfErr result
        (IsTold (RefusesBody limits (body_among (nodes_of templates.now) body.now) ledger.old.now
        (slots_data slots.now))) }
    ensures keeps { Keeps ledger.old ledger.new }
{
    for (i, slot) in slots.iter().enumerate() {
        if i >= body.len() {
            return Ok(());
        }
        let node = body[i];
        match slot {
            None => write_absent(templates, limits, node, draft, ledger)?,
            Some(item) => write_item(templates, limits, node, item, draft, ledger)?,
        }
    }
    Ok(())
}

/// Writes an item of the instruction of a node.
#[cycle(write)]
#[inline(always)]
fn write_item(
    templates: &Templates,
    limits: Limits,
    node: u32,
    item: &Item,
    draft: &mut Draft,
    ledger: &mut Ledger,
) -> Result<(), EncodeFault>
    requires node { node < length (nodes_of templates.now) }
    requires ready { IsReady templates.now limits ledger.old }
    requires suits { Suits (instruction_in (nodes_of templates.now) node) (Some (item_data item.now)) }
    requires fits { IsWithinLimits limits (item_data item.now) }
    ensures ok { OnOk result
        (Wrote (Encodes limits (instruction_in (nodes_of templates.now) node) ledger.old.now
        (Some (item_data item.now))) draft.old draft.new ledger.new.now) }
    ensures err { IfErr result
        (IsTold (Refuses limits (instruction_in (nodes_of templates.now) node) ledger.old.now
        (Some (item_data item.now)))) }
    ensures keeps { Keeps ledger.old ledger.new }
{
    match (&templates.node(node).shape, item) {
        (Shape::Field(field), Item::One(value)) => {
            write_field(draft, ledger, field, Some(value.as_scalar()))
        }
        (Shape::Decimal { exponent, mantissa }, Item::One(value)) => {
            let operators = (exponent.operator, mantissa.operator);
            write_decimal(exponent, mantissa, operators, value, draft, ledger)
        }
        (Shape::Group { optional, body }, Item::Group(slots)) => {
            draft.push_bit_if(*optional, true)?;
            let mark = draft.mark();
            write_body(templates, limits, body, slots, draft, ledger)?;
            draft.close(mark, templates.segment_bits(node) > 0)
        }
        (Shape::Sequence { length, body }, Item::Sequence(rows)) => {
            write_field(draft, ledger, length, Some(Scalar::U(rows.len() as u64)))?;
            for row in rows {
                let mark = draft.mark();
                write_body(templates, limits, body, row, draft, ledger)?;
                draft.close(mark, templates.segment_bits(node) > 0)?;
            }
            Ok(())
        }
        (Shape::Field(_) | Shape::Decimal { .. }, Item::Group(_) | Item::Sequence(_))
        | (Shape::Group { .. }, Item::One(_) | Item::Sequence(_))
        | (Shape::Sequence { .. }, Item::One(_) | Item::Group(_)) => Err(EncodeFault::E3),
    }
}
