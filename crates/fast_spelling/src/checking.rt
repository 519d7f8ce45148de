//! Encoding in one pass: each value is checked as it is written. If this refuses a message, `suiting`, `measuring` and `writing` process it
//! again from the start, to find the fault that comes first.

mod absences;
mod fields;
mod nodes;
mod values;

ghost use Rattle.std.specs.Prelude.{◌≡◌, ◌+◌, length, Some, OnOk, IsTrue};
ghost use Rattle.fast_value.specs.meaning.Messages.{total};
ghost use Rattle.fast_value.specs.meaning.Views.{item_data, message_data, slots_data};
ghost use Rattle.fast_template.specs.meaning.Flat.{nodes_of, tree_of};
ghost use Rattle.fast_tree.specs.meaning.Numbers.{AreBelow};
ghost use Rattle.fast_tree.specs.meaning.Nodes.{body_among};
ghost use Rattle.fast_spelling.specs.device.Checked.{IsAccepted};
ghost use Rattle.fast_spelling.specs.meaning.Encoding.{Encodes, EncodesBody, EncodesMessage};
ghost use Rattle.fast_spelling.specs.device.Fields.{Wrote, WroteSegment};
ghost use Rattle.fast_spelling.specs.device.Forms.{body_steps, IsIn};
ghost use Rattle.fast_spelling.specs.device.Nodes.{instruction_in, IsReady, Keeps};
ghost use Rattle.fast_spelling.specs.meaning.Suiting.{IsKnownAs, SuitsTemplate, SuitsBody, FitsLimits, AreWithinLimits};
ghost use Rattle.fast_tree.specs.meaning.Tree.{has_map as needs_map};

use crate::faults::EncodeFault;
use crate::fields::write_field;
use crate::forms::{BodyStep, Form};
use crate::messages::{reset_if, write_identifier};
use crate::plan::{Plan, Work};
use crate::suiting::has_slot_for_each;
use absences::try_none;
use fast_template::{Operator, Shape};
use fast_value::{Item, Kind, Message, Scalar};
use fields::{
    try_chosen, try_constant, try_copied, try_copied_other, try_default, try_difference, try_next,
    try_other, try_parts, try_plain, try_plain_unsigned,
};
use nodes::form_at;

/// Writes a message whose template has this identifier, if it suits the template and the limits. It replaces the content of the draft.
///
/// # Errors
///
/// An error of any code if anything was refused; the code says nothing about which fault comes first. The draft is then unusable.
pub fn try_message(
    plan: &Plan<'_>,
    id: u32,
    message: &Message,
    work: &mut Work,
) -> Result<(), EncodeFault>
    requires known { IsKnownAs (tree_of plan.now.templates.now) (message_data message.now) id }
    requires ready { IsReady plan.now.templates.now plan.now.limits work.old.ledger }
    ensures suits { OnOk result (SuitsTemplate (tree_of plan.now.templates.now) (message_data message.now)) }
    ensures fits { OnOk result (FitsLimits plan.now.limits (slots_data message.now.items.items)) }
    ensures ok { OnOk result
        (EncodesMessage (tree_of plan.now.templates.now) plan.now.limits work.old.ledger.now (message_data message.now)
        work.new.draft.bytes.items work.new.ledger.now) }
    ensures keeps { Keeps work.old.ledger work.new.ledger }
{
    let template = plan.templates.template(message.template);
    work.draft.begin()?;
    write_identifier(
        plan.templates,
        plan.limits,
        id,
        &mut work.draft,
        &mut work.ledger,
    )?;
    reset_if(template.reset, &mut work.ledger);
    work.room = plan.limits.max_total;
    if !try_body(
        plan,
        &template.body,
        plan.root(message.template),
        &message.items,
        work,
    ) {
        return Err(EncodeFault::E2);
    }
    work.draft.finish()
}

/// Writes the slots of the instructions of these nodes, if they suit their template and keep to the limits. The elements of their sequences
/// count against the room for elements. `steps` are the steps of the nodes, in the same order: they tell which code writes a value of a node,
/// and what its absence writes.
///
/// Returns false if anything was refused, with any fault; the draft is then unusable.
#[cycle(check)]
pub fn try_body(
    plan: &Plan<'_>,
    body: &[u32],
    steps: &[BodyStep],
    slots: &[Option<Item>],
    work: &mut Work,
) -> bool
    requires nodes { AreBelow (length (nodes_of plan.now.templates.now)) body.now }
    requires steps { steps.now ≡ body_steps (nodes_of plan.now.templates.now) body.now }
    requires ready { IsReady plan.now.templates.now plan.now.limits work.old.ledger }
    ensures suits { IsTrue result
        → (SuitsBody (body_among (nodes_of plan.now.templates.now) body.now) (slots_data slots.now)) }
    ensures fits { IsTrue result
        → (AreWithinLimits plan.now.limits (slots_data slots.now)
        × (work.new.room + total (slots_data slots.now) ≡ work.old.room)) }
    ensures ok { IsTrue result
        → (Wrote (EncodesBody plan.now.limits (body_among (nodes_of plan.now.templates.now) body.now)
        work.old.ledger.now (slots_data slots.now)) work.old.draft work.new.draft work.new.ledger.now) }
    ensures keeps { Keeps work.old.ledger work.new.ledger }
{
    if !has_slot_for_each(body, slots) {
        return false;
    }
    for (i, slot) in slots.iter().enumerate() {
        let here = &steps[i];
        let Some(item) = slot else {
            if try_none(plan, here, work).is_err() {
                return false;
            }
            continue;
        };
        let Item::One(value) = item else {
            if !try_item(plan, here, item, work) {
                return false;
            }
            continue;
        };
        let done = match form_at(plan, here) {
            Form::PlainUInt32 => try_plain_unsigned(plan, here, Kind::UInt32, value, work),
            Form::PlainInt32 => try_plain(plan, here, Kind::Int32, value, work),
            Form::PlainUInt64 => try_plain_unsigned(plan, here, Kind::UInt64, value, work),
            Form::PlainInt64 => try_plain(plan, here, Kind::Int64, value, work),
            Form::ConstantUInt32 => try_constant(plan, here, Kind::UInt32, value, work),
            Form::ConstantInt32 => try_constant(plan, here, Kind::Int32, value, work),
            Form::ConstantUInt64 => try_constant(plan, here, Kind::UInt64, value, work),
            Form::ConstantInt64 => try_constant(plan, here, Kind::Int64, value, work),
            Form::DefaultUInt32 => try_default(plan, here, Kind::UInt32, value, work),
            Form::DefaultInt32 => try_default(plan, here, Kind::Int32, value, work),
            Form::DefaultUInt64 => try_default(plan, here, Kind::UInt64, value, work),
            Form::DefaultInt64 => try_default(plan, here, Kind::Int64, value, work),
            Form::CopyUInt32 => try_copied(plan, here, Kind::UInt32, value, work),
            Form::CopyInt32 => try_copied(plan, here, Kind::Int32, value, work),
            Form::CopyUInt64 => try_copied(plan, here, Kind::UInt64, value, work),
            Form::CopyInt64 => try_copied(plan, here, Kind::Int64, value, work),
            Form::IncrementUInt32 => try_next(plan, here, Kind::UInt32, value, work),
            Form::IncrementInt32 => try_next(plan, here, Kind::Int32, value, work),
            Form::IncrementUInt64 => try_next(plan, here, Kind::UInt64, value, work),
            Form::IncrementInt64 => try_next(plan, here, Kind::Int64, value, work),
            Form::DeltaUInt32 => try_difference(plan, here, Kind::UInt32, value, work),
            Form::DeltaInt32 => try_difference(plan, here, Kind::Int32, value, work),
            Form::DeltaUInt64 => try_difference(plan, here, Kind::UInt64, value, work),
            Form::DeltaInt64 => try_difference(plan, here, Kind::Int64, value, work),
            Form::PlainAscii => try_plain(plan, here, Kind::Ascii, value, work),
            Form::ConstantAscii => try_constant(plan, here, Kind::Ascii, value, work),
            Form::DefaultAscii => try_default(plan, here, Kind::Ascii, value, work),
            Form::CopyAscii => try_copied_other(plan, here, Kind::Ascii, value, work),
            Form::TailAscii => try_chosen(plan, here, Kind::Ascii, Operator::Tail, value, work),
            Form::DeltaAscii => try_chosen(plan, here, Kind::Ascii, Operator::Delta, value, work),
            Form::PlainUnicode => try_plain(plan, here, Kind::Unicode, value, work),
            Form::DeltaUnicode => try_chosen(
                plan,
                here,
                Kind::Unicode,
                Operator::Delta,
                value,
                work,
            ),
            Form::PlainBytes => try_plain(plan, here, Kind::Bytes, value, work),
            Form::TailBytes => try_chosen(plan, here, Kind::Bytes, Operator::Tail, value, work),
            Form::PlainDecimal => try_plain(plan, here, Kind::Decimal, value, work),
            Form::CopyDecimal => try_copied_other(plan, here, Kind::Decimal, value, work),
            Form::DeltaDecimal => try_chosen(
                plan,
                here,
                Kind::Decimal,
                Operator::Delta,
                value,
                work,
            ),
            Form::DefaultParts => try_parts(plan, here, Operator::Default, value, work),
            Form::CopyParts => try_parts(plan, here, Operator::Copy, value, work),
            Form::Other => try_other(plan, here, value, work),
        };
        if done.is_err() {
            return false;
        }
    }
    true
}

/// Writes a group or a sequence of a node's instruction. Returns false if anything was refused; the draft is then unusable.
#[cycle(check)]
#[inline(never)]
fn try_item(plan: &Plan<'_>, here: &BodyStep, item: &Item, work: &mut Work) -> bool
    requires node { IsIn (nodes_of plan.now.templates.now) here.now }
    requires ready { IsReady plan.now.templates.now plan.now.limits work.old.ledger }
    ensures accepted { IsTrue result
        → IsAccepted plan.now.limits (instruction_in (nodes_of plan.now.templates.now) here.now.node) (Some (item_data item.now))
        work.old.room work.new.room }
    ensures ok { IsTrue result
        → Wrote (Encodes plan.now.limits (instruction_in (nodes_of plan.now.templates.now) here.now.node) work.old.ledger.now
        (Some (item_data item.now))) work.old.draft work.new.draft work.new.ledger.now }
    ensures keeps { Keeps work.old.ledger work.new.ledger }
{
    match (&plan.templates.node(here.node).shape, item) {
        (Shape::Group { optional, body }, Item::Group(slots)) => {
            if work.draft.push_bit_if(*optional, true).is_err() {
                return false;
            }
            let has_map = plan.templates.segment_bits(here.node) > 0;
            try_segment(plan, has_map, body, plan.body(here.node), slots, work).is_ok()
        }
        (Shape::Sequence { length, body }, Item::Sequence(rows)) => {
            if rows.len() > plan.limits.max_elements as usize || rows.len() > work.room as usize {
                return false;
            }
            let count = Some(Scalar::U(rows.len() as u64));
            if write_field(&mut work.draft, &mut work.ledger, length, count).is_err() {
                return false;
            }
            let has_map = plan.templates.segment_bits(here.node) > 0;
            work.room -= rows.len() as u32;
            let steps = plan.body(here.node);
            for row in rows {
                if try_segment(plan, has_map, body, steps, row, work).is_err() {
                    return false;
                }
            }
            true
        }
        _ => false,
    }
}

/// Writes the presence map and the slots of a group, or of an element of a sequence. `steps` are the steps of the nodes of its body.
#[cycle(check)]
#[inline(always)]
fn try_segment(
    plan: &Plan<'_>,
    has_map: bool,
    body: &[u32],
    steps: &[BodyStep],
    slots: &[Option<Item>],
    work: &mut Work,
) -> Result<(), EncodeFault>
    requires map { has_map ≡ needs_map (body_among (nodes_of plan.now.templates.now) body.now) }
    requires nodes { AreBelow (length (nodes_of plan.now.templates.now)) body.now }
    requires steps { steps.now ≡ body_steps (nodes_of plan.now.templates.now) body.now }
    requires ready { IsReady plan.now.templates.now plan.now.limits work.old.ledger }
    ensures suits { OnOk result
        (SuitsBody (body_among (nodes_of plan.now.templates.now) body.now) (slots_data slots.now)) }
    ensures fits { OnOk result
        (AreWithinLimits plan.now.limits (slots_data slots.now)
        × (work.new.room + total (slots_data slots.now) ≡ work.old.room)) }
    ensures ok { OnOk result
        (WroteSegment plan.now.limits (body_among (nodes_of plan.now.templates.now) body.now) work.old.ledger.now
        (slots_data slots.now) work.old.draft work.new.draft work.new.ledger.now) }
    ensures keeps { Keeps work.old.ledger work.new.ledger }
{
    let mark = work.draft.open(has_map)?;
    if !try_body(plan, body, steps, slots, work) {
        return Err(EncodeFault::E2);
    }
    work.draft.seal(mark, has_map)
}
