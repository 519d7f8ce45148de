//! The arms of constants of all types, and of ASCII fields: operator and presence are known in each arm, and the op names the entry.
//! Strings are borrowed from where they are: the node, the slot of the entry, or the scratch.

ghost use Rattle.std.specs.Prelude.{◌≡◌, ◌≢◌, ◌<◌, ◌≤◌, Bool, true, false, length, slice_get, Some, IfSome, IfNone};
ghost use Rattle.fast_wire.specs.meaning.Maps.{first_bit};
ghost use Rattle.fast_tree.specs.declared.instructions.Node.{Node};
ghost use Rattle.fast_tree.specs.meaning.Tree.{operator_uses_bit};
ghost use Rattle.fast_dict.specs.meaning.Slots.{slots_dictionary, slots_terms, HoldsAscii};
ghost use Rattle.fast_items.specs.device.FieldsAs.{IsEntryFor};
ghost use Rattle.fast_items.specs.device.TextItems.{text_taken, IsTextSource, IsAsciiAt};
ghost use Rattle.fast_units.specs.device.Words.{HasRoomFor};
ghost use Rattle.fast_program.specs.device.Codes.{field_of, constant_field};
ghost use Rattle.fast_cursor.specs.device.Cursors.{bits_left};
ghost use Rattle.fast_cursor.specs.device.Places.{at_place, HasBits};
ghost use Rattle.fast_loop.specs.device.Arms.{IsAtSpot, IsArmOp, IsOpText, HasWent};
ghost use Rattle.fast_machine.specs.device.Positions.{set_of};

use crate::spot::{Spot, Standing, Went, hand_taken, hand_unsent, stands};
use fast_dict::operators::initial_value;
use fast_dict::{Slots, Store};
use fast_items::ascii_items::{ascii_at, sent_at_once, text_taken, unsent_ascii};
use fast_items::long_ascii::{sent_first_tail, sent_long};
use fast_items::taken::TakenText;
use fast_machine::machine::Machine;
use fast_program::Op;
use fast_stream::Sink;
use fast_template::{FieldInstruction, Operator, Shape, Templates};
use fast_units::scratch::Scratch;
use fast_units::source::ValueSource;
use fast_value::{Kind, Limits};

/// Returns the field of an op.
#[inline(always)]
pub fn field_at<'a>(templates: &'a Templates, op: &Op) -> Option<&'a FieldInstruction>
    requires { op.now.node < length templates.now.nodes.items }
    ensures { IfSome result (λ field. (x : Node) → slice_get templates.now.nodes.items op.now.node ≡ Some x
        → x.shape ≡ Shape.Field field.now) }
{
    match &templates.node(u32::from(op.node)).shape {
        Shape::Field(field) => Some(field),
        _ => None,
    }
}

/// Reads a tail of the op's field that is the first one at its entry, or the first after NULL, if the field has no initial value to which
/// it is joined, and returns its number of bytes. The string is at the entry then.
#[cold]
#[inline(never)]
fn first_tail(
    templates: &Templates,
    slots: &mut Slots,
    scratch: &mut Scratch,
    op: &Op,
    rest: &[u8],
) -> Option<usize>
    requires node { op.now.node < length templates.now.nodes.items }
    requires within { op.now.entry < length (slots_dictionary slots.old) }
    requires room { HasRoomFor slots.old scratch.old }
    ensures unit { IfSome result (λ n. (optional : Bool) → IsOpText (set_of templates.now) op.now Operator.Tail optional
        (slots_terms slots.old).max_text rest.now slots.old slots.new scratch.new.text
        (text_taken Operator.Tail n)) }
    ensures held { IfSome result (λ _. HoldsAscii slots.new op.now.entry) }
    ensures none { IfNone result ((slots.new ≡ slots.old) × (scratch.new ≡ scratch.old)) }
    ensures terms { slots_terms slots.new ≡ slots_terms slots.old }
    ensures capacity { scratch.new.capacity ≡ scratch.old.capacity }
{
    let field = field_at(templates, op)?;
    match &field.initial {
        Some(_) => None,
        None => {
            let bytes = sent_first_tail(slots, scratch, op.entry, rest)?;
            Some(bytes)
        }
    }
}

/// Reads a tail of the op's field that is not read at once, either not a short one or the first one at its entry, and returns its number of
/// bytes. The string is at the entry then.
#[inline(never)]
fn other_tail(
    templates: &Templates,
    slots: &mut Slots,
    scratch: &mut Scratch,
    op: &Op,
    optional: bool,
    rest: &[u8],
) -> Option<usize>
    requires node { op.now.node < length templates.now.nodes.items }
    requires within { op.now.entry < length (slots_dictionary slots.old) }
    requires room { HasRoomFor slots.old scratch.old }
    ensures unit { IfSome result (λ n. IsOpText (set_of templates.now) op.now Operator.Tail optional
        (slots_terms slots.old).max_text rest.now slots.old slots.new scratch.new.text
        (text_taken Operator.Tail n)) }
    ensures held { IfSome result (λ _. HoldsAscii slots.new op.now.entry) }
    ensures none { IfNone result ((slots.new ≡ slots.old) × (scratch.new ≡ scratch.old)) }
    ensures terms { slots_terms slots.new ≡ slots_terms slots.old }
    ensures capacity { scratch.new.capacity ≡ scratch.old.capacity }
{
    let max_text = slots.max_text();
    if let Some(bytes) = sent_long(
        slots,
        scratch,
        op.entry,
        optional,
        Operator::Tail,
        rest,
        max_text,
    ) {
        return Some(bytes);
    }
    let bytes = first_tail(templates, slots, scratch, op, rest)?;
    Some(bytes)
}

/// Reads an ASCII string of the op's field that was sent, if it is in the piece completely. It is then in the scratch, or at the entry that
/// keeps it.
#[inline(always)]
fn ascii_taken(
    templates: &Templates,
    slots: &mut Slots,
    scratch: &mut Scratch,
    op: &Op,
    operator: Operator,
    optional: bool,
    rest: &[u8],
    max_text: usize,
) -> Option<TakenText>
    requires node { op.now.node < length templates.now.nodes.items }
    requires within { IsEntryFor slots.old operator op.now.entry }
    requires limit { (slots_terms slots.old).max_text ≡ max_text }
    requires least { 16 ≤ max_text }
    requires room { HasRoomFor slots.old scratch.old }
    ensures unit { IfSome result (λ r. IsOpText (set_of templates.now) op.now operator optional max_text rest.now
        slots.old slots.new scratch.new.text r) }
    ensures source { IfSome result (λ r. IsTextSource operator r.source) }
    ensures held { IfSome result (λ r. IsAsciiAt slots.new op.now.entry r.source) }
    ensures none { IfNone result ((slots.new ≡ slots.old) × (scratch.new ≡ scratch.old)) }
    ensures terms { slots_terms slots.new ≡ slots_terms slots.old }
    ensures capacity { scratch.new.capacity ≡ scratch.old.capacity }
{
    if let Some(taken) = sent_at_once(slots, scratch, op.entry, optional, operator, rest) {
        return Some(taken);
    }
    match operator {
        Operator::Tail => {
            let bytes = other_tail(templates, slots, scratch, op, optional, rest)?;
            Some(TakenText {
                source: ValueSource::Entry,
                from: 0,
                bytes,
            })
        }
        _ => {
            let bytes = sent_long(slots, scratch, op.entry, optional, operator, rest, max_text)?;
            Some(text_taken(operator, bytes))
        }
    }
}

/// Decodes a mandatory constant: its initial value, for which no bit and no byte is read.
#[inline(always)]
pub fn constant_arm<'t, S: Sink>(
    machine: &mut Machine<'t>,
    templates: &'t Templates,
    limits: Limits,
    spot: &mut Spot<'t, '_>,
    op: &Op,
    sink: &mut S,
) -> Went
    requires spot { IsAtSpot (set_of templates.now) limits machine.old spot.old.place }
    requires op { IsArmOp (set_of templates.now) spot.old.place op.now constant_field }
    ensures went { HasWent S.takes S.stops (set_of templates.now) limits machine.old spot.old sink.old result sink.new
        machine.new spot.new }
{
    let Some(field) = field_at(templates, op) else {
        return Went::Declined;
    };
    let value = initial_value(field);
    hand_unsent(&mut machine.turns, spot, op.node, false, value, sink)
}

/// Decodes an ASCII field under an operator other than delta.
#[inline(always)]
pub fn ascii_arm<'t, S: Sink>(
    machine: &mut Machine<'t>,
    templates: &'t Templates,
    limits: Limits,
    spot: &mut Spot<'t, '_>,
    op: &Op,
    operator: Operator,
    optional: bool,
    sink: &mut S,
) -> Went
    requires no_constant { operator ≢ Operator.Constant }
    requires no_delta { operator ≢ Operator.Delta }
    requires spot { IsAtSpot (set_of templates.now) limits machine.old spot.old.place }
    requires op { IsArmOp (set_of templates.now) spot.old.place op.now (field_of Kind.Ascii operator optional) }
    ensures went { HasWent S.takes S.stops (set_of templates.now) limits machine.old spot.old sink.old result sink.new
        machine.new spot.new }
{
    let has_bit = operator.uses_bit(optional);
    match stands(&spot.place, has_bit) {
        Standing::Spent => Went::Declined,
        Standing::Unsent => {
            unsent_ascii_arm(
                machine, templates, limits, spot, op, operator, optional, sink,
            )
        }
        Standing::Sent => {
            match ascii_taken(
                templates,
                &mut machine.slots,
                &mut machine.text,
                op,
                operator,
                optional,
                spot.rest.bytes,
                limits.max_text,
            ) {
                Some(taken) => {
                    let text = machine.text.as_slice();
                    let value = ascii_at(&machine.slots, op.entry, text, taken.source);
                    hand_taken(
                        &mut machine.turns,
                        spot,
                        op.node,
                        has_bit,
                        value,
                        taken.bytes,
                        sink,
                    )
                }
                None => Went::Declined,
            }
        }
    }
}

/// Decodes an ASCII field that uses a presence bit, which is clear.
#[inline(always)]
fn unsent_ascii_arm<'t, S: Sink>(
    machine: &mut Machine<'t>,
    templates: &'t Templates,
    limits: Limits,
    spot: &mut Spot<'t, '_>,
    op: &Op,
    operator: Operator,
    optional: bool,
    sink: &mut S,
) -> Went
    requires uses { operator_uses_bit operator optional ≡ true }
    requires more { HasBits spot.old.place }
    requires clear { first_bit (bits_left (at_place machine.old.cursor spot.old.place)) ≡ false }
    requires spot { IsAtSpot (set_of templates.now) limits machine.old spot.old.place }
    requires op { IsArmOp (set_of templates.now) spot.old.place op.now (field_of Kind.Ascii operator optional) }
    ensures went { HasWent S.takes S.stops (set_of templates.now) limits machine.old spot.old sink.old result sink.new
        machine.new spot.new }
{
    match operator {
        Operator::Default => {
            initial_arm(
                machine,
                templates,
                limits,
                spot,
                op,
                Kind::Ascii,
                optional,
                sink,
            )
        }
        Operator::Copy | Operator::Tail => {
            match unsent_ascii(&machine.slots, op.entry, optional) {
                Some(source) => {
                    let text = machine.text.as_slice();
                    let value = ascii_at(&machine.slots, op.entry, text, source);
                    hand_unsent(&mut machine.turns, spot, op.node, true, value, sink)
                }
                None => Went::Declined,
            }
        }
        _ => Went::Declined,
    }
}

/// Decodes a field under default of which nothing is sent: its initial value, borrowed from the node.
#[inline(always)]
pub fn initial_arm<'t, S: Sink>(
    machine: &mut Machine<'t>,
    templates: &'t Templates,
    limits: Limits,
    spot: &mut Spot<'t, '_>,
    op: &Op,
    kind: Kind,
    optional: bool,
    sink: &mut S,
) -> Went
    requires more { HasBits spot.old.place }
    requires clear { first_bit (bits_left (at_place machine.old.cursor spot.old.place)) ≡ false }
    requires spot { IsAtSpot (set_of templates.now) limits machine.old spot.old.place }
    requires op { IsArmOp (set_of templates.now) spot.old.place op.now (field_of kind Operator.Default optional) }
    ensures went { HasWent S.takes S.stops (set_of templates.now) limits machine.old spot.old sink.old result sink.new
        machine.new spot.new }
{
    let Some(field) = field_at(templates, op) else {
        return Went::Declined;
    };
    let value = initial_value(field);
    hand_unsent(&mut machine.turns, spot, op.node, true, value, sink)
}
