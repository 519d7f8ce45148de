//! The content that an encoder sends for a value.

pub mod common;
pub mod items;

ghost use Rattle.std.specs.Prelude.{◌↔◌, Bool, true, IsTrue, IfSome, IfNone, option_map};
ghost use Rattle.fast_value.specs.meaning.Values.{scalar_data};
ghost use Rattle.fast_tree.specs.meaning.Nodes.{field_data};
ghost use Rattle.fast_dict.specs.meaning.Operators.{Sent as SentData};
ghost use Rattle.fast_dict.specs.meaning.Previous.{previous_data};
ghost use Rattle.fast_dict.specs.meaning.Rule.{Rule, GoesUnsent};
ghost use Rattle.fast_dict.specs.meaning.Sending.{sent_data};

use crate::operators::{Sent, decide};
use crate::previous::Previous;
use common::is_same_value;
use fast_tree::FieldInstruction;
use fast_value::Scalar;
use items::item_for;

/// The presence bit and the content that an encoder sends for a field.
#[derive(Clone, Copy, Debug)]
pub struct Choice<'a> {
    /// The presence bit, true if the instruction uses none.
    pub bit: bool,
    /// The content of the stream.
    pub item: Sent<'a>,
}

/// Chooses what is sent for a value, or for absence, under a previous value: nothing if the clear presence bit gives exactly that, and else
/// the value, its delta or its tail. `None` if neither will do.
pub fn choose<'a, 'p>(
    field: &'p FieldInstruction,
    previous: Previous<'p>,
    value: Option<Scalar<'a>>,
) -> Option<Choice<'a>>
    ensures some { IfSome result (λ c. Rule (field_data field.now) (previous_data previous.entry)
        (option_map scalar_data value.entry) c.bit (sent_data c.item)) }
    ensures none { IfNone result ((bit : Bool) (item : SentData) → ¬ (Rule (field_data field.now)
        (previous_data previous.entry) (option_map scalar_data value.entry) bit item)) }
{
    if goes_unsent(field, previous, value) {
        return Some(Choice {
            bit: false,
            item: Sent::Nothing,
        });
    }
    let item = item_for(field, previous, value)?;
    Some(Choice { bit: true, item })
}

/// Returns whether the clear presence bit gives exactly this value or absence.
fn goes_unsent<'p>(
    field: &'p FieldInstruction,
    previous: Previous<'p>,
    value: Option<Scalar<'_>>,
) -> bool
    ensures { IsTrue result ↔ GoesUnsent (field_data field.now) (previous_data previous.entry)
        (option_map scalar_data value.entry) }
{
    if !field.uses_bit() {
        return false;
    }
    match decide(field, previous, false, Sent::Nothing) {
        Ok(outcome) => is_same_value(outcome.value, value),
        Err(_) => false,
    }
}
