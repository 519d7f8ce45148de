//! Whole messages: presence map, template identifier and instructions.

ghost use Rattle.std.specs.Prelude.{◌≡◌, if◌then◌else◌, Some, OnOk, IfErr};
ghost use Rattle.fast_value.specs.meaning.Views.{message_data, slots_data};
ghost use Rattle.fast_value.specs.meaning.Kinds.{U};
ghost use Rattle.fast_tree.specs.meaning.Tree.{identifier};
ghost use Rattle.fast_template.specs.meaning.Flat.{tree_of};
ghost use Rattle.fast_dict.specs.meaning.Dictionary.{reset};
ghost use Rattle.fast_spelling.specs.declared.faults.EncodeFault.TheVariants.{Memory};
ghost use Rattle.fast_spelling.specs.device.Drafts.{IsTold};
ghost use Rattle.fast_spelling.specs.meaning.Encoding.{EncodesField, EncodesMessage};
ghost use Rattle.fast_spelling.specs.device.Fields.{Wrote};
ghost use Rattle.fast_spelling.specs.device.Nodes.{IsReady, Keeps};
ghost use Rattle.fast_spelling.specs.meaning.Refusals.{RefusesMessage};
ghost use Rattle.fast_spelling.specs.meaning.Suiting.{IsKnownAs, SuitsTemplate, FitsLimits};

use crate::draft::Draft;
use crate::faults::EncodeFault;
use crate::integers::write_unsigned_as;
use crate::ledger::Ledger;
use crate::writing::write_body;
use fast_template::Templates;
use fast_value::{Kind, Limits, Message, Scalar};

/// Writes a message that suits its template, which has this identifier, and the limits. It replaces the content of the draft.
///
/// # Errors
///
/// E3, R9, or `Memory` if an allocation failed. The draft is then unusable.
pub fn write_message(
    templates: &Templates,
    limits: Limits,
    id: u32,
    message: &Message,
    draft: &mut Draft,
    ledger: &mut Ledger,
) -> Result<(), EncodeFault>
    requires known { IsKnownAs (tree_of templates.now) (message_data message.now) id }
    requires ready { IsReady templates.now limits ledger.old }
    requires suits { SuitsTemplate (tree_of templates.now) (message_data message.now) }
    requires fits { FitsLimits limits (slots_data message.now.items.items) }
    ensures ok { OnOk result
        (EncodesMessage (tree_of templates.now) limits ledger.old.now (message_data message.now) draft.new.bytes.items
        ledger.new.now) }
    ensures err { IfErr result
        (IsTold (RefusesMessage (tree_of templates.now) limits ledger.old.now (message_data message.now))) }
    ensures keeps { Keeps ledger.old ledger.new }
{
    let template = templates.template(message.template);
    draft.clear();
    let mark = draft.mark();
    write_identifier(templates, limits, id, draft, ledger)?;
    reset_if(template.reset, ledger);
    write_body(
        templates,
        limits,
        &template.body,
        &message.items,
        draft,
        ledger,
    )?;
    draft.close(mark, true)
}

/// Writes the template identifier (FAST 1.1, Transfer Encoding, Template Identifier): a mandatory `uInt32` with the operator copy, at the
/// first entry. So it is written unless the entry holds the same one.
#[inline(always)]
pub fn write_identifier(
    templates: &Templates,
    limits: Limits,
    id: u32,
    draft: &mut Draft,
    ledger: &mut Ledger,
) -> Result<(), EncodeFault>
    requires ready { IsReady templates.now limits ledger.old }
    ensures ok { OnOk result
        (Wrote (EncodesField limits identifier ledger.old.now (Some (U id))) draft.old draft.new ledger.new.now) }
    ensures err { IfErr result (λ c. c ≡ Memory) }
    ensures keeps { Keeps ledger.old ledger.new }
{
    let number = u64::from(id);
    if ledger.holds(0, Kind::UInt32, number) {
        return Ok(draft.push_bit(false)?);
    }
    draft.push_bit(true)?;
    write_unsigned_as(&mut draft.bytes, false, number)?;
    Ok(ledger.set(0, Kind::UInt32, Scalar::U(number))?)
}

/// Resets the dictionary if `resets`, as a template with the key `reset` does after the template identifier.
pub fn reset_if(resets: bool, ledger: &mut Ledger)
    ensures now { ledger.new.now ≡ (if resets then reset ledger.old.now else ledger.old.now) }
    ensures keeps { Keeps ledger.old ledger.new }
{
    if resets {
        ledger.reset_others();
    }
}
