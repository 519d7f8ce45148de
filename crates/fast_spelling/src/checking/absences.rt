//! Absent fields, groups and sequences, checked as they are written.

ghost use Rattle.std.specs.Prelude.{None, ◌≡◌, OnOk};
ghost use Rattle.fast_template.specs.meaning.Flat.{nodes_of};
ghost use Rattle.fast_spelling.specs.meaning.Encoding.{Encodes};
ghost use Rattle.fast_spelling.specs.declared.forms.Absence.TheVariants.{ByEntry};
ghost use Rattle.fast_spelling.specs.device.Fields.{Wrote};
ghost use Rattle.fast_spelling.specs.device.Forms.{IsIn};
ghost use Rattle.fast_spelling.specs.device.Nodes.{instruction_in, IsReady, Keeps};
ghost use Rattle.fast_spelling.specs.meaning.Suiting.{Suits};

use crate::faults::EncodeFault;
use crate::forms::{Absence, BodyStep};
use crate::integers::push_byte;
use crate::items::NULL;
use crate::parts::write_absent;
use crate::plan::{Plan, Work};
use crate::suiting::may_be_absent;
use fast_dict::Previous;

/// Writes the absence of a node's field, group or sequence.
pub fn try_none(plan: &Plan<'_>, here: &BodyStep, work: &mut Work) -> Result<(), EncodeFault>
    requires node { IsIn (nodes_of plan.now.templates.now) here.now }
    requires ready { IsReady plan.now.templates.now plan.now.limits work.old.ledger }
    ensures suits { OnOk result (Suits (instruction_in (nodes_of plan.now.templates.now) here.now.node) None) }
    ensures ok { OnOk result
        (Wrote (Encodes plan.now.limits (instruction_in (nodes_of plan.now.templates.now) here.now.node) work.old.ledger.now
        None) work.old.draft work.new.draft work.new.ledger.now) }
    ensures keeps { Keeps work.old.ledger work.new.ledger }
    ensures room { work.new.room ≡ work.old.room }
{
    match here.step.absence {
        Absence::Refused => Err(EncodeFault::E2),
        Absence::Null => Ok(push_byte(&mut work.draft.bytes, NULL)?),
        Absence::Clear => Ok(work.draft.push_bit(false)?),
        Absence::ByEntry => try_by_entry(plan, here, work),
        Absence::Chosen => try_absence(plan, here, work),
    }
}

/// Writes an absence for which the entry of the node's head decides: if that is empty, nothing is sent, and NULL if it holds a value, after
/// which it is empty. If it is undefined, the rule chooses what is sent.
#[inline(always)]
fn try_by_entry(plan: &Plan<'_>, here: &BodyStep, work: &mut Work) -> Result<(), EncodeFault>
    requires node { IsIn (nodes_of plan.now.templates.now) here.now }
    requires ready { IsReady plan.now.templates.now plan.now.limits work.old.ledger }
    requires by_entry { here.now.step.absence ≡ ByEntry }
    ensures suits { OnOk result (Suits (instruction_in (nodes_of plan.now.templates.now) here.now.node) None) }
    ensures ok { OnOk result
        (Wrote (Encodes plan.now.limits (instruction_in (nodes_of plan.now.templates.now) here.now.node) work.old.ledger.now
        None) work.old.draft work.new.draft work.new.ledger.now) }
    ensures keeps { Keeps work.old.ledger work.new.ledger }
    ensures room { work.new.room ≡ work.old.room }
{
    match work.ledger.get(here.step.entry as usize) {
        Previous::Empty => Ok(work.draft.push_bit(false)?),
        Previous::Assigned(_, _) => {
            work.draft.push_bit(true)?;
            push_byte(&mut work.draft.bytes, NULL)?;
            work.ledger.set_empty(here.step.entry as usize);
            Ok(())
        }
        Previous::Undefined => try_absence(plan, here, work),
    }
}

/// Writes the absence of any node, by the rule that chooses what is sent.
#[inline(never)]
fn try_absence(plan: &Plan<'_>, here: &BodyStep, work: &mut Work) -> Result<(), EncodeFault>
    requires node { IsIn (nodes_of plan.now.templates.now) here.now }
    requires ready { IsReady plan.now.templates.now plan.now.limits work.old.ledger }
    ensures suits { OnOk result (Suits (instruction_in (nodes_of plan.now.templates.now) here.now.node) None) }
    ensures ok { OnOk result
        (Wrote (Encodes plan.now.limits (instruction_in (nodes_of plan.now.templates.now) here.now.node) work.old.ledger.now
        None) work.old.draft work.new.draft work.new.ledger.now) }
    ensures keeps { Keeps work.old.ledger work.new.ledger }
    ensures room { work.new.room ≡ work.old.room }
{
    if !may_be_absent(plan.templates, here.node) {
        return Err(EncodeFault::E2);
    }
    write_absent(
        plan.templates,
        plan.limits,
        here.node,
        &mut work.draft,
        &mut work.ledger,
    )
}
