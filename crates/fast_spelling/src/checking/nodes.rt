//! The field of a node, and the part of it that is known from the node's step.

ghost use Rattle.std.specs.Prelude.{slice_get, ℕ, ◌≡◌, Some};
ghost use Rattle.fast_template.specs.meaning.Flat.{field_data, nodes_of, tree_of};
ghost use Rattle.fast_spelling.specs.device.Places.{field_there};
ghost use Rattle.fast_spelling.specs.device.Forms.{Says, IsFieldAt, IsIn};
ghost use Rattle.fast_spelling.specs.device.Nodes.{instruction_in};
ghost use Rattle.fast_tree.specs.declared.instructions.Node.{Node};
ghost use Rattle.fast_tree.specs.declared.instructions.Shape.TheVariants.{Field};
ghost use Rattle.fast_tree.specs.meaning.Usable.{IsUsable};
ghost use Rattle.fast_tree.specs.meaning.Tree.{Label, field};
ghost use Rattle.fast_dict.specs.meaning.EntryTexts.{HasLongInitial, IsLongText};

use crate::fields::keeps;
use crate::forms::{BodyStep, Form};
use crate::known::{Known, Place};
use crate::plan::Plan;
use fast_template::{FieldInstruction, Operator, Shape};
use fast_value::Kind;

/// Returns the form of a node.
#[inline(always)]
pub fn form_at(plan: &Plan<'_>, here: &BodyStep) -> Form
    requires { IsIn (nodes_of plan.now.templates.now) here.now }
    ensures { (x : Node) → slice_get (nodes_of plan.now.templates.now) here.now.node ≡ Some x → Says result x.shape }
{
    here.step.form
}

/// Returns the field of a node, which must be one.
#[inline(always)]
pub fn field_at<'t>(
    plan: &Plan<'t>,
    here: &BodyStep,
    kind: Kind,
    operator: Operator,
) -> &'t FieldInstruction
    requires node { IsIn (nodes_of plan.now.templates.now) here.now }
    requires form { IsFieldAt (nodes_of plan.now.templates.now) here.now.node kind operator }
    ensures kind { result.now.kind ≡ kind }
    ensures operator { result.now.operator ≡ operator }
    ensures shape { (x : Node) → slice_get (nodes_of plan.now.templates.now) here.now.node ≡ Some x
        → x.shape ≡ Field result.now }
    ensures instruction { (at : Label)
        × (instruction_in (nodes_of plan.now.templates.now) here.now.node ≡ field at (field_data result.now)) }
    ensures usable { IsUsable (tree_of plan.now.templates.now).entries (field_data result.now) }
    ensures initial { (m : ℕ) → ¬ (HasLongInitial m (nodes_of plan.now.templates.now))
        → ¬ (IsLongText m (field_data result.now).initial) }
{
    match &plan.templates.node(here.node).shape {
        Shape::Field(field) => field,
        Shape::Decimal { .. } | Shape::Group { .. } | Shape::Sequence { .. } => unreachable!(),
    }
}

/// Returns the field of a node, which must be one, with its type, its nullability and its entry taken from the node's step: the node is not
/// read.
#[inline(always)]
pub fn known_at<'t>(
    plan: &'t Plan<'t>,
    here: &BodyStep,
    kind: Kind,
    operator: Operator,
) -> Known<'t>
    requires node { IsIn (nodes_of plan.now.templates.now) here.now }
    requires form { IsFieldAt (nodes_of plan.now.templates.now) here.now.node kind operator }
    ensures kind { (field_there result.place).kind ≡ kind }
    ensures operator { (field_there result.place).operator ≡ operator }
    ensures instruction { (at : Label)
        × (instruction_in (nodes_of plan.now.templates.now) here.now.node ≡ field at (field_data (field_there result.place))) }
    ensures usable { IsUsable (tree_of plan.now.templates.now).entries (field_data (field_there result.place)) }
    ensures initial { (m : ℕ) → ¬ (HasLongInitial m (nodes_of plan.now.templates.now))
        → ¬ (IsLongText m (field_data (field_there result.place)).initial) }
{
    Known {
        place: Place::Node(plan, here.node),
        kind,
        nullable: here.step.nullable,
        entry: if keeps(operator) {
            Some(here.step.entry)
        } else {
            None
        },
    }
}
