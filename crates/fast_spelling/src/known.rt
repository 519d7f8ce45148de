//! A field with the properties that the encoder reads most, so that it need not read the node.

ghost use Rattle.std.specs.Prelude.{◌≡◌, true};
ghost use Rattle.fast_tree.specs.meaning.Nodes.{field_data};
ghost use Rattle.fast_spelling.specs.device.Places.{field_there, is_there};

use crate::plan::Plan;
use fast_template::{FieldInstruction, Shape};
use fast_value::Kind;

/// The place of a field.
#[derive(Clone, Copy)]
pub enum Place<'t> {
    /// In the node of this number.
    Node(&'t Plan<'t>, u32),
    /// By itself: the exponent or the mantissa of a decimal, or the length of a sequence.
    Alone(&'t FieldInstruction),
}

/// A field, with its type, its nullability and its entry. If these are known at compile time, or come from a [`Step`](crate::forms::Step),
/// nothing is read at its place.
#[derive(Clone, Copy)]
pub struct Known<'t> {
    /// The place of the field.
    pub place: Place<'t>,
    /// Its type.
    pub kind: Kind,
    /// True if it may be absent, so that its values are nullable.
    pub nullable: bool,
    /// Its entry in the dictionary, if it has one.
    pub entry: Option<u32>,
    ghost there: { is_there place ≡ true },
    ghost same_kind: { (field_there place).kind ≡ kind },
    ghost same_nullable: { (field_there place).optional ≡ nullable },
    ghost same_entry: { (field_data (field_there place)).entry ≡ entry },
}

impl<'t> Known<'t> {
    /// Returns a field with its properties, read from the field itself.
    #[inline(always)]
    pub fn of(field: &'t FieldInstruction) -> Known<'t>
        ensures { field_there result.place ≡ field.now }
    {
        Known {
            place: Place::Alone(field),
            kind: field.kind,
            nullable: field.optional,
            entry: field.entry,
        }
    }

    /// Returns the field itself. Only what is rarely needed is read there.
    #[inline(always)]
    pub fn field(self) -> &'t FieldInstruction
        ensures { result.now ≡ field_there self.entry.place }
    {
        match self.place {
            Place::Alone(field) => field,
            Place::Node(plan, node) => match &plan.templates.node(node).shape {
                Shape::Field(field) => field,
                Shape::Decimal { .. } | Shape::Group { .. } | Shape::Sequence { .. } =>
                    unreachable!(),
            },
        }
    }
}
