//! Templates and their instructions, as they are stored.

ghost use Rattle.std.specs.Prelude.{◌≡◌, ◌≤◌, ℕ, List};
ghost use Rattle.fast_tree.specs.meaning.Nodes.{field_data, instruction_of};
ghost use Rattle.fast_tree.specs.meaning.Tree.{Label, Instruction, uses_bit, bits_used};

use crate::operators::Operator;
use fast_value::{Kind, Value};

/// The encoding of one value: that of a field, the length of a sequence, the exponent or the mantissa of a decimal.
#[derive(Debug, Drop)]
pub struct FieldInstruction {
    /// The type of the value.
    pub kind: Kind,
    /// If set, the value may be absent.
    pub optional: bool,
    /// The field operator.
    pub operator: Operator,
    /// The initial value, if the operator has one.
    pub initial: Option<Value>,
    /// The number of the dictionary entry that the operator reads and writes, if it uses one.
    pub entry: Option<u32>,
}

impl FieldInstruction {
    /// Returns whether the value has a bit in the presence map of its segment.
    #[inline]
    pub fn uses_bit(&self) -> bool
        ensures { result ≡ uses_bit (field_data self.now) }
    {
        self.operator.uses_bit(self.optional)
    }
}

/// The shape of an instruction of a template.
#[derive(Debug, Drop)]
pub enum Shape {
    /// A field.
    Field(FieldInstruction),
    /// A decimal with an operator of its own for the exponent and for the mantissa.
    Decimal {
        /// The exponent, which is optional if the decimal is.
        exponent: FieldInstruction,
        /// The mantissa, which is present if the exponent is.
        mantissa: FieldInstruction,
    },
    /// A group.
    Group {
        /// If set, the group may be absent.
        optional: bool,
        /// The nodes of its instructions, in order.
        body: Vec<u32>,
    },
    /// A sequence.
    Sequence {
        /// The length, which is optional if the sequence is.
        length: FieldInstruction,
        /// The nodes of an element's instructions, in order.
        body: Vec<u32>,
    },
}

impl Shape {
    /// Returns the greatest number of presence bits that the instruction uses of its own segment.
    pub fn bits_used(&self) -> usize
        ensures used { (at : Label) (first : ℕ) (is : List Instruction)
            → result ≡ bits_used (instruction_of at first is self.now) }
        ensures few { result ≤ 2 }
    {
        match self {
            Shape::Field(field) => usize::from(field.uses_bit()),
            Shape::Decimal { exponent, mantissa } => {
                usize::from(exponent.uses_bit()) + usize::from(mantissa.uses_bit())
            }
            Shape::Group { optional, .. } => usize::from(*optional),
            Shape::Sequence { length, .. } => usize::from(length.uses_bit()),
        }
    }
}

/// An instruction with its name.
#[derive(Debug, Drop)]
pub struct Node {
    /// The name of the field, group or sequence.
    pub name: String,
    /// The shape of the instruction.
    pub shape: Shape,
}

/// A template with its references expanded in place.
#[derive(Debug, Drop)]
pub struct Template {
    /// The name, which no other template of the set has.
    pub name: String,
    /// The template identifier, if the template can be sent, which no other template of the set has.
    pub id: Option<u32>,
    /// If set, a message of the template resets the dictionary.
    pub reset: bool,
    /// The nodes of its instructions, in order.
    pub body: Vec<u32>,
}
