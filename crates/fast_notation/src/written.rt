//! Template sets as they are written, before references are expanded.

ghost use Rattle.std.specs.Prelude.{◌≡◌};

use fast_tree::Operator;
use fast_value::Kind;

/// An operator with its initial value, key and dictionary, each only if it is written.
#[derive(Drop)]
pub(crate) struct WrittenOperator {
    pub(crate) operator: Operator,
    pub(crate) value: Option<String>,
    pub(crate) key: Option<String>,
    pub(crate) dictionary: Option<String>,
}

/// An instruction, or a reference to the instructions of another template.
#[derive(Drop)]
pub(crate) enum WrittenInstruction {
    /// A field.
    Scalar {
        name: String,
        optional: bool,
        kind: Kind,
        operator: WrittenOperator,
    },
    /// A decimal with an operator of its own for the exponent and for the mantissa.
    Parts {
        name: String,
        optional: bool,
        exponent: WrittenOperator,
        mantissa: WrittenOperator,
    },
    /// A group.
    Group {
        name: String,
        optional: bool,
        fields: Vec<WrittenInstruction>,
    },
    /// A sequence, with the name of its length if that has one.
    Sequence {
        name: String,
        optional: bool,
        length_name: Option<String>,
        length: WrittenOperator,
        fields: Vec<WrittenInstruction>,
    },
    /// A reference to a template.
    Reference(String),
}

/// A template.
#[derive(Drop)]
pub(crate) struct WrittenTemplate {
    pub(crate) name: String,
    pub(crate) id: Option<u32>,
    pub(crate) reset: bool,
    /// The dictionary of the instructions that name none.
    pub(crate) dictionary: String,
    pub(crate) fields: Vec<WrittenInstruction>,
}

impl WrittenTemplate {
    /// Returns the instructions that a reference to the template expands to.
    pub(crate) fn instructions(&self) -> &[WrittenInstruction]
        ensures { result.now ≡ self.now.fields.items }
    {
        &self.fields
    }
}
