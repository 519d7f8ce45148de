//! The op of a node, which the decoder's loop reads.

ghost use Rattle.std.specs.Prelude.{◌≡◌};
ghost use Rattle.fast_tree.specs.declared.instructions.Shape.TheVariants.{Field, Decimal as by_parts};
ghost use Rattle.fast_tree.specs.meaning.Entries.{keeps_value};
ghost use Rattle.fast_program.specs.device.Codes.{IsPartsCode, IsGroupCode, IsSequenceCode};
ghost use Rattle.fast_program.specs.device.Ops.{IsOpOf, general_op};

use crate::codes::Code;
use fast_tree::{FieldInstruction, Operator, Shape};

/// An op: all that a decoder's loop needs of a node.
#[derive(Clone, Copy, Debug)]
pub struct Op {
    /// The case of the loop that decodes the node.
    pub code: Code,
    /// The number of the node.
    pub node: u16,
    /// The number of the entry of the field, or of the mantissa under Delta, if it has one and its operator keeps a value there, else 0.
    pub entry: u32,
    /// Its index in the program.
    pub at: u32,
}

/// Returns whether an operator keeps a value in the dictionary.
fn keeps_value(operator: Operator) -> bool
    ensures { result ≡ keeps_value operator }
{
    match operator {
        Operator::Copy | Operator::Increment | Operator::Delta | Operator::Tail => true,
        Operator::None | Operator::Constant | Operator::Default => false,
    }
}

impl Op {
    /// Returns the op of a field.
    #[tactic(auto, unfolding(crate::specs::device::Codes::IsCoded))]
    fn of_field(at: u32, node: u16, field: &FieldInstruction) -> Op
        ensures is { IsOpOf result node (Field field.now) }
        ensures at { result.at ≡ at }
    {
        let code = Code::of_field(field.kind, field.operator, field.optional);
        match field.entry {
            Some(entry) => Op {
                code,
                node,
                entry,
                at,
            },
            None if keeps_value(field.operator) => Op {
                code: Code::General,
                node,
                entry: 0,
                at,
            },
            None => Op {
                code,
                node,
                entry: 0,
                at,
            },
        }
    }

    /// Returns the code of a decimal by parts whose mantissa is mandatory and under delta, by its exponent.
    #[tactic(auto, unfolding(crate::specs::device::Codes::IsCoded))]
    fn parts_code(exponent: &FieldInstruction) -> Code
        ensures { IsPartsCode exponent.now result }
    {
        match (exponent.operator, exponent.optional) {
            (Operator::Default, false) => Code::PartsDefault,
            (Operator::Default, true) => Code::PartsNullableDefault,
            (Operator::Copy, false) => Code::PartsCopy,
            (Operator::Copy, true) => Code::PartsNullableCopy,
            _ => Code::Parts,
        }
    }

    /// Returns the op of a decimal by parts. If its code is one of a mantissa under delta, the entry is the mantissa's.
    #[tactic(auto, unfolding(crate::specs::device::Codes::IsCoded))]
    fn of_parts(at: u32, node: u16, exponent: &FieldInstruction, mantissa: &FieldInstruction) -> Op
        ensures is { IsOpOf result node (by_parts exponent.now mantissa.now) }
        ensures at { result.at ≡ at }
    {
        match (mantissa.operator, mantissa.optional, mantissa.entry) {
            (Operator::Delta, false, Some(entry)) => Op {
                code: Op::parts_code(exponent),
                node,
                entry,
                at,
            },
            _ => Op {
                code: Code::Parts,
                node,
                entry: 0,
                at,
            },
        }
    }

    /// Returns the code of a group.
    #[tactic(auto, unfolding(crate::specs::device::Codes::IsCoded))]
    fn group_code(optional: bool) -> Code
        ensures { IsGroupCode optional result }
    {
        if optional {
            Code::OptionalGroup
        } else {
            Code::Group
        }
    }

    /// Returns the code of a sequence, by its length.
    #[tactic(auto, unfolding(crate::specs::device::Codes::IsCoded))]
    fn sequence_code(length: &FieldInstruction) -> Code
        ensures { IsSequenceCode length.now result }
    {
        match (length.operator, length.optional) {
            (Operator::None, false) => Code::Sequence,
            (Operator::None, true) => Code::OptionalSequence,
            _ => Code::General,
        }
    }

    /// Returns the op of a node with this number and shape.
    #[tactic(auto, unfolding(crate::specs::device::Codes::IsCoded))]
    pub fn of(at: u32, node: u16, shape: &Shape) -> Op
        ensures is { IsOpOf result node shape.now }
        ensures at { result.at ≡ at }
    {
        let code = match shape {
            Shape::Field(field) => return Op::of_field(at, node, field),
            Shape::Decimal { exponent, mantissa } => return Op::of_parts(
                at, node, exponent, mantissa,
            ),
            Shape::Group { optional, .. } => Op::group_code(*optional),
            Shape::Sequence { length, .. } => Op::sequence_code(length),
        };
        Op {
            code,
            node,
            entry: 0,
            at,
        }
    }

    /// Returns the op with the code `General`, or an end as it is.
    pub(crate) fn generalized(self) -> Op
        ensures { result ≡ general_op self }
    {
        match self.code {
            Code::End => self,
            _ => Op {
                code: Code::General,
                ..self
            },
        }
    }
}
