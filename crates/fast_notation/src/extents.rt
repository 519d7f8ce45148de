//! The number of nodes and the nesting depth of written instructions, computed before any reference is expanded.

ghost use Rattle.std.specs.Prelude.{◌≡◌};
ghost use Rattle.std.specs.HashMap.{get_by_text};
ghost use Rattle.fast_notation.specs.device.Extents.{nothing, single, beside, around, named_extent, extent_in, extent_by};
ghost use Rattle.fast_notation.specs.device.WrittenSets.{instruction_data, fields_data};

use crate::written::WrittenInstruction;
use std::collections::HashMap;

/// The size of instructions with their references expanded. Numbers that do not fit a `u32` stay at its greatest value.
#[derive(Clone, Copy, PartialEq, Eq)]
pub(crate) struct Extent {
    /// The number of nodes.
    pub(crate) nodes: u32,
    /// The depth to which groups and sequences nest.
    pub(crate) depth: u32,
}

impl Extent {
    /// Returns the extent of no instruction.
    fn nothing() -> Extent
        ensures { result ≡ nothing }
    {
        Extent { nodes: 0, depth: 0 }
    }

    /// Returns the extent of a field.
    fn single() -> Extent
        ensures { result ≡ single }
    {
        Extent { nodes: 1, depth: 0 }
    }

    /// Returns the extent of these instructions followed by others.
    fn beside(self, other: Extent) -> Extent
        ensures { result ≡ beside self other }
    {
        Extent {
            nodes: self.nodes.saturating_add(other.nodes),
            depth: self.depth.max(other.depth),
        }
    }

    /// Returns the extent of a group or a sequence of the instructions.
    fn around(self) -> Extent
        ensures { result ≡ around self }
    {
        Extent {
            nodes: self.nodes.saturating_add(1),
            depth: self.depth.saturating_add(1),
        }
    }
}

/// Returns the extent of the template with this name, if it is known.
fn extent_named(
    names: &HashMap<String, u32>,
    extents: &[Option<Extent>],
    name: &str,
) -> Option<Extent>
    ensures { result ≡ named_extent (get_by_text names.now) extents.now name.now }
{
    let number = names.get(name)?;
    *extents.get(*number as usize)?
}

/// Returns the extent of the instructions, if that of each template to which they refer is known.
#[cycle(extents)]
pub(crate) fn extent_of_fields(
    names: &HashMap<String, u32>,
    extents: &[Option<Extent>],
    fields: &[WrittenInstruction],
) -> Option<Extent>
    ensures { result ≡ extent_by (named_extent (get_by_text names.now) extents.now) (fields_data fields.now) nothing }
{
    let mut total = Extent::nothing();
    for field in fields {
        total = total.beside(extent_of_instruction(names, extents, field)?);
    }
    Some(total)
}

/// Returns the extent of the instruction, if that of each template to which it refers is known.
#[cycle(extents)]
fn extent_of_instruction(
    names: &HashMap<String, u32>,
    extents: &[Option<Extent>],
    instruction: &WrittenInstruction,
) -> Option<Extent>
    ensures { result ≡ extent_in (named_extent (get_by_text names.now) extents.now) (instruction_data instruction.now) }
{
    match instruction {
        WrittenInstruction::Scalar { .. } | WrittenInstruction::Parts { .. } => {
            Some(Extent::single())
        }
        WrittenInstruction::Group { fields, .. } => {
            let inner = extent_of_fields(names, extents, fields)?;
            Some(inner.around())
        }
        WrittenInstruction::Sequence { fields, .. } => {
            let inner = extent_of_fields(names, extents, fields)?;
            Some(inner.around())
        }
        WrittenInstruction::Reference(name) => extent_named(names, extents, name.as_str()),
    }
}
