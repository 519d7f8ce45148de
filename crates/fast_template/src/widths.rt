//! The number of presence bits that each segment uses, counted once when a set is read, and which instructions are optional.

ghost use Rattle.std.specs.Prelude.{◌≡◌, ◌<◌, ◌^◌, ◌-◌, length, slice_get, Some, IfOk};
ghost use Rattle.fast_tree.specs.meaning.Tree.{bits_of, message_bits};
ghost use Rattle.fast_tree.specs.declared.instructions.Node.{Node};
ghost use Rattle.fast_tree.specs.declared.instructions.Template.{Template};
ghost use Rattle.fast_tree.specs.device.Bodies.{AreNodeWidths, AreTemplateWidths};
ghost use Rattle.fast_tree.specs.meaning.Nodes.{body_among};
ghost use Rattle.fast_tree.specs.meaning.Numbers.{AreBelow, NameNodes, NameLaterNodes, numbers_of};
ghost use Rattle.fast_template.specs.meaning.Flat.{nodes_of, templates_of, instructions_from, template_data};
ghost use Rattle.fast_template.specs.meaning.Presence.{may_be_absent};

use crate::sets::Templates;
use fast_tree::{Node, Shape, Template};
use std::alloc::{AllocError, Global};

impl Templates {
    /// Returns the greatest number of presence bits that a message of template `i` can use in its own map, that of the template identifier
    /// included.
    #[inline]
    pub fn message_bits(&self, i: u32) -> usize
        requires { i < length (templates_of self.now) }
        ensures { (t : Template) → slice_get (templates_of self.now) i ≡ Some t
            → result ≡ message_bits (template_data (instructions_from 0 (nodes_of self.now)) t) }
    {
        self.message_widths[i as usize]
    }

    /// Returns the greatest number of presence bits that the segment within node `n` can use: that of a group, or of each element of a
    /// sequence. It is 0 for a field.
    #[inline]
    pub fn segment_bits(&self, n: u32) -> usize
        requires { n < length (nodes_of self.now) }
        ensures { (v : Node) → slice_get (nodes_of self.now) n ≡ Some v
            → result ≡ bits_of (body_among (nodes_of self.now) (numbers_of v.shape)) }
    {
        self.segment_widths[n as usize]
    }

    /// Returns whether the instruction of node `n` is optional.
    pub fn is_optional(&self, n: u32) -> bool
        requires { n < length (nodes_of self.now) }
        ensures { (v : Node) → slice_get (nodes_of self.now) n ≡ Some v → result ≡ may_be_absent v.shape }
    {
        match &self.nodes[n as usize].shape {
            Shape::Field(field) => field.optional,
            Shape::Decimal { exponent, .. } => exponent.optional,
            Shape::Group { optional, .. } => *optional,
            Shape::Sequence { length, .. } => length.optional,
        }
    }
}

/// Counts the presence bits that the segment within each node uses.
pub(crate) fn segment_widths_of(alloc: Global, nodes: &[Node]) -> Result<Vec<usize>, AllocError>
    requires { NameLaterNodes nodes.now }
    ensures { IfOk result (λ widths. AreNodeWidths nodes.now widths.items) }
{
    let mut widths = Vec::with_capacity(alloc, nodes.len())?;
    for node in nodes {
        widths.push(body_bits(nodes, body_of(node)))?;
    }
    Ok(widths)
}

/// Counts the presence bits that a message of each template uses.
pub(crate) fn message_widths_of(
    alloc: Global,
    templates: &[Template],
    nodes: &[Node],
) -> Result<Vec<usize>, AllocError>
    requires { NameNodes (length nodes.now) templates.now }
    ensures { IfOk result (λ widths. AreTemplateWidths nodes.now templates.now widths.items) }
{
    let mut widths = Vec::with_capacity(alloc, templates.len())?;
    for template in templates {
        widths.push(1 + body_bits(nodes, &template.body))?;
    }
    Ok(widths)
}

/// Counts the presence bits that the segment of these nodes uses.
fn body_bits(nodes: &[Node], body: &[u32]) -> usize
    requires within { AreBelow (length nodes.now) body.now }
    requires short { length body.now < 2 ^ 63 }
    ensures bits { result ≡ bits_of (body_among nodes.now body.now) }
    ensures small { result < 2 ^ 64 - 1 }
{
    let mut bits = 0;
    for n in body {
        bits += nodes[*n as usize].shape.bits_used();
    }
    bits
}

/// Returns the nodes of the segment within a group or a sequence.
fn body_of(node: &Node) -> &[u32]
    ensures numbers { result.now ≡ numbers_of node.now.shape }
    ensures short { length result.now < 2 ^ 63 }
{
    match &node.shape {
        Shape::Field(_) | Shape::Decimal { .. } => &[],
        Shape::Group { body, .. } | Shape::Sequence { body, .. } => body.as_slice(),
    }
}
