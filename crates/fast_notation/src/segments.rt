//! The ninth pass: no segment has more bits than a presence map.

ghost use Rattle.std.specs.Prelude.{◌≡◌, ◌↔◌, ◌<◌, ◌^◌, length, map, take, slice_get, slice_index_or, All, Some, IsTrue, OnOk, IfErr};
ghost use Rattle.fast_notation.specs.meaning.Checked.{IsNarrowInside};
ghost use Rattle.fast_tree.specs.meaning.Nodes.{body_of, instructions_from, no_instruction, template_data};
ghost use Rattle.fast_tree.specs.meaning.Numbers.{AreBelow, NameNodes, NameLaterNodes};
ghost use Rattle.fast_notation.specs.device.Segments.{IsNarrowSegment, IsNarrow, IsWide};
ghost use Rattle.fast_tree.specs.meaning.Tree.{bits_of, TemplateData};

use crate::limits::SEGMENT_LIMIT;
use fast_tree::{Node, Shape, Template};

/// Counts the bits that the instructions of a segment use.
fn segment_bits(nodes: &[Node], body: &[u32]) -> usize
    requires later { NameLaterNodes nodes.now }
    requires below { AreBelow (length nodes.now) body.now }
    ensures { result ≡ bits_of (body_of 0 (instructions_from 0 nodes.now) body.now) }
{
    let mut bits = 0;
    for number in body {
        bits += nodes[*number as usize].shape.bits_used();
    }
    bits
}

/// Returns whether a segment has at most `limit` bits, and each one inside it at most those of a presence map.
#[cycle(segments)]
fn is_narrow_segment(nodes: &[Node], body: &[u32], limit: usize) -> bool
    requires later { NameLaterNodes nodes.now }
    requires below { AreBelow (length nodes.now) body.now }
    ensures { IsTrue result ↔ IsNarrowSegment limit (body_of 0 (instructions_from 0 nodes.now) body.now) }
{
    if segment_bits(nodes, body) > limit {
        return false;
    }
    for number in body {
        if !is_narrow_inside(nodes, *number as usize) {
            return false;
        }
    }
    true
}

/// Returns whether each segment inside a node has at most the bits of a presence map.
#[cycle(segments)]
fn is_narrow_inside(nodes: &[Node], number: usize) -> bool
    requires later { NameLaterNodes nodes.now }
    requires below { number < length nodes.now }
    ensures { IsTrue result ↔ IsNarrowInside (slice_index_or (instructions_from 0 nodes.now) number no_instruction) }
{
    match &nodes[number].shape {
        Shape::Field(_) => true,
        Shape::Decimal { .. } => true,
        Shape::Group { body, .. } => is_narrow_segment(nodes, body, SEGMENT_LIMIT),
        Shape::Sequence { body, .. } => is_narrow_segment(nodes, body, SEGMENT_LIMIT),
    }
}

/// Returns whether no segment of a template has more bits than a presence map. A message's own has the identifier's bit too.
fn is_narrow(nodes: &[Node], template: &Template) -> bool
    requires later { NameLaterNodes nodes.now }
    requires below { AreBelow (length nodes.now) template.now.body.items }
    ensures { IsTrue result ↔ IsNarrow (template_data (instructions_from 0 nodes.now) template.now) }
{
    is_narrow_segment(nodes, &template.body, SEGMENT_LIMIT - 1)
}

/// Finds the first template that has a segment of too many bits, and returns its number as the error.
pub(crate) fn check_segments(nodes: &[Node], templates: &[Template]) -> Result<(), u32>
    requires later { NameLaterNodes nodes.now }
    requires named { NameNodes (length nodes.now) templates.now }
    requires few { length templates.now < 2 ^ 32 }
    ensures narrow { OnOk result (All IsNarrow (map (template_data (instructions_from 0 nodes.now)) templates.now)) }
    ensures wide { IfErr result (λ k. (u : TemplateData)
        × (slice_get (map (template_data (instructions_from 0 nodes.now)) templates.now) k ≡ Some u) × IsWide u) }
    ensures first { IfErr result (λ k. All IsNarrow
        (take k (map (template_data (instructions_from 0 nodes.now)) templates.now))) }
{
    for (k, template) in templates.iter().enumerate() {
        if !is_narrow(nodes, template) {
            return Err(k as u32);
        }
    }
    Ok(())
}
