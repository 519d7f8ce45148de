//! The node or template that a line names.

ghost use Rattle.std.specs.Prelude.{◌≡◌, ◌≢◌, ◌↔◌, ◌<◌, ℕ, length, slice_get, Some, IsTrue, IsUtf8, IfSome, IfNone, option_map, string_bytes};
ghost use Rattle.fast_tree.specs.declared.instructions.Template.{Template};
ghost use Rattle.fast_template.specs.meaning.Flat.{nodes_of, templates_of, tree_of};
ghost use Rattle.fast_lines.specs.meaning.Forms.{line_data};
ghost use Rattle.fast_lines.specs.meaning.Lines.{node_name};
ghost use Rattle.fast_spelling.specs.device.Nodes.{instruction_in};
ghost use Rattle.fast_messages.specs.device.Naming.{IsValue, IsGroup, IsSequence, Names};

use fast_lines::forms::Line;
use fast_template::{Shape, Templates};
use std::str;

/// Returns the number of the template of this name.
pub fn number_of(templates: &Templates, name: &[u8]) -> Option<u32>
    ensures found { IfSome result
        (λ i. (u : Template) × (slice_get (templates_of templates.now) i ≡ Some u) × (string_bytes u.name ≡ name.now)) }
    ensures none { IfNone result
        (IsUtf8 name.now → (j : ℕ) (u : Template) → slice_get (templates_of templates.now) j ≡ Some u
        → string_bytes u.name ≢ name.now) }
{
    match str::from_utf8(name) {
        Ok(name) => templates.by_name(name),
        Err(_) => None,
    }
}

/// Returns whether the line is that of a node.
pub fn names(templates: &Templates, node: u32, line: Option<Line<'_>>) -> bool
    requires { node < length (nodes_of templates.now) }
    ensures { IsTrue result ↔ Names (tree_of templates.now) node (instruction_in (nodes_of templates.now) node)
        (option_map line_data line.entry) }
{
    match line {
        Some(
            Line::Field {
                node: number,
                name,
                ..
            },
        ) => { number == node && is_value_called(templates, node, name) }
        Some(Line::Group { node: number, name }) => {
            number == node && is_group_called(templates, node, name)
        }
        Some(
            Line::Sequence {
                node: number,
                name,
                ..
            },
        ) => { number == node && is_sequence_called(templates, node, name) }
        _ => false,
    }
}

/// Returns whether a node is a field of this name.
fn is_value_called(templates: &Templates, node: u32, name: &[u8]) -> bool
    requires { node < length (nodes_of templates.now) }
    ensures { IsTrue result ↔ (IsValue (instruction_in (nodes_of templates.now) node)
        × (name.now ≡ node_name (tree_of templates.now) node)) }
{
    let of = templates.node(node);
    match of.shape {
        Shape::Field(_) | Shape::Decimal { .. } => name == of.name.as_bytes(),
        Shape::Group { .. } | Shape::Sequence { .. } => false,
    }
}

/// Returns whether a node is a group of this name.
fn is_group_called(templates: &Templates, node: u32, name: &[u8]) -> bool
    requires { node < length (nodes_of templates.now) }
    ensures { IsTrue result ↔ (IsGroup (instruction_in (nodes_of templates.now) node)
        × (name.now ≡ node_name (tree_of templates.now) node)) }
{
    let of = templates.node(node);
    match of.shape {
        Shape::Group { .. } => name == of.name.as_bytes(),
        Shape::Field(_) | Shape::Decimal { .. } | Shape::Sequence { .. } => false,
    }
}

/// Returns whether a node is a sequence of this name.
fn is_sequence_called(templates: &Templates, node: u32, name: &[u8]) -> bool
    requires { node < length (nodes_of templates.now) }
    ensures { IsTrue result ↔ (IsSequence (instruction_in (nodes_of templates.now) node)
        × (name.now ≡ node_name (tree_of templates.now) node)) }
{
    let of = templates.node(node);
    match of.shape {
        Shape::Sequence { .. } => name == of.name.as_bytes(),
        Shape::Field(_) | Shape::Decimal { .. } | Shape::Group { .. } => false,
    }
}
