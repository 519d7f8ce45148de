//! Which dictionary entries can hold strings or byte vectors.

ghost use Rattle.std.specs.Prelude.{◌↔◌, Any, IsTrue};
ghost use Rattle.fast_template.specs.meaning.Flat.{nodes_of, tree_of};
ghost use Rattle.fast_template.specs.meaning.TextFields.{IsTextUnder, IsTextNode, SetHoldsText};
ghost use Rattle.fast_tree.specs.meaning.Nodes.{field_data};

use crate::sets::Templates;
use fast_tree::{FieldInstruction, Node, Shape};
use fast_value::Kind;

/// Returns whether the field is a string or byte vector that uses this entry.
fn is_text_under(field: &FieldInstruction, entry: u32) -> bool
    ensures { IsTrue result ↔ IsTextUnder entry (field_data field.now) }
{
    match field.kind {
        Kind::Ascii | Kind::Unicode | Kind::Bytes => match field.entry {
            Some(own) => own == entry,
            None => false,
        },
        Kind::UInt32 | Kind::Int32 | Kind::UInt64 | Kind::Int64 | Kind::Decimal => false,
    }
}

/// Returns whether the node is a string or byte vector field that uses this entry.
fn is_text_node(node: &Node, entry: u32) -> bool
    ensures { IsTrue result ↔ IsTextNode entry node.now }
{
    match &node.shape {
        Shape::Field(field) => is_text_under(field, entry),
        Shape::Decimal { .. } | Shape::Group { .. } | Shape::Sequence { .. } => false,
    }
}

impl Templates {
    /// Returns whether a dictionary entry can hold a string or byte vector: whether an ASCII, Unicode or byte vector field reads and writes
    /// it.
    pub fn holds_text(&self, entry: u32) -> bool
        ensures nodes { IsTrue result ↔ Any (IsTextNode entry) (nodes_of self.now) }
        ensures tree { IsTrue result ↔ SetHoldsText (tree_of self.now) entry }
    {
        for node in &self.nodes {
            if is_text_node(node, entry) {
                return true;
            }
        }
        false
    }
}
