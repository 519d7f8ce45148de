//! The parts from which a set is built: initial values, nodes and templates.

ghost use Rattle.std.specs.Prelude.{false, ◌≡◌, ◌<◌, ◌++◌, ◌∷◌, [], length, map, option_map, IfOk, OnOk, string_bytes};
ghost use Rattle.fast_value.specs.meaning.Values.{value_data};
ghost use Rattle.fast_value.specs.declared.kinds.Kind.{Kind};
ghost use Rattle.fast_notation.specs.declared.uses.OperatorPart.{OperatorPart};
ghost use Rattle.fast_notation.specs.device.Built.{with_shape, data_of};
ghost use Rattle.fast_notation.specs.device.EntryKeys.{use_data};
ghost use Rattle.fast_tree.specs.meaning.NodeData.{a_group, node_data, shape_data, outline};
ghost use Rattle.fast_tree.specs.meaning.Sizes.{node_limit};
ghost use Rattle.fast_notation.specs.meaning.Uses.{IsInitialOf};
ghost use Rattle.fast_notation.specs.device.Sound.{IsSound};
ghost use Rattle.fast_notation.specs.device.WrittenSets.{written_data};

use crate::codes::StaticCode;
use crate::scopes::OperatorUse;
use crate::uses::initial_in;
use crate::written::WrittenTemplate;
use fast_tree::{Node, Shape, Template};
use fast_value::Value;
use std::alloc::{AllocError, Global};

/// Returns the initial value of an operator, if it has one.
pub(crate) fn initial_of(alloc: Global, used: OperatorUse<'_>) -> Result<Option<Value>, AllocError>
    requires sound { IsSound (use_data used) }
    requires exponent { used.part ≡ OperatorPart.Exponent → used.kind ≡ Kind.Int32 }
    ensures { IfOk result (λ v. IsInitialOf (use_data used.entry) (use_data used.entry).written.value
        (option_map value_data v)) }
{
    let Some(text) = &used.written.value else {
        return Ok(None);
    };
    match initial_in(alloc, used.part, used.kind, text.as_str()) {
        Ok(value) => Ok(Some(value)),
        Err(StaticCode::S3) => unreachable!(),
        Err(_) => Err(AllocError),
    }
}

/// Copies the name of the next node, and appends the node's number to those of its body.
fn name_of(
    alloc: Global,
    count: usize,
    body: &mut Vec<u32>,
    name: &str,
) -> Result<String, AllocError>
    requires { count < node_limit }
    ensures name { IfOk result (λ s. string_bytes s ≡ name.now) }
    ensures body { IfOk result (λ _. body.new.items ≡ body.old.items ++ count ∷ []) }
{
    body.push(count as u32)?;
    String::from_str(alloc, name)
}

/// Appends a node.
fn push_node(nodes: &mut Vec<Node>, node: Node) -> Result<(), AllocError>
    ensures { OnOk result (data_of nodes.new ≡ data_of nodes.old ++ node_data node ∷ []) }
{
    nodes.push(node)?;
    Ok(())
}

/// Appends a node, and its number to those of its body.
pub(crate) fn add_node(
    alloc: Global,
    nodes: &mut Vec<Node>,
    body: &mut Vec<u32>,
    name: &str,
    shape: Shape,
) -> Result<(), AllocError>
    requires { length (data_of nodes.old) < node_limit }
    ensures nodes { OnOk result (data_of nodes.new
        ≡ data_of nodes.old ++ record { name = name.now; shape = shape_data shape } ∷ []) }
    ensures body { OnOk result (body.new.items ≡ body.old.items ++ length (data_of nodes.old) ∷ []) }
{
    let name = name_of(alloc, nodes.len(), body, name)?;
    push_node(nodes, Node { name, shape })
}

/// Returns the shape of a node whose body is not built yet.
pub(crate) fn empty_group(alloc: Global) -> Shape
    ensures { shape_data result ≡ a_group false [] }
{
    Shape::Group {
        optional: false,
        body: Vec::new(alloc),
    }
}

/// Sets the shape of a node.
pub(crate) fn set_shape(nodes: &mut [Node], number: usize, shape: Shape)
    requires { number < length nodes.old }
    ensures { map node_data nodes.new ≡ with_shape (map node_data nodes.old) number (shape_data shape) }
{
    nodes[number].shape = shape;
}

/// Returns the template of a written one, with the nodes of its body.
pub(crate) fn template_of(
    alloc: Global,
    written: &WrittenTemplate,
    body: Vec<u32>,
) -> Result<Template, AllocError>
    ensures { IfOk result (λ t. outline t
        ≡ record {
          name = (written_data written.now).name;
          id = written.now.id;
          reset = written.now.reset;
          body = body.items;
        }) }
{
    Ok(Template {
        name: String::from_str(alloc, written.name.as_str())?,
        id: written.id,
        reset: written.reset,
        body,
    })
}
