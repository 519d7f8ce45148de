//! The fault of a line that is not the one that is due.

ghost use Rattle.std.specs.Prelude.{◌↔◌, ◌<◌, length, slice_index, IsTrue, None};
ghost use Rattle.fast_tree.specs.meaning.AsWritten.{IsNameByte};
ghost use Rattle.fast_tree.specs.meaning.Numbers.{AreBelow};
ghost use Rattle.fast_template.specs.meaning.Flat.{nodes_of};
ghost use Rattle.fast_spelling.specs.device.Nodes.{instruction_in};
ghost use Rattle.fast_spelling.specs.meaning.Suiting.{Suits};

use crate::cursors::Cursor;
use crate::endings::{Ending, is_ending};
use crate::faults::LineFault;
use crate::naming::{names, number_of};
use fast_lines::forms::Line;
use fast_spelling::suiting::{may_be_absent, suits_item};
use fast_template::Templates;
use fast_value::Item;

/// Returns the fault of the next line, which nothing at this position can have: `Missing`, `Form`, `UnknownTemplate` or `OutOfPlace`.
pub fn misplaced(templates: &Templates, line: Option<Line<'_>>) -> LineFault {
    match line {
        None => LineFault::Missing,
        Some(line) if !is_named_well(line) => LineFault::Form,
        Some(Line::Message { name }) if number_of(templates, name).is_none() => {
            LineFault::UnknownTemplate
        }
        Some(_) => LineFault::OutOfPlace,
    }
}

/// Returns whether the name in a line, if it has one, can be that of a template or a node.
fn is_named_well(line: Line<'_>) -> bool {
    match line {
        Line::Message { name }
        | Line::Field { name, .. }
        | Line::Group { name, .. }
        | Line::Sequence { name, .. } => {
            name.len() <= LONGEST_NAME && name.iter().all(|byte| is_name_byte(*byte))
        }
        _ => true,
    }
}

/// The greatest length of a name in characters.
const LONGEST_NAME: usize = 64;

/// Returns whether a name can contain the character.
fn is_name_byte(byte: u8) -> bool
    ensures { IsTrue result ↔ IsNameByte byte }
{
    byte.is_ascii_alphanumeric() || byte == b'_' || byte == b'-' || byte == b'.'
}

/// Returns whether the node at index `i` of a body may be omitted: its field may be absent.
pub fn may_be_passed(templates: &Templates, body: &[u32], i: usize) -> bool
    requires nodes { AreBelow (length (nodes_of templates.now)) body.now }
    requires place { i < length body.now }
    ensures { IsTrue result ↔ Suits (instruction_in (nodes_of templates.now) (slice_index body.now i)) None }
{
    may_be_absent(templates, body[i])
}

/// Returns the fault of the next line, if the first of these nodes is mandatory and the line is not one of that node.
pub fn passed_over(templates: &Templates, left: &[u32], ending: Ending, at: Cursor<'_>) -> LineFault
    requires { AreBelow (length (nodes_of templates.now)) left.now }
{
    for node in left {
        if names(templates, *node, at.line) {
            return if has_wrong_value(templates, *node, at) {
                LineFault::WrongValue
            } else {
                LineFault::PassedOver
            };
        }
    }
    if is_ending(ending, at.line) {
        LineFault::PassedOver
    } else {
        misplaced(templates, at.line)
    }
}

/// Returns whether the next line, which is that of a node, has a value that is not one of the node.
fn has_wrong_value(templates: &Templates, node: u32, at: Cursor<'_>) -> bool
    requires { node < length (nodes_of templates.now) }
{
    let Cursor { line, value, .. } = at;
    match (line, value) {
        (Some(Line::Field { .. }), Some(value)) => {
            let item = Item::One(value);
            !suits_item(templates, node, &item)
        }
        (Some(Line::Field { .. }), None) => true,
        _ => false,
    }
}
