//! Nodes, templates and the lines that can come next, as an explanation names them.

use crate::walks::{Choices, is_optional};
use fast_notes::{Note, put, put_number, put_quoted};
use fast_template::Templates;
use fast_tree::Shape;
use fast_value::Kind;

/// The greatest number of nodes or templates that are listed.
const LISTED: usize = 8;

/// Returns the type of a node, if it is a field.
pub(crate) fn kind_of(templates: &Templates, number: u32) -> Option<Kind> {
    if number >= templates.nodes() {
        return None;
    }
    match &templates.node(number).shape {
        Shape::Field(field) => Some(field.kind),
        Shape::Decimal { .. } => Some(Kind::Decimal),
        Shape::Group { .. } | Shape::Sequence { .. } => None,
    }
}

/// Returns the name of a type in template files.
fn kind_name(kind: Kind) -> &'static str {
    match kind {
        Kind::UInt32 => "uInt32",
        Kind::Int32 => "int32",
        Kind::UInt64 => "uInt64",
        Kind::Int64 => "int64",
        Kind::Decimal => "decimal",
        Kind::Ascii => "ascii",
        Kind::Unicode => "unicode",
        Kind::Bytes => "bytes",
    }
}

/// Returns the first word of a node's line.
pub(crate) fn word_of(templates: &Templates, number: u32) -> &'static str {
    if number >= templates.nodes() {
        return "field";
    }
    match &templates.node(number).shape {
        Shape::Field(_) | Shape::Decimal { .. } => "field",
        Shape::Group { .. } => "group",
        Shape::Sequence { .. } => "sequence",
    }
}

/// Returns the name of a node, or an empty string if the set has no such node.
pub(crate) fn name_of(templates: &Templates, number: u32) -> &str {
    if number < templates.nodes() {
        templates.node(number).name.as_str()
    } else {
        ""
    }
}

/// Writes a node: the first word of its line, its number and its name. Returns whether it had room.
fn put_node(note: &mut Note, templates: &Templates, number: u32) -> bool {
    put(note, &[word_of(templates, number), " "])
        && put_number(note, u64::from(number))
        && put(note, &[" "])
        && put_quoted(note, name_of(templates, number))
}

/// Writes a node, and in parentheses its type if it is a field, and `optional` if it is. Returns whether it had room.
pub(crate) fn put_typed(note: &mut Note, templates: &Templates, number: u32) -> bool {
    put_node(note, templates, number)
        && match (kind_of(templates, number), is_optional(templates, number)) {
            (Some(kind), true) => put(note, &[" (", kind_name(kind), ", optional)"]),
            (Some(kind), false) => put(note, &[" (", kind_name(kind), ")"]),
            (None, true) => put(note, &[" (optional)"]),
            (None, false) => true,
        }
}

/// Writes a node and its type in parentheses, and ends the line.
pub(crate) fn end_with_node(note: &mut Note, templates: &Templates, number: u32) -> bool {
    put(note, &[" ("])
        && put_node(note, templates, number)
        && match kind_of(templates, number) {
            Some(kind) => put(note, &[", ", kind_name(kind), ")\n"]),
            None => put(note, &[")\n"]),
        }
}

/// Writes what can come next. Returns whether it had room.
pub(crate) fn put_choices(note: &mut Note, templates: &Templates, choices: Choices<'_>) -> bool {
    let mut before = "";
    for (k, number) in choices.nodes.iter().enumerate() {
        if k == LISTED && choices.nodes.len() > LISTED {
            return put_last(note, templates, choices);
        }
        if !put(note, &[before]) || !put_typed(note, templates, *number) {
            return false;
        }
        before = ", or ";
    }
    put_ending(note, before, choices.ending)
}

/// Writes the last node that can come next, and the ending. Returns whether they had room.
fn put_last(note: &mut Note, templates: &Templates, choices: Choices<'_>) -> bool {
    match choices.nodes.last() {
        Some(number) => {
            put(note, &[", or another one up to "])
                && put_typed(note, templates, *number)
                && put_ending(note, ", or ", choices.ending)
        }
        None => true,
    }
}

/// Writes the ending that can come next, if there is one. Returns whether it had room.
fn put_ending(note: &mut Note, before: &'static str, ending: Option<&'static str>) -> bool {
    match ending {
        Some(ending) => put(note, &[before, ending]),
        None => true,
    }
}

/// Writes the names of the templates. Returns whether it had room.
pub(crate) fn put_templates(note: &mut Note, templates: &Templates) -> bool {
    let mut before = " ";
    for number in 0..templates.count() {
        if number as usize == LISTED {
            return put(note, &[", .."]);
        }
        if !put(note, &[before]) || !put_quoted(note, templates.template(number).name.as_str()) {
            return false;
        }
        before = ", ";
    }
    true
}
