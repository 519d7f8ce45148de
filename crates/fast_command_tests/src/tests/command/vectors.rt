//! Tests that the built-in set, as it is read, is that of the examples: each number of each node, template and entry.

use super::super::built_in_set;
use fast_examples::sets::SPELLED;
use fast_template::{FieldInstruction, Shape, Templates};
use std::alloc::{AllocError, Global};
use std::process::Abort;

/// Returns the string; ends the test if an allocation failed.
fn made(rt: &impl Abort, text: Result<String, AllocError>) -> String {
    text.expect(rt, "memory")
}

/// Appends a string to another.
fn put(rt: &impl Abort, text: &mut String, more: &str) {
    text.push_str(more).expect(rt, "memory");
}

/// Returns the type, the presence, the operator, the initial value and the entry.
fn field_text(rt: &impl Abort, alloc: Global, field: &FieldInstruction) -> String {
    let FieldInstruction {
        kind,
        optional,
        operator,
        initial,
        entry,
    } = field;
    made(
        rt,
        format!(in alloc; " {kind:?} {optional} {operator:?} {initial:?} {entry:?}"),
    )
}

/// Returns the numbers of the nodes of a body.
fn numbers_text(rt: &impl Abort, alloc: Global, body: &[u32]) -> String {
    let mut text = made(rt, String::from_str(alloc, " of"));
    for n in body {
        put(rt, &mut text, &made(rt, format!(in alloc; " {n}")));
    }
    text
}

/// Returns the shape of a node.
fn shape_text(rt: &impl Abort, alloc: Global, shape: &Shape) -> String {
    let (front, back) = match shape {
        Shape::Field(field) => return field_text(rt, alloc, field),
        Shape::Decimal { exponent, mantissa } => (
            field_text(rt, alloc, exponent),
            field_text(rt, alloc, mantissa),
        ),
        Shape::Group { optional, body } => (
            made(rt, format!(in alloc; " {optional}")),
            numbers_text(rt, alloc, body),
        ),
        Shape::Sequence { length, body } => (
            field_text(rt, alloc, length),
            numbers_text(rt, alloc, body),
        ),
    };
    made(rt, format!(in alloc; "{front}{back}"))
}

/// Returns a node with its number and its name.
fn node_text(rt: &impl Abort, alloc: Global, set: &Templates, n: u32) -> String {
    if n >= set.nodes() {
        return String::new(alloc);
    }
    let node = set.node(n);
    let name = node.name.as_str();
    let shape = shape_text(rt, alloc, &node.shape);
    made(rt, format!(in alloc; "{n} {name}{shape}\n"))
}

/// Returns the name of a template, its identifier, whether it resets, and its nodes.
fn head_text(rt: &impl Abort, alloc: Global, set: &Templates, i: u32) -> String {
    if i >= set.count() {
        return String::new(alloc);
    }
    let template = set.template(i);
    let (name, id, reset) = (template.name.as_str(), template.id, template.reset);
    let numbers = numbers_text(rt, alloc, &template.body);
    made(rt, format!(in alloc; "{name} {id:?} {reset}{numbers}\n"))
}

/// Returns a set as a string: its entries, its templates and its nodes.
fn spelled(rt: &impl Abort, alloc: Global, set: &Templates) -> String {
    let entries = set.entries();
    let mut text = made(rt, format!(in alloc; "{entries}\n"));
    for i in 0..set.count() {
        put(rt, &mut text, &head_text(rt, alloc, set, i));
    }
    for n in 0..set.nodes() {
        put(rt, &mut text, &node_text(rt, alloc, set, n));
    }
    text
}

#[test]
fn the_built_in_set_is_that_of_the_examples(rt: HostRuntime) {
    let set = built_in_set(&rt, rt.alloc());
    let text = spelled(&rt, rt.alloc(), &set);
    assert!(rt; text.as_str() == SPELLED, "{text}");
}
