//! The keys of fields, groups and sequences in the object of a message.

ghost use Rattle.std.specs.Prelude.{◌≡◌, ◌++◌, IfOk, get_or};
ghost use Rattle.fast_template.specs.meaning.Flat.{tree_of};
ghost use Rattle.fast_lines.specs.meaning.Lines.{node_name};
ghost use Rattle.fast_text.specs.meaning.LineWriter.{Writes};
ghost use Rattle.fast_json.specs.meaning.Json.{comma, key_words, repeat_mark};
ghost use Rattle.fast_json.specs.meaning.Keys.{set_of, repeats_in};

use fast_template::Templates;
use fast_text::{LineWriter, Target};
use fast_tree::Shape;
use std::alloc::{AllocError, Global};
use std::collections::HashMap;

/// The keys of the nodes of a template set: their names, with a number after those that an earlier instruction of the same segment has.
#[derive(Drop)]
pub struct Keys<'a> {
    pub(crate) templates: &'a Templates,
    /// For each node, how many instructions of its segment up to its own have its name.
    pub(crate) repeats: Vec<u32>,
}

/// Returns the name of a node, or an empty string if the set has no such node.
fn node_text(templates: &Templates, node: u32) -> &str
    ensures { result.now ≡ node_name (tree_of templates.now) node }
{
    if node < templates.nodes() {
        templates.node(node).name.as_str()
    } else {
        ""
    }
}

/// Returns the instructions of a template; none for a number that the set does not have.
fn template_body(templates: &Templates, template: u32) -> &[u32] {
    if template < templates.count() {
        templates.template(template).body.as_slice()
    } else {
        &[]
    }
}

/// Returns the instructions of the segment of a group or a sequence; none for a field, or for a number that the set does not have.
fn node_body(templates: &Templates, node: u32) -> &[u32] {
    if node >= templates.nodes() {
        return &[];
    }
    match &templates.node(node).shape {
        Shape::Field(_) => &[],
        Shape::Decimal { .. } => &[],
        Shape::Group { body, .. } => body.as_slice(),
        Shape::Sequence { body, .. } => body.as_slice(),
    }
}

/// Counts the names of a segment's instructions.
fn count_names(
    alloc: Global,
    templates: &Templates,
    body: &[u32],
    repeats: &mut Vec<u32>,
) -> Result<(), AllocError> {
    let mut seen: HashMap<String, u32> = HashMap::new(alloc);
    for node in body {
        let name = node_text(templates, *node);
        let count = seen.get(name).copied().unwrap_or(0).saturating_add(1);
        seen.insert(String::from_str(alloc, name)?, count)?;
        if let Some(repeat) = repeats.get_mut(*node as usize) {
            *repeat = count;
        }
    }
    Ok(())
}

/// Counts the names of the instructions of all segments.
fn count_all(
    alloc: Global,
    templates: &Templates,
    repeats: &mut Vec<u32>,
) -> Result<(), AllocError> {
    for n in 0..templates.count() {
        count_names(alloc, templates, template_body(templates, n), repeats)?;
    }
    for n in 0..templates.nodes() {
        count_names(alloc, templates, node_body(templates, n), repeats)?;
    }
    Ok(())
}

/// Returns a zero for each node.
fn no_counts(alloc: Global, templates: &Templates) -> Result<Vec<u32>, AllocError> {
    let mut counts = Vec::with_capacity(alloc, templates.nodes() as usize)?;
    for _n in 0..templates.nodes() {
        counts.push(0)?;
    }
    Ok(counts)
}

impl<'a> Keys<'a> {
    /// Makes the keys of a template set.
    ///
    /// # Errors
    ///
    /// An allocation failed.
    pub fn new(alloc: Global, templates: &'a Templates) -> Result<Keys<'a>, AllocError>
        ensures { IfOk result (λ keys. set_of keys ≡ templates.entry.now) }
    {
        let mut repeats = no_counts(alloc, templates)?;
        count_all(alloc, templates, &mut repeats)?;
        Ok(Keys { templates, repeats })
    }
}

/// Returns how many instructions of a node's segment up to its own have its name; 0 for a number that the set does not have.
fn repeat_of(repeats: &[u32], node: u32) -> u32
    ensures { result ≡ get_or repeats.now node 0 }
{
    let place = node as usize;
    if place < repeats.len() {
        repeats[place]
    } else {
        0
    }
}

/// Writes the number after a name that is not the first of its segment.
fn put_mark<T: Target>(line: &mut LineWriter<'_, T>, repeat: u32)
    ensures { Writes T.written T.has_failed line.old (repeat_mark repeat) line.new }
{
    if repeat > 1 {
        line.put(b"#");
        line.put_unsigned(u64::from(repeat));
    }
}

/// Writes the comma before an item, unless it is the first of its object or array.
pub(crate) fn put_comma<T: Target>(line: &mut LineWriter<'_, T>, is_first: bool)
    ensures { Writes T.written T.has_failed line.old (comma is_first) line.new }
{
    if !is_first {
        line.put(b",");
    }
}

/// Writes the key of a node, its colon, and the comma before it unless it is the first of its object.
pub(crate) fn put_key<T: Target>(
    line: &mut LineWriter<'_, T>,
    keys: &Keys<'_>,
    is_first: bool,
    node: u32,
)
    ensures { Writes T.written T.has_failed line.old
        (comma is_first ++ key_words (tree_of (set_of keys.now)) (repeats_in keys.now) node) line.new }
{
    put_comma(line, is_first);
    line.put(b"\"");
    line.put(node_text(keys.templates, node).as_bytes());
    put_mark(line, repeat_of(keys.repeats.as_slice(), node));
    line.put(b"\":");
}
