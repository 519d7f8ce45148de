//! Warnings of fields that share a name and a dictionary entry.

use crate::notes::{Note, put, put_number, put_quoted};
use fast_template::Templates;
use fast_text::Target;
use fast_tree::{Node, Shape};
use std::alloc::{AllocError, Global};
use std::collections::HashMap;

/// The greatest number of pairs that are written.
const TOLD: u64 = 16;

/// The nodes of a template.
#[derive(Clone, Copy)]
struct Range {
    template: u32,
    start: u32,
    end: u32,
}

/// Two fields of a template that share a name and a dictionary entry.
#[derive(Clone, Copy)]
struct Pair {
    template: u32,
    entry: u32,
    first: u32,
    second: u32,
}

/// Returns the nodes of each template that has any, in order.
fn ranges_of(alloc: Global, templates: &Templates) -> Result<Vec<Range>, AllocError> {
    let mut ranges: Vec<Range> = Vec::new(alloc);
    for template in 0..templates.count() {
        if let Some(start) = templates
            .template(template)
            .body
            .as_slice()
            .first()
            .copied()
        {
            if let Some(last) = ranges.last_mut() {
                last.end = start;
            }
            ranges.push(Range {
                template,
                start,
                end: templates.nodes(),
            })?;
        }
    }
    Ok(ranges)
}

/// Returns the dictionary entries that the operators of a field use.
fn entries_of(node: &Node) -> [Option<u32>; 2] {
    match &node.shape {
        Shape::Field(field) => [field.entry, None],
        Shape::Decimal { exponent, mantissa } => [exponent.entry, mantissa.entry],
        Shape::Group { .. } | Shape::Sequence { .. } => [None, None],
    }
}

/// Returns an earlier field of the same template with this name and entry, and keeps this one if there is none.
fn earlier(
    alloc: Global,
    seen: &mut HashMap<String, u32>,
    entry: u32,
    node: u32,
    name: &str,
) -> Result<Option<u32>, AllocError> {
    let key = format!(in alloc; "{entry} {name}")?;
    if let Some(first) = seen.get(key.as_str()) {
        return Ok(Some(*first));
    }
    let _ = seen.insert(key, node)?;
    Ok(None)
}

/// Writes the warning of a pair.
fn tell_pair<T: Target>(templates: &Templates, pair: Pair, target: &mut T) {
    if pair.template >= templates.count() || pair.first >= templates.nodes() {
        return;
    }
    let mut note = Note::new();
    let _ = put(&mut note, &["fastcat: warning: template "])
        && put_quoted(&mut note, templates.template(pair.template).name.as_str())
        && put(&mut note, &[": fields "])
        && put_number(&mut note, u64::from(pair.first))
        && put(&mut note, &[" and "])
        && put_number(&mut note, u64::from(pair.second))
        && put(&mut note, &[" are both "])
        && put_quoted(&mut note, templates.node(pair.first).name.as_str())
        && put(&mut note, &[" and share dictionary entry "])
        && put_number(&mut note, u64::from(pair.entry))
        && put(&mut note, &["\n"]);
    let _ = target.write_all(note.as_str().as_bytes());
}

/// Writes how many pairs were not written.
fn tell_rest<T: Target>(count: u64, target: &mut T) {
    if count <= TOLD {
        return;
    }
    let mut note = Note::new();
    let _ = put(&mut note, &["fastcat: warning: "])
        && put_number(&mut note, count - TOLD)
        && put(&mut note, &[" more such pairs of fields\n"]);
    let _ = target.write_all(note.as_str().as_bytes());
}

/// Returns the pair that a field completes, if it does.
fn pair_at(
    alloc: Global,
    templates: &Templates,
    seen: &mut HashMap<String, u32>,
    template: u32,
    second: u32,
) -> Result<Option<Pair>, AllocError> {
    if second >= templates.nodes() {
        return Ok(None);
    }
    let node = templates.node(second);
    for entry in entries_of(node).iter().flatten() {
        let entry = *entry;
        if let Some(first) = earlier(alloc, seen, entry, second, node.name.as_str())? {
            return Ok(Some(Pair {
                template,
                entry,
                first,
                second,
            }));
        }
    }
    Ok(None)
}

/// Warns of fields of one template that share a name and a dictionary entry, so that each replaces the previous value of the other. There
/// is a line for each of the first 16 such fields with the first field of its kind, and one for the number of all others.
///
/// # Errors
///
/// An allocation failed.
pub fn warn_of_twins<T: Target>(
    alloc: Global,
    templates: &Templates,
    target: &mut T,
) -> Result<(), AllocError> {
    let mut count: u64 = 0;
    for range in &ranges_of(alloc, templates)? {
        let mut seen: HashMap<String, u32> = HashMap::new(alloc);
        for node in range.start..range.end {
            if let Some(pair) = pair_at(alloc, templates, &mut seen, range.template, node)? {
                if count < TOLD {
                    tell_pair(templates, pair, target);
                }
                count = count.saturating_add(1);
            }
        }
    }
    tell_rest(count, target);
    Ok(())
}
