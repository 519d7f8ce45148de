//! The sizes of templates with their references resolved.

use crate::keys::{has_flag, has_key, is_segment, items_of, name_of, table_at, target_of, text_of};
use crate::walks::Walk;
use fast_notation::{NESTING_LIMIT, operator_named};
use std::alloc::{AllocError, Global};
use std::collections::HashMap;
use toml::{Table, Value};

/// The size of a template. Numbers saturate.
#[derive(Clone, Copy)]
pub(crate) struct Size {
    /// The number of nodes.
    pub(crate) nodes: u64,
    /// The depth to which groups and sequences nest.
    pub(crate) depth: u64,
    /// The length of the longest chain of references.
    pub(crate) links: u64,
    /// The bits that the template's own segment can use of its presence map, without that of the template identifier.
    pub(crate) bits: u64,
}

/// Returns the number of each template by its name; of two with the same name, that of the last.
pub(crate) fn index(
    alloc: Global,
    templates: &[Value],
) -> Result<HashMap<String, usize>, AllocError> {
    let mut names = HashMap::new(alloc);
    for (k, template) in templates.iter().enumerate() {
        if let Some(name) = name_of(template) {
            let name = String::from_str(alloc, name)?;
            let _ = names.insert(name, k)?;
        }
    }
    Ok(names)
}

/// Returns the number of the template of a name, if there is one.
pub(crate) fn number_of(names: &HashMap<String, usize>, name: &str) -> Option<usize> {
    match names.get(name) {
        Some(number) => Some(*number),
        None => None,
    }
}

/// The templates of a file: the number of each by its name, and the sizes that are known.
#[derive(Clone, Copy)]
pub(crate) struct Known<'a> {
    pub(crate) names: &'a HashMap<String, usize>,
    pub(crate) sizes: &'a [Option<Size>],
}

/// Returns the number of presence bits that the operator of a table uses: 0 or 1.
fn own_bit(table: &Table, optional: bool) -> u64 {
    match operator_named(text_of(table, "op").unwrap_or("none")) {
        Some(operator) => u64::from(operator.uses_bit(optional)),
        None => 0,
    }
}

/// Returns the number of presence bits that the operator of a part of a field uses.
fn part_bit(table: &Table, part: &str, optional: bool) -> u64 {
    match table_at(table, part) {
        Some(inner) => own_bit(inner, optional),
        None => 0,
    }
}

/// Returns the number of presence bits that a field uses in its own segment.
fn bits_of(field: &Value) -> u64 {
    let Some(table) = field.as_table() else {
        return 0;
    };
    let optional = has_flag(table, "optional");
    match text_of(table, "kind") {
        Some("group") => u64::from(optional),
        Some("sequence") => part_bit(table, "length", optional),
        Some(_) if has_key(table, "op") => own_bit(table, optional),
        _ => part_bit(table, "exponent", optional).saturating_add(part_bit(
            table, "mantissa", false,
        )),
    }
}

/// Returns the size of the template of a name, if it is known.
pub(crate) fn size_named(known: Known<'_>, name: &str) -> Option<Size> {
    let number = number_of(known.names, name)?;
    *known.sizes.get(number)?
}

/// Returns the number of presence bits that fields use in their segment.
pub(crate) fn segment_bits(known: Known<'_>, fields: &[Value]) -> u64 {
    let mut bits: u64 = 0;
    for field in fields {
        let more = match target_of(field) {
            Some(name) => match size_named(known, name) {
                Some(size) => size.bits,
                None => 0,
            },
            None => bits_of(field),
        };
        bits = bits.saturating_add(more);
    }
    bits
}

/// Returns the depth to which groups and sequences nest at a field, and within it if it is a reference.
pub(crate) fn depth_at(known: Known<'_>, around: usize, field: &Value) -> u64 {
    let inner = match target_of(field) {
        Some(name) => match size_named(known, name) {
            Some(size) => size.depth,
            None => 0,
        },
        None => u64::from(is_segment(field)),
    };
    inner.saturating_add(around as u64)
}

/// Returns the size of a template with one more field, which `around` groups and sequences enclose, if it is known.
fn size_with(known: Known<'_>, around: usize, field: &Value, size: Size) -> Option<Size> {
    let depth = depth_at(known, around, field).max(size.depth);
    let (nodes, links) = match target_of(field) {
        Some(name) => {
            let more = size_named(known, name)?;
            (more.nodes, more.links.saturating_add(1))
        }
        None => (1, 0),
    };
    Some(Size {
        nodes: size.nodes.saturating_add(nodes),
        depth,
        links: links.max(size.links),
        bits: size.bits,
    })
}

/// Returns the size of a template, if the sizes of all templates that it refers to are known.
fn size_of(alloc: Global, known: Known<'_>, template: &Value) -> Result<Option<Size>, AllocError> {
    let mut size = Some(Size {
        nodes: 0,
        depth: 0,
        links: 0,
        bits: segment_bits(known, items_of(template, "fields")),
    });
    let mut walk = Walk::new(alloc, template);
    for _field in 0..u64::MAX {
        let Some(before) = size else {
            break;
        };
        let Some(field) = walk.next()? else {
            break;
        };
        size = size_with(known, walk.depth(), field, before);
    }
    Ok(size)
}

/// Returns the sizes of templates, one step further than those that are known.
fn next_sizes(
    alloc: Global,
    known: Known<'_>,
    templates: &[Value],
) -> Result<Vec<Option<Size>>, AllocError> {
    let mut next = Vec::new(alloc);
    for (k, template) in templates.iter().enumerate() {
        let size = match known.sizes.get(k) {
            Some(Some(size)) => Some(*size),
            _ => size_of(alloc, known, template)?,
        };
        next.push(size)?;
    }
    Ok(next)
}

/// Returns how many sizes are known.
fn count_of(sizes: &[Option<Size>]) -> usize {
    let mut count: usize = 0;
    for size in sizes {
        if size.is_some() {
            count = count.saturating_add(1);
        }
    }
    count
}

/// Returns the sizes of all templates whose chains of references have at most 64 links.
pub(crate) fn sizes_of(
    alloc: Global,
    names: &HashMap<String, usize>,
    templates: &[Value],
) -> Result<Vec<Option<Size>>, AllocError> {
    let mut sizes = vec![in alloc; None; templates.len()]?;
    for _round in 0..=NESTING_LIMIT {
        let before = count_of(sizes.as_slice());
        let known = Known {
            names,
            sizes: sizes.as_slice(),
        };
        sizes = next_sizes(alloc, known, templates)?;
        if count_of(sizes.as_slice()) == before {
            break;
        }
    }
    Ok(sizes)
}
