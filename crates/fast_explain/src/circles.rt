//! Templates that refer to themselves, directly or through others.

use crate::keys::{name_of, target_of};
use crate::notes::{Note, put, put_quoted};
use crate::sizes::{index, number_of};
use crate::walks::Walk;
use std::alloc::{AllocError, Global};
use std::collections::HashMap;
use toml::Value;

/// The greatest number of templates of a cycle that are listed.
const TOLD: usize = 16;

/// A breadth-first search from one template along references: the templates found so far, each with its predecessor.
#[derive(Drop)]
struct Search {
    /// The templates that were found, in order.
    found: Vec<usize>,
    /// The predecessor of each template: the one whose reference led to it.
    before: Vec<Option<usize>>,
}

/// Adds a template after its predecessor, if it was not found before.
fn add(search: &mut Search, number: usize, target: usize) -> Result<(), AllocError> {
    if let Some(before) = search.before.get_mut(target) {
        if before.is_none() {
            *before = Some(number);
            search.found.push(target)?;
        }
    }
    Ok(())
}

/// Returns the number of the template that a field refers to, if it is a reference.
fn target_number(names: &HashMap<String, usize>, field: &Value) -> Option<usize> {
    number_of(names, target_of(field)?)
}

/// Adds the templates that a template refers to. Returns whether the first template is one of them.
fn take_up(
    alloc: Global,
    names: &HashMap<String, usize>,
    template: &Value,
    search: &mut Search,
    number: usize,
    first: usize,
) -> Result<bool, AllocError> {
    let mut walk = Walk::new(alloc, template);
    for _field in 0..u64::MAX {
        let Some(field) = walk.next()? else {
            break;
        };
        let Some(target) = target_number(names, field) else {
            continue;
        };
        if target == first {
            return Ok(true);
        }
        add(&mut *search, number, target)?;
    }
    Ok(false)
}

/// Returns the templates of a cycle in the order of their references, from the first template to the last, by their predecessors.
fn circle_to(
    alloc: Global,
    before: &[Option<usize>],
    last: usize,
    first: usize,
) -> Result<Vec<usize>, AllocError> {
    let mut circle = Vec::new(alloc);
    let mut number = last;
    for _step in 0..before.len() {
        circle.push(number)?;
        match before.get(number) {
            Some(Some(before)) if number != first => number = *before,
            _ => break,
        }
    }
    circle.reverse();
    Ok(circle)
}

/// Returns the templates of a cycle: the last of them refers to the first.
fn circle_from(
    alloc: Global,
    names: &HashMap<String, usize>,
    templates: &[Value],
    first: usize,
) -> Result<Vec<usize>, AllocError> {
    let mut search = Search {
        found: Vec::new(alloc),
        before: vec![in alloc; None; templates.len()]?,
    };
    search.found.push(first)?;
    for k in 0..templates.len() {
        let Some(number) = search.found.get(k).copied() else {
            break;
        };
        let Some(template) = templates.get(number) else {
            continue;
        };
        if take_up(alloc, names, template, &mut search, number, first)? {
            return circle_to(alloc, search.before.as_slice(), number, first);
        }
    }
    Ok(Vec::new(alloc))
}

/// Writes the name of a template, and `behind` after it.
fn put_name(note: &mut Note, template: &Value, behind: &str) {
    if let Some(name) = name_of(template) {
        let _ = put_quoted(note, name) && put(note, &[behind]);
    }
}

/// Writes the names of the templates of a cycle.
fn tell_names(note: &mut Note, templates: &[Value], circle: &[usize]) {
    let mut count: usize = 0;
    for number in circle {
        if count == TOLD {
            let _ = put(note, &[".., "]);
            break;
        }
        count = count.saturating_add(1);
        if let Some(template) = templates.get(*number) {
            put_name(note, template, ", ");
        }
    }
}

/// Ends the line of the position, and writes the cycle of references that leads from a template to itself.
pub(crate) fn tell_circle(
    alloc: Global,
    templates: &[Value],
    first: usize,
    note: &mut Note,
) -> Result<(), AllocError> {
    let _ = put(note, &["\n"]);
    let names = index(alloc, templates)?;
    let circle = circle_from(alloc, &names, templates, first)?;
    let _ = put(note, &["  "]);
    tell_names(note, templates, circle.as_slice());
    let name = match templates.get(first) {
        Some(template) => name_of(template).unwrap_or(""),
        None => "",
    };
    let _ = put_quoted(note, name) && put(note, &[": each refers to the next\n"]);
    Ok(())
}
