//! The position of a fault within a template.

use crate::circles::tell_circle;
use crate::keys::{entry_of, items_of, name_of, target_of};
use crate::notes::{
    Found, Misfit, Note, Part, Right, put, put_found, put_number, put_quoted, tell,
};
use crate::sizes::{Known, depth_at, index, number_of, segment_bits, size_named, sizes_of};
use crate::walks::{Walk, tell_template};
use crate::{shapes, uses};
use fast_notation::{NESTING_LIMIT, NODE_LIMIT, SEGMENT_LIMIT, StaticCode};
use std::alloc::{AllocError, Global};
use std::collections::HashMap;
use toml::Value;

/// The templates of a file, and the one at fault.
#[derive(Clone, Copy)]
pub(crate) struct Place<'a> {
    pub(crate) templates: &'a [Value],
    pub(crate) number: usize,
    pub(crate) template: &'a Value,
}

/// Returns the error of a reference that names no template.
fn target_misfit<'a>(names: &HashMap<String, usize>, field: &'a Value) -> Option<Misfit<'a>> {
    let name = target_of(field)?;
    if number_of(names, name).is_some() {
        return None;
    }
    Some(Misfit {
        part: Part::Whole,
        key: Some("name"),
        found: Found::Of(entry_of(field, "name")?),
        right: Right::Said("the name of a template of this text"),
    })
}

/// Returns the error of a field, by the code.
fn misfit_at<'a>(
    alloc: Global,
    names: &HashMap<String, usize>,
    field: &'a Value,
    code: StaticCode,
) -> Option<Misfit<'a>> {
    match code {
        StaticCode::S1 => shapes::field_misfit(field),
        StaticCode::D8 => target_misfit(names, field),
        _ => uses::field_misfit(alloc, field, code),
    }
}

/// Writes a number that is too great, and its greatest value.
fn tell_most(note: &mut Note, number: u64, words: &str, most: u64) {
    let _ = put(note, &["\n"]);
    let _ = put(note, &["  "])
        && put_number(note, number)
        && put(note, &[words])
        && put_number(note, most)
        && put(note, &["\n"]);
}

/// Writes the number of references that lead on from a field, if the field is a reference from which too many do. Returns whether it is.
fn tells_links(known: Known<'_>, walk: &Walk<'_>, field: &Value, note: &mut Note) -> bool {
    let Some(name) = target_of(field) else {
        return false;
    };
    match size_named(known, name) {
        Some(size) if size.links < NESTING_LIMIT as u64 => return false,
        _ => {}
    }
    walk.tell_way(note);
    let _ = put(note, &["\n"]);
    let _ = put(note, &["  "])
        && put_quoted(note, name)
        && put(
            note,
            &[": expected a template from which fewer references lead on\n"],
        );
    true
}

/// Writes how deep groups and sequences nest at a field, if that is too deep. Returns whether it is.
fn tells_depth(known: Known<'_>, walk: &Walk<'_>, field: &Value, note: &mut Note) -> bool {
    if tells_links(known, walk, field, note) {
        return true;
    }
    let depth = depth_at(known, walk.depth(), field);
    if depth <= NESTING_LIMIT as u64 {
        return false;
    }
    walk.tell_way(note);
    let words = " groups and sequences, one in another, expected at most ";
    tell_most(note, depth, words, NESTING_LIMIT as u64);
    true
}

/// Writes how many bits of its presence map the segment of a field can use, if these are too many. Returns whether they are.
fn tells_bits(known: Known<'_>, walk: &Walk<'_>, field: &Value, note: &mut Note) -> bool {
    let bits = segment_bits(known, items_of(field, "fields"));
    if bits <= SEGMENT_LIMIT as u64 {
        return false;
    }
    walk.tell_way(note);
    tell_most(note, bits, " bits, expected at most ", SEGMENT_LIMIT as u64);
    true
}

/// Writes why a field is at fault with the code, if it is. Returns whether it is.
fn tells(
    alloc: Global,
    known: Known<'_>,
    walk: &Walk<'_>,
    field: &Value,
    code: StaticCode,
    note: &mut Note,
) -> bool {
    match code {
        StaticCode::C4 => tells_depth(known, walk, field, note),
        StaticCode::C5 => tells_bits(known, walk, field, note),
        _ => match misfit_at(alloc, known.names, field, code) {
            Some(misfit) => {
                walk.tell_way(note);
                tell(note, &misfit);
                true
            }
            None => false,
        },
    }
}

/// Writes the first field that is at fault with the code. Returns whether there is one.
fn tell_first(
    alloc: Global,
    known: Known<'_>,
    template: &Value,
    code: StaticCode,
    note: &mut Note,
) -> Result<bool, AllocError> {
    let mut walk = Walk::new(alloc, template);
    for _field in 0..u64::MAX {
        let Some(field) = walk.next()? else {
            break;
        };
        if tells(alloc, known, &walk, field, code, &mut *note) {
            return Ok(true);
        }
    }
    Ok(false)
}

/// Writes the first field that is at fault with the code. For C5, if there is none, it writes that the fault is in a template that this one
/// refers to.
fn tell_field(
    alloc: Global,
    known: Known<'_>,
    template: &Value,
    code: StaticCode,
    note: &mut Note,
) -> Result<(), AllocError> {
    if !tell_first(alloc, known, template, code, note)? {
        let _ = put(note, &["\n"]);
        if matches!(code, StaticCode::C5) {
            let _ = put(note, &["  it is in a template that this one refers to\n"]);
        }
    }
    Ok(())
}

/// Writes which earlier template has the same value at a key.
fn tell_earlier(note: &mut Note, number: u64, earlier: &Value, found: Found<'_>) {
    let name = name_of(earlier).unwrap_or("");
    let _ = put(note, &["  "])
        && put_found(note, found)
        && put(note, &[": template "])
        && put_number(note, number)
        && put(note, &[" "])
        && put_quoted(note, name)
        && put(note, &[" has it\n"]);
}

/// Returns whether two templates have the same name or the same identifier, by the key.
fn is_same(one: &Value, other: &Value, key: &str) -> bool {
    match key {
        "name" => name_of(one) == name_of(other),
        _ => match id_of(one) {
            Some(id) => id_of(other) == Some(id),
            None => false,
        },
    }
}

/// Writes which earlier template has the same name or the same identifier, by the key.
fn tell_twice(place: Place<'_>, key: &'static str, note: &mut Note) {
    let _ = put(note, &[", key \"", key, "\"\n"]);
    for (k, other) in place.templates.iter().enumerate() {
        if k >= place.number {
            return;
        }
        if is_same(other, place.template, key) {
            if let Some(value) = entry_of(place.template, key) {
                tell_earlier(note, k as u64, other, Found::Of(value));
            }
            return;
        }
    }
}

/// Returns the identifier of a template.
fn id_of(template: &Value) -> Option<i64> {
    entry_of(template, "id")?.as_integer()
}

/// Writes the number of nodes up to a template, that one included.
fn tell_nodes(known: Known<'_>, number: usize, note: &mut Note) {
    let mut nodes: u64 = 0;
    for (k, size) in known.sizes.iter().enumerate() {
        if k <= number {
            if let Some(size) = size {
                nodes = nodes.saturating_add(size.nodes);
            }
        }
    }
    tell_most(
        note,
        nodes,
        " nodes up to its end, expected at most ",
        NODE_LIMIT as u64,
    );
}

/// Writes which segment can use too many bits of its presence map.
fn tell_bits(
    alloc: Global,
    known: Known<'_>,
    template: &Value,
    note: &mut Note,
) -> Result<(), AllocError> {
    let own = segment_bits(known, items_of(template, "fields")).saturating_add(1);
    if own > SEGMENT_LIMIT as u64 {
        let words = " bits with that of the identifier, expected at most ";
        tell_most(note, own, words, SEGMENT_LIMIT as u64);
        return Ok(());
    }
    tell_field(alloc, known, template, StaticCode::C5, note)
}

/// Writes the position in a template of a code that is about sizes.
fn tell_size(
    alloc: Global,
    names: &HashMap<String, usize>,
    place: Place<'_>,
    code: StaticCode,
    note: &mut Note,
) -> Result<(), AllocError> {
    let sizes = sizes_of(alloc, names, place.templates)?;
    let known = Known {
        names,
        sizes: sizes.as_slice(),
    };
    match code {
        StaticCode::C5 => tell_bits(alloc, known, place.template, note),
        StaticCode::C6 => {
            tell_nodes(known, place.number, note);
            Ok(())
        }
        _ => tell_field(alloc, known, place.template, code, note),
    }
}

/// Writes the position in a template of a code that depends on the names of all templates.
fn tell_named(
    alloc: Global,
    place: Place<'_>,
    code: StaticCode,
    note: &mut Note,
) -> Result<(), AllocError> {
    let names = index(alloc, place.templates)?;
    match code {
        StaticCode::C4 | StaticCode::C5 | StaticCode::C6 => tell_size(
            alloc, &names, place, code, note,
        ),
        _ => {
            let known = Known {
                names: &names,
                sizes: &[],
            };
            tell_field(alloc, known, place.template, code, note)
        }
    }
}

/// Writes the error of form in a template.
fn tell_shape(alloc: Global, place: Place<'_>, note: &mut Note) -> Result<(), AllocError> {
    match shapes::template_misfit(place.template) {
        Some(misfit) => {
            tell(note, &misfit);
            Ok(())
        }
        None => tell_named(alloc, place, StaticCode::S1, note),
    }
}

/// Writes the position of a code in a template.
pub(crate) fn tell_code(
    alloc: Global,
    place: Place<'_>,
    code: StaticCode,
    note: &mut Note,
) -> Result<(), AllocError> {
    tell_template(note, place.number, place.template);
    match code {
        StaticCode::S1 => tell_shape(alloc, place, note),
        StaticCode::C1 => {
            tell_twice(place, "name", note);
            Ok(())
        }
        StaticCode::C2 => {
            tell_twice(place, "id", note);
            Ok(())
        }
        StaticCode::C3 => tell_circle(alloc, place.templates, place.number, note),
        StaticCode::Memory => Ok(()),
        _ => tell_named(alloc, place, code, note),
    }
}
