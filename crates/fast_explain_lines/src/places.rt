//! Lines that are at the wrong place: another one is expected, or one before them is missing.

use crate::misfits::{Found, Misfit, part, put_found, put_misfit, put_place, rest, word_end};
use crate::nodes::{end_with_node, name_of, put_choices, put_templates, put_typed, word_of};
use crate::walks::{Open, Walk};
use fast_lines::forms::{Line, parse_line};
use fast_notes::{Note, put, put_number, put_quoted};

/// A line at fault.
#[derive(Clone, Copy)]
pub(crate) struct Fault<'a> {
    /// Its number, from 1.
    pub(crate) number: u64,
    /// Its content, without the LF.
    pub(crate) line: &'a [u8],
}

/// A line of a node.
#[derive(Clone, Copy)]
struct Named<'a> {
    /// The first word of the line.
    word: &'static str,
    node: u32,
    name: &'a [u8],
}

/// Returns the node that a line names, if it names one.
fn node_named(line: &[u8]) -> Option<Named<'_>> {
    let (word, node, name) = match parse_line(line)? {
        Line::Field { node, name, .. } => ("field", node, name),
        Line::Group { node, name } => ("group", node, name),
        Line::Sequence { node, name, .. } => ("sequence", node, name),
        _ => return None,
    };
    Some(Named { word, node, name })
}

/// Returns the offset of a line after its first `words` words.
pub(crate) fn offset_after(line: &[u8], words: usize) -> usize {
    let mut at: usize = 0;
    for _word in 0..words {
        at = word_end(line, at).saturating_add(1);
    }
    at.min(line.len())
}

/// Writes what is found at an offset of a line, and `: expected`. Returns whether it had room.
fn put_expected(note: &mut Note, fault: Fault<'_>, at: usize, found: Found<'_>) -> bool {
    put_place(note, fault.number, fault.line, at)
        && put_found(note, found)
        && put(note, &[": expected "])
}

/// Returns the line without the value of a field, which may be long.
fn head_of(line: &[u8]) -> Found<'_> {
    let length = match parse_line(line) {
        Some(Line::Field { .. }) => offset_after(line, 3).saturating_sub(1),
        _ => line.len(),
    };
    match line.get(0..length) {
        Some(head) => Found::Part(head),
        None => Found::Part(line),
    }
}

/// Writes which lines can come instead of a line.
fn tell_choices(note: &mut Note, walk: &Walk<'_>, fault: Fault<'_>) {
    let _ = put_expected(note, fault, 0, head_of(fault.line))
        && match walk.start {
            None => put(note, &["message and the name of a template"]),
            Some(_) => put_choices(note, walk.templates, walk.choices()),
        }
        && put(note, &["\n"]);
}

/// Returns the only one of these nodes that has this name and this first word of its line.
fn only_one(walk: &Walk<'_>, nodes: &[u32], named: Named<'_>) -> Option<u32> {
    let mut only = None;
    for number in nodes {
        if is_called(walk, *number, named) {
            if only.is_some() {
                return None;
            }
            only = Some(*number);
        }
    }
    only
}

/// Returns whether a node has this name and this first word of its line.
fn is_called(walk: &Walk<'_>, number: u32, named: Named<'_>) -> bool {
    word_of(walk.templates, number) == named.word
        && name_of(walk.templates, number).as_bytes() == named.name
}

/// Writes which word, number or name is wrong in a line that names a node that can come next. Returns whether there is one.
fn tell_named(note: &mut Note, walk: &Walk<'_>, fault: Fault<'_>, named: Named<'_>) -> bool {
    let nodes = walk.choices().nodes;
    if is_called(walk, named.node, named) && nodes.contains(&named.node) {
        return false;
    }
    if nodes.contains(&named.node) {
        let right = name_of(walk.templates, named.node);
        if word_of(walk.templates, named.node) != named.word {
            let _ = put_expected(note, fault, 0, Found::Part(named.word.as_bytes()))
                && put_typed(note, walk.templates, named.node)
                && put(note, &["\n"]);
        } else {
            let at = offset_after(fault.line, 2);
            let _ = put_expected(note, fault, at, Found::Part(named.name))
                && put_quoted(note, right)
                && end_with_node(note, walk.templates, named.node);
        }
        return true;
    }
    let (passed, left) = walk.segment();
    let is_of_segment = passed.contains(&named.node) || left.contains(&named.node);
    if is_of_segment && is_called(walk, named.node, named) {
        return false;
    }
    let Some(number) = only_one(walk, nodes, named) else {
        return false;
    };
    let at = offset_after(fault.line, 1);
    let end = word_end(fault.line, at);
    let _ = put_expected(note, fault, at, Found::Part(part(fault.line, at, end)))
        && put_number(note, u64::from(number))
        && end_with_node(note, walk.templates, number);
    true
}

/// Writes why nothing of a line's name can come next.
pub(crate) fn tell_misplaced(note: &mut Note, walk: &Walk<'_>, fault: Fault<'_>) {
    let Some(named) = node_named(fault.line) else {
        return tell_choices(note, walk, fault);
    };
    if tell_named(note, walk, fault, named) {
        return;
    }
    tell_choices(note, walk, fault);
    let (passed, _) = walk.segment();
    if passed.contains(&named.node) && is_called(walk, named.node, named) {
        let _ = put(note, &["  "])
            && put_typed(note, walk.templates, named.node)
            && put(
                note,
                &[" comes earlier in the template, and once at most\n"],
            );
    }
}

/// Writes the names that a message can have, or what can come next if the line is within a message.
pub(crate) fn tell_unknown(note: &mut Note, walk: &Walk<'_>, fault: Fault<'_>) {
    if walk.start.is_some() {
        return tell_choices(note, walk, fault);
    }
    let at = offset_after(fault.line, 1);
    let name = rest(fault.line, at);
    let mut alike = None;
    for number in 0..walk.templates.count() {
        let other = walk.templates.template(number).name.as_str();
        if other.as_bytes().eq_ignore_ascii_case(name) {
            alike = Some(other);
        }
    }
    let _ = put_expected(note, fault, at, Found::Part(name))
        && match alike {
            Some(other) => put_quoted(note, other),
            None => put(note, &["the name of a template:"]) && put_templates(note, walk.templates),
        }
        && put(note, &["\n"]);
}

/// Writes which mandatory node is missing before a line.
pub(crate) fn tell_passed(note: &mut Note, walk: &Walk<'_>, fault: Fault<'_>) {
    let choices = walk.choices();
    if let (Some(number), None) = (choices.nodes.last(), choices.ending) {
        let _ = put_expected(note, fault, 0, head_of(fault.line))
            && put_typed(note, walk.templates, *number)
            && put(note, &[" before it, since that is mandatory\n"]);
    }
}

/// Writes how many elements a sequence has, and how many its line has.
pub(crate) fn tell_count(note: &mut Note, walk: &Walk<'_>, fault: Fault<'_>) {
    let Some(
        Open::Sequence {
            node,
            line,
            count,
            begun,
        },
    ) = walk.innermost()
    else {
        return;
    };
    let is_short = begun < count;
    let _ = put_expected(note, fault, 0, Found::Part(fault.line))
        && put(note, &[if is_short { "element" } else { "end sequence" }])
        && put(note, &[", since the count in line "])
        && put_number(note, line)
        && put(note, &[" is "])
        && put_number(note, u64::from(count))
        && put(
            note,
            &[if is_short {
                " and there are "
            } else {
                " and this is element "
            }],
        )
        && put_number(note, u64::from(begun).saturating_add(u64::from(!is_short)))
        && end_with_node(note, walk.templates, node);
}

/// Writes what is missing at the end of a file, which ends before the line of this number.
pub(crate) fn tell_missing(note: &mut Note, walk: &Walk<'_>, fault: Fault<'_>) {
    let Some(start) = walk.start else {
        return;
    };
    let name = if start.template < walk.templates.count() {
        walk.templates.template(start.template).name.as_str()
    } else {
        ""
    };
    let _ = put_expected(note, fault, 0, Found::Said("the end of the input"))
        && put_choices(note, walk.templates, walk.choices())
        && put(note, &["\n  the message begins in line "])
        && put_number(note, start.line)
        && put(note, &[", template "])
        && put_quoted(note, name)
        && put(note, &["\n"]);
}

/// Writes an error, and then a node in parentheses.
pub(crate) fn tell_with_node(
    note: &mut Note,
    walk: &Walk<'_>,
    fault: Fault<'_>,
    misfit: &Misfit<'_>,
    node: u32,
) {
    let _ = put_misfit(note, fault.number, fault.line, misfit)
        && end_with_node(note, walk.templates, node);
}
