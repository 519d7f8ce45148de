//! Sets that were read: their numbers, entries and limits.

use super::super::expect;
use super::{Faults, expect_faults, finds, joined, put, set_of};
use fast_template::{FieldInstruction, Node, Operator, Shape, StaticCode, Templates, VECTORS};
use fast_value::Value;
use itoa::Buffer;
use std::alloc::{AllocError, Global};
use std::process::Abort;
use std::test::Fail;

/// Adds a note of each value of a node: `?` if it is optional, and its entry.
fn spell_shape(text: &mut String, shape: &Shape) -> Result<(), AllocError> {
    match shape {
        Shape::Field(field) => spell(text, field),
        Shape::Decimal { exponent, mantissa } => {
            spell(text, exponent)?;
            spell(text, mantissa)
        }
        Shape::Group { optional, body } => {
            put(text, &[if *optional { " ?{" } else { " {" }])?;
            spell_numbers(text, body)
        }
        Shape::Sequence { length, body } => {
            spell(text, length)?;
            put(text, &[" {"])?;
            spell_numbers(text, body)
        }
    }
}

/// Adds a node: the name, and then the notes of its values.
fn spell_node(text: &mut String, node: &Node) -> Result<(), AllocError> {
    put(text, &[node.name.as_str()])?;
    spell_shape(text, &node.shape)?;
    put(text, &["; "])
}

/// Writes the set of a file, node by node.
fn spelled(alloc: Global, set: &Templates) -> Result<String, AllocError> {
    let mut text = String::new(alloc);
    for n in 0..set.nodes() {
        spell_node(&mut text, set.node(n))?;
    }
    Ok(text)
}

fn spell(text: &mut String, field: &FieldInstruction) -> Result<(), AllocError> {
    let before = if field.optional { " ?" } else { " " };
    let mut number = Buffer::new();
    let entry = match field.entry {
        Some(entry) => number.format(entry),
        None => "-",
    };
    put(text, &[before])?;
    put(text, &[entry])
}

fn spell_numbers(text: &mut String, body: &[u32]) -> Result<(), AllocError> {
    for n in body {
        put(text, &[" ", Buffer::new().format(*n)])?;
    }
    put(text, &[" }"])
}

/// Returns whether the template has these nodes, and resets or not.
fn is_template(set: &Templates, i: u32, body: &[u32], reset: bool) -> bool {
    if i < set.count() {
        let template = set.template(i);
        template.body.as_slice() == body && template.reset == reset
    } else {
        false
    }
}

/// Returns whether the node is a constant 7.
fn is_seven(set: &Templates, n: u32) -> bool {
    n < set.nodes()
        && matches!(
            &set.node(n).shape,
            Shape::Field(FieldInstruction {
                operator: Operator::Constant,
                initial: Some(Value::U(7)),
                ..
            })
        )
}

const VECTORS_SPELLED: &str =
    "x -; s - { 2 }; c -; t 1; d 2; n 3; x ?4; p ?5 6; y 7; u -; z 8; w 4; i -; o ?-; q ?-; x -; g ?{ 17 }; b -; legs ?- { 19 20 }; sym 9; px 10; v ?11; e 12; a -; b ?-; r ?-; ";

/// Returns whether the worked set finds its templates, and has the expected numbers of templates, nodes and entries.
fn has_numbers(set: &Templates) -> bool {
    let ids = [(15, Some(14)), (0, None)];
    let names = [("T19", Some(18)), ("T", None)];
    finds(set, 19, &ids, &names) && set.nodes() == 26 && set.entries() == 13
}

/// Returns whether the worked set has the expected parts.
fn has_parts(set: &Templates) -> bool {
    is_template(set, 14, &[15, 16, 18], false) && is_template(set, 8, &[], true) && is_seven(set, 2)
}

/// Checks that the set is written so.
fn expect_set(
    rt: &impl Abort,
    alloc: Global,
    set: &Templates,
    want: &str,
) -> Result<(), AllocError> {
    let spelled = spelled(alloc, set)?;
    expect(rt, spelled.as_str() == want, spelled.as_str(), want.len());
    Ok(())
}

/// Checks that the set of a file is written so.
fn expect_spelled(rt: &impl Abort, alloc: Global, text: &str, want: &str) -> Result<(), Fail> {
    let set = set_of(alloc, text)?;
    expect_set(rt, alloc, &set, want)?;
    Ok(())
}

#[test]
fn the_worked_set_has_its_numbers(rt: HostRuntime) -> Result<(), Fail> {
    let set = set_of(rt.alloc(), VECTORS)?;
    expect(&rt, has_numbers(&set), "numbers", 19);
    expect(&rt, has_parts(&set), "parts", 19);
    expect_spelled(&rt, rt.alloc(), VECTORS, VECTORS_SPELLED)
}

/// The rest of a template, and the set, as it is written.
const ENTRIES: &[(&str, &str)] = &[
    // an exponent before a mantissa, a length before its element, and none for a constant or a default
    (
        "fields = [{kind='sequence', name='s', length={op='delta'}, fields=[{kind='decimal', name='p', mantissa={op='delta'}, exponent={op='copy'}}]}, {kind='uInt32', name='c', op='default', value='1'}]",
        "s 1 { 1 }; p 2 3; c -; ",
    ),
    // a length with a name of its own is a field of that name; one without is no field
    (
        "fields = [{kind='sequence', name='s', length={name='n', op='copy'}}, {kind='uInt32', name='n', op='copy'}, {kind='uInt32', name='s', op='copy'}, {kind='sequence', name='s', length={op='copy'}}]",
        "s 1 { }; n 1; s 2; s 3 { }; ",
    ),
    // a key of its own stands for a plain entry, whatever it is on
    (
        "fields = [{kind='decimal', name='p', exponent={op='copy', key='k'}, mantissa={op='copy', key='p'}}, {kind='decimal', name='p', op='copy'}, {kind='ascii', name='k', op='tail'}]",
        "p 1 2; p 2; k 1; ",
    ),
    // dictionaries: the template's default, the template's own, one with a name, the global one
    (
        "dictionary = 'd'\nfields = [{kind='uInt32', name='x', op='copy'}, {kind='uInt32', name='x', op='copy', dictionary='template'}, {kind='uInt32', name='x', op='copy', dictionary='global'}, {kind='uInt32', name='x', op='copy', dictionary='d'}]\n[[template]]\nname = 'B'\nfields = [{kind='uInt32', name='x', op='copy', dictionary='template'}, {kind='uInt32', name='x', op='copy'}, {kind='uInt32', name='x', op='copy', dictionary='d'}]",
        "x 1; x 2; x 3; x 1; x 4; x 3; x 1; ",
    ),
    // the operators of a reference belong to the template that it names, and are numbered there
    (
        "dictionary = 'template'\nfields = [{kind='ref', name='B'}, {kind='uInt32', name='x', op='copy'}, {kind='group', name='g', fields=[{kind='ref', name='B'}, {kind='ref', name='B'}]}]\n[[template]]\nname = 'B'\nfields = [{kind='uInt32', name='y', op='copy', dictionary='template'}, {kind='uInt32', name='x', op='copy'}]",
        "y 2; x 3; x 1; g { 4 5 6 7 }; y 2; x 3; y 2; x 3; y 2; x 3; ",
    ),
];

/// Checks that a template with this rest is written so.
fn expect_rest(rt: &impl Abort, alloc: Global, rest: &str, want: &str) -> Result<(), Fail> {
    let text = joined(alloc, &["[[template]]\nname = 'A'\n", rest])?;
    expect_spelled(rt, alloc, text.as_str(), want)
}

#[test]
fn entries_are_those_of_the_text(rt: HostRuntime) -> Result<(), Fail> {
    for (rest, want) in ENTRIES {
        expect_rest(&rt, rt.alloc(), rest, want)?;
    }
    Ok(())
}

/// Returns a template with this number of mandatory fields under copy.
fn copying(alloc: Global, count: usize) -> Result<String, AllocError> {
    let mut text = joined(alloc, &["[[template]]\nname = 'A'\nfields = ["])?;
    let mut number = Buffer::new();
    for n in 0..count {
        put(
            &mut text,
            &[
                "{kind='uInt32', name='f",
                number.format(n),
                "', op='copy'},",
            ],
        )?;
    }
    put(&mut text, &["]\n"])?;
    Ok(text)
}

/// The faults of files after as many bits as there may be.
const ENOUGH_BITS: Faults = &[(
    None,
    &[
        "",
        "[[template]]\nname = 'B'\nfields = [{kind='group', name='g', fields=[{kind='ref', name='A'}]}]\n",
    ],
)];

/// The faults of files after one bit too many: earlier passes come first.
#[rattlefmt::skip]
const TOO_MANY_BITS: Faults = &[
    (Some((StaticCode::C5, Some(0))), &[""]),
    // a reference to itself, and one to nothing
    (Some((StaticCode::D8, Some(1))), &["[[template]]\nname = 'B'\nfields = [{kind='ref', name='B'}, {kind='ref', name='X'}]"]),
    // a reference to itself
    (Some((StaticCode::C3, Some(1))), &["[[template]]\nname = 'B'\nfields = [{kind='ref', name='B'}]"]),
    (Some((StaticCode::C1, Some(1))), &["[[template]]\nname = 'A'"]),
    // 65 times as many nodes
    (
        Some((StaticCode::C6, Some(1))),
        &[
            "[[template]]\nname = 'B'\nfields = [{kind='ref', name='C'}, {kind='ref', name='C'}, {kind='ref', name='C'}, {kind='ref', name='C'}]\n[[template]]\nname = 'C'\nfields = [{kind='ref', name='D'}, {kind='ref', name='D'}, {kind='ref', name='D'}, {kind='ref', name='D'}]\n[[template]]\nname = 'D'\nfields = [{kind='ref', name='A'}, {kind='ref', name='A'}, {kind='ref', name='A'}, {kind='ref', name='A'}]",
        ],
    ),
];

/// Checks that files after a template with this number of fields have the expected faults.
fn expect_behind(
    rt: &impl Abort,
    alloc: Global,
    count: usize,
    faults: Faults,
) -> Result<(), AllocError> {
    let text = copying(alloc, count)?;
    expect_faults(rt, alloc, (text.as_str(), ""), faults)
}

/// The number of bits in 32 bytes of a map, without the identifier's.
const COPIES: usize = 224;

#[test]
fn a_map_has_more_than_32_bytes(rt: HostRuntime) -> Result<(), Fail> {
    expect_behind(&rt, rt.alloc(), COPIES, ENOUGH_BITS)?;
    Ok(())
}

#[test]
fn a_message_has_1022_bits(rt: HostRuntime) -> Result<(), Fail> {
    expect_behind(&rt, rt.alloc(), 1021, ENOUGH_BITS)?;
    expect_behind(&rt, rt.alloc(), 1022, TOO_MANY_BITS)?;
    Ok(())
}

/// A number and a string, each with an entry.
const NUMBER_AND_TEXT: &str = r#"
[[template]]
name = "A"
fields = [{kind="uInt32", name="x", op="copy"}, {kind="ascii", name="y", op="copy"}]
"#;

#[test]
fn entries_of_texts_hold_texts(rt: HostRuntime) -> Result<(), Fail> {
    let set = set_of(rt.alloc(), NUMBER_AND_TEXT)?;
    for (entry, is_text) in &[(0, false), (1, false), (2, true), (3, false)] {
        let is_right = set.holds_text(*entry) == *is_text;
        expect(&rt, is_right, "entry", *entry as usize);
    }
    Ok(())
}
