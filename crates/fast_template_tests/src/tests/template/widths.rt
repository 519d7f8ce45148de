//! The presence bits of segments, and which instructions are optional.

use super::super::expect;
use super::set_of;
use fast_template::Templates;
use std::alloc::{AllocError, Global};
use std::test::Fail;

/// Instructions with and without a bit, and a template without any.
const SET: &str = "[[template]]
name = 'A'
fields = [
    {kind='uInt32', name='a', op='copy'},
    {kind='decimal', name='p', optional=true, exponent={op='default'}, mantissa={op='delta'}},
    {kind='group', name='g', optional=true, fields=[{kind='uInt32', name='b', optional=true, op='constant', value='1'}, {kind='ascii', name='c', op='tail'}]},
    {kind='sequence', name='s', length={op='increment'}, fields=[{kind='uInt32', name='d'}]},
]
[[template]]
name = 'B'
";

/// The bits of each template's messages, with the identifier's.
const MESSAGES: &[usize] = &[5, 1];

/// The bits of the segment in each node, and whether the node is optional.
const NODES: &[(usize, bool)] = &[
    (0, false),
    (0, true),
    (2, true),
    (0, true),
    (0, false),
    (0, false),
    (0, false),
];

fn bits_of_messages(alloc: Global, set: &Templates) -> Result<Vec<usize>, AllocError> {
    let mut bits = Vec::new(alloc);
    for i in 0..set.count() {
        bits.push(set.message_bits(i))?;
    }
    Ok(bits)
}

fn what_nodes_have(alloc: Global, set: &Templates) -> Result<Vec<(usize, bool)>, AllocError> {
    let mut nodes = Vec::new(alloc);
    for n in 0..set.nodes() {
        nodes.push((set.segment_bits(n), set.is_optional(n)))?;
    }
    Ok(nodes)
}

/// Returns whether messages and nodes have the expected bits.
fn has_widths(alloc: Global, set: &Templates) -> Result<bool, AllocError> {
    let messages = bits_of_messages(alloc, set)?;
    let nodes = what_nodes_have(alloc, set)?;
    Ok(messages.as_slice() == MESSAGES && nodes.as_slice() == NODES)
}

#[test]
fn bits_and_what_may_be_absent(rt: HostRuntime) -> Result<(), Fail> {
    let set = set_of(rt.alloc(), SET)?;
    let has_widths = has_widths(rt.alloc(), &set)?;
    expect(&rt, has_widths, "bits", 0);
    Ok(())
}
