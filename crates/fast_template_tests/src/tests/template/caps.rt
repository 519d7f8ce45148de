//! The most events of a message, and the depth to which its segments nest.

use super::super::expect;
use super::set_of;
use fast_template::Templates;
use fast_value::Limits;
use std::alloc::Global;
use std::process::Abort;
use std::test::Fail;

/// A group in a sequence in a sequence.
const NESTED: &str = r#"
        [[template]]
        name = "A"
        id = 1
        fields = [
            { kind = "uInt32", name = "x" },
            { kind = "sequence", name = "outer", fields = [
                { kind = "sequence", name = "inner", fields = [
                    { kind = "uInt32", name = "c", op = "constant", value = "7" },
                ] },
                { kind = "group", name = "g", optional = true, fields = [
                    { kind = "ascii", name = "t", op = "copy" },
                ] },
            ] },
        ]
    "#;

/// A sequence of constants.
const CONSTANTS: &str = r#"
        [[template]]
        name = "A"
        id = 1
        fields = [
            { kind = "sequence", name = "s", fields = [
                { kind = "uInt32", name = "c", op = "constant", value = "7" },
            ] },
        ]
    "#;

/// Three fields, and one.
const FLAT: &str = r#"
        [[template]]
        name = "A"
        fields = [{kind="uInt32", name="x"}, {kind="uInt32", name="y"}, {kind="uInt32", name="z"}]
        [[template]]
        name = "B"
        fields = [{kind="uInt32", name="x"}]
    "#;

fn limits(max_elements: u32, max_total: u32) -> Limits {
    Limits {
        strict: false,
        max_text: 1024,
        max_elements,
        max_total,
    }
}

/// A set, its depth, and the caps by the limits of a sequence and of a message.
type Caps = (&'static str, u32, &'static [(u32, u32, u64)]);

const ROWS: &[Caps] = &[
    // the cap is that of the longest template
    (FLAT, 0, &[(1000, 1000, 5)]),
    (
        NESTED,
        2,
        &[
            (0, 1000, 5),
            (1000, 0, 5),
            (1, 1000, 15),
            (2, 1000, 31),
            (1000, 3, 26),
            (u32::MAX, u32::MAX, 30064771070),
        ],
    ),
    // elements without bytes have caps
    (
        CONSTANTS,
        1,
        &[
            (1000, 1000, 3004),
            (1000, 0, 4),
            (u32::MAX, u32::MAX, 12884901889),
        ],
    ),
];

/// Returns whether the caps under these limits are these.
fn has_caps(set: &Templates, caps: &[(u32, u32, u64)]) -> bool {
    for (max_elements, max_total, cap) in caps {
        if set.message_cap(limits(*max_elements, *max_total)) != *cap {
            return false;
        }
    }
    true
}

/// Checks that the set of a file has this depth and these caps.
fn expect_caps(rt: &impl Abort, alloc: Global, row: &Caps) -> Result<(), Fail> {
    let (text, depth, caps) = row;
    let set = set_of(alloc, text)?;
    let is_right = set.depth() == *depth && has_caps(&set, caps);
    expect(rt, is_right, text, caps.len());
    Ok(())
}

#[test]
fn depths_and_caps(rt: HostRuntime) -> Result<(), Fail> {
    for row in ROWS {
        expect_caps(&rt, rt.alloc(), row)?;
    }
    Ok(())
}
