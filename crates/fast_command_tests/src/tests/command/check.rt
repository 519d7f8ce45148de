//! Tests of `check`: the five lines of a set, and the list of its templates and nodes.

use super::super::{LENIENT, built_in_set, expect, set_of};
use fast_command::{RunFault, run_check};
use fast_template::Templates;
use fast_text::{Target, ToBytes};
use fast_value::Limits;
use std::process::Abort;

const LINES: &str = "templates 2\nnodes 3\nentries 1\ndepth 0\ncap 4\n";

const SET: &str = r#"
[[template]]
name = "A"
fields = [{kind="uInt32", name="x"}, {kind="uInt32", name="y"}]
[[template]]
name = "B"
fields = [{kind="uInt32", name="x"}]
"#;

/// The most bytes of the lines of a test.
const ROOM: usize = 1024;

/// Checks the lines of a set, or the part of them that has room.
fn expect_lines(
    rt: &impl Abort,
    set: &Templates,
    limits: Limits,
    list: bool,
    room: usize,
    lines: &str,
) {
    let mut cells = [0; ROOM];
    let (cells, _) = cells.split_at_mut(room.min(ROOM));
    let mut target = ToBytes::new(cells);
    let answer = run_check(set, limits, list, &mut target);
    let (wanted, front) = if room < lines.len() {
        (Err(RunFault::Write), room)
    } else {
        (Ok(()), lines.len())
    };
    let is_right = answer == wanted
        && target.failed() == answer.is_err()
        && target.bytes() == &lines.as_bytes()[..front];
    expect(rt, is_right, lines, room);
}

/// The greatest number of elements of a message, and the lines of the built-in set.
#[rattlefmt::skip]
const BUILT_IN_LINES: &[(u32, &str)] = &[
    (1000, "templates 19\nnodes 26\nentries 13\ndepth 1\ncap 4008\n"),
    (0, "templates 19\nnodes 26\nentries 13\ndepth 1\ncap 8\n"),
];

#[test]
fn the_built_in_set_in_five_lines(rt: HostRuntime) {
    let set = built_in_set(&rt, rt.alloc());
    for (max_total, lines) in BUILT_IN_LINES {
        let limits = Limits {
            max_total: *max_total,
            ..LENIENT
        };
        expect_lines(&rt, &set, limits, false, ROOM, lines);
    }
}

/// A writer that fails has received the start of the lines.
#[test]
fn a_set_in_five_lines(rt: HostRuntime) {
    let set = set_of(&rt, rt.alloc(), SET);
    for room in 0..=64 {
        expect_lines(&rt, &set, LENIENT, false, room, LINES);
    }
}

const LISTED_SET: &str = r#"
[[template]]
name = "Head"
fields = [{kind="uInt64", name="time", op="delta"}, {kind="int32", name="zone", optional=true, op="default", value="-60"}]
[[template]]
name = "Quotes"
id = 12
reset = true
fields = [
  {kind="ref", name="Head"},
  {kind="sequence", name="legs", optional=true, length={op="copy"}, fields=[
    {kind="group", name="side", fields=[
      {kind="decimal", name="px", exponent={op="default", value="-2"}, mantissa={op="delta"}},
      {kind="ascii", name="who", op="copy", key="party", value="A\"B"},
    ]},
    {kind="int64", name="gap", op="increment"},
  ]},
  {kind="group", name="end", optional=true, fields=[{kind="bytes", name="raw", optional=true, op="tail"}]},
  {kind="unicode", name="note", op="constant", value="x"},
]
"#;

const LISTED_LINES: &str = r#"templates 2
nodes 12
entries 7
depth 2
cap 7010
template 0 Head id - reset false bits 2
node 0 time uInt64 mandatory delta entry 1
node 1 zone int32 optional default initial i -60
template 1 Quotes id 12 reset true bits 4
node 2 time uInt64 mandatory delta entry 1
node 3 zone int32 optional default initial i -60
node 4 legs sequence optional length copy entry 2
node 5 legs.side group mandatory
node 6 legs.side.px decimal mandatory exponent default initial i -2 mantissa delta entry 3
node 7 legs.side.who ascii mandatory copy entry 4 initial a "A\"B"
node 8 legs.gap int64 mandatory increment entry 5
node 9 end group optional
node 10 end.raw bytes optional tail entry 6
node 11 note unicode mandatory constant initial s "x"
"#;

/// The list follows the five lines. A writer that fails has received the start of both.
#[test]
fn a_set_with_its_list(rt: HostRuntime) {
    let set = set_of(&rt, rt.alloc(), LISTED_SET);
    for room in [0, 30, 64, 65, 200, 512, ROOM] {
        expect_lines(&rt, &set, LENIENT, true, room, LISTED_LINES);
    }
}
