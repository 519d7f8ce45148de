//! Presence maps: the bits that instructions use, and segments within one another.

use super::{expect, expect_rows, set_of};
use fast_machine::layout::text_marks;
use std::test::Fail;

/// An instruction each, followed by a field whose bit shows how many the instruction uses.
const BITS: &str = r#"
[[template]]
name = "1"
id = 1
fields = [{kind="ascii", name="f"}, {kind="uInt32", name="y", optional=true, op="copy"}]
[[template]]
name = "2"
id = 2
fields = [{kind="ascii", name="f", optional=true}, {kind="uInt32", name="y", optional=true, op="copy"}]
[[template]]
name = "3"
id = 3
fields = [{kind="ascii", name="f", op="constant", value="X"}, {kind="uInt32", name="y", optional=true, op="copy"}]
[[template]]
name = "4"
id = 4
fields = [{kind="ascii", name="f", optional=true, op="constant", value="X"}, {kind="uInt32", name="y", optional=true, op="copy"}]
[[template]]
name = "5"
id = 5
fields = [{kind="ascii", name="f", op="default", value="X"}, {kind="uInt32", name="y", optional=true, op="copy"}]
[[template]]
name = "6"
id = 6
fields = [{kind="ascii", name="f", optional=true, op="default"}, {kind="uInt32", name="y", optional=true, op="copy"}]
[[template]]
name = "7"
id = 7
fields = [{kind="ascii", name="f", op="copy", value="X"}, {kind="uInt32", name="y", optional=true, op="copy"}]
[[template]]
name = "8"
id = 8
fields = [{kind="ascii", name="f", optional=true, op="copy"}, {kind="uInt32", name="y", optional=true, op="copy"}]
[[template]]
name = "9"
id = 9
fields = [{kind="uInt32", name="f", op="increment", value="3"}, {kind="uInt32", name="y", optional=true, op="copy"}]
[[template]]
name = "10"
id = 10
fields = [{kind="uInt32", name="f", optional=true, op="increment"}, {kind="uInt32", name="y", optional=true, op="copy"}]
[[template]]
name = "11"
id = 11
fields = [{kind="ascii", name="f", op="delta"}, {kind="uInt32", name="y", optional=true, op="copy"}]
[[template]]
name = "12"
id = 12
fields = [{kind="ascii", name="f", optional=true, op="delta"}, {kind="uInt32", name="y", optional=true, op="copy"}]
[[template]]
name = "13"
id = 13
fields = [{kind="ascii", name="f", op="tail", value="X"}, {kind="uInt32", name="y", optional=true, op="copy"}]
[[template]]
name = "14"
id = 14
fields = [{kind="ascii", name="f", optional=true, op="tail"}, {kind="uInt32", name="y", optional=true, op="copy"}]
[[template]]
name = "15"
id = 15
fields = [{kind="decimal", name="p", optional=true, exponent={op="copy"}, mantissa={op="increment"}}, {kind="uInt32", name="y", optional=true, op="copy"}]
[[template]]
name = "16"
id = 16
fields = [{kind="group", name="g", fields=[{kind="uInt32", name="x"}]}, {kind="uInt32", name="y", optional=true, op="copy"}]
[[template]]
name = "17"
id = 17
fields = [{kind="group", name="g", optional=true, fields=[{kind="uInt32", name="x"}]}, {kind="uInt32", name="y", optional=true, op="copy"}]
[[template]]
name = "18"
id = 18
fields = [{kind="sequence", name="s", length={op="constant", value="1"}, fields=[{kind="uInt32", name="x"}]}, {kind="uInt32", name="y", optional=true, op="copy"}]
[[template]]
name = "19"
id = 19
fields = [{kind="sequence", name="s", optional=true, length={op="constant", value="1"}, fields=[{kind="uInt32", name="x"}]}, {kind="uInt32", name="y", optional=true, op="copy"}]
"#;

const THE_BITS_OF_FIELDS: &str = "\
no operator | strict | E0 81 C1 86 | m0 a0='A' u1=5 /m | between
no operator, optional | strict | E0 82 C1 86 | m1 a2='A' u3=5 /m | between
constant | strict | E0 83 86 | m2 a4='X' u5=5 /m | between
constant, optional | strict | D0 84 86 | m3 u7=5 /m | between
default | strict | D0 85 86 | m4 a8='X' u9=5 /m | between
default, optional | strict | D0 86 86 | m5 u11=5 /m | between
copy | strict | D0 87 86 | m6 a12='X' u13=5 /m | between
copy, optional | strict | D0 88 86 | m7 u15=5 /m | between
increment | strict | D0 89 86 | m8 u16=3 u17=5 /m | between
increment, optional | strict | D0 8A 86 | m9 u19=5 /m | between
delta | strict | E0 8B 80 C1 86 | m10 a20='A' u21=5 /m | between
delta, optional | strict | E0 8C 81 C1 86 | m11 a22='A' u23=5 /m | between
tail | strict | D0 8D 86 | m12 a24='X' u25=5 /m | between
tail, optional | strict | D0 8E 86 | m13 u27=5 /m | between
";

const THE_BITS_OF_OTHER_INSTRUCTIONS: &str = "\
a decimal by parts | strict | F8 8F 83 85 86 | m14 d28=5e2 u29=5 /m | between
a group | strict | E0 90 85 86 | m15 g30 u31=5 /g u32=5 /m | between
an optional group | strict | F0 91 85 86 | m16 g33 u34=5 /g u35=5 /m | between
an optional group that is absent | strict | D0 91 86 | m16 u35=5 /m | between
a sequence of constant length | strict | E0 92 85 86 | m17 s36*1 e u37=5 /e /s u38=5 /m | between
an optional sequence of constant length | strict | F0 93 85 86 | m18 s39*1 e u40=5 /e /s u41=5 /m | between
an optional sequence of constant length that is absent | strict | D0 93 86 | m18 u41=5 /m | between
";

#[test]
fn rows_of_bits(rt: HostRuntime) -> Result<(), Fail> {
    expect_rows(
        &rt,
        rt.alloc(),
        BITS,
        &[THE_BITS_OF_FIELDS, THE_BITS_OF_OTHER_INSTRUCTIONS],
    )
}

/// Templates whose fields use no bit.
const FLAT: &str = r#"
[[template]]
name = "A"
id = 7
fields = [{kind="uInt32", name="x"}, {kind="uInt32", name="y"}]
[[template]]
name = "B"
id = 9
"#;

const A_FLAT_MESSAGE: &str = "\
one byte of a map | strict | C0 87 81 82 C0 89 | m0 u0=1 u1=2 /m m1 /m | between
a second byte | strict | 40 81 87 | | R8@3
a second byte, of a message without fields | strict | 40 81 89 | | R8@3
";

const A_FLAT_SET: &str = "\
the identifier is kept | strict | C0 87 81 82 80 83 84 | m0 u0=1 u1=2 /m m0 u0=3 u1=4 /m | between
";

#[test]
fn rows_of_flat(rt: HostRuntime) -> Result<(), Fail> {
    expect_rows(&rt, rt.alloc(), FLAT, &[A_FLAT_MESSAGE, A_FLAT_SET])
}

/// An entry of strings and one of numbers.
const ENTRIES: &str = r#"
[[template]]
name = "T"
id = 1
fields = [{kind="bytes", name="b", optional=true, op="delta"}, {kind="uInt32", name="n", optional=true, op="copy"}]
"#;

/// The identifier's entry is the first.
#[test]
fn entries_of_texts_are_marked(rt: HostRuntime) -> Result<(), Fail> {
    let set = set_of(rt.alloc(), ENTRIES)?;
    let marks = text_marks(rt.alloc(), &set)?;
    let are_marked = marks.as_slice() == [false, true, false].as_slice();
    expect(&rt, are_marked, "marks", marks.len());
    Ok(())
}

/// A group with a sequence, whose elements have a group without a map.
const SEGMENTS: &str = r#"
[[template]]
name = "segments"
id = 1
fields = [
    {kind="uInt32", name="a1", optional=true, op="copy"},
    {kind="uInt32", name="a2", optional=true, op="copy"},
    {kind="uInt32", name="a3", optional=true, op="copy"},
    {kind="uInt32", name="a4", optional=true, op="copy"},
    {kind="group", name="g", fields=[
    {kind="uInt32", name="b1", optional=true, op="copy"},
    {kind="sequence", name="s", fields=[
    {kind="uInt32", name="e1", optional=true, op="copy"},
    {kind="uInt32", name="e2", optional=true, op="copy"},
    {kind="uInt32", name="e3", optional=true, op="copy"},
    {kind="uInt32", name="e4", optional=true, op="copy"},
    {kind="uInt32", name="e5", optional=true, op="copy"},
    {kind="uInt32", name="e6", optional=true, op="copy"},
    {kind="uInt32", name="e7", optional=true, op="copy"},
    {kind="uInt32", name="e8", optional=true, op="copy"},
    {kind="uInt32", name="e9", optional=true, op="copy"},
    {kind="uInt32", name="e10", optional=true, op="copy"},
    {kind="group", name="h", fields=[{kind="uInt32", name="c"}]},
    {kind="uInt32", name="e11", optional=true, op="copy"},
    {kind="uInt32", name="e12", optional=true, op="copy"},
    {kind="uInt32", name="e13", optional=true, op="copy"},
    {kind="uInt32", name="e14", optional=true, op="copy"}
    ]},
    {kind="uInt32", name="b2", optional=true, op="copy"},
    {kind="uInt32", name="b3", optional=true, op="copy"},
    {kind="uInt32", name="b4", optional=true, op="copy"},
    {kind="uInt32", name="b5", optional=true, op="copy"},
    {kind="uInt32", name="b6", optional=true, op="copy"},
    {kind="uInt32", name="b7", optional=true, op="copy"}
    ]},
    {kind="uInt32", name="a5", optional=true, op="copy"},
    {kind="uInt32", name="a6", optional=true, op="copy"},
    {kind="uInt32", name="a7", optional=true, op="copy"},
    {kind="uInt32", name="a8", optional=true, op="copy"},
    {kind="uInt32", name="a9", optional=true, op="copy"},
    {kind="uInt32", name="a10", optional=true, op="copy"},
    {kind="uInt32", name="a11", optional=true, op="copy"},
    {kind="uInt32", name="a12", optional=true, op="copy"},
    {kind="uInt32", name="a13", optional=true, op="copy"},
    {kind="uInt32", name="a14", optional=true, op="copy"},
    {kind="uInt32", name="a15", optional=true, op="copy"},
    {kind="uInt32", name="a16", optional=true, op="copy"},
    {kind="uInt32", name="a17", optional=true, op="copy"},
    {kind="uInt32", name="a18", optional=true, op="copy"},
    {kind="uInt32", name="a19", optional=true, op="copy"},
    {kind="uInt32", name="a20", optional=true, op="copy"}
]
"#;

const SEGMENTS_COME_BACK: &str = "\
maps of three, one and two bytes, and a segment without a map | strict \
    | C0 81 80 80 25 00 C1 82 83 FF 84 81 7F 81 85 86 87 88 89 8A 8B 83 8C 8D 8E 8F 90 91 92 93 94 95 \
    | m0 g4 s6*0 /s /g /m m0 u0=1 u3=2 g4 u5=3 s6*1 e u7=4 u8=5 u9=6 u10=7 u11=8 u12=9 u13=10 g17 u18=3 /g u22=11 /e \
    /s u23=12 u24=13 u25=14 u26=15 u27=16 u28=17 /g u30=18 u38=19 u44=20 /m | between
";

const MAPS_ARE_TAKEN: &str = "\
a map of two bytes | strict | C0 81 80 80 25 C1 82 83 80 80 84 85 86 \
    | m0 g4 s6*0 /s /g /m m0 u0=1 u3=2 g4 s6*0 /s /g u30=3 u31=4 u37=5 /m | between
a map of one byte | strict | C0 81 80 80 A0 82 80 80 | m0 g4 s6*0 /s /g /m m0 u0=1 g4 s6*0 /s /g /m | between
no bit but that of the identifier | strict | C0 81 80 80 | m0 g4 s6*0 /s /g /m | between
145 bytes of a map | strict | 00*145 | | inside
200 bytes without a stop bit | strict | 00*200 | | L3@146
";

#[test]
fn rows_of_segments(rt: HostRuntime) -> Result<(), Fail> {
    expect_rows(
        &rt,
        rt.alloc(),
        SEGMENTS,
        &[SEGMENTS_COME_BACK, MAPS_ARE_TAKEN],
    )
}
