//! Messages that do not suit their template.

use super::super::put;
use super::expect_rows;
use itoa::Buffer;
use std::alloc::{AllocError, Global};
use std::test::Fail;

/// A mandatory field of each type, a decimal by parts, a group, a sequence, and the fields after them.
const KINDS: &str = r#"
[[template]]
name = "uInt32"
id = 1
fields = [{kind="uInt32", name="a"}]
[[template]]
name = "int32"
id = 2
fields = [{kind="int32", name="b"}]
[[template]]
name = "uInt64"
id = 3
fields = [{kind="uInt64", name="c"}]
[[template]]
name = "int64"
id = 4
fields = [{kind="int64", name="d"}]
[[template]]
name = "decimal"
id = 5
fields = [{kind="decimal", name="e"}]
[[template]]
name = "ascii"
id = 6
fields = [{kind="ascii", name="f"}]
[[template]]
name = "unicode"
id = 7
fields = [{kind="unicode", name="g"}]
[[template]]
name = "bytes"
id = 8
fields = [{kind="bytes", name="h"}]
[[template]]
name = "parts"
id = 9
fields = [{kind="decimal", name="i", exponent={}, mantissa={}}]
[[template]]
name = "group"
id = 10
fields = [{kind="group", name="j", fields=[{kind="uInt32", name="k"}]}]
[[template]]
name = "sequence"
id = 11
fields = [{kind="sequence", name="l", fields=[{kind="uInt32", name="m"}]}]
[[template]]
name = "constant"
id = 12
fields = [{kind="uInt32", name="n", op="constant", value="5"}, {kind="ascii", name="o"}]
[[template]]
name = "nameless"
fields = [{kind="uInt32", name="p"}]
"#;

/// The contents that a slot can have, and slots that are too few and too many.
const SHAPES: &[&str] = &[
    "u0=5",
    "i0=5",
    "d0=5e0",
    "a0='5'",
    "t0='5'",
    "b0=35",
    "g0 u0=5 /g",
    "s0*1 1*u0=5 /s",
    "-",
    "",
    "u0=5 u0=5",
];

/// The index of the shape that suits each of the first templates.
const SUITS: &[usize] = &[0, 1, 0, 1, 2, 3, 4, 5, 2, 6, 7];

/// Adds a message of a template with this shape, which is refused.
fn put_shape(row: &mut String, number: &str, shape: &str) -> Result<(), AllocError> {
    put(row, &["\nm", number, " ", shape, " /m > E2"])
}

/// Adds a step for each shape that does not suit the template.
fn add_unsuited(row: &mut String, template: u32, suits: usize) -> Result<(), AllocError> {
    let mut buffer = Buffer::new();
    let number = buffer.format(template);
    for (i, shape) in SHAPES.iter().enumerate() {
        if i != suits {
            put_shape(row, number, shape)?;
        }
    }
    Ok(())
}

/// Returns messages of all shapes but those that suit, and then one that suits.
fn unsuited(alloc: Global) -> Result<String, AllocError> {
    let mut row = String::new(alloc);
    put(&mut row, &["another shape | lenient"])?;
    for (template, suits) in (0..11u32).zip(SUITS) {
        add_unsuited(&mut row, template, *suits)?;
    }
    put(&mut row, &["\nm0 u0=5 /m > C0 81 85"])?;
    Ok(row)
}

#[test]
fn other_shapes(rt: HostRuntime) -> Result<(), Fail> {
    let row = unsuited(rt.alloc())?;
    expect_rows(&rt, rt.alloc(), KINDS, &[row.as_str()])
}

const VALUES: &[&str] = &[
    "of 32 bits without sign | lenient
     m0 u0=4294967296 /m > E2
     m0 u0=18446744073709551615 /m > E2
     m0 u0=4294967295 /m > C0 81 0F 7F 7F 7F FF
     m0 u0=0 /m > 80 80",
    "of 32 bits with a sign | lenient
     m1 i1=2147483648 /m > E2
     m1 i1=-2147483649 /m > E2
     m1 i1=2147483647 /m > C0 82 07 7F 7F 7F FF
     m1 i1=-2147483648 /m > 80 78 00 00 00 80",
    "of 64 bits | lenient
     m2 u2=18446744073709551615 /m > C0 83 01 7F*8 FF
     m3 i3=-9223372036854775808 /m > C0 84 7F 00*8 80",
    "decimals | lenient
     m4 d4=1e64 /m > E2
     m4 d4=1e-64 /m > E2
     m4 d4=1e-2147483648 /m > E2
     m4 d4=1e63 /m > C0 85 BF 81
     m4 d4=1e-63 /m > 80 C1 81",
    "decimals by parts | lenient
     m8 d8=1e64 /m > E2
     m8 d8=1e-64 /m > E2
     m8 d8=-1e63 /m > C0 89 BF FF
     m8 d8=0e-63 /m > 80 C1 80",
    "ASCII | lenient
     m5 a5=x80 /m > E2
     m5 a5=x41FF /m > E2
     m5 a5='A\x7F' /m > C0 86 41 FF
     m5 a5='' /m > 80 80",
    "Unicode | lenient
     m6 t6=xC328 /m > E2
     m6 t6=x41C3 /m > E2
     m6 t6=xC080 /m > E2
     m6 t6=xEDA080 /m > E2
     m6 t6=xF4908080 /m > E2
     m6 t6='\u{10FFFF}' /m > C0 87 84 F4 8F BF BF
     m6 t6='' /m > 80 80",
    "bytes | lenient
     m7 b7=C300 /m > C0 88 82 C3 00
     m7 b7= /m > 80 80",
];

#[test]
fn values(rt: HostRuntime) -> Result<(), Fail> {
    expect_rows(&rt, rt.alloc(), KINDS, VALUES)
}

const WITHIN: &[&str] = &[
    "in a group | lenient
     m9 g9 /g /m > E2
     m9 g9 - /g /m > E2
     m9 g9 u10=5 u10=5 /g /m > E2
     m9 g9 i10=5 /g /m > E2
     m9 g9 u10=5 /g - /m > E2
     m9 g9 u10=5 /g /m > C0 8A 85",
    "in the last element | lenient
     m10 s11*2 e u12=5 /e e /e /s /m > E2
     m10 s11*2 e u12=5 /e e - /e /s /m > E2
     m10 s11*1 e u12=5 u12=5 /e /s /m > E2
     m10 s11*2 e u12=5 /e e a12='5' /e /s /m > E2
     m10 s11*2 e u12=5 /e e u12=6 /e /s /m > C0 8B 82 85 86
     m10 s11*0 /s /m > 80 80",
    "behind what has no encoding | lenient
     m11 u13=6 a14=x80 /m > E2
     m11 u13=6 - /m > E2
     m11 u13=5 a14='A' /m > C0 8C C1",
    "no template with an identifier, whatever the message holds | lenient
     m12 u15=5 /m > E1
     m12 i15=5 /m > E1
     m13 - /m > E1
     m0 u0=5 /m > C0 81 85",
];

#[test]
fn within_others(rt: HostRuntime) -> Result<(), Fail> {
    expect_rows(&rt, rt.alloc(), KINDS, WITHIN)
}
