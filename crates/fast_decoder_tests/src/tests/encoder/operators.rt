//! Operators: the encodings of values, and values that have none.

use super::expect_rows;
use std::test::Fail;

/// Constants of each type family, by themselves, as parts and as lengths; and after fields under copy.
const CONSTANTS: &str = r#"
[[template]]
name = "all"
id = 1
fields = [{kind="uInt32", name="a", op="constant", value="7"}, {kind="ascii", name="b", op="constant", value="AB"}, {kind="decimal", name="c", op="constant", value="15e-1"}, {kind="bytes", name="d", op="constant", value="01FF"}]
[[template]]
name = "optional"
id = 2
fields = [{kind="uInt32", name="e", optional=true, op="constant", value="7"}]
[[template]]
name = "length"
id = 3
fields = [{kind="sequence", name="f", length={op="constant", value="2"}, fields=[{kind="uInt32", name="g"}]}]
[[template]]
name = "exponent"
id = 4
fields = [{kind="decimal", name="h", optional=true, exponent={op="constant", value="-2"}, mantissa={op="copy"}}]
[[template]]
name = "behind"
id = 5
fields = [{kind="uInt32", name="i", optional=true, op="copy"}, {kind="uInt32", name="j", op="constant", value="7"}]
[[template]]
name = "reset"
id = 6
reset = true
fields = [{kind="uInt32", name="k", op="constant", value="7"}]
"#;

const CONSTANT_VALUES: &[&str] = &[
    "other values | lenient
     m0 u0=8 a1='AB' d2=15e-1 b3=01FF /m > E3
     m0 u0=7 a1='A' d2=15e-1 b3=01FF /m > E3
     m0 u0=7 a1='AB' d2=150e-2 b3=01FF /m > E3
     m0 u0=7 a1='AB' d2=15e-1 b3=01FE /m > E3
     m0 u0=7 a1='AB' d2=15e-1 b3=01FF /m > C0 81",
    "one that may be absent | lenient
     m1 u4=6 /m > E3
     m1 u4=7 /m > E0 82
     m1 u4=8 /m > E3
     m1 - /m > 80",
    "a length | lenient
     m2 s5*0 /s /m > E3
     m2 s5*1 e u6=1 /e /s /m > E3
     m2 s5*2 e u6=1 /e e u6=2 /e /s /m > C0 83 81 82",
    "an exponent | lenient
     m3 d7=1e-1 /m > E3
     m3 d7=5e-2 /m > F0 84 85
     m3 - /m > 80
     m3 d7=5e-2 /m > A0",
    "behind a value that is copied | lenient
     m4 u8=1 u9=7 /m > E0 85 82
     m4 u8=2 u9=8 /m > E3
     m4 u8=1 u9=7 /m > 80
     m4 - u9=8 /m > E3
     m4 u8=1 u9=7 /m > 80",
    "behind an identifier, and a reset | lenient
     m4 u8=1 u9=7 /m > E0 85 82
     m5 u10=8 /m > E3
     m4 u8=1 u9=7 /m > 80
     m5 u10=7 /m > C0 86
     m4 u8=1 u9=7 /m > E0 85 82",
];

#[test]
fn constants(rt: HostRuntime) -> Result<(), Fail> {
    expect_rows(&rt, rt.alloc(), CONSTANTS, CONSTANT_VALUES)
}

/// Copies, increments and defaults, of fields, lengths, and in groups.
const COPIES: &str = r#"
[[template]]
name = "length"
id = 1
fields = [{kind="sequence", name="a", length={op="copy"}, fields=[{kind="uInt32", name="b"}]}]
[[template]]
name = "optional_length"
id = 2
fields = [{kind="sequence", name="c", optional=true, length={op="increment"}, fields=[{kind="uInt32", name="d"}]}]
[[template]]
name = "increment"
id = 3
fields = [{kind="int32", name="e", op="increment"}]
[[template]]
name = "copy"
id = 4
fields = [{kind="uInt32", name="f", op="copy", value="5"}]
[[template]]
name = "optional_copy"
id = 5
fields = [{kind="uInt32", name="g", optional=true, op="copy", value="5"}]
[[template]]
name = "optional_default"
id = 6
fields = [{kind="uInt32", name="h", optional=true, op="default", value="5"}]
[[template]]
name = "groups"
id = 7
fields = [{kind="group", name="i", optional=true, fields=[{kind="uInt32", name="j", op="copy"}, {kind="group", name="k", optional=true, fields=[{kind="uInt32", name="l", optional=true}]}]}]
[[template]]
name = "decimal"
id = 8
fields = [{kind="decimal", name="m", op="copy"}]
"#;

const COPIED_VALUES: &[&str] = &[
    "a length | lenient
     m0 s0*1 e u1=5 /e /s /m > E0 81 81 85
     m0 s0*1 e u1=6 /e /s /m > 80 86
     m0 s0*0 /s /m > A0 80",
    "a length that may be absent | lenient
     m1 - /m > C0 82
     m1 s2*0 /s /m > A0 81
     m1 s2*1 e u3=5 /e /s /m > 80 85
     m1 - /m > A0 80",
    "after the greatest value comes the least | lenient
     m2 i4=2147483647 /m > E0 83 07 7F 7F 7F FF
     m2 i4=-2147483648 /m > 80
     m2 i4=-2147483648 /m > A0 78 00 00 00 80",
    "initial values | lenient
     m3 u5=5 /m > C0 84
     m4 - /m > E0 85 80
     m4 - /m > 80
     m4 u6=5 /m > A0 86
     m5 - /m > E0 86 80
     m5 u7=5 /m > 80
     m5 - /m > A0 80",
    "groups | lenient
     m6 - /m > C0 87
     m6 g8 u9=1 - /g /m > A0 C0 81
     m6 g8 u9=1 g10 - /g /g /m > A0 A0 80
     m6 g8 u9=1 g10 u11=2 /g /g /m > A0 A0 83",
    "a decimal | lenient
     m7 d12=15e-1 /m > E0 88 FF 8F
     m7 d12=15e-1 /m > 80
     m7 d12=150e-2 /m > A0 FE 01 96",
];

#[test]
fn copies(rt: HostRuntime) -> Result<(), Fail> {
    expect_rows(&rt, rt.alloc(), COPIES, COPIED_VALUES)
}

/// Deltas of each type family, and copies under their keys.
const DELTAS: &str = r#"
[[template]]
name = "int32"
id = 1
fields = [{kind="int32", name="a", op="delta"}]
[[template]]
name = "uInt64"
id = 2
fields = [{kind="uInt64", name="b", op="delta"}]
[[template]]
name = "decimal"
id = 3
fields = [{kind="decimal", name="c", op="delta"}]
[[template]]
name = "ascii"
id = 4
fields = [{kind="ascii", name="d", op="delta"}]
[[template]]
name = "optional_bytes"
id = 5
fields = [{kind="bytes", name="e", optional=true, op="delta"}]
[[template]]
name = "initial"
id = 6
fields = [{kind="int32", name="f", op="delta", value="10"}, {kind="unicode", name="g", op="delta", value="é"}]
[[template]]
name = "copied_uInt64"
id = 7
fields = [{kind="uInt64", name="h", optional=true, op="copy", key="b"}]
[[template]]
name = "copied_uInt32"
id = 8
fields = [{kind="uInt32", name="i", op="copy", key="b"}]
[[template]]
name = "optional_uInt64"
id = 9
fields = [{kind="uInt64", name="j", optional=true, op="delta", key="b"}]
[[template]]
name = "copied_decimal"
id = 10
fields = [{kind="decimal", name="k", optional=true, op="copy", key="c"}]
[[template]]
name = "copied_ascii"
id = 11
fields = [{kind="ascii", name="l", optional=true, op="copy", key="d"}]
[[template]]
name = "copied_unicode"
id = 12
fields = [{kind="unicode", name="m", op="copy", key="d"}]
"#;

const DIFFERENCES: &[&str] = &[
    "over all of 32 bits | lenient
     m0 i0=-2147483648 /m > C0 81 78 00 00 00 80
     m0 i0=2147483647 /m > 80 0F 7F 7F 7F FF",
    "over all of 64 bits | lenient
     m1 u1=18446744073709551615 /m > C0 82 01 7F*8 FF
     m1 u1=0 /m > 80 7E 00*8 81",
    "over all decimals | lenient
     m2 d2=-9223372036854775808e-63 /m > C0 83 C1 7F 00*8 80
     m2 d2=9223372036854775807e63 /m > 80 00 FE 01 7F*8 FF",
    "the shorter part, and the appended one of two that are as long | lenient
     m3 a3='ABCDEF' /m > C0 84 80 41 42 43 44 45 C6
     m3 a3='XYDEF' /m > 80 FC 58 D9
     m3 a3='XYDE' /m > 80 81 80
     m3 a3='' /m > 80 84 80
     m3 a3='AB' /m > 80 80 41 C2
     m3 a3='AC' /m > 80 81 C3
     m3 a3='XY' /m > 80 82 58 D9
     m3 a3='XYXY' /m > 80 80 58 D9
     m3 a3='XYXY' /m > 80 80 80",
    "absence leaves the base as it is | lenient
     m4 b4=010203 /m > C0 85 81 83 01 02 03
     m4 - /m > 80 80
     m4 b4=090203 /m > 80 FE 81 09",
    "from initial values | lenient
     m5 i5=10 t6='è' /m > C0 86 80 81 81 A8
     m5 i5=9 t6='è' /m > 80 FF 80 80",
    "none from an empty number | lenient
     m6 - /m > C0 87
     m1 u1=4 /m > E3
     m8 u9=4 /m > E3
     m6 - /m > 80
     m8 - /m > C0 89 80
     reset
     m1 u1=4 /m > C0 82 84",
    "none from a number of another type | lenient
     m7 u8=3 /m > E0 88 83
     m1 u1=4 /m > E3
     m7 u8=3 /m > 80
     m8 - /m > C0 89 80",
    "none from an empty decimal | lenient
     m9 - /m > C0 8A
     m2 d2=1e0 /m > E3
     m9 d10=1e0 /m > A0 81 81
     m2 d2=1e1 /m > C0 83 81 80",
    "none from an empty text | lenient
     m10 - /m > C0 8B
     m3 a3='A' /m > E3
     m10 - /m > 80",
    "none from a text of another type | lenient
     m11 t12='A' /m > E0 8C 81 41
     m3 a3='A' /m > E3
     m11 t12='A' /m > 80",
];

#[test]
fn deltas(rt: HostRuntime) -> Result<(), Fail> {
    expect_rows(&rt, rt.alloc(), DELTAS, DIFFERENCES)
}

/// Tails of each type family, and a copy under the key of one.
const TAILS: &str = r#"
[[template]]
name = "ascii"
id = 1
fields = [{kind="ascii", name="a", op="tail"}]
[[template]]
name = "initial"
id = 2
fields = [{kind="ascii", name="b", op="tail", value="ABC"}]
[[template]]
name = "optional"
id = 3
fields = [{kind="ascii", name="c", optional=true, op="tail", value="ABC", key="b"}]
[[template]]
name = "copied_uInt32"
id = 4
fields = [{kind="uInt32", name="d", op="copy", key="a"}]
[[template]]
name = "unicode"
id = 5
fields = [{kind="unicode", name="e", op="tail"}]
[[template]]
name = "optional_bytes"
id = 6
fields = [{kind="bytes", name="f", optional=true, op="tail"}]
"#;

const ENDS: &[&str] = &[
    "from an initial value | lenient
     m1 a1='AB' /m > E3
     m1 a1='ABC' /m > C0 82
     m1 a1='ABD' /m > A0 C4
     m1 a1='ABDE' /m > A0 41 42 44 C5",
    "the end of an initial value | lenient
     m1 a1='AXC' /m > E0 82 58 C3",
    "nothing at the end of an initial value | lenient
     m2 - /m > E0 83 80
     m2 a2='' /m > E3
     m2 - /m > 80
     m1 a1='ABC' /m > E0 82 80
     m2 a2='ABC' /m > C0 83",
    "none of another type | lenient
     m3 u3=3 /m > E0 84 83
     m0 a0='ABC' /m > E3
     m3 u3=3 /m > 80",
    "no UTF-8 by itself | lenient
     m4 t4='é' /m > E0 85 82 C3 A9
     m4 t4='A' /m > E3
     m4 t4='è' /m > A0 81 A8",
    "behind absence | lenient
     m5 b5=0102 /m > E0 86 83 01 02
     m5 b5=01 /m > E3
     m5 - /m > A0 80
     m5 - /m > 80
     m5 b5=01 /m > A0 82 01",
];

#[test]
fn tails(rt: HostRuntime) -> Result<(), Fail> {
    expect_rows(&rt, rt.alloc(), TAILS, ENDS)
}
