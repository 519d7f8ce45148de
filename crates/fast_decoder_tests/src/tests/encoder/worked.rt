//! Messages of a set with templates of every type.

use super::super::limits::{around_text, wide_text};
use super::expect_rows;
use fast_template::VECTORS;
use std::test::Fail;

const MESSAGES: &[&str] = &[
    "a message, one without its field, and another of its template | lenient
     m0 u0=942755 /m > C0 81 39 45 A3
     m0 - /m > E2
     m0 u0=0 /m > 80 80",
    "a field, a group and two elements | lenient
     m14 u15=5 g16 b17=01FF /g s18*2 e a19='AB' i20=100 /e e a19='AB' i20=98 /e /s /m \
     > E0 8F 85 82 01 FF 83 C0 41 C2 00 E4 80 FE",
    "neither group nor sequence, and then no element | lenient
     m14 u15=5 - - /m > C0 8F 85 80
     m14 u15=5 - s18*0 /s /m > 80 85 81",
    "a template that makes all previous values undefined but the identifier's | lenient
     m5 u6=0 /m > E0 86 81
     m8 /m > C0 89
     m8 /m > 80
     m5 - /m > C0 86",
    "no template of the number | lenient
     m85 u0=1 /m > E1
     m19 u0=1 /m > E1
     m4294967295 /m > E1
     m18 - /m > C0 93 80",
    "elements that take no byte, too many, and another | lenient
     m1 s1*1001 1001*u2=7 /s /m > E4
     m1 s1*1000 1000*u2=7 /s /m > C0 82 07 E8
     m1 s1*1 1*u2=8 /s /m > E3
     m1 s1*1 1*u2=7 /s /m > 80 81",
];

#[test]
fn messages(rt: HostRuntime) -> Result<(), Fail> {
    expect_rows(&rt, rt.alloc(), VECTORS, MESSAGES)
}

const NUMBERS: &[&str] = &[
    "signed integers | lenient
     m11 i12=-942755 /m > C0 8C 46 3A DD
     m11 i12=8193 /m > 80 00 40 81
     m11 i12=-8193 /m > 80 7F 3F FF",
    "the greatest value, absent, and 0 | lenient
     m12 u13=4294967295 /m > C0 8D 10 00 00 00 80
     m12 - /m > 80 80
     m12 u13=0 /m > 80 81",
    "the greatest of all integers, which takes ten bytes | lenient
     m13 i14=9223372036854775807 /m > C0 8E 01 00*8 80",
    "after the greatest value comes the least | lenient
     m4 u5=4294967295 /m > E0 85 0F 7F 7F 7F FF
     m4 u5=0 /m > 80
     m4 u5=1 /m > 80",
    "a copied value is made absent, and stays so | lenient
     m5 u6=0 /m > E0 86 81
     m5 - /m > A0 80
     m5 - /m > 80",
    "a delta, none, and one more | lenient
     m15 i21=5 /m > C0 90 86
     m15 - /m > 80 80
     m15 i21=6 /m > 80 82",
    "decimals, and none | lenient
     m17 d23=15e-1 - /m > C0 92 FF 8F 80
     m17 d23=1e63 d24=5e0 /m > 80 BF 81 81 85",
    "an absent exponent needs no byte, and leaves the next bit to the next field | lenient
     m6 - u8=5 /m > D0 87 85",
    "a decimal by parts, and one with another mantissa | lenient
     m6 d7=15e-1 u8=5 /m > F8 87 FF 8F 85
     m6 d7=16e-1 u8=5 /m > 90 90",
];

#[test]
fn numbers(rt: HostRuntime) -> Result<(), Fail> {
    expect_rows(&rt, rt.alloc(), VECTORS, NUMBERS)
}

const TEXTS: &[&str] = &[
    "tails, and none for a text that is shorter than its base | lenient
     m2 a3='ABCDE' /m > E0 83 41 42 43 44 C5
     m2 a3='ABCXY' /m > A0 58 D9
     m2 a3='ABCXY' /m > 80
     m2 a3='AB' /m > E3
     m2 a3='ABCXY' /m > 80
     reset
     m2 a3='AB' /m > E0 83 41 C2",
    "deltas at the back and at the front | lenient
     m3 a4='GEH6' /m > C0 84 80 47 45 48 B6
     m3 a4='GEM6' /m > 80 82 4D B6
     m3 a4='ZZGEM6' /m > 80 FF 5A DA",
    "an absent text, one with a zero in front, and an empty one | lenient
     m18 - /m > C0 93 80
     m18 a25='\0A' /m > R9
     m18 a25='' /m > 80 00 80",
    "a text of two bytes | lenient
     m7 t9='é' /m > C0 88 82 C3 A9",
    "a delta whose part is no UTF-8 by itself | lenient
     m16 t22='é' /m > C0 91 80 82 C3 A9
     m16 t22='è' /m > 80 81 81 A8",
    "a previous value of another type is not copied | lenient
     m5 u6=0 /m > E0 86 81
     m10 a11='A' /m > E0 8B C1
     m10 a11='A' /m > 80",
];

#[test]
fn texts(rt: HostRuntime) -> Result<(), Fail> {
    expect_rows(&rt, rt.alloc(), VECTORS, TEXTS)
}

const WIDE: &[&str] = &[
    "the last of 300 fields | lenient
     m0 -*299 u299=5 /m > 40 00*41 81 81 86
     m0 -*299 u299=5 /m > 80",
    "the last bit of a byte, and the first one of the next | lenient
     m0 -*5 u5=1 -*294 /m > C1 81 82
     m0 -*6 u6=1 -*293 /m > 01 C0 80 82
     m0 -*6 u6=1 -*293 /m > 80",
    "the bits before and after the 63rd | lenient
     m0 -*61 u61=1 u62=2 u63=3 -*236 /m > 40 00*7 01 E0 81 82 83 84
     m0 -*61 u61=1 u62=2 u63=3 -*236 /m > 80
     m0 -*124 u124=1 u125=2 -*174 /m > 00*8 01 60 00*7 01 C0 80 80 80 82 83
     m0 -*300 /m > 00*17 01 C0 80 80",
];

#[test]
fn a_wide_map(rt: HostRuntime) -> Result<(), Fail> {
    let text = wide_text(rt.alloc())?;
    expect_rows(&rt, rt.alloc(), text.as_str(), WIDE)
}

/// Elements whose bits follow 61 of the segment around them: the 63rd and the 64th bit of all are within the first one.
const AROUND: &[&str] = &[
    "bits of an element on both sides of the 63rd | lenient
     m0 -*60 s60*2 e u61=1 u62=2 u63=3 /e e u61=1 u62=5 - /e /s - - /m > C0 81 82 F0 82 83 84 B0 86 80
     m0 -*60 s60*1 e - u62=5 - /e /s u64=7 u65=8 /m > 00*8 83 81 C0 80 88 89
     m0 -*59 u59=4 s60*0 /s - u65=8 /m > 00*8 86 85 80 80",
];

#[test]
fn bits_around_elements(rt: HostRuntime) -> Result<(), Fail> {
    let text = around_text(rt.alloc())?;
    expect_rows(&rt, rt.alloc(), text.as_str(), AROUND)
}

/// Fields whose values need not be sent.
const INITIAL: &str = r#"
[[template]]
name = "numbers"
id = 1
fields = [{kind="uInt32", name="c", optional=true, op="constant", value="7"}, {kind="int32", name="d", op="default", value="-3"}, {kind="uInt32", name="e", optional=true, op="default"}]
[[template]]
name = "texts"
id = 2
fields = [{kind="ascii", name="f", op="default", value="AB"}, {kind="bytes", name="g", op="constant", value="01FF"}]
"#;

const INITIAL_VALUES: &[&str] = &[
    "a constant and defaults, and then values in their place | lenient
     m0 u0=7 i1=-3 - /m > E0 81
     m0 - i1=2 - /m > 90 82
     m0 - i1=-3 u2=0 /m > 88 81",
    "texts that are not sent, and one that is | lenient
     m1 a3='AB' b4=01FF /m > C0 82
     m1 a3='' b4=01FF /m > A0 80",
];

#[test]
fn initial_values(rt: HostRuntime) -> Result<(), Fail> {
    expect_rows(&rt, rt.alloc(), INITIAL, INITIAL_VALUES)
}
