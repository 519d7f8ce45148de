//! The lengths of unsigned integers, decimals by parts under each operator, and strings of each length that take the place of others.

use super::expect_rows;
use std::test::Fail;

/// Unsigned integers of 64 bits, mandatory and optional.
const INTEGERS: &str = r#"
[[template]]
name = "mandatory"
id = 1
fields = [{kind="uInt64", name="a"}]
[[template]]
name = "optional"
id = 2
fields = [{kind="uInt64", name="b", optional=true}]
"#;

const INTEGER_VALUES: &[&str] = &[
    "of five to ten bytes | lenient
     m0 u0=34359738366 /m > C0 81 7F 7F 7F 7F FE
     m0 u0=34359738367 /m > 80 7F 7F 7F 7F FF
     m0 u0=34359738368 /m > 80 01 00 00 00 00 80
     m0 u0=4398046511102 /m > 80 7F 7F 7F 7F 7F FE
     m0 u0=4398046511103 /m > 80 7F 7F 7F 7F 7F FF
     m0 u0=4398046511104 /m > 80 01 00 00 00 00 00 80
     m0 u0=562949953421311 /m > 80 7F 7F 7F 7F 7F 7F FF
     m0 u0=562949953421312 /m > 80 01 00 00 00 00 00 00 80
     m0 u0=20101231123456789 /m > 80 23 5A 3E 69 25 25 46 95
     m0 u0=72057594037927934 /m > 80 7F 7F 7F 7F 7F 7F 7F FE
     m0 u0=72057594037927935 /m > 80 7F 7F 7F 7F 7F 7F 7F FF
     m0 u0=72057594037927936 /m > 80 01 00 00 00 00 00 00 00 80
     m0 u0=18446744073709551615 /m > 80 01 7F 7F 7F 7F 7F 7F 7F 7F FF",
    "of five to ten bytes, nullable | lenient
     m1 u1=34359738366 /m > C0 82 7F 7F 7F 7F FF
     m1 u1=34359738367 /m > 80 01 00 00 00 00 80
     m1 u1=34359738368 /m > 80 01 00 00 00 00 81
     m1 u1=4398046511102 /m > 80 7F 7F 7F 7F 7F FF
     m1 u1=4398046511103 /m > 80 01 00 00 00 00 00 80
     m1 u1=4398046511104 /m > 80 01 00 00 00 00 00 81
     m1 u1=562949953421311 /m > 80 01 00 00 00 00 00 00 80
     m1 u1=562949953421312 /m > 80 01 00 00 00 00 00 00 81
     m1 u1=20101231123456789 /m > 80 23 5A 3E 69 25 25 46 96
     m1 u1=72057594037927934 /m > 80 7F 7F 7F 7F 7F 7F 7F FF
     m1 u1=72057594037927935 /m > 80 01 00 00 00 00 00 00 00 80
     m1 u1=72057594037927936 /m > 80 01 00 00 00 00 00 00 00 81
     m1 u1=18446744073709551615 /m > 80 02 00 00 00 00 00 00 00 00 80",
];

#[test]
fn long_integers(rt: HostRuntime) -> Result<(), Fail> {
    expect_rows(&rt, rt.alloc(), INTEGERS, INTEGER_VALUES)
}

/// Decimals by parts: exponents under default, under copy, without operator and under increment; mantissas under delta and under copy.
const DECIMALS: &str = r#"
[[template]]
name = "default"
id = 1
fields = [{kind="decimal", name="a", exponent={op="default", value="-2"}, mantissa={op="delta"}}]
[[template]]
name = "copy"
id = 2
fields = [{kind="decimal", name="b", exponent={op="copy", value="-4"}, mantissa={op="delta"}}]
[[template]]
name = "plain"
id = 3
fields = [{kind="decimal", name="c", optional=true, exponent={}, mantissa={op="copy"}}]
[[template]]
name = "increment"
id = 4
fields = [{kind="decimal", name="d", exponent={op="increment", value="1"}, mantissa={}}]
"#;

const DECIMAL_VALUES: &[&str] = &[
    "an exponent under default | lenient
     m0 d0=12e-2 /m > C0 81 8C
     m0 d0=11e-2 /m > 80 FF
     m0 d0=311e-3 /m > A0 FD 02 AC
     m0 d0=311e-2 /m > 80 80
     m0 d0=311e-64 /m > E2
     m0 d0=310e-2 /m > 80 FF",
    "an exponent under copy | lenient
     m1 d1=5e-4 /m > C0 82 85
     m1 d1=6e-4 /m > 80 81
     m1 d1=6e-3 /m > A0 FD 80
     m1 d1=6e-3 /m > 80 80
     m1 d1=6e64 /m > E2
     m1 d1=7e-3 /m > 80 81",
    "no operator, and a mantissa under copy | lenient
     m2 d2=5e-4 /m > E0 83 FC 85
     m2 d2=5e0 /m > 80 81
     m2 - /m > 80 80
     m2 d2=5e0 /m > 80 81
     m2 d2=6e0 /m > A0 81 86",
    "an exponent under increment | lenient
     m3 d3=5e1 /m > C0 84 85
     m3 d3=5e2 /m > 80 85
     m3 d3=5e2 /m > A0 82 85",
];

#[test]
fn decimals_by_parts(rt: HostRuntime) -> Result<(), Fail> {
    expect_rows(&rt, rt.alloc(), DECIMALS, DECIMAL_VALUES)
}

/// Strings under copy, before a constant by which a message can be refused.
const STRINGS: &str = r#"
[[template]]
name = "strings"
id = 1
fields = [{kind="ascii", name="a", op="copy"}, {kind="bytes", name="b", op="copy"}, {kind="uInt32", name="c", op="constant", value="7"}]
"#;

const STRING_VALUES: &[&str] = &[
    "of one character | lenient
     m0 a0='A' b1=01 u2=7 /m > F0 81 C1 81 01
     m0 a0='B' b1=02 u2=8 /m > E3
     m0 a0='A' b1=01 u2=7 /m > 80
     m0 a0='B' b1=02 u2=7 /m > B0 C2 81 02
     m0 a0='C' b1=03 u2=8 /m > E3
     m0 a0='B' b1=02 u2=7 /m > 80
     m0 a0='A' b1=01 u2=7 /m > B0 C1 81 01",
    "of other lengths, one after the other | lenient
     m0 a0='ABCDEFG' b1=01020304050607 u2=7 /m > F0 81 41 42 43 44 45 46 C7 87 01 02 03 04 05 06 07
     m0 a0='HIJKLMNO' b1=0102030405060708 u2=7 /m > B0 48 49 4A 4B 4C 4D 4E CF 88 01 02 03 04 05 06 07 08
     m0 a0='ABCDEFGHI' b1=010203040506070809 u2=8 /m > E3
     m0 a0='HIJKLMNO' b1=0102030405060708 u2=7 /m > 80
     m0 a0='ABCDEFGHI' b1=010203040506070809 u2=7 /m > B0 41 42 43 44 45 46 47 48 C9 89 01 02 03 04 05 06 07 08 09
     m0 a0='ABCDEFGHI' b1=010203040506070809 u2=7 /m > 80
     m0 a0='ABCDEFGHIJKLMNOP' b1=01 u2=7 /m > B0 41 42 43 44 45 46 47 48 49 4A 4B 4C 4D 4E 4F D0 81 01
     m0 a0='ABCDEFGHIJKLMNOPQ' b1=02 u2=8 /m > E3
     m0 a0='ABCDEFGHIJKLMNOP' b1=01 u2=7 /m > 80
     m0 a0='A' b1=0102030405060708090A0B0C0D0E0F10 u2=7 /m > B0 C1 90 01 02 03 04 05 06 07 08 09 0A 0B 0C 0D 0E 0F 10
     m0 a0='A' b1=0102030405060708090A0B0C0D0E0F10 u2=7 /m > 80
     m0 a0='ABCDEFGHIJKLMNOPQ' b1= u2=7 /m > B0 41 42 43 44 45 46 47 48 49 4A 4B 4C 4D 4E 4F 50 D1 80
     m0 a0='ABCDEFGHIJKLMNOPQ' b1= u2=7 /m > 80",
];

#[test]
fn replaced_strings(rt: HostRuntime) -> Result<(), Fail> {
    expect_rows(&rt, rt.alloc(), STRINGS, STRING_VALUES)
}
