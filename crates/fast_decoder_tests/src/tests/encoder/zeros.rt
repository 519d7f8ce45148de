//! ASCII strings with zeros in front, under each operator and beside a constant.

use super::expect_rows;
use std::test::Fail;

/// ASCII under each operator, and beside a constant.
const ZEROS: &str = r#"
[[template]]
name = "none"
id = 1
fields = [{kind="ascii", name="a"}]
[[template]]
name = "copy"
id = 2
fields = [{kind="ascii", name="b", optional=true, op="copy"}]
[[template]]
name = "delta"
id = 3
fields = [{kind="ascii", name="c", op="delta"}]
[[template]]
name = "tail"
id = 4
fields = [{kind="ascii", name="d", op="tail"}]
[[template]]
name = "default"
id = 5
fields = [{kind="ascii", name="e", op="default", value="\u0000A"}]
[[template]]
name = "initial"
id = 6
fields = [{kind="ascii", name="f", op="delta", value="\u0000A"}]
[[template]]
name = "before"
id = 7
fields = [{kind="ascii", name="g"}, {kind="uInt32", name="h", op="constant", value="7"}]
[[template]]
name = "behind"
id = 8
fields = [{kind="uInt32", name="i", op="constant", value="7"}, {kind="ascii", name="j"}]
[[template]]
name = "element"
id = 9
fields = [{kind="sequence", name="k", fields=[{kind="ascii", name="l", op="copy"}]}]
"#;

const ZEROS_IN_FRONT: &[&str] = &[
    "of a text | lenient
     m0 a0='\0' /m > R9
     m0 a0='\0A' /m > R9
     m0 a0='A\0' /m > C0 81 41 80",
    "of a text that is copied | lenient
     m1 a1='A' /m > E0 82 C1
     m1 a1='\0A' /m > R9
     m1 a1='A' /m > 80",
    "of a delta's part | lenient
     m2 a2='ABC' /m > C0 83 80 41 42 C3
     m2 a2='AB\0' /m > R9
     m2 a2='A\0C' /m > R9
     m2 a2='\0ABC' /m > R9
     m2 a2='A\0BC' /m > 80 FE 41 80",
    "of a tail's part | lenient
     m3 a3='ABC' /m > E0 84 41 42 C3
     m3 a3='AB\0' /m > R9
     m3 a3='\0ABC' /m > R9
     m3 a3='XB\0' /m > A0 58 42 80",
    "of a text that is not sent, or not in front | lenient
     m4 a4='\0B' /m > R9
     m4 a4='\0A' /m > C0 85
     m4 a4='B' /m > A0 C2
     m5 a5='\0B' /m > C0 86 81 C2",
    "before and behind another constant | lenient
     m6 a6='\0' u7=8 /m > R9
     m6 a6='A' u7=8 /m > E3
     m7 u8=8 a9='\0' /m > E3
     m7 u8=7 a9='\0' /m > R9
     m7 u8=7 a9='A' /m > C0 88 C1",
    "in the second element | lenient
     m8 s10*1 e a11='A' /e /s /m > C0 89 81 C0 C1
     m8 s10*2 e a11='B' /e e a11='\0' /e /s /m > R9
     m8 s10*1 e a11='A' /e /s /m > 80 81 80",
];

#[test]
fn zeros_in_front(rt: HostRuntime) -> Result<(), Fail> {
    expect_rows(&rt, rt.alloc(), ZEROS, ZEROS_IN_FRONT)
}
