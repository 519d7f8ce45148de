//! Strings and runs of bytes by themselves, and the room that there is for them.

use super::expect_rows;
use std::test::Fail;

/// A string that is sent complete, or after a base that leaves little room; and bytes.
const UNITS: &str = r#"
[[template]]
name = "mandatory"
id = 1
fields = [{kind="ascii", name="f"}]
[[template]]
name = "optional"
id = 2
fields = [{kind="ascii", name="f", optional=true}]
[[template]]
name = "thirteen"
id = 3
fields = [{kind="ascii", name="f", op="delta", value="ABCDEFGHIJKLM"}]
[[template]]
name = "fourteen"
id = 4
fields = [{kind="ascii", name="f", op="delta", value="ABCDEFGHIJKLMN"}]
[[template]]
name = "sixteen"
id = 5
fields = [{kind="ascii", name="f", op="delta", value="ABCDEFGHIJKLMNOP"}]
[[template]]
name = "bytes"
id = 6
fields = [{kind="bytes", name="f"}]
"#;

const TEXTS: &str = "\
a text, and another behind it | lenient text=16 | C0 81 41 42 C3 80 C4 | m0 a0='ABC' /m m0 a0='D' /m | between
as long as there is room | lenient text=16 | C0 81 41*15 C1 | m0 a0='AAAAAAAAAAAAAAAA' /m | between
one character more | lenient text=16 | C0 81 41*16 C1 | m0 | L1@19
no stop bit in sight | lenient text=16 | C0 81 41*17 | m0 | L1@19
two zeros at the end | lenient text=16 | C0 81 41 00 80 | m0 a0='A\0\0' /m | between
a zero at the end | lenient text=16 | C0 81 41 80 | m0 a0='A\0' /m | between
16 characters without a stop bit | lenient text=16 | C0 81 41*16 | m0 | inside
a text, and another behind it, optional | lenient text=16 | C0 82 41 42 C3 80 C4 | m1 a1='ABC' /m m1 a1='D' /m \
    | between
as long as there is room, optional | lenient text=16 | C0 82 41*15 C1 | m1 a1='AAAAAAAAAAAAAAAA' /m | between
one character more, optional | lenient text=16 | C0 82 41*16 C1 | m1 | L1@19
no stop bit in sight, optional | lenient text=16 | C0 82 41*17 | m1 | L1@19
two zeros at the end, optional | lenient text=16 | C0 82 41 00 80 | m1 a1='A\0\0' /m | between
a zero at the end, optional | lenient text=16 | C0 82 41 80 | m1 a1='A\0' /m | between
16 characters without a stop bit, optional | lenient text=16 | C0 82 41*16 | m1 | inside
empty | lenient text=16 | C0 81 80 | m0 a0='' /m | between
absent | lenient text=16 | C0 82 80 | m1 /m | between
a zero in front of nothing | lenient text=16 | C0 81 00 | m0 | R9@3
empty, optional | lenient text=16 | C0 82 00 80 | m1 a1='' /m | between
a zero in front of a character, optional | lenient text=16 | C0 82 00 C1 | m1 | R9@4
a zero, optional | lenient text=16 | C0 82 00 | m1 | inside
forty characters and one | lenient \
    | C0 82 66 6F 72 74 79 20 63 68 61 72 61 63 74 65 72 73 2C 20 61 6C 6C 20 6F 66 20 74 68 65 6D 20 69 6E 20 6F 6E \
    65 20 72 75 6E AE | m1 a1='forty characters, all of them in one run.' /m | between
room for three behind a base | lenient text=16 | C0 83 80 41 42 C3 | m2 a2='ABCDEFGHIJKLMABC' /m | between
room for two | lenient text=16 | C0 84 80 41 42 C3 | m3 | L1@6
room for two, and no stop bit in sight | lenient text=16 | C0 84 80 41 41 41 | m3 | L1@6
room for none | lenient text=16 | C0 85 80 C1 | m4 | L1@4
room for none, and none comes | lenient text=16 | C0 85 80 80 | m4 a4='ABCDEFGHIJKLMNOP' /m | between
";

const RUNS_OF_BYTES: &str = "\
three bytes, and one behind them | lenient text=16 | C0 86 83 00 80 FF 80 81 41 | m5 b5=0080FF /m m5 b5=41 /m \
    | between
four bytes of five | lenient text=16 | C0 86 85 00 80 FF 41 | m5 | inside
";

#[test]
fn rows_of_units(rt: HostRuntime) -> Result<(), Fail> {
    expect_rows(&rt, rt.alloc(), UNITS, &[TEXTS, RUNS_OF_BYTES])
}
