//! Number fields: one field a template, and the contents of its entry are shown by a field of another operator with the same key.

use super::expect_rows;
use std::test::Fail;

/// Fields without an entry.
const WITHOUT_ENTRY: &str = r#"
[[template]]
name = "1"
id = 1
fields = [{name="f", kind="uInt32"}]
[[template]]
name = "2"
id = 2
fields = [{name="f", kind="uInt32", optional=true}]
[[template]]
name = "3"
id = 3
fields = [{name="f", kind="uInt64"}]
[[template]]
name = "4"
id = 4
fields = [{name="f", kind="int32"}]
[[template]]
name = "5"
id = 5
fields = [{name="f", kind="int64", optional=true}]
[[template]]
name = "6"
id = 6
fields = [{name="f", kind="int64"}]
[[template]]
name = "7"
id = 7
fields = [{name="f", kind="uInt64", optional=true, op="default"}]
[[template]]
name = "8"
id = 8
fields = [{name="f", kind="uInt64", op="default", value="3"}]
[[template]]
name = "9"
id = 9
fields = [{name="f", kind="int32", optional=true, op="default"}]
[[template]]
name = "10"
id = 10
fields = [{name="f", kind="decimal"}]
[[template]]
name = "11"
id = 11
fields = [{name="f", kind="decimal", optional=true}]
[[template]]
name = "12"
id = 12
fields = [{name="f", kind="decimal", optional=true, op="default"}]
[[template]]
name = "13"
id = 13
fields = [{name="f", kind="uInt32", op="constant", value="7"}]
[[template]]
name = "14"
id = 14
fields = [{name="f", kind="uInt32", optional=true, op="constant", value="7"}]
[[template]]
name = "15"
id = 15
fields = [{name="f", kind="uInt32", op="default", value="7"}]
[[template]]
name = "16"
id = 16
fields = [{name="f", kind="uInt32", optional=true, op="default"}]
[[template]]
name = "17"
id = 17
fields = [{name="f", kind="int32", optional=true}]
"#;

/// Fields that share an entry.
const KEPT: &str = r#"
[[template]]
name = "1"
id = 1
fields = [{name="f", kind="uInt32", op="copy", key="k"}]
[[template]]
name = "2"
id = 2
fields = [{name="f", kind="uInt32", optional=true, op="copy", key="k"}]
[[template]]
name = "3"
id = 3
fields = [{name="f", kind="int64", op="copy", key="k"}]
[[template]]
name = "4"
id = 4
fields = [{name="f", kind="int64", optional=true, op="increment", key="k"}]
[[template]]
name = "5"
id = 5
fields = [{name="f", kind="int64", op="increment", key="k"}]
[[template]]
name = "6"
id = 6
fields = [{name="f", kind="uInt32", op="delta", key="k"}]
[[template]]
name = "7"
id = 7
fields = [{name="f", kind="uInt32", optional=true, op="delta", key="k"}]
[[template]]
name = "8"
id = 8
fields = [{name="f", kind="int64", op="delta", key="k"}]
[[template]]
name = "9"
id = 9
fields = [{name="f", kind="decimal", op="copy", key="k"}]
[[template]]
name = "10"
id = 10
fields = [{name="f", kind="decimal", optional=true, op="copy", key="k"}]
[[template]]
name = "11"
id = 11
fields = [{name="f", kind="decimal", op="delta", key="k"}]
[[template]]
name = "12"
id = 12
fields = [{name="f", kind="decimal", optional=true, op="delta", key="k"}]
[[template]]
name = "13"
id = 13
fields = [{name="f", kind="int32", op="copy", key="k"}]
[[template]]
name = "14"
id = 14
fields = [{name="f", kind="uInt32", op="copy", value="7", key="k"}]
[[template]]
name = "15"
id = 15
fields = [{name="f", kind="uInt32", optional=true, op="copy", value="7", key="k"}]
[[template]]
name = "16"
id = 16
fields = [{name="f", kind="uInt32", op="increment", key="k"}]
[[template]]
name = "17"
id = 17
fields = [{name="f", kind="uInt32", optional=true, op="increment", key="k"}]
"#;

const INTEGERS_WITHOUT_AN_ENTRY: &str = "\
an unsigned integer of three bytes | strict | C0 81 39 45 A3 | m0 u0=942755 /m | between
one more where it may be absent | strict | C0 82 39 45 A4 | m1 u1=942755 /m | between
absent | strict | C0 82 80 | m1 /m | between
0 where it may be absent | strict | C0 82 81 | m1 u1=0 /m | between
0 | strict | C0 81 80 | m0 u0=0 /m | between
the greatest of 32 bits | strict | C0 81 0F 7F 7F 7F FF | m0 u0=4294967295 /m | between
one past 32 bits | strict | C0 81 10 00 00 00 80 | m0 | D2@7
the greatest of 32 bits where it may be absent | strict | C0 82 10 00 00 00 80 | m1 u1=4294967295 /m | between
an overlong integer | strict | C0 81 00 81 | m0 | R6@4
ten bytes without a stop bit | strict | C0 83 00*10 | m2 | D2@12
a negative integer | strict | C0 84 46 3A DD | m3 i3=-942755 /m | between
a negative integer that may be absent | strict | C0 85 7C 1B 1B 9D | m4 i4=-7942755 /m | between
an absent signed integer | strict | C0 85 80 | m4 /m | between
a signed integer that is cut | strict | C0 86 40 00 | m5 | inside
a default that is sent as absent | strict | E0 87 80 | m6 /m | between
a value in a default's place | strict | E0 88 85 | m7 u7=5 /m | between
a negative value in a default's place | strict | E0 89 FF | m8 i8=-1 /m | between
";

const INTEGERS_THAT_ARE_KEPT: &str = "\
copy: a value that is sent is kept | strict | E0 81 85 C0 81 | m0 u0=5 /m m0 u0=5 /m | between
copy: absent empties the entry | strict | E0 81 87 E0 82 80 C0 81 | m0 u0=7 /m m1 /m m0 | D6@8
increment: absent empties the entry | strict | E0 83 87 E0 84 80 C0 83 | m2 i2=7 /m m3 /m m2 | D6@8
increment: a value that is sent is kept | strict | E0 83 87 E0 85 FF C0 83 | m2 i2=7 /m m4 i4=-1 /m m2 i2=-1 /m \
    | between
delta: the base of an undefined entry is 0 | strict | C0 86 85 C0 81 | m5 u5=5 /m m0 u0=5 /m | between
delta: less than before | strict | E0 81 87 C0 86 FB C0 81 | m0 u0=7 /m m5 u5=2 /m m0 u0=2 /m | between
delta: below 0 | strict | E0 81 87 C0 86 F8 | m0 u0=7 /m m5 | D2@6
delta: absent leaves the entry | strict | E0 81 87 C0 87 80 C0 81 | m0 u0=7 /m m6 /m m0 u0=7 /m | between
delta: absent leaves an empty entry | strict | E0 82 80 C0 87 80 C0 81 | m1 /m m6 /m m0 | D6@8
delta: an empty entry is no base | strict | E0 82 80 C0 87 81 | m1 /m m6 | D6@6
delta: a base of another kind | strict | E0 83 87 C0 86 81 | m2 i2=7 /m m5 | D4@6
delta: signed, below 0 | strict | E0 83 87 C0 88 F8 C0 83 | m2 i2=7 /m m7 i7=-1 /m m2 i2=-1 /m | between
";

const DECIMALS_WITHOUT_AN_ENTRY: &str = "\
a decimal | strict | C0 8A 82 39 45 A3 | m9 d9=942755e2 /m | between
a decimal that may be absent | strict | C0 8B 83 39 45 A3 | m10 d10=942755e2 /m | between
an absent decimal | strict | C0 8B 80 | m10 /m | between
a default decimal that is sent as absent | strict | E0 8C 80 | m11 /m | between
an exponent past 63 | strict | C0 8A 00 C0 | m9 | R1@4
an overlong mantissa | strict | C0 8A BF 00 81 | m9 | R6@5
";

const DECIMALS_THAT_ARE_KEPT: &str = "\
copy: absent empties the entry | strict | E0 89 81 81 E0 8A 80 C0 89 | m8 d8=1e1 /m m9 /m m8 | D6@9
copy: a decimal that is sent is kept | strict | E0 89 FE 85 C0 89 | m8 d8=5e-2 /m m8 d8=5e-2 /m | between
delta: of both parts | strict | E0 89 FE 85 C0 8B 81 FF C0 89 | m8 d8=5e-2 /m m10 d10=4e-1 /m m8 d8=4e-1 /m | between
delta: absent leaves the entry | strict | E0 89 FE 85 C0 8C 80 C0 89 | m8 d8=5e-2 /m m11 /m m8 d8=5e-2 /m | between
delta: absent leaves an empty entry | strict | E0 8A 80 C0 8C 80 C0 89 | m9 /m m11 /m m8 | D6@8
delta: an empty entry is no base | strict | E0 8A 80 C0 8C 81 | m9 /m m11 | D6@6
delta: an exponent past 63 | strict | E0 89 BF 85 C0 8B 81 | m8 d8=5e63 /m m10 | R1@7
delta: a base of another kind | strict | E0 81 85 C0 8B 81 | m0 u0=5 /m m10 | D4@6
";

const NOTHING_IS_SENT: &str = "\
a constant | strict | C0 8D | m12 u12=7 /m | between
a constant that is absent | strict | C0 8E | m13 /m | between
a default | strict | C0 8F | m14 u14=7 /m | between
no default | strict | C0 90 | m15 /m | between
";

const NOTHING_IS_SENT_OF_WHAT_IS_KEPT: &str = "\
copy: the initial value is kept | strict | C0 8E C0 81 | m13 u13=7 /m m0 u0=7 /m | between
copy: the previous value comes before the initial value | strict | E0 81 85 C0 8E C0 81 \
    | m0 u0=5 /m m13 u13=5 /m m0 u0=5 /m | between
copy: a previous value of another kind | strict | E0 8D 85 C0 8E | m12 i12=5 /m m13 | D4@5
copy: an empty entry | strict | E0 82 80 C0 8E | m1 /m m13 | D6@5
copy: an empty entry makes it absent | strict | E0 82 80 C0 8F C0 81 | m1 /m m14 /m m0 | D6@7
increment: an undefined entry | strict | C0 90 | m15 | D5@2
increment: an undefined entry makes it absent, and is empty then | strict | C0 91 C0 81 | m16 /m m0 | D6@4
increment: one more | strict | E0 81 85 C0 90 C0 81 | m0 u0=5 /m m15 u15=6 /m m0 u0=6 /m | between
increment: behind the greatest the least | strict | E0 81 0F 7F 7F 7F FF C0 90 C0 81 \
    | m0 u0=4294967295 /m m15 u15=0 /m m0 u0=0 /m | between
increment: behind the greatest of 64 bits the least | strict | E0 83 00 7F*8 FF C0 85 C0 83 \
    | m2 i2=9223372036854775807 /m m4 i4=-9223372036854775808 /m m2 i2=-9223372036854775808 /m | between
";

#[test]
fn rows_of_kept(rt: HostRuntime) -> Result<(), Fail> {
    expect_rows(
        &rt,
        rt.alloc(),
        KEPT,
        &[
            INTEGERS_THAT_ARE_KEPT,
            DECIMALS_THAT_ARE_KEPT,
            NOTHING_IS_SENT_OF_WHAT_IS_KEPT,
        ],
    )
}

const MANDATORY_INTEGERS: &str = "\
one byte each | strict | C0 81 81 C0 81 82 | m0 u0=1 /m m0 u0=2 /m | between
one byte each, in lenient mode | lenient | C0 81 81 C0 81 82 | m0 u0=1 /m m0 u0=2 /m | between
three bytes | strict | C0 81 39 45 A3 | m0 u0=942755 /m | between
three bytes, in lenient mode | lenient | C0 81 39 45 A3 | m0 u0=942755 /m | between
the greatest | strict | C0 81 0F 7F 7F 7F FF | m0 u0=4294967295 /m | between
the greatest, in lenient mode | lenient | C0 81 0F 7F 7F 7F FF | m0 u0=4294967295 /m | between
one past the greatest | strict | C0 81 10 00 00 00 80 | m0 | D2@7
one past the greatest, in lenient mode | lenient | C0 81 10 00 00 00 80 | m0 | D2@7
ten bytes, none of them 0, without a stop bit | strict | C0 81 01*10 | m0 | D2@12
ten bytes, none of them 0, without a stop bit, in lenient mode | lenient | C0 81 01*10 | m0 | D2@12
nine bytes without a stop bit | strict | C0 81 01*9 | m0 | inside
nine bytes without a stop bit, in lenient mode | lenient | C0 81 01*9 | m0 | inside
a mantissa of three bytes | strict | C0 8A 80 39 45 A3 | m9 d9=942755e0 /m | between
a mantissa of three bytes, in lenient mode | lenient | C0 8A 80 39 45 A3 | m9 d9=942755e0 /m | between
an exponent past 31 bits | strict | C0 8A 10 00 00 00 80 | m9 | R1@7
an exponent past 31 bits, in lenient mode | lenient | C0 8A 10 00 00 00 80 | m9 | R1@7
an exponent of ten bytes without a stop bit | strict | C0 8A 01*10 | m9 | D2@12
an exponent of ten bytes without a stop bit, in lenient mode | lenient | C0 8A 01*10 | m9 | D2@12
nine bytes of an exponent | strict | C0 8A 01*9 | m9 | inside
nine bytes of an exponent, in lenient mode | lenient | C0 8A 01*9 | m9 | inside
overlong, in lenient mode | lenient | C0 81 00 81 | m0 u0=1 /m | between
overlong | strict | C0 81 00 81 | m0 | R6@4
an overlong exponent | strict | C0 8A 00 81 | m9 | R6@4
";

const NULLABLE_AND_SIGNED_INTEGERS: &str = "\
absent | strict | C0 82 80 | m1 /m | between
absent, in lenient mode | lenient | C0 82 80 | m1 /m | between
0 where it may be absent | strict | C0 82 81 | m1 u1=0 /m | between
0 where it may be absent, in lenient mode | lenient | C0 82 81 | m1 u1=0 /m | between
the greatest exponent | strict | C0 8A BF 81 | m9 d9=1e63 /m | between
the greatest exponent, in lenient mode | lenient | C0 8A BF 81 | m9 d9=1e63 /m | between
the least exponent | strict | C0 8A C1 81 | m9 d9=1e-63 /m | between
the least exponent, in lenient mode | lenient | C0 8A C1 81 | m9 d9=1e-63 /m | between
an exponent below the least | strict | C0 8A C0 | m9 | R1@3
an exponent below the least, in lenient mode | lenient | C0 8A C0 | m9 | R1@3
the greatest exponent where it may be absent | strict | C0 8B 00 C0 81 | m10 d10=1e63 /m | between
the greatest exponent where it may be absent, in lenient mode | lenient | C0 8B 00 C0 81 | m10 d10=1e63 /m | between
an exponent past the greatest where it may be absent | strict | C0 8B 00 C1 | m10 | R1@4
an exponent past the greatest where it may be absent, in lenient mode | lenient | C0 8B 00 C1 | m10 | R1@4
no exponent | strict | C0 8B 80 | m10 /m | between
no exponent, in lenient mode | lenient | C0 8B 80 | m10 /m | between
a negative integer | strict | C0 84 46 3A DD | m3 i3=-942755 /m | between
a negative integer, in lenient mode | lenient | C0 84 46 3A DD | m3 i3=-942755 /m | between
ten bytes of a negative integer without a stop bit | strict | C0 91 7F*10 | m16 | D2@12
ten bytes of a negative integer without a stop bit, in lenient mode | lenient | C0 91 7F*10 | m16 | D2@12
";

#[test]
fn rows_of_without_entry(rt: HostRuntime) -> Result<(), Fail> {
    expect_rows(
        &rt,
        rt.alloc(),
        WITHOUT_ENTRY,
        &[
            INTEGERS_WITHOUT_AN_ENTRY,
            DECIMALS_WITHOUT_AN_ENTRY,
            NOTHING_IS_SENT,
            MANDATORY_INTEGERS,
            NULLABLE_AND_SIGNED_INTEGERS,
        ],
    )
}
