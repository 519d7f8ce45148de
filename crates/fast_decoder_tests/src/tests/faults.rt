//! The bytes at which faults are decided, and which fault comes first where several could.

use super::expect_rows;
use std::test::Fail;

/// A template for each type of instruction.
const PLACES: &str = r#"
[[template]]
name = "plain"
id = 1
fields = [{kind="uInt32", name="x"}]
[[template]]
name = "group"
id = 2
fields = [{kind="group", name="g", fields=[{kind="uInt32", name="y", op="copy"}]}]
[[template]]
name = "sequence"
id = 3
fields = [{kind="sequence", name="s", length={op="default", value="3"}, fields=[{kind="uInt32", name="z", op="default", value="1"}]}]
[[template]]
name = "decimals"
id = 4
fields = [{kind="decimal", name="d"}, {kind="decimal", name="e", op="delta"}]
[[template]]
name = "parts"
id = 5
fields = [{kind="decimal", name="p", exponent={op="increment"}, mantissa={op="delta"}}]
[[template]]
name = "delta"
id = 6
fields = [{kind="int32", name="i", op="delta", key="k"}]
[[template]]
name = "optional"
id = 7
fields = [{kind="uInt32", name="u", optional=true, op="copy", key="k"}]
[[template]]
name = "mandatory"
id = 8
fields = [{kind="int32", name="j", op="copy", key="k"}]
[[template]]
name = "vector"
id = 9
fields = [{kind="bytes", name="b"}]
[[template]]
name = "text"
id = 10
fields = [{kind="ascii", name="a", op="delta"}]
[[template]]
name = "copied"
id = 11
fields = [{kind="sequence", name="l", optional=true, length={op="copy"}, fields=[{kind="uInt32", name="m"}]}]
"#;

const MAPS_AND_IDENTIFIERS: &str = "\
an overlong identifier comes before an unknown one | strict | C0 00 D5 | | R6@3
an overlong identifier that is unknown | lenient | C0 00 D5 | | D9@3
an identifier past its type | lenient | C0 10 00 00 00 80 | | D2@6
an unknown identifier comes before a wide map | strict | 40 81 D5 | | D9@3
an overlong map comes before the identifier | strict | 40 80 D5 | | R7@2
no identifier to copy comes before a wide map | strict | 00 81 | | D5@2
a wide map and a copied identifier | strict | C0 81 81 00 81 | m0 u0=1 /m | R8@5
the same map in lenient mode | lenient | C0 81 81 00 81 82 | m0 u0=1 /m m0 u0=2 /m | between
an overlong map of a group | strict | C0 82 00 80 | m1 g1 | R7@4
a wide map of a group | strict | C0 82 40 81 | m1 g1 | R8@4
the same map of a group in lenient mode | lenient | C0 82 40 81 85 | m1 g1 u2=5 /g /m | between
nothing to copy in a group | lenient | C0 82 80 | m1 g1 | D5@3
";

const LENGTHS: &str = "\
a length that is not sent, and elements with a map each | strict | C0 83 80 C0 87 80 \
    | m2 s3*3 e u4=1 /e e u4=7 /e e u4=1 /e /s /m | between
a length that is sent | strict | E0 83 80 | m2 s3*0 /s /m | between
a length that is sent, and elements with a map each | strict | E0 83 82 C0 87 80 | m2 s3*2 e u4=7 /e e u4=1 /e /s /m | between
a length that is sent, copied, absent and copied | strict | E0 8B 83 85 86 C0 8B 87 88 E0 8B 80 C0 8B \
    | m10 s13*2 e u14=5 /e e u14=6 /e /s /m m10 s13*2 e u14=7 /e e u14=8 /e /s /m m10 /m m10 /m | between
a length past the limit | lenient elements=2 | E0 83 83 | m2 | L2@3
an overlong map of an element | strict | C0 83 80 00 80 | m2 s3*3 e u4=1 /e e | R7@5
a length past the limit that is not sent | lenient elements=2 | C0 83 | m2 | L2@2
the limit of the message | lenient total=2 | C0 83 | m2 | L5@2
the limit of the sequence comes before that of the message | lenient elements=2 total=2 | C0 83 | m2 | L2@2
the elements of a message before it do not count | lenient total=3 | C0 83 80*7 \
    | m2 s3*3 e u4=1 /e e u4=1 /e e u4=1 /e /s /m m2 s3*3 e u4=1 /e e u4=1 /e e u4=1 /e /s /m | between
an overlong length | strict | E0 83 00 81 | m2 | R6@4
a length past its type | lenient | E0 83 10 00 00 00 80 | m2 | D2@7
";

const INTEGERS: &str = "\
an overlong integer past its type | lenient | C0 81 00 10 00 00 00 80 | m0 | D2@8
overlong comes before past its type | strict | C0 81 00 10 00 00 00 80 | m0 | R6@8
an overlong delta of another type | strict | E0 87 86 C0 86 00 81 | m6 u9=5 /m m5 | R6@7
a delta of another type | lenient | E0 87 86 C0 86 81 | m6 u9=5 /m m5 | D4@6
a delta of an empty previous value | lenient | E0 87 80 C0 86 81 | m6 /m m5 | D6@6
a delta past its type | strict | C0 86 07 7F 7F 7F FF 80 81 | m5 i8=2147483647 /m m5 | D2@9
nothing to copy | lenient | C0 88 | m7 | D5@2
a copy of another type | lenient | E0 87 86 C0 88 | m6 u9=5 /m m7 | D4@5
a copy of an empty previous value | lenient | E0 87 80 C0 88 | m6 /m m7 | D6@5
a value that is sent takes the place of another type | strict | E0 87 86 E0 88 FF C0 88 \
    | m6 u9=5 /m m7 i10=-1 /m m7 i10=-1 /m | between
";

const DECIMALS: &str = "\
an exponent out of range | strict | C0 84 00 C0 | m3 | R1@4
an exponent past 31 bits | strict | C0 84 08 00 00 00 80 | m3 | R1@7
an overlong exponent out of range | strict | C0 84 00 00 C0 | m3 | R6@5
an overlong exponent out of range, in lenient mode | lenient | C0 84 00 00 C0 | m3 | R1@5
a mantissa past 63 bits | strict | C0 84 80 01 00*8 80 | m3 | R1@13
a mantissa that never stops | lenient | C0 84 80 00*10 | m3 | D2@13
an overlong mantissa | strict | C0 84 80 00 81 | m3 | R6@5
an exponent delta out of range | strict | C0 84 80 81 BF 81 80 80 81 81 | m3 d5=1e0 d6=1e63 /m m3 d5=1e0 | R1@10
a mantissa delta out of range | strict | C0 84 80 81 80 81 80 80 81 80 00 7F*8 FF | m3 d5=1e0 d6=1e0 /m m3 d5=1e0 \
    | R1@20
an increment past the exponents | strict | E0 85 BF 81 80 | m4 d7=1e63 /m m4 | R1@5
an exponent by parts out of range | strict | E0 85 00 C0 | m4 | R1@4
an exponent by parts past its type | strict | E0 85 08 00 00 00 80 | m4 | D2@7
a mantissa by parts past its type | strict | E0 85 80 01 00*8 80 | m4 | D2@13
no exponent to go on from | lenient | C0 85 | m4 | D5@2
";

const SIZES_AND_SUBTRACTION_LENGTHS: &str = "\
an empty vector | strict | C0 89 80 | m8 b11= /m | between
an overlong size | strict | C0 89 00 82 | m8 | R6@4
the same in lenient mode | lenient | C0 89 00 82 01 80 | m8 b11=0180 /m | between
a size one past the limit | lenient | C0 89 08 81 | m8 | L1@4
a size past its type | lenient | C0 89 10 00 00 00 80 | m8 | D2@7
an overlong subtraction length | strict | C0 8A 00 80 | m9 | R6@4
a subtraction length that never stops | lenient | C0 8A 00*10 | m9 | D2@12
";

#[test]
fn rows_of_places(rt: HostRuntime) -> Result<(), Fail> {
    expect_rows(
        &rt,
        rt.alloc(),
        PLACES,
        &[
            MAPS_AND_IDENTIFIERS,
            LENGTHS,
            INTEGERS,
            DECIMALS,
            SIZES_AND_SUBTRACTION_LENGTHS,
        ],
    )
}
